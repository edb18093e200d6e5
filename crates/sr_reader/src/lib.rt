//! Reading of scripts: CREATE lines of any tables, then the events of any clients.
#![tactic(auto)]

pub mod cut;
pub mod events;
pub mod head;
pub mod line;
pub mod lines;
pub mod meaning;
mod parts;
pub mod script;
pub mod words;
