//! The program `client` over a link, by a client of which only its contract is known: definitions of what a run did, and the loops.
#![tactic(auto)]

pub mod ending;
pub mod parts;
pub mod plans;
pub mod run;
pub mod steps;
pub mod waiting;
