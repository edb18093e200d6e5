//! What a server has still to send for a request, each message by what it is made from.
#![tactic(auto)]

pub mod asked;
pub mod item;
pub mod left;
pub mod told;
