//! The programs `serve` and `client` over links: definitions of what a run did, and the loops.
#![tactic(auto)]

pub mod frames;
pub mod parts;
pub mod rounds;
pub mod serve;
