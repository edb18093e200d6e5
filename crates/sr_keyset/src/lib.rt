//! A script of a client, whose joins of two tables are run by key sets: first their left part, and then of the right part the rows with
//! the keys that the left one has.
#![tactic(auto)]

mod jobs;
pub mod key_sets;
pub mod laws;
mod lines;
pub mod set_up;
mod tables;
mod told;
