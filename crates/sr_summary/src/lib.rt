//! What the replay of a script that is made from a number comes to.
#![tactic(auto)]

pub mod count;
pub mod summary;
