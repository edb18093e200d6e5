//! What is written where a script is replayed to see how a query would be answered behind it.
#![tactic(auto)]

pub mod explain;
pub mod nowhere;
