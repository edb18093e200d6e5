//! Lists of rows by key ascending.
#![tactic(auto)]

mod merge;
pub mod rows;
