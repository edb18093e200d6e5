//! Statements as trees, the grammar of SQL as definitions, and the words that it reserves.
#![tactic(auto)]

pub mod laws;
pub mod statement;
pub mod words;
