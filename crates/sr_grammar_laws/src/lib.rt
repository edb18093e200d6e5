//! Reading by the words of the grammar, and the proof that it is exact: definitions and laws.
#![tactic(auto)]

pub mod laws;
