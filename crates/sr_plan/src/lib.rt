//! Plans: what is to be done, one task after another, where the next may depend on the answer of the last.
#![tactic(auto)]

pub mod laws;
