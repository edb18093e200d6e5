//! Definitions of texts: how cells are printed, and what the lines of a script say. There is no code here but laws of worked values.
#![tactic(auto)]

pub mod laws;
