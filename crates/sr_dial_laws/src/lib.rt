//! Laws of runs of `client`: what is true of a run over an honest link, and over any.
#![tactic(auto)]

pub mod laws;
