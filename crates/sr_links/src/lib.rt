//! A client over a link, as definitions: what it does step by step, what is honest of a link, and that over an honest link each step is
//! true.
#![tactic(auto)]

pub mod laws;
