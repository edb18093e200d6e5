//! How a query would be answered, told before it is asked: the explanation as a value, and the lines of a trace that tell it.
#![tactic(auto)]

pub mod explanation;
pub mod lines;
