//! What is left of a part of a query where a client holds some of its points, and which columns are shipped for that.
#![tactic(auto)]

pub mod trim;
