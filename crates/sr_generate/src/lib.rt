//! A large script, made from a number.
#![tactic(auto)]

pub mod draw;
pub mod laws;
pub mod line;
pub mod script;
