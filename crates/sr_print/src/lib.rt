//! The one printed form of a statement.
#![tactic(auto)]

mod conditions;
mod definitions;
pub mod laws;
mod parts;
pub mod print;
mod printer;
mod statements;
