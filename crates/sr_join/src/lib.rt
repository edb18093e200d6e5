//! The answer of a query, from rows that are lent of each of its tables.
#![tactic(auto)]

mod join;
pub mod lending;
pub mod runs;
pub mod shown;
mod unite;
