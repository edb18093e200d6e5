//! Joins of two tables as queries of one: first the left part, and then of the right part the rows with the keys that the left one has.
#![tactic(auto)]

mod conjuncts;
mod copies;
pub mod fault;
mod joining;
mod keys;
pub mod laws;
mod reading;
pub mod semi;
mod sides;
pub mod stage;
mod starts;
mod steps;
mod texts;
