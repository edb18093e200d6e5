//! Aggregates: what is told of the groups of an answer's rows.
#![tactic(auto)]

pub mod agg;
mod cursor;
mod groups;
mod inner;
pub mod item;
pub mod laws;
mod list;
mod read;
mod statement;
mod stop;
mod tally;
#[cfg(test)]
mod tests;
mod total;
