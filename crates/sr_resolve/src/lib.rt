//! The names of a query: its tables, the columns that its references mean, its joins, and what it selects.
#![tactic(auto)]

pub mod joins;
mod lookup;
pub mod outputs;
pub mod references;
pub mod tables;
