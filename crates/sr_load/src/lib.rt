//! The rows of CSV files.
#![tactic(auto)]

mod fields;
pub mod fill;
mod header;
pub mod load;
mod records;
