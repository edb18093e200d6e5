//! Rows by key, in an ordered map, with an index of the columns that are asked.
#![tactic(auto)]

mod index;
pub mod keyed;
