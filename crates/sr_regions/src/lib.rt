//! The regions of a store as one list, with an index from keys to the regions that have a row of them.
#![tactic(auto)]

pub mod holders;
mod index;
pub mod laws;
pub mod regions;
mod touched;
