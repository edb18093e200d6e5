//! Regions: what a client's cache holds of a set of points of one table.
#![tactic(auto)]

mod apply;
pub mod halves;
pub mod inside;
pub mod laws;
pub mod region;
pub mod steps;
