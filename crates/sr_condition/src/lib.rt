//! Conditions on one table: as rects, and whether they are true of a row.
#![tactic(auto)]

pub mod passes;
pub(crate) mod ranges;
pub mod rects;
pub(crate) mod spans;
pub mod width;
