//! Cells, rows, spans and rects as bytes: written, and read in place.
#![tactic(auto)]

pub mod cursor;
pub mod item;
pub mod laws;
pub mod own;
pub mod views;
pub mod write;
