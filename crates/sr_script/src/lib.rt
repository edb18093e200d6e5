//! The lines of a trace, and their text.
#![tactic(auto)]

pub mod cells;
mod forms;
pub mod laws;
pub mod line;
pub mod rects;
pub mod text;
pub mod words;
