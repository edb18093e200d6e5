//! Marks, and definitions of what a client holds, as the history of its marks says, and of what it asks and drops. There is
//! no code here but laws of worked values.
#![tactic(auto)]

pub mod laws;
pub mod mark;
