//! Messages as frames of bytes.
#![tactic(auto)]

pub mod bad_frame;
pub mod body;
pub mod encode;
pub mod frame;
pub mod kind;
pub mod laws;
pub mod own;
pub mod views;
pub mod why;
pub mod wire_fault;
