//! The changes of the newest versions, up to a limit.
#![tactic(auto)]

pub mod entry;
pub mod laws;
pub mod log;
