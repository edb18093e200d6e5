//! The points that a client asked for, and which changes touch them.
#![tactic(auto)]

pub mod subs;
