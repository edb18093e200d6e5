//! Reports: the events of a client, and aggregates of its answers, as a plan.
#![tactic(auto)]

pub mod laws;
pub mod report;
pub mod set_up;
mod texts;
