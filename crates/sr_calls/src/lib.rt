//! The client at its end of a connection, and its run over a plan.
#![tactic(auto)]

pub mod calls;
pub mod client_end;
pub mod laws;
pub mod run;
pub mod start;
