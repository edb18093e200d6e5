//! The order in which a client drops classes of what it holds.
#![tactic(auto)]

pub mod policy;
