//! Runs of scripts, as definitions: what trace the events of a script may give, over any number of clients, in any order, with or
//! without eager delivery.
#![tactic(auto)]

pub mod laws;
