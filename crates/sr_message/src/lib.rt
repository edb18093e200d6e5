//! The messages between a server and its clients.
#![tactic(auto)]

pub mod message;
