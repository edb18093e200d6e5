//! A client by itself: its regions, what it asks, and what it makes of the messages that come.
#![tactic(auto)]

pub mod answer;
pub mod asks;
pub mod client;
pub mod cut;
pub mod explain;
pub mod laid;
pub mod laws;
pub mod misfit;
pub mod query;
pub mod resume;
pub mod settle;
pub mod start;
pub mod steps;
pub mod take;
mod values;
mod victims;
pub mod write;
