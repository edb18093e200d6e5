//! The server of up to 64 clients: one call for each thing that happens to it, which answers the messages that it sends.
#![tactic(auto)]

mod begin;
mod due;
mod index;
mod misfit;
pub mod outbox;
mod serve;
pub mod server;
pub mod session;
