//! The outside: what is read, written and sent, over the runtime and in memory.
#![tactic(auto)]

pub mod fails;
pub mod file;
pub mod laws;
pub mod mem_host;
pub mod mem_link;
pub mod mem_sink;
pub mod mem_source;
pub mod outside;
mod piece;
pub mod real_host;
pub mod whole;
pub mod wire;
