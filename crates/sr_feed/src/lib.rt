//! Streams of bytes as frames, and queues of messages as such bytes.
#![tactic(auto)]

pub mod feed;
pub mod fetched;
pub mod laws;
pub mod queue;
