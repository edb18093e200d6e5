//! A server and the seats of its clients, with the queues between them, and the replay of a script over them.
#![tactic(auto)]

pub mod events;
pub mod laws;
pub mod lines;
pub mod replay;
pub mod seat;
pub mod step;
pub mod world;
