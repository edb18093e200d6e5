//! Sessions between clients and the server, as definitions: what a server sends, what the messages under way promise, what a client
//! may do, and what every event of a scene of clients leaves standing.
#![tactic(auto)]

pub mod laws;
