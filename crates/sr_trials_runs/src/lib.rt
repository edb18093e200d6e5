//! Tests of what runs: the log, joins, a client, a server, and how lines are counted.
#![tactic(auto)]

#[cfg(test)]
mod client;
#[cfg(test)]
mod common;
#[cfg(test)]
mod join;
#[cfg(test)]
mod log;
#[cfg(test)]
mod server;
#[cfg(test)]
mod summary;
