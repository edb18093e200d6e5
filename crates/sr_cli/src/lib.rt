//! The commands, with their statuses and error lines: replays a script, explains a query behind it, serves tables, runs a client of a
//! server, of each kind, saves what it holds or starts from that, or makes a script.
#![tactic(auto)]

mod client;
mod explain;
mod file;
mod frames;
mod generate;
mod kinds;
pub mod laws;
mod loads;
mod replay;
mod report;
pub mod run;
mod save;
mod serve;
mod stop;
mod warm;
