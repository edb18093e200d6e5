//! The program `serve`, once its words and files are read.
#![tactic(auto)]

pub mod exec;
pub mod laws;
pub mod serve;
pub mod server_end;
