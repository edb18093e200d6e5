//! The words of the program, which the library `clap` reads.
#![tactic(auto)]

pub mod command;
pub mod fault;
mod form;
pub mod laws;
pub mod read;
mod said;
mod value;
