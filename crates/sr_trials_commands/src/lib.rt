//! Tests of the commands: their words, `run` over a host in memory, the real host, and the program in two processes.
#![tactic(auto)]

#[cfg(test)]
mod clients;
#[cfg(test)]
mod common;
#[cfg(test)]
mod explained;
#[cfg(test)]
mod faults;
#[cfg(test)]
mod hosts;
#[cfg(test)]
mod processes;
#[cfg(test)]
mod programs;
#[cfg(test)]
mod replays;
#[cfg(test)]
mod wires;
#[cfg(test)]
mod words;
