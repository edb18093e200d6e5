//! Tables with their rows by key: statements that change them, and loads.
#![tactic(auto)]

mod by_key;
mod carry;
mod changes;
mod delete;
mod faults;
mod fresh;
mod insert;
mod load;
mod places;
mod put;
mod select;
mod span;
pub mod tables;
mod turns;
mod update;
