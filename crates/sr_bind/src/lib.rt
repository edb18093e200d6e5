//! Binding: what a statement asks of the tables of a schema or writes to them, or its first fault.
#![tactic(auto)]

pub mod bind;
mod conditions;
mod conjuncts;
mod inserts;
mod lookup;
mod mixed;
mod needs;
mod parts;
mod references;
mod split;
mod updates;
mod values;
pub mod write;
