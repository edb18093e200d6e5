//! Reading a statement of SQL, or its first fault.
#![tactic(auto)]

mod columns;
mod conditions;
mod cursor;
mod items;
mod judge;
pub mod read;
mod statements;
mod stop;
mod words;
