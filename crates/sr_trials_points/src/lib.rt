//! Tests of points: their unions, the regions and stores that keep them, and the lines that tell of them.
#![tactic(auto)]

#[cfg(test)]
mod calls;
#[cfg(test)]
mod common;
#[cfg(test)]
mod explain;
#[cfg(test)]
mod region;
#[cfg(test)]
mod script;
#[cfg(test)]
mod store;
#[cfg(test)]
mod union;
