//! A client as a handle, for callers who know no types of it: calls take and give numbers, bytes and texts. Once it is made,
//! none of its calls has a `requires`.
#![tactic(auto)]

pub mod handle;
pub mod left;
pub mod open;
mod pack;
pub mod said;
pub mod seat;
pub mod show;
mod tell;
pub mod told;
