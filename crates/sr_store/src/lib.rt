//! The regions that a client keeps: one for each class of held points.
#![tactic(auto)]

mod absorb;
mod add;
mod answer;
mod arrive;
mod fit;
mod give_way;
pub mod laws;
mod lookup;
mod marks;
mod parting;
mod restamp;
pub mod start;
pub mod store;
