//! A cache as bytes: what a client holds, written as an image, and read from one.
#![tactic(auto)]

pub mod image;
mod index;
pub mod items;
pub mod joining;
mod known;
pub mod laws;
pub mod read;
mod rects;
mod rows;
mod texts;
pub mod write;
