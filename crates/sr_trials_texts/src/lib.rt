//! Tests of what is read and written: files and links, scripts and statements, bytes and frames.
#![tactic(auto)]

#[cfg(test)]
mod bytes;
#[cfg(test)]
mod common;
#[cfg(test)]
mod feed;
#[cfg(test)]
mod images;
#[cfg(test)]
mod io;
#[cfg(test)]
mod print;
#[cfg(test)]
mod reader;
#[cfg(test)]
mod semi;
#[cfg(test)]
mod setup;
#[cfg(test)]
mod tokens;
#[cfg(test)]
mod wire;
