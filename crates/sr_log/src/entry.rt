//! Entries of a log.
use sr_cell::change::Changes;

/// A version, and its changes.
#[derive(Drop)]
pub struct Entry {
    pub version: u64,
    pub changes: Changes,
}
