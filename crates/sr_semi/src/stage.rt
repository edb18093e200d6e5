//! Where a join stands, and what comes of an answer.
use crate::keys::Keys;
use sr_cell::cell::Rows;
use sr_cell::text::Text;

/// What is to be done next.
#[derive(Drop)]
pub enum Next {
    /// The text is to be run, and its rows are to be given.
    Run(Text),
    /// The rows of the join, at that version; its right part was asked for so many keys.
    Joined { version: u64, keys: u32, rows: Rows },
    /// The query is to be run as it is.
    Plain,
}

/// Which text was named last, and what is kept of the answers before.
#[derive(Drop)]
pub enum Stage {
    Left,
    Right {
        version: u64,
        keys: Keys,
        lefts: Rows,
    },
    LeftAgain {
        version: u64,
        keys: Keys,
        rights: Rows,
    },
    Over,
}

/// What comes of an answer, and where the join stands then.
#[derive(Drop)]
pub struct Step {
    pub next: Next,
    pub stage: Stage,
}
