//! Why a message is refused.

/// What stands against a message, the first in this order: a kind that only the receiver sends; one that does not fit what is
/// open or out; another request's number; an earlier version; or a part that does not fit the schema or what was asked.
#[derive(Clone, Copy, Debug, PartialEq, Eq)]
pub enum BadFrame {
    Direction,
    State,
    Number,
    Version,
    Shape,
}
