//! What one call of `fetch` answers.

/// What came over a link.
#[derive(Clone, Copy, Debug, PartialEq, Eq)]
pub enum Fetched {
    /// So many bytes.
    More { bytes: usize },
    /// The connection has ended; so many bytes came before and are not read yet.
    End { left: usize },
    /// The link failed.
    LinkFault,
}
