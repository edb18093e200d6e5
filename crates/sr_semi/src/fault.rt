//! Why a text is not run by its sides.
use sr_cell::fault::Fault;

/// The text is no query of the tables, it is one of another number of them than two, or its left text can't be read.
#[derive(Clone, Copy, Debug, PartialEq, Eq)]
pub enum SemiFault {
    Sql(Fault),
    NotTwo { tables: u32 },
    Unread(Fault),
}
