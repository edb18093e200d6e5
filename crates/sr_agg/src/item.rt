//! What is told of a group.
use sr_cell::cell::Cell;
use sr_cell::list::Seq;

/// How many values there are, their sum, the least of them or the greatest.
#[derive(Clone, Copy)]
pub enum Function {
    Count,
    Sum,
    Min,
    Max,
}

/// The value of a column that groups, by its place among these; how many rows there are; or what a function tells of
/// the values of a column of the rows.
#[derive(Clone, Copy)]
pub enum Item {
    Grouping(usize),
    Rows,
    Of(Function, usize),
}

pub type Items = Seq<Item>;

/// What is told of a group: one cell for each item, and None for NULL.
pub type GroupRow = Seq<Option<Cell>>;

/// One row for each group.
pub type GroupRows = Seq<GroupRow>;
