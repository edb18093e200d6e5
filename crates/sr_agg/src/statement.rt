//! An aggregate as it is written. A `place` is the byte of the text where that part begins.
use crate::item::Function;
use sr_cell::list::Seq;
use sr_cell::text::Text;
use sr_grammar::statement::{Name, Names};

/// What is told of a group: a column that groups, how many rows there are, or what a function tells of a column.
#[derive(Drop)]
pub enum Listed {
    Plain(Name),
    Rows,
    Of(Function, u32, Name),
}

pub type ListedItems = Seq<Listed>;

/// A statement, from the place of its FROM up to `until`, or to its end, the text of its query. The table is the first
/// that the query names.
#[derive(Drop)]
pub struct Aggregate {
    pub items: ListedItems,
    pub from: u32,
    pub table: Option<Text>,
    pub until: Option<u32>,
    pub groups: Option<Names>,
}
