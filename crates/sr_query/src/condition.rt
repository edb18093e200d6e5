//! Conditions whose tests know their columns.
use sr_cell::cell::{Cell, Row};
use sr_cell::text::Text;
use sr_grammar::statement::Op;

/// A column of a part of a query, both by their numbers.
#[derive(Clone, Copy)]
pub struct Output {
    pub part: u8,
    pub column: u8,
}

/// What a column is tested for.
#[derive(Drop)]
pub enum Test {
    Compared(Op, Cell),
    Between(Cell, Cell),
    OneOf(Row),
    Prefix(Text),
    IsNull,
}

/// A condition. A test has the place of its reference in the text.
#[derive(Drop)]
pub enum Condition {
    Test(u32, Output, Test),
    And(Vec<Condition>),
    Or(Vec<Condition>),
    Not(Box<Condition>),
}
