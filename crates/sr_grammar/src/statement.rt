//! Statements as trees. A `place` is the byte of the text where that part begins.
use sr_cell::cell::Cell;
use sr_cell::list::Seq;
use sr_cell::table::{Kind, Table};
use sr_cell::text::Text;

/// A column, with its table where that is written.
#[derive(Drop)]
pub struct Name {
    pub table: Option<Text>,
    pub column: Text,
    pub place: u32,
}

pub type Names = Seq<Name>;

/// A number or a text, or NULL where a value is given.
#[derive(Drop)]
pub struct Literal {
    pub cell: Cell,
    pub place: u32,
}

pub type Literals = Seq<Literal>;

/// A comparison.
#[derive(Clone, Copy)]
pub enum Op {
    Eq,
    Ne,
    Lt,
    Le,
    Gt,
    Ge,
}

/// What a column is tested for. The literal of a prefix is the text before the `%`.
#[derive(Drop)]
pub enum Atom {
    Cmp(Op, Literal),
    Between(Literal, Literal),
    OneOf(Literals),
    Prefix(Literal),
    NotBetween(Literal, Literal),
    NotOneOf(Literals),
    NotPrefix(Literal),
    IsNull,
    NotNull,
}

/// A condition.
#[derive(Drop)]
pub enum Cond {
    Test(Name, Atom),
    And(Vec<Cond>),
    Or(Vec<Cond>),
    Not(Box<Cond>),
}

/// A joined table, with both columns of its ON, whose place is `place`.
#[derive(Drop)]
pub struct JoinOn {
    pub table: Text,
    pub table_place: u32,
    pub left: Name,
    pub right: Name,
    pub place: u32,
}

pub type JoinOns = Seq<JoinOn>;

/// A query; `all` stands for `*`. The place is that of WHERE, or 0.
#[derive(Drop)]
pub struct Select {
    pub all: bool,
    pub list: Names,
    pub first: Text,
    pub first_place: u32,
    pub joins: JoinOns,
    pub filter: Option<Cond>,
    pub place: u32,
}

/// A row of an INSERT, with the place of its parenthesis.
#[derive(Drop)]
pub struct LiteralRow {
    pub literals: Literals,
    pub place: u32,
}

pub type LiteralRows = Seq<LiteralRow>;

/// Rows for a table; `columns` is empty where no list of columns is written. The place is that of the table's name.
#[derive(Drop)]
pub struct Insert {
    pub table: Text,
    pub place: u32,
    pub columns: Names,
    pub rows: LiteralRows,
}

/// A column that gets a value.
#[derive(Drop)]
pub struct Set {
    pub name: Name,
    pub value: Literal,
}

pub type Sets = Seq<Set>;

/// New values for the rows of a table. The place is that of the table's name.
#[derive(Drop)]
pub struct Update {
    pub table: Text,
    pub place: u32,
    pub sets: Sets,
    pub filter: Option<Cond>,
}

/// The end of rows of a table. The place is that of the table's name.
#[derive(Drop)]
pub struct Delete {
    pub table: Text,
    pub place: u32,
    pub filter: Option<Cond>,
}

/// A statement.
#[derive(Drop)]
pub enum Statement {
    Create(Table),
    Select(Select),
    Insert(Insert),
    Update(Update),
    Delete(Delete),
}

/// The range of a CHECK, both ends inside, with the column that it names.
#[derive(Drop)]
pub struct Check {
    pub name: Text,
    pub low: i64,
    pub high: i64,
}

/// What is said of a column.
#[derive(Drop)]
pub enum ColumnRule {
    PrimaryKey,
    NotNull,
    Null,
    Check(Check),
}

/// A column as a CREATE defines it.
#[derive(Drop)]
pub struct Definition {
    pub name: Text,
    pub kind: Kind,
    pub rules: Seq<ColumnRule>,
}

pub type Definitions = Seq<Definition>;
