//! The rows of an INSERT.
ghost use Rattle.std.specs.Prelude.{◌≡◌, ◌<◌, ◌≤◌, IsTrue, IfOk, [], length, map};
ghost use Rattle.std.specs.List.{list_all};
ghost use Rattle.sr_query.specs.Binding.{column_named, each};
ghost use Rattle.sr_query.specs.Bound.{is_table};
ghost use Rattle.sr_query.specs.Decided.{Decides};
ghost use Rattle.sr_query.specs.Writes.{new_column, columns_from, numbers_from, listed, typed_each, value_for, row_of};
ghost use Rattle.sr_bind.specs.Written.{cells_of, are_columns, rows_of};

use crate::lookup::{column_named, kind_at};
use crate::values::typed;
use sr_cell::cell::{Cell, Row, Rows};
use sr_cell::fault::{Fault, Why};
use sr_cell::list::{Copied, No, NoMemory, Seq};
use sr_cell::table::{Column, Table};
use sr_grammar::statement::{Insert, Literal, LiteralRow, Name};
use std::alloc::Global;

/// Columns of a table by their numbers.
type ColumnNumbers = Seq<u8>;

/// The rows, their cells in the order of the table's columns.
pub fn rows_of(alloc: Global, table: &Table, insert: &Insert) -> Result<Rows, No<Fault>>
    requires { IsTrue (is_table table.now) }
    ensures { Decides (λ rows. rows) result (rows_of table.now insert.now) }
{
    let columns = match listed(alloc, table, insert.place, insert.columns.as_slice()) {
        Ok(columns) => columns,
        Err(no) => return Err(no),
    };
    ordered_rows(alloc, table, columns.as_slice(), insert.rows.as_slice())
}

/// The columns for which rows have values: the listed ones, which are all of the table's, or these without a list.
fn listed(
    alloc: Global,
    table: &Table,
    place: u32,
    names: &[Name],
) -> Result<ColumnNumbers, No<Fault>>
    requires { IsTrue (is_table table.now) }
    ensures decided { Decides (λ columns. columns) result (listed table.now place names.now) }
    ensures within { IfOk result (λ columns. IsTrue (are_columns table.now columns)) }
{
    if names.is_empty() {
        return Ok(all_columns(alloc, table)?);
    }
    let columns = match named_columns(alloc, table, names) {
        Ok(columns) => columns,
        Err(no) => return Err(no),
    };
    if columns.len() != table.columns.len() {
        return Err(No::Refused(Fault {
            why: Why::WrongCount,
            at: place,
        }));
    }
    Ok(columns)
}

fn all_columns(alloc: Global, table: &Table) -> Result<ColumnNumbers, NoMemory>
    requires { IsTrue (is_table table.now) }
    ensures all { IfOk result (λ columns. columns ≡ numbers_from 0 table.now.columns) }
    ensures within { IfOk result (λ columns. IsTrue (are_columns table.now columns)) }
{
    let mut columns = Seq::new(alloc);
    for column in 0..table.columns.len() {
        columns.push(column as u8)?;
    }
    Ok(columns)
}

/// The columns of these names, each once.
fn named_columns(alloc: Global, table: &Table, names: &[Name]) -> Result<ColumnNumbers, No<Fault>>
    requires { IsTrue (is_table table.now) }
    ensures decided { Decides (λ columns. columns) result (columns_from table.now [] names.now) }
    ensures within { IfOk result (λ columns. IsTrue (are_columns table.now columns)) }
{
    let mut named = Seq::new(alloc);
    for name in names {
        match new_column(table, named.as_slice(), name) {
            Ok(column) => named.push(column)?,
            Err(fault) => return Err(No::Refused(fault)),
        }
    }
    Ok(named)
}

/// The column of that name, which is none of those that are named already.
fn new_column(table: &Table, named: &[u8], name: &Name) -> Result<u8, Fault>
    requires { IsTrue (is_table table.now) }
    ensures decided { result ≡ new_column named.now name.now.place (column_named 0 table.now.columns name.now.column) }
    ensures within { IfOk result (λ c. c < length table.now.columns) }
{
    match column_named(table.columns.as_slice(), name.column.as_str()) {
        None => Err(Fault {
            why: Why::UnknownColumn,
            at: name.place,
        }),
        Some(column) => {
            if named.contains(&column) {
                return Err(Fault {
                    why: Why::Repeated,
                    at: name.place,
                });
            }
            Ok(column)
        }
    }
}

fn ordered_rows(
    alloc: Global,
    table: &Table,
    columns: &[u8],
    rows: &[LiteralRow],
) -> Result<Rows, No<Fault>>
    requires { IsTrue (are_columns table.now columns.now) }
    ensures { Decides (λ rows. rows) result (each (row_of table.now columns.now) rows.now) }
{
    let mut ordered = Seq::new(alloc);
    for row in rows {
        match ordered_row(alloc, table, columns, row) {
            Ok(row) => ordered.push(row)?,
            Err(no) => return Err(no),
        }
    }
    Ok(ordered)
}

fn ordered_row(
    alloc: Global,
    table: &Table,
    columns: &[u8],
    row: &LiteralRow,
) -> Result<Row, No<Fault>>
    requires { IsTrue (are_columns table.now columns.now) }
    ensures { Decides (λ cells. cells) result (row_of table.now columns.now row.now) }
{
    let literals = row.literals.as_slice();
    if literals.len() != columns.len() {
        return Err(No::Refused(Fault {
            why: Why::WrongCount,
            at: row.place,
        }));
    }
    match all_typed(table, columns, literals) {
        Ok(()) => Ok(cells_in_order(alloc, table, columns, literals)?),
        Err(no) => Err(no),
    }
}

/// Refuses the first literal that is not of the kind of its column.
fn all_typed(table: &Table, columns: &[u8], literals: &[Literal]) -> Result<(), No<Fault>>
    requires within { IsTrue (are_columns table.now columns.now) }
    requires alike { length literals.now ≡ length columns.now }
    ensures { Decides (λ _. cells_of literals.now) result (typed_each table.now columns.now literals.now) }
{
    for i in 0..literals.len() {
        match typed(kind_at(table, columns[i]), &literals[i]) {
            Ok(()) => {}
            Err(no) => return Err(no),
        }
    }
    Ok(())
}

fn cells_in_order(
    alloc: Global,
    table: &Table,
    columns: &[u8],
    literals: &[Literal],
) -> Result<Row, NoMemory>
    requires few { length table.now.columns ≤ 12 }
    requires alike { length literals.now ≡ length columns.now }
    ensures { IfOk result (λ cells. cells ≡ map (λ c. value_for c columns.now (cells_of literals.now)) (numbers_from 0 table.now.columns)) }
{
    let mut cells = Seq::new(alloc);
    for column in 0..table.columns.len() {
        cells.push(value_for(alloc, column as u8, columns, literals)?)?;
    }
    Ok(cells)
}

/// The value for that column among values for these columns.
fn value_for(
    alloc: Global,
    column: u8,
    columns: &[u8],
    literals: &[Literal],
) -> Result<Cell, NoMemory>
    requires { length literals.now ≡ length columns.now }
    ensures { IfOk result (λ v. v ≡ value_for column columns.now (cells_of literals.now)) }
{
    for i in 0..columns.len() {
        if columns[i] == column {
            return literals[i].cell.copy(alloc);
        }
    }
    Ok(Cell::Num(0))
}
