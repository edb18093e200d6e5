//! The columns as a header names them.
ghost use Rattle.std.specs.Prelude.{◌≡◌, ◌<◌, ◌≤◌, ◌++◌, ◌∷◌, [], IsTrue, IfOk, IfSome, Some, None, length, nat_lt, option_map, true};
ghost use Rattle.std.specs.List.{list_all};
ghost use Rattle.csv.specs.Records.{fields_of};
ghost use Rattle.sr_query.specs.Binding.{column_named};
ghost use Rattle.sr_query.specs.Bound.{is_table};
ghost use Rattle.sr_query.specs.Decided.{Decides};
ghost use Rattle.sr_load.specs.Loading.{with_column, columns_from, if_all, header_of};
ghost use Rattle.sr_load.specs.Within.{are_within, AreWithin};

use crate::records::field_at;
use csv::ByteRecord;
use sr_cell::fault::{Fault, Why};
use sr_cell::list::{No, NoMemory, Seq};
use sr_cell::table::{Column, Table};
use std::alloc::Global;

/// Columns of a table by their numbers.
pub(crate) type ColumnNumbers = Seq<u8>;

/// The number of the column of that name.
fn column_named(columns: &[Column], name: &[u8]) -> Option<u8>
    requires { length columns.now ≤ 12 }
    ensures found { result ≡ column_named 0 columns.now name.now }
    ensures within { IfSome result (λ c. c < length columns.now) }
{
    for i in 0..columns.len() {
        if columns[i].name.as_str().as_bytes() == name {
            return Some(i as u8);
        }
    }
    None
}

/// The number of the column of that name, which is none of those that are named already.
fn new_column(table: &Table, named: &[u8], name: &[u8]) -> Option<u8>
    requires { IsTrue (is_table table.now) }
    ensures more { option_map (λ c. named.now ++ c ∷ []) result ≡ with_column named.now (column_named 0 table.now.columns name.now) }
    ensures within { IfSome result (λ c. c < length table.now.columns) }
{
    match column_named(table.columns.as_slice(), name) {
        None => None,
        Some(column) => {
            if named.contains(&column) {
                return None;
            }
            Some(column)
        }
    }
}

/// The columns of these names, if each is a column's and stands there once.
fn named_columns(
    alloc: Global,
    table: &Table,
    names: &ByteRecord,
) -> Result<Option<ColumnNumbers>, NoMemory>
    requires { IsTrue (is_table table.now) }
    ensures named { IfOk result (λ columns. columns ≡ columns_from table.now (Some []) (fields_of names.now)) }
    ensures within { IfOk result (AreWithin table.now) }
{
    let mut named = Seq::new(alloc);
    for i in 0..names.len() {
        match new_column(table, named.as_slice(), field_at(names, i)) {
            Some(column) => named.push(column)?,
            None => return Ok(None),
        }
    }
    Ok(Some(named))
}

fn if_all(table: &Table, columns: Option<ColumnNumbers>) -> Result<ColumnNumbers, No<Fault>>
    requires { AreWithin table.now columns }
    ensures decided { Decides (λ columns. columns) result (if_all table.now columns) }
    ensures within { IfOk result (λ columns. are_within table.now columns ≡ true) }
{
    match columns {
        Some(columns) => {
            if columns.len() == table.columns.len() {
                return Ok(columns);
            }
        }
        None => {}
    }
    Err(No::Refused(Fault {
        why: Why::BadHeader,
        at: 0,
    }))
}

/// The columns as the header names them; each column of the table is one of them.
pub(crate) fn header_of(
    alloc: Global,
    table: &Table,
    names: &ByteRecord,
) -> Result<ColumnNumbers, No<Fault>>
    requires { IsTrue (is_table table.now) }
    ensures decided { Decides (λ columns. columns) result (header_of table.now (fields_of names.now)) }
    ensures within { IfOk result (λ columns. are_within table.now columns ≡ true) }
{
    match named_columns(alloc, table, names) {
        Ok(columns) => if_all(table, columns),
        Err(_) => Err(No::NoMemory),
    }
}
