//! Why rows can't be inserted.
ghost use Rattle.std.specs.Prelude.{◌≡◌, ℕ, ◌+◌, ◌^◌, ◌<◌, length};
ghost use Rattle.sr_cell.specs.Cells.{cell_at};
ghost use Rattle.sr_model.specs.SortedRows.{has_key, with_rows};
ghost use Rattle.sr_model.specs.Statements.{cell_fault, bad_cell_from, fault_of_row};
ghost use Rattle.sr_tables.specs.Inserts.{limit_fault};

use sr_cell::cell::{Cell, Row};
use sr_cell::fault::{Fault, Why};
use sr_cell::table::{Column, Columns, Kind, Table};
use sr_keyed::keyed::KeyedRows;

/// Why a value can't stand in its column, whose number is `at`.
pub(crate) fn fault_of_cell(column: &Column, cell: &Cell, at: u32) -> Option<Fault>
    ensures { result ≡ cell_fault column.now.kind column.now.lo column.now.hi column.now.nullable at cell.now }
{
    match (column.kind, cell) {
        (_, Cell::Null) => {
            if column.nullable {
                return None;
            }
            return Some(Fault {
                why: Why::NullCell,
                at,
            });
        }
        (Kind::Num, Cell::Num(number)) => {
            if column.lo <= *number && *number <= column.hi {
                return None;
            }
        }
        (Kind::Str, Cell::Str(text)) => {
            if text.as_str().len() <= 120 {
                return None;
            }
            return Some(Fault {
                why: Why::LongCell,
                at,
            });
        }
        _ => {}
    }
    Some(Fault {
        why: Why::DomainCell,
        at,
    })
}

/// The first cell that can't stand in its column.
pub(crate) fn bad_cell(columns: &Columns, row: &Row) -> Option<Fault>
    requires { length columns.now < 2 ^ 32 }
    ensures { result ≡ bad_cell_from 0 columns.now row.now }
{
    let columns = columns.as_slice();
    let cells = row.as_slice();
    for i in 0..columns.len() {
        if cells.len() <= i {
            return None;
        }
        match fault_of_cell(&columns[i], &cells[i], i as u32) {
            Some(fault) => return Some(fault),
            None => {}
        }
    }
    None
}

/// Why a table of so many rows can't take the changes' rows too, or a statement make so many changes.
pub(crate) fn limit_fault(changes: usize, rows: usize) -> Option<Fault>
    requires { changes < 2 ^ 32 }
    ensures { result ≡ limit_fault changes (rows + changes) }
{
    if rows.saturating_add(changes) > 65536 {
        return Some(Fault {
            why: Why::TableFull,
            at: 65536,
        });
    }
    if changes > 10000 {
        return Some(Fault {
            why: Why::TooManyChanges,
            at: changes as u32,
        });
    }
    None
}

/// The key of a row that has one.
pub(crate) fn key_of<'a>(row: &'a Row, key: usize) -> &'a Cell
    requires { key < length row.now }
    ensures { result.now ≡ cell_at row.now key }
{
    &row.as_slice()[key]
}

/// Whether the table's rows, or the fresh ones of a statement, have the key.
#[tactic(auto, using(crate::proofs::Inserts::has_key_with_rows))]
fn is_taken(rows: &KeyedRows, fresh: &KeyedRows, key: &Cell) -> bool
    requires { fresh.now.key ≡ rows.now.key }
    ensures { result ≡ has_key rows.now.key key.now (with_rows rows.now.key rows.now.rows fresh.now.rows) }
{
    rows.has(key) || fresh.has(key)
}

/// Why a row can't be inserted behind the fresh ones that came before it in its statement, where it has this number.
pub(crate) fn row_fault(
    table: &Table,
    rows: &KeyedRows,
    fresh: &KeyedRows,
    row: &Row,
    number: u32,
) -> Option<Fault>
    requires columns { length table.now.columns < 2 ^ 32 }
    requires key { table.now.key < length row.now }
    requires rows { rows.now.key ≡ table.now.key }
    requires fresh { fresh.now.key ≡ table.now.key }
    ensures { result ≡ fault_of_row table.now number (with_rows table.now.key rows.now.rows fresh.now.rows) row.now }
{
    match bad_cell(&table.columns, row) {
        Some(fault) => return Some(fault),
        None => {}
    }
    if is_taken(rows, fresh, key_of(row, table.key as usize)) {
        return Some(Fault {
            why: Why::DuplicateKey,
            at: number,
        });
    }
    None
}
