//! The rows of a file.
ghost use Rattle.std.specs.Prelude.{◌≡◌, ℕ, ◌+◌, ◌^◌, ◌<◌, ◌≤◌, ◌==◌, true, List, drop, length, map, IsTrue, IfOk, IsErrOf, Ok, Err};
ghost use Rattle.std.specs.List.{list_all};
ghost use Rattle.csv.specs.Records.{fields_of};
ghost use Rattle.sr_cell.specs.declared.fault.Fault.{Fault as TheFault};
ghost use Rattle.sr_cell.specs.declared.list.No.TheVariants.{Refused};
ghost use Rattle.sr_query.specs.Binding.{column_at};
ghost use Rattle.sr_query.specs.Bound.{is_table};
ghost use Rattle.sr_query.specs.Decided.{Decides};
ghost use Rattle.sr_query.specs.Writes.{numbers_from, value_for};
ghost use Rattle.sr_load.specs.Loading.{cells_of, row_of, rows_from, rows_of, loaded};
ghost use Rattle.sr_load.specs.Within.{are_within};

use crate::fields::cell_of;
use crate::header::header_of;
use crate::records::{all_records, field_at};
use csv::ByteRecord;
use sr_cell::cell::{Cell, Row, Rows};
use sr_cell::fault::{Fault, Why};
use sr_cell::list::{Copied, No, NoMemory, Seq};
use sr_cell::table::{Kind, Table};
use std::alloc::Global;

/// What the column of that number holds.
fn kind_at(table: &Table, column: u8) -> Kind
    requires { column < length table.now.columns }
    ensures { result ≡ (column_at table.now column).kind }
{
    table.columns.as_slice()[column as usize].kind
}

/// The cells of a record's fields, in the order of the file.
fn cells_of(
    alloc: Global,
    table: &Table,
    columns: &[u8],
    number: u32,
    raw: &ByteRecord,
) -> Result<Row, No<Fault>>
    requires within { are_within table.now columns.now ≡ true }
    requires alike { length (fields_of raw.now) ≡ length columns.now }
    ensures decided { Decides (λ cells. cells) result (cells_of table.now number columns.now (fields_of raw.now)) }
    ensures alike { IfOk result (λ cells. length cells ≡ length columns.now) }
{
    let mut cells = Seq::with_room(alloc, columns.len())?;
    for i in 0..columns.len() {
        match cell_of(alloc, kind_at(table, columns[i]), number, field_at(raw, i)) {
            Ok(cell) => cells.push(cell)?,
            Err(no) => return Err(no),
        }
    }
    Ok(cells)
}

/// The cell for that column among cells for these columns.
fn value_for(alloc: Global, column: u8, columns: &[u8], cells: &[Cell]) -> Result<Cell, NoMemory>
    requires { length cells.now ≡ length columns.now }
    ensures { IfOk result (λ v. v ≡ value_for column columns.now cells.now) }
{
    for i in 0..columns.len() {
        if columns[i] == column {
            return cells[i].copy(alloc);
        }
    }
    Ok(Cell::Num(0))
}

fn cells_in_order(
    alloc: Global,
    table: &Table,
    columns: &[u8],
    cells: &[Cell],
) -> Result<Row, NoMemory>
    requires few { length table.now.columns ≤ 12 }
    requires alike { length cells.now ≡ length columns.now }
    ensures ordered { IfOk result (λ row. row ≡ map (λ c. value_for c columns.now cells.now) (numbers_from 0 table.now.columns)) }
{
    let mut row = Seq::with_room(alloc, table.columns.len())?;
    for column in 0..table.columns.len() {
        row.push(value_for(alloc, column as u8, columns, cells)?)?;
    }
    Ok(row)
}

/// The row of that record, its cells in the order of the table's columns.
fn row_of(
    alloc: Global,
    table: &Table,
    columns: &[u8],
    number: u32,
    raw: &ByteRecord,
) -> Result<Row, No<Fault>>
    requires few { length table.now.columns ≤ 12 }
    requires within { are_within table.now columns.now ≡ true }
    ensures decided { Decides (λ row. row) result (row_of table.now columns.now number (fields_of raw.now)) }
    ensures width { IfOk result (λ row. length row ≡ length table.now.columns) }
{
    if raw.len() != columns.len() {
        return Err(No::Refused(Fault {
            why: Why::BadRecord,
            at: number,
        }));
    }
    match cells_of(alloc, table, columns, number, raw) {
        Ok(cells) => Ok(cells_in_order(alloc, table, columns, cells.as_slice())?),
        Err(no) => Err(no),
    }
}

/// The rows of the records behind the header, numbered from 1.
fn rows_from(
    alloc: Global,
    table: &Table,
    columns: &[u8],
    records: &[ByteRecord],
) -> Result<Rows, No<Fault>>
    requires few { length table.now.columns ≤ 12 }
    requires within { are_within table.now columns.now ≡ true }
    requires number { length records.now < 2 ^ 32 }
    ensures decided { Decides (λ rows. rows) result (rows_from table.now columns.now 1 (map fields_of records.now)) }
    ensures widths { IfOk result (λ rows. list_all (λ row. length row == length table.now.columns) rows ≡ true) }
    ensures number { IfOk result (λ rows. length rows ≡ length records.now) }
{
    let mut rows = Seq::new(alloc);
    for i in 0..records.len() {
        match row_of(alloc, table, columns, (i + 1) as u32, &records[i]) {
            Ok(row) => rows.push(row)?,
            Err(no) => return Err(no),
        }
    }
    Ok(rows)
}

/// The rows of these records, of which the first is the header.
fn rows_of(alloc: Global, table: &Table, records: &[ByteRecord]) -> Result<Rows, No<Fault>>
    requires table { IsTrue (is_table table.now) }
    requires number { length records.now < 2 ^ 32 }
    ensures decided { Decides (λ rows. rows) result (rows_of table.now (map fields_of records.now)) }
    ensures widths { IfOk result (λ rows. list_all (λ row. length row == length table.now.columns) rows ≡ true) }
    ensures number { IfOk result (λ rows. length rows ≤ length records.now) }
{
    if records.is_empty() {
        return Err(No::Refused(Fault {
            why: Why::BadHeader,
            at: 0,
        }));
    }
    let columns = match header_of(alloc, table, &records[0]) {
        Ok(columns) => columns,
        Err(no) => return Err(no),
    };
    rows_from(alloc, table, columns.as_slice(), &records[1..])
}

/// The rows of a file for the table, in the order of its records, or its first fault. Records are numbered from 1, after the header.
pub fn load(alloc: Global, table: &Table, bytes: &[u8]) -> Result<Rows, No<Fault>>
    requires table { IsTrue (is_table table.now) }
    requires length { length bytes.now < 2 ^ 32 }
    ensures loaded { IfOk result (λ rows. loaded table.now bytes.now ≡ Ok rows) }
    ensures refused { (fault : TheFault) → IsErrOf result (Refused fault) → loaded table.now bytes.now ≡ Err fault }
    ensures widths { IfOk result (λ rows. list_all (λ row. length row == length table.now.columns) rows ≡ true) }
    ensures few { IfOk result (λ rows. length rows < 2 ^ 32) }
{
    let records = match all_records(alloc, bytes) {
        Ok(records) => records,
        Err(_) => return Err(No::NoMemory),
    };
    rows_of(alloc, table, records.as_slice())
}
