//! Changes of rows by key.
ghost use Rattle.std.specs.Prelude.{◌≡◌, ◌≤◌, true, IfOk, OnOk, IsErrOf, Some, nat_lt, length};
ghost use Rattle.std.specs.List.{filter_map};
ghost use Rattle.sr_cell.specs.declared.fault.Fault.{Fault as TheFault};
ghost use Rattle.sr_cell.specs.declared.list.No.TheVariants.{Refused};
ghost use Rattle.sr_cell.specs.declared.fault.Why.TheVariants.{TooManyChanges as ManyChanges};
ghost use Rattle.sr_cell.specs.Cells.{cell_at};
ghost use Rattle.sr_model.specs.SortedRows.{row_eq};

use sr_cell::cell::{Cell, Row, Rows};
use sr_cell::change::{Change, Changes};
use sr_cell::fault::{Fault, Why};
use sr_cell::list::{Copied, No, NoMemory, Same, Seq};
use std::alloc::Global;

/// Whether both rows have the same cells.
pub(crate) fn is_same_row(one: &Row, other: &Row) -> bool
    ensures { result ≡ row_eq one.now other.now }
{
    one.same(other)
}

/// The row's key; of a row that is too short it is 0.
#[tactic(auto, using(sr_rows::proofs::Order::cell_at_absent))]
fn copy_of_key(alloc: Global, row: &Row, key: usize) -> Result<Cell, NoMemory>
    ensures { IfOk result (λ cell. cell ≡ cell_at row.now key) }
{
    match row.get(key) {
        Some(cell) => cell.copy(alloc),
        None => Ok(Cell::Num(0)),
    }
}

/// The row's key and the row, in memory of their own.
pub(crate) fn key_and_row(alloc: Global, row: &Row, key: usize) -> Result<(Cell, Row), NoMemory>
    ensures key { IfOk result (λ copied. copied.0 ≡ cell_at row.now key) }
    ensures row { IfOk result (λ copied. copied.1 ≡ row.now) }
{
    let cell = copy_of_key(alloc, row, key)?;
    let copy = row.copy(alloc)?;
    Ok((cell, copy))
}

/// What becomes of a row of table `number`.
pub(crate) fn change_of(
    alloc: Global,
    number: u8,
    key: usize,
    row: &Row,
    after: Option<Row>,
) -> Result<Change, NoMemory>
    ensures { IfOk result (λ change. change ≡ record { table = number; key = cell_at row.now key; before = Some row.now; after = after }) }
{
    match key_and_row(alloc, row, key) {
        Ok((key, before)) => Ok(Change {
            table: number,
            key,
            before: Some(before),
            after,
        }),
        Err(no) => Err(no),
    }
}

/// The new rows of changes, in memory of their own.
pub(crate) fn rows_after(alloc: Global, changes: &[Change]) -> Result<Rows, NoMemory>
    ensures { IfOk result (λ rows. rows ≡ filter_map (λ c. c.after) changes.now) }
{
    let mut rows = Seq::new(alloc);
    for i in 0..changes.len() {
        match &changes[i].after {
            Some(row) => rows.push(row.copy(alloc)?)?,
            None => {}
        }
    }
    Ok(rows)
}

/// Why a statement can't make so many changes of a table's rows.
pub(crate) fn few_changes(changes: &Changes) -> Result<(), No<Fault>>
    requires { length changes.now ≤ 65536 }
    ensures few { OnOk result (length changes.now ≤ 10000) }
    ensures many { (fault : TheFault) → IsErrOf result (Refused fault) → nat_lt 10000 (length changes.now) ≡ true }
    ensures refused { (fault : TheFault) → IsErrOf result (Refused fault) → fault ≡ record { why = ManyChanges; at = length changes.now } }
{
    let count = changes.len();
    if count > 10000 {
        return Err(No::Refused(Fault {
            why: Why::TooManyChanges,
            at: count as u32,
        }));
    }
    Ok(())
}
