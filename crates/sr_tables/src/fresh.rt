//! A statement's rows by key, before they go into the table.
ghost use Rattle.std.specs.Prelude.{◌≡◌, ℕ, ◌^◌, ◌<◌, ◌≤◌, ◌==◌, true, [], length, None, Some, OnOk, IfOk, IsErrOf};
ghost use Rattle.std.specs.List.{list_all};
ghost use Rattle.sr_cell.specs.declared.fault.Fault.{Fault as TheFault};
ghost use Rattle.sr_cell.specs.declared.list.No.TheVariants.{Refused};
ghost use Rattle.sr_model.specs.SortedRows.{with_row, with_rows};
ghost use Rattle.sr_model.specs.Statements.{column_of, fault_of_row};
ghost use Rattle.sr_rows.specs.Places.{is_apart};
ghost use Rattle.sr_tables.specs.Stored.{IsKeyed};
ghost use Rattle.sr_tables.specs.Inserts.{fault_from};

use crate::faults::row_fault;
use sr_cell::cell::{Row, Rows};
use sr_cell::fault::Fault;
use sr_cell::list::No;
use sr_cell::table::{Kind, Table};
use sr_keyed::keyed::KeyedRows;
use std::alloc::Global;

/// The kind of the table's key.
fn kind_of(table: &Table) -> Kind
    requires { table.now.key < length table.now.columns }
    ensures { result ≡ (column_of table.now table.now.key).kind }
{
    table.columns.as_slice()[table.key as usize].kind
}

/// One more of a statement's rows, where it has this number, behind those that came before it.
fn add_fresh(
    alloc: Global,
    table: &Table,
    rows: &KeyedRows,
    fresh: &mut KeyedRows,
    row: Row,
    number: u32,
) -> Result<(), No<Fault>>
    requires key { table.now.key < length table.now.columns }
    requires columns { length table.now.columns ≤ 12 }
    requires width { length row ≡ length table.now.columns }
    requires rows { rows.now.key ≡ table.now.key }
    requires fresh { IsKeyed table.now fresh.old }
    ensures added { OnOk result (fresh.new ≡ record fresh.old { rows = with_row table.now.key fresh.old.rows row }) }
    ensures keyed { OnOk result (IsKeyed table.now fresh.new) }
    ensures apart { OnOk result (is_apart table.now.key fresh.old.rows row ≡ true) }
    ensures faultless { OnOk result (fault_of_row table.now number (with_rows table.now.key rows.now.rows fresh.old.rows) row ≡ None) }
    ensures refused { (fault : TheFault) → IsErrOf result (Refused fault)
        → fault_of_row table.now number (with_rows table.now.key rows.now.rows fresh.old.rows) row ≡ Some fault }
{
    match row_fault(table, rows, fresh, &row, number) {
        Some(fault) => return Err(No::Refused(fault)),
        None => {}
    }
    match fresh.insert(alloc, row) {
        Ok(()) => Ok(()),
        Err(_) => Err(No::NoMemory),
    }
}

/// A statement's rows by key, or the first that can't stand behind those before it.
pub(crate) fn fresh_rows(
    alloc: Global,
    table: &Table,
    rows: &KeyedRows,
    more: Rows,
) -> Result<KeyedRows, No<Fault>>
    requires key { table.now.key < length table.now.columns }
    requires columns { length table.now.columns ≤ 12 }
    requires widths { list_all (λ row. length row == length table.now.columns) more ≡ true }
    requires few { length more < 2 ^ 32 }
    requires rows { rows.now.key ≡ table.now.key }
    ensures fresh { IfOk result (λ fresh. fresh.rows ≡ with_rows table.now.key [] more) }
    ensures keyed { IfOk result (λ fresh. IsKeyed table.now fresh) }
    ensures faultless { OnOk result (fault_from table.now 0 rows.now.rows more ≡ None) }
    ensures refused { (fault : TheFault) → IsErrOf result (Refused fault) → fault_from table.now 0 rows.now.rows more ≡ Some fault }
{
    let mut fresh = KeyedRows::new(alloc, table.key as usize, kind_of(table));
    let mut number: u32 = 0;
    for row in more.into_vec() {
        match add_fresh(alloc, table, rows, &mut fresh, row, number) {
            Ok(()) => number += 1,
            Err(no) => return Err(no),
        }
    }
    Ok(fresh)
}
