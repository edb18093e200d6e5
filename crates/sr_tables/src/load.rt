//! Loading of rows, before any statement.
ghost use Rattle.std.specs.Prelude.{◌≡◌, ℕ, ◌^◌, ◌<◌, ◌≤◌, length, OnOk, OnErr, Ok, Err, IsErrOf};
ghost use Rattle.sr_cell.specs.declared.fault.Fault.{Fault as TheFault};
ghost use Rattle.sr_cell.specs.declared.list.No.TheVariants.{Refused};
ghost use Rattle.sr_model.specs.Loads.{load_fault, row_loaded};
ghost use Rattle.sr_tables.specs.Stored.{IsKeyed};

use crate::faults::{bad_cell, key_of};
use sr_cell::cell::Row;
use sr_cell::fault::{Fault, Why};
use sr_cell::list::No;
use sr_cell::table::Table;
use sr_keyed::keyed::KeyedRows;
use std::alloc::Global;

/// Why a row can't be loaded.
fn load_fault(table: &Table, rows: &KeyedRows, row: &Row) -> Option<Fault>
    requires columns { length table.now.columns < 2 ^ 32 }
    requires key { table.now.key < length row.now }
    requires rows { rows.now.key ≡ table.now.key }
    ensures { result ≡ load_fault table.now rows.now.rows row.now }
{
    match bad_cell(&table.columns, row) {
        Some(fault) => return Some(fault),
        None => {}
    }
    if rows.has(key_of(row, table.key as usize)) {
        return Some(Fault {
            why: Why::DuplicateKey,
            at: 0,
        });
    }
    if rows.len() >= 65536 {
        return Some(Fault {
            why: Why::TableFull,
            at: 65536,
        });
    }
    None
}

/// One row more, before any statement. The fault's place is the column of a cell, 0 for a key, 65536 for a full table.
pub(crate) fn load_row(
    alloc: Global,
    table: &Table,
    rows: &mut KeyedRows,
    row: Row,
) -> Result<(), No<Fault>>
    requires keyed { IsKeyed table.now rows.old }
    requires key { table.now.key < length table.now.columns }
    requires columns { length table.now.columns ≤ 12 }
    requires width { length row ≡ length table.now.columns }
    ensures loaded { OnOk result (row_loaded table.now row rows.old.rows ≡ Ok rows.new.rows) }
    ensures refused { (fault : TheFault) → IsErrOf result (Refused fault) → row_loaded table.now row rows.old.rows ≡ Err fault }
    ensures unchanged { OnErr result (rows.new ≡ rows.old) }
    ensures keyed { IsKeyed table.now rows.new }
{
    match load_fault(table, rows, &row) {
        Some(fault) => return Err(No::Refused(fault)),
        None => {}
    }
    match rows.insert(alloc, row) {
        Ok(()) => Ok(()),
        Err(_) => Err(No::NoMemory),
    }
}
