//! The insertion of a statement's rows.
ghost use Rattle.std.specs.Prelude.{◌≡◌, ℕ, ◌^◌, ◌<◌, ◌≤◌, ◌==◌, true, length, OnErr, Ok, Err, IfOk, IsErrOf};
ghost use Rattle.std.specs.List.{list_all};
ghost use Rattle.sr_cell.specs.declared.fault.Fault.{Fault as TheFault};
ghost use Rattle.sr_cell.specs.declared.list.No.TheVariants.{Refused};
ghost use Rattle.sr_model.specs.Statements.{inserted};
ghost use Rattle.sr_model.specs.Changes.{table_changes};
ghost use Rattle.sr_tables.specs.Stored.{IsKeyed};

use crate::faults::limit_fault;
use crate::fresh::fresh_rows;
use crate::put::put_fresh;
use sr_cell::cell::Rows;
use sr_cell::change::Changes;
use sr_cell::fault::Fault;
use sr_cell::list::No;
use sr_cell::table::Table;
use sr_keyed::keyed::KeyedRows;
use std::alloc::Global;

/// Inserts a statement's rows: all of them, or none. Answers a change for each.
pub(crate) fn insert(
    alloc: Global,
    number: u8,
    table: &Table,
    rows: &mut KeyedRows,
    more: Rows,
) -> Result<Changes, No<Fault>>
    requires keyed { IsKeyed table.now rows.old }
    requires key { table.now.key < length table.now.columns }
    requires columns { length table.now.columns ≤ 12 }
    requires widths { list_all (λ row. length row == length table.now.columns) more ≡ true }
    requires few { length more < 2 ^ 32 }
    ensures done { IfOk result (λ changes. inserted table.now 0 more rows.old.rows ≡ Ok rows.new.rows) }
    ensures changes { IfOk result (λ changes. changes ≡ table_changes table.now number rows.old.rows rows.new.rows) }
    ensures few { IfOk result (λ changes. length changes ≤ 10000) }
    ensures refused { (fault : TheFault) → IsErrOf result (Refused fault) → inserted table.now 0 more rows.old.rows ≡ Err fault }
    ensures unchanged { OnErr result (rows.new ≡ rows.old) }
    ensures keyed { IsKeyed table.now rows.new }
{
    rows.know_ascending();
    let count = more.len();
    let fresh = match fresh_rows(alloc, table, rows, more) {
        Ok(fresh) => fresh,
        Err(no) => return Err(no),
    };
    match limit_fault(count, rows.len()) {
        Some(fault) => return Err(No::Refused(fault)),
        None => {}
    }
    match put_fresh(alloc, number, table, rows, fresh) {
        Ok(changes) => Ok(changes),
        Err(_) => Err(No::NoMemory),
    }
}
