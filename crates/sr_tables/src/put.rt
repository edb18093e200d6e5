//! Rows put into a table: all of them, or none where memory is wanting.
ghost use Rattle.std.specs.Prelude.{◌≡◌, ℕ, ◌<◌, ◌++◌, [], ◌∷◌, true, false, length, filter, OnOk, OnErr, IfOk};
ghost use Rattle.std.specs.List.{list_all};
ghost use Rattle.sr_cell.specs.Cells.{cell_at};
ghost use Rattle.sr_cell.specs.Columns.{fits_columns};
ghost use Rattle.sr_model.specs.SortedRows.{with_rows};
ghost use Rattle.sr_tables.specs.Stored.{IsKeyed};
ghost use Rattle.sr_tables.specs.Inserts.{are_apart};
ghost use Rattle.sr_tables.specs.Added.{added_row, added_rows, is_changed, is_unchanged};

use crate::changes::key_and_row;
use sr_cell::cell::{Row, Rows};
use sr_cell::change::{Change, Changes};
use sr_cell::list::{NoMemory, Seq};
use sr_cell::table::Table;
use sr_keyed::keyed::KeyedRows;
use std::alloc::Global;

/// Appends the change of a row that was not there before.
fn push_added(
    alloc: Global,
    changes: &mut Changes,
    number: u8,
    key: usize,
    row: &Row,
) -> Result<(), NoMemory>
    ensures { OnOk result (changes.new ≡ changes.old ++ added_row number key row.now ∷ []) }
{
    let (key, after) = key_and_row(alloc, row, key)?;
    changes.push(Change {
        table: number,
        key,
        before: None,
        after: Some(after),
    })
}

/// A change for each row that was not there before.
fn changes_of(alloc: Global, number: u8, key: usize, added: &Rows) -> Result<Changes, NoMemory>
    ensures { IfOk result (λ changes. changes ≡ added_rows number key added.now) }
{
    let mut changes: Changes = Seq::new(alloc);
    for row in added.as_slice() {
        push_added(alloc, &mut changes, number, key, row)?;
    }
    Ok(changes)
}

/// Takes the rows of the changes' keys out.
fn take_out(rows: &mut KeyedRows, changes: &Changes)
    ensures { rows.new ≡ record rows.old { rows = filter (is_unchanged rows.old.key changes.now) rows.old.rows } }
{
    for change in changes.as_slice() {
        rows.remove(&change.key);
    }
}

/// Puts rows among those of the table. Where memory is wanting, those that are there already are taken out again by
/// their changes, of which no other row has the key.
fn put_each(
    alloc: Global,
    table: &Table,
    rows: &mut KeyedRows,
    added: Rows,
    changes: &Changes,
) -> Result<(), NoMemory>
    requires keyed { IsKeyed table.now rows.old }
    requires key { table.now.key < length table.now.columns }
    requires fits { list_all (fits_columns table.now.columns) added ≡ true }
    requires apart { are_apart table.now.key rows.old.rows added ≡ true }
    requires changed { list_all (is_changed table.now.key changes.now) added ≡ true }
    requires others { filter (is_unchanged table.now.key changes.now) rows.old.rows ≡ rows.old.rows }
    ensures put { OnOk result (rows.new.rows ≡ with_rows table.now.key rows.old.rows added) }
    ensures keyed { IsKeyed table.now rows.new }
    ensures unchanged { OnErr result (rows.new ≡ rows.old) }
{
    for row in added.into_vec() {
        match rows.insert(alloc, row) {
            Ok(()) => {}
            Err(no) => {
                take_out(rows, changes);
                return Err(no);
            }
        }
    }
    Ok(())
}

/// Puts a statement's rows among those of the table, and answers a change for each.
pub(crate) fn put_fresh(
    alloc: Global,
    number: u8,
    table: &Table,
    rows: &mut KeyedRows,
    fresh: KeyedRows,
) -> Result<Changes, NoMemory>
    requires keyed { IsKeyed table.now rows.old }
    requires fresh { IsKeyed table.now fresh }
    requires key { table.now.key < length table.now.columns }
    requires apart { are_apart table.now.key rows.old.rows fresh.rows ≡ true }
    ensures put { OnOk result (rows.new.rows ≡ with_rows table.now.key rows.old.rows fresh.rows) }
    ensures changes { IfOk result (λ changes. changes ≡ added_rows number table.now.key fresh.rows) }
    ensures keyed { IsKeyed table.now rows.new }
    ensures unchanged { OnErr result (rows.new ≡ rows.old) }
{
    let added = match fresh.into_rows(alloc) {
        Ok(added) => added,
        Err(no) => return Err(no),
    };
    let changes = match changes_of(alloc, number, table.key as usize, &added) {
        Ok(changes) => changes,
        Err(no) => return Err(no),
    };
    match put_each(alloc, table, rows, added, &changes) {
        Ok(()) => Ok(changes),
        Err(no) => Err(no),
    }
}
