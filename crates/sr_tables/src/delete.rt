//! DELETE.
ghost use Rattle.std.specs.Prelude.{◌≡◌, ◌<◌, ◌≤◌, ◌++◌, [], ◌∷◌, true, IfOk, OnOk, OnErr, IsErrOf, Ok, Err, length, map, filter};
ghost use Rattle.sr_cell.specs.declared.fault.Fault.{Fault as TheFault};
ghost use Rattle.sr_cell.specs.declared.list.No.TheVariants.{Refused};
ghost use Rattle.sr_query.specs.Written.{condition_of};
ghost use Rattle.sr_model.specs.Statements.{deleted, meets};
ghost use Rattle.sr_model.specs.Changes.{table_changes};
ghost use Rattle.sr_tables.specs.Stored.{IsKeyed};
ghost use Rattle.sr_tables.specs.Steps.{delete_change, removed_by};

use crate::changes::{change_of, few_changes};
use crate::span::{high_key, low_key};
use sr_cell::cell::Row;
use sr_cell::change::{Change, Changes};
use sr_cell::fault::Fault;
use sr_cell::list::{No, NoMemory, Seq};
use sr_cell::table::Table;
use sr_condition::passes::meets;
use sr_keyed::keyed::KeyedRows;
use sr_query::write::Filter;
use std::alloc::Global;

/// One change more, where the filter lets the row through.
fn push_deleted(
    alloc: Global,
    changes: &mut Changes,
    number: u8,
    key: usize,
    row: &Row,
    wanted: &Filter,
) -> Result<(), NoMemory>
    ensures { OnOk result (changes.new ≡ changes.old ++ map (delete_change number key) (filter (meets (condition_of wanted.now.condition)) (row.now ∷ []))) }
{
    if meets(wanted, row) {
        changes.push(change_of(alloc, number, key, row, None)?)?;
    }
    Ok(())
}

/// The changes that the DELETE makes of some rows.
fn changes_among(
    alloc: Global,
    number: u8,
    key: usize,
    rows: &[&Row],
    wanted: &Filter,
) -> Result<Changes, NoMemory>
    ensures { IfOk result (λ changes. changes
        ≡ map (delete_change number key) (filter (meets (condition_of wanted.now.condition)) (map (λ r. r.now) rows.now))) }
{
    let mut changes = Seq::new(alloc);
    for i in 0..rows.len() {
        push_deleted(alloc, &mut changes, number, key, rows[i], wanted)?;
    }
    Ok(changes)
}

/// The changes that the DELETE makes; nothing is changed yet. Only rows between the ends of its condition are looked at.
fn delete_changes(
    alloc: Global,
    number: u8,
    table: &Table,
    rows: &KeyedRows,
    wanted: &Filter,
) -> Result<Changes, NoMemory>
    requires keyed { IsKeyed table.now rows.now }
    requires key { table.now.key < length table.now.columns }
    ensures { IfOk result (λ changes. changes ≡ map (delete_change number table.now.key) (filter (meets (condition_of wanted.now.condition)) rows.now.rows)) }
{
    let low = low_key(wanted, table);
    let high = high_key(wanted, table);
    let near = rows.between(alloc, low, high)?;
    changes_among(alloc, number, table.key as usize, near.as_slice(), wanted)
}

/// Takes the rows out whose keys are those of the changes; never fails.
fn remove_all(rows: &mut KeyedRows, changes: &[Change])
    ensures { rows.new ≡ removed_by rows.old changes.now }
{
    for i in 0..changes.len() {
        rows.remove(&changes[i].key);
    }
}

/// Carries the DELETE out on the rows of table `number`, or refuses it and changes nothing.
pub(crate) fn delete(
    alloc: Global,
    number: u8,
    table: &Table,
    rows: &mut KeyedRows,
    filter: &Filter,
) -> Result<Changes, No<Fault>>
    requires keyed { IsKeyed table.now rows.old }
    requires key { table.now.key < length table.now.columns }
    requires columns { length table.now.columns ≤ 12 }
    requires few { length rows.old.rows ≤ 65536 }
    ensures done { IfOk result (λ changes. deleted (condition_of filter.now.condition) rows.old.rows ≡ Ok rows.new.rows) }
    ensures changes { IfOk result (λ changes. changes ≡ table_changes table.now number rows.old.rows rows.new.rows) }
    ensures few { IfOk result (λ changes. length changes ≤ 10000) }
    ensures refused { (fault : TheFault) → IsErrOf result (Refused fault) → deleted (condition_of filter.now.condition) rows.old.rows ≡ Err fault }
    ensures unchanged { OnErr result (rows.new ≡ rows.old) }
    ensures keyed { IsKeyed table.now rows.new }
{
    let changes = match delete_changes(alloc, number, table, rows, filter) {
        Ok(changes) => changes,
        Err(_) => return Err(No::NoMemory),
    };
    match few_changes(&changes) {
        Ok(()) => {}
        Err(no) => return Err(no),
    }
    rows.know_ascending();
    remove_all(rows, changes.as_slice());
    Ok(changes)
}
