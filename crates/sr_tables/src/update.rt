//! UPDATE.
ghost use Rattle.std.specs.Prelude.{◌≡◌, ◌<◌, ◌≤◌, ◌==◌, ◌&&◌, ◌++◌, [], ◌∷◌, true, not, nat_lt, IsTrue, IfOk, OnOk, OnErr, IsErrOf, Ok, Err, Some, None, length, map, filter, if◌then◌else◌};
ghost use Rattle.std.specs.List.{list_all};
ghost use Rattle.sr_cell.specs.declared.fault.Fault.{Fault as TheFault};
ghost use Rattle.sr_cell.specs.declared.list.No.TheVariants.{Refused};
ghost use Rattle.sr_query.specs.Written.{place_of, condition_of};
ghost use Rattle.sr_model.specs.Statements.{updated, updated_row, is_changed};
ghost use Rattle.sr_model.specs.Changes.{table_changes};
ghost use Rattle.sr_tables.specs.Stored.{IsKeyed};
ghost use Rattle.sr_tables.specs.Steps.{update_change, is_known, replaced_by};

use crate::changes::{change_of, few_changes, is_same_row, rows_after};
use crate::places::{places_fault, row_with};
use crate::span::{high_key, low_key};
use sr_cell::cell::{Row, Rows};
use sr_cell::change::Changes;
use sr_cell::fault::Fault;
use sr_cell::list::{No, NoMemory, Seq};
use sr_cell::table::Table;
use sr_condition::passes::meets;
use sr_keyed::keyed::KeyedRows;
use sr_query::write::{Filter, Place, Places};
use std::alloc::Global;

/// The row as the UPDATE makes it, where that is another row.
fn changed_row(
    alloc: Global,
    row: &Row,
    sets: &[Place],
    filter: &Filter,
) -> Result<Option<Row>, NoMemory>
    ensures { IfOk result (λ new. new
        ≡ (if is_changed (map place_of sets.now) (condition_of filter.now.condition) row.now
        then Some (updated_row (map place_of sets.now) (condition_of filter.now.condition) row.now) else None)) }
{
    if !meets(filter, row) {
        return Ok(None);
    }
    let new = row_with(alloc, row, sets)?;
    if is_same_row(row, &new) {
        return Ok(None);
    }
    Ok(Some(new))
}

/// One change more, where the UPDATE makes another row of this one.
fn push_changed(
    alloc: Global,
    changes: &mut Changes,
    number: u8,
    key: usize,
    row: &Row,
    sets: &[Place],
    wanted: &Filter,
) -> Result<(), NoMemory>
    ensures { OnOk result (changes.new
        ≡ changes.old
        ++ map (update_change number key (map place_of sets.now) (condition_of wanted.now.condition))
        (filter (is_changed (map place_of sets.now) (condition_of wanted.now.condition)) (row.now ∷ []))) }
{
    match changed_row(alloc, row, sets, wanted)? {
        Some(after) => changes.push(change_of(alloc, number, key, row, Some(after))?),
        None => Ok(()),
    }
}

/// The changes that the UPDATE makes of some rows.
fn changes_among(
    alloc: Global,
    number: u8,
    key: usize,
    rows: &[&Row],
    sets: &[Place],
    wanted: &Filter,
) -> Result<Changes, NoMemory>
    ensures { IfOk result (λ changes. changes
        ≡ map (update_change number key (map place_of sets.now) (condition_of wanted.now.condition))
        (filter (is_changed (map place_of sets.now) (condition_of wanted.now.condition)) (map (λ r. r.now) rows.now))) }
{
    let mut changes = Seq::new(alloc);
    for i in 0..rows.len() {
        push_changed(alloc, &mut changes, number, key, rows[i], sets, wanted)?;
    }
    Ok(changes)
}

/// The changes that the UPDATE makes; nothing is changed yet. Only rows between the ends of its condition are looked at.
fn update_changes(
    alloc: Global,
    number: u8,
    table: &Table,
    rows: &KeyedRows,
    sets: &[Place],
    wanted: &Filter,
) -> Result<Changes, NoMemory>
    requires keyed { IsKeyed table.now rows.now }
    requires key { table.now.key < length table.now.columns }
    ensures { IfOk result (λ changes. changes
        ≡ map (update_change number table.now.key (map place_of sets.now) (condition_of wanted.now.condition))
        (filter (is_changed (map place_of sets.now) (condition_of wanted.now.condition)) rows.now.rows)) }
{
    let low = low_key(wanted, table);
    let high = high_key(wanted, table);
    let near = rows.between(alloc, low, high)?;
    changes_among(
        alloc,
        number,
        table.key as usize,
        near.as_slice(),
        sets,
        wanted,
    )
}

/// Puts rows in the place of those that have their keys; never fails.
fn replace_all(rows: &mut KeyedRows, news: Rows)
    requires { list_all (is_known rows.old) news ≡ true }
    ensures { rows.new ≡ replaced_by rows.old news }
{
    for row in news.into_vec() {
        rows.replace(row);
    }
}

/// Carries the UPDATE out on the rows of table `number`, or refuses it and changes nothing.
pub(crate) fn update(
    alloc: Global,
    number: u8,
    table: &Table,
    rows: &mut KeyedRows,
    sets: &Places,
    filter: &Filter,
) -> Result<Changes, No<Fault>>
    requires keyed { IsKeyed table.now rows.old }
    requires key { table.now.key < length table.now.columns }
    requires columns { length table.now.columns ≤ 12 }
    requires few { length rows.old.rows ≤ 65536 }
    requires places { IsTrue (list_all (λ p. nat_lt p.column (length table.now.columns) && not (p.column == table.now.key)) sets.now) }
    ensures done { IfOk result (λ changes. updated table.now (map place_of sets.now) (condition_of filter.now.condition) rows.old.rows ≡ Ok rows.new.rows) }
    ensures changes { IfOk result (λ changes. changes ≡ table_changes table.now number rows.old.rows rows.new.rows) }
    ensures few { IfOk result (λ changes. length changes ≤ 10000) }
    ensures refused { (fault : TheFault) → IsErrOf result (Refused fault)
        → updated table.now (map place_of sets.now) (condition_of filter.now.condition) rows.old.rows ≡ Err fault }
    ensures unchanged { OnErr result (rows.new ≡ rows.old) }
    ensures keyed { IsKeyed table.now rows.new }
{
    match places_fault(table, sets.as_slice()) {
        Some(fault) => return Err(No::Refused(fault)),
        None => {}
    }
    let changes = match update_changes(alloc, number, table, rows, sets.as_slice(), filter) {
        Ok(changes) => changes,
        Err(_) => return Err(No::NoMemory),
    };
    match few_changes(&changes) {
        Ok(()) => {}
        Err(no) => return Err(no),
    }
    // What can fail is done before the first row gives way.
    let news = match rows_after(alloc, changes.as_slice()) {
        Ok(news) => news,
        Err(_) => return Err(No::NoMemory),
    };
    rows.know_ascending();
    replace_all(rows, news);
    Ok(changes)
}
