//! The groups of an answer's rows.
ghost use Rattle.std.specs.Prelude.{◌≡◌, ◌<◌, ◌+◌, length, take, map, IfOk, OnOk};
ghost use Rattle.std.specs.List.{All};
ghost use Rattle.sr_agg.specs.Groups.{aggregates, group_of, known};
ghost use Rattle.sr_agg.specs.Tallies.{first_tally, grouped, told_by, with_row, IsFew};
ghost use Rattle.sr_agg.specs.Kept.{entries_seen};

use crate::item::{GroupRow, GroupRows, Item};
use crate::tally::Tally;
use sr_cell::cell::{Cell, Row};
use sr_cell::list::{Copied, NoMemory};
use std::alloc::Global;
use std::collections::BTreeMap;

/// The groups by their grouping cells, where None stands for NULL, and so before all others.
type Groups = BTreeMap<Vec<Option<Cell>>, Vec<Tally>>;

/// The first cells of a row, so many; or all, where it has fewer.
fn front(row: &Row, count: usize) -> &[Cell]
    ensures { result.now ≡ take count row.now }
{
    let cells = row.as_slice();
    if count < cells.len() {
        return &cells[..count];
    }
    cells
}

/// The cell, or None where it is NULL.
fn known(alloc: Global, cell: &Cell) -> Result<Option<Cell>, NoMemory>
    ensures { IfOk result (λ told. told ≡ known cell.now) }
{
    if cell.is_null() {
        return Ok(None);
    }
    Ok(Some(cell.copy(alloc)?))
}

/// The first cells of a row, so many, as the key of a group.
fn group_of(alloc: Global, row: &Row, count: usize) -> Result<Vec<Option<Cell>>, NoMemory>
    ensures { IfOk result (λ key. key.items ≡ group_of count row.now) }
{
    let cells = front(row, count);
    let mut key = Vec::with_capacity(alloc, cells.len())?;
    for cell in cells {
        key.push(known(alloc, cell)?)?;
    }
    Ok(key)
}

/// The tallies of a group without rows.
fn first_tallies(alloc: Global, items: &[Item]) -> Result<Vec<Tally>, NoMemory>
    ensures { IfOk result (λ tallies. tallies.items ≡ map first_tally items.now) }
{
    let mut tallies = Vec::with_capacity(alloc, items.len())?;
    for item in items {
        tallies.push(Tally::new(*item))?;
    }
    Ok(tallies)
}

/// One row more in a group.
fn add_row(alloc: Global, tallies: &mut [Tally], row: &Row) -> Result<(), NoMemory>
    requires { All IsFew tallies.old }
    ensures { OnOk result (tallies.new ≡ map (λ tally. with_row tally row.now) tallies.old) }
{
    for tally in tallies.iter_mut() {
        tally.add(alloc, row)?;
    }
    Ok(())
}

/// Puts the row of that number, behind those before it, to its group.
fn add(
    alloc: Global,
    groups: &mut Groups,
    count: usize,
    items: &[Item],
    rows: &[Row],
    number: usize,
) -> Result<(), NoMemory>
    requires within { number < length rows.now }
    requires so_far { entries_seen groups.old.entries ≡ grouped count items.now (take number rows.now) }
    ensures { OnOk result (entries_seen groups.new.entries ≡ grouped count items.now (take (number + 1) rows.now)) }
{
    let row = &rows[number];
    let key = group_of(alloc, row, count)?;
    if let Some(tallies) = groups.get_mut(key.as_slice()) {
        return add_row(alloc, tallies, row);
    }
    let mut tallies = first_tallies(alloc, items)?;
    add_row(alloc, &mut tallies, row)?;
    groups.insert(key, tallies)?;
    Ok(())
}

/// The groups of rows by their first cells, so many; where they are none, one group, even of no rows.
fn grouped(alloc: Global, count: usize, items: &[Item], rows: &[Row]) -> Result<Groups, NoMemory>
    ensures { IfOk result (λ groups. entries_seen groups.entries ≡ grouped count items.now rows.now) }
{
    let mut groups = Groups::new(alloc);
    if count == 0 {
        groups.insert(Vec::new(alloc), first_tallies(alloc, items)?)?;
    }
    for i in 0..rows.len() {
        add(alloc, &mut groups, count, items, rows, i)?;
    }
    Ok(groups)
}

/// What is told of a group.
fn told_of(alloc: Global, key: &[Option<Cell>], tallies: &[Tally]) -> Result<GroupRow, NoMemory>
    ensures { IfOk result (λ row. row ≡ map (told_by key.now) tallies.now) }
{
    let mut row = GroupRow::with_room(alloc, tallies.len())?;
    for tally in tallies {
        row.push(tally.told(alloc, key)?)?;
    }
    Ok(row)
}

/// What is told of each group, in the order of their cells.
fn told(alloc: Global, groups: &Groups) -> Result<GroupRows, NoMemory>
    ensures { IfOk result (λ told. told ≡ map (λ e. map (told_by e.0) e.1) (entries_seen groups.now.entries)) }
{
    let mut told = GroupRows::with_room(alloc, groups.len())?;
    for (key, tallies) in groups {
        told.push(told_of(alloc, key, tallies)?)?;
    }
    Ok(told)
}

/// What is told of the groups of rows by their first cells, so many.
#[tactic(auto, using(crate::proofs::Lawful::few_tell))]
pub(crate) fn aggregates(
    alloc: Global,
    count: usize,
    items: &[Item],
    rows: &[Row],
) -> Result<GroupRows, NoMemory>
    ensures { IfOk result (λ told. told ≡ aggregates count items.now rows.now) }
{
    let groups = grouped(alloc, count, items, rows)?;
    told(alloc, &groups)
}
