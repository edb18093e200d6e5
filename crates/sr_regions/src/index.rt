//! An index from keys to the regions that may have a row of them.
ghost use Rattle.std.specs.Prelude.{◌≡◌, ◌==◌, ℕ, true, Some, OnOk, IfOk};
ghost use Rattle.std.specs.List.{list_any};
ghost use Rattle.sr_cell.specs.Cells.{cell_at};
ghost use Rattle.sr_regions.specs.Named.{is_named, has_names, NamesMore, AgreesWith};

use sr_cell::cell::{Cell, Row};
use sr_cell::list::{Copied, NoMemory, Seq};
use sr_region::region::{Region, rank_of};
use std::alloc::Global;
use std::collections::BTreeMap;

/// For keys, the numbers of the regions that may have a row of them, whatever their table. Each that has one is named.
#[derive(Drop)]
pub(crate) struct Index {
    numbers: BTreeMap<Cell, Seq<usize>>,
}

/// Whether the number is among these.
fn has_number(numbers: &[usize], number: usize) -> bool
    ensures { result ≡ list_any (λ m. m == number) numbers.now }
{
    numbers.contains(&number)
}

impl Index {
    /// Names no region; takes no memory.
    pub(crate) fn new(alloc: Global) -> Index {
        Index {
            numbers: BTreeMap::new(alloc),
        }
    }

    /// How many keys there are.
    pub(crate) fn len(&self) -> usize {
        self.numbers.len()
    }

    /// The numbers that are named under the key.
    pub(crate) fn numbers_at(&self, key: &Cell) -> &[usize]
        ensures { (n : ℕ) → list_any (λ m. m == n) result.now ≡ is_named ⟦<Cell as Ord>⟧.cmp (Some self.now) key.now n }
    {
        match self.numbers.get(key) {
            Some(numbers) => numbers.as_slice(),
            None => &[],
        }
    }

    /// Names one region more under the key.
    pub(crate) fn add(&mut self, alloc: Global, key: &Cell, number: usize) -> Result<(), NoMemory>
        ensures stays { NamesMore ⟦<Cell as Ord>⟧.cmp (Some self.old) (Some self.new) }
        ensures added { OnOk result (is_named ⟦<Cell as Ord>⟧.cmp (Some self.new) key.now number ≡ true) }
    {
        if has_number(self.numbers_at(key), number) {
            return Ok(());
        }
        let mut numbers = Seq::new(alloc);
        numbers.extend(self.numbers_at(key))?;
        numbers.push(number)?;
        self.numbers.insert(key.copy(alloc)?, numbers)?;
        Ok(())
    }
}

/// The index with one name more, or none where there is no memory for it.
pub(crate) fn with_name(
    index: Option<Index>,
    alloc: Global,
    key: &Cell,
    number: usize,
) -> Option<Index>
    ensures stays { NamesMore ⟦<Cell as Ord>⟧.cmp index result }
    ensures added { is_named ⟦<Cell as Ord>⟧.cmp result key.now number ≡ true }
{
    let mut index = index?;
    match index.add(alloc, key, number) {
        Ok(()) => Some(index),
        Err(_) => None,
    }
}

/// Names the region of that number under the keys of its rows.
#[tactic(auto, using(sr_rows::proofs::Order::cell_at_absent))]
fn add_names(
    index: &mut Index,
    alloc: Global,
    region: &Region,
    number: usize,
) -> Result<(), NoMemory>
    ensures stays { NamesMore ⟦<Cell as Ord>⟧.cmp (Some index.old) (Some index.new) }
    ensures added { OnOk result (has_names ⟦<Cell as Ord>⟧.cmp (Some index.new) number region.now ≡ true) }
{
    let place = rank_of(region.attrs, region.key as usize);
    for row in region.rows.as_slice() {
        add_name(index, alloc, row, place, number)?;
    }
    Ok(())
}

/// Names the region of that number under the row's key.
#[tactic(auto, using(sr_rows::proofs::Order::cell_at_absent))]
fn add_name(
    index: &mut Index,
    alloc: Global,
    row: &Row,
    place: usize,
    number: usize,
) -> Result<(), NoMemory>
    ensures stays { NamesMore ⟦<Cell as Ord>⟧.cmp (Some index.old) (Some index.new) }
    ensures added { OnOk result (is_named ⟦<Cell as Ord>⟧.cmp (Some index.new) (cell_at row.now place) number ≡ true) }
{
    match row.get(place) {
        Some(key) => index.add(alloc, key, number),
        None => index.add(alloc, &Cell::Num(0), number),
    }
}

/// Names each region under the keys of its rows.
fn name_all(alloc: Global, regions: &[Region]) -> Result<Index, NoMemory>
    ensures { IfOk result (λ index. AgreesWith ⟦<Cell as Ord>⟧.cmp (Some index) regions.now) }
{
    let mut index = Index::new(alloc);
    for number in 0..regions.len() {
        add_names(&mut index, alloc, &regions[number], number)?;
    }
    Ok(index)
}

/// An index of all rows of the regions, or none where there is no memory for it: then each region is looked at.
pub(crate) fn index_of(alloc: Global, regions: &[Region]) -> Option<Index>
    ensures { AgreesWith ⟦<Cell as Ord>⟧.cmp result regions.now }
{
    match name_all(alloc, regions) {
        Ok(index) => Some(index),
        Err(_) => None,
    }
}
