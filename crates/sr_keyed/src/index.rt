//! Rows in the order of columns.
ghost use Rattle.std.specs.Prelude.{◌≡◌, ℕ, ◌<◌, [], ◌++◌, true, false, map, OnOk, IfOk, IfSome, IsTrue};
ghost use Rattle.std.specs.List.{list_all, list_any};
ghost use Rattle.std.specs.Option.{option_copied};
ghost use Rattle.std.specs.Map.{values_of};
ghost use Rattle.std.specs.BTreeMap.{values, is_at};
ghost use Rattle.std.specs.BTreeSet.{contains, keys_between};
ghost use Rattle.std.specs.BTreeMap.Range.{IsLeBy, IsLtBy};
ghost use Rattle.std.specs.Range.Bound.{IsForward};
ghost use Rattle.std.specs.declared.ops.Bound.TheVariants.{Included as From};
ghost use Rattle.sr_cell.specs.Cells.{Row as TheRow, cell_at, cell_eq};
ghost use Rattle.sr_cell.specs.declared.cell.Cell.{Cell as TheCell};
ghost use Rattle.sr_keyed.specs.declared.index.Place.{Place as ThePlace};
ghost use Rattle.sr_keyed.specs.Keyed.{is_between};
ghost use Rattle.sr_keyed.specs.Places.{place_of, first_place, last_place, are_in_order, has_places, is_indexed, has_spot};

use sr_cell::cell::{Cell, Row};
use sr_cell::list::{Copied, NoMemory};
use std::alloc::Global;
use std::collections::{BTreeMap, BTreeSet};
use std::ops::Bound;

/// A value, or what lies before or behind each.
#[derive(Drop, PartialEq, Eq, PartialOrd, Ord)]
pub(crate) enum Spot {
    First,
    At(Cell),
    Last,
}

/// Where a row stands by a column, and among the rows with its value by key.
#[derive(Drop, PartialEq, Eq, PartialOrd, Ord)]
pub(crate) struct Place {
    column: usize,
    value: Spot,
    key: Spot,
}

/// The places of rows by some columns. It may have places of rows that are gone. Out of memory it is emptied.
#[derive(Drop)]
pub(crate) struct Index {
    alloc: Global,
    columns: Vec<usize>,
    places: BTreeSet<Place>,
}

/// A copy of the cell of a column; of a row that is too short it is 0.
#[tactic(auto, using(sr_rows::proofs::Order::cell_at_absent))]
fn copy_at(alloc: Global, row: &Row, column: usize) -> Result<Cell, NoMemory>
    ensures { IfOk result (λ cell. cell ≡ cell_at row.now column) }
{
    match row.get(column) {
        Some(cell) => cell.copy(alloc),
        None => Ok(Cell::Num(0)),
    }
}

fn place_of(alloc: Global, key: usize, column: usize, row: &Row) -> Result<Place, NoMemory>
    ensures { IfOk result (λ place. place ≡ place_of key column row.now) }
{
    let value = copy_at(alloc, row, column)?;
    let key = copy_at(alloc, row, key)?;
    Ok(Place {
        column,
        value: Spot::At(value),
        key: Spot::At(key),
    })
}

/// Where the rows begin whose value is not below the end.
fn first_place(alloc: Global, column: usize, low: Option<&Cell>) -> Result<Place, NoMemory>
    ensures { IfOk result (λ place. place ≡ first_place column (option_copied low.entry)) }
{
    let value = match low {
        Some(cell) => Spot::At(cell.copy(alloc)?),
        None => Spot::First,
    };
    Ok(Place {
        column,
        value,
        key: Spot::First,
    })
}

/// Where the rows end whose value is not above the end.
fn last_place(alloc: Global, column: usize, high: Option<&Cell>) -> Result<Place, NoMemory>
    ensures { IfOk result (λ place. place ≡ last_place column (option_copied high.entry)) }
{
    let value = match high {
        Some(cell) => Spot::At(cell.copy(alloc)?),
        None => Spot::Last,
    };
    Ok(Place {
        column,
        value,
        key: Spot::Last,
    })
}

/// Puts a place to the others.
fn put_place(places: &mut BTreeSet<Place>, place: Place) -> Result<(), NoMemory>
    ensures stays { (p : ThePlace) → contains ⟦<Place as Ord>⟧.cmp places.old p ≡ true → contains ⟦<Place as Ord>⟧.cmp places.new p ≡ true }
    ensures put { OnOk result (contains ⟦<Place as Ord>⟧.cmp places.new place ≡ true) }
{
    places.insert(place)?;
    Ok(())
}

/// Takes a place out.
fn take_place(places: &mut BTreeSet<Place>, place: &Place)
    ensures { (p : ThePlace) → is_at (⟦<Place as Ord>⟧.cmp place.now) p ≡ false → contains ⟦<Place as Ord>⟧.cmp places.old p ≡ true
        → contains ⟦<Place as Ord>⟧.cmp places.new p ≡ true }
{
    places.remove(place);
}

/// Puts a row's places by the columns to the others.
fn add_places(
    places: &mut BTreeSet<Place>,
    alloc: Global,
    columns: &[usize],
    key: usize,
    row: &Row,
) -> Result<(), NoMemory>
    ensures stays { (p : ThePlace) → contains ⟦<Place as Ord>⟧.cmp places.old p ≡ true → contains ⟦<Place as Ord>⟧.cmp places.new p ≡ true }
    ensures added { OnOk result (has_places ⟦<Place as Ord>⟧.cmp places.new key columns.now row.now ≡ true) }
{
    for i in 0..columns.len() {
        put_place(places, place_of(alloc, key, columns[i], row)?)?;
    }
    Ok(())
}

/// Takes a row's places by the columns out.
fn take_places(
    places: &mut BTreeSet<Place>,
    alloc: Global,
    columns: &[usize],
    key: usize,
    row: &Row,
) -> Result<(), NoMemory>
    ensures others { (c : ℕ) (other : TheRow) → cell_eq (cell_at other key) (cell_at row.now key) ≡ false
        → contains ⟦<Place as Ord>⟧.cmp places.old (place_of key c other) ≡ true → contains ⟦<Place as Ord>⟧.cmp places.new (place_of key c other) ≡ true }
{
    for i in 0..columns.len() {
        let place = place_of(alloc, key, columns[i], row)?;
        take_place(places, &place);
    }
    Ok(())
}

/// Puts the places of all rows by a column to the others.
fn add_column(
    places: &mut BTreeSet<Place>,
    alloc: Global,
    key: usize,
    column: usize,
    rows: &BTreeMap<Cell, Row>,
) -> Result<(), NoMemory>
    ensures stays { (p : ThePlace) → contains ⟦<Place as Ord>⟧.cmp places.old p ≡ true → contains ⟦<Place as Ord>⟧.cmp places.new p ≡ true }
    ensures added { OnOk result (list_all (λ row. contains ⟦<Place as Ord>⟧.cmp places.new (place_of key column row)) (values rows.now) ≡ true) }
{
    for row in rows.values() {
        put_place(places, place_of(alloc, key, column, row)?)?;
    }
    Ok(())
}

/// Whether the lower end is not above the upper one.
fn are_in_order(low: Option<&Cell>, high: Option<&Cell>) -> bool
    ensures { result ≡ are_in_order (option_copied low.entry) (option_copied high.entry) }
{
    match (low, high) {
        (Some(one), Some(other)) => one.is_at_most(other),
        _ => true,
    }
}

/// Puts the key at a spot to the others.
fn push_key(keys: &mut BTreeSet<Cell>, alloc: Global, spot: &Spot) -> Result<(), NoMemory>
    ensures stays { (k : TheCell) → contains ⟦<Cell as Ord>⟧.cmp keys.old k ≡ true → contains ⟦<Cell as Ord>⟧.cmp keys.new k ≡ true }
    ensures added { OnOk result (has_spot ⟦<Cell as Ord>⟧.cmp keys.new spot.now ≡ true) }
{
    match spot {
        Spot::At(key) => {
            keys.insert(key.copy(alloc)?)?;
        }
        _ => {}
    }
    Ok(())
}

/// The keys of the places from one up to another.
fn keys_between(
    places: &BTreeSet<Place>,
    alloc: Global,
    first: &Place,
    last: &Place,
) -> Result<BTreeSet<Cell>, NoMemory>
    requires { IsForward (IsLeBy ⟦<Place as Ord>⟧.cmp) (IsLtBy ⟦<Place as Ord>⟧.cmp) (From first.now) (From last.now) }
    ensures { IfOk result (λ keys. list_all (λ p. has_spot ⟦<Cell as Ord>⟧.cmp keys p.key)
        (keys_between ⟦<Place as Ord>⟧.cmp (From first.now) (From last.now) places.now) ≡ true) }
{
    let mut keys = BTreeSet::new(alloc);
    for place in places.range((Bound::Included(first), Bound::Included(last))) {
        push_key(&mut keys, alloc, &place.key)?;
    }
    Ok(keys)
}

/// Whether there are not more than so many places from one up to another.
fn are_few(places: &BTreeSet<Place>, first: &Place, last: &Place, most: usize) -> bool
    requires { IsForward (IsLeBy ⟦<Place as Ord>⟧.cmp) (IsLtBy ⟦<Place as Ord>⟧.cmp) (From first.now) (From last.now) }
{
    places
        .range((Bound::Included(first), Bound::Included(last)))
        .nth(most)
        .is_none()
}

/// The keys of the rows whose value is between the ends, where there are not more than so many.
fn near_keys(
    places: &BTreeSet<Place>,
    alloc: Global,
    column: usize,
    low: Option<&Cell>,
    high: Option<&Cell>,
    most: usize,
) -> Result<Option<BTreeSet<Cell>>, NoMemory>
    requires { are_in_order (option_copied low) (option_copied high) ≡ true }
    ensures { IfOk result (λ near.
        IfSome near (λ keys. list_all (λ p. has_spot ⟦<Cell as Ord>⟧.cmp keys p.key)
        (keys_between ⟦<Place as Ord>⟧.cmp (From (first_place column (option_copied low.entry)))
        (From (last_place column (option_copied high.entry))) places.now) ≡ true)) }
{
    let first = first_place(alloc, column, low)?;
    let last = last_place(alloc, column, high)?;
    if !are_few(places, &first, &last, most) {
        return Ok(None);
    }
    let keys = keys_between(places, alloc, &first, &last)?;
    Ok(Some(keys))
}

impl Index {
    /// No columns; takes no memory.
    pub(crate) fn new(alloc: Global) -> Index
        ensures { result.columns.items ≡ [] }
    {
        Index {
            alloc,
            columns: Vec::new(alloc),
            places: BTreeSet::new(alloc),
        }
    }

    /// Whether there is no column.
    pub(crate) fn is_empty(&self) -> bool {
        self.columns.is_empty()
    }

    /// Forgets all columns.
    fn clear(&mut self)
        ensures { self.new.columns.items ≡ [] }
    {
        self.columns.clear();
        self.places.clear();
    }

    /// One row more.
    pub(crate) fn add(&mut self, key: usize, row: &Row)
        ensures stays { (other : TheRow) → is_indexed ⟦<Place as Ord>⟧.cmp self.old key other ≡ true
            → is_indexed ⟦<Place as Ord>⟧.cmp self.new key other ≡ true }
        ensures added { is_indexed ⟦<Place as Ord>⟧.cmp self.new key row.now ≡ true }
    {
        match add_places(
            &mut self.places,
            self.alloc,
            self.columns.as_slice(),
            key,
            row,
        ) {
            Ok(()) => {}
            Err(_) => self.clear(),
        }
    }

    /// One row less.
    pub(crate) fn remove(&mut self, key: usize, row: &Row)
        ensures { (other : TheRow) → cell_eq (cell_at other key) (cell_at row.now key) ≡ false
            → is_indexed ⟦<Place as Ord>⟧.cmp self.old key other ≡ true → is_indexed ⟦<Place as Ord>⟧.cmp self.new key other ≡ true }
    {
        match take_places(
            &mut self.places,
            self.alloc,
            self.columns.as_slice(),
            key,
            row,
        ) {
            Ok(()) => {}
            Err(_) => self.clear(),
        }
    }

    /// One column more, by which all rows get places.
    fn push_column(
        &mut self,
        key: usize,
        column: usize,
        rows: &BTreeMap<Cell, Row>,
    ) -> Result<(), NoMemory>
        ensures { OnOk result (list_all (is_indexed ⟦<Place as Ord>⟧.cmp self.old key) (values rows.now) ≡ true
            → list_all (is_indexed ⟦<Place as Ord>⟧.cmp self.new key) (values rows.now) ≡ true) }
    {
        add_column(&mut self.places, self.alloc, key, column, rows)?;
        self.columns.push(column)?;
        Ok(())
    }

    /// Sees to it that all rows have places by a column.
    pub(crate) fn index(&mut self, key: usize, column: usize, rows: &BTreeMap<Cell, Row>)
        ensures { list_all (is_indexed ⟦<Place as Ord>⟧.cmp self.old key) (values rows.now) ≡ true
            → list_all (is_indexed ⟦<Place as Ord>⟧.cmp self.new key) (values rows.now) ≡ true }
    {
        if self.columns.as_slice().contains(&column) {
            return;
        }
        match self.push_column(key, column, rows) {
            Ok(()) => {}
            Err(_) => self.clear(),
        }
    }

    /// The keys of the rows whose value is between the ends, and maybe others: where the column has an index, and
    /// there are not more than so many.
    pub(crate) fn near(
        &self,
        alloc: Global,
        column: usize,
        low: Option<&Cell>,
        high: Option<&Cell>,
        most: usize,
    ) -> Option<BTreeSet<Cell>>
        ensures { IfSome result (λ keys. (key : ℕ) (row : TheRow) → is_indexed ⟦<Place as Ord>⟧.cmp self.now key row ≡ true
            → is_between column (option_copied low.entry) (option_copied high.entry) row ≡ true → contains ⟦<Cell as Ord>⟧.cmp keys (cell_at row key) ≡ true) }
    {
        if !self.columns.as_slice().contains(&column) {
            return None;
        }
        // No value is between other ends, and a set's range asks for ends in order.
        if !are_in_order(low, high) {
            return Some(BTreeSet::new(alloc));
        }
        match near_keys(&self.places, alloc, column, low, high, most) {
            Ok(near) => near,
            Err(_) => None,
        }
    }
}
