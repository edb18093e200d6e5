//! Rows by key.
ghost use Rattle.std.specs.Prelude.{◌≡◌, ℕ, ◌<◌, ◌&&◌, ◌++◌, [], true, false, length, map, filter, IsTrue, OnOk, OnErr, IfOk, IfSome};
ghost use Rattle.std.specs.List.{list_all};
ghost use Rattle.std.specs.List.Sorted.{IsStrictlySortedBy};
ghost use Rattle.std.specs.Option.{option_copied};
ghost use Rattle.std.specs.Range.Bound.{bound_map, IsForward};
ghost use Rattle.std.specs.Map.{values_of, set_value};
ghost use Rattle.std.specs.BTreeMap.{IsOrdered, insert_entry, is_at, values};
ghost use Rattle.std.specs.BTreeMap.Range.{IsLeBy, IsLtBy, entries_between};
ghost use Rattle.sr_cell.specs.declared.cell.Cell.TheVariants.{Null as Nothing};
ghost use Rattle.sr_cell.specs.declared.table.Kind.{Kind as TheKind};
ghost use Rattle.sr_cell.specs.Cells.{Row as TheRow, cell_at, cell_eq};
ghost use Rattle.sr_cell.specs.Columns.{are_bytes, is_value, are_values};
ghost use Rattle.sr_model.specs.SortedRows.{ascend, has_key, with_row};
ghost use Rattle.sr_model.specs.Changes.{row_with};
ghost use Rattle.sr_keyed.specs.Keyed.{is_of, with_replaced, is_from, is_up_to, is_between};
ghost use Rattle.sr_rows.specs.Keys.{without_key};
ghost use Rattle.sr_keyed.specs.Entries.{AreKeyed, low_of, are_ends, bound_of};
ghost use Rattle.sr_keyed.specs.Places.{is_indexed, if_passes, rows_at};

use crate::index::{Index, Place};
use sr_cell::cell::{Cell, Row, Rows};
use sr_cell::list::{Copied, NoMemory, Seq};
use sr_cell::table::Kind;
use std::alloc::Global;
use std::collections::{BTreeMap, BTreeSet};
use std::marker::Model;
use std::ops::Bound;

/// Rows with different keys of one kind.
#[derive(Drop)]
pub struct KeyedRows {
    key: usize,
    kind: Kind,
    rows: BTreeMap<Cell, Row>,
    index: Index,
}

impl Model for KeyedRows {
    ghost use Rattle.std.specs.Prelude.{IsTrue};
    ghost use Rattle.std.specs.List.{list_all};
    ghost use Rattle.std.specs.BTreeMap.{IsOrdered, values};
    ghost use Rattle.sr_cell.specs.Columns.{are_values};
    ghost use Rattle.sr_keyed.specs.Keyed.{Keyed};
    ghost use Rattle.sr_keyed.specs.Entries.{AreKeyed};
    ghost use Rattle.sr_keyed.specs.Places.{is_indexed};

    ghost Value = { Keyed };

    ghost view = { λ a. record { key = a.key; kind = a.kind; rows = values a.rows } };

    ghost invariant = { λ a. AreKeyed a.key a.kind a.rows.entries × IsOrdered ⟦<Cell as Ord>⟧.cmp a.rows
        × IsTrue (list_all are_values (values a.rows)) × IsTrue (list_all (is_indexed ⟦<Place as Ord>⟧.cmp a.index a.key) (values a.rows)) };
}

// Facts, which do nothing: what a text's type says of its bytes.
fn know_bytes(text: &[u8])
    ensures { IsTrue (are_bytes text.now) }
{}

fn know_value(cell: &Cell)
    ensures { IsTrue (is_value cell.now) }
{
    match cell {
        Cell::Num(_) | Cell::Null => {}
        Cell::Str(text) => know_bytes(text.as_str().as_bytes()),
    }
}

fn know_values(row: &Row)
    ensures { IsTrue (are_values row.now) }
{
    for cell in row.as_slice() {
        know_value(cell);
    }
}

/// A row's key.
fn key_at(row: &Row, key: usize) -> &Cell
    requires { key < length row.now }
    ensures { result.now ≡ cell_at row.now key }
{
    &row.as_slice()[key]
}

/// Puts a row at a key.
fn put(rows: &mut BTreeMap<Cell, Row>, key: Cell, row: Row) -> Result<(), NoMemory>
    ensures put { OnOk result (rows.new.entries ≡ insert_entry ⟦<Cell as Ord>⟧.cmp rows.old.entries key row) }
    ensures unchanged { OnErr result (rows.new.entries ≡ rows.old.entries) }
    ensures ordered { IsOrdered ⟦<Cell as Ord>⟧.cmp rows.new }
{
    rows.insert(key, row)?;
    Ok(())
}

/// Puts a row in the place of the one at its key.
fn put_in_place(rows: &mut BTreeMap<Cell, Row>, key: usize, row: Row)
    requires { key < length row }
    ensures replaced { rows.new.entries ≡ set_value (is_at (⟦<Cell as Ord>⟧.cmp (cell_at row key))) rows.old.entries row }
    ensures ordered { IsOrdered ⟦<Cell as Ord>⟧.cmp rows.new }
{
    match rows.get_mut(key_at(&row, key)) {
        Some(place) => *place = row,
        None => {}
    }
}

/// Whether the cell is of the kind, as Null is of each.
fn is_of(kind: Kind, cell: &Cell) -> bool
    ensures { result ≡ is_of kind cell.now }
{
    match (kind, cell) {
        (Kind::Num, Cell::Num(_)) => true,
        (Kind::Str, Cell::Str(_)) => true,
        (_, Cell::Null) => true,
        _ => false,
    }
}

/// A lower end for cells of a kind: above a cell of another kind stands Null alone.
fn low_of<'b>(kind: Kind, low: Option<&'b Cell>, null: &'b Cell) -> Option<&'b Cell>
    requires { null.now ≡ Nothing }
    ensures { option_copied result ≡ low_of kind (option_copied low.entry) }
{
    match low {
        Some(end) if !is_of(kind, end) => Some(null),
        _ => low,
    }
}

/// Whether the ends are of the kind, and the lower one is not above the upper one.
fn are_ends(kind: Kind, low: Option<&Cell>, high: Option<&Cell>) -> bool
    ensures { result ≡ are_ends kind (option_copied low.entry) (option_copied high.entry) }
{
    match (low, high) {
        (None, None) => true,
        (None, Some(end)) => is_of(kind, end),
        (Some(end), None) => is_of(kind, end),
        (Some(one), Some(other)) => is_of(kind, one) && one.is_at_most(other),
    }
}

/// An end as the map's ranges want it.
fn bound_of<'b>(end: Option<&'b Cell>) -> Bound<&'b Cell>
    ensures { bound_map (λ x. x.now) result ≡ bound_of (option_copied end.entry) }
{
    match end {
        Some(cell) => Bound::Included(cell),
        None => Bound::Unbounded,
    }
}

/// The rows of a part of a map.
fn rows_between<'a, 'b>(
    rows: &'a BTreeMap<Cell, Row>,
    alloc: Global,
    low: Bound<&'b Cell>,
    high: Bound<&'b Cell>,
) -> Result<Vec<&'a Row>, NoMemory>
    requires { IsForward (IsLeBy ⟦<Cell as Ord>⟧.cmp) (IsLtBy ⟦<Cell as Ord>⟧.cmp) (bound_map (λ x. x.now) low) (bound_map (λ x. x.now) high) }
    ensures { IfOk result (λ found. map (λ r. r.now) found.items
        ≡ values_of (entries_between ⟦<Cell as Ord>⟧.cmp (bound_map (λ x. x.now) low.entry) (bound_map (λ x. x.now) high.entry) rows.now.entries)) }
{
    let mut found = Vec::new(alloc);
    for (_, row) in rows.range((low, high)) {
        found.push(row)?;
    }
    Ok(found)
}

/// Whether the cell of a column is from one end up to another, both inside.
#[tactic(auto, using(sr_rows::proofs::Order::cell_at_absent))]
fn is_between(row: &Row, column: usize, low: Option<&Cell>, high: Option<&Cell>) -> bool
    ensures { result ≡ is_between column (option_copied low.entry) (option_copied high.entry) row.now }
{
    match row.get(column) {
        Some(cell) => is_inside(cell, low, high),
        None => is_inside(&Cell::Num(0), low, high),
    }
}

/// Whether the cell is from one end up to another, both inside.
fn is_inside(cell: &Cell, low: Option<&Cell>, high: Option<&Cell>) -> bool
    ensures { result ≡ (is_from (option_copied low.entry) cell.now && is_up_to (option_copied high.entry) cell.now) }
{
    match low {
        Some(low) if !low.is_at_most(cell) => return false,
        _ => {}
    }
    match high {
        Some(high) => cell.is_at_most(high),
        None => true,
    }
}

/// Puts the row behind the others, if there is one and its cell of a column is between the ends.
fn push_near<'a>(
    found: &mut Vec<&'a Row>,
    row: Option<&'a Row>,
    column: usize,
    low: Option<&Cell>,
    high: Option<&Cell>,
) -> Result<(), NoMemory>
    ensures { OnOk result (map (λ r. r.now) found.new.items
        ≡ map (λ r. r.now) found.old.items ++ if_passes (is_between column (option_copied low.entry) (option_copied high.entry)) (option_copied row.entry)) }
{
    match row {
        Some(row) if is_between(row, column, low, high) => found.push(row)?,
        _ => {}
    }
    Ok(())
}

/// The rows with the keys whose cell of a column is between the ends, key by key.
fn rows_at<'a>(
    rows: &'a BTreeMap<Cell, Row>,
    alloc: Global,
    keys: &BTreeSet<Cell>,
    column: usize,
    low: Option<&Cell>,
    high: Option<&Cell>,
) -> Result<Vec<&'a Row>, NoMemory>
    ensures ordered { IsStrictlySortedBy ⟦<Cell as Ord>⟧.cmp keys.now.keys }
    ensures found { IfOk result (λ found. map (λ r. r.now) found.items
        ≡ rows_at ⟦<Cell as Ord>⟧.cmp (is_between column (option_copied low.entry) (option_copied high.entry)) rows.now.entries keys.now.keys) }
{
    let mut found = Vec::new(alloc);
    for key in keys {
        push_near(&mut found, rows.get(key), column, low, high)?;
    }
    Ok(found)
}

/// Takes the row of that key out of the index.
fn forget(index: &mut Index, rows: &BTreeMap<Cell, Row>, key: usize, value: &Cell)
    requires { (kind : TheKind) × AreKeyed key kind rows.now.entries }
    ensures { (other : TheRow) → cell_eq (cell_at other key) value.now ≡ false → is_indexed ⟦<Place as Ord>⟧.cmp index.old key other ≡ true
        → is_indexed ⟦<Place as Ord>⟧.cmp index.new key other ≡ true }
{
    if index.is_empty() {
        return;
    }
    match rows.get(value) {
        Some(row) => index.remove(key, row),
        None => {}
    }
}

/// All rows of a map, moved out.
fn all_rows(map: BTreeMap<Cell, Row>, alloc: Global) -> Result<Rows, NoMemory>
    ensures { IfOk result (λ rows. rows ≡ values map) }
{
    let mut rows = Seq::new(alloc);
    for row in map.into_values() {
        rows.push(row)?;
    }
    Ok(rows)
}

impl KeyedRows {
    /// No rows; takes no memory.
    pub fn new(alloc: Global, key: usize, kind: Kind) -> KeyedRows
        ensures { result ≡ record { key = key; kind = kind; rows = [] } }
    {
        KeyedRows {
            key,
            kind,
            rows: BTreeMap::new(alloc),
            index: Index::new(alloc),
        }
    }

    /// The number of the key column.
    pub fn key(&self) -> usize
        ensures { result ≡ self.now.key }
    {
        self.key
    }

    /// How many rows there are.
    pub fn len(&self) -> usize
        ensures { result ≡ length self.now.rows }
    {
        self.rows.len()
    }

    /// The rows stand by key ascending: a fact, which does nothing.
    pub fn know_ascending(&self)
        ensures { ascend self.now.key self.now.rows ≡ true }
    {
        // A field that is read makes the type's invariant known.
        let _rows = &self.rows;
    }

    /// The texts of the rows are bytes: a fact, which does nothing.
    pub fn know_values(&self)
        ensures { IsTrue (list_all are_values self.now.rows) }
    {
        let _rows = &self.rows;
    }

    /// The row with that key.
    pub fn get(&self, key: &Cell) -> Option<&Row>
        ensures { option_copied result ≡ row_with self.now.key key.now self.now.rows }
    {
        self.rows.get(key)
    }

    /// Whether a row has that key.
    pub fn has(&self, key: &Cell) -> bool
        ensures { result ≡ has_key self.now.key key.now self.now.rows }
    {
        self.rows.contains_key(key)
    }

    /// One row more, whose key no row has.
    pub fn insert(&mut self, alloc: Global, row: Row) -> Result<(), NoMemory>
        requires cell { self.old.key < length row }
        requires kind { is_of self.old.kind (cell_at row self.old.key) ≡ true }
        requires other { has_key self.old.key (cell_at row self.old.key) self.old.rows ≡ false }
        ensures inserted { OnOk result (self.new ≡ record self.old { rows = with_row self.old.key self.old.rows row }) }
        ensures unchanged { OnErr result (self.new ≡ self.old) }
    {
        know_values(&row);
        match key_at(&row, self.key).copy(alloc) {
            Ok(key) => {
                self.index.add(self.key, &row);
                put(&mut self.rows, key, row)
            }
            Err(no) => Err(no),
        }
    }

    /// Puts a row in the place of the one that has its key; never fails.
    pub fn replace(&mut self, row: Row)
        requires cell { self.old.key < length row }
        requires known { has_key self.old.key (cell_at row self.old.key) self.old.rows ≡ true }
        ensures { self.new ≡ record self.old { rows = with_replaced self.old.key row self.old.rows } }
    {
        know_values(&row);
        forget(
            &mut self.index,
            &self.rows,
            self.key,
            key_at(&row, self.key),
        );
        self.index.add(self.key, &row);
        put_in_place(&mut self.rows, self.key, row);
    }

    /// Takes the row of that key out, if there is one; never fails.
    pub fn remove(&mut self, key: &Cell)
        ensures { self.new ≡ record self.old { rows = without_key self.old.key key.now self.old.rows } }
    {
        forget(&mut self.index, &self.rows, self.key, key);
        self.rows.remove(key);
    }

    /// The rows from one key up to another, both inside, in time of their number.
    pub fn between<'a>(
        &'a self,
        alloc: Global,
        low: Option<&Cell>,
        high: Option<&Cell>,
    ) -> Result<Vec<&'a Row>, NoMemory>
        ensures { IfOk result (λ rows. map (λ r. r.now) rows.items
            ≡ filter (is_between self.now.key (option_copied low.entry) (option_copied high.entry)) self.now.rows) }
    {
        let null = Cell::Null;
        let low = low_of(self.kind, low, &null);
        // No key is between other ends, and a map's range asks for ends in order.
        if !are_ends(self.kind, low, high) {
            return Ok(Vec::new(alloc));
        }
        rows_between(&self.rows, alloc, bound_of(low), bound_of(high))
    }

    /// Makes an index of a column, if there is none and memory is to be had: no row changes.
    pub fn index(&mut self, column: usize)
        ensures { self.new ≡ self.old }
    {
        self.index.index(self.key, column, &self.rows);
    }

    /// The rows whose cell of a column is from one end up to another, both inside, in time of their number: where the
    /// column has an index, and they are at most a sixteenth of all.
    pub fn near<'a>(
        &'a self,
        alloc: Global,
        column: usize,
        low: Option<&Cell>,
        high: Option<&Cell>,
    ) -> Option<Vec<&'a Row>>
        ensures { IfSome result (λ rows. map (λ r. r.now) rows.items
            ≡ filter (is_between column (option_copied low.entry) (option_copied high.entry)) self.now.rows) }
    {
        let most = self.rows.len() / 16;
        match self.index.near(alloc, column, low, high, most) {
            Some(keys) => rows_at(&self.rows, alloc, &keys, column, low, high).ok(),
            None => None,
        }
    }

    /// All rows, moved out.
    pub fn into_rows(self, alloc: Global) -> Result<Rows, NoMemory>
        ensures { IfOk result (λ rows. rows ≡ self.rows) }
    {
        let KeyedRows { rows, .. } = self;
        all_rows(rows, alloc)
    }
}
