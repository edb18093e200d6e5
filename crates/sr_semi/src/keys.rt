//! The keys that a left part has.
ghost use Rattle.std.specs.Prelude.{◌≡◌, ◌≤◌, length, IfSome, IfOk, OnOk};
ghost use Rattle.std.specs.Option.{is_some};
ghost use Rattle.sr_cell.specs.Cells.{cell_at, cell_eq, is_null};
ghost use Rattle.sr_semi.specs.Keys.{IsKeyAt, all_have, at_most, is_key, is_met, values_at, with_known, with_value};

use sr_cell::cell::{Cell, Row};
use sr_cell::list::{Copied, NoMemory, Seq};
use std::alloc::Global;
use std::marker::Model;

/// At most 64 different keys, ascending.
#[derive(Drop)]
pub struct Keys {
    cells: Row,
}

impl Model for Keys {
    ghost use Rattle.std.specs.Prelude.{List, length, ◌≤◌};
    ghost use Rattle.sr_cell.specs.declared.cell.Cell.{Cell};

    ghost Value = { List Cell };

    ghost view = { λ k. k.cells };

    ghost invariant = { λ k. length k.cells ≤ 64 };
}

impl Keys {
    /// The different values in that place of the rows, without Null, unless there are more than `most`.
    pub fn of(
        alloc: Global,
        rows: &[Row],
        place: usize,
        most: usize,
    ) -> Result<Option<Keys>, NoMemory>
        requires { most ≤ 64 }
        ensures { IfOk result (λ keys. keys ≡ at_most most (values_at place rows.now)) }
    {
        let mut cells = Seq::new(alloc);
        for row in rows {
            add(alloc, &mut cells, row, place)?;
            if cells.len() > most {
                return Ok(None);
            }
        }
        Ok(Some(Keys { cells }))
    }

    /// The keys as a slice.
    pub fn as_slice(&self) -> &[Cell]
        ensures { result.now ≡ self.now }
    {
        self.cells.as_slice()
    }

    /// How many there are.
    pub fn len(&self) -> u32
        ensures { result ≡ length self.now }
    {
        self.cells.len() as u32
    }

    /// The number of the key that equals the row's cell of that place, if there is one.
    #[tactic(auto, using(sr_rows::proofs::Order::cell_at_absent))]
    pub fn find(&self, row: &Row, place: usize) -> Option<usize>
        ensures found { IfSome result (IsKeyAt self.now (cell_at row.now place)) }
        ensures known { is_some result ≡ is_key self.now (cell_at row.now place) }
    {
        match row.get(place) {
            Some(cell) => place_of(self.cells.as_slice(), cell),
            None => place_of(self.cells.as_slice(), &Cell::Num(0)),
        }
    }

    /// Whether the row has one of the keys in that place, or Null.
    fn is_met(&self, row: &Row, place: usize) -> bool
        ensures { result ≡ is_met self.now (cell_at row.now place) }
    {
        is_null_at(row, place) || self.find(row, place).is_some()
    }

    /// Whether each row has one of the keys in that place, or Null.
    pub fn all_have(&self, rows: &[Row], place: usize) -> bool
        ensures { result ≡ all_have place self.now rows.now }
    {
        for row in rows {
            if !self.is_met(row, place) {
                return false;
            }
        }
        true
    }
}

impl Copied for Keys {
    fn copy(&self, alloc: Global) -> Result<Keys, NoMemory> {
        Ok(Keys {
            cells: self.cells.copy(alloc)?,
        })
    }
}

/// Whether the row has Null in that place.
#[tactic(auto, using(sr_rows::proofs::Order::cell_at_absent))]
fn is_null_at(row: &Row, place: usize) -> bool
    ensures { result ≡ is_null (cell_at row.now place) }
{
    match row.get(place) {
        Some(cell) => cell.is_null(),
        None => false,
    }
}

/// Adds the row's cell of that place, unless it is Null.
#[tactic(auto, using(sr_rows::proofs::Order::cell_at_absent))]
fn add(alloc: Global, cells: &mut Row, row: &Row, place: usize) -> Result<(), NoMemory>
    ensures { OnOk result (cells.new ≡ with_known cells.old (cell_at row.now place)) }
{
    match row.get(place) {
        Some(cell) => add_known(alloc, cells, cell),
        None => add_known(alloc, cells, &Cell::Num(0)),
    }
}

/// Adds a cell, unless it is Null.
fn add_known(alloc: Global, cells: &mut Row, cell: &Cell) -> Result<(), NoMemory>
    ensures { OnOk result (cells.new ≡ with_known cells.old cell.now) }
{
    if cell.is_null() {
        return Ok(());
    }
    add_cell(alloc, cells, cell)
}

/// Adds a cell in its place, unless it is there.
fn add_cell(alloc: Global, cells: &mut Row, cell: &Cell) -> Result<(), NoMemory>
    ensures { OnOk result (cells.new ≡ with_value cells.old cell.now) }
{
    for i in 0..cells.len() {
        let other = &cells.as_slice()[i];
        if cell.is_at_most(other) {
            if !other.is_at_most(cell) {
                cells.insert(i, cell.copy(alloc)?)?;
            }
            return Ok(());
        }
    }
    cells.push(cell.copy(alloc)?)
}

/// The number of the first of the cells that equals that one.
fn place_of(cells: &[Cell], cell: &Cell) -> Option<usize>
    ensures found { IfSome result (IsKeyAt cells.now cell.now) }
    ensures known { is_some result ≡ is_key cells.now cell.now }
{
    for i in 0..cells.len() {
        if is_equal(cell, &cells[i]) {
            return Some(i);
        }
    }
    None
}

/// Whether two cells are equal.
pub fn is_equal(one: &Cell, other: &Cell) -> bool
    ensures { result ≡ cell_eq one.now other.now }
{
    one.is_at_most(other) && other.is_at_most(one)
}
