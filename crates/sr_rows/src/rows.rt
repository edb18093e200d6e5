//! Rows by key: places, look-ups and puts.
ghost use Rattle.std.specs.Prelude.{◌≡◌, ℕ, ◌≤◌, true, List, length, OnOk, OnErr};
ghost use Rattle.sr_cell.specs.Cells.{cell_at, cell_le};
ghost use Rattle.sr_model.specs.SortedRows.{ascend, has_key, with_row, with_rows};
ghost use Rattle.sr_rows.specs.Places.{place_at, is_apart};
ghost use Rattle.sr_rows.specs.Laws.{PartsJoin};

use crate::merge::merged;
use sr_cell::cell::{Cell, Row, Rows};
use sr_cell::list::{NoMemory, Seq};
use std::collections::VecDeque;
use std::mem;

#[tactic(auto, using(crate::proofs::Order::cell_at_absent))]
fn is_key_at_most(row: &Row, key: usize, cell: &Cell) -> bool
    ensures { result ≡ cell_le (cell_at row.now key) cell.now }
{
    match row.get(key) {
        Some(own) => own.is_at_most(cell),
        None => Cell::Num(0).is_at_most(cell),
    }
}

#[tactic(auto, using(crate::proofs::Order::cell_at_absent))]
fn is_key_at_least(row: &Row, key: usize, cell: &Cell) -> bool
    ensures { result ≡ cell_le cell.now (cell_at row.now key) }
{
    match row.get(key) {
        Some(own) => cell.is_at_most(own),
        None => cell.is_at_most(&Cell::Num(0)),
    }
}

/// Whether the row's key is of the other's kind and not above it. Numbers are compared here, since calls take longer than that.
#[tactic(auto, using(crate::proofs::Order::cell_at_absent))]
pub fn is_row_at_most(row: &Row, other: &Row, key: usize) -> bool
    ensures { result ≡ cell_le (cell_at row.now key) (cell_at other.now key) }
{
    match (row.get(key), other.get(key)) {
        (Some(Cell::Num(own)), Some(Cell::Num(cell))) => *own <= *cell,
        (_, Some(cell)) => is_key_at_most(row, key, cell),
        (_, None) => is_key_at_most(row, key, &Cell::Num(0)),
    }
}

/// How many rows of a slice have a key that is at most the cell.
fn place_in(rows: &[Row], key: usize, cell: &Cell) -> usize
    requires { ascend key rows.now ≡ true }
    ensures place { result ≡ place_at key cell.now rows.now }
    ensures within { result ≤ length rows.now }
{
    rows.partition_point(|row| is_key_at_most(row, key, cell))
}

/// How many rows have a key that is at most the cell: they are the first.
pub fn place_of(rows: &Rows, key: usize, cell: &Cell) -> usize
    requires { ascend key rows.now ≡ true }
    ensures place { result ≡ place_at key cell.now rows.now }
    ensures within { result ≤ length rows.now }
{
    place_in(rows.as_slice(), key, cell)
}

/// Whether a row has the key.
pub fn has_key_of(rows: &Rows, key: usize, cell: &Cell) -> bool
    requires { ascend key rows.now ≡ true }
    ensures { result ≡ has_key key cell.now rows.now }
{
    let place = place_of(rows, key, cell);
    place > 0 && is_key_at_least(&rows.as_slice()[place - 1], key, cell)
}

/// Whether a row has the other's key.
#[tactic(auto, using(crate::proofs::Order::cell_at_absent))]
pub fn has_key_of_row(rows: &Rows, key: usize, row: &Row) -> bool
    requires { ascend key rows.now ≡ true }
    ensures { result ≡ has_key key (cell_at row.now key) rows.now }
{
    match row.get(key) {
        Some(cell) => has_key_of(rows, key, cell),
        None => has_key_of(rows, key, &Cell::Num(0)),
    }
}

/// How many rows of a slice have a key that is at most the row's: they are the first.
#[tactic(auto, using(crate::proofs::Order::cell_at_absent))]
pub fn place_of_row(rows: &[Row], key: usize, row: &Row) -> usize
    requires { ascend key rows.now ≡ true }
    ensures place { result ≡ place_at key (cell_at row.now key) rows.now }
    ensures within { result ≤ length rows.now }
{
    match row.get(key) {
        Some(cell) => place_in(rows, key, cell),
        None => place_in(rows, key, &Cell::Num(0)),
    }
}

/// One row more, at its place by key.
pub fn put(rows: &mut Rows, key: usize, row: Row) -> Result<(), NoMemory>
    requires { ascend key rows.old ≡ true }
    ensures put { OnOk result (rows.new ≡ with_row key rows.old row) }
    ensures ascending { OnOk result (is_apart key rows.old row ≡ true → ascend key rows.new ≡ true) }
    ensures unchanged { OnErr result (rows.new ≡ rows.old) }
{
    let place = place_of_row(rows.as_slice(), key, &row);
    rows.insert(place, row)
}

/// Other rows by key among these, each at its place.
pub fn put_all(rows: &mut Rows, key: usize, more: Rows) -> Result<(), NoMemory>
    requires { ascend key more ≡ true }
    ensures put { OnOk result (rows.new ≡ with_rows key rows.old more) }
    ensures unchanged { OnErr result (rows.new ≡ rows.old) }
{
    let more = more.into_vec();
    let alloc = *more.allocator();
    let room = Vec::with_capacity(alloc, rows.as_slice().len() + more.len())?;
    let own = mem::replace(rows, Seq::new(alloc)).into_vec();
    *rows = Seq::from_vec(merged(VecDeque::from_vec(own), VecDeque::from_vec(more), key, room));
    Ok(())
}

/// Parts of rows with none in common, put together by key, are the rows of either.
pub fn parts_join()
    ensures { PartsJoin }
{}
