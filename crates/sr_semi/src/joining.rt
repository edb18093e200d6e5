//! Rows of both sides, joined by the keys.
ghost use Rattle.std.specs.Prelude.{◌≡◌, ℕ, ◌++◌, List, map, IfSome, IfOk, OnOk};
ghost use Rattle.std.specs.Option.{option_copied};
ghost use Rattle.sr_cell.specs.Cells.{Row as Cells, cell_at};
ghost use Rattle.sr_model.specs.Conditions.{Eq, passes};
ghost use Rattle.sr_semi.specs.Going.{joined, joined_to, output_in};
ghost use Rattle.sr_query.specs.Bound.{output_of};
ghost use Rattle.sr_semi.specs.Keys.{by_key, with_key};
ghost use Rattle.sr_semi.specs.Seen.{sides_seen};

use crate::keys::{Keys, is_equal};
use crate::sides::Sides;
use sr_cell::cell::{Cell, Row, Rows};
use sr_cell::list::{Copied, NoMemory, Seq};
use sr_query::condition::Output;
use sr_region::region::rank_of;
use std::alloc::Global;
use std::marker::Model;

/// A row that is lent.
#[derive(Drop)]
struct Lent<'a> {
    row: &'a Row,
}

impl<'a> Model for Lent<'a> {
    ghost use Rattle.sr_cell.specs.Cells.{Row};

    ghost Value = { Row };

    ghost view = { λ l. l.row.now };
}

/// The cell of that place; where the row does not have it, it counts as a 0.
#[tactic(auto, using(sr_rows::proofs::Order::cell_at_absent))]
fn copy_at(alloc: Global, row: &Row, place: usize) -> Result<Cell, NoMemory>
    ensures { IfOk result (λ cell. cell ≡ cell_at row.now place) }
{
    match row.get(place) {
        Some(cell) => cell.copy(alloc),
        None => Ok(Cell::Num(0)),
    }
}

/// Whether a key equals a row's own, as Null equals none.
#[tactic(auto, using(crate::proofs::Deciding::equal_is))]
fn joins(key: &Cell, own: &Cell) -> bool
    ensures { result ≡ passes (Eq own.now) key.now }
{
    !key.is_null() && is_equal(key, own)
}

/// Whether the row has that key in that place.
#[tactic(auto, using(sr_rows::proofs::Order::cell_at_absent))]
fn has(row: &Row, place: usize, key: &Cell) -> bool
    ensures { result ≡ passes (Eq (cell_at row.now place)) key.now }
{
    match row.get(place) {
        Some(own) => joins(key, own),
        None => joins(key, &Cell::Num(0)),
    }
}

/// The rows with that key.
fn rows_with<'a>(
    alloc: Global,
    rows: &'a [Row],
    place: usize,
    key: &Cell,
) -> Result<Seq<Lent<'a>>, NoMemory>
    ensures { IfOk result (λ found. found ≡ with_key place rows.now key.now) }
{
    let mut found = Seq::new(alloc);
    for row in rows {
        if has(row, place, key) {
            found.push(Lent { row })?;
        }
    }
    Ok(found)
}

/// The rows with each of the keys.
fn rows_by_key<'a>(
    alloc: Global,
    rows: &'a [Row],
    place: usize,
    keys: &[Cell],
) -> Result<Seq<Seq<Lent<'a>>>, NoMemory>
    ensures { IfOk result (λ found. found ≡ by_key place rows.now keys.now) }
{
    let mut found = Seq::new(alloc);
    for key in keys {
        found.push(rows_with(alloc, rows, place, key)?)?;
    }
    Ok(found)
}

/// The cell of an output, of a row of each side.
fn output_in(
    alloc: Global,
    sides: &Sides,
    left: &Row,
    right: &Row,
    output: Output,
) -> Result<Cell, NoMemory>
    ensures { IfOk result (λ cell. cell ≡ output_in (sides_seen sides.now) left.now right.now (output_of output)) }
{
    if output.part == 0 {
        copy_at(
            alloc,
            left,
            rank_of(sides.left.need, output.column as usize),
        )
    } else {
        copy_at(
            alloc,
            right,
            rank_of(sides.right.need, output.column as usize),
        )
    }
}

/// The outputs of a row of each side.
fn outputs_of(alloc: Global, sides: &Sides, left: &Row, right: &Row) -> Result<Row, NoMemory>
    ensures { IfOk result (λ row. row ≡ map (output_in (sides_seen sides.now) left.now right.now) (sides_seen sides.now).outputs) }
{
    let mut row = Seq::new(alloc);
    for output in sides.outputs.as_slice() {
        row.push(output_in(alloc, sides, left, right, *output)?)?;
    }
    Ok(row)
}

/// Adds the outputs of a left row with each of these rows.
fn join_one<'a>(
    alloc: Global,
    answer: &mut Rows,
    sides: &Sides,
    left: &Row,
    rights: &[Lent<'a>],
) -> Result<(), NoMemory>
    ensures { OnOk result (answer.new ≡ answer.old
        ++ map (λ r. map (output_in (sides_seen sides.now) left.now r) (sides_seen sides.now).outputs) rights.now) }
{
    for right in rights {
        answer.push(outputs_of(alloc, sides, left, right.row)?)?;
    }
    Ok(())
}

/// Adds the outputs of a left row that has none of the keys, with the rows of its key.
fn join_other(
    alloc: Global,
    answer: &mut Rows,
    sides: &Sides,
    left: &Row,
    rights: &[Row],
) -> Result<(), NoMemory>
    ensures { OnOk result (answer.new ≡ answer.old ++ joined_to (sides_seen sides.now) rights.now left.now) }
{
    let key = copy_at(alloc, left, sides.left_place())?;
    let found = rows_with(alloc, rights, sides.right_place(), &key)?;
    join_one(alloc, answer, sides, left, found.as_slice())
}

/// The rows that were found for the left row's key.
fn found_for<'b, 'a>(
    found: &'b Seq<Seq<Lent<'a>>>,
    keys: &Keys,
    left: &Row,
    place: usize,
) -> Option<&'b Seq<Lent<'a>>>
    ensures { (p : ℕ) (all : List Cells) → found.now ≡ by_key p all keys.now
        → IfSome (option_copied result) (λ rows. rows ≡ with_key p all (cell_at left.now place)) }
{
    match keys.find(left, place) {
        Some(key) => found.get(key),
        None => None,
    }
}

/// What is joined of the rows of both sides. A left row that has one of the keys finds its rows by it.
pub fn join(
    alloc: Global,
    sides: &Sides,
    keys: &Keys,
    lefts: &[Row],
    rights: &[Row],
) -> Result<Rows, NoMemory>
    ensures { IfOk result (λ rows. rows ≡ joined (sides_seen sides.now) lefts.now rights.now) }
{
    let found = rows_by_key(alloc, rights, sides.right_place(), keys.as_slice())?;
    let place = sides.left_place();
    let mut answer = Seq::new(alloc);
    for left in lefts {
        match found_for(&found, keys, left, place) {
            Some(rows) => join_one(alloc, &mut answer, sides, left, rows.as_slice())?,
            None => join_other(alloc, &mut answer, sides, left, rights)?,
        }
    }
    Ok(answer)
}
