//! What a change does to the rows of a region.
ghost use Rattle.std.specs.Prelude.{◌≡◌, ◌+◌, ◌<◌, true, ◌++◌, length, take, drop, IfNone, IfSome, IfOk, OnOk, OnErr};
ghost use Rattle.sr_model.specs.SortedRows.{ascend, with_row};
ghost use Rattle.sr_rows.specs.Keys.{without_key};
ghost use Rattle.sr_region.specs.Entering.{part_in, with_part};

use sr_cell::attrs::Attrs;
use sr_cell::cell::{Cell, Row, Rows};
use sr_cell::list::NoMemory;
use sr_rows::rows::{has_key_of, place_of, place_of_row, put};
use sr_union::rects::Rects;
use std::alloc::Global;

/// The cells of these columns, where there is a row and it lies in the rects.
pub(crate) fn part_in(
    alloc: Global,
    attrs: Attrs,
    rects: &Rects,
    row: &Option<Row>,
) -> Result<Option<Row>, NoMemory>
    ensures { IfOk result (λ part. part ≡ part_in attrs rects.now row.now) }
{
    match row {
        Some(row) if rects.has(row) => Ok(Some(row.project(alloc, attrs)?)),
        _ => Ok(None),
    }
}

/// Where the row with that key stands.
fn find_key(rows: &Rows, column: usize, key: &Cell) -> Option<usize>
    requires { ascend column rows.now ≡ true }
    ensures none { IfNone result (without_key column key.now rows.now ≡ rows.now) }
    ensures within { IfSome result (λ at. at < length rows.now) }
    ensures without { IfSome result (λ at. without_key column key.now rows.now ≡ take at rows.now ++ drop (at + 1) rows.now) }
{
    if has_key_of(rows, column, key) {
        Some(place_of(rows, column, key) - 1)
    } else {
        None
    }
}

/// A row for another, in its place where it belongs there.
fn exchange(rows: &mut Rows, column: usize, at: usize, row: Row) -> Result<(), NoMemory>
    requires ascending { ascend column rows.old ≡ true }
    requires within { at < length rows.old }
    ensures exchanged { OnOk result (rows.new ≡ with_row column (take at rows.old ++ drop (at + 1) rows.old) row) }
    ensures unchanged { OnErr result (rows.new ≡ rows.old) }
{
    let place = place_of_row(rows.as_slice(), column, &row);
    // So it is where both have one key.
    if place == at + 1 {
        rows.replace(at, row);
        return Ok(());
    }
    rows.insert(place, row)?;
    rows.remove(if at < place { at } else { at + 1 });
    Ok(())
}

/// The row of that key gone, and the other there if there is one.
pub(crate) fn change_row(
    rows: &mut Rows,
    column: usize,
    key: &Cell,
    part: Option<Row>,
) -> Result<(), NoMemory>
    requires { ascend column rows.old ≡ true }
    ensures changed { OnOk result (rows.new ≡ with_part column part (without_key column key.now rows.old)) }
    ensures unchanged { OnErr result (rows.new ≡ rows.old) }
{
    match (find_key(rows, column, key), part) {
        (Some(at), Some(row)) => exchange(rows, column, at, row),
        (Some(at), None) => {
            rows.remove(at);
            Ok(())
        }
        (None, Some(row)) => put(rows, column, row),
        (None, None) => Ok(()),
    }
}
