//! The rows of rects that lie one above the other by key, rect by rect.
ghost use Rattle.std.specs.Prelude.{◌≡◌, true, false, IfOk, IfSome, IsTrue, map, filter};
ghost use Rattle.sr_cell.specs.declared.cell.Cell.{Cell as TheCell};
ghost use Rattle.sr_cell.specs.Cells.{Row as TheRow, cell_at, cell_le};
ghost use Rattle.sr_box.specs.Points.{in_rect, in_any};
ghost use Rattle.sr_tables.specs.Turns.{is_at_last};

use crate::select::{high_in, low_in};
use sr_box::rect::Rect;
use sr_cell::cell::{Cell, Row};
use sr_cell::list::NoMemory;
use sr_keyed::keyed::KeyedRows;
use std::alloc::Global;

/// Where the rows of a rect lie by key: from one cell up to another.
#[derive(Drop)]
struct Ends {
    low: Cell,
    high: Cell,
}

/// Whether the cell is above the last one, if there is one.
fn is_above(low: &Cell, last: &Option<Cell>) -> bool
    ensures { IsTrue result → (v : TheCell) → cell_le low.now v ≡ true → is_at_last last.now v ≡ false }
{
    match last {
        Some(last) => !low.is_at_most(last),
        None => true,
    }
}

/// Whether what is at most the last cell is at most the other.
fn is_last_within(last: &Option<Cell>, high: &Cell) -> bool
    ensures { IsTrue result → (v : TheCell) → is_at_last last.now v ≡ true → cell_le v high.now ≡ true }
{
    match last {
        Some(last) => last.is_at_most(high),
        None => true,
    }
}

/// The ends of a rect's rows by key, where it has both and lies above the last cell.
fn ends_above(alloc: Global, rect: &Rect, key: usize, last: &Option<Cell>) -> Option<Ends>
    ensures low { IfSome result (λ ends. (row : TheRow) → in_rect rect.now row ≡ true → cell_le ends.low (cell_at row key) ≡ true) }
    ensures high { IfSome result (λ ends. (row : TheRow) → in_rect rect.now row ≡ true → cell_le (cell_at row key) ends.high ≡ true) }
    ensures above { IfSome result (λ ends. (v : TheCell) → cell_le ends.low v ≡ true → is_at_last last.now v ≡ false) }
    ensures further { IfSome result (λ ends. (v : TheCell) → is_at_last last.now v ≡ true → cell_le v ends.high ≡ true) }
{
    let low = low_in(alloc, rect, key)?;
    let high = high_in(alloc, rect, key)?;
    if is_above(&low, last) && is_last_within(last, &high) {
        Some(Ends { low, high })
    } else {
        None
    }
}

/// Rows with all those in the rects, and between the ends of each: where each rect lies above those before it by key.
pub(crate) fn near_in_turn<'a>(
    alloc: Global,
    rows: &'a KeyedRows,
    rects: &[Rect],
) -> Result<Option<Vec<&'a Row>>, NoMemory>
    ensures { IfOk result (λ found. IfSome found (λ near.
        filter (in_any rects.now) (map (λ r. r.now) near.items) ≡ filter (in_any rects.now) rows.now.rows)) }
{
    rows.know_ascending();
    let key = rows.key();
    let mut near = Vec::new(alloc);
    let mut last = None;
    for i in 0..rects.len() {
        match ends_above(alloc, &rects[i], key, &last) {
            Some(ends) => {
                let Ends { low, high } = ends;
                let mut more = rows.between(alloc, Some(&low), Some(&high))?;
                near.append(&mut more)?;
                last = Some(high);
            }
            None => return Ok(None),
        }
    }
    Ok(Some(near))
}
