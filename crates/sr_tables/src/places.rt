//! New values in the columns of rows.
ghost use Rattle.std.specs.Prelude.{◌≡◌, ◌<◌, [], ◌∷◌, IsTrue, ◌&&◌, ◌==◌, not, IfOk, length, map, nat_lt};
ghost use Rattle.std.specs.List.{list_all};
ghost use Rattle.sr_query.specs.Written.{place_of};
ghost use Rattle.sr_model.specs.Statements.{place_fault, places_fault, with_places};

use crate::faults::fault_of_cell;
use sr_cell::cell::Row;
use sr_cell::fault::Fault;
use sr_cell::list::{Copied, NoMemory};
use sr_cell::table::Table;
use sr_query::write::Place;
use std::alloc::Global;

fn place_fault(table: &Table, place: &Place) -> Option<Fault>
    requires { place.now.column < length table.now.columns }
    ensures { result ≡ place_fault table.now (place_of place.now) }
{
    let columns = table.columns.as_slice();
    fault_of_cell(
        &columns[place.column as usize],
        &place.cell,
        u32::from(place.column),
    )
}

/// The first new value that can't stand in its column.
pub(crate) fn places_fault(table: &Table, sets: &[Place]) -> Option<Fault>
    requires { IsTrue (list_all (λ p. nat_lt p.column (length table.now.columns) && not (p.column == table.now.key)) sets.now) }
    ensures { result ≡ places_fault table.now (map place_of sets.now) }
{
    for i in 0..sets.len() {
        match place_fault(table, &sets[i]) {
            Some(fault) => return Some(fault),
            None => {}
        }
    }
    None
}

/// Puts the value into the row, where the row has its column.
fn put_value(alloc: Global, row: Row, place: &Place) -> Result<Row, NoMemory>
    ensures { IfOk result (λ new. new ≡ with_places (place_of place.now ∷ []) row) }
{
    let mut row = row;
    let column = place.column as usize;
    if column < row.len() {
        let cell = place.cell.copy(alloc)?;
        let _ = row.replace(column, cell);
    }
    Ok(row)
}

/// The row with the new values, in memory of its own.
pub(crate) fn row_with(alloc: Global, row: &Row, sets: &[Place]) -> Result<Row, NoMemory>
    ensures { IfOk result (λ new. new ≡ with_places (map place_of sets.now) row.now) }
{
    let mut new = row.copy(alloc)?;
    for i in 0..sets.len() {
        new = put_value(alloc, new, &sets[i])?;
    }
    Ok(new)
}
