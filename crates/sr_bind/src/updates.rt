//! The new values of an UPDATE.
ghost use Rattle.std.specs.Prelude.{◌≡◌, ◌<◌, Bool, IsTrue, IfOk, [], length, map};
ghost use Rattle.sr_query.specs.Binding.{column_named, is_among};
ghost use Rattle.sr_query.specs.Bound.{is_table};
ghost use Rattle.sr_query.specs.Decided.{Decides};
ghost use Rattle.sr_query.specs.Writes.{set_column, places_from};
ghost use Rattle.sr_query.specs.Written.{place_of};
ghost use Rattle.sr_bind.specs.Written.{columns_of, next_place};

use crate::lookup::{column_named, kind_at};
use crate::values::typed;
use sr_cell::fault::{Fault, Why};
use sr_cell::list::{Copied, No, Seq};
use sr_cell::table::Table;
use sr_grammar::statement::{Name, Set};
use sr_query::write::{Place, Places};
use std::alloc::Global;

/// The columns that are set, each once, and their values.
pub fn places(alloc: Global, table: &Table, sets: &[Set]) -> Result<Places, No<Fault>>
    requires { IsTrue (is_table table.now) }
    ensures { Decides (map place_of) result (places_from table.now [] sets.now) }
{
    let mut places = Seq::new(alloc);
    for set in sets {
        match next_place(alloc, table, places.as_slice(), set) {
            Ok(place) => places.push(place)?,
            Err(no) => return Err(no),
        }
    }
    Ok(places)
}

/// The place of one SET behind those that are set already.
fn next_place(
    alloc: Global,
    table: &Table,
    earlier: &[Place],
    set: &Set,
) -> Result<Place, No<Fault>>
    requires { IsTrue (is_table table.now) }
    ensures { Decides place_of result (next_place table.now (columns_of earlier.now) set.now) }
{
    let column = match set_column(table, earlier, &set.name) {
        Ok(column) => column,
        Err(fault) => return Err(No::Refused(fault)),
    };
    match typed(kind_at(table, column), &set.value) {
        Ok(()) => Ok(Place {
            column,
            cell: set.value.cell.copy(alloc)?,
        }),
        Err(no) => Err(no),
    }
}

/// The column of that name, which is not the key and is not set already.
fn set_column(table: &Table, earlier: &[Place], name: &Name) -> Result<u8, Fault>
    requires { IsTrue (is_table table.now) }
    ensures decided { result ≡ set_column table.now (columns_of earlier.now) name.now.place (column_named 0 table.now.columns name.now.column) }
    ensures within { IfOk result (λ c. c < length table.now.columns) }
{
    let why = match column_named(table.columns.as_slice(), name.column.as_str()) {
        None => Why::UnknownColumn,
        Some(column) => {
            if u16::from(column) == table.key {
                Why::KeyChange
            } else if is_set(earlier, column) {
                Why::Repeated
            } else {
                return Ok(column);
            }
        }
    };
    Err(Fault {
        why,
        at: name.place,
    })
}

fn is_set(earlier: &[Place], column: u8) -> bool
    ensures { result ≡ is_among (columns_of earlier.now) column }
{
    for place in earlier {
        if place.column == column {
            return true;
        }
    }
    false
}
