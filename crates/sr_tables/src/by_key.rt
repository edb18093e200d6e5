//! The keys of rows, and the rows of keys.
ghost use Rattle.std.specs.Prelude.{◌≡◌, [], ◌∷◌, ◌++◌, true, IfOk, OnOk, map, filter, option_to_list};
ghost use Rattle.std.specs.Option.{option_copied};
ghost use Rattle.sr_cell.specs.Cells.{cell_at};
ghost use Rattle.sr_cell.specs.Attrs.{project};
ghost use Rattle.sr_box.specs.Points.{in_any};
ghost use Rattle.sr_tables.specs.ByKey.{keys_of, rows_with};

use crate::select::near_rows;
use sr_cell::attrs::Attrs;
use sr_cell::cell::{Cell, Row, Rows};
use sr_cell::list::{Copied, NoMemory, Seq};
use sr_keyed::keyed::KeyedRows;
use sr_union::rects::Rects;
use std::alloc::Global;

/// A row's key.
#[tactic(auto, using(sr_rows::proofs::Order::cell_at_absent))]
fn key_of(alloc: Global, row: &Row, key: usize) -> Result<Cell, NoMemory>
    ensures { IfOk result (λ cell. cell ≡ cell_at row.now key) }
{
    match row.get(key) {
        Some(cell) => cell.copy(alloc),
        None => Ok(Cell::Num(0)),
    }
}

/// The row's key behind the others, where a rect has the row.
fn push_key(
    alloc: Global,
    keys: &mut Seq<Cell>,
    row: &Row,
    key: usize,
    rects: &Rects,
) -> Result<(), NoMemory>
    ensures { OnOk result (keys.new ≡ keys.old ++ keys_of key (filter (in_any rects.now) (row.now ∷ []))) }
{
    if rects.has(row) {
        keys.push(key_of(alloc, row, key)?)?;
    }
    Ok(())
}

fn keys_among(
    alloc: Global,
    rows: &[&Row],
    key: usize,
    rects: &Rects,
) -> Result<Seq<Cell>, NoMemory>
    ensures { IfOk result (λ keys. keys ≡ keys_of key (filter (in_any rects.now) (map (λ r. r.now) rows.now))) }
{
    let mut keys = Seq::new(alloc);
    for i in 0..rows.len() {
        push_key(alloc, &mut keys, rows[i], key, rects)?;
    }
    Ok(keys)
}

/// The keys of the rows in the rects, which are found as those that `select` projects.
pub(crate) fn keys_in(alloc: Global, rows: &KeyedRows, rects: &Rects) -> Result<Seq<Cell>, NoMemory>
    ensures { IfOk result (λ keys. keys ≡ keys_of rows.now.key (filter (in_any rects.now) rows.now.rows)) }
{
    let near = near_rows(alloc, rows, rects.as_slice())?;
    keys_among(alloc, near.as_slice(), rows.key(), rects)
}

/// The projected row behind the others, if there is one.
fn push_found(
    alloc: Global,
    out: &mut Rows,
    row: Option<&Row>,
    attrs: Attrs,
) -> Result<(), NoMemory>
    ensures { OnOk result (out.new ≡ out.old ++ map (project attrs) (option_to_list (option_copied row.entry))) }
{
    match row {
        Some(row) => out.push(row.project(alloc, attrs)?),
        None => Ok(()),
    }
}

/// The rows with these keys, key by key, projected.
pub(crate) fn rows_with(
    alloc: Global,
    rows: &KeyedRows,
    attrs: Attrs,
    keys: &[Cell],
) -> Result<Rows, NoMemory>
    ensures { IfOk result (λ out. out ≡ map (project attrs) (rows_with rows.now.key keys.now rows.now.rows)) }
{
    let mut out = Seq::with_room(alloc, keys.len())?;
    for i in 0..keys.len() {
        push_found(alloc, &mut out, rows.get(&keys[i]), attrs)?;
    }
    Ok(out)
}
