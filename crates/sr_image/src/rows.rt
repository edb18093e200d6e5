//! The rows of a part, read from the front of bytes.
ghost use Rattle.std.specs.Prelude.{◌≡◌, []};
ghost use Rattle.sr_bytes.specs.Reading.{a_row, passing};
ghost use Rattle.sr_image.specs.Reading.{each_behind, is_above, may_row, some_rows, takes_part};
ghost use Rattle.sr_image.specs.Found.{ReadsOr};
ghost use Rattle.sr_image.specs.Index.{IsIndex};

use crate::index::Index;
use sr_box::rect::Rect;
use sr_bytes::cursor::{BadField, Cursor};
use sr_cell::attrs::Attrs;
use sr_cell::cell::{Row, Rows};
use sr_cell::list::No;
use sr_cell::table::{Column, Table};
use sr_region::region::rank_of;
use sr_rows::rows::is_row_at_most;
use std::alloc::Global;

/// The most rows of a part.
const ROWS: u32 = 200_000;

/// Whether the row has one cell for each of these columns, which it takes.
fn takes_part(attrs: Attrs, columns: &[Column], row: &Row) -> bool
    ensures { result ≡ takes_part 0 attrs columns.now row.now }
{
    let mut cells = row.as_slice();
    for (i, column) in columns.iter().enumerate() {
        if attrs.has_index(i) {
            let [cell, rest @ ..] = cells else {
                return false;
            };
            if !column.takes(cell) {
                return false;
            }
            cells = rest;
        }
    }
    cells.is_empty()
}

/// Whether the row's key is above that of the last of these.
fn is_above(key: usize, before: &[Row], row: &Row) -> bool
    ensures { result ≡ is_above key before.now row.now }
{
    match before {
        [] => true,
        [.., last] => is_row_at_most(last, row, key) && !is_row_at_most(row, last, key),
    }
}

/// The columns of a part whose rows are read, and its rects.
#[derive(Clone, Copy)]
pub(crate) struct RowPlace<'a> {
    pub(crate) table: &'a Table,
    pub(crate) attrs: Attrs,
    pub(crate) rects: &'a [Rect],
}

/// A row that may stand behind those.
fn one_row<'a>(
    alloc: Global,
    bytes: &mut Cursor<'a>,
    part: &RowPlace,
    index: &Index,
    before: &[Row],
) -> Result<Row, No<BadField>>
    requires { IsIndex part.now.rects.now index.now }
    ensures { ReadsOr result bytes.new (passing (may_row part.now.table.now part.now.attrs part.now.rects.now before.now) a_row bytes.old) }
{
    let at = bytes.left();
    let view = match bytes.row() {
        Ok(view) => view,
        Err(bad) => return Err(No::Refused(bad)),
    };
    let row = view.to_row(alloc)?;
    if takes_part(part.attrs, part.table.columns.as_slice(), &row)
        && index.has_part(part.rects, part.attrs, &row)
        && is_above(rank_of(part.attrs, part.table.key as usize), before, &row)
    {
        return Ok(row);
    }
    *bytes = Cursor::over(at);
    Err(No::Refused(BadField))
}

/// So many rows, each of which may stand behind those before it.
fn each_row<'a>(
    alloc: Global,
    bytes: &mut Cursor<'a>,
    part: &RowPlace,
    index: &Index,
    count: u32,
) -> Result<Rows, No<BadField>>
    requires { IsIndex part.now.rects.now index.now }
    ensures { ReadsOr result bytes.new
        (each_behind (λ before. passing (may_row part.now.table.now part.now.attrs part.now.rects.now before) a_row) count [] bytes.old) }
{
    let mut rows = Rows::new(alloc);
    for _ in 0..count {
        match one_row(alloc, bytes, part, index, rows.as_slice()) {
            Ok(row) => rows.push(row)?,
            Err(no) => return Err(no),
        }
    }
    Ok(rows)
}

/// The rows of a part.
pub(crate) fn some_rows<'a>(
    alloc: Global,
    bytes: &mut Cursor<'a>,
    part: &RowPlace,
) -> Result<Rows, No<BadField>>
    ensures { ReadsOr result bytes.new (some_rows part.now.table.now part.now.attrs part.now.rects.now bytes.old) }
{
    let count = match bytes.u32_in(0, ROWS) {
        Ok(count) => count,
        Err(bad) => return Err(No::Refused(bad)),
    };
    let index = Index::over(alloc, part.rects)?;
    each_row(alloc, bytes, part, &index, count)
}
