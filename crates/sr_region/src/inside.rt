//! Rows inside of rects, lent one by one.
ghost use Rattle.std.specs.Prelude.{◌≡◌, filter};
ghost use Rattle.sr_region.specs.Regions.{is_in};

use sr_cell::attrs::Attrs;
use sr_cell::cell::Row;
use sr_union::rects::Rects;
use std::marker::Model;

/// A row with the cells of these columns alone.
#[derive(Clone, Copy)]
pub struct RowRef<'a> {
    pub attrs: Attrs,
    pub row: &'a Row,
}

/// The rows of some columns that lie in rects and are still to come.
#[derive(Drop)]
pub struct RowsIn<'a> {
    attrs: Attrs,
    rows: &'a [Row],
    rects: &'a Rects,
}

impl<'a> Model for RowsIn<'a> {
    ghost use Rattle.sr_region.specs.Coming.{Coming};

    ghost Value = { Coming };

    ghost use Rattle.std.specs.Prelude.{filter};
    ghost use Rattle.sr_region.specs.Regions.{is_in};

    ghost view = { λ r. record { attrs = r.attrs; rows = filter (is_in r.attrs r.rects.now) r.rows.now } };
}

/// Whether some rect has the rows with these cells.
pub(crate) fn has_cells(rects: &Rects, attrs: Attrs, cells: &Row) -> bool
    ensures { result ≡ is_in attrs rects.now cells.now }
{
    rects
        .as_slice()
        .iter()
        .any(|rect| rect.has_part(attrs, cells))
}

/// Those of the rows of these columns that lie in the rects; takes no memory.
pub fn rows_inside<'a>(attrs: Attrs, rows: &'a [Row], rects: &'a Rects) -> RowsIn<'a>
    ensures attrs { result.attrs ≡ attrs }
    ensures rows { result.rows ≡ filter (is_in attrs rects.now) rows.now }
{
    RowsIn { attrs, rows, rects }
}

impl<'a> Iterator for RowsIn<'a> {
    ghost use Rattle.std.specs.Prelude.{length};
    ghost use Rattle.std.specs.Iterator.{at_most};
    ghost use Rattle.sr_region.specs.Giving.{GivesRow};

    type Item = RowRef<'a>;

    ghost next_gives = { GivesRow };

    ghost remaining = { λ r. at_most (length r.rows) };

    fn next(&mut self) -> Option<RowRef<'a>> {
        while let Some((row, rest)) = self.rows.split_first() {
            self.rows = rest;
            if has_cells(self.rects, self.attrs, row) {
                return Some(RowRef {
                    attrs: self.attrs,
                    row,
                });
            }
        }
        None
    }
}
