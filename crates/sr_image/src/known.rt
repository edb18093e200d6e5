//! Facts, which do nothing: what may be written of regions has a spelling, by the types of their numbers and texts.
ghost use Rattle.std.specs.Prelude.{IsTrue};
ghost use Rattle.std.specs.List.{list_all};
ghost use Rattle.sr_cell.specs.Columns.{are_bytes};
ghost use Rattle.sr_bytes.specs.Spelling.{has_cell_bytes, has_rect_bytes, has_row_bytes, has_span_bytes, is_number};
ghost use Rattle.sr_bytes.specs.Writing.{may_write_cell, may_write_rect, may_write_row, may_write_span};
ghost use Rattle.sr_image.specs.Laws.{is_spellable};
ghost use Rattle.sr_image.specs.Writing.{may_write_region};

use sr_box::rect::Rect;
use sr_box::span::Span;
use sr_bytes::write::know_utf8;
use sr_cell::cell::{Cell, Row};
use sr_region::region::Region;

fn know_number(_number: i64)
    ensures { IsTrue (is_number _number) }
{}

fn know_bytes(text: &[u8])
    ensures { IsTrue (are_bytes text.now) }
{}

fn know_cell(cell: &Cell)
    requires { IsTrue (may_write_cell cell.now) }
    ensures { IsTrue (has_cell_bytes cell.now) }
{
    match cell {
        Cell::Num(number) => know_number(*number),
        Cell::Str(text) => know_utf8(text.as_str()),
        Cell::Null => {}
    }
}

fn know_row(row: &Row)
    requires { IsTrue (may_write_row row.now) }
    ensures { IsTrue (has_row_bytes row.now) }
{
    for cell in row.as_slice() {
        know_cell(cell);
    }
}

fn know_rows(rows: &[Row])
    requires { IsTrue (list_all may_write_row rows.now) }
    ensures { IsTrue (list_all has_row_bytes rows.now) }
{
    for row in rows {
        know_row(row);
    }
}

fn know_span(span: &Span)
    requires { IsTrue (may_write_span span.now) }
    ensures { IsTrue (has_span_bytes span.now) }
{
    match span {
        Span::Full => {}
        Span::Nums { lo, hi } => {
            know_number(*lo);
            know_number(*hi);
        }
        Span::Strs { lo, hi: Some(hi) } => {
            know_bytes(lo.as_slice());
            know_bytes(hi.as_slice());
        }
        Span::Strs { lo, hi: None } => know_bytes(lo.as_slice()),
        Span::Null => {}
    }
}

fn know_rect(rect: &Rect)
    requires { IsTrue (may_write_rect rect.now) }
    ensures { IsTrue (has_rect_bytes rect.now) }
{
    for span in rect.as_slice() {
        know_span(span);
    }
}

fn know_rects(rects: &[Rect])
    requires { IsTrue (list_all may_write_rect rects.now) }
    ensures { IsTrue (list_all has_rect_bytes rects.now) }
{
    for rect in rects {
        know_rect(rect);
    }
}

fn know_region(region: &Region)
    requires { IsTrue (may_write_region region.now) }
    ensures { IsTrue (is_spellable region.now) }
{
    know_rects(region.rects.as_slice());
    know_rows(region.rows.as_slice());
}

/// The rects and rows of regions that may be written have a spelling.
pub(crate) fn know_regions(regions: &[Region])
    requires { IsTrue (list_all may_write_region regions.now) }
    ensures { IsTrue (list_all is_spellable regions.now) }
{
    for region in regions {
        know_region(region);
    }
}
