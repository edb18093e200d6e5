//! What views show, in memory of its own.
ghost use Rattle.std.specs.Prelude.{◌≡◌, IfOk};
ghost use Rattle.sr_bytes.specs.Views.{cell_of, span_of};

use crate::views::{CellView, RectView, RectsView, RowView, RowsView, SpanView};
use sr_box::rect::Rect;
use sr_box::span::Span;
use sr_cell::cell::{Cell, Row, Rows};
use sr_cell::list::{Bytes, NoMemory, Seq};
use sr_cell::text::Text;
use sr_union::rects::Rects;
use std::alloc::Global;

impl<'a> CellView<'a> {
    /// The cell, in memory of its own.
    pub fn to_cell(&self, alloc: Global) -> Result<Cell, NoMemory>
        ensures { IfOk result (λ cell. cell ≡ cell_of self.now) }
    {
        match self {
            CellView::Num(number) => Ok(Cell::Num(*number)),
            CellView::Str(text) => Ok(Cell::Str(Text::of(alloc, text)?)),
            CellView::Null => Ok(Cell::Null),
        }
    }
}

fn bytes_of(alloc: Global, slice: &[u8]) -> Result<Bytes, NoMemory>
    ensures { IfOk result (λ bytes. bytes ≡ slice.now) }
{
    let mut bytes = Seq::new(alloc);
    bytes.extend(slice)?;
    Ok(bytes)
}

impl<'a> SpanView<'a> {
    /// The span, in memory of its own.
    pub fn to_span(&self, alloc: Global) -> Result<Span, NoMemory>
        ensures { IfOk result (λ span. span ≡ span_of self.now) }
    {
        match self {
            SpanView::Full => Ok(Span::Full),
            SpanView::Nums { lo, hi } => Ok(Span::Nums { lo: *lo, hi: *hi }),
            SpanView::Strs { lo, hi: Some(hi) } => Ok(Span::Strs {
                lo: bytes_of(alloc, lo)?,
                hi: Some(bytes_of(alloc, hi)?),
            }),
            SpanView::Strs { lo, hi: None } => Ok(Span::Strs {
                lo: bytes_of(alloc, lo)?,
                hi: None,
            }),
            SpanView::Null => Ok(Span::Null),
        }
    }
}

impl<'a> RowView<'a> {
    /// The cells that are left, in memory of their own, which is one block but for their texts. The view goes on as it was.
    pub fn to_row(&self, alloc: Global) -> Result<Row, NoMemory>
        ensures { IfOk result (λ row. row ≡ self.now) }
    {
        let mut cells = self.again();
        let mut row = Row::with_room(alloc, self.cells as usize)?;
        while let Some(cell) = cells.next() {
            row.push(cell.to_cell(alloc)?)?;
        }
        Ok(row)
    }
}

impl<'a> RowsView<'a> {
    /// The rows that are left, in memory of their own.
    pub fn to_rows(mut self, alloc: Global) -> Result<Rows, NoMemory>
        ensures { IfOk result (λ rows. rows ≡ self.entry) }
    {
        let mut rows = Rows::new(alloc);
        while let Some(row) = self.next() {
            rows.push(row.to_row(alloc)?)?;
        }
        Ok(rows)
    }
}

impl<'a> RectView<'a> {
    /// The spans that are left, in memory of their own.
    pub fn to_rect(mut self, alloc: Global) -> Result<Rect, NoMemory>
        ensures { IfOk result (λ rect. rect ≡ self.entry) }
    {
        let mut rect = Rect::new(alloc);
        while let Some(span) = self.next() {
            rect.push(span.to_span(alloc)?)?;
        }
        Ok(rect)
    }
}

impl<'a> RectsView<'a> {
    /// The rects that are left, in memory of their own.
    pub fn to_rects(mut self, alloc: Global) -> Result<Rects, NoMemory>
        ensures { IfOk result (λ rects. rects ≡ self.entry) }
    {
        let mut rects = Rects::new(alloc);
        while let Some(rect) = self.next() {
            rects.push(rect.to_rect(alloc)?)?;
        }
        Ok(rects)
    }
}
