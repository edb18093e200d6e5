//! What tests of several libraries need.
ghost use Rattle.std.specs.Prelude.{◌≡◌, IfOk};

use sr_box::rect::Rect;
use sr_box::span::Span;
use sr_cell::list::{NoMemory, Seq};
use sr_union::rects::Rects;
use std::alloc::Global;

/// The list of these items.
pub fn list_of<T: Drop, const N: usize>(alloc: Global, items: [T; N]) -> Result<Seq<T>, NoMemory>
    ensures { IfOk result (λ list. list ≡ items) }
{
    Ok(Seq::from_vec(Vec::from_array(alloc, items)?))
}

fn rect_of(alloc: Global, spans: Seq<Span>) -> Result<Rect, NoMemory> {
    let mut rect = Rect::new(alloc);
    for span in spans.into_vec() {
        rect.push(span)?;
    }
    Ok(rect)
}

/// The rect of these spans, alone.
pub fn rects_of<const N: usize>(alloc: Global, spans: [Span; N]) -> Result<Rects, NoMemory> {
    let rect = rect_of(alloc, list_of(alloc, spans)?)?;
    let mut rects = Rects::new(alloc);
    rects.push(rect).and(Ok(rects))
}
