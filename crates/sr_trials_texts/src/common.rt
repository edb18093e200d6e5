//! What tests of several libraries need.
ghost use Rattle.std.specs.Prelude.{◌≡◌, pos, [], ◌∷◌, IfOk};
ghost use Rattle.sr_box.specs.declared.span.Span.TheVariants.{Full, Nums};

use sr_box::rect::Rect;
use sr_box::span::Span;
use sr_cell::list::{NoMemory, Seq};
use sr_union::rects::Rects;
use std::alloc::Global;

/// The list of these items.
pub fn list_of<T: Drop, const N: usize>(alloc: Global, items: [T; N]) -> Result<Seq<T>, NoMemory>
    ensures { IfOk result (λ list. list ≡ items) }
{
    Ok(Seq::from_vec(Vec::from_array(alloc, items)?))
}

/// One rect of a table of four columns, the second from 30 to 40.
pub fn thirties(alloc: Global) -> Result<Rects, NoMemory>
    ensures { IfOk result (λ rects. rects ≡ (Full ∷ Nums (pos 30) (pos 40) ∷ Full ∷ Full ∷ []) ∷ []) }
{
    let mut rect = Rect::new(alloc);
    rect.push(Span::Full)?;
    rect.push(Span::Nums { lo: 30, hi: 40 })?;
    rect.push(Span::Full)?;
    rect.push(Span::Full)?;
    let mut rects = Rects::new(alloc);
    rects.push(rect).and(Ok(rects))
}
