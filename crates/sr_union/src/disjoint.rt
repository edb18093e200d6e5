//! Lists of rects in which each point lies once.
ghost use Rattle.std.specs.Prelude.{◌≡◌, ◌≢◌, ℕ, ◌<◌, ◌≤◌, ◌-◌, ◌^◌, true, List, [], ◌∷◌, length, IfOk, IsErrOf};
ghost use Rattle.std.specs.List.{list_all};
ghost use Rattle.sr_cell.specs.declared.list.No.TheVariants.{Refused};
ghost use Rattle.sr_box.specs.Points.{rect_fits};
ghost use Rattle.sr_union.specs.Pieces.{IsMinus, IsOnce};
ghost use Rattle.sr_box.specs.Corners.{have_first};
ghost use Rattle.sr_union.specs.Grid.{AreCutFrom, grid, all_inner};

use crate::join::with_all;
use crate::minus::{Over, cut_all};
use crate::rects::Rects;
use sr_box::rect::Rect;
use sr_cell::list::{Copied, No};
use sr_cell::table::{Column, Table};
use std::alloc::Global;

/// What is left of one rect without the others.
pub(crate) fn rest_of(
    alloc: Global,
    columns: &[Column],
    rect: &Rect,
    others: &Rects,
    limit: usize,
) -> Result<Rects, No<Over>>
    requires fits { rect_fits columns.now rect.now ≡ true }
    requires others_fit { list_all (rect_fits columns.now) others.now ≡ true }
    requires inner { all_inner columns.now ≡ true }
    requires first { have_first columns.now ≡ true }
    ensures points { IfOk result (λ left. IsMinus columns.now (rect.now ∷ []) others.now left) }
    ensures cuts { IfOk result (λ left. AreCutFrom columns.now (rect.now ∷ others.now) left) }
    ensures over { IsErrOf result (Refused (record {})) → limit < grid columns.now (rect.now ∷ others.now) }
    ensures room { IsErrOf result (Refused (record {})) → limit < 2 ^ 64 - 1 }
{
    let copy = rect.copy(alloc)?;
    let mut one = Rects::new(alloc);
    one.push(copy)?;
    cut_all(alloc, columns, one, others, limit)
}

/// The points of the rects, each once.
pub(crate) fn once_all(
    alloc: Global,
    columns: &[Column],
    rects: &Rects,
    limit: usize,
) -> Result<Rects, No<Over>>
    requires fit { list_all (rect_fits columns.now) rects.now ≡ true }
    requires inner { all_inner columns.now ≡ true }
    requires first { have_first columns.now ≡ true }
    ensures points { IfOk result (λ once. IsOnce columns.now rects.now once) }
    ensures cuts { IfOk result (λ once. AreCutFrom columns.now rects.now once) }
    ensures few { IfOk result (λ once. length once ≤ limit) }
    ensures some { IsErrOf result (Refused (record {})) → rects.now ≢ [] }
    ensures over { IsErrOf result (Refused (record {})) → limit < grid columns.now rects.now }
{
    let mut once = Rects::new(alloc);
    for rect in rects.as_slice() {
        let rest = match rest_of(alloc, columns, rect, &once, limit) {
            Ok(rest) => rest,
            Err(no) => return Err(no),
        };
        once = with_all(alloc, columns, once, rest)?;
        if once.len() > limit {
            return Err(No::Refused(Over));
        }
    }
    Ok(once)
}

impl Rects {
    /// The points of the rects, each in one rect alone, where that list and each on the way there is within the limit.
    pub fn disjoint(&self, alloc: Global, table: &Table, limit: u32) -> Result<Rects, No<Over>>
        requires self_fits { list_all (rect_fits table.now.columns) self.now ≡ true }
        requires inner { all_inner table.now.columns ≡ true }
        requires first { have_first table.now.columns ≡ true }
        ensures points { IfOk result (λ once. IsOnce table.now.columns self.now once) }
        ensures cuts { IfOk result (λ once. AreCutFrom table.now.columns self.now once) }
        ensures few { IfOk result (λ once. length once ≤ limit) }
        ensures some { IsErrOf result (Refused (record {})) → self.now ≢ [] }
        ensures over { IsErrOf result (Refused (record {})) → limit < grid table.now.columns self.now }
    {
        once_all(alloc, table.columns.as_slice(), self, limit as usize)
    }
}
