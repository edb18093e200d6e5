//! Lists of rects without needless constraints.
ghost use Rattle.std.specs.Prelude.{◌≡◌, ◌≢◌, ℕ, ◌<◌, ◌≤◌, not, true, false, List, [], ◌++◌, length, IfOk, IsErrOf};
ghost use Rattle.std.specs.List.{list_all};
ghost use Rattle.sr_cell.specs.declared.list.No.TheVariants.{Refused};
ghost use Rattle.sr_box.specs.Points.{rect_fits, in_any, constrains, AreSame};
ghost use Rattle.sr_union.specs.Pieces.{IsOnce, IsWithin, HasOutside, AllConstrainEssential};
ghost use Rattle.sr_box.specs.Corners.{have_first};
ghost use Rattle.sr_union.specs.Grid.{AreCutFrom, grid, all_inner};
ghost use Rattle.sr_union.specs.Free.{free_all, is_free, span_at, IsSettled, IsNext};

use crate::disjoint::once_all;
use crate::minus::Over;
use crate::rects::Rects;
use crate::search::all_inside;
use sr_box::rect::Rect;
use sr_cell::attrs::Attrs;
use sr_cell::list::{Copied, No, NoMemory};
use sr_cell::table::{Column, Table};
use std::alloc::Global;

fn is_free_in(rect: &Rect, column: usize) -> bool
    ensures { result ≡ not (constrains (span_at column rect.now)) }
{
    match rect.get(column) {
        Some(span) => !span.constrains(),
        None => true,
    }
}

/// Whether no rect constrains the column.
fn is_free(rects: &[Rect], column: usize) -> bool
    ensures { result ≡ is_free column rects.now }
{
    rects.iter().all(|rect| is_free_in(rect, column))
}

fn free_all(alloc: Global, rects: &Rects, column: usize) -> Result<Rects, NoMemory>
    ensures { IfOk result (λ freed. freed ≡ free_all column rects.now) }
{
    let mut freed = Rects::new(alloc);
    for rect in rects.as_slice() {
        freed.push(rect.freed(alloc, column)?)?;
    }
    Ok(freed)
}

/// The rects without their constraints on a column, or as they are where those are needed.
fn settle(
    alloc: Global,
    columns: &[Column],
    keep: Attrs,
    column: usize,
    rects: Rects,
) -> Result<Rects, NoMemory>
    requires is_column { column < length columns.now }
    requires fit { list_all (rect_fits columns.now) rects ≡ true }
    requires inner { all_inner columns.now ≡ true }
    requires first { have_first columns.now ≡ true }
    ensures { IfOk result (λ next. IsNext columns.now keep column rects next) }
{
    if keep.has_index(column) {
        return Ok(rects);
    }
    if is_free(rects.as_slice(), column) {
        return Ok(rects);
    }
    let freed = free_all(alloc, &rects, column)?;
    if all_inside(alloc, columns, &freed, rects.as_slice())? {
        Ok(freed)
    } else {
        Ok(rects)
    }
}

/// The rects without needless constraints; a point may lie in more than one.
fn settle_all(
    alloc: Global,
    columns: &[Column],
    keep: Attrs,
    rects: &Rects,
) -> Result<Rects, NoMemory>
    requires fit { list_all (rect_fits columns.now) rects.now ≡ true }
    requires inner { all_inner columns.now ≡ true }
    requires first { have_first columns.now ≡ true }
    ensures same { IfOk result (λ settled. AreSame columns.now (in_any settled) (in_any rects.now)) }
    ensures cuts { IfOk result (λ settled. AreCutFrom columns.now rects.now settled) }
    ensures as_many { IfOk result (λ settled. length settled ≡ length rects.now) }
    ensures settled { IfOk result (λ settled. (c : ℕ) → c < length columns.now → IsSettled columns.now keep rects.now settled c) }
{
    let mut settled = rects.copy(alloc)?;
    for column in 0..columns.len() {
        settled = settle(alloc, columns, keep, column, settled)?;
    }
    Ok(settled)
}

impl Rects {
    /// The points of the rects, each in one rect alone, with no constraint on a column outside `keep` unless it is
    /// essential, where that and each list on the way there is within the limit.
    pub fn tidy(
        &self,
        alloc: Global,
        keep: Attrs,
        table: &Table,
        limit: u32,
    ) -> Result<Rects, No<Over>>
        requires self_fits { list_all (rect_fits table.now.columns) self.now ≡ true }
        requires inner { all_inner table.now.columns ≡ true }
        requires first { have_first table.now.columns ≡ true }
        ensures points { IfOk result (λ tidy. IsOnce table.now.columns self.now tidy) }
        ensures essential { IfOk result (λ tidy. AllConstrainEssential table.now.columns keep self.now tidy) }
        ensures cuts { IfOk result (λ tidy. AreCutFrom table.now.columns self.now tidy) }
        ensures few { IfOk result (λ tidy. length tidy ≤ limit) }
        ensures some { IsErrOf result (Refused (record {})) → self.now ≢ [] }
        ensures over { IsErrOf result (Refused (record {})) → limit < grid table.now.columns self.now }
    {
        let columns = table.columns.as_slice();
        let settled = settle_all(alloc, columns, keep, self)?;
        once_all(alloc, columns, &settled, limit as usize)
    }
}
