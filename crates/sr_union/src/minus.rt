//! Differences of lists of rects.
ghost use Rattle.std.specs.Prelude.{◌≡◌, ◌↔◌, ℕ, ◌<◌, ◌≤◌, ◌*◌, ◌-◌, ◌^◌, true, false, List, [], ◌∷◌, ◌++◌, length, map, option_to_list, slice_set, IfOk, OnOk, IsErrOf, IsTrue};
ghost use Rattle.std.specs.List.{list_all};
ghost use Rattle.sr_cell.specs.declared.list.No.TheVariants.{Refused};
ghost use Rattle.sr_cell.specs.Cells.{Row};
ghost use Rattle.sr_cell.specs.Columns.{is_point};
ghost use Rattle.sr_box.specs.Points.{times, rect_fits};
ghost use Rattle.sr_cell.specs.declared.table.Column.{Column as TheColumn};
ghost use Rattle.sr_box.specs.Cut.{meet, under, over, IsInner};
ghost use Rattle.sr_union.specs.Free.{span_at};
ghost use Rattle.sr_union.specs.Pieces.{beyond_in, rect_minus, meets, minus_one, minus_each, IsMinus, IsWithin, HasOutside};
ghost use Rattle.sr_box.specs.Corners.{have_first};
ghost use Rattle.sr_union.specs.Grid.{AreCutFrom, grid, all_inner};

use crate::join::join_all;
use crate::rects::Rects;
use crate::search::all_inside;
use sr_box::rect::Rect;
use sr_box::span::Span;
use sr_cell::list::{Copied, No, NoMemory};
use sr_cell::table::{Column, Table};
use std::alloc::Global;

/// More rects than the limit.
#[derive(Clone, Copy)]
pub struct Over;

/// A copy of the rect with that span in that column at the end, where there is such a span.
fn push_with(
    alloc: Global,
    out: &mut Rects,
    rect: &Rect,
    column: usize,
    span: Option<Span>,
) -> Result<(), NoMemory>
    ensures { OnOk result (out.new ≡ out.old ++ map (slice_set rect.now column) (option_to_list span)) }
{
    match span {
        None => Ok(()),
        Some(span) => out.push(rect.with(alloc, column, span)?),
    }
}

/// The pieces of a rect that lie beside the cut in that column at the end; answers what both have there.
fn cut_column(
    alloc: Global,
    column: &Column,
    out: &mut Rects,
    rect: &Rect,
    place: usize,
    cut: &Span,
) -> Result<Option<Span>, NoMemory>
    requires inner { IsInner cut.now }
    requires is_column { place < length rect.now }
    ensures pieces { OnOk result (out.new ≡ out.old ++ (map (slice_set rect.now place) (option_to_list (under column.now.lo (span_at place rect.now) cut.now))
        ++ (map (slice_set rect.now place) (option_to_list (over column.now.hi (span_at place rect.now) cut.now))
        ++ map (slice_set rect.now place) (option_to_list (beyond_in column.now (span_at place rect.now) cut.now))))) }
    ensures both { IfOk result (λ both. both ≡ meet (span_at place rect.now) cut.now) }
{
    let span = &rect.as_slice()[place];
    push_with(alloc, out, rect, place, span.under(alloc, cut, column.lo)?)?;
    push_with(alloc, out, rect, place, span.over(alloc, cut, column.hi)?)?;
    push_with(alloc, out, rect, place, span.beyond(alloc, cut, column)?)?;
    span.meet(alloc, cut)
}

/// What is left of a rect without another at the end: the pieces beside it in the first column, then those beside it in the next
/// with what both have in the first, and so on.
pub(crate) fn cut_rect(
    alloc: Global,
    columns: &[Column],
    out: &mut Rects,
    rect: Rect,
    cut: &[Span],
) -> Result<(), NoMemory>
    requires width { length rect ≡ length columns.now }
    requires fits { rect_fits columns.now cut.now ≡ true }
    requires inner { all_inner columns.now ≡ true }
    requires same { length cut.now ≡ length columns.now }
    ensures { OnOk result (out.new ≡ out.old ++ rect_minus columns.now rect cut.now) }
{
    let mut rest = rect;
    for i in 0..columns.len() {
        match cut_column(alloc, &columns[i], out, &rest, i, &cut[i])? {
            None => return Ok(()),
            Some(both) => rest.set(i, both),
        }
    }
    Ok(())
}

pub(crate) fn rects_meet(rect: &[Span], cut: &[Span]) -> bool
    ensures { result ≡ meets rect.now cut.now }
{
    for i in 0..rect.len().min(cut.len()) {
        if !rect[i].meets(&cut[i]) {
            return false;
        }
    }
    true
}

/// Whether none of the rects meets another, so that all stay whole.
fn all_stay(rects: &[Rect], cut: &Rect) -> bool
    ensures { (columns : List TheColumn) → result ≡ true → minus_each columns rects.now cut.now ≡ rects.now }
{
    for rect in rects {
        if rects_meet(rect.as_slice(), cut.as_slice()) {
            return false;
        }
    }
    true
}

/// What is left of a rect without another, at the end; one that does not meet it moves there whole.
#[tactic(auto, using(crate::proofs::Inner::fits_length))]
fn push_left(
    alloc: Global,
    columns: &[Column],
    out: &mut Rects,
    rect: Rect,
    cut: &Rect,
) -> Result<(), NoMemory>
    requires rect_fits { rect_fits columns.now rect ≡ true }
    requires fits { rect_fits columns.now cut.now ≡ true }
    requires inner { all_inner columns.now ≡ true }
    ensures { OnOk result (out.new ≡ out.old ++ minus_one columns.now rect cut.now) }
{
    if rects_meet(rect.as_slice(), cut.as_slice()) {
        cut_rect(alloc, columns, out, rect, cut.as_slice())
    } else {
        out.push(rect)
    }
}

/// What is left of each rect without one other.
fn cut_each(
    alloc: Global,
    columns: &[Column],
    rects: Rects,
    cut: &Rect,
    limit: usize,
) -> Result<Rects, No<Over>>
    requires rects_fit { list_all (rect_fits columns.now) rects ≡ true }
    requires fits { rect_fits columns.now cut.now ≡ true }
    requires inner { all_inner columns.now ≡ true }
    requires few { length rects ≤ limit }
    ensures is { IfOk result (λ left. left ≡ minus_each columns.now rects cut.now) }
    ensures few { IfOk result (λ left. length left ≤ limit) }
    ensures over { IsErrOf result (Refused (record {})) → limit < length (minus_each columns.now rects cut.now) }
    ensures room { IsErrOf result (Refused (record {})) → limit < 2 ^ 64 - 1 }
{
    if all_stay(rects.as_slice(), cut) {
        return Ok(rects);
    }
    let mut out = match Rects::with_room(alloc, rects.len()) {
        Ok(out) => out,
        Err(_) => return Err(No::NoMemory),
    };
    for rect in rects.into_vec() {
        match push_left(alloc, columns, &mut out, rect, cut) {
            Ok(()) => {}
            Err(_) => return Err(No::NoMemory),
        }
        if out.len() > limit {
            return Err(No::Refused(Over));
        }
    }
    Ok(out)
}

/// What is left of the rects without the others.
pub(crate) fn cut_all(
    alloc: Global,
    columns: &[Column],
    rects: Rects,
    others: &Rects,
    limit: usize,
) -> Result<Rects, No<Over>>
    requires rects_fit { list_all (rect_fits columns.now) rects ≡ true }
    requires others_fit { list_all (rect_fits columns.now) others.now ≡ true }
    requires inner { all_inner columns.now ≡ true }
    requires first { have_first columns.now ≡ true }
    ensures points { IfOk result (λ left. IsMinus columns.now rects others.now left) }
    ensures cuts { IfOk result (λ left. AreCutFrom columns.now (rects ++ others.now) left) }
    ensures few { IfOk result (λ left. length left ≤ limit) }
    ensures over { (m : ℕ) → IsErrOf result (Refused (record {})) → ((p : Row) → IsTrue (is_point columns.now p) → times rects p ≤ m)
        → limit < m * grid columns.now (rects ++ others.now) }
    ensures room { IsErrOf result (Refused (record {})) → limit < 2 ^ 64 - 1 }
{
    let mut left = rects;
    if left.len() > limit {
        return Err(No::Refused(Over));
    }
    for other in others.as_slice() {
        match cut_each(alloc, columns, left, other, limit) {
            Ok(next) => left = next,
            Err(no) => return Err(no),
        }
    }
    Ok(left)
}

impl Rects {
    /// What is left of the rects without the others, where that and each list on the way there is within the limit.
    pub fn minus(
        &self,
        alloc: Global,
        other: &Rects,
        table: &Table,
        limit: u32,
    ) -> Result<Rects, No<Over>>
        requires self_fits { list_all (rect_fits table.now.columns) self.now ≡ true }
        requires other_fits { list_all (rect_fits table.now.columns) other.now ≡ true }
        requires inner { all_inner table.now.columns ≡ true }
        requires first { have_first table.now.columns ≡ true }
        ensures points { IfOk result (λ left. IsMinus table.now.columns self.now other.now left) }
        ensures cuts { IfOk result (λ left. AreCutFrom table.now.columns (self.now ++ other.now) left) }
        ensures few { IfOk result (λ left. length left ≤ limit) }
        ensures over { (m : ℕ) → IsErrOf result (Refused (record {})) → ((p : Row) → IsTrue (is_point table.now.columns p) → times self.now p ≤ m)
            → limit < m * grid table.now.columns (self.now ++ other.now) }
    {
        let own = self.copy(alloc)?;
        own.without(alloc, other, table, limit)
    }

    /// The same of rects that are given up: those that the others do not meet are moved.
    pub fn without(
        self,
        alloc: Global,
        other: &Rects,
        table: &Table,
        limit: u32,
    ) -> Result<Rects, No<Over>>
        requires self_fits { list_all (rect_fits table.now.columns) self ≡ true }
        requires other_fits { list_all (rect_fits table.now.columns) other.now ≡ true }
        requires inner { all_inner table.now.columns ≡ true }
        requires first { have_first table.now.columns ≡ true }
        ensures points { IfOk result (λ left. IsMinus table.now.columns self other.now left) }
        ensures cuts { IfOk result (λ left. AreCutFrom table.now.columns (self ++ other.now) left) }
        ensures few { IfOk result (λ left. length left ≤ limit) }
        ensures over { (m : ℕ) → IsErrOf result (Refused (record {})) → ((p : Row) → IsTrue (is_point table.now.columns p) → times self p ≤ m)
            → limit < m * grid table.now.columns (self ++ other.now) }
    {
        let columns = table.columns.as_slice();
        match cut_all(alloc, columns, self, other, limit as usize) {
            Ok(left) => Ok(join_all(alloc, columns, left)?),
            Err(no) => Err(no),
        }
    }

    /// What is left of the rects without the others.
    pub fn difference(&self, alloc: Global, other: &Rects, table: &Table) -> Result<Rects, NoMemory>
        requires self_fits { list_all (rect_fits table.now.columns) self.now ≡ true }
        requires other_fits { list_all (rect_fits table.now.columns) other.now ≡ true }
        requires inner { all_inner table.now.columns ≡ true }
        requires first { have_first table.now.columns ≡ true }
        ensures points { IfOk result (λ left. IsMinus table.now.columns self.now other.now left) }
        ensures cuts { IfOk result (λ left. AreCutFrom table.now.columns (self.now ++ other.now) left) }
    {
        let columns = table.columns.as_slice();
        let own = self.copy(alloc)?;
        match cut_all(alloc, columns, own, other, usize::MAX) {
            Ok(left) => join_all(alloc, columns, left),
            Err(No::NoMemory) => Err(NoMemory),
            Err(No::Refused(_)) => unreachable!(),
        }
    }

    /// Whether each point of the rects is one of the others.
    pub fn within(&self, alloc: Global, other: &Rects, table: &Table) -> Result<bool, NoMemory>
        requires self_fits { list_all (rect_fits table.now.columns) self.now ≡ true }
        requires other_fits { list_all (rect_fits table.now.columns) other.now ≡ true }
        requires inner { all_inner table.now.columns ≡ true }
        requires first { have_first table.now.columns ≡ true }
        ensures within { IfOk result (λ yes. IsTrue yes ↔ IsWithin table.now.columns self.now other.now) }
        ensures outside { IfOk result (λ yes. yes ≡ false → HasOutside table.now.columns self.now other.now) }
    {
        let columns = table.columns.as_slice();
        Ok(all_inside(alloc, columns, self, other.as_slice())?)
    }
}
