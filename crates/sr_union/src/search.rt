//! Whether rects lie inside of others, found by a search for a point outside.
ghost use Rattle.std.specs.Prelude.{◌≡◌, ℕ, ◌<◌, ◌≤◌, true, false, List, [], ◌∷◌, ◌++◌, length, drop, IfOk, IfNone, IfSome, OnOk};
ghost use Rattle.std.specs.List.{list_all};
ghost use Rattle.sr_box.specs.Points.{rect_fits};
ghost use Rattle.sr_union.specs.Pieces.{rect_minus, IsWithin, HasOutside};
ghost use Rattle.sr_box.specs.Corners.{have_first};
ghost use Rattle.sr_union.specs.Grid.{all_inner};
ghost use Rattle.sr_union.specs.Search.{from_met, is_covered, todos};

use crate::minus::{cut_rect, rects_meet};
use crate::rects::Rects;
use sr_box::rect::Rect;
use sr_cell::list::{Copied, NoMemory, Seq};
use sr_cell::table::Column;
use std::alloc::Global;

/// A rect whose points the others before that number do not have.
#[derive(Drop)]
pub(crate) struct Todo {
    rect: Rect,
    from: usize,
}

/// The number of the first of the others, from that one on, which the rect meets.
fn first_met(rect: &Rect, others: &[Rect], from: usize) -> Option<usize>
    ensures none { IfNone result (from_met rect.now (drop from others.now) ≡ []) }
    ensures within { IfSome result (λ at. at < length others.now) }
    ensures met { IfSome result (λ at. from_met rect.now (drop from others.now) ≡ drop at others.now) }
{
    for at in from..others.len() {
        if rects_meet(rect.as_slice(), others[at].as_slice()) {
            return Some(at);
        }
    }
    None
}

/// Puts rects that are to be searched behind the others.
fn push_todos(todo: &mut Seq<Todo>, rects: Rects, from: usize) -> Result<(), NoMemory>
    ensures { OnOk result (todo.new ≡ todo.old ++ todos from rects) }
{
    for rect in rects.into_vec() {
        todo.push(Todo { rect, from })?;
    }
    Ok(())
}

/// Appends what is left of a rect without a cut.
#[tactic(auto, using(crate::proofs::Inner::fits_length))]
fn push_pieces(
    alloc: Global,
    columns: &[Column],
    todo: &mut Seq<Todo>,
    rect: Rect,
    cut: &Rect,
    from: usize,
) -> Result<(), NoMemory>
    requires width { length rect ≡ length columns.now }
    requires fits { rect_fits columns.now cut.now ≡ true }
    requires inner { all_inner columns.now ≡ true }
    ensures { OnOk result (todo.new ≡ todo.old ++ todos from (rect_minus columns.now rect cut.now)) }
{
    let mut pieces = Rects::new(alloc);
    cut_rect(alloc, columns, &mut pieces, rect, cut.as_slice())?;
    push_todos(todo, pieces, from)
}

/// Whether nothing of a rect is left without the others. What is left of it beside the first that it meets is searched piece by
/// piece, the last first, so that few pieces are held at a time; and the first piece that meets no more of them decides.
fn covers(alloc: Global, columns: &[Column], rect: &Rect, others: &[Rect]) -> Result<bool, NoMemory>
    requires fits { rect_fits columns.now rect.now ≡ true }
    requires others_fit { list_all (rect_fits columns.now) others.now ≡ true }
    requires inner { all_inner columns.now ≡ true }
    ensures { IfOk result (λ yes. yes ≡ is_covered columns.now others.now rect.now) }
{
    let copy = rect.copy(alloc)?;
    let mut todo = Seq::new(alloc);
    todo.push(Todo {
        rect: copy,
        from: 0,
    })?;
    while let Some(next) = todo.pop() {
        let Todo { rect, from } = next;
        match first_met(&rect, others, from) {
            None => return Ok(false),
            Some(at) => push_pieces(alloc, columns, &mut todo, rect, &others[at], at + 1)?,
        }
    }
    Ok(true)
}

/// Whether each point of the rects is one of the others.
pub(crate) fn all_inside(
    alloc: Global,
    columns: &[Column],
    rects: &Rects,
    others: &[Rect],
) -> Result<bool, NoMemory>
    requires rects_fit { list_all (rect_fits columns.now) rects.now ≡ true }
    requires others_fit { list_all (rect_fits columns.now) others.now ≡ true }
    requires inner { all_inner columns.now ≡ true }
    requires first { have_first columns.now ≡ true }
    ensures within { IfOk result (λ yes. yes ≡ true → IsWithin columns.now rects.now others.now) }
    ensures outside { IfOk result (λ yes. yes ≡ false → HasOutside columns.now rects.now others.now) }
{
    for rect in rects.as_slice() {
        if !covers(alloc, columns, rect, others)? {
            return Ok(false);
        }
    }
    Ok(true)
}
