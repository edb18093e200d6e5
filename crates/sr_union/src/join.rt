//! Rects that lie side by side make one.
ghost use Rattle.std.specs.Prelude.{◌≡◌, ℤ, pos, ◌+ℤ◌, ◌<◌, ◌≤◌, ◌+◌, true, List, [], ◌∷◌, ◌++◌, length, take, drop, slice_get, Some, ◌⊎◌, IsTrue, IfOk, IfSome, if◌then◌else◌};
ghost use Rattle.std.specs.List.{list_all};
ghost use Rattle.sr_box.specs.declared.span.Span.{Span as TheSpan};
ghost use Rattle.sr_box.specs.declared.span.Span.TheVariants.{Full, Nums, Strs};
ghost use Rattle.sr_box.specs.Spans.{span_fits};
ghost use Rattle.sr_box.specs.Points.{Rect as Spans, rect_fits};
ghost use Rattle.sr_union.specs.Joined.{AreBeside, IsBoth, IsJoined};

use crate::rects::Rects;
use crate::sign::{Sign, may_join_at, signs_of, take_sign};
use sr_box::rect::Rect;
use sr_box::span::Span;
use sr_cell::list::{Bytes, Copied, NoMemory, Same, Seq};
use sr_cell::table::Column;
use std::alloc::Global;

/// The most rects that are joined with one another, since that takes the square of their number.
const MOST: usize = 16384;

fn is_next(number: i64, next: i64) -> bool
    ensures { IsTrue result → next ≡ number +ℤ pos 1 }
{
    number < next && next - 1 == number
}

fn nums_beside(a: i64, b: i64, c: i64, d: i64) -> Option<Span>
    ensures { IfSome result (AreBeside (Nums a b) (Nums c d)) }
{
    if is_next(b, c) {
        Some(Span::Nums { lo: a, hi: d })
    } else {
        None
    }
}

fn strs_beside(
    alloc: Global,
    a: &Bytes,
    b: &Bytes,
    c: &Bytes,
    d: &Option<Bytes>,
) -> Result<Option<Span>, NoMemory>
    ensures { IfOk result (λ both. IfSome both (AreBeside (Strs a.now (Some b.now)) (Strs c.now d.now))) }
{
    if b.same(c) {
        Ok(Some(Span::Strs {
            lo: a.copy(alloc)?,
            hi: d.copy(alloc)?,
        }))
    } else {
        Ok(None)
    }
}

fn is_end(end: &Option<Bytes>, text: &Bytes) -> bool
    ensures { IsTrue result → end.now ≡ Some text.now }
{
    match end {
        None => false,
        Some(hi) => hi.same(text),
    }
}

/// Whether the second span begins just above the end of the first; takes no memory.
fn is_beside(one: &Span, next: &Span) -> bool
    ensures { IsTrue result → (both : TheSpan) × AreBeside one.now next.now both }
{
    match (one, next) {
        (Span::Nums { lo: _, hi: b }, Span::Nums { lo: c, hi: _ }) => is_next(*b, *c),
        (Span::Strs { lo: _, hi: b }, Span::Strs { lo: c, hi: _ }) => is_end(b, c),
        _ => false,
    }
}

/// The span of both, where the second begins just above the end of the first.
fn beside(alloc: Global, one: &Span, next: &Span) -> Result<Option<Span>, NoMemory>
    ensures { IfOk result (λ both. IfSome both (AreBeside one.now next.now)) }
{
    match (one, next) {
        (Span::Nums { lo: a, hi: b }, Span::Nums { lo: c, hi: d }) => {
            Ok(nums_beside(*a, *b, *c, *d))
        }
        (Span::Strs { lo: a, hi: Some(b) }, Span::Strs { lo: c, hi: d }) => {
            strs_beside(alloc, a, b, c, d)
        }
        _ => Ok(None),
    }
}

// A span of all values is `Full`.
fn fitted(column: &Column, span: Span) -> Span
    ensures { result ≡ (if span_fits column.now span then span else Full) }
{
    if span.fits(column) { span } else { Span::Full }
}

/// The span of both, where they lie side by side.
fn join_spans(
    alloc: Global,
    column: &Column,
    one: &Span,
    other: &Span,
) -> Result<Option<Span>, NoMemory>
    requires fits { span_fits column.now one.now ≡ true }
    requires other_fits { span_fits column.now other.now ≡ true }
    ensures { IfOk result (λ both. IfSome both (IsBoth column.now one.now other.now)) }
{
    match beside(alloc, one, other)? {
        Some(both) => Ok(Some(fitted(column, both))),
        None => match beside(alloc, other, one)? {
            Some(both) => Ok(Some(fitted(column, both))),
            None => Ok(None),
        },
    }
}

/// Whether the spans lie side by side; takes no memory, as most do not.
fn may_join(one: &Span, other: &Span) -> bool
    ensures { IsTrue result → ((both : TheSpan) × AreBeside one.now other.now both) ⊎ ((both : TheSpan) × AreBeside other.now one.now both) }
{
    is_beside(one, other) || is_beside(other, one)
}

// How many spans at the head are the same.
fn same_head(one: &[Span], other: &[Span]) -> usize
    requires { length one.now ≡ length other.now }
    ensures few { result ≤ length one.now }
    ensures same { take result one.now ≡ take result other.now }
{
    for i in 0..one.len() {
        if !one[i].same(&other[i]) {
            return i;
        }
    }
    one.len()
}

fn are_same(one: &[Span], other: &[Span]) -> bool
    requires { length one.now ≡ length other.now }
    ensures { IsTrue result → one.now ≡ other.now }
{
    same_head(one, other) == one.len()
}

/// The rect of both, where they differ in one column alone and lie side by side there.
#[tactic(auto, using(crate::proofs::Inner::fits_length))]
fn join_two(
    alloc: Global,
    columns: &[Column],
    one: &Rect,
    other: &Rect,
) -> Result<Option<Rect>, NoMemory>
    requires fits { rect_fits columns.now one.now ≡ true }
    requires other_fits { rect_fits columns.now other.now ≡ true }
    ensures { IfOk result (λ both. IfSome both (λ rect. IsJoined columns.now (one.now ∷ other.now ∷ []) (rect ∷ []))) }
{
    let ours = one.as_slice();
    let theirs = other.as_slice();
    let k = same_head(ours, theirs);
    if k == ours.len() || !may_join(&ours[k], &theirs[k]) {
        return Ok(None);
    }
    if !are_same(&ours[k + 1..], &theirs[k + 1..]) {
        return Ok(None);
    }
    match join_spans(alloc, &columns[k], &ours[k], &theirs[k])? {
        Some(both) => Ok(Some(one.with(alloc, k, both)?)),
        None => Ok(None),
    }
}

/// Whether spans of numbers or of all values are the same. Of texts nothing is told.
fn are_equal_numbers(one: &Span, other: &Span) -> bool {
    match (one, other) {
        (Span::Full, Span::Full) => true,
        (Span::Nums { lo: a, hi: b }, Span::Nums { lo: c, hi: d }) => *a == *c && *b == *d,
        (Span::Strs { lo: _, hi: _ }, Span::Strs { lo: _, hi: _ }) => true,
        (Span::Null, Span::Null) => true,
        _ => false,
    }
}

/// Whether spans of numbers may lie side by side. Of texts nothing is told.
fn are_numbers_beside(one: &Span, other: &Span) -> bool {
    match (one, other) {
        (Span::Nums { lo: a, hi: b }, Span::Nums { lo: c, hi: d }) => {
            (*b < *c && *c - 1 == *b) || (*d < *a && *a - 1 == *d)
        }
        (Span::Strs { lo: _, hi: _ }, Span::Strs { lo: _, hi: _ }) => true,
        _ => false,
    }
}

/// Whether two rects may make one, as a first test that takes no memory and few steps: the first column in which they differ decides.
fn may_be_one(one: &[Span], other: &[Span]) -> bool {
    for i in 0..one.len().min(other.len()) {
        if !are_equal_numbers(&one[i], &other[i]) {
            return are_numbers_beside(&one[i], &other[i]);
        }
    }
    true
}

/// A place in a list of rects, and the rect that the one of that place makes together with another.
#[derive(Drop)]
struct Found {
    place: usize,
    both: Rect,
}

fn find_neighbour(
    alloc: Global,
    columns: &[Column],
    rects: &[Rect],
    signs: &[Sign],
    rect: &Rect,
) -> Result<Option<Found>, NoMemory>
    requires fits { rect_fits columns.now rect.now ≡ true }
    requires rects_fit { list_all (rect_fits columns.now) rects.now ≡ true }
    ensures is_place { IfOk result (λ found. IfSome found (λ f. f.place < length rects.now)) }
    ensures joined { IfOk result (λ found. IfSome found (λ f. (r : Spans) → slice_get rects.now f.place ≡ Some r
        → IsJoined columns.now (r ∷ rect.now ∷ []) (f.both ∷ []))) }
{
    let sign = Sign::of(rect);
    for place in 0..rects.len() {
        if may_join_at(signs, place, &sign)
            && may_be_one(rects[place].as_slice(), rect.as_slice())
        {
            match join_two(alloc, columns, &rects[place], rect)? {
                Some(both) => return Ok(Some(Found { place, both })),
                None => {}
            }
        }
    }
    Ok(None)
}

/// The rects and one more, which makes one with a neighbour as long as it has one; the signs stay those of the rects.
fn with_one(
    alloc: Global,
    columns: &[Column],
    rects: Rects,
    signs: &mut Seq<Sign>,
    rect: Rect,
) -> Result<Rects, NoMemory>
    requires fits { rect_fits columns.now rect ≡ true }
    requires rects_fit { list_all (rect_fits columns.now) rects ≡ true }
    ensures { IfOk result (λ joined. IsJoined columns.now (rects ++ rect ∷ []) joined) }
{
    let mut rects = rects;
    let mut rect = rect;
    while let Some(found) = find_neighbour(
        alloc,
        columns,
        rects.as_slice(),
        signs.as_slice(),
        &rect,
    )? {
        let Found { place, both } = found;
        rects.remove(place);
        take_sign(signs, place);
        rect = both;
    }
    signs.push(Sign::of(&rect))?;
    rects.push(rect)?;
    Ok(rects)
}

/// The rects and others behind them, each joined with its neighbours.
pub(crate) fn with_all(
    alloc: Global,
    columns: &[Column],
    rects: Rects,
    more: Rects,
) -> Result<Rects, NoMemory>
    requires rects_fit { list_all (rect_fits columns.now) rects ≡ true }
    requires more_fit { list_all (rect_fits columns.now) more ≡ true }
    ensures { IfOk result (λ joined. IsJoined columns.now (rects ++ more) joined) }
{
    let mut signs = signs_of(alloc, rects.as_slice())?;
    let mut joined = rects;
    for rect in more.into_vec() {
        joined = with_one(alloc, columns, joined, &mut signs, rect)?;
    }
    Ok(joined)
}

/// The same points in fewer rects, if there are neighbours among them.
pub(crate) fn join_all(alloc: Global, columns: &[Column], rects: Rects) -> Result<Rects, NoMemory>
    requires { list_all (rect_fits columns.now) rects ≡ true }
    ensures { IfOk result (λ joined. IsJoined columns.now rects joined) }
{
    if rects.len() > MOST {
        return Ok(rects);
    }
    let joined = Rects::with_room(alloc, rects.len())?;
    with_all(alloc, columns, joined, rects)
}
