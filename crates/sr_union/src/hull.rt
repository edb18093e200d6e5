//! Bounds of the rects of a list, by which most lists are told apart at once.
ghost use Rattle.std.specs.Prelude.{◌≡◌, true, false};
ghost use Rattle.std.specs.Option.{is_some};
ghost use Rattle.sr_box.specs.declared.span.Span.{Span as TheSpan};
ghost use Rattle.sr_box.specs.Spans.{in_span};
ghost use Rattle.sr_box.specs.Points.{Rect as Spans, in_rect};
ghost use Rattle.sr_box.specs.Cut.{meet, rect_meet};
ghost use Rattle.sr_union.specs.Free.{span_at};
ghost use Rattle.sr_union.specs.Hulls.{has_all, in_bound, in_hull};

use sr_box::rect::Rect;
use sr_box::span::Span;
use sr_cell::cell::{Cell, Row};

/// The least and the greatest number of some spans; all numbers where one of them is not of numbers.
#[derive(Clone, Copy)]
pub(crate) struct Bound {
    lo: i64,
    hi: i64,
}

impl Bound {
    /// The bound of no span.
    fn empty() -> Bound {
        Bound {
            lo: i64::MAX,
            hi: i64::MIN,
        }
    }

    /// The bound of these spans and one more.
    fn with(&self, span: &Span) -> Bound
        ensures has { in_bound result span.now ≡ true }
        ensures more { (s : TheSpan) → in_bound self.now s ≡ true → in_bound result s ≡ true }
    {
        match span {
            Span::Nums { lo, hi } => Bound {
                lo: self.lo.min(*lo),
                hi: self.hi.max(*hi),
            },
            Span::Full | Span::Strs { lo: _, hi: _ } | Span::Null => self.all(),
        }
    }

    /// The bound of these spans and of all numbers.
    fn all(&self) -> Bound
        ensures all { has_all result ≡ true }
        ensures more { (s : TheSpan) → in_bound self.now s ≡ true → in_bound result s ≡ true }
    {
        Bound {
            lo: self.lo.min(i64::MIN),
            hi: self.hi.max(i64::MAX),
        }
    }

    /// The bound of the spans of both.
    fn both(&self, other: &Bound) -> Bound
        ensures one { (s : TheSpan) → in_bound self.now s ≡ true → in_bound result s ≡ true }
        ensures other { (s : TheSpan) → in_bound other.now s ≡ true → in_bound result s ≡ true }
    {
        Bound {
            lo: self.lo.min(other.lo),
            hi: self.hi.max(other.hi),
        }
    }

    /// Whether spans of both may meet.
    fn meets(&self, other: &Bound) -> bool
        ensures { (s t : TheSpan) → result ≡ false → in_bound self.now s ≡ true → in_bound other.now t ≡ true → is_some (meet s t) ≡ false }
    {
        self.lo <= other.hi && other.lo <= self.hi
    }

    /// Whether a span of these may have the row's value of that column.
    fn may_have(&self, row: &Row, column: usize) -> bool
        ensures { (r : Spans) → result ≡ false → in_bound self.now (span_at column r) ≡ true → in_rect r row.now ≡ false }
    {
        match row.get(column) {
            Some(cell) => self.may_be(cell),
            None => true,
        }
    }

    /// Whether a span of these may have the value.
    fn may_be(&self, cell: &Cell) -> bool
        ensures { (s : TheSpan) → result ≡ false → in_bound self.now s ≡ true → in_span s cell.now ≡ false }
    {
        match cell {
            Cell::Num(number) => {
                let number = *number;
                self.lo <= number && number <= self.hi
            }
            Cell::Str(_) | Cell::Null => true,
        }
    }
}

/// The bounds of some rects in the first columns.
#[derive(Clone, Copy)]
pub(crate) struct Hull {
    first: Bound,
    second: Bound,
    third: Bound,
}

/// The bound with the span of that column.
fn grown(bound: &Bound, rect: &Rect, column: usize) -> Bound
    ensures has { in_bound result (span_at column rect.now) ≡ true }
    ensures more { (s : TheSpan) → in_bound bound.now s ≡ true → in_bound result s ≡ true }
{
    match rect.get(column) {
        Some(span) => bound.with(span),
        None => bound.with(&Span::Full),
    }
}

impl Hull {
    /// The hull of no rect.
    pub(crate) fn empty() -> Hull {
        Hull {
            first: Bound::empty(),
            second: Bound::empty(),
            third: Bound::empty(),
        }
    }

    /// The hull of these rects and one more.
    pub(crate) fn with(&self, rect: &Rect) -> Hull
        ensures has { in_hull result rect.now ≡ true }
        ensures more { (r : Spans) → in_hull self.now r ≡ true → in_hull result r ≡ true }
    {
        Hull {
            first: grown(&self.first, rect, 0),
            second: grown(&self.second, rect, 1),
            third: grown(&self.third, rect, 2),
        }
    }

    /// The hull of the rects of both.
    pub(crate) fn both(&self, other: &Hull) -> Hull
        ensures one { (r : Spans) → in_hull self.now r ≡ true → in_hull result r ≡ true }
        ensures other { (r : Spans) → in_hull other.now r ≡ true → in_hull result r ≡ true }
    {
        Hull {
            first: self.first.both(&other.first),
            second: self.second.both(&other.second),
            third: self.third.both(&other.third),
        }
    }

    /// Whether rects of both may meet.
    pub(crate) fn meets(&self, other: &Hull) -> bool
        ensures { (r q : Spans) → result ≡ false → in_hull self.now r ≡ true → in_hull other.now q ≡ true → is_some (rect_meet r q) ≡ false }
    {
        if !self.first.meets(&other.first) {
            return false;
        }
        if !self.second.meets(&other.second) {
            return false;
        }
        self.third.meets(&other.third)
    }

    /// Whether the rect may meet one of these.
    pub(crate) fn may_meet(&self, rect: &Rect) -> bool
        ensures { (q : Spans) → result ≡ false → in_hull self.now q ≡ true → is_some (rect_meet rect.now q) ≡ false }
    {
        let none = Bound::empty();
        if !grown(&none, rect, 0).meets(&self.first) {
            return false;
        }
        if !grown(&none, rect, 1).meets(&self.second) {
            return false;
        }
        grown(&none, rect, 2).meets(&self.third)
    }

    /// Whether rects of these may have the row.
    pub(crate) fn may_have(&self, row: &Row) -> bool
        ensures { (r : Spans) → result ≡ false → in_hull self.now r ≡ true → in_rect r row.now ≡ false }
    {
        if !self.first.may_have(row, 0) {
            return false;
        }
        if !self.second.may_have(row, 1) {
            return false;
        }
        self.third.may_have(row, 2)
    }
}
