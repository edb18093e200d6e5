//! The parts of a span that lie under, in and over another.
ghost use Rattle.std.specs.Prelude.{◌≡◌, pos, ◌+ℤ◌, ◌-ℤ◌, ◌<ℤ◌, ◌^◌, IfOk};
ghost use Rattle.std.specs.Int.{int_max, int_min};
ghost use Rattle.std.specs.Option.{is_some};
ghost use Rattle.sr_box.specs.Cut.{nums, strs, text_max, end_min, meet, under, over, values, beyond, IsInner};

use crate::span::{Span, is_before};
use sr_cell::cell::is_text_at_most;
use sr_cell::list::{Bytes, Copied, NoMemory, Seq};
use sr_cell::table::{Column, Kind};
use std::alloc::Global;

fn are_nums(lo: i64, hi: i64) -> bool
    ensures { result ≡ is_some (nums lo hi) }
{
    lo <= hi
}

fn some_nums(lo: i64, hi: i64) -> Option<Span>
    ensures { result ≡ nums lo hi }
{
    if lo <= hi {
        Some(Span::Nums { lo, hi })
    } else {
        None
    }
}

// The numbers from `lo` to `hi` that lie under this number.
fn nums_under(lo: i64, hi: i64, number: i64) -> Option<Span>
    requires { (pos 0 -ℤ pos (2 ^ 62)) <ℤ number }
    ensures { result ≡ nums lo (int_min hi (number -ℤ pos 1)) }
{
    some_nums(lo, hi.min(number - 1))
}

// The numbers from `lo` to `hi` that lie over this number.
fn nums_over(lo: i64, hi: i64, number: i64) -> Option<Span>
    requires { number <ℤ pos (2 ^ 62) }
    ensures { result ≡ nums (int_max lo (number +ℤ pos 1)) hi }
{
    some_nums(lo.max(number + 1), hi)
}

fn some_strs(lo: Bytes, hi: Option<Bytes>) -> Option<Span>
    ensures { result ≡ strs lo hi }
{
    if is_before(lo.as_slice(), &hi) {
        Some(Span::Strs { lo, hi })
    } else {
        None
    }
}

fn later<'a>(one: &'a Bytes, other: &'a Bytes) -> &'a Bytes
    ensures { result.now ≡ text_max one.now other.now }
{
    if is_text_at_most(one.as_slice(), other.as_slice()) {
        other
    } else {
        one
    }
}

fn earlier<'a>(one: &'a Option<Bytes>, other: &'a Option<Bytes>) -> &'a Option<Bytes>
    ensures { result.now ≡ end_min one.now other.now }
{
    match (one, other) {
        (None, _) => other,
        (Some(_), None) => one,
        (Some(x), Some(y)) => {
            if is_text_at_most(x.as_slice(), y.as_slice()) {
                one
            } else {
                other
            }
        }
    }
}

// Whether a text of both is there; takes no memory.
fn texts_meet(a: &Bytes, b: &Option<Bytes>, c: &Bytes, d: &Option<Bytes>) -> bool
    ensures { result ≡ is_some (strs (text_max a.now c.now) (end_min b.now d.now)) }
{
    is_before(later(a, c).as_slice(), earlier(b, d))
}

fn later_text(alloc: Global, one: &Bytes, other: &Bytes) -> Result<Bytes, NoMemory>
    ensures { IfOk result (λ text. text ≡ text_max one.now other.now) }
{
    if is_text_at_most(one.as_slice(), other.as_slice()) {
        other.copy(alloc)
    } else {
        one.copy(alloc)
    }
}

fn earlier_end(
    alloc: Global,
    one: &Option<Bytes>,
    other: &Option<Bytes>,
) -> Result<Option<Bytes>, NoMemory>
    ensures { IfOk result (λ end. end ≡ end_min one.now other.now) }
{
    match (one, other) {
        (None, _) => other.copy(alloc),
        (Some(_), None) => one.copy(alloc),
        (Some(x), Some(y)) => {
            if is_text_at_most(x.as_slice(), y.as_slice()) {
                one.copy(alloc)
            } else {
                other.copy(alloc)
            }
        }
    }
}

/// Whether both spans have a part in common, where they are not both of numbers.
fn others_meet(one: &Span, other: &Span) -> bool
    ensures { result ≡ is_some (meet one.now other.now) }
{
    match (one, other) {
        (Span::Full, _) => true,
        (_, Span::Full) => true,
        (Span::Nums { lo: a, hi: b }, Span::Nums { lo: c, hi: d }) => {
            are_nums((*a).max(*c), (*b).min(*d))
        }
        (Span::Strs { lo: a, hi: b }, Span::Strs { lo: c, hi: d }) => texts_meet(a, b, c, d),
        (Span::Null, Span::Null) => true,
        _ => false,
    }
}

impl Span {
    /// Whether both spans have a part in common; takes no memory. Spans of numbers are tested here, since a call takes longer.
    pub fn meets(&self, other: &Span) -> bool
        ensures { result ≡ is_some (meet self.now other.now) }
    {
        match (self, other) {
            (Span::Full, _) => true,
            (Span::Nums { lo: a, hi: b }, Span::Nums { lo: c, hi: d }) => {
                are_nums((*a).max(*c), (*b).min(*d))
            }
            _ => others_meet(self, other),
        }
    }

    /// The part that both spans have.
    pub fn meet(&self, alloc: Global, other: &Span) -> Result<Option<Span>, NoMemory>
        ensures { IfOk result (λ part. part ≡ meet self.now other.now) }
    {
        match (self, other) {
            (Span::Full, _) => Ok(Some(other.copy(alloc)?)),
            (_, Span::Full) => Ok(Some(self.copy(alloc)?)),
            (Span::Nums { lo: a, hi: b }, Span::Nums { lo: c, hi: d }) => {
                Ok(some_nums((*a).max(*c), (*b).min(*d)))
            }
            (Span::Strs { lo: a, hi: b }, Span::Strs { lo: c, hi: d }) => {
                Ok(some_strs(later_text(alloc, a, c)?, earlier_end(alloc, b, d)?))
            }
            (Span::Null, Span::Null) => Ok(Some(Span::Null)),
            _ => Ok(None),
        }
    }

    /// The part that lies under the other span; `low` is the first number of the column.
    pub fn under(&self, alloc: Global, other: &Span, low: i64) -> Result<Option<Span>, NoMemory>
        requires { IsInner other.now }
        ensures { IfOk result (λ part. part ≡ under low self.now other.now) }
    {
        match (self, other) {
            (Span::Full, Span::Nums { lo: c, hi: _ }) => Ok(some_nums(low, *c - 1)),
            (Span::Full, Span::Strs { lo: c, hi: _ }) => Ok(some_strs(
                Seq::new(alloc),
                Some(c.copy(alloc)?),
            )),
            (Span::Nums { lo: a, hi: b }, Span::Nums { lo: c, hi: _ }) => {
                Ok(nums_under(*a, *b, *c))
            }
            (Span::Strs { lo: a, hi: b }, Span::Strs { lo: c, hi: _ }) => {
                let end = Some(c.copy(alloc)?);
                Ok(some_strs(a.copy(alloc)?, earlier_end(alloc, b, &end)?))
            }
            _ => Ok(None),
        }
    }

    /// The part that lies over the other span; `high` is the last number of the column.
    pub fn over(&self, alloc: Global, other: &Span, high: i64) -> Result<Option<Span>, NoMemory>
        requires { IsInner other.now }
        ensures { IfOk result (λ part. part ≡ over high self.now other.now) }
    {
        match (self, other) {
            (Span::Full, Span::Nums { lo: _, hi: d }) => Ok(some_nums(*d + 1, high)),
            (Span::Full, Span::Strs { lo: _, hi: Some(d) }) => Ok(some_strs(d.copy(alloc)?, None)),
            (Span::Nums { lo: a, hi: b }, Span::Nums { lo: _, hi: d }) => {
                Ok(nums_over(*a, *b, *d))
            }
            (Span::Strs { lo: a, hi: b }, Span::Strs { lo: _, hi: Some(d) }) => {
                Ok(some_strs(later_text(alloc, a, d)?, b.copy(alloc)?))
            }
            _ => Ok(None),
        }
    }

    /// The part that lies on the other side of Null: Null itself where the other span has it not, or the values that are
    /// not Null where that has it alone.
    pub fn beyond(
        &self,
        alloc: Global,
        other: &Span,
        column: &Column,
    ) -> Result<Option<Span>, NoMemory>
        ensures { IfOk result (λ part. part ≡ beyond column.now.kind column.now.lo column.now.hi column.now.nullable self.now other.now) }
    {
        match (self, other) {
            (_, Span::Full) => Ok(None),
            (Span::Full, Span::Null) => Ok(Some(Span::values(alloc, column))),
            (Span::Full, _) => {
                if column.nullable {
                    Ok(Some(Span::Null))
                } else {
                    Ok(None)
                }
            }
            (Span::Null, Span::Null) => Ok(None),
            (Span::Null, _) => Ok(Some(Span::Null)),
            (_, Span::Null) => Ok(Some(self.copy(alloc)?)),
            _ => Ok(None),
        }
    }

    /// All values of a column but Null; takes no memory.
    pub fn values(alloc: Global, column: &Column) -> Span
        ensures { result ≡ values column.now.kind column.now.lo column.now.hi }
    {
        match column.kind {
            Kind::Num => Span::Nums {
                lo: column.lo,
                hi: column.hi,
            },
            Kind::Str => Span::Strs {
                lo: Seq::new(alloc),
                hi: None,
            },
        }
    }
}
