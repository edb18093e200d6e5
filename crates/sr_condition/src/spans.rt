//! The values of which a test is true, or those of which it is false, as spans of a column.
ghost use Rattle.std.specs.Prelude.{◌≡◌, ◌+◌, ◌++◌, ◌∷◌, [], true, false, not, int_le, ◌&&◌, flat_map, length, option_to_list, OnOk, IfOk, Bool, List, if◌then◌else◌};
ghost use Rattle.std.specs.List.{list_all, AllByRecursion};
ghost use Rattle.sr_box.specs.declared.span.Span.TheVariants.{Null};
ghost use Rattle.sr_box.specs.Cut.{nums, IsInner};
ghost use Rattle.sr_box.specs.Spans.{span_fits, is_whole};
ghost use Rattle.sr_cell.specs.declared.cell.Cell.{Cell as Value};
ghost use Rattle.sr_cell.specs.declared.cell.Cell.TheVariants.{Null as NullCell};
ghost use Rattle.sr_cell.specs.Names.{is_bad_domain};
ghost use Rattle.sr_model.specs.Conditions.{passes, Eq, Between, Prefix, OneOf, IsNull};
ghost use Rattle.sr_model.specs.Conditions as model;
ghost use Rattle.sr_model.specs.Ends.{places_of};
ghost use Rattle.sr_model.specs.Width.{test_width};
ghost use Rattle.sr_query.specs.Binding.{compared};
ghost use Rattle.sr_query.specs.Meant.{test_meant};
ghost use Rattle.sr_condition.specs.Suits.{cell_suits, test_suits};
ghost use Rattle.sr_condition.specs.Ranges.{says_test, contrary, said, range_width, is_one_range, is_range, IsRange, number_part, text_part, part_of, all_values, beside, without, in_spans, is_left, EndsAt, AreSpans, AreApart};

use crate::ranges;
use sr_box::span::{Span, is_before};
use sr_cell::cell::Cell;
use sr_cell::list::{Bytes, NoMemory, Seq};
use sr_cell::table::{Column, Kind};
use sr_grammar::statement::Op;
use sr_query::condition::Test;
use std::alloc::Global;

/// Spans of one column.
pub(crate) type Spans = Seq<Span>;

fn some_nums(lo: i64, hi: i64) -> Option<Span>
    ensures { result ≡ nums lo hi }
{
    if lo <= hi {
        Some(Span::Nums { lo, hi })
    } else {
        None
    }
}

fn are_all(nullable: bool, low: i64, high: i64, lo: i64, hi: i64) -> bool
    ensures { result ≡ (not nullable && (int_le lo low && int_le high hi)) }
{
    !nullable && lo <= low && high <= hi
}

fn number_part(nullable: bool, low: i64, high: i64, lo: i64, hi: i64) -> Option<Span>
    ensures { result ≡ number_part nullable low high lo hi }
{
    if are_all(nullable, low, high, lo, hi) {
        Some(Span::Full)
    } else {
        some_nums(lo.max(low), hi.min(high))
    }
}

fn are_all_texts(nullable: bool, lo: &Bytes, hi: &Option<Bytes>) -> bool
    ensures { result ≡ (not nullable && is_whole lo.now hi.now) }
{
    !nullable && lo.is_empty() && hi.is_none()
}

fn text_part(nullable: bool, lo: Bytes, hi: Option<Bytes>) -> Option<Span>
    ensures { result ≡ text_part nullable lo hi }
{
    if are_all_texts(nullable, &lo, &hi) {
        Some(Span::Full)
    } else if is_before(lo.as_slice(), &hi) {
        Some(Span::Strs { lo, hi })
    } else {
        None
    }
}

// The part of the bounds inside the column.
fn part_of(column: &Column, bounds: Span) -> Option<Span>
    ensures { result ≡ part_of column.now bounds }
{
    match bounds {
        Span::Full => Some(Span::Full),
        Span::Nums { lo, hi } => number_part(column.nullable, column.lo, column.hi, lo, hi),
        Span::Strs { lo, hi } => text_part(column.nullable, lo, hi),
        Span::Null => Some(Span::Null),
    }
}

fn push_some(spans: &mut Spans, part: Option<Span>) -> Result<(), NoMemory>
    ensures { OnOk result (spans.new ≡ spans.old ++ option_to_list part) }
{
    match part {
        None => Ok(()),
        Some(span) => spans.push(span),
    }
}

fn beside(alloc: Global, column: &Column, span: &Span, part: &Span) -> Result<Spans, NoMemory>
    requires { IsInner part.now }
    ensures { IfOk result (λ left. left ≡ beside column.now part.now span.now) }
{
    let mut left = Seq::new(alloc);
    push_some(&mut left, span.under(alloc, part, column.lo)?)?;
    push_some(&mut left, span.over(alloc, part, column.hi)?)?;
    Ok(left)
}

fn cut(alloc: Global, column: &Column, spans: &Spans, part: &Span) -> Result<Spans, NoMemory>
    requires { IsInner part.now }
    ensures { IfOk result (λ left. left ≡ flat_map (beside column.now part.now) spans.now) }
{
    let mut left = Seq::new(alloc);
    for span in spans.as_slice() {
        left.append(beside(alloc, column, span, part)?)?;
    }
    Ok(left)
}

// What is left of the spans without that part of the column.
fn without(
    alloc: Global,
    column: &Column,
    spans: Spans,
    part: Option<Span>,
) -> Result<Spans, NoMemory>
    requires good { is_bad_domain column.now ≡ false }
    requires fits { list_all (span_fits column.now) (option_to_list part) ≡ true }
    ensures { IfOk result (λ left. left ≡ without column.now part spans) }
{
    match part {
        None => Ok(spans),
        Some(part) => cut(alloc, column, &spans, &part),
    }
}

// All values but Null.
fn all_values(alloc: Global, column: &Column) -> Span
    ensures { result ≡ all_values column.now }
{
    if column.nullable {
        Span::values(alloc, column)
    } else {
        Span::Full
    }
}

fn whole(alloc: Global, column: &Column) -> Result<Spans, NoMemory>
    ensures { IfOk result (λ spans. spans ≡ all_values column.now ∷ []) }
{
    let mut spans = Seq::new(alloc);
    spans.push(all_values(alloc, column))?;
    Ok(spans)
}

// The values of a test that is true inside the bounds, or the others but Null.
fn range_spans(alloc: Global, column: &Column, plain: bool, bounds: Span) -> Result<Spans, NoMemory>
    requires good { is_bad_domain column.now ≡ false }
    requires range { is_range column.now.kind bounds ≡ true }
    ensures { (t : model.Test) → IsRange column.now (passes t) (places_of t) bounds
        → IfOk result (AreSpans column.now (says_test plain t) (range_width plain) (places_of t)) }
{
    let part = part_of(column, bounds);
    if plain {
        let mut spans = Seq::new(alloc);
        push_some(&mut spans, part)?;
        Ok(spans)
    } else {
        without(alloc, column, whole(alloc, column)?, part)
    }
}

fn contrary(op: Op) -> Op
    ensures { result ≡ contrary op }
{
    match op {
        Op::Eq => Op::Ne,
        Op::Ne => Op::Eq,
        Op::Lt => Op::Ge,
        Op::Le => Op::Gt,
        Op::Gt => Op::Le,
        Op::Ge => Op::Lt,
    }
}

fn said(plain: bool, op: Op) -> Op
    ensures { result ≡ said plain op }
{
    if plain { op } else { contrary(op) }
}

fn is_one_range(op: Op) -> bool
    ensures { result ≡ is_one_range op }
{
    match op {
        Op::Ne => false,
        Op::Eq | Op::Lt | Op::Le | Op::Gt | Op::Ge => true,
    }
}

fn compared(
    alloc: Global,
    column: &Column,
    plain: bool,
    op: Op,
    value: &Cell,
) -> Result<Spans, NoMemory>
    requires good { is_bad_domain column.now ≡ false }
    requires suits { cell_suits column.now.kind value.now ≡ true }
    ensures { IfOk result (AreSpans column.now (says_test plain (compared op value.now)) (test_width plain (compared op value.now))
        (places_of (compared op value.now))) }
{
    let op = said(plain, op);
    let bounds = ranges::compared(alloc, column, op, value)?;
    range_spans(alloc, column, is_one_range(op), bounds)
}

fn between(
    alloc: Global,
    column: &Column,
    plain: bool,
    low: &Cell,
    high: &Cell,
) -> Result<Spans, NoMemory>
    requires good { is_bad_domain column.now ≡ false }
    requires low { cell_suits column.now.kind low.now ≡ true }
    requires high { cell_suits column.now.kind high.now ≡ true }
    ensures { IfOk result (AreSpans column.now (says_test plain (Between low.now high.now)) (range_width plain) (places_of (Between low.now high.now))) }
{
    if low.is_at_most(high) {
        let bounds = ranges::between(alloc, column, low, high)?;
        range_spans(alloc, column, plain, bounds)
    } else {
        all_or_none(alloc, column, !plain)
    }
}

// No number begins with a text.
fn prefix(alloc: Global, column: &Column, plain: bool, start: &[u8]) -> Result<Spans, NoMemory>
    requires good { is_bad_domain column.now ≡ false }
    ensures { IfOk result (AreSpans column.now (says_test plain (Prefix start.now)) (range_width plain) (places_of (Prefix start.now))) }
{
    match column.kind {
        Kind::Num => all_or_none(alloc, column, !plain),
        Kind::Str => {
            let bounds = ranges::prefix(alloc, column, start)?;
            range_spans(alloc, column, plain, bounds)
        }
    }
}

fn all_or_none(alloc: Global, column: &Column, all: bool) -> Result<Spans, NoMemory>
    ensures { IfOk result (λ spans. spans ≡ (if all then all_values column.now ∷ [] else [])) }
{
    if all {
        whole(alloc, column)
    } else {
        Ok(Seq::new(alloc))
    }
}

// Null alone, or all other values.
fn is_null(alloc: Global, column: &Column, plain: bool) -> Result<Spans, NoMemory>
    requires good { is_bad_domain column.now ≡ false }
    ensures { IfOk result (AreSpans column.now (says_test plain IsNull) (test_width plain IsNull) (places_of IsNull)) }
{
    if plain {
        null(alloc, column.nullable)
    } else {
        whole(alloc, column)
    }
}

fn null(alloc: Global, nullable: bool) -> Result<Spans, NoMemory>
    ensures { IfOk result (λ spans. spans ≡ (if nullable then Null ∷ [] else [])) }
{
    let mut spans = Seq::new(alloc);
    if nullable {
        spans.push(Span::Null)?;
    }
    Ok(spans)
}

fn equal_part(alloc: Global, column: &Column, value: &Cell) -> Result<Option<Span>, NoMemory>
    requires suits { cell_suits column.now.kind value.now ≡ true }
    ensures { IfOk result (λ part. AreSpans column.now (passes (Eq value.now)) 1 (places_of (Eq value.now)) (option_to_list part)) }
{
    let bounds = ranges::compared(alloc, column, Op::Eq, value)?;
    Ok(part_of(column, bounds))
}

// The values between those of a list: what is left of the column without each of them.
fn outside(alloc: Global, column: &Column, values: &[Cell]) -> Result<Spans, NoMemory>
    requires good { is_bad_domain column.now ≡ false }
    requires suits { list_all (cell_suits column.now.kind) values.now ≡ true }
    ensures { IfOk result (AreSpans column.now (says_test false (OneOf values.now)) (length values.now + 1) (places_of (OneOf values.now))) }
{
    let mut spans = whole(alloc, column)?;
    for value in values {
        let part = equal_part(alloc, column, value)?;
        spans = without(alloc, column, spans, part)?;
    }
    Ok(spans)
}

// What is left of the column's values without any of these spans, none of which has Null.
fn left_by(alloc: Global, column: &Column, taken: &Spans) -> Result<Spans, NoMemory>
    requires good { is_bad_domain column.now ≡ false }
    requires fits { list_all (span_fits column.now) taken.now ≡ true }
    requires values { column.now.nullable ≡ true → in_spans taken.now NullCell ≡ false }
    ensures { (ends : List Value) → AllByRecursion (EndsAt column.now (NullCell ∷ ends)) taken.now
        → IfOk result (AreApart column.now (is_left taken.now) (length taken.now + 1) (NullCell ∷ ends)) }
{
    let mut spans = whole(alloc, column)?;
    for span in taken.as_slice() {
        spans = cut(alloc, column, &spans, span)?;
    }
    Ok(spans)
}

// The values of a list: what is left by those between them. So neighbours lie in one span.
fn inside(alloc: Global, column: &Column, values: &[Cell]) -> Result<Spans, NoMemory>
    requires good { is_bad_domain column.now ≡ false }
    requires suits { list_all (cell_suits column.now.kind) values.now ≡ true }
    ensures { IfOk result (AreSpans column.now (passes (OneOf values.now)) (length values.now) (places_of (OneOf values.now))) }
{
    let between = outside(alloc, column, values)?;
    left_by(alloc, column, &between)
}

/// Spans of a column with just the values of which a test is true, or of which it is false.
pub(crate) fn test_spans(
    alloc: Global,
    column: &Column,
    plain: bool,
    test: &Test,
) -> Result<Spans, NoMemory>
    requires good { is_bad_domain column.now ≡ false }
    requires suits { test_suits column.now.kind (test_meant test.now) ≡ true }
    ensures { IfOk result (AreSpans column.now (says_test plain (test_meant test.now)) (test_width plain (test_meant test.now))
        (places_of (test_meant test.now))) }
{
    match test {
        Test::Compared(op, value) => compared(alloc, column, plain, *op, value),
        Test::Between(low, high) => between(alloc, column, plain, low, high),
        Test::OneOf(values) => one_of(alloc, column, plain, values.as_slice()),
        Test::Prefix(start) => prefix(alloc, column, plain, start.as_str().as_bytes()),
        Test::IsNull => is_null(alloc, column, plain),
    }
}

fn one_of(alloc: Global, column: &Column, plain: bool, values: &[Cell]) -> Result<Spans, NoMemory>
    requires good { is_bad_domain column.now ≡ false }
    requires suits { list_all (cell_suits column.now.kind) values.now ≡ true }
    ensures { IfOk result (AreSpans column.now (says_test plain (OneOf values.now)) (test_width plain (OneOf values.now)) (places_of (OneOf values.now))) }
{
    if plain {
        inside(alloc, column, values)
    } else {
        outside(alloc, column, values)
    }
}
