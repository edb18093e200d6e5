//! The rects of a condition.
ghost use Rattle.std.specs.Prelude.{◌≡◌, ◌≤◌, ◌<◌, ◌∷◌, [], true, map, length, slice_index_or, if◌then◌else◌, IsTrue, IfOk};
ghost use Rattle.sr_box.specs.declared.span.Span.TheVariants.{Full};
ghost use Rattle.sr_box.specs.Points.{full_rect};
ghost use Rattle.sr_model.specs.Conditions.{Tests, Not};
ghost use Rattle.sr_model.specs.Width.{width};
ghost use Rattle.sr_query.specs.Binding.{cond_of};
ghost use Rattle.sr_query.specs.Meant.{meant, members, test_meant};
ghost use Rattle.sr_query.specs.Bound.{is_table, AreRectsOf};
ghost use Rattle.sr_condition.specs.Suits.{suits, all_suit};
ghost use Rattle.sr_condition.specs.Said.{all_of, any_of, rect_with, AreRects};

use crate::spans::{Spans, test_spans};
use sr_box::rect::Rect;
use sr_box::span::Span;
use sr_cell::list::{Copied, NoMemory};
use sr_cell::table::{Column, Table};
use sr_query::condition::{Condition, Test};
use sr_union::rects::Rects;
use std::alloc::Global;

/// Rects with just the points of the table for which the condition is true: no more than it is wide, which begin and end only
/// where a test of it does.
pub fn rects_of(alloc: Global, table: &Table, condition: &Condition) -> Result<Rects, NoMemory>
    requires table { IsTrue (is_table table.now) }
    requires suits { IsTrue (suits table.now (cond_of (meant condition.now))) }
    requires narrow { width true (cond_of (meant condition.now)) ≤ 64 }
    ensures { IfOk result (AreRectsOf table.now.columns (cond_of (meant condition.now))) }
{
    let rects = rects_said(alloc, table, true, condition)?;
    Ok(rects)
}

// The rects of the points of which a condition is true, or of those of which it is false.
#[cycle(condition)]
fn rects_said(
    alloc: Global,
    table: &Table,
    plain: bool,
    condition: &Condition,
) -> Result<Rects, NoMemory>
    requires table { is_table table.now ≡ true }
    requires suits { suits table.now (cond_of (meant condition.now)) ≡ true }
    ensures { IfOk result (AreRects table.now.columns plain (cond_of (meant condition.now))) }
{
    match condition {
        Condition::Test(_, output, test) => {
            test_rects(alloc, table, output.column as usize, plain, test)
        }
        Condition::And(all) => {
            if plain {
                meet_all(alloc, table, plain, all)
            } else {
                join_all(alloc, table, plain, all)
            }
        }
        Condition::Or(all) => {
            if plain {
                join_all(alloc, table, plain, all)
            } else {
                meet_all(alloc, table, plain, all)
            }
        }
        Condition::Not(one) => negation(alloc, table, plain, one),
    }
}

// The points of which all members are true, or all false.
#[cycle(condition)]
fn meet_all(alloc: Global, table: &Table, plain: bool, all: &[Condition]) -> Result<Rects, NoMemory>
    requires table { is_table table.now ≡ true }
    requires suit { all_suit table.now (members all.now) ≡ true }
    ensures { IfOk result (AreRects table.now.columns plain (all_of plain (members all.now))) }
{
    let mut both = whole(alloc, table)?;
    let mut i = all.len();
    while i > 0 {
        i -= 1;
        let member = &all[i];
        know_suits(table, all, i, member);
        let one = rects_said(alloc, table, plain, member)?;
        both = one.meet(alloc, &both)?;
    }
    Ok(both)
}

// The points of which a member is true, or one is false.
#[cycle(condition)]
fn join_all(alloc: Global, table: &Table, plain: bool, all: &[Condition]) -> Result<Rects, NoMemory>
    requires table { is_table table.now ≡ true }
    requires suit { all_suit table.now (members all.now) ≡ true }
    ensures { IfOk result (AreRects table.now.columns plain (any_of plain (members all.now))) }
{
    let mut any = Rects::new(alloc);
    let mut i = all.len();
    while i > 0 {
        i -= 1;
        let member = &all[i];
        know_suits(table, all, i, member);
        let mut one = rects_said(alloc, table, plain, member)?;
        one.append(any)?;
        any = one;
    }
    Ok(any)
}

#[cycle(condition)]
fn negation(alloc: Global, table: &Table, plain: bool, one: &Condition) -> Result<Rects, NoMemory>
    requires table { is_table table.now ≡ true }
    requires suits { suits table.now (cond_of (meant one.now)) ≡ true }
    ensures { IfOk result (AreRects table.now.columns plain (Not (cond_of (meant one.now)))) }
{
    rects_said(alloc, table, !plain, one)
}

// A fact for the proof of its caller: a member of such a list suits the table.
fn know_suits(table: &Table, all: &[Condition], i: usize, member: &Condition)
    requires suit { all_suit table.now (members all.now) ≡ true }
    requires inside { i < length all.now }
    ensures { member.now ≡ slice_index_or all.now i member.now → suits table.now (cond_of (meant member.now)) ≡ true }
{}

fn whole(alloc: Global, table: &Table) -> Result<Rects, NoMemory>
    ensures { IfOk result (λ rects. rects ≡ full_rect table.now.columns ∷ []) }
{
    let mut rects = Rects::new(alloc);
    rects.push(Rect::full(alloc, table)?)?;
    Ok(rects)
}

fn test_rects(
    alloc: Global,
    table: &Table,
    column: usize,
    plain: bool,
    test: &Test,
) -> Result<Rects, NoMemory>
    requires table { is_table table.now ≡ true }
    requires suits { suits table.now (Tests column (test_meant test.now)) ≡ true }
    ensures { IfOk result (AreRects table.now.columns plain (Tests column (test_meant test.now))) }
{
    let columns = table.columns.as_slice();
    let spans = test_spans(alloc, &columns[column], plain, test)?;
    rects_with(alloc, columns, column, &spans)
}

fn rects_with(
    alloc: Global,
    columns: &[Column],
    column: usize,
    spans: &Spans,
) -> Result<Rects, NoMemory>
    requires { column < length columns.now }
    ensures { IfOk result (λ rects. rects ≡ map (rect_with columns.now column) spans.now) }
{
    let mut rects = Rects::new(alloc);
    for span in spans.as_slice() {
        rects.push(rect_with(alloc, columns, column, span)?)?;
    }
    Ok(rects)
}

// The rect that constrains that column alone.
fn rect_with(
    alloc: Global,
    columns: &[Column],
    column: usize,
    span: &Span,
) -> Result<Rect, NoMemory>
    requires { column < length columns.now }
    ensures { IfOk result (λ rect. rect ≡ rect_with columns.now column span.now) }
{
    let mut rect = Rect::new(alloc);
    for i in 0..columns.len() {
        rect.push(span_at(alloc, i == column, span)?)?;
    }
    Ok(rect)
}

fn span_at(alloc: Global, here: bool, span: &Span) -> Result<Span, NoMemory>
    ensures { IfOk result (λ own. own ≡ (if here then span.now else Full)) }
{
    if here {
        span.copy(alloc)
    } else {
        Ok(Span::Full)
    }
}
