//! The rows of some rects.
ghost use Rattle.std.specs.Prelude.{◌≡◌, ℕ, List, ◌++◌, [], ◌∷◌, true, IfOk, IfSome, OnOk, Some, map, filter};
ghost use Rattle.sr_cell.specs.declared.cell.Cell.{Cell as TheCell};
ghost use Rattle.sr_cell.specs.declared.cell.Cell.TheVariants.{Num as Number, Str as TextOf};
ghost use Rattle.sr_cell.specs.Cells.{Row as TheRow, cell_at, cell_le};
ghost use Rattle.sr_cell.specs.Attrs.{project};
ghost use Rattle.sr_box.specs.Spans.{in_span, is_below};
ghost use Rattle.sr_box.specs.Points.{in_rect, in_any};
ghost use Rattle.sr_keyed.specs.Keyed.{is_from, is_up_to};

use crate::turns::near_in_turn;
use sr_box::rect::Rect;
use sr_box::span::Span;
use sr_cell::attrs::Attrs;
use sr_cell::cell::{Cell, Row, Rows};
use sr_cell::list::{Bytes, NoMemory, Seq};
use sr_cell::text::Text;
use sr_keyed::keyed::KeyedRows;
use sr_union::rects::Rects;
use std::alloc::Global;

fn end_at(number: i64) -> Option<Cell>
    ensures { result ≡ Some (Number number) }
{
    Some(Cell::Num(number))
}

/// The text of the bytes, if they are one and memory is to be had.
fn text_of(alloc: Global, bytes: &[u8]) -> Option<Cell>
    ensures { IfSome result (λ text. text ≡ TextOf bytes.now) }
{
    match str::from_utf8(bytes) {
        Ok(text) => match Text::of(alloc, text) {
            Ok(text) => Some(Cell::Str(text)),
            Err(_) => None,
        },
        Err(_) => None,
    }
}

/// The text of an upper bound, if there is one.
fn end_of(alloc: Global, end: &Option<Bytes>) -> Option<Cell>
    ensures { IfSome result (λ text. (s : List ℕ) → is_below s end.now ≡ true → cell_le (TextOf s) text ≡ true) }
{
    match end {
        Some(bytes) => text_of(alloc, bytes.as_slice()),
        None => None,
    }
}

/// A cell that is above none of the span.
fn low_of(alloc: Global, span: &Span) -> Option<Cell>
    ensures { IfSome result (λ low. (v : TheCell) → in_span span.now v ≡ true → cell_le low v ≡ true) }
{
    match span {
        Span::Full => None,
        Span::Nums { lo, .. } => end_at(*lo),
        Span::Strs { lo, .. } => text_of(alloc, lo.as_slice()),
        Span::Null => Some(Cell::Null),
    }
}

/// A cell that is below none of the span.
fn high_of(alloc: Global, span: &Span) -> Option<Cell>
    ensures { IfSome result (λ high. (v : TheCell) → in_span span.now v ≡ true → cell_le v high ≡ true) }
{
    match span {
        Span::Full => None,
        Span::Nums { hi, .. } => end_at(*hi),
        Span::Strs { hi, .. } => end_of(alloc, hi),
        Span::Null => Some(Cell::Null),
    }
}

pub(crate) fn low_in(alloc: Global, rect: &Rect, column: usize) -> Option<Cell>
    ensures { IfSome result (λ low. (row : TheRow) → in_rect rect.now row ≡ true → cell_le low (cell_at row column) ≡ true) }
{
    match rect.get(column) {
        Some(span) => low_of(alloc, span),
        None => None,
    }
}

pub(crate) fn high_in(alloc: Global, rect: &Rect, column: usize) -> Option<Cell>
    ensures { IfSome result (λ high. (row : TheRow) → in_rect rect.now row ≡ true → cell_le (cell_at row column) high ≡ true) }
{
    match rect.get(column) {
        Some(span) => high_of(alloc, span),
        None => None,
    }
}

/// The lower of two cells, where they are in order.
fn lower(one: Cell, other: Cell) -> Option<Cell>
    ensures one { IfSome result (λ low. (v : TheCell) → cell_le one v ≡ true → cell_le low v ≡ true) }
    ensures other { IfSome result (λ low. (v : TheCell) → cell_le other v ≡ true → cell_le low v ≡ true) }
{
    if one.is_at_most(&other) {
        Some(one)
    } else if other.is_at_most(&one) {
        Some(other)
    } else {
        None
    }
}

/// The higher of two cells, where they are in order.
fn higher(one: Cell, other: Cell) -> Option<Cell>
    ensures one { IfSome result (λ high. (v : TheCell) → cell_le v one ≡ true → cell_le v high ≡ true) }
    ensures other { IfSome result (λ high. (v : TheCell) → cell_le v other ≡ true → cell_le v high ≡ true) }
{
    if one.is_at_most(&other) {
        Some(other)
    } else if other.is_at_most(&one) {
        Some(one)
    } else {
        None
    }
}

/// No row of the rects has a lower cell in the column.
fn lowest(alloc: Global, rects: &[Rect], column: usize) -> Option<Cell>
    ensures { (row : TheRow) → in_any rects.now row ≡ true → is_from result (cell_at row column) ≡ true }
{
    let mut least = low_in(alloc, rects.first()?, column)?;
    for i in 0..rects.len() {
        least = lower(least, low_in(alloc, &rects[i], column)?)?;
    }
    Some(least)
}

/// No row of the rects has a higher cell in the column.
fn highest(alloc: Global, rects: &[Rect], column: usize) -> Option<Cell>
    ensures { (row : TheRow) → in_any rects.now row ≡ true → is_up_to result (cell_at row column) ≡ true }
{
    let mut greatest = high_in(alloc, rects.first()?, column)?;
    for i in 0..rects.len() {
        greatest = higher(greatest, high_in(alloc, &rects[i], column)?)?;
    }
    Some(greatest)
}

/// The projected row behind the others, where a rect has it.
fn push_selected(
    alloc: Global,
    out: &mut Rows,
    row: &Row,
    attrs: Attrs,
    rects: &Rects,
) -> Result<(), NoMemory>
    ensures { OnOk result (out.new ≡ out.old ++ map (project attrs) (filter (in_any rects.now) (row.now ∷ []))) }
{
    if rects.has(row) {
        out.push(row.project(alloc, attrs)?)?;
    }
    Ok(())
}

fn selected_among(
    alloc: Global,
    rows: &[&Row],
    attrs: Attrs,
    rects: &Rects,
) -> Result<Rows, NoMemory>
    ensures { IfOk result (λ out. out ≡ map (project attrs) (filter (in_any rects.now) (map (λ r. r.now) rows.now))) }
{
    let mut out = Seq::new(alloc);
    for i in 0..rows.len() {
        push_selected(alloc, &mut out, rows[i], attrs, rects)?;
    }
    Ok(out)
}

/// Whether the rects have both ends of a column.
fn have_both_ends(alloc: Global, rects: &[Rect], column: usize) -> bool {
    lowest(alloc, rects, column).is_some() && highest(alloc, rects, column).is_some()
}

/// Whether the rects have an end of a column.
fn have_an_end(alloc: Global, rects: &[Rect], column: usize) -> bool {
    lowest(alloc, rects, column).is_some() || highest(alloc, rects, column).is_some()
}

/// How many columns the first rect has.
fn width(rects: &[Rect]) -> usize {
    match rects.first() {
        Some(rect) => rect.len(),
        None => 0,
    }
}

/// Makes an index of each column in which rects have an end, unless they have both of the key: no row changes.
pub(crate) fn index(alloc: Global, rows: &mut KeyedRows, rects: &[Rect])
    ensures { rows.new ≡ rows.old }
{
    let key = rows.key();
    if have_both_ends(alloc, rects, key) {
        return;
    }
    for column in 0..width(rects) {
        if column != key && have_an_end(alloc, rects, column) {
            rows.index(column);
        }
    }
}

/// Rows with all those in the rects, by a column that has an index and in which they are few.
fn near_in<'a>(
    alloc: Global,
    rows: &'a KeyedRows,
    column: usize,
    rects: &[Rect],
) -> Option<Vec<&'a Row>>
    ensures { IfSome result (λ near. filter (in_any rects.now) (map (λ r. r.now) near.items) ≡ filter (in_any rects.now) rows.now.rows) }
{
    let low = lowest(alloc, rects, column);
    let high = highest(alloc, rects, column);
    if low.is_none() && high.is_none() {
        return None;
    }
    rows.near(alloc, column, low.as_ref(), high.as_ref())
}

/// Rows with all those in the rects, by the first column that has an index and in which they are few; none where the
/// rects have both ends of the key.
fn near_by_index<'a>(alloc: Global, rows: &'a KeyedRows, rects: &[Rect]) -> Option<Vec<&'a Row>>
    ensures { IfSome result (λ near. filter (in_any rects.now) (map (λ r. r.now) near.items) ≡ filter (in_any rects.now) rows.now.rows) }
{
    if have_both_ends(alloc, rects, rows.key()) {
        return None;
    }
    for column in 0..width(rects) {
        match near_in(alloc, rows, column, rects) {
            Some(near) => return Some(near),
            None => {}
        }
    }
    None
}

/// Rows with all those in the rects, between their ends of the key.
fn near_between<'a>(
    alloc: Global,
    rows: &'a KeyedRows,
    rects: &[Rect],
) -> Result<Vec<&'a Row>, NoMemory>
    ensures { IfOk result (λ near. filter (in_any rects.now) (map (λ r. r.now) near.items) ≡ filter (in_any rects.now) rows.now.rows) }
{
    let key = rows.key();
    let low = lowest(alloc, rects, key);
    let high = highest(alloc, rects, key);
    rows.between(alloc, low.as_ref(), high.as_ref())
}

/// Rows with all those in the rects, between the ends of each, where the rects lie one above the other by key; else between the ends of
/// them all.
fn near_by_key<'a>(
    alloc: Global,
    rows: &'a KeyedRows,
    rects: &[Rect],
) -> Result<Vec<&'a Row>, NoMemory>
    ensures { IfOk result (λ near. filter (in_any rects.now) (map (λ r. r.now) near.items) ≡ filter (in_any rects.now) rows.now.rows) }
{
    match near_in_turn(alloc, rows, rects)? {
        Some(near) => Ok(near),
        None => near_between(alloc, rows, rects),
    }
}

/// Rows with all those in the rects, and few others.
pub(crate) fn near_rows<'a>(
    alloc: Global,
    rows: &'a KeyedRows,
    rects: &[Rect],
) -> Result<Vec<&'a Row>, NoMemory>
    ensures { IfOk result (λ near. filter (in_any rects.now) (map (λ r. r.now) near.items) ≡ filter (in_any rects.now) rows.now.rows) }
{
    match near_by_index(alloc, rows, rects) {
        Some(near) => Ok(near),
        None => near_by_key(alloc, rows, rects),
    }
}

/// The rows in the rects, projected. Only rows between the ends of the rects are looked at, in a column that has an index or
/// in the key; rects that lie one above the other by key are looked up one by one.
pub(crate) fn select(
    alloc: Global,
    rows: &KeyedRows,
    attrs: Attrs,
    rects: &Rects,
) -> Result<Rows, NoMemory>
    ensures { IfOk result (λ out. out ≡ map (project attrs) (filter (in_any rects.now) rows.now.rows)) }
{
    let near = near_rows(alloc, rows, rects.as_slice())?;
    selected_among(alloc, near.as_slice(), attrs, rects)
}
