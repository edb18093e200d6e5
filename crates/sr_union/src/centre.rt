//! Centres of lists of rects.
ghost use Rattle.std.specs.Prelude.{◌≡◌, ◌∷◌, true, List, length, slice_index, int_le, if◌then◌else◌, IfOk};
ghost use Rattle.std.specs.List.{list_all};
ghost use Rattle.sr_box.specs.Points.{rect_fits};
ghost use Rattle.sr_box.specs.Spans.{span_fits};
ghost use Rattle.sr_union.specs.Free.{span_at};
ghost use Rattle.sr_union.specs.Grid.{all_inner, is_inner};
ghost use Rattle.sr_cell.specs.Columns.{in_column};
ghost use Rattle.sr_box.specs.Corners.{first_value, have_first};
ghost use Rattle.sr_union.specs.Centre.{first_bytes, high_text, low_of, high_of, least_low, greatest_high, middle_at, centre_from, centre_of};

use crate::rects::Rects;
use sr_box::rect::Rect;
use sr_box::span::Span;
use sr_cell::list::{Bytes, NoMemory, Seq};
use sr_cell::table::{Column, Kind, Table};
use std::alloc::Global;
use std::marker::Model;

/// For each column of a table the sum of both ends of a hull, which contracts see as the list of them.
#[derive(Drop)]
pub struct Centre {
    sums: Seq<i64>,
}

impl Model for Centre {
    ghost use Rattle.std.specs.Prelude.{List, ℤ};

    ghost Value = { List ℤ };

    ghost view = { λ c. c.sums };
}

impl Centre {
    /// How many columns there are.
    pub fn len(&self) -> usize
        ensures { result ≡ length self.now }
    {
        self.sums.len()
    }

    /// The sums of the columns, in order.
    pub fn as_slice(&self) -> &[i64]
        ensures { result.now ≡ self.now }
    {
        self.sums.as_slice()
    }
}

fn byte_at(text: &[u8], index: usize) -> u8
    ensures { result ≡ slice_index text.now index }
{
    if index < text.len() { text[index] } else { 0 }
}

fn first_bytes(text: &[u8]) -> u32
    ensures { result ≡ first_bytes text.now }
{
    let first = byte_at(text, 0) as u32 * 16777216 + byte_at(text, 1) as u32 * 65536;
    first + byte_at(text, 2) as u32 * 256 + byte_at(text, 3) as u32
}

fn high_text(end: &Option<Bytes>) -> i64
    ensures { result ≡ high_text end.now }
{
    match end {
        None => 4294967296,
        Some(hi) => first_bytes(hi.as_slice()) as i64,
    }
}

fn low_of(column: &Column, span: &Span) -> i64
    ensures { result ≡ low_of column.now.kind column.now.lo span.now }
{
    match (column.kind, span) {
        (Kind::Num, Span::Nums { lo, hi: _ }) => *lo,
        (Kind::Num, _) => column.lo,
        (Kind::Str, Span::Strs { lo, hi: _ }) => first_bytes(lo.as_slice()) as i64,
        (Kind::Str, _) => 0,
    }
}

fn high_of(column: &Column, span: &Span) -> i64
    ensures { result ≡ high_of column.now.kind column.now.lo column.now.hi span.now }
{
    match (column.kind, span) {
        (Kind::Num, Span::Nums { lo: _, hi }) => *hi,
        (Kind::Num, Span::Null) => column.lo,
        (Kind::Num, _) => column.hi,
        (Kind::Str, Span::Strs { lo: _, hi }) => high_text(hi),
        (Kind::Str, Span::Null) => 0,
        (Kind::Str, _) => 4294967296,
    }
}

fn lesser(x: i64, y: i64) -> i64
    ensures { result ≡ (if int_le x y then x else y) }
{
    if x <= y { x } else { y }
}

fn greater(x: i64, y: i64) -> i64
    ensures { result ≡ (if int_le x y then y else x) }
{
    if x <= y { y } else { x }
}

fn low_at(column: &Column, k: usize, rect: &Rect) -> i64
    ensures { result ≡ low_of column.now.kind column.now.lo (span_at k rect.now) }
{
    match rect.get(k) {
        Some(span) => low_of(column, span),
        None => low_of(column, &Span::Full),
    }
}

fn high_at(column: &Column, k: usize, rect: &Rect) -> i64
    ensures { result ≡ high_of column.now.kind column.now.lo column.now.hi (span_at k rect.now) }
{
    match rect.get(k) {
        Some(span) => high_of(column, span),
        None => high_of(column, &Span::Full),
    }
}

fn least_low(column: &Column, k: usize, first: &Rect, others: &[Rect]) -> i64
    ensures { result ≡ least_low column.now k first.now others.now }
{
    let mut least = low_at(column, k, first);
    for rect in others {
        least = lesser(least, low_at(column, k, rect));
    }
    least
}

fn greatest_high(column: &Column, k: usize, first: &Rect, others: &[Rect]) -> i64
    ensures { result ≡ greatest_high column.now k first.now others.now }
{
    let mut greatest = high_at(column, k, first);
    for rect in others {
        greatest = greater(greatest, high_at(column, k, rect));
    }
    greatest
}

/// The sum of both ends of the hull in a column.
fn middle_at(column: &Column, k: usize, first: &Rect, others: &[Rect]) -> i64
    requires fit { list_all (λ r. span_fits column.now (span_at k r)) (first.now ∷ others.now) ≡ true }
    requires inner { is_inner column.now ≡ true }
    requires first { in_column column.now (first_value column.now.kind column.now.lo) ≡ true }
    ensures { result ≡ middle_at column.now k first.now others.now }
{
    let least = least_low(column, k, first, others);
    let greatest = greatest_high(column, k, first, others);
    least + greatest
}

fn centre_from(
    alloc: Global,
    columns: &[Column],
    first: &Rect,
    others: &[Rect],
) -> Result<Centre, NoMemory>
    requires fit { list_all (rect_fits columns.now) (first.now ∷ others.now) ≡ true }
    requires inner { all_inner columns.now ≡ true }
    requires first { have_first columns.now ≡ true }
    ensures { IfOk result (λ centre. centre ≡ centre_from columns.now first.now others.now) }
{
    let mut sums = Seq::new(alloc);
    for k in 0..columns.len() {
        sums.push(middle_at(&columns[k], k, first, others))?;
    }
    Ok(Centre { sums })
}

impl Rects {
    /// For each column the sum of both ends of the hull of the rects; none where there are no rects.
    pub fn centre(&self, alloc: Global, table: &Table) -> Result<Option<Centre>, NoMemory>
        requires self_fits { list_all (rect_fits table.now.columns) self.now ≡ true }
        requires inner { all_inner table.now.columns ≡ true }
        requires first { have_first table.now.columns ≡ true }
        ensures { IfOk result (λ centre. centre ≡ centre_of table.now.columns self.now) }
    {
        match self.as_slice() {
            [] => Ok(None),
            [first, others @ ..] => Ok(Some(centre_from(
                alloc,
                table.columns.as_slice(),
                first,
                others,
            )?)),
        }
    }
}
