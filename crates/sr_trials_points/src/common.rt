//! What tests of several libraries need.
ghost use Rattle.std.specs.Prelude.{◌≡◌, false, pos, [], ◌∷◌, IfOk};
ghost use Rattle.sr_cell.specs.declared.table.Kind.TheVariants.{Num as Numbers};
ghost use Rattle.sr_box.specs.declared.span.Span.TheVariants.{Full, Nums};

use sr_box::rect::Rect;
use sr_box::span::Span;
use sr_cell::list::{NoMemory, Seq};
use sr_cell::table::{Column, Kind, Table};
use sr_cell::text::Text;
use sr_script::line::TraceLine;
use sr_script::text::trace_text;
use sr_union::rects::Rects;
use std::alloc::Global;

/// The list of these items.
pub fn list_of<T: Drop, const N: usize>(alloc: Global, items: [T; N]) -> Result<Seq<T>, NoMemory>
    ensures { IfOk result (λ list. list ≡ items) }
{
    Ok(Seq::from_vec(Vec::from_array(alloc, items)?))
}

fn rect_with(alloc: Global, spans: Seq<Span>) -> Result<Rect, NoMemory>
    ensures { IfOk result (λ rect. rect ≡ spans) }
{
    let mut rect = Rect::new(alloc);
    for span in spans.into_vec() {
        rect.push(span)?;
    }
    Ok(rect)
}

/// The rect of these spans.
pub fn rect_of<const N: usize>(alloc: Global, spans: [Span; N]) -> Result<Rect, NoMemory>
    ensures { IfOk result (λ rect. rect ≡ spans.entry) }
{
    rect_with(alloc, list_of(alloc, spans)?)
}

/// The rect of these spans, alone.
pub fn rects_of<const N: usize>(alloc: Global, spans: [Span; N]) -> Result<Rects, NoMemory>
    ensures { IfOk result (λ rects. rects ≡ spans.entry ∷ []) }
{
    let rect = rect_of(alloc, spans)?;
    let mut rects = Rects::new(alloc);
    rects.push(rect).and(Ok(rects))
}

/// A column of the numbers up to `hi`.
pub fn column(alloc: Global, name: &str, hi: i64) -> Result<Column, NoMemory>
    ensures { IfOk result (λ column. (column.kind ≡ Numbers) × (column.lo ≡ pos 0) × (column.hi ≡ hi) × (column.nullable ≡ false)) }
{
    Ok(Column {
        name: Text::of(alloc, name)?,
        kind: Kind::Num,
        lo: 0,
        hi,
        nullable: false,
    })
}

/// A table whose key is its first column.
pub fn table_of<const N: usize>(
    alloc: Global,
    name: &str,
    columns: [Column; N],
) -> Result<Table, NoMemory>
    ensures columns { IfOk result (λ table. table.columns ≡ columns.entry) }
    ensures key { IfOk result (λ table. table.key ≡ 0) }
{
    let columns = list_of(alloc, columns)?;
    Ok(Table {
        name: Text::of(alloc, name)?,
        columns,
        key: 0,
    })
}

/// A table of two columns.
pub fn people(alloc: Global) -> Result<Table, NoMemory> {
    let id = column(alloc, "id", 99)?;
    let age = column(alloc, "age", 99)?;
    table_of(alloc, "emp", [id, age])
}

/// The points of a table of two columns, the second in a range.
pub fn ages(alloc: Global, lo: i64, hi: i64) -> Result<Rects, NoMemory>
    ensures { IfOk result (λ rects. rects ≡ (Full ∷ Nums lo hi ∷ []) ∷ []) }
{
    rects_of(alloc, [Span::Full, Span::Nums { lo, hi }])
}

/// Whether a trace has that text for the line, at that line of its script.
fn is_printed(
    alloc: Global,
    schema: &[Table],
    number: u64,
    line: &TraceLine,
    printed: &str,
) -> Result<bool, NoMemory> {
    let text = trace_text(alloc, schema, number, line)?;
    Ok(text.as_str() == printed)
}

/// The first of these texts that is not the one of its line, at that line of a script.
pub fn other_text<'a>(
    alloc: Global,
    schema: &[Table],
    number: u64,
    lines: &[(TraceLine, &'a str)],
) -> Result<Option<&'a str>, NoMemory> {
    for (line, printed) in lines {
        if !is_printed(alloc, schema, number, line, printed)? {
            return Ok(Some(printed));
        }
    }
    Ok(None)
}
