//! Printed names, sets of columns, and rects.
ghost use Rattle.std.specs.Prelude.{◌≡◌, ◌++◌, ℕ, List, OnOk, codes, string_bytes};
ghost use Rattle.sr_lines.specs.Texts.{joined, number_text, bytes_text};
ghost use Rattle.sr_cell.specs.Columns.{table_at};
ghost use Rattle.sr_script.specs.TraceText.{name_of, attrs_text, bound_text, names_from, span_text, spans_text, rect_text, rects_text};

use crate::cells::push_bytes;
use sr_box::rect::Rect;
use sr_box::span::Span;
use sr_cell::attrs::Attrs;
use sr_cell::list::{Bytes, NoMemory};
use sr_cell::table::{Column, Table};
use std::fmt::Write;

/// The name of the table of that number; empty where there is none.
pub fn name_at(schema: &[Table], table: u8) -> &str
    ensures { result.now ≡ name_of schema.now table }
{
    match schema.get(table as usize) {
        Some(table) => table.name.as_str(),
        None => "",
    }
}

/// The columns of the table of that number; none where there is no such table.
pub fn columns_at(schema: &[Table], table: u8) -> &[Column]
    ensures { result.now ≡ (table_at schema.now table).columns }
{
    match schema.get(table as usize) {
        Some(table) => table.columns.as_slice(),
        None => &[],
    }
}

/// Appends the names of the columns of a set, in parentheses.
pub fn push_attrs(text: &mut String, columns: &[Column], attrs: Attrs) -> Result<(), NoMemory>
    ensures { OnOk result (string_bytes text.new ≡ string_bytes text.old ++ attrs_text columns.now attrs) }
{
    text.push('(')?;
    push_names(text, columns, attrs)?;
    text.push(')')?;
    Ok(())
}

#[tactic(auto, using(crate::proofs::Separated::joined_behind))]
fn push_names(text: &mut String, columns: &[Column], attrs: Attrs) -> Result<(), NoMemory>
    ensures { OnOk result (string_bytes text.new ≡ string_bytes text.old ++ joined (codes ",") (names_from 0 attrs columns.now)) }
{
    let mut separator = "";
    for (i, column) in columns.iter().enumerate() {
        if !attrs.has_index(i) {
            continue;
        }
        text.push_str(separator)?;
        text.push_str(column.name.as_str())?;
        separator = ",";
    }
    Ok(())
}

/// Appends rects, with a blank between two.
#[tactic(auto, using(crate::proofs::Separated::joined_behind))]
pub fn push_rects(text: &mut String, columns: &[Column], rects: &[Rect]) -> Result<(), NoMemory>
    ensures { OnOk result (string_bytes text.new ≡ string_bytes text.old ++ rects_text columns.now rects.now) }
{
    let mut separator = "";
    for rect in rects {
        text.push_str(separator)?;
        push_rect(text, columns, rect)?;
        separator = " ";
    }
    Ok(())
}

/// Appends a rect: the spans of the columns that it constrains, in braces.
pub fn push_rect(text: &mut String, columns: &[Column], rect: &Rect) -> Result<(), NoMemory>
    ensures { OnOk result (string_bytes text.new ≡ string_bytes text.old ++ rect_text columns.now rect.now) }
{
    text.push('{')?;
    push_spans(text, columns, rect.as_slice())?;
    text.push('}')?;
    Ok(())
}

#[tactic(auto, using(crate::proofs::Separated::joined_behind))]
fn push_spans(text: &mut String, columns: &[Column], spans: &[Span]) -> Result<(), NoMemory>
    ensures { OnOk result (string_bytes text.new ≡ string_bytes text.old ++ joined (codes ", ") (spans_text columns.now spans.now)) }
{
    let mut separator = "";
    for i in 0..columns.len().min(spans.len()) {
        let column = &columns[i];
        let span = &spans[i];
        if let Span::Full = span {
            continue;
        }
        text.push_str(separator)?;
        push_span(text, column, span)?;
        separator = ", ";
    }
    Ok(())
}

/// Appends a column's name and the ends of its span, or null; nothing where the span is full.
fn push_span(text: &mut String, column: &Column, span: &Span) -> Result<(), NoMemory>
    ensures { OnOk result (string_bytes text.new ≡ string_bytes text.old ++ joined (codes ", ") (span_text column.now span.now)) }
{
    match span {
        Span::Full => Ok(()),
        Span::Nums { lo, hi } => push_numbers(text, column.name.as_str(), *lo, *hi),
        Span::Strs { lo, hi } => push_texts(text, column.name.as_str(), lo, hi),
        Span::Null => push_null(text, column.name.as_str()),
    }
}

fn push_numbers(text: &mut String, name: &str, lo: i64, hi: i64) -> Result<(), NoMemory>
    ensures { OnOk result (string_bytes text.new ≡ string_bytes text.old ++ (name.now ++ (codes " " ++ (number_text lo ++ (codes ".." ++ number_text hi))))) }
{
    write!(text, "{name} {lo}..{hi}")?;
    Ok(())
}

fn push_texts(text: &mut String, name: &str, lo: &Bytes, hi: &Option<Bytes>) -> Result<(), NoMemory>
    ensures { OnOk result (string_bytes text.new
        ≡ string_bytes text.old ++ (name.now ++ (codes " " ++ (bytes_text lo.now ++ (codes ".." ++ bound_text hi.now))))) }
{
    text.push_str(name)?;
    text.push(' ')?;
    push_bytes(text, lo.as_slice())?;
    text.push_str("..")?;
    match hi {
        None => Ok(()),
        Some(hi) => push_bytes(text, hi.as_slice()),
    }
}

fn push_null(text: &mut String, name: &str) -> Result<(), NoMemory>
    ensures { OnOk result (string_bytes text.new ≡ string_bytes text.old ++ (name.now ++ (codes " " ++ codes "null"))) }
{
    write!(text, "{name} null")?;
    Ok(())
}
