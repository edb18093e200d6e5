//! Cells, rows, spans and rects written as bytes behind others. Out of memory a part of them may have been written; what
//! stood there stands in front still.
#![tactic(auto, using(crate::proofs::Fronts::stays, crate::proofs::Fronts::stays_behind, crate::proofs::Fronts::stays_on))]

ghost use Rattle.std.specs.Prelude.{◌≡◌, ◌++◌, ◌<◌, ◌^◌, true, length, IsTrue, OnOk, OnErr};
ghost use Rattle.std.specs.Str.{is_utf8};
ghost use Rattle.sr_cell.specs.Columns.{are_bytes};
ghost use Rattle.sr_bytes.specs.Spelling.{number_bytes, long_bytes, count_bytes, short_count_bytes, text_bytes, cell_bytes, row_bytes, rows_bytes, span_bytes, rect_bytes, rects_bytes, has_cell_bytes, has_key_bytes, has_row_bytes, have_rows_bytes, has_span_bytes, has_rect_bytes, have_rects_bytes};
ghost use Rattle.sr_bytes.specs.Writing.{IsBehind, may_write_cell, may_write_key, may_write_row, may_write_rows, may_write_span, may_write_rect, may_write_rects};

use sr_box::rect::Rect;
use sr_box::span::Span;
use sr_cell::cell::{Cell, Row, Rows};
use sr_cell::list::{Bytes, NoMemory};
use sr_union::rects::Rects;

#[tactic(auto, unfolding(crate::specs::Spelling::number_bytes))]
fn push_number(out: &mut Bytes, number: i64) -> Result<(), NoMemory>
    ensures written { OnOk result (out.new ≡ out.old ++ number_bytes number) }
    ensures unchanged { OnErr result (out.new ≡ out.old) }
{
    out.extend(&number.to_be_bytes())
}

/// Puts a number of two bytes behind the others.
#[tactic(auto, unfolding(crate::specs::Spelling::short_count_bytes))]
pub fn push_short_count(out: &mut Bytes, count: u16) -> Result<(), NoMemory>
    ensures written { OnOk result (out.new ≡ out.old ++ short_count_bytes count) }
    ensures unchanged { OnErr result (out.new ≡ out.old) }
{
    out.extend(&count.to_be_bytes())
}

/// Puts a number of eight bytes behind the others.
#[tactic(auto, unfolding(crate::specs::Spelling::long_bytes))]
pub fn push_long(out: &mut Bytes, number: u64) -> Result<(), NoMemory>
    ensures written { OnOk result (out.new ≡ out.old ++ long_bytes number) }
    ensures unchanged { OnErr result (out.new ≡ out.old) }
{
    out.extend(&number.to_be_bytes())
}

/// Puts a number of four bytes behind the others.
#[tactic(auto, unfolding(crate::specs::Spelling::count_bytes))]
pub fn push_count(out: &mut Bytes, count: u32) -> Result<(), NoMemory>
    ensures written { OnOk result (out.new ≡ out.old ++ count_bytes count) }
    ensures unchanged { OnErr result (out.new ≡ out.old) }
{
    out.extend(&count.to_be_bytes())
}

fn push_text(out: &mut Bytes, text: &[u8]) -> Result<(), NoMemory>
    requires { length text.now < 256 }
    ensures written { OnOk result (out.new ≡ out.old ++ text_bytes text.now) }
    ensures bytes { are_bytes text.now ≡ true }
    ensures behind { OnErr result (IsBehind out.old out.new) }
{
    know_bytes(text);
    out.push(text.len() as u8)?;
    out.extend(text)
}

// Facts for the proofs of their callers: what the types give.

fn know_bytes(text: &[u8])
    ensures { are_bytes text.now ≡ true }
{}

/// A fact for the proofs of callers: a text is UTF-8.
pub fn know_utf8(text: &str)
    ensures { is_utf8 text.now ≡ true }
{}

/// Puts the bytes of a cell behind the others.
pub fn push_cell(out: &mut Bytes, cell: &Cell) -> Result<(), NoMemory>
    requires { IsTrue (may_write_cell cell.now) }
    ensures written { OnOk result (out.new ≡ out.old ++ cell_bytes cell.now) }
    ensures spelled { OnOk result (IsTrue (has_cell_bytes cell.now)) }
    ensures behind { OnErr result (IsBehind out.old out.new) }
{
    match cell {
        Cell::Num(number) => {
            out.push(0)?;
            push_number(out, *number)
        }
        Cell::Str(text) => {
            let text = text.as_str();
            know_utf8(text);
            out.push(1)?;
            push_text(out, text.as_bytes())
        }
        Cell::Null => out.push(2),
    }
}

/// Puts the bytes of a key, which is never Null, behind the others.
pub fn push_key(out: &mut Bytes, key: &Cell) -> Result<(), NoMemory>
    requires { IsTrue (may_write_key key.now) }
    ensures written { OnOk result (out.new ≡ out.old ++ cell_bytes key.now) }
    ensures spelled { OnOk result (IsTrue (has_key_bytes key.now)) }
    ensures behind { OnErr result (IsBehind out.old out.new) }
{
    push_cell(out, key)
}

/// Puts the bytes of a row behind the others.
pub fn push_row(out: &mut Bytes, row: &Row) -> Result<(), NoMemory>
    requires { IsTrue (may_write_row row.now) }
    ensures written { OnOk result (out.new ≡ out.old ++ row_bytes row.now) }
    ensures spelled { OnOk result (IsTrue (has_row_bytes row.now)) }
    ensures behind { OnErr result (IsBehind out.old out.new) }
{
    out.push(row.len() as u8)?;
    for cell in row.as_slice() {
        push_cell(out, cell)?;
    }
    Ok(())
}

/// Puts the bytes of a list of rows behind the others.
pub fn push_rows(out: &mut Bytes, rows: &Rows) -> Result<(), NoMemory>
    requires { IsTrue (may_write_rows rows.now) }
    ensures written { OnOk result (out.new ≡ out.old ++ rows_bytes rows.now) }
    ensures spelled { OnOk result (IsTrue (have_rows_bytes rows.now)) }
    ensures behind { OnErr result (IsBehind out.old out.new) }
{
    push_short_count(out, rows.len() as u16)?;
    for row in rows.as_slice() {
        push_row(out, row)?;
    }
    Ok(())
}

/// Puts the bytes of a span behind the others.
pub fn push_span(out: &mut Bytes, span: &Span) -> Result<(), NoMemory>
    requires { IsTrue (may_write_span span.now) }
    ensures written { OnOk result (out.new ≡ out.old ++ span_bytes span.now) }
    ensures spelled { OnOk result (IsTrue (has_span_bytes span.now)) }
    ensures behind { OnErr result (IsBehind out.old out.new) }
{
    match span {
        Span::Full => out.push(0),
        Span::Nums { lo, hi } => {
            out.push(1)?;
            push_number(out, *lo)?;
            push_number(out, *hi)
        }
        Span::Strs { lo, hi: Some(hi) } => {
            out.push(2)?;
            push_text(out, lo.as_slice())?;
            push_text(out, hi.as_slice())
        }
        Span::Strs { lo, hi: None } => {
            out.push(3)?;
            push_text(out, lo.as_slice())
        }
        Span::Null => out.push(4),
    }
}

/// Puts the bytes of a rect behind the others.
pub fn push_rect(out: &mut Bytes, rect: &Rect) -> Result<(), NoMemory>
    requires { IsTrue (may_write_rect rect.now) }
    ensures written { OnOk result (out.new ≡ out.old ++ rect_bytes rect.now) }
    ensures spelled { OnOk result (IsTrue (has_rect_bytes rect.now)) }
    ensures behind { OnErr result (IsBehind out.old out.new) }
{
    out.push(rect.len() as u8)?;
    for span in rect.as_slice() {
        push_span(out, span)?;
    }
    Ok(())
}

/// Puts the bytes of a list of rects behind the others.
pub fn push_rects(out: &mut Bytes, rects: &Rects) -> Result<(), NoMemory>
    requires { IsTrue (may_write_rects rects.now) }
    ensures written { OnOk result (out.new ≡ out.old ++ rects_bytes rects.now) }
    ensures spelled { OnOk result (IsTrue (have_rects_bytes rects.now)) }
    ensures behind { OnErr result (IsBehind out.old out.new) }
{
    push_count(out, rects.len() as u32)?;
    for rect in rects.as_slice() {
        push_rect(out, rect)?;
    }
    Ok(())
}
