//! Messages to be written as frames.
ghost use Rattle.std.specs.Prelude.{◌≡◌, ◌<◌, ◌≤◌, IsTrue, IfOk, length};
ghost use Rattle.sr_bytes.specs.Writing.{may_write_row, may_write_rows, may_write_rect, may_write_rects};
ghost use Rattle.sr_wire.specs.Limits.{IsSendable};

use crate::rects::Random;
use sr_box::rect::Rect;
use sr_box::span::Span;
use sr_cell::attrs::Attrs;
use sr_cell::cell::{Cell, Row, Rows};
use sr_cell::list::NoMemory;
use sr_cell::text::Text;
use sr_message::message::{AskPart, AskParts, Message, Tell, Told};
use sr_union::rects::Rects;
use std::alloc::Global;

/// A row of three numbers and a text.
fn row(alloc: Global, random: &mut Random) -> Result<Row, NoMemory>
    ensures { IfOk result (λ row. IsTrue (may_write_row row)) }
{
    let mut row = Row::new(alloc);
    row.push(Cell::Num(random.next() as i64))?;
    row.push(Cell::Num(random.next() as i64))?;
    row.push(Cell::Str(Text::of(alloc, "from north to south")?))?;
    row.push(Cell::Num(random.next() as i64))?;
    Ok(row)
}

fn rows(alloc: Global, random: &mut Random, count: usize) -> Result<Rows, NoMemory>
    requires low { 0 < count }
    requires high { count ≤ 256 }
    ensures { IfOk result (λ rows. IsTrue (may_write_rows rows)) }
{
    let mut rows = Rows::new(alloc);
    for _ in 0..count {
        rows.push(row(alloc, random)?)?;
    }
    Ok(rows)
}

/// A rect that constrains two columns of four.
fn rect(alloc: Global, random: &mut Random) -> Result<Rect, NoMemory>
    ensures { IfOk result (λ rect. IsTrue (may_write_rect rect)) }
{
    let mut rect = Rect::new(alloc);
    rect.push(random.span())?;
    rect.push(Span::Full)?;
    rect.push(random.span())?;
    rect.push(Span::Full)?;
    Ok(rect)
}

fn rects(alloc: Global, random: &mut Random, count: usize) -> Result<Rects, NoMemory>
    requires low { 0 < count }
    requires high { count ≤ 16384 }
    ensures may { IfOk result (λ rects. IsTrue (may_write_rects rects)) }
    ensures count { IfOk result (λ rects. length rects ≡ count) }
{
    let mut rects = Rects::new(alloc);
    for _ in 0..count {
        rects.push(rect(alloc, random)?)?;
    }
    Ok(rects)
}

/// So many rows of an answer.
pub fn answer(alloc: Global, random: &mut Random, count: usize) -> Result<Message, NoMemory>
    requires low { 0 < count }
    requires high { count ≤ 256 }
    ensures { IfOk result (λ message. IsSendable message) }
{
    let rows = rows(alloc, random, count)?;
    Ok(Message::Rows {
        number: 1,
        part: 0,
        rows,
    })
}

/// An ask of so many rects.
pub fn ask(alloc: Global, random: &mut Random, count: usize) -> Result<Message, NoMemory>
    requires low { 0 < count }
    requires high { count ≤ 16384 }
    ensures { IfOk result (λ message. IsSendable message) }
{
    let rects = rects(alloc, random, count)?;
    let mut parts = AskParts::new(alloc);
    parts.push(AskPart {
        table: 0,
        attrs: Attrs(5),
        rects,
    })?;
    Ok(Message::Ask {
        number: 1,
        fresh: false,
        parts,
    })
}

/// A key is gone, and another has a new row.
pub fn notice(alloc: Global, random: &mut Random) -> Result<Message, NoMemory>
    ensures { IfOk result (λ message. IsSendable message) }
{
    let mut told = Told::new(alloc);
    told.push(Tell {
        table: 0,
        key: Cell::Num(1),
        after: None,
    })?;
    told.push(Tell {
        table: 1,
        key: Cell::Num(2),
        after: Some(row(alloc, random)?),
    })?;
    Ok(Message::Notice { version: 3, told })
}

/// A session begins.
pub fn hello() -> Message
    ensures { IsSendable result }
{
    Message::Hello {
        wire: 2,
        client: 1,
        number: 0,
    }
}

/// A statement that writes.
pub fn write(alloc: Global) -> Result<Message, NoMemory>
    ensures { IfOk result (λ message. IsSendable message) }
{
    let sql = Text::of(alloc, "DELETE FROM emp")?;
    Ok(Message::Write { number: 1, sql })
}
