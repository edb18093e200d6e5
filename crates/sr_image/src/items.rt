//! A rect or a row by itself, as bytes.
ghost use Rattle.std.specs.Prelude.{◌≡◌, ◌≤◌, ◌-◌, length, drop, IsTrue, IfOk};
ghost use Rattle.sr_bytes.specs.Reading.{a_rect, a_row};
ghost use Rattle.sr_bytes.specs.Spelling.{rect_bytes, row_bytes};
ghost use Rattle.sr_bytes.specs.Writing.{may_write_rect, may_write_row};
ghost use Rattle.sr_image.specs.Found.{Answers};
ghost use Rattle.sr_image.specs.Items.{rect_from, row_from};

use sr_box::rect::Rect;
use sr_bytes::cursor::Cursor;
use sr_bytes::write::{push_rect, push_row};
use sr_cell::cell::Row;
use sr_cell::list::{Bytes, No, NoMemory, Seq};
use std::alloc::Global;

/// No such item stands there. The first byte at fault is at that place, counted from where the item was to begin.
#[derive(Clone, Copy, Debug, PartialEq, Eq)]
pub struct BadItem {
    pub place: u64,
}

/// A rect, and where the bytes behind it begin.
#[derive(Drop)]
pub struct RectAt {
    pub rect: Rect,
    pub next: usize,
}

/// A row, and where the bytes behind it begin.
#[derive(Drop)]
pub struct RowAt {
    pub row: Row,
    pub next: usize,
}

/// The bytes of a rect.
pub fn spell_rect(alloc: Global, rect: &Rect) -> Result<Bytes, NoMemory>
    requires { IsTrue (may_write_rect rect.now) }
    ensures { IfOk result (λ bytes. bytes ≡ rect_bytes rect.now) }
{
    let mut bytes = Seq::new(alloc);
    push_rect(&mut bytes, rect)?;
    Ok(bytes)
}

/// The bytes of a row.
pub fn spell_row(alloc: Global, row: &Row) -> Result<Bytes, NoMemory>
    requires { IsTrue (may_write_row row.now) }
    ensures { IfOk result (λ bytes. bytes ≡ row_bytes row.now) }
{
    let mut bytes = Seq::new(alloc);
    push_row(&mut bytes, row)?;
    Ok(bytes)
}

/// The rect whose bytes begin at that place.
pub fn rect_at(alloc: Global, bytes: &[u8], from: usize) -> Result<RectAt, No<BadItem>>
    requires { from ≤ length bytes.now }
    ensures { Answers result (rect_from bytes.now from) }
{
    let mut cursor = Cursor::over(&bytes[from..]);
    match cursor.rect() {
        Ok(view) => {
            let rect = view.to_rect(alloc)?;
            let next = bytes.len().saturating_sub(cursor.left().len());
            Ok(RectAt { rect, next })
        }
        Err(_) => {
            let place = bytes
                .len()
                .saturating_sub(cursor.left().len())
                .saturating_sub(from);
            Err(No::Refused(BadItem {
                place: place as u64,
            }))
        }
    }
}

/// The row whose bytes begin at that place.
pub fn row_at(alloc: Global, bytes: &[u8], from: usize) -> Result<RowAt, No<BadItem>>
    requires { from ≤ length bytes.now }
    ensures { Answers result (row_from bytes.now from) }
{
    let mut cursor = Cursor::over(&bytes[from..]);
    match cursor.row() {
        Ok(view) => {
            let row = view.to_row(alloc)?;
            let next = bytes.len().saturating_sub(cursor.left().len());
            Ok(RowAt { row, next })
        }
        Err(_) => {
            let place = bytes
                .len()
                .saturating_sub(cursor.left().len())
                .saturating_sub(from);
            Err(No::Refused(BadItem {
                place: place as u64,
            }))
        }
    }
}
