//! How fast frames are written and read, beside a copy of their bytes.
ghost use Rattle.sr_wire.specs.Limits.{IsSendable};

use sr_bytes::views::{CellView, RectView, RectsView, RowView, RowsView, SpanView};
use sr_cell::list::{Bytes, NoMemory, Seq};
use sr_message::message::Message;
use sr_wire::body::Body;
use sr_wire::encode::encode;
use sr_wire::frame::decode;
use sr_wire::views::AskPartsView;
use std::alloc::Global;

/// Copies each of the frames so many times, and adds up their last bytes.
pub fn copy_often(alloc: Global, frames: &Seq<Bytes>, times: u32) -> Result<u64, NoMemory> {
    let mut sum: u64 = 0;
    let mut copy = Bytes::new(alloc);
    for _time in 0..times {
        for frame in frames.as_slice() {
            copy.truncate(0);
            copy.extend(frame.as_slice())?;
            if let Some(last) = copy.as_slice().last() {
                sum = sum.wrapping_add(*last as u64);
            }
        }
    }
    Ok(sum)
}

/// Writes the message so many times, and adds up the sizes.
pub fn encode_often(alloc: Global, message: &Message, times: u32) -> Result<u64, NoMemory>
    requires { IsSendable message.now }
{
    let mut sum: u64 = 0;
    for _time in 0..times {
        sum = sum.wrapping_add(encode(alloc, message)?.len() as u64);
    }
    Ok(sum)
}

/// Decodes each of the frames so many times, and adds up their sizes.
pub fn decode_often(frames: &Seq<Bytes>, times: u32) -> u64 {
    let mut sum: u64 = 0;
    for _time in 0..times {
        for frame in frames.as_slice() {
            if let Ok(frame) = decode(frame.as_slice()) {
                sum = sum.wrapping_add(frame.size() as u64);
            }
        }
    }
    sum
}

/// Decodes and reads through each of the frames so many times, and adds up what is read.
pub fn read_often(frames: &Seq<Bytes>, times: u32) -> u64 {
    let mut sum: u64 = 0;
    for _time in 0..times {
        for frame in frames.as_slice() {
            if let Ok(frame) = decode(frame.as_slice()) {
                sum = sum.wrapping_add(sum_body(frame.body()));
            }
        }
    }
    sum
}

/// The sum of all numbers, and of the lengths of the texts, of rows or rects.
fn sum_body(body: Body<'_>) -> u64 {
    match body {
        Body::Rows { rows, .. } => sum_rows(rows),
        Body::Ask { parts, .. } => sum_parts(parts),
        _ => 0,
    }
}

fn sum_rows(mut rows: RowsView<'_>) -> u64 {
    let mut sum: u64 = 0;
    while let Some(row) = rows.next() {
        sum = sum.wrapping_add(sum_row(row));
    }
    sum
}

fn sum_row(mut row: RowView<'_>) -> u64 {
    let mut sum: u64 = 0;
    while let Some(cell) = row.next() {
        sum = sum.wrapping_add(match cell {
            CellView::Num(number) => number.unsigned_abs(),
            CellView::Str(text) => text.len() as u64,
            CellView::Null => 1,
        });
    }
    sum
}

fn sum_parts(mut parts: AskPartsView<'_>) -> u64 {
    let mut sum: u64 = 0;
    while let Some(part) = parts.next() {
        sum = sum.wrapping_add(sum_rects(part.rects));
    }
    sum
}

fn sum_rects(mut rects: RectsView<'_>) -> u64 {
    let mut sum: u64 = 0;
    while let Some(rect) = rects.next() {
        sum = sum.wrapping_add(sum_rect(rect));
    }
    sum
}

fn sum_rect(mut rect: RectView<'_>) -> u64 {
    let mut sum: u64 = 0;
    while let Some(span) = rect.next() {
        sum = sum.wrapping_add(match span {
            SpanView::Full | SpanView::Null => 1,
            SpanView::Nums { lo, hi } => lo.unsigned_abs().wrapping_add(hi.unsigned_abs()),
            SpanView::Strs { lo, .. } => lo.len() as u64,
        });
    }
    sum
}
