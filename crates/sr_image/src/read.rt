//! Images, read from bytes.
ghost use Rattle.std.specs.Prelude.{◌≡◌, ◌+◌, ◌-◌, ◌≤◌, ◌^◌, nat_lt, List, [], length, drop, IfOk};
ghost use Rattle.sr_cell.specs.declared.table.Table.{Table as TheTable};
ghost use Rattle.sr_bytes.specs.Reading.{passing};
ghost use Rattle.sr_cell.specs.Columns.{table_at};
ghost use Rattle.sr_bytes.specs.Views.{Reads};
ghost use Rattle.sr_image.specs.declared.image.ImageFault.TheVariants.{Field};
ghost use Rattle.sr_image.specs.Found.{Answers, ReadsOr};
ghost use Rattle.sr_image.specs.Reading.{a_head, a_kept, an_image, are_alike, behind_texts, count_rects, each_behind, finished, head_of, image_in, is_before, is_behind, kept_behind, length_in, may_head, some_texts};
ghost use Rattle.sr_image.specs.Spelling.{creates, magic};

use crate::image::{Head, Image, ImageFault};
use crate::rects::{Place, some_rects};
use crate::rows::{RowPlace, some_rows};
use crate::texts::{are_same, read_texts, texts_of};
use crate::write::MAGIC;
use sr_bytes::cursor::{BadField, Cursor};
use sr_cell::attrs::Attrs;
use sr_cell::list::No;
use sr_cell::schema::Schema;
use sr_cell::table::Table;
use sr_store::start::{Kept, Kepts};
use std::alloc::Global;

/// The most parts of an image.
const PARTS: u32 = 1024;

/// The number of the last column that a table may have, as a set.
const ALL_COLUMNS: u16 = 4095;

/// How many bytes stand before the texts.
const FRONT: usize = 16;

/// The fewest bytes of an image.
const LEAST: u64 = 29;

fn read_head<'a>(bytes: &mut Cursor<'a>) -> Result<Head, BadField>
    ensures { Reads (λ head. head) result bytes.new (a_head bytes.old) }
{
    let table = bytes.byte()?;
    let attrs = bytes.u16_in(0, ALL_COLUMNS)?;
    Ok(Head {
        table,
        attrs: Attrs(attrs),
    })
}

fn is_before(head: &Head, other: &Head) -> bool
    ensures { result ≡ is_before head.now other.now }
{
    head.table < other.table || (head.table == other.table && head.attrs.0 < other.attrs.0)
}

fn head_of(kept: &Kept) -> Head
    ensures { result ≡ head_of kept.now }
{
    Head {
        table: kept.table,
        attrs: kept.attrs,
    }
}

/// Whether the part stands behind the last of these.
fn is_behind(before: &[Kept], head: &Head) -> bool
    ensures { result ≡ is_behind before.now head.now }
{
    match before {
        [] => true,
        [.., last] => is_before(&head_of(last), head),
    }
}

/// Whether all are columns of the table.
fn are_columns(table: &Table, attrs: Attrs) -> bool
    ensures { result ≡ nat_lt attrs (2 ^ length table.now.columns) }
{
    let columns = table.columns.len();
    columns >= 16 || (attrs.0 as u32) < 1 << columns
}

fn may_head(schema: &Schema, before: &[Kept], head: &Head) -> bool
    ensures { result ≡ may_head schema.now before.now head.now }
{
    match schema.get(head.table as usize) {
        Some(table) => {
            are_columns(table, head.attrs)
                && head.attrs.has_index(table.key as usize)
                && is_behind(before, head)
        }
        None => false,
    }
}

/// The head of a part that stands behind those.
fn next_head<'a>(bytes: &mut Cursor<'a>, schema: &Schema, before: &[Kept]) -> Result<Head, BadField>
    ensures { Reads (λ head. head) result bytes.new (passing (may_head schema.now before.now) a_head bytes.old) }
{
    let at = bytes.left();
    let head = read_head(bytes)?;
    if may_head(schema, before, &head) {
        return Ok(head);
    }
    *bytes = Cursor::over(at);
    Err(BadField)
}

/// The rects and rows of a part, where the parts before have so many rects.
fn kept_behind<'a>(
    alloc: Global,
    bytes: &mut Cursor<'a>,
    table: &Table,
    head: Head,
    many: usize,
) -> Result<Kept, No<BadField>>
    requires { many ≤ 16384 }
    ensures read { (schema : List TheTable) → table_at schema head.table ≡ table.now → ReadsOr result bytes.new (kept_behind schema many head bytes.old) }
    ensures few { IfOk result (λ kept. many + length kept.rects ≤ 16384) }
{
    let part = Place {
        table,
        attrs: head.attrs,
        many,
    };
    let rects = some_rects(alloc, bytes, &part)?;
    let part = RowPlace {
        table,
        attrs: head.attrs,
        rects: rects.as_slice(),
    };
    let rows = some_rows(alloc, bytes, &part)?;
    Ok(Kept {
        table: head.table,
        attrs: head.attrs,
        rects,
        rows,
    })
}

/// A part that stands behind those, which have so many rects.
fn next_kept<'a>(
    alloc: Global,
    bytes: &mut Cursor<'a>,
    schema: &Schema,
    before: &[Kept],
    many: usize,
) -> Result<Kept, No<BadField>>
    requires many { many ≡ count_rects before.now }
    requires few { many ≤ 16384 }
    ensures read { ReadsOr result bytes.new (a_kept schema.now before.now bytes.old) }
    ensures few { IfOk result (λ kept. many + length kept.rects ≤ 16384) }
{
    let head = match next_head(bytes, schema, before) {
        Ok(head) => head,
        Err(bad) => return Err(No::Refused(bad)),
    };
    match schema.get(head.table as usize) {
        Some(table) => kept_behind(alloc, bytes, table, head, many),
        None => unreachable!(),
    }
}

fn each_kept<'a>(
    alloc: Global,
    bytes: &mut Cursor<'a>,
    schema: &Schema,
    count: u32,
) -> Result<Kepts, No<BadField>>
    ensures { ReadsOr result bytes.new (each_behind (a_kept schema.now) count [] bytes.old) }
{
    let mut kept = Kepts::new(alloc);
    let mut many = 0;
    for _ in 0..count {
        match next_kept(alloc, bytes, schema, kept.as_slice(), many) {
            Ok(part) => {
                many += part.rects.len();
                kept.push(part)?;
            }
            Err(no) => return Err(no),
        }
    }
    Ok(kept)
}

/// The version and the parts.
fn read_parts<'a>(
    alloc: Global,
    bytes: &mut Cursor<'a>,
    schema: &Schema,
) -> Result<Image, No<BadField>>
    ensures { ReadsOr result bytes.new (an_image schema.now bytes.old) }
{
    let version = match bytes.u64() {
        Ok(version) => version,
        Err(bad) => return Err(No::Refused(bad)),
    };
    match bytes.u32_in(0, PARTS) {
        Ok(count) => {
            let kept = each_kept(alloc, bytes, schema, count)?;
            Ok(Image { version, kept })
        }
        Err(bad) => Err(No::Refused(bad)),
    }
}

/// The fault of what the cursor stands before.
fn fault_at(bytes: &[u8], cursor: &Cursor) -> ImageFault
    ensures { result ≡ Field (length bytes.now - length cursor.now) }
{
    ImageFault::Field {
        place: bytes.len().saturating_sub(cursor.left().len()) as u64,
    }
}

/// What stands behind the texts, up to the end of the bytes.
fn finish<'a>(
    alloc: Global,
    bytes: &[u8],
    cursor: &mut Cursor<'a>,
    schema: &Schema,
) -> Result<Image, No<ImageFault>>
    ensures { Answers result (finished (length bytes.now) (an_image schema.now cursor.old)) }
{
    match read_parts(alloc, cursor, schema) {
        Ok(image) => {
            if cursor.left().is_empty() {
                return Ok(image);
            }
            Err(No::Refused(fault_at(bytes, cursor)))
        }
        Err(No::Refused(_)) => Err(No::Refused(fault_at(bytes, cursor))),
        Err(No::NoMemory) => Err(No::NoMemory),
    }
}

/// The texts of an image, and what stands behind them.
fn read_body(alloc: Global, schema: &Schema, bytes: &[u8]) -> Result<Image, No<ImageFault>>
    requires { 16 ≤ length bytes.now }
    ensures { Answers result (behind_texts schema.now (creates schema.now) (length bytes.now) (some_texts (drop 16 bytes.now))) }
{
    let (_, behind) = bytes.split_at(FRONT);
    let mut cursor = Cursor::over(behind);
    match read_texts(alloc, &mut cursor) {
        Ok(found) => {
            let texts = texts_of(alloc, schema)?;
            if are_same(found.as_slice(), texts.as_slice()) {
                return finish(alloc, bytes, &mut cursor, schema);
            }
            Err(No::Refused(ImageFault::Schema))
        }
        Err(No::Refused(_)) => Err(No::Refused(fault_at(bytes, &cursor))),
        Err(No::NoMemory) => Err(No::NoMemory),
    }
}

/// Whether the bytes that are there are those in front.
fn are_alike(front: &[u8], bytes: &[u8]) -> bool
    ensures { result ≡ are_alike front.now bytes.now }
{
    let mut left = bytes;
    for own in front {
        let [byte, rest @ ..] = left else {
            return true;
        };
        if *byte != *own {
            return false;
        }
        left = rest;
    }
    true
}

/// The length that an image says.
fn length_in(bytes: &[u8]) -> u64
    requires { 16 ≤ length bytes.now }
    ensures { result ≡ length_in bytes.now }
{
    u64::from_be_bytes([
        bytes[8], bytes[9], bytes[10], bytes[11], bytes[12], bytes[13], bytes[14], bytes[15],
    ])
}

/// The image that the bytes are, over that schema. Nothing is taken from them before it is checked, and no room is made by a
/// number that they say.
pub fn read_image(alloc: Global, schema: &Schema, bytes: &[u8]) -> Result<Image, No<ImageFault>>
    ensures { Answers result (image_in schema.now bytes.now) }
{
    if !are_alike(MAGIC, bytes) {
        return Err(No::Refused(ImageFault::Magic));
    }
    if bytes.len() < FRONT {
        return Err(No::Refused(ImageFault::Short));
    }
    let length = length_in(bytes);
    let size = bytes.len() as u64;
    if size < length {
        return Err(No::Refused(ImageFault::Short));
    }
    if length < LEAST {
        return Err(No::Refused(ImageFault::Field { place: 8 }));
    }
    if length < size {
        return Err(No::Refused(ImageFault::Left));
    }
    read_body(alloc, schema, bytes)
}
