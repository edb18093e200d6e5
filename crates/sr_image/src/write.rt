//! Images as bytes.
ghost use Rattle.std.specs.Prelude.{◌≡◌, ◌++◌, ◌<◌, ◌^◌, nat_lt, length, flat_map, IsTrue, IfOk, OnOk};
ghost use Rattle.std.specs.List.{list_all};
ghost use Rattle.sr_bytes.specs.Spelling.{row_bytes};
ghost use Rattle.sr_bytes.specs.Writing.{may_write_row};
ghost use Rattle.sr_image.specs.Spelling.{all_rows_bytes, body_bytes, bytes_over, creates, image_bytes, kept_bytes, long_text_bytes, texts_bytes};
ghost use Rattle.sr_image.specs.Writing.{are_short, may_write_image, may_write_kept, may_write_schema};

use crate::image::Image;
use crate::texts::texts_of;
use sr_bytes::write::{push_count, push_long, push_rects, push_row, push_short_count};
use sr_cell::cell::Row;
use sr_cell::list::{Bytes, NoMemory, Seq};
use sr_cell::schema::Schema;
use sr_cell::text::Text;
use sr_store::start::Kept;
use std::alloc::Global;

/// The bytes that every image begins with.
pub(crate) const MAGIC: &[u8; 8] = b"SRIMAGE1";

fn push_text(out: &mut Bytes, text: &[u8]) -> Result<(), NoMemory>
    requires { length text.now < 2 ^ 32 }
    ensures { OnOk result (out.new ≡ out.old ++ long_text_bytes text.now) }
{
    push_count(out, text.len() as u32)?;
    out.extend(text)
}

fn push_texts(out: &mut Bytes, texts: &[Text]) -> Result<(), NoMemory>
    requires { IsTrue (are_short texts.now) }
    ensures { OnOk result (out.new ≡ out.old ++ texts_bytes texts.now) }
{
    out.push(texts.len() as u8)?;
    for text in texts {
        push_text(out, text.as_str().as_bytes())?;
    }
    Ok(())
}

fn push_each(out: &mut Bytes, rows: &[Row]) -> Result<(), NoMemory>
    requires { IsTrue (list_all may_write_row rows.now) }
    ensures { OnOk result (out.new ≡ out.old ++ flat_map row_bytes rows.now) }
{
    for row in rows {
        push_row(out, row)?;
    }
    Ok(())
}

fn push_kept(out: &mut Bytes, kept: &Kept) -> Result<(), NoMemory>
    requires { IsTrue (may_write_kept kept.now) }
    ensures { OnOk result (out.new ≡ out.old ++ kept_bytes kept.now) }
{
    out.push(kept.table)?;
    push_short_count(out, kept.attrs.0)?;
    push_rects(out, &kept.rects)?;
    push_count(out, kept.rows.len() as u32)?;
    push_each(out, kept.rows.as_slice())
}

fn push_parts(out: &mut Bytes, parts: &[Kept]) -> Result<(), NoMemory>
    requires { IsTrue (list_all may_write_kept parts.now) }
    ensures { OnOk result (out.new ≡ out.old ++ flat_map kept_bytes parts.now) }
{
    for kept in parts {
        push_kept(out, kept)?;
    }
    Ok(())
}

/// What stands behind the length of an image.
fn body(alloc: Global, texts: &[Text], image: &Image) -> Result<Bytes, NoMemory>
    requires texts { IsTrue (are_short texts.now) }
    requires parts { IsTrue (may_write_image image.now) }
    ensures { IfOk result (λ bytes. bytes ≡ body_bytes texts.now image.now) }
{
    let mut out = Seq::new(alloc);
    push_texts(&mut out, texts)?;
    push_long(&mut out, image.version)?;
    push_count(&mut out, image.kept.len() as u32)?;
    push_parts(&mut out, image.kept.as_slice())?;
    Ok(out)
}

/// The bytes of an image of a client over that schema.
pub fn write_image(alloc: Global, schema: &Schema, image: &Image) -> Result<Bytes, NoMemory>
    requires schema { IsTrue (may_write_schema schema.now) }
    requires parts { IsTrue (may_write_image image.now) }
    ensures { IfOk result (λ bytes. bytes ≡ image_bytes schema.now image.now) }
{
    let texts = texts_of(alloc, schema)?;
    let body = body(alloc, texts.as_slice(), image)?;
    let mut out = Seq::new(alloc);
    out.extend(MAGIC)?;
    push_long(&mut out, body.len() as u64 + 16)?;
    out.append(body)?;
    Ok(out)
}

/// Whether the printed CREATEs of a schema may be written: each of them has fewer than 2^32 bytes.
pub fn may_write(alloc: Global, schema: &Schema) -> Result<bool, NoMemory>
    ensures { IfOk result (λ may. may ≡ may_write_schema schema.now) }
{
    let texts = texts_of(alloc, schema)?;
    Ok(are_short(texts.as_slice()))
}

fn are_short(texts: &[Text]) -> bool
    ensures { result ≡ are_short texts.now }
{
    texts.len() <= 16 && each_short(texts)
}

fn each_short(texts: &[Text]) -> bool
    ensures { result ≡ list_all (λ text. nat_lt (length text) (2 ^ 32)) texts.now }
{
    for text in texts {
        if text.as_str().len() as u64 >= 0x1_0000_0000 {
            return false;
        }
    }
    true
}
