//! The CREATE texts of a schema: printed, and read from an image.
ghost use Rattle.std.specs.Prelude.{◌≡◌, [], IfOk};
ghost use Rattle.sr_grammar.specs.Spaced.{printed};
ghost use Rattle.sr_grammar.specs.Trees.{Create};
ghost use Rattle.sr_image.specs.Found.{ReadsOr};
ghost use Rattle.sr_image.specs.Reading.{a_long_text, each_behind, same_texts, some_texts};
ghost use Rattle.sr_image.specs.Spelling.{creates};

use sr_bytes::cursor::{BadField, Cursor};
use sr_cell::list::{Bytes, Copied, No, NoMemory, Seq};
use sr_cell::schema::Schema;
use sr_cell::table::Table;
use sr_cell::text::Text;
use sr_grammar::statement::Statement;
use sr_print::print::print;
use std::alloc::Global;

/// The most tables of a schema.
const TABLES: u8 = 16;

fn create_text(alloc: Global, table: &Table) -> Result<Text, NoMemory>
    ensures { IfOk result (λ text. text ≡ printed (Create table.now)) }
{
    print(alloc, &Statement::Create(table.copy(alloc)?))
}

/// The printed CREATE of each table.
pub(crate) fn texts_of(alloc: Global, schema: &Schema) -> Result<Seq<Text>, NoMemory>
    ensures { IfOk result (λ texts. texts ≡ creates schema.now) }
{
    let mut texts = Seq::new(alloc);
    let tables = schema.as_slice();
    for table in tables {
        texts.push(create_text(alloc, table)?)?;
    }
    Ok(texts)
}

/// A text behind its length.
fn read_text<'a>(alloc: Global, bytes: &mut Cursor<'a>) -> Result<Bytes, No<BadField>>
    ensures { ReadsOr result bytes.new (a_long_text bytes.old) }
{
    let length = match bytes.u32() {
        Ok(length) => length,
        Err(bad) => return Err(No::Refused(bad)),
    };
    let left = bytes.left();
    if left.len() < length as usize {
        return Err(No::Refused(BadField));
    }
    let (front, rest) = left.split_at(length as usize);
    let mut text = Seq::new(alloc);
    text.extend(front)?;
    *bytes = Cursor::over(rest);
    Ok(text)
}

fn read_each<'a>(
    alloc: Global,
    bytes: &mut Cursor<'a>,
    count: u8,
) -> Result<Seq<Bytes>, No<BadField>>
    ensures { ReadsOr result bytes.new (each_behind (λ before. a_long_text) count [] bytes.old) }
{
    let mut texts = Seq::new(alloc);
    for _ in 0..count {
        match read_text(alloc, bytes) {
            Ok(text) => texts.push(text)?,
            Err(no) => return Err(no),
        }
    }
    Ok(texts)
}

/// The texts behind their number.
pub(crate) fn read_texts<'a>(
    alloc: Global,
    bytes: &mut Cursor<'a>,
) -> Result<Seq<Bytes>, No<BadField>>
    ensures { ReadsOr result bytes.new (some_texts bytes.old) }
{
    match bytes.byte_in(0, TABLES) {
        Ok(count) => read_each(alloc, bytes, count),
        Err(bad) => Err(No::Refused(bad)),
    }
}

/// Whether both are the same texts.
pub(crate) fn are_same(found: &[Bytes], texts: &[Text]) -> bool
    ensures { result ≡ same_texts found.now texts.now }
{
    if found.len() != texts.len() {
        return false;
    }
    for i in 0..found.len() {
        if found[i].as_slice() != texts[i].as_str().as_bytes() {
            return false;
        }
    }
    true
}
