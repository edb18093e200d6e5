//! What is written of a join.
ghost use Rattle.std.specs.Prelude.{◌≡◌, ◌++◌, flat_map, IfOk, OnOk, string_bytes};
ghost use Rattle.sr_keyset.specs.Told.{head_text, row_text, semi_text};

use sr_cell::cell::Rows;
use sr_cell::list::NoMemory;
use sr_script::line::TraceLine;
use sr_script::text::push_line;
use std::alloc::Global;
use std::fmt::Write;

/// What a line's join came to: the version of its rows, and how many keys were asked.
#[derive(Clone, Copy)]
pub(crate) struct Join {
    pub number: u64,
    pub client: u8,
    pub keys: u32,
    pub version: u64,
}

/// Writes whose join it is, how many keys were asked, the version, and how many rows there are.
fn push_head(text: &mut String, join: Join, rows: usize) -> Result<(), NoMemory>
    ensures { OnOk result (string_bytes text.new ≡ string_bytes text.old ++ head_text join.number join.client join.keys join.version rows) }
{
    let Join {
        number,
        client,
        keys,
        version,
    } = join;
    write!(
        text,
        "{number} semi {client} keys {keys} {version} {rows}\n"
    )?;
    Ok(())
}

/// Writes a line for each row.
fn push_rows(text: &mut String, number: u64, rows: Rows) -> Result<(), NoMemory>
    ensures { OnOk result (string_bytes text.new ≡ string_bytes text.old ++ flat_map (row_text number) rows) }
{
    for row in rows.into_vec() {
        push_line(text, &[], number, &TraceLine::Row { row })?;
    }
    Ok(())
}

/// The lines of a join.
pub(crate) fn semi_text(alloc: Global, join: Join, rows: Rows) -> Result<String, NoMemory>
    ensures { IfOk result (λ text. string_bytes text ≡ semi_text join.number join.client join.keys join.version rows) }
{
    let mut text = String::new(alloc);
    push_head(&mut text, join, rows.len())?;
    push_rows(&mut text, join.number, rows)?;
    Ok(text)
}
