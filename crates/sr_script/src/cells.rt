//! Printed numbers, texts, cells and rows.
ghost use Rattle.std.specs.Prelude.{◌≡◌, ◌++◌, ◌<◌, ℕ, List, IsTrue, OnOk, codes, map, string_bytes};
ghost use Rattle.std.specs.List.{list_all};
ghost use Rattle.sr_lines.specs.Texts.{joined, number_text, quoted_byte, quoted, hex_byte, hexadecimal, is_printable, bytes_text, cell_text};

use sr_cell::cell::Cell;
use sr_cell::list::NoMemory;
use std::fmt::Write;

/// Appends a number, in decimal.
pub fn push_number(text: &mut String, number: i64) -> Result<(), NoMemory>
    ensures { OnOk result (string_bytes text.new ≡ string_bytes text.old ++ number_text number) }
{
    write!(text, "{number}")?;
    Ok(())
}

/// Appends bytes: in quotes where each is printable, else in hexadecimal.
pub fn push_bytes(text: &mut String, bytes: &[u8]) -> Result<(), NoMemory>
    ensures { OnOk result (string_bytes text.new ≡ string_bytes text.old ++ bytes_text bytes.now) }
{
    if are_printable(bytes) {
        push_quoted(text, bytes)
    } else {
        push_hexadecimal(text, bytes)
    }
}

fn are_printable(bytes: &[u8]) -> bool
    ensures { result ≡ list_all is_printable bytes.now }
{
    bytes.iter().all(|byte| 32 <= *byte && *byte <= 126)
}

fn push_quoted(text: &mut String, bytes: &[u8]) -> Result<(), NoMemory>
    requires { IsTrue (list_all is_printable bytes.now) }
    ensures { OnOk result (string_bytes text.new ≡ string_bytes text.old ++ quoted bytes.now) }
{
    text.push('\'')?;
    for byte in bytes {
        push_quoted_byte(text, *byte)?;
    }
    text.push('\'')?;
    Ok(())
}

fn push_quoted_byte(text: &mut String, byte: u8) -> Result<(), NoMemory>
    requires { byte < 128 }
    ensures { OnOk result (string_bytes text.new ≡ string_bytes text.old ++ quoted_byte byte) }
{
    if byte == b'\'' {
        text.push_str("''")?;
    } else {
        text.push(byte as char)?;
    }
    Ok(())
}

fn push_hexadecimal(text: &mut String, bytes: &[u8]) -> Result<(), NoMemory>
    ensures { OnOk result (string_bytes text.new ≡ string_bytes text.old ++ hexadecimal bytes.now) }
{
    text.push_str("x'")?;
    for byte in bytes {
        push_hex_byte(text, *byte)?;
    }
    text.push('\'')?;
    Ok(())
}

#[tactic(auto, using(crate::proofs::Bytes::hex_byte_printed))]
fn push_hex_byte(text: &mut String, byte: u8) -> Result<(), NoMemory>
    ensures { OnOk result (string_bytes text.new ≡ string_bytes text.old ++ hex_byte byte) }
{
    write!(text, "{byte:02x}")?;
    Ok(())
}

/// Appends a cell.
pub fn push_cell(text: &mut String, cell: &Cell) -> Result<(), NoMemory>
    ensures { OnOk result (string_bytes text.new ≡ string_bytes text.old ++ cell_text cell.now) }
{
    match cell {
        Cell::Num(number) => push_number(text, *number),
        Cell::Str(string) => push_bytes(text, string.as_str().as_bytes()),
        Cell::Null => {
            text.push_str("null")?;
            Ok(())
        }
    }
}

/// Appends the cells of a row, with a comma and a blank between two.
#[tactic(auto, using(crate::proofs::Separated::joined_behind))]
pub fn push_row(text: &mut String, row: &[Cell]) -> Result<(), NoMemory>
    ensures { OnOk result (string_bytes text.new ≡ string_bytes text.old ++ joined (codes ", ") (map cell_text row.now)) }
{
    let mut separator = "";
    for cell in row {
        text.push_str(separator)?;
        push_cell(text, cell)?;
        separator = ", ";
    }
    Ok(())
}
