//! Fields as cells.
ghost use Rattle.std.specs.Prelude.{◌≡◌, ◌<◌, ◌^◌, true, IfOk};
ghost use Rattle.std.specs.List.{list_all};
ghost use Rattle.std.specs.Str.Parse.{digits_value};
ghost use Rattle.sr_grammar.specs.Words.{minus};
ghost use Rattle.sr_query.specs.Decided.{Decides};
ghost use Rattle.sr_load.specs.Loading.{is_digit, are_digits, plain, signed, number_of, text_of, or_fault, cell_of};

use sr_cell::cell::Cell;
use sr_cell::fault::{Fault, Why};
use sr_cell::list::{No, NoMemory};
use sr_cell::table::Kind;
use sr_cell::text::Text;
use std::alloc::Global;
use std::str;

fn is_digit(byte: u8) -> bool
    ensures { result ≡ is_digit byte }
{
    b'0' <= byte && byte <= b'9'
}

fn all_digits(bytes: &[u8]) -> bool
    ensures { result ≡ list_all is_digit bytes.now }
{
    for byte in bytes {
        if !is_digit(*byte) {
            return false;
        }
    }
    true
}

/// Whether the bytes are one to eighteen digits.
fn are_digits(bytes: &[u8]) -> bool
    ensures { result ≡ are_digits bytes.now }
{
    1 <= bytes.len() && bytes.len() <= 18 && all_digits(bytes)
}

/// The number that digits write.
fn value_of(digits: &[u8]) -> u64
    requires { are_digits digits.now ≡ true }
    ensures value { result ≡ digits_value 10 digits.now }
    ensures short { result < 10 ^ 18 }
{
    let mut value = 0;
    for digit in digits {
        value = value * 10 + u64::from(*digit - b'0');
    }
    value
}

/// The number with a minus in front.
fn minus(number: u64) -> i64
    requires { number < 10 ^ 18 }
    ensures { result ≡ minus number }
{
    -(number as i64)
}

fn plain(digits: &[u8]) -> Option<Cell>
    ensures { result ≡ plain digits.now }
{
    if !are_digits(digits) {
        return None;
    }
    Some(Cell::Num(value_of(digits) as i64))
}

fn signed(digits: &[u8]) -> Option<Cell>
    ensures { result ≡ signed digits.now }
{
    if !are_digits(digits) {
        return None;
    }
    Some(Cell::Num(minus(value_of(digits))))
}

/// The number of an optional minus and digits.
fn number_of(bytes: &[u8]) -> Option<Cell>
    ensures { result ≡ number_of bytes.now }
{
    if bytes.is_empty() {
        return None;
    }
    if bytes[0] == b'-' {
        signed(&bytes[1..])
    } else {
        plain(bytes)
    }
}

/// The text of these bytes, if they are one.
fn text_of(alloc: Global, bytes: &[u8]) -> Result<Option<Cell>, NoMemory>
    ensures { IfOk result (λ cell. cell ≡ text_of bytes.now) }
{
    match str::from_utf8(bytes) {
        Ok(text) => Ok(Some(Cell::Str(Text::of(alloc, text)?))),
        Err(_) => Ok(None),
    }
}

fn or_fault(why: Why, number: u32, cell: Option<Cell>) -> Result<Cell, No<Fault>>
    ensures { Decides (λ cell. cell) result (or_fault why number cell) }
{
    match cell {
        Some(cell) => Ok(cell),
        None => Err(No::Refused(Fault { why, at: number })),
    }
}

/// The cell of a field of that record.
pub(crate) fn cell_of(
    alloc: Global,
    kind: Kind,
    number: u32,
    bytes: &[u8],
) -> Result<Cell, No<Fault>>
    ensures { Decides (λ cell. cell) result (cell_of kind number bytes.now) }
{
    match kind {
        Kind::Num => or_fault(Why::BadNumber, number, number_of(bytes)),
        Kind::Str => match text_of(alloc, bytes) {
            Ok(cell) => or_fault(Why::BadUtf8, number, cell),
            Err(_) => Err(No::NoMemory),
        },
    }
}
