//! What the texts of single tokens say.
ghost use Rattle.std.specs.Prelude.{◌≡◌, ◌<◌, ◌^◌, ◌-◌, IsTrue, IfOk, length, string_bytes, slice_index};
ghost use Rattle.std.specs.Str.Parse.{digits_value};
ghost use Rattle.sr_token.specs.Texts.{AreDigits, IsQuoted};
ghost use Rattle.sr_grammar.specs.Tokens.{unquoted};
ghost use Rattle.sr_grammar.specs.Words.{minus, is_prefix, op_in};

use sr_cell::list::NoMemory;
use sr_grammar::statement::Op;
use std::alloc::Global;

/// The number that digits write.
pub(crate) fn value_of(digits: &[u8]) -> u64
    requires { AreDigits digits.now }
    ensures value { result ≡ digits_value 10 digits.now }
    ensures short { result < 10 ^ 18 }
{
    let mut value = 0;
    for digit in digits {
        value = value * 10 + u64::from(*digit - b'0');
    }
    value
}

/// The number with a minus in front.
pub(crate) fn minus(number: u64) -> i64
    requires { number < 10 ^ 18 }
    ensures { result ≡ minus number }
{
    -(number as i64)
}

/// What stands between the quotes of a text, each doubled quote being one.
pub(crate) fn unquoted(alloc: Global, text: &str) -> Result<String, NoMemory>
    requires { IsQuoted text.now }
    ensures { IfOk result (λ inner. string_bytes inner ≡ unquoted text.now) }
{
    let mut inner = String::new(alloc);
    let mut rest = text.strip_prefix('\'').unwrap_or(text);
    while let Some((before, after)) = rest.split_once('\'') {
        inner.push_str(before)?;
        match after.strip_prefix('\'') {
            Some(more) => {
                inner.push('\'')?;
                rest = more;
            }
            None => return Ok(inner),
        }
    }
    Ok(inner)
}

/// Whether a text has no `_`, and one `%`, at its end.
pub(crate) fn is_prefix(text: &[u8]) -> bool
    ensures prefix { result ≡ is_prefix text.now }
    ensures last { IsTrue result → ((0 < length text.now) × (slice_index text.now (length text.now - 1) < 128)) }
{
    for (i, byte) in text.iter().enumerate() {
        if *byte == b'%' {
            return i + 1 == text.len();
        }
        if *byte == b'_' {
            return false;
        }
    }
    false
}

/// The comparison that a mark stands for.
pub(crate) fn operator(text: &str) -> Option<Op>
    ensures { result ≡ op_in text.now }
{
    match text {
        "=" => Some(Op::Eq),
        "<>" | "!=" => Some(Op::Ne),
        "<" => Some(Op::Lt),
        "<=" => Some(Op::Le),
        ">" => Some(Op::Gt),
        ">=" => Some(Op::Ge),
        _ => None,
    }
}
