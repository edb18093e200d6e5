//! Words without regard to case: which are reserved, and how a name is kept.
ghost use Rattle.std.specs.Prelude.{◌≡◌, IfOk, bytes_eq};
ghost use Rattle.sr_grammar.specs.Tokens.{upper, lower, is_reserved};

use sr_cell::list::NoMemory;
use sr_cell::text::Text;
use std::alloc::Global;

/// Whether two words are the same without regard to case.
fn is_same(word: &str, other: &str) -> bool
    ensures { result ≡ bytes_eq (upper word.now) (upper other.now) }
{
    word.eq_ignore_ascii_case(other)
}

/// Whether a word is reserved, so that no table and no column can be named by it.
pub fn is_reserved(word: &str) -> bool
    ensures { result ≡ is_reserved (upper word.now) }
{
    is_same(word, "AND")
        || is_same(word, "BETWEEN")
        || is_same(word, "CHECK")
        || is_same(word, "CREATE")
        || is_same(word, "DELETE")
        || is_same(word, "FROM")
        || is_same(word, "IN")
        || is_same(word, "INNER")
        || is_same(word, "INSERT")
        || is_same(word, "INT")
        || is_same(word, "INTEGER")
        || is_same(word, "INTO")
        || is_same(word, "IS")
        || is_same(word, "JOIN")
        || is_same(word, "KEY")
        || is_same(word, "LIKE")
        || is_same(word, "NOT")
        || is_same(word, "NULL")
        || is_same(word, "ON")
        || is_same(word, "OR")
        || is_same(word, "PRIMARY")
        || is_same(word, "SELECT")
        || is_same(word, "SET")
        || is_same(word, "TABLE")
        || is_same(word, "TEXT")
        || is_same(word, "UPDATE")
        || is_same(word, "VALUES")
        || is_same(word, "WHERE")
}

/// A name, which is kept in lower case.
pub fn lowered(alloc: Global, text: &str) -> Result<Text, NoMemory>
    ensures { IfOk result (λ name. name ≡ lower text.now) }
{
    Ok(Text::from_string(text.to_ascii_lowercase(alloc)?))
}
