//! Lists with commas.
ghost use Rattle.std.specs.Prelude.{◌≡◌, ◌≤◌, List, codes, length};
ghost use Rattle.sr_grammar.specs.Tokens.{Mark, Tok};
ghost use Rattle.sr_grammar_laws.specs.Reading.{Got, Reader};
ghost use Rattle.sr_grammar_laws.specs.Readers as grammar;
ghost use Rattle.sr_sql.specs.Views.{Reads};

use crate::cursor::Cursor;
use crate::stop::Stop;
use sr_cell::list::Seq;
use std::alloc::Global;

/// What a list has one behind the other.
pub(crate) trait Item: Sized + Drop {
    /// How an item is read.
    ghost reader: { Reader Self };

    /// Reads an item.
    fn read(alloc: Global, cursor: &mut Cursor) -> Result<Self, Stop>
        ensures { Reads (λ x. x) reader cursor.old result cursor.new };

    /// No more is left behind an item than there was.
    ghost less: { (ts : List Tok) (x : Self) (rest : List Tok) → reader ts ≡ Got x rest → length rest ≤ length ts };
}

/// Items with commas between them.
pub(crate) fn list<T: Item>(alloc: Global, cursor: &mut Cursor) -> Result<Seq<T>, Stop>
    ensures { Reads (λ x. x) (grammar.list Mark (codes ",") T.reader) cursor.old result cursor.new }
{
    let mut all = Seq::new(alloc);
    'more: loop {
        all.push(T::read(alloc, cursor)?)?;
        let Some(_) = cursor.maybe_mark(",") else {
            return Ok(all);
        };
    }
}

/// A list in parentheses.
pub(crate) fn enclosed_list<T: Item>(alloc: Global, cursor: &mut Cursor) -> Result<Seq<T>, Stop>
    ensures { Reads (λ x. x) (grammar.in_parens (grammar.list Mark (codes ",") T.reader)) cursor.old result cursor.new }
{
    cursor.mark("(")?;
    let all = list(alloc, cursor)?;
    cursor.mark(")").and(Ok(all))
}
