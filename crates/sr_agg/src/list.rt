//! Lists with commas.
ghost use Rattle.std.specs.Prelude.{◌≡◌, codes};
ghost use Rattle.sr_grammar.specs.Tokens.{Mark};
ghost use Rattle.sr_grammar_laws.specs.Reading.{Reader};
ghost use Rattle.sr_grammar_laws.specs.Readers as grammar;
ghost use Rattle.sr_grammar_laws.proofs.Loops.{Shrinks};
ghost use Rattle.sr_agg.specs.Views.{Reads};

use crate::cursor::Cursor;
use crate::stop::Stop;
use sr_cell::list::Seq;
use std::alloc::Global;

/// What a list has one behind the other.
pub(crate) trait Member: Sized + Drop {
    /// How one is read.
    ghost reader: { Reader Self };

    /// Reads one.
    fn read(alloc: Global, cursor: &mut Cursor) -> Result<Self, Stop>
        ensures { Reads (λ x. x) reader cursor.old result cursor.new };
}

/// Members with commas between them.
pub(crate) fn list<T: Member>(alloc: Global, cursor: &mut Cursor) -> Result<Seq<T>, Stop>
    requires { Shrinks T.reader }
    ensures { Reads (λ x. x) (grammar.list Mark (codes ",") T.reader) cursor.old result cursor.new }
{
    let mut all = Seq::new(alloc);
    all.push(T::read(alloc, cursor)?)?;
    'more: while let Some(_) = cursor.maybe_mark(",") {
        all.push(T::read(alloc, cursor)?)?;
    }
    Ok(all)
}
