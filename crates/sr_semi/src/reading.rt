//! Whether a text can be read as a statement.
ghost use Rattle.std.specs.Prelude.{◌≡◌, Err, IfOk, IfSome};
ghost use Rattle.std.specs.Option.{is_none};
ghost use Rattle.sr_grammar.specs.Says.{Says};
ghost use Rattle.sr_semi.specs.Going.{is_read};

use sr_cell::fault::Fault;
use sr_cell::list::{No, NoMemory};
use sr_sql::read::read;
use std::alloc::Global;

/// Why a text can't be read, if it can't.
#[tactic(auto, using(crate::proofs::Looking::said_is_read, crate::proofs::Looking::unsaid_is_unread))]
pub fn unread(alloc: Global, text: &str) -> Result<Option<Fault>, NoMemory>
    ensures read { IfOk result (λ found. is_none found ≡ is_read text.now) }
    ensures says { IfOk result (λ found. IfSome found (λ fault. Says text.now (Err fault))) }
{
    match read(alloc, text) {
        Ok(statement) => {
            drop(statement);
            Ok(None)
        }
        Err(No::Refused(fault)) => Ok(Some(fault)),
        Err(No::NoMemory) => Err(NoMemory),
    }
}
