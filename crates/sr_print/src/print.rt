//! The printed form.
ghost use Rattle.std.specs.Prelude.{◌≡◌, IfOk};
ghost use Rattle.sr_grammar.specs.Spaced.{printed};
ghost use Rattle.sr_grammar.specs.Seen.{statement_seen};
ghost use Rattle.sr_print.specs.ReadAgain.{SaysAgain};

use crate::printer::Printer;
use crate::statements;
use sr_cell::list::NoMemory;
use sr_cell::text::Text;
use sr_grammar::statement::Statement;
use std::alloc::Global;

/// The printed form of a statement; where a text says the statement, the printed form says it again.
pub fn print(alloc: Global, statement: &Statement) -> Result<Text, NoMemory>
    ensures text { IfOk result (λ t. t ≡ printed (statement_seen statement.now)) }
    ensures again { IfOk result (λ t. SaysAgain t (statement_seen statement.now)) }
{
    let mut printer = Printer::new(alloc);
    statements::statement(&mut printer, statement)?;
    Ok(printer.into_text())
}
