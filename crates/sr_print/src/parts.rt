//! The parts of statements: names, literals and lists of them.
#![tactic(auto, using(crate::proofs::WritingLists::written_append))]

ghost use Rattle.std.specs.Prelude.{◌≡◌, List, OnOk};
ghost use Rattle.sr_grammar.specs.Tokens.{Tok};
ghost use Rattle.sr_grammar.specs.Printed as tokens;
ghost use Rattle.sr_print.specs.Writes.{Writes};

use crate::printer::Printer;
use sr_cell::cell::Cell;
use sr_cell::list::NoMemory;
use sr_grammar::statement::{Literal, LiteralRow, Name, Set};

/// What stands in a list with commas.
pub trait Print {
    ghost tokens_of: { Self → List Tok };

    /// Writes its tokens.
    fn print(&self, printer: &mut Printer) -> Result<(), NoMemory>
        ensures { OnOk result (Writes (tokens_of self.now) printer.old printer.new) };
}

impl Print for Name {
    ghost tokens_of = { tokens.reference };

    fn print(&self, printer: &mut Printer) -> Result<(), NoMemory> {
        if let Some(table) = &self.table {
            printer.name(table.as_str())?;
            printer.mark(".")?;
        }
        printer.name(self.column.as_str())
    }
}

impl Print for Literal {
    ghost tokens_of = { tokens.literal };

    fn print(&self, printer: &mut Printer) -> Result<(), NoMemory> {
        match &self.cell {
            Cell::Num(number) => printer.number(*number),
            Cell::Str(text) => printer.quoted(text.as_str()),
            Cell::Null => printer.key("NULL"),
        }
    }
}

impl Print for LiteralRow {
    ghost tokens_of = { tokens.row };

    fn print(&self, printer: &mut Printer) -> Result<(), NoMemory> {
        enclosed_list(printer, self.literals.as_slice())
    }
}

impl Print for Set {
    ghost tokens_of = { tokens.set };

    fn print(&self, printer: &mut Printer) -> Result<(), NoMemory> {
        self.name.print(printer)?;
        printer.mark("=")?;
        self.value.print(printer)
    }
}

/// Writes items with commas between them.
pub fn list<T: Print>(printer: &mut Printer, items: &[T]) -> Result<(), NoMemory>
    ensures { OnOk result (Writes (tokens.commas T.tokens_of items.now) printer.old printer.new) }
{
    let [first, others @ ..] = items else {
        return Ok(());
    };
    first.print(printer)?;
    for item in others {
        printer.mark(",")?;
        item.print(printer)?;
    }
    Ok(())
}

/// Writes a list in parentheses.
pub fn enclosed_list<T: Print>(printer: &mut Printer, items: &[T]) -> Result<(), NoMemory>
    ensures { OnOk result (Writes (tokens.parens (tokens.commas T.tokens_of items.now)) printer.old printer.new) }
{
    printer.mark("(")?;
    list(printer, items)?;
    printer.mark(")")
}
