//! Reading one statement.
ghost use Rattle.std.specs.Prelude.{◌≡◌, ◌<◌, ◌≤◌, ◌^◌, length, Ok, Err, IfOk, IsErrOf};
ghost use Rattle.sr_cell.specs.declared.fault.Fault.{Fault as TheFault};
ghost use Rattle.sr_cell.specs.declared.list.No.TheVariants.{Refused};
ghost use Rattle.sr_grammar.specs.Trees.{statement_of};
ghost use Rattle.sr_grammar.specs.Says.{most_levels, SaysShort, Says};
ghost use Rattle.sr_grammar.specs.Seen.{statement_seen};
ghost use Rattle.sr_grammar_laws.specs.Readers as grammar;
ghost use Rattle.sr_sql.specs.Views.{Reads};
ghost use Rattle.sr_sql.specs.Seen.{tree_seen, columns_in};
ghost use Rattle.sr_sql.specs.Refusals.{fault_at, refusal};

use crate::columns::{Written, create};
use crate::cursor::Cursor;
use crate::judge::table_of;
use crate::statements::{delete, insert, select, update};
use crate::stop::Stop;
use sr_cell::fault::{Fault, Why};
use sr_cell::list::No;
use sr_grammar::statement::Statement;
use std::alloc::Global;

/// How many bytes a statement may have.
const MOST_BYTES: usize = 65_536;

/// What tokens spell: a statement, or the table of a CREATE, which is still to be judged.
#[derive(Drop)]
pub(crate) enum Parsed {
    Written(Written),
    Statement(Statement),
}

#[tactic(auto, unfolding(sr_grammar_laws::specs::Readers::tree))]
fn tree(alloc: Global, cursor: &mut Cursor) -> Result<Parsed, Stop>
    ensures { Reads tree_seen (grammar.tree most_levels) cursor.old result cursor.new }
{
    if cursor.is_word("CREATE") {
        return create(alloc, cursor);
    }
    if cursor.is_word("SELECT") {
        return select(alloc, cursor);
    }
    if cursor.is_word("INSERT") {
        return insert(alloc, cursor);
    }
    if cursor.is_word("UPDATE") {
        return update(alloc, cursor);
    }
    delete(alloc, cursor)
}

/// Whether nothing more comes.
fn end(cursor: &Cursor) -> Result<(), Stop>
    ensures { Reads (λ over. over) (grammar.end tt) cursor.now result cursor.now }
{
    if cursor.is_end() {
        return Ok(());
    }
    Err(Stop::Grammar)
}

/// A statement, with a semicolon behind it or without.
#[tactic(auto, unfolding(sr_grammar_laws::specs::Readers::statement, sr_grammar_laws::specs::Readers::whole))]
fn whole(alloc: Global, cursor: &mut Cursor) -> Result<Parsed, Stop>
    ensures { Reads tree_seen (grammar.whole most_levels) cursor.old result cursor.new }
{
    let tree = tree(alloc, cursor)?;
    let _ = cursor.maybe_mark(";");
    end(cursor).and(Ok(tree))
}

/// The fault of a text where reading stops at the cursor; where no token begins there, that is the fault.
fn fault_at(why: Why, cursor: &Cursor, text: &str) -> Fault
    requires { length text.now ≤ 65536 }
    ensures { result ≡ fault_at why text.now cursor.now }
{
    let at = match cursor.place() {
        Some(place) => place,
        None => text.len() as u32,
    };
    if cursor.is_bad() {
        return Fault {
            why: Why::BadToken,
            at,
        };
    }
    Fault { why, at }
}

/// What a text is refused for.
fn refusal(stop: Stop, cursor: &Cursor, text: &str) -> No<Fault>
    requires { length text.now ≤ 65536 }
    ensures { result ≡ refusal stop text.now cursor.now }
{
    match stop {
        Stop::Grammar => No::Refused(fault_at(Why::Grammar, cursor, text)),
        Stop::Deep => No::Refused(fault_at(Why::Deep, cursor, text)),
        Stop::Memory => No::NoMemory,
    }
}

/// The statement that was read, if it is no CREATE with a fault.
fn judged(alloc: Global, parsed: Parsed) -> Result<Statement, No<Fault>>
    requires few { length (columns_in (tree_seen parsed)) ≤ 65536 }
    ensures found { IfOk result (λ s. statement_of (tree_seen parsed) ≡ Ok (statement_seen s)) }
    ensures refused { (fault : TheFault) → IsErrOf result (Refused fault) → statement_of (tree_seen parsed) ≡ Err fault }
{
    match parsed {
        Parsed::Written(written) => Ok(Statement::Create(table_of(alloc, written)?)),
        Parsed::Statement(statement) => Ok(statement),
    }
}

/// Reads a text that is not too long.
fn read_short(alloc: Global, text: &str) -> Result<Statement, No<Fault>>
    requires { length text.now ≤ 65536 }
    ensures found { IfOk result (λ s. SaysShort text.now (Ok (statement_seen s))) }
    ensures refused { (fault : TheFault) → IsErrOf result (Refused fault) → SaysShort text.now (Err fault) }
{
    let mut cursor = Cursor::over(text);
    match whole(alloc, &mut cursor) {
        Ok(parsed) => judged(alloc, parsed),
        Err(stop) => Err(refusal(stop, &cursor, text)),
    }
}

/// Reads one statement: the statement that the text says, or its first fault. `at` is a byte of the text.
pub fn read(alloc: Global, text: &str) -> Result<Statement, No<Fault>>
    ensures found { IfOk result (λ s. Says text.now (Ok (statement_seen s))) }
    ensures refused { (fault : TheFault) → IsErrOf result (Refused fault) → Says text.now (Err fault) }
{
    if text.len() > MOST_BYTES {
        return Err(No::Refused(Fault {
            why: Why::LongText,
            at: 65_536,
        }));
    }
    read_short(alloc, text)
}
