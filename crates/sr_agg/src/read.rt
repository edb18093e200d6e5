//! Reading an aggregate, or its first fault.
ghost use Rattle.std.specs.Prelude.{◌≡◌, ◌≤◌, codes, length, IfOk, OnOk, IsErrOf, Ok, Err};
ghost use Rattle.sr_cell.specs.declared.fault.Fault.{Fault as TheFault};
ghost use Rattle.sr_cell.specs.declared.fault.Why.TheVariants.{Grammar};
ghost use Rattle.sr_cell.specs.declared.list.No.TheVariants.{Refused};
ghost use Rattle.sr_token.specs.Tokens.{tokens_from};
ghost use Rattle.sr_token.specs.Spans.{AreSpans};
ghost use Rattle.sr_grammar_laws.specs.Reading.{next_is};
ghost use Rattle.sr_grammar_laws.specs.Readers as grammar;
ghost use Rattle.sr_sql.specs.Refusals.{fault_at};
ghost use Rattle.sr_agg.specs.Statement as statement;
ghost use Rattle.sr_agg.specs.Views.{Reads, word_of};

use crate::cursor::{Cursor, Word};
use crate::item::Function;
use crate::list::{Member, list};
use crate::statement::{Aggregate, Listed};
use crate::stop::Stop;
use sr_cell::fault::{Fault, Why};
use sr_cell::list::No;
use sr_cell::text::Text;
use sr_grammar::statement::{Name, Names};
use std::alloc::Global;

/// How long a text may be.
const MOST_BYTES: usize = 65_536;

/// The function of that name, in lower case.
fn function_named(word: &str) -> Option<Function>
    ensures { result ≡ statement.function_named word.now }
{
    match word {
        "count" => Some(Function::Count),
        "sum" => Some(Function::Sum),
        "min" => Some(Function::Min),
        "max" => Some(Function::Max),
        _ => None,
    }
}

/// Behind a word: the column of that name, or one of the table of that name.
fn reference_behind(alloc: Global, cursor: &mut Cursor, first: Word) -> Result<Name, Stop>
    ensures { Reads (λ n. n) (statement.reference_behind (word_of first)) cursor.old result cursor.new }
{
    if let Some(_) = cursor.maybe_mark(".") {
        let second = cursor.name(alloc)?;
        return Ok(Name {
            table: Some(first.text),
            column: second.text,
            place: first.place,
        });
    }
    Ok(Name {
        table: None,
        column: first.text,
        place: first.place,
    })
}

impl Member for Name {
    ghost reader = { grammar.reference };

    #[tactic(auto, unfolding(sr_grammar_laws::specs::Readers::reference))]
    fn read(alloc: Global, cursor: &mut Cursor) -> Result<Name, Stop> {
        let first = cursor.name(alloc)?;
        reference_behind(alloc, cursor, first)
    }
}

/// Whether a `*` comes next and the function may have it.
fn may_be_all(cursor: &Cursor, function: Function) -> bool
    ensures { result ≡ next_is (statement.may_be_all function) cursor.now }
{
    match function {
        Function::Count => cursor.is_mark("*"),
        _ => false,
    }
}

/// What a function is told of.
fn called(
    alloc: Global,
    cursor: &mut Cursor,
    function: Function,
    place: u32,
) -> Result<Listed, Stop>
    ensures { Reads (λ x. x) (statement.called function place) cursor.old result cursor.new }
{
    if may_be_all(cursor, function) {
        return cursor.mark("*").and(Ok(Listed::Rows));
    }
    let name = Name::read(alloc, cursor)?;
    Ok(Listed::Of(function, place, name))
}

/// Behind a word: what it is told of, in parentheses, if it names a function.
fn call(alloc: Global, cursor: &mut Cursor, word: Word) -> Result<Listed, Stop>
    ensures { Reads (λ x. x) (statement.call (word_of word)) cursor.old result cursor.new }
{
    let Some(function) = function_named(word.text.as_str()) else {
        return Err(Stop::Grammar);
    };
    cursor.mark("(")?;
    let listed = called(alloc, cursor, function, word.place)?;
    cursor.mark(")").and(Ok(listed))
}

impl Member for Listed {
    ghost reader = { statement.item };

    #[tactic(auto, unfolding(crate::specs::Statement::item))]
    fn read(alloc: Global, cursor: &mut Cursor) -> Result<Listed, Stop> {
        let word = cursor.name(alloc)?;
        if cursor.is_mark("(") {
            return call(alloc, cursor, word);
        }
        Ok(Listed::Plain(reference_behind(alloc, cursor, word)?))
    }
}

/// Whether the rest of a query ends here.
fn ends(cursor: &Cursor) -> bool
    ensures { result ≡ statement.ends cursor.now }
{
    cursor.is_end() || cursor.is_name("group") || cursor.is_mark(";") && cursor.is_last()
}

/// Takes the tokens up to the end of the query's rest: where that is, if not at the end of the text.
fn up_to_end(cursor: &mut Cursor) -> Result<Option<u32>, Stop>
    ensures { Reads (λ at. at) statement.up_to_end cursor.old result cursor.new }
{
    'more: while !ends(cursor) {
        if cursor.is_bad() {
            return Err(Stop::Grammar);
        }
        cursor.advance();
    }
    Ok(cursor.place())
}

#[tactic(auto, unfolding(crate::specs::Statement::rest))]
fn rest(cursor: &mut Cursor) -> Result<Option<u32>, Stop>
    ensures { Reads (λ at. at) statement.rest cursor.old result cursor.new }
{
    if ends(cursor) {
        return Err(Stop::Grammar);
    }
    up_to_end(cursor)
}

#[tactic(auto, unfolding(crate::specs::Statement::grouping))]
fn grouping(alloc: Global, cursor: &mut Cursor) -> Result<Option<Names>, Stop>
    ensures { Reads (λ x. x) statement.grouping cursor.old result cursor.new }
{
    if !cursor.is_name("group") {
        return Ok(None);
    }
    cursor.word("group")?;
    cursor.word("by")?;
    let names = list(alloc, cursor)?;
    Ok(Some(names))
}

/// The name of the query's first table, if a name comes next.
fn table_ahead(alloc: Global, cursor: &Cursor) -> Result<Option<Text>, Stop>
    ensures { Reads (λ x. x) statement.table_ahead cursor.now result cursor.now }
{
    match cursor.name_ahead(alloc)? {
        Some(word) => Ok(Some(word.text)),
        None => Ok(None),
    }
}

#[tactic(auto, unfolding(crate::specs::Statement::aggregate))]
fn aggregate(alloc: Global, cursor: &mut Cursor) -> Result<Aggregate, Stop>
    ensures { Reads (λ x. x) statement.aggregate cursor.old result cursor.new }
{
    cursor.key("SELECT")?;
    let items = list(alloc, cursor)?;
    let from = cursor.key("FROM")?;
    let table = table_ahead(alloc, cursor)?;
    let until = rest(cursor)?;
    let groups = grouping(alloc, cursor)?;
    let _ = cursor.maybe_mark(";");
    Ok(Aggregate {
        items,
        from,
        table,
        until,
        groups,
    })
}

/// Whether nothing more comes.
fn end(cursor: &Cursor) -> Result<(), Stop>
    ensures { Reads (λ over. over) (grammar.end tt) cursor.now result cursor.now }
{
    if cursor.is_end() {
        return Ok(());
    }
    Err(Stop::Grammar)
}

#[tactic(auto, unfolding(crate::specs::Statement::whole))]
fn whole(alloc: Global, cursor: &mut Cursor) -> Result<Aggregate, Stop>
    ensures { Reads (λ x. x) statement.whole cursor.old result cursor.new }
{
    let aggregate = aggregate(alloc, cursor)?;
    end(cursor).and(Ok(aggregate))
}

/// The fault of a text where reading stops at the cursor.
fn fault_at(cursor: &Cursor, text: &str) -> Fault
    requires { length text.now ≤ 65536 }
    ensures { result ≡ fault_at Grammar text.now cursor.now }
{
    let at = match cursor.place() {
        Some(place) => place,
        None => text.len() as u32,
    };
    let why = if cursor.is_bad() {
        Why::BadToken
    } else {
        Why::Grammar
    };
    Fault { why, at }
}

/// Reads a text that is not too long.
fn read_short(alloc: Global, text: &str) -> Result<Aggregate, No<Fault>>
    requires { length text.now ≤ 65536 }
    ensures found { IfOk result (λ a. statement.outer text.now ≡ Ok a) }
    ensures refused { (fault : TheFault) → IsErrOf result (Refused fault) → statement.outer text.now ≡ Err fault }
    ensures spans { AreSpans text.now 0 (tokens_from text.now 0) }
{
    let mut cursor = Cursor::over(text);
    match whole(alloc, &mut cursor) {
        Ok(aggregate) => Ok(aggregate),
        Err(Stop::Grammar) => Err(No::Refused(fault_at(&cursor, text))),
        Err(Stop::Memory) => Err(No::NoMemory),
    }
}

/// Reads an aggregate: what the text is as one, or its first fault. `at` is a byte of the text.
pub(crate) fn read(alloc: Global, text: &str) -> Result<Aggregate, No<Fault>>
    ensures found { IfOk result (λ a. statement.outer text.now ≡ Ok a) }
    ensures refused { (fault : TheFault) → IsErrOf result (Refused fault) → statement.outer text.now ≡ Err fault }
    ensures spans { OnOk result (AreSpans text.now 0 (tokens_from text.now 0)) }
{
    if text.len() > MOST_BYTES {
        return Err(No::Refused(Fault {
            why: Why::LongText,
            at: 65_536,
        }));
    }
    read_short(alloc, text)
}
