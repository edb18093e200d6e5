//! Reading conditions.
ghost use Rattle.std.specs.Prelude.{◌≡◌, codes, if◌then◌else◌};
ghost use Rattle.sr_grammar.specs.declared.statement.Atom.TheVariants as atoms;
ghost use Rattle.sr_grammar.specs.Tokens.{Key, is};
ghost use Rattle.sr_grammar.specs.Conditions.{IsLiteral, IsReference};
ghost use Rattle.sr_grammar.specs.Seen.{cond_seen};
ghost use Rattle.sr_grammar.specs.Trees.{Not};
ghost use Rattle.sr_grammar_laws.specs.Reading.{and_then, branch, nothing};
ghost use Rattle.sr_grammar_laws.specs.Readers as grammar;
ghost use Rattle.sr_grammar_laws.proofs.LawsOfConditions.{both_literal, both_reference};
ghost use Rattle.sr_grammar_laws.proofs.Loops.{shrinks};
ghost use Rattle.sr_grammar_laws.proofs.Words.{no_more};
ghost use Rattle.sr_sql.specs.Views.{Reads};

use crate::cursor::Cursor;
use crate::items::{Item, enclosed_list};
use crate::stop::Stop;
use crate::words;
use sr_cell::cell::Cell;
use sr_grammar::statement::{Atom, Cond, Literal, Name};
use std::alloc::Global;

#[tactic(auto, unfolding(sr_grammar_laws::specs::Readers::literal))]
pub(crate) fn literal(alloc: Global, cursor: &mut Cursor) -> Result<Literal, Stop>
    ensures { Reads (λ l. l) grammar.literal cursor.old result cursor.new }
{
    if let Some(place) = cursor.maybe_mark("-") {
        let number = words::minus(cursor.number()?);
        return Ok(Literal {
            cell: Cell::Num(number),
            place,
        });
    }
    cursor.plain(alloc)
}

/// A literal, or NULL.
#[tactic(auto, unfolding(sr_grammar_laws::specs::Readers::value))]
pub(crate) fn value(alloc: Global, cursor: &mut Cursor) -> Result<Literal, Stop>
    ensures { Reads (λ l. l) grammar.value cursor.old result cursor.new }
{
    if let Some(place) = cursor.maybe_word("NULL") {
        return Ok(Literal {
            cell: Cell::Null,
            place,
        });
    }
    literal(alloc, cursor)
}

#[tactic(auto, unfolding(sr_grammar_laws::specs::Readers::reference))]
pub(crate) fn reference(alloc: Global, cursor: &mut Cursor) -> Result<Name, Stop>
    ensures { Reads (λ n. n) grammar.reference cursor.old result cursor.new }
{
    let first = cursor.name(alloc)?;
    if let Some(_) = cursor.maybe_mark(".") {
        let second = cursor.name(alloc)?;
        return Ok(Name {
            table: Some(first.text),
            column: second.text,
            place: first.place,
        });
    }
    Ok(Name {
        table: None,
        column: first.text,
        place: first.place,
    })
}

/// BETWEEN and its ends, behind a NOT or not.
#[tactic(auto, unfolding(sr_grammar_laws::specs::Readers::between))]
fn between(alloc: Global, cursor: &mut Cursor, not: bool) -> Result<Atom, Stop>
    ensures { Reads (λ a. a) (grammar.between (if not then atoms.NotBetween else atoms.Between)) cursor.old result cursor.new }
{
    cursor.word("BETWEEN")?;
    let low = literal(alloc, cursor)?;
    cursor.word("AND")?;
    let high = literal(alloc, cursor)?;
    if not {
        return Ok(Atom::NotBetween(low, high));
    }
    Ok(Atom::Between(low, high))
}

/// LIKE and its text, behind a NOT or not.
#[tactic(auto, unfolding(sr_grammar_laws::specs::Readers::like))]
fn like(alloc: Global, cursor: &mut Cursor, not: bool) -> Result<Atom, Stop>
    ensures { Reads (λ a. a) (grammar.like (if not then atoms.NotPrefix else atoms.Prefix)) cursor.old result cursor.new }
{
    cursor.word("LIKE")?;
    let text = cursor.prefix(alloc)?;
    if not {
        return Ok(Atom::NotPrefix(text));
    }
    Ok(Atom::Prefix(text))
}

impl Item for Literal {
    ghost reader = { grammar.literal };

    fn read(alloc: Global, cursor: &mut Cursor) -> Result<Literal, Stop> {
        literal(alloc, cursor)
    }

    ghost less = { shrinks grammar.literal IsLiteral no_more both_literal.good };
}

impl Item for Name {
    ghost reader = { grammar.reference };

    fn read(alloc: Global, cursor: &mut Cursor) -> Result<Name, Stop> {
        reference(alloc, cursor)
    }

    ghost less = { shrinks grammar.reference IsReference _ both_reference.good };
}

/// IN and its list, behind a NOT or not.
#[tactic(auto, unfolding(sr_grammar_laws::specs::Readers::in_list))]
fn in_list(alloc: Global, cursor: &mut Cursor, not: bool) -> Result<Atom, Stop>
    ensures { Reads (λ a. a) (grammar.in_list (if not then atoms.NotOneOf else atoms.OneOf)) cursor.old result cursor.new }
{
    cursor.word("IN")?;
    let all = enclosed_list(alloc, cursor)?;
    if not {
        return Ok(Atom::NotOneOf(all));
    }
    Ok(Atom::OneOf(all))
}

/// IS and NULL, with a NOT between them or without.
#[tactic(auto, unfolding(sr_grammar_laws::specs::Readers::null_test))]
fn null_test(cursor: &mut Cursor) -> Result<Atom, Stop>
    ensures { Reads (λ a. a) grammar.null_test cursor.old result cursor.new }
{
    cursor.word("IS")?;
    if let Some(_) = cursor.maybe_word("NOT") {
        return cursor.word("NULL").and(Ok(Atom::NotNull));
    }
    cursor.word("NULL").and(Ok(Atom::IsNull))
}

/// What is said behind a NOT.
fn denied(alloc: Global, cursor: &mut Cursor) -> Result<Atom, Stop>
    ensures { Reads (λ a. a)
        (branch (is Key (codes "BETWEEN")) (grammar.between atoms.NotBetween)
        (branch (is Key (codes "IN")) (grammar.in_list atoms.NotOneOf) (grammar.like atoms.NotPrefix))) cursor.old result cursor.new }
{
    if cursor.is_word("BETWEEN") {
        return between(alloc, cursor, true);
    }
    if cursor.is_word("IN") {
        return in_list(alloc, cursor, true);
    }
    like(alloc, cursor, true)
}

#[tactic(auto, unfolding(sr_grammar_laws::specs::Readers::atom))]
fn atom(alloc: Global, cursor: &mut Cursor) -> Result<Atom, Stop>
    ensures { Reads (λ a. a) grammar.atom cursor.old result cursor.new }
{
    if let Some(_) = cursor.maybe_word("NOT") {
        return denied(alloc, cursor);
    }
    if cursor.is_word("BETWEEN") {
        return between(alloc, cursor, false);
    }
    if cursor.is_word("IN") {
        return in_list(alloc, cursor, false);
    }
    if cursor.is_word("LIKE") {
        return like(alloc, cursor, false);
    }
    if cursor.is_word("IS") {
        return null_test(cursor);
    }
    let op = cursor.operator()?;
    let value = literal(alloc, cursor)?;
    Ok(Atom::Cmp(op, value))
}

#[tactic(auto, unfolding(sr_grammar_laws::specs::Readers::comparison))]
fn comparison(alloc: Global, cursor: &mut Cursor) -> Result<Cond, Stop>
    ensures { Reads cond_seen grammar.comparison cursor.old result cursor.new }
{
    let name = reference(alloc, cursor)?;
    let atom = atom(alloc, cursor)?;
    Ok(Cond::Test(name, atom))
}

/// A test, where neither a NOT nor a parenthesis may stand.
#[tactic(auto, unfolding(sr_grammar_laws::specs::Readers::unit))]
fn innermost(alloc: Global, cursor: &mut Cursor) -> Result<Cond, Stop>
    ensures { Reads cond_seen (grammar.unit 0) cursor.old result cursor.new }
{
    if cursor.is_word("NOT") || cursor.is_mark("(") {
        return Err(Stop::Deep);
    }
    comparison(alloc, cursor)
}

/// The unit behind a NOT, in which so many more of NOT and parentheses may stand.
#[cycle(cond)]
fn negated(alloc: Global, cursor: &mut Cursor, levels: u8) -> Result<Cond, Stop>
    ensures { Reads cond_seen (and_then (grammar.unit levels) (λ c. nothing (Not c))) cursor.old result cursor.new }
{
    let inner = unit(alloc, cursor, levels)?;
    Ok(Cond::Not(Box::new(alloc, inner)?))
}

/// A condition in parentheses, in which so many more of NOT and parentheses may stand.
#[cycle(cond)]
fn enclosed(alloc: Global, cursor: &mut Cursor, levels: u8) -> Result<Cond, Stop>
    ensures { Reads cond_seen (grammar.in_parens (grammar.cond_of (grammar.unit levels))) cursor.old result cursor.new }
{
    cursor.mark("(")?;
    let inner = cond(alloc, cursor, levels)?;
    cursor.mark(")").and(Ok(inner))
}

/// A NOT, a condition in parentheses or a test, where so many of the first two may stand one inside the other.
#[cycle(cond)]
fn unit(alloc: Global, cursor: &mut Cursor, levels: u8) -> Result<Cond, Stop>
    ensures { Reads cond_seen (grammar.unit levels) cursor.old result cursor.new }
{
    if levels == 0 {
        return innermost(alloc, cursor);
    }
    if let Some(_) = cursor.maybe_word("NOT") {
        return negated(alloc, cursor, levels - 1);
    }
    if cursor.is_mark("(") {
        return enclosed(alloc, cursor, levels - 1);
    }
    comparison(alloc, cursor)
}

#[cycle(cond)]
#[tactic(auto, unfolding(sr_grammar_laws::specs::Readers::conj_of))]
fn conj(alloc: Global, cursor: &mut Cursor, levels: u8) -> Result<Cond, Stop>
    ensures { Reads cond_seen (grammar.conj_of (grammar.unit levels)) cursor.old result cursor.new }
{
    let first = unit(alloc, cursor, levels)?;
    if !cursor.is_word("AND") {
        return Ok(first);
    }
    let mut all = Vec::new(alloc);
    all.push(first)?;
    'more: while let Some(_) = cursor.maybe_word("AND") {
        all.push(unit(alloc, cursor, levels)?)?;
    }
    Ok(Cond::And(all))
}

#[cycle(cond)]
#[tactic(auto, unfolding(sr_grammar_laws::specs::Readers::cond_of))]
pub(crate) fn cond(alloc: Global, cursor: &mut Cursor, levels: u8) -> Result<Cond, Stop>
    ensures { Reads cond_seen (grammar.cond_of (grammar.unit levels)) cursor.old result cursor.new }
{
    let first = conj(alloc, cursor, levels)?;
    if !cursor.is_word("OR") {
        return Ok(first);
    }
    let mut all = Vec::new(alloc);
    all.push(first)?;
    'more: while let Some(_) = cursor.maybe_word("OR") {
        all.push(conj(alloc, cursor, levels)?)?;
    }
    Ok(Cond::Or(all))
}
