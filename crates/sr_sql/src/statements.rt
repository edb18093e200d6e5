//! Reading the statements about rows.
ghost use Rattle.std.specs.Prelude.{◌≡◌, None, codes};
ghost use Rattle.sr_grammar.specs.Tokens.{Key, Mark, is};
ghost use Rattle.sr_grammar.specs.Statements.{IsRow, IsSet, filter_of, place_of_where};
ghost use Rattle.sr_grammar.specs.Says.{most_levels};
ghost use Rattle.sr_grammar.specs.Seen.{filter_seen};
ghost use Rattle.sr_grammar.specs.Words.{reference_of};
ghost use Rattle.sr_grammar_laws.specs.Reading.{and_then, branch, next_is, many};
ghost use Rattle.sr_grammar_laws.specs.Readers as grammar;
ghost use Rattle.sr_grammar_laws.proofs.LawsOfStatements.{both_row, both_set};
ghost use Rattle.sr_grammar_laws.proofs.Loops.{shrinks};
ghost use Rattle.sr_grammar_laws.proofs.Words.{no_more};
ghost use Rattle.sr_sql.specs.Views.{Reads};
ghost use Rattle.sr_sql.specs.Next.{word_of};
ghost use Rattle.sr_sql.specs.Seen.{where_seen, shown_seen, tree_seen};

use crate::conditions::{cond, reference, value};
use crate::cursor::{Cursor, Word};
use crate::items::{Item, list};
use crate::read::Parsed;
use crate::stop::Stop;
use sr_grammar::statement::{
    Cond, Delete, Insert, JoinOn, JoinOns, LiteralRow, Literals, Name, Names, Select, Set,
    Statement, Update,
};
use std::alloc::Global;

/// So many NOT and parentheses of a condition may stand one inside the other.
const MOST_LEVELS: u8 = 64;

/// A condition, and the place of its WHERE.
#[derive(Drop)]
pub(crate) struct Where {
    cond: Cond,
    place: u32,
}

/// What a SELECT shows; `all` stands for `*`.
#[derive(Drop)]
pub(crate) struct Shown {
    all: bool,
    list: Names,
}

#[tactic(auto, unfolding(sr_grammar_laws::specs::Readers::filter))]
fn filter(alloc: Global, cursor: &mut Cursor) -> Result<Option<Where>, Stop>
    ensures { Reads where_seen (grammar.filter most_levels) cursor.old result cursor.new }
{
    let Some(place) = cursor.maybe_word("WHERE") else {
        return Ok(None);
    };
    let cond = cond(alloc, cursor, MOST_LEVELS)?;
    Ok(Some(Where { cond, place }))
}

/// The condition, and the place of its WHERE or 0.
fn parts(filter: Option<Where>) -> (Option<Cond>, u32)
    ensures cond { filter_seen result.0 ≡ filter_of (where_seen filter) }
    ensures place { result.1 ≡ place_of_where (where_seen filter) }
{
    match filter {
        Some(found) => (Some(found.cond), found.place),
        None => (None, 0),
    }
}

#[tactic(auto, unfolding(sr_grammar_laws::specs::Readers::listed))]
fn listed(alloc: Global, cursor: &mut Cursor) -> Result<Shown, Stop>
    ensures { Reads shown_seen grammar.listed cursor.old result cursor.new }
{
    if let Some(_) = cursor.maybe_mark("*") {
        return Ok(Shown {
            all: true,
            list: Names::new(alloc),
        });
    }
    let list = list(alloc, cursor)?;
    Ok(Shown { all: false, list })
}

/// JOIN, with INNER in front of it or without.
fn join_word(cursor: &mut Cursor) -> Result<u32, Stop>
    ensures { Reads (λ at. at)
        (branch (is Key (codes "INNER")) (and_then (grammar.key (codes "INNER")) (λ _. grammar.key (codes "JOIN")))
        (grammar.key (codes "JOIN"))) cursor.old result cursor.new }
{
    if cursor.is_word("INNER") {
        cursor.word("INNER")?;
    }
    cursor.word("JOIN")
}

#[tactic(auto, unfolding(sr_grammar_laws::specs::Readers::join))]
fn join(alloc: Global, cursor: &mut Cursor) -> Result<JoinOn, Stop>
    ensures { Reads (λ j. j) grammar.join cursor.old result cursor.new }
{
    join_word(cursor)?;
    let table = cursor.name(alloc)?;
    let place = cursor.word("ON")?;
    let left = reference(alloc, cursor)?;
    cursor.mark("=")?;
    let right = reference(alloc, cursor)?;
    Ok(JoinOn {
        table: table.text,
        table_place: table.place,
        left,
        right,
        place,
    })
}

fn begins_join(cursor: &Cursor) -> bool
    ensures { result ≡ next_is grammar.begins_join cursor.now }
{
    cursor.is_word("INNER") || cursor.is_word("JOIN")
}

fn joins(alloc: Global, cursor: &mut Cursor) -> Result<JoinOns, Stop>
    ensures { Reads (λ x. x) (many grammar.begins_join grammar.join) cursor.old result cursor.new }
{
    let mut all = JoinOns::new(alloc);
    'more: while begins_join(cursor) {
        all.push(join(alloc, cursor)?)?;
    }
    Ok(all)
}

#[tactic(auto, unfolding(sr_grammar_laws::specs::Readers::select))]
pub(crate) fn select(alloc: Global, cursor: &mut Cursor) -> Result<Parsed, Stop>
    ensures { Reads tree_seen (grammar.select most_levels) cursor.old result cursor.new }
{
    cursor.word("SELECT")?;
    let listed = listed(alloc, cursor)?;
    cursor.word("FROM")?;
    let first = cursor.name(alloc)?;
    let joins = joins(alloc, cursor)?;
    let (filter, place) = parts(filter(alloc, cursor)?);
    Ok(Parsed::Statement(Statement::Select(Select {
        all: listed.all,
        list: listed.list,
        first: first.text,
        first_place: first.place,
        joins,
        filter,
        place,
    })))
}

/// The name of a column, without a table.
fn bare(word: Word) -> Name
    ensures { result ≡ reference_of (word_of word) None }
{
    Name {
        table: None,
        column: word.text,
        place: word.place,
    }
}

#[tactic(auto, unfolding(sr_grammar_laws::specs::Readers::column_name))]
fn column_name(alloc: Global, cursor: &mut Cursor) -> Result<Name, Stop>
    ensures { Reads (λ n. n) grammar.column_name cursor.old result cursor.new }
{
    Ok(bare(cursor.name(alloc)?))
}

/// Names of columns with commas between them.
fn columns(alloc: Global, cursor: &mut Cursor) -> Result<Names, Stop>
    ensures { Reads (λ x. x) (grammar.list Mark (codes ",") grammar.column_name) cursor.old result cursor.new }
{
    let mut all = Names::new(alloc);
    'more: loop {
        all.push(column_name(alloc, cursor)?)?;
        let Some(_) = cursor.maybe_mark(",") else {
            return Ok(all);
        };
    }
}

#[tactic(auto, unfolding(sr_grammar_laws::specs::Readers::column_names))]
fn column_names(alloc: Global, cursor: &mut Cursor) -> Result<Names, Stop>
    ensures { Reads (λ x. x) grammar.column_names cursor.old result cursor.new }
{
    let Some(_) = cursor.maybe_mark("(") else {
        return Ok(Names::new(alloc));
    };
    let all = columns(alloc, cursor)?;
    cursor.mark(")").and(Ok(all))
}

/// Values with commas between them.
fn values(alloc: Global, cursor: &mut Cursor) -> Result<Literals, Stop>
    ensures { Reads (λ x. x) (grammar.list Mark (codes ",") grammar.value) cursor.old result cursor.new }
{
    let mut all = Literals::new(alloc);
    'more: loop {
        all.push(value(alloc, cursor)?)?;
        let Some(_) = cursor.maybe_mark(",") else {
            return Ok(all);
        };
    }
}

impl Item for LiteralRow {
    ghost reader = { grammar.row };

    #[tactic(auto, unfolding(sr_grammar_laws::specs::Readers::row))]
    fn read(alloc: Global, cursor: &mut Cursor) -> Result<LiteralRow, Stop> {
        let place = cursor.mark("(")?;
        let literals = values(alloc, cursor)?;
        cursor.mark(")").and(Ok(LiteralRow { literals, place }))
    }

    ghost less = { shrinks grammar.row IsRow no_more both_row.good };
}

#[tactic(auto, unfolding(sr_grammar_laws::specs::Readers::insert))]
pub(crate) fn insert(alloc: Global, cursor: &mut Cursor) -> Result<Parsed, Stop>
    ensures { Reads tree_seen grammar.insert cursor.old result cursor.new }
{
    cursor.word("INSERT")?;
    cursor.word("INTO")?;
    let table = cursor.name(alloc)?;
    let columns = column_names(alloc, cursor)?;
    cursor.word("VALUES")?;
    let rows = list(alloc, cursor)?;
    Ok(Parsed::Statement(Statement::Insert(Insert {
        table: table.text,
        place: table.place,
        columns,
        rows,
    })))
}

impl Item for Set {
    ghost reader = { grammar.set };

    #[tactic(auto, unfolding(sr_grammar_laws::specs::Readers::set, sr_grammar_laws::specs::Readers::column_name))]
    fn read(alloc: Global, cursor: &mut Cursor) -> Result<Set, Stop> {
        let name = cursor.name(alloc)?;
        cursor.mark("=")?;
        let value = value(alloc, cursor)?;
        Ok(Set {
            name: bare(name),
            value,
        })
    }

    ghost less = { shrinks grammar.set IsSet no_more both_set.good };
}

#[tactic(auto, unfolding(sr_grammar_laws::specs::Readers::update))]
pub(crate) fn update(alloc: Global, cursor: &mut Cursor) -> Result<Parsed, Stop>
    ensures { Reads tree_seen (grammar.update most_levels) cursor.old result cursor.new }
{
    cursor.word("UPDATE")?;
    let table = cursor.name(alloc)?;
    cursor.word("SET")?;
    let sets = list(alloc, cursor)?;
    let (filter, _) = parts(filter(alloc, cursor)?);
    Ok(Parsed::Statement(Statement::Update(Update {
        table: table.text,
        place: table.place,
        sets,
        filter,
    })))
}

#[tactic(auto, unfolding(sr_grammar_laws::specs::Readers::delete))]
pub(crate) fn delete(alloc: Global, cursor: &mut Cursor) -> Result<Parsed, Stop>
    ensures { Reads tree_seen (grammar.delete most_levels) cursor.old result cursor.new }
{
    cursor.word("DELETE")?;
    cursor.word("FROM")?;
    let table = cursor.name(alloc)?;
    let (filter, _) = parts(filter(alloc, cursor)?);
    Ok(Parsed::Statement(Statement::Delete(Delete {
        table: table.text,
        place: table.place,
        filter,
    })))
}
