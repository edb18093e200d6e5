//! Reading a CREATE.
ghost use Rattle.std.specs.Prelude.{◌≡◌, codes, true, false, IsTrue, MatchOption};
ghost use Rattle.sr_grammar.specs.Tokens.{upper, is_reserved};
ghost use Rattle.sr_grammar.specs.Columns.{IsColumn, all_left};
ghost use Rattle.sr_grammar_laws.specs.Reading.{Got, next_is};
ghost use Rattle.sr_grammar_laws.specs.Readers as grammar;
ghost use Rattle.sr_grammar_laws.proofs.LawsOfColumns.{both_column, column_more};
ghost use Rattle.sr_grammar_laws.proofs.Loops.{shrinks};
ghost use Rattle.sr_sql.specs.Views.{Reads};
ghost use Rattle.sr_sql.specs.Rules.{rule, without, left_seen};
ghost use Rattle.sr_sql.specs.Seen.{tree_seen};

use crate::cursor::Cursor;
use crate::items::{Item, enclosed_list};
use crate::read::Parsed;
use crate::stop::Stop;
use crate::words;
use sr_cell::list::Seq;
use sr_cell::table::Kind;
use sr_cell::text::Text;
use sr_grammar::statement::{Check, ColumnRule, Definition, Definitions};
use std::alloc::Global;

/// The table of a CREATE as it is written, which is judged later.
#[derive(Drop)]
pub(crate) struct Written {
    pub(crate) name: Text,
    pub(crate) columns: Definitions,
}

/// Which rules of a column may still stand; NULL and NOT NULL count as one.
#[derive(Clone, Copy)]
pub(crate) struct Left {
    primary: bool,
    null: bool,
    check: bool,
}

#[tactic(auto, unfolding(sr_grammar_laws::specs::Readers::number))]
fn number(cursor: &mut Cursor) -> Result<i64, Stop>
    ensures { Reads (λ n. n) grammar.number cursor.old result cursor.new }
{
    if let Some(_) = cursor.maybe_mark("-") {
        return Ok(words::minus(cursor.number()?));
    }
    Ok(cursor.number()? as i64)
}

#[tactic(auto, unfolding(sr_grammar_laws::specs::Readers::kind))]
fn kind(cursor: &mut Cursor) -> Result<Kind, Stop>
    ensures { Reads (λ k. k) grammar.kind cursor.old result cursor.new }
{
    if let Some(_) = cursor.maybe_word("INT") {
        return Ok(Kind::Num);
    }
    if let Some(_) = cursor.maybe_word("INTEGER") {
        return Ok(Kind::Num);
    }
    cursor.word("TEXT").and(Ok(Kind::Str))
}

#[tactic(auto, unfolding(sr_grammar_laws::specs::Readers::check))]
fn check(alloc: Global, cursor: &mut Cursor) -> Result<Check, Stop>
    ensures { Reads (λ c. c) grammar.check cursor.old result cursor.new }
{
    let name = cursor.name(alloc)?;
    cursor.word("BETWEEN")?;
    let low = number(cursor)?;
    cursor.word("AND")?;
    let high = number(cursor)?;
    Ok(Check {
        name: name.text,
        low,
        high,
    })
}

/// A check in parentheses.
fn enclosed_check(alloc: Global, cursor: &mut Cursor) -> Result<Check, Stop>
    ensures { Reads (λ c. c) (grammar.in_parens grammar.check) cursor.old result cursor.new }
{
    cursor.mark("(")?;
    let range = check(alloc, cursor)?;
    cursor.mark(")").and(Ok(range))
}

/// Reads a word, if it comes next and may stand there: its place.
fn may(cursor: &mut Cursor, left: bool, word: &str) -> Option<u32>
    requires { IsTrue (is_reserved (upper word.now)) }
    ensures { MatchOption result
        ((next_is (grammar.may left (upper word.now)) cursor.old ≡ false)
        × (cursor.new ≡ cursor.old)) (λ at. (next_is (grammar.may left (upper word.now)) cursor.old ≡ true)
        × (grammar.key (upper word.now) cursor.old ≡ Got at cursor.new)) }
{
    if left { cursor.maybe_word(word) } else { None }
}

/// A rule that may still stand, or None where none does.
#[tactic(auto, unfolding(crate::specs::Rules::rule))]
fn rule(alloc: Global, cursor: &mut Cursor, left: Left) -> Result<Option<ColumnRule>, Stop>
    ensures { Reads (λ r. r) (rule (left_seen left)) cursor.old result cursor.new }
{
    if let Some(_) = may(cursor, left.primary, "PRIMARY") {
        return cursor.word("KEY").and(Ok(Some(ColumnRule::PrimaryKey)));
    }
    if let Some(_) = may(cursor, left.null, "NOT") {
        return cursor.word("NULL").and(Ok(Some(ColumnRule::NotNull)));
    }
    if let Some(_) = may(cursor, left.null, "NULL") {
        return Ok(Some(ColumnRule::Null));
    }
    if let Some(_) = may(cursor, left.check, "CHECK") {
        let range = enclosed_check(alloc, cursor)?;
        return Ok(Some(ColumnRule::Check(range)));
    }
    Ok(None)
}

/// Which rules may stand behind one.
fn without(left: Left, rule: &ColumnRule) -> Left
    ensures { left_seen result ≡ without (left_seen left) rule.now }
{
    match rule {
        ColumnRule::PrimaryKey => Left {
            primary: false,
            ..left
        },
        ColumnRule::NotNull | ColumnRule::Null => Left {
            null: false,
            ..left
        },
        ColumnRule::Check(_) => Left {
            check: false,
            ..left
        },
    }
}

/// The rules of a column.
fn rules(alloc: Global, cursor: &mut Cursor) -> Result<Seq<ColumnRule>, Stop>
    ensures { Reads (λ x. x) (grammar.rules 3 all_left) cursor.old result cursor.new }
{
    let mut left = Left {
        primary: true,
        null: true,
        check: true,
    };
    let mut all = Seq::new(alloc);
    'more: while let Some(found) = rule(alloc, cursor, left)? {
        left = without(left, &found);
        all.push(found)?;
    }
    Ok(all)
}

impl Item for Definition {
    ghost reader = { grammar.column };

    #[tactic(auto, unfolding(sr_grammar_laws::specs::Readers::column))]
    fn read(alloc: Global, cursor: &mut Cursor) -> Result<Definition, Stop> {
        let name = cursor.name(alloc)?;
        let kind = kind(cursor)?;
        let rules = rules(alloc, cursor)?;
        Ok(Definition {
            name: name.text,
            kind,
            rules,
        })
    }

    ghost less = { shrinks grammar.column IsColumn column_more both_column.good };
}

#[tactic(auto, unfolding(sr_grammar_laws::specs::Readers::create))]
pub(crate) fn create(alloc: Global, cursor: &mut Cursor) -> Result<Parsed, Stop>
    ensures { Reads tree_seen grammar.create cursor.old result cursor.new }
{
    cursor.word("CREATE")?;
    cursor.word("TABLE")?;
    let name = cursor.name(alloc)?;
    let columns = enclosed_list(alloc, cursor)?;
    Ok(Parsed::Written(Written {
        name: name.text,
        columns,
    }))
}
