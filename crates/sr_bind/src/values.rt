//! Values, and what a column is tested for.
ghost use Rattle.std.specs.Prelude.{◌≡◌, ℕ, map, Ok, Err, IsTrue, IfOk};
ghost use Rattle.std.specs.List.{list_all};
ghost use Rattle.sr_query.specs.Binding.{value_of, each, is_of, is_inside, test_of};
ghost use Rattle.sr_query.specs.Decided.{Decides};
ghost use Rattle.sr_query.specs.Meant.{test_meant, holds};
ghost use Rattle.sr_query.specs.Writes.{typed};
ghost use Rattle.sr_bind.specs.TestsOf.{between_of, prefix_of};
ghost use Rattle.sr_condition.specs.Suits.{cell_suits, test_suits};

use sr_cell::cell::{Cell, Row};
use sr_cell::fault::{Fault, Why};
use sr_cell::list::{Copied, No, Seq};
use sr_cell::table::Kind;
use sr_cell::text::Text;
use sr_grammar::statement::{Atom, Literal};
use sr_query::condition::Test;
use std::alloc::Global;

/// The least number of the default domain.
const LOW: i64 = -1_099_511_627_776;

/// The greatest number of the default domain.
const HIGH: i64 = 1_099_511_627_775;

/// The most bytes of a text.
const LONGEST: usize = 120;

/// The value of a literal that is compared with a column of that kind.
fn value_of(alloc: Global, kind: Kind, literal: &Literal) -> Result<Cell, No<Fault>>
    ensures decided { Decides (λ v. v) result (value_of kind literal.now) }
    ensures suits { IfOk result (λ v. IsTrue (cell_suits kind v)) }
{
    if !is_of(kind, &literal.cell) {
        return Err(refused(Why::WrongType, literal));
    }
    if !is_inside(&literal.cell) {
        return Err(refused(Why::OutOfDomain, literal));
    }
    Ok(literal.cell.copy(alloc)?)
}

/// Refuses a literal that is not of that kind, whatever its domain.
pub fn typed(kind: Kind, literal: &Literal) -> Result<(), No<Fault>>
    ensures { Decides (λ _. literal.now.cell) result (typed kind literal.now) }
{
    if is_of(kind, &literal.cell) {
        Ok(())
    } else {
        Err(refused(Why::WrongType, literal))
    }
}

fn refused(why: Why, literal: &Literal) -> No<Fault>
    ensures { result ≡ No.Refused (record { why = why; at = literal.now.place }) }
{
    No::Refused(Fault {
        why,
        at: literal.place,
    })
}

fn is_of(kind: Kind, cell: &Cell) -> bool
    ensures { result ≡ is_of kind cell.now }
{
    match (kind, cell) {
        (_, Cell::Null) => true,
        (Kind::Num, Cell::Num(_)) => true,
        (Kind::Str, Cell::Str(_)) => true,
        _ => false,
    }
}

fn is_inside(cell: &Cell) -> bool
    ensures { result ≡ is_inside cell.now }
{
    match cell {
        Cell::Num(number) => LOW <= *number && *number <= HIGH,
        Cell::Str(text) => text.as_str().len() <= LONGEST,
        Cell::Null => false,
    }
}

/// The values of the literals of a list.
fn values_of(alloc: Global, kind: Kind, literals: &[Literal]) -> Result<Row, No<Fault>>
    ensures decided { Decides (λ vs. vs) result (each (value_of kind) literals.now) }
    ensures suits { IfOk result (λ vs. IsTrue (list_all (cell_suits kind) vs)) }
{
    let mut values = Seq::new(alloc);
    for literal in literals {
        match value_of(alloc, kind, literal) {
            Ok(value) => values.push(value)?,
            Err(no) => return Err(no),
        }
    }
    Ok(values)
}

/// Whether the atom says its test, and not the contrary.
pub fn holds(atom: &Atom) -> bool
    ensures { result ≡ holds atom.now }
{
    match atom {
        Atom::Cmp(_, _) | Atom::Between(_, _) | Atom::OneOf(_) | Atom::Prefix(_) | Atom::IsNull =>
            true,
        Atom::NotBetween(_, _) | Atom::NotOneOf(_) | Atom::NotPrefix(_) | Atom::NotNull => false,
    }
}

/// What a column of that kind is tested for, by the atom or by its contrary.
pub fn test_of(alloc: Global, kind: Kind, atom: &Atom) -> Result<Test, No<Fault>>
    ensures decided { Decides (λ t. (holds atom.now, test_meant t)) result (test_of kind atom.now) }
    ensures suits { IfOk result (λ t. IsTrue (test_suits kind (test_meant t))) }
{
    match atom {
        Atom::Cmp(op, literal) => match value_of(alloc, kind, literal) {
            Ok(value) => Ok(Test::Compared(*op, value)),
            Err(no) => Err(no),
        },
        Atom::Between(low, high) | Atom::NotBetween(low, high) => between(alloc, kind, low, high),
        Atom::OneOf(all) | Atom::NotOneOf(all) => match values_of(alloc, kind, all.as_slice()) {
            Ok(values) => Ok(Test::OneOf(values)),
            Err(no) => Err(no),
        },
        Atom::Prefix(text) | Atom::NotPrefix(text) => prefix(alloc, kind, text),
        Atom::IsNull | Atom::NotNull => Ok(Test::IsNull),
    }
}

fn between(alloc: Global, kind: Kind, low: &Literal, high: &Literal) -> Result<Test, No<Fault>>
    ensures decided { Decides test_meant result (between_of kind low.now high.now) }
    ensures suits { IfOk result (λ t. IsTrue (test_suits kind (test_meant t))) }
{
    let low = match value_of(alloc, kind, low) {
        Ok(value) => value,
        Err(no) => return Err(no),
    };
    match value_of(alloc, kind, high) {
        Ok(high) => Ok(Test::Between(low, high)),
        Err(no) => Err(no),
    }
}

fn prefix(alloc: Global, kind: Kind, literal: &Literal) -> Result<Test, No<Fault>>
    ensures decided { Decides test_meant result (prefix_of kind literal.now) }
    ensures suits { IfOk result (λ t. IsTrue (test_suits kind (test_meant t))) }
{
    match value_of(alloc, kind, literal) {
        Ok(Cell::Str(start)) => Ok(Test::Prefix(start)),
        Ok(Cell::Num(_)) | Ok(Cell::Null) => Ok(Test::Prefix(Text::of(alloc, "")?)),
        Err(no) => Err(no),
    }
}
