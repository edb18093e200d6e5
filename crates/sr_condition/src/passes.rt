//! Rows that a condition is true of.
ghost use Rattle.std.specs.Prelude.{◌≡◌, true, not, ◌&&◌};
ghost use Rattle.std.specs.List.{list_any};
ghost use Rattle.sr_cell.specs.Cells.{cell_at, cell_eq, cell_le, is_null};
ghost use Rattle.sr_model.specs.Conditions.{And, Or, Not, begins, begins_cell, is_so, on_value, passes, truth, is_true};
ghost use Rattle.sr_model.specs.Sides.{all_say, some_say};
ghost use Rattle.sr_model.specs.Statements.{meets};
ghost use Rattle.sr_query.specs.Binding.{cond_of, compared};
ghost use Rattle.sr_query.specs.Meant.{meant, members, test_meant};
ghost use Rattle.sr_query.specs.Written.{condition_of};
ghost use Rattle.sr_condition.specs.Ranges.{says_test};

use sr_cell::cell::{Cell, Row};
use sr_cell::text::Text;
use sr_grammar::statement::Op;
use sr_query::condition::{Condition, Test};
use sr_query::write::Filter;

/// Whether the filter lets the row through; without a condition it lets each through.
pub fn meets(filter: &Filter, row: &Row) -> bool
    ensures { result ≡ meets (condition_of filter.now.condition) row.now }
{
    match &filter.condition {
        Some(condition) => passes(condition, row),
        None => true,
    }
}

/// Whether the condition is true of the row.
pub fn passes(condition: &Condition, row: &Row) -> bool
    ensures { result ≡ is_true (cell_at row.now) (cond_of (meant condition.now)) }
{
    says(true, condition, row)
}

// Whether the condition is true of the row, or whether it is false.
#[cycle(condition)]
fn says(plain: bool, condition: &Condition, row: &Row) -> bool
    ensures { result ≡ is_so plain (truth (cell_at row.now) (cond_of (meant condition.now))) }
{
    match condition {
        Condition::Test(_, output, test) => tests(plain, test, row, output.column),
        Condition::And(all) => conjunction(plain, all, row),
        Condition::Or(all) => disjunction(plain, all, row),
        Condition::Not(one) => negation(plain, one, row),
    }
}

#[cycle(condition)]
fn conjunction(plain: bool, all: &[Condition], row: &Row) -> bool
    ensures { result ≡ is_so plain (truth (cell_at row.now) (And (members all.now))) }
{
    if plain {
        all_say(plain, all, row)
    } else {
        some_say(plain, all, row)
    }
}

#[cycle(condition)]
fn disjunction(plain: bool, all: &[Condition], row: &Row) -> bool
    ensures { result ≡ is_so plain (truth (cell_at row.now) (Or (members all.now))) }
{
    if plain {
        some_say(plain, all, row)
    } else {
        all_say(plain, all, row)
    }
}

#[cycle(condition)]
fn negation(plain: bool, one: &Condition, row: &Row) -> bool
    ensures { result ≡ is_so plain (truth (cell_at row.now) (Not (cond_of (meant one.now)))) }
{
    says(!plain, one, row)
}

#[cycle(condition)]
fn all_say(plain: bool, all: &[Condition], row: &Row) -> bool
    ensures { result ≡ all_say plain (cell_at row.now) (members all.now) }
{
    for condition in all {
        if !says(plain, condition, row) {
            return false;
        }
    }
    true
}

#[cycle(condition)]
fn some_say(plain: bool, all: &[Condition], row: &Row) -> bool
    ensures { result ≡ some_say plain (cell_at row.now) (members all.now) }
{
    for condition in all {
        if says(plain, condition, row) {
            return true;
        }
    }
    false
}

// A column that the row does not have counts as 0.
fn tests(plain: bool, test: &Test, row: &Row, column: u8) -> bool
    ensures { result ≡ says_test plain (test_meant test.now) (cell_at row.now column) }
{
    match row.get(column as usize) {
        Some(cell) => says_test(plain, test, cell),
        None => says_test(plain, test, &Cell::Num(0)),
    }
}

// No test is false of Null, and that of Null is true of it.
fn says_test(plain: bool, test: &Test, cell: &Cell) -> bool
    ensures { result ≡ says_test plain (test_meant test.now) cell.now }
{
    let passed = is_passed(test, cell);
    if plain {
        passed
    } else {
        is_other(cell, passed)
    }
}

fn is_other(cell: &Cell, passed: bool) -> bool
    ensures { result ≡ (not (is_null cell.now) && not passed) }
{
    !cell.is_null() && !passed
}

fn is_passed(test: &Test, cell: &Cell) -> bool
    ensures { result ≡ passes (test_meant test.now) cell.now }
{
    match test {
        Test::Compared(op, value) => compares(*op, cell, value),
        Test::Between(low, high) => of_value(cell, lies_between(cell, low, high)),
        Test::OneOf(values) => of_value(cell, is_one_of(cell, values.as_slice())),
        Test::Prefix(start) => of_value(cell, begins(start, cell)),
        Test::IsNull => cell.is_null(),
    }
}

fn lies_between(cell: &Cell, low: &Cell, high: &Cell) -> bool
    ensures { result ≡ (cell_le low.now cell.now && cell_le cell.now high.now) }
{
    low.is_at_most(cell) && cell.is_at_most(high)
}

fn compares(op: Op, cell: &Cell, value: &Cell) -> bool
    ensures { result ≡ passes (compared op value.now) cell.now }
{
    match op {
        Op::Eq => of_value(cell, equals(cell, value)),
        Op::Ne => of_value(cell, !equals(cell, value)),
        Op::Lt => of_value(cell, !value.is_at_most(cell)),
        Op::Le => of_value(cell, cell.is_at_most(value)),
        Op::Gt => of_value(cell, !cell.is_at_most(value)),
        Op::Ge => of_value(cell, value.is_at_most(cell)),
    }
}

// What is so of a value is not known of Null.
fn of_value(cell: &Cell, known: bool) -> bool
    ensures { result ≡ is_so true (on_value cell.now known) }
{
    match cell {
        Cell::Null => false,
        Cell::Num(_) | Cell::Str(_) => known,
    }
}

fn equals(one: &Cell, other: &Cell) -> bool
    ensures { result ≡ cell_eq one.now other.now }
{
    one.is_at_most(other) && other.is_at_most(one)
}

fn is_one_of(cell: &Cell, values: &[Cell]) -> bool
    ensures { result ≡ list_any (cell_eq cell.now) values.now }
{
    values.iter().any(|value| equals(cell, value))
}

fn begins(start: &Text, cell: &Cell) -> bool
    ensures { result ≡ begins_cell start.now cell.now }
{
    match cell {
        Cell::Num(_) | Cell::Null => false,
        Cell::Str(text) => is_start(start.as_str().as_bytes(), text.as_str().as_bytes()),
    }
}

fn is_start(start: &[u8], text: &[u8]) -> bool
    ensures { result ≡ begins start.now text.now }
{
    text.starts_with(start)
}
