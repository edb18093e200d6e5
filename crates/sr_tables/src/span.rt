//! Between which keys the rows lie that a condition is true of.
ghost use Rattle.std.specs.Prelude.{◌≡◌, ◌<◌, true, Some, None, length, if◌then◌else◌};
ghost use Rattle.std.specs.Option.{option_copied};
ghost use Rattle.sr_cell.specs.declared.cell.Cell.{Cell as TheCell};
ghost use Rattle.sr_cell.specs.Cells.{Row as TheRow, cell_at};
ghost use Rattle.sr_cell.specs.Columns.{fits_columns};
ghost use Rattle.sr_model.specs.Conditions.{And, passes, is_true};
ghost use Rattle.sr_model.specs.Sides.{all_true};
ghost use Rattle.sr_model.specs.Statements.{meets};
ghost use Rattle.sr_query.specs.Binding.{cond_of, compared};
ghost use Rattle.sr_query.specs.Meant.{meant, members, test_meant};
ghost use Rattle.sr_query.specs.Written.{condition_of};
ghost use Rattle.sr_keyed.specs.Keyed.{is_of, is_from, is_up_to};

use sr_cell::cell::Cell;
use sr_cell::table::{Kind, Table};
use sr_grammar::statement::Op;
use sr_query::condition::{Condition, Test};
use sr_query::write::Filter;

/// The cell, where it is of the kind: others are in no order with cells of the kind.
fn of_kind(cell: &Cell, kind: Kind) -> Option<&Cell>
    ensures { option_copied result ≡ (if is_of kind cell.now then Some cell.now else None) }
{
    match (kind, cell) {
        (Kind::Num, Cell::Num(_)) | (Kind::Str, Cell::Str(_)) | (_, Cell::Null) => Some(cell),
        _ => None,
    }
}

fn low_compared(op: Op, value: &Cell, kind: Kind) -> Option<&Cell>
    ensures { (v : TheCell) → is_of kind v ≡ true → passes (compared op value.now) v ≡ true → is_from (option_copied result) v ≡ true }
{
    match op {
        Op::Eq | Op::Ge => Some(value),
        Op::Gt => of_kind(value, kind),
        Op::Ne | Op::Lt | Op::Le => None,
    }
}

fn high_compared(op: Op, value: &Cell, kind: Kind) -> Option<&Cell>
    ensures { (v : TheCell) → is_of kind v ≡ true → passes (compared op value.now) v ≡ true → is_up_to (option_copied result) v ≡ true }
{
    match op {
        Op::Eq | Op::Le => Some(value),
        Op::Lt => of_kind(value, kind),
        Op::Ne | Op::Gt | Op::Ge => None,
    }
}

fn low_tested(test: &Test, kind: Kind) -> Option<&Cell>
    ensures { (v : TheCell) → is_of kind v ≡ true → passes (test_meant test.now) v ≡ true → is_from (option_copied result) v ≡ true }
{
    match test {
        Test::Compared(op, value) => low_compared(*op, value, kind),
        Test::Between(low, _) => Some(low),
        Test::OneOf(_) | Test::Prefix(_) | Test::IsNull => None,
    }
}

fn high_tested(test: &Test, kind: Kind) -> Option<&Cell>
    ensures { (v : TheCell) → is_of kind v ≡ true → passes (test_meant test.now) v ≡ true → is_up_to (option_copied result) v ≡ true }
{
    match test {
        Test::Compared(op, value) => high_compared(*op, value, kind),
        Test::Between(_, high) => Some(high),
        Test::OneOf(_) | Test::Prefix(_) | Test::IsNull => None,
    }
}

/// A lower end of the keys, of this kind, of the rows that the condition is true of.
#[cycle(condition)]
fn low_end(condition: &Condition, key: usize, kind: Kind) -> Option<&Cell>
    ensures { (row : TheRow) → is_of kind (cell_at row key) ≡ true → is_true (cell_at row) (cond_of (meant condition.now)) ≡ true
        → is_from (option_copied result) (cell_at row key) ≡ true }
{
    match condition {
        Condition::Test(_, output, test) => {
            if output.column as usize == key {
                low_tested(test, kind)
            } else {
                None
            }
        }
        Condition::And(all) => low_of_all(all, key, kind),
        Condition::Or(_) | Condition::Not(_) => None,
    }
}

/// A lower end of the keys of the rows that an AND of these is true of.
#[cycle(condition)]
fn low_of_all(all: &[Condition], key: usize, kind: Kind) -> Option<&Cell>
    ensures { (row : TheRow) → is_of kind (cell_at row key) ≡ true → is_true (cell_at row) (And (members all.now)) ≡ true
        → is_from (option_copied result) (cell_at row key) ≡ true }
{
    first_low(all, key, kind)
}

/// The first lower end of the members of an AND.
#[cycle(condition)]
fn first_low(all: &[Condition], key: usize, kind: Kind) -> Option<&Cell>
    ensures { (row : TheRow) → is_of kind (cell_at row key) ≡ true → all_true (cell_at row) (members all.now) ≡ true
        → is_from (option_copied result) (cell_at row key) ≡ true }
{
    for condition in all {
        match low_end(condition, key, kind) {
            Some(low) => return Some(low),
            None => {}
        }
    }
    None
}

/// An upper end of the keys, of this kind, of the rows that the condition is true of.
#[cycle(upper)]
fn high_end(condition: &Condition, key: usize, kind: Kind) -> Option<&Cell>
    ensures { (row : TheRow) → is_of kind (cell_at row key) ≡ true → is_true (cell_at row) (cond_of (meant condition.now)) ≡ true
        → is_up_to (option_copied result) (cell_at row key) ≡ true }
{
    match condition {
        Condition::Test(_, output, test) => {
            if output.column as usize == key {
                high_tested(test, kind)
            } else {
                None
            }
        }
        Condition::And(all) => high_of_all(all, key, kind),
        Condition::Or(_) | Condition::Not(_) => None,
    }
}

/// An upper end of the keys of the rows that an AND of these is true of.
#[cycle(upper)]
fn high_of_all(all: &[Condition], key: usize, kind: Kind) -> Option<&Cell>
    ensures { (row : TheRow) → is_of kind (cell_at row key) ≡ true → is_true (cell_at row) (And (members all.now)) ≡ true
        → is_up_to (option_copied result) (cell_at row key) ≡ true }
{
    first_high(all, key, kind)
}

/// The first upper end of the members of an AND.
#[cycle(upper)]
fn first_high(all: &[Condition], key: usize, kind: Kind) -> Option<&Cell>
    ensures { (row : TheRow) → is_of kind (cell_at row key) ≡ true → all_true (cell_at row) (members all.now) ≡ true
        → is_up_to (option_copied result) (cell_at row key) ≡ true }
{
    for condition in all {
        match high_end(condition, key, kind) {
            Some(high) => return Some(high),
            None => {}
        }
    }
    None
}

/// No row of the table that the filter lets through has a lower key.
pub(crate) fn low_key<'a>(filter: &'a Filter, table: &Table) -> Option<&'a Cell>
    requires { table.now.key < length table.now.columns }
    ensures { (row : TheRow) → fits_columns table.now.columns row ≡ true → meets (condition_of filter.now.condition) row ≡ true
        → is_from (option_copied result) (cell_at row table.now.key) ≡ true }
{
    let key = table.key as usize;
    let columns = table.columns.as_slice();
    match &filter.condition {
        Some(condition) => low_end(condition, key, columns[key].kind),
        None => None,
    }
}

/// No row of the table that the filter lets through has a higher key.
pub(crate) fn high_key<'a>(filter: &'a Filter, table: &Table) -> Option<&'a Cell>
    requires { table.now.key < length table.now.columns }
    ensures { (row : TheRow) → fits_columns table.now.columns row ≡ true → meets (condition_of filter.now.condition) row ≡ true
        → is_up_to (option_copied result) (cell_at row table.now.key) ≡ true }
{
    let key = table.key as usize;
    let columns = table.columns.as_slice();
    match &filter.condition {
        Some(condition) => high_end(condition, key, columns[key].kind),
        None => None,
    }
}
