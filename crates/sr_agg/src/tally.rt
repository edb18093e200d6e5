//! What is kept of the rows of a group.
ghost use Rattle.std.specs.Prelude.{◌≡◌, IfOk, OnOk, Some, if◌then◌else◌};
ghost use Rattle.std.specs.Ordering.{is_gt};
ghost use Rattle.sr_agg.specs.Groups.{cell_order, greater, lesser, number_in, told_at};
ghost use Rattle.sr_agg.specs.Tallies.{column_in, first_tally, told_by, with_cell, with_null, with_row, with_value, IsFew};

use crate::item::{Function, Item};
use crate::total::{Total, nearest};
use sr_cell::cell::{Cell, Row};
use sr_cell::list::{Copied, NoMemory};
use std::alloc::Global;

/// What is kept of an item: the place of its column among those that group; how many rows there were; or of a column
/// how many values there were, their total, the least or the greatest.
#[derive(Drop)]
pub(crate) enum Tally {
    Grouping(usize),
    Rows(u64),
    Count(usize, u64),
    Sum(usize, Total),
    Min(usize, Option<Cell>),
    Max(usize, Option<Cell>),
}

fn comes_behind(one: &Cell, other: &Cell) -> bool
    ensures { result ≡ is_gt (cell_order one.now other.now) }
{
    one.cmp(other).is_gt()
}

#[tactic(auto, using(crate::proofs::Cells::untold))]
fn told_at(alloc: Global, key: &[Option<Cell>], place: usize) -> Result<Option<Cell>, NoMemory>
    ensures { IfOk result (λ told. told ≡ told_at key.now place) }
{
    match key.get(place) {
        Some(cell) => cell.copy(alloc),
        None => Ok(None),
    }
}

fn number_in(cell: &Cell) -> i64
    ensures { result ≡ number_in cell.now }
{
    match cell {
        Cell::Num(number) => *number,
        Cell::Str(_) | Cell::Null => 0,
    }
}

fn is_above(least: &Option<Cell>, cell: &Cell) -> bool
    ensures { lesser least.now cell.now ≡ (if result then Some cell.now else least.now) }
{
    match least {
        Some(least) => comes_behind(least, cell),
        None => true,
    }
}

fn is_below(greatest: &Option<Cell>, cell: &Cell) -> bool
    ensures { greater greatest.now cell.now ≡ (if result then Some cell.now else greatest.now) }
{
    match greatest {
        Some(greatest) => comes_behind(cell, greatest),
        None => true,
    }
}

/// Keeps the lesser of two.
fn keep_lesser(alloc: Global, least: &mut Option<Cell>, cell: &Cell) -> Result<(), NoMemory>
    ensures { OnOk result (least.new ≡ lesser least.old cell.now) }
{
    if is_above(least, cell) {
        *least = Some(cell.copy(alloc)?);
    }
    Ok(())
}

/// Keeps the greater of two.
fn keep_greater(alloc: Global, greatest: &mut Option<Cell>, cell: &Cell) -> Result<(), NoMemory>
    ensures { OnOk result (greatest.new ≡ greater greatest.old cell.now) }
{
    if is_below(greatest, cell) {
        *greatest = Some(cell.copy(alloc)?);
    }
    Ok(())
}

impl Tally {
    /// Of no rows.
    pub(crate) fn new(item: Item) -> Tally
        ensures { result ≡ first_tally item }
    {
        match item {
            Item::Grouping(place) => Tally::Grouping(place),
            Item::Rows => Tally::Rows(0),
            Item::Of(Function::Count, column) => Tally::Count(column, 0),
            Item::Of(Function::Sum, column) => Tally::Sum(column, Total::new()),
            Item::Of(Function::Min, column) => Tally::Min(column, None),
            Item::Of(Function::Max, column) => Tally::Max(column, None),
        }
    }

    fn column(&self) -> usize
        ensures { result ≡ column_in self.now }
    {
        match self {
            Tally::Grouping(_) | Tally::Rows(_) => 0,
            Tally::Count(column, _) => *column,
            Tally::Sum(column, _) => *column,
            Tally::Min(column, _) => *column,
            Tally::Max(column, _) => *column,
        }
    }

    /// Takes one cell of the column more.
    fn take(&mut self, alloc: Global, cell: &Cell) -> Result<(), NoMemory>
        requires { IsFew self.old }
        ensures { OnOk result (self.new ≡ with_cell self.old cell.now) }
    {
        if cell.is_null() {
            self.take_null();
            return Ok(());
        }
        self.take_value(alloc, cell)
    }

    fn take_null(&mut self)
        requires { IsFew self.old }
        ensures { self.new ≡ with_null self.old }
    {
        match self {
            Tally::Rows(count) => *count += 1,
            _ => {}
        }
    }

    fn take_value(&mut self, alloc: Global, cell: &Cell) -> Result<(), NoMemory>
        requires { IsFew self.old }
        ensures { OnOk result (self.new ≡ with_value self.old cell.now) }
    {
        match self {
            Tally::Grouping(_) => {}
            Tally::Rows(count) => *count += 1,
            Tally::Count(_, count) => *count += 1,
            Tally::Sum(_, total) => total.add(number_in(cell)),
            Tally::Min(_, least) => keep_lesser(alloc, least, cell)?,
            Tally::Max(_, greatest) => keep_greater(alloc, greatest, cell)?,
        }
        Ok(())
    }

    /// Takes one row more.
    #[tactic(auto, using(crate::proofs::Cells::absent))]
    pub(crate) fn add(&mut self, alloc: Global, row: &Row) -> Result<(), NoMemory>
        requires { IsFew self.old }
        ensures { OnOk result (self.new ≡ with_row self.old row.now) }
    {
        match row.get(self.column()) {
            Some(cell) => self.take(alloc, cell),
            None => self.take(alloc, &Cell::Num(0)),
        }
    }

    /// What it tells of the group with these grouping cells.
    pub(crate) fn told(&self, alloc: Global, key: &[Option<Cell>]) -> Result<Option<Cell>, NoMemory>
        ensures { IfOk result (λ told. told ≡ told_by key.now self.now) }
    {
        match self {
            Tally::Grouping(place) => told_at(alloc, key, *place),
            Tally::Rows(count) => Ok(Some(Cell::Num(nearest(*count as i128)))),
            Tally::Count(_, count) => Ok(Some(Cell::Num(nearest(*count as i128)))),
            Tally::Sum(_, total) => Ok(total.told()),
            Tally::Min(_, least) => least.copy(alloc),
            Tally::Max(_, greatest) => greatest.copy(alloc),
        }
    }
}
