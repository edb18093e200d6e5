//! A row of a table, lent with the cells of some columns.
ghost use Rattle.std.specs.Prelude.{◌≡◌, slice_get, IfOk};
ghost use Rattle.std.specs.Option.{option_copied};
ghost use Rattle.sr_cell.specs.Cells.{cell_le};
ghost use Rattle.sr_region.specs.Regions.{rank};
ghost use Rattle.sr_join.specs.Shown.{cell_of};

use sr_cell::attrs::Attrs;
use sr_cell::cell::{Cell, Row};
use sr_cell::list::{Copied, NoMemory};
use sr_region::region::rank_of;
use std::alloc::Global;
use std::marker::Model;

/// A lent row with the cells of these columns alone.
#[derive(Drop)]
pub struct Shown<'a> {
    attrs: Attrs,
    row: &'a Row,
}

impl<'a> Model for Shown<'a> {
    ghost use Rattle.sr_join.specs.Shown.{Shown};

    ghost Value = { Shown };

    ghost view = { λ s. record { attrs = s.attrs; cells = s.row.now } };
}

impl<'a> Shown<'a> {
    pub(crate) fn new(attrs: Attrs, row: &'a Row) -> Shown<'a>
        ensures { result ≡ record { attrs = attrs; cells = row.now } }
    {
        Shown { attrs, row }
    }

    /// The same row, lent once more.
    pub(crate) fn again(&self) -> Shown<'a>
        ensures { result ≡ self.now }
    {
        Shown {
            attrs: self.attrs,
            row: self.row,
        }
    }

    /// The cell of that column, if the row has it.
    pub(crate) fn cell(&self, column: usize) -> Option<&Cell>
        ensures { option_copied result ≡ slice_get self.now.cells (rank self.now.attrs column) }
    {
        self.row.get(rank_of(self.attrs, column))
    }

    /// The cell of that column; where the row does not have it, it counts as a 0.
    #[tactic(auto, using(sr_rows::proofs::Order::cell_at_absent))]
    pub(crate) fn copy_of(&self, alloc: Global, column: usize) -> Result<Cell, NoMemory>
        ensures { IfOk result (λ cell. cell ≡ cell_of column self.now) }
    {
        match self.row.get(rank_of(self.attrs, column)) {
            Some(cell) => cell.copy(alloc),
            None => Ok(Cell::Num(0)),
        }
    }

    /// Whether the cell of that column is not above that one.
    #[tactic(auto, using(sr_rows::proofs::Order::cell_at_absent))]
    pub(crate) fn is_at_most(&self, column: usize, cell: &Cell) -> bool
        ensures { result ≡ cell_le (cell_of column self.now) cell.now }
    {
        match self.row.get(rank_of(self.attrs, column)) {
            Some(own) => own.is_at_most(cell),
            None => Cell::Num(0).is_at_most(cell),
        }
    }

    /// Whether the cell of that column is not below that one.
    #[tactic(auto, using(sr_rows::proofs::Order::cell_at_absent))]
    pub(crate) fn is_at_least(&self, column: usize, cell: &Cell) -> bool
        ensures { result ≡ cell_le cell.now (cell_of column self.now) }
    {
        match self.row.get(rank_of(self.attrs, column)) {
            Some(own) => cell.is_at_most(own),
            None => cell.is_at_most(&Cell::Num(0)),
        }
    }

    /// Whether its cell of that column is not above that of another row.
    #[tactic(auto, using(sr_rows::proofs::Order::cell_at_absent))]
    pub(crate) fn is_before(&self, column: usize, other: &Shown<'a>) -> bool
        ensures { result ≡ cell_le (cell_of column self.now) (cell_of column other.now) }
    {
        match other.row.get(rank_of(other.attrs, column)) {
            Some(cell) => self.is_at_most(column, cell),
            None => self.is_at_most(column, &Cell::Num(0)),
        }
    }
}
