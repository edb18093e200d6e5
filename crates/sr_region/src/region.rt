//! One region: some points of a table, the columns held there, a stamp, and the rows of these points.
ghost use Rattle.std.specs.Prelude.{◌≡◌, ◌+◌, ◌==◌, ◌&&◌, true, false, [], filter, IfOk, OnOk, OnErr, IsTrue};
ghost use Rattle.std.specs.List.{list_all};
ghost use Rattle.sr_cell.specs.declared.table.Table.{Table as TheTable};
ghost use Rattle.sr_cell.specs.Attrs.{includes};
ghost use Rattle.sr_cell.specs.Cells.{Row as Cells};
ghost use Rattle.sr_cell.specs.Columns.{is_point};
ghost use Rattle.sr_model.specs.SortedRows.{ascend, with_row};
ghost use Rattle.sr_box.specs.Points.{in_any};
ghost use Rattle.sr_rows.specs.Places.{is_apart};
ghost use Rattle.sr_region.specs.Applied.{applied, IsNew};
ghost use Rattle.sr_region.specs.Regions.{rank, is_in, IsRowIn, IsArea, IsRegion, AreOfClass, joined};

use crate::apply::{change_row, part_in};
use crate::inside::{RowsIn, rows_inside};
use crate::steps::Steps;
use sr_cell::attrs::Attrs;
use sr_cell::cell::{Cell, Row, Rows};
use sr_cell::list::{NoMemory, Seq};
use sr_rows::rows::{put, put_all};
use sr_union::rects::Rects;
use std::alloc::Global;
use std::sync::ledger::Ledger;

/// Some points of a table, the columns that are held there, a stamp, and the rows of these points with the cells of
/// these columns alone.
#[derive(Drop)]
pub struct Region {
    pub table: u8,
    pub key: u16,
    pub attrs: Attrs,
    pub stamp: u64,
    pub rects: Rects,
    pub rows: Rows,
}

/// The place of that column's cell among the cells of the columns of attrs.
#[tactic(auto, using(crate::proofs::Ranks::rank_more))]
pub fn rank_of(attrs: Attrs, column: usize) -> usize
    ensures { result ≡ rank attrs column }
{
    let mut place = 0;
    for c in 0..column {
        if attrs.has_index(c) {
            place += 1;
        }
    }
    place
}

impl Region {
    /// A region without rows.
    pub fn new(alloc: Global, table: u8, key: u16, attrs: Attrs, stamp: u64, rects: Rects) -> Region
        ensures is { result ≡ record { table = table; key = key; attrs = attrs; stamp = stamp; rects = rects; rows = [] } }
        ensures region { (t : TheTable) → IsArea t key attrs rects → IsRegion t result }
    {
        Region {
            table,
            key,
            attrs,
            stamp,
            rects,
            rows: Seq::new(alloc),
        }
    }

    /// Whether it is of the table and holds each of these columns.
    pub fn serves(&self, table: u8, need: Attrs) -> bool
        ensures { result ≡ (self.now.table == table && includes self.now.attrs need) }
    {
        self.table == table && self.attrs.includes(need)
    }

    /// One row more, whose key is not there, at its place by key.
    pub fn put(&mut self, row: Row) -> Result<(), NoMemory>
        requires { ascend (rank self.old.attrs self.old.key) self.old.rows ≡ true }
        ensures put { OnOk result (self.new ≡ record self.old { rows = with_row (rank self.old.attrs self.old.key) self.old.rows row }) }
        ensures region { (t : TheTable) → OnOk result (IsRegion t self.old → IsRowIn t.columns self.old.attrs self.old.rects row
            → is_apart (rank self.old.attrs self.old.key) self.old.rows row ≡ true → IsRegion t self.new) }
        ensures unchanged { OnErr result (self.new ≡ self.old) }
    {
        let place = rank_of(self.attrs, self.key as usize);
        put(&mut self.rows, place, row)
    }

    /// What a change does: the row of its key is gone, and the new row is there if it lies in the rects.
    pub fn apply(&mut self, alloc: Global, key: &Cell, after: &Option<Row>) -> Result<(), NoMemory>
        requires { ascend (rank self.old.attrs self.old.key) self.old.rows ≡ true }
        ensures applied { OnOk result (self.new ≡ applied key.now after.now self.old) }
        ensures region { (t : TheTable) → OnOk result (IsRegion t self.old → IsNew t key.now after.now → IsRegion t self.new) }
        ensures unchanged { OnErr result (self.new ≡ self.old) }
    {
        let place = rank_of(self.attrs, self.key as usize);
        let part = part_in(alloc, self.attrs, &self.rects, after)?;
        change_row(&mut self.rows, place, key, part)
    }

    /// The same, which is one step, also where there is no memory for it.
    pub fn apply_counted<L: Ledger>(
        &mut self,
        alloc: Global,
        key: &Cell,
        after: &Option<Row>,
        steps: &mut Steps<L>,
    ) -> Result<(), NoMemory>
        requires { ascend (rank self.old.attrs self.old.key) self.old.rows ≡ true }
        ensures applied { OnOk result (self.new ≡ applied key.now after.now self.old) }
        ensures region { (t : TheTable) → OnOk result (IsRegion t self.old → IsNew t key.now after.now → IsRegion t self.new) }
        ensures unchanged { OnErr result (self.new ≡ self.old) }
        ensures counted { steps.new ≡ steps.old + 1 }
    {
        steps.tick();
        self.apply(alloc, key, after)
    }

    /// The rows inside of the rects, by key; takes no memory.
    pub fn rows_in<'a>(&'a self, rects: &'a Rects) -> RowsIn<'a>
        ensures attrs { result.attrs ≡ self.now.attrs }
        ensures rows { result.rows ≡ filter (is_in self.now.attrs rects.now) self.now.rows }
    {
        rows_inside(self.attrs, self.rows.as_slice(), rects)
    }

    /// The points and rows of both, where they have no point and no key in common.
    pub fn join(self, other: Region) -> Result<Region, NoMemory>
        requires { ascend (rank self.attrs self.key) other.rows ≡ true }
        ensures joined { IfOk result (λ both. both ≡ joined self other) }
        ensures region { (t : TheTable) → IfOk result (λ both. IsRegion t self → IsRegion t other → AreOfClass self other
            → ((p : Cells) → IsTrue (is_point t.columns p) → (in_any self.rects p && in_any other.rects p) ≡ false)
            → list_all (is_apart (rank self.attrs self.key) self.rows) other.rows ≡ true → IsRegion t both) }
    {
        put_together(self, other)
    }
}

fn put_together(one: Region, other: Region) -> Result<Region, NoMemory>
    requires { ascend (rank one.attrs one.key) other.rows ≡ true }
    ensures { IfOk result (λ both. both ≡ joined one other) }
{
    let place = rank_of(one.attrs, one.key as usize);
    let mut both = one;
    let Region { rects, rows, .. } = other;
    both.rects.append(rects)?;
    put_all(&mut both.rows, place, rows)?;
    Ok(both)
}
