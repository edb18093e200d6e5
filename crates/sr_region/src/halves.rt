//! A region cut into two by rects.
ghost use Rattle.std.specs.Prelude.{◌≡◌, ℕ, ◌<◌, ◌≤◌, true, not, [], ◌++◌, length, filter, None, IfOk, IfErr, IsErrOf, IsTrue, vec_capacity};
ghost use Rattle.std.specs.List.{list_all};
ghost use Rattle.std.specs.VecDeque.{deque_len};
ghost use Rattle.sr_cell.specs.declared.list.No.TheVariants.{Refused};
ghost use Rattle.sr_cell.specs.Cells.{Row as Cells};
ghost use Rattle.sr_cell.specs.Columns.{is_point};
ghost use Rattle.sr_box.specs.Points.{times, rect_fits, constrains_only};
ghost use Rattle.sr_union.specs.Pieces.{near, IsMinus};
ghost use Rattle.sr_box.specs.Corners.{have_first};
ghost use Rattle.sr_union.specs.Grid.{AreCutFrom, grid, all_inner};
ghost use Rattle.sr_region.specs.Regions.{is_in, IsRegion};
ghost use Rattle.sr_region.specs.Halves.{IsInside, IsOutside, IsRefusal, HasFew, half_of};

use crate::inside::has_cells;
use crate::region::Region;
use sr_cell::attrs::Attrs;
use sr_cell::cell::{Row, Rows};
use sr_cell::list::{Copied, No, NoMemory, Seq};
use sr_cell::table::Table;
use sr_union::minus::Over;
use sr_union::rects::Rects;
use std::alloc::Global;
use std::collections::VecDeque;
use std::mem;

/// The regions of the points inside and outside of rects, where there are such points.
#[derive(Drop)]
pub struct Halves {
    pub inside: Option<Region>,
    pub outside: Option<Region>,
}

/// More rects than the limit, or out of memory; with the region, unchanged.
#[derive(Drop)]
pub enum NotSplit {
    Over(Region),
    NoMemory(Region),
}

#[derive(Drop)]
struct CutRects {
    inside: Rects,
    outside: Rects,
}

#[derive(Drop)]
struct CutRows {
    inside: Vec<Row>,
    outside: Vec<Row>,
}

/// The rects of the points inside and outside of others, of which just the meeting ones meet some.
fn cut_rects(
    alloc: Global,
    own: Rects,
    meeting: Rects,
    cut: &Rects,
    table: &Table,
    limit: u32,
) -> Result<CutRects, No<Over>>
    requires meeting { meeting ≡ near cut.now own }
    requires own_fit { list_all (rect_fits table.now.columns) own ≡ true }
    requires cut_fit { list_all (rect_fits table.now.columns) cut.now ≡ true }
    requires once { (p : Cells) → IsTrue (is_point table.now.columns p) → times own p ≤ 1 }
    requires inner { all_inner table.now.columns ≡ true }
    requires first { have_first table.now.columns ≡ true }
    ensures outside { IfOk result (λ both. IsMinus table.now.columns own cut.now both.outside) }
    ensures inside { IfOk result (λ both. IsMinus table.now.columns own both.outside both.inside) }
    ensures cuts { IfOk result (λ both. AreCutFrom table.now.columns (own ++ cut.now) both.outside) }
    ensures cuts_inside { IfOk result (λ both. AreCutFrom table.now.columns (own ++ cut.now) both.inside) }
    ensures few { IfOk result (λ both. length both.outside ≤ limit) }
    ensures few_inside { IfOk result (λ both. length both.inside ≤ limit) }
    ensures over { IsErrOf result (Refused (record {})) → limit < grid table.now.columns (own ++ cut.now) }
{
    let outside = match own.without(alloc, cut, table, limit) {
        Ok(outside) => outside,
        Err(no) => return Err(no),
    };
    if cut.len() == 1 && meeting.len() <= limit as usize {
        // Each rect has one part inside of a single cut.
        let inside = meeting.common(alloc, cut, table)?;
        return Ok(CutRects { inside, outside });
    }
    match meeting.without(alloc, &outside, table, limit) {
        Ok(inside) => Ok(CutRects { inside, outside }),
        Err(no) => Err(no),
    }
}

/// Room for so many rows on either side.
fn rooms(alloc: Global, len: usize) -> Result<CutRows, NoMemory>
    ensures inside { IfOk result (λ both. both.inside.items ≡ []) }
    ensures outside { IfOk result (λ both. both.outside.items ≡ []) }
    ensures room_inside { IfOk result (λ both. len ≤ vec_capacity both.inside) }
    ensures room_outside { IfOk result (λ both. len ≤ vec_capacity both.outside) }
{
    let inside = Vec::with_capacity(alloc, len)?;
    let outside = Vec::with_capacity(alloc, len)?;
    Ok(CutRows { inside, outside })
}

/// The rows inside and outside of rects, in the memory of two other lists.
fn cut_rows(rows: VecDeque<Row>, attrs: Attrs, cut: &Rects, rooms: CutRows) -> CutRows
    requires inside { rooms.inside.items ≡ [] }
    requires outside { rooms.outside.items ≡ [] }
    requires room_inside { deque_len rows ≤ vec_capacity rooms.inside }
    requires room_outside { deque_len rows ≤ vec_capacity rooms.outside }
    ensures inside { result.inside.items ≡ filter (is_in attrs cut.now) rows.items }
    ensures outside { result.outside.items ≡ filter (λ row. not (is_in attrs cut.now row)) rows.items }
{
    let mut rest = rows;
    let CutRows {
        mut inside,
        mut outside,
    } = rooms;
    while let Some(row) = rest.pop_front() {
        if has_cells(cut, attrs, &row) {
            inside.push_reserved(row);
        } else {
            outside.push_reserved(row);
        }
    }
    CutRows { inside, outside }
}

/// A region of the whole's class, where there are rects.
fn half_of(whole: &Region, rects: Rects, rows: Rows) -> Option<Region>
    ensures is { result ≡ half_of whole.now rects rows }
    ensures few { (limit : ℕ) → length rects ≤ limit → HasFew limit result }
{
    if rects.is_empty() {
        return None;
    }
    Some(Region {
        table: whole.table,
        key: whole.key,
        attrs: whole.attrs,
        stamp: whole.stamp,
        rects,
        rows,
    })
}

/// The halves where no point is outside: all rows move as they are.
fn all_inside(alloc: Global, whole: Region, rects: Rects) -> Halves
    ensures inside { result.inside ≡ half_of whole rects whole.rows }
    ensures outside { result.outside ≡ None }
    ensures few { (limit : ℕ) → length rects ≤ limit → HasFew limit result.inside }
{
    let mut whole = whole;
    let rows = mem::replace(&mut whole.rows, Seq::new(alloc));
    Halves {
        inside: half_of(&whole, rects, rows),
        outside: None,
    }
}

/// The halves of those rects, with the rows inside and outside of the cut.
fn halves_of(alloc: Global, whole: Region, cut: &Rects, rects: CutRects, rooms: CutRows) -> Halves
    requires inside { rooms.inside.items ≡ [] }
    requires outside { rooms.outside.items ≡ [] }
    requires room_inside { length whole.rows ≤ vec_capacity rooms.inside }
    requires room_outside { length whole.rows ≤ vec_capacity rooms.outside }
    ensures inside { result.inside ≡ half_of whole rects.inside (filter (is_in whole.attrs cut.now) whole.rows) }
    ensures outside { result.outside ≡ half_of whole rects.outside (filter (λ row. not (is_in whole.attrs cut.now row)) whole.rows) }
    ensures few_inside { (limit : ℕ) → length rects.inside ≤ limit → HasFew limit result.inside }
    ensures few_outside { (limit : ℕ) → length rects.outside ≤ limit → HasFew limit result.outside }
{
    let mut whole = whole;
    let rows = mem::replace(&mut whole.rows, Seq::new(alloc)).into_vec();
    let rows = cut_rows(VecDeque::from_vec(rows), whole.attrs, cut, rooms);
    Halves {
        inside: half_of(&whole, rects.inside, Seq::from_vec(rows.inside)),
        outside: half_of(&whole, rects.outside, Seq::from_vec(rows.outside)),
    }
}

impl Region {
    /// The regions of the points inside and outside of the rects, where their lists of rects are within the limit.
    pub fn split(
        self,
        alloc: Global,
        rects: &Rects,
        table: &Table,
        limit: u32,
    ) -> Result<Halves, NotSplit>
        requires region { IsRegion table.now self }
        requires fit { list_all (rect_fits table.now.columns) rects.now ≡ true }
        requires only { list_all (constrains_only self.attrs 0) rects.now ≡ true }
        requires inner { all_inner table.now.columns ≡ true }
        requires first { have_first table.now.columns ≡ true }
        ensures inside { IfOk result (λ halves. IsInside table.now self rects.now halves.inside) }
        ensures outside { IfOk result (λ halves. IsOutside table.now self rects.now halves.outside) }
        ensures few_inside { IfOk result (λ halves. HasFew limit halves.inside) }
        ensures few_outside { IfOk result (λ halves. HasFew limit halves.outside) }
        ensures refused { IfErr result (λ no. IsRefusal table.now.columns self rects.now limit no) }
    {
        let meeting = match self.rects.near(alloc, rects) {
            Ok(meeting) => meeting,
            Err(_) => return Err(NotSplit::NoMemory(self)),
        };
        if meeting.is_empty() && self.rects.len() <= limit as usize {
            return Ok(Halves {
                inside: None,
                outside: Some(self),
            });
        }
        let own = match self.rects.copy(alloc) {
            Ok(own) => own,
            Err(_) => return Err(NotSplit::NoMemory(self)),
        };
        let cut = match cut_rects(alloc, own, meeting, rects, table, limit) {
            Ok(cut) => cut,
            Err(No::Refused(_)) => return Err(NotSplit::Over(self)),
            Err(No::NoMemory) => return Err(NotSplit::NoMemory(self)),
        };
        if cut.outside.is_empty() {
            return Ok(all_inside(alloc, self, cut.inside));
        }
        match rooms(alloc, self.rows.len()) {
            Ok(rooms) => Ok(halves_of(alloc, self, rects, cut, rooms)),
            Err(_) => Err(NotSplit::NoMemory(self)),
        }
    }

    /// The same of a region that is given up where it is refused: rects that the others do not meet are moved.
    pub fn cut_by(
        self,
        alloc: Global,
        rects: &Rects,
        table: &Table,
        limit: u32,
    ) -> Result<Halves, No<Over>>
        requires region { IsRegion table.now self }
        requires fit { list_all (rect_fits table.now.columns) rects.now ≡ true }
        requires only { list_all (constrains_only self.attrs 0) rects.now ≡ true }
        requires inner { all_inner table.now.columns ≡ true }
        requires first { have_first table.now.columns ≡ true }
        ensures inside { IfOk result (λ halves. IsInside table.now self rects.now halves.inside) }
        ensures outside { IfOk result (λ halves. IsOutside table.now self rects.now halves.outside) }
        ensures few_inside { IfOk result (λ halves. HasFew limit halves.inside) }
        ensures few_outside { IfOk result (λ halves. HasFew limit halves.outside) }
        ensures over { IsErrOf result (Refused (record {})) → limit < grid table.now.columns (self.rects ++ rects.now) }
    {
        let meeting = self.rects.near(alloc, rects)?;
        if meeting.is_empty() && self.rects.len() <= limit as usize {
            return Ok(Halves {
                inside: None,
                outside: Some(self),
            });
        }
        let mut whole = self;
        let own = mem::replace(&mut whole.rects, Rects::new(alloc));
        let cut = match cut_rects(alloc, own, meeting, rects, table, limit) {
            Ok(cut) => cut,
            Err(no) => return Err(no),
        };
        if cut.outside.is_empty() {
            return Ok(all_inside(alloc, whole, cut.inside));
        }
        match rooms(alloc, whole.rows.len()) {
            Ok(rooms) => Ok(halves_of(alloc, whole, rects, cut, rooms)),
            Err(_) => Err(No::NoMemory),
        }
    }
}
