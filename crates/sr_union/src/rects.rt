//! Lists of rects.
ghost use Rattle.std.specs.Prelude.{◌≡◌, ℕ, ◌<◌, ◌+◌, List, [], ◌∷◌, ◌++◌, ◌↔◌, IsTrue, length, take, drop, OnOk, OnErr, IfOk, slice_get};
ghost use Rattle.std.specs.Prelude.{◌&&◌, true, false};
ghost use Rattle.std.specs.Option.{option_copied, is_some};
ghost use Rattle.std.specs.List.{list_all, list_any};
ghost use Rattle.sr_cell.specs.Cells.{Row as Cells};
ghost use Rattle.sr_box.specs.Cut.{rect_meet};
ghost use Rattle.sr_box.specs.Points.{in_any, rect_fits};
ghost use Rattle.sr_union.specs.Hulls.{in_hull};

use crate::hull::Hull;
use sr_box::rect::Rect;
use sr_cell::cell::Row;
use sr_cell::list::{Copied, NoMemory, Same, Seq};
use sr_cell::table::Table;
use std::alloc::Global;
use std::marker::Model;

/// So many rects are told apart from others by one hull.
const BLOCK: usize = 8;

/// Rects of one table, which contracts see as the list of them. All lie within the hull.
#[derive(Drop)]
pub struct Rects {
    rects: Seq<Rect>,
    hull: Hull,
}

impl Model for Rects {
    ghost use Rattle.std.specs.Prelude.{List};
    ghost use Rattle.sr_box.specs.declared.span.Span.{Span};

    ghost Value = { List (List Span) };

    ghost view = { λ r. r.rects };

    ghost use Rattle.std.specs.Prelude.{◌≡◌, true};
    ghost use Rattle.std.specs.List.{list_all};
    ghost use Rattle.sr_union.specs.Hulls.{in_hull};

    ghost invariant = { λ r. list_all (in_hull r.hull) r.rects ≡ true };
}

impl Rects {
    /// No rects; takes no memory.
    pub fn new(alloc: Global) -> Rects
        ensures { result ≡ [] }
    {
        Rects {
            rects: Seq::new(alloc),
            hull: Hull::empty(),
        }
    }

    /// No rects, with room for so many.
    pub(crate) fn with_room(alloc: Global, len: usize) -> Result<Rects, NoMemory>
        ensures { IfOk result (λ rects. rects ≡ []) }
    {
        Ok(Rects {
            rects: Seq::with_room(alloc, len)?,
            hull: Hull::empty(),
        })
    }

    /// One rect more, at the end.
    pub fn push(&mut self, rect: Rect) -> Result<(), NoMemory>
        ensures pushed { OnOk result (self.new ≡ self.old ++ rect ∷ []) }
        ensures unchanged { OnErr result (self.new ≡ self.old) }
    {
        let hull = self.hull.with(&rect);
        self.rects.push(rect)?;
        self.hull = hull;
        Ok(())
    }

    /// How many rects there are.
    pub fn len(&self) -> usize
        ensures { result ≡ length self.now }
    {
        self.rects.len()
    }

    /// Whether there is no rect.
    pub fn is_empty(&self) -> bool
        ensures { IsTrue result ↔ (self.now ≡ []) }
    {
        self.rects.is_empty()
    }

    /// The rect of that place, counted from 0.
    pub fn get(&self, index: usize) -> Option<&Rect>
        ensures { option_copied result ≡ slice_get self.now index }
    {
        self.rects.get(index)
    }

    /// The rects as a slice.
    pub fn as_slice(&self) -> &[Rect]
        ensures { result.now ≡ self.now }
    {
        self.rects.as_slice()
    }

    /// Takes the rect of that place out.
    pub(crate) fn remove(&mut self, index: usize) -> Rect
        requires { index < length self.old }
        ensures taken { slice_get self.old index ≡ Some result }
        ensures removed { self.new ≡ take index self.old ++ drop (index + 1) self.old }
    {
        self.rects.remove(index)
    }

    /// The rects as a vector; takes no memory.
    pub(crate) fn into_vec(self) -> Vec<Rect>
        ensures { result.items ≡ self }
    {
        let Rects { rects, .. } = self;
        rects.into_vec()
    }

    /// The rects of another list behind these.
    pub fn append(&mut self, more: Rects) -> Result<(), NoMemory>
        ensures appended { OnOk result (self.new ≡ self.old ++ more) }
        ensures unchanged { OnErr result (self.new ≡ self.old) }
    {
        let Rects { rects, hull } = more;
        self.rects.append(rects)?;
        self.hull = self.hull.both(&hull);
        Ok(())
    }

    /// Whether each rect fits the columns of the table.
    pub fn fits(&self, table: &Table) -> bool
        ensures { result ≡ list_all (rect_fits table.now.columns) self.now }
    {
        self.rects.as_slice().iter().all(|rect| rect.fits(table))
    }

    /// Whether some rect meets one of the others; takes no memory.
    pub fn meets(&self, other: &Rects) -> bool
        ensures is { result ≡ list_any (λ r. list_any (λ q. is_some (rect_meet r q)) other.now) self.now }
        ensures apart { (p : Cells) → result ≡ false → (in_any self.now p && in_any other.now p) ≡ false }
    {
        if !self.may_meet(other) {
            return false;
        }
        lists_meet(self.as_slice(), other.as_slice())
    }

    /// Whether the hulls meet: else no rect meets one of the others.
    pub(crate) fn may_meet(&self, other: &Rects) -> bool
        ensures { result ≡ false → list_any (λ r. list_any (λ q. is_some (rect_meet r q)) other.now) self.now ≡ false }
    {
        self.hull.meets(&other.hull)
    }

    /// Whether some rect has the row.
    pub fn has(&self, row: &Row) -> bool
        ensures { result ≡ in_any self.now row.now }
    {
        if !self.hull.may_have(row) {
            return false;
        }
        some_has(self.rects.as_slice(), row)
    }
}

pub(crate) fn meets_some(rect: &Rect, others: &[Rect]) -> bool
    ensures { result ≡ list_any (λ q. is_some (rect_meet rect.now q)) others.now }
{
    others.iter().any(|other| rect.meets(other))
}

/// The hull of the rects.
fn hull_of(rects: &[Rect]) -> Hull
    ensures { list_all (in_hull result) rects.now ≡ true }
{
    let mut hull = Hull::empty();
    for rect in rects {
        hull = hull.with(rect);
    }
    hull
}

/// Whether some rect meets one of the block, whose hull tells most of them apart.
fn meets_block(rects: &[Rect], block: &[Rect]) -> bool
    ensures { result ≡ list_any (λ r. list_any (λ q. is_some (rect_meet r q)) block.now) rects.now }
{
    let hull = hull_of(block);
    for rect in rects {
        if hull.may_meet(rect) && meets_some(rect, block) {
            return true;
        }
    }
    false
}

/// Whether some rect meets one of the others, which are gone through block by block.
fn lists_meet(rects: &[Rect], others: &[Rect]) -> bool
    ensures { result ≡ list_any (λ r. list_any (λ q. is_some (rect_meet r q)) others.now) rects.now }
{
    let mut rest = others;
    while !rest.is_empty() {
        let (block, behind) = rest.split_at(rest.len().min(BLOCK));
        if meets_block(rects, block) {
            return true;
        }
        rest = behind;
    }
    false
}

fn some_has(rects: &[Rect], row: &Row) -> bool
    ensures { result ≡ in_any rects.now row.now }
{
    for rect in rects {
        if rect.has(row) {
            return true;
        }
    }
    false
}

impl Copied for Rects {
    fn copy(&self, alloc: Global) -> Result<Rects, NoMemory> {
        Ok(Rects {
            rects: self.rects.copy(alloc)?,
            hull: self.hull,
        })
    }
}

impl Same for Rects {
    fn same(&self, other: &Rects) -> bool {
        self.rects.same(&other.rects)
    }
}
