//! Meets of lists of rects.
ghost use Rattle.std.specs.Prelude.{◌≡◌, ◌≤◌, ◌*◌, true, List, [], ◌∷◌, ◌++◌, length, IfOk, OnOk, option_to_list};
ghost use Rattle.std.specs.List.{list_all};
ghost use Rattle.sr_cell.specs.declared.table.Column.{Column};
ghost use Rattle.sr_box.specs.Cut.{rect_meet};
ghost use Rattle.sr_box.specs.Points.{rect_fits};
ghost use Rattle.sr_union.specs.Pieces.{meet_each, near, IsMeet};
ghost use Rattle.sr_union.specs.Grid.{AreCutFrom};

use crate::join::join_all;
use crate::rects::{Rects, meets_some};
use sr_box::rect::Rect;
use sr_cell::list::{Copied, NoMemory};
use sr_cell::table::Table;
use std::alloc::Global;

/// Appends what a rect has in common with another, if they meet.
fn push_meet(alloc: Global, both: &mut Rects, rect: &Rect, other: &Rect) -> Result<(), NoMemory>
    ensures { OnOk result (both.new ≡ both.old ++ option_to_list (rect_meet rect.now other.now)) }
{
    match rect.meet(alloc, other)? {
        None => Ok(()),
        Some(rect) => both.push(rect),
    }
}

/// Appends what a rect has in common with each of the others.
fn push_meets(alloc: Global, both: &mut Rects, rect: &Rect, others: &Rects) -> Result<(), NoMemory>
    ensures { OnOk result (both.new ≡ both.old ++ meet_each rect.now others.now) }
{
    for other in others.as_slice() {
        push_meet(alloc, both, rect, other)?;
    }
    Ok(())
}

fn push_near(alloc: Global, found: &mut Rects, rect: &Rect, others: &[Rect]) -> Result<(), NoMemory>
    ensures { OnOk result (found.new ≡ found.old ++ near others.now (rect.now ∷ [])) }
{
    if meets_some(rect, others) {
        found.push(rect.copy(alloc)?)?;
    }
    Ok(())
}

#[tactic(auto, using(crate::proofs::Meets::near_cons))]
fn copies_near(alloc: Global, rects: &[Rect], others: &[Rect]) -> Result<Rects, NoMemory>
    ensures { IfOk result (λ found. found ≡ near others.now rects.now) }
{
    let mut found = Rects::new(alloc);
    for rect in rects {
        push_near(alloc, &mut found, rect, others)?;
    }
    Ok(found)
}

impl Rects {
    /// Copies of the rects that meet some of the others.
    pub fn near(&self, alloc: Global, others: &Rects) -> Result<Rects, NoMemory>
        ensures { IfOk result (λ found. found ≡ near others.now self.now) }
    {
        if !self.meets(others) {
            return Ok(Rects::new(alloc));
        }
        copies_near(alloc, self.as_slice(), others.as_slice())
    }

    /// What the rects have in common with the others: one rect for each pair that meets.
    pub fn meet(&self, alloc: Global, other: &Rects) -> Result<Rects, NoMemory>
        ensures points { (columns : List Column) → IfOk result (λ both. IsMeet columns self.now other.now both) }
        ensures cuts { (columns : List Column) → list_all (rect_fits columns) self.now ≡ true → list_all (rect_fits columns) other.now ≡ true
            → IfOk result (λ both. AreCutFrom columns (self.now ++ other.now) both) }
        ensures few { IfOk result (λ both. length both ≤ length self.now * length other.now) }
    {
        let mut both = Rects::new(alloc);
        for rect in self.as_slice() {
            push_meets(alloc, &mut both, rect, other)?;
        }
        Ok(both)
    }

    /// The same, with neighbours joined.
    pub fn common(&self, alloc: Global, other: &Rects, table: &Table) -> Result<Rects, NoMemory>
        requires self_fits { list_all (rect_fits table.now.columns) self.now ≡ true }
        requires other_fits { list_all (rect_fits table.now.columns) other.now ≡ true }
        ensures points { IfOk result (λ both. IsMeet table.now.columns self.now other.now both) }
        ensures cuts { IfOk result (λ both. AreCutFrom table.now.columns (self.now ++ other.now) both) }
        ensures few { IfOk result (λ both. length both ≤ length self.now * length other.now) }
    {
        let both = self.meet(alloc, other)?;
        join_all(alloc, table.columns.as_slice(), both)
    }
}
