//! The regions of a client.
ghost use Rattle.std.specs.Prelude.{◌≡◌, ◌<◌, ◌≤◌, ◌+◌, ◌-◌, ◌^◌, min, true, ◌⊎◌, List, [], ◌∷◌, ◌++◌, length, map, slice_get, Some, IfOk, IfErr, OnOk, OnErr, IsTrue};
ghost use Rattle.std.specs.List.{list_all, All};
ghost use Rattle.sr_cell.specs.declared.table.Table.{Table as TheTable};
ghost use Rattle.sr_cell.specs.Columns.{table_at};
ghost use Rattle.sr_history.specs.declared.mark.Mark.{Mark};
ghost use Rattle.sr_box.specs.Points.{rect_fits, constrains_only};
ghost use Rattle.sr_union.specs.Pieces.{near};
ghost use Rattle.sr_query.specs.Bound.{is_table};
ghost use Rattle.sr_query.specs.declared.query.Part.{Part as ThePart};
ghost use Rattle.sr_regions.specs.Holders.{holders_of};
ghost use Rattle.sr_regions.specs.Touched.{count_all};
ghost use Rattle.sr_store.specs.Told.{Told, IsTold, AreTrueOf};
ghost use Rattle.sr_store.specs.Stores.{IsStore, IsSettled, cover_of, drop_of};
ghost use Rattle.sr_store.specs.Answered.{IsArrival, AreApart, BringOwnKeys, giving_way, HaveArrived, IsGivenUp, rects_on};
ghost use Rattle.sr_store.specs.Fitted.{count_rows, without, lasts_of, IsFitted, IsAnswered};
ghost use Rattle.sr_store.specs.Noticed.{told_to, IsTellOf};
ghost use Rattle.sr_store.specs.Renewing.{IsCutFrom};

use crate::answer::{Answer, Outcome, answer_of};
use crate::fit::{are_within, count_rows, fitted, lasts_of};
use crate::give_way::given_way;
use crate::marks::drop_marks;
use crate::restamp::append_copy;
use sr_cell::attrs::Attrs;
use sr_cell::cause::Cause;
use sr_cell::cell::{Cell, Rows};
use sr_cell::list::{NoMemory, Seq};
use sr_cell::schema::Schema;
use sr_history::mark::Marks;
use sr_message::message::Tell;
use sr_policy::policy::{Lasts, Limits};
use sr_query::query::Part;
use sr_region::region::Region;
use sr_region::steps::Steps;
use sr_regions::holders::Classes;
use sr_regions::regions::Regions;
use sr_union::rects::Rects;
use std::alloc::Global;
use std::marker::Brand;
use std::mem;
use std::sync::ledger::{Blank, Ledger};

/// What was asked of a table, and the rows that came.
#[derive(Drop)]
pub struct Arrival {
    pub table: u8,
    pub key: u16,
    pub attrs: Attrs,
    pub rects: Rects,
    pub rows: Rows,
}

pub type Arrivals = Seq<Arrival>;

/// There is no region of that number; so many there are.
#[derive(Clone, Copy)]
pub struct NoSuch {
    pub count: usize,
}

/// The regions of a client, one for each class of points that it holds, in class order; the limits that they are to meet; what the
/// last answered query asked of its tables; and whether it is known that no region has all its points in others with more columns.
#[derive(Drop)]
pub struct Store {
    pub regions: Regions,
    pub limits: Limits,
    pub last: Lasts,
    pub settled: bool,
}

fn push_near(alloc: Global, cover: &mut Rects, region: &Region, part: &Part) -> Result<(), NoMemory>
    ensures { OnOk result (cover.new ≡ cover.old ++ near part.now.rects (cover_of part.now (region.now ∷ []))) }
{
    if region.serves(part.table, part.need) {
        return cover.append(region.rects.near(alloc, &part.rects)?);
    }
    Ok(())
}

impl Store {
    /// A store that holds nothing; takes no memory.
    pub fn new(alloc: Global, limits: Limits) -> Store
        ensures { result ≡ record { regions = []; limits = limits; last = []; settled = true } }
    {
        Store {
            regions: Regions::new(alloc),
            limits,
            last: Seq::new(alloc),
            settled: true,
        }
    }

    /// How many rows the regions have, or the greatest number of the type where there are more; takes no memory.
    pub fn rows(&self) -> u64
        ensures { result ≡ min (count_rows self.now.regions) (2 ^ 64 - 1) }
    {
        count_rows(self.regions.as_slice())
    }

    /// The rects of all regions that hold each column that the part needs.
    pub fn cover(&self, alloc: Global, part: &Part) -> Result<Rects, NoMemory>
        ensures { IfOk result (λ cover. cover ≡ cover_of part.now self.now.regions) }
    {
        let mut cover = Rects::new(alloc);
        for region in self.regions.as_slice() {
            if region.serves(part.table, part.need) {
                append_copy(alloc, &mut cover, &region.rects)?;
            }
        }
        Ok(cover)
    }

    /// Those rects of the cover that meet the part, which decide about its points.
    #[tactic(auto, using(crate::proofs::Nearing::near_cover))]
    pub fn cover_near(&self, alloc: Global, part: &Part) -> Result<Rects, NoMemory>
        ensures { IfOk result (λ cover. cover ≡ near part.now.rects (cover_of part.now self.now.regions)) }
    {
        let mut cover = Rects::new(alloc);
        for region in self.regions.as_slice() {
            push_near(alloc, &mut cover, region, part)?;
        }
        Ok(cover)
    }

    /// What an answer does: held rows give way to arriving ones of their key, under the same columns; what arrived is held, the
    /// points that the query touches have its number as their stamp, and the regions whose points are all held under more columns
    /// are dropped; then those that the limits demand. Where there would be too many pieces, all regions are dropped instead. When
    /// memory ran out it holds nothing. From then on the store is settled.
    pub fn answered(
        &mut self,
        alloc: Global,
        schema: &Schema,
        number: u64,
        parts: &[Part],
        arrivals: Arrivals,
    ) -> Result<Marks, NoMemory>
        requires tables { IsTrue (list_all is_table schema.now) }
        requires store { IsStore schema.now self.old.regions }
        requires settled { self.old.settled ≡ true → IsSettled schema.now self.old.regions }
        requires fit { All (λ (part : ThePart). list_all (rect_fits (table_at schema.now part.table).columns) part.rects ≡ true) parts.now }
        requires only { All (λ (part : ThePart). list_all (constrains_only part.need 0) part.rects ≡ true) parts.now }
        requires named { All (λ (part : ThePart). part.table < length schema.now) parts.now }
        requires arrivals { All (IsArrival schema.now parts.now) arrivals }
        requires apart { AreApart schema.now self.old.regions arrivals }
        requires own { BringOwnKeys arrivals }
        ensures answered { IfOk result (λ marks. IsAnswered schema.now self.old.limits number parts.now arrivals self.old.regions self.new.regions marks
            ⊎ IsGivenUp schema.now parts.now arrivals self.old.regions self.new.regions marks) }
        ensures cuts { All (IsCutFrom schema.now (rects_on self.old.regions parts.now arrivals)) self.new.regions }
        ensures store { IsStore schema.now self.new.regions }
        ensures looked { self.new.settled ≡ true }
        ensures settled { IsSettled schema.now self.new.regions }
        ensures true_still { (told : Told) → IsTold schema.now told → AreTrueOf told (giving_way arrivals self.old.regions) → HaveArrived told arrivals → AreTrueOf told self.new.regions }
        ensures last { OnOk result (self.new.last ≡ lasts_of schema.now parts.now) }
        ensures limits { self.new.limits ≡ self.old.limits }
        ensures nothing_left { OnErr result (self.new.regions ≡ []) }
    {
        let held = mem::replace(&mut self.regions, Regions::new(alloc));
        let old = given_way(held.into_seq(), arrivals.as_slice());
        let settled = mem::replace(&mut self.settled, true);
        self.last = lasts_of(alloc, schema, parts)?;
        match answer_of(alloc, schema, number, parts, arrivals, old, settled)? {
            Outcome::Answered(answer) => self.keep(alloc, schema, answer),
            Outcome::GivenUp(drops) => Ok(drops),
        }
    }

    /// Keeps the regions of an answer as far as the limits allow. When memory ran out it holds nothing.
    pub(crate) fn keep(
        &mut self,
        alloc: Global,
        schema: &Schema,
        answer: Answer,
    ) -> Result<Marks, NoMemory>
        requires tables { IsTrue (list_all is_table schema.now) }
        requires store { IsStore schema.now answer.regions }
        requires nothing { self.old.regions ≡ [] }
        ensures kept { IfOk result (λ marks. (drops : List Mark) × IsFitted schema.now self.old.limits self.old.last answer.regions self.new.regions drops × (marks ≡ answer.marks ++ drops)) }
        ensures last { self.new.last ≡ self.old.last }
        ensures limits { self.new.limits ≡ self.old.limits }
        ensures flag { self.new.settled ≡ self.old.settled }
        ensures nothing_left { OnErr result (self.new.regions ≡ []) }
    {
        let kept = fitted(alloc, schema, self.limits, self.last.as_slice(), answer)?;
        self.regions = Regions::of(kept.regions);
        Ok(kept.marks)
    }

    /// Drops regions until the limits are met: rows first, then regions, each time the one that the policy names. After want
    /// of memory it holds nothing.
    pub fn fit(&mut self, alloc: Global, schema: &Schema) -> Result<Marks, NoMemory>
        requires tables { IsTrue (list_all is_table schema.now) }
        requires store { IsStore schema.now self.old.regions }
        ensures fitted { IfOk result (IsFitted schema.now self.old.limits self.old.last self.old.regions self.new.regions) }
        ensures last { self.new.last ≡ self.old.last }
        ensures limits { self.new.limits ≡ self.old.limits }
        ensures flag { self.new.settled ≡ self.old.settled }
        ensures nothing_left { OnErr result (self.new.regions ≡ []) }
    {
        let marks = Seq::new(alloc);
        if are_within(self.regions.as_slice(), self.limits) {
            return Ok(marks);
        }
        let regions = mem::replace(&mut self.regions, Regions::new(alloc)).into_seq();
        self.keep(alloc, schema, Answer { regions, marks })
    }

    /// What notices do: of each key that is told, the old row is gone from all regions of its table, and the new row is in those
    /// whose rects have it. When memory ran out it holds nothing.
    pub fn apply(&mut self, alloc: Global, told: &[Tell]) -> Result<(), NoMemory>
        requires { (schema : List TheTable) × IsStore schema self.old.regions × All (IsTellOf schema) told.now }
        ensures applied { OnOk result (self.new.regions ≡ map (told_to told.now) self.old.regions) }
        ensures store { (schema : List TheTable) → OnOk result (IsStore schema self.old.regions → All (IsTellOf schema) told.now → IsStore schema self.new.regions) }
        ensures last { self.new.last ≡ self.old.last }
        ensures limits { self.new.limits ≡ self.old.limits }
        ensures flag { self.new.settled ≡ self.old.settled }
        ensures nothing_left { OnErr result (self.new.regions ≡ []) }
    {
        self.apply_from::<Brand>(alloc, told, Blank::new(1))
    }

    /// The same, with the steps counted from a blank on, and the count let go.
    fn apply_from<L: Ledger>(
        &mut self,
        alloc: Global,
        told: &[Tell],
        blank: Blank,
    ) -> Result<(), NoMemory>
        requires name { blank.name ≡ L.name }
        requires parts { blank.parts ≡ L.parts }
        requires some { 0 < blank.parts }
        requires tellable { (schema : List TheTable) × IsStore schema self.old.regions × All (IsTellOf schema) told.now }
        ensures applied { OnOk result (self.new ≡ record self.old { regions = map (told_to told.now) self.old.regions }) }
        ensures nothing_left { OnErr result (self.new ≡ record self.old { regions = [] }) }
    {
        let mut steps: Steps<L> = Steps::new(blank);
        self.apply_counted(alloc, told, &mut steps)
    }

    /// The same, with a count of its steps, each of which applies a change to a region: a change takes one for each region of its table
    /// that has a row with its key or whose rects have its new row. When memory ran out there are no more of them.
    pub fn apply_counted<L: Ledger>(
        &mut self,
        alloc: Global,
        told: &[Tell],
        steps: &mut Steps<L>,
    ) -> Result<(), NoMemory>
        requires { (schema : List TheTable) × IsStore schema self.old.regions × All (IsTellOf schema) told.now }
        ensures applied { OnOk result (self.new ≡ record self.old { regions = map (told_to told.now) self.old.regions }) }
        ensures counted { OnOk result (steps.new ≡ steps.old + count_all told.now self.old.regions) }
        ensures bound { steps.new ≤ steps.old + count_all told.now self.old.regions }
        ensures nothing_left { OnErr result (self.new ≡ record self.old { regions = [] }) }
    {
        match self.regions.apply_counted(alloc, told, steps) {
            Ok(()) => Ok(()),
            Err(no) => {
                self.forget(alloc);
                Err(no)
            }
        }
    }

    /// The classes that hold a row with that key of the table, in class order.
    pub fn holders(&self, alloc: Global, table: u8, key: &Cell) -> Result<Classes, NoMemory>
        requires { (schema : List TheTable) × IsStore schema self.now.regions }
        ensures { IfOk result (λ classes. classes ≡ holders_of self.now.regions table key.now) }
    {
        self.regions.holders(alloc, table, key)
    }

    /// Drops all regions, in class order, also where there is no memory for the marks.
    pub fn drop_all(&mut self, alloc: Global, cause: Cause) -> Result<Marks, NoMemory>
        ensures marks { IfOk result (λ marks. marks ≡ map (drop_of cause) self.old.regions) }
        ensures nothing_left { self.new ≡ record self.old { regions = [] } }
    {
        let old = mem::replace(&mut self.regions, Regions::new(alloc));
        drop_marks(Seq::new(alloc), cause, old.into_seq())
    }

    /// Takes out the region of that number, counted from 0.
    pub fn evict(&mut self, number: usize) -> Result<Region, NoSuch>
        ensures evicted { IfOk result (λ region. slice_get self.old.regions number ≡ Some region) }
        ensures left { OnOk result (self.new ≡ record self.old { regions = without number self.old.regions }) }
        ensures none { IfErr result (λ no. (no.count ≡ length self.old.regions) × (length self.old.regions ≤ number)) }
        ensures unchanged { OnErr result (self.new ≡ self.old) }
    {
        let count = self.regions.len();
        if number < count {
            Ok(self.regions.remove(number))
        } else {
            Err(NoSuch { count })
        }
    }

    /// Forgets all regions; takes no memory.
    pub fn forget(&mut self, alloc: Global)
        ensures { self.new ≡ record self.old { regions = [] } }
    {
        self.regions = Regions::new(alloc);
    }
}
