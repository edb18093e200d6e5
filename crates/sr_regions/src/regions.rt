//! The regions of a store as one list, with an index of their rows' keys.
ghost use Rattle.std.specs.Prelude.{◌≡◌, ℕ, ◌+◌, ◌<◌, ◌≤◌, ◌↔◌, true, List, [], ◌∷◌, ◌++◌, length, take, drop, map, slice_get, slice_set, Some, IfOk, OnOk, IsTrue, if◌then◌else◌};
ghost use Rattle.std.specs.List.{All};
ghost use Rattle.std.specs.Option.{option_copied};
ghost use Rattle.sr_cell.specs.declared.table.Table.{Table as TheTable};
ghost use Rattle.sr_region.specs.declared.region.Region.{Region as TheRegion};
ghost use Rattle.sr_regions.specs.Touched.{IsByKey, holds_key, is_touched, told_one, told_all, count_touched, count_all, AreTellable};
ghost use Rattle.sr_regions.specs.Holders.{holders_of};
ghost use Rattle.sr_regions.specs.Named.{is_named, may_have, IsReady};

use crate::holders::{Classes, class_of};
use crate::index::{Index, index_of, with_name};
use crate::touched::{holds_key, is_touched};
use sr_cell::cell::Cell;
use sr_cell::list::{NoMemory, Seq};
use sr_message::message::Tell;
use sr_region::region::Region;
use sr_region::steps::Steps;
use std::alloc::Global;
use std::marker::Model;
use std::sync::ledger::Ledger;

/// Regions, which contracts see as the list of them. Where there is an index, it names each region under the keys of its rows.
#[derive(Drop)]
pub struct Regions {
    list: Vec<Region>,
    index: Option<Index>,
    // how many regions were looked at for a key since there was no index
    looks: usize,
}

impl Model for Regions {
    ghost use Rattle.std.specs.Prelude.{List};
    ghost use Rattle.sr_region.specs.declared.region.Region.{Region as TheRegion};
    ghost use Rattle.sr_regions.specs.Named.{AgreesWith};

    ghost Value = { List TheRegion };

    ghost view = { λ r. r.list.items };

    ghost invariant = { λ r. AgreesWith ⟦<Cell as Ord>⟧.cmp r.index r.list.items };
}

/// The numbers of the regions that may have a row of a key.
#[derive(Drop)]
enum Candidates {
    All,
    These(Seq<usize>),
}

impl Regions {
    /// No regions; takes no memory.
    pub fn new(alloc: Global) -> Regions
        ensures { result ≡ [] }
    {
        Regions {
            list: Vec::new(alloc),
            index: None,
            looks: 0,
        }
    }

    /// These regions; takes no memory.
    pub fn of(regions: Seq<Region>) -> Regions
        ensures { result ≡ regions }
    {
        Regions {
            list: regions.into_vec(),
            index: None,
            looks: 0,
        }
    }

    /// The regions as a plain list; takes no memory.
    pub fn into_seq(self) -> Seq<Region>
        ensures { result ≡ self }
    {
        let Regions { list, .. } = self;
        Seq::from_vec(list)
    }

    /// The regions as a slice.
    pub fn as_slice(&self) -> &[Region]
        ensures { result.now ≡ self.now }
    {
        self.list.as_slice()
    }

    /// How many regions there are.
    pub fn len(&self) -> usize
        ensures { result ≡ length self.now }
    {
        self.list.len()
    }

    /// Whether there is no region.
    pub fn is_empty(&self) -> bool
        ensures { IsTrue result ↔ (self.now ≡ []) }
    {
        self.list.is_empty()
    }

    /// The region of that number, counted from 0.
    pub fn get(&self, number: usize) -> Option<&Region>
        ensures { option_copied result ≡ slice_get self.now number }
    {
        self.list.get(number)
    }

    /// Takes the region of that number out.
    pub fn remove(&mut self, number: usize) -> Region
        requires { number < length self.old }
        ensures taken { slice_get self.old number ≡ Some result }
        ensures removed { self.new ≡ take number self.old ++ drop (number + 1) self.old }
    {
        // The regions behind it get other numbers.
        self.index = None;
        self.list.remove(number)
    }

    /// Tells the region of that number of a change; it is a step only where the change touches the region.
    fn tell_at<L: Ledger>(
        &mut self,
        alloc: Global,
        number: usize,
        tell: &Tell,
        candidate: bool,
        steps: &mut Steps<L>,
    ) -> Result<(), NoMemory>
        requires within { number < length self.old }
        requires ready { (schema : List TheTable) × ((g : TheRegion) → slice_get self.old number ≡ Some g → IsReady schema tell.now candidate g) }
        ensures told { (g : TheRegion) → slice_get self.old number ≡ Some g → OnOk result (self.new ≡ slice_set self.old number (told_one tell.now g)) }
        ensures bound { (g : TheRegion) → slice_get self.old number ≡ Some g → steps.new ≡ steps.old + (if is_touched tell.now g then 1 else 0) }
    {
        if !is_touched(&self.list[number], tell, candidate) {
            return Ok(());
        }
        self.index = with_name(self.index.take(), alloc, &tell.key, number);
        self.list[number].apply_counted(alloc, &tell.key, &tell.after, steps)
    }

    /// Tells all regions of a change, in a step for each that it touches.
    fn tell<L: Ledger>(
        &mut self,
        alloc: Global,
        tell: &Tell,
        steps: &mut Steps<L>,
    ) -> Result<(), NoMemory>
        requires { (schema : List TheTable) × AreTellable schema (tell.now ∷ []) self.old }
        ensures told { OnOk result (self.new ≡ map (told_one tell.now) self.old) }
        ensures counted { OnOk result (steps.new ≡ steps.old + count_touched tell.now self.old) }
        ensures bound { steps.new ≤ steps.old + count_touched tell.now self.old }
    {
        let candidates = candidates_of(&self.index, alloc, &tell.key)?;
        for number in 0..self.len() {
            self.tell_at(alloc, number, tell, candidates.may_have(number), steps)?;
        }
        Ok(())
    }

    /// What notices do: of each key that is told, the old row is gone from all regions of its table, and the new row is in those
    /// whose rects have it. Each tell takes a step for each region that it touches; when memory ran out, no more.
    pub fn apply_counted<L: Ledger>(
        &mut self,
        alloc: Global,
        told: &[Tell],
        steps: &mut Steps<L>,
    ) -> Result<(), NoMemory>
        requires { (schema : List TheTable) × AreTellable schema told.now self.old }
        ensures applied { OnOk result (self.new ≡ told_all told.now self.old) }
        ensures counted { OnOk result (steps.new ≡ steps.old + count_all told.now self.old) }
        ensures bound { steps.new ≤ steps.old + count_all told.now self.old }
    {
        self.look(alloc, told.len());
        for tell in told {
            self.tell(alloc, tell, steps)?;
        }
        Ok(())
    }

    /// Makes an index where one is due.
    fn look(&mut self, alloc: Global, tells: usize)
        ensures { self.new ≡ self.old }
    {
        if !self.is_due(tells) {
            return;
        }
        self.looks = 0;
        self.index = index_of(alloc, &self.list);
    }

    /// Whether an index pays: once more regions were looked at for keys than there are rows to name. Keys stay named when their rows
    /// are gone, so one is made anew once these are most.
    fn is_due(&mut self, tells: usize) -> bool
        ensures { self.new ≡ self.old }
    {
        let rows = count_rows(&self.list);
        if let Some(index) = &self.index {
            return index.len() / 2 > rows;
        }
        let looks = tells.saturating_mul(self.list.len());
        self.looks = self.looks.saturating_add(looks);
        self.looks > rows
    }

    /// The classes whose regions have a row of the key of that table, in the order of the regions.
    pub fn holders(&self, alloc: Global, table: u8, key: &Cell) -> Result<Classes, NoMemory>
        requires { All IsByKey self.now }
        ensures { IfOk result (λ classes. classes ≡ holders_of self.now table key.now) }
    {
        let candidates = candidates_of(&self.index, alloc, key)?;
        let mut classes = Seq::new(alloc);
        for number in 0..self.len() {
            push_holder(
                &mut classes,
                &self.list[number],
                table,
                key,
                candidates.may_have(number),
            )?;
        }
        Ok(classes)
    }
}

impl Candidates {
    /// Whether the region of that number may have a row of the key.
    fn may_have(&self, number: usize) -> bool
        ensures { result ≡ may_have self.now number }
    {
        match self {
            Candidates::All => true,
            Candidates::These(numbers) => numbers.as_slice().contains(&number),
        }
    }
}

/// How many rows the regions have, or the greatest number of the type where there are more.
fn count_rows(regions: &[Region]) -> usize {
    let mut count: usize = 0;
    for region in regions {
        count = count.saturating_add(region.rows.len());
    }
    count
}

/// The numbers of the regions that an index names under the key.
fn candidates_of(index: &Option<Index>, alloc: Global, key: &Cell) -> Result<Candidates, NoMemory>
    ensures { IfOk result (λ found. (n : ℕ) → may_have found n ≡ is_named ⟦<Cell as Ord>⟧.cmp index.now key.now n) }
{
    match index {
        Some(index) => {
            let mut numbers = Seq::new(alloc);
            numbers.extend(index.numbers_at(key))?;
            Ok(Candidates::These(numbers))
        }
        None => Ok(Candidates::All),
    }
}

/// Appends the class of the region, if it has a row of the key.
fn push_holder(
    classes: &mut Classes,
    region: &Region,
    table: u8,
    key: &Cell,
    may_have: bool,
) -> Result<(), NoMemory>
    requires by_key { IsByKey region.now }
    requires may_have { holds_key table key.now region.now ≡ true → may_have ≡ true }
    ensures { OnOk result (classes.new ≡ classes.old ++ holders_of (region.now ∷ []) table key.now) }
{
    if may_have && holds_key(region, table, key) {
        return classes.push(class_of(region));
    }
    Ok(())
}
