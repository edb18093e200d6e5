//! The points that a client asked for.
ghost use Rattle.std.specs.Prelude.{◌≡◌, not, ℕ, false, ◌∷◌, ◌++◌, ◌↔◌, [], ◌||◌, OnOk, OnErr, IsTrue};
ghost use Rattle.std.specs.List.{list_all, AllByRecursion};
ghost use Rattle.sr_cell.specs.Attrs.{has_column};
ghost use Rattle.sr_cell.specs.Cells.{Row as TheRow, cell_eq};
ghost use Rattle.sr_subs.specs.Subscription.{has_point, touches, touches_entry, FitsSome};
ghost use Rattle.sr_union.specs.Search.{is_nothing};
ghost use Rattle.sr_box.specs.Rows.{has_row};
ghost use Rattle.sr_message.specs.Agree.{same_from, agree};

use sr_cell::attrs::Attrs;
use sr_cell::cell::{Cell, Row};
use sr_cell::change::Change;
use sr_cell::list::{Copied, NoMemory, Seq};
use sr_message::message::Holding;
use sr_union::rects::Rects;
use std::alloc::Global;
use std::marker::Model;

/// The points that a client asked for, in entries: a table, columns of it, and points.
#[derive(Drop)]
pub struct Subs {
    holdings: Seq<Holding>,
}

impl Model for Subs {
    ghost use Rattle.std.specs.Prelude.{List};
    ghost use Rattle.sr_message.specs.declared.message.Holding.{Holding};

    ghost Value = { List Holding };

    ghost view = { λ s. s.holdings };
}

impl Subs {
    /// No points; takes no memory.
    pub fn new(alloc: Global) -> Subs
        ensures { result ≡ [] }
    {
        Subs {
            holdings: Seq::new(alloc),
        }
    }

    /// No points any more; takes no memory.
    pub fn clear(&mut self)
        ensures { self.new ≡ [] }
    {
        self.holdings.truncate(0);
    }

    /// The points of these rects of that table too, under these columns.
    pub fn add(
        &mut self,
        alloc: Global,
        table: u8,
        attrs: Attrs,
        rects: &Rects,
    ) -> Result<(), NoMemory>
        ensures added { OnOk result (self.new ≡ self.old ++ record { table = table; attrs = attrs; rects = rects.now } ∷ []) }
        ensures unchanged { OnErr result (self.new ≡ self.old) }
    {
        let rects = match rects.copy(alloc) {
            Ok(rects) => rects,
            Err(no) => return Err(no),
        };
        self.holdings.push(Holding {
            table,
            attrs,
            rects,
        })
    }

    /// Whether there is no point.
    pub fn is_empty(&self) -> bool
        requires points { AllByRecursion FitsSome self.now }
        ensures { IsTrue result ↔ ((table attrs : ℕ) (row : TheRow) → has_point self.now table attrs row ≡ false) }
    {
        are_bare(self.holdings.as_slice())
    }

    /// Whether a change has to be told: for some entry its old or its new row is among the points, unless both are and they are equal
    /// in the entry's columns.
    pub fn touches(&self, change: &Change) -> bool
        ensures { result ≡ touches self.now change.now }
    {
        some_touches(self.holdings.as_slice(), change)
    }
}

fn are_bare(holdings: &[Holding]) -> bool
    ensures { result ≡ list_all (λ h. is_nothing h.rects) holdings.now }
{
    for holding in holdings {
        if !is_bare(&holding.rects) {
            return false;
        }
    }
    true
}

fn is_bare(rects: &Rects) -> bool
    ensures { result ≡ is_nothing rects.now }
{
    rects.is_empty()
}

fn some_touches(holdings: &[Holding], change: &Change) -> bool
    ensures { result ≡ touches holdings.now change.now }
{
    for holding in holdings {
        if is_touched(holding, change) {
            return true;
        }
    }
    false
}

fn is_touched(holding: &Holding, change: &Change) -> bool
    ensures { result ≡ touches_entry change.now holding.now }
{
    if holding.table != change.table {
        return false;
    }
    let was = has_row(&holding.rects, &change.before);
    let is = has_row(&holding.rects, &change.after);
    (was || is) && !(was && is && agree(holding.attrs, &change.before, &change.after))
}

fn agree(attrs: Attrs, before: &Option<Row>, after: &Option<Row>) -> bool
    ensures { result ≡ agree attrs before.now after.now }
{
    match (before, after) {
        (Some(before), Some(after)) => are_same(attrs, before.as_slice(), after.as_slice()),
        _ => false,
    }
}

fn are_same(attrs: Attrs, before: &[Cell], after: &[Cell]) -> bool
    ensures { result ≡ same_from 0 attrs before.now after.now }
{
    if before.len() != after.len() {
        return false;
    }
    for i in 0..before.len() {
        if !is_same_in(attrs, i, &before[i], &after[i]) {
            return false;
        }
    }
    true
}

// The column is not one of these, or its cells are equal.
fn is_same_in(attrs: Attrs, column: usize, before: &Cell, after: &Cell) -> bool
    ensures { result ≡ (not (has_column attrs column) || cell_eq before.now after.now) }
{
    !attrs.has_index(column) || is_same(before, after)
}

fn is_same(before: &Cell, after: &Cell) -> bool
    ensures { result ≡ cell_eq before.now after.now }
{
    before.is_at_most(after) && after.is_at_most(before)
}

fn has_row(rects: &Rects, row: &Option<Row>) -> bool
    ensures { result ≡ has_row rects.now row.now }
{
    match row {
        Some(row) => rects.has(row),
        None => false,
    }
}
