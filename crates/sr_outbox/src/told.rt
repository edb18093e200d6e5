//! Items of what changed since a version.
ghost use Rattle.std.specs.Prelude.{◌≡◌, ◌<◌, [], ◌++◌, IfOk, OnOk};
ghost use Rattle.sr_log.specs.Held.{Held, entries_above};
ghost use Rattle.sr_tables.specs.Stored.{Stored};
ghost use Rattle.sr_outbox.specs.Items.{notice_item, notice_items, touched_from};
ghost use Rattle.sr_outbox.specs.Left.{messages};
ghost use Rattle.sr_outbox.specs.Noticed.{noticed};

use crate::item::{Item, Items};
use sr_cell::change::Change;
use sr_cell::list::{NoMemory, Seq};
use sr_log::entry::Entry;
use sr_subs::subs::Subs;
use std::alloc::Global;

/// A notice of each entry of which something touches the subscription. They are those of a log above that version.
pub fn notices_of(
    alloc: Global,
    version: u64,
    entries: &[Entry],
    subs: &Subs,
) -> Result<Items, NoMemory>
    ensures { (tables : Stored) (log : Held) → entries.now ≡ entries_above version log → (version < log.floor → ⊥)
        → IfOk result (λ items. messages tables log items ≡ noticed subs.now entries.now) }
{
    items_of(alloc, version, entries, subs)
}

/// The items of these notices. The first entry stands right above that version.
fn items_of(alloc: Global, version: u64, entries: &[Entry], subs: &Subs) -> Result<Items, NoMemory>
    ensures { IfOk result (λ items. items ≡ notice_items subs.now version entries.now) }
{
    let mut items = Seq::new(alloc);
    let mut above = version;
    for i in 0..entries.len() {
        let entry = &entries[i];
        let places = touched(alloc, subs, entry.changes.as_slice())?;
        push_notice(&mut items, entry.version, above, places)?;
        above = entry.version;
    }
    Ok(items)
}

/// Puts a notice behind the items, where something is told.
fn push_notice(
    items: &mut Items,
    version: u64,
    above: u64,
    places: Seq<usize>,
) -> Result<(), NoMemory>
    ensures { OnOk result (items.new ≡ items.old ++ notice_item version above places) }
{
    if places.is_empty() {
        return Ok(());
    }
    items.push(Item::Notice {
        version,
        above,
        places,
    })
}

/// The places of the changes that touch the subscription.
fn touched(alloc: Global, subs: &Subs, changes: &[Change]) -> Result<Seq<usize>, NoMemory>
    ensures { IfOk result (λ places. places ≡ touched_from 0 subs.now changes.now) }
{
    let mut places = Seq::new(alloc);
    for i in 0..changes.len() {
        if subs.touches(&changes[i]) {
            places.push(i)?;
        }
    }
    Ok(places)
}
