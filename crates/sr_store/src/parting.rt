//! Regions parted in two: by a flag, or by whether an answer changes them.
ghost use Rattle.std.specs.Prelude.{◌≡◌, Bool, true, false, List, [], ◌∷◌, ◌++◌, length, map, if◌then◌else◌, IfOk, OnOk};
ghost use Rattle.std.specs.List.{All, AllZip};
ghost use Rattle.sr_store.specs.Answered.{flagged};
ghost use Rattle.sr_store.specs.Making.{IsStill, IsStillOr, without_rows};

use crate::restamp::may_touch;
use sr_cell::list::{Copied, NoMemory, Seq};
use sr_query::query::Part;
use sr_region::region::Region;
use std::alloc::Global;

/// The regions without flag, and those with one.
#[derive(Drop)]
pub(crate) struct Parted {
    pub(crate) plain: Seq<Region>,
    pub(crate) flagged: Seq<Region>,
}

/// So many regions are taken out one by one; for more of them all are moved.
const FEW: usize = 4;

/// Whether few flags are set.
fn are_few(flags: &[bool]) -> bool {
    flags.iter().filter(|flag| **flag).count() <= FEW
}

/// The regions without flag, and those with one.
pub(crate) fn sift(
    alloc: Global,
    regions: Seq<Region>,
    flags: Seq<bool>,
) -> Result<Parted, NoMemory>
    requires { length flags ≡ length regions }
    ensures plain { IfOk result (λ both. both.plain ≡ flagged false flags regions) }
    ensures flagged { IfOk result (λ both. both.flagged ≡ flagged true flags regions) }
{
    if are_few(flags.as_slice()) {
        take_out(alloc, regions, flags.as_slice())
    } else {
        move_all(alloc, regions, flags.as_slice())
    }
}

/// Takes out the regions with a flag, the last first; the others stay where they are, but for what closes the gaps.
fn take_out(alloc: Global, regions: Seq<Region>, flags: &[bool]) -> Result<Parted, NoMemory>
    requires { length flags.now ≡ length regions }
    ensures plain { IfOk result (λ both. both.plain ≡ flagged false flags.now regions) }
    ensures flagged { IfOk result (λ both. both.flagged ≡ flagged true flags.now regions) }
{
    let mut plain = regions;
    let mut flagged = Seq::new(alloc);
    for i in (0..flags.len()).rev() {
        if flags[i] {
            flagged.insert(0, plain.remove(i))?;
        }
    }
    Ok(Parted { plain, flagged })
}

/// One region more, behind those without flag or behind those with one.
fn put(both: &mut Parted, region: Region, flag: bool) -> Result<(), NoMemory>
    ensures plain { OnOk result (both.new.plain ≡ (if flag then both.old.plain else both.old.plain ++ region ∷ [])) }
    ensures flagged { OnOk result (both.new.flagged ≡ (if flag then both.old.flagged ++ region ∷ [] else both.old.flagged)) }
{
    if flag {
        both.flagged.push(region)
    } else {
        both.plain.push(region)
    }
}

/// Moves each region to those without flag, or to those with one.
fn move_all(alloc: Global, regions: Seq<Region>, flags: &[bool]) -> Result<Parted, NoMemory>
    requires { length flags.now ≡ length regions }
    ensures plain { IfOk result (λ both. both.plain ≡ flagged false flags.now regions) }
    ensures flagged { IfOk result (λ both. both.flagged ≡ flagged true flags.now regions) }
{
    let mut both = Parted {
        plain: Seq::new(alloc),
        flagged: Seq::new(alloc),
    };
    let mut i = 0;
    for region in regions.into_vec() {
        put(&mut both, region, flags[i])?;
        i += 1;
    }
    Ok(both)
}

/// Whether an answer of that number may change the region.
fn may_change(region: &Region, parts: &[Part], number: u64) -> bool
    ensures { result ≡ false → IsStill number parts.now region.now }
{
    region.stamp == number || may_touch(region, parts)
}

/// A flag for each region that an answer of that number may change.
fn changing(
    alloc: Global,
    regions: &[Region],
    parts: &[Part],
    number: u64,
) -> Result<Seq<bool>, NoMemory>
    ensures { IfOk result (λ flags. AllZip (IsStillOr number parts.now) flags regions.now) }
{
    let mut flags = Seq::new(alloc);
    for region in regions {
        flags.push(may_change(region, parts, number))?;
    }
    Ok(flags)
}

/// The regions that an answer of that number leaves as they are, and those that it may change; all count as changed where it is not
/// known that none is absorbed.
pub(crate) fn parted_by(
    alloc: Global,
    regions: Seq<Region>,
    parts: &[Part],
    number: u64,
    settled: bool,
) -> Result<Parted, NoMemory>
    ensures parted { IfOk result (λ both. (flags : List Bool) × (length flags ≡ length regions) × (both.plain ≡ flagged false flags regions)
        × (both.flagged ≡ flagged true flags regions) × All (IsStill number parts.now) both.plain) }
    ensures all { IfOk result (λ both. settled ≡ false → both.plain ≡ []) }
{
    if !settled {
        let plain = Seq::new(alloc);
        return Ok(Parted {
            plain,
            flagged: regions,
        });
    }
    let flags = changing(alloc, regions.as_slice(), parts, number)?;
    let both = sift(alloc, regions, flags)?;
    Ok(both)
}

/// Appends a copy of the region, without its rows.
fn push_without_rows(
    alloc: Global,
    copies: &mut Seq<Region>,
    region: &Region,
) -> Result<(), NoMemory>
    ensures { OnOk result (copies.new ≡ copies.old ++ without_rows region.now ∷ []) }
{
    let rects = region.rects.copy(alloc)?;
    copies.push(Region::new(
        alloc,
        region.table,
        region.key,
        region.attrs,
        region.stamp,
        rects,
    ))
}

/// Copies of the regions, without their rows.
pub(crate) fn copies_without_rows(
    alloc: Global,
    regions: &[Region],
) -> Result<Seq<Region>, NoMemory>
    ensures { IfOk result (λ copies. copies ≡ map without_rows regions.now) }
{
    let mut copies = Seq::new(alloc);
    for region in regions {
        push_without_rows(alloc, &mut copies, region)?;
    }
    Ok(copies)
}
