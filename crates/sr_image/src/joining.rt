//! The image of what a client holds.
ghost use Rattle.std.specs.Prelude.{◌≡◌, ◌≤◌, true, List, length, slice_get, IfOk, OnOk, IsTrue};
ghost use Rattle.std.specs.List.{list_all};
ghost use Rattle.sr_cell.specs.declared.table.Table.{Table};
ghost use Rattle.sr_query.specs.Bound.{is_table};
ghost use Rattle.sr_store.specs.Fitted.{count_rows};
ghost use Rattle.sr_store.specs.Stores.{IsStore};
ghost use Rattle.sr_image.specs.Joining.{ascends, image_from, is_of_at, joined, kept_from, place_of, stands_before, with_region};
ghost use Rattle.sr_image.specs.Laws.{is_image};
ghost use Rattle.sr_image.specs.Writing.{may_write_region};

use crate::image::Image;
use crate::known::know_regions;
use sr_cell::list::{Copied, NoMemory, Seq};
use sr_region::region::{Region, rank_of};
use sr_rows::rows::put_all;
use sr_store::start::{Kept, Kepts};
use std::alloc::Global;

/// The image of regions, at that version. Regions of one table and columns become one part: their rects one after another,
/// their rows by key.
pub fn image_of(alloc: Global, version: u64, regions: &[Region]) -> Result<Image, NoMemory>
    requires { list_all ascends regions.now ≡ true }
    ensures { IfOk result (λ image. image ≡ image_from version regions.now) }
{
    let mut kept = Seq::new(alloc);
    for region in regions {
        put_region(alloc, &mut kept, region)?;
    }
    Ok(Image { version, kept })
}

/// The image of the regions of a store, of which each rect and row may be written, at that version: it can be written, and read again.
pub fn image_of_store(alloc: Global, version: u64, regions: &[Region]) -> Result<Image, NoMemory>
    requires store { (schema : List Table) × IsStore schema regions.now }
    requires short { IsTrue (list_all may_write_region regions.now) }
    requires few { length regions.now ≤ 1024 }
    requires rows { count_rows regions.now ≤ 200000 }
    ensures is { IfOk result (λ image. image ≡ image_from version regions.now) }
    ensures whole { (schema : List Table) → IsTrue (list_all is_table schema) → IsStore schema regions.now
        → IfOk result (λ image. IsTrue (is_image schema image)) }
{
    know_regions(regions);
    image_of(alloc, version, regions)
}

/// One region more, in the part of its table and columns.
fn put_region(alloc: Global, kept: &mut Kepts, region: &Region) -> Result<(), NoMemory>
    requires { ascends region.now ≡ true }
    ensures { OnOk result (kept.new ≡ with_region kept.old region.now) }
{
    let place = place_of(kept.as_slice(), region);
    if is_part_of(kept, place, region) {
        let part = kept.remove(place);
        return kept.insert(place, joined(alloc, part, region)?);
    }
    kept.insert(place, kept_from(alloc, region)?)
}

/// How many parts stand before the region's.
fn place_of(kept: &[Kept], region: &Region) -> usize
    ensures { result ≡ place_of region.now kept.now }
{
    for (place, part) in kept.iter().enumerate() {
        if !is_before(part, region) {
            return place;
        }
    }
    kept.len()
}

fn is_before(part: &Kept, region: &Region) -> bool
    ensures { result ≡ stands_before region.now part.now }
{
    part.table < region.table || (part.table == region.table && part.attrs.0 < region.attrs.0)
}

/// Whether a part stands at that place that is of the region's table and columns.
fn is_part_of(kept: &Kepts, place: usize, region: &Region) -> bool
    ensures { result ≡ is_of_at region.now (slice_get kept.now place) }
{
    match kept.get(place) {
        Some(part) => part.table == region.table && part.attrs.0 == region.attrs.0,
        None => false,
    }
}

fn kept_from(alloc: Global, region: &Region) -> Result<Kept, NoMemory>
    ensures { IfOk result (λ kept. kept ≡ kept_from region.now) }
{
    Ok(Kept {
        table: region.table,
        attrs: region.attrs,
        rects: region.rects.copy(alloc)?,
        rows: region.rows.copy(alloc)?,
    })
}

/// The part with the points and rows of a region.
fn joined(alloc: Global, part: Kept, region: &Region) -> Result<Kept, NoMemory>
    requires { ascends region.now ≡ true }
    ensures { IfOk result (λ both. both ≡ joined part region.now) }
{
    let mut both = part;
    both.rects.append(region.rects.copy(alloc)?)?;
    let key = rank_of(region.attrs, region.key as usize);
    put_all(&mut both.rows, key, region.rows.copy(alloc)?)?;
    Ok(both)
}
