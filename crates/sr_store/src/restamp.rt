//! Regions cut along the parts of a query, with its number as the stamp of what it touches.
ghost use Rattle.std.specs.Prelude.{◌≡◌, ◌==◌, ◌<◌, ◌&&◌, true, false, List, ◌++◌, map, option_to_list, IfOk, OnOk, IsErrOf, IsTrue};
ghost use Rattle.std.specs.List.{list_all, All};
ghost use Rattle.sr_cell.specs.declared.list.No.TheVariants.{Refused};
ghost use Rattle.sr_cell.specs.declared.table.Column.{Column};
ghost use Rattle.sr_cell.specs.Columns.{table_at};
ghost use Rattle.sr_cell.specs.Attrs.{includes};
ghost use Rattle.sr_box.specs.Points.{rect_fits, constrains_only};
ghost use Rattle.sr_box.specs.Corners.{have_first};
ghost use Rattle.sr_union.specs.Grid.{grid, all_inner};
ghost use Rattle.sr_query.specs.Bound.{is_table};
ghost use Rattle.sr_query.specs.declared.query.Part.{Part as ThePart};
ghost use Rattle.sr_region.specs.Regions.{IsRegion};
ghost use Rattle.sr_region.specs.declared.region.Region.{Region as TheRegion};
ghost use Rattle.sr_store.specs.declared.store.Arrival.{Arrival as TheArrival};
ghost use Rattle.sr_store.specs.Stores.{IsOfSchema};
ghost use Rattle.sr_store.specs.Answered.{IsHeavy};
ghost use Rattle.sr_store.specs.Renewing.{touching, with_stamp, pieces_of, IsRestamped};
ghost use Rattle.sr_store.specs.Making.{HaveNoCommon, AddsHalves, AddsRestamped, ComesFrom};

use crate::lookup::table_at;
use sr_cell::attrs::Attrs;
use sr_cell::list::{Copied, No, NoMemory, Seq};
use sr_cell::schema::Schema;
use sr_cell::table::Table;
use sr_query::query::Part;
use sr_region::halves::Halves;
use sr_region::region::Region;
use sr_union::minus::Over;
use sr_union::rects::Rects;
use std::alloc::Global;

/// How many rects a list may have on the way to an answer.
pub(crate) const MOST_RECTS: u32 = 16384;

/// Whether the part touches regions of that table with these columns.
fn is_touching(part: &Part, table: u8, attrs: Attrs) -> bool
    ensures { result ≡ (part.now.table == table && includes attrs part.now.need) }
{
    part.table == table && attrs.includes(part.need)
}

/// Appends a copy of the other rects.
pub(crate) fn append_copy(alloc: Global, rects: &mut Rects, more: &Rects) -> Result<(), NoMemory>
    ensures { OnOk result (rects.new ≡ rects.old ++ more.now) }
{
    rects.append(more.copy(alloc)?)
}

/// The rects of the parts that touch regions of that table with these columns.
fn touching_rects(alloc: Global, parts: &[Part], table: u8, attrs: Attrs) -> Result<Rects, NoMemory>
    ensures { IfOk result (λ rects. rects ≡ touching parts.now table attrs) }
{
    let mut rects = Rects::new(alloc);
    for part in parts {
        if is_touching(part, table, attrs) {
            append_copy(alloc, &mut rects, &part.rects)?;
        }
    }
    Ok(rects)
}

/// Whether the rects may have a point in common.
pub(crate) fn may_meet(rects: &Rects, others: &Rects) -> bool
    ensures { (columns : List Column) → result ≡ false → HaveNoCommon columns rects.now others.now }
{
    rects.meets(others)
}

/// Whether some part may touch the region.
pub(crate) fn may_touch(region: &Region, parts: &[Part]) -> bool
    ensures { (columns : List Column) → result ≡ false → HaveNoCommon columns region.now.rects (touching parts.now region.now.table region.now.attrs) }
{
    for part in parts {
        if is_touching(part, region.table, region.attrs) {
            if may_meet(&region.rects, &part.rects) {
                return true;
            }
        }
    }
    false
}

/// A half at the end, where it is there.
fn push_half(pieces: &mut Seq<Region>, half: Option<Region>) -> Result<(), NoMemory>
    ensures { OnOk result (pieces.new ≡ pieces.old ++ option_to_list half) }
{
    match half {
        Some(region) => pieces.push(region),
        None => Ok(()),
    }
}

/// A half at the end with that stamp, where it is there.
fn push_stamped(pieces: &mut Seq<Region>, half: Option<Region>, number: u64) -> Result<(), NoMemory>
    ensures { OnOk result (pieces.new ≡ pieces.old ++ map (with_stamp number) (option_to_list half)) }
{
    match half {
        Some(mut region) => {
            region.stamp = number;
            pieces.push(region)
        }
        None => Ok(()),
    }
}

/// Both halves at the end, where they are there, with that stamp on what lies inside.
fn push_halves(pieces: &mut Seq<Region>, halves: Halves, number: u64) -> Result<(), NoMemory>
    ensures { OnOk result (pieces.new ≡ pieces.old ++ pieces_of number halves.outside halves.inside) }
{
    let Halves { inside, outside } = halves;
    push_half(pieces, outside)?;
    push_stamped(pieces, inside, number)
}

/// The region cut along the rects, with a new stamp on what lies inside.
fn push_split(
    alloc: Global,
    table: &Table,
    region: Region,
    rects: &Rects,
    number: u64,
    pieces: &mut Seq<Region>,
) -> Result<(), No<Over>>
    requires inner { all_inner table.now.columns ≡ true }
    requires first { have_first table.now.columns ≡ true }
    requires region { IsRegion table.now region }
    requires fit { list_all (rect_fits table.now.columns) rects.now ≡ true }
    requires only { list_all (constrains_only region.attrs 0) rects.now ≡ true }
    ensures halves { OnOk result (AddsHalves table.now number region rects.now pieces.old pieces.new) }
    ensures over { IsErrOf result (Refused (record {})) → 16384 < grid table.now.columns (region.rects ++ rects.now) }
{
    match region.cut_by(alloc, rects, table, MOST_RECTS) {
        Ok(halves) => Ok(push_halves(pieces, halves, number)?),
        Err(no) => Err(no),
    }
}

/// The region at the end, with a new stamp on what the parts touch.
fn restamp_one(
    alloc: Global,
    schema: &Schema,
    region: Region,
    parts: &[Part],
    number: u64,
    pieces: &mut Seq<Region>,
) -> Result<(), No<Over>>
    requires tables { IsTrue (list_all is_table schema.now) }
    requires region { IsOfSchema schema.now region }
    requires fit { All (λ (part : ThePart). list_all (rect_fits (table_at schema.now part.table).columns) part.rects ≡ true) parts.now }
    requires only { All (λ (part : ThePart). list_all (constrains_only part.need 0) part.rects ≡ true) parts.now }
    ensures restamped { OnOk result (AddsRestamped schema.now number parts.now region pieces.old pieces.new) }
    ensures over { IsErrOf result (Refused (record {})) → 16384 < grid (table_at schema.now region.table).columns (region.rects ++ touching parts.now region.table region.attrs) }
{
    let rects = touching_rects(alloc, parts, region.table, region.attrs)?;
    let table = table_at(schema, region.table);
    push_split(alloc, table, region, &rects, number, pieces)
}

/// The regions, with a new stamp on what the parts touch.
pub(crate) fn restamp(
    alloc: Global,
    schema: &Schema,
    regions: Seq<Region>,
    parts: &[Part],
    number: u64,
) -> Result<Seq<Region>, No<Over>>
    requires tables { IsTrue (list_all is_table schema.now) }
    requires each { All (IsOfSchema schema.now) regions }
    requires fit { All (λ (part : ThePart). list_all (rect_fits (table_at schema.now part.table).columns) part.rects ≡ true) parts.now }
    requires only { All (λ (part : ThePart). list_all (constrains_only part.need 0) part.rects ≡ true) parts.now }
    ensures restamped { IfOk result (λ pieces. IsRestamped schema.now number parts.now regions pieces) }
    ensures over { (old : List TheRegion) (arrivals : List TheArrival) → All (ComesFrom schema.now old parts.now arrivals) regions
        → IsErrOf result (Refused (record {})) → IsHeavy schema.now old parts.now arrivals }
{
    let mut pieces = Seq::new(alloc);
    for region in regions.into_vec() {
        match restamp_one(alloc, schema, region, parts, number, &mut pieces) {
            Ok(()) => {}
            Err(no) => return Err(no),
        }
    }
    Ok(pieces)
}
