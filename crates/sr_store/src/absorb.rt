//! Regions whose points are all held under more columns.
ghost use Rattle.std.specs.Prelude.{◌≡◌, Bool, ◌==◌, ◌<◌, ◌&&◌, ◌↔◌, not, true, false, [], ◌∷◌, ◌++◌, length, IfOk, OnOk, IsTrue};
ghost use Rattle.std.specs.List.{list_all, All, AllZip};
ghost use Rattle.sr_cell.specs.declared.table.Column.{Column};
ghost use Rattle.sr_cell.specs.Columns.{table_at};
ghost use Rattle.sr_cell.specs.Attrs.{includes};
ghost use Rattle.sr_box.specs.Points.{rect_fits};
ghost use Rattle.sr_union.specs.Pieces.{near, IsWithin, HasOutside};
ghost use Rattle.sr_query.specs.Bound.{is_table};
ghost use Rattle.sr_store.specs.Stores.{IsOfSchema, wider};
ghost use Rattle.sr_store.specs.Answered.{AreFlags};
ghost use Rattle.sr_store.specs.Making.{IsAbsorbedBy, IsKeptOr, IsUnmet, IsUnmetOr, wider_both};

use crate::lookup::table_at;
use crate::restamp::may_meet;
use crate::store::Arrival;
use sr_box::rect::Rect;
use sr_cell::attrs::Attrs;
use sr_cell::list::{Copied, NoMemory, Seq};
use sr_cell::schema::Schema;
use sr_region::region::Region;
use sr_union::rects::Rects;
use std::alloc::Global;

/// Whether the tables are the same, and the columns strictly more than the narrow ones.
fn is_wider(table: u8, attrs: Attrs, narrow_table: u8, narrow_attrs: Attrs) -> bool
    ensures { result ≡ (table == narrow_table && (includes attrs narrow_attrs && not (attrs == narrow_attrs))) }
{
    table == narrow_table && attrs.includes(narrow_attrs) && attrs != narrow_attrs
}

fn push_wider(
    alloc: Global,
    found: &mut Rects,
    region: &Region,
    narrow: &Region,
    rects: &Rects,
) -> Result<(), NoMemory>
    ensures { OnOk result (found.new ≡ found.old ++ near rects.now (wider (region.now ∷ []) narrow.now.table narrow.now.attrs)) }
{
    if is_wider(region.table, region.attrs, narrow.table, narrow.attrs) {
        return found.append(region.rects.near(alloc, rects)?);
    }
    Ok(())
}

/// Appends the rects of the regions of its table with strictly more columns, as far as they meet those.
#[tactic(auto, using(crate::proofs::Nearing::near_wider))]
fn push_all_wider(
    alloc: Global,
    found: &mut Rects,
    regions: &[Region],
    narrow: &Region,
    rects: &Rects,
) -> Result<(), NoMemory>
    ensures { OnOk result (found.new ≡ found.old ++ near rects.now (wider regions.now narrow.now.table narrow.now.attrs)) }
{
    for region in regions {
        push_wider(alloc, found, region, narrow, rects)?;
    }
    Ok(())
}

/// The rects of the regions of two lists of its table with strictly more columns, as far as they meet those.
#[tactic(auto, using(sr_union::proofs::Meets::near_append))]
fn wider_near_both(
    alloc: Global,
    still: &[Region],
    news: &[Region],
    narrow: &Region,
    rects: &Rects,
) -> Result<Rects, NoMemory>
    ensures { IfOk result (λ found. found ≡ near rects.now (wider_both still.now news.now narrow.now)) }
{
    let mut found = Rects::new(alloc);
    push_all_wider(alloc, &mut found, still, narrow, rects)?;
    push_all_wider(alloc, &mut found, news, narrow, rects).and(Ok(found))
}

fn single(alloc: Global, rect: &Rect) -> Result<Rects, NoMemory>
    ensures { IfOk result (λ one. one ≡ rect.now ∷ []) }
{
    let copy = rect.copy(alloc)?;
    let mut one = Rects::new(alloc);
    one.push(copy).and(Ok(one))
}

/// Whether the rect's points are all in regions of the two lists with strictly more columns than that region.
fn is_covered(
    alloc: Global,
    schema: &Schema,
    still: &[Region],
    news: &[Region],
    region: &Region,
    rect: &Rect,
) -> Result<bool, NoMemory>
    requires tables { IsTrue (list_all is_table schema.now) }
    requires still { All (IsOfSchema schema.now) still.now }
    requires news { All (IsOfSchema schema.now) news.now }
    requires table { region.now.table < length schema.now }
    requires fits { rect_fits (table_at schema.now region.now.table).columns rect.now ≡ true }
    ensures within { IfOk result (λ yes. yes ≡ true → IsWithin (table_at schema.now region.now.table).columns (rect.now ∷ []) (wider_both still.now news.now region.now)) }
    ensures outside { IfOk result (λ yes. yes ≡ false → HasOutside (table_at schema.now region.now.table).columns (rect.now ∷ []) (wider_both still.now news.now region.now)) }
{
    let table = table_at(schema, region.table);
    let one = single(alloc, rect)?;
    let found = wider_near_both(alloc, still, news, region, &one)?;
    one.within(alloc, &found, table)
}

/// Whether the region's points are all in regions of the two lists with strictly more columns; the first rect that is not covered
/// decides.
fn is_absorbed(
    alloc: Global,
    schema: &Schema,
    still: &[Region],
    news: &[Region],
    region: &Region,
) -> Result<bool, NoMemory>
    requires tables { IsTrue (list_all is_table schema.now) }
    requires still { All (IsOfSchema schema.now) still.now }
    requires news { All (IsOfSchema schema.now) news.now }
    requires region { IsOfSchema schema.now region.now }
    ensures absorbed { IfOk result (λ yes. IsTrue yes ↔ IsAbsorbedBy schema.now still.now news.now region.now) }
{
    for rect in region.rects.as_slice() {
        if !is_covered(alloc, schema, still, news, region, rect)? {
            return Ok(false);
        }
    }
    Ok(true)
}

/// Whether some arrival with strictly more columns may have points of the region.
fn may_be_met(region: &Region, arrivals: &[Arrival]) -> bool
    ensures { result ≡ false → IsUnmet arrivals.now region.now }
{
    for arrival in arrivals {
        if is_wider(arrival.table, arrival.attrs, region.table, region.attrs) {
            if may_meet(&region.rects, &arrival.rects) {
                return true;
            }
        }
    }
    false
}

/// A flag for each region of which an arrival with more columns may have points.
pub(crate) fn met_by(
    alloc: Global,
    regions: &[Region],
    arrivals: &[Arrival],
) -> Result<Seq<bool>, NoMemory>
    ensures { IfOk result (λ flags. AllZip (IsUnmetOr arrivals.now) flags regions.now) }
{
    let mut flags = Seq::new(alloc);
    for region in regions {
        flags.push(may_be_met(region, arrivals))?;
    }
    Ok(flags)
}

/// Appends whether the region's points are all in regions of the two lists with strictly more columns; where it is not met, it is
/// known that they are not.
fn push_absorbed(
    alloc: Global,
    schema: &Schema,
    still: &[Region],
    news: &[Region],
    region: &Region,
    met: bool,
    flags: &mut Seq<bool>,
) -> Result<(), NoMemory>
    requires tables { IsTrue (list_all is_table schema.now) }
    requires still { All (IsOfSchema schema.now) still.now }
    requires news { All (IsOfSchema schema.now) news.now }
    requires region { IsOfSchema schema.now region.now }
    requires other { IsKeptOr schema.now still.now news.now met region.now }
    ensures { OnOk result ((yes : Bool) × (IsTrue yes ↔ IsAbsorbedBy schema.now still.now news.now region.now) × (flags.new ≡ flags.old ++ yes ∷ [])) }
{
    if met {
        return flags.push(is_absorbed(alloc, schema, still, news, region)?);
    }
    flags.push(false)
}

/// Tells of each of the new regions whether its points are all in regions of the two lists with strictly more columns.
pub(crate) fn absorbed(
    alloc: Global,
    schema: &Schema,
    still: &[Region],
    news: &[Region],
) -> Result<Seq<bool>, NoMemory>
    requires tables { IsTrue (list_all is_table schema.now) }
    requires still { All (IsOfSchema schema.now) still.now }
    requires news { All (IsOfSchema schema.now) news.now }
    ensures flags { IfOk result (λ flags. AreFlags (IsAbsorbedBy schema.now still.now news.now) flags news.now) }
{
    let mut flags = Seq::new(alloc);
    for region in news {
        // What is new counts as met.
        push_absorbed(alloc, schema, still, news, region, true, &mut flags)?;
    }
    Ok(flags)
}

/// The same of the regions that stay, of which only the flagged ones are tested: the others are known not to be absorbed.
pub(crate) fn still_absorbed(
    alloc: Global,
    schema: &Schema,
    still: &[Region],
    news: &[Region],
    met: &[bool],
) -> Result<Seq<bool>, NoMemory>
    requires tables { IsTrue (list_all is_table schema.now) }
    requires still { All (IsOfSchema schema.now) still.now }
    requires news { All (IsOfSchema schema.now) news.now }
    requires others { AllZip (IsKeptOr schema.now still.now news.now) met.now still.now }
    ensures flags { IfOk result (λ flags. AreFlags (IsAbsorbedBy schema.now still.now news.now) flags still.now) }
{
    let mut flags = Seq::new(alloc);
    for i in 0..still.len() {
        push_absorbed(alloc, schema, still, news, &still[i], met[i], &mut flags)?;
    }
    Ok(flags)
}
