//! The regions of what arrives.
ghost use Rattle.std.specs.Prelude.{◌≡◌, ◌<◌, true, List, length, IfOk, IsErrOf, IsTrue};
ghost use Rattle.std.specs.List.{list_all, All, AllZip};
ghost use Rattle.sr_cell.specs.declared.list.No.TheVariants.{Refused};
ghost use Rattle.sr_cell.specs.Columns.{table_at};
ghost use Rattle.sr_box.specs.Points.{rect_fits};
ghost use Rattle.sr_union.specs.Grid.{grid};
ghost use Rattle.sr_query.specs.Bound.{is_table};
ghost use Rattle.sr_query.specs.declared.query.Part.{Part as ThePart};
ghost use Rattle.sr_region.specs.declared.region.Region.{Region as TheRegion};
ghost use Rattle.sr_store.specs.Answered.{IsHeavy};
ghost use Rattle.sr_store.specs.Renewing.{IsArrived};
ghost use Rattle.sr_store.specs.Making.{FitsSchema};

use crate::lookup::table_at;
use crate::restamp::MOST_RECTS;
use crate::store::{Arrival, Arrivals};
use sr_cell::list::{No, Seq};
use sr_cell::schema::Schema;
use sr_region::region::Region;
use sr_union::minus::Over;
use std::alloc::Global;

/// The region of what arrives, in rects of which each point lies in one.
fn arrived_region(
    alloc: Global,
    schema: &Schema,
    arrival: Arrival,
    number: u64,
) -> Result<Region, No<Over>>
    requires tables { IsTrue (list_all is_table schema.now) }
    requires fits { FitsSchema schema.now arrival }
    ensures arrived { IfOk result (IsArrived schema.now number arrival) }
    ensures over { IsErrOf result (Refused (record {})) → 16384 < grid (table_at schema.now arrival.table).columns arrival.rects }
{
    let table = table_at(schema, arrival.table);
    match arrival.rects.disjoint(alloc, table, MOST_RECTS) {
        Ok(rects) => Ok(Region {
            table: arrival.table,
            key: arrival.key,
            attrs: arrival.attrs,
            stamp: number,
            rects,
            rows: arrival.rows,
        }),
        Err(no) => Err(no),
    }
}

/// The regions of what arrives.
pub(crate) fn arrived_regions(
    alloc: Global,
    schema: &Schema,
    arrivals: Arrivals,
    number: u64,
) -> Result<Seq<Region>, No<Over>>
    requires tables { IsTrue (list_all is_table schema.now) }
    requires fit { All (FitsSchema schema.now) arrivals }
    ensures arrived { IfOk result (AllZip (IsArrived schema.now number) arrivals) }
    ensures over { (old : List TheRegion) (parts : List ThePart) → IsErrOf result (Refused (record {})) → IsHeavy schema.now old parts arrivals }
{
    let mut regions = Seq::new(alloc);
    for arrival in arrivals.into_vec() {
        match arrived_region(alloc, schema, arrival, number) {
            Ok(region) => regions.push(region)?,
            Err(no) => return Err(no),
        }
    }
    Ok(regions)
}
