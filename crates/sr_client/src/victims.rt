//! In which order a client would drop its regions.
ghost use Rattle.std.specs.Prelude.{◌≡◌, ◌<◌, true, map, length, IfOk, IsTrue};
ghost use Rattle.std.specs.List.{list_all, All, AllZip};
ghost use Rattle.sr_cell.specs.Columns.{table_at};
ghost use Rattle.sr_query.specs.Bound.{is_table};
ghost use Rattle.sr_store.specs.Fitted.{IsViewOf};
ghost use Rattle.sr_store.specs.Stores.{IsOfSchema};
ghost use Rattle.sr_box.specs.Corners.{have_first};
ghost use Rattle.sr_union.specs.Grid.{all_inner};
ghost use Rattle.sr_client.specs.Explaining.{victim_of, Fall};

use sr_cell::list::{NoMemory, Seq};
use sr_cell::schema::Schema;
use sr_cell::table::Table;
use sr_explain::explanation::{Victim, Victims};
use sr_policy::policy::{ClassView, ClassViews, victim};
use sr_region::region::Region;
use sr_store::store::Store;
use std::alloc::Global;

/// All regions, in the order in which they would be dropped one after another.
pub(crate) fn victims_of(alloc: Global, schema: &Schema, store: &Store) -> Result<Victims, NoMemory>
    requires tables { IsTrue (list_all is_table schema.now) }
    requires each { All (IsOfSchema schema.now) store.now.regions }
    ensures { IfOk result (Fall schema.now store.now.limits.policy store.now.last store.now.regions) }
{
    let regions = store.regions.as_slice();
    let policy = store.limits.policy;
    let last = store.last.as_slice();
    let mut views = views_of(alloc, schema, regions)?;
    let mut left = left_of(alloc, regions)?;
    let mut fallen = Seq::new(alloc);
    while let Some(number) = victim(policy, views.as_slice(), last) {
        views.remove(number);
        fallen.push(left.remove(number))?;
    }
    Ok(fallen)
}

/// The regions, each with how many rows it has.
fn left_of(alloc: Global, regions: &[Region]) -> Result<Victims, NoMemory>
    ensures { IfOk result (λ left. left ≡ map victim_of regions.now) }
{
    let mut left = Seq::new(alloc);
    for region in regions {
        left.push(Victim {
            table: region.table,
            attrs: region.attrs,
            stamp: region.stamp,
            rows: region.rows.len() as u64,
        })?;
    }
    Ok(left)
}

/// The regions as a policy sees them.
fn views_of(alloc: Global, schema: &Schema, regions: &[Region]) -> Result<ClassViews, NoMemory>
    requires tables { IsTrue (list_all is_table schema.now) }
    requires each { All (IsOfSchema schema.now) regions.now }
    ensures { IfOk result (AllZip (IsViewOf schema.now) regions.now) }
{
    let mut views = Seq::new(alloc);
    for region in regions {
        views.push(view_of(alloc, schema, region)?)?;
    }
    Ok(views)
}

/// The region as a policy sees it.
fn view_of(alloc: Global, schema: &Schema, region: &Region) -> Result<ClassView, NoMemory>
    requires tables { IsTrue (list_all is_table schema.now) }
    requires region { IsOfSchema schema.now region.now }
    ensures { IfOk result (IsViewOf schema.now region.now) }
{
    let table = table_at(schema, region.table);
    match region.rects.centre(alloc, table)? {
        Some(centre) => Ok(ClassView {
            table: region.table,
            attrs: region.attrs,
            stamp: region.stamp,
            centre,
        }),
        // A region has a rect.
        None => unreachable!(),
    }
}

/// The table of that number.
pub(crate) fn table_at(schema: &Schema, number: u8) -> &Table
    requires sound { IsTrue (list_all is_table schema.now) }
    requires within { number < length schema.now }
    ensures found { result.now ≡ table_at schema.now number }
    ensures sound { IsTrue (is_table result.now) }
    ensures inner { all_inner result.now.columns ≡ true }
    ensures first { have_first result.now.columns ≡ true }
{
    &schema.as_slice()[number as usize]
}
