//! Regions within the limits.
ghost use Rattle.std.specs.Prelude.{◌≡◌, ◌≢◌, ◌<◌, ◌-◌, ◌^◌, true, min, nat_lt, List, [], ◌∷◌, ◌++◌, length, IfOk, OnOk, IsTrue};
ghost use Rattle.std.specs.List.{list_all, All, AllZip};
ghost use Rattle.sr_cell.specs.declared.cause.Cause.TheVariants.{Rows, Regions};
ghost use Rattle.sr_cell.specs.declared.table.Table.{Table as TheTable};
ghost use Rattle.sr_cell.specs.Columns.{table_at};
ghost use Rattle.sr_box.specs.Points.{rect_fits};
ghost use Rattle.sr_history.specs.declared.mark.Mark.{Mark as TheMark};
ghost use Rattle.sr_union.specs.Centre.{centre_of};
ghost use Rattle.sr_policy.specs.declared.policy.ClassView.{ClassView as View};
ghost use Rattle.sr_policy.specs.declared.policy.Last.{Last as TheLast};
ghost use Rattle.sr_query.specs.Bound.{is_table};
ghost use Rattle.sr_query.specs.declared.query.Part.{Part as ThePart};
ghost use Rattle.sr_store.specs.Stores.{IsOfSchema, IsStore};
ghost use Rattle.sr_store.specs.Fitted.{count_rows, IsViewOf, IsFitted, last_of, lasts_of};
ghost use Rattle.sr_store.specs.Fitting.{DropsFirst, DropsTill};

use crate::answer::Answer;
use crate::lookup::table_at;
use crate::marks::drop_mark;
use sr_cell::cause::Cause;
use sr_cell::list::{NoMemory, Seq};
use sr_cell::schema::Schema;
use sr_history::mark::Marks;
use sr_policy::policy::{ClassView, ClassViews, Last, Lasts, Limits, Policy, victim};
use sr_query::query::Part;
use sr_region::region::Region;
use std::alloc::Global;

/// How many rows the regions have, or the greatest number of the type where there are more.
pub(crate) fn count_rows(regions: &[Region]) -> u64
    ensures { result ≡ min (count_rows regions.now) (2 ^ 64 - 1) }
{
    let mut count: u64 = 0;
    for region in regions {
        count = count.saturating_add(region.rows.len() as u64);
    }
    count
}

/// Whether the regions have more rows than the limit.
fn are_many_rows(regions: &[Region], limits: Limits) -> bool
    ensures { result ≡ nat_lt limits.rows (count_rows regions.now) }
{
    count_rows(regions) > limits.rows as u64
}

/// Whether there are more regions than the limit.
fn are_many(regions: &[Region], limits: Limits) -> bool
    ensures { result ≡ nat_lt limits.regions (length regions.now) }
{
    regions.len() > limits.regions as usize
}

/// Whether the regions are within the limits.
pub(crate) fn are_within(regions: &[Region], limits: Limits) -> bool
    ensures { (schema : List TheTable) (last : List TheLast) → result ≡ true → IsFitted schema limits last regions.now regions.now [] }
{
    !are_many_rows(regions, limits) && !are_many(regions, limits)
}

/// Appends the region as a policy sees it.
fn push_view(
    alloc: Global,
    schema: &Schema,
    views: &mut ClassViews,
    region: &Region,
) -> Result<(), NoMemory>
    requires tables { IsTrue (list_all is_table schema.now) }
    requires region { IsOfSchema schema.now region.now }
    ensures { OnOk result ((view : View) × IsViewOf schema.now region.now view × (views.new ≡ views.old ++ view ∷ [])) }
{
    let table = table_at(schema, region.table);
    match region.rects.centre(alloc, table)? {
        Some(centre) => views.push(ClassView {
            table: region.table,
            attrs: region.attrs,
            stamp: region.stamp,
            centre,
        }),
        // A region has a rect.
        None => unreachable!(),
    }
}

/// The regions as a policy sees them.
fn views_of(alloc: Global, schema: &Schema, regions: &[Region]) -> Result<ClassViews, NoMemory>
    requires tables { IsTrue (list_all is_table schema.now) }
    requires each { All (IsOfSchema schema.now) regions.now }
    ensures { IfOk result (AllZip (IsViewOf schema.now) regions.now) }
{
    let mut views = Seq::new(alloc);
    for region in regions {
        push_view(alloc, schema, &mut views, region)?;
    }
    Ok(views)
}

/// Regions, each with how a policy sees it, and marks of those that are dropped.
#[derive(Drop)]
struct Fitting {
    regions: Seq<Region>,
    views: ClassViews,
    marks: Marks,
}

impl Fitting {
    /// Drops the region that the policy names.
    fn drop_first(&mut self, policy: Policy, last: &[Last], cause: Cause) -> Result<(), NoMemory>
        requires some { self.old.regions ≢ [] }
        requires seen { (schema : List TheTable) × AllZip (IsViewOf schema) self.old.regions self.old.views }
        ensures { (schema : List TheTable) → AllZip (IsViewOf schema) self.old.regions self.old.views
            → OnOk result (DropsFirst schema policy last.now cause self.old self.new) }
    {
        match victim(policy, self.views.as_slice(), last) {
            Some(number) => {
                self.views.remove(number);
                let region = self.regions.remove(number);
                self.marks.push(drop_mark(cause, region))
            }
            None => unreachable!(),
        }
    }

    /// Drops regions while they have too many rows.
    fn drop_for_rows(&mut self, limits: Limits, last: &[Last]) -> Result<(), NoMemory>
        requires seen { (schema : List TheTable) × AllZip (IsViewOf schema) self.old.regions self.old.views }
        ensures { (schema : List TheTable) → AllZip (IsViewOf schema) self.old.regions self.old.views
            → OnOk result (DropsTill schema limits.policy last.now Rows count_rows limits.rows self.old self.new) }
    {
        while are_many_rows(self.regions.as_slice(), limits) {
            self.drop_first(limits.policy, last, Cause::Rows)?;
        }
        Ok(())
    }

    /// Drops regions while there are too many.
    fn drop_for_regions(&mut self, limits: Limits, last: &[Last]) -> Result<(), NoMemory>
        requires seen { (schema : List TheTable) × AllZip (IsViewOf schema) self.old.regions self.old.views }
        ensures { (schema : List TheTable) → AllZip (IsViewOf schema) self.old.regions self.old.views
            → OnOk result (DropsTill schema limits.policy last.now Regions length limits.regions self.old self.new) }
    {
        while are_many(self.regions.as_slice(), limits) {
            self.drop_first(limits.policy, last, Cause::Regions)?;
        }
        Ok(())
    }

    /// Drops regions while they have too many rows, and then while there are too many.
    fn drop_for_limits(&mut self, limits: Limits, last: &[Last]) -> Result<(), NoMemory>
        requires seen { (schema : List TheTable) × AllZip (IsViewOf schema) self.old.regions self.old.views }
        ensures { (schema : List TheTable) → AllZip (IsViewOf schema) self.old.regions self.old.views
            → OnOk result ((drops : List TheMark) × IsFitted schema limits last.now self.old.regions self.new.regions drops × (self.new.marks ≡ self.old.marks ++ drops)) }
    {
        self.drop_for_rows(limits, last)?;
        self.drop_for_regions(limits, last)
    }
}

/// The regions that are left, and behind the marks those of the regions that are dropped so that they are within the limits.
pub(crate) fn fitted(
    alloc: Global,
    schema: &Schema,
    limits: Limits,
    last: &[Last],
    answer: Answer,
) -> Result<Answer, NoMemory>
    requires tables { IsTrue (list_all is_table schema.now) }
    requires store { IsStore schema.now answer.regions }
    ensures { IfOk result (λ kept. (drops : List TheMark) × IsFitted schema.now limits last.now answer.regions kept.regions drops × (kept.marks ≡ answer.marks ++ drops)) }
{
    let Answer { regions, marks } = answer;
    if are_within(regions.as_slice(), limits) {
        return Ok(Answer { regions, marks });
    }
    let views = views_of(alloc, schema, regions.as_slice())?;
    let mut fitting = Fitting {
        regions,
        views,
        marks,
    };
    let done = fitting.drop_for_limits(limits, last);
    let Fitting { regions, marks, .. } = fitting;
    done.and(Ok(Answer { regions, marks }))
}

/// Appends what the part asks of its table, by the centre; nothing where it has no rects.
fn push_last(alloc: Global, schema: &Schema, lasts: &mut Lasts, part: &Part) -> Result<(), NoMemory>
    requires tables { IsTrue (list_all is_table schema.now) }
    requires named { part.now.table < length schema.now }
    requires fit { list_all (rect_fits (table_at schema.now part.now.table).columns) part.now.rects ≡ true }
    ensures { OnOk result (lasts.new ≡ lasts.old ++ last_of part.now.table (centre_of (table_at schema.now part.now.table).columns part.now.rects)) }
{
    match part.rects.centre(alloc, table_at(schema, part.table))? {
        Some(centre) => lasts.push(Last {
            table: part.table,
            centre,
        }),
        None => Ok(()),
    }
}

/// What the parts ask of their tables, by centres.
pub(crate) fn lasts_of(alloc: Global, schema: &Schema, parts: &[Part]) -> Result<Lasts, NoMemory>
    requires tables { IsTrue (list_all is_table schema.now) }
    requires named { All (λ (part : ThePart). part.table < length schema.now) parts.now }
    requires fit { All (λ (part : ThePart). list_all (rect_fits (table_at schema.now part.table).columns) part.rects ≡ true) parts.now }
    ensures { IfOk result (λ last. last ≡ lasts_of schema.now parts.now) }
{
    let mut lasts = Seq::new(alloc);
    for part in parts {
        push_last(alloc, schema, &mut lasts, part)?;
    }
    Ok(lasts)
}
