//! Marks of what is held and of what is dropped.
ghost use Rattle.std.specs.Prelude.{◌≡◌, [], ◌∷◌, ◌++◌, map, IfOk, OnOk};
ghost use Rattle.sr_store.specs.Stores.{drop_of};
ghost use Rattle.sr_store.specs.Answered.{held_of};

use crate::store::Arrival;
use sr_cell::cause::Cause;
use sr_cell::list::{Copied, NoMemory, Seq};
use sr_history::mark::{Mark, Marks};
use sr_region::region::Region;
use std::alloc::Global;

/// Appends the mark that what arrives is held.
fn push_held(alloc: Global, marks: &mut Marks, arrival: &Arrival) -> Result<(), NoMemory>
    ensures { OnOk result (marks.new ≡ marks.old ++ held_of arrival.now ∷ []) }
{
    let rects = arrival.rects.copy(alloc)?;
    marks.push(Mark::Held {
        table: arrival.table,
        attrs: arrival.attrs,
        rects,
    })
}

/// What arrives is held.
pub(crate) fn held_marks(alloc: Global, arrivals: &[Arrival]) -> Result<Marks, NoMemory>
    ensures { IfOk result (λ marks. marks ≡ map held_of arrivals.now) }
{
    let mut marks = Seq::new(alloc);
    for arrival in arrivals {
        push_held(alloc, &mut marks, arrival)?;
    }
    Ok(marks)
}

/// The class of the region is dropped.
pub(crate) fn drop_mark(cause: Cause, region: Region) -> Mark
    ensures { result ≡ drop_of cause region }
{
    let Region {
        table,
        attrs,
        stamp,
        rects,
        ..
    } = region;
    Mark::Dropped {
        cause,
        table,
        attrs,
        stamp,
        rects,
    }
}

/// The marks, and behind them those of the classes of the regions, which are dropped.
pub(crate) fn drop_marks(
    marks: Marks,
    cause: Cause,
    regions: Seq<Region>,
) -> Result<Marks, NoMemory>
    ensures { IfOk result (λ all. all ≡ marks ++ map (drop_of cause) regions) }
{
    let mut all = marks;
    for region in regions.into_vec() {
        all.push(drop_mark(cause, region))?;
    }
    Ok(all)
}
