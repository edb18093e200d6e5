//! The answer of a query, from the regions and from what arrives.
ghost use Rattle.std.specs.Prelude.{◌≡◌, List, [], filter, IfOk, OnOk};
ghost use Rattle.std.specs.List.{AllZip};
ghost use Rattle.sr_cell.specs.declared.table.Table.{Table as TheTable};
ghost use Rattle.sr_model.specs.Queries.{Query as TheQuery, rows_at, rows_of};
ghost use Rattle.sr_model.specs.Statements.{Tables as TheTables};
ghost use Rattle.sr_region.specs.Regions.{is_in};
ghost use Rattle.sr_join.specs.Lent.{LendFrom, IsJoinable};
ghost use Rattle.sr_client.specs.Answering.{is_kept, is_new, IsPartOver, HaveRows, BringRows, LendsMore, IsThere};

use sr_cell::cell::Rows;
use sr_cell::list::NoMemory;
use sr_join::lending::Lending;
use sr_query::query::{Part, Query};
use sr_region::inside::{RowsIn, rows_inside};
use sr_region::region::Region;
use sr_store::store::Arrival;
use sr_union::rects::Rects;
use std::alloc::Global;

/// The answer of a query: its parts' rows in the regions that serve them, and in what arrives, joined by key.
pub fn answer(
    alloc: Global,
    query: &Query,
    regions: &[Region],
    arrivals: &[Arrival],
) -> Result<Rows, NoMemory>
    ensures { (schema : List TheTable) (tables : TheTables) (meaning : TheQuery) → IfOk result (λ rows. IsJoinable schema tables query.now meaning
        → HaveRows schema tables regions.now → AllZip (IsThere schema tables regions.now arrivals.now) query.now.parts meaning.parts → rows ≡ rows_of meaning tables) }
{
    let mut lending = Lending::new(alloc);
    lend_all(alloc, &mut lending, query, regions, arrivals)?;
    lending.answer(alloc, query)
}

/// Lends the rows of each part, of the regions that serve it and of what arrives.
fn lend_all<'a>(
    alloc: Global,
    lending: &mut Lending<'a>,
    query: &'a Query,
    regions: &'a [Region],
    arrivals: &'a [Arrival],
) -> Result<(), NoMemory>
    requires { lending.old.runs ≡ [] }
    ensures { (schema : List TheTable) (tables : TheTables) (meaning : TheQuery) → OnOk result (IsJoinable schema tables query.now meaning
        → HaveRows schema tables regions.now → AllZip (IsThere schema tables regions.now arrivals.now) query.now.parts meaning.parts → LendFrom 0 tables meaning.parts lending.new.runs) }
{
    let parts = query.parts.as_slice();
    for i in 0..parts.len() {
        lend_regions(alloc, lending, i, &parts[i], regions)?;
        lend_arrivals(alloc, lending, i, &parts[i], arrivals)?;
    }
    Ok(())
}

/// Lends the rows of the regions that serve the part, as far as they lie in it. Rows of regions away from it are not looked at.
fn lend_regions<'a>(
    alloc: Global,
    lending: &mut Lending<'a>,
    number: usize,
    part: &'a Part,
    regions: &'a [Region],
) -> Result<(), NoMemory>
    ensures { (schema : List TheTable) (tables : TheTables) → OnOk result (IsPartOver schema tables part.now → HaveRows schema tables regions.now
        → LendsMore number part.now.need (rows_at tables part.now.table) (is_kept part.now regions.now) lending.old.runs lending.new.runs) }
{
    for region in regions {
        if region.serves(part.table, part.need) {
            if region.rects.meets(&part.rects) {
                lending.lend(alloc, number, region.rows_in(&part.rects))?;
            }
        }
    }
    Ok(())
}

/// Lends the rows that arrived of the part's table, as far as they lie in the part.
fn lend_arrivals<'a>(
    alloc: Global,
    lending: &mut Lending<'a>,
    number: usize,
    part: &'a Part,
    arrivals: &'a [Arrival],
) -> Result<(), NoMemory>
    ensures { (schema : List TheTable) (tables : TheTables) → OnOk result (IsPartOver schema tables part.now → BringRows schema tables part.now arrivals.now
        → LendsMore number part.now.need (rows_at tables part.now.table) (is_new part.now arrivals.now) lending.old.runs lending.new.runs) }
{
    for arrival in arrivals {
        if arrival.table == part.table {
            lending.lend(alloc, number, arrived_in(arrival, &part.rects))?;
        }
    }
    Ok(())
}

/// The rows that arrived and lie in the rects.
fn arrived_in<'a>(arrival: &'a Arrival, rects: &'a Rects) -> RowsIn<'a>
    ensures attrs { result.attrs ≡ arrival.now.attrs }
    ensures rows { result.rows ≡ filter (is_in arrival.now.attrs rects.now) arrival.now.rows }
{
    rows_inside(arrival.attrs, arrival.rows.as_slice(), rects)
}
