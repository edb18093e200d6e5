//! The parts of a query: what it asks of each of its tables.
ghost use Rattle.std.specs.Prelude.{◌≡◌, ◌<◌, map, length, IsTrue, Ok};
ghost use Rattle.std.specs.List.{list_all};
ghost use Rattle.sr_cell.specs.Columns.{table_at};
ghost use Rattle.sr_model.specs.Conditions.{And};
ghost use Rattle.sr_query.specs.Binding.{each, cond_of, list_conds, parts_from};
ghost use Rattle.sr_query.specs.Bound.{is_table, output_of};
ghost use Rattle.sr_query.specs.Meant.{meant};
ghost use Rattle.sr_resolve.specs.Known.{are_known};
ghost use Rattle.sr_condition.specs.Suits.{suits, all_suit};
ghost use Rattle.sr_bind.specs.AreBound.{are_bound};
ghost use Rattle.sr_bind.specs.Narrow.{part_with, IsNarrow, AreNarrow};
ghost use Rattle.sr_bind.specs.Needs.{is_low};
ghost use Rattle.sr_bind.specs.OneTable.{one_table, done};

use crate::conjuncts::Conjuncts;
use crate::lookup::table_at;
use crate::needs::need_of;
use crate::split::split;
use sr_cell::fault::{Fault, Why};
use sr_cell::list::{No, Seq};
use sr_cell::schema::Schema;
use sr_condition::rects::rects_of;
use sr_condition::width::width;
use sr_query::condition::{Condition, Output};
use sr_query::query::{Part, Parts};
use std::alloc::Global;

/// The most rects that a part may ask for.
const WIDEST: u32 = 64;

/// One part for each table, in the order of the tables, if none is too wide.
pub fn parts(
    alloc: Global,
    schema: &Schema,
    tables: &[u8],
    named: &[Output],
    conjuncts: Conjuncts,
) -> Result<Parts, No<Fault>>
    requires known { IsTrue (are_known schema.now tables.now) }
    requires low { IsTrue (list_all is_low (map output_of named.now)) }
    requires suits { IsTrue (list_all (are_bound schema.now tables.now) (map meant conjuncts)) }
    requires apart { each one_table (map meant conjuncts) ≡ Ok (done (map meant conjuncts)) }
    ensures { AreNarrow schema.now result (parts_from schema.now 0 tables.now (map output_of named.now) (map meant conjuncts)) }
{
    let mut parts = Seq::new(alloc);
    let mut left = conjuncts;
    for (part, table) in tables.iter().enumerate() {
        let halves = split(alloc, part as u8, left)?;
        left = halves.others;
        match part_with(alloc, schema, part as u8, *table, named, halves.own) {
            Ok(part) => parts.push(part)?,
            Err(no) => return Err(no),
        }
    }
    Ok(parts)
}

/// The part of a table, with the conjuncts on it.
fn part_with(
    alloc: Global,
    schema: &Schema,
    part: u8,
    number: u8,
    named: &[Output],
    own: Conjuncts,
) -> Result<Part, No<Fault>>
    requires sound { IsTrue (list_all is_table schema.now) }
    requires within { number < length schema.now }
    requires low { IsTrue (list_all is_low (map output_of named.now)) }
    requires suits { IsTrue (all_suit (table_at schema.now number) (list_conds (map meant own))) }
    ensures { IsNarrow schema.now result (part_with schema.now part number (map output_of named.now) (And (list_conds (map meant own)))) }
{
    let condition = together(own);
    part_of(alloc, schema, part, number, named, &condition)
}

/// The condition that all of these hold.
fn together(conjuncts: Conjuncts) -> Condition
    ensures { cond_of (meant result) ≡ And (list_conds (map meant conjuncts)) }
{
    Condition::And(conjuncts.into_vec())
}

/// The part of a table, with a condition on it.
fn part_of(
    alloc: Global,
    schema: &Schema,
    part: u8,
    number: u8,
    named: &[Output],
    condition: &Condition,
) -> Result<Part, No<Fault>>
    requires sound { IsTrue (list_all is_table schema.now) }
    requires within { number < length schema.now }
    requires low { IsTrue (list_all is_low (map output_of named.now)) }
    requires suits { IsTrue (suits (table_at schema.now number) (cond_of (meant condition.now))) }
    ensures { IsNarrow schema.now result (part_with schema.now part number (map output_of named.now) (cond_of (meant condition.now))) }
{
    let width = width(condition);
    if width > WIDEST {
        return Err(No::Refused(Fault {
            why: Why::TooWide,
            at: width,
        }));
    }
    let table = table_at(schema, number);
    Ok(Part {
        table: number,
        key: table.key,
        need: need_of(table.key, part, named),
        rects: rects_of(alloc, table, condition)?,
        width,
    })
}
