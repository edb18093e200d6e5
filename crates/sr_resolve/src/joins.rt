//! Joins by keys.
ghost use Rattle.std.specs.Prelude.{◌≡◌, ◌+◌, ◌<◌, IsTrue, IfOk, OnOk, IsErrOf, Ok, Err, map, take, length};
ghost use Rattle.sr_cell.specs.declared.fault.Fault.{Fault as TheFault};
ghost use Rattle.sr_query.specs.Binding.{joins_from, column_of, is_kind, is_key_join, key_join};
ghost use Rattle.sr_query.specs.Bound.{output_of};
ghost use Rattle.sr_query.specs.Decided.{Decides};
ghost use Rattle.sr_resolve.specs.Known.{are_known, is_within};
ghost use Rattle.sr_resolve.specs.Joined.{join_of};
ghost use Rattle.sr_resolve.specs.Steps.{one_join};

use crate::lookup::table_of_part;
use crate::references::resolve;
use sr_cell::fault::{Fault, Why};
use sr_cell::list::{No, Seq};
use sr_cell::schema::Schema;
use sr_cell::table::{Column, Kind};
use sr_grammar::statement::{JoinOn, Select};
use sr_query::condition::Output;
use sr_query::query::{KeyJoin, KeyJoins};
use std::alloc::Global;

fn is_same_kind(one: Kind, other: Kind) -> bool
    ensures { result ≡ is_kind one other }
{
    match (one, other) {
        (Kind::Num, Kind::Num) => true,
        (Kind::Str, Kind::Str) => true,
        _ => false,
    }
}

fn column_of<'a>(schema: &'a Schema, tables: &[u8], output: Output) -> &'a Column
    requires known { IsTrue (are_known schema.now tables.now) }
    requires within { IsTrue (is_within schema.now tables.now (output_of output)) }
    ensures { result.now ≡ column_of schema.now tables.now (output_of output) }
{
    let table = table_of_part(schema, tables, output.part as usize);
    &table.columns.as_slice()[output.column as usize]
}

/// Whether one is the key of the part's table, and the other a column of its kind of an earlier part.
fn is_key_join(schema: &Schema, tables: &[u8], part: u8, one: Output, other: Output) -> bool
    requires known { IsTrue (are_known schema.now tables.now) }
    requires one { IsTrue (is_within schema.now tables.now (output_of one)) }
    requires other { IsTrue (is_within schema.now tables.now (output_of other)) }
    ensures { result ≡ is_key_join schema.now tables.now part (output_of one) (output_of other) }
{
    one.part == part
        && one.column as u16 == table_of_part(schema, tables, one.part as usize).key
        && other.part < part
        && is_same_kind(
            column_of(schema, tables, one).kind,
            column_of(schema, tables, other).kind,
        )
}

/// The join of this part by these columns, in either order.
fn key_join(
    schema: &Schema,
    tables: &[u8],
    part: u8,
    place: u32,
    left: Output,
    right: Output,
) -> Result<KeyJoin, Fault>
    requires known { IsTrue (are_known schema.now tables.now) }
    requires left { IsTrue (is_within schema.now tables.now (output_of left)) }
    requires right { IsTrue (is_within schema.now tables.now (output_of right)) }
    ensures found { IfOk result (λ j. key_join schema.now tables.now part place (output_of left) (output_of right) ≡ Ok (join_of schema.now tables.now j)) }
    ensures within { OnOk result (part < length tables.now) }
    ensures refused { (fault : TheFault) → IsErrOf result fault → key_join schema.now tables.now part place (output_of left) (output_of right) ≡ Err fault }
{
    if is_key_join(schema, tables, part, left, right) {
        return Ok(KeyJoin {
            left: right.part,
            column: right.column,
            right: part,
        });
    }
    if is_key_join(schema, tables, part, right, left) {
        return Ok(KeyJoin {
            left: left.part,
            column: left.column,
            right: part,
        });
    }
    Err(Fault {
        why: Why::NotKeyJoin,
        at: place,
    })
}

/// The first tables, or all where there are fewer.
fn first(tables: &[u8], count: usize) -> &[u8]
    ensures { result.now ≡ take count tables.now }
{
    if count < tables.len() {
        &tables[..count]
    } else {
        tables
    }
}

/// The join of this part; its references are to tables up to the joined one.
#[tactic(auto, using(crate::proofs::First::known_first, crate::proofs::First::within_first))]
fn one_join(schema: &Schema, tables: &[u8], part: u8, join: &JoinOn) -> Result<KeyJoin, Fault>
    requires { IsTrue (are_known schema.now tables.now) }
    ensures found { IfOk result (λ j. one_join schema.now tables.now part join.now ≡ Ok (join_of schema.now tables.now j)) }
    ensures within { OnOk result (part < length tables.now) }
    ensures refused { (fault : TheFault) → IsErrOf result fault → one_join schema.now tables.now part join.now ≡ Err fault }
{
    let seen = first(tables, part as usize + 1);
    let left = match resolve(schema, seen, &join.left) {
        Ok(left) => left,
        Err(fault) => return Err(fault),
    };
    let right = match resolve(schema, seen, &join.right) {
        Ok(right) => right,
        Err(fault) => return Err(fault),
    };
    key_join(schema, tables, part, join.place, left, right)
}

/// The joins of these tables, which are those of FROM and JOIN; join `i` joins part `i + 1`.
pub fn joins(
    alloc: Global,
    schema: &Schema,
    tables: &[u8],
    select: &Select,
) -> Result<KeyJoins, No<Fault>>
    requires { IsTrue (are_known schema.now tables.now) }
    ensures { Decides (map (join_of schema.now tables.now)) result (joins_from schema.now tables.now 1 select.now.joins) }
{
    let mut joins = Seq::new(alloc);
    for (i, join) in select.joins.as_slice().iter().enumerate() {
        match one_join(schema, tables, i as u8 + 1, join) {
            Ok(join) => joins.push(join)?,
            Err(fault) => return Err(No::Refused(fault)),
        }
    }
    Ok(joins)
}
