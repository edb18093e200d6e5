//! Conditions whose tests know their columns.
ghost use Rattle.std.specs.Prelude.{◌≡◌, map, Ok, IsTrue, IfOk};
ghost use Rattle.sr_grammar.specs.Seen.{cond_seen};
ghost use Rattle.sr_grammar.specs.Trees.{conds_of};
ghost use Rattle.sr_grammar.specs.Trees as tree;
ghost use Rattle.sr_query.specs.Binding.{Negation, bound, bound_all, column_of};
ghost use Rattle.sr_query.specs.Bound.{output_of};
ghost use Rattle.sr_query.specs.Decided.{Decides};
ghost use Rattle.sr_query.specs.Meant.{meant, bounds_of};
ghost use Rattle.sr_resolve.specs.Known.{are_known, is_within};
ghost use Rattle.sr_bind.specs.AreBound.{are_bound, all_are_bound};

use crate::values::{holds, test_of};
use sr_cell::fault::Fault;
use sr_cell::list::{No, NoMemory, Seq};
use sr_cell::schema::Schema;
use sr_cell::table::Kind;
use sr_grammar::statement::{Atom, Cond, Name};
use sr_query::condition::{Condition, Output};
use sr_resolve::references::resolve;
use std::alloc::Global;

/// The condition that is said of the columns of these tables.
#[cycle(cond)]
pub fn bind_condition(
    alloc: Global,
    schema: &Schema,
    tables: &[u8],
    cond: &Cond,
) -> Result<Condition, No<Fault>>
    requires { IsTrue (are_known schema.now tables.now) }
    ensures decided { Decides meant result (bound schema.now tables.now (cond_seen cond.now)) }
    ensures suits { IfOk result (λ c. IsTrue (are_bound schema.now tables.now (meant c))) }
{
    match cond {
        Cond::Test(name, atom) => comparison(alloc, schema, tables, name, atom),
        Cond::And(all) => match bind_all(alloc, schema, tables, all) {
            Ok(members) => Ok(Condition::And(members.into_vec())),
            Err(no) => Err(no),
        },
        Cond::Or(all) => match bind_all(alloc, schema, tables, all) {
            Ok(members) => Ok(Condition::Or(members.into_vec())),
            Err(no) => Err(no),
        },
        Cond::Not(one) => match bind_condition(alloc, schema, tables, one) {
            Ok(inner) => Ok(negation(alloc, inner)?),
            Err(no) => Err(no),
        },
    }
}

#[cycle(cond)]
fn bind_all(
    alloc: Global,
    schema: &Schema,
    tables: &[u8],
    conds: &[Cond],
) -> Result<Seq<Condition>, No<Fault>>
    requires { IsTrue (are_known schema.now tables.now) }
    ensures decided { Decides (λ all. bounds_of (map meant all)) result (bound_all schema.now tables.now (conds_of (map cond_seen conds.now))) }
    ensures suits { IfOk result (λ all. IsTrue (all_are_bound schema.now tables.now (bounds_of (map meant all)))) }
{
    let mut members = Seq::new(alloc);
    for cond in conds {
        match bind_condition(alloc, schema, tables, cond) {
            Ok(member) => members.push(member)?,
            Err(no) => return Err(no),
        }
    }
    Ok(members)
}

fn comparison(
    alloc: Global,
    schema: &Schema,
    tables: &[u8],
    name: &Name,
    atom: &Atom,
) -> Result<Condition, No<Fault>>
    requires { IsTrue (are_known schema.now tables.now) }
    ensures decided { Decides meant result (bound schema.now tables.now (tree.Test name.now atom.now)) }
    ensures suits { IfOk result (λ c. IsTrue (are_bound schema.now tables.now (meant c))) }
{
    let column = match resolve(schema, tables, name) {
        Ok(column) => column,
        Err(fault) => return Err(No::Refused(fault)),
    };
    let test = match test_of(alloc, kind_of(schema, tables, column), atom) {
        Ok(test) => Condition::Test(name.place, column, test),
        Err(no) => return Err(no),
    };
    if holds(atom) {
        Ok(test)
    } else {
        Ok(negation(alloc, test)?)
    }
}

fn negation(alloc: Global, inner: Condition) -> Result<Condition, NoMemory>
    ensures { IfOk result (λ c. meant c ≡ Negation (meant inner)) }
{
    Ok(Condition::Not(Box::new(alloc, inner)?))
}

/// What the column of a part of a query holds.
fn kind_of(schema: &Schema, tables: &[u8], column: Output) -> Kind
    requires known { IsTrue (are_known schema.now tables.now) }
    requires within { IsTrue (is_within schema.now tables.now (output_of column)) }
    ensures { result ≡ (column_of schema.now tables.now (output_of column)).kind }
{
    let table = &schema.as_slice()[tables[column.part as usize] as usize];
    table.columns.as_slice()[column.column as usize].kind
}
