//! The conditions that WHERE joins by AND.
ghost use Rattle.std.specs.Prelude.{◌≡◌, map, Ok, IsTrue, IfOk};
ghost use Rattle.std.specs.List.{list_all};
ghost use Rattle.sr_grammar.specs.Seen.{cond_seen, filter_seen};
ghost use Rattle.sr_query.specs.Binding.{filter_bound};
ghost use Rattle.sr_query.specs.Decided.{Decides};
ghost use Rattle.sr_query.specs.Meant.{meant};
ghost use Rattle.sr_resolve.specs.Known.{are_known};
ghost use Rattle.sr_bind.specs.AreBound.{are_bound};
ghost use Rattle.sr_bind.specs.Conjuncts.{alone, conjuncts_in, all_conjuncts_in};

use crate::conditions::bind_condition;
use sr_cell::fault::Fault;
use sr_cell::list::{No, Seq};
use sr_cell::schema::Schema;
use sr_grammar::statement::Cond;
use sr_query::condition::Condition;
use std::alloc::Global;

/// Conditions all of which hold.
pub type Conjuncts = Seq<Condition>;

/// The conjuncts of WHERE; none where it is not written.
pub fn conjuncts(
    alloc: Global,
    schema: &Schema,
    tables: &[u8],
    filter: &Option<Cond>,
) -> Result<Conjuncts, No<Fault>>
    requires { IsTrue (are_known schema.now tables.now) }
    ensures decided { Decides (map meant) result (filter_bound schema.now tables.now (filter_seen filter.now)) }
    ensures suits { IfOk result (λ all. IsTrue (list_all (are_bound schema.now tables.now) (map meant all))) }
{
    match filter {
        Some(cond) => conjuncts_in(alloc, schema, tables, cond),
        None => Ok(Seq::new(alloc)),
    }
}

/// The members of an AND, those of its members that are ANDs among them.
#[cycle(conjuncts)]
fn conjuncts_in(
    alloc: Global,
    schema: &Schema,
    tables: &[u8],
    cond: &Cond,
) -> Result<Conjuncts, No<Fault>>
    requires { IsTrue (are_known schema.now tables.now) }
    ensures decided { Decides (map meant) result (conjuncts_in schema.now tables.now (cond_seen cond.now)) }
    ensures suits { IfOk result (λ all. IsTrue (list_all (are_bound schema.now tables.now) (map meant all))) }
{
    match cond {
        Cond::And(all) => all_conjuncts_in(alloc, schema, tables, all),
        _ => only(alloc, schema, tables, cond),
    }
}

#[cycle(conjuncts)]
fn all_conjuncts_in(
    alloc: Global,
    schema: &Schema,
    tables: &[u8],
    conds: &[Cond],
) -> Result<Conjuncts, No<Fault>>
    requires { IsTrue (are_known schema.now tables.now) }
    ensures decided { Decides (map meant) result (all_conjuncts_in schema.now tables.now conds.now) }
    ensures suits { IfOk result (λ all. IsTrue (list_all (are_bound schema.now tables.now) (map meant all))) }
{
    let mut found = Seq::new(alloc);
    for cond in conds {
        match conjuncts_in(alloc, schema, tables, cond) {
            Ok(more) => found.append(more)?,
            Err(no) => return Err(no),
        }
    }
    Ok(found)
}

/// A condition that is no AND, alone.
fn only(alloc: Global, schema: &Schema, tables: &[u8], cond: &Cond) -> Result<Conjuncts, No<Fault>>
    requires { IsTrue (are_known schema.now tables.now) }
    ensures decided { Decides (map meant) result (alone schema.now tables.now (cond_seen cond.now)) }
    ensures suits { IfOk result (λ all. IsTrue (list_all (are_bound schema.now tables.now) (map meant all))) }
{
    let mut found = Seq::new(alloc);
    match bind_condition(alloc, schema, tables, cond) {
        Ok(condition) => found.push(condition)?,
        Err(no) => return Err(no),
    }
    Ok(found)
}
