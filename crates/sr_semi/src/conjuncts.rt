//! The conjuncts of a WHERE that are about one part of a query.
ghost use Rattle.std.specs.Prelude.{◌≡◌, [], ◌∷◌, map, filter, slice_get, IsTrue, IfOk};
ghost use Rattle.std.specs.Option.{option_copied};
ghost use Rattle.sr_grammar.specs.Seen.{cond_seen, statement_seen};
ghost use Rattle.sr_grammar.specs.Trees.{conds_of};
ghost use Rattle.sr_resolve.specs.Known.{are_known};
ghost use Rattle.sr_semi.specs.Sides.{where_of};
ghost use Rattle.sr_semi.specs.Texts.{all_conjuncts, all_names, conjuncts, conjuncts_on, is_about, names_in};

use crate::copies::copy_cond;
use sr_cell::list::{NoMemory, Seq};
use sr_cell::schema::Schema;
use sr_grammar::statement::{Cond, Name, Statement};
use sr_resolve::references::resolve;
use std::alloc::Global;

/// Conditions all of which hold.
pub type Conjuncts = Seq<Cond>;

/// The first column that a condition names.
#[cycle(names)]
fn first_name(cond: &Cond) -> Option<&Name>
    ensures { option_copied result ≡ slice_get (names_in (cond_seen cond.now)) 0 }
{
    match cond {
        Cond::Test(name, _) => Some(name),
        Cond::And(all) => first_name_in(all),
        Cond::Or(all) => first_name_in(all),
        Cond::Not(one) => first_name(one),
    }
}

#[cycle(names)]
fn first_name_in(conds: &[Cond]) -> Option<&Name>
    ensures { option_copied result ≡ slice_get (all_names (conds_of (map cond_seen conds.now))) 0 }
{
    for cond in conds {
        let name = first_name(cond);
        if name.is_some() {
            return name;
        }
    }
    None
}

/// Whether the first column that a condition names is one of the part.
fn is_about(schema: &Schema, tables: &[u8], part: u8, cond: &Cond) -> bool
    requires { IsTrue (are_known schema.now tables.now) }
    ensures { result ≡ is_about schema.now tables.now part (cond_seen cond.now) }
{
    match first_name(cond) {
        None => false,
        Some(name) => match resolve(schema, tables, name) {
            Ok(column) => column.part == part,
            Err(_) => false,
        },
    }
}

/// The conjuncts of a query's WHERE that are about the part; none where it is not written.
pub fn conjuncts_on(
    alloc: Global,
    schema: &Schema,
    tables: &[u8],
    part: u8,
    statement: &Statement,
) -> Result<Conjuncts, NoMemory>
    requires { IsTrue (are_known schema.now tables.now) }
    ensures { IfOk result (λ found. map cond_seen found ≡ conjuncts_on schema.now tables.now part (where_of (statement_seen statement.now))) }
{
    match statement {
        Statement::Select(select) => match &select.filter {
            Some(cond) => conjuncts_in(alloc, schema, tables, part, cond),
            None => Ok(Seq::new(alloc)),
        },
        _ => Ok(Seq::new(alloc)),
    }
}

/// Those of the members of an AND, those of its members that are ANDs among them.
#[cycle(conjuncts)]
fn conjuncts_in(
    alloc: Global,
    schema: &Schema,
    tables: &[u8],
    part: u8,
    cond: &Cond,
) -> Result<Conjuncts, NoMemory>
    requires { IsTrue (are_known schema.now tables.now) }
    ensures { IfOk result (λ found. map cond_seen found ≡ filter (is_about schema.now tables.now part) (conjuncts (cond_seen cond.now))) }
{
    match cond {
        Cond::And(all) => all_conjuncts_in(alloc, schema, tables, part, all),
        _ => only(alloc, schema, tables, part, cond),
    }
}

#[cycle(conjuncts)]
fn all_conjuncts_in(
    alloc: Global,
    schema: &Schema,
    tables: &[u8],
    part: u8,
    conds: &[Cond],
) -> Result<Conjuncts, NoMemory>
    requires { IsTrue (are_known schema.now tables.now) }
    ensures { IfOk result (λ found.
        map cond_seen found ≡ filter (is_about schema.now tables.now part) (all_conjuncts (conds_of (map cond_seen conds.now)))) }
{
    let mut found = Seq::new(alloc);
    for cond in conds {
        found.append(conjuncts_in(alloc, schema, tables, part, cond)?)?;
    }
    Ok(found)
}

/// A condition that is no AND, if it is about the part.
fn only(
    alloc: Global,
    schema: &Schema,
    tables: &[u8],
    part: u8,
    cond: &Cond,
) -> Result<Conjuncts, NoMemory>
    requires { IsTrue (are_known schema.now tables.now) }
    ensures { IfOk result (λ found. map cond_seen found ≡ filter (is_about schema.now tables.now part) (cond_seen cond.now ∷ [])) }
{
    let mut found = Seq::new(alloc);
    if is_about(schema, tables, part, cond) {
        found.push(copy_cond(alloc, cond)?)?;
    }
    Ok(found)
}
