//! Copies of conditions.
ghost use Rattle.std.specs.Prelude.{◌≡◌, map, IfOk};
ghost use Rattle.sr_grammar.specs.Seen.{cond_seen};
ghost use Rattle.sr_grammar.specs.Trees as tree;

use sr_cell::list::{Copied, NoMemory, Seq};
use sr_grammar::statement::{Atom, Cond, Literal, Literals, Name};
use std::alloc::Global;

fn copy_name(alloc: Global, name: &Name) -> Result<Name, NoMemory>
    ensures { IfOk result (λ same. same ≡ name.now) }
{
    Ok(Name {
        table: name.table.copy(alloc)?,
        column: name.column.copy(alloc)?,
        place: name.place,
    })
}

fn copy_literal(alloc: Global, literal: &Literal) -> Result<Literal, NoMemory>
    ensures { IfOk result (λ same. same ≡ literal.now) }
{
    Ok(Literal {
        cell: literal.cell.copy(alloc)?,
        place: literal.place,
    })
}

fn copy_literals(alloc: Global, literals: &Literals) -> Result<Literals, NoMemory>
    ensures { IfOk result (λ same. same ≡ literals.now) }
{
    let mut all = Seq::new(alloc);
    for literal in literals.as_slice() {
        all.push(copy_literal(alloc, literal)?)?;
    }
    Ok(all)
}

fn copy_atom(alloc: Global, atom: &Atom) -> Result<Atom, NoMemory>
    ensures { IfOk result (λ same. same ≡ atom.now) }
{
    Ok(match atom {
        Atom::Cmp(op, value) => Atom::Cmp(*op, copy_literal(alloc, value)?),
        Atom::Between(low, high) => {
            Atom::Between(copy_literal(alloc, low)?, copy_literal(alloc, high)?)
        }
        Atom::OneOf(all) => Atom::OneOf(copy_literals(alloc, all)?),
        Atom::Prefix(text) => Atom::Prefix(copy_literal(alloc, text)?),
        Atom::NotBetween(low, high) => {
            Atom::NotBetween(copy_literal(alloc, low)?, copy_literal(alloc, high)?)
        }
        Atom::NotOneOf(all) => Atom::NotOneOf(copy_literals(alloc, all)?),
        Atom::NotPrefix(text) => Atom::NotPrefix(copy_literal(alloc, text)?),
        Atom::IsNull => Atom::IsNull,
        Atom::NotNull => Atom::NotNull,
    })
}

/// The same condition, in memory of its own.
#[cycle(copies)]
pub fn copy_cond(alloc: Global, cond: &Cond) -> Result<Cond, NoMemory>
    ensures { IfOk result (λ same. cond_seen same ≡ cond_seen cond.now) }
{
    match cond {
        Cond::Test(name, atom) => Ok(Cond::Test(copy_name(alloc, name)?, copy_atom(alloc, atom)?)),
        Cond::And(all) => Ok(Cond::And(copy_all(alloc, all)?.into_vec())),
        Cond::Or(all) => Ok(Cond::Or(copy_all(alloc, all)?.into_vec())),
        Cond::Not(one) => negation(alloc, copy_cond(alloc, one)?),
    }
}

fn negation(alloc: Global, inner: Cond) -> Result<Cond, NoMemory>
    ensures { IfOk result (λ c. cond_seen c ≡ tree.Not (cond_seen inner)) }
{
    Ok(Cond::Not(Box::new(alloc, inner)?))
}

/// The same conditions.
#[cycle(copies)]
pub fn copy_all(alloc: Global, conds: &[Cond]) -> Result<Seq<Cond>, NoMemory>
    ensures { IfOk result (λ same. map cond_seen same ≡ map cond_seen conds.now) }
{
    let mut all = Seq::new(alloc);
    for cond in conds {
        all.push(copy_cond(alloc, cond)?)?;
    }
    Ok(all)
}
