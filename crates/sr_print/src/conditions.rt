//! Conditions, with parentheses where one stands inside another that binds its parts closer.
#![tactic(auto, using(crate::proofs::WritingLists::written_append))]

ghost use Rattle.std.specs.Prelude.{◌≡◌, map, OnOk};
ghost use Rattle.sr_grammar.specs.Trees.{conds_of};
ghost use Rattle.sr_grammar.specs.Trees as tree;
ghost use Rattle.sr_grammar.specs.Printed as tokens;
ghost use Rattle.sr_grammar.specs.Seen.{cond_seen};
ghost use Rattle.sr_print.specs.Writes.{Writes};

use crate::parts::{Print, enclosed_list};
use crate::printer::Printer;
use sr_cell::cell::Cell;
use sr_cell::list::NoMemory;
use sr_grammar::statement::{Atom, Cond, Literal, Literals, Name, Op};

/// Writes a whole condition.
pub fn condition(printer: &mut Printer, cond: &Cond) -> Result<(), NoMemory>
    ensures { OnOk result (Writes (tokens.condition (cond_seen cond.now)) printer.old printer.new) }
{
    match cond {
        Cond::And(all) => conjunction(printer, all),
        Cond::Or(all) => disjunction(printer, all),
        _ => unit(printer, cond),
    }
}

/// A member of an AND, or what NOT is said of.
#[cycle(cond)]
#[tactic(auto, using(crate::proofs::WritingLists::written_append, crate::proofs::WritingTrees::unit_and, crate::proofs::WritingTrees::unit_or))]
fn unit(printer: &mut Printer, cond: &Cond) -> Result<(), NoMemory>
    ensures { OnOk result (Writes (tokens.unit (cond_seen cond.now)) printer.old printer.new) }
{
    match cond {
        Cond::Test(name, what) => comparison(printer, name, what),
        Cond::Not(one) => negation(printer, one),
        Cond::And(all) => {
            printer.mark("(")?;
            conjunction(printer, all)?;
            printer.mark(")")
        }
        Cond::Or(all) => {
            printer.mark("(")?;
            disjunction(printer, all)?;
            printer.mark(")")
        }
    }
}

#[cycle(cond)]
fn negation(printer: &mut Printer, one: &Cond) -> Result<(), NoMemory>
    ensures { OnOk result (Writes (tokens.unit (tree.Not (cond_seen one.now))) printer.old printer.new) }
{
    printer.key("NOT")?;
    unit(printer, one)
}

/// A member of an OR.
#[cycle(cond)]
fn member(printer: &mut Printer, cond: &Cond) -> Result<(), NoMemory>
    ensures { OnOk result (Writes (tokens.member (cond_seen cond.now)) printer.old printer.new) }
{
    match cond {
        Cond::And(all) => conjunction(printer, all),
        _ => unit(printer, cond),
    }
}

#[cycle(cond)]
fn conjunction(printer: &mut Printer, all: &[Cond]) -> Result<(), NoMemory>
    ensures { OnOk result (Writes (tokens.conjunction (conds_of (map cond_seen all.now))) printer.old printer.new) }
{
    let [first, others @ ..] = all else {
        return Ok(());
    };
    unit(printer, first)?;
    for one in others {
        printer.key("AND")?;
        unit(printer, one)?;
    }
    Ok(())
}

#[cycle(cond)]
fn disjunction(printer: &mut Printer, all: &[Cond]) -> Result<(), NoMemory>
    ensures { OnOk result (Writes (tokens.disjunction (conds_of (map cond_seen all.now))) printer.old printer.new) }
{
    let [first, others @ ..] = all else {
        return Ok(());
    };
    member(printer, first)?;
    for one in others {
        printer.key("OR")?;
        member(printer, one)?;
    }
    Ok(())
}

fn comparison(printer: &mut Printer, name: &Name, what: &Atom) -> Result<(), NoMemory>
    ensures { OnOk result (Writes (tokens.condition (tree.Test name.now what.now)) printer.old printer.new) }
{
    name.print(printer)?;
    atom(printer, what)
}

fn atom(printer: &mut Printer, what: &Atom) -> Result<(), NoMemory>
    ensures { OnOk result (Writes (tokens.atom what.now) printer.old printer.new) }
{
    match what {
        Atom::Cmp(op, value) => {
            printer.mark(sign(*op))?;
            value.print(printer)
        }
        Atom::Between(low, high) => between(printer, low, high),
        Atom::OneOf(all) => one_of(printer, all),
        Atom::Prefix(text) => like(printer, text),
        Atom::NotBetween(low, high) => {
            printer.key("NOT")?;
            between(printer, low, high)
        }
        Atom::NotOneOf(all) => {
            printer.key("NOT")?;
            one_of(printer, all)
        }
        Atom::NotPrefix(text) => {
            printer.key("NOT")?;
            like(printer, text)
        }
        Atom::IsNull => {
            printer.key("IS")?;
            printer.key("NULL")
        }
        Atom::NotNull => {
            printer.key("IS")?;
            printer.key("NOT")?;
            printer.key("NULL")
        }
    }
}

fn sign(op: Op) -> &'static str
    ensures { result.now ≡ tokens.sign op }
{
    match op {
        Op::Eq => "=",
        Op::Ne => "<>",
        Op::Lt => "<",
        Op::Le => "<=",
        Op::Gt => ">",
        Op::Ge => ">=",
    }
}

fn between(printer: &mut Printer, low: &Literal, high: &Literal) -> Result<(), NoMemory>
    ensures { OnOk result (Writes (tokens.between low.now high.now) printer.old printer.new) }
{
    printer.key("BETWEEN")?;
    low.print(printer)?;
    printer.key("AND")?;
    high.print(printer)
}

fn one_of(printer: &mut Printer, all: &Literals) -> Result<(), NoMemory>
    ensures { OnOk result (Writes (tokens.one_of all.now) printer.old printer.new) }
{
    printer.key("IN")?;
    enclosed_list(printer, all.as_slice())
}

fn like(printer: &mut Printer, text: &Literal) -> Result<(), NoMemory>
    ensures { OnOk result (Writes (tokens.like text.now) printer.old printer.new) }
{
    printer.key("LIKE")?;
    match &text.cell {
        Cell::Num(number) => printer.number(*number),
        Cell::Str(start) => printer.prefix(start.as_str()),
        Cell::Null => printer.key("NULL"),
    }
}
