//! Statements.
#![tactic(auto, using(crate::proofs::WritingLists::written_append))]

ghost use Rattle.std.specs.Prelude.{◌≡◌, ℕ, flat_map, OnOk};
ghost use Rattle.sr_grammar.specs.Printed as tokens;
ghost use Rattle.sr_grammar.specs.Seen.{filter_seen, select_seen, update_seen, delete_seen, statement_seen};
ghost use Rattle.sr_print.specs.Writes.{Writes};

use crate::conditions::condition;
use crate::definitions::create;
use crate::parts::{Print, enclosed_list, list};
use crate::printer::Printer;
use sr_cell::list::NoMemory;
use sr_grammar::statement::{Cond, Delete, Insert, JoinOn, Names, Select, Statement, Update};

/// Writes a statement.
pub fn statement(printer: &mut Printer, statement: &Statement) -> Result<(), NoMemory>
    ensures { OnOk result (Writes (tokens.printed_tokens (statement_seen statement.now)) printer.old printer.new) }
{
    match statement {
        Statement::Create(table) => create(printer, table),
        Statement::Select(query) => select(printer, query),
        Statement::Insert(rows) => insert(printer, rows),
        Statement::Update(change) => update(printer, change),
        Statement::Delete(end) => delete(printer, end),
    }
}

fn select(printer: &mut Printer, query: &Select) -> Result<(), NoMemory>
    ensures { OnOk result (Writes (tokens.select (select_seen query.now)) printer.old printer.new) }
{
    printer.key("SELECT")?;
    if query.all {
        printer.mark("*")?;
    } else {
        list(printer, query.list.as_slice())?;
    }
    printer.key("FROM")?;
    printer.name(query.first.as_str())?;
    joins(printer, query.joins.as_slice())?;
    filter(printer, &query.filter)
}

fn joins(printer: &mut Printer, all: &[JoinOn]) -> Result<(), NoMemory>
    ensures { OnOk result (Writes (flat_map tokens.join all.now) printer.old printer.new) }
{
    for one in all {
        join(printer, one)?;
    }
    Ok(())
}

fn join(printer: &mut Printer, join: &JoinOn) -> Result<(), NoMemory>
    ensures { OnOk result (Writes (tokens.join join.now) printer.old printer.new) }
{
    printer.key("JOIN")?;
    printer.name(join.table.as_str())?;
    printer.key("ON")?;
    join.left.print(printer)?;
    printer.mark("=")?;
    join.right.print(printer)
}

fn filter(printer: &mut Printer, filter: &Option<Cond>) -> Result<(), NoMemory>
    ensures { (place : ℕ) → OnOk result (Writes (tokens.where_tokens place (filter_seen filter.now)) printer.old printer.new) }
{
    if let Some(cond) = filter {
        printer.key("WHERE")?;
        condition(printer, cond)?;
    }
    Ok(())
}

fn insert(printer: &mut Printer, insert: &Insert) -> Result<(), NoMemory>
    ensures { OnOk result (Writes (tokens.insert insert.now) printer.old printer.new) }
{
    printer.key("INSERT")?;
    printer.key("INTO")?;
    printer.name(insert.table.as_str())?;
    column_names(printer, &insert.columns)?;
    printer.key("VALUES")?;
    list(printer, insert.rows.as_slice())
}

fn column_names(printer: &mut Printer, names: &Names) -> Result<(), NoMemory>
    ensures { OnOk result (Writes (tokens.column_names names.now) printer.old printer.new) }
{
    if names.is_empty() {
        return Ok(());
    }
    enclosed_list(printer, names.as_slice())
}

fn update(printer: &mut Printer, update: &Update) -> Result<(), NoMemory>
    ensures { OnOk result (Writes (tokens.update (update_seen update.now)) printer.old printer.new) }
{
    printer.key("UPDATE")?;
    printer.name(update.table.as_str())?;
    printer.key("SET")?;
    list(printer, update.sets.as_slice())?;
    filter(printer, &update.filter)
}

fn delete(printer: &mut Printer, delete: &Delete) -> Result<(), NoMemory>
    ensures { OnOk result (Writes (tokens.delete (delete_seen delete.now)) printer.old printer.new) }
{
    printer.key("DELETE")?;
    printer.key("FROM")?;
    printer.name(delete.table.as_str())?;
    filter(printer, &delete.filter)
}
