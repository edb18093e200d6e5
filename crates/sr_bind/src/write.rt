//! Statements that write, bound to tables.
ghost use Rattle.std.specs.Prelude.{◌≡◌, ◌<◌, IsTrue, IfOk, length};
ghost use Rattle.std.specs.List.{list_all};
ghost use Rattle.sr_cell.specs.Names.{table_named};
ghost use Rattle.sr_grammar.specs.Seen.{statement_seen, update_seen, delete_seen, filter_seen};
ghost use Rattle.sr_query.specs.Bound.{is_table};
ghost use Rattle.sr_query.specs.Decided.{Decides};
ghost use Rattle.sr_query.specs.Writes.{bound_write, table_known, condition_in, suits};
ghost use Rattle.sr_query.specs.Written.{write_of, condition_of};
ghost use Rattle.sr_bind.specs.Written.{insert_bound, update_bound, delete_bound};

use crate::conditions::bind_condition;
use crate::inserts::rows_of;
use crate::lookup::table_at;
use crate::updates::places;
use sr_cell::fault::{Fault, Why};
use sr_cell::list::No;
use sr_cell::schema::Schema;
use sr_cell::text::Text;
use sr_grammar::statement::{Cond, Delete, Insert, Statement, Update};
use sr_query::write::{Filter, Write};
use std::alloc::Global;

/// What the statement writes to the tables of the schema, or its first fault.
pub fn bind_write(alloc: Global, schema: &Schema, statement: &Statement) -> Result<Write, No<Fault>>
    requires { IsTrue (list_all is_table schema.now) }
    ensures bound { Decides write_of result (bound_write schema.now (statement_seen statement.now)) }
    ensures suits { IfOk result (λ w. IsTrue (suits schema.now (write_of w))) }
{
    match statement {
        Statement::Insert(insert) => bind_insert(alloc, schema, insert),
        Statement::Update(update) => bind_update(alloc, schema, update),
        Statement::Delete(delete) => bind_delete(alloc, schema, delete),
        Statement::Create(_) | Statement::Select(_) => Err(No::Refused(Fault {
            why: Why::NotAWrite,
            at: 0,
        })),
    }
}

fn bind_insert(alloc: Global, schema: &Schema, insert: &Insert) -> Result<Write, No<Fault>>
    requires { IsTrue (list_all is_table schema.now) }
    ensures { Decides write_of result (insert_bound schema.now insert.now) }
{
    let table = match table_of(schema, &insert.table, insert.place) {
        Ok(table) => table,
        Err(fault) => return Err(No::Refused(fault)),
    };
    match rows_of(alloc, table_at(schema, table), insert) {
        Ok(rows) => Ok(Write::Insert { table, rows }),
        Err(no) => Err(no),
    }
}

fn bind_update(alloc: Global, schema: &Schema, update: &Update) -> Result<Write, No<Fault>>
    requires { IsTrue (list_all is_table schema.now) }
    ensures { Decides write_of result (update_bound schema.now (update_seen update.now)) }
{
    let table = match table_of(schema, &update.table, update.place) {
        Ok(table) => table,
        Err(fault) => return Err(No::Refused(fault)),
    };
    let sets = match places(alloc, table_at(schema, table), update.sets.as_slice()) {
        Ok(sets) => sets,
        Err(no) => return Err(no),
    };
    match filter_of(alloc, schema, table, &update.filter) {
        Ok(filter) => Ok(Write::Update {
            table,
            sets,
            filter,
        }),
        Err(no) => Err(no),
    }
}

fn bind_delete(alloc: Global, schema: &Schema, delete: &Delete) -> Result<Write, No<Fault>>
    requires { IsTrue (list_all is_table schema.now) }
    ensures { Decides write_of result (delete_bound schema.now (delete_seen delete.now)) }
{
    let table = match table_of(schema, &delete.table, delete.place) {
        Ok(table) => table,
        Err(fault) => return Err(No::Refused(fault)),
    };
    match filter_of(alloc, schema, table, &delete.filter) {
        Ok(filter) => Ok(Write::Delete { table, filter }),
        Err(no) => Err(no),
    }
}

/// The number of the table of that name.
fn table_of(schema: &Schema, name: &Text, place: u32) -> Result<u8, Fault>
    ensures decided { result ≡ table_known place (table_named schema.now name.now) }
    ensures within { IfOk result (λ t. t < length schema.now) }
{
    match schema.table_of(name.as_str()) {
        Some(table) => Ok(table),
        None => Err(Fault {
            why: Why::UnknownTable,
            at: place,
        }),
    }
}

/// The rows that WHERE is true of; each where it is not written.
fn filter_of(
    alloc: Global,
    schema: &Schema,
    table: u8,
    filter: &Option<Cond>,
) -> Result<Filter, No<Fault>>
    requires sound { IsTrue (list_all is_table schema.now) }
    requires within { table < length schema.now }
    ensures { Decides (λ f. condition_of f.condition) result (condition_in schema.now table (filter_seen filter.now)) }
{
    match filter {
        None => Ok(Filter { condition: None }),
        Some(cond) => match bind_condition(alloc, schema, &[table], cond) {
            Ok(condition) => Ok(Filter {
                condition: Some(condition),
            }),
            Err(no) => Err(no),
        },
    }
}
