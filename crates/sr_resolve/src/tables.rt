//! The tables that a query names.
ghost use Rattle.std.specs.Prelude.{◌≡◌, ◌<◌, IsTrue, IfOk, OnOk, [], length};
ghost use Rattle.std.specs.List.{list_all};
ghost use Rattle.sr_grammar.specs.Seen.{select_seen};
ghost use Rattle.sr_query.specs.Binding.{tables_from, sources};
ghost use Rattle.sr_query.specs.Bound.{is_table};
ghost use Rattle.sr_query.specs.Decided.{Decides};
ghost use Rattle.sr_resolve.specs.Known.{are_known};
ghost use Rattle.sr_resolve.specs.Steps.{next_table, with_table};

use sr_cell::fault::{Fault, Why};
use sr_cell::list::{No, Seq};
use sr_cell::schema::Schema;
use sr_cell::text::Text;
use sr_grammar::statement::Select;
use std::alloc::Global;

/// How many tables a query may name.
const MOST_TABLES: usize = 4;

/// The table of that name, behind those that are named already.
fn next_table(schema: &Schema, named: &[u8], name: &Text, place: u32) -> Result<u8, Fault>
    ensures decided { result ≡ next_table schema.now named.now (record { text = name.now; place = place }) }
    ensures within { IfOk result (λ t. t < length schema.now) }
    ensures room { OnOk result (length named.now < 4) }
{
    if named.len() >= MOST_TABLES {
        return Err(Fault {
            why: Why::TooManyTables,
            at: place,
        });
    }
    match schema.table_of(name.as_str()) {
        None => Err(Fault {
            why: Why::UnknownTable,
            at: place,
        }),
        Some(table) => {
            if named.contains(&table) {
                return Err(Fault {
                    why: Why::Repeated,
                    at: place,
                });
            }
            Ok(table)
        }
    }
}

/// Puts the table of that name behind those that are named already.
fn add_table(schema: &Schema, named: &mut Seq<u8>, name: &Text, place: u32) -> Result<(), No<Fault>>
    ensures decided { Decides (λ _. named.new) result (with_table schema.now named.old (record { text = name.now; place = place })) }
    ensures known { IsTrue (are_known schema.now named.old) → OnOk result (IsTrue (are_known schema.now named.new)) }
{
    let table = match next_table(schema, named.as_slice(), name, place) {
        Ok(table) => table,
        Err(fault) => return Err(No::Refused(fault)),
    };
    match named.push(table) {
        Ok(()) => Ok(()),
        Err(_) => Err(No::NoMemory),
    }
}

/// The numbers of the tables of FROM and JOIN, at most four, each once.
pub fn tables(alloc: Global, schema: &Schema, select: &Select) -> Result<Seq<u8>, No<Fault>>
    requires { IsTrue (list_all is_table schema.now) }
    ensures decided { Decides (λ t. t) result (tables_from schema.now [] (sources (select_seen select.now))) }
    ensures known { IfOk result (λ t. IsTrue (are_known schema.now t)) }
{
    let mut named = Seq::new(alloc);
    match add_table(schema, &mut named, &select.first, select.first_place) {
        Ok(()) => {}
        Err(no) => return Err(no),
    }
    for join in select.joins.as_slice() {
        match add_table(schema, &mut named, &join.table, join.table_place) {
            Ok(()) => {}
            Err(no) => return Err(no),
        }
    }
    Ok(named)
}
