//! Queries bound to tables.
ghost use Rattle.std.specs.Prelude.{◌≡◌, IsTrue, IfOk, IsErrOf, Ok, Err, length, map};
ghost use Rattle.std.specs.List.{list_all};
ghost use Rattle.sr_cell.specs.declared.fault.Fault.{Fault as TheFault};
ghost use Rattle.sr_cell.specs.declared.list.No.TheVariants.{Refused};
ghost use Rattle.sr_grammar.specs.Seen.{statement_seen, select_seen};
ghost use Rattle.sr_model.specs.Queries.{Query as TheQuery};
ghost use Rattle.sr_query.specs.Binding.{bound_query, bound_select};
ghost use Rattle.sr_query.specs.Bound.{is_table, output_of, IsQuery};
ghost use Rattle.sr_query.specs.Meant.{meant};
ghost use Rattle.sr_resolve.specs.Joined.{join_of};
ghost use Rattle.sr_resolve.specs.Known.{are_known};
ghost use Rattle.sr_bind.specs.AreBound.{are_bound};
ghost use Rattle.sr_bind.specs.Needs.{is_low, is_near_join};
ghost use Rattle.sr_bind.specs.Queried.{queried, Asks};

use crate::conjuncts::{Conjuncts, conjuncts};
use crate::mixed::one_table_each;
use crate::needs::named_columns;
use crate::parts::parts;
use sr_cell::fault::{Fault, Why};
use sr_cell::list::No;
use sr_cell::schema::Schema;
use sr_grammar::statement::{Select, Statement};
use sr_query::query::{KeyJoins, Outputs, Query};
use sr_resolve::joins::joins;
use sr_resolve::outputs::outputs;
use sr_resolve::tables::tables;
use std::alloc::Global;

/// What the statement asks of the tables of the schema, or its first fault.
pub fn bind_query(alloc: Global, schema: &Schema, statement: &Statement) -> Result<Query, No<Fault>>
    requires tables { IsTrue (list_all is_table schema.now) }
    ensures bound { IfOk result (λ q. (meaning : TheQuery) × (bound_query schema.now (statement_seen statement.now) ≡ Ok meaning)
        × IsQuery schema.now q meaning) }
    ensures refused { (fault : TheFault) → IsErrOf result (Refused fault) → bound_query schema.now (statement_seen statement.now) ≡ Err fault }
{
    match statement {
        Statement::Select(select) => bind_select(alloc, schema, select),
        _ => Err(No::Refused(Fault {
            why: Why::NotAQuery,
            at: 0,
        })),
    }
}

fn bind_select(alloc: Global, schema: &Schema, select: &Select) -> Result<Query, No<Fault>>
    requires { IsTrue (list_all is_table schema.now) }
    ensures { Asks schema.now result (bound_select schema.now (select_seen select.now)) }
{
    let tables = match tables(alloc, schema, select) {
        Ok(tables) => tables,
        Err(no) => return Err(no),
    };
    let tables = tables.as_slice();
    let joins = match joins(alloc, schema, tables, select) {
        Ok(joins) => joins,
        Err(no) => return Err(no),
    };
    let outputs = match outputs(alloc, schema, tables, select) {
        Ok(outputs) => outputs,
        Err(no) => return Err(no),
    };
    let conjuncts = match conjuncts(alloc, schema, tables, &select.filter) {
        Ok(conjuncts) => conjuncts,
        Err(no) => return Err(no),
    };
    query(alloc, schema, tables, joins, outputs, conjuncts)
}

/// The query of these joins, outputs and conjuncts.
fn query(
    alloc: Global,
    schema: &Schema,
    tables: &[u8],
    joins: KeyJoins,
    outputs: Outputs,
    conjuncts: Conjuncts,
) -> Result<Query, No<Fault>>
    requires known { IsTrue (are_known schema.now tables.now) }
    requires joins { IsTrue (list_all (is_near_join (length tables.now)) (map (join_of schema.now tables.now) joins)) }
    requires outputs { IsTrue (list_all is_low (map output_of outputs)) }
    requires suits { IsTrue (list_all (are_bound schema.now tables.now) (map meant conjuncts)) }
    ensures { Asks schema.now result (queried schema.now tables.now (map (join_of schema.now tables.now) joins) (map output_of outputs) (map meant conjuncts)) }
{
    match one_table_each(alloc, conjuncts.as_slice()) {
        Ok(()) => {}
        Err(no) => return Err(no),
    }
    let named = named_columns(
        alloc,
        schema,
        tables,
        outputs.as_slice(),
        joins.as_slice(),
        conjuncts.as_slice(),
    )?;
    match parts(alloc, schema, tables, named.as_slice(), conjuncts) {
        Ok(parts) => Ok(Query {
            parts,
            joins,
            output: outputs,
        }),
        Err(no) => Err(no),
    }
}
