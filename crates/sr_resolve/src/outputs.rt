//! What a query selects.
ghost use Rattle.std.specs.Prelude.{◌≡◌, ◌≤◌, ◌++◌, IsTrue, IfOk, OnOk, map, length};
ghost use Rattle.sr_grammar.specs.Seen.{select_seen};
ghost use Rattle.sr_query.specs.Binding.{outputs_of, all_outputs, columns_of_part, each, resolved};
ghost use Rattle.sr_query.specs.Bound.{output_of};
ghost use Rattle.sr_query.specs.Decided.{Decides};
ghost use Rattle.sr_resolve.specs.Known.{are_known};

use crate::lookup::table_of_part;
use crate::references::resolve;
use sr_cell::fault::Fault;
use sr_cell::list::{No, NoMemory, Seq};
use sr_cell::schema::Schema;
use sr_cell::table::Column;
use sr_grammar::statement::{Name, Select};
use sr_query::condition::Output;
use sr_query::query::Outputs;
use std::alloc::Global;

/// Puts all columns of a part behind the outputs.
fn push_columns(outputs: &mut Outputs, part: u8, columns: &[Column]) -> Result<(), NoMemory>
    requires { length columns.now ≤ 12 }
    ensures { OnOk result (map output_of outputs.new ≡ map output_of outputs.old ++ columns_of_part part 0 columns.now) }
{
    for column in 0..columns.len() {
        outputs.push(Output {
            part,
            column: column as u8,
        })?;
    }
    Ok(())
}

/// All columns, table by table.
fn all_outputs(alloc: Global, schema: &Schema, tables: &[u8]) -> Result<Outputs, NoMemory>
    requires { IsTrue (are_known schema.now tables.now) }
    ensures { IfOk result (λ outputs. map output_of outputs ≡ all_outputs schema.now 0 tables.now) }
{
    let mut outputs = Seq::new(alloc);
    for part in 0..tables.len() {
        let table = table_of_part(schema, tables, part);
        push_columns(&mut outputs, part as u8, table.columns.as_slice())?;
    }
    Ok(outputs)
}

/// The columns that these references mean.
fn listed(
    alloc: Global,
    schema: &Schema,
    tables: &[u8],
    names: &[Name],
) -> Result<Outputs, No<Fault>>
    requires { IsTrue (are_known schema.now tables.now) }
    ensures { Decides (map output_of) result (each (resolved schema.now tables.now) names.now) }
{
    let mut outputs = Seq::new(alloc);
    for name in names {
        match resolve(schema, tables, name) {
            Ok(output) => outputs.push(output)?,
            Err(fault) => return Err(No::Refused(fault)),
        }
    }
    Ok(outputs)
}

/// The columns that are selected, in the order of the list; a star is all columns, table by table.
pub fn outputs(
    alloc: Global,
    schema: &Schema,
    tables: &[u8],
    select: &Select,
) -> Result<Outputs, No<Fault>>
    requires { IsTrue (are_known schema.now tables.now) }
    ensures { Decides (map output_of) result (outputs_of schema.now tables.now (select_seen select.now)) }
{
    if select.all {
        Ok(all_outputs(alloc, schema, tables)?)
    } else {
        listed(alloc, schema, tables, select.list.as_slice())
    }
}
