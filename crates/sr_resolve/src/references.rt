//! References to columns.
ghost use Rattle.std.specs.Prelude.{◌≡◌, ◌<◌, IsTrue, IfOk, IfSome, IsErrOf, Ok, Err, map, length, option_to_list};
ghost use Rattle.sr_cell.specs.declared.fault.Fault.{Fault as TheFault};
ghost use Rattle.sr_query.specs.Binding.{resolved, column_named, output_in, outputs_named, part_named, the_one, column_of_part, table_of_part};
ghost use Rattle.sr_query.specs.Bound.{output_of};
ghost use Rattle.sr_resolve.specs.Known.{are_known, is_within};

use crate::lookup::{column_named, table_of_part};
use sr_cell::fault::{Fault, Why};
use sr_cell::schema::Schema;
use sr_cell::text::Text;
use sr_grammar::statement::Name;
use sr_query::condition::Output;

/// The column of that name of the part.
fn output_in(schema: &Schema, tables: &[u8], part: usize, name: &Text) -> Option<Output>
    requires known { IsTrue (are_known schema.now tables.now) }
    requires within { part < length tables.now }
    ensures found { map output_of (option_to_list result) ≡ output_in part (column_named 0 (table_of_part schema.now tables.now part).columns name.now) }
    ensures within { IfSome result (λ o. IsTrue (is_within schema.now tables.now (output_of o))) }
{
    let table = table_of_part(schema, tables, part);
    match column_named(table.columns.as_slice(), name.as_str()) {
        None => None,
        Some(column) => Some(Output {
            part: part as u8,
            column,
        }),
    }
}

/// The column of that name, which one table alone has.
fn the_one(schema: &Schema, tables: &[u8], name: &Text, place: u32) -> Result<Output, Fault>
    requires { IsTrue (are_known schema.now tables.now) }
    ensures found { IfOk result (λ o. the_one place (outputs_named schema.now 0 tables.now name.now) ≡ Ok (output_of o)) }
    ensures within { IfOk result (λ o. IsTrue (is_within schema.now tables.now (output_of o))) }
    ensures refused { (fault : TheFault) → IsErrOf result fault → the_one place (outputs_named schema.now 0 tables.now name.now) ≡ Err fault }
{
    let mut found: Option<Output> = None;
    for part in 0..tables.len() {
        match output_in(schema, tables, part, name) {
            None => {}
            Some(output) => {
                if found.is_some() {
                    return Err(Fault {
                        why: Why::Ambiguous,
                        at: place,
                    });
                }
                found = Some(output);
            }
        }
    }
    match found {
        Some(output) => Ok(output),
        None => Err(Fault {
            why: Why::UnknownColumn,
            at: place,
        }),
    }
}

/// The part whose table has that name.
fn part_named(schema: &Schema, tables: &[u8], name: &Text) -> Option<usize>
    requires { IsTrue (are_known schema.now tables.now) }
    ensures found { result ≡ part_named schema.now 0 tables.now name.now }
    ensures within { IfSome result (λ part. part < length tables.now) }
{
    for part in 0..tables.len() {
        if table_of_part(schema, tables, part).name.as_str() == name.as_str() {
            return Some(part);
        }
    }
    None
}

/// The column of that name of the table of that name.
fn column_of(
    schema: &Schema,
    tables: &[u8],
    table: &Text,
    column: &Text,
    place: u32,
) -> Result<Output, Fault>
    requires { IsTrue (are_known schema.now tables.now) }
    ensures found { IfOk result (λ o. column_of_part schema.now tables.now place column.now (part_named schema.now 0 tables.now table.now) ≡ Ok (output_of o)) }
    ensures within { IfOk result (λ o. IsTrue (is_within schema.now tables.now (output_of o))) }
    ensures refused { (fault : TheFault) → IsErrOf result fault
        → column_of_part schema.now tables.now place column.now (part_named schema.now 0 tables.now table.now) ≡ Err fault }
{
    let part = match part_named(schema, tables, table) {
        Some(part) => part,
        None => return Err(Fault {
            why: Why::UnknownTable,
            at: place,
        }),
    };
    match output_in(schema, tables, part, column) {
        Some(output) => Ok(output),
        None => Err(Fault {
            why: Why::UnknownColumn,
            at: place,
        }),
    }
}

/// The column that a reference means among these tables, or why it means none.
pub fn resolve(schema: &Schema, tables: &[u8], name: &Name) -> Result<Output, Fault>
    requires { IsTrue (are_known schema.now tables.now) }
    ensures found { IfOk result (λ o. resolved schema.now tables.now name.now ≡ Ok (output_of o)) }
    ensures within { IfOk result (λ o. IsTrue (is_within schema.now tables.now (output_of o))) }
    ensures refused { (fault : TheFault) → IsErrOf result fault → resolved schema.now tables.now name.now ≡ Err fault }
{
    match &name.table {
        None => the_one(schema, tables, &name.column, name.place),
        Some(table) => column_of(schema, tables, table, &name.column, name.place),
    }
}
