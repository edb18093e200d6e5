//! Statements and loads, each of which concerns one table.
ghost use Rattle.std.specs.Prelude.{◌≡◌, ◌<◌, ◌≤◌, ◌^◌, map, length, Ok, Err, IsTrue, IfOk, OnOk, OnErr, IsErrOf};
ghost use Rattle.std.specs.List.{list_all, AllZip};
ghost use Rattle.sr_cell.specs.declared.list.No.TheVariants.{Refused};
ghost use Rattle.sr_cell.specs.declared.fault.Fault.{Fault as TheFault};
ghost use Rattle.sr_cell.specs.Columns.{table_at};
ghost use Rattle.sr_model.specs.Statements.{Insert, Update, Delete, executed};
ghost use Rattle.sr_model.specs.Changes.{changes};
ghost use Rattle.sr_query.specs.Bound.{is_table};
ghost use Rattle.sr_query.specs.Written.{write_of, place_of, condition_of};
ghost use Rattle.sr_query.specs.Writes.{suits};
ghost use Rattle.sr_tables.specs.Stored.{IsKeyed, rows_in, are_few, is_short, with_loaded};

use crate::delete::delete;
use crate::insert::insert;
use crate::load::load_row;
use crate::update::update;
use sr_cell::cell::{Row, Rows};
use sr_cell::change::Changes;
use sr_cell::fault::Fault;
use sr_cell::list::No;
use sr_cell::schema::Schema;
use sr_cell::table::Table;
use sr_keyed::keyed::KeyedRows;
use sr_query::write::{Filter, Places, Write};
use std::alloc::Global;

/// Carries out a statement that suits its table. Answers what it changed.
pub(crate) fn carry_out(
    alloc: Global,
    schema: &Schema,
    all: &mut Vec<KeyedRows>,
    write: Write,
) -> Result<Changes, No<Fault>>
    requires sound { IsTrue (list_all is_table schema.now) }
    requires keyed { AllZip IsKeyed schema.now all.old.items }
    requires few { IsTrue (are_few (rows_in all.old.items)) }
    requires suits { IsTrue (suits schema.now (write_of write)) }
    requires short { IsTrue (is_short (write_of write)) }
    ensures done { OnOk result (executed schema.now (write_of write) (rows_in all.old.items) ≡ Ok (rows_in all.new.items)) }
    ensures changes { IfOk result (λ made. made ≡ changes schema.now (rows_in all.old.items) (rows_in all.new.items)) }
    ensures few { IfOk result (λ made. length made ≤ 10000) }
    ensures refused { (fault : TheFault) → IsErrOf result (Refused fault) → executed schema.now (write_of write) (rows_in all.old.items) ≡ Err fault }
    ensures unchanged { OnErr result (all.new.items ≡ all.old.items) }
    ensures keyed { AllZip IsKeyed schema.now all.new.items }
{
    match write {
        Write::Insert { table, rows } => insert_into(alloc, schema, all, table, rows),
        Write::Update {
            table,
            sets,
            filter,
        } => {
            let changes = update_in(alloc, schema, all, table, &sets, &filter);
            drop(filter);
            changes
        }
        Write::Delete { table, filter } => {
            let changes = delete_from(alloc, schema, all, table, &filter);
            drop(filter);
            changes
        }
    }
}

/// Inserts rows into a table.
fn insert_into(
    alloc: Global,
    schema: &Schema,
    all: &mut Vec<KeyedRows>,
    table: u8,
    more: Rows,
) -> Result<Changes, No<Fault>>
    requires sound { IsTrue (list_all is_table schema.now) }
    requires keyed { AllZip IsKeyed schema.now all.old.items }
    requires suits { IsTrue (suits schema.now (Insert table more)) }
    requires short { length more < 2 ^ 32 }
    ensures done { OnOk result (executed schema.now (Insert table more) (rows_in all.old.items) ≡ Ok (rows_in all.new.items)) }
    ensures changes { IfOk result (λ made. made ≡ changes schema.now (rows_in all.old.items) (rows_in all.new.items)) }
    ensures few { IfOk result (λ made. length made ≤ 10000) }
    ensures refused { (fault : TheFault) → IsErrOf result (Refused fault) → executed schema.now (Insert table more) (rows_in all.old.items) ≡ Err fault }
    ensures unchanged { OnErr result (all.new.items ≡ all.old.items) }
    ensures keyed { AllZip IsKeyed schema.now all.new.items }
{
    let definition = table_of(schema, table);
    insert(alloc, table, definition, &mut all[table as usize], more)
}

/// Puts new values into the rows of a table that the filter lets through.
fn update_in(
    alloc: Global,
    schema: &Schema,
    all: &mut Vec<KeyedRows>,
    table: u8,
    sets: &Places,
    filter: &Filter,
) -> Result<Changes, No<Fault>>
    requires sound { IsTrue (list_all is_table schema.now) }
    requires keyed { AllZip IsKeyed schema.now all.old.items }
    requires few { IsTrue (are_few (rows_in all.old.items)) }
    requires suits { IsTrue (suits schema.now (Update table (map place_of sets.now) (condition_of filter.now.condition))) }
    ensures done { OnOk result
        (executed schema.now (Update table (map place_of sets.now) (condition_of filter.now.condition)) (rows_in all.old.items) ≡ Ok (rows_in all.new.items)) }
    ensures changes { IfOk result (λ made. made ≡ changes schema.now (rows_in all.old.items) (rows_in all.new.items)) }
    ensures few { IfOk result (λ made. length made ≤ 10000) }
    ensures refused { (fault : TheFault) → IsErrOf result (Refused fault)
        → executed schema.now (Update table (map place_of sets.now) (condition_of filter.now.condition)) (rows_in all.old.items) ≡ Err fault }
    ensures unchanged { OnErr result (all.new.items ≡ all.old.items) }
    ensures keyed { AllZip IsKeyed schema.now all.new.items }
{
    let definition = table_of(schema, table);
    update(
        alloc,
        table,
        definition,
        &mut all[table as usize],
        sets,
        filter,
    )
}

/// Takes the rows out of a table that the filter lets through.
fn delete_from(
    alloc: Global,
    schema: &Schema,
    all: &mut Vec<KeyedRows>,
    table: u8,
    filter: &Filter,
) -> Result<Changes, No<Fault>>
    requires sound { IsTrue (list_all is_table schema.now) }
    requires keyed { AllZip IsKeyed schema.now all.old.items }
    requires few { IsTrue (are_few (rows_in all.old.items)) }
    requires suits { IsTrue (suits schema.now (Delete table (condition_of filter.now.condition))) }
    ensures done { OnOk result (executed schema.now (Delete table (condition_of filter.now.condition)) (rows_in all.old.items) ≡ Ok (rows_in all.new.items)) }
    ensures changes { IfOk result (λ made. made ≡ changes schema.now (rows_in all.old.items) (rows_in all.new.items)) }
    ensures few { IfOk result (λ made. length made ≤ 10000) }
    ensures refused { (fault : TheFault) → IsErrOf result (Refused fault)
        → executed schema.now (Delete table (condition_of filter.now.condition)) (rows_in all.old.items) ≡ Err fault }
    ensures unchanged { OnErr result (all.new.items ≡ all.old.items) }
    ensures keyed { AllZip IsKeyed schema.now all.new.items }
{
    let definition = table_of(schema, table);
    delete(alloc, table, definition, &mut all[table as usize], filter)
}

/// Puts a row into a table before any statement.
pub(crate) fn load_into(
    alloc: Global,
    schema: &Schema,
    all: &mut Vec<KeyedRows>,
    table: u8,
    row: Row,
) -> Result<(), No<Fault>>
    requires sound { IsTrue (list_all is_table schema.now) }
    requires keyed { AllZip IsKeyed schema.now all.old.items }
    requires table { table < length schema.now }
    requires width { length row ≡ length (table_at schema.now table).columns }
    ensures loaded { OnOk result (with_loaded schema.now table row (rows_in all.old.items) ≡ Ok (rows_in all.new.items)) }
    ensures refused { (fault : TheFault) → IsErrOf result (Refused fault) → with_loaded schema.now table row (rows_in all.old.items) ≡ Err fault }
    ensures unchanged { OnErr result (all.new.items ≡ all.old.items) }
    ensures keyed { AllZip IsKeyed schema.now all.new.items }
{
    let definition = table_of(schema, table);
    load_row(alloc, definition, &mut all[table as usize], row)
}

/// The table of that number.
fn table_of(schema: &Schema, number: u8) -> &Table
    requires sound { IsTrue (list_all is_table schema.now) }
    requires within { number < length schema.now }
    ensures table { result.now ≡ table_at schema.now number }
    ensures key { result.now.key < length result.now.columns }
    ensures columns { length result.now.columns ≤ 12 }
{
    &schema.as_slice()[number as usize]
}
