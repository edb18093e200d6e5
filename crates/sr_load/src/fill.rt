//! Tables that are filled from files.
ghost use Rattle.std.specs.Prelude.{◌≡◌, ◌<◌, ◌^◌, ◌==◌, nat_lt, true, Some, Ok, Err, IsTrue, IfOk, OnOk, IsErrOf, length};
ghost use Rattle.std.specs.List.{list_all};
ghost use Rattle.sr_cell.specs.declared.fault.Fault.{Fault as TheFault};
ghost use Rattle.sr_cell.specs.declared.list.No.TheVariants.{Refused};
ghost use Rattle.sr_cell.specs.Columns.{table_at};
ghost use Rattle.sr_model.specs.Loads.{load_fault, of_record, rows_loaded};
ghost use Rattle.sr_model.specs.Queries.{rows_at};
ghost use Rattle.sr_model.specs.Statements.{with_table};
ghost use Rattle.sr_query.specs.Bound.{is_table};
ghost use Rattle.sr_load.specs.Filling.{filled, with_file};
ghost use Rattle.sr_load.specs.Loading.{loaded};
ghost use Rattle.sr_tables.specs.Stored.{no_rows, with_loaded};
ghost use Rattle.sr_load.specs.declared.fill.LoadFault.{LoadFault as TheLoadFault};

use crate::load::load;
use sr_cell::cell::{Row, Rows};
use sr_cell::fault::{Fault, Why};
use sr_cell::list::{Bytes, Copied, No, Seq};
use sr_cell::schema::Schema;
use sr_cell::text::Text;
use sr_tables::tables::Tables;
use std::alloc::Global;

/// A CSV file for the table of that name.
#[derive(Drop)]
pub struct Load {
    pub table: Text,
    pub bytes: Bytes,
}

/// The files to be loaded, in their order.
pub type Loads = Seq<Load>;

/// The table of the first file that is refused, and why. A file that names no table has an unknown table at 0.
#[derive(Drop)]
pub struct LoadFault {
    pub table: Text,
    pub fault: Fault,
}

/// The row of that record. A fault's place is the record's number, whatever the table counts.
fn load_record(
    alloc: Global,
    tables: &mut Tables,
    table: u8,
    number: u32,
    row: Row,
) -> Result<(), No<Fault>>
    requires table { table < length tables.old.schema }
    requires width { length row ≡ length (table_at tables.old.schema table).columns }
    ensures loaded { OnOk result (with_loaded tables.old.schema table row tables.old.rows ≡ Ok tables.new.rows) }
    ensures refused { (fault : TheFault) → IsErrOf result (Refused fault)
        → of_record number (load_fault (table_at tables.old.schema table) (rows_at tables.old.rows table) row) ≡ Some fault }
    ensures schema { tables.new.schema ≡ tables.old.schema }
{
    match tables.load(alloc, table, row) {
        Ok(()) => Ok(()),
        Err(No::Refused(fault)) => Err(No::Refused(Fault {
            why: fault.why,
            at: number,
        })),
        Err(No::NoMemory) => Err(No::NoMemory),
    }
}

/// The rows of a file, whose records are numbered from 1.
fn load_rows(alloc: Global, tables: &mut Tables, table: u8, rows: Rows) -> Result<(), No<Fault>>
    requires table { table < length tables.old.schema }
    requires there { table < length tables.old.rows }
    requires widths { list_all (λ row. length row == length (table_at tables.old.schema table).columns) rows ≡ true }
    requires few { length rows < 2 ^ 32 }
    ensures loaded { OnOk result
        (with_table tables.old.rows table (rows_loaded (table_at tables.old.schema table) 1 rows (rows_at tables.old.rows table)) ≡ Ok tables.new.rows) }
    ensures refused { (fault : TheFault) → IsErrOf result (Refused fault)
        → with_table tables.old.rows table (rows_loaded (table_at tables.old.schema table) 1 rows (rows_at tables.old.rows table)) ≡ Err fault }
    ensures schema { tables.new.schema ≡ tables.old.schema }
{
    let mut number: u32 = 0;
    for row in rows.into_vec() {
        number += 1;
        match load_record(alloc, tables, table, number, row) {
            Ok(()) => {}
            Err(no) => return Err(no),
        }
    }
    Ok(())
}

/// The rows of a file for the table of that number.
fn rows_for(alloc: Global, tables: &Tables, table: u8, bytes: &[u8]) -> Result<Rows, No<Fault>>
    requires table { table < length tables.now.schema }
    requires length { length bytes.now < 2 ^ 32 }
    ensures loaded { IfOk result (λ rows. loaded (table_at tables.now.schema table) bytes.now ≡ Ok rows) }
    ensures refused { (fault : TheFault) → IsErrOf result (Refused fault) → loaded (table_at tables.now.schema table) bytes.now ≡ Err fault }
    ensures widths { IfOk result (λ rows. list_all (λ row. length row == length (table_at tables.now.schema table).columns) rows ≡ true) }
    ensures few { IfOk result (λ rows. length rows < 2 ^ 32) }
    ensures there { table < length tables.now.rows }
{
    tables.know_stored();
    load(alloc, &tables.schema().as_slice()[table as usize], bytes)
}

/// A file beside what is there already. After a refusal the tables may have some of its rows.
fn load_file(alloc: Global, tables: &mut Tables, file: &Load) -> Result<(), No<Fault>>
    requires length { length file.now.bytes < 2 ^ 32 }
    ensures loaded { OnOk result (with_file tables.old.schema file.now tables.old.rows ≡ Ok tables.new.rows) }
    ensures refused { (fault : TheFault) → IsErrOf result (Refused fault) → with_file tables.old.schema file.now tables.old.rows ≡ Err fault }
    ensures schema { tables.new.schema ≡ tables.old.schema }
{
    let table = match tables.schema().table_of(file.table.as_str()) {
        Some(table) => table,
        None => return Err(No::Refused(Fault {
            why: Why::UnknownTable,
            at: 0,
        })),
    };
    match rows_for(alloc, tables, table, file.bytes.as_slice()) {
        Ok(rows) => load_rows(alloc, tables, table, rows),
        Err(no) => Err(no),
    }
}

/// A file's fault with the name of its table, which wants memory.
fn named(alloc: Global, file: &Load, no: No<Fault>) -> No<LoadFault>
    ensures fault { (fault : TheLoadFault) → result ≡ Refused fault → no ≡ Refused fault.fault }
    ensures table { (fault : TheLoadFault) → result ≡ Refused fault → fault.table ≡ file.now.table }
{
    match no {
        No::NoMemory => No::NoMemory,
        No::Refused(fault) => match file.table.copy(alloc) {
            Ok(table) => No::Refused(LoadFault { table, fault }),
            Err(_) => No::NoMemory,
        },
    }
}

/// The tables of a schema with the rows of the files.
pub fn fill(alloc: Global, schema: Schema, loads: &[Load]) -> Result<Tables, No<LoadFault>>
    requires tables { IsTrue (list_all is_table schema) }
    requires lengths { IsTrue (list_all (λ load. nat_lt (length load.bytes) (2 ^ 32)) loads.now) }
    ensures schema { IfOk result (λ tables. tables.schema ≡ schema) }
    ensures filled { IfOk result (λ tables. filled schema loads.now (no_rows schema) ≡ Ok tables.rows) }
    ensures refused { (fault : TheLoadFault) → IsErrOf result (Refused fault) → filled schema loads.now (no_rows schema) ≡ Err fault }
{
    let mut tables = match Tables::empty(alloc, schema) {
        Ok(tables) => tables,
        Err(_) => return Err(No::NoMemory),
    };
    for i in 0..loads.len() {
        let file = &loads[i];
        match load_file(alloc, &mut tables, file) {
            Ok(()) => {}
            Err(no) => return Err(named(alloc, file, no)),
        }
    }
    Ok(tables)
}
