//! Tables with their rows.
ghost use Rattle.std.specs.Prelude.{◌≡◌, ℕ, ◌<◌, ◌≤◌, ◌&&◌, ◌==◌, nat_lt, ◌^◌, [], true, map, filter, length, Ok, Err, IsTrue, IfSome, IfNone, IfOk, OnOk, OnErr, IsErrOf};
ghost use Rattle.std.specs.List.{list_all, AllZip};
ghost use Rattle.sr_cell.specs.declared.list.No.TheVariants.{Refused};
ghost use Rattle.sr_cell.specs.declared.fault.Fault.{Fault as TheFault};
ghost use Rattle.sr_cell.specs.Attrs.{project};
ghost use Rattle.sr_cell.specs.Columns.{table_at, are_values};
ghost use Rattle.sr_box.specs.Points.{in_any};
ghost use Rattle.sr_grammar.specs.Seen.{statement_seen};
ghost use Rattle.sr_model.specs.Queries.{rows_at};
ghost use Rattle.sr_model.specs.Statements.{executed};
ghost use Rattle.sr_model.specs.Changes.{changes};
ghost use Rattle.sr_query.specs.Bound.{is_table};
ghost use Rattle.sr_query.specs.Written.{write_of};
ghost use Rattle.sr_query.specs.Writes.{suits};
ghost use Rattle.sr_tables.specs.ByKey.{keys_of, rows_with};
ghost use Rattle.sr_tables.specs.Stored.{IsKeyed, rows_in, no_rows, are_stored, is_short, statement_is_short, with_loaded, done_by};

use crate::by_key::{keys_in, rows_with};
use crate::carry::{carry_out, load_into};
use crate::select::{index, select};
use sr_bind::write::bind_write;
use sr_cell::attrs::Attrs;
use sr_cell::cell::{Cell, Row, Rows};
use sr_cell::change::Changes;
use sr_cell::fault::Fault;
use sr_cell::list::{No, NoMemory, Seq};
use sr_cell::schema::Schema;
use sr_cell::table::Table;
use sr_grammar::statement::Statement;
use sr_keyed::keyed::KeyedRows;
use sr_query::write::Write;
use sr_union::rects::Rects;
use std::alloc::Global;
use std::marker::Model;

/// The tables of a schema with their rows.
#[derive(Drop)]
pub struct Tables {
    schema: Schema,
    rows: Vec<KeyedRows>,
}

impl Model for Tables {
    ghost use Rattle.std.specs.Prelude.{map, IsTrue};
    ghost use Rattle.std.specs.List.{list_all, AllZip};
    ghost use Rattle.sr_query.specs.Bound.{is_table};
    ghost use Rattle.sr_tables.specs.Stored.{Stored, IsKeyed, rows_in, are_few};

    ghost Value = { Stored };

    ghost view = { λ t. record { schema = t.schema; rows = rows_in t.rows.items } };

    ghost invariant = { λ t. IsTrue (list_all is_table t.schema) × AllZip IsKeyed t.schema t.rows.items × IsTrue (are_few (rows_in t.rows.items)) };
}

impl Tables {
    /// The tables of a schema, without rows.
    pub fn empty(alloc: Global, schema: Schema) -> Result<Tables, NoMemory>
        requires { IsTrue (list_all is_table schema) }
        ensures { IfOk result (λ tables. tables ≡ record { schema = schema; rows = no_rows schema }) }
    {
        let rows = empty_rows(alloc, schema.as_slice())?;
        Ok(Tables { schema, rows })
    }

    /// The rows of each table fit it, by key ascending, and there are at most 65,536: a fact, which does nothing.
    pub fn know_stored(&self)
        ensures tables { IsTrue (list_all is_table self.now.schema) }
        ensures rows { are_stored self.now.schema self.now.rows ≡ true }
    {
        for rows in self.rows.as_slice() {
            rows.know_ascending();
        }
    }

    /// The texts of the rows are bytes: a fact, which does nothing.
    pub fn know_values(&self)
        ensures { IsTrue (list_all (list_all are_values) self.now.rows) }
    {
        for rows in self.rows.as_slice() {
            rows.know_values();
        }
    }

    /// The schema.
    pub fn schema(&self) -> &Schema
        ensures { result.now ≡ self.now.schema }
    {
        &self.schema
    }

    /// One row more in the table of that number, before any statement. The fault's place is the column of a cell, 0 for a
    /// key, 65536 for a full table.
    pub fn load(&mut self, alloc: Global, table: u8, row: Row) -> Result<(), No<Fault>>
        requires table { table < length self.old.schema }
        requires width { length row ≡ length (table_at self.old.schema table).columns }
        ensures loaded { OnOk result (with_loaded self.old.schema table row self.old.rows ≡ Ok self.new.rows) }
        ensures refused { (fault : TheFault) → IsErrOf result (Refused fault) → with_loaded self.old.schema table row self.old.rows ≡ Err fault }
        ensures unchanged { OnErr result (self.new ≡ self.old) }
        ensures schema { self.new.schema ≡ self.old.schema }
    {
        load_into(alloc, &self.schema, &mut self.rows, table, row)
    }

    /// Carries out a bound statement. Answers what it changed, by table and key.
    pub fn write(&mut self, alloc: Global, write: Write) -> Result<Changes, No<Fault>>
        requires suits { IsTrue (suits self.old.schema (write_of write)) }
        requires short { IsTrue (is_short (write_of write)) }
        ensures done { OnOk result (executed self.old.schema (write_of write) self.old.rows ≡ Ok self.new.rows) }
        ensures changes { IfOk result (λ made. made ≡ changes self.old.schema self.old.rows self.new.rows) }
        ensures few { IfOk result (λ made. length made ≤ 10000) }
        ensures refused { (fault : TheFault) → IsErrOf result (Refused fault) → executed self.old.schema (write_of write) self.old.rows ≡ Err fault }
        ensures unchanged { OnErr result (self.new ≡ self.old) }
        ensures schema { self.new.schema ≡ self.old.schema }
    {
        carry_out(alloc, &self.schema, &mut self.rows, write)
    }

    /// Binds a statement and carries it out. Answers what it changed, by table and key; a refusal changes nothing.
    pub fn exec(&mut self, alloc: Global, statement: &Statement) -> Result<Changes, No<Fault>>
        requires short { IsTrue (statement_is_short (statement_seen statement.now)) }
        ensures done { OnOk result (done_by self.old.schema (statement_seen statement.now) self.old.rows ≡ Ok self.new.rows) }
        ensures changes { IfOk result (λ made. made ≡ changes self.old.schema self.old.rows self.new.rows) }
        ensures few { IfOk result (λ made. length made ≤ 10000) }
        ensures refused { (fault : TheFault) → IsErrOf result (Refused fault)
            → done_by self.old.schema (statement_seen statement.now) self.old.rows ≡ Err fault }
        ensures unchanged { OnErr result (self.new ≡ self.old) }
        ensures schema { self.new.schema ≡ self.old.schema }
    {
        match bind_write(alloc, &self.schema, statement) {
            Ok(write) => self.write(alloc, write),
            Err(no) => Err(no),
        }
    }

    /// Makes indexes by which the rows of a table in such rects are found, where memory is to be had: no row changes.
    pub fn index(&mut self, alloc: Global, table: u8, rects: &Rects)
        ensures { self.new ≡ self.old }
    {
        index_table(alloc, &mut self.rows, table, rects);
    }

    /// The rows of a table in the rects, by key, with these columns.
    pub fn select(
        &self,
        alloc: Global,
        table: u8,
        attrs: Attrs,
        rects: &Rects,
    ) -> Result<Rows, NoMemory>
        ensures { IfOk result (λ rows. rows ≡ map (project attrs) (filter (in_any rects.now) (rows_at self.now.rows table))) }
    {
        match self.rows.get(table as usize) {
            None => Ok(Seq::new(alloc)),
            Some(rows) => select(alloc, rows, attrs, rects),
        }
    }

    /// The keys of a table's rows in the rects, ascending.
    pub fn keys_in(&self, alloc: Global, table: u8, rects: &Rects) -> Result<Seq<Cell>, NoMemory>
        ensures { IfOk result (λ keys.
            keys ≡ keys_of (table_at self.now.schema table).key (filter (in_any rects.now) (rows_at self.now.rows table))) }
    {
        match self.rows_of(table) {
            None => Ok(Seq::new(alloc)),
            Some(rows) => keys_in(alloc, rows, rects),
        }
    }

    /// The rows of a table with these keys, key by key, with these columns. A key that no row has gives none.
    pub fn rows_with(
        &self,
        alloc: Global,
        table: u8,
        attrs: Attrs,
        keys: &[Cell],
    ) -> Result<Rows, NoMemory>
        ensures { IfOk result (λ rows.
            rows ≡ map (project attrs) (rows_with (table_at self.now.schema table).key keys.now (rows_at self.now.rows table))) }
    {
        match self.rows_of(table) {
            None => Ok(Seq::new(alloc)),
            Some(rows) => rows_with(alloc, rows, attrs, keys),
        }
    }

    /// The rows of a table, if there is one of that number.
    fn rows_of(&self, table: u8) -> Option<&KeyedRows>
        ensures key { IfSome result (λ rows. rows.now.key ≡ (table_at self.now.schema table).key) }
        ensures rows { IfSome result (λ rows. rows.now.rows ≡ rows_at self.now.rows table) }
        ensures none { IfNone result (rows_at self.now.rows table ≡ []) }
    {
        self.rows.get(table as usize)
    }
}

/// Makes indexes for such rects in one of the tables.
fn index_table(alloc: Global, all: &mut Vec<KeyedRows>, table: u8, rects: &Rects)
    ensures { all.new.items ≡ all.old.items }
{
    match all.get_mut(table as usize) {
        Some(rows) => index(alloc, rows, rects.as_slice()),
        None => {}
    }
}

/// The rows of a table, of which there are none yet.
fn empty(alloc: Global, table: &Table) -> KeyedRows
    requires { IsTrue (is_table table.now) }
    ensures keyed { IsKeyed table.now result }
    ensures none { result.rows ≡ [] }
{
    let key = table.key as usize;
    KeyedRows::new(alloc, key, table.columns.as_slice()[key].kind)
}

/// The rows of each table, of which there are none yet.
fn empty_rows(alloc: Global, tables: &[Table]) -> Result<Vec<KeyedRows>, NoMemory>
    requires { IsTrue (list_all is_table tables.now) }
    ensures keyed { IfOk result (λ all. AllZip IsKeyed tables.now all.items) }
    ensures none { IfOk result (λ all. rows_in all.items ≡ no_rows tables.now) }
{
    let mut all = Vec::new(alloc);
    for table in tables {
        all.push(empty(alloc, table))?;
    }
    Ok(all)
}
