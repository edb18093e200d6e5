//! What a text means to the tables of a script.
ghost use Rattle.std.specs.Prelude.{◌≡◌, IsTrue, IfOk};
ghost use Rattle.std.specs.List.{list_all};
ghost use Rattle.sr_grammar.specs.Says.{Says};
ghost use Rattle.sr_grammar.specs.Seen.{statement_seen};
ghost use Rattle.sr_query.specs.Bound.{is_table};
ghost use Rattle.sr_query.specs.Writes.{bound_write};
ghost use Rattle.sr_lines.specs.Script.{Writes};
ghost use Rattle.sr_reader.specs.Read.{statement_of, statement_fits};
ghost use Rattle.sr_reader.specs.Meaning.{said_seen, IsCreated, IsBound, IsAsking};

use sr_bind::bind::bind_query;
use sr_bind::write::bind_write;
use sr_cell::fault::Fault;
use sr_cell::list::{No, NoMemory};
use sr_cell::schema::Schema;
use sr_cell::table::Table;
use sr_grammar::statement::Statement;
use sr_query::query::Query;
use sr_query::write::Write;
use sr_sql::read::read;
use std::alloc::Global;

/// What a text says: a statement, or why it is refused.
fn said(alloc: Global, sql: &str) -> Result<Result<Statement, Fault>, NoMemory>
    ensures { IfOk result (λ says. Says sql.now (said_seen says)) }
{
    match read(alloc, sql) {
        Ok(statement) => Ok(Ok(statement)),
        Err(No::Refused(fault)) => Ok(Err(fault)),
        Err(No::NoMemory) => Err(NoMemory),
    }
}

/// The table that a text creates, if it is a CREATE.
#[tactic(none)]
pub(crate) fn table_of(alloc: Global, sql: &str) -> Result<Option<Table>, NoMemory>
    ensures { IfOk result (IsCreated sql.now) }
{
    let statement = match said(alloc, sql)? {
        Ok(statement) => statement,
        Err(_) => return Ok(None),
    };
    match statement {
        Statement::Create(table) => Ok(Some(table)),
        other => {
            drop(other);
            Ok(None)
        }
    }
}

/// What a statement writes, or why it writes nothing.
fn bound_write(
    alloc: Global,
    schema: &Schema,
    statement: &Statement,
) -> Result<Result<Write, Fault>, NoMemory>
    requires tables { IsTrue (list_all is_table schema.now) }
    ensures { IfOk result (λ w. bound_write schema.now (statement_seen statement.now) ≡ statement_of w) }
{
    match bind_write(alloc, schema, statement) {
        Ok(write) => Ok(Ok(write)),
        Err(No::Refused(fault)) => Ok(Err(fault)),
        Err(No::NoMemory) => Err(NoMemory),
    }
}

/// As `bound_write`, of a statement that nothing needs any more.
fn write_said(
    alloc: Global,
    schema: &Schema,
    statement: Statement,
) -> Result<Result<Write, Fault>, NoMemory>
    requires tables { IsTrue (list_all is_table schema.now) }
    ensures { IfOk result (λ w. bound_write schema.now (statement_seen statement) ≡ statement_of w) }
{
    let written = bound_write(alloc, schema, &statement);
    drop(statement);
    written
}

/// What a text writes to the tables, or why it is refused.
#[tactic(none)]
pub(crate) fn write_of(
    alloc: Global,
    schema: &Schema,
    sql: &str,
) -> Result<Result<Write, Fault>, NoMemory>
    requires tables { IsTrue (list_all is_table schema.now) }
    ensures written { IfOk result (λ w. Writes schema.now sql.now (statement_of w)) }
    ensures fits { IfOk result (λ w. IsTrue (statement_fits schema.now w)) }
{
    match said(alloc, sql)? {
        Ok(statement) => write_said(alloc, schema, statement),
        Err(fault) => Ok(Err(fault)),
    }
}

/// What a statement asks, or why it asks nothing.
fn bound_query(
    alloc: Global,
    schema: &Schema,
    statement: &Statement,
) -> Result<Result<Query, Fault>, NoMemory>
    requires tables { IsTrue (list_all is_table schema.now) }
    ensures { IfOk result (IsBound schema.now (statement_seen statement.now)) }
{
    match bind_query(alloc, schema, statement) {
        Ok(query) => Ok(Ok(query)),
        Err(No::Refused(fault)) => Ok(Err(fault)),
        Err(No::NoMemory) => Err(NoMemory),
    }
}

/// As `bound_query`, of a statement that nothing needs any more.
fn query_said(
    alloc: Global,
    schema: &Schema,
    statement: Statement,
) -> Result<Result<Query, Fault>, NoMemory>
    requires tables { IsTrue (list_all is_table schema.now) }
    ensures { IfOk result (IsBound schema.now (statement_seen statement)) }
{
    let asked = bound_query(alloc, schema, &statement);
    drop(statement);
    asked
}

/// What a text asks, or why it is refused.
#[tactic(none)]
pub fn query_of(alloc: Global, schema: &Schema, sql: &str) -> Result<Result<Query, Fault>, NoMemory>
    requires tables { IsTrue (list_all is_table schema.now) }
    ensures { IfOk result (IsAsking schema.now sql.now) }
{
    match said(alloc, sql)? {
        Ok(statement) => query_said(alloc, schema, statement),
        Err(why) => Ok(Err(why)),
    }
}
