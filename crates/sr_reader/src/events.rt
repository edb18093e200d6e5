//! The events of a script.
ghost use Rattle.std.specs.Prelude.{ℕ, List, IsTrue, IfOk};
ghost use Rattle.std.specs.List.{list_all};
ghost use Rattle.sr_lines.specs.Script.{ExecSql, QuerySql, WriteSql, ExplainSql};
ghost use Rattle.sr_query.specs.Bound.{is_table};
ghost use Rattle.sr_reader.specs.LineSeen.{words_seen};
ghost use Rattle.sr_reader.specs.Lined.{AreOf};
ghost use Rattle.sr_reader.specs.Meaning.{IsSaid};
ghost use Rattle.sr_reader.specs.Read.{Fits, IsRead};

use crate::line::Line;
use crate::lines::Lines;
use crate::meaning::{query_of, write_of};
use crate::script::{Event, EventLine, EventLines};
use crate::words::Words;
use sr_cell::list::{NoMemory, Seq};
use sr_cell::schema::Schema;
use sr_cell::text::Text;
use std::alloc::Global;

/// A statement, or why its text is refused.
fn exec(alloc: Global, schema: &Schema, sql: &str) -> Result<Event, NoMemory>
    requires tables { IsTrue (list_all is_table schema.now) }
    ensures { IfOk result (IsSaid schema.now (ExecSql sql.now)) }
{
    match write_of(alloc, schema, sql) {
        Ok(statement) => Ok(Event::Exec(statement)),
        Err(want) => Err(want),
    }
}

/// A query, or why its text is refused.
fn query(alloc: Global, schema: &Schema, client: u8, sql: &str) -> Result<Event, NoMemory>
    requires tables { IsTrue (list_all is_table schema.now) }
    ensures { IfOk result (IsSaid schema.now (QuerySql client sql.now)) }
{
    match query_of(alloc, schema, sql) {
        Ok(query) => Ok(Event::Query { client, query }),
        Err(want) => Err(want),
    }
}

/// A query that is to be explained, or why its text is refused.
fn explain(alloc: Global, schema: &Schema, client: u8, sql: &str) -> Result<Event, NoMemory>
    requires tables { IsTrue (list_all is_table schema.now) }
    ensures { IfOk result (IsSaid schema.now (ExplainSql client sql.now)) }
{
    match query_of(alloc, schema, sql) {
        Ok(query) => Ok(Event::Explain { client, query }),
        Err(want) => Err(want),
    }
}

/// A write, as its text.
fn write(alloc: Global, schema: &Schema, client: u8, sql: &str) -> Result<Event, NoMemory>
    ensures { IfOk result (IsSaid schema.now (WriteSql client sql.now)) }
{
    match Text::of(alloc, sql) {
        Ok(sql) => Ok(Event::Write { client, sql }),
        Err(want) => Err(want),
    }
}

/// What the words of an event say to the schema.
pub fn event_of(alloc: Global, schema: &Schema, words: Words<'_>) -> Result<Event, NoMemory>
    requires tables { IsTrue (list_all is_table schema.now) }
    ensures { IfOk result (IsSaid schema.now (words_seen words.entry)) }
{
    match words {
        Words::Exec { sql } => exec(alloc, schema, sql),
        Words::Query { client, sql } => query(alloc, schema, client, sql),
        Words::Write { client, sql } => write(alloc, schema, client, sql),
        Words::Explain { client, sql } => explain(alloc, schema, client, sql),
        Words::Push { client } => Ok(Event::Push { client }),
        Words::ToServer { client } => Ok(Event::ToServer { client }),
        Words::ToClient { client } => Ok(Event::ToClient { client }),
        Words::Settle { client } => Ok(Event::Settle { client }),
        Words::Evict { client, place } => Ok(Event::Evict { client, place }),
        Words::Cut { client } => Ok(Event::Cut { client }),
        Words::Resume { client } => Ok(Event::Resume { client }),
    }
}

/// Reads the events of the script that the lines are of, whose CREATE lines made the schema.
pub fn read_events(
    alloc: Global,
    schema: &Schema,
    lines: &Lines<'_>,
) -> Result<EventLines, NoMemory>
    requires tables { IsTrue (list_all is_table schema.now) }
    ensures read { (clients : ℕ) (bytes : List ℕ) → AreOf clients bytes schema.now lines.now
        → IfOk result (λ events. IsRead clients bytes (record { schema = schema.now; lines = events })) }
    ensures fits { (clients : ℕ) (bytes : List ℕ) → AreOf clients bytes schema.now lines.now
        → IfOk result (λ events. Fits clients (record { schema = schema.now; lines = events })) }
{
    let mut events = Seq::new(alloc);
    for (i, line) in lines.as_slice().iter().enumerate() {
        if let Line::Event(words) = line {
            let number = i as u64 + 1;
            let event = event_of(alloc, schema, *words)?;
            events.push(EventLine { number, event })?;
        }
    }
    Ok(events)
}
