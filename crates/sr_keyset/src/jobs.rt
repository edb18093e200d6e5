//! What is handed out for a line.
ghost use Rattle.std.specs.Prelude.{◌≡◌, ◌≤◌, ◌<◌, false, Some, IfOk};
ghost use Rattle.sr_dial.specs.Jobs.{IsJob, number_of};
ghost use Rattle.sr_keyset.specs.Follows.{HandsLine, HandsOn, HandsQuery, HandsSay, HandsText, jobs_of};
ghost use Rattle.sr_keyset.specs.Lines.{is_query};
ghost use Rattle.sr_keyset.specs.Plans.{AreSaid, Said, runs};
ghost use Rattle.sr_keyset.specs.Told.{semi_text};
ghost use Rattle.sr_reader.specs.LineSeen.{words_seen};

use crate::lines::TextLine;
use crate::tables::Tables;
use crate::told::{Join, semi_text};
use sr_cell::cell::Rows;
use sr_cell::list::{No, NoMemory};
use sr_dial::parts::Answer;
use sr_dial::plans::Job;
use sr_reader::events::event_of;
use sr_reader::meaning::query_of;
use sr_reader::script::{Event, EventLine};
use sr_reader::words::Words;
use sr_semi::semi::Semi;
use sr_semi::stage::Next;
use std::alloc::Global;

/// A join that is under way, and the line that asks it.
#[derive(Drop)]
pub struct Going<'a> {
    pub semi: Semi,
    pub number: u64,
    pub client: u8,
    pub sql: &'a str,
}

/// A job, and the join that is under way with it, if there is one.
#[derive(Drop)]
pub struct Handed<'a> {
    pub job: Job,
    pub going: Option<Going<'a>>,
}

/// Runs a text as a query.
fn query_job(
    alloc: Global,
    tables: &Tables,
    number: u64,
    client: u8,
    sql: &str,
) -> Result<Job, NoMemory>
    ensures number { IfOk result (λ job. number_of job ≡ number) }
    ensures is { (said : Said) → AreSaid said → IfOk result (λ job. IsJob tables.now job (runs tables.now said sql.now)) }
{
    let query = query_of(alloc, tables.schema(), sql)?;
    Ok(Job::Line(EventLine {
        number,
        event: Event::Query { client, query },
    }))
}

/// Runs a query by its sides, or as it is.
fn begin_query<'a>(
    alloc: Global,
    tables: &Tables,
    number: u64,
    client: u8,
    sql: &'a str,
) -> Result<Handed<'a>, NoMemory>
    ensures hands { IfOk result (HandsQuery tables.now number client sql.now) }
    ensures few { IfOk result (λ handed. jobs_of handed.going ≤ 3) }
{
    match Semi::start(alloc, tables.schema(), sql) {
        Ok(semi) => {
            let job = query_job(alloc, tables, number, client, semi.first().as_str())?;
            let going = Going {
                semi,
                number,
                client,
                sql,
            };
            Ok(Handed {
                job,
                going: Some(going),
            })
        }
        Err(No::Refused(_)) => Ok(Handed {
            job: query_job(alloc, tables, number, client, sql)?,
            going: None,
        }),
        Err(No::NoMemory) => Err(NoMemory),
    }
}

/// Does what a line asks that is no query.
fn other_line<'a>(
    alloc: Global,
    tables: &Tables,
    line: TextLine<'a>,
) -> Result<Handed<'a>, NoMemory>
    requires other { is_query (words_seen line.words) ≡ false }
    ensures hands { IfOk result (HandsLine tables.now line.entry) }
    ensures none { IfOk result (λ handed. jobs_of handed.going ≡ 0) }
{
    let event = event_of(alloc, tables.schema(), line.words)?;
    let number = line.number;
    Ok(Handed {
        job: Job::Line(EventLine { number, event }),
        going: None,
    })
}

/// Begins a line.
pub(crate) fn begin<'a>(
    alloc: Global,
    tables: &Tables,
    line: TextLine<'a>,
) -> Result<Handed<'a>, NoMemory>
    ensures hands { IfOk result (HandsLine tables.now line.entry) }
    ensures few { IfOk result (λ handed. jobs_of handed.going ≤ 3) }
{
    match line.words {
        Words::Query { client, sql } => begin_query(alloc, tables, line.number, client, sql),
        _ => other_line(alloc, tables, line),
    }
}

/// Runs a text as a query, while this join is under way.
fn hand_query<'a>(
    alloc: Global,
    tables: &Tables,
    number: u64,
    client: u8,
    sql: &str,
    going: Option<Going<'a>>,
) -> Result<Handed<'a>, NoMemory>
    ensures { IfOk result (HandsText tables.now number sql.now going.entry) }
{
    let job = query_job(alloc, tables, number, client, sql)?;
    Ok(Handed { job, going })
}

/// Writes what was joined.
fn hand_joined<'a>(alloc: Global, join: Join, rows: Rows) -> Result<Handed<'a>, NoMemory>
    ensures { IfOk result (HandsSay join.number (semi_text join.number join.client join.keys join.version rows)) }
{
    let number = join.number;
    let text = semi_text(alloc, join, rows)?;
    Ok(Handed {
        job: Job::Say { number, text },
        going: None,
    })
}

/// Goes on with a join, behind the answer to its last text.
pub(crate) fn go_on<'a>(
    alloc: Global,
    tables: &Tables,
    going: Going<'a>,
    answer: &Answer,
) -> Result<Handed<'a>, NoMemory>
    ensures hands { IfOk result (HandsOn tables.now going.entry answer.now) }
    ensures fewer { IfOk result (λ handed. jobs_of handed.going < jobs_of (Some going.entry)) }
{
    let mut going = going;
    let (number, client, sql) = (going.number, going.client, going.sql);
    match going.semi.answered(alloc, answer.version, &answer.rows)? {
        Next::Run(text) => hand_query(alloc, tables, number, client, text.as_str(), Some(going)),
        Next::Joined {
            version,
            keys,
            rows,
        } => {
            let join = Join {
                number,
                client,
                keys,
                version,
            };
            hand_joined(alloc, join, rows)
        }
        Next::Plain => hand_query(alloc, tables, number, client, sql, None),
    }
}
