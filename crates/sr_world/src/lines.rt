//! The lines of what a call answered.
ghost use Rattle.std.specs.Prelude.{◌≡◌, ◌<◌, ◌^◌, ℕ, true, false, List, [], ◌∷◌, ◌++◌, length, map, option_to_list, None, Some, Ok, IfOk, OnOk};
ghost use Rattle.sr_cell.specs.declared.cause.Cause.TheVariants.{Asked as AskedCause};
ghost use Rattle.sr_cell.specs.declared.fault.Fault.{Fault as TheFault};
ghost use Rattle.sr_model.specs.Queries.{Query as TheQuery};
ghost use Rattle.sr_script.specs.declared.line.TraceLine.{TraceLine as TheLine};
ghost use Rattle.sr_script.specs.declared.line.TraceLine.TheVariants.{WriteSql, Row as RowLine};
ghost use Rattle.sr_session.specs.Clients.{Client as Past};
ghost use Rattle.sr_session.specs.Refusals.{is_request};
ghost use Rattle.sr_session.specs.Rules.{Outcome, ResumeSent, sent_of};
ghost use Rattle.sr_client.specs.declared.client.Client.{Client};
ghost use Rattle.sr_client.specs.declared.steps.WriteStep.TheVariants.{Sql};
ghost use Rattle.sr_client.specs.Stands.{out_of};
ghost use Rattle.sr_client.specs.Steps.{SaysCut, SaysEvict, SaysQuery, SaysResume, SaysTook, SaysWrite, is_bad};
ghost use Rattle.sr_explain.specs.Telling.{explain_lines};
ghost use Rattle.sr_store.specs.Stores.{drop_of};
ghost use Rattle.sr_runs.specs.Lines.{answer_lines, cut_line, details, evict_line, mark_line, mark_lines, part_line, query_line, resume_line, served_line, taken_line, write_line};
ghost use Rattle.sr_world.specs.Told.{QueryAsksFew, ResumeOpens, TookAsksFew, asked_lines, ended_lines, is_few_ask, opens};

use sr_cell::cause::Cause;
use sr_cell::cell::Rows;
use sr_cell::list::{Copied, NoMemory, Seq};
use sr_client::steps::{CutStep, Ended, EvictStep, QueryStep, ResumeStep, Took, WriteStep};
use sr_explain::explanation::Explanation;
use sr_explain::lines::lines;
use sr_history::mark::{Mark, Marks};
use sr_message::message::{AskPart, Message};
use sr_region::region::Region;
use sr_script::line::{FailKind, RequestKind, TraceLine, TraceLines};
use std::alloc::Global;

/// The lines of a step, and the message that goes to the server with it.
#[derive(Drop)]
pub struct Told {
    pub lines: TraceLines,
    pub sent: Option<Message>,
}

/// What is told of the step of a query of that client.
pub fn told_of_query(alloc: Global, client: u8, step: QueryStep) -> Result<Told, NoMemory>
    requires few { QueryAsksFew step }
    ensures lines { (past : Past) (o : Outcome) → SaysQuery past step o → IfOk result (λ told. told.lines ≡ details client o ++ query_line client o) }
    ensures sent { (past : Past) (o : Outcome) → SaysQuery past step o → IfOk result (λ told. option_to_list told.sent ≡ sent_of o) }
{
    match step {
        QueryStep::Answered {
            query,
            version,
            rows,
            marks,
        } => {
            let lines = answered_lines(alloc, client, query, version, rows, marks);
            told_if(lines, TraceLine::QueryAnswered { client, query }, None)
        }
        QueryStep::Asked {
            request,
            message,
            marks,
            ..
        } => {
            let lines = asking_lines(alloc, client, marks, &message);
            let last = TraceLine::QueryAsked { client, request };
            told_if(lines, last, Some(message))
        }
        QueryStep::Busy { request } => {
            let last = TraceLine::QueryBusy { client, request };
            told_with(Seq::new(alloc), last, None)
        }
        QueryStep::Down { cut } => {
            told_with(Seq::new(alloc), TraceLine::QueryDown { client, cut }, None)
        }
    }
}

/// What is told of it that the client took a message, which it did not refuse.
pub fn told_of_took(alloc: Global, client: u8, took: Took) -> Result<Told, NoMemory>
    requires taken { is_bad took ≡ false }
    requires few { TookAsksFew took }
    ensures lines { (o : Outcome) → SaysTook took o → IfOk result (λ told. told.lines ≡ details client o ++ taken_line client o) }
    ensures sent { (o : Outcome) → SaysTook took o → IfOk result (λ told. option_to_list told.sent ≡ sent_of o) }
{
    match took {
        Took::Answered {
            query,
            version,
            rows,
            marks,
        } => {
            let lines = answered_lines(alloc, client, query, version, rows, marks);
            told_if(lines, TraceLine::ClientAnswered { client }, None)
        }
        Took::Asked {
            request,
            message,
            marks,
        } => {
            let lines = asking_lines(alloc, client, marks, &message);
            let last = TraceLine::ClientAsked { client, request };
            told_if(lines, last, Some(message))
        }
        Took::Bad(_) => unreachable!(),
        Took::Laid => told_with(Seq::new(alloc), TraceLine::ClientLaid { client }, None),
        Took::Applied { version, marks } => {
            let lines = mark_lines(alloc, client, marks);
            told_if(lines, TraceLine::ClientApplied { client, version }, None)
        }
        Took::Forgot { version, marks } => {
            let lines = mark_lines(alloc, client, marks);
            told_if(lines, TraceLine::ClientForgot { client, version }, None)
        }
        Took::Written {
            request,
            version,
            marks,
        } => {
            let last = TraceLine::ClientWritten {
                client,
                request,
                version,
            };
            told_if(mark_lines(alloc, client, marks), last, None)
        }
        Took::Refused {
            request,
            fault,
            marks,
        } => {
            let last = TraceLine::ClientRefused {
                client,
                request,
                fault,
            };
            told_if(mark_lines(alloc, client, marks), last, None)
        }
        Took::Welcomed {
            version,
            kept,
            marks,
        } => {
            let last = TraceLine::ClientWelcome {
                client,
                version,
                kept,
            };
            told_if(mark_lines(alloc, client, marks), last, None)
        }
    }
}

/// What is told of the step of a write of that client.
pub fn told_of_write(alloc: Global, client: u8, step: WriteStep) -> Result<Told, NoMemory>
    ensures lines { (sql : List ℕ) (o : Outcome) → SaysWrite sql step o → IfOk result (λ told. told.lines ≡ details client o ++ write_line client o) }
    ensures sent { (sql : List ℕ) (o : Outcome) → SaysWrite sql step o → IfOk result (λ told. option_to_list told.sent ≡ sent_of o) }
    ensures refused { (fault : TheFault) → step ≡ Sql fault → IfOk result (λ told. told ≡ record { lines = WriteSql client fault ∷ []; sent = None }) }
{
    let none = Seq::new(alloc);
    match step {
        WriteStep::Sent { request, message } => {
            let last = TraceLine::WriteSent { client, request };
            told_with(none, last, Some(message))
        }
        WriteStep::Sql(fault) => told_with(none, TraceLine::WriteSql { client, fault }, None),
        WriteStep::Busy { request } => {
            told_with(none, TraceLine::WriteBusy { client, request }, None)
        }
        WriteStep::Down { cut } => told_with(none, TraceLine::WriteDown { client, cut }, None),
    }
}

/// What is told of the step of a resume of that client.
pub fn told_of_resume(alloc: Global, client: u8, step: ResumeStep) -> Result<Told, NoMemory>
    requires opens { ResumeOpens step }
    ensures lines { (past : Past) (o : Outcome) → SaysResume past step o → IfOk result (λ told. told.lines ≡ details client o ++ resume_line client o) }
    ensures sent { (past : Past) (o : Outcome) → SaysResume past step o → IfOk result (λ told. option_to_list told.sent ≡ sent_of o) }
{
    match step {
        ResumeStep::Sent { message, .. } => Ok(Told {
            lines: opening_line(alloc, client, &message)?,
            sent: Some(message),
        }),
        ResumeStep::Up => told_with(Seq::new(alloc), TraceLine::ResumeUp { client }, None),
    }
}

/// The line of a resume that sends this message, which opens a session.
fn opening_line(alloc: Global, client: u8, message: &Message) -> Result<TraceLines, NoMemory>
    requires opens { opens message.now ≡ true }
    ensures { IfOk result (λ lines. lines ≡ resume_line client (ResumeSent message.now)) }
{
    match message {
        Message::Hello { number, .. } | Message::Resume { number, .. } => one_line(
            alloc,
            TraceLine::ResumeSent {
                client,
                request: *number,
            },
        ),
        _ => unreachable!(),
    }
}

/// The lines of an eviction.
pub fn lines_of_evict(alloc: Global, client: u8, step: EvictStep) -> Result<TraceLines, NoMemory>
    ensures { (o : Outcome) → SaysEvict step o → IfOk result (λ lines. lines ≡ details client o ++ evict_line client o) }
{
    match step {
        EvictStep::Dropped(region) => {
            let dropped = one_line(alloc, drop_line(client, region))?;
            with_line(dropped, TraceLine::EvictDropped { client })
        }
        EvictStep::Busy { request } => one_line(alloc, TraceLine::EvictBusy { client, request }),
        EvictStep::NoSuch { count } => {
            let count = count as u64;
            one_line(alloc, TraceLine::EvictNone { client, count })
        }
    }
}

/// The line of a region that was dropped since that was asked for.
fn drop_line(client: u8, region: Region) -> TraceLine
    ensures { result ≡ mark_line client (drop_of AskedCause region) }
{
    TraceLine::Drop {
        client,
        cause: Cause::Asked,
        table: region.table,
        attrs: region.attrs,
        stamp: region.stamp,
        rects: region.rects,
    }
}

/// The lines of a cut.
pub fn lines_of_cut(alloc: Global, client: u8, step: CutStep) -> Result<TraceLines, NoMemory>
    ensures { (past : Past) (old : Client) (o : Outcome) (meaning : TheQuery) → past.out ≡ out_of meaning old.out → SaysCut past old step o
        → IfOk result (λ lines. lines ≡ details client o ++ cut_line client o) }
{
    match step {
        CutStep::Cut { number, ended } => {
            let failed = fail_lines(alloc, client, ended)?;
            with_line(
                failed,
                TraceLine::CutDone {
                    client,
                    cut: number,
                },
            )
        }
        CutStep::Already { number } => one_line(
            alloc,
            TraceLine::CutAlready {
                client,
                cut: number,
            },
        ),
    }
}

/// The lines of an explanation of that client: its details, and its version.
pub fn lines_of_explain(
    alloc: Global,
    client: u8,
    explanation: &Explanation,
) -> Result<TraceLines, NoMemory>
    requires few { length explanation.now.victims < 2 ^ 32 }
    ensures { IfOk result (λ told. told ≡ explain_lines client (Ok explanation.now)) }
{
    let told = lines(alloc, explanation)?;
    with_line(
        told,
        TraceLine::Explained {
            client,
            version: explanation.version,
        },
    )
}

/// The line of it that the server took this request, and sent so many messages.
pub(crate) fn served_line(
    alloc: Global,
    client: u8,
    message: &Message,
    sent: u64,
) -> Result<TraceLines, NoMemory>
    requires request { is_request message.now ≡ true }
    ensures { IfOk result (λ lines. lines ≡ served_line client sent message.now) }
{
    let kind = match message {
        Message::Hello { .. } => RequestKind::Hello,
        Message::Resume { .. } => RequestKind::Resume,
        Message::Ask { .. } => RequestKind::Ask,
        Message::Write { .. } => RequestKind::Write,
        _ => unreachable!(),
    };
    one_line(
        alloc,
        TraceLine::ServerTook {
            client,
            kind,
            frames: sent,
        },
    )
}

/// This line alone.
pub(crate) fn one_line(alloc: Global, line: TraceLine) -> Result<TraceLines, NoMemory>
    ensures { IfOk result (λ lines. lines ≡ line ∷ []) }
{
    with_line(Seq::new(alloc), line)
}

/// These lines with one more behind them.
pub(crate) fn with_line(lines: TraceLines, line: TraceLine) -> Result<TraceLines, NoMemory>
    ensures { IfOk result (λ all. all ≡ lines ++ line ∷ []) }
{
    let mut lines = lines;
    lines.push(line).and(Ok(lines))
}

/// These lines with others behind them.
pub(crate) fn with_lines(lines: TraceLines, more: TraceLines) -> Result<TraceLines, NoMemory>
    ensures { IfOk result (λ all. all ≡ lines ++ more) }
{
    let mut lines = lines;
    lines.append(more).and(Ok(lines))
}

/// These lines with the last one of their step, and what is sent.
fn told_with(lines: TraceLines, last: TraceLine, sent: Option<Message>) -> Result<Told, NoMemory>
    ensures lines { IfOk result (λ told. told.lines ≡ lines ++ last ∷ []) }
    ensures sent { IfOk result (λ told. told.sent ≡ sent) }
{
    let lines = with_line(lines, last)?;
    Ok(Told { lines, sent })
}

/// The same, where there may have been no memory for the lines.
fn told_if(
    made: Result<TraceLines, NoMemory>,
    last: TraceLine,
    sent: Option<Message>,
) -> Result<Told, NoMemory>
    ensures lines { (lines : List TheLine) → IfOk made (λ these. these ≡ lines) → IfOk result (λ told. told.lines ≡ lines ++ last ∷ []) }
    ensures sent { IfOk result (λ told. told.sent ≡ sent) }
{
    match made {
        Ok(lines) => told_with(lines, last, sent),
        Err(no) => Err(no),
    }
}

/// The answer of a query, its rows, and the marks.
fn answered_lines(
    alloc: Global,
    client: u8,
    query: u64,
    version: u64,
    rows: Rows,
    marks: Marks,
) -> Result<TraceLines, NoMemory>
    ensures { IfOk result (λ lines. lines ≡ answer_lines client query version rows ++ mark_lines client marks) }
{
    let mut lines = answer_lines(alloc, client, query, version, rows)?;
    push_marks(&mut lines, client, marks).and(Ok(lines))
}

/// The answer of a query, and then its rows.
fn answer_lines(
    alloc: Global,
    client: u8,
    query: u64,
    version: u64,
    rows: Rows,
) -> Result<TraceLines, NoMemory>
    ensures { IfOk result (λ lines. lines ≡ answer_lines client query version rows) }
{
    let mut lines = Seq::with_room(alloc, rows.len())?;
    let first = TraceLine::Answer {
        client,
        query,
        version,
        rows: rows.len() as u64,
    };
    push_rows(&mut lines, first, rows).and(Ok(lines))
}

/// This line, and the rows behind it.
fn push_rows(lines: &mut TraceLines, first: TraceLine, rows: Rows) -> Result<(), NoMemory>
    ensures { OnOk result (lines.new ≡ (lines.old ++ first ∷ []) ++ map RowLine rows) }
{
    lines.push(first)?;
    for row in rows.into_vec() {
        lines.push(TraceLine::Row { row })?;
    }
    Ok(())
}

/// The lines of marks, in the order in which they were made.
pub fn mark_lines(alloc: Global, client: u8, marks: Marks) -> Result<TraceLines, NoMemory>
    ensures { IfOk result (λ lines. lines ≡ mark_lines client marks) }
{
    let mut lines = Seq::with_room(alloc, marks.len())?;
    push_marks(&mut lines, client, marks).and(Ok(lines))
}

fn push_marks(lines: &mut TraceLines, client: u8, marks: Marks) -> Result<(), NoMemory>
    ensures { OnOk result (lines.new ≡ lines.old ++ mark_lines client marks) }
{
    for mark in marks.into_vec() {
        lines.push(mark_line(client, mark))?;
    }
    Ok(())
}

fn mark_line(client: u8, mark: Mark) -> TraceLine
    ensures { result ≡ mark_line client mark }
{
    match mark {
        Mark::Held {
            table,
            attrs,
            rects,
        } => TraceLine::Held {
            client,
            table,
            attrs,
            rects,
        },
        Mark::Dropped {
            cause,
            table,
            attrs,
            stamp,
            rects,
        } => TraceLine::Drop {
            client,
            cause,
            table,
            attrs,
            stamp,
            rects,
        },
    }
}

/// The marks, and then the ask that the message is, with its parts.
fn asking_lines(
    alloc: Global,
    client: u8,
    marks: Marks,
    message: &Message,
) -> Result<TraceLines, NoMemory>
    requires ask { is_few_ask message.now ≡ true }
    ensures { IfOk result (λ lines. lines ≡ mark_lines client marks ++ asked_lines client message.now) }
{
    let mut lines = mark_lines(alloc, client, marks)?;
    push_ask(alloc, &mut lines, client, message).and(Ok(lines))
}

/// The ask that the message is, with its parts.
fn push_ask(
    alloc: Global,
    lines: &mut TraceLines,
    client: u8,
    message: &Message,
) -> Result<(), NoMemory>
    requires ask { is_few_ask message.now ≡ true }
    ensures { OnOk result (lines.new ≡ lines.old ++ asked_lines client message.now) }
{
    match message {
        Message::Ask {
            number,
            fresh,
            parts,
        } => {
            lines.push(TraceLine::Ask {
                client,
                request: *number,
                fresh: *fresh,
                parts: parts.len() as u8,
            })?;
            push_parts(alloc, lines, parts.as_slice())
        }
        _ => unreachable!(),
    }
}

fn push_parts(alloc: Global, lines: &mut TraceLines, parts: &[AskPart]) -> Result<(), NoMemory>
    ensures { OnOk result (lines.new ≡ lines.old ++ map part_line parts.now) }
{
    for part in parts {
        lines.push(TraceLine::Part {
            table: part.table,
            attrs: part.attrs,
            rects: part.rects.copy(alloc)?,
        })?;
    }
    Ok(())
}

/// What ended with a cut.
fn fail_lines(alloc: Global, client: u8, ended: Ended) -> Result<TraceLines, NoMemory>
    ensures { IfOk result (λ lines. lines ≡ ended_lines client ended) }
{
    let (kind, number) = match ended {
        Ended::Nothing => return Ok(Seq::new(alloc)),
        Ended::Query(number) => (FailKind::Query, number),
        Ended::Write(number) => (FailKind::Write, number),
        Ended::Resume(number) => (FailKind::Resume, number),
    };
    one_line(
        alloc,
        TraceLine::Fail {
            client,
            kind,
            number,
        },
    )
}
