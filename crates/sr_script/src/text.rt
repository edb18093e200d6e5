//! The text of a trace.
ghost use Rattle.std.specs.Prelude.{◌≡◌, ◌++◌, List, IfOk, OnOk, flat_map, string_bytes};
ghost use Rattle.std.specs.List.{All};
ghost use Rattle.sr_script.specs.Printable.{HasNumbers};
ghost use Rattle.sr_script.specs.TraceText.{ended, line_words, line_text};

use crate::forms::{
    push_answer, push_ask, push_columns, push_drop, push_end, push_end_at, push_exec_refused,
    push_exec_version, push_fail, push_held, push_number_end, push_rects_of, push_refused,
    push_row_line, push_server_took, push_sql, push_stamped, push_victim, push_welcome,
    push_written,
};
use crate::line::TraceLine;
use sr_cell::list::NoMemory;
use sr_cell::table::Table;
use sr_cell::text::Text;
use std::alloc::Global;
use std::fmt::Write;

/// Appends a line with the number of its event. A table that the schema lacks has no name and no columns.
#[tactic(auto, unfolding(crate::specs::TraceText::line_text))]
pub fn push_line(
    text: &mut String,
    schema: &[Table],
    number: u64,
    line: &TraceLine,
) -> Result<(), NoMemory>
    ensures text { OnOk result (string_bytes text.new ≡ string_bytes text.old ++ line_text schema.now number line.now) }
    ensures numbers { OnOk result (HasNumbers schema.now line.now) }
{
    write!(text, "{number} ")?;
    push_words(text, schema, line)
}

/// The text of a line, with the number of its event.
pub fn trace_text(
    alloc: Global,
    schema: &[Table],
    number: u64,
    line: &TraceLine,
) -> Result<Text, NoMemory>
    ensures { IfOk result (λ text. text ≡ line_text schema.now number line.now) }
{
    let mut text = String::new(alloc);
    push_line(&mut text, schema, number, line)?;
    Ok(Text::from_string(text))
}

/// The text of lines that all have the number of one event.
pub fn lines_text(
    alloc: Global,
    schema: &[Table],
    number: u64,
    lines: &[TraceLine],
) -> Result<String, NoMemory>
    ensures text { IfOk result (λ text. string_bytes text ≡ flat_map (line_text schema.now number) lines.now) }
    ensures numbers { OnOk result (All (HasNumbers schema.now) lines.now) }
{
    let mut text = String::new(alloc);
    for line in lines {
        push_line(&mut text, schema, number, line)?;
    }
    Ok(text)
}

fn push_words(text: &mut String, schema: &[Table], line: &TraceLine) -> Result<(), NoMemory>
    ensures words { OnOk result (string_bytes text.new ≡ string_bytes text.old ++ ended (line_words schema.now line.now)) }
    ensures numbers { OnOk result (HasNumbers schema.now line.now) }
{
    match *line {
        TraceLine::Answer {
            client,
            query,
            version,
            rows,
        } => push_answer(text, client, query, version, rows),
        TraceLine::Row { ref row } => push_row_line(text, row),
        TraceLine::Held {
            client,
            table,
            attrs,
            ref rects,
        } => {
            push_held(text, client)?;
            push_rects_of(text, schema, table, attrs, rects)
        }
        TraceLine::Drop {
            client,
            cause,
            table,
            attrs,
            stamp,
            ref rects,
        } => {
            push_drop(text, client, cause)?;
            push_stamped(text, schema, table, attrs, stamp, rects)
        }
        TraceLine::Ask {
            client,
            request,
            fresh,
            parts,
        } => push_ask(text, client, request, fresh, parts),
        TraceLine::Part {
            table,
            attrs,
            ref rects,
        } => {
            text.push_str("part ")?;
            push_rects_of(text, schema, table, attrs, rects)
        }
        TraceLine::Fail {
            client,
            kind,
            number,
        } => push_fail(text, client, kind, number),
        TraceLine::Pieces => {
            text.push_str("pieces\n")?;
            Ok(())
        }
        TraceLine::Need { table, attrs } => {
            text.push_str("need ")?;
            push_columns(text, schema, table, attrs)
        }
        TraceLine::Probe {
            table,
            attrs,
            stamp,
            ref rects,
        } => {
            text.push_str("probe ")?;
            push_stamped(text, schema, table, attrs, stamp, rects)
        }
        TraceLine::Rest {
            table,
            attrs,
            ref rects,
        } => {
            text.push_str("rest ")?;
            push_rects_of(text, schema, table, attrs, rects)
        }
        TraceLine::Victim {
            place,
            table,
            attrs,
            stamp,
            rows,
        } => push_victim(text, schema, place, table, attrs, stamp, rows),
        TraceLine::ExecVersion { version } => push_exec_version(text, version),
        TraceLine::ExecRefused { fault } => push_exec_refused(text, fault),
        TraceLine::QueryAnswered { client, query } => push_end_at(
            text, "query", client, "answered", query,
        ),
        TraceLine::QueryAsked { client, request } => push_end_at(
            text, "query", client, "asked", request,
        ),
        TraceLine::QuerySql { client, fault } => push_sql(text, "query", client, fault),
        TraceLine::QueryBusy { client, request } => push_end_at(
            text, "query", client, "busy", request,
        ),
        TraceLine::QueryDown { client, cut } => push_end_at(text, "query", client, "down", cut),
        TraceLine::WriteSent { client, request } => push_end_at(
            text, "write", client, "sent", request,
        ),
        TraceLine::WriteSql { client, fault } => push_sql(text, "write", client, fault),
        TraceLine::WriteBusy { client, request } => push_end_at(
            text, "write", client, "busy", request,
        ),
        TraceLine::WriteDown { client, cut } => push_end_at(text, "write", client, "down", cut),
        TraceLine::PushSent { client, frames } => push_end_at(text, "push", client, "sent", frames),
        TraceLine::PushClosed { client } => push_end(text, "push", client, "closed"),
        TraceLine::ServerEmpty { client } => push_end(text, "toserver", client, "empty"),
        TraceLine::ServerTook {
            client,
            kind,
            frames,
        } => push_server_took(text, client, kind, frames),
        TraceLine::ClientEmpty { client } => push_end(text, "toclient", client, "empty"),
        TraceLine::ClientLaid { client } => push_end(text, "toclient", client, "laid"),
        TraceLine::ClientApplied { client, version } => push_end_at(
            text, "toclient", client, "applied", version,
        ),
        TraceLine::ClientAnswered { client } => push_end(text, "toclient", client, "answered"),
        TraceLine::ClientAsked { client, request } => push_end_at(
            text, "toclient", client, "asked", request,
        ),
        TraceLine::ClientWritten {
            client,
            request,
            version,
        } => push_written(text, client, request, version),
        TraceLine::ClientRefused {
            client,
            request,
            fault,
        } => push_refused(text, client, request, fault),
        TraceLine::ClientForgot { client, version } => push_end_at(
            text, "toclient", client, "forgot", version,
        ),
        TraceLine::ClientWelcome {
            client,
            version,
            kept,
        } => push_welcome(text, client, version, kept),
        TraceLine::Settled { client, frames } => push_number_end(text, "settle", client, frames),
        TraceLine::EvictDropped { client } => push_end(text, "evict", client, "dropped"),
        TraceLine::EvictBusy { client, request } => push_end_at(
            text, "evict", client, "busy", request,
        ),
        TraceLine::EvictNone { client, count } => push_end_at(text, "evict", client, "none", count),
        TraceLine::Explained { client, version } => push_number_end(
            text, "explain", client, version,
        ),
        TraceLine::ExplainSql { client, fault } => push_sql(text, "explain", client, fault),
        TraceLine::CutDone { client, cut } => push_number_end(text, "cut", client, cut),
        TraceLine::CutAlready { client, cut } => push_end_at(text, "cut", client, "already", cut),
        TraceLine::ResumeSent { client, request } => push_end_at(
            text, "resume", client, "sent", request,
        ),
        TraceLine::ResumeUp { client } => push_end(text, "resume", client, "up"),
    }
}
