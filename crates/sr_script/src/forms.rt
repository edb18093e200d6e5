//! The forms of trace lines, without the number of their event.
ghost use Rattle.std.specs.Prelude.{◌≡◌, ◌++◌, ◌∷◌, ℕ, List, [], OnOk, codes, decimal, string_bytes};
ghost use Rattle.sr_script.specs.Printable.{IsFault};
ghost use Rattle.sr_script.specs.TraceText.{ended, line_words, cause_text, fault_words, name_of, attrs_of, rects_of};
ghost use Rattle.sr_script.specs.declared.line.TraceLine.TheVariants.{Answer, Row, Drop, Ask, Fail, Victim, ExecVersion, ServerTook, ClientWritten, ClientRefused, ClientWelcome};

use crate::cells::push_row;
use crate::line::{FailKind, RequestKind};
use crate::rects::{columns_at, name_at, push_attrs, push_rects};
use crate::words::{cause_word, fail_word, kept_word, kind_word, mode_word, why_word};
use sr_cell::attrs::Attrs;
use sr_cell::cause::Cause;
use sr_cell::cell::Row;
use sr_cell::fault::Fault;
use sr_cell::list::NoMemory;
use sr_cell::table::Table;
use sr_union::rects::Rects;
use std::fmt::Write;

/// An event of a client, and how it ended.
pub fn push_end(text: &mut String, event: &str, client: u8, end: &str) -> Result<(), NoMemory>
    ensures { OnOk result (string_bytes text.new ≡ string_bytes text.old ++ ended (event.now ∷ decimal client ∷ end.now ∷ [])) }
{
    write!(text, "{event} {client} {end}\n")?;
    Ok(())
}

/// An event of a client, how it ended, and the number that goes with that.
pub fn push_end_at(
    text: &mut String,
    event: &str,
    client: u8,
    end: &str,
    number: u64,
) -> Result<(), NoMemory>
    ensures { OnOk result (string_bytes text.new ≡ string_bytes text.old ++ ended (event.now ∷ decimal client ∷ end.now ∷ decimal number ∷ [])) }
{
    write!(text, "{event} {client} {end} {number}\n")?;
    Ok(())
}

/// An event of a client that ended with a number.
pub fn push_number_end(
    text: &mut String,
    event: &str,
    client: u8,
    number: u64,
) -> Result<(), NoMemory>
    ensures { OnOk result (string_bytes text.new ≡ string_bytes text.old ++ ended (event.now ∷ decimal client ∷ decimal number ∷ [])) }
{
    write!(text, "{event} {client} {number}\n")?;
    Ok(())
}

/// An event of a client whose statement was refused.
pub fn push_sql(text: &mut String, event: &str, client: u8, fault: Fault) -> Result<(), NoMemory>
    ensures words { OnOk result (string_bytes text.new ≡ string_bytes text.old ++ ended (event.now ∷ decimal client ∷ codes "sql" ∷ fault_words fault)) }
    ensures at { OnOk result (IsFault fault) }
{
    write!(text, "{event} {client} sql ")?;
    push_fault(text, fault)
}

/// A statement that the server refused.
pub fn push_exec_refused(text: &mut String, fault: Fault) -> Result<(), NoMemory>
    ensures words { OnOk result (string_bytes text.new ≡ string_bytes text.old ++ ended (codes "exec" ∷ codes "refused" ∷ fault_words fault)) }
    ensures at { OnOk result (IsFault fault) }
{
    text.push_str("exec refused ")?;
    push_fault(text, fault)
}

/// A statement that the server executed.
pub fn push_exec_version(text: &mut String, version: u64) -> Result<(), NoMemory>
    ensures { OnOk result (string_bytes text.new ≡ string_bytes text.old ++ ended (line_words [] (ExecVersion version))) }
{
    write!(text, "exec version {version}\n")?;
    Ok(())
}

fn push_fault(text: &mut String, fault: Fault) -> Result<(), NoMemory>
    ensures words { OnOk result (string_bytes text.new ≡ string_bytes text.old ++ ended (fault_words fault)) }
    ensures at { OnOk result (IsFault fault) }
{
    let why = why_word(fault.why);
    let at = fault.at;
    write!(text, "{why} {at}\n")?;
    Ok(())
}

/// How an answer was: its query, its version and how many rows it has.
pub fn push_answer(
    text: &mut String,
    client: u8,
    query: u64,
    version: u64,
    rows: u64,
) -> Result<(), NoMemory>
    ensures { OnOk result (string_bytes text.new ≡ string_bytes text.old ++ ended (line_words [] (Answer client query version rows))) }
{
    write!(text, "answer {client} {query} {version} {rows}\n")?;
    Ok(())
}

/// A row of an answer.
pub fn push_row_line(text: &mut String, row: &Row) -> Result<(), NoMemory>
    ensures { OnOk result (string_bytes text.new ≡ string_bytes text.old ++ ended (line_words [] (Row row.now))) }
{
    text.push_str("row ")?;
    push_row(text, row.as_slice())?;
    text.push('\n')?;
    Ok(())
}

/// How a line of what a client holds begins.
pub fn push_held(text: &mut String, client: u8) -> Result<(), NoMemory>
    ensures { OnOk result (string_bytes text.new ≡ string_bytes text.old ++ (codes "held " ++ (decimal client ++ codes " "))) }
{
    write!(text, "held {client} ")?;
    Ok(())
}

/// How the line of a drop begins.
pub fn push_drop(text: &mut String, client: u8, cause: Cause) -> Result<(), NoMemory>
    ensures { OnOk result (string_bytes text.new
        ≡ string_bytes text.old ++ (codes "drop " ++ (decimal client ++ (codes " " ++ (cause_text cause ++ codes " "))))) }
{
    let word = cause_word(cause);
    write!(text, "drop {client} {word} ")?;
    Ok(())
}

/// Rects of a table and a set of its columns, to the end of the line.
pub fn push_rects_of(
    text: &mut String,
    schema: &[Table],
    table: u8,
    attrs: Attrs,
    rects: &Rects,
) -> Result<(), NoMemory>
    ensures { OnOk result (string_bytes text.new
        ≡ string_bytes text.old ++ ended (name_of schema.now table ∷ attrs_of schema.now table attrs ∷ rects_of schema.now table rects.now ∷ [])) }
{
    push_place(text, schema, table, attrs)?;
    text.push(' ')?;
    push_rects(text, columns_at(schema, table), rects.as_slice())?;
    text.push('\n')?;
    Ok(())
}

/// Rects of a table and a set of its columns, with their stamp, to the end of the line.
pub fn push_stamped(
    text: &mut String,
    schema: &[Table],
    table: u8,
    attrs: Attrs,
    stamp: u64,
    rects: &Rects,
) -> Result<(), NoMemory>
    ensures { OnOk result (string_bytes text.new
        ≡ string_bytes text.old
        ++ ended (name_of schema.now table ∷ attrs_of schema.now table attrs ∷ decimal stamp ∷ rects_of schema.now table rects.now ∷ [])) }
{
    push_place(text, schema, table, attrs)?;
    write!(text, " {stamp} ")?;
    push_rects(text, columns_at(schema, table), rects.as_slice())?;
    text.push('\n')?;
    Ok(())
}

/// A table and a set of its columns, to the end of the line.
pub fn push_columns(
    text: &mut String,
    schema: &[Table],
    table: u8,
    attrs: Attrs,
) -> Result<(), NoMemory>
    ensures { OnOk result (string_bytes text.new ≡ string_bytes text.old ++ ended (name_of schema.now table ∷ attrs_of schema.now table attrs ∷ [])) }
{
    push_place(text, schema, table, attrs)?;
    text.push('\n')?;
    Ok(())
}

fn push_place(text: &mut String, schema: &[Table], table: u8, attrs: Attrs) -> Result<(), NoMemory>
    ensures { OnOk result (string_bytes text.new ≡ string_bytes text.old ++ (name_of schema.now table ++ (codes " " ++ attrs_of schema.now table attrs))) }
{
    text.push_str(name_at(schema, table))?;
    text.push(' ')?;
    push_attrs(text, columns_at(schema, table), attrs)
}

/// A class that would be dropped: its place among those, its stamp and how many rows it has.
pub fn push_victim(
    text: &mut String,
    schema: &[Table],
    place: u32,
    table: u8,
    attrs: Attrs,
    stamp: u64,
    rows: u64,
) -> Result<(), NoMemory>
    ensures { OnOk result (string_bytes text.new ≡ string_bytes text.old ++ ended (line_words schema.now (Victim place table attrs stamp rows))) }
{
    write!(text, "victim {place} ")?;
    push_place(text, schema, table, attrs)?;
    write!(text, " {stamp} {rows}\n")?;
    Ok(())
}

/// A request that asks, and how many parts follow.
pub fn push_ask(
    text: &mut String,
    client: u8,
    request: u64,
    fresh: bool,
    parts: u8,
) -> Result<(), NoMemory>
    ensures { OnOk result (string_bytes text.new ≡ string_bytes text.old ++ ended (line_words [] (Ask client request fresh parts))) }
{
    let mode = mode_word(fresh);
    write!(text, "ask {client} {request} {mode} {parts}\n")?;
    Ok(())
}

/// What a cut ended.
pub fn push_fail(text: &mut String, client: u8, kind: FailKind, number: u64) -> Result<(), NoMemory>
    ensures { OnOk result (string_bytes text.new ≡ string_bytes text.old ++ ended (line_words [] (Fail client kind number))) }
{
    push_end_at(text, "fail", client, fail_word(kind), number)
}

/// A request that the server took, and how many frames it sent.
pub fn push_server_took(
    text: &mut String,
    client: u8,
    kind: RequestKind,
    frames: u64,
) -> Result<(), NoMemory>
    ensures { OnOk result (string_bytes text.new ≡ string_bytes text.old ++ ended (line_words [] (ServerTook client kind frames))) }
{
    push_end_at(text, "toserver", client, kind_word(kind), frames)
}

/// A write that the server executed, at its version.
pub fn push_written(
    text: &mut String,
    client: u8,
    request: u64,
    version: u64,
) -> Result<(), NoMemory>
    ensures { OnOk result (string_bytes text.new ≡ string_bytes text.old ++ ended (line_words [] (ClientWritten client request version))) }
{
    write!(text, "toclient {client} written {request} {version}\n")?;
    Ok(())
}

/// A write that the server refused.
pub fn push_refused(
    text: &mut String,
    client: u8,
    request: u64,
    fault: Fault,
) -> Result<(), NoMemory>
    ensures words { OnOk result (string_bytes text.new ≡ string_bytes text.old ++ ended (line_words [] (ClientRefused client request fault))) }
    ensures at { OnOk result (IsFault fault) }
{
    write!(text, "toclient {client} refused {request} ")?;
    push_fault(text, fault)
}

/// A session that began, or began again.
pub fn push_welcome(text: &mut String, client: u8, version: u64, kept: bool) -> Result<(), NoMemory>
    ensures { OnOk result (string_bytes text.new ≡ string_bytes text.old ++ ended (line_words [] (ClientWelcome client version kept))) }
{
    let word = kept_word(kept);
    write!(text, "toclient {client} welcome {version} {word}\n")?;
    Ok(())
}
