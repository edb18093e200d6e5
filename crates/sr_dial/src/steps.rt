//! Steps of a client, carried out over a link.
ghost use Rattle.std.specs.Prelude.{◌≡◌, ◌≢◌, ◌≤◌, ◌+◌, true, false, flat_map, Result, IfOk, OnErr, if◌then◌else◌};
ghost use Rattle.std.specs.List.{All};
ghost use Rattle.sr_script.specs.TraceText.{line_text};
ghost use Rattle.sr_wire.specs.Limits.{IsSendable};
ghost use Rattle.sr_cell.specs.declared.fault.Fault.{Fault as TheFault};
ghost use Rattle.sr_model.specs.Queries.{Query as TheQuery};
ghost use Rattle.sr_reader.specs.Read.{Means};
ghost use Rattle.sr_links.specs.Steps.{Deed};
ghost use Rattle.sr_dial.specs.Clauses.{AsksPlain, BeginsLink, BeginsOff, CarriesOff, CarriesStep, CutsLink, CutsOff, FailsLink, FailsOff, PlainOff, TellsOff, TellsText, WritesOff, WritesText};
ghost use Rattle.sr_talk.specs.Rounds.{OnlyOutput};
ghost use Rattle.sr_dial.specs.Carrying.{SaysAs, SaysInPart};
ghost use Rattle.sr_dial.specs.Known.{IsDeed};
ghost use Rattle.sr_dial.specs.declared.steps.Handed.TheVariants.{Whole as HandedWhole, Broken as HandedBroken, Unwritten as HandedUnwritten};

use crate::parts::{Asks, Told};
use sr_cell::fault::Fault;
use sr_cell::list::{No, NoMemory};
use sr_cell::table::Table;
use sr_feed::feed::Feed;
use sr_io::outside::{Host, Link, Sink};
use sr_io::whole::write_all;
use sr_query::query::Query;
use sr_reader::script::Event;
use sr_script::line::TraceLine;
use sr_script::text::lines_text;
use sr_talk::serve::send_messages;
use std::alloc::Global;

/// What came of a step: all was sent and its lines are written; the link failed, and its lines are written; or they are not.
#[derive(Clone, Copy)]
pub enum Handed {
    Whole,
    Broken,
    Unwritten,
}

/// Writes a text. False where the sink fails.
fn write_text<K: Sink>(sink: &mut K, text: &str) -> Result<bool, NoMemory>
    ensures said { IfOk result (λ all. SaysAs true all (K.writing sink.old) (K.writing sink.new) text.now) }
    ensures broken_off { OnErr result (SaysInPart true (K.writing sink.old) (K.writing sink.new) text.now) }
    ensures stays { OnlyOutput K K.reading K.held K.complaints K.IsSteady sink.old sink.new }
    ensures linking_stays { K.linking sink.new ≡ K.linking sink.old }
    ensures steady_writes { K.IsSteady sink.old → IfOk result (λ all. all ≡ true) }
{
    match write_all(sink, text.as_bytes()) {
        Ok(()) => Ok(true),
        Err(No::Refused(_)) => Ok(false),
        Err(No::NoMemory) => Err(NoMemory),
    }
}

/// Writes the lines of a step, if the run writes its lines. False where the sink fails.
fn say<K: Sink>(
    alloc: Global,
    sink: &mut K,
    schema: &[Table],
    number: u64,
    says: bool,
    lines: &[TraceLine],
) -> Result<bool, NoMemory>
    ensures said { IfOk result (λ all. SaysAs says all (K.writing sink.old) (K.writing sink.new) (flat_map (line_text schema.now number) lines.now)) }
    ensures broken_off { OnErr result (SaysInPart says (K.writing sink.old) (K.writing sink.new) (flat_map (line_text schema.now number) lines.now)) }
    ensures stays { OnlyOutput K K.reading K.held K.complaints K.IsSteady sink.old sink.new }
    ensures linking_stays { K.linking sink.new ≡ K.linking sink.old }
    ensures steady_writes { K.IsSteady sink.old → IfOk result (λ all. all ≡ true) }
{
    if !says {
        return Ok(true);
    }
    let text = lines_text(alloc, schema, number, lines)?;
    write_text(sink, text.as_str())
}

/// Sends what a step sends, and then writes its lines, if the run writes its lines.
pub(crate) fn carry<H: Link + Sink>(
    alloc: Global,
    host: &mut H,
    schema: &[Table],
    number: u64,
    says: bool,
    told: &Told,
) -> Result<Handed, NoMemory>
    requires sendable { All IsSendable told.now.sent }
    ensures carried { CarriesStep H.linking H.writing result says schema.now number told.now host.old host.new }
    ensures broken_off { CarriesOff H.linking H.writing result says schema.now number told.now host.old host.new }
    ensures stays { OnlyOutput H H.reading H.held H.complaints H.IsSteady host.old host.new }
    ensures steady_writes { H.IsSteady host.old → IfOk result (λ handed. handed ≢ HandedUnwritten) }
    ensures steady_links { H.IsSteady host.old → (H.linking host.old).is_up ≡ true → IfOk result (λ handed. handed ≡ HandedWhole) }
{
    let sent = send_messages(alloc, host, told.sent.as_slice())?;
    if !say(alloc, host, schema, number, says, told.lines.as_slice())? {
        return Ok(Handed::Unwritten);
    }
    Ok(handed_by(sent))
}

fn handed_by(sent: bool) -> Handed
    ensures { result ≡ (if sent then HandedWhole else HandedBroken) }
{
    if sent { Handed::Whole } else { Handed::Broken }
}

fn written_by(said: bool) -> Handed
    ensures { result ≡ (if said then HandedWhole else HandedUnwritten) }
{
    if said {
        Handed::Whole
    } else {
        Handed::Unwritten
    }
}

fn broken_by(said: bool) -> Handed
    ensures { result ≡ (if said then HandedBroken else HandedUnwritten) }
{
    if said {
        Handed::Broken
    } else {
        Handed::Unwritten
    }
}

/// Does what a line asks that leaves the link as it is: a query, a write or an eviction.
pub(crate) fn ask<H: Link + Sink, C: Asks>(
    alloc: Global,
    host: &mut H,
    client: &mut C,
    schema: &[Table],
    number: u64,
    event: Event,
) -> Result<Handed, NoMemory>
    requires asks { (deed : Deed) × IsDeed (C.setting client.old).schema event deed }
    requires room { 2 ≤ C.room client.old }
    ensures asked { AsksPlain C.Asks H.linking H.writing H.IsSteady result schema.now number event host.old host.new client.old client.new }
    ensures broken_off { PlainOff C.Asks H.linking H.writing H.IsSteady result schema.now number event host.old host.new client.old }
    ensures setting { C.setting client.new ≡ C.setting client.old }
    ensures draws { C.room client.old ≤ C.room client.new + 2 }
    ensures stays { OnlyOutput H H.reading H.held H.complaints H.IsSteady host.old host.new }
    ensures steady_writes { H.IsSteady host.old → IfOk result (λ handed. handed ≢ HandedUnwritten) }
{
    let told = client.act(alloc, event)?;
    carry(alloc, host, schema, number, client.says(), &told)
}

/// The client explains how it would answer a query. Nothing is sent, and nothing changes.
pub(crate) fn tell<K: Sink, C: Asks>(
    alloc: Global,
    sink: &mut K,
    client: &C,
    schema: &[Table],
    number: u64,
    query: Result<Query, Fault>,
) -> Result<Handed, NoMemory>
    requires means { (text : Result TheQuery TheFault) × Means (C.setting client.now).schema query text }
    ensures told { TellsText C.Asks K.linking K.writing K.IsSteady result schema.now number query sink.old sink.new client.now }
    ensures broken_off { TellsOff C.Asks K.linking K.writing K.IsSteady result schema.now number query sink.old sink.new client.now }
    ensures stays { OnlyOutput K K.reading K.held K.complaints K.IsSteady sink.old sink.new }
    ensures linking_stays { K.linking sink.new ≡ K.linking sink.old }
    ensures steady_writes { K.IsSteady sink.old → IfOk result (λ handed. handed ≢ HandedUnwritten) }
{
    let lines = client.explain(alloc, query)?;
    let said = say(alloc, sink, schema, number, client.says(), lines.as_slice())?;
    Ok(written_by(said))
}

/// A text is written, if the run writes its lines. Nothing is sent, and nothing changes.
pub(crate) fn write<K: Sink, C: Asks>(
    sink: &mut K,
    client: &C,
    number: u64,
    text: &str,
) -> Result<Handed, NoMemory>
    ensures told { WritesText C.Asks K.linking K.writing K.IsSteady result number text.now sink.old sink.new client.now }
    ensures broken_off { WritesOff C.Asks K.linking K.writing K.IsSteady result number text.now sink.old sink.new client.now }
    ensures stays { OnlyOutput K K.reading K.held K.complaints K.IsSteady sink.old sink.new }
    ensures linking_stays { K.linking sink.new ≡ K.linking sink.old }
    ensures steady_writes { K.IsSteady sink.old → IfOk result (λ handed. handed ≢ HandedUnwritten) }
{
    if !client.says() {
        return Ok(Handed::Whole);
    }
    let said = write_text(sink, text)?;
    Ok(written_by(said))
}

/// The client cuts its link, which is given up.
pub(crate) fn end<H: Host, C: Asks>(
    alloc: Global,
    host: &mut H,
    client: &mut C,
    schema: &[Table],
    number: u64,
    event: Event,
) -> Result<Handed, NoMemory>
    requires asks { (deed : Deed) × IsDeed (C.setting client.old).schema event deed }
    requires room { 2 ≤ C.room client.old }
    ensures cut { CutsLink C.Asks H.linking H.writing H.IsSteady result schema.now number event host.old host.new client.old client.new }
    ensures broken_off { CutsOff C.Asks H.linking H.writing H.IsSteady result schema.now number event host.old host.new client.old }
    ensures hangs_up { IfOk result (λ handed. (H.linking host.new).is_up ≡ false) }
    ensures setting { C.setting client.new ≡ C.setting client.old }
    ensures draws { C.room client.old ≤ C.room client.new + 2 }
    ensures stays { OnlyOutput H H.reading H.held H.complaints H.IsSteady host.old host.new }
    ensures steady_writes { H.IsSteady host.old → IfOk result (λ handed. handed ≢ HandedUnwritten) }
{
    let told = client.act(alloc, event)?;
    host.hang_up();
    carry(alloc, host, schema, number, client.says(), &told)
}

/// The client resumes: where its link was cut it dials, and sends its first message over the new connection.
pub(crate) fn begin<H: Host, C: Asks>(
    alloc: Global,
    host: &mut H,
    feed: &mut Feed,
    client: &mut C,
    schema: &[Table],
    address: &str,
    number: u64,
    event: Event,
) -> Result<Handed, NoMemory>
    requires asks { (deed : Deed) × IsDeed (C.setting client.old).schema event deed }
    requires room { 2 ≤ C.room client.old }
    ensures begun { BeginsLink C.Asks H.linking H.writing H.IsSteady result schema.now address.now number event
        host.old host.new feed.old feed.new client.old client.new }
    ensures broken_off { BeginsOff C.Asks H.linking H.writing H.IsSteady result schema.now address.now number event host.old host.new feed.old client.old }
    ensures setting { C.setting client.new ≡ C.setting client.old }
    ensures draws { C.room client.old ≤ C.room client.new + 2 }
    ensures stays { OnlyOutput H H.reading H.held H.complaints H.IsSteady host.old host.new }
    ensures steady_writes { H.IsSteady host.old → IfOk result (λ handed. handed ≢ HandedUnwritten) }
{
    let told = client.act(alloc, event)?;
    if told.sent.is_empty() {
        return carry(alloc, host, schema, number, client.says(), &told);
    }
    *feed = Feed::new(alloc);
    match host.dial(address) {
        Ok(()) => carry(alloc, host, schema, number, client.says(), &told),
        Err(No::Refused(_)) => {
            let said = say(
                alloc,
                host,
                schema,
                number,
                client.says(),
                told.lines.as_slice(),
            )?;
            Ok(broken_by(said))
        }
        Err(No::NoMemory) => Err(NoMemory),
    }
}

/// The link failed: it is given up, and the client is cut. False where the lines of that are not written.
pub(crate) fn fail<H: Host, C: Asks>(
    alloc: Global,
    host: &mut H,
    client: &mut C,
    schema: &[Table],
    number: u64,
) -> Result<bool, NoMemory>
    requires room { 2 ≤ C.room client.old }
    ensures failed { FailsLink C.Asks H.linking H.writing H.IsSteady result schema.now number host.old host.new client.old client.new }
    ensures broken_off { FailsOff C.Asks H.linking H.writing H.IsSteady result schema.now number host.old host.new client.old }
    ensures hangs_up { IfOk result (λ all. (H.linking host.new).is_up ≡ false) }
    ensures setting { C.setting client.new ≡ C.setting client.old }
    ensures draws { C.room client.old ≤ C.room client.new + 2 }
    ensures stays { OnlyOutput H H.reading H.held H.complaints H.IsSteady host.old host.new }
    ensures steady_writes { H.IsSteady host.old → IfOk result (λ all. all ≡ true) }
{
    let lines = client.cut(alloc)?;
    host.hang_up();
    say(alloc, host, schema, number, client.says(), lines.as_slice())
}
