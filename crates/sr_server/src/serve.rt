//! What requests make of a session.
ghost use Rattle.std.specs.Prelude.{◌≡◌, ◌≤◌, true, false, List, [], ◌++◌, map, length, Some, None, IfOk, OnOk, IfSome, if◌then◌else◌};
ghost use Rattle.std.specs.List.{AllByRecursion};
ghost use Rattle.sr_subs.specs.Subscription.{FitsSome};
ghost use Rattle.sr_session.specs.Sessions.{Database, due, entry_columns, holding_of, serve, serve_ask, serve_resume, serve_write};
ghost use Rattle.sr_session.specs.Refusals.{has_few_parts, is_open};
ghost use Rattle.sr_log.specs.declared.entry.Entry.{Entry};
ghost use Rattle.sr_tables.specs.Stored.{Stored};
ghost use Rattle.sr_outbox.specs.Left.{messages};
ghost use Rattle.sr_outbox.specs.Noticed.{noticed};
ghost use Rattle.sr_server.specs.Outboxes.{made};
ghost use Rattle.sr_server.specs.Servers.{ForEach, ForEachOf, IsSessionIf, Knows, Logs, before_rows, begun, caught_up, gone_on, is_served};

use crate::due::due;
use crate::session::Session;
use sr_cell::attrs::Attrs;
use sr_cell::list::{NoMemory, Seq};
use sr_log::log::Log;
use sr_message::message::{AskPart, AskParts, Holding, Holdings, Message};
use sr_outbox::asked::push_rows;
use sr_outbox::item::{Item, Items};
use sr_outbox::told::notices_of;
use sr_subs::subs::Subs;
use sr_tables::tables::Tables;
use std::alloc::Global;

/// The wire over which an entry stands for all columns.
const WHOLE_WIRE: u8 = 1;

/// All columns that a table may have.
const ALL_COLUMNS: u16 = 4_095;

/// A session as a request leaves it, and what is sent, each message by what it is made from.
#[derive(Drop)]
pub(crate) struct Answer {
    pub(crate) session: Option<Session>,
    pub(crate) sent: Items,
}

/// Takes a request that is no write.
pub(crate) fn serve(
    alloc: Global,
    tables: &Tables,
    log: &Log,
    session: Option<Session>,
    message: &Message,
) -> Result<Answer, NoMemory>
    requires served { is_served (is_open session) message.now ≡ true }
    requires few { has_few_parts message.now ≡ true }
    requires points { IfSome session (λ s. AllByRecursion FitsSome s.subscription) }
    ensures { (db : Database) → Knows tables.now log.now db → IsSessionIf db session
        → IfOk result (λ answer. made tables.now log.now answer ≡ serve db session message.now) }
{
    match session {
        Some(session) => serve_open(alloc, tables, log, session, message),
        None => serve_closed(alloc, log, message),
    }
}

/// Takes an ask of an open session.
fn serve_open(
    alloc: Global,
    tables: &Tables,
    log: &Log,
    session: Session,
    message: &Message,
) -> Result<Answer, NoMemory>
    requires served { is_served true message.now ≡ true }
    requires few { has_few_parts message.now ≡ true }
    requires points { AllByRecursion FitsSome session.subscription }
    ensures { ForEachOf tables.now log.now session (λ db. IfOk result (λ answer. made tables.now log.now answer ≡ serve db (Some session) message.now)) }
{
    match message {
        Message::Ask {
            number,
            fresh,
            parts,
        } => serve_ask(alloc, tables, log, session, *number, *fresh, parts),
        _ => unreachable!(),
    }
}

/// Takes the first message of a session.
fn serve_closed(alloc: Global, log: &Log, message: &Message) -> Result<Answer, NoMemory>
    requires served { is_served false message.now ≡ true }
    ensures { (db : Database) (tables : Stored) → Logs db log.now → IfOk result (λ answer. made tables log.now answer ≡ serve db None message.now) }
{
    match message {
        Message::Hello { wire, number, .. } => welcome_anew(alloc, log, *wire, *number),
        Message::Resume {
            wire,
            number,
            version,
            holdings,
            ..
        } => serve_resume(alloc, log, *wire, *number, *version, holdings),
        _ => unreachable!(),
    }
}

/// An ask: what is due, if it is not fresh; then the rows and the reply. What is asked is subscribed; a fresh ask begins the
/// subscription anew.
fn serve_ask(
    alloc: Global,
    tables: &Tables,
    log: &Log,
    session: Session,
    number: u64,
    fresh: bool,
    parts: &AskParts,
) -> Result<Answer, NoMemory>
    requires few { length parts.now ≤ 4 }
    requires points { AllByRecursion FitsSome session.subscription }
    ensures { ForEachOf tables.now log.now session (λ db.
        IfOk result (λ answer. made tables.now log.now answer ≡ serve_ask db session number fresh parts.now)) }
{
    let mut session = session;
    let mut sent = before_reply(alloc, log, fresh, &mut session)?;
    let asked = parts.as_slice();
    push_rows(alloc, &mut sent, tables, number, asked)?;
    sent.push(Item::Reply {
        number,
        version: log.version(),
    })?;
    let wire = session.wire;
    subscribe(alloc, wire, &mut session.subs, asked)?;
    Ok(Answer {
        session: Some(session),
        sent,
    })
}

/// What is sent before the rows of an ask. A fresh one forgets what was subscribed.
fn before_reply(
    alloc: Global,
    log: &Log,
    fresh: bool,
    session: &mut Session,
) -> Result<Items, NoMemory>
    requires points { AllByRecursion FitsSome session.old.subscription }
    ensures sent { ForEach log.now session.old (λ db. (tables : Stored) →
        IfOk result (λ sent. messages tables log.now sent ≡ (if fresh then [] else (due db session.old).sent))) }
    ensures session { ForEach log.now session.old (λ db. OnOk result (session.new ≡ before_rows db fresh session.old)) }
{
    if fresh {
        session.subs.clear();
        session.upto = log.version();
        return Ok(Seq::new(alloc));
    }
    due(alloc, log, session)
}

/// The columns of an entry: those that were asked, and over wire 1 all.
fn entry_columns(wire: u8, attrs: Attrs) -> Attrs
    ensures { result ≡ entry_columns wire attrs }
{
    if wire == WHOLE_WIRE {
        Attrs(ALL_COLUMNS)
    } else {
        attrs
    }
}

/// Subscribes the rects of each part, under its columns.
fn subscribe(alloc: Global, wire: u8, subs: &mut Subs, parts: &[AskPart]) -> Result<(), NoMemory>
    ensures { OnOk result (subs.new ≡ subs.old ++ map (holding_of wire) parts.now) }
{
    for part in parts {
        let attrs = entry_columns(wire, part.attrs);
        subs.add(alloc, part.table, attrs, &part.rects)?;
    }
    Ok(())
}

/// A session begins that has subscribed nothing.
fn welcome_anew(alloc: Global, log: &Log, wire: u8, number: u64) -> Result<Answer, NoMemory>
    ensures { (db : Database) (tables : Stored) → Logs db log.now → IfOk result (λ answer. made tables log.now answer ≡ begun db wire number) }
{
    let version = log.version();
    let mut sent = Seq::new(alloc);
    sent.push(Item::Welcome {
        number,
        version,
        kept: false,
    })?;
    Ok(Answer {
        session: Some(Session {
            wire,
            subs: Subs::new(alloc),
            upto: version,
        }),
        sent,
    })
}

/// A client resumes: with what it holds, where the log reaches back to its version, else with nothing.
fn serve_resume(
    alloc: Global,
    log: &Log,
    wire: u8,
    number: u64,
    version: u64,
    holdings: &Holdings,
) -> Result<Answer, NoMemory>
    ensures { (db : Database) (tables : Stored) → Logs db log.now
        → IfOk result (λ answer. made tables log.now answer ≡ serve_resume db wire number version holdings.now) }
{
    if version > log.version() {
        return welcome_anew(alloc, log, wire, number);
    }
    match log.since(version) {
        Some(entries) => {
            let subs = subs_of(alloc, holdings.as_slice())?;
            let told = notices_of(alloc, version, entries, &subs)?;
            welcome_back(log, wire, number, subs, told)
        }
        None => welcome_anew(alloc, log, wire, number),
    }
}

/// A session goes on with these points, behind what its client is told.
fn welcome_back(
    log: &Log,
    wire: u8,
    number: u64,
    subs: Subs,
    told: Items,
) -> Result<Answer, NoMemory>
    ensures { (tables : Stored) (entries : List Entry) → messages tables log.now told ≡ noticed subs entries
        → IfOk result (λ answer. made tables log.now answer ≡ gone_on log.now wire number subs entries) }
{
    let version = log.version();
    let mut sent = told;
    sent.push(Item::Welcome {
        number,
        version,
        kept: true,
    })?;
    Ok(Answer {
        session: Some(Session {
            wire,
            subs,
            upto: version,
        }),
        sent,
    })
}

/// The points that a client holds, as a subscription.
fn subs_of(alloc: Global, holdings: &[Holding]) -> Result<Subs, NoMemory>
    ensures { IfOk result (λ subs. subs ≡ holdings.now) }
{
    let mut subs = Subs::new(alloc);
    for holding in holdings {
        subs.add(alloc, holding.table, holding.attrs, &holding.rects)?;
    }
    Ok(subs)
}

/// A write was carried out, which made the newest version: what is due, and that it was written.
pub(crate) fn serve_written(
    alloc: Global,
    log: &Log,
    session: &mut Session,
    number: u64,
) -> Result<Items, NoMemory>
    requires points { AllByRecursion FitsSome session.old.subscription }
    ensures sent { ForEach log.now session.old (λ db. (tables : Stored) →
        IfOk result (λ sent. messages tables log.now sent ≡ (serve_write db session.old number None).sent)) }
    ensures session { ForEach log.now session.old (λ db. OnOk result (session.new ≡ caught_up db session.old)) }
{
    let mut sent = due(alloc, log, session)?;
    sent.push(Item::Written {
        number,
        version: log.version(),
    })?;
    Ok(sent)
}
