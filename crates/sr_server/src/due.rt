//! What is due to a session: notices of what changed since the version that it has reached, or a Lapse in their place.
ghost use Rattle.std.specs.Prelude.{◌≡◌, ◌<◌, ◌≤◌, [], ◌∷◌, IfOk, OnOk, if◌then◌else◌};
ghost use Rattle.std.specs.List.{list_any, AllByRecursion};
ghost use Rattle.sr_message.specs.declared.message.Message.TheVariants.{Notice as NoticeOf};
ghost use Rattle.sr_subs.specs.Subscription.{touches, FitsSome};
ghost use Rattle.sr_session.specs.Sessions.{due, newest, closing_if, is_lost, serve_push};
ghost use Rattle.sr_tables.specs.Stored.{Stored};
ghost use Rattle.sr_log.specs.Held.{newest as newest_of};
ghost use Rattle.sr_outbox.specs.Left.{message_of, messages};
ghost use Rattle.sr_server.specs.Noticed.{last_changes};
ghost use Rattle.sr_server.specs.Servers.{ForEach, caught_up};

use crate::session::Session;
use sr_cell::change::Change;
use sr_cell::list::{NoMemory, Seq};
use sr_log::entry::Entry;
use sr_log::log::Log;
use sr_outbox::item::{Item, Items};
use sr_outbox::told::notices_of;
use sr_subs::subs::Subs;
use std::alloc::Global;

/// What is sent before anything else. The session is at the newest version then; after a Lapse it has subscribed nothing.
pub(crate) fn due(alloc: Global, log: &Log, session: &mut Session) -> Result<Items, NoMemory>
    requires points { AllByRecursion FitsSome session.old.subscription }
    ensures sent { ForEach log.now session.old (λ db. (tables : Stored) → IfOk result (λ sent. messages tables log.now sent ≡ (due db session.old).sent)) }
    ensures session { ForEach log.now session.old (λ db. OnOk result (session.new ≡ caught_up db session.old)) }
{
    let sent = match log.since(session.upto) {
        Some(entries) => notices_of(alloc, session.upto, entries, &session.subs)?,
        None => lapse(alloc, log, session)?,
    };
    session.upto = log.version();
    Ok(sent)
}

/// The log has dropped what is due: a Lapse, where something is subscribed.
fn lapse(alloc: Global, log: &Log, session: &mut Session) -> Result<Items, NoMemory>
    requires points { AllByRecursion FitsSome session.old.subscription }
    requires dropped { session.old.upto < log.now.floor }
    ensures sent { ForEach log.now session.old (λ db. (tables : Stored) → IfOk result (λ sent. messages tables log.now sent ≡ (due db session.old).sent)) }
    ensures session { ForEach log.now session.old (λ db. OnOk result (session.new ≡ record session.old { subscription = (due db session.old).subscription })) }
{
    let mut sent = Seq::new(alloc);
    if session.subs.is_empty() {
        return Ok(sent);
    }
    sent.push(Item::Lapse {
        version: log.version(),
    })?;
    session.subs.clear();
    Ok(sent)
}

/// What a push sends: what is due, and behind notices an empty one of the newest version, if nothing else was told of it.
pub(crate) fn pushed(alloc: Global, log: &Log, session: &mut Session) -> Result<Items, NoMemory>
    requires points { AllByRecursion FitsSome session.old.subscription }
    ensures sent { ForEach log.now session.old (λ db. (tables : Stored) →
        IfOk result (λ sent. messages tables log.now sent ≡ (serve_push db session.old).sent)) }
    ensures session { ForEach log.now session.old (λ db. OnOk result (session.new ≡ caught_up db session.old)) }
{
    let closes = is_closed_by_notice(log, session);
    let mut sent = due(alloc, log, session)?;
    if closes {
        sent.push(empty_notice(alloc, log))?;
    }
    Ok(sent)
}

/// A notice of the newest version that tells nothing; takes no memory.
fn empty_notice(alloc: Global, log: &Log) -> Item
    ensures { (tables : Stored) → message_of tables log.now result ≡ NoticeOf (newest_of log.now) [] }
{
    let version = log.version();
    Item::Notice {
        version,
        above: version,
        places: Seq::new(alloc),
    }
}

/// Whether a push ends with an empty notice.
fn is_closed_by_notice(log: &Log, session: &Session) -> bool
    requires points { AllByRecursion FitsSome session.now.subscription }
    ensures { ForEach log.now session.now (λ db. closing_if (is_lost db session.now) db session.now ≡ (if result then NoticeOf (newest db) [] ∷ [] else [])) }
{
    if session.upto >= log.version() {
        return false;
    }
    match log.since(session.upto) {
        Some(entries) => !is_last_told(entries, &session.subs),
        None => session.subs.is_empty(),
    }
}

/// Whether something of the last entry touches the subscription.
fn is_last_told(entries: &[Entry], subs: &Subs) -> bool
    ensures { result ≡ list_any (touches subs.now) (last_changes entries.now) }
{
    let count = entries.len();
    if count == 0 {
        return false;
    }
    some_touch(entries[count - 1].changes.as_slice(), subs)
}

/// Whether one of the changes touches the subscription.
fn some_touch(changes: &[Change], subs: &Subs) -> bool
    ensures { result ≡ list_any (touches subs.now) changes.now }
{
    for change in changes {
        if subs.touches(change) {
            return true;
        }
    }
    false
}
