//! Messages are taken until no request is out.
ghost use Rattle.std.specs.Prelude.{◌≡◌, ◌≢◌, ◌≤◌, ◌<◌, ◌+◌, IfOk};
ghost use Rattle.sr_dial.specs.Clauses.{Awaits, AwaitsOff, EndsMany, HandlesOff, HandlesOne, ManyOff};
ghost use Rattle.sr_talk.specs.Rounds.{OnlyOutput};
ghost use Rattle.sr_dial.specs.Courses.{handled_by, last_of};
ghost use Rattle.sr_dial.specs.Runs.{anew, one_more};
ghost use Rattle.sr_dial.specs.declared.steps.Handed.TheVariants.{Whole as HandedWhole};
ghost use Rattle.sr_dial.specs.declared.waiting.Awaited.TheVariants.{Unwritten as AwaitedUnwritten};
ghost use Rattle.sr_dial.specs.declared.waiting.Handled.TheVariants.{Unwritten as HandledUnwritten};

use crate::parts::{Asks, Came};
use crate::steps::{Handed, carry};
use sr_cell::list::NoMemory;
use sr_cell::table::Table;
use sr_feed::feed::Feed;
use sr_io::outside::{Link, Sink};
use sr_message::message::Message;
use sr_talk::frames::{Next, next_frame};
use sr_wire::bad_frame::BadFrame;
use sr_wire::wire_fault::WireFault;
use std::alloc::Global;

/// The most messages that are taken for one request.
const MOST_FRAMES: u32 = 1_000_000;

/// How many messages were taken for the request that is out, and whether it is the second one of its line, for which the count began anew.
#[derive(Clone, Copy)]
pub struct Count {
    pub taken: u32,
    pub again: bool,
}

/// One message more was taken.
fn one_more(count: Count) -> Count
    requires { count.taken < 1000000 }
    ensures { result ≡ one_more count }
{
    Count {
        taken: count.taken + 1,
        again: count.again,
    }
}

/// One message more was taken, for which a request was sent.
fn anew(count: Count) -> Count
    requires { count.taken < 1000000 }
    ensures { result ≡ anew count }
{
    if count.again {
        one_more(count)
    } else {
        Count {
            taken: 0,
            again: true,
        }
    }
}

/// What came of a message: it was taken and its lines are written, without a request for it, or with one; then the link failed; the lines
/// are not written; or it must be refused.
#[derive(Clone, Copy)]
pub enum Handled {
    Whole,
    Again,
    Broken,
    Unwritten,
    Refused(BadFrame),
}

/// Why no more messages are awaited: nothing is out; the link failed, or the peer said no more; a line was not written; what came is no
/// frame, or must be refused; or there were too many.
#[derive(Clone, Copy)]
pub enum Awaited {
    Free,
    Failed,
    Unwritten,
    Spoiled(WireFault),
    Bad(BadFrame),
    Limit,
}

/// Takes one message.
fn handle<H: Link + Sink, C: Asks>(
    alloc: Global,
    host: &mut H,
    client: &mut C,
    schema: &[Table],
    number: u64,
    message: Message,
) -> Result<Handled, NoMemory>
    requires room { 2 ≤ C.room client.old }
    ensures handled { HandlesOne C.Asks H.linking H.writing H.IsSteady result schema.now number message host.old host.new client.old client.new }
    ensures broken_off { HandlesOff C.Asks H.linking H.writing H.IsSteady result schema.now number message host.old host.new client.old }
    ensures setting { C.setting client.new ≡ C.setting client.old }
    ensures draws { C.room client.old ≤ C.room client.new + 2 }
    ensures stays { OnlyOutput H H.reading H.held H.complaints H.IsSteady host.old host.new }
    ensures steady_writes { H.IsSteady host.old → IfOk result (λ handled. handled ≢ HandledUnwritten) }
{
    match client.take(alloc, message)? {
        Came::Bad(why) => Ok(Handled::Refused(why)),
        Came::Taken(told) => {
            let again = !told.sent.is_empty();
            let handed = carry(alloc, host, schema, number, client.says(), &told)?;
            Ok(handled_by(handed, again))
        }
    }
}

fn handled_by(handed: Handed, again: bool) -> Handled
    ensures { result ≡ handled_by handed again }
{
    match handed {
        Handed::Whole => whole_by(again),
        Handed::Broken => Handled::Broken,
        Handed::Unwritten => Handled::Unwritten,
    }
}

fn whole_by(again: bool) -> Handled
    ensures { result ≡ handled_by HandedWhole again }
{
    if again {
        Handled::Again
    } else {
        Handled::Whole
    }
}

/// Takes messages until no request is out.
pub(crate) fn await_answer<H: Link + Sink, C: Asks>(
    alloc: Global,
    host: &mut H,
    feed: &mut Feed,
    client: &mut C,
    schema: &[Table],
    number: u64,
) -> Result<Awaited, NoMemory>
    requires room { 4000000 ≤ C.room client.old }
    ensures awaited { Awaits C.Asks H.linking H.writing H.IsSteady result schema.now number host.old host.new feed.old feed.new client.old client.new }
    ensures broken_off { AwaitsOff C.Asks H.linking H.writing H.IsSteady result schema.now number host.old host.new feed.old client.old }
    ensures setting { C.setting client.new ≡ C.setting client.old }
    ensures draws { C.room client.old ≤ C.room client.new + 4000000 }
    ensures stays { OnlyOutput H H.reading H.held H.complaints H.IsSteady host.old host.new }
    ensures steady_writes { H.IsSteady host.old → IfOk result (λ how. how ≢ AwaitedUnwritten) }
{
    let mut count = Count {
        taken: 0,
        again: false,
    };
    'frames: while count.taken < MOST_FRAMES {
        if !client.is_waiting() {
            return Ok(Awaited::Free);
        }
        let message = match next_frame(alloc, host, feed)? {
            Next::End => return Ok(Awaited::Failed),
            Next::Torn => return Ok(Awaited::Failed),
            Next::Fault => return Ok(Awaited::Failed),
            Next::Bad(fault) => return Ok(Awaited::Spoiled(fault)),
            Next::Frame(message) => message,
        };
        count = match handle(alloc, host, client, schema, number, message)? {
            Handled::Whole => one_more(count),
            Handled::Again => anew(count),
            Handled::Broken => return Ok(Awaited::Failed),
            Handled::Unwritten => return Ok(Awaited::Unwritten),
            Handled::Refused(why) => return Ok(Awaited::Bad(why)),
        };
    }
    end_of_many(alloc, host, feed, client, number)
}

/// As many messages as may be were taken for one request.
fn end_of_many<H: Link + Sink, C: Asks>(
    alloc: Global,
    host: &mut H,
    feed: &mut Feed,
    client: &C,
    number: u64,
) -> Result<Awaited, NoMemory>
    ensures awaited { EndsMany C.Asks H.linking H.writing H.IsSteady result number host.old host.new feed.old feed.new client.now }
    ensures broken_off { ManyOff C.Asks H.linking H.writing H.IsSteady result number host.old host.new feed.old client.now }
    ensures stays { OnlyOutput H H.reading H.held H.complaints H.IsSteady host.old host.new }
    ensures not_unwritten { IfOk result (λ how. how ≢ AwaitedUnwritten) }
{
    if !client.is_waiting() {
        return Ok(Awaited::Free);
    }
    let next = next_frame(alloc, host, feed)?;
    Ok(last_of(next))
}

fn last_of(next: Next) -> Awaited
    ensures { result ≡ last_of next }
{
    match next {
        Next::Frame(_) => Awaited::Limit,
        Next::End => Awaited::Failed,
        Next::Torn => Awaited::Failed,
        Next::Fault => Awaited::Failed,
        Next::Bad(fault) => Awaited::Spoiled(fault),
    }
}
