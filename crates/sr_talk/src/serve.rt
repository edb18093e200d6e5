//! One connection of a server.
ghost use Rattle.std.specs.Prelude.{◌≡◌, ◌≢◌, ◌+◌, ◌<◌, ◌≤◌, true, false, ℕ, List, [], IfOk, OnErr, IsTrue};
ghost use Rattle.std.specs.List.{All};
ghost use Rattle.sr_wire.specs.Limits.{IsSendable};
ghost use Rattle.sr_wire.specs.Spelling.{has_spelling, spelling};
ghost use Rattle.sr_links.specs.Honest.{Server};
ghost use Rattle.sr_talk.specs.Moves.{OnlyLinks, SendsAs, SendsInPart};
ghost use Rattle.sr_talk.specs.Serving.{spelled};
ghost use Rattle.sr_talk.specs.Talked.{LeftAs, LeftBy, Turns, TurnsInPart, Talks, TalksInPart};
ghost use Rattle.sr_talk.specs.declared.serve.How.TheVariants.{Fault as ByFault};
ghost use Rattle.sr_talk.specs.declared.serve.Turn.TheVariants.{Broken};

use crate::frames::{Next, next_frame};
use crate::parts::Serves;
use sr_cell::list::{No, NoMemory};
use sr_feed::feed::Feed;
use sr_io::outside::Link;
use sr_io::whole::send_all;
use sr_message::message::Message;
use sr_wire::encode::encode;
use std::alloc::Global;

/// The most frames that are read on one connection.
const MOST_FRAMES: u32 = 1_000_000;

/// How a connection ended: the peer said no more; it said no more inside of a frame; the link failed; what came next begins no frame; a
/// frame came that must be refused; or the peer had all its frames.
#[derive(Clone, Copy)]
pub enum How {
    End,
    Torn,
    Fault,
    Bad,
    Refused,
    Limit,
}

/// A connection that is over: how it ended, and how many whole frames were read. One that was refused is among them.
#[derive(Clone, Copy)]
pub struct Served {
    pub how: How,
    pub frames: u32,
}

/// What came of one message: all was sent, it was refused, or the link failed.
#[derive(Clone, Copy)]
enum Turn {
    Whole,
    Refused,
    Broken,
}

/// Sends the frames of messages, one after another. Answers false where the link fails; then, and out of memory, fewer bytes were sent.
pub fn send_messages<L: Link>(
    alloc: Global,
    link: &mut L,
    messages: &[Message],
) -> Result<bool, NoMemory>
    requires { All IsSendable messages.now }
    ensures sent { IfOk result (λ whole. SendsAs whole (L.linking link.old) (L.linking link.new) (spelled messages.now)) }
    ensures in_part { OnErr result (SendsInPart (L.linking link.old) (L.linking link.new) (spelled messages.now)) }
    ensures stays { OnlyLinks L L.reading L.writing L.linking L.held L.complaints L.IsSteady link.old link.new }
    ensures stays_up { (L.linking link.new).is_up ≡ (L.linking link.old).is_up }
    ensures steady_fails_only_down { L.IsSteady link.old → (L.linking link.old).is_up ≡ true → IfOk result (λ whole. whole ≡ true) }
{
    for message in messages {
        if !send_one(alloc, link, message)? {
            return Ok(false);
        }
    }
    Ok(true)
}

/// Sends the frame of a message. Answers false where the link fails.
fn send_one<L: Link>(alloc: Global, link: &mut L, message: &Message) -> Result<bool, NoMemory>
    requires { IsSendable message.now }
    ensures sent { IfOk result (λ whole. SendsAs whole (L.linking link.old) (L.linking link.new) (spelling message.now)) }
    ensures in_part { OnErr result (SendsInPart (L.linking link.old) (L.linking link.new) (spelling message.now)) }
    ensures stays { OnlyLinks L L.reading L.writing L.linking L.held L.complaints L.IsSteady link.old link.new }
    ensures stays_up { (L.linking link.new).is_up ≡ (L.linking link.old).is_up }
    ensures steady_fails_only_down { L.IsSteady link.old → (L.linking link.old).is_up ≡ true → IfOk result (λ whole. whole ≡ true) }
{
    let bytes = encode(alloc, message)?;
    match send_all(link, bytes.as_slice()) {
        Ok(()) => Ok(true),
        Err(No::Refused(_)) => Ok(false),
        Err(No::NoMemory) => Err(NoMemory),
    }
}

/// Answers one message: sends all, unless it must be refused.
fn answer_frame<L: Link, S: Serves>(
    alloc: Global,
    link: &mut L,
    server: &mut S,
    message: &Message,
) -> Result<Turn, NoMemory>
    requires stands { (s : Server) × S.is_of server.old s }
    requires spelled { IsTrue (has_spelling message.now) }
    requires room { 0 < S.room server.old }
    ensures turn { (s : Server) → S.is_of server.old s
        → IfOk result (λ turn. Turns S.gives turn s message.now (L.linking link.old) (L.linking link.new) (LeftBy turn (S.is_of server.new))) }
    ensures in_part { (s : Server) → S.is_of server.old s
        → OnErr result (TurnsInPart S.gives s message.now (L.linking link.old) (L.linking link.new) (LeftBy Broken (S.is_of server.new))) }
    ensures draws { S.room server.old ≤ S.room server.new + 1 }
    ensures stays { OnlyLinks L L.reading L.writing L.linking L.held L.complaints L.IsSteady link.old link.new }
    ensures stays_up { (L.linking link.new).is_up ≡ (L.linking link.old).is_up }
    ensures steady_fails_only_down { L.IsSteady link.old → (L.linking link.old).is_up ≡ true → IfOk result (λ turn. turn ≢ Broken) }
{
    match server.begin(alloc, message) {
        Err(No::Refused(_)) => Ok(Turn::Refused),
        Err(No::NoMemory) => Err(NoMemory),
        Ok(outbox) => {
            if send_answer(alloc, link, server, outbox)? {
                Ok(Turn::Whole)
            } else {
                Ok(Turn::Broken)
            }
        }
    }
}

/// Sends all that is left of an Outbox, and finishes it. Answers false where the link fails; then, and out of memory, fewer bytes were
/// sent, and the Outbox is dropped.
fn send_answer<L: Link, S: Serves>(
    alloc: Global,
    link: &mut L,
    server: &mut S,
    outbox: S::Outbox,
) -> Result<bool, NoMemory>
    requires begun { (s : Server) × S.becomes server.old outbox s }
    requires sendable { All IsSendable (S.left server.old outbox) }
    ensures sent { IfOk result (λ whole. SendsAs whole (L.linking link.old) (L.linking link.new) (spelled (S.left server.old outbox))) }
    ensures in_part { OnErr result (SendsInPart (L.linking link.old) (L.linking link.new) (spelled (S.left server.old outbox))) }
    ensures finished { (s : Server) → S.becomes server.old outbox s → IfOk result (λ whole. whole ≡ true → S.is_of server.new s) }
    ensures dropped { IfOk result (λ whole. whole ≡ false → server.new ≡ server.old) }
    ensures unchanged { OnErr result (server.new ≡ server.old) }
    ensures draws { S.room server.new ≡ S.room server.old }
    ensures stays { OnlyLinks L L.reading L.writing L.linking L.held L.complaints L.IsSteady link.old link.new }
    ensures stays_up { (L.linking link.new).is_up ≡ (L.linking link.old).is_up }
    ensures steady_fails_only_down { L.IsSteady link.old → (L.linking link.old).is_up ≡ true → IfOk result (λ whole. whole ≡ true) }
{
    let mut outbox = outbox;
    if !send_left(alloc, link, server, &mut outbox)? {
        return Ok(false);
    }
    server.finish(outbox);
    Ok(true)
}

/// Sends the frames of the messages that are left of an Outbox, each before the next is made. Answers false where the link fails; then,
/// and out of memory, fewer bytes were sent.
fn send_left<L: Link, S: Serves>(
    alloc: Global,
    link: &mut L,
    server: &S,
    outbox: &mut S::Outbox,
) -> Result<bool, NoMemory>
    requires { All IsSendable (S.left server.now outbox.old) }
    ensures sent { IfOk result (λ whole. SendsAs whole (L.linking link.old) (L.linking link.new) (spelled (S.left server.now outbox.old))) }
    ensures in_part { OnErr result (SendsInPart (L.linking link.old) (L.linking link.new) (spelled (S.left server.now outbox.old))) }
    ensures none { IfOk result (λ whole. whole ≡ true → S.left server.now outbox.new ≡ []) }
    ensures becomes { (s : Server) → S.becomes server.now outbox.old s → S.becomes server.now outbox.new s }
    ensures stays { OnlyLinks L L.reading L.writing L.linking L.held L.complaints L.IsSteady link.old link.new }
    ensures stays_up { (L.linking link.new).is_up ≡ (L.linking link.old).is_up }
    ensures steady_fails_only_down { L.IsSteady link.old → (L.linking link.old).is_up ≡ true → IfOk result (λ whole. whole ≡ true) }
{
    'messages: while let Some(message) = server.next(alloc, outbox)? {
        let sent = send_one(alloc, link, &message);
        drop(message);
        if !sent? {
            return Ok(false);
        }
    }
    Ok(true)
}

/// A connection that ended so, after so many whole frames.
fn ended(how: How, frames: u32) -> Served
    ensures { result ≡ record { how = how; frames = frames } }
{
    Served { how, frames }
}

/// Serves one connection to its end: each frame is answered, however the input is cut, until no frame comes, one must be refused, the
/// link fails, or a million were read. Out of memory, what was sent begins what the rules give.
pub fn serve_connection<L: Link, S: Serves>(
    alloc: Global,
    link: &mut L,
    server: &mut S,
) -> Result<Served, NoMemory>
    requires stands { (s : Server) × S.is_of server.old s }
    requires room { 1000000 ≤ S.room server.old }
    ensures talked { (s : Server) → S.is_of server.old s
        → IfOk result (λ served. Talks S.gives s (L.linking link.old) (L.linking link.new) served.how served.frames (LeftAs served.how (S.is_of server.new))) }
    ensures in_part { (s : Server) → S.is_of server.old s → OnErr result (TalksInPart S.gives s (L.linking link.old) (L.linking link.new)) }
    ensures draws { S.room server.old ≤ S.room server.new + 1000000 }
    ensures stays { OnlyLinks L L.reading L.writing L.linking L.held L.complaints L.IsSteady link.old link.new }
    ensures stays_up { (L.linking link.new).is_up ≡ (L.linking link.old).is_up }
    ensures steady_fails_only_down { L.IsSteady link.old → (L.linking link.old).is_up ≡ true → IfOk result (λ served. served.how ≢ ByFault) }
{
    serve_frames(alloc, link, server, &mut Feed::new(alloc))
}

/// Serves a connection of which nothing was read yet.
fn serve_frames<L: Link, S: Serves>(
    alloc: Global,
    link: &mut L,
    server: &mut S,
    feed: &mut Feed,
) -> Result<Served, NoMemory>
    requires unread { feed.old ≡ [] }
    requires stands { (s : Server) × S.is_of server.old s }
    requires room { 1000000 ≤ S.room server.old }
    ensures talked { (s : Server) → S.is_of server.old s
        → IfOk result (λ served. Talks S.gives s (L.linking link.old) (L.linking link.new) served.how served.frames (LeftAs served.how (S.is_of server.new))) }
    ensures in_part { (s : Server) → S.is_of server.old s → OnErr result (TalksInPart S.gives s (L.linking link.old) (L.linking link.new)) }
    ensures draws { S.room server.old ≤ S.room server.new + 1000000 }
    ensures stays { OnlyLinks L L.reading L.writing L.linking L.held L.complaints L.IsSteady link.old link.new }
    ensures stays_up { (L.linking link.new).is_up ≡ (L.linking link.old).is_up }
    ensures steady_fails_only_down { L.IsSteady link.old → (L.linking link.old).is_up ≡ true → IfOk result (λ served. served.how ≢ ByFault) }
{
    for frames in 0..MOST_FRAMES {
        let turn = match next_frame(alloc, link, feed)? {
            Next::End => return Ok(ended(How::End, frames)),
            Next::Torn => return Ok(ended(How::Torn, frames)),
            Next::Fault => return Ok(ended(How::Fault, frames)),
            Next::Bad(_) => return Ok(ended(How::Bad, frames)),
            Next::Frame(message) => answer_frame(alloc, link, server, &message),
        };
        match turn? {
            Turn::Whole => {}
            // it was read whole
            Turn::Refused => return Ok(ended(How::Refused, frames + 1)),
            Turn::Broken => return Ok(ended(How::Fault, frames + 1)),
        }
    }
    Ok(ended(How::Limit, MOST_FRAMES))
}
