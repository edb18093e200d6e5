//! Frames that come over a link.
ghost use Rattle.std.specs.Prelude.{◌≡◌, ◌≢◌, true, ℕ, List, [], IfOk, OnErr};
ghost use Rattle.sr_talk.specs.Moves.{OnlyLinks};
ghost use Rattle.sr_talk.specs.Reading.{Nexts, Pops, Reads};
ghost use Rattle.sr_talk.specs.declared.frames.Next.TheVariants.{Fault as NextFault};

use sr_cell::list::NoMemory;
use sr_feed::feed::{Feed, fetch};
use sr_feed::fetched::Fetched;
use sr_io::outside::Link;
use sr_message::message::Message;
use sr_wire::wire_fault::WireFault;
use std::alloc::Global;

/// The most bytes of a frame, and one more.
const MOST: u32 = 134_217_733;

/// What comes next over a link: a message; that the peer said no more, or no more inside of a frame; that the link failed; or bytes that
/// begin no frame.
#[derive(Drop)]
pub enum Next {
    Frame(Message),
    End,
    Torn,
    Fault,
    Bad(WireFault),
}

/// What stands in front of a feed: a message, no whole frame, or bytes that begin none.
#[derive(Drop)]
enum Popped {
    Frame(Message),
    Nothing,
    Bad(WireFault),
}

/// Takes the message in front, if its frame is all there.
fn pop(alloc: Global, feed: &mut Feed) -> Result<Popped, NoMemory>
    ensures pops { IfOk result (λ popped. Pops popped feed.old feed.new) }
    ensures unchanged { OnErr result (feed.new ≡ feed.old) }
{
    let (message, size) = match feed.front() {
        Ok(Some(frame)) => (frame.message(alloc)?, frame.bytes().len()),
        Ok(None) => return Ok(Popped::Nothing),
        Err(fault) => return Ok(Popped::Bad(fault)),
    };
    feed.pass(size);
    Ok(Popped::Frame(message))
}

/// Reads up to the next message, however its frame is cut into pieces. Out of memory the feed has all that was taken.
pub fn next_frame<L: Link>(alloc: Global, link: &mut L, feed: &mut Feed) -> Result<Next, NoMemory>
    ensures next { IfOk result (λ next. Nexts next (L.linking link.old) (L.linking link.new) feed.old feed.new) }
    ensures wanting { OnErr result (Reads (L.linking link.old) (L.linking link.new) feed.old [] feed.new) }
    ensures stays { OnlyLinks L L.reading L.writing L.linking L.held L.complaints L.IsSteady link.old link.new }
    ensures stays_up { (L.linking link.new).is_up ≡ (L.linking link.old).is_up }
    ensures steady_fails_only_down { L.IsSteady link.old → (L.linking link.old).is_up ≡ true → IfOk result (λ next. next ≢ NextFault) }
{
    for _ in 0..MOST {
        match pop(alloc, feed)? {
            Popped::Frame(message) => return Ok(Next::Frame(message)),
            Popped::Nothing => {}
            Popped::Bad(fault) => return Ok(Next::Bad(fault)),
        }
        match fetch(link, feed)? {
            Fetched::More { .. } => {}
            Fetched::LinkFault => return Ok(Next::Fault),
            Fetched::End { left } => {
                if left == 0 {
                    return Ok(Next::End);
                }
                return Ok(Next::Torn);
            }
        }
    }
    unreachable!()
}
