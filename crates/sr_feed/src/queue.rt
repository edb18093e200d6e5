//! A queue of messages, as the bytes of their frames.
ghost use Rattle.std.specs.Prelude.{◌≡◌, ℕ, ◌≤◌, ◌++◌, take, [], ◌∷◌, ◌↔◌, length, option_to_list, IsTrue, IfNone, IfOk, OnOk, OnErr};
ghost use Rattle.std.specs.List.{All};
ghost use Rattle.sr_wire.specs.Limits.{IsSendable};
ghost use Rattle.sr_feed.specs.Taken.{IsInFront};

use crate::feed::Feed;
use sr_cell::list::NoMemory;
use sr_message::message::{Message, Messages};
use sr_wire::encode::encode;
use std::alloc::Global;
use std::marker::Model;

/// Messages on their way, the oldest first: the bytes of their frames, one behind the other.
#[derive(Drop)]
pub struct Queue {
    frames: Feed,
}

impl Model for Queue {
    ghost use Rattle.std.specs.Prelude.{List};
    ghost use Rattle.sr_message.specs.declared.message.Message.{Message};

    ghost Value = { List Message };

    ghost use Rattle.sr_feed.specs.Frames.{messages_in, AreFrames};

    ghost view = { λ q. messages_in q.frames };

    ghost invariant = { λ q. AreFrames q.frames };
}

/// The message in front, and how many bytes its frame has.
#[derive(Drop)]
struct Front {
    message: Message,
    size: usize,
}

impl Queue {
    /// The empty queue; takes no memory.
    pub fn new(alloc: Global) -> Queue
        ensures { result ≡ [] }
    {
        Queue {
            frames: Feed::new(alloc),
        }
    }

    /// Whether no message is in it.
    pub fn is_empty(&self) -> bool
        ensures { IsTrue result ↔ (self.now ≡ []) }
    {
        self.frames.left() == 0
    }

    /// One message more, behind the others. Out of memory nothing changes.
    pub fn push(&mut self, alloc: Global, message: &Message) -> Result<(), NoMemory>
        requires sendable { IsSendable message.now }
        ensures pushed { OnOk result (self.new ≡ self.old ++ message.now ∷ []) }
        ensures unchanged { OnErr result (self.new ≡ self.old) }
    {
        let frame = encode(alloc, message)?;
        self.frames.feed(frame.as_slice())
    }

    /// These messages behind the others; out of memory only the first few of them.
    pub fn append(&mut self, alloc: Global, messages: &Messages) -> Result<(), NoMemory>
        requires sendable { All IsSendable messages.now }
        ensures appended { OnOk result (self.new ≡ self.old ++ messages.now) }
        ensures some { OnErr result ((count : ℕ) × (self.new ≡ self.old ++ take count messages.now)) }
    {
        for message in messages.as_slice() {
            self.push(alloc, message)?;
        }
        Ok(())
    }

    /// Takes the oldest message out, if there is one. Out of memory nothing changes.
    pub fn pop(&mut self, alloc: Global) -> Result<Option<Message>, NoMemory>
        ensures taken { IfOk result (λ message. self.old ≡ option_to_list message ++ self.new) }
        ensures empty { IfOk result (λ message. IfNone message (self.old ≡ [])) }
        ensures unchanged { OnErr result (self.new ≡ self.old) }
    {
        match front_of(alloc, &self.frames)? {
            None => Ok(None),
            Some(Front { message, size }) => {
                self.frames.pass(size);
                Ok(Some(message))
            }
        }
    }

    /// Takes all messages out; takes no memory.
    pub fn clear(&mut self)
        ensures { self.new ≡ [] }
    {
        let left = self.frames.left();
        self.frames.pass(left);
    }
}

/// The message whose frame stands in front, if one does.
fn front_of(alloc: Global, frames: &Feed) -> Result<Option<Front>, NoMemory>
    ensures front { IfOk result (IsInFront frames.now) }
{
    match frames.front() {
        Ok(Some(frame)) => Ok(Some(Front {
            message: frame.message(alloc)?,
            size: frame.size(),
        })),
        _ => Ok(None),
    }
}
