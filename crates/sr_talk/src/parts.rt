//! A server by its contract.
ghost use Rattle.std.specs.Prelude.{◌≡◌, ◌≢◌, ◌<◌, ◌≤◌, ◌+◌, ◌++◌, ℕ, List, [], None, Result, IfOk, OnErr, IsErrOf, IsTrue, option_to_list};
ghost use Rattle.std.specs.List.{All};
ghost use Rattle.sr_cell.specs.declared.fault.Fault.{Fault as TheFault};
ghost use Rattle.sr_cell.specs.declared.list.No.TheVariants.{Refused, NoMemory as Wanting};
ghost use Rattle.sr_message.specs.declared.message.Message.{Message as TheMessage};
ghost use Rattle.sr_model.specs.Statements.{Tables};
ghost use Rattle.sr_session.specs.Sessions.{Database};
ghost use Rattle.sr_wire.specs.declared.bad_frame.BadFrame.{BadFrame as TheBadFrame};
ghost use Rattle.sr_wire.specs.Limits.{IsSendable};
ghost use Rattle.sr_wire.specs.Spelling.{has_spelling};
ghost use Rattle.sr_links.specs.Honest.{Server, cut_off};
ghost use Rattle.sr_talk.specs.Serving.{IsRefused};
ghost use Rattle.sr_talk.specs.Talked.{Takes};

use sr_cell::list::{No, NoMemory};
use sr_message::message::Message;
use sr_wire::bad_frame::BadFrame;
use std::alloc::Global;

/// A server, as one connection sees it.
pub trait Serves {
    /// What is still to be sent for a message. Dropped, it leaves the session closed.
    type Outbox: Drop;

    /// It is at these versions, and has this session for the client that is on the connection; no other client has one.
    ghost is_of: { Self → Server → Type 0 };

    /// What the text of a message gives on the newest tables, if it is a write.
    ghost gives: { Database → TheMessage → Result Tables TheFault → Type 0 };

    /// How many messages it can take still.
    ghost room: { Self → ℕ };

    /// The messages that are left of an Outbox.
    ghost left: { Self → Self.Outbox → List TheMessage };

    /// It becomes this one once an Outbox is finished.
    ghost becomes: { Self → Self.Outbox → Server → Type 0 };

    /// Begins to take a message: it is refused and changes nothing, or all that the rules give is left in the Outbox, and the session is
    /// closed until that is finished.
    fn begin(&mut self, alloc: Global, message: &Message) -> Result<Self::Outbox, No<BadFrame>>
        requires stands { (s : Server) × is_of self.old s }
        requires spelled { IsTrue (has_spelling message.now) }
        requires room { 0 < room self.old }
        ensures begun { (s : Server) → is_of self.old s → IfOk result (λ outbox. Takes gives s message.now (left self.new outbox) (becomes self.new outbox)) }
        ensures closed { IfOk result (λ outbox. (s : Server) → becomes self.new outbox s → is_of self.new (cut_off s)) }
        ensures sendable { IfOk result (λ outbox. All IsSendable (left self.new outbox)) }
        ensures refused { (s : Server) (why : TheBadFrame) → is_of self.old s → IsErrOf result (Refused why) → IsRefused s message.now }
        ensures unchanged { (s : Server) (why : TheBadFrame) → is_of self.old s → IsErrOf result (Refused why) → is_of self.new s }
        ensures draws { room self.old ≤ room self.new + 1 };

    /// The first message that is left of an Outbox, or None where none is left.
    fn next(&self, alloc: Global, outbox: &mut Self::Outbox) -> Result<Option<Message>, NoMemory>
        ensures given { IfOk result (λ message. left self.now outbox.old ≡ option_to_list message ++ left self.now outbox.new) }
        ensures none { IfOk result (λ message. message ≡ None → left self.now outbox.old ≡ []) }
        ensures wanting { OnErr result (left self.now outbox.old ≢ []) }
        ensures becomes { (s : Server) → becomes self.now outbox.old s → becomes self.now outbox.new s };

    /// Puts back the session of an Outbox of which nothing is left; takes no memory.
    fn finish(&mut self, outbox: Self::Outbox)
        requires begun { (s : Server) × becomes self.old outbox s }
        requires none { left self.old outbox ≡ [] }
        ensures finished { (s : Server) → becomes self.old outbox s → is_of self.new s }
        ensures draws { room self.new ≡ room self.old };

    /// Closes the session; takes no memory.
    fn cut(&mut self)
        requires stands { (s : Server) × is_of self.old s }
        ensures closed { (s : Server) → is_of self.old s → is_of self.new (cut_off s) }
        ensures draws { room self.new ≡ room self.old };
}
