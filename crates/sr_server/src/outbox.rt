//! What a server has still to send for a request.
ghost use Rattle.std.specs.Prelude.{◌≡◌, ◌≢◌, [], ◌++◌, IfOk, OnOk, OnErr, None, option_to_list};
ghost use Rattle.sr_server.specs.Outboxes.{left_on};

use crate::server::Server;
use crate::session::Session;
use sr_cell::list::NoMemory;
use sr_message::message::{Message, Messages};
use sr_outbox::left::Left;
use std::alloc::Global;

/// What a client is still to be sent for a request, and its session as that leaves it. Dropped, it leaves the session closed.
#[derive(Drop)]
pub struct Outbox {
    pub client: u8,
    pub session: Option<Session>,
    pub left: Left,
}

impl Outbox {
    /// The first of the messages that are left on that server, or None where none is left. In want of memory, where one is left, nothing
    /// changes.
    pub fn next(&mut self, alloc: Global, server: &Server) -> Result<Option<Message>, NoMemory>
        ensures given { IfOk result (λ message. left_on self.old server.now ≡ option_to_list message ++ left_on self.new server.now) }
        ensures none { IfOk result (λ message. message ≡ None → left_on self.old server.now ≡ []) }
        ensures wanting { OnErr result (left_on self.old server.now ≢ []) }
        ensures others { self.new ≡ record self.old { left = self.new.left } }
        ensures unchanged { OnErr result (self.new ≡ self.old) }
    {
        self.left.next(alloc, &server.tables, &server.log)
    }
    /// All messages that are left on that server.
    pub(crate) fn all(&mut self, alloc: Global, server: &Server) -> Result<Messages, NoMemory>
        ensures sent { IfOk result (λ sent. sent ≡ left_on self.old server.now) }
        ensures none { OnOk result (left_on self.new server.now ≡ []) }
        ensures others { self.new ≡ record self.old { left = self.new.left } }
    {
        self.left.all(alloc, &server.tables, &server.log)
    }
}
