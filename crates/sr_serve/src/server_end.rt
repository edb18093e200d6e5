//! The server's end of a connection.
ghost use Rattle.std.specs.Prelude.{◌≡◌, ◌-◌, ◌^◌, replicate, None};
ghost use Rattle.sr_log.specs.Held.{newest as newest_of};
ghost use Rattle.sr_server.specs.Servers.{Gives, IsServer};
ghost use Rattle.sr_session.specs.Sessions.{Database};
ghost use Rattle.sr_talk.specs.Rounds.{at_rest};
ghost use Rattle.sr_talk.specs.Serving.{named};
ghost use Rattle.sr_server.specs.Outboxes.{left_on};
ghost use Rattle.sr_serve.specs.ServerEnds.{Becomes, IsEnd, number_for, room_of};

use sr_cell::list::{No, NoMemory};
use sr_message::message::Message;
use sr_server::outbox::Outbox;
use sr_server::server::Server;
use sr_talk::parts::Serves;
use sr_wire::bad_frame::BadFrame;
use std::alloc::Global;

/// A server, and the number of the client on the connection; 0 before its first message was taken, and while an Outbox is out.
#[derive(Drop)]
pub struct ServerEnd {
    pub server: Server,
    pub(crate) client: u8,
}

impl ServerEnd {
    /// A server of which no client has a session.
    pub fn new(server: Server) -> ServerEnd
        requires { server.sessions ≡ replicate 64 None }
        ensures stands { (db : Database) → IsServer server db → IsEnd result (at_rest db) }
        ensures room { room_of result ≡ 2 ^ 63 - 1 - newest_of server.log }
    {
        ServerEnd { server, client: 0 }
    }
}

/// The number of the client that a message names; 1 where it names none.
fn named(message: &Message) -> u8
    ensures { result ≡ named message.now }
{
    match message {
        Message::Hello { client, .. } => *client,
        Message::Resume { client, .. } => *client,
        _ => 1,
    }
}

/// The number under which a message is taken on the connection of this client.
fn number_for(client: u8, message: &Message) -> u8
    ensures { result ≡ number_for client message.now }
{
    if client == 0 { named(message) } else { client }
}

impl Serves for ServerEnd {
    type Outbox = Outbox;

    ghost is_of = { IsEnd };

    ghost gives = { Gives };

    ghost room = { room_of };

    ghost left = { λ e outbox. left_on outbox e.server };

    ghost becomes = { Becomes };

    fn begin(&mut self, alloc: Global, message: &Message) -> Result<Outbox, No<BadFrame>> {
        let client = number_for(self.client, message);
        match self.server.begin(alloc, client, message) {
            Ok(outbox) => {
                // nobody has a session until it is finished
                self.client = 0;
                Ok(outbox)
            }
            Err(no) => Err(no),
        }
    }

    fn next(&self, alloc: Global, outbox: &mut Outbox) -> Result<Option<Message>, NoMemory> {
        outbox.next(alloc, &self.server)
    }

    fn finish(&mut self, outbox: Outbox) {
        self.client = outbox.client;
        self.server.finish(outbox);
    }

    fn cut(&mut self) {
        if self.client != 0 {
            self.server.cut(self.client);
            self.client = 0;
        }
    }
}
