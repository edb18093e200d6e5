//! A world: a server, and clients with numbers from 1.
ghost use Rattle.std.specs.Prelude.{◌≡◌, ◌+◌, ◌<◌, ◌≤◌, ◌^◌, List, [], false, None, replicate, sum_by, IfOk, OnOk};
ghost use Rattle.sr_cell.specs.declared.table.Table.{Table as TheTable};
ghost use Rattle.sr_log.specs.Held.{newest as newest_of};
ghost use Rattle.sr_model.specs.Statements.{Tables as TheTables};
ghost use Rattle.sr_session.specs.Sessions.{Database, opened};
ghost use Rattle.sr_session.specs.Scenes.{Scene, first_scene};
ghost use Rattle.sr_server.specs.Servers.{IsClientNumber, IsServer, first_database, session_at, with_session};
ghost use Rattle.sr_server.specs.Servers as servers;
ghost use Rattle.sr_world.specs.Lent.{IsLent};
ghost use Rattle.sr_world.specs.Worlds.{IsNumber, Represents, drawn, drawn_by};
ghost use Rattle.sr_world.specs.declared.world.World.{World as TheWorld};

use crate::seat::Seat;
use sr_cell::list::{Copied, No, NoMemory};
use sr_client::client::Client;
use sr_message::message::Message;
use sr_policy::policy::Limits;
use sr_server::server::Server;
use sr_tables::tables::Tables;
use std::alloc::Global;

/// The version of the format that the clients speak.
const WIRE: u8 = 2;

/// How a world is set up: whether all deliveries are made after each event, what each client may keep, at most 1,024 regions, how many
/// changes the log of the server keeps, and how many clients there are, 1 to 64.
#[derive(Clone, Copy)]
pub struct Options {
    pub eager: bool,
    pub limits: Limits,
    pub log: u32,
    pub clients: u8,
}

/// A server and the seats of its clients. Once memory was refused, nothing is done any more.
#[derive(Drop)]
pub struct World {
    pub server: Server,
    pub seats: Vec<Seat>,
    pub eager: bool,
    pub spent: bool,
}

impl World {
    /// A world at version 0, whose clients hold nothing; their first messages have passed, so that the first request of each is
    /// number 1.
    pub fn new(alloc: Global, options: Options, tables: Tables) -> Result<World, NoMemory>
        requires clients { IsClientNumber options.clients }
        requires regions { options.limits.regions ≤ 1024 }
        ensures stands { IfOk result (λ world. Represents world (first_scene options.limits tables.schema options.log tables.rows options.clients)) }
        ensures eager { IfOk result (λ world. world.eager ≡ options.eager) }
        ensures drawn { IfOk result (λ world. drawn world ≡ options.clients) }
    {
        let mut server = Server::new(alloc, tables, options.log)?;
        let seats = seats_of(alloc, &mut server, options)?;
        Ok(World {
            server,
            seats,
            eager: options.eager,
            spent: false,
        })
    }

    /// The client of that number as it stands; takes no memory.
    pub fn client(&self, number: u8) -> &Client
        requires there { IsNumber self.now number }
        ensures lent { (s : Scene) → Represents self.now s → IsLent s number result.now }
    {
        &self.seats[number as usize - 1].client
    }
}

/// The clients of a server that has no session yet; the first message of each passes.
fn seats_of(alloc: Global, server: &mut Server, options: Options) -> Result<Vec<Seat>, NoMemory>
    requires clients { IsClientNumber options.clients }
    requires regions { options.limits.regions ≤ 1024 }
    requires stands { (schema : List TheTable) × (tables : TheTables) × IsServer server.old (first_database schema options.log tables) }
    requires sessions { server.old.sessions ≡ replicate 64 None }
    ensures stands { (schema : List TheTable) (tables : TheTables) → IsServer server.old (first_database schema options.log tables)
        → IfOk result (λ seats. (world : TheWorld) → world.server ≡ server.new → world.seats ≡ seats → world.spent ≡ false
        → Represents world (first_scene options.limits schema options.log tables options.clients)) }
    ensures drawn { IfOk result (λ seats. newest_of server.new.log + sum_by drawn_by seats.items ≡ options.clients) }
{
    let mut seats = Vec::new(alloc);
    'clients: for place in 0..options.clients {
        let client = place + 1;
        open(alloc, server, client)?;
        let schema = server.tables.schema().copy(alloc)?;
        seats.push(Seat::new(alloc, client, schema, options.limits))?;
    }
    Ok(seats)
}

/// The first message of a client passes, and opens its session at the server.
fn open(alloc: Global, server: &mut Server, client: u8) -> Result<(), NoMemory>
    requires client { IsClientNumber client }
    requires stands { servers.StandsForSome server.old }
    requires closed { session_at server.old.sessions client ≡ None }
    requires room { newest_of server.old.log + 1 < 2 ^ 63 }
    ensures stands { (db : Database) → IsServer server.old db → OnOk result (IsServer server.new db) }
    ensures session { (db : Database) → IsServer server.old db → OnOk result (server.new.sessions ≡ with_session server.old.sessions client (opened db 2 [])) }
{
    let hello = Message::Hello {
        wire: WIRE,
        client,
        number: 0,
    };
    let taken = server.take(alloc, client, &hello);
    drop(hello);
    match taken {
        Ok(_) => Ok(()),
        Err(No::Refused(_)) => unreachable!(),
        Err(No::NoMemory) => Err(NoMemory),
    }
}
