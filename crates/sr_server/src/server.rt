//! The server.
ghost use Rattle.std.specs.Prelude.{◌≡◌, ◌<◌, ◌≤◌, ◌+◌, true, ◌^◌, ◌↔◌, length, replicate, Ok, Err, Some, None, IsTrue, IsNone, IfSome, IfOk, OnOk, OnErr, IsErrOf};
ghost use Rattle.std.specs.List.{list_all, All};
ghost use Rattle.sr_cell.specs.declared.fault.Fault.{Fault as TheFault};
ghost use Rattle.sr_cell.specs.declared.list.No.TheVariants.{Refused, NoMemory as Wanting};
ghost use Rattle.sr_grammar.specs.Seen.{statement_seen};
ghost use Rattle.sr_cell.specs.Columns.{are_values};
ghost use Rattle.sr_log.specs.Held.{newest as newest_of, IsPushed};
ghost use Rattle.sr_model.specs.Statements.{executed};
ghost use Rattle.sr_query.specs.Written.{write_of};
ghost use Rattle.sr_query.specs.Writes.{suits};
ghost use Rattle.sr_session.specs.Sessions.{Database, newest, with_version, serve_push};
ghost use Rattle.sr_tables.specs.Stored.{are_stored, done_by, is_short, statement_is_short};
ghost use Rattle.sr_wire.specs.Limits.{IsSendable};
ghost use Rattle.sr_wire.specs.declared.bad_frame.BadFrame.{BadFrame as TheBadFrame};
ghost use Rattle.sr_session.specs.Refusals.{server_misfit, has_few_parts};
ghost use Rattle.sr_server.specs.Outboxes.{left_on};
ghost use Rattle.sr_server.specs.Servers.{IsCarriedOut, IsClientNumber, IsServer, IsSessionIf, ForSession, StandsForSome, Executes, Takes, GivesUp, first_database, put, session_at};

use crate::due::pushed;
use crate::misfit::server_misfit;
use crate::outbox::Outbox;
use crate::session::Session;
use sr_cell::change::Changes;
use sr_cell::fault::Fault;
use sr_cell::list::{No, NoMemory, Seq};
use sr_grammar::statement::Statement;
use sr_log::log::Log;
use sr_message::message::{Message, Messages};
use sr_outbox::left::Left;
use sr_query::write::Write;
use sr_sql::read::read;
use sr_tables::tables::Tables;
use sr_wire::bad_frame::BadFrame;
use std::alloc::Global;

/// How many clients a server has sessions for.
const MOST_CLIENTS: usize = 64;

/// The tables of the newest version, the changes of the newest versions, and a session for each client that has one. Clients are
/// numbered from 1 to 64.
#[derive(Drop)]
pub struct Server {
    pub tables: Tables,
    pub log: Log,
    pub sessions: Seq<Option<Session>>,
}

impl Server {
    /// A server at version 0, whose log keeps at most so many changes. No client has a session.
    pub fn new(alloc: Global, tables: Tables, log: u32) -> Result<Server, NoMemory>
        ensures stands { IfOk result (λ server. IsServer server (first_database tables.schema log tables.rows)) }
        ensures tables { IfOk result (λ server. server.tables ≡ tables) }
        ensures sessions { IfOk result (λ server. server.sessions ≡ replicate 64 None) }
        ensures version { IfOk result (λ server. newest_of server.log ≡ 0) }
    {
        tables.know_stored();
        tables.know_values();
        let mut sessions = Seq::new(alloc);
        'clients: for _ in 0..MOST_CLIENTS {
            sessions.push(None)?;
        }
        Ok(Server {
            tables,
            log: Log::new(alloc, log),
            sessions,
        })
    }

    /// The number of the newest version; takes no memory.
    pub fn version(&self) -> u64
        ensures number { result ≡ newest_of self.now.log }
        ensures newest { (db : Database) → IsServer self.now db → result ≡ newest db }
    {
        self.log.version()
    }

    /// Carries out a statement, which makes a version, or refuses it. Answers the version. After a refusal, or out of memory,
    /// nothing has changed, but that the log may have more room.
    pub fn exec(&mut self, alloc: Global, write: Write) -> Result<u64, No<Fault>>
        requires suits { IsTrue (suits self.old.tables.schema (write_of write)) }
        requires short { IsTrue (is_short (write_of write)) }
        requires number { newest_of self.old.log + 1 < 2 ^ 63 }
        ensures done { OnOk result (executed self.old.tables.schema (write_of write) self.old.tables.rows ≡ Ok self.new.tables.rows) }
        ensures version { IfOk result (λ version. version ≡ newest_of self.old.log + 1) }
        ensures stands { (db : Database) → IsServer self.old db → OnOk result (IsServer self.new (with_version db self.new.tables.rows)) }
        ensures sessions { self.new.sessions ≡ self.old.sessions }
        ensures refused { (fault : TheFault) → IsErrOf result (Refused fault)
            → executed self.old.tables.schema (write_of write) self.old.tables.rows ≡ Err fault }
        ensures unchanged { OnErr result (self.new ≡ record self.old { log = record self.old.log { room = self.new.log.room } }) }
    {
        // the log has room before the tables change, so that nothing can fail behind them
        match self.log.reserve() {
            Ok(()) => {}
            Err(_) => {
                drop(write);
                return Err(No::NoMemory);
            }
        }
        match self.tables.write(alloc, write) {
            Ok(changes) => Ok(self.add_version(changes)),
            Err(no) => Err(no),
        }
    }

    /// As `exec`, of a text: one that says no statement is refused with its fault.
    pub fn exec_text(&mut self, alloc: Global, sql: &str) -> Result<u64, No<Fault>>
        requires stands { StandsForSome self.old }
        requires number { newest_of self.old.log + 1 < 2 ^ 63 }
        ensures done { OnOk result (Executes self.old.tables.schema sql.now self.old.tables.rows (Ok self.new.tables.rows)) }
        ensures version { IfOk result (λ version. version ≡ newest_of self.old.log + 1) }
        ensures stands { (db : Database) → IsServer self.old db → OnOk result (IsServer self.new (with_version db self.new.tables.rows)) }
        ensures sessions { self.new.sessions ≡ self.old.sessions }
        ensures refused { (fault : TheFault) → IsErrOf result (Refused fault) → Executes self.old.tables.schema sql.now self.old.tables.rows (Err fault) }
        ensures unchanged { OnErr result (self.new ≡ record self.old { log = record self.old.log { room = self.new.log.room } }) }
        ensures grows { newest_of self.new.log ≤ newest_of self.old.log + 1 }
    {
        match self.write(alloc, sql) {
            Ok(()) => Ok(self.log.version()),
            Err(no) => Err(no),
        }
    }

    /// Takes a message of that client: it is refused and changes nothing, or carried out and answered, in order, with the messages
    /// to send. A write that is carried out makes a version. When memory ran out the client's session is closed; a write that was
    /// carried out stays.
    pub fn take(
        &mut self,
        alloc: Global,
        client: u8,
        message: &Message,
    ) -> Result<Messages, No<BadFrame>>
        requires client { IsClientNumber client }
        requires stands { StandsForSome self.old }
        requires parts { has_few_parts message.now ≡ true }
        requires number { newest_of self.old.log + 1 < 2 ^ 63 }
        ensures bad { (why : TheBadFrame) → IsErrOf result (Refused why)
            ↔ (server_misfit self.old.tables.schema (session_at self.old.sessions client) client message.now ≡ Some why) }
        ensures unchanged { (why : TheBadFrame) → IsErrOf result (Refused why) → self.new ≡ self.old }
        ensures taken { (db : Database) → IsServer self.old db → IfOk result (λ sent. Takes db self.old client message.now sent self.new) }
        ensures sendable { IfOk result (λ sent. All IsSendable sent) }
        ensures wanting { (db : Database) → IsServer self.old db → IsErrOf result Wanting → GivesUp db self.old client message.now self.new }
        ensures stands { StandsForSome self.new }
        ensures grows { newest_of self.new.log ≤ newest_of self.old.log + 1 }
    {
        let outbox = self.begin(alloc, client, message)?;
        match self.read_out(alloc, outbox) {
            Ok(sent) => Ok(sent),
            Err(_) => Err(No::NoMemory),
        }
    }

    /// What is sent to that client without a request: notices of what it subscribed, or a Lapse, up to the newest version. None
    /// where it has no session, and then nothing changes. When memory ran out its session is closed.
    pub fn push(&mut self, alloc: Global, client: u8) -> Result<Option<Messages>, NoMemory>
        requires client { IsClientNumber client }
        requires stands { StandsForSome self.old }
        ensures none { IfOk result (λ sent. IsNone sent ↔ (session_at self.old.sessions client ≡ None)) }
        ensures same { session_at self.old.sessions client ≡ None → self.new ≡ self.old }
        ensures sent { ForSession self.old client (λ db session. IfOk result (λ sent. sent ≡ Some (serve_push db session).sent)) }
        ensures session { ForSession self.old client (λ db session. OnOk result (self.new ≡ put self.old client (serve_push db session).session)) }
        ensures sendable { IfOk result (λ sent. IfSome sent (All IsSendable)) }
        ensures closed { OnErr result (self.new ≡ put self.old client None) }
        ensures stands { (db : Database) → IsServer self.old db → IsServer self.new db }
        ensures others { self.new ≡ record self.old { sessions = self.new.sessions } }
    {
        match self.close(client) {
            Some(session) => {
                let mut session = session;
                let items = pushed(alloc, &self.log, &mut session)?;
                let mut left = Left::new(items);
                let sent = left.all(alloc, &self.tables, &self.log)?;
                self.set(client, Some(session));
                Ok(Some(sent))
            }
            None => Ok(None),
        }
    }

    /// Closes the client's session, if it has one; takes no memory.
    pub fn cut(&mut self, client: u8)
        requires client { IsClientNumber client }
        requires count { length self.old.sessions ≡ 64 }
        ensures closed { self.new ≡ put self.old client None }
        ensures stands { (db : Database) → IsServer self.old db → IsServer self.new db }
    {
        let _ = self.close(client);
    }

    /// What stands against a message of that client.
    pub(crate) fn misfit(&self, client: u8, message: &Message) -> Option<BadFrame>
        requires client { IsClientNumber client }
        requires count { length self.now.sessions ≡ 64 }
        ensures { result ≡ server_misfit self.now.tables.schema (session_at self.now.sessions client) client message.now }
    {
        let session = &self.sessions.as_slice()[client as usize - 1];
        server_misfit(self.tables.schema(), session, client, message)
    }

    /// Carries out what a text says, which makes a version, or refuses it.
    pub(crate) fn write(&mut self, alloc: Global, sql: &str) -> Result<(), No<Fault>>
        requires number { newest_of self.old.log + 1 < 2 ^ 63 }
        ensures done { OnOk result (Executes self.old.tables.schema sql.now self.old.tables.rows (Ok self.new.tables.rows)) }
        ensures carried { OnOk result (IsCarriedOut self.old self.new) }
        ensures refused { (fault : TheFault) → IsErrOf result (Refused fault) → Executes self.old.tables.schema sql.now self.old.tables.rows (Err fault) }
        ensures unchanged { OnErr result (self.new ≡ record self.old { log = record self.old.log { room = self.new.log.room } }) }
    {
        match read(alloc, sql) {
            Ok(statement) => self.run_said(alloc, statement),
            Err(no) => Err(no),
        }
    }

    /// As `run`, of a statement that nothing needs any more.
    fn run_said(&mut self, alloc: Global, statement: Statement) -> Result<(), No<Fault>>
        requires short { IsTrue (statement_is_short (statement_seen statement)) }
        requires number { newest_of self.old.log + 1 < 2 ^ 63 }
        ensures done { OnOk result (done_by self.old.tables.schema (statement_seen statement) self.old.tables.rows ≡ Ok self.new.tables.rows) }
        ensures carried { OnOk result (IsCarriedOut self.old self.new) }
        ensures refused { (fault : TheFault) → IsErrOf result (Refused fault)
            → done_by self.old.tables.schema (statement_seen statement) self.old.tables.rows ≡ Err fault }
        ensures unchanged { OnErr result (self.new ≡ record self.old { log = record self.old.log { room = self.new.log.room } }) }
    {
        let done = self.run(alloc, &statement);
        drop(statement);
        done
    }

    /// Carries out a statement that is not bound yet, or refuses it.
    fn run(&mut self, alloc: Global, statement: &Statement) -> Result<(), No<Fault>>
        requires short { IsTrue (statement_is_short (statement_seen statement.now)) }
        requires number { newest_of self.old.log + 1 < 2 ^ 63 }
        ensures done { OnOk result (done_by self.old.tables.schema (statement_seen statement.now) self.old.tables.rows ≡ Ok self.new.tables.rows) }
        ensures carried { OnOk result (IsCarriedOut self.old self.new) }
        ensures refused { (fault : TheFault) → IsErrOf result (Refused fault)
            → done_by self.old.tables.schema (statement_seen statement.now) self.old.tables.rows ≡ Err fault }
        ensures unchanged { OnErr result (self.new ≡ record self.old { log = record self.old.log { room = self.new.log.room } }) }
    {
        match self.log.reserve() {
            Ok(()) => {}
            Err(_) => return Err(No::NoMemory),
        }
        match self.tables.exec(alloc, statement) {
            Ok(changes) => {
                self.add_version(changes);
                Ok(())
            }
            Err(no) => Err(no),
        }
    }

    /// The log has the changes of a version more, whose tables are there; takes no memory.
    fn add_version(&mut self, changes: Changes) -> u64
        requires room { 1 ≤ self.old.log.room }
        requires number { newest_of self.old.log + 1 < 2 ^ 63 }
        ensures version { result ≡ newest_of self.old.log + 1 }
        ensures pushed { IsPushed self.old.log changes self.new.log }
        ensures others { self.new ≡ record self.old { log = self.new.log } }
        ensures stored { are_stored self.new.tables.schema self.new.tables.rows ≡ true }
        ensures values { list_all (list_all are_values) self.new.tables.rows ≡ true }
    {
        self.tables.know_stored();
        self.tables.know_values();
        self.log.push(changes);
        self.log.version()
    }

    /// Reads an Outbox to its end and finishes it. In want of memory nothing changes.
    fn read_out(&mut self, alloc: Global, outbox: Outbox) -> Result<Messages, NoMemory>
        requires client { IsClientNumber outbox.client }
        requires stands { StandsForSome self.old }
        requires closed { session_at self.old.sessions outbox.client ≡ None }
        requires fits { (db : Database) → IsServer self.old db → IsSessionIf db outbox.session }
        ensures sent { IfOk result (λ sent. sent ≡ left_on outbox self.old) }
        ensures put { OnOk result (self.new ≡ put self.old outbox.client outbox.session) }
        ensures unchanged { OnErr result (self.new ≡ self.old) }
    {
        let mut outbox = outbox;
        let sent = outbox.all(alloc, self)?;
        self.finish(outbox);
        Ok(sent)
    }

    /// Takes the client's session out.
    pub(crate) fn close(&mut self, client: u8) -> Option<Session>
        requires client { IsClientNumber client }
        requires count { length self.old.sessions ≡ 64 }
        ensures session { result ≡ session_at self.old.sessions client }
        ensures closed { self.new ≡ put self.old client None }
    {
        self.sessions.replace(client as usize - 1, None)
    }

    /// Puts a session of the client in the place of the one that it had.
    pub(crate) fn set(&mut self, client: u8, session: Option<Session>)
        requires client { IsClientNumber client }
        requires count { length self.old.sessions ≡ 64 }
        ensures { self.new ≡ put self.old client session }
    {
        let _ = self.sessions.replace(client as usize - 1, session);
    }
}
