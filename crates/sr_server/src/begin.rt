//! A message is begun to be taken: it is carried out, and its answers are left in an Outbox.
ghost use Rattle.std.specs.Prelude.{◌≡◌, ◌<◌, ◌≤◌, ◌+◌, ◌^◌, ◌↔◌, true, [], ◌∷◌, length, None, Some, IfOk, OnErr, IsErrOf};
ghost use Rattle.std.specs.List.{All, AllByRecursion};
ghost use Rattle.sr_cell.specs.declared.list.No.TheVariants.{Refused, NoMemory as Wanting};
ghost use Rattle.sr_log.specs.Held.{newest as newest_of};
ghost use Rattle.sr_message.specs.declared.message.Message.TheVariants.{Write as WriteOf, Refused as RefusedOf};
ghost use Rattle.sr_session.specs.Sessions.{Database, serve_write};
ghost use Rattle.sr_session.specs.Refusals.{server_misfit, has_few_parts, is_open};
ghost use Rattle.sr_subs.specs.Subscription.{FitsSome};
ghost use Rattle.sr_wire.specs.Limits.{IsSendable};
ghost use Rattle.sr_wire.specs.declared.bad_frame.BadFrame.{BadFrame as TheBadFrame};
ghost use Rattle.sr_server.specs.Outboxes.{Begins, left_on, served_by};
ghost use Rattle.sr_server.specs.Servers.{IsClientNumber, IsServer, IsSessionIf, ForEach, StandsForSome, GivesUp, is_served, put, served_of, session_at};

use crate::index::index_asked;
use crate::outbox::Outbox;
use crate::serve::{Answer, serve, serve_written};
use crate::server::Server;
use crate::session::Session;
use sr_cell::fault::Fault;
use sr_cell::list::{No, NoMemory, Seq};
use sr_message::message::Message;
use sr_outbox::item::Item;
use sr_outbox::left::Left;
use sr_wire::bad_frame::BadFrame;
use std::alloc::Global;

impl Server {
    /// Begins to take a message of that client: it is refused and changes nothing, or carried out, and the messages to send are left in
    /// the Outbox. From here on the client's session is closed, also when memory ran out; a write that was carried out stays.
    pub fn begin(
        &mut self,
        alloc: Global,
        client: u8,
        message: &Message,
    ) -> Result<Outbox, No<BadFrame>>
        requires client { IsClientNumber client }
        requires stands { StandsForSome self.old }
        requires parts { has_few_parts message.now ≡ true }
        requires number { newest_of self.old.log + 1 < 2 ^ 63 }
        ensures bad { (why : TheBadFrame) → IsErrOf result (Refused why)
            ↔ (server_misfit self.old.tables.schema (session_at self.old.sessions client) client message.now ≡ Some why) }
        ensures unchanged { (why : TheBadFrame) → IsErrOf result (Refused why) → self.new ≡ self.old }
        ensures begun { (db : Database) → IsServer self.old db → IfOk result (λ outbox. Begins db self.old client message.now outbox self.new) }
        ensures sendable { IfOk result (λ outbox. All IsSendable (left_on outbox self.new)) }
        ensures wanting { (db : Database) → IsServer self.old db → IsErrOf result Wanting → GivesUp db self.old client message.now self.new }
        ensures stands { StandsForSome self.new }
        ensures grows { newest_of self.new.log ≤ newest_of self.old.log + 1 }
    {
        match self.misfit(client, message) {
            Some(why) => Err(No::Refused(why)),
            None => match self.begin_on(alloc, client, message) {
                Ok(outbox) => Ok(outbox),
                Err(_) => Err(No::NoMemory),
            },
        }
    }

    /// Puts back the session of an Outbox of which nothing is left on this server; takes no memory.
    pub fn finish(&mut self, outbox: Outbox)
        requires client { IsClientNumber outbox.client }
        requires stands { StandsForSome self.old }
        requires none { left_on outbox self.old ≡ [] }
        requires closed { session_at self.old.sessions outbox.client ≡ None }
        requires fits { (db : Database) → IsServer self.old db → IsSessionIf db outbox.session }
        ensures put { self.new ≡ put self.old outbox.client outbox.session }
        ensures stands { (db : Database) → IsServer self.old db → IsServer self.new db }
    {
        let Outbox {
            client,
            session,
            ..
        } = outbox;
        self.set(client, session);
    }

    /// Begins to take a message against which nothing stands.
    fn begin_on(&mut self, alloc: Global, client: u8, message: &Message) -> Result<Outbox, NoMemory>
        requires client { IsClientNumber client }
        requires stands { StandsForSome self.old }
        requires parts { has_few_parts message.now ≡ true }
        requires number { newest_of self.old.log + 1 < 2 ^ 63 }
        requires suits { server_misfit self.old.tables.schema (session_at self.old.sessions client) client message.now ≡ None }
        ensures begun { (db : Database) → IsServer self.old db → IfOk result (λ outbox. Begins db self.old client message.now outbox self.new) }
        ensures wanting { (db : Database) → IsServer self.old db → OnErr result (GivesUp db self.old client message.now self.new) }
    {
        match message {
            Message::Write { number, sql } => self.begin_write(
                alloc,
                client,
                *number,
                sql.as_str(),
            ),
            _ => self.begin_request(alloc, client, message),
        }
    }

    /// Makes indexes by which the rows of an ask are found, where memory is to be had: no row changes.
    fn index_asked(&mut self, alloc: Global, message: &Message)
        ensures { self.new ≡ self.old }
    {
        index_asked(alloc, &mut self.tables, message);
    }

    /// Begins to take a request that is no write.
    fn begin_request(
        &mut self,
        alloc: Global,
        client: u8,
        message: &Message,
    ) -> Result<Outbox, NoMemory>
        requires client { IsClientNumber client }
        requires stands { StandsForSome self.old }
        requires parts { has_few_parts message.now ≡ true }
        requires served { is_served (is_open (session_at self.old.sessions client)) message.now ≡ true }
        ensures is_for { IfOk result (λ outbox. outbox.client ≡ client) }
        ensures serves { (db : Database) → IsServer self.old db → IfOk result (λ outbox. served_by outbox self.new ≡ served_of db self.old client message.now) }
        ensures closed { self.new ≡ put self.old client None }
    {
        self.index_asked(alloc, message);
        let session = self.close(client);
        let answer = serve(alloc, &self.tables, &self.log, session, message)?;
        Ok(outbox_of(client, answer))
    }

    /// Begins to take a write of an open session, which is carried out.
    fn begin_write(
        &mut self,
        alloc: Global,
        client: u8,
        number: u64,
        sql: &str,
    ) -> Result<Outbox, NoMemory>
        requires client { IsClientNumber client }
        requires stands { StandsForSome self.old }
        requires opened { is_open (session_at self.old.sessions client) ≡ true }
        requires number { newest_of self.old.log + 1 < 2 ^ 63 }
        ensures begun { (db : Database) → IsServer self.old db → IfOk result (λ outbox. Begins db self.old client (WriteOf number sql.now) outbox self.new) }
        ensures wanting { (db : Database) → IsServer self.old db → OnErr result (GivesUp db self.old client (WriteOf number sql.now) self.new) }
    {
        let Some(session) = self.close(client) else {
            unreachable!()
        };
        match self.write(alloc, sql) {
            Ok(()) => self.written(alloc, client, session, number),
            Err(No::Refused(fault)) => self.refused(alloc, client, session, number, fault),
            Err(No::NoMemory) => Err(NoMemory),
        }
    }

    /// What a write is answered with that was carried out, of a client whose session was taken out.
    fn written(
        &self,
        alloc: Global,
        client: u8,
        session: Session,
        number: u64,
    ) -> Result<Outbox, NoMemory>
        requires points { AllByRecursion FitsSome session.subscription }
        ensures is_for { IfOk result (λ outbox. outbox.client ≡ client) }
        ensures serves { ForEach self.now.log session (λ db. IfOk result (λ outbox. served_by outbox self.now ≡ serve_write db session number None)) }
    {
        let mut session = session;
        let sent = serve_written(alloc, &self.log, &mut session, number)?;
        let session = Some(session);
        Ok(outbox_of(client, Answer { session, sent }))
    }

    /// What a write is answered with that was refused, of a client whose session was taken out.
    fn refused(
        &self,
        alloc: Global,
        client: u8,
        session: Session,
        number: u64,
        fault: Fault,
    ) -> Result<Outbox, NoMemory>
        ensures is_for { IfOk result (λ outbox. outbox.client ≡ client) }
        ensures session { IfOk result (λ outbox. outbox.session ≡ Some session) }
        ensures sent { IfOk result (λ outbox. left_on outbox self.now ≡ RefusedOf number fault ∷ []) }
    {
        let mut sent = Seq::new(alloc);
        sent.push(Item::Refused { number, fault })?;
        let session = Some(session);
        Ok(outbox_of(client, Answer { session, sent }))
    }
}

/// What is answered to a client is left; takes no memory.
fn outbox_of(client: u8, answer: Answer) -> Outbox
    ensures { result ≡ record { client = client; session = answer.session; left = answer.sent } }
{
    let Answer { session, sent } = answer;
    Outbox {
        client,
        session,
        left: Left::new(sent),
    }
}
