//! What each event of a script does to a world.
ghost use Rattle.std.specs.Prelude.{◌≡◌, ◌+◌, ◌<◌, ◌≤◌, ◌^◌, [], length, true, Ok, Result, IsTrue, IfOk, OnOk};
ghost use Rattle.sr_cell.specs.declared.fault.Fault.{Fault as TheFault};
ghost use Rattle.sr_lines.specs.Events.{DoCut, DoEvict, DoExec, DoExplain, DoPush, DoQuery, DoResume, DoSettle, DoToClient, DoToServer, DoWrite};
ghost use Rattle.sr_model.specs.Queries.{Query as TheQuery};
ghost use Rattle.sr_query.specs.Written.{write_of};
ghost use Rattle.sr_query.specs.Writes.{suits};
ghost use Rattle.sr_tables.specs.Stored.{is_short};
ghost use Rattle.sr_reader.specs.Read.{Means, statement_fits, statement_of};
ghost use Rattle.sr_client.specs.Bound.{IsMeaning};
ghost use Rattle.sr_runs.specs.Runs.{Acts, AllSettle, Does, Settles};
ghost use Rattle.sr_world.specs.Worlds.{Goes, IsNumber, SameSetting, StandsForSome, drawn, most_drawn, potential};

use crate::lines::one_line;
use crate::seat::Deliveries;
use crate::world::World;
use sr_cell::fault::Fault;
use sr_cell::list::{No, NoMemory, Seq};
use sr_query::query::Query;
use sr_query::write::Write;
use sr_script::line::{TraceLine, TraceLines};
use std::alloc::Global;

impl World {
    /// Carries out a statement of the server's own, which makes a version, or is refused.
    pub(crate) fn carry_out(&mut self, alloc: Global, write: Write) -> Result<TraceLines, NoMemory>
        requires world { StandsForSome self.old }
        requires suits { IsTrue (suits self.old.server.tables.schema (write_of write)) }
        requires short { IsTrue (is_short (write_of write)) }
        requires room { drawn self.old + 1 < 2 ^ 63 }
        ensures acts { IfOk result (Goes (λ s. Acts s (DoExec (Ok (write_of write)))) self.old self.new) }
        ensures drawn { OnOk result (drawn self.new ≤ drawn self.old + 2) }
        ensures stays { SameSetting self.old self.new }
    {
        match self.server.exec(alloc, write) {
            Ok(version) => one_line(alloc, TraceLine::ExecVersion { version }),
            Err(No::Refused(fault)) => one_line(alloc, TraceLine::ExecRefused { fault }),
            Err(No::NoMemory) => Err(NoMemory),
        }
    }

    /// The client judges a query that is bound.
    pub(crate) fn ask(
        &mut self,
        alloc: Global,
        client: u8,
        query: Query,
    ) -> Result<TraceLines, NoMemory>
        requires world { StandsForSome self.old }
        requires number { IsNumber self.old client }
        requires meant { (meaning : TheQuery) × IsMeaning self.old.server.tables.schema query meaning }
        requires room { drawn self.old + 2 < 2 ^ 63 }
        ensures acts { (meaning : TheQuery) → IsMeaning self.old.server.tables.schema query meaning
            → IfOk result (Goes (λ s. Acts s (DoQuery client (Ok meaning))) self.old self.new) }
        ensures drawn { OnOk result (drawn self.new ≤ drawn self.old + 2) }
        ensures stays { SameSetting self.old self.new }
    {
        self.seats[client as usize - 1].query(alloc, query)
    }

    /// The client explains how it would answer a query that is bound; nothing changes.
    pub(crate) fn tell(
        &self,
        alloc: Global,
        client: u8,
        query: &Query,
    ) -> Result<TraceLines, NoMemory>
        requires world { StandsForSome self.now }
        requires number { IsNumber self.now client }
        requires meant { (meaning : TheQuery) × IsMeaning self.now.server.tables.schema query.now meaning }
        ensures acts { (meaning : TheQuery) → IsMeaning self.now.server.tables.schema query.now meaning
            → IfOk result (Goes (λ s. Acts s (DoExplain client (Ok meaning))) self.now self.now) }
    {
        self.seats[client as usize - 1].explain(alloc, query)
    }

    /// The client sends the text of a write.
    pub(crate) fn write(
        &mut self,
        alloc: Global,
        client: u8,
        sql: &str,
    ) -> Result<TraceLines, NoMemory>
        requires world { StandsForSome self.old }
        requires number { IsNumber self.old client }
        requires room { drawn self.old + 2 < 2 ^ 63 }
        ensures acts { IfOk result (Goes (λ s. Acts s (DoWrite client sql.now)) self.old self.new) }
        ensures drawn { OnOk result (drawn self.new ≤ drawn self.old + 2) }
        ensures stays { SameSetting self.old self.new }
    {
        self.seats[client as usize - 1].write(alloc, sql)
    }

    /// The client begins a session over a cut link.
    pub(crate) fn resume(&mut self, alloc: Global, client: u8) -> Result<TraceLines, NoMemory>
        requires world { StandsForSome self.old }
        requires number { IsNumber self.old client }
        requires room { drawn self.old + 2 < 2 ^ 63 }
        ensures acts { IfOk result (Goes (λ s. Acts s (DoResume client)) self.old self.new) }
        ensures drawn { OnOk result (drawn self.new ≤ drawn self.old + 2) }
        ensures stays { SameSetting self.old self.new }
    {
        self.seats[client as usize - 1].resume(alloc)
    }

    /// The client drops the class of that place, counted from 0 in class order.
    pub(crate) fn evict(
        &mut self,
        alloc: Global,
        client: u8,
        place: u32,
    ) -> Result<TraceLines, NoMemory>
        requires world { StandsForSome self.old }
        requires number { IsNumber self.old client }
        ensures acts { IfOk result (Goes (λ s. Acts s (DoEvict client place)) self.old self.new) }
        ensures drawn { OnOk result (drawn self.new ≤ drawn self.old + 2) }
        ensures stays { SameSetting self.old self.new }
    {
        self.seats[client as usize - 1].evict(alloc, place as usize)
    }

    /// The link of the client is cut.
    pub(crate) fn cut(&mut self, alloc: Global, client: u8) -> Result<TraceLines, NoMemory>
        requires world { StandsForSome self.old }
        requires number { IsNumber self.old client }
        requires room { drawn self.old + 2 < 2 ^ 63 }
        ensures acts { IfOk result (Goes (λ s. Acts s (DoCut client)) self.old self.new) }
        ensures drawn { OnOk result (drawn self.new ≤ drawn self.old + 2) }
        ensures stays { SameSetting self.old self.new }
    {
        self.seats[client as usize - 1].cut(alloc, &mut self.server)
    }

    /// The server sends the client what is due to it.
    pub(crate) fn push(&mut self, alloc: Global, client: u8) -> Result<TraceLines, NoMemory>
        requires world { StandsForSome self.old }
        requires number { IsNumber self.old client }
        ensures acts { IfOk result (Goes (λ s. Acts s (DoPush client)) self.old self.new) }
        ensures drawn { OnOk result (drawn self.new ≤ drawn self.old + 2) }
        ensures stays { SameSetting self.old self.new }
    {
        self.seats[client as usize - 1].push(alloc, &mut self.server)
    }

    /// The server takes the oldest message of the client.
    pub(crate) fn to_server(&mut self, alloc: Global, client: u8) -> Result<TraceLines, NoMemory>
        requires world { StandsForSome self.old }
        requires number { IsNumber self.old client }
        requires room { drawn self.old + 2 < 2 ^ 63 }
        ensures acts { IfOk result (Goes (λ s. Acts s (DoToServer client)) self.old self.new) }
        ensures lightens { OnOk result (potential self.new ≤ potential self.old) }
        ensures stays { SameSetting self.old self.new }
    {
        self.seats[client as usize - 1].serve(alloc, &mut self.server)
    }

    /// The client takes the oldest message of the server.
    pub(crate) fn to_client(&mut self, alloc: Global, client: u8) -> Result<TraceLines, NoMemory>
        requires world { StandsForSome self.old }
        requires number { IsNumber self.old client }
        requires room { drawn self.old + 2 < 2 ^ 63 }
        ensures acts { IfOk result (Goes (λ s. Acts s (DoToClient client)) self.old self.new) }
        ensures lightens { OnOk result (potential self.new ≤ potential self.old) }
        ensures stays { SameSetting self.old self.new }
    {
        self.seats[client as usize - 1].receive(alloc)
    }

    /// Makes the client's deliveries until none is left.
    pub(crate) fn deliver(&mut self, alloc: Global, client: u8) -> Result<Deliveries, NoMemory>
        requires world { StandsForSome self.old }
        requires number { IsNumber self.old client }
        requires room { potential self.old + 2 < 2 ^ 63 }
        ensures settles { IfOk result (λ done. Goes (λ s. Settles client s done.frames) self.old self.new done.lines) }
        ensures lightens { OnOk result (potential self.new ≤ potential self.old) }
        ensures stays { SameSetting self.old self.new }
    {
        self.seats[client as usize - 1].settle(alloc, &mut self.server)
    }

    /// Makes the deliveries of all clients until none is left, client by client.
    pub(crate) fn settle_all(&mut self, alloc: Global) -> Result<TraceLines, NoMemory>
        requires world { StandsForSome self.old }
        requires room { potential self.old + 2 < 2 ^ 63 }
        ensures settles { IfOk result (Goes (AllSettle 1 (length self.old.seats.items)) self.old self.new) }
        ensures lightens { OnOk result (potential self.new ≤ potential self.old) }
        ensures stays { SameSetting self.old self.new }
    {
        let mut lines = Seq::new(alloc);
        'clients: for place in 0..self.seats.len() {
            let done = self.deliver(alloc, place as u8 + 1)?;
            lines.append(done.lines)?;
        }
        Ok(lines)
    }
}
