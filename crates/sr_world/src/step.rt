//! A step of a world: an event of a script, and with eager delivery the deliveries behind it.
ghost use Rattle.std.specs.Prelude.{◌≡◌, ◌+◌, ◌<◌, ◌≤◌, ◌^◌, length, true, Err, Result, IsTrue, IfOk, OnOk, OnErr};
ghost use Rattle.sr_cell.specs.declared.fault.Fault.{Fault as TheFault};
ghost use Rattle.sr_lines.specs.Events.{DoExec, DoExplain, DoQuery, DoSettle, ScriptEvent};
ghost use Rattle.sr_model.specs.Queries.{Query as TheQuery};
ghost use Rattle.sr_reader.specs.Read.{IsEvent, Means, event_fits, statement_fits, statement_of};
ghost use Rattle.sr_session.specs.Scenes.{Scene};
ghost use Rattle.sr_runs.specs.Runs.{Acts, Does, Steps};
ghost use Rattle.sr_world.specs.Worlds.{Goes, IsNumber, IsWorld, Represents, SameSetting, StandsForSome, drawn, most_drawn, potential};

use crate::lines::{one_line, with_line, with_lines};
use crate::world::World;
use sr_cell::fault::Fault;
use sr_cell::list::NoMemory;
use sr_query::query::Query;
use sr_query::write::Write;
use sr_reader::script::Event;
use sr_script::line::{TraceLine, TraceLines};
use std::alloc::Global;

impl World {
    /// What an event does, and with eager delivery the deliveries behind it, as the lines of the trace. When memory ran out each
    /// later step answers just that.
    pub fn step(&mut self, alloc: Global, event: Event) -> Result<TraceLines, NoMemory>
        requires world { IsWorld self.old }
        requires fits { IsTrue (event_fits (length self.old.seats.items) self.old.server.tables.schema event) }
        requires means { (what : ScriptEvent) × IsEvent self.old.server.tables.schema event what }
        requires room { drawn self.old + most_drawn < 2 ^ 63 }
        ensures steps { (s : Scene) (what : ScriptEvent) → Represents self.old s → IsEvent self.old.server.tables.schema event what
            → IfOk result (λ lines. (new : Scene) × Steps self.old.eager s what lines new × Represents self.new new) }
        ensures spent { self.old.spent ≡ true → result ≡ Err record {} }
        ensures wanting { OnErr result (self.new.spent ≡ true) }
        ensures world { IsWorld self.new }
        ensures drawn { OnOk result (drawn self.new ≤ drawn self.old + most_drawn) }
        ensures stays { SameSetting self.old self.new }
    {
        if self.spent {
            drop(event);
            return Err(NoMemory);
        }
        match self.happen(alloc, event) {
            Ok(lines) => Ok(lines),
            Err(no) => {
                self.spent = true;
                Err(no)
            }
        }
    }

    /// What an event does, with the deliveries behind it where delivery is eager.
    fn happen(&mut self, alloc: Global, event: Event) -> Result<TraceLines, NoMemory>
        requires world { StandsForSome self.old }
        requires fits { IsTrue (event_fits (length self.old.seats.items) self.old.server.tables.schema event) }
        requires means { (what : ScriptEvent) × IsEvent self.old.server.tables.schema event what }
        requires room { drawn self.old + most_drawn < 2 ^ 63 }
        ensures steps { (what : ScriptEvent) → IsEvent self.old.server.tables.schema event what
            → IfOk result (Goes (λ s. Steps self.old.eager s what) self.old self.new) }
        ensures drawn { OnOk result (drawn self.new ≤ drawn self.old + most_drawn) }
        ensures stays { SameSetting self.old self.new }
    {
        let eager = self.eager;
        let lines = self.event(alloc, event)?;
        if eager {
            let more = self.settle_all(alloc)?;
            return with_lines(lines, more);
        }
        Ok(lines)
    }

    /// What an event does by itself.
    fn event(&mut self, alloc: Global, event: Event) -> Result<TraceLines, NoMemory>
        requires world { StandsForSome self.old }
        requires fits { IsTrue (event_fits (length self.old.seats.items) self.old.server.tables.schema event) }
        requires means { (what : ScriptEvent) × IsEvent self.old.server.tables.schema event what }
        requires room { drawn self.old + most_drawn < 2 ^ 63 }
        ensures does { (what : ScriptEvent) → IsEvent self.old.server.tables.schema event what → IfOk result (Goes (λ s. Does s what) self.old self.new) }
        ensures drawn { OnOk result (potential self.new + 2 ≤ drawn self.old + most_drawn) }
        ensures stays { SameSetting self.old self.new }
    {
        match event {
            Event::Exec(statement) => self.exec(alloc, statement),
            Event::Query { client, query } => self.query(alloc, client, query),
            Event::Write { client, sql } => self.write(alloc, client, sql.as_str()),
            Event::Explain { client, query } => self.explain(alloc, client, query),
            Event::Push { client } => self.push(alloc, client),
            Event::ToServer { client } => self.to_server(alloc, client),
            Event::ToClient { client } => self.to_client(alloc, client),
            Event::Settle { client } => self.settle(alloc, client),
            Event::Evict { client, place } => self.evict(alloc, client, place),
            Event::Cut { client } => self.cut(alloc, client),
            Event::Resume { client } => self.resume(alloc, client),
        }
    }

    /// Carries out a statement of the server's own; a text that is refused gives its line and changes nothing.
    fn exec(
        &mut self,
        alloc: Global,
        statement: Result<Write, Fault>,
    ) -> Result<TraceLines, NoMemory>
        requires world { StandsForSome self.old }
        requires fits { IsTrue (statement_fits self.old.server.tables.schema statement) }
        requires room { drawn self.old + most_drawn < 2 ^ 63 }
        ensures acts { IfOk result (Goes (λ s. Acts s (DoExec (statement_of statement))) self.old self.new) }
        ensures drawn { OnOk result (drawn self.new ≤ drawn self.old + 2) }
        ensures stays { SameSetting self.old self.new }
    {
        match statement {
            Err(fault) => one_line(alloc, TraceLine::ExecRefused { fault }),
            Ok(write) => self.carry_out(alloc, write),
        }
    }

    /// The client judges a query; a text that is refused gives its line and changes nothing.
    fn query(
        &mut self,
        alloc: Global,
        client: u8,
        query: Result<Query, Fault>,
    ) -> Result<TraceLines, NoMemory>
        requires world { StandsForSome self.old }
        requires number { IsNumber self.old client }
        requires means { (meaning : Result TheQuery TheFault) × Means self.old.server.tables.schema query meaning }
        requires room { drawn self.old + most_drawn < 2 ^ 63 }
        ensures acts { (meaning : Result TheQuery TheFault) → Means self.old.server.tables.schema query meaning
            → IfOk result (Goes (λ s. Acts s (DoQuery client meaning)) self.old self.new) }
        ensures drawn { OnOk result (drawn self.new ≤ drawn self.old + 2) }
        ensures stays { SameSetting self.old self.new }
    {
        match query {
            Err(fault) => one_line(alloc, TraceLine::QuerySql { client, fault }),
            Ok(query) => self.ask(alloc, client, query),
        }
    }

    /// The client explains how it would answer a query; a text that is refused gives its line. Nothing changes.
    fn explain(
        &self,
        alloc: Global,
        client: u8,
        query: Result<Query, Fault>,
    ) -> Result<TraceLines, NoMemory>
        requires world { StandsForSome self.now }
        requires number { IsNumber self.now client }
        requires means { (meaning : Result TheQuery TheFault) × Means self.now.server.tables.schema query meaning }
        ensures acts { (meaning : Result TheQuery TheFault) → Means self.now.server.tables.schema query meaning
            → IfOk result (Goes (λ s. Acts s (DoExplain client meaning)) self.now self.now) }
    {
        match query {
            Err(fault) => one_line(alloc, TraceLine::ExplainSql { client, fault }),
            Ok(query) => self.tell(alloc, client, &query),
        }
    }

    /// Makes the client's deliveries until none is left, and tells how many they were.
    fn settle(&mut self, alloc: Global, client: u8) -> Result<TraceLines, NoMemory>
        requires world { StandsForSome self.old }
        requires number { IsNumber self.old client }
        requires room { potential self.old + 2 < 2 ^ 63 }
        ensures does { IfOk result (Goes (λ s. Does s (DoSettle client)) self.old self.new) }
        ensures lightens { OnOk result (potential self.new ≤ potential self.old) }
        ensures stays { SameSetting self.old self.new }
    {
        let done = self.deliver(alloc, client)?;
        let frames = done.frames;
        with_line(done.lines, TraceLine::Settled { client, frames })
    }
}
