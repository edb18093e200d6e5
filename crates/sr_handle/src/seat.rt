//! A client with the numbers that it has left, on which no call can be out of turn.
ghost use Rattle.std.specs.Prelude.{◌≡◌, ◌≤◌, ◌-◌, ◌^◌, min, IfOk, IsTrue};
ghost use Rattle.std.specs.List.{list_all};
ghost use Rattle.std.specs.Option.{is_some};
ghost use Rattle.sr_model.specs.Queries.{Query as TheQuery};
ghost use Rattle.sr_query.specs.Bound.{is_table};
ghost use Rattle.sr_store.specs.Fitted.{count_rows};
ghost use Rattle.sr_client.specs.Bound.{IsMeaning};
ghost use Rattle.sr_client.specs.Sends.{QuerySendsWell, ResumeSendsWell, TookSendsWell, WriteSendsWell};
ghost use Rattle.sr_client.specs.Stands.{Stays, new_client};
ghost use Rattle.sr_client.specs.Steps.{Cuts, Evicts, Queries, Resumes, Takes};
ghost use Rattle.sr_handle.specs.Seats.{AskedSendsWell, AsksAs, ExplainsAs, WritesAs};
ghost use Rattle.sr_handle.specs.Telling.{IsFew};

use crate::said::Stop;
use sr_cell::fault::Fault;
use sr_cell::list::{Copied, NoMemory};
use sr_cell::schema::Schema;
use sr_cell::table::Table;
use sr_client::client::Client;
use sr_client::steps::{CutStep, EvictStep, QueryStep, ResumeStep, Took, WriteStep};
use sr_explain::explanation::Explanation;
use sr_message::message::Message;
use sr_policy::policy::Limits;
use sr_query::query::Query;
use sr_reader::meaning::query_of;
use sr_region::region::Region;
use std::alloc::Global;
use std::marker::Model;

/// How many steps a client may take: a step draws two numbers at most, and the numbers are below 2^63.
const MOST_STEPS: u64 = 1 << 60;

/// A client that stands, with its tables and the number of its steps. Contracts see the client.
#[derive(Drop)]
pub struct Seat {
    client: Client,
    schema: Schema,
    steps: u64,
}

impl Model for Seat {
    ghost use Rattle.sr_client.specs.declared.client.Client.{Client};

    ghost Value = { Client };

    ghost use Rattle.sr_handle.specs.Ready.{IsSeat};

    ghost view = { λ s. s.client };

    ghost invariant = { λ s. IsSeat s.client s.schema s.steps };
}

impl Seat {
    /// A client to which nothing has happened, and whose link is down.
    pub fn new(alloc: Global, id: u8, schema: Schema, limits: Limits) -> Result<Seat, NoMemory>
        requires first { 1 ≤ id }
        requires last { id ≤ 64 }
        requires tables { IsTrue (list_all is_table schema) }
        requires regions { limits.regions ≤ 1024 }
        ensures { IfOk result (λ seat. seat ≡ new_client id schema limits) }
    {
        let own = schema.copy(alloc)?;
        Ok(Seat {
            client: Client::new(alloc, id, own, limits),
            schema,
            steps: 0,
        })
    }

    /// The version of which the regions have the rows.
    pub fn version(&self) -> u64
        ensures { result ≡ self.now.version }
    {
        self.client.version()
    }

    /// The regions, in class order.
    pub fn regions(&self) -> &[Region]
        ensures { result.now ≡ self.now.store.regions }
    {
        self.client.regions()
    }

    /// The tables.
    pub fn tables(&self) -> &[Table]
        ensures { result.now ≡ self.now.schema }
    {
        self.schema.as_slice()
    }

    /// The number of the client.
    pub fn id(&self) -> u8
        ensures { result ≡ self.now.id }
    {
        self.client.id
    }

    /// How many rows the regions have.
    pub fn kept_rows(&self) -> u64
        ensures { result ≡ min (count_rows self.now.store.regions) (2 ^ 64 - 1) }
    {
        self.client.rows()
    }

    /// Whether a request is out.
    pub fn is_waiting(&self) -> bool
        ensures { result ≡ is_some self.now.out }
    {
        self.client.is_waiting()
    }

    /// What a text asks of the client's tables is judged, or why it is refused.
    pub fn query(&mut self, alloc: Global, sql: &str) -> Result<Result<QueryStep, Fault>, Stop>
        ensures asks { IfOk result (AsksAs self.old sql.now self.new) }
        ensures sends { IfOk result (AskedSendsWell self.old.schema self.old.id) }
        ensures stays { Stays self.old self.new }
    {
        let asked = query_of(alloc, &self.schema, sql)?;
        match asked {
            Ok(query) => {
                let step = self.judge(alloc, query)?;
                Ok(Ok(step))
            }
            Err(fault) => Ok(Err(fault)),
        }
    }

    /// Judges a query.
    fn judge(&mut self, alloc: Global, query: Query) -> Result<QueryStep, Stop>
        requires meant { (meaning : TheQuery) × IsMeaning self.old.schema query meaning }
        ensures queries { (meaning : TheQuery) → IsMeaning self.old.schema query meaning → IfOk result (Queries self.old meaning self.new) }
        ensures sends { IfOk result (QuerySendsWell self.old.schema self.old.id) }
        ensures stays { Stays self.old self.new }
    {
        if self.steps >= MOST_STEPS {
            return Err(Stop::Worn);
        }
        self.steps += 1;
        match self.client.query(alloc, query) {
            Ok(step) => Ok(step),
            Err(NoMemory) => Err(Stop::NoMemory),
        }
    }

    /// How the client would answer what a text asks, or why it is refused.
    pub fn explain(&self, alloc: Global, sql: &str) -> Result<Result<Explanation, Fault>, NoMemory>
        ensures explains { IfOk result (ExplainsAs self.now sql.now) }
        ensures few { IfOk result (IsFew) }
    {
        match query_of(alloc, &self.schema, sql)? {
            Ok(query) => Ok(Ok(self.client.explain(alloc, &query)?)),
            Err(fault) => Ok(Err(fault)),
        }
    }

    /// Sends the text of a write, unless it is too long.
    pub fn write(&mut self, alloc: Global, sql: &str) -> Result<WriteStep, Stop>
        ensures writes { IfOk result (WritesAs self.old sql.now self.new) }
        ensures sends { IfOk result (WriteSendsWell self.old.schema self.old.id) }
        ensures stays { Stays self.old self.new }
    {
        if self.steps >= MOST_STEPS {
            return Err(Stop::Worn);
        }
        self.steps += 1;
        match self.client.write(alloc, sql) {
            Ok(step) => Ok(step),
            Err(NoMemory) => Err(Stop::NoMemory),
        }
    }

    /// Takes a message of the server.
    pub fn take(&mut self, alloc: Global, message: Message) -> Result<Took, Stop>
        ensures takes { IfOk result (Takes self.old message self.new) }
        ensures sends { IfOk result (TookSendsWell self.old.schema self.old.id) }
        ensures stays { Stays self.old self.new }
    {
        if self.steps >= MOST_STEPS {
            return Err(Stop::Worn);
        }
        self.steps += 1;
        match self.client.take(alloc, message) {
            Ok(took) => Ok(took),
            Err(NoMemory) => Err(Stop::NoMemory),
        }
    }

    /// Drops the region of that number, counted from 0 in class order; takes no memory.
    pub fn evict(&mut self, number: usize) -> EvictStep
        ensures evicts { Evicts self.old number self.new result }
        ensures stays { Stays self.old self.new }
    {
        self.client.evict(number)
    }

    /// The link was cut; takes no memory.
    pub fn cut(&mut self, alloc: Global) -> Result<CutStep, Stop>
        ensures cuts { IfOk result (Cuts self.old self.new) }
        ensures stays { Stays self.old self.new }
    {
        if self.steps >= MOST_STEPS {
            return Err(Stop::Worn);
        }
        self.steps += 1;
        Ok(self.client.cut(alloc))
    }

    /// Begins a session over a cut link.
    pub fn resume(&mut self, alloc: Global) -> Result<ResumeStep, Stop>
        ensures resumes { IfOk result (Resumes self.old self.new) }
        ensures sends { IfOk result (ResumeSendsWell self.old.schema self.old.id) }
        ensures stays { Stays self.old self.new }
    {
        if self.steps >= MOST_STEPS {
            return Err(Stop::Worn);
        }
        self.steps += 1;
        match self.client.resume(alloc) {
            Ok(step) => Ok(step),
            Err(NoMemory) => Err(Stop::NoMemory),
        }
    }
}
