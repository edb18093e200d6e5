//! A client and its state.
ghost use Rattle.std.specs.Prelude.{◌≡◌, ◌≤◌, ◌+◌, ◌-◌, ◌^◌, min, IsTrue};
ghost use Rattle.std.specs.List.{list_all};
ghost use Rattle.std.specs.Option.{is_some};
ghost use Rattle.sr_model.specs.Queries.{Query as TheQuery};
ghost use Rattle.sr_query.specs.Bound.{is_table};
ghost use Rattle.sr_store.specs.Fitted.{count_rows};
ghost use Rattle.sr_session.specs.Sessions.{Database};
ghost use Rattle.sr_session.specs.Rules.{number_of};
ghost use Rattle.sr_session.specs.Scenes.{new_pair};
ghost use Rattle.sr_session.specs.Laws.{IsSound};
ghost use Rattle.sr_client.specs.Evicting.{HandsOut};
ghost use Rattle.sr_client.specs.Stands.{Stands, StandsOver, request_of, given_up, cuts_down, new_client, opened_client};
ghost use Rattle.sr_client.specs.Steps.{Evicts};

use crate::laid::Laid;
use crate::steps::EvictStep;
use sr_cell::schema::Schema;
use sr_message::message::AskParts;
use sr_policy::policy::Limits;
use sr_query::query::Query;
use sr_region::region::Region;
use sr_store::store::Store;
use std::alloc::Global;
use std::mem;

/// The ask that is out, with its number, and its query with that one's number.
#[derive(Drop)]
pub struct AskOut {
    pub number: u64,
    pub query_number: u64,
    pub query: Query,
    pub fresh: bool,
    pub parts: AskParts,
}

/// The request that is out, with its number: an ask, a write, or the first message of a session.
#[derive(Drop)]
pub enum Request {
    Ask(AskOut),
    Write { number: u64 },
    Resume { number: u64 },
}

/// A client: its regions have the rows of its version. `queries` counts those that have a number, `laid` has the messages that
/// wait for the last one of the request that is out, and `cuts` counts how often the link was cut.
#[derive(Drop)]
pub struct Client {
    pub id: u8,
    pub(crate) schema: Schema,
    pub(crate) store: Store,
    pub(crate) version: u64,
    pub(crate) queries: u64,
    pub(crate) next_request: u64,
    pub(crate) out: Option<Request>,
    pub(crate) laid: Laid,
    pub(crate) cut: bool,
    pub(crate) cuts: u64,
}

impl Request {
    /// The number of the request.
    pub fn number(&self) -> u64
        ensures { (meaning : TheQuery) → result ≡ number_of (request_of meaning self.now) }
    {
        match self {
            Request::Ask(ask) => ask.number,
            Request::Write { number } => *number,
            Request::Resume { number } => *number,
        }
    }
}

impl Client {
    /// A client at version 0 that holds nothing, and whose link is down by cut 0; takes no memory.
    #[tactic(auto, using(crate::proofs::NewLemmas::new_stands))]
    pub fn new(alloc: Global, id: u8, schema: Schema, limits: Limits) -> Client
        requires tables { IsTrue (list_all is_table schema) }
        ensures is { result ≡ new_client id schema limits }
        ensures stands { Stands result }
    {
        Client {
            id,
            schema,
            store: Store::new(alloc, limits),
            version: 0,
            queries: 0,
            next_request: 0,
            out: None,
            laid: Laid::new(alloc),
            cut: true,
            cuts: 0,
        }
    }

    /// A client whose first messages have passed: its session is open at version 0, and its first request will be number 1.
    #[tactic(auto, using(crate::proofs::NewLemmas::opened_stands))]
    pub fn opened(alloc: Global, id: u8, schema: Schema, limits: Limits) -> Client
        requires tables { IsTrue (list_all is_table schema) }
        ensures is { result ≡ opened_client id schema limits }
        ensures stands { Stands result }
        ensures over { (db : Database) → IsSound db → db.schema ≡ schema → StandsOver db new_pair.client result }
    {
        let mut client = Client::new(alloc, id, schema, limits);
        client.next_request = 1;
        client.cut = false;
        client
    }

    /// The version of which the regions have the rows.
    pub fn version(&self) -> u64
        ensures { result ≡ self.now.version }
    {
        self.version
    }

    /// The regions, in class order.
    pub fn regions(&self) -> &[Region]
        ensures { result.now ≡ self.now.store.regions }
    {
        self.store.regions.as_slice()
    }

    /// Whether a request is out; takes no memory.
    pub fn is_waiting(&self) -> bool
        ensures { result ≡ is_some self.now.out }
    {
        self.out.is_some()
    }

    /// How many rows the regions have, or the greatest number of the type where there are more; takes no memory.
    pub fn rows(&self) -> u64
        ensures { result ≡ min (count_rows self.now.store.regions) (2 ^ 64 - 1) }
    {
        self.store.rows()
    }

    /// Drops the region of that number, counted from 0 in class order, unless a request is out; takes no memory.
    #[tactic(auto, using(crate::proofs::EvictLemmas::busy_evicts, crate::proofs::EvictLemmas::none_evicts, crate::proofs::EvictLemmas::one_evicts))]
    pub fn evict(&mut self, number: usize) -> EvictStep
        requires stands { Stands self.old }
        ensures evicts { Evicts self.old number self.new result }
        ensures region { HandsOut self.old.store.regions number self.new.store.regions result }
        ensures rest { self.new ≡ record self.old { store = record self.old.store { regions = self.new.store.regions } } }
    {
        if let Some(request) = &self.out {
            return EvictStep::Busy {
                request: request.number(),
            };
        }
        match self.store.evict(number) {
            Ok(region) => EvictStep::Dropped(region),
            Err(no) => EvictStep::NoSuch { count: no.count },
        }
    }

    /// This request is out from now on, or none; takes no memory.
    pub(crate) fn set_out(&mut self, out: Option<Request>)
        ensures { self.new ≡ record self.old { out = out } }
    {
        // An assignment would drop the old one in place, kind by kind.
        drop(mem::replace(&mut self.out, out));
    }

    /// Forgets all, as if the link had been cut; takes no memory.
    pub(crate) fn give_up(&mut self, alloc: Global)
        ensures given { self.new ≡ given_up self.old self.new.cuts }
        ensures counted { self.new.cuts ≡ cuts_down self.old }
        ensures once { self.new.cuts ≤ self.old.cuts + 1 }
    {
        self.store = Store::new(alloc, self.store.limits);
        self.set_out(None);
        self.laid = Laid::new(alloc);
        if !self.cut && self.cuts < u64::MAX {
            self.cuts += 1;
        }
        self.cut = true;
    }
}
