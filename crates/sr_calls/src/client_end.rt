//! The client's end of its connections.
ghost use Rattle.std.specs.Prelude.{◌≡◌, ◌≤◌, None, IfOk, IsTrue};
ghost use Rattle.std.specs.List.{list_all};
ghost use Rattle.sr_query.specs.Bound.{is_table};
ghost use Rattle.sr_image.specs.Joining.{image_from};
ghost use Rattle.sr_image.specs.Laws.{is_image};
ghost use Rattle.sr_image.specs.Writing.{may_write_image};
ghost use Rattle.sr_calls.specs.ClientEnds.{IsReady, end_with};
ghost use Rattle.sr_calls.specs.Runs.{new_end};

use crate::calls;
use sr_cell::fault::Fault;
use sr_cell::list::{Copied, NoMemory};
use sr_cell::schema::Schema;
use sr_client::client::Client;
use sr_dial::parts::{Answer, Asks, Came, Told};
use sr_image::image::Image;
use sr_image::joining::image_of_store;
use sr_links::laws::{Hearer, Peer};
use sr_message::message::Message;
use sr_policy::policy::Limits;
use sr_query::query::Query;
use sr_reader::script::Event;
use sr_script::line::TraceLines;
use std::alloc::Global;
use std::marker::Model;

/// A client that stands for some past, whose number and limits the format has, and which holds short texts alone; whether the rows of
/// answers are kept, so as to be lent, and whether a run writes lines; and the answer that is lent.
#[derive(Drop)]
pub struct ClientEnd {
    client: Client,
    keeps: bool,
    says: bool,
    answer: Option<Answer>,
}

impl Model for ClientEnd {
    ghost use Rattle.sr_calls.specs.ClientEnds.{End, IsReady};

    ghost Value = { End };

    ghost view = { λ e. record { client = e.client; keeps = e.keeps; says = e.says; answer = e.answer } };

    ghost invariant = { λ e. IsReady e.client };
}

impl ClientEnd {
    /// The end of this client, which lends nothing yet; takes no memory.
    pub fn new(client: Client, keeps: bool, says: bool) -> ClientEnd
        requires { IsReady client }
        ensures { result ≡ end_with keeps says client None }
    {
        ClientEnd {
            client,
            keeps,
            says,
            answer: None,
        }
    }

    /// The end of a client to which nothing has happened, and whose link is down.
    pub fn of_new(
        alloc: Global,
        id: u8,
        schema: &Schema,
        limits: Limits,
        keeps: bool,
        says: bool,
    ) -> Result<ClientEnd, NoMemory>
        requires first { 1 ≤ id }
        requires last { id ≤ 64 }
        requires tables { IsTrue (list_all is_table schema.now) }
        requires regions { limits.regions ≤ 1024 }
        ensures { IfOk result (λ end. end ≡ new_end id schema.now limits keeps says) }
    {
        let own = schema.copy(alloc)?;
        let client = Client::new(alloc, id, own, limits);
        Ok(ClientEnd::new(client, keeps, says))
    }

    /// The client.
    pub fn client(&self) -> &Client
        ensures is { result.now ≡ self.now.client }
        ensures ready { IsReady result.now }
    {
        &self.client
    }

    /// The image of what the client holds: it can be written, and read again.
    pub fn image(&self, alloc: Global) -> Result<Image, NoMemory>
        requires rows { self.now.client.store.limits.rows ≤ 200000 }
        ensures is { IfOk result (λ image. image ≡ image_from self.now.client.version self.now.client.store.regions) }
        ensures whole { IfOk result (λ image. IsTrue (is_image self.now.client.schema image)) }
        ensures may_write { IfOk result (λ image. IsTrue (may_write_image image)) }
    {
        image_of(alloc, &self.client)
    }
}

/// The image of what a client holds.
fn image_of(alloc: Global, client: &Client) -> Result<Image, NoMemory>
    requires ready { IsReady client.now }
    requires rows { client.now.store.limits.rows ≤ 200000 }
    ensures is { IfOk result (λ image. image ≡ image_from client.now.version client.now.store.regions) }
    ensures whole { IfOk result (λ image. IsTrue (is_image client.now.schema image)) }
    ensures may_write { IfOk result (λ image. IsTrue (may_write_image image)) }
{
    image_of_store(alloc, client.version(), client.regions())
}

impl Peer for ClientEnd {
    ghost use Rattle.sr_calls.specs.ClientEnds.{IsEnd};

    ghost is_of = { IsEnd };
}

impl Hearer for ClientEnd {
    ghost use Rattle.sr_calls.specs.ClientEnds.{HasTold};

    ghost has_told = { HasTold };
}

impl Asks for ClientEnd {
    ghost use Rattle.sr_calls.specs.ClientEnds.{Stands, lent_by, room_of, setting_of};

    ghost stands = { Stands };

    ghost setting = { setting_of };

    ghost lent = { lent_by };

    ghost room = { λ e. room_of e.client };

    fn is_waiting(&self) -> bool {
        self.client.is_waiting()
    }

    fn says(&self) -> bool {
        self.says
    }

    fn answer(&self) -> Option<&Answer> {
        self.answer.as_ref()
    }

    fn act(&mut self, alloc: Global, event: Event) -> Result<Told, NoMemory> {
        let done = calls::act(alloc, &mut self.client, self.keeps, event)?;
        self.answer = done.answer;
        Ok(done.told)
    }

    fn explain(&self, alloc: Global, query: Result<Query, Fault>) -> Result<TraceLines, NoMemory> {
        calls::explain(alloc, &self.client, query)
    }

    fn take(&mut self, alloc: Global, message: Message) -> Result<Came, NoMemory> {
        let taken = calls::take(alloc, &mut self.client, self.keeps, message)?;
        self.answer = taken.answer;
        Ok(taken.came)
    }

    fn cut(&mut self, alloc: Global) -> Result<TraceLines, NoMemory> {
        let lines = calls::cut(alloc, &mut self.client)?;
        self.answer = None;
        Ok(lines)
    }
}
