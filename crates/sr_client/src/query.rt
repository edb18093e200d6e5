//! What a client does with a query.
ghost use Rattle.std.specs.Prelude.{◌≡◌, ℕ, ◌+◌, ◌<◌, ◌≤◌, ◌^◌, false, [], length, Some, None, IfOk, OnOk, OnErr, IsTrue};
ghost use Rattle.sr_message.specs.declared.message.Message.TheVariants.{Ask as AskMessage};
ghost use Rattle.sr_message.specs.Sizes.{most_rects, count_asked};
ghost use Rattle.sr_model.specs.Queries.{Query as TheQuery};
ghost use Rattle.sr_client.specs.declared.client.Request.TheVariants.{Ask as AskRequest};
ghost use Rattle.sr_client.specs.Asking.{AsksRest, LeavesRest};
ghost use Rattle.sr_client.specs.Bound.{IsMeaning};
ghost use Rattle.sr_client.specs.Cutting.{AreCutAlong, IsOver};
ghost use Rattle.sr_client.specs.Sending.{next_ask, IsSent};
ghost use Rattle.sr_client.specs.Sends.{QuerySendsWell};
ghost use Rattle.sr_client.specs.Stands.{Stands, Stays, KeepsNumbers, cuts_down, drawn, given_up};
ghost use Rattle.sr_client.specs.Steps.{Queries};

use crate::answer::answer;
use crate::asks::{asks_of, whole_asks};
use crate::client::{AskOut, Client, Request};
use crate::steps::QueryStep;
use sr_cell::cause::Cause;
use sr_cell::list::{Copied, No, NoMemory, Seq};
use sr_history::mark::Marks;
use sr_message::message::{AskParts, Message};
use sr_query::query::Query;
use std::alloc::Global;

impl Client {
    /// Judges a query. It is answered at once where its points are held under the columns that its parts need; else what is
    /// left of it is asked, unless the link is cut. Nothing is done while a request is out. When memory ran out the client holds
    /// nothing, and is cut; nothing else has changed.
    pub fn query(&mut self, alloc: Global, query: Query) -> Result<QueryStep, NoMemory>
        requires stands { Stands self.old }
        requires meant { (meaning : TheQuery) × IsMeaning self.old.schema query meaning }
        requires room { drawn self.old + 2 < 2 ^ 63 }
        ensures queries { (meaning : TheQuery) → IsMeaning self.old.schema query meaning → IfOk result (Queries self.old meaning self.new) }
        ensures stands { Stands self.new }
        ensures sends { IfOk result (QuerySendsWell self.old.schema self.old.id) }
        ensures version { self.new.version ≡ self.old.version }
        ensures nothing_left { OnErr result (self.new ≡ given_up self.old (cuts_down self.old)) }
        ensures stays { Stays self.old self.new }
        ensures drawn { drawn self.new ≤ drawn self.old + 2 }
        ensures once { self.new.cuts ≤ self.old.cuts + 1 }
    {
        match self.judge(alloc, query) {
            Ok(step) => Ok(step),
            Err(no) => {
                self.give_up(alloc);
                Err(no)
            }
        }
    }

    fn judge(&mut self, alloc: Global, query: Query) -> Result<QueryStep, NoMemory>
        requires stands { Stands self.old }
        requires meant { (meaning : TheQuery) × IsMeaning self.old.schema query meaning }
        requires room { drawn self.old + 2 < 2 ^ 63 }
        ensures queries { (meaning : TheQuery) → IsMeaning self.old.schema query meaning → IfOk result (Queries self.old meaning self.new) }
        ensures sends { IfOk result (QuerySendsWell self.old.schema self.old.id) }
        ensures version { self.new.version ≡ self.old.version }
        ensures stays { Stays self.old self.new }
        ensures drawn { drawn self.new ≤ drawn self.old + 2 }
        ensures cuts { self.new.cuts ≡ self.old.cuts }
        ensures numbers_left { OnErr result (KeepsNumbers self.old self.new) }
    {
        let step = if let Some(request) = &self.out {
            Ok(QueryStep::Busy {
                request: request.number(),
            })
        } else {
            match asks_of(alloc, &self.schema, &self.store, query.parts.as_slice()) {
                Ok(asks) => {
                    if asks.is_empty() {
                        self.answer_now(alloc, &query)
                    } else if self.cut {
                        Ok(QueryStep::Down { cut: self.cuts })
                    } else {
                        return self.send_ask(alloc, query, asks, Seq::new(alloc));
                    }
                }
                Err(No::NoMemory) => Err(NoMemory),
                Err(No::Refused(_)) => {
                    if self.cut {
                        Ok(QueryStep::Down { cut: self.cuts })
                    } else {
                        return self.drop_and_ask(alloc, query);
                    }
                }
            }
        };
        drop(query);
        step
    }

    /// Answers a query of which nothing is left to ask.
    fn answer_now(&mut self, alloc: Global, query: &Query) -> Result<QueryStep, NoMemory>
        requires stands { Stands self.old }
        requires idle { self.old.out ≡ None }
        requires meant { (meaning : TheQuery) × IsMeaning self.old.schema query.now meaning }
        requires nothing { AsksRest self.old.schema self.old.store.regions query.now.parts [] }
        requires room { drawn self.old + 2 < 2 ^ 63 }
        ensures queries { (meaning : TheQuery) → IsMeaning self.old.schema query.now meaning → IfOk result (Queries self.old meaning self.new) }
        ensures sends { IfOk result (QuerySendsWell self.old.schema self.old.id) }
        ensures version { self.new.version ≡ self.old.version }
        ensures stays { Stays self.old self.new }
        ensures drawn { drawn self.new ≤ drawn self.old + 2 }
        ensures cuts { self.new.cuts ≡ self.old.cuts }
        ensures numbers_left { OnErr result (KeepsNumbers self.old self.new) }
    {
        let number = self.queries + 1;
        let rows = answer(alloc, query, self.store.regions.as_slice(), &[])?;
        let marks = self.store.answered(
            alloc,
            &self.schema,
            number,
            query.parts.as_slice(),
            Seq::new(alloc),
        )?;
        self.queries = number;
        Ok(QueryStep::Answered {
            query: number,
            version: self.version,
            rows,
            marks,
        })
    }

    /// Drops all that is held, since there would be too many pieces, and asks for the whole of a query.
    fn drop_and_ask(&mut self, alloc: Global, query: Query) -> Result<QueryStep, NoMemory>
        requires stands { Stands self.old }
        requires idle { self.old.out ≡ None }
        requires meant { (meaning : TheQuery) × IsMeaning self.old.schema query meaning }
        requires up { self.old.cut ≡ false }
        requires over { IsOver self.old.schema self.old.store.regions query.parts }
        requires left { LeavesRest self.old.schema self.old.store.regions query.parts }
        requires room { drawn self.old + 2 < 2 ^ 63 }
        ensures queries { (meaning : TheQuery) → IsMeaning self.old.schema query meaning → IfOk result (Queries self.old meaning self.new) }
        ensures sends { IfOk result (QuerySendsWell self.old.schema self.old.id) }
        ensures version { self.new.version ≡ self.old.version }
        ensures stays { Stays self.old self.new }
        ensures drawn { drawn self.new ≤ drawn self.old + 2 }
        ensures cuts { self.new.cuts ≡ self.old.cuts }
        ensures numbers_left { OnErr result (KeepsNumbers self.old self.new) }
    {
        let asks = whole_asks(alloc, query.parts.as_slice())?;
        let drops = self.store.drop_all(alloc, Cause::Pieces)?;
        self.send_ask(alloc, query, asks, drops)
    }

    /// Sends the ask of these parts of a query, with the next numbers. It is fresh where nothing is held.
    fn send_ask(
        &mut self,
        alloc: Global,
        query: Query,
        asks: AskParts,
        drops: Marks,
    ) -> Result<QueryStep, NoMemory>
        requires room { drawn self.old + 2 < 2 ^ 63 }
        ensures sent { IfOk result (IsSent self.old query asks drops self.new) }
        ensures version { self.new.version ≡ self.old.version }
        ensures stays { Stays self.old self.new }
        ensures drawn { drawn self.new ≤ drawn self.old + 2 }
        ensures cuts { self.new.cuts ≡ self.old.cuts }
        ensures numbers_left { OnErr result (KeepsNumbers self.old self.new) }
    {
        let out = ask_out(self, query, asks);
        let query_number = out.query_number;
        let request = out.number;
        let message = self.put_out(alloc, out)?;
        self.queries = query_number;
        Ok(QueryStep::Asked {
            query: query_number,
            request,
            message,
            marks: drops,
        })
    }

    /// Puts an ask out, and answers its message.
    pub(crate) fn put_out(&mut self, alloc: Global, out: AskOut) -> Result<Message, NoMemory>
        requires room { out.number < 2 ^ 63 }
        ensures message { IfOk result (λ message. message ≡ AskMessage out.number out.fresh out.parts) }
        ensures out { OnOk result (self.new ≡ record self.old { next_request = out.number + 1; out = Some (AskRequest out) }) }
        ensures unchanged { OnErr result (self.new ≡ self.old) }
    {
        match message_of(alloc, &out) {
            Ok(message) => {
                self.next_request = out.number + 1;
                self.set_out(Some(Request::Ask(out)));
                Ok(message)
            }
            Err(no) => {
                drop(out);
                Err(no)
            }
        }
    }
}

/// The ask of these parts of a query, with the next numbers.
fn ask_out(client: &Client, query: Query, asks: AskParts) -> AskOut
    requires room { drawn client.now + 2 < 2 ^ 63 }
    ensures { result ≡ next_ask client.now query asks }
{
    AskOut {
        number: client.next_request,
        query_number: client.queries + 1,
        query,
        fresh: client.store.regions.is_empty(),
        parts: asks,
    }
}

/// The message of an ask.
fn message_of(alloc: Global, out: &AskOut) -> Result<Message, NoMemory>
    ensures { IfOk result (λ message. message ≡ AskMessage out.now.number out.now.fresh out.now.parts) }
{
    Ok(Message::Ask {
        number: out.number,
        fresh: out.fresh,
        parts: out.parts.copy(alloc)?,
    })
}
