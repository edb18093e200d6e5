//! What a client does with a message of the server.
ghost use Rattle.std.specs.Prelude.{◌≡◌, ◌+◌, ◌<◌, ◌≤◌, ◌^◌, ◌↔◌, nat_lt, true, false, List, map, Some, None, length, IfOk, OnOk, OnErr, IsTrue};
ghost use Rattle.std.specs.List.{list_all, All};
ghost use Rattle.std.specs.Option.{is_some};
ghost use Rattle.sr_cell.specs.declared.table.Table.{Table as TheTable};
ghost use Rattle.sr_message.specs.declared.message.AskPart.{AskPart as TheAskPart};
ghost use Rattle.sr_message.specs.declared.message.Message.TheVariants.{Notice, Lapse, Reply};
ghost use Rattle.sr_model.specs.Queries.{Query as TheQuery};
ghost use Rattle.sr_wire.specs.declared.bad_frame.BadFrame.{BadFrame as TheBadFrame};
ghost use Rattle.sr_store.specs.Stores.{IsStore};
ghost use Rattle.sr_session.specs.Misfits.{misfit};
ghost use Rattle.sr_session.specs.Regions.{after_message, after_messages};
ghost use Rattle.sr_session.specs.Rules.{is_given_up};
ghost use Rattle.sr_session.specs.Walks.{IsLaid, has_lapse, is_lapse};
ghost use Rattle.sr_client.specs.declared.steps.Took.TheVariants.{Bad};
ghost use Rattle.sr_client.specs.Asking.{whole_asks};
ghost use Rattle.sr_client.specs.Arriving.{arrivals_of, more_at, unfilled, with_message, with_messages};
ghost use Rattle.sr_client.specs.Laying.{TellsRows, asking, with_brought};
ghost use Rattle.sr_client.specs.Sends.{TookSendsWell};
ghost use Rattle.sr_client.specs.Stands.{Stands, Stays, KeepsNumbers, IsFit, cuts_down, drawn, given_up, out_of};
ghost use Rattle.sr_client.specs.Steps.{Takes, is_bad};

use crate::answer::answer;
use crate::asks::whole_asks;
use crate::client::{AskOut, Client, Request};
use crate::laid::Laid;
use crate::misfit::misfit;
use crate::steps::Took;
use crate::values::{know_messages, know_told};
use sr_cell::cause::Cause;
use sr_cell::cell::Rows;
use sr_cell::list::{Copied, NoMemory, Seq};
use sr_cell::schema::Schema;
use sr_message::message::{AskPart, Message, Tell};
use sr_store::store::{Arrival, Arrivals};
use std::alloc::Global;
use std::mem;

impl Client {
    /// Takes a message of the server. It is refused just where it does not fit what was asked, what was laid by, the client's
    /// version or the schema. After that, and when memory ran out, the client holds nothing, and is cut; nothing else has changed.
    pub fn take(&mut self, alloc: Global, message: Message) -> Result<Took, NoMemory>
        requires stands { Stands self.old }
        requires room { drawn self.old + 2 < 2 ^ 63 }
        ensures bad { (why : TheBadFrame) (meaning : TheQuery) → IfOk result (λ took. took ≡ Bad why ↔ misfit self.old.schema (out_of meaning self.old.out) self.old.laid self.old.version message ≡ Some why) }
        ensures takes { IfOk result (Takes self.old message self.new) }
        ensures stands { Stands self.new }
        ensures version { self.old.version ≤ self.new.version }
        ensures sends { IfOk result (TookSendsWell self.old.schema self.old.id) }
        ensures nothing_left { OnErr result (self.new ≡ given_up self.old (cuts_down self.old)) }
        ensures bad_left { IfOk result (λ took. is_bad took ≡ true → self.new ≡ given_up self.old (cuts_down self.old)) }
        ensures stays { Stays self.old self.new }
        ensures drawn { drawn self.new ≤ drawn self.old + 2 }
        ensures once { self.new.cuts ≤ self.old.cuts + 1 }
    {
        let why = misfit(
            self.schema.as_slice(),
            &self.out,
            &self.laid,
            self.version,
            &message,
        );
        match why {
            Some(why) => {
                drop(message);
                self.give_up(alloc);
                Ok(Took::Bad(why))
            }
            None => self.take_fit(alloc, message),
        }
    }

    /// Takes a message against which nothing stands.
    fn take_fit(&mut self, alloc: Global, message: Message) -> Result<Took, NoMemory>
        requires stands { Stands self.old }
        requires room { drawn self.old + 2 < 2 ^ 63 }
        requires fit { IsFit self.old message }
        ensures good { IfOk result (λ took. is_bad took ≡ false) }
        ensures takes { IfOk result (Takes self.old message self.new) }
        ensures stands { Stands self.new }
        ensures version { self.old.version ≤ self.new.version }
        ensures sends { IfOk result (TookSendsWell self.old.schema self.old.id) }
        ensures nothing_left { OnErr result (self.new ≡ given_up self.old (cuts_down self.old)) }
        ensures stays { Stays self.old self.new }
        ensures drawn { drawn self.new ≤ drawn self.old + 2 }
        ensures once { self.new.cuts ≤ self.old.cuts + 1 }
    {
        match self.take_one(alloc, message) {
            Ok(took) => Ok(took),
            Err(no) => {
                self.give_up(alloc);
                Err(no)
            }
        }
    }

    fn take_one(&mut self, alloc: Global, message: Message) -> Result<Took, NoMemory>
        requires stands { Stands self.old }
        requires room { drawn self.old + 2 < 2 ^ 63 }
        requires fit { IsFit self.old message }
        ensures good { IfOk result (λ took. is_bad took ≡ false) }
        ensures takes { IfOk result (Takes self.old message self.new) }
        ensures version { self.old.version ≤ self.new.version }
        ensures sends { IfOk result (TookSendsWell self.old.schema self.old.id) }
        ensures stays { Stays self.old self.new }
        ensures drawn { drawn self.new ≤ drawn self.old + 2 }
        ensures cuts { self.new.cuts ≡ self.old.cuts }
        ensures numbers_left { OnErr result (KeepsNumbers self.old self.new) }
    {
        if self.out.is_some() {
            self.take_while_out(alloc, message)
        } else {
            self.take_at_rest(alloc, message)
        }
    }

    // ---- while nothing is out

    /// Takes a notice or a Lapse while nothing is out.
    fn take_at_rest(&mut self, alloc: Global, message: Message) -> Result<Took, NoMemory>
        requires stands { Stands self.old }
        requires idle { self.old.out ≡ None }
        requires fit { IsFit self.old message }
        ensures good { IfOk result (λ took. is_bad took ≡ false) }
        ensures takes { IfOk result (Takes self.old message self.new) }
        ensures version { self.old.version ≤ self.new.version }
        ensures sends { IfOk result (TookSendsWell self.old.schema self.old.id) }
        ensures stays { Stays self.old self.new }
        ensures drawn { drawn self.new ≡ drawn self.old }
        ensures cuts { self.new.cuts ≡ self.old.cuts }
        ensures numbers_left { OnErr result (KeepsNumbers self.old self.new) }
    {
        match message {
            Message::Notice { version, told } => self.apply(alloc, version, told.as_slice()),
            Message::Lapse { version } => self.forget(alloc, version),
            _ => unreachable!(),
        }
    }

    /// Applies a notice, and drops what the limits demand then.
    fn apply(&mut self, alloc: Global, version: u64, told: &[Tell]) -> Result<Took, NoMemory>
        requires stands { Stands self.old }
        requires idle { self.old.out ≡ None }
        requires fit { IsFit self.old (Notice version told.now) }
        ensures good { IfOk result (λ took. is_bad took ≡ false) }
        ensures takes { IfOk result (Takes self.old (Notice version told.now) self.new) }
        ensures version { self.old.version ≤ self.new.version }
        ensures sends { IfOk result (TookSendsWell self.old.schema self.old.id) }
        ensures stays { Stays self.old self.new }
        ensures drawn { drawn self.new ≡ drawn self.old }
        ensures cuts { self.new.cuts ≡ self.old.cuts }
        ensures numbers_left { OnErr result (KeepsNumbers self.old self.new) }
    {
        know_told(told);
        self.store.apply(alloc, told)?;
        let marks = self.store.fit(alloc, &self.schema)?;
        self.version = version;
        Ok(Took::Applied { version, marks })
    }

    /// Drops all, since what changed up to that version cannot be told.
    fn forget(&mut self, alloc: Global, version: u64) -> Result<Took, NoMemory>
        requires stands { Stands self.old }
        requires idle { self.old.out ≡ None }
        requires fit { IsFit self.old (Lapse version) }
        ensures good { IfOk result (λ took. is_bad took ≡ false) }
        ensures takes { IfOk result (Takes self.old (Lapse version) self.new) }
        ensures version { self.old.version ≤ self.new.version }
        ensures sends { IfOk result (TookSendsWell self.old.schema self.old.id) }
        ensures stays { Stays self.old self.new }
        ensures drawn { drawn self.new ≡ drawn self.old }
        ensures cuts { self.new.cuts ≡ self.old.cuts }
        ensures numbers_left { OnErr result (KeepsNumbers self.old self.new) }
    {
        let marks = self.store.drop_all(alloc, Cause::Lapsed)?;
        self.version = version;
        Ok(Took::Forgot { version, marks })
    }

    // ---- while a request is out

    /// While a request is out, what comes before its last message is laid by.
    fn take_while_out(&mut self, alloc: Global, message: Message) -> Result<Took, NoMemory>
        requires stands { Stands self.old }
        requires out { IsTrue (is_some self.old.out) }
        requires room { drawn self.old + 2 < 2 ^ 63 }
        requires fit { IsFit self.old message }
        ensures good { IfOk result (λ took. is_bad took ≡ false) }
        ensures takes { IfOk result (Takes self.old message self.new) }
        ensures version { self.old.version ≤ self.new.version }
        ensures sends { IfOk result (TookSendsWell self.old.schema self.old.id) }
        ensures stays { Stays self.old self.new }
        ensures drawn { drawn self.new ≤ drawn self.old + 2 }
        ensures cuts { self.new.cuts ≡ self.old.cuts }
        ensures numbers_left { OnErr result (KeepsNumbers self.old self.new) }
    {
        match message {
            Message::Reply { number, version } => self.reply(alloc, number, version),
            Message::Written { number, version } => self.written(alloc, number, version),
            Message::Refused { number, fault } => self.refused(alloc, number, fault),
            Message::Welcome {
                number,
                version,
                kept,
            } => self.welcome(alloc, number, version, kept),
            _ => self.lay_by(message),
        }
    }

    fn lay_by(&mut self, message: Message) -> Result<Took, NoMemory>
        requires stands { Stands self.old }
        requires out { IsTrue (is_some self.old.out) }
        requires fit { IsFit self.old message }
        requires laid { IsLaid message }
        ensures good { IfOk result (λ took. is_bad took ≡ false) }
        ensures takes { IfOk result (Takes self.old message self.new) }
        ensures version { self.new.version ≡ self.old.version }
        ensures sends { IfOk result (TookSendsWell self.old.schema self.old.id) }
        ensures stays { Stays self.old self.new }
        ensures drawn { drawn self.new ≡ drawn self.old }
        ensures cuts { self.new.cuts ≡ self.old.cuts }
        ensures numbers_left { OnErr result (KeepsNumbers self.old self.new) }
    {
        self.laid.push(message)?;
        Ok(Took::Laid)
    }

    /// Takes the reply of the ask that is out. Where a Lapse was laid by, the rows are given up, unless nothing was held when they
    /// were asked.
    fn reply(&mut self, alloc: Global, number: u64, version: u64) -> Result<Took, NoMemory>
        requires stands { Stands self.old }
        requires out { IsTrue (is_some self.old.out) }
        requires room { drawn self.old + 2 < 2 ^ 63 }
        requires fit { IsFit self.old (Reply number version) }
        ensures good { IfOk result (λ took. is_bad took ≡ false) }
        ensures takes { IfOk result (Takes self.old (Reply number version) self.new) }
        ensures version { self.old.version ≤ self.new.version }
        ensures sends { IfOk result (TookSendsWell self.old.schema self.old.id) }
        ensures stays { Stays self.old self.new }
        ensures drawn { drawn self.new ≤ drawn self.old + 2 }
        ensures cuts { self.new.cuts ≡ self.old.cuts }
        ensures numbers_left { OnErr result (KeepsNumbers self.old self.new) }
    {
        match self.out.take() {
            Some(Request::Ask(out)) => {
                if is_given_up(out.fresh, self.laid.as_slice()) {
                    self.ask_again(alloc, out, number, version)
                } else {
                    let took = self.finish(alloc, &out, number, version);
                    drop(out);
                    took
                }
            }
            _ => unreachable!(),
        }
    }

    /// Answers the query of the ask that was out, once what was laid by is applied.
    fn finish(
        &mut self,
        alloc: Global,
        out: &AskOut,
        number: u64,
        version: u64,
    ) -> Result<Took, NoMemory>
        requires stands { Stands (asking self.old out.now) }
        requires fit { IsFit (asking self.old out.now) (Reply number version) }
        requires taken { self.old.out ≡ None }
        requires whole { is_given_up out.now.fresh self.old.laid ≡ false }
        ensures good { IfOk result (λ took. is_bad took ≡ false) }
        ensures takes { IfOk result (Takes (asking self.old out.now) (Reply number version) self.new) }
        ensures version { self.old.version ≤ self.new.version }
        ensures sends { IfOk result (TookSendsWell self.old.schema self.old.id) }
        ensures stays { Stays self.old self.new }
        ensures drawn { drawn self.new ≡ drawn self.old }
        ensures cuts { self.new.cuts ≡ self.old.cuts }
        ensures numbers_left { OnErr result (KeepsNumbers self.old self.new) }
    {
        know_messages(self.laid.as_slice());
        let arrivals = self.bring(alloc, out)?;
        let rows = answer(
            alloc,
            &out.query,
            self.store.regions.as_slice(),
            arrivals.as_slice(),
        )?;
        let marks = self.store.answered(
            alloc,
            &self.schema,
            out.query_number,
            out.query.parts.as_slice(),
            arrivals,
        )?;
        self.version = version;
        Ok(Took::Answered {
            query: out.query_number,
            version,
            rows,
            marks,
        })
    }

    /// Applies what was laid by, in order. Answers what was asked, with the rows that came.
    #[tactic(auto, using(crate::proofs::ArriveLemmas::arrivals_are))]
    fn bring(&mut self, alloc: Global, out: &AskOut) -> Result<Arrivals, NoMemory>
        requires stands { Stands (asking self.old out.now) }
        requires tells { All (TellsRows self.old.schema) self.old.laid }
        ensures brought { OnOk result (self.new ≡ with_brought self.old) }
        ensures arrivals { IfOk result (λ arrivals. arrivals ≡ arrivals_of self.old.schema out.now.parts self.old.laid) }
        ensures version { self.new.version ≡ self.old.version }
        ensures numbers { KeepsNumbers self.old self.new }
        ensures stays { Stays self.old self.new }
        ensures drawn { drawn self.new ≡ drawn self.old }
        ensures cuts { self.new.cuts ≡ self.old.cuts }
    {
        let mut arrivals = arrivals_of(alloc, &self.schema, out.parts.as_slice())?;
        let laid = mem::replace(&mut self.laid, Laid::new(alloc));
        self.apply_laid(alloc, arrivals.as_mut_slice(), laid)?;
        Ok(Seq::from_vec(arrivals))
    }

    /// Applies messages that were laid by: rows are put behind those that arrived of their part.
    pub(crate) fn apply_laid(
        &mut self,
        alloc: Global,
        arrivals: &mut [Arrival],
        laid: Laid,
    ) -> Result<(), NoMemory>
        requires { (schema : List TheTable) × IsStore schema self.old.store.regions × All (TellsRows schema) laid }
        ensures arrivals { OnOk result (arrivals.new ≡ with_messages laid arrivals.old) }
        ensures applied { OnOk result (self.new.store.regions ≡ after_messages laid self.old.store.regions) }
        ensures rest { self.new ≡ record self.old { store = record self.old.store { regions = self.new.store.regions } } }
    {
        for message in laid.into_vec() {
            self.apply_one(alloc, arrivals, message)?;
        }
        Ok(())
    }

    /// Applies a message that was laid by: a notice is told to the regions, a Lapse drops them, and rows are put behind those that
    /// arrived of their part.
    fn apply_one(
        &mut self,
        alloc: Global,
        arrivals: &mut [Arrival],
        message: Message,
    ) -> Result<(), NoMemory>
        requires { (schema : List TheTable) × IsStore schema self.old.store.regions × TellsRows schema message }
        ensures arrivals { OnOk result (arrivals.new ≡ with_message message arrivals.old) }
        ensures applied { OnOk result (self.new.store.regions ≡ after_message message self.old.store.regions) }
        ensures store { (schema : List TheTable) → OnOk result (IsStore schema self.old.store.regions → TellsRows schema message → IsStore schema self.new.store.regions) }
        ensures rest { self.new ≡ record self.old { store = record self.old.store { regions = self.new.store.regions } } }
    {
        match message {
            Message::Notice { told, .. } => self.store.apply(alloc, told.as_slice()),
            Message::Lapse { .. } => {
                self.store.forget(alloc);
                Ok(())
            }
            Message::Rows { part, rows, .. } => add_rows(arrivals, part as usize, rows),
            _ => Ok(()),
        }
    }

    /// Drops all, and asks for the whole of the query once more, under the next number.
    fn ask_again(
        &mut self,
        alloc: Global,
        out: AskOut,
        number: u64,
        version: u64,
    ) -> Result<Took, NoMemory>
        requires stands { Stands (asking self.old out) }
        requires fit { IsFit (asking self.old out) (Reply number version) }
        requires again { is_given_up out.fresh self.old.laid ≡ true }
        requires room { drawn self.old + 2 < 2 ^ 63 }
        ensures good { IfOk result (λ took. is_bad took ≡ false) }
        ensures takes { IfOk result (Takes (asking self.old out) (Reply number version) self.new) }
        ensures version { self.old.version ≤ self.new.version }
        ensures sends { IfOk result (TookSendsWell self.old.schema self.old.id) }
        ensures stays { Stays self.old self.new }
        ensures drawn { drawn self.new ≤ drawn self.old + 2 }
        ensures cuts { self.new.cuts ≡ self.old.cuts }
        ensures numbers_left { OnErr result (KeepsNumbers self.old self.new) }
    {
        let request = self.next_request;
        let marks = match self.store.drop_all(alloc, Cause::Lapsed) {
            Ok(marks) => marks,
            Err(no) => {
                drop(out);
                return Err(no);
            }
        };
        let second = second_ask(alloc, out, request)?;
        let message = self.put_out(alloc, second)?;
        self.version = version;
        self.laid = Laid::new(alloc);
        Ok(Took::Asked {
            request,
            message,
            marks,
        })
    }
}

/// The ask of the whole of the same query, with that number. It is fresh, since nothing is held then.
fn second_ask(alloc: Global, out: AskOut, number: u64) -> Result<AskOut, NoMemory>
    ensures { IfOk result (λ second. second ≡ record { number = number; query_number = out.query_number; query = out.query; fresh = true; parts = whole_asks out.query.parts }) }
{
    match whole_asks(alloc, out.query.parts.as_slice()) {
        Ok(parts) => Ok(AskOut {
            number,
            query_number: out.query_number,
            query: out.query,
            fresh: true,
            parts,
        }),
        Err(no) => {
            drop(out);
            Err(no)
        }
    }
}

/// Whether the rows that came are given up: a Lapse was laid by, under an ask that is not fresh.
fn is_given_up(fresh: bool, laid: &[Message]) -> bool
    ensures { result ≡ is_given_up fresh laid.now }
{
    !fresh && has_lapse(laid)
}

/// Whether a Lapse is among the messages.
pub(crate) fn has_lapse(messages: &[Message]) -> bool
    ensures { result ≡ has_lapse messages.now }
{
    for message in messages {
        if is_lapse(message) {
            return true;
        }
    }
    false
}

fn is_lapse(message: &Message) -> bool
    ensures { result ≡ is_lapse message.now }
{
    matches!(message, Message::Lapse { .. })
}

/// Puts the rows behind those that arrived of that part, if it was asked.
fn add_rows(arrivals: &mut [Arrival], part: usize, rows: Rows) -> Result<(), NoMemory>
    ensures { OnOk result (arrivals.new ≡ more_at part rows arrivals.old) }
{
    if part < arrivals.len() {
        arrivals[part].rows.append(rows)?;
    }
    Ok(())
}

/// What was asked, without rows yet.
fn arrivals_of(alloc: Global, schema: &Schema, asks: &[AskPart]) -> Result<Vec<Arrival>, NoMemory>
    requires tables { IsTrue (list_all (λ (ask : TheAskPart). nat_lt ask.table (length schema.now)) asks.now) }
    ensures { IfOk result (λ arrivals. arrivals.items ≡ map (unfilled schema.now) asks.now) }
{
    let mut arrivals = Vec::new(alloc);
    for ask in asks {
        arrivals.push(arrival_of(alloc, schema, ask)?)?;
    }
    Ok(arrivals)
}

/// What was asked of a table, without rows yet.
fn arrival_of(alloc: Global, schema: &Schema, ask: &AskPart) -> Result<Arrival, NoMemory>
    requires table { ask.now.table < length schema.now }
    ensures { IfOk result (λ arrival. arrival ≡ unfilled schema.now ask.now) }
{
    Ok(Arrival {
        table: ask.table,
        key: schema.as_slice()[ask.table as usize].key,
        attrs: ask.attrs,
        rects: ask.rects.copy(alloc)?,
        rows: Seq::new(alloc),
    })
}
