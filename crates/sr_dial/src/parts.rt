//! A client by its contract.
ghost use Rattle.std.specs.Prelude.{◌≡◌, ◌≤◌, ◌+◌, ℕ, [], Option as Maybe, Result, IfOk, option_copied};
ghost use Rattle.std.specs.List.{All};
ghost use Rattle.std.specs.Option.{is_some};
ghost use Rattle.sr_cell.specs.declared.fault.Fault.{Fault as TheFault};
ghost use Rattle.sr_cell.specs.declared.table.Table.{Table as TheTable};
ghost use Rattle.sr_model.specs.Queries.{Query as TheQuery};
ghost use Rattle.sr_model.specs.Statements.{Tables};
ghost use Rattle.sr_reader.specs.Read.{Means};
ghost use Rattle.sr_session.specs.Clients.{Client as Past};
ghost use Rattle.sr_wire.specs.Limits.{IsSendable};
ghost use Rattle.sr_wire.specs.Spelling.{has_spelling};
ghost use Rattle.sr_links.specs.Steps.{Deed, WasCut};
ghost use Rattle.sr_dial.specs.Known.{IsDeed, Makes, MaySend, Setting, TakesAs, Tells};
ghost use Rattle.sr_dial.specs.declared.parts.Answer.{Answer as TheAnswer};

use sr_cell::cell::Rows;
use sr_cell::fault::Fault;
use sr_cell::list::NoMemory;
use sr_links::laws::{Hearer, Peer};
use sr_message::message::{Message, Messages};
use sr_query::query::Query;
use sr_reader::script::Event;
use sr_script::line::TraceLines;
use sr_wire::bad_frame::BadFrame;
use std::alloc::Global;

/// The lines of a step, and the message that goes to the server with it, if there is one.
#[derive(Drop)]
pub struct Told {
    pub lines: TraceLines,
    pub sent: Messages,
}

/// The answer of a query: the version that it names, and its rows.
#[derive(Drop)]
pub struct Answer {
    pub version: u64,
    pub rows: Rows,
}

/// What came of a message: it was taken, or it must be refused.
#[derive(Drop)]
pub enum Came {
    Taken(Told),
    Bad(BadFrame),
}

/// A client, as its side of a connection sees it.
pub trait Asks: Peer + Hearer {
    /// It stands for this past, on any link.
    ghost stands: { Self → Past → Type 0 };

    /// What it knows, which no step changes.
    ghost setting: { Self → Setting };

    /// The answer that it lends: that of its last step, if this had one and its setting keeps answers.
    ghost lent: { Self → Maybe TheAnswer };

    /// How many numbers it can draw still; a step draws two at most.
    ghost room: { Self → ℕ };

    /// Whether a request is out.
    fn is_waiting(&self) -> bool
        ensures { (c : Past) → stands self.now c → result ≡ is_some c.out };

    /// Whether the run writes its lines.
    fn says(&self) -> bool
        ensures { result ≡ (setting self.now).says };

    /// Lends the answer of the last step.
    fn answer(&self) -> Option<&Answer>
        ensures { option_copied result ≡ lent self.now };

    /// Does what a line of a script asks of it.
    fn act(&mut self, alloc: Global, event: Event) -> Result<Told, NoMemory>
        requires asks { (deed : Deed) × IsDeed (setting self.old).schema event deed }
        requires room { 2 ≤ room self.old }
        ensures made { (c : Past) (deed : Deed) → stands self.old c → IsDeed (setting self.old).schema event deed
            → IfOk result (λ told. Makes stands lent Self.is_of Self.has_told (setting self.old) self.old self.new c deed told.lines told.sent) }
        ensures sendable { IfOk result (λ told. All IsSendable told.sent) }
        ensures setting { setting self.new ≡ setting self.old }
        ensures draws { room self.old ≤ room self.new + 2 };

    /// Explains how it would answer a query, or why its text is refused. Answers the lines.
    fn explain(&self, alloc: Global, query: Result<Query, Fault>) -> Result<TraceLines, NoMemory>
        requires means { (text : Result TheQuery TheFault) × Means (setting self.now).schema query text }
        ensures told { (c : Past) (text : Result TheQuery TheFault) → stands self.now c → Means (setting self.now).schema query text
            → IfOk result (Tells Self.is_of (setting self.now) self.now c text) };

    /// Takes a message of the server.
    fn take(&mut self, alloc: Global, message: Message) -> Result<Came, NoMemory>
        requires room { 2 ≤ room self.old }
        ensures sendable { IfOk result MaySend }
        ensures taken { (c : Past) → stands self.old c
            → IfOk result (λ came. TakesAs came stands lent Self.is_of Self.has_told (setting self.old) self.old self.new c message) }
        ensures setting { setting self.new ≡ setting self.old }
        ensures draws { room self.old ≤ room self.new + 2 };

    /// The link was cut. Answers the lines; takes no memory but for these.
    fn cut(&mut self, alloc: Global) -> Result<TraceLines, NoMemory>
        requires room { 2 ≤ room self.old }
        ensures made { (c : Past) → stands self.old c
            → IfOk result (λ lines. Makes stands lent Self.is_of Self.has_told (setting self.old) self.old self.new c WasCut lines []) }
        ensures setting { setting self.new ≡ setting self.old }
        ensures draws { room self.old ≤ room self.new + 2 };
}
