//! What a client does, with the lines of each step and the message that goes to the server with it.
ghost use Rattle.std.specs.Prelude.{◌≡◌, ◌<◌, ◌≤◌, ◌+◌, ◌^◌, ℕ, Bool, List, [], ◌∷◌, length, Result, Ok, Err, option_to_list, IfOk};
ghost use Rattle.std.specs.List.{All};
ghost use Rattle.sr_cell.specs.declared.fault.Fault.{Fault as TheFault};
ghost use Rattle.sr_history.specs.declared.mark.Mark.{Mark};
ghost use Rattle.sr_model.specs.Queries.{Query as TheQuery};
ghost use Rattle.sr_reader.specs.Read.{Means};
ghost use Rattle.sr_script.specs.declared.line.TraceLine.TheVariants.{QuerySql};
ghost use Rattle.sr_session.specs.Clients.{Client as Past};
ghost use Rattle.sr_wire.specs.Limits.{IsSendable};
ghost use Rattle.sr_links.specs.Steps.{Deed, Evicted, Queried, Resumed, WasCut, Wrote};
ghost use Rattle.sr_client.specs.Bound.{IsMeaning};
ghost use Rattle.sr_explain.specs.Telling.{explain_lines};
ghost use Rattle.sr_session.specs.Rules.{Answered, Outcome};
ghost use Rattle.sr_client.specs.Stands.{StandsFor, Stays};
ghost use Rattle.sr_client.specs.Steps.{SaysQuery, SaysTook};
ghost use Rattle.sr_dial.specs.Following.{answer_of};
ghost use Rattle.sr_dial.specs.Known.{IsDeed, MaySend};
ghost use Rattle.sr_calls.specs.ClientEnds.{Did, DidExplain, DidTake, IsReady, done_of, room_of, silent};

use sr_cell::cell::Rows;
use sr_cell::fault::Fault;
use sr_cell::list::{Copied, NoMemory, Seq};
use sr_client::client::Client;
use sr_client::steps::{QueryStep, Took};
use sr_dial::parts::{Answer, Came, Told};
use sr_message::message::{Message, Messages};
use sr_query::query::Query;
use sr_reader::script::Event;
use sr_script::line::{TraceLine, TraceLines};
use sr_world::lines::{
    Told as Lines, lines_of_cut, lines_of_evict, lines_of_explain, told_of_query, told_of_resume,
    told_of_took, told_of_write,
};
use std::alloc::Global;

/// What a step comes to: its lines with what is sent, and its answer, where it has one and answers are kept.
#[derive(Drop)]
pub struct Done {
    pub told: Told,
    pub answer: Option<Answer>,
}

/// What comes of a message, and its answer, where it has one and answers are kept.
#[derive(Drop)]
pub struct Taken {
    pub came: Came,
    pub answer: Option<Answer>,
}

/// Does what a line of a script asks of a client, where that is no explanation. Other events ask nothing of it.
pub(crate) fn act(
    alloc: Global,
    client: &mut Client,
    keeps: bool,
    event: Event,
) -> Result<Done, NoMemory>
    requires ready { IsReady client.old }
    requires asks { (deed : Deed) × IsDeed client.old.schema event deed }
    requires room { 2 ≤ room_of client.old }
    ensures made { (c : Past) (deed : Deed) → StandsFor c client.old → IsDeed client.old.schema event deed
        → IfOk result (Did keeps client.old client.new c deed) }
    ensures sendable { IfOk result (λ done. All IsSendable done.told.sent) }
    ensures ready { IsReady client.new }
    ensures stays { Stays client.old client.new }
    ensures draws { room_of client.old ≤ room_of client.new + 2 }
{
    match event {
        Event::Query { query, .. } => ask(alloc, client, keeps, query),
        Event::Write { sql, .. } => write(alloc, client, sql.as_str()),
        Event::Evict { place, .. } => evict(alloc, client, place as usize),
        Event::Cut { .. } => {
            let lines = cut(alloc, client)?;
            Ok(quiet(alloc, lines))
        }
        Event::Resume { .. } => resume(alloc, client),
        _ => Ok(quiet(alloc, Seq::new(alloc))),
    }
}

/// Judges a query, or refuses its text.
fn ask(
    alloc: Global,
    client: &mut Client,
    keeps: bool,
    query: Result<Query, Fault>,
) -> Result<Done, NoMemory>
    requires ready { IsReady client.old }
    requires asks { (meaning : Result TheQuery TheFault) × Means client.old.schema query meaning }
    requires room { 2 ≤ room_of client.old }
    ensures made { (c : Past) (meaning : Result TheQuery TheFault) → StandsFor c client.old → Means client.old.schema query meaning
        → IfOk result (Did keeps client.old client.new c (Queried meaning)) }
    ensures sendable { IfOk result (λ done. All IsSendable done.told.sent) }
    ensures ready { IsReady client.new }
    ensures stays { Stays client.old client.new }
    ensures draws { room_of client.old ≤ room_of client.new + 2 }
{
    match query {
        Ok(query) => judge(alloc, client, keeps, query),
        Err(fault) => refuse(alloc, client.id, fault),
    }
}

/// The text of a query is refused.
fn refuse(alloc: Global, client: u8, fault: Fault) -> Result<Done, NoMemory>
    ensures { IfOk result (λ done. done ≡ silent (QuerySql client fault ∷ [])) }
{
    let mut lines = Seq::new(alloc);
    lines.push(TraceLine::QuerySql { client, fault })?;
    Ok(quiet(alloc, lines))
}

/// Judges a query.
#[tactic(auto, using(crate::proofs::Kept::format_stays, crate::proofs::Kept::room_falls))]
fn judge(alloc: Global, client: &mut Client, keeps: bool, query: Query) -> Result<Done, NoMemory>
    requires ready { IsReady client.old }
    requires meant { (meaning : TheQuery) × IsMeaning client.old.schema query meaning }
    requires room { 2 ≤ room_of client.old }
    ensures made { (c : Past) (meaning : TheQuery) → StandsFor c client.old → IsMeaning client.old.schema query meaning
        → IfOk result (Did keeps client.old client.new c (Queried (Ok meaning))) }
    ensures sendable { IfOk result (λ done. All IsSendable done.told.sent) }
    ensures ready { IsReady client.new }
    ensures stays { Stays client.old client.new }
    ensures draws { room_of client.old ≤ room_of client.new + 2 }
{
    let id = client.id;
    let step = client.query(alloc, query)?;
    let answer = answer_of_query(alloc, keeps, &step)?;
    let lines = told_of_query(alloc, id, step)?;
    done_with(alloc, lines, answer)
}

/// Sends the text of a write, unless it is too long.
#[tactic(auto, using(crate::proofs::Kept::format_stays, crate::proofs::Kept::room_falls))]
fn write(alloc: Global, client: &mut Client, sql: &str) -> Result<Done, NoMemory>
    requires ready { IsReady client.old }
    requires room { 2 ≤ room_of client.old }
    ensures made { (keeps : Bool) (c : Past) → StandsFor c client.old → IfOk result (Did keeps client.old client.new c (Wrote sql.now)) }
    ensures sendable { IfOk result (λ done. All IsSendable done.told.sent) }
    ensures ready { IsReady client.new }
    ensures stays { Stays client.old client.new }
    ensures draws { room_of client.old ≤ room_of client.new + 2 }
{
    let id = client.id;
    let step = client.write(alloc, sql)?;
    let lines = told_of_write(alloc, id, step)?;
    done_with(alloc, lines, None)
}

/// Drops the class of that place.
#[tactic(auto, using(crate::proofs::Kept::format_stays, crate::proofs::Kept::room_falls))]
fn evict(alloc: Global, client: &mut Client, place: usize) -> Result<Done, NoMemory>
    requires ready { IsReady client.old }
    ensures made { (keeps : Bool) (c : Past) → StandsFor c client.old → IfOk result (Did keeps client.old client.new c (Evicted place)) }
    ensures sendable { IfOk result (λ done. All IsSendable done.told.sent) }
    ensures ready { IsReady client.new }
    ensures stays { Stays client.old client.new }
    ensures draws { room_of client.old ≤ room_of client.new + 2 }
{
    let id = client.id;
    let step = client.evict(place);
    let lines = lines_of_evict(alloc, id, step)?;
    Ok(quiet(alloc, lines))
}

/// Begins a session over a cut link.
#[tactic(auto, using(crate::proofs::Kept::format_stays, crate::proofs::Kept::room_falls))]
fn resume(alloc: Global, client: &mut Client) -> Result<Done, NoMemory>
    requires ready { IsReady client.old }
    requires room { 2 ≤ room_of client.old }
    ensures made { (keeps : Bool) (c : Past) → StandsFor c client.old → IfOk result (Did keeps client.old client.new c Resumed) }
    ensures sendable { IfOk result (λ done. All IsSendable done.told.sent) }
    ensures ready { IsReady client.new }
    ensures stays { Stays client.old client.new }
    ensures draws { room_of client.old ≤ room_of client.new + 2 }
{
    let id = client.id;
    let step = client.resume(alloc)?;
    let lines = told_of_resume(alloc, id, step)?;
    done_with(alloc, lines, None)
}

/// The link is cut. Answers the lines.
#[tactic(auto, using(crate::proofs::Kept::format_stays, crate::proofs::Kept::room_falls))]
pub(crate) fn cut(alloc: Global, client: &mut Client) -> Result<TraceLines, NoMemory>
    requires ready { IsReady client.old }
    requires room { 2 ≤ room_of client.old }
    ensures made { (keeps : Bool) (c : Past) → StandsFor c client.old → IfOk result (λ lines. Did keeps client.old client.new c WasCut (silent lines)) }
    ensures ready { IsReady client.new }
    ensures stays { Stays client.old client.new }
    ensures draws { room_of client.old ≤ room_of client.new + 2 }
{
    let id = client.id;
    let step = client.cut(alloc);
    lines_of_cut(alloc, id, step)
}

/// Explains how the client would answer a query, or why its text is refused. Answers the lines.
pub(crate) fn explain(
    alloc: Global,
    client: &Client,
    query: Result<Query, Fault>,
) -> Result<TraceLines, NoMemory>
    requires ready { IsReady client.now }
    requires means { (text : Result TheQuery TheFault) × Means client.now.schema query text }
    ensures told { (c : Past) (text : Result TheQuery TheFault) → StandsFor c client.now → Means client.now.schema query text
        → IfOk result (DidExplain client.now c text) }
{
    match query {
        Ok(query) => explain_query(alloc, client, &query),
        Err(fault) => unexplained(alloc, client.id, fault),
    }
}

/// Explains how the client would answer a query.
fn explain_query(alloc: Global, client: &Client, query: &Query) -> Result<TraceLines, NoMemory>
    requires ready { IsReady client.now }
    requires meant { (meaning : TheQuery) × IsMeaning client.now.schema query.now meaning }
    ensures told { (c : Past) (meaning : TheQuery) → StandsFor c client.now → IsMeaning client.now.schema query.now meaning
        → IfOk result (DidExplain client.now c (Ok meaning)) }
{
    let explanation = client.explain(alloc, query)?;
    lines_of_explain(alloc, client.id, &explanation)
}

/// The text of a query that should be explained is refused.
fn unexplained(alloc: Global, client: u8, fault: Fault) -> Result<TraceLines, NoMemory>
    ensures { IfOk result (λ told. told ≡ explain_lines client (Err fault)) }
{
    let mut told = Seq::new(alloc);
    told.push(TraceLine::ExplainSql { client, fault })?;
    Ok(told)
}

/// Takes a message of the server, or refuses it.
#[tactic(auto, using(crate::proofs::Kept::format_stays, crate::proofs::Kept::room_falls))]
pub(crate) fn take(
    alloc: Global,
    client: &mut Client,
    keeps: bool,
    message: Message,
) -> Result<Taken, NoMemory>
    requires ready { IsReady client.old }
    requires room { 2 ≤ room_of client.old }
    ensures taken { (c : Past) → StandsFor c client.old → IfOk result (DidTake keeps client.old client.new c message) }
    ensures sendable { IfOk result (λ taken. MaySend taken.came) }
    ensures ready { IsReady client.new }
    ensures stays { Stays client.old client.new }
    ensures draws { room_of client.old ≤ room_of client.new + 2 }
{
    let id = client.id;
    let took = client.take(alloc, message)?;
    match took {
        Took::Bad(why) => Ok(Taken {
            came: Came::Bad(why),
            answer: None,
        }),
        took => {
            let answer = answer_of_took(alloc, keeps, &took)?;
            let lines = told_of_took(alloc, id, took)?;
            let done = done_with(alloc, lines, answer)?;
            Ok(Taken {
                came: Came::Taken(done.told),
                answer: done.answer,
            })
        }
    }
}

/// The answer of a query's step, where it has one and answers are kept.
fn answer_of_query(alloc: Global, keeps: bool, step: &QueryStep) -> Result<Option<Answer>, NoMemory>
    ensures { (past : Past) (o : Outcome) → SaysQuery past step.now o → IfOk result (λ answer. answer ≡ answer_of keeps o) }
{
    match step {
        QueryStep::Answered { version, rows, .. } => kept(alloc, keeps, *version, rows),
        _ => Ok(None),
    }
}

/// The answer that comes of a message, where it has one and answers are kept.
fn answer_of_took(alloc: Global, keeps: bool, took: &Took) -> Result<Option<Answer>, NoMemory>
    ensures { (o : Outcome) → SaysTook took.now o → IfOk result (λ answer. answer ≡ answer_of keeps o) }
{
    match took {
        Took::Answered { version, rows, .. } => kept(alloc, keeps, *version, rows),
        _ => Ok(None),
    }
}

/// An answer of these rows, if answers are kept.
fn kept(alloc: Global, keeps: bool, version: u64, rows: &Rows) -> Result<Option<Answer>, NoMemory>
    ensures { (query : ℕ) (marks : List Mark) → IfOk result (λ answer. answer ≡ answer_of keeps (Answered query version rows.now marks)) }
{
    if !keeps {
        return Ok(None);
    }
    let rows = rows.copy(alloc)?;
    Ok(Some(Answer { version, rows }))
}

/// Lines with nothing that is sent, and no answer.
fn quiet(alloc: Global, lines: TraceLines) -> Done
    ensures { result ≡ silent lines }
{
    Done {
        told: Told {
            lines,
            sent: Seq::new(alloc),
        },
        answer: None,
    }
}

/// Lines with what is sent, and an answer.
fn done_with(alloc: Global, lines: Lines, answer: Option<Answer>) -> Result<Done, NoMemory>
    ensures { IfOk result (λ done. done ≡ done_of lines answer) }
{
    let Lines { lines, sent } = lines;
    let sent = list_of(alloc, sent)?;
    Ok(Done {
        told: Told { lines, sent },
        answer,
    })
}

fn list_of(alloc: Global, message: Option<Message>) -> Result<Messages, NoMemory>
    ensures { IfOk result (λ messages. messages ≡ option_to_list message) }
{
    let mut messages = Seq::new(alloc);
    if let Some(message) = message {
        messages.push(message)?;
    }
    Ok(messages)
}
