//! A run of `client`.
ghost use Rattle.std.specs.Prelude.{◌≡◌, ◌≢◌, ◌≤◌, ◌+◌, ◌*◌, None, IfOk, if◌then◌else◌};
ghost use Rattle.sr_dial.specs.Clauses.{AwaitsOff, EndsFailed, EndsFirst, EndsHanded, EndsJob, FailedOff, FirstOff, GoesOnOff, GoesOnWith, HandedOff, JobOff, LineOff, PlanOff, RunsAll, RunsFrom, RunsOff, Settles, StartsJob, StartsLine};
ghost use Rattle.sr_dial.specs.Calls.{Task};
ghost use Rattle.sr_dial.specs.Following.{Ahead};
ghost use Rattle.sr_dial.specs.Jobs.{IsJob};
ghost use Rattle.sr_talk.specs.Rounds.{OnlyOutput};
ghost use Rattle.sr_dial.specs.Known.{IsTask};
ghost use Rattle.sr_dial.specs.declared.ending.Ending.TheVariants.{Whole as EndsWhole, Faulty as EndsFaulty, Unwritten as EndsUnwritten};
ghost use Rattle.sr_dial.specs.declared.steps.Handed.TheVariants.{Unwritten as HandedUnwritten};
ghost use Rattle.sr_dial.specs.declared.run.LineEnd.TheVariants.{Failed as LineFailed, Ends as LineEnds};

use crate::ending::Ending;
use crate::parts::Asks;
use crate::plans::{Job, Plans};
use crate::steps::{Handed, ask, begin, end, fail, tell, write};
use crate::waiting::{Awaited, await_answer};
use sr_cell::list::NoMemory;
use sr_cell::table::Table;
use sr_feed::feed::Feed;
use sr_io::outside::Host;
use sr_reader::script::{Event, EventLine};
use std::alloc::Global;

/// How a line ended: it is done, and the link did not fail; it failed; or the run ends.
#[derive(Clone, Copy)]
pub enum LineEnd {
    Done,
    Failed,
    Ends(Ending),
}

/// Begins a job.
fn start<H: Host, C: Asks>(
    alloc: Global,
    host: &mut H,
    feed: &mut Feed,
    client: &mut C,
    schema: &[Table],
    address: &str,
    job: Job,
) -> Result<Handed, NoMemory>
    requires asks { (task : Task) × IsJob (C.setting client.old).schema job task }
    requires room { 2 ≤ C.room client.old }
    ensures started { StartsJob C.Asks H.linking H.writing H.IsSteady result schema.now address.now job
        host.old host.new feed.old feed.new client.old client.new }
    ensures broken_off { JobOff C.Asks H.linking H.writing H.IsSteady result schema.now address.now job host.old host.new feed.old client.old }
    ensures setting { C.setting client.new ≡ C.setting client.old }
    ensures draws { C.room client.old ≤ C.room client.new + 2 }
    ensures stays { OnlyOutput H H.reading H.held H.complaints H.IsSteady host.old host.new }
    ensures steady_writes { H.IsSteady host.old → IfOk result (λ handed. handed ≢ HandedUnwritten) }
{
    match job {
        Job::Line(line) => start_line(alloc, host, feed, client, schema, address, line),
        Job::Say { number, text } => write(host, client, number, text.as_str()),
    }
}

/// Begins to do what a line asks.
fn start_line<H: Host, C: Asks>(
    alloc: Global,
    host: &mut H,
    feed: &mut Feed,
    client: &mut C,
    schema: &[Table],
    address: &str,
    line: EventLine,
) -> Result<Handed, NoMemory>
    requires asks { (task : Task) × IsTask (C.setting client.old).schema line.event task }
    requires room { 2 ≤ C.room client.old }
    ensures started { StartsLine C.Asks H.linking H.writing H.IsSteady result schema.now address.now line
        host.old host.new feed.old feed.new client.old client.new }
    ensures broken_off { LineOff C.Asks H.linking H.writing H.IsSteady result schema.now address.now line host.old host.new feed.old client.old }
    ensures setting { C.setting client.new ≡ C.setting client.old }
    ensures draws { C.room client.old ≤ C.room client.new + 2 }
    ensures stays { OnlyOutput H H.reading H.held H.complaints H.IsSteady host.old host.new }
    ensures steady_writes { H.IsSteady host.old → IfOk result (λ handed. handed ≢ HandedUnwritten) }
{
    let EventLine { number, event } = line;
    match event {
        Event::Resume { client: id } => begin(
            alloc,
            host,
            feed,
            client,
            schema,
            address,
            number,
            Event::Resume { client: id },
        ),
        Event::Cut { client: id } => end(
            alloc,
            host,
            client,
            schema,
            number,
            Event::Cut { client: id },
        ),
        Event::Explain { query, .. } => tell(alloc, host, client, schema, number, query),
        event => ask(alloc, host, client, schema, number, event),
    }
}

/// Does a job, until nothing is out.
fn run_job<H: Host, C: Asks>(
    alloc: Global,
    host: &mut H,
    feed: &mut Feed,
    client: &mut C,
    schema: &[Table],
    address: &str,
    job: Job,
) -> Result<LineEnd, NoMemory>
    requires asks { (task : Task) × IsJob (C.setting client.old).schema job task }
    requires room { 4000004 ≤ C.room client.old }
    ensures ended { EndsJob C.Asks H.linking H.writing H.IsSteady result schema.now address.now job host.old host.new feed.old feed.new client.old client.new }
    ensures broken_off { JobOff C.Asks H.linking H.writing H.IsSteady result schema.now address.now job host.old host.new feed.old client.old }
    ensures setting { C.setting client.new ≡ C.setting client.old }
    ensures draws { C.room client.old ≤ C.room client.new + 4000004 }
    ensures stays { OnlyOutput H H.reading H.held H.complaints H.IsSteady host.old host.new }
    ensures steady_writes { H.IsSteady host.old → IfOk result (λ end. end ≢ LineEnds EndsUnwritten) }
{
    let number = job.number();
    let handed = start(alloc, host, feed, client, schema, address, job)?;
    finish(alloc, host, feed, client, schema, number, handed)
}

/// Goes on with a line of which this came at first.
fn finish<H: Host, C: Asks>(
    alloc: Global,
    host: &mut H,
    feed: &mut Feed,
    client: &mut C,
    schema: &[Table],
    number: u64,
    handed: Handed,
) -> Result<LineEnd, NoMemory>
    requires room { 4000002 ≤ C.room client.old }
    ensures ended { EndsHanded C.Asks H.linking H.writing H.IsSteady result schema.now number handed host.old host.new feed.old feed.new client.old client.new }
    ensures broken_off { HandedOff C.Asks H.linking H.writing H.IsSteady result schema.now number handed host.old host.new feed.old client.old }
    ensures setting { C.setting client.new ≡ C.setting client.old }
    ensures draws { C.room client.old ≤ C.room client.new + 4000002 }
    ensures stays { OnlyOutput H H.reading H.held H.complaints H.IsSteady host.old host.new }
    ensures steady_writes { H.IsSteady host.old → handed ≢ HandedUnwritten → IfOk result (λ end. end ≢ LineEnds EndsUnwritten) }
{
    match handed {
        Handed::Whole => settle(alloc, host, feed, client, schema, number),
        Handed::Broken => failed(alloc, host, client, schema, number),
        Handed::Unwritten => Ok(LineEnd::Ends(Ending::Unwritten)),
    }
}

/// Takes what comes until nothing is out.
fn settle<H: Host, C: Asks>(
    alloc: Global,
    host: &mut H,
    feed: &mut Feed,
    client: &mut C,
    schema: &[Table],
    number: u64,
) -> Result<LineEnd, NoMemory>
    requires room { 4000002 ≤ C.room client.old }
    ensures ended { Settles C.Asks H.linking H.writing H.IsSteady result schema.now number host.old host.new feed.old feed.new client.old client.new }
    ensures broken_off { AwaitsOff C.Asks H.linking H.writing H.IsSteady result schema.now number host.old host.new feed.old client.old }
    ensures setting { C.setting client.new ≡ C.setting client.old }
    ensures draws { C.room client.old ≤ C.room client.new + 4000002 }
    ensures stays { OnlyOutput H H.reading H.held H.complaints H.IsSteady host.old host.new }
    ensures steady_writes { H.IsSteady host.old → IfOk result (λ end. end ≢ LineEnds EndsUnwritten) }
{
    match await_answer(alloc, host, feed, client, schema, number)? {
        Awaited::Free => Ok(LineEnd::Done),
        Awaited::Failed => failed(alloc, host, client, schema, number),
        Awaited::Unwritten => Ok(LineEnd::Ends(Ending::Unwritten)),
        Awaited::Spoiled(fault) => Ok(LineEnd::Ends(Ending::Spoiled(fault))),
        Awaited::Bad(why) => Ok(LineEnd::Ends(Ending::Bad(why))),
        Awaited::Limit => Ok(LineEnd::Ends(Ending::Limit)),
    }
}

/// The link failed.
fn failed<H: Host, C: Asks>(
    alloc: Global,
    host: &mut H,
    client: &mut C,
    schema: &[Table],
    number: u64,
) -> Result<LineEnd, NoMemory>
    requires room { 2 ≤ C.room client.old }
    ensures ended { EndsFailed C.Asks H.linking H.writing H.IsSteady result schema.now number host.old host.new client.old client.new }
    ensures broken_off { FailedOff C.Asks H.linking H.writing H.IsSteady result schema.now number host.old host.new client.old }
    ensures setting { C.setting client.new ≡ C.setting client.old }
    ensures draws { C.room client.old ≤ C.room client.new + 2 }
    ensures stays { OnlyOutput H H.reading H.held H.complaints H.IsSteady host.old host.new }
    ensures steady_writes { H.IsSteady host.old → IfOk result (λ end. end ≢ LineEnds EndsUnwritten) }
{
    let said = fail(alloc, host, client, schema, number)?;
    Ok(end_of(said))
}

fn end_of(said: bool) -> LineEnd
    ensures { result ≡ (if said then LineFailed else LineEnds EndsUnwritten) }
{
    if said {
        LineEnd::Failed
    } else {
        LineEnd::Ends(Ending::Unwritten)
    }
}

/// Does one job of a plan after another, behind a line that failed or did not.
fn run_plan<H: Host, C: Asks, P: Plans>(
    alloc: Global,
    host: &mut H,
    feed: &mut Feed,
    client: &mut C,
    schema: &[Table],
    address: &str,
    plans: &mut P,
    failed: bool,
) -> Result<Ending, NoMemory>
    requires asks { (ahead : Ahead) × P.follows (C.setting client.old).schema plans.old ahead }
    requires room { 4000004 * P.depth plans.old ≤ C.room client.old }
    ensures ended { RunsAll C.Asks H.linking H.writing H.IsSteady P.follows result schema.now address.now failed plans.old
        host.old host.new feed.old feed.new client.old client.new }
    ensures broken_off { PlanOff C.Asks H.linking H.writing H.IsSteady P.follows result schema.now address.now failed plans.old
        host.old host.new feed.old client.old }
    ensures setting { C.setting client.new ≡ C.setting client.old }
    ensures stays { OnlyOutput H H.reading H.held H.complaints H.IsSteady host.old host.new }
    ensures steady_writes { H.IsSteady host.old → IfOk result (λ ending. ending ≢ EndsUnwritten) }
{
    let mut failed = failed;
    while let Some(job) = plans.next(alloc, client.answer())? {
        match run_job(alloc, host, feed, client, schema, address, job)? {
            LineEnd::Done => {}
            LineEnd::Failed => failed = true,
            LineEnd::Ends(ending) => return Ok(ending),
        }
    }
    Ok(ending_of(failed))
}

fn ending_of(failed: bool) -> Ending
    ensures { result ≡ (if failed then EndsFaulty else EndsWhole) }
{
    if failed {
        Ending::Faulty
    } else {
        Ending::Whole
    }
}

/// Resumes the client for the first time.
fn first_line<H: Host, C: Asks>(
    alloc: Global,
    host: &mut H,
    feed: &mut Feed,
    client: &mut C,
    schema: &[Table],
    id: u8,
    address: &str,
) -> Result<LineEnd, NoMemory>
    requires room { 4000004 ≤ C.room client.old }
    ensures ended { EndsFirst C.Asks H.linking H.writing H.IsSteady result schema.now address.now host.old host.new feed.new client.old client.new }
    ensures broken_off { FirstOff C.Asks H.linking H.writing H.IsSteady result schema.now address.now host.old host.new client.old }
    ensures setting { C.setting client.new ≡ C.setting client.old }
    ensures draws { C.room client.old ≤ C.room client.new + 4000004 }
    ensures stays { OnlyOutput H H.reading H.held H.complaints H.IsSteady host.old host.new }
    ensures steady_writes { H.IsSteady host.old → IfOk result (λ end. end ≢ LineEnds EndsUnwritten) }
{
    let event = Event::Resume { client: id };
    let handed = begin(alloc, host, feed, client, schema, address, 0, event)?;
    finish(alloc, host, feed, client, schema, 0, handed)
}

/// Does the jobs of a plan, if the first resume did not end the run.
fn go_on<H: Host, C: Asks, P: Plans>(
    alloc: Global,
    host: &mut H,
    feed: &mut Feed,
    client: &mut C,
    schema: &[Table],
    address: &str,
    plans: &mut P,
    end: LineEnd,
) -> Result<Ending, NoMemory>
    requires asks { (ahead : Ahead) × P.follows (C.setting client.old).schema plans.old ahead }
    requires room { 4000004 * P.depth plans.old ≤ C.room client.old }
    ensures ended { GoesOnWith C.Asks H.linking H.writing H.IsSteady P.follows result schema.now address.now end plans.old
        host.old host.new feed.old feed.new client.old client.new }
    ensures broken_off { GoesOnOff C.Asks H.linking H.writing H.IsSteady P.follows result schema.now address.now end plans.old
        host.old host.new feed.old client.old }
    ensures setting { C.setting client.new ≡ C.setting client.old }
    ensures stays { OnlyOutput H H.reading H.held H.complaints H.IsSteady host.old host.new }
    ensures steady_writes { H.IsSteady host.old → end ≢ LineEnds EndsUnwritten → IfOk result (λ ending. ending ≢ EndsUnwritten) }
{
    match end {
        LineEnd::Done => run_plan(alloc, host, feed, client, schema, address, plans, false),
        LineEnd::Failed => run_plan(alloc, host, feed, client, schema, address, plans, true),
        LineEnd::Ends(ending) => Ok(ending),
    }
}

/// Resumes the client, whose link is cut, and then does what the plan asks, each job until nothing is out. Each line of the trace is
/// written once its step is done, if the client says so. The link is given up at the end.
pub fn run<H: Host, C: Asks, P: Plans>(
    alloc: Global,
    host: &mut H,
    client: &mut C,
    schema: &[Table],
    id: u8,
    address: &str,
    plans: &mut P,
) -> Result<Ending, NoMemory>
    requires schema { schema.now ≡ (C.setting client.old).schema }
    requires asks { (ahead : Ahead) × P.follows (C.setting client.old).schema plans.old ahead }
    requires room { 4000004 * (P.depth plans.old + 1) ≤ C.room client.old }
    requires fresh { C.lent client.old ≡ None }
    ensures ran { RunsFrom C.Asks H.linking H.writing H.IsSteady P.follows result schema.now address.now plans.old host.old host.new client.old client.new }
    ensures broken_off { RunsOff C.Asks H.linking H.writing H.IsSteady P.follows result schema.now address.now plans.old host.old host.new client.old }
    ensures setting { C.setting client.new ≡ C.setting client.old }
    ensures stays { OnlyOutput H H.reading H.held H.complaints H.IsSteady host.old host.new }
    ensures steady_writes { H.IsSteady host.old → IfOk result (λ ending. ending ≢ EndsUnwritten) }
{
    let mut feed = Feed::new(alloc);
    let end = first_line(alloc, host, &mut feed, client, schema, id, address)?;
    let ending = go_on(alloc, host, &mut feed, client, schema, address, plans, end)?;
    host.hang_up();
    Ok(ending)
}
