//! Clients by themselves, of a schema without tables.
ghost use Rattle.std.specs.Prelude.{◌≡◌, ◌+◌, ◌<◌, ◌≤◌};
ghost use Rattle.sr_client.specs.Stands.{Stands, drawn};

use sr_cell::fault::{Fault, Why};
use sr_cell::list::{NoMemory, Seq};
use sr_cell::schema::Schema;
use sr_client::client::Client;
use sr_client::steps::{CutStep, Ended, EvictStep, ResumeStep, Took, WriteStep};
use sr_message::message::Message;
use sr_policy::policy::{Limits, Policy};
use sr_wire::bad_frame::BadFrame;
use std::alloc::Global;

const LIMITS: Limits = Limits {
    rows: 10,
    regions: 10,
    policy: Policy::Recency,
};

const FAULT: Fault = Fault {
    why: Why::Grammar,
    at: 7,
};

// What comes of a message, with its request, and its version or 0.
#[derive(Clone, Copy, PartialEq, Eq)]
enum Seen {
    Laid,
    Written(u64, u64),
    Refused(u64, Fault),
    Welcomed(u64, bool),
    Bad(BadFrame),
    Other,
}

fn seen_of(took: &Took) -> Seen {
    match took {
        Took::Laid => Seen::Laid,
        Took::Written {
            request,
            version,
            ..
        } => Seen::Written(*request, *version),
        Took::Refused { request, fault, .. } => Seen::Refused(*request, *fault),
        Took::Welcomed { version, kept, .. } => Seen::Welcomed(*version, *kept),
        Took::Bad(why) => Seen::Bad(*why),
        _ => Seen::Other,
    }
}

// A client whose session is open at version 0.
fn opened(alloc: Global) -> Client
    ensures stands { Stands result }
    ensures drawn { drawn result ≡ 1 }
    ensures cuts { result.cuts ≡ 0 }
{
    Client::opened(alloc, 3, Schema::new(alloc), LIMITS)
}

// Whether that comes of a message.
fn takes(
    alloc: Global,
    client: &mut Client,
    message: Message,
    wanted: Seen,
) -> Result<bool, NoMemory>
    requires stands { Stands client.old }
    requires room { drawn client.old < 100 }
    ensures stands { Stands client.new }
    ensures drawn { drawn client.new ≤ drawn client.old + 2 }
{
    let took = client.take(alloc, message)?;
    Ok(seen_of(&took) == wanted)
}

fn is_sent(step: &WriteStep, number: u64) -> bool {
    match step {
        WriteStep::Sent {
            request,
            message: Message::Write { number: own, sql },
        } => *request == number && *own == number && sql.as_str() == "DELETE FROM t",
        _ => false,
    }
}

// Whether a write goes out, with that number.
fn writes(alloc: Global, client: &mut Client, number: u64) -> Result<bool, NoMemory>
    requires stands { Stands client.old }
    requires room { drawn client.old < 100 }
    ensures stands { Stands client.new }
    ensures drawn { drawn client.new ≤ drawn client.old + 2 }
    ensures cuts { client.new.cuts ≡ client.old.cuts }
{
    let step = client.write(alloc, "DELETE FROM t")?;
    Ok(is_sent(&step, number))
}

// Why no write goes out: the request that is out, or the number of the last cut.
#[derive(Clone, Copy, PartialEq, Eq)]
enum Kept {
    Sent,
    Busy(u64),
    Down(u64),
    Sql(Fault),
}

fn kept_of(step: &WriteStep) -> Kept {
    match step {
        WriteStep::Sent { .. } => Kept::Sent,
        WriteStep::Busy { request } => Kept::Busy(*request),
        WriteStep::Down { cut } => Kept::Down(*cut),
        WriteStep::Sql(fault) => Kept::Sql(*fault),
    }
}

// Whether a write does not go out, for that reason.
fn keeps(alloc: Global, client: &mut Client, wanted: Kept) -> Result<bool, NoMemory>
    requires stands { Stands client.old }
    requires room { drawn client.old < 100 }
    ensures stands { Stands client.new }
    ensures drawn { drawn client.new ≤ drawn client.old + 2 }
{
    let step = client.write(alloc, "DELETE FROM t")?;
    Ok(kept_of(&step) == wanted)
}

fn is_hello(step: &ResumeStep, wanted: u64) -> bool {
    match step {
        ResumeStep::Sent {
            request,
            message: Message::Hello {
                wire: 2,
                client,
                number,
            },
        } => *request == wanted && *client == 3 && *number == wanted,
        _ => false,
    }
}

// Whether a Hello goes out, with that number.
fn resumes(alloc: Global, client: &mut Client, number: u64) -> Result<bool, NoMemory>
    requires stands { Stands client.old }
    requires room { drawn client.old < 100 }
    ensures stands { Stands client.new }
    ensures drawn { drawn client.new ≤ drawn client.old + 2 }
{
    let step = client.resume(alloc)?;
    Ok(is_hello(&step, number))
}

fn is_busy(step: &EvictStep, wanted: u64) -> bool {
    match step {
        EvictStep::Busy { request } => *request == wanted,
        _ => false,
    }
}

fn is_no_such(step: &EvictStep, wanted: usize) -> bool {
    match step {
        EvictStep::NoSuch { count } => *count == wanted,
        _ => false,
    }
}

// Whether a Hello goes out first, and its welcome gives the version.
fn says_hello(alloc: Global, client: &mut Client) -> Result<bool, NoMemory>
    requires stands { Stands client.old }
    requires room { drawn client.old < 50 }
{
    let welcome = Message::Welcome {
        number: 0,
        version: 5,
        kept: false,
    };
    let is_sent = resumes(alloc, client, 0)?;
    let is_welcome = takes(alloc, client, welcome, Seen::Welcomed(5, false))?;
    Ok(is_sent && is_welcome && client.version() == 5)
}

#[test]
fn a_new_client_says_hello(rt: HostRuntime) {
    let alloc = rt.alloc();
    let mut client = Client::new(alloc, 3, Schema::new(alloc), LIMITS);
    assert!(rt; says_hello(alloc, &mut client) == Ok(true));
}

// Whether a write that a notice comes before is done at its own version.
fn comes_to_its_version(alloc: Global, client: &mut Client) -> Result<bool, NoMemory>
    requires stands { Stands client.old }
    requires room { drawn client.old < 50 }
{
    let notice = Message::Notice {
        version: 2,
        told: Seq::new(alloc),
    };
    let done = Message::Written {
        number: 1,
        version: 3,
    };
    let is_sent = writes(alloc, client, 1)?;
    let is_laid = takes(alloc, client, notice, Seen::Laid)?;
    let is_done = takes(alloc, client, done, Seen::Written(1, 3))?;
    Ok(is_sent && is_laid && is_done && client.version() == 3)
}

#[test]
fn a_write_comes_to_its_version(rt: HostRuntime) {
    let alloc = rt.alloc();
    let mut client = opened(alloc);
    assert!(rt; comes_to_its_version(alloc, &mut client) == Ok(true));
}

// Whether a write that is refused behind a Lapse comes to the version of the Lapse.
fn comes_to_what_was_told(alloc: Global, client: &mut Client) -> Result<bool, NoMemory>
    requires stands { Stands client.old }
    requires room { drawn client.old < 50 }
{
    let lapse = Message::Lapse { version: 4 };
    let refused = Message::Refused {
        number: 1,
        fault: FAULT,
    };
    let is_sent = writes(alloc, client, 1)?;
    let is_laid = takes(alloc, client, lapse, Seen::Laid)?;
    let is_refused = takes(alloc, client, refused, Seen::Refused(1, FAULT))?;
    Ok(is_sent && is_laid && is_refused && client.version() == 4)
}

#[test]
fn a_refused_write_comes_to_what_was_told(rt: HostRuntime) {
    let alloc = rt.alloc();
    let mut client = opened(alloc);
    assert!(rt; comes_to_what_was_told(alloc, &mut client) == Ok(true));
}

// Whether nothing else is written or evicted while a write is out.
fn waits(alloc: Global, client: &mut Client) -> Result<bool, NoMemory>
    requires stands { Stands client.old }
    requires room { drawn client.old < 50 }
{
    let is_sent = writes(alloc, client, 1)?;
    let is_kept = keeps(alloc, client, Kept::Busy(1))?;
    Ok(is_sent && is_kept && is_busy(&client.evict(0), 1))
}

#[test]
fn one_request_is_out_at_a_time(rt: HostRuntime) {
    let alloc = rt.alloc();
    let mut client = opened(alloc);
    assert!(rt; waits(alloc, &mut client) == Ok(true));
}

// Whether the first cut ends a write that is out.
fn ends_what_is_out(alloc: Global, client: &mut Client) -> Result<bool, NoMemory>
    requires stands { Stands client.old }
    requires room { drawn client.old < 50 }
    requires cuts { client.old.cuts ≡ 0 }
{
    let cut = CutStep::Cut {
        number: 1,
        ended: Ended::Write(1),
    };
    let is_sent = writes(alloc, client, 1)?;
    Ok(is_sent && client.cut(alloc) == cut)
}

#[test]
fn a_cut_ends_what_is_out(rt: HostRuntime) {
    let alloc = rt.alloc();
    let mut client = opened(alloc);
    assert!(rt; ends_what_is_out(alloc, &mut client) == Ok(true));
}

#[test]
fn nothing_is_written_over_a_cut_link(rt: HostRuntime) {
    let alloc = rt.alloc();
    let mut client = Client::new(alloc, 3, Schema::new(alloc), LIMITS);
    assert!(rt; keeps(alloc, &mut client, Kept::Down(0)) == Ok(true));
}

#[test]
fn what_is_not_there_is_not_evicted(rt: HostRuntime) {
    let mut client = opened(rt.alloc());
    assert!(rt; is_no_such(&client.evict(0), 0));
}

#[test]
fn what_was_not_asked_is_refused(rt: HostRuntime) {
    let alloc = rt.alloc();
    let mut client = opened(alloc);
    let reply = Message::Reply {
        number: 1,
        version: 0,
    };
    assert!(rt; takes(alloc, &mut client, reply, Seen::Bad(BadFrame::State)) == Ok(true));
}

// Whether a client whose write is out refuses what answers another request.
fn refuses_another_answer(alloc: Global, client: &mut Client) -> Result<bool, NoMemory>
    requires stands { Stands client.old }
    requires room { drawn client.old < 50 }
{
    let done = Message::Written {
        number: 2,
        version: 3,
    };
    let is_sent = writes(alloc, client, 1)?;
    let is_bad = takes(alloc, client, done, Seen::Bad(BadFrame::Number))?;
    Ok(is_sent && is_bad)
}

#[test]
fn what_answers_another_request_is_refused(rt: HostRuntime) {
    let alloc = rt.alloc();
    let mut client = opened(alloc);
    assert!(rt; refuses_another_answer(alloc, &mut client) == Ok(true));
}
