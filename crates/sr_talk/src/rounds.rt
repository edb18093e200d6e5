//! Connections, served one after another.
ghost use Rattle.std.specs.Prelude.{◌≡◌, ◌≢◌, ◌||◌, ◌+◌, ◌*◌, ◌≤◌, ℕ, List, IfOk, OnErr, string_bytes, if◌then◌else◌};
ghost use Rattle.sr_session.specs.Sessions.{Database};
ghost use Rattle.sr_talk.specs.Rounds.{EndsBy, EndsInPart, HasPeers, OnlyOutput, RoundsIf, RoundsInPart, ServesPeer, at_rest};
ghost use Rattle.sr_talk.specs.Moves.{OnlyLinks};
ghost use Rattle.sr_talk.specs.Serving.{by_fault, connection_line, how_text};
ghost use Rattle.sr_talk.specs.declared.rounds.Ending.TheVariants.{Whole, Faulty, Unwritten};

use crate::parts::Serves;
use crate::serve::{How, Served, serve_connection};
use sr_cell::list::{No, NoMemory};
use sr_io::outside::{Dock, Sink};
use sr_io::whole::write_all;
use std::alloc::Global;

/// How serving ended: all connections were served and none ended by a fault; the link failed, at one of them or before the next; or a
/// line could not be written.
#[derive(Clone, Copy)]
pub enum Ending {
    Whole,
    Faulty,
    Unwritten,
}

/// Makes one connection, serves it and gives it up; its session is closed. None where none can be made. Out of memory it is cut short.
pub fn serve_one<D: Dock, S: Serves>(
    alloc: Global,
    dock: &mut D,
    server: &mut S,
) -> Result<Option<Served>, NoMemory>
    requires stands { (db : Database) × S.is_of server.old (at_rest db) }
    requires room { 1000000 ≤ S.room server.old }
    ensures round { (db : Database) → S.is_of server.old (at_rest db) → IfOk result (λ round. RoundsIf S.gives round db (D.linking dock.old) (D.linking dock.new) (S.is_of server.new)) }
    ensures in_part { (db : Database) → S.is_of server.old (at_rest db) → OnErr result (RoundsInPart S.gives db (D.linking dock.old) (D.linking dock.new)) }
    ensures draws { S.room server.old ≤ S.room server.new + 1000000 }
    ensures stays { OnlyLinks D D.reading D.writing D.linking D.held D.complaints D.IsSteady dock.old dock.new }
    ensures steady { D.IsSteady dock.old → (more : ℕ) → HasPeers (more + 1) (D.linking dock.old) → IfOk result (λ round. ServesPeer round more (D.linking dock.new)) }
{
    match dock.accept() {
        Ok(()) => {}
        Err(No::Refused(_)) => return Ok(None),
        Err(No::NoMemory) => return Err(NoMemory),
    }
    let served = serve_connection(alloc, dock, server)?;
    server.cut();
    dock.hang_up();
    Ok(Some(served))
}

fn word_of(how: How) -> &'static str
    ensures { result.now ≡ how_text how }
{
    match how {
        How::End => "end",
        How::Torn => "torn",
        How::Fault => "fault",
        How::Bad => "bad",
        How::Refused => "bad",
        How::Limit => "limit",
    }
}

/// The line of a connection.
fn line_of(alloc: Global, number: u32, served: Served) -> Result<String, NoMemory>
    ensures { IfOk result (λ line. string_bytes line ≡ connection_line number served.how served.frames) }
{
    let how = word_of(served.how);
    Ok(format!(in alloc; "connection {number} {how} {}\n", served.frames)?)
}

fn ending_of(faulty: bool) -> Ending
    ensures { result ≡ (if faulty then Faulty else Whole) }
{
    if faulty {
        Ending::Faulty
    } else {
        Ending::Whole
    }
}

/// Some connection ended by a fault, this one or one before.
fn has_failed(before: bool, how: How) -> bool
    ensures { result ≡ (before || by_fault how) }
{
    before || matches!(how, How::Fault)
}

/// Serves so many connections, one after another, and writes the line of each once it is over. Ends early where no more can be made, or
/// a line is not written.
pub fn serve_some<H: Dock + Sink, S: Serves>(
    alloc: Global,
    host: &mut H,
    server: &mut S,
    count: u32,
) -> Result<Ending, NoMemory>
    requires stands { (db : Database) × S.is_of server.old (at_rest db) }
    requires room { 1000000 * count ≤ S.room server.old }
    ensures ending { (db : Database) → S.is_of server.old (at_rest db) → IfOk result (λ ending. EndsBy S.gives ending db count (H.linking host.old) (H.linking host.new) (H.writing host.old) (H.writing host.new) (S.is_of server.new)) }
    ensures in_part { (db : Database) → S.is_of server.old (at_rest db) → OnErr result (EndsInPart S.gives db count (H.linking host.old) (H.linking host.new) (H.writing host.old) (H.writing host.new)) }
    ensures stays { OnlyOutput H H.reading H.held H.complaints H.IsSteady host.old host.new }
    ensures steady_writes { H.IsSteady host.old → IfOk result (λ ending. ending ≢ Unwritten) }
    ensures steady_links { H.IsSteady host.old → HasPeers count (H.linking host.old) → IfOk result (λ ending. ending ≢ Faulty) }
{
    let mut faulty = false;
    for done in 0..count {
        let served = match serve_one(alloc, host, server)? {
            Some(served) => served,
            None => return Ok(Ending::Faulty),
        };
        faulty = has_failed(faulty, served.how);
        let line = line_of(alloc, done + 1, served)?;
        match write_all(host, line.as_bytes()) {
            Ok(()) => {}
            Err(No::Refused(_)) => return Ok(Ending::Unwritten),
            Err(No::NoMemory) => return Err(NoMemory),
        }
    }
    Ok(ending_of(faulty))
}
