//! A run of `serve`.
ghost use Rattle.std.specs.Prelude.{◌≡◌, ◌≢◌, ◌<◌, ◌^◌, ℕ, List, length, IfOk, IsErrOf, OnErr, OnOk};
ghost use Rattle.std.specs.Io.KnownBytes.{Appends};
ghost use Rattle.sr_cell.specs.declared.list.No.TheVariants.{Refused, NoMemory as Wanting};
ghost use Rattle.sr_io.specs.Told.{docked_at};
ghost use Rattle.sr_log.specs.Held.{newest as newest_of};
ghost use Rattle.sr_session.specs.Sessions.{Database};
ghost use Rattle.sr_serve.specs.ServerEnds.{IsEnd};
ghost use Rattle.sr_server.specs.Servers.{first_database};
ghost use Rattle.sr_talk.specs.Rounds.{HasPeers, OnlyOutput, at_rest};
ghost use Rattle.sr_talk.specs.Serving.{listening};
ghost use Rattle.sr_talk.specs.declared.rounds.Ending.{Ending as TheEnding};
ghost use Rattle.sr_talk.specs.declared.rounds.Ending.TheVariants.{Faulty, Unwritten};
ghost use Rattle.sr_serve.specs.Runs.{BehindListening, Ran, RanInPart};

use crate::exec::exec_all;
use crate::server_end::ServerEnd;
use sr_cell::list::{No, NoMemory};
use sr_cell::text::Text;
use sr_io::outside::{Dock, Sink};
use sr_io::whole::write_all;
use sr_server::server::Server;
use sr_tables::tables::Tables;
use sr_talk::rounds::{Ending, serve_some};
use std::alloc::Global;

/// Serves these tables: docks at the address, writes `listening`, carries out the texts of the exec file, and serves so many
/// connections, one after another. The log keeps at most so many changes. Each line is written once its event is done. Out of memory,
/// what was sent and written begins what the rules give.
pub fn serve<H: Dock + Sink>(
    alloc: Global,
    host: &mut H,
    tables: Tables,
    log: u32,
    texts: &[Text],
    address: &str,
    count: u32,
) -> Result<Ending, NoMemory>
    requires texts { length texts.now < 2 ^ 32 }
    ensures ran { IfOk result (λ ending. Ran (first_database tables.schema log tables.rows) texts.now address.now count ending
        (H.linking host.old) (H.linking host.new) (H.writing host.old) (H.writing host.new)) }
    ensures in_part { OnErr result (RanInPart (first_database tables.schema log tables.rows) texts.now address.now count
        (H.linking host.old) (H.linking host.new) (H.writing host.old) (H.writing host.new)) }
    ensures stays { OnlyOutput H H.reading H.held H.complaints H.IsSteady host.old host.new }
    ensures steady_writes { H.IsSteady host.old → IfOk result (λ ending. ending ≢ Unwritten) }
    ensures steady_links { H.IsSteady host.old → HasPeers count (H.linking host.old) → IfOk result (λ ending. ending ≢ Faulty) }
{
    match listen(host, address) {
        Ok(()) => {
            let server = Server::new(alloc, tables, log)?;
            serve_docked(alloc, host, &mut ServerEnd::new(server), texts, count)
        }
        Err(No::Refused(ending)) => Ok(ending),
        Err(No::NoMemory) => Err(NoMemory),
    }
}

/// Docks at the address and writes `listening`; or names how the run ended.
fn listen<H: Dock + Sink>(host: &mut H, address: &str) -> Result<(), No<Ending>>
    ensures docked { OnOk result (H.linking host.new ≡ docked_at address.now (H.linking host.old)) }
    ensures written { OnOk result (Appends (H.writing host.old).written (H.writing host.new).written listening) }
    ensures faults { OnOk result ((H.writing host.new).faults ≡ (H.writing host.old).faults) }
    ensures ran { (ending : TheEnding) → IsErrOf result (Refused ending) → (db : Database) (texts : List (List ℕ)) (count : ℕ)
        → Ran db texts address.now count ending (H.linking host.old) (H.linking host.new) (H.writing host.old) (H.writing host.new) }
    ensures in_part { IsErrOf result Wanting → (db : Database) (texts : List (List ℕ)) (count : ℕ)
        → RanInPart db texts address.now count (H.linking host.old) (H.linking host.new) (H.writing host.old) (H.writing host.new) }
    ensures stays { OnlyOutput H H.reading H.held H.complaints H.IsSteady host.old host.new }
    ensures steady { H.IsSteady host.old → (ending : TheEnding) → ¬ IsErrOf result (Refused ending) }
{
    match host.dock(address) {
        Ok(()) => {}
        Err(No::Refused(_)) => return Err(No::Refused(Ending::Faulty)),
        Err(No::NoMemory) => return Err(No::NoMemory),
    }
    match write_all(host, b"listening\n") {
        Ok(()) => Ok(()),
        Err(No::Refused(_)) => Err(No::Refused(Ending::Unwritten)),
        Err(No::NoMemory) => Err(No::NoMemory),
    }
}

/// Carries out the texts of the exec file, and serves so many connections, once `listening` is written.
fn serve_docked<H: Dock + Sink>(
    alloc: Global,
    host: &mut H,
    end: &mut ServerEnd,
    texts: &[Text],
    count: u32,
) -> Result<Ending, NoMemory>
    requires texts { length texts.now < 2 ^ 32 }
    requires stands { (db : Database) × IsEnd end.old (at_rest db) }
    requires new { newest_of end.old.server.log ≡ 0 }
    ensures ran { (db : Database) → IsEnd end.old (at_rest db) → BehindListening (H.linking host.old) (H.writing host.old)
        (λ address old before. IfOk result (λ ending. Ran db texts.now address count ending old (H.linking host.new) before (H.writing host.new))) }
    ensures in_part { (db : Database) → IsEnd end.old (at_rest db) → BehindListening (H.linking host.old) (H.writing host.old)
        (λ address old before. OnErr result (RanInPart db texts.now address count old (H.linking host.new) before (H.writing host.new))) }
    ensures stays { OnlyOutput H H.reading H.held H.complaints H.IsSteady host.old host.new }
    ensures steady_writes { H.IsSteady host.old → IfOk result (λ ending. ending ≢ Unwritten) }
    ensures steady_links { H.IsSteady host.old → HasPeers count (H.linking host.old) → IfOk result (λ ending. ending ≢ Faulty) }
{
    if !exec_all(alloc, host, &mut end.server, texts)? {
        return Ok(Ending::Unwritten);
    }
    serve_some(alloc, host, end, count)
}
