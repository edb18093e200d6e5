//! The summary of a script that is made from a number.
ghost use Rattle.std.specs.Prelude.{◌≡◌, ℕ, ◌<◌, ◌≤◌, ◌^◌, List, [], length, string_bytes, Some, IfOk, IsErrOf};
ghost use Rattle.sr_cell.specs.declared.fault.Fault.{Fault as TheFault};
ghost use Rattle.sr_cell.specs.declared.list.No.TheVariants.{Refused};
ghost use Rattle.sr_generate.specs.Script.{script};
ghost use Rattle.sr_lines.specs.Lines.{lines_of};
ghost use Rattle.sr_lines.specs.Script.{FirstRefused};
ghost use Rattle.sr_summary.specs.Summary.{Summarizes, Traces, counts_of, last_lines, summary_text, the_options};
ghost use Rattle.sr_world.specs.Replay.{outside};
ghost use Rattle.sr_world.specs.declared.replay.RunFault.TheVariants.{WriteFault, Line, Setup, Load as LoadRefused};

use crate::count::{count_lines, count_second};
use sr_cell::list::{Bytes, No, NoMemory, Seq};
use sr_generate::script::write_script;
use sr_io::mem_sink::MemSink;
use sr_policy::policy::{Limits, Policy};
use sr_world::replay::{RunFault, replay};
use sr_world::world::Options;
use std::alloc::Global;

/// How many bytes a sink in memory takes at once.
const PIECE: usize = 65536;

/// How many lines a trace has, and how many of each of five kinds.
#[derive(Clone, Copy)]
struct Counts {
    lines: u64,
    queries: u64,
    answers: u64,
    rows: u64,
    asks: u64,
    drops: u64,
}

/// A trace, and the server's last version.
#[derive(Drop)]
struct Replayed {
    trace: Bytes,
    version: u64,
}

/// One client that keeps at most 100 rows and 16 regions, by distance, to whom all is delivered at once; the log keeps 1,000 changes.
fn options() -> Options
    ensures { result ≡ the_options }
{
    Options {
        eager: true,
        limits: Limits {
            rows: 100,
            regions: 16,
            policy: Policy::Distance,
        },
        log: 1000,
        clients: 1,
    }
}

/// The script of that seed, with so many events.
fn script_of(alloc: Global, seed: u64, events: u32) -> Result<Bytes, NoMemory>
    ensures { IfOk result (λ bytes. bytes ≡ script seed events) }
{
    let mut sink = MemSink::new(alloc, Seq::new(alloc), PIECE);
    match write_script(alloc, seed, events, &mut sink) {
        Ok(()) => sink.written(alloc),
        Err(No::NoMemory) => Err(NoMemory),
        Err(No::Refused(_)) => unreachable!(),
    }
}

/// Replays a script.
fn replay_all(alloc: Global, script: &[u8]) -> Result<Replayed, No<RunFault>>
    requires { length script.now < 2 ^ 32 }
    ensures traced { IfOk result (λ replayed. Traces script.now replayed.trace replayed.version) }
    ensures line { (line place : ℕ) → IsErrOf result (Refused (Line line place)) → outside 1 script.now ≡ Some (record { line = line; place = place }) }
    ensures setup { (line : ℕ) (fault : TheFault) → IsErrOf result (Refused (Setup line fault)) → FirstRefused 1 1 [] (lines_of script.now) line fault }
    ensures never_loads { (table : List ℕ) (fault : TheFault) → ¬ IsErrOf result (Refused (LoadRefused table fault)) }
    ensures never_faults { ¬ IsErrOf result (Refused WriteFault) }
{
    let mut sink = MemSink::new(alloc, Seq::new(alloc), PIECE);
    let version = match replay(alloc, options(), script, &[], &mut sink) {
        Ok(world) => world.server.version(),
        Err(no) => return Err(no),
    };
    match sink.written(alloc) {
        Ok(trace) => Ok(Replayed { trace, version }),
        Err(_) => Err(No::NoMemory),
    }
}

fn counts_of(trace: &[u8]) -> Counts
    ensures { result ≡ counts_of trace.now }
{
    Counts {
        lines: count_lines(trace),
        queries: count_second(b"query", trace),
        answers: count_second(b"answer", trace),
        rows: count_second(b"row", trace),
        asks: count_second(b"ask", trace),
        drops: count_second(b"drop", trace),
    }
}

/// The last three lines of a summary.
fn last_lines(alloc: Global, asks: u64, drops: u64, version: u64) -> Result<String, NoMemory>
    ensures { IfOk result (λ text. string_bytes text ≡ last_lines asks drops version) }
{
    Ok(format!(in alloc; "asks {asks}\ndrops {drops}\nversion {version}\n")?)
}

/// The seven lines of a summary.
fn text_of(alloc: Global, counts: Counts, version: u64) -> Result<String, NoMemory>
    ensures { IfOk result (λ text. string_bytes text ≡ summary_text counts version) }
{
    let last = last_lines(alloc, counts.asks, counts.drops, version)?;
    let last = last.as_str();
    let Counts {
        lines,
        queries,
        answers,
        rows,
        ..
    } = counts;
    Ok(format!(in alloc;
        "lines {lines}\nqueries {queries}\nanswers {answers}\nrows {rows}\n{last}"
    )?)
}

/// Replays the script of that seed with so many events, and says what its trace comes to.
pub fn summary_of(alloc: Global, seed: u64, events: u32) -> Result<String, NoMemory>
    requires events { events ≤ 100000 }
    ensures { IfOk result (λ text. Summarizes (script seed events) (string_bytes text)) }
{
    let script = script_of(alloc, seed, events)?;
    match replay_all(alloc, script.as_slice()) {
        Ok(replayed) => {
            let counts = counts_of(replayed.trace.as_slice());
            text_of(alloc, counts, replayed.version)
        }
        Err(No::NoMemory) => Err(NoMemory),
        Err(No::Refused(_)) => unreachable!(),
    }
}
