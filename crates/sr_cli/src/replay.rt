//! Replaying a script.
ghost use Rattle.std.specs.Prelude.{◌≡◌, ◌⊎◌, ◌<◌, ◌≤◌, ◌^◌, nat_lt, length, IsTrue, IfErr, IfOk, OnOk, IsErrOf};
ghost use Rattle.std.specs.List.{list_all};
ghost use Rattle.sr_server.specs.Servers.{IsClientNumber};
ghost use Rattle.sr_cli.specs.Leaves.{Counts, Leaves, NotRead, OnlyReads, OnlyRuns, OnlyWrites};
ghost use Rattle.sr_cli.specs.Replay.{AreFiles, AreNotHeld, Refuses, RefusesOver, Replayed, Replays, WroteTrace, files_of};
ghost use Rattle.sr_cli.specs.declared.file.ReadFault.TheVariants.{Fault as ReadFailed};
ghost use Rattle.sr_cli.specs.declared.report.Refusal.TheVariants.{Read, Write};

use crate::file::{ReadFault, read_file};
use crate::loads::read_loads;
use crate::report::{Refusal, end_of, report, unread};
use sr_cell::list::Bytes;
use sr_io::outside::Host;
use sr_load::fill::Loads;
use sr_words::command::ReplayWords;
use sr_world::replay::replay;
use sr_world::world::Options;
use std::alloc::Global;

/// What was read: the script, and the files for the tables.
#[derive(Drop)]
struct Files {
    script: Bytes,
    loads: Loads,
}

/// Replays a script over the files that the words name, and answers the status to end with.
pub(crate) fn run_replay<H: Host>(alloc: Global, words: &ReplayWords, host: &mut H) -> u8
    requires clients { IsClientNumber words.now.setup.clients }
    requires regions { words.now.setup.limits.regions ≤ 1024 }
    ensures replays { Replays H H.held H.reading H.writing H.linking H.complaints H.IsSteady host.old host.new words.now result }
    ensures leaves { Leaves H H.held H.reading H.writing H.linking H.complaints H.IsSteady host.old host.new result }
{
    match replay_files(alloc, words, host) {
        Ok(()) => 0,
        Err(refusal) => report(alloc, refusal, host),
    }
}

/// Reads the files that the words name, replays the script and writes its trace.
fn replay_files<H: Host>(alloc: Global, words: &ReplayWords, host: &mut H) -> Result<(), Refusal>
    requires clients { IsClientNumber words.now.setup.clients }
    requires regions { words.now.setup.limits.regions ≤ 1024 }
    ensures replayed { OnOk result (Replayed (H.held host.old) words.now (H.writing host.old).written (H.writing host.new).written) }
    ensures refused { IfErr result (RefusesOver (H.held host.old) words.now (H.reading host.new).left (H.writing host.old) (H.writing host.new)) }
    ensures counts { Counts H H.reading H.writing H.linking host.old host.new result }
    ensures quiet { IsErrOf result Write ⊎ ((H.writing host.new).faults ≡ (H.writing host.old).faults) }
    ensures steady_reads { H.IsSteady host.old → IsErrOf result Read → AreNotHeld (H.held host.old) words.now }
    ensures steady_writes { H.IsSteady host.old → ¬ IsErrOf result Write }
    ensures linking_stays { H.linking host.new ≡ H.linking host.old }
    ensures stays { OnlyRuns H H.held H.complaints H.IsSteady host.old host.new }
{
    let setup = words.setup;
    let options = Options {
        eager: setup.eager,
        limits: setup.limits,
        log: setup.log,
        clients: setup.clients,
    };
    match read_files(alloc, words, host) {
        Err(fault) => Err(unread(fault)),
        Ok(files) => replay_read(alloc, options, &files, host),
    }
}

/// Reads the script, and then the files for the tables in their order. The first that cannot be read or is too long ends it.
fn read_files<H: Host>(alloc: Global, words: &ReplayWords, host: &mut H) -> Result<Files, ReadFault>
    ensures read { IfOk result (λ files. AreFiles (H.held host.old) words.now files.script files.loads) }
    ensures script { IfOk result (λ files. length files.script < 2 ^ 32) }
    ensures loads { IfOk result (λ files. IsTrue (list_all (λ load. nat_lt (length load.bytes) (2 ^ 32)) files.loads)) }
    ensures not_read { IfErr result (NotRead (H.held host.old) (files_of words.now) (H.reading host.old) (H.reading host.new)) }
    ensures ok_keeps_faults { OnOk result ((H.reading host.new).faults ≡ (H.reading host.old).faults) }
    ensures steady { H.IsSteady host.old → IsErrOf result ReadFailed → AreNotHeld (H.held host.old) words.now }
    ensures stays { OnlyReads H H.writing H.linking H.held H.complaints H.IsSteady host.old host.new }
{
    let script = match read_file(alloc, words.script.as_str(), host) {
        Ok(script) => script,
        Err(no) => return Err(no),
    };
    match read_loads(alloc, words.loads.as_slice(), host) {
        Ok(loads) => Ok(Files { script, loads }),
        Err(no) => Err(no),
    }
}

/// Replays the script of files that were read, in a world that is set up as the options say.
fn replay_read<H: Host>(
    alloc: Global,
    options: Options,
    files: &Files,
    host: &mut H,
) -> Result<(), Refusal>
    requires clients { IsClientNumber options.clients }
    requires regions { options.limits.regions ≤ 1024 }
    requires script { length files.now.script < 2 ^ 32 }
    requires loads { IsTrue (list_all (λ load. nat_lt (length load.bytes) (2 ^ 32)) files.now.loads) }
    ensures replayed { OnOk result (WroteTrace (H.writing host.old).written (H.writing host.new).written options files.now.script files.now.loads) }
    ensures refused { IfErr result (Refuses options files.now.script files.now.loads (H.writing host.old) (H.writing host.new)) }
    ensures counts { Counts H H.reading H.writing H.linking host.old host.new result }
    ensures quiet { IsErrOf result Write ⊎ ((H.writing host.new).faults ≡ (H.writing host.old).faults) }
    ensures steady_writes { H.IsSteady host.old → ¬ IsErrOf result Write }
    ensures stays { OnlyWrites H H.reading H.linking H.held H.complaints H.IsSteady host.old host.new }
{
    let done = replay(
        alloc,
        options,
        files.script.as_slice(),
        files.loads.as_slice(),
        host,
    );
    end_of(done)
}
