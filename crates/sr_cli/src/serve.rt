//! Serving tables.
ghost use Rattle.std.specs.Prelude.{◌≡◌, ℕ, ◌<◌, ◌^◌, nat_lt, List, length, Ok, IsTrue, IfErr, IfOk, OnOk, IsErrOf};
ghost use Rattle.std.specs.List.{list_all};
ghost use Rattle.sr_io.specs.Causes.{Rose};
ghost use Rattle.sr_talk.specs.Rounds.{HasPeers, OnlyOutput};
ghost use Rattle.sr_talk.specs.declared.rounds.Ending.TheVariants.{Whole};
ghost use Rattle.sr_cli.specs.Leaves.{Counts, Leaves, NotRead, OnlyReads, OnlyRuns};
ghost use Rattle.sr_cli.specs.Serve.{AreFiles, AreNotHeld, Ended, Ends, IsExec, IsHeldExec, Refuses, RefusesOver, Served, Serves, exec_files, files_of, refusal_of};
ghost use Rattle.sr_cli.specs.declared.file.ReadFault.TheVariants.{Fault as ReadFailed};
ghost use Rattle.sr_cli.specs.declared.report.Refusal.TheVariants.{Read, Write, Link};

use crate::file::{ReadFault, read_file};
use crate::loads::read_loads;
use crate::report::{Refusal, report, unread};
use sr_cell::list::{Bytes, No, NoMemory, Seq};
use sr_cell::text::Text;
use sr_io::outside::Host;
use sr_load::fill::Loads;
use sr_serve::serve::serve;
use sr_setup::setup::{Setup, SetupFault, set_up};
use sr_talk::rounds::Ending;
use sr_words::command::ServeWords;
use std::alloc::Global;

/// What was read: the schema file, the exec file, which is empty where none is named, and the files for the tables.
#[derive(Drop)]
struct Files {
    schema: Bytes,
    exec: Bytes,
    loads: Loads,
}

/// Serves the tables of the files that the words name, and answers the status to end with.
pub(crate) fn run_serve<H: Host>(alloc: Global, words: &ServeWords, host: &mut H) -> u8
    ensures serves { Serves H H.held H.reading H.writing H.linking H.complaints H.IsSteady host.old host.new words.now result }
    ensures leaves { Leaves H H.held H.reading H.writing H.linking H.complaints H.IsSteady host.old host.new result }
{
    match serve_files(alloc, words, host) {
        Ok(()) => 0,
        Err(refusal) => report(alloc, refusal, host),
    }
}

/// Reads the files that the words name, sets them up and serves their tables.
fn serve_files<H: Host>(alloc: Global, words: &ServeWords, host: &mut H) -> Result<(), Refusal>
    ensures whole { OnOk result (Served (H.held host.old) words.now Whole
        (H.linking host.old) (H.linking host.new) (H.writing host.old) (H.writing host.new)) }
    ensures refused { IfErr result (RefusesOver (H.held host.old) words.now (H.reading host.new).left
        (H.linking host.old) (H.linking host.new) (H.writing host.old) (H.writing host.new)) }
    ensures counts { Counts H H.reading H.writing H.linking host.old host.new result }
    ensures link_fault_is_counted { IsErrOf result Link → Rose (H.linking host.old).faults (H.linking host.new).faults }
    ensures steady_reads { H.IsSteady host.old → IsErrOf result Read → AreNotHeld (H.held host.old) words.now }
    ensures steady_writes { H.IsSteady host.old → ¬ IsErrOf result Write }
    ensures steady_links { H.IsSteady host.old → HasPeers words.now.count (H.linking host.old) → ¬ IsErrOf result Link }
    ensures stays { OnlyRuns H H.held H.complaints H.IsSteady host.old host.new }
{
    match read_files(alloc, words, host) {
        Err(fault) => Err(unread(fault)),
        Ok(files) => serve_read(alloc, words, &files, host),
    }
}

/// Reads the schema file, then the exec file, and then the files for the tables in their order. The first that cannot be read or is too
/// long ends it.
fn read_files<H: Host>(alloc: Global, words: &ServeWords, host: &mut H) -> Result<Files, ReadFault>
    ensures read { IfOk result (λ files. AreFiles (H.held host.old) words.now files.schema files.exec files.loads) }
    ensures schema { IfOk result (λ files. length files.schema < 2 ^ 32) }
    ensures exec { IfOk result (λ files. length files.exec < 2 ^ 32) }
    ensures loads { IfOk result (λ files. IsTrue (list_all (λ load. nat_lt (length load.bytes) (2 ^ 32)) files.loads)) }
    ensures not_read { IfErr result (NotRead (H.held host.old) (files_of words.now) (H.reading host.old) (H.reading host.new)) }
    ensures ok_keeps_faults { OnOk result ((H.reading host.new).faults ≡ (H.reading host.old).faults) }
    ensures steady { H.IsSteady host.old → IsErrOf result ReadFailed → AreNotHeld (H.held host.old) words.now }
    ensures stays { OnlyReads H H.writing H.linking H.held H.complaints H.IsSteady host.old host.new }
{
    let schema = match read_file(alloc, words.schema.as_str(), host) {
        Ok(schema) => schema,
        Err(no) => return Err(no),
    };
    let exec = match read_exec(alloc, &words.exec, host) {
        Ok(exec) => exec,
        Err(no) => return Err(no),
    };
    match read_loads(alloc, words.loads.as_slice(), host) {
        Ok(loads) => Ok(Files {
            schema,
            exec,
            loads,
        }),
        Err(no) => Err(no),
    }
}

/// Reads the exec file; where none is named, it has no bytes.
fn read_exec<H: Host>(alloc: Global, name: &Option<Text>, host: &mut H) -> Result<Bytes, ReadFault>
    ensures read { IfOk result (IsExec (H.held host.old) name.now) }
    ensures short { IfOk result (λ bytes. length bytes < 2 ^ 32) }
    ensures not_read { IfErr result (NotRead (H.held host.old) (exec_files name.now) (H.reading host.old) (H.reading host.new)) }
    ensures ok_keeps_faults { OnOk result ((H.reading host.new).faults ≡ (H.reading host.old).faults) }
    ensures steady { H.IsSteady host.old → IsErrOf result ReadFailed → (exec : List ℕ) → ¬ IsHeldExec (H.held host.old) name.now exec }
    ensures stays { OnlyReads H H.writing H.linking H.held H.complaints H.IsSteady host.old host.new }
{
    match name {
        Some(name) => read_file(alloc, name.as_str(), host),
        None => Ok(Seq::new(alloc)),
    }
}

/// Sets up the files that were read, and serves their tables.
fn serve_read<H: Host>(
    alloc: Global,
    words: &ServeWords,
    files: &Files,
    host: &mut H,
) -> Result<(), Refusal>
    requires schema { length files.now.schema < 2 ^ 32 }
    requires exec { length files.now.exec < 2 ^ 32 }
    requires loads { IsTrue (list_all (λ load. nat_lt (length load.bytes) (2 ^ 32)) files.now.loads) }
    ensures whole { OnOk result (Ends files.now.schema files.now.exec files.now.loads words.now Whole
        (H.linking host.old) (H.linking host.new) (H.writing host.old) (H.writing host.new)) }
    ensures refused { IfErr result (Refuses files.now.schema files.now.exec files.now.loads words.now
        (H.linking host.old) (H.linking host.new) (H.writing host.old) (H.writing host.new)) }
    ensures counts { Counts H H.reading H.writing H.linking host.old host.new result }
    ensures link_fault_is_counted { IsErrOf result Link → Rose (H.linking host.old).faults (H.linking host.new).faults }
    ensures steady_writes { H.IsSteady host.old → ¬ IsErrOf result Write }
    ensures steady_links { H.IsSteady host.old → HasPeers words.now.count (H.linking host.old) → ¬ IsErrOf result Link }
    ensures stays { OnlyOutput H H.reading H.held H.complaints H.IsSteady host.old host.new }
{
    let Setup { tables, statements } = match set_up(
        alloc,
        files.schema.as_slice(),
        files.exec.as_slice(),
        files.loads.as_slice(),
    ) {
        Ok(setup) => setup,
        Err(no) => return Err(refusal_of(no)),
    };
    let done = serve(
        alloc,
        host,
        tables,
        words.log,
        statements.as_slice(),
        words.address.as_str(),
        words.count,
    );
    end_of(done)
}

/// Why a run is refused whose files are not set up.
fn refusal_of(no: No<SetupFault>) -> Refusal
    ensures { result ≡ refusal_of no }
{
    match no {
        No::NoMemory => Refusal::Memory,
        No::Refused(SetupFault::Line { line, place }) => Refusal::Line { line, place },
        No::Refused(SetupFault::Create { line, fault }) => Refusal::Setup { line, fault },
        No::Refused(SetupFault::Load { table, fault }) => Refusal::Load { table, fault },
    }
}

/// What a server that ended so comes to.
fn end_of(done: Result<Ending, NoMemory>) -> Result<(), Refusal>
    ensures { Ended done result }
{
    match done {
        Ok(Ending::Whole) => Ok(()),
        Ok(Ending::Faulty) => Err(Refusal::Link),
        Ok(Ending::Unwritten) => Err(Refusal::Write),
        Err(_) => Err(Refusal::Memory),
    }
}
