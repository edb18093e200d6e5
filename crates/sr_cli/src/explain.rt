//! Explaining a query behind a script.
ghost use Rattle.std.specs.Prelude.{◌≡◌, ◌⊎◌, ◌<◌, ◌≤◌, ◌^◌, length, None, IfErr, OnOk, IsErrOf};
ghost use Rattle.sr_server.specs.Servers.{IsClientNumber};
ghost use Rattle.sr_cli.specs.Explain.{Explained, Explains, Refuses, RefusesOver, WroteScript};
ghost use Rattle.sr_cli.specs.Leaves.{Counts, Leaves, OnlyRuns, OnlyWrites};
ghost use Rattle.sr_cli.specs.declared.report.Refusal.TheVariants.{Read, Write};

use crate::file::read_file;
use crate::report::{Refusal, end_of, report, unread};
use sr_explained::explain::explain;
use sr_io::outside::Host;
use sr_words::command::ExplainWords;
use sr_world::world::Options;
use std::alloc::Global;

/// Replays the script that the words name without its trace, writes how client 1 would answer the query behind it, and answers the
/// status to end with.
pub(crate) fn run_explain<H: Host>(alloc: Global, words: &ExplainWords, host: &mut H) -> u8
    requires clients { IsClientNumber words.now.setup.clients }
    requires regions { words.now.setup.limits.regions ≤ 1024 }
    ensures explains { Explains H H.held H.reading H.writing H.linking H.complaints H.IsSteady host.old host.new words.now result }
    ensures leaves { Leaves H H.held H.reading H.writing H.linking H.complaints H.IsSteady host.old host.new result }
{
    match explain_file(alloc, words, host) {
        Ok(()) => 0,
        Err(refusal) => report(alloc, refusal, host),
    }
}

/// Reads the script, and explains the query behind it.
fn explain_file<H: Host>(alloc: Global, words: &ExplainWords, host: &mut H) -> Result<(), Refusal>
    requires clients { IsClientNumber words.now.setup.clients }
    requires regions { words.now.setup.limits.regions ≤ 1024 }
    ensures explained { OnOk result (Explained (H.held host.old) words.now (H.writing host.old).written (H.writing host.new).written) }
    ensures refused { IfErr result (RefusesOver (H.held host.old) words.now (H.reading host.new).left (H.writing host.old) (H.writing host.new)) }
    ensures counts { Counts H H.reading H.writing H.linking host.old host.new result }
    ensures quiet { IsErrOf result Write ⊎ ((H.writing host.new).faults ≡ (H.writing host.old).faults) }
    ensures steady_reads { H.IsSteady host.old → IsErrOf result Read → H.held host.old words.now.script ≡ None }
    ensures steady_writes { H.IsSteady host.old → ¬ IsErrOf result Write }
    ensures linking_stays { H.linking host.new ≡ H.linking host.old }
    ensures stays { OnlyRuns H H.held H.complaints H.IsSteady host.old host.new }
{
    match read_file(alloc, words.script.as_str(), host) {
        Err(fault) => Err(unread(fault)),
        Ok(script) => explain_read(alloc, words, script.as_slice(), host),
    }
}

/// Explains the query behind a script that was read.
fn explain_read<H: Host>(
    alloc: Global,
    words: &ExplainWords,
    script: &[u8],
    host: &mut H,
) -> Result<(), Refusal>
    requires clients { IsClientNumber words.now.setup.clients }
    requires regions { words.now.setup.limits.regions ≤ 1024 }
    requires script { length script.now < 2 ^ 32 }
    ensures explained { OnOk result (WroteScript words.now script.now (H.writing host.old).written (H.writing host.new).written) }
    ensures refused { IfErr result (Refuses words.now script.now (H.writing host.old) (H.writing host.new)) }
    ensures counts { Counts H H.reading H.writing H.linking host.old host.new result }
    ensures quiet { IsErrOf result Write ⊎ ((H.writing host.new).faults ≡ (H.writing host.old).faults) }
    ensures steady_writes { H.IsSteady host.old → ¬ IsErrOf result Write }
    ensures stays { OnlyWrites H H.reading H.linking H.held H.complaints H.IsSteady host.old host.new }
{
    let setup = words.setup;
    let options = Options {
        eager: setup.eager,
        limits: setup.limits,
        log: setup.log,
        clients: setup.clients,
    };
    let done = explain(alloc, options, script, &[], words.sql.as_str(), host);
    end_of(done)
}
