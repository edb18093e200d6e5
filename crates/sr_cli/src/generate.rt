//! Making a large script.
ghost use Rattle.std.specs.Prelude.{◌≡◌, ◌⊎◌, ◌≤◌, true, false, IfErr, OnOk, IsErrOf};
ghost use Rattle.std.specs.Io.KnownBytes.{Appends};
ghost use Rattle.sr_io.specs.Pieces.{WritesPrefix};
ghost use Rattle.sr_cli.specs.Generate.{Generates, Refuses, Summarized, Wrote, script_of};
ghost use Rattle.sr_cli.specs.Leaves.{Counts, Leaves, OnlyWrites};
ghost use Rattle.sr_cli.specs.declared.report.Refusal.TheVariants.{Write};

use crate::report::{Refusal, report};
use sr_cell::list::No;
use sr_generate::script::write_script;
use sr_io::outside::{Failed, Host};
use sr_io::whole::write_all;
use sr_summary::summary::summary_of;
use sr_words::command::GenerateWords;
use std::alloc::Global;

/// Writes the script of a seed, or what its replay comes to, and answers the status to end with.
pub(crate) fn run_generate<H: Host>(alloc: Global, words: GenerateWords, host: &mut H) -> u8
    requires events { words.events ≤ 100000 }
    ensures generates { Generates H H.reading H.writing H.linking H.IsSteady host.old host.new words result }
    ensures leaves { Leaves H H.held H.reading H.writing H.linking H.complaints H.IsSteady host.old host.new result }
{
    match generate(alloc, words, host) {
        Ok(()) => 0,
        Err(refusal) => report(alloc, refusal, host),
    }
}

/// Writes the script of a seed, or what its replay comes to.
fn generate<H: Host>(alloc: Global, words: GenerateWords, host: &mut H) -> Result<(), Refusal>
    requires events { words.events ≤ 100000 }
    ensures made { words.whole_script ≡ true → OnOk result (Appends (H.writing host.old).written (H.writing host.new).written (script_of words)) }
    ensures made_in_part { words.whole_script ≡ true → WritesPrefix (H.writing host.old).written (H.writing host.new).written (script_of words) }
    ensures summary { words.whole_script ≡ false → OnOk result (Summarized (script_of words) (H.writing host.old).written (H.writing host.new).written) }
    ensures refused { IfErr result (Refuses words (H.writing host.old) (H.writing host.new)) }
    ensures counts { Counts H H.reading H.writing H.linking host.old host.new result }
    ensures quiet { IsErrOf result Write ⊎ ((H.writing host.new).faults ≡ (H.writing host.old).faults) }
    ensures steady_writes { H.IsSteady host.old → ¬ IsErrOf result Write }
    ensures stays { OnlyWrites H H.reading H.linking H.held H.complaints H.IsSteady host.old host.new }
{
    if words.whole_script {
        return end_of_write(write_script(alloc, words.seed, words.events, host));
    }
    match summary_of(alloc, words.seed, words.events) {
        Ok(text) => end_of_write(write_all(host, text.as_bytes())),
        Err(_) => Err(Refusal::Memory),
    }
}

/// What writing that ended so comes to.
fn end_of_write(done: Result<(), No<Failed>>) -> Result<(), Refusal>
    ensures { Wrote done result }
{
    match done {
        Ok(()) => Ok(()),
        Err(No::Refused(_)) => Err(Refusal::Write),
        Err(No::NoMemory) => Err(Refusal::Memory),
    }
}
