//! The top call.
ghost use Rattle.std.specs.Prelude.{◌≡◌, Some};
ghost use Rattle.sr_words.specs.Words.{command_of as command_said};
ghost use Rattle.sr_words.specs.declared.command.Command.TheVariants.{Replay, Client, Save, Warm, Serve, Explain, Generate};
ghost use Rattle.sr_words.specs.declared.command.ReplayWords.{ReplayWords};
ghost use Rattle.sr_words.specs.declared.command.ClientWords.{ClientWords};
ghost use Rattle.sr_words.specs.declared.command.WarmWords.{WarmWords};
ghost use Rattle.sr_words.specs.declared.command.ServeWords.{ServeWords};
ghost use Rattle.sr_words.specs.declared.command.ExplainWords.{ExplainWords};
ghost use Rattle.sr_words.specs.declared.command.GenerateWords.{GenerateWords};
ghost use Rattle.sr_cli.specs.Client.{Dials};
ghost use Rattle.sr_cli.specs.Commands.{FitsWords, IsStatus};
ghost use Rattle.sr_cli.specs.Explain.{Explains};
ghost use Rattle.sr_cli.specs.Generate.{Generates};
ghost use Rattle.sr_cli.specs.Image.{SavesOver, WarmsOver};
ghost use Rattle.sr_cli.specs.Leaves.{Leaves, OnlyComplains, Says};
ghost use Rattle.sr_cli.specs.Replay.{Replays};
ghost use Rattle.sr_cli.specs.Serve.{Serves};

use crate::client::run_client;
use crate::explain::run_explain;
use crate::generate::run_generate;
use crate::replay::run_replay;
use crate::save::run_save;
use crate::serve::run_serve;
use crate::warm::run_warm;
use sr_cell::text::Text;
use sr_io::outside::Host;
use sr_words::command::Command;
use sr_words::fault::WordsFault;
use sr_words::read::command_of;
use std::alloc::Global;

/// Does all that the words ask for, and answers the status to end with.
pub fn run<H: Host>(alloc: Global, words: &[Text], host: &mut H) -> u8
    ensures only { IsStatus result }
    ensures words { FitsWords H H.reading H.writing H.linking host.old host.new words.now result }
    ensures replays { (w : ReplayWords) → command_said words.now ≡ Some (Replay w)
        → Replays H H.held H.reading H.writing H.linking H.complaints H.IsSteady host.old host.new w result }
    ensures dials { (w : ClientWords) → command_said words.now ≡ Some (Client w)
        → Dials H H.held H.reading H.writing H.linking H.complaints H.IsSteady host.old host.new w result }
    ensures saves { (w : ClientWords) → command_said words.now ≡ Some (Save w)
        → SavesOver H H.held H.reading H.writing H.linking H.complaints H.IsSteady host.old host.new w result }
    ensures warms { (w : WarmWords) → command_said words.now ≡ Some (Warm w)
        → WarmsOver H H.held H.reading H.writing H.linking H.complaints H.IsSteady host.old host.new w result }
    ensures serves { (w : ServeWords) → command_said words.now ≡ Some (Serve w)
        → Serves H H.held H.reading H.writing H.linking H.complaints H.IsSteady host.old host.new w result }
    ensures explains { (w : ExplainWords) → command_said words.now ≡ Some (Explain w)
        → Explains H H.held H.reading H.writing H.linking H.complaints H.IsSteady host.old host.new w result }
    ensures generates { (w : GenerateWords) → command_said words.now ≡ Some (Generate w)
        → Generates H H.reading H.writing H.linking H.IsSteady host.old host.new w result }
    ensures leaves { Leaves H H.held H.reading H.writing H.linking H.complaints H.IsSteady host.old host.new result }
{
    match command_of(alloc, words) {
        Ok(Command::Replay(words)) => run_replay(alloc, &words, host),
        Ok(Command::Serve(words)) => run_serve(alloc, &words, host),
        Ok(Command::Generate(words)) => run_generate(alloc, words, host),
        Ok(Command::Client(words)) => run_client(alloc, &words, host),
        Ok(Command::Save(words)) => run_save(alloc, &words, host),
        Ok(Command::Warm(words)) => run_warm(alloc, &words, host),
        Ok(Command::Explain(words)) => run_explain(alloc, &words, host),
        Err(WordsFault::NotInForm) => refuse_words(host),
        Err(WordsFault::NoMemory) => want_memory(host),
    }
}

/// Says that the words are in no form.
fn refuse_words<H: Host>(host: &mut H) -> u8
    ensures said { Says 2 result (H.complaints host.old) (H.complaints host.new) }
    ensures stays { OnlyComplains H H.reading H.writing H.linking H.held H.IsSteady host.old host.new }
{
    host.complain(b"words\n");
    2
}

/// Says that memory was refused.
fn want_memory<H: Host>(host: &mut H) -> u8
    ensures said { Says 9 result (H.complaints host.old) (H.complaints host.new) }
    ensures stays { OnlyComplains H H.reading H.writing H.linking H.held H.IsSteady host.old host.new }
{
    host.complain(b"memory\n");
    9
}
