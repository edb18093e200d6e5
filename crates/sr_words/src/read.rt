//! Reading the words.
ghost use Rattle.std.specs.Prelude.{◌≡◌, Some, None, true, map, IfOk, IsErrOf};
ghost use Rattle.clap.specs.Words.{found_of};
ghost use Rattle.clap.specs.Walk.{rows_of};
ghost use Rattle.clap.specs.Simple.{app_of};
ghost use Rattle.clap.specs.Faults.{is_simple_and_free};
ghost use Rattle.sr_words.specs.Forms.{rows_in};
ghost use Rattle.sr_words.specs.Words.{replay_words, client_words, kind_of, kind_words, save_words, warm_words, serve_words, explain_words, generate_words, command_by, command_of};
ghost use Rattle.sr_words.specs.Ranges.{IsInRange};
ghost use Rattle.sr_words.specs.Reads.{Reads};
ghost use Rattle.sr_words.specs.declared.fault.WordsFault.TheVariants.{NotInForm};

use crate::command::{
    ClientKind, ClientWords, Command, ExplainWords, GenerateWords, ReplayWords, ServeWords,
    WarmWords,
};
use crate::fault::WordsFault;
use crate::form::{client_form, explain_form, generate_form, replay_form, serve_form, warm_form};
use crate::said::{client_of, explain_of, generate_of, replay_of, serve_of, warm_of};
use clap::ArgMatches;
use clap::error::ErrorKind;
use sr_cell::list::NoMemory;
use sr_cell::text::Text;
use std::alloc::Global;

/// What the words ask for.
pub fn command_of(alloc: Global, words: &[Text]) -> Result<Command, WordsFault>
    ensures said { IfOk result (λ command. command_of words.now ≡ Some command) }
    ensures not_in_form { IsErrOf result NotInForm → command_of words.now ≡ None }
    ensures in_range { IfOk result IsInRange }
{
    match texts_of(alloc, words) {
        Err(_) => Err(WordsFault::NoMemory),
        Ok(texts) => command_in(alloc, texts.as_slice()),
    }
}

/// The words as texts that are lent.
fn texts_of(alloc: Global, words: &[Text]) -> Result<Vec<&str>, NoMemory>
    ensures { IfOk result (λ texts. map (λ t. t.now) texts.items ≡ words.now) }
{
    let mut texts = Vec::new(alloc);
    for word in words {
        texts.push(word.as_str())?;
    }
    Ok(texts)
}

/// What the words ask for, by the first of them.
#[tactic(auto, unfolding(crate::specs::Words::command_of))]
fn command_in(alloc: Global, words: &[&str]) -> Result<Command, WordsFault>
    ensures { Reads (command_of (map (λ w. w.now) words.now)) result }
{
    match words {
        [] => Err(WordsFault::NotInForm),
        [name, ..] => command_by(alloc, name, words),
    }
}

/// What the words ask for, by the name of a command.
fn command_by(alloc: Global, name: &str, words: &[&str]) -> Result<Command, WordsFault>
    ensures { Reads (command_by name.now (map (λ w. w.now) words.now)) result }
{
    match name {
        "replay" => match replay_in(alloc, words) {
            Ok(words) => Ok(Command::Replay(words)),
            Err(fault) => Err(fault),
        },
        "serve" => match serve_in(alloc, words) {
            Ok(words) => Ok(Command::Serve(words)),
            Err(fault) => Err(fault),
        },
        "explain" => match explain_in(alloc, words) {
            Ok(words) => Ok(Command::Explain(words)),
            Err(fault) => Err(fault),
        },
        "generate" => match generate_in(alloc, words) {
            Ok(words) => Ok(Command::Generate(words)),
            Err(fault) => Err(fault),
        },
        "save" => match client_in(alloc, "save", ClientKind::Client, words) {
            Ok(words) => Ok(Command::Save(words)),
            Err(fault) => Err(fault),
        },
        "warm" => match warm_in(alloc, words) {
            Ok(words) => Ok(Command::Warm(words)),
            Err(fault) => Err(fault),
        },
        name => match kind_in(alloc, name, words) {
            Ok(words) => Ok(Command::Client(words)),
            Err(fault) => Err(fault),
        },
    }
}

/// What the words say to a client, by the name of a kind.
fn kind_in(alloc: Global, name: &str, words: &[&str]) -> Result<ClientWords, WordsFault>
    ensures { Reads (kind_words name.now (map (λ w. w.now) words.now)) result }
{
    match kind_of(name) {
        Some(kind) => client_in(alloc, name, kind, words),
        None => Err(WordsFault::NotInForm),
    }
}

/// The kind of client that a name asks for.
fn kind_of(name: &str) -> Option<ClientKind>
    ensures { result ≡ kind_of name.now }
{
    match name {
        "client" => Some(ClientKind::Client),
        "report" => Some(ClientKind::Report),
        "semi" => Some(ClientKind::Semi),
        _ => None,
    }
}

/// What the words say to `warm`.
#[tactic(auto, using(crate::proofs::Simple::simple_warm))]
fn warm_in(alloc: Global, words: &[&str]) -> Result<WarmWords, WordsFault>
    ensures { Reads (warm_words (map (λ w. w.now) words.now)) result }
{
    match warm_form(alloc) {
        Err(_) => Err(WordsFault::NoMemory),
        Ok(form) => match found_in(form, words) {
            Ok(found) => warm_of(alloc, &found),
            Err(fault) => Err(fault),
        },
    }
}

/// What the words say to `replay`.
#[tactic(auto, using(crate::proofs::Simple::simple_replay))]
fn replay_in(alloc: Global, words: &[&str]) -> Result<ReplayWords, WordsFault>
    ensures { Reads (replay_words (map (λ w. w.now) words.now)) result }
{
    match replay_form(alloc) {
        Err(_) => Err(WordsFault::NoMemory),
        Ok(form) => match found_in(form, words) {
            Ok(found) => replay_of(alloc, &found),
            Err(fault) => Err(fault),
        },
    }
}

/// What the words say to a client of this kind, which is asked for by that name.
#[tactic(auto, using(crate::proofs::Simple::simple_client))]
fn client_in(
    alloc: Global,
    name: &str,
    kind: ClientKind,
    words: &[&str],
) -> Result<ClientWords, WordsFault>
    ensures { Reads (client_words name.now kind (map (λ w. w.now) words.now)) result }
{
    match client_form(alloc, name) {
        Err(_) => Err(WordsFault::NoMemory),
        Ok(form) => match found_in(form, words) {
            Ok(found) => client_of(alloc, kind, &found),
            Err(fault) => Err(fault),
        },
    }
}

/// What the words say to `serve`.
#[tactic(auto, using(crate::proofs::Simple::simple_serve))]
fn serve_in(alloc: Global, words: &[&str]) -> Result<ServeWords, WordsFault>
    ensures { Reads (serve_words (map (λ w. w.now) words.now)) result }
{
    match serve_form(alloc) {
        Err(_) => Err(WordsFault::NoMemory),
        Ok(form) => match found_in(form, words) {
            Ok(found) => serve_of(alloc, &found),
            Err(fault) => Err(fault),
        },
    }
}

/// What the words say to `explain`.
#[tactic(auto, using(crate::proofs::Simple::simple_explain))]
fn explain_in(alloc: Global, words: &[&str]) -> Result<ExplainWords, WordsFault>
    ensures { Reads (explain_words (map (λ w. w.now) words.now)) result }
{
    match explain_form(alloc) {
        Err(_) => Err(WordsFault::NoMemory),
        Ok(form) => match found_in(form, words) {
            Ok(found) => explain_of(alloc, &found),
            Err(fault) => Err(fault),
        },
    }
}

/// What the words say to `generate`.
#[tactic(auto, using(crate::proofs::Simple::simple_generate))]
fn generate_in(alloc: Global, words: &[&str]) -> Result<GenerateWords, WordsFault>
    ensures { Reads (generate_words (map (λ w. w.now) words.now)) result }
{
    match generate_form(alloc) {
        Err(_) => Err(WordsFault::NoMemory),
        Ok(form) => match found_in(form, words) {
            Ok(found) => match generate_of(&found) {
                Some(words) => Ok(words),
                None => Err(WordsFault::NotInForm),
            },
            Err(fault) => Err(fault),
        },
    }
}

/// What is found of the words, where they are in the form of the command.
fn found_in<'a>(
    command: clap::Command<'a>,
    words: &'a [&'a str],
) -> Result<ArgMatches<'a>, WordsFault>
    requires { is_simple_and_free (app_of command) ≡ true }
    ensures found { IfOk result (λ found. rows_in (app_of command.entry) (map (λ w. w.now) words.entry.now) ≡ Some (rows_of (found_of found))) }
    ensures refused { IsErrOf result NotInForm → rows_in (app_of command.entry) (map (λ w. w.now) words.entry.now) ≡ None }
{
    match command.try_get_matches_from(words) {
        Ok(found) => Ok(found),
        Err(error) => {
            if error.kind() == ErrorKind::OutOfMemory {
                Err(WordsFault::NoMemory)
            } else {
                Err(WordsFault::NotInForm)
            }
        }
    }
}
