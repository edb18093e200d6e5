//! The words of each command, for `clap`.
ghost use Rattle.std.specs.Prelude.{◌≡◌, [], Some, None, true, false, not, map, IfOk};
ghost use Rattle.std.specs.List.{list_all};
ghost use Rattle.clap.specs.Words.{found_of};
ghost use Rattle.clap.specs.Walk.{rows_of, rule_of};
ghost use Rattle.clap.specs.Simple.{app_of};
ghost use Rattle.clap.specs.Faults.{fault_of, is_simple_and_free};
ghost use Rattle.sr_words.specs.Forms.{flag_rule, option_rule, needed_rule, word_rule, rest_rule, form, replay_form, client_form, warm_form, serve_form, explain_form, generate_form};

use clap::{Arg, ArgAction, Command};
use sr_cell::list::NoMemory;
use std::alloc::Global;

/// `--name`.
fn flag<'a>(alloc: Global, name: &'a str) -> Arg<'a>
    ensures rule { rule_of result ≡ flag_rule name.entry.now }
    ensures own { result.global ≡ false }
{
    Arg::new(alloc, name).long(name).action(ArgAction::SetTrue)
}

/// `--name VALUE`, at most once.
fn option<'a>(alloc: Global, name: &'a str) -> Arg<'a>
    ensures rule { rule_of result ≡ option_rule name.entry.now }
    ensures own { result.global ≡ false }
{
    Arg::new(alloc, name).long(name).action(ArgAction::Set)
}

/// `--name VALUE`, exactly once.
fn needed<'a>(alloc: Global, name: &'a str) -> Arg<'a>
    ensures rule { rule_of result ≡ needed_rule name.entry.now }
    ensures own { result.global ≡ false }
{
    Arg::new(alloc, name)
        .long(name)
        .action(ArgAction::Set)
        .required(true)
}

/// A word that has to be there.
fn word<'a>(alloc: Global, name: &'a str) -> Arg<'a>
    ensures rule { rule_of result ≡ word_rule name.entry.now }
    ensures own { result.global ≡ false }
{
    Arg::new(alloc, name).action(ArgAction::Set).required(true)
}

/// All words behind those.
fn rest<'a>(alloc: Global, name: &'a str) -> Arg<'a>
    ensures rule { rule_of result ≡ rest_rule name.entry.now }
    ensures own { result.global ≡ false }
{
    Arg::new(alloc, name)
        .action(ArgAction::Append)
        .num_args(0..)
}

/// The command of this name with these words, and no option for help.
fn command<'a>(alloc: Global, name: &'a str, args: Vec<Arg<'a>>) -> Result<Command<'a>, NoMemory>
    requires { list_all (λ a. not a.global) args.items ≡ true }
    ensures { IfOk result (λ c. app_of c ≡ form name.entry.now (map rule_of args.entry.items)) }
{
    let bare = Command::new(alloc, name).disable_help_flag(true);
    Ok(bare.args(args)?)
}

/// The form of `replay`.
pub fn replay_form<'a>(alloc: Global) -> Result<Command<'a>, NoMemory>
    ensures { IfOk result (λ c. app_of c ≡ replay_form) }
{
    let args = vec![in alloc;
        flag(alloc, "eager"),
        option(alloc, "rows"),
        option(alloc, "regions"),
        option(alloc, "policy"),
        option(alloc, "log"),
        option(alloc, "clients"),
        word(alloc, "file"),
        rest(alloc, "loads"),
    ]?;
    command(alloc, "replay", args)
}

/// The form of `client`, under this name.
pub fn client_form<'a>(alloc: Global, name: &'a str) -> Result<Command<'a>, NoMemory>
    ensures { IfOk result (λ c. app_of c ≡ client_form name.entry.now) }
{
    let args = vec![in alloc;
        option(alloc, "rows"),
        option(alloc, "regions"),
        option(alloc, "policy"),
        needed(alloc, "id"),
        needed(alloc, "schema"),
        word(alloc, "address"),
        word(alloc, "file"),
    ]?;
    command(alloc, name, args)
}

/// The form of `warm`.
pub fn warm_form<'a>(alloc: Global) -> Result<Command<'a>, NoMemory>
    ensures { IfOk result (λ c. app_of c ≡ warm_form) }
{
    let args = vec![in alloc;
        option(alloc, "rows"),
        option(alloc, "regions"),
        option(alloc, "policy"),
        needed(alloc, "id"),
        needed(alloc, "schema"),
        word(alloc, "address"),
        word(alloc, "file"),
        word(alloc, "image"),
    ]?;
    command(alloc, "warm", args)
}

/// The form of `serve`.
pub fn serve_form<'a>(alloc: Global) -> Result<Command<'a>, NoMemory>
    ensures { IfOk result (λ c. app_of c ≡ serve_form) }
{
    let args = vec![in alloc;
        option(alloc, "log"),
        option(alloc, "exec"),
        needed(alloc, "schema"),
        word(alloc, "address"),
        word(alloc, "count"),
        rest(alloc, "loads"),
    ]?;
    command(alloc, "serve", args)
}

/// The form of `explain`.
pub fn explain_form<'a>(alloc: Global) -> Result<Command<'a>, NoMemory>
    ensures { IfOk result (λ c. app_of c ≡ explain_form) }
{
    let args = vec![in alloc;
        flag(alloc, "eager"),
        option(alloc, "rows"),
        option(alloc, "regions"),
        option(alloc, "policy"),
        option(alloc, "log"),
        option(alloc, "clients"),
        word(alloc, "file"),
        word(alloc, "sql"),
    ]?;
    command(alloc, "explain", args)
}

/// The form of `generate`.
pub fn generate_form<'a>(alloc: Global) -> Result<Command<'a>, NoMemory>
    ensures { IfOk result (λ c. app_of c ≡ generate_form) }
{
    let args = vec![in alloc;
        flag(alloc, "script"),
        word(alloc, "seed"),
        word(alloc, "events"),
    ]?;
    command(alloc, "generate", args)
}
