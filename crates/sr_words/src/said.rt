//! What the words say to a command, by what `clap` found.
ghost use Rattle.std.specs.Prelude.{◌≡◌, ◌≤◌, option_map, IfSome};
ghost use Rattle.clap.specs.Words.{found_of};
ghost use Rattle.clap.specs.Walk.{rows_of, first_of};
ghost use Rattle.sr_words.specs.Words.{limits_of, log_of, setup_of, loads_of, replay_of, client_of, warm_of, serve_of, explain_of, generate_of};
ghost use Rattle.sr_words.specs.Reads.{Reads};

use crate::command::{
    ClientKind, ClientWords, ExplainWords, GenerateWords, LoadWords, ReplayWords, ServeWords,
    Setup, WarmWords,
};
use crate::fault::WordsFault;
use crate::value::{
    Range, is_said, load_words, number_in, number_or, policy_of, text_of, text_or_none,
};
use clap::ArgMatches;
use sr_cell::list::Seq;
use sr_policy::policy::Limits;
use std::alloc::Global;

/// How many rows a client keeps.
const ROWS: Range = Range {
    least: 0,
    most: 200_000,
};

/// How many regions a client keeps.
const REGIONS: Range = Range {
    least: 0,
    most: 1_024,
};

/// How many changes the log of the server keeps.
const LOG: Range = Range {
    least: 0,
    most: 500_000,
};

/// How many clients there are.
const CLIENTS: Range = Range { least: 1, most: 8 };

/// The number of a client.
const ID: Range = Range { least: 1, most: 64 };

/// How many connections are served.
const COUNT: Range = Range {
    least: 1,
    most: 1_000_000,
};

/// What a script is made from.
const SEED: Range = Range {
    least: 0,
    most: u64::MAX,
};

/// How many events are made.
const EVENTS: Range = Range {
    least: 1,
    most: 100_000,
};

/// What the words say to `replay`.
pub fn replay_of(alloc: Global, found: &ArgMatches<'_>) -> Result<ReplayWords, WordsFault>
    ensures { Reads (replay_of (rows_of (found_of found.now))) result }
{
    let setup = setup_of(found).ok_or(WordsFault::NotInForm)?;
    let script = text_of(alloc, value(found, "file"))?;
    let loads = loads_of(alloc, found)?;
    Ok(ReplayWords {
        setup,
        script,
        loads,
    })
}

/// What the words say to a client of this kind.
pub fn client_of(
    alloc: Global,
    kind: ClientKind,
    found: &ArgMatches<'_>,
) -> Result<ClientWords, WordsFault>
    ensures { Reads (client_of kind (rows_of (found_of found.now))) result }
{
    let limits = limits_of(found).ok_or(WordsFault::NotInForm)?;
    let id = number_in(ID, value(found, "id")).ok_or(WordsFault::NotInForm)? as u8;
    let schema = text_of(alloc, value(found, "schema"))?;
    let address = text_of(alloc, value(found, "address"))?;
    let script = text_of(alloc, value(found, "file"))?;
    Ok(ClientWords {
        kind,
        limits,
        id,
        schema,
        address,
        script,
    })
}

/// What the words say to `warm`.
pub fn warm_of(alloc: Global, found: &ArgMatches<'_>) -> Result<WarmWords, WordsFault>
    ensures { Reads (warm_of (rows_of (found_of found.now))) result }
{
    let client = client_of(alloc, ClientKind::Client, found)?;
    let image = text_of(alloc, value(found, "image"))?;
    Ok(WarmWords { client, image })
}

/// What the words say to `serve`.
pub fn serve_of(alloc: Global, found: &ArgMatches<'_>) -> Result<ServeWords, WordsFault>
    ensures { Reads (serve_of (rows_of (found_of found.now))) result }
{
    let log = log_of(found).ok_or(WordsFault::NotInForm)?;
    let schema = text_of(alloc, value(found, "schema"))?;
    let address = text_of(alloc, value(found, "address"))?;
    let count = number_in(COUNT, value(found, "count")).ok_or(WordsFault::NotInForm)? as u32;
    let exec = text_or_none(alloc, value(found, "exec"))?;
    let loads = loads_of(alloc, found)?;
    Ok(ServeWords {
        log,
        exec,
        schema,
        address,
        count,
        loads,
    })
}

/// What the words say to `explain`.
pub fn explain_of(alloc: Global, found: &ArgMatches<'_>) -> Result<ExplainWords, WordsFault>
    ensures { Reads (explain_of (rows_of (found_of found.now))) result }
{
    let setup = setup_of(found).ok_or(WordsFault::NotInForm)?;
    let script = text_of(alloc, value(found, "file"))?;
    let sql = text_of(alloc, value(found, "sql"))?;
    Ok(ExplainWords { setup, script, sql })
}

/// What the words say to `generate`.
pub fn generate_of(found: &ArgMatches<'_>) -> Option<GenerateWords>
    ensures { result ≡ generate_of (rows_of (found_of found.now)) }
{
    let seed = number_in(SEED, value(found, "seed"))?;
    let events = number_in(EVENTS, value(found, "events"))?;
    Some(GenerateWords {
        whole_script: is_said(value(found, "script")),
        seed,
        events: events as u32,
    })
}

/// How a script is replayed.
fn setup_of(found: &ArgMatches<'_>) -> Option<Setup>
    ensures { result ≡ setup_of (rows_of (found_of found.now)) }
{
    let limits = limits_of(found)?;
    let log = log_of(found)?;
    let clients = number_or(1, CLIENTS, value(found, "clients"))?;
    Some(Setup {
        eager: is_said(value(found, "eager")),
        limits,
        log,
        clients: clients as u8,
    })
}

/// What a client may keep.
fn limits_of(found: &ArgMatches<'_>) -> Option<Limits>
    ensures { result ≡ limits_of (rows_of (found_of found.now)) }
{
    let rows = number_or(10_000, ROWS, value(found, "rows"))?;
    let regions = number_or(64, REGIONS, value(found, "regions"))?;
    let policy = policy_of(value(found, "policy"))?;
    Some(Limits {
        rows: rows as u32,
        regions: regions as u32,
        policy,
    })
}

/// How many changes the log keeps.
fn log_of(found: &ArgMatches<'_>) -> Option<u32>
    ensures { result ≡ log_of (rows_of (found_of found.now)) }
{
    let log = number_or(100_000, LOG, value(found, "log"))?;
    Some(log as u32)
}

/// The loads that the words say.
fn loads_of(alloc: Global, found: &ArgMatches<'_>) -> Result<LoadWords, WordsFault>
    ensures { Reads (loads_of (rows_of (found_of found.now))) result }
{
    match found.get_strs("loads") {
        Some(words) => load_words(alloc, words),
        None => Ok(Seq::new(alloc)),
    }
}

/// The first value of this name.
fn value<'a>(found: &ArgMatches<'a>, name: &str) -> Option<&'a str>
    ensures { option_map (λ v. v.now) result ≡ first_of name.now (rows_of (found_of found.now)) }
{
    found.get_str(name)
}
