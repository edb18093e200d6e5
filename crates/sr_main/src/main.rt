//! The program: replays a script, explains a query behind it, serves tables, runs a client of a server, saves what it holds or starts from that, or makes
//! a script.
#![tactic(auto)]

ghost use Rattle.std.specs.Prelude.{◌≡◌, map, drop, string_bytes, IfOk};

use sr_cell::list::{No, NoMemory, Seq};
use sr_cell::text::Text;
use sr_cli::run::run;
use sr_io::outside::Host;
use sr_io::real_host::RealHost;
use std::alloc::Global;
use std::env;
use std::io::ErrorKind;
use std::process::ExitCode;

/// Ends with the status of `run`, or with 1, which is none of `run`, where the system does not give the words.
fn main(rt: HostRuntime) -> ExitCode {
    let alloc = rt.alloc();
    let words = words_of(&rt);
    let mut host = RealHost::new(rt);
    match words {
        Ok(words) => ExitCode::from(run(alloc, words.as_slice(), &mut host)),
        Err(No::Refused(NotGiven)) => ExitCode::from(1),
        Err(No::NoMemory) => {
            host.complain(b"memory\n");
            ExitCode::from(9)
        }
    }
}

/// The system does not give the words, or one of them is not UTF-8.
#[derive(Clone, Copy)]
struct NotGiven;

/// The words after the program's own name.
fn words_of(rt: &HostRuntime) -> Result<Seq<Text>, No<NotGiven>> {
    match env::args(rt) {
        Ok(all) => {
            let all: Vec<String> = match all.collect(rt.alloc()) {
                Ok(all) => all,
                Err(_) => return Err(No::NoMemory),
            };
            Ok(words_behind_first(rt.alloc(), &all)?)
        }
        Err(error) => {
            if error.kind() == ErrorKind::OutOfMemory {
                return Err(No::NoMemory);
            }
            Err(No::Refused(NotGiven))
        }
    }
}

/// All words but the first.
fn words_behind_first(alloc: Global, all: &[String]) -> Result<Seq<Text>, NoMemory>
    ensures { IfOk result (λ words. words ≡ map string_bytes (drop 1 all.now)) }
{
    let mut words = Seq::new(alloc);
    match all {
        [] => Ok(words),
        [_, rest @ ..] => {
            for word in rest {
                words.push(Text::of(alloc, word.as_str())?)?;
            }
            Ok(words)
        }
    }
}
