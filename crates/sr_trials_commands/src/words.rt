//! Words of each command, in its form and outside it.
use sr_cell::list::Seq;
use sr_cell::text::Text;
use sr_policy::policy::{Limits, Policy};
use sr_words::command::{Command, LoadWord, Setup};
use sr_words::fault::WordsFault;
use sr_words::read::command_of;
use std::alloc::Global;

// Two of these lines end with a blank: a name may be empty.
const IN_FORM: &str = "replay f
replay 
replay -
replay --eager --rows 0 --regions 0 --policy recency --log 0 --clients 8 f t=g u=h
replay f --eager t=g --rows=00000000000000200000 u=h --policy distance
replay --regions=1024 f --log 500000 --clients=1
replay -- --eager -t=g
replay f t==
client --id 1 --schema s a f
client a --id=64 --schema=- -
client --id 1 --schema= a f
client --id 1 --schema s  f
client --rows 1 --regions 2 --policy distance --id 3 --schema s 127.0.0.1:4711 f
report --id 1 --schema s --regions 0 a f
save --id 1 --schema s a f
save a --rows 1 --id=2 --schema=- f
warm --id 1 --schema s a f i
warm a --id=64 f --policy distance --schema s -
serve --schema s a 1
serve --log 5 --exec e --schema s a 1000000 t=g u=h
serve --schema s --exec= a 1
explain f SELECT
explain f 
explain --eager --clients 2 f SELECT
generate 0 1
generate --script 18446744073709551615 100000
generate 7 --script 00000000000000005000";

// The first of these lines is empty.
const IN_NO_FORM: &str = "
f
Replay f
replay
replay --eager
replay --help
replay -h f
replay --eager --eager f
replay --eager= f
replay --rows 1 --rows 2 f
replay --rows 1 --rows=1 f
replay --row 1 f
replay --rows f
replay --rows= f
replay --rows -1 f
replay --rows=-1 f
replay --rows +1 f
replay --rows 1x f
replay --rows 200001 f
replay --rows 000000000000000000001 f
replay --regions 1025 f
replay --log 500001 f
replay --clients 0 f
replay --clients 9 f
replay --policy random f
replay --policy - f
replay f g
replay f =g
replay f t=
replay f -t=g
replay f --x=g
replay f t=g -
client --schema s a f
client --id 0 --schema s a f
client --id 65 --schema s a f
client --id=65 --schema s a f
client --id 1 a f
client --id 1 --schema s a
client --id 1 --schema s a f g
client --id 1 --schema -s a f
client --id 1 --schema s --log 1 a f
report --id 65 --schema s a f
report --id 1 a f
report --id 1 --schema s a f g
report --eager --id 1 --schema s a f
Report --id 1 --schema s a f
save --id 1 --schema s a f i
save --id 0 --schema s a f
save --eager --id 1 --schema s a f
warm --id 1 --schema s a f
warm --id 1 --schema s a f i j
warm --id 65 --schema s a f i
semi --id 65 --schema s a f
semi --id 1 --schema s a f g
serve a 1
serve --schema s a
serve --schema s a 0
serve --schema s a 1000001
serve --schema s --rows 1 a 1
serve --schema s a 1 t
explain f
explain f SELECT x
generate 1
generate 1 0
generate 1 100001
generate 18446744073709551616 1
generate -1 1
generate 1 1 1
generate --script=1 1 1";

/// What the words, which are cut at blanks, ask for.
fn asked(alloc: Global, line: &str) -> Result<Command, WordsFault> {
    let mut words = Seq::new(alloc);
    for word in line.split(' ') {
        words.push(Text::of(alloc, word)?)?;
    }
    command_of(alloc, words.as_slice())
}

/// Whether the words are taken, or nothing where memory is wanting.
fn is_taken(alloc: Global, line: &str) -> Option<bool> {
    match asked(alloc, line) {
        Ok(_) => Some(true),
        Err(WordsFault::NotInForm) => Some(false),
        Err(_) => None,
    }
}

/// The first line whose words are not taken, or of which words are.
fn other_line<'a>(alloc: Global, lines: &'a str, wanted: bool) -> Option<&'a str> {
    for line in lines.split('\n') {
        if is_taken(alloc, line) != Some(wanted) {
            return Some(line);
        }
    }
    None
}

#[test]
fn words_in_a_form_are_taken(rt: HostRuntime) {
    assert_eq!(rt; other_line(rt.alloc(), IN_FORM, true), None);
}

#[test]
fn other_words_are_refused(rt: HostRuntime) {
    assert_eq!(rt; other_line(rt.alloc(), IN_NO_FORM, false), None);
}

const SETUP: Setup = Setup {
    eager: true,
    limits: Limits {
        rows: 10_000,
        regions: 64,
        policy: Policy::Distance,
    },
    log: 100_000,
    clients: 3,
};

fn is_load(load: &LoadWord, table: &str, file: &str) -> bool {
    load.table.as_str() == table && load.file.as_str() == file
}

/// Whether `replay` is asked for, with these rules, this script and two loads.
fn are_read(command: Command) -> bool {
    match command {
        Command::Replay(words) => match words.loads.as_slice() {
            [one, other] => {
                words.setup == SETUP
                    && words.script.as_str() == "f"
                    && is_load(one, "t", "g=h")
                    && is_load(other, "u", "i")
            }
            _ => false,
        },
        _ => false,
    }
}

#[test]
fn values_are_read(rt: HostRuntime) {
    let line = "replay f t=g=h --policy=distance --eager u=i --clients 3";
    match asked(rt.alloc(), line) {
        Ok(command) => assert!(rt; are_read(command)),
        Err(_) => assert!(rt; false),
    }
}
