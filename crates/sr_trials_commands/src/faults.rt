//! Runs of `client` whose link ends, fails or lies: behind each byte of what the peer says, at each call of the host, and at a byte
//! of a frame that is another.
ghost use Rattle.std.specs.Prelude.{◌<◌, ◌≤◌};

use crate::clients::{ANSWERED, ANSWERS, SCHEMA, SCRIPT, WORDS};
use crate::common::{Given, Outcome, ends, run_in_pieces};
use sr_cell::list::NoMemory;
use std::alloc::Global;

/// The link ends before the welcome is whole.
const NOT_WELCOME: &[u8] = b"0 resume 1 sent 0
0 fail 1 resume 0
0 cut 1 1
1 query 1 down 1
";

/// It ends before the rows are whole.
const NOT_LAID: &[u8] = b"0 resume 1 sent 0
0 toclient 1 welcome 2 fresh
1 ask 1 1 fresh 1
1 part emp (id,age) {age 30..40}
1 query 1 asked 1
1 fail 1 query 1
1 cut 1 1
";

/// It ends before the reply is whole.
const NOT_ANSWERED: &[u8] = b"0 resume 1 sent 0
0 toclient 1 welcome 2 fresh
1 ask 1 1 fresh 1
1 part emp (id,age) {age 30..40}
1 query 1 asked 1
1 toclient 1 laid
1 fail 1 query 1
1 cut 1 1
";

/// What stands behind the reply that must be refused, and behind the rows that must be.
const LAID: &[u8] = b"0 resume 1 sent 0
0 toclient 1 welcome 2 fresh
1 ask 1 1 fresh 1
1 part emp (id,age) {age 30..40}
1 query 1 asked 1
1 toclient 1 laid
";

const ASKED: &[u8] = b"0 resume 1 sent 0
0 toclient 1 welcome 2 fresh
1 ask 1 1 fresh 1
1 part emp (id,age) {age 30..40}
1 query 1 asked 1
";

/// The same frames, but for the reply's number, 2.
const REPLY_OF_ANOTHER: &[u8] =
    b"\x00\x00\x00\x12\x11\0\0\0\0\0\0\0\0\0\0\0\0\0\0\0\x02\0\x00\x00\x00\x32\x13\0\0\0\0\0\0\0\x01\0\0\x02\x02\0\0\0\0\0\0\0\0\x01\0\0\0\0\0\0\0\0\x23\x02\0\0\0\0\0\0\0\0\x03\0\0\0\0\0\0\0\0\x21\x00\x00\x00\x11\x14\0\0\0\0\0\0\0\x02\0\0\0\0\0\0\0\x02";

/// The same frames, but for the first row's age, 41.
const ROW_OUTSIDE: &[u8] =
    b"\x00\x00\x00\x12\x11\0\0\0\0\0\0\0\0\0\0\0\0\0\0\0\x02\0\x00\x00\x00\x32\x13\0\0\0\0\0\0\0\x01\0\0\x02\x02\0\0\0\0\0\0\0\0\x01\0\0\0\0\0\0\0\0\x29\x02\0\0\0\0\0\0\0\0\x03\0\0\0\0\0\0\0\0\x21\x00\x00\x00\x11\x14\0\0\0\0\0\0\0\x01\0\0\0\0\0\0\0\x02";

/// A run of the script, whose peer says this, and of which the call of that number fails (0: none).
fn run_of(alloc: Global, says: &[u8], fails: u64, piece: usize) -> Result<Outcome, NoMemory>
    requires { 0 < piece }
{
    let given = Given {
        files: &[("schema", SCHEMA), ("script", SCRIPT)],
        peers: &[says],
        fails,
    };
    run_in_pieces(alloc, WORDS, given, piece)
}

/// Where the lines of a link that ends behind so many bytes end.
fn lines_behind(length: usize) -> &'static [u8] {
    if length < 22 {
        NOT_WELCOME
    } else if length < 76 {
        NOT_LAID
    } else {
        NOT_ANSWERED
    }
}

/// Whether a link that ends behind so many bytes ends the run so.
fn is_cut_behind(alloc: Global, length: usize, piece: usize) -> Result<bool, NoMemory>
    requires length { length < 97 }
    requires piece { 0 < piece }
{
    let got = run_of(alloc, &ANSWERS[..length], 0, piece)?;
    Ok(ends(&got, 5, lines_behind(length), b"link\n"))
}

#[test]
fn a_link_that_ends_behind_any_byte(rt: HostRuntime) {
    for length in 0..97usize {
        assert!(rt;
            is_cut_behind(rt.alloc(), length, 4096) == Ok(true),
            "{length}"
        );
        assert!(rt;
            is_cut_behind(rt.alloc(), length, 1) == Ok(true),
            "{length} by 1"
        );
    }
    let whole = run_of(rt.alloc(), ANSWERS, 0, 1);
    assert!(rt; is_whole(whole) == Ok(true));
}

fn is_whole(got: Result<Outcome, NoMemory>) -> Result<bool, NoMemory> {
    Ok(ends(&got?, 0, ANSWERED, b""))
}

/// Whether it is one of the outputs of a link that ends, or a beginning of that of one that does not.
fn is_known(output: &[u8]) -> bool {
    output == NOT_WELCOME
        || output == NOT_LAID
        || output == NOT_ANSWERED
        || ANSWERED.starts_with(output)
}

/// The error line of a status.
fn line_of(status: u8) -> &'static [u8] {
    match status {
        0 => b"",
        3 => b"read\n",
        4 => b"write\n",
        5 => b"link\n",
        _ => b"another",
    }
}

/// How a run ended of which one call failed, where it ended as it may: its status.
fn ended(got: Result<Outcome, NoMemory>) -> u8 {
    match got {
        Ok(got) => {
            if is_known(got.output.as_slice()) && got.error.as_slice() == line_of(got.status) {
                got.status
            } else {
                100
            }
        }
        Err(_) => 101,
    }
}

/// The statuses of the runs of which the first call fails, the second, and so on, up to one without a failure. The calls: both files
/// are picked and read to their ends; the client dials, sends its first message and writes its line, takes the welcome, writes;
/// it sends its ask, writes, takes the rest, writes, writes. What is taken in one call may hold several frames.
static STATUSES: [u8; 17] = [3, 3, 3, 3, 3, 3, 5, 5, 4, 5, 4, 5, 4, 4, 4, 0, 0];

#[test]
fn a_host_of_which_any_call_fails(rt: HostRuntime) {
    let mut fails: u64 = 0;
    for wanted in &STATUSES {
        fails = fails.saturating_add(1);
        let status = ended(run_of(rt.alloc(), ANSWERS, fails, 4096));
        assert!(rt; status == *wanted, "call {fails}: {status}");
    }
}

#[test]
fn any_call_fails_byte_by_byte(rt: HostRuntime) {
    let mut reads: u64 = 0;
    let mut writes: u64 = 0;
    let mut links: u64 = 0;
    let mut last: u8 = 1;
    for fails in 1..700u64 {
        let status = ended(run_of(rt.alloc(), ANSWERS, fails, 1));
        assert!(rt; status < 100, "call {fails}: {status}");
        if status == 3 {
            reads = reads.saturating_add(1);
        }
        if status == 4 {
            writes = writes.saturating_add(1);
        }
        if status == 5 {
            links = links.saturating_add(1);
        }
        last = status;
    }
    assert!(rt; last == 0);
    // two picks, the bytes of both files and their ends
    assert!(rt; reads == 222, "{reads} reads");
    // the bytes of the output
    assert!(rt; writes == 232, "{writes} writes");
    // the dial, the bytes of a Hello, of an Ask and of what came
    assert!(rt; links == 156, "{links} links");
}

#[test]
fn a_reply_of_another_request_is_refused(rt: HostRuntime) {
    let got = run_of(rt.alloc(), REPLY_OF_ANOTHER, 0, 4096);
    assert!(rt; is_refused(got, LAID, b"frame number\n") == Ok(true));
}

#[test]
fn a_row_outside_is_refused(rt: HostRuntime) {
    let got = run_of(rt.alloc(), ROW_OUTSIDE, 0, 4096);
    assert!(rt; is_refused(got, ASKED, b"frame shape\n") == Ok(true));
}

fn is_refused(
    got: Result<Outcome, NoMemory>,
    output: &[u8],
    line: &[u8],
) -> Result<bool, NoMemory> {
    Ok(ends(&got?, 8, output, line))
}
