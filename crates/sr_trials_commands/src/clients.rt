//! Runs of `client`.
ghost use Rattle.std.specs.Prelude.{◌<◌};

use crate::common::{Given, ends, run_given};
use sr_cell::list::NoMemory;
use std::alloc::Global;

pub const SCHEMA: &[u8] =
    b"CREATE TABLE emp (id INT PRIMARY KEY CHECK (id BETWEEN 0 AND 9999), age INT CHECK (age BETWEEN 0 AND 150), name TEXT, dept INT CHECK (dept BETWEEN 0 AND 99))\n";

pub const SCRIPT: &[u8] = b"query 1 SELECT id, age FROM emp WHERE age BETWEEN 30 AND 40\n";

/// A welcome of a new session at version 2, rows (1, 35) and (3, 33) of request 1, and its reply at version 2.
pub const ANSWERS: &[u8] =
    b"\x00\x00\x00\x12\x11\0\0\0\0\0\0\0\0\0\0\0\0\0\0\0\x02\0\x00\x00\x00\x32\x13\0\0\0\0\0\0\0\x01\0\0\x02\x02\0\0\0\0\0\0\0\0\x01\0\0\0\0\0\0\0\0\x23\x02\0\0\0\0\0\0\0\0\x03\0\0\0\0\0\0\0\0\x21\x00\x00\x00\x11\x14\0\0\0\0\0\0\0\x01\0\0\0\0\0\0\0\x02";

pub const ANSWERED: &[u8] = b"0 resume 1 sent 0
0 toclient 1 welcome 2 fresh
1 ask 1 1 fresh 1
1 part emp (id,age) {age 30..40}
1 query 1 asked 1
1 toclient 1 laid
1 answer 1 1 2 2
1 row 1, 35
1 row 3, 33
1 held 1 emp (id,age) {age 30..40}
1 toclient 1 answered
";

const EXPLAINS: &[u8] = b"explain 1 SELECT id, age FROM emp WHERE age BETWEEN 35 AND 50
query 1 SELECT id, age FROM emp WHERE age BETWEEN 30 AND 40
explain 1 SELECT id, age FROM emp WHERE age BETWEEN 35 AND 50
explain 1 SELECT nix FROM emp
cut 1
explain 1 SELECT id, age FROM emp WHERE age BETWEEN 35 AND 50
";

const EXPLAINED: &[u8] = b"0 resume 1 sent 0
0 toclient 1 welcome 2 fresh
1 need emp (id,age)
1 rest emp (id,age) {age 35..50}
1 explain 1 2
2 ask 1 1 fresh 1
2 part emp (id,age) {age 30..40}
2 query 1 asked 1
2 toclient 1 laid
2 answer 1 1 2 2
2 row 1, 35
2 row 3, 33
2 held 1 emp (id,age) {age 30..40}
2 toclient 1 answered
3 need emp (id,age)
3 probe emp (id,age) 1 {age 35..40}
3 rest emp (id,age) {age 41..50}
3 victim 1 emp (id,age) 1 2
3 explain 1 2
4 explain 1 sql unknown-column 7
5 cut 1 1
6 need emp (id,age)
6 probe emp (id,age) 1 {age 35..40}
6 rest emp (id,age) {age 41..50}
6 victim 1 emp (id,age) 1 2
6 explain 1 2
";

pub const WORDS: &[&str] = &["client", "--id", "1", "--schema", "schema", "a", "script"];

/// Whether the run of a script whose one peer says this ends with this status, this output and this line on the error output.
fn ends_with(
    alloc: Global,
    words: &[&str],
    script: &[u8],
    says: &[u8],
    wanted: (u8, &[u8], &[u8]),
) -> Result<bool, NoMemory> {
    let given = Given {
        files: &[("schema", SCHEMA), ("script", script)],
        peers: &[says],
        fails: 0,
    };
    let (status, output, error) = wanted;
    Ok(ends(&run_given(alloc, words, given)?, status, output, error))
}

const RESUMED: &[u8] = b"0 resume 1 sent 0\n";

/// Words, a script, what the peer says, and how the run ends.
static RUNS: [(&[&str], &[u8], &[u8], (u8, &[u8], &[u8])); 7] = [
    (WORDS, SCRIPT, ANSWERS, (0, ANSWERED, b"")),
    (
        WORDS,
        SCRIPT,
        b"\x08\x00\x00\x01",
        (8, RESUMED, b"frame long 134217729\n"),
    ),
    (
        WORDS,
        b"",
        b"\x00\x00\x00\x12\x11\0\0\0\0\0\0\0\x01\0\0\0\0\0\0\0\x02\0",
        (8, RESUMED, b"frame number\n"),
    ),
    (
        WORDS,
        b"",
        b"",
        (
            5,
            b"0 resume 1 sent 0\n0 fail 1 resume 0\n0 cut 1 1\n",
            b"link\n",
        ),
    ),
    (
        WORDS,
        SCRIPT,
        b"\x00\x00\x00\x12\x11\0\0\0\0\0\0\0\0",
        (
            5,
            b"0 resume 1 sent 0\n0 fail 1 resume 0\n0 cut 1 1\n1 query 1 down 1\n",
            b"link\n",
        ),
    ),
    (WORDS, b"cut 1\ncut 2", b"", (6, b"", b"line 2 4\n")),
    (
        &["client", "--id", "65", "--schema", "schema", "a", "script"],
        SCRIPT,
        b"",
        (2, b"", b"words\n"),
    ),
];

#[test]
fn clients_end(rt: HostRuntime) {
    for (words, script, says, wanted) in &RUNS {
        assert!(rt; ends_with(rt.alloc(), words, script, says, *wanted) == Ok(true));
    }
}

const EXPLAINED_ALONE: &[u8] = b"0 resume 1 sent 0
0 fail 1 resume 0
0 cut 1 1
1 need emp (id)
1 rest emp (id) {}
1 explain 1 0
";

#[test]
fn clients_explain_with_a_link(rt: HostRuntime) {
    let wanted: (u8, &[u8], &[u8]) = (0, EXPLAINED, b"");
    assert!(rt; ends_with(rt.alloc(), WORDS, EXPLAINS, ANSWERS, wanted) == Ok(true));
}

#[test]
fn clients_explain_without_a_link(rt: HostRuntime) {
    let script = b"explain 1 SELECT id FROM emp";
    let wanted: (u8, &[u8], &[u8]) = (5, EXPLAINED_ALONE, b"link\n");
    assert!(rt; ends_with(rt.alloc(), WORDS, script, b"", wanted) == Ok(true));
}

/// Whether a link that ends behind so many bytes of a welcome is cut.
fn is_cut_behind(alloc: Global, length: usize) -> Result<bool, NoMemory>
    requires { length < 22 }
{
    let cut: &[u8] = b"0 resume 1 sent 0\n0 fail 1 resume 0\n0 cut 1 1\n";
    ends_with(alloc, WORDS, b"", &ANSWERS[..length], (5, cut, b"link\n"))
}

#[test]
fn a_welcome_that_is_not_whole_is_a_cut(rt: HostRuntime) {
    for length in 0..22usize {
        assert!(rt; is_cut_behind(rt.alloc(), length) == Ok(true), "{length}");
    }
}
