//! Runs of `serve` and `generate`.
use crate::common::{Given, Outcome, ends, run_given};
use sr_cell::list::NoMemory;
use std::alloc::Global;

const SCHEMA: &[u8] = b"# people
CREATE TABLE p (id INT PRIMARY KEY CHECK (id BETWEEN 0 AND 9999), age INT CHECK (age BETWEEN 0 AND 150))
";

/// A hello of client 1 with number 0.
const HELLO: &[u8] = b"\x00\x00\x00\x0b\x01\x01\x01\0\0\0\0\0\0\0\0";

/// Its answer at version 0, which keeps nothing.
const WELCOME: &[u8] = b"\x00\x00\x00\x12\x11\0\0\0\0\0\0\0\0\0\0\0\0\0\0\0\0\0";

/// Runs the words over a schema file, an exec file and a file of rows; its one peer says hello.
fn run_with<'a>(
    alloc: Global,
    words: &[&str],
    schema: &'a [u8],
    exec: &'a [u8],
    fails: u64,
) -> Result<Outcome, NoMemory> {
    let given = Given {
        files: &[
            ("schema", schema),
            ("exec", exec),
            ("p.csv", b"id,age\n3,200\n"),
        ],
        peers: &[HELLO],
        fails,
    };
    run_given(alloc, words, given)
}

fn is_welcomed(alloc: Global) -> Result<bool, NoMemory> {
    let words = &["serve", "--schema", "schema", "a", "1"];
    let got = run_with(alloc, words, SCHEMA, b"", 0)?;
    let is_well = ends(&got, 0, b"listening\nconnection 1 end 1\n", b"");
    Ok(is_well && got.sent.as_slice() == WELCOME)
}

#[test]
fn a_hello_is_welcomed(rt: HostRuntime) {
    assert!(rt; is_welcomed(rt.alloc()) == Ok(true));
}

const WITH_EXEC: &[&str] = &["serve", "--exec", "exec", "--schema", "schema", "a", "1"];

/// A schema file, an exec file, and the call that fails. The calls 1 to 3 read the schema file, 4 and 5 an exec file without bytes, 6 docks,
/// and 7 writes the first line.
type Served<'a> = (&'a [u8], &'a [u8], u64);

/// Whether the run ends with this status, this output and this line on the error output.
fn ends_with(
    alloc: Global,
    words: &[&str],
    served: Served<'_>,
    wanted: (u8, &[u8], &[u8]),
) -> Result<bool, NoMemory> {
    let (schema, exec, fails) = served;
    let (status, output, error) = wanted;
    Ok(ends(
        &run_with(alloc, words, schema, exec, fails)?,
        status,
        output,
        error,
    ))
}

/// Words, what is served, and how the run ends.
static RUNS: [(&[&str], Served<'_>, (u8, &[u8], &[u8])); 14] = [
    (
        WITH_EXEC,
        (
            SCHEMA,
            b"# rows\n\nINSERT INTO p VALUES (1, 35)\r\nINSERT INTO p VALUES (1, 36)",
            0,
        ),
        (
            0,
            b"listening\nexec version 1\nexec refused duplicate-key 0\nconnection 1 end 1\n",
            b"",
        ),
    ),
    (
        &["serve", "--schema", "schema", "a", "2"],
        (SCHEMA, b"", 0),
        (5, b"listening\nconnection 1 end 1\n", b"link\n"),
    ),
    (WITH_EXEC, (SCHEMA, b"", 5), (3, b"", b"read\n")),
    (WITH_EXEC, (SCHEMA, b"", 6), (5, b"", b"link\n")),
    (WITH_EXEC, (SCHEMA, b"", 7), (4, b"", b"write\n")),
    (
        &["serve", "--schema", "none", "a", "1"],
        (SCHEMA, b"", 0),
        (3, b"", b"read\n"),
    ),
    (
        &["serve", "--exec", "none", "--schema", "schema", "a", "1"],
        (b"push 1", b"", 0),
        (3, b"", b"read\n"),
    ),
    (
        WITH_EXEC,
        (b"CREATE\npush 1", b"\xff", 0),
        (6, b"", b"line 2 0\n"),
    ),
    (WITH_EXEC, (b"push", b"\xff", 0), (6, b"", b"line 1 4\n")),
    (
        WITH_EXEC,
        (b"CREATE", b"x\nab\xff", 0),
        (6, b"", b"line 2 2\n"),
    ),
    (
        WITH_EXEC,
        (b"\nCREATE", b"x", 0),
        (7, b"", b"schema 2 grammar 6\n"),
    ),
    (
        &["serve", "--schema", "schema", "a", "1", "q=p.csv"],
        (SCHEMA, b"", 0),
        (7, b"", b"load q unknown\n"),
    ),
    (
        &["serve", "--schema", "schema", "a", "1", "p=p.csv"],
        (SCHEMA, b"", 0),
        (7, b"", b"load p 1 domain-cell\n"),
    ),
    (
        &["serve", "--schema", "schema", "a", "0"],
        (SCHEMA, b"", 0),
        (2, b"", b"words\n"),
    ),
];

#[test]
fn servers_end(rt: HostRuntime) {
    for (words, served, wanted) in &RUNS {
        assert!(rt;
            ends_with(rt.alloc(), words, *served, *wanted) == Ok(true),
            "{:?}",
            wanted.2
        );
    }
}

/// Whether the output has so many lines, with that one among them.
fn has_line(got: &Outcome, count: usize, place: usize, line: &str) -> bool {
    match str::from_utf8(got.output.as_slice()) {
        Ok(text) => text.lines().count() == count && text.lines().nth(place) == Some(line),
        Err(_) => false,
    }
}

/// The status of a run of these words, and whether its output has so many lines, with that one among them.
fn generated(
    alloc: Global,
    words: &[&str],
    count: usize,
    place: usize,
    line: &str,
) -> Result<(u8, bool), NoMemory> {
    let got = run_with(alloc, words, b"", b"", 0)?;
    Ok((got.status, has_line(&got, count, place, line)))
}

#[test]
fn a_script_is_generated(rt: HostRuntime) {
    let words = &["generate", "--script", "0", "1"];
    let line = "exec INSERT INTO t VALUES (0, 807, 24)";
    assert!(rt; generated(rt.alloc(), words, 202, 1, line) == Ok((0, true)));
}

/// 200 rows are 200 versions, and the one event of seed 0 is a query.
#[test]
fn a_summary_is_generated(rt: HostRuntime) {
    let words = &["generate", "0", "1"];
    assert!(rt; generated(rt.alloc(), words, 7, 6, "version 200") == Ok((0, true)));
}
