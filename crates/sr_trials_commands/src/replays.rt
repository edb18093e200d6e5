//! Runs of `replay` and `explain`.
use crate::common::{Given, Outcome, ends, run_given};
use sr_cell::list::NoMemory;
use std::alloc::Global;

const CREATE_ALONE: &str =
    "CREATE TABLE p (id INT PRIMARY KEY CHECK (id BETWEEN 0 AND 9999), age INT CHECK (age BETWEEN 0 AND 150))
";

const TWO_QUERIES: &str =
    "CREATE TABLE p (id INT PRIMARY KEY CHECK (id BETWEEN 0 AND 9999), age INT CHECK (age BETWEEN 0 AND 150))
exec INSERT INTO p VALUES (1, 35), (2, 45)
exec INSERT INTO p VALUES (3, 33)
query 1 SELECT id, age FROM p WHERE age BETWEEN 30 AND 40
query 1 SELECT id, age FROM p WHERE age BETWEEN 35 AND 50
";

const TWO_QUERIES_TRACE: &str = "2 exec version 1
3 exec version 2
4 ask 1 1 fresh 1
4 part p (id,age) {age 30..40}
4 query 1 asked 1
4 toserver 1 ask 2
4 toclient 1 laid
4 answer 1 1 2 2
4 row 1, 35
4 row 3, 33
4 held 1 p (id,age) {age 30..40}
4 toclient 1 answered
5 ask 1 2 more 1
5 part p (id,age) {age 41..50}
5 query 1 asked 2
5 toserver 1 ask 2
5 toclient 1 laid
5 answer 1 2 2 2
5 row 1, 35
5 row 2, 45
5 held 1 p (id,age) {age 41..50}
5 toclient 1 answered
";

/// A change of a row that is held, and a query before and after it is told.
const PUSHED: &str =
    "CREATE TABLE p (id INT PRIMARY KEY CHECK (id BETWEEN 0 AND 9999), age INT CHECK (age BETWEEN 0 AND 150))
exec INSERT INTO p VALUES (1, 35), (2, 45)
query 1 SELECT id, age FROM p WHERE age BETWEEN 30 AND 40
exec UPDATE p SET age = 36 WHERE id = 1
query 1 SELECT id, age FROM p WHERE age BETWEEN 30 AND 40
push 1
query 1 SELECT id, age FROM p WHERE age BETWEEN 30 AND 40
";

const PUSHED_TRACE: &str = "2 exec version 1
3 ask 1 1 fresh 1
3 part p (id,age) {age 30..40}
3 query 1 asked 1
3 toserver 1 ask 2
3 toclient 1 laid
3 answer 1 1 1 1
3 row 1, 35
3 held 1 p (id,age) {age 30..40}
3 toclient 1 answered
4 exec version 2
5 answer 1 2 1 1
5 row 1, 35
5 query 1 answered 2
6 push 1 sent 1
6 toclient 1 applied 2
7 answer 1 3 2 1
7 row 1, 36
7 query 1 answered 3
";

const TWO_RANGES: &str =
    "CREATE TABLE p (id INT PRIMARY KEY CHECK (id BETWEEN 0 AND 9999), age INT CHECK (age BETWEEN 0 AND 150))
exec INSERT INTO p VALUES (1, 35), (2, 105)
query 1 SELECT id, age FROM p WHERE age BETWEEN 30 AND 34
query 1 SELECT id, age FROM p WHERE age BETWEEN 100 AND 110
query 1 SELECT id, age FROM p WHERE age BETWEEN 36 AND 40
";

/// A client is cut while an ask is out, and resumes; the other one waits.
const CUT: &str =
    "CREATE TABLE p (id INT PRIMARY KEY CHECK (id BETWEEN 0 AND 9999), age INT CHECK (age BETWEEN 0 AND 150))
exec INSERT INTO p VALUES (1, 35), (2, 45)
exec INSERT INTO p VALUES (3, 33)
query 2 SELECT id, age FROM p WHERE age BETWEEN 30 AND 40
query 1 SELECT id, age FROM p WHERE age BETWEEN 30 AND 40
settle 1
query 1 SELECT id, age FROM p WHERE age BETWEEN 35 AND 50
cut 1
query 1 SELECT id, age FROM p WHERE age BETWEEN 32 AND 35
query 1 SELECT id, age FROM p WHERE age BETWEEN 35 AND 50
resume 1
settle 1
query 2 SELECT id, age FROM p WHERE age BETWEEN 30 AND 40
";

const CUT_TRACE: &str = "2 exec version 1
3 exec version 2
4 ask 2 1 fresh 1
4 part p (id,age) {age 30..40}
4 query 2 asked 1
5 ask 1 1 fresh 1
5 part p (id,age) {age 30..40}
5 query 1 asked 1
6 toserver 1 ask 2
6 toclient 1 laid
6 answer 1 1 2 2
6 row 1, 35
6 row 3, 33
6 held 1 p (id,age) {age 30..40}
6 toclient 1 answered
6 settle 1 3
7 ask 1 2 more 1
7 part p (id,age) {age 41..50}
7 query 1 asked 2
8 fail 1 query 2
8 cut 1 1
9 answer 1 3 2 2
9 row 1, 35
9 row 3, 33
9 query 1 answered 3
10 query 1 down 1
11 resume 1 sent 3
12 toserver 1 resume 1
12 toclient 1 welcome 2 kept
12 settle 1 2
13 query 2 busy 1
";

/// While an ask is out, one query is explained, and a text is refused.
const EXPLAINED: &str =
    "CREATE TABLE p (id INT PRIMARY KEY CHECK (id BETWEEN 0 AND 9999), age INT CHECK (age BETWEEN 0 AND 150))
exec INSERT INTO p VALUES (1, 35), (2, 45)
query 1 SELECT id, age FROM p WHERE age BETWEEN 30 AND 40
settle 1
query 1 SELECT id, age FROM p WHERE age BETWEEN 38 AND 50
explain 1 SELECT id, age FROM p WHERE age BETWEEN 35 AND 60
explain 1 SELECT
";

const EXPLAINED_TRACE: &str = "2 exec version 1
3 ask 1 1 fresh 1
3 part p (id,age) {age 30..40}
3 query 1 asked 1
4 toserver 1 ask 2
4 toclient 1 laid
4 answer 1 1 1 1
4 row 1, 35
4 held 1 p (id,age) {age 30..40}
4 toclient 1 answered
4 settle 1 3
5 ask 1 2 more 1
5 part p (id,age) {age 41..50}
5 query 1 asked 2
6 need p (id,age)
6 probe p (id,age) 1 {age 35..40}
6 rest p (id,age) {age 41..60}
6 victim 1 p (id,age) 1 1
6 explain 1 1
7 explain 1 sql grammar 6
";

/// What happens to rows that were loaded.
const OVER_LOADS: &str =
    "CREATE TABLE p (id INT PRIMARY KEY CHECK (id BETWEEN 0 AND 9999), age INT CHECK (age BETWEEN 0 AND 150))
exec UPDATE p SET age = 41 WHERE id = 7
exec UPDATE p SET id = 8
exec DELETE FROM p WHERE age > 50
query 1 SELECT id, age FROM p
";

const OVER_LOADS_TRACE: &str = "2 exec version 1
3 exec refused key-change 13
4 exec version 2
5 ask 1 1 fresh 1
5 part p (id,age) {}
5 query 1 asked 1
5 toserver 1 ask 2
5 toclient 1 laid
5 answer 1 1 2 1
5 row 7, 41
5 held 1 p (id,age) {}
5 toclient 1 answered
";

const ONE_ROW: &str = "age,id
40,7
";

const ROW_TWICE: &str = "age,id
40,7
40,7
";

const IN_FORM: &[&str] = &["replay", "--eager", "script"];

const WITH_LOAD: &[&str] = &["replay", "--eager", "script", "p=p.csv"];

/// Runs the words over a script, and a file of rows.
fn run_with(
    alloc: Global,
    words: &[&str],
    script: &str,
    rows: &str,
    fails: u64,
) -> Result<Outcome, NoMemory> {
    let given = Given {
        files: &[("script", script.as_bytes()), ("p.csv", rows.as_bytes())],
        peers: &[],
        fails,
    };
    run_given(alloc, words, given)
}

fn run_over(alloc: Global, words: &[&str], script: &str, fails: u64) -> Result<Outcome, NoMemory> {
    run_with(alloc, words, script, ONE_ROW, fails)
}

/// Whether the run writes this trace and nothing on the error output, and ends well.
fn writes(alloc: Global, words: &[&str], script: &str, trace: &str) -> Result<bool, NoMemory> {
    let got = run_over(alloc, words, script, 0)?;
    Ok(ends(&got, 0, trace.as_bytes(), b""))
}

/// Whether the run writes no trace, and ends with this status and this line.
fn is_refused(
    alloc: Global,
    words: &[&str],
    script: &str,
    fails: u64,
    ended: (u8, &str),
) -> Result<bool, NoMemory> {
    let (status, error) = ended;
    let got = run_over(alloc, words, script, fails)?;
    Ok(ends(&got, status, b"", error.as_bytes()))
}

static OTHER_WORDS: [&[&str]; 6] = [
    &[],
    &["replay"],
    &["replay", "--eager", "--eager", "script"],
    &["replay", "--rows", "", "script"],
    &["client", "--id", "65", "--schema", "script", "a", "script"],
    &["explain", "script"],
];

#[test]
fn other_words_are_refused(rt: HostRuntime) {
    for words in &OTHER_WORDS {
        assert!(rt; is_refused(rt.alloc(), words, CREATE_ALONE, 0, (2, "words\n")) == Ok(true));
    }
}

/// Words, a script, and its trace.
static REPLAYED: [(&[&str], &str, &str); 8] = [
    (IN_FORM, "", ""),
    (&["replay", "--clients", "2", "script"], CUT, CUT_TRACE),
    (IN_FORM, TWO_QUERIES, TWO_QUERIES_TRACE),
    (IN_FORM, PUSHED, PUSHED_TRACE),
    (&["replay", "script"], EXPLAINED, EXPLAINED_TRACE),
    (WITH_LOAD, OVER_LOADS, OVER_LOADS_TRACE),
    (
        &[
            "replay",
            "--eager",
            "--rows",
            "00000000000000200000",
            "--policy",
            "distance",
            "script",
        ],
        CREATE_ALONE,
        "",
    ),
    (
        &[
            "replay",
            "--rows",
            "5",
            "--regions",
            "1024",
            "--policy",
            "recency",
            "--log",
            "0",
            "--clients",
            "8",
            "script",
            "p=p.csv",
        ],
        CREATE_ALONE,
        "",
    ),
];

#[test]
fn scripts_are_replayed(rt: HostRuntime) {
    for (words, script, trace) in &REPLAYED {
        assert!(rt; writes(rt.alloc(), words, script, trace) == Ok(true));
    }
}

/// Words, and the lines of the explanation behind two queries.
static EXPLANATIONS: [(&[&str], &str); 3] = [
    (
        &[
            "explain",
            "--eager",
            "script",
            "SELECT id, age FROM p WHERE age BETWEEN 45 AND 60",
        ],
        "0 need p (id,age)
0 probe p (id,age) 2 {age 45..50}
0 rest p (id,age) {age 51..60}
0 victim 1 p (id,age) 1 1
0 victim 2 p (id,age) 2 2
0 explain 1 2
",
    ),
    (
        &[
            "explain",
            "script",
            "SELECT id, age FROM p WHERE age BETWEEN 45 AND 60",
        ],
        "0 need p (id,age)
0 rest p (id,age) {age 45..60}
0 explain 1 0
",
    ),
    (
        &["explain", "script", "SELECT id FROM q"],
        "0 explain 1 sql unknown-table 15\n",
    ),
];

#[test]
fn queries_are_explained(rt: HostRuntime) {
    for (words, lines) in &EXPLANATIONS {
        assert!(rt; writes(rt.alloc(), words, TWO_QUERIES, lines) == Ok(true));
    }
}

/// A script, the call that fails, and then the status and the line on the error output.
static NOT_EXPLAINED: [(&str, u64, (u8, &str)); 4] = [
    (TWO_QUERIES, 1, (3, "read\n")),
    (TWO_QUERIES, 4, (4, "write\n")),
    ("push 1\npush", 0, (6, "line 2 4\n")),
    ("CREATE", 0, (7, "schema 1 grammar 6\n")),
];

#[test]
fn nothing_is_explained_behind_what_is_refused(rt: HostRuntime) {
    let words = &["explain", "script", "SELECT id FROM p"];
    for (script, fails, ended) in &NOT_EXPLAINED {
        let refused = is_refused(rt.alloc(), words, script, *fails, *ended);
        assert!(rt; refused == Ok(true), "{script:?}");
    }
}

/// Whether the lines stand somewhere in the trace.
fn has_lines(trace: &[u8], lines: &[u8]) -> bool {
    for at in 0..trace.len() {
        if trace[at..].starts_with(lines) {
            return true;
        }
    }
    false
}

/// Whether the line stands in the trace of a run with that option.
fn obeys(alloc: Global, option: &str, value: &str, line: &str) -> Result<bool, NoMemory> {
    let words = ["replay", "--eager", option, value, "script"];
    let got = run_over(alloc, words.as_slice(), TWO_RANGES, 0)?;
    Ok(got.status == 0 && has_lines(got.output.as_slice(), line.as_bytes()))
}

static OPTIONS: [(&str, &str, &str); 3] = [
    (
        "--rows",
        "0",
        "\n4 drop 1 rows p (id,age) 2 {age 100..110}\n",
    ),
    (
        "--regions",
        "0",
        "\n3 drop 1 regions p (id,age) 1 {age 30..34}\n",
    ),
    (
        "--regions",
        "2",
        "\n5 drop 1 regions p (id,age) 1 {age 30..34}\n",
    ),
];

#[test]
fn options_are_obeyed(rt: HostRuntime) {
    for (option, value, line) in &OPTIONS {
        assert!(rt;
            obeys(rt.alloc(), option, value, line) == Ok(true),
            "{line}"
        );
    }
}

/// A script, and then the status and the line on the error output.
static REFUSED_SCRIPTS: [(&str, (u8, &str)); 17] = [
    ("CREATE", (7, "schema 1 grammar 6\n")),
    ("create\x0btable", (7, "schema 1 bad-token 6\n")),
    (
        "# first\nCREATE TABLE t (a INT, b INT)",
        (7, "schema 2 no-key 0\n"),
    ),
    (
        "CREATE TABLE t (a INT PRIMARY KEY CHECK (a BETWEEN 2 AND 1), b INT)",
        (7, "schema 1 bad-domain 0\n"),
    ),
    (
        "CREATE TABLE t (a INT PRIMARY KEY, A INT)\nCREATE",
        (7, "schema 1 duplicate-name 1\n"),
    ),
    (
        "CREATE TABLE t (a TEXT PRIMARY KEY, b INT)\nCREATE TABLE T (a INT PRIMARY KEY)",
        (7, "schema 2 duplicate-name 0\n"),
    ),
    ("CREATE\npush", (6, "line 2 4\n")),
    ("exec x\nCREATE TABLE t (a INT)", (6, "line 2 0\n")),
    ("\t", (6, "line 1 0\n")),
    ("exec ", (6, "line 1 5\n")),
    ("query 2 SELECT * FROM p", (6, "line 1 6\n")),
    ("push 1 ", (6, "line 1 7\n")),
    ("push", (6, "line 1 4\n")),
    ("push  1", (6, "line 1 5\n")),
    (" push 1", (6, "line 1 0\n")),
    ("PUSH 1", (6, "line 1 0\n")),
    ("evict 1 x", (6, "line 1 8\n")),
];

#[test]
fn scripts_are_refused(rt: HostRuntime) {
    for (script, ended) in &REFUSED_SCRIPTS {
        let refused = is_refused(rt.alloc(), IN_FORM, script, 0, *ended);
        assert!(rt; refused == Ok(true), "{script:?}");
    }
}

/// Words, a file of rows, and then the status and the line on the error output.
static REFUSED_FILES: [(&[&str], &str, (u8, &str)); 20] = [
    (&["replay", "--eager", "-"], ONE_ROW, (3, "read\n")),
    (
        &["replay", "--eager", "script", "p=q.csv"],
        ONE_ROW,
        (3, "read\n"),
    ),
    (
        &["replay", "--eager", "script", "p=p.csv", "p=p=p.csv"],
        ONE_ROW,
        (3, "read\n"),
    ),
    (
        &["replay", "--eager", "script", "q=p.csv", "p=p.csv"],
        ROW_TWICE,
        (7, "load q unknown\n"),
    ),
    (
        &["replay", "--eager", "script", "p=p.csv", "p=p.csv"],
        ONE_ROW,
        (7, "load p 1 duplicate-key\n"),
    ),
    (WITH_LOAD, ROW_TWICE, (7, "load p 2 duplicate-key\n")),
    (
        WITH_LOAD,
        "id,age\n3,200\n3,1\n",
        (7, "load p 1 domain-cell\n"),
    ),
    (WITH_LOAD, "", (7, "load p 0 bad-header\n")),
    (WITH_LOAD, "id\n3\n", (7, "load p 0 bad-header\n")),
    (WITH_LOAD, "id,id\n", (7, "load p 0 bad-header\n")),
    (WITH_LOAD, "id,name\n", (7, "load p 0 bad-header\n")),
    (WITH_LOAD, "id,age\n3\n", (7, "load p 1 bad-record\n")),
    (
        WITH_LOAD,
        "id,age\n3,1\n4,2,3\n",
        (7, "load p 2 bad-record\n"),
    ),
    (WITH_LOAD, "id,age\nx\n", (7, "load p 1 bad-record\n")),
    (WITH_LOAD, "id,age\nx,1\n4\n", (7, "load p 1 bad-number\n")),
    (
        WITH_LOAD,
        "id,age\n1234567890123456789,1\n",
        (7, "load p 1 bad-number\n"),
    ),
    (WITH_LOAD, "id,age\n-,1\n", (7, "load p 1 bad-number\n")),
    (WITH_LOAD, "id,age\n,1\n", (7, "load p 1 bad-number\n")),
    (WITH_LOAD, "id,age\n+3,1\n", (7, "load p 1 bad-number\n")),
    (WITH_LOAD, "id,age\n 3,1\n", (7, "load p 1 bad-number\n")),
];

/// Whether a run over that file of rows is refused so.
fn is_file_refused(
    alloc: Global,
    words: &[&str],
    csv: &str,
    ended: (u8, &str),
) -> Result<bool, NoMemory> {
    let (status, error) = ended;
    let got = run_with(alloc, words, OVER_LOADS, csv, 0)?;
    Ok(ends(&got, status, b"", error.as_bytes()))
}

#[test]
fn files_are_refused(rt: HostRuntime) {
    for (words, csv, ended) in &REFUSED_FILES {
        let refused = is_file_refused(rt.alloc(), words, csv, *ended);
        assert!(rt; refused == Ok(true), "{csv:?}");
    }
}

/// Words, the call that fails, and then the status and the line on the error output. The calls 1 to 3 pick and read the script, 4 to 6 the
/// file, if there is one, and the next is the first write.
static FAILED_CALLS: [(&[&str], u64, (u8, &str)); 9] = [
    (IN_FORM, 1, (3, "read\n")),
    (IN_FORM, 2, (3, "read\n")),
    (IN_FORM, 3, (3, "read\n")),
    (IN_FORM, 4, (4, "write\n")),
    (WITH_LOAD, 3, (3, "read\n")),
    (WITH_LOAD, 4, (3, "read\n")),
    (WITH_LOAD, 5, (3, "read\n")),
    (WITH_LOAD, 6, (3, "read\n")),
    (WITH_LOAD, 7, (4, "write\n")),
];

#[test]
fn a_call_that_fails_ends_the_run(rt: HostRuntime) {
    for (words, fails, ended) in &FAILED_CALLS {
        let refused = is_refused(rt.alloc(), words, OVER_LOADS, *fails, *ended);
        assert!(rt; refused == Ok(true), "{fails}");
    }
}
