//! Explanations behind whole scripts, as text.
use crate::common::{Given, ends, run_given};
use sr_cell::list::NoMemory;
use std::alloc::Global;

/// One range of ages is held.
const ONE_RANGE: &str =
    "CREATE TABLE emp (id INT PRIMARY KEY CHECK (id BETWEEN 0 AND 9999), age INT CHECK (age BETWEEN 0 AND 150), name TEXT, dept INT CHECK (dept BETWEEN 0 AND 99))
CREATE TABLE dept (no INT PRIMARY KEY CHECK (no BETWEEN 0 AND 99), title TEXT)
exec INSERT INTO emp VALUES (1, 35, 'ann', 3), (2, 45, 'bob', 3)
exec INSERT INTO emp VALUES (3, 33, 'cy', 4)
query 1 SELECT id, age FROM emp WHERE age BETWEEN 30 AND 40
";

/// Two ranges are held with all three columns, and one without the department.
const STAFF: &str =
    "CREATE TABLE emp (id INT PRIMARY KEY CHECK (id BETWEEN 0 AND 9999), age INT CHECK (age BETWEEN 0 AND 100), dept INT CHECK (dept BETWEEN 0 AND 99), name TEXT)
exec INSERT INTO emp VALUES (1, 24, 15, 'ann'), (2, 31, 38, 'bob'), (3, 37, 22, 'cy'), (4, 41, 47, 'dee'), (5, 52, 33, 'eve')
exec INSERT INTO emp VALUES (6, 58, 71, 'flo'), (7, 63, 55, 'gus'), (8, 66, 28, 'hal'), (9, 72, 62, 'ida'), (10, 85, 44, 'jon')
query 1 SELECT id, age, dept FROM emp WHERE age BETWEEN 20 AND 45 AND dept BETWEEN 10 AND 50
query 1 SELECT id, age, dept FROM emp WHERE age BETWEEN 60 AND 80 AND dept BETWEEN 40 AND 80
query 1 SELECT id, age FROM emp WHERE age BETWEEN 84 AND 94
";

/// A script, a query behind it, and what is written.
static QUERIES: [(&str, &[&str], &str); 5] = [
    // what is held is probed
    (
        ONE_RANGE,
        &[
            "explain",
            "--eager",
            "script",
            "SELECT id, age FROM emp WHERE age BETWEEN 35 AND 50",
        ],
        "0 need emp (id,age)
0 probe emp (id,age) 1 {age 35..40}
0 rest emp (id,age) {age 41..50}
0 victim 1 emp (id,age) 1 2
0 explain 1 2
",
    ),
    // a region without the column is not
    (
        ONE_RANGE,
        &[
            "explain",
            "--eager",
            "script",
            "SELECT name FROM emp WHERE age = 35",
        ],
        "0 need emp (id,age,name)
0 rest emp (id,age,name) {age 35..35}
0 victim 1 emp (id,age) 1 2
0 explain 1 2
",
    ),
    // a text may be refused
    (
        ONE_RANGE,
        &[
            "explain",
            "--eager",
            "script",
            "SELECT id FROM emp WHERE salary = 3",
        ],
        "0 explain 1 sql unknown-column 25\n",
    ),
    // each region that serves is probed
    (
        STAFF,
        &[
            "explain",
            "--eager",
            "script",
            "SELECT id, age, dept FROM emp WHERE age BETWEEN 35 AND 90 AND dept BETWEEN 25 AND 60",
        ],
        "0 need emp (id,age,dept)
0 probe emp (id,age,dept) 1 {age 35..45, dept 25..50}
0 probe emp (id,age,dept) 2 {age 60..80, dept 40..60}
0 rest emp (id,age,dept) {age 46..59, dept 25..60} {age 81..90, dept 25..60} {age 60..80, dept 25..39} {age 35..45, dept 51..60}
0 victim 1 emp (id,age,dept) 1 4
0 victim 2 emp (id,age,dept) 2 2
0 victim 3 emp (id,age) 3 1
0 explain 1 2
",
    ),
    // the key is served by all regions
    (
        STAFF,
        &["explain", "--eager", "script", "SELECT id FROM emp"],
        "0 need emp (id)
0 probe emp (id,age) 3 {age 84..94}
0 probe emp (id,age,dept) 1 {age 20..45, dept 10..50}
0 probe emp (id,age,dept) 2 {age 60..80, dept 40..80}
0 rest emp (id,age,dept) {age 0..19} {age 46..59} {age 81..83} {age 60..80, dept 0..39} {age 60..80, dept 81..99} {age 20..45, dept 0..9} {age 20..45, dept 51..99} {age 95..100}
0 victim 1 emp (id,age,dept) 1 4
0 victim 2 emp (id,age,dept) 2 2
0 victim 3 emp (id,age) 3 1
0 explain 1 2
",
    ),
];

/// Whether just this is written.
fn explains(alloc: Global, script: &str, words: &[&str], written: &str) -> Result<bool, NoMemory> {
    let given = Given {
        files: &[("script", script.as_bytes())],
        peers: &[],
        fails: 0,
    };
    let got = run_given(alloc, words, given)?;
    Ok(ends(&got, 0, written.as_bytes(), b""))
}

#[test]
fn queries_are_explained_behind_scripts(rt: HostRuntime) {
    for (script, words, written) in &QUERIES {
        assert!(rt;
            explains(rt.alloc(), script, words, written) == Ok(true),
            "{written}"
        );
    }
}
