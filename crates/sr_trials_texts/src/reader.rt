//! Lines and scripts, by value.
use crate::common::list_of;
use sr_cell::cell::{Cell, Row};
use sr_cell::list::{No, NoMemory};
use sr_reader::events::read_events;
use sr_reader::head::created;
use sr_reader::line::read_line;
use sr_reader::lines::read_lines;
use sr_reader::meaning::query_of;
use sr_union::rects::Rects;
use std::alloc::Global;

// Lines, how many clients there are, and the place of the line's fault, if it has one.
static LINES: [(&[u8], u8, Option<u32>); 16] = [
    (b"evict 1 x", 1, Some(8)),
    (b"evict 1 0000000000", 1, Some(8)),
    (b"evict 1 10", 1, None),
    (b"querry 1 x", 1, Some(0)),
    (b"query 2 SELECT", 1, Some(6)),
    (b"query 255 SELECT", 255, None),
    (b"query 256 SELECT", 255, Some(6)),
    (b"query 8 ", 8, Some(8)),
    (b"query 8", 8, Some(7)),
    (b"push 1 2", 2, Some(7)),
    (b"push 0", 2, Some(5)),
    (b"push 002", 2, None),
    (b"push  1", 2, Some(5)),
    (b"create table t", 1, None),
    (b"# \xc3\xa9 \xff \xfe", 1, Some(5)),
    (b" push 1", 1, Some(0)),
];

fn fault(line: &[u8], clients: u8) -> Option<u32> {
    if line.len() < 100 {
        return read_line(line, clients).err();
    }
    None
}

#[test]
fn faults_of_lines_have_their_places(rt: HostRuntime) {
    for (line, clients, wanted) in &LINES {
        assert_eq!(rt; fault(line, *clients), *wanted);
    }
}

// What reading a script of two clients comes to.
#[derive(Clone, Copy, Debug, PartialEq, Eq)]
enum Came {
    Outside(u64, u32),
    Refused(u64),
    // so many tables and events
    Read(usize, usize),
    Nothing,
}

static SCRIPTS: [(&[u8], Came); 9] = [
    (b"", Came::Read(0, 0)),
    (
        b"# c\r\nCREATE TABLE t (k INT PRIMARY KEY)\n\npush 2\nexec nonsense",
        Came::Read(1, 2),
    ),
    (
        b"CREATE TABLE t (k INT PRIMARY KEY)\nquery 1 SELECT * FROM t\nevict 2 7\ncut 1\n",
        Came::Read(1, 3),
    ),
    (
        b"push 1\n\ncreate table t (k int primary key)\n",
        Came::Outside(3, 0),
    ),
    (b"explain 1 x\n# \xff\n", Came::Outside(2, 2)),
    (
        b"CREATE TABLE t (k INT PRIMARY KEY)\nCREATE TABLE t (k INT PRIMARY KEY)\n",
        Came::Refused(2),
    ),
    (b"CREATE TABLE\nexplain 1 x", Came::Refused(1)),
    (b"resume 1\n\nexplain 1 x\n", Came::Read(0, 2)),
    (
        b"CREATE TABLE t (k INT PRIMARY KEY)\nCREATE TABLE u (j INT PRIMARY KEY)\nexplain 1 SELECT k FROM t JOIN u ON k = j\n",
        Came::Read(2, 1),
    ),
];

fn reading(alloc: Global, bytes: &[u8]) -> Came {
    if 1000 < bytes.len() {
        return Came::Nothing;
    }
    let lines = match read_lines(alloc, 2, bytes) {
        Ok(lines) => lines,
        Err(No::Refused(fault)) => return Came::Outside(fault.line, fault.place),
        Err(No::NoMemory) => return Came::Nothing,
    };
    let schema = match created(alloc, &lines) {
        Ok(schema) => schema,
        Err(No::Refused(refused)) => return Came::Refused(refused.number),
        Err(No::NoMemory) => return Came::Nothing,
    };
    match read_events(alloc, &schema, &lines) {
        Ok(events) => Came::Read(schema.as_slice().len(), events.len()),
        Err(_) => Came::Nothing,
    }
}

#[test]
fn scripts_are_read(rt: HostRuntime) {
    for (script, wanted) in &SCRIPTS {
        assert_eq!(rt; reading(rt.alloc(), script), *wanted);
    }
}

// A table with NULL, and a query that no row with a NULL meets.
const NULLS: &[u8] =
    b"CREATE TABLE n (id INT PRIMARY KEY CHECK (id BETWEEN 0 AND 9), a INT NULL CHECK (a BETWEEN 0 AND 9))";

const NOT_BELOW: &str = "SELECT id FROM n WHERE NOT (a < 6 OR a IS NULL)";

fn row_of(alloc: Global, a: Cell) -> Result<Row, NoMemory> {
    list_of(alloc, [Cell::Num(0), a])
}

// Whether the rects have just the rows whose `a` is from 6 to 9.
fn are_from_6(alloc: Global, rects: &Rects) -> Result<bool, NoMemory> {
    for number in 0..10 {
        if rects.has(&row_of(alloc, Cell::Num(number))?) != (6 <= number) {
            return Ok(false);
        }
    }
    Ok(!rects.has(&row_of(alloc, Cell::Null)?))
}

// Whether the query over the tables of these lines has just those rows.
fn asks_from_6(alloc: Global, bytes: &[u8], sql: &str) -> Result<bool, NoMemory> {
    if 1000 < bytes.len() {
        return Ok(false);
    }
    let lines = match read_lines(alloc, 1, bytes) {
        Ok(lines) => lines,
        Err(_) => return Ok(false),
    };
    let schema = match created(alloc, &lines) {
        Ok(schema) => schema,
        Err(_) => return Ok(false),
    };
    match query_of(alloc, &schema, sql)? {
        Ok(query) => match query.parts.as_slice() {
            [part] => are_from_6(alloc, &part.rects),
            _ => Ok(false),
        },
        Err(_) => Ok(false),
    }
}

#[test]
fn not_of_unknown_is_no_row(rt: HostRuntime) {
    assert!(rt; asks_from_6(rt.alloc(), NULLS, NOT_BELOW) == Ok(true));
}
