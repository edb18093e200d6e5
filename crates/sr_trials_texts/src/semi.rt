//! Joins of two tables as queries of one, at texts and rows that were worked out by hand.
use crate::common::list_of;
use sr_cell::cell::{Cell, Row, Rows};
use sr_cell::fault::{Fault, Why};
use sr_cell::list::{No, NoMemory, Same, Seq};
use sr_cell::schema::Schema;
use sr_cell::text::Text;
use sr_semi::fault::SemiFault;
use sr_semi::semi::Semi;
use sr_semi::stage::Next;
use sr_setup::client_setup::set_up_client;
use std::alloc::Global;

static TABLES: &[u8] =
    b"CREATE TABLE emp (id INT PRIMARY KEY CHECK (id BETWEEN 0 AND 9999), age INT CHECK (age BETWEEN 0 AND 150), name TEXT, dept INT CHECK (dept BETWEEN 0 AND 99))
CREATE TABLE dept (no INT PRIMARY KEY CHECK (no BETWEEN 0 AND 99), title TEXT)";

const JOIN: &str =
    "SELECT emp.id, dept.title FROM emp JOIN dept ON emp.dept = dept.no WHERE emp.age BETWEEN 30 AND 40";

const LEFT: &str = "SELECT id, age, dept FROM emp WHERE emp.age BETWEEN 30 AND 40";

const RIGHT: &str = "SELECT no, title FROM dept WHERE no IN (3, 4)";

fn started(alloc: Global, sql: &str) -> Result<Semi, No<SemiFault>> {
    if TABLES.len() > 1000 {
        return Err(No::NoMemory);
    }
    match set_up_client(alloc, 1, TABLES, b"") {
        Ok(script) => Semi::start(alloc, &script.schema, sql),
        Err(_) => Err(No::NoMemory),
    }
}

fn employee(alloc: Global, id: i64, age: i64, dept: i64) -> Result<Row, NoMemory> {
    list_of(alloc, [Cell::Num(id), Cell::Num(age), Cell::Num(dept)])
}

fn titled(alloc: Global, number: i64, title: &str) -> Result<Row, NoMemory> {
    let title = Cell::Str(Text::of(alloc, title)?);
    list_of(alloc, [Cell::Num(number), title])
}

/// Employees of departments 4 and 3, in this order.
fn employees(alloc: Global) -> Result<Rows, NoMemory> {
    list_of(
        alloc,
        [employee(alloc, 1, 35, 4)?, employee(alloc, 3, 33, 3)?],
    )
}

fn departments(alloc: Global) -> Result<Rows, NoMemory> {
    list_of(alloc, [titled(alloc, 3, "ink")?, titled(alloc, 4, "lab")?])
}

/// What is joined of them.
fn titles(alloc: Global) -> Result<Rows, NoMemory> {
    list_of(alloc, [titled(alloc, 1, "lab")?, titled(alloc, 3, "ink")?])
}

/// Employees of so many departments, from the greatest down, without their ages.
fn employees_of(alloc: Global, count: u8) -> Result<Rows, NoMemory> {
    let mut rows = Seq::new(alloc);
    for i in 0..count {
        rows.push(list_of(alloc, [Cell::Num(i as i64), Cell::Num((255 - i) as i64)])?)?;
    }
    Ok(rows)
}

fn is_run(next: Next, wanted: &str) -> bool {
    match next {
        Next::Run(text) => text.as_str() == wanted,
        _ => false,
    }
}

fn is_plain(next: Next) -> bool {
    match next {
        Next::Plain => true,
        _ => false,
    }
}

fn is_joined(next: Next, wanted_version: u64, wanted_keys: u32, wanted: &Rows) -> bool {
    match next {
        Next::Joined {
            version,
            keys,
            rows,
        } => { version == wanted_version && keys == wanted_keys && rows.same(wanted) }
        _ => false,
    }
}

fn joins_at_one_version(alloc: Global) -> Result<bool, No<SemiFault>> {
    let mut semi = started(alloc, JOIN)?;
    let first = semi.first().as_str() == LEFT;
    let second = is_run(semi.answered(alloc, 3, &employees(alloc)?)?, RIGHT);
    let third = semi.answered(alloc, 3, &departments(alloc)?)?;
    let joined = is_joined(third, 3, 2, &titles(alloc)?);
    let over = is_plain(semi.answered(alloc, 3, &departments(alloc)?)?);
    Ok(first && second && joined && over)
}

#[test]
fn rows_of_one_version_are_joined(rt: HostRuntime) {
    assert!(rt; joins_at_one_version(rt.alloc()) == Ok(true));
}

/// The left text is run again at another version; then its rows are those, or have one of department 9.
fn joins_again(alloc: Global, new: bool) -> Result<bool, No<SemiFault>> {
    let mut semi = started(alloc, JOIN)?;
    let second = is_run(semi.answered(alloc, 3, &employees(alloc)?)?, RIGHT);
    let again = is_run(semi.answered(alloc, 4, &departments(alloc)?)?, LEFT);
    if new {
        let rows = list_of(alloc, [employee(alloc, 1, 35, 9)?])?;
        return Ok(second && again && is_plain(semi.answered(alloc, 4, &rows)?));
    }
    let last = semi.answered(alloc, 4, &employees(alloc)?)?;
    Ok(second && again && is_joined(last, 4, 2, &titles(alloc)?))
}

#[test]
fn rows_of_another_version_are_asked_again(rt: HostRuntime) {
    assert!(rt; joins_again(rt.alloc(), false) == Ok(true));
    assert!(rt; joins_again(rt.alloc(), true) == Ok(true));
}

fn joins_nothing(alloc: Global) -> Result<bool, No<SemiFault>> {
    let mut semi = started(alloc, JOIN)?;
    let next = semi.answered(alloc, 7, &Seq::new(alloc))?;
    Ok(is_joined(next, 7, 0, &Seq::new(alloc)))
}

#[test]
fn no_rows_are_joined_to_no_rows(rt: HostRuntime) {
    assert!(rt; joins_nothing(rt.alloc()) == Ok(true));
}

// A join, how many keys its right part is asked with, and how many are too many.
static WIDTHS: [(&str, u8, u8); 3] = [
    (
        "SELECT emp.id FROM emp JOIN dept ON emp.dept = dept.no WHERE dept.no > 0",
        64,
        65,
    ),
    (
        "SELECT emp.id FROM emp JOIN dept ON emp.dept = dept.no WHERE dept.no <> 7",
        32,
        33,
    ),
    (
        "SELECT emp.id FROM emp JOIN dept ON emp.dept = dept.no WHERE dept.no NOT IN (7, 9)",
        21,
        22,
    ),
];

fn is_too_many(alloc: Global, sql: &str, count: u8) -> Result<bool, No<SemiFault>> {
    let mut semi = started(alloc, sql)?;
    Ok(is_plain(semi.answered(alloc, 1, &employees_of(alloc, count)?)?))
}

#[test]
fn wide_conditions_are_asked_with_fewer_keys(rt: HostRuntime) {
    for (sql, most, more) in &WIDTHS {
        assert!(rt; is_too_many(rt.alloc(), sql, *most) == Ok(false));
        assert!(rt; is_too_many(rt.alloc(), sql, *more) == Ok(true));
    }
}

static REFUSED: [(&str, SemiFault); 4] = [
    (
        "SELECT emp.id FROM",
        SemiFault::Sql(Fault {
            why: Why::Grammar,
            at: 18,
        }),
    ),
    (
        "SELECT nothing FROM emp",
        SemiFault::Sql(Fault {
            why: Why::UnknownColumn,
            at: 7,
        }),
    ),
    (
        "DELETE FROM emp",
        SemiFault::Sql(Fault {
            why: Why::NotAQuery,
            at: 0,
        }),
    ),
    (
        "SELECT id, age FROM emp WHERE age BETWEEN 30 AND 40",
        SemiFault::NotTwo { tables: 1 },
    ),
];

fn is_refused(alloc: Global, sql: &str, fault: SemiFault) -> bool {
    match started(alloc, sql) {
        Err(No::Refused(found)) => found == fault,
        _ => false,
    }
}

#[test]
fn other_texts_are_refused(rt: HostRuntime) {
    for (sql, fault) in &REFUSED {
        assert!(rt; is_refused(rt.alloc(), sql, *fault));
    }
}
