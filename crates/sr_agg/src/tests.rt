//! Aggregates over a table of employees, at values worked out by hand.
ghost use Rattle.std.specs.Prelude.{◌≡◌, false, true, IsTrue, IfOk};
ghost use Rattle.std.specs.List.{list_all};
ghost use Rattle.sr_cell.specs.Names.{is_bad_domain};
ghost use Rattle.sr_query.specs.Bound.{is_table};

use crate::agg::{Agg, AggFault};
use crate::item::{GroupRow, GroupRows};
use sr_cell::cell::{Cell, Row, Rows};
use sr_cell::fault::{Fault, Why};
use sr_cell::list::{No, NoMemory, Seq};
use sr_cell::schema::Schema;
use sr_cell::table::{Column, Kind, Table};
use sr_cell::text::Text;
use std::alloc::Global;
use std::test::Fail;

// What a text comes to: the text of its query, or a fault.
#[derive(Clone, Copy)]
enum Started {
    Inner(&'static str),
    Sql(Why, u32),
    NotGrouped(u32),
    SumOfText(u32),
}

static TEXTS: [(&str, Started); 21] = [
    (
        "SELECT dept, COUNT(*), SUM(age), MIN(name) FROM emp GROUP BY dept",
        Started::Inner("SELECT dept, age, name FROM emp"),
    ),
    (
        "SELECT COUNT(*), SUM(age) FROM emp WHERE age > 100 ;  ",
        Started::Inner("SELECT age FROM emp WHERE age > 100"),
    ),
    (
        "select count(*) from emp",
        Started::Inner("SELECT emp.id from emp"),
    ),
    (
        "SELECT DEPT, Emp.dept, MAX( emp . Age ) FROM emp   GROUP BY dept, emp.dept, DEPT;",
        Started::Inner("SELECT dept, emp.dept, emp.age FROM emp"),
    ),
    (
        "SELECT emp.dept FROM emp GROUP BY dept",
        Started::Inner("SELECT dept, emp.dept FROM emp"),
    ),
    (
        "SELECT dept FROM emp; GROUP BY dept",
        Started::Inner("SELECT dept FROM emp;"),
    ),
    ("SELECT name, COUNT(*) FROM emp", Started::NotGrouped(7)),
    (
        "SELECT SUM(name), age FROM emp GROUP BY dept",
        Started::NotGrouped(18),
    ),
    (
        "SELECT dept, SUM(name) FROM emp GROUP BY dept",
        Started::SumOfText(13),
    ),
    ("SELECT a FROM ;", Started::Sql(Why::Grammar, 14)),
    ("SELECT a FROM ; ;", Started::Sql(Why::Grammar, 14)),
    ("SELECT a FROM", Started::Sql(Why::Grammar, 13)),
    ("SELECT a FROM group by a", Started::Sql(Why::Grammar, 14)),
    ("SELECT a FROM emp # ", Started::Sql(Why::BadToken, 18)),
    ("SELECT AVG(age) FROM emp", Started::Sql(Why::Grammar, 10)),
    ("SELECT SUM(*) FROM emp", Started::Sql(Why::Grammar, 11)),
    (
        "SELECT dept FROM emp GROUP dept",
        Started::Sql(Why::Grammar, 27),
    ),
    (
        "SELECT dept FROM emp GROUP BY dept x",
        Started::Sql(Why::Grammar, 35),
    ),
    // functions only before a parenthesis: here two columns, which there are not
    (
        "SELECT count, min FROM emp",
        Started::Sql(Why::UnknownColumn, 7),
    ),
    (
        "SELECT COUNT(*) FROM boss",
        Started::Sql(Why::UnknownTable, 14),
    ),
    (
        "SELECT dept FROM emp WHERE dept GROUP BY dept",
        Started::Sql(Why::Grammar, 31),
    ),
];

// What is told of an item.
#[derive(Clone, Copy)]
enum Told {
    Num(i64),
    Str(&'static str),
    Null,
}

// A text, how many of the rows below it is told of, and what is told.
static GROUPS: [(&str, usize, &[&[Told]]); 6] = [
    (
        "SELECT dept, COUNT(*), SUM(age), MIN(name) FROM emp GROUP BY dept",
        3,
        &[
            &[Told::Num(3), Told::Num(2), Told::Num(80), Told::Str("ann")],
            &[Told::Num(4), Told::Num(1), Told::Num(33), Told::Str("cy")],
        ],
    ),
    (
        "SELECT COUNT(*), SUM(dept), MIN(age), MAX(name), COUNT(name) FROM emp",
        0,
        &[&[
            Told::Num(0),
            Told::Null,
            Told::Null,
            Told::Null,
            Told::Num(0),
        ]],
    ),
    ("SELECT dept FROM emp GROUP BY dept", 0, &[]),
    // a sum is brought into 64 bits once, at its end
    (
        "SELECT SUM(dept) FROM emp",
        5,
        &[&[Told::Num(9223372036854775807)]],
    ),
    ("SELECT SUM(dept) FROM emp", 6, &[&[Told::Num(11)]]),
    // the rows have both columns; the same group by the first, and others by both
    (
        "SELECT age, COUNT(*), MAX(name) FROM emp GROUP BY dept, age",
        3,
        &[
            &[Told::Num(35), Told::Num(1), Told::Str("ann")],
            &[Told::Num(45), Told::Num(1), Told::Str("bob")],
            &[Told::Num(33), Told::Num(1), Told::Str("cy")],
        ],
    ),
];

static ROWS: [(i64, i64, &str); 6] = [
    (4, 33, "cy"),
    (3, 35, "ann"),
    (3, 45, "bob"),
    (9223372036854775807, 0, ""),
    (1, 0, ""),
    (-9223372036854775807, 0, ""),
];

fn column(alloc: Global, name: &str, kind: Kind) -> Result<Column, NoMemory>
    ensures good { IfOk result (λ column. is_bad_domain column ≡ false) }
    ensures never { IfOk result (λ column. column.nullable ≡ false) }
{
    Ok(Column {
        name: Text::of(alloc, name)?,
        kind,
        lo: 0,
        hi: 0,
        nullable: false,
    })
}

fn table(alloc: Global) -> Result<Table, NoMemory>
    ensures { IfOk result (λ table. is_table table ≡ true) }
{
    let id = column(alloc, "id", Kind::Num)?;
    let age = column(alloc, "age", Kind::Num)?;
    let name = column(alloc, "name", Kind::Str)?;
    let dept = column(alloc, "dept", Kind::Num)?;
    let columns = Seq::from_vec(Vec::from_array(alloc, [id, age, name, dept])?);
    Ok(Table {
        name: Text::of(alloc, "emp")?,
        columns,
        key: 0,
    })
}

fn schema(alloc: Global) -> Result<Schema, NoMemory>
    ensures { IfOk result (λ schema. IsTrue (list_all is_table schema)) }
{
    let mut schema = Schema::new(alloc);
    match schema.add(alloc, table(alloc)?) {
        Ok(()) => Ok(schema),
        Err(_) => Err(NoMemory),
    }
}

fn starts(alloc: Global, text: &str, wanted: Started) -> Result<bool, NoMemory> {
    let schema = schema(alloc)?;
    match (Agg::start(alloc, &schema, text), wanted) {
        (Ok(agg), Started::Inner(inner)) => Ok(agg.inner().as_str() == inner),
        (Err(No::Refused(AggFault::Sql(fault))), Started::Sql(why, at)) => {
            Ok(fault == Fault { why, at })
        }
        (Err(No::Refused(AggFault::NotGrouped { place })), Started::NotGrouped(at)) => {
            Ok(place == at)
        }
        (Err(No::Refused(AggFault::SumOfText { place })), Started::SumOfText(at)) => {
            Ok(place == at)
        }
        _ => Ok(false),
    }
}

#[test]
fn texts_start(rt: HostRuntime) -> Result<(), Fail> {
    for (text, wanted) in &TEXTS {
        assert!(rt; starts(rt.alloc(), text, *wanted)?);
    }
    Ok(())
}

// A row of dept, age and name.
fn row(alloc: Global, dept: i64, age: i64, name: &str) -> Result<Row, NoMemory> {
    let name = Cell::Str(Text::of(alloc, name)?);
    Ok(Seq::from_vec(Vec::from_array(alloc, [Cell::Num(dept), Cell::Num(age), name])?))
}

fn rows(alloc: Global, count: usize) -> Result<Rows, NoMemory> {
    let mut rows = Rows::new(alloc);
    for (dept, age, name) in ROWS.iter().take(count) {
        rows.push(row(alloc, *dept, *age, name)?)?;
    }
    Ok(rows)
}

fn is_told(cell: &Option<Cell>, wanted: Told) -> bool {
    match (cell, wanted) {
        (Some(Cell::Num(one)), Told::Num(other)) => *one == other,
        (Some(Cell::Str(one)), Told::Str(other)) => one.as_str() == other,
        (None, Told::Null) => true,
        _ => false,
    }
}

fn is_row(row: &GroupRow, wanted: &[Told]) -> bool {
    let cells = row.as_slice().iter().zip(wanted.iter());
    row.len() == wanted.len() && cells.fold(true, |all, (cell, told)| all && is_told(cell, *told))
}

fn are_rows(rows: &GroupRows, wanted: &[&[Told]]) -> bool {
    if rows.len() != wanted.len() {
        return false;
    }
    for (row, told) in rows.as_slice().iter().zip(wanted.iter()) {
        if !is_row(row, told) {
            return false;
        }
    }
    true
}

fn tells(alloc: Global, text: &str, count: usize, wanted: &[&[Told]]) -> Result<bool, NoMemory> {
    let schema = schema(alloc)?;
    match Agg::start(alloc, &schema, text) {
        Ok(agg) => {
            let told = agg.groups(alloc, rows(alloc, count)?.as_slice())?;
            Ok(are_rows(&told, wanted))
        }
        Err(_) => Ok(false),
    }
}

#[test]
fn groups_are_told(rt: HostRuntime) -> Result<(), Fail> {
    for (text, count, wanted) in &GROUPS {
        assert!(rt; tells(rt.alloc(), text, *count, wanted)?);
    }
    Ok(())
}
