//! Answers from rows of several regions, at values worked out by hand.
use crate::common::{list_of, rects_of};
use sr_box::span::Span;
use sr_cell::attrs::Attrs;
use sr_cell::cell::{Cell, Row, Rows};
use sr_cell::list::{NoMemory, Seq};
use sr_cell::text::Text;
use sr_join::lending::Lending;
use sr_query::condition::Output;
use sr_query::query::{KeyJoin, Part, Query};
use sr_region::inside::rows_inside;
use sr_union::rects::Rects;
use std::alloc::Global;

// Persons have a name, a number, which is their key, and an age.
const NUMBER_AGE: Attrs = Attrs(6);

const ALL: Attrs = Attrs(7);

fn part(alloc: Global) -> Part {
    Part {
        table: 0,
        key: 1,
        need: NUMBER_AGE,
        rects: Rects::new(alloc),
        width: 0,
    }
}

// The ages, and then the numbers.
fn query(alloc: Global) -> Result<Query, NoMemory> {
    let ages = Output { part: 0, column: 2 };
    let numbers = Output { part: 0, column: 1 };
    let output = list_of(alloc, [ages, numbers])?;
    Ok(Query {
        parts: list_of(alloc, [part(alloc)])?,
        joins: Seq::new(alloc),
        output,
    })
}

fn short(alloc: Global, number: i64, age: i64) -> Result<Row, NoMemory> {
    list_of(alloc, [Cell::Num(number), Cell::Num(age)])
}

fn long(alloc: Global, name: &str, number: i64, age: i64) -> Result<Row, NoMemory> {
    let name = Cell::Str(Text::of(alloc, name)?);
    list_of(alloc, [name, Cell::Num(number), Cell::Num(age)])
}

// Each person.
fn everyone(alloc: Global) -> Result<Rects, NoMemory> {
    rects_of(alloc, [Span::Full, Span::Full, Span::Full])
}

fn is_row(row: &Row, age: i64, number: i64) -> bool {
    match (row.get(0), row.get(1), row.len()) {
        (Some(Cell::Num(one)), Some(Cell::Num(two)), 2) => *one == age && *two == number,
        _ => false,
    }
}

fn are(rows: &Rows, ages: &[i64], numbers: &[i64]) -> bool {
    if rows.len() != ages.len() || rows.len() != numbers.len() {
        return false;
    }
    for i in 0..ages.len() {
        if !is_row(&rows.as_slice()[i], ages[i], numbers[i]) {
            return false;
        }
    }
    true
}

// The answer of persons, from rows that are lent one list after another; of the last list just those in the rects.
fn persons(
    alloc: Global,
    some: &Rows,
    others: &Rows,
    last: &Rows,
    rects: &Rects,
) -> Result<Rows, NoMemory> {
    let everyone = everyone(alloc)?;
    let mut lending = Lending::new(alloc);
    lending.lend(
        alloc,
        0,
        rows_inside(NUMBER_AGE, some.as_slice(), &everyone),
    )?;
    lending.lend(alloc, 0, rows_inside(ALL, others.as_slice(), &everyone))?;
    lending.lend(alloc, 0, rows_inside(ALL, last.as_slice(), rects))?;
    lending.answer(alloc, &query(alloc)?)
}

// Persons 2 and 4, without their names.
fn two_and_four(alloc: Global) -> Result<Rows, NoMemory> {
    list_of(alloc, [short(alloc, 2, 25)?, short(alloc, 4, 40)?])
}

fn one_and_four(alloc: Global) -> Result<Rows, NoMemory> {
    list_of(
        alloc,
        [long(alloc, "ann", 1, 30)?, long(alloc, "cy", 4, 40)?],
    )
}

fn three_and_five(alloc: Global) -> Result<Rows, NoMemory> {
    list_of(
        alloc,
        [long(alloc, "bo", 3, 50)?, long(alloc, "di", 5, 60)?],
    )
}

// Persons 2 and 4 of one region, 1 and 4 of another, and 3 and 5 of these rects.
fn of_three_regions(alloc: Global, rects: &Rects) -> Result<Rows, NoMemory> {
    let some = two_and_four(alloc)?;
    let others = one_and_four(alloc)?;
    let last = three_and_five(alloc)?;
    persons(alloc, &some, &others, &last, rects)
}

// Whether these are the answer where persons 3 and 5 are left out.
fn are_without(alloc: Global, ages: &[i64], numbers: &[i64]) -> Result<bool, NoMemory> {
    let answer = of_three_regions(alloc, &Rects::new(alloc))?;
    Ok(are(&answer, ages, numbers))
}

#[test]
fn a_common_row_counts_once(rt: HostRuntime) {
    assert!(rt; are_without(rt.alloc(), &[30, 25, 40], &[1, 2, 4]) == Ok(true));
}

// Whether these are the answer with all.
fn are_with(alloc: Global, ages: &[i64], numbers: &[i64]) -> Result<bool, NoMemory> {
    let answer = of_three_regions(alloc, &everyone(alloc)?)?;
    Ok(are(&answer, ages, numbers))
}

#[test]
fn later_rows_come_between(rt: HostRuntime) {
    assert!(rt; are_with(rt.alloc(), &[30, 25, 50, 40, 60], &[1, 2, 3, 4, 5]) == Ok(true));
}

// ---- several tables

// Ages have a number, which is their key, and a group.
const AGE_GROUP: Attrs = Attrs(3);

fn groups_part(alloc: Global) -> Part {
    Part {
        table: 1,
        key: 0,
        need: AGE_GROUP,
        rects: Rects::new(alloc),
        width: 0,
    }
}

// The groups of the persons' ages, and the persons' numbers.
fn groups(alloc: Global) -> Result<Query, NoMemory> {
    let groups = Output { part: 1, column: 1 };
    let numbers = Output { part: 0, column: 1 };
    let output = list_of(alloc, [groups, numbers])?;
    let join = KeyJoin {
        left: 0,
        column: 2,
        right: 1,
    };
    let joins = list_of(alloc, [join])?;
    Ok(Query {
        parts: list_of(alloc, [part(alloc), groups_part(alloc)])?,
        joins,
        output,
    })
}

// Each age.
fn every_age(alloc: Global) -> Result<Rects, NoMemory> {
    rects_of(alloc, [Span::Full, Span::Full])
}

fn joined(alloc: Global, some: &Rows, others: &Rows, ages: &Rows) -> Result<Rows, NoMemory> {
    let everyone = everyone(alloc)?;
    let every_age = every_age(alloc)?;
    let mut lending = Lending::new(alloc);
    lending.lend(
        alloc,
        0,
        rows_inside(NUMBER_AGE, some.as_slice(), &everyone),
    )?;
    lending.lend(
        alloc,
        1,
        rows_inside(AGE_GROUP, ages.as_slice(), &every_age),
    )?;
    lending.lend(alloc, 0, rows_inside(ALL, others.as_slice(), &everyone))?;
    lending.answer(alloc, &groups(alloc)?)
}

// The groups of two ages.
fn groups_of_ages(alloc: Global) -> Result<Rows, NoMemory> {
    list_of(alloc, [short(alloc, 25, 7)?, short(alloc, 40, 8)?])
}

// Persons 2 and 4 of one region, and 1 and 4 of another; nothing is known of the age of person 1.
fn of_two_tables(alloc: Global) -> Result<Rows, NoMemory> {
    let some = two_and_four(alloc)?;
    let others = one_and_four(alloc)?;
    let ages = groups_of_ages(alloc)?;
    joined(alloc, &some, &others, &ages)
}

fn are_joined(alloc: Global, groups: &[i64], numbers: &[i64]) -> Result<bool, NoMemory> {
    Ok(are(&of_two_tables(alloc)?, groups, numbers))
}

#[test]
fn tables_join_by_key(rt: HostRuntime) {
    assert!(rt; are_joined(rt.alloc(), &[7, 8], &[2, 4]) == Ok(true));
}
