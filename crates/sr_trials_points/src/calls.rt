//! Calls that no script makes, each once, at values worked out by hand.
ghost use Rattle.std.specs.Prelude.{◌≡◌, pos, true, IfOk};
ghost use Rattle.sr_box.specs.Corners.{have_first};
ghost use Rattle.sr_union.specs.Grid.{all_inner};

use crate::common::{column, list_of, other_text, rects_of, table_of};
use sr_box::span::Span;
use sr_cell::cell::Cell;
use sr_cell::fault::Fault;
use sr_cell::list::{Copied, No, NoMemory};
use sr_cell::schema::Schema;
use sr_cell::table::{Column, Kind, Table};
use sr_cell::text::Text;
use sr_script::line::TraceLine;
use sr_union::rects::Rects;
use std::alloc::Global;

// Numbers from 0 to 99.
fn numbers(alloc: Global) -> Result<Table, NoMemory>
    ensures inner { IfOk result (λ table. all_inner table.columns ≡ true) }
    ensures first { IfOk result (λ table. have_first table.columns ≡ true) }
{
    let id = column(alloc, "id", 99)?;
    table_of(alloc, "n", [id])
}

fn range(alloc: Global, lo: i64, hi: i64) -> Result<Rects, NoMemory> {
    rects_of(alloc, [Span::Nums { lo, hi }])
}

// How many rects those of the one without the others are.
fn rects_left(alloc: Global, one: &Rects, others: &Rects) -> Result<Option<usize>, NoMemory> {
    let table = numbers(alloc)?;
    if !one.fits(&table) || !others.fits(&table) {
        return Ok(None);
    }
    Ok(Some(one.difference(alloc, others, &table)?.len()))
}

// The same of the numbers from 10 to 50 without those from 20 to 30.
fn rects_around(alloc: Global) -> Result<Option<usize>, NoMemory> {
    let rects = range(alloc, 10, 50)?;
    let others = range(alloc, 20, 30)?;
    rects_left(alloc, &rects, &others)
}

#[test]
fn a_difference_has_its_rects(rt: HostRuntime) {
    assert_eq!(rt; rects_around(rt.alloc()), Ok(Some(2)));
}

// Numbers from 0 to 9, and others of which each may be NULL.
fn pairs(alloc: Global) -> Result<Table, NoMemory>
    ensures inner { IfOk result (λ table. all_inner table.columns ≡ true) }
    ensures first { IfOk result (λ table. have_first table.columns ≡ true) }
{
    let id = column(alloc, "id", 9)?;
    let a = Column {
        name: Text::of(alloc, "a")?,
        kind: Kind::Num,
        lo: 0,
        hi: 9,
        nullable: true,
    };
    table_of(alloc, "n", [id, a])
}

fn has_pair(alloc: Global, rects: &Rects, a: Cell) -> Result<bool, NoMemory> {
    Ok(rects.has(&list_of(alloc, [Cell::Num(7), a])?))
}

// Whether one rect is left of all pairs without those with a number, and it has those with a NULL.
fn null_is_left(alloc: Global) -> Result<bool, NoMemory> {
    let table = pairs(alloc)?;
    let all = rects_of(alloc, [Span::Full, Span::Full])?;
    let numbers = rects_of(alloc, [Span::Full, Span::Nums { lo: 0, hi: 9 }])?;
    if !all.fits(&table) || !numbers.fits(&table) {
        return Ok(false);
    }
    match all.minus(alloc, &numbers, &table, 100) {
        Ok(left) => Ok(
            left.len() == 1
                && has_pair(alloc, &left, Cell::Null)?
                && !has_pair(alloc, &left, Cell::Num(9))?,
        ),
        Err(_) => Ok(false),
    }
}

#[test]
fn all_without_the_numbers_is_null(rt: HostRuntime) {
    assert!(rt; null_is_left(rt.alloc()) == Ok(true));
}

// The place of the table in a copy of a schema that has it alone.
fn place_in_copy(alloc: Global, schema: &mut Schema) -> Result<Option<u8>, No<Fault>> {
    schema.add(alloc, numbers(alloc)?)?;
    Ok(schema.copy(alloc)?.table_of("n"))
}

#[test]
fn a_schema_is_copied(rt: HostRuntime) {
    let alloc = rt.alloc();
    let mut schema = Schema::new(alloc);
    assert!(rt; place_in_copy(alloc, &mut schema) == Ok(Some(0)));
}

const LINES: [(TraceLine, &str); 4] = [
    (
        TraceLine::QueryBusy {
            client: 1,
            request: 1,
        },
        "6 query 1 busy 1\n",
    ),
    (TraceLine::PushClosed { client: 1 }, "6 push 1 closed\n"),
    (TraceLine::ServerEmpty { client: 1 }, "6 toserver 1 empty\n"),
    (TraceLine::ClientEmpty { client: 1 }, "6 toclient 1 empty\n"),
];

#[test]
fn lines_are_printed(rt: HostRuntime) {
    let other = other_text(rt.alloc(), &[], 6, &LINES);
    assert_eq!(rt; other, Ok(None));
}
