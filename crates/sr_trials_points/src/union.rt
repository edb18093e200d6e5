//! Lists of rects of employees, at values worked out by hand.
ghost use Rattle.std.specs.Prelude.{◌≡◌, true, IfOk, IfSome};
ghost use Rattle.std.specs.List.{list_all};
ghost use Rattle.sr_box.specs.Points.{rect_fits};
ghost use Rattle.sr_box.specs.Corners.{have_first};
ghost use Rattle.sr_union.specs.Grid.{all_inner};

use crate::common::{column, list_of, rect_of, table_of};
use sr_box::prefix::next_prefix;
use sr_box::rect::Rect;
use sr_box::span::Span;
use sr_cell::attrs::Attrs;
use sr_cell::cell::{Cell, Row};
use sr_cell::list::NoMemory;
use sr_cell::table::{Column, Kind, Table};
use sr_cell::text::Text;
use sr_union::rects::Rects;
use std::alloc::Global;

// Numbers up to 9999, a name, ages up to 150, and departments up to 99.
fn employees(alloc: Global) -> Result<Table, NoMemory>
    ensures inner { IfOk result (λ table. all_inner table.columns ≡ true) }
    ensures first { IfOk result (λ table. have_first table.columns ≡ true) }
{
    let id = column(alloc, "id", 9999)?;
    let name = Column {
        name: Text::of(alloc, "name")?,
        kind: Kind::Str,
        lo: 0,
        hi: 0,
        nullable: false,
    };
    let age = column(alloc, "age", 150)?;
    let dept = column(alloc, "dept", 99)?;
    table_of(alloc, "emp", [id, name, age, dept])
}

fn rect(alloc: Global, age: Span, dept: Span) -> Result<Rect, NoMemory> {
    rect_of(alloc, [Span::Full, Span::Full, age, dept])
}

// A rect for each range of ages.
fn aged(alloc: Global, ranges: &[(i64, i64)]) -> Result<Rects, NoMemory> {
    let mut rects = Rects::new(alloc);
    for (lo, hi) in ranges {
        rects.push(rect(alloc, Span::Nums { lo: *lo, hi: *hi }, Span::Full)?)?;
    }
    Ok(rects)
}

fn row_of(alloc: Global, age: i64) -> Result<Row, NoMemory> {
    let name = Cell::Str(Text::of(alloc, "ann")?);
    list_of(alloc, [Cell::Num(7), name, Cell::Num(age), Cell::Num(5)])
}

fn is_in(age: i64, ranges: &[(i64, i64)]) -> bool {
    ranges.iter().any(|(lo, hi)| *lo <= age && age <= *hi)
}

// Whether the rects have just the ages of the ranges.
fn have(alloc: Global, rects: &Rects, ranges: &[(i64, i64)]) -> Result<bool, NoMemory> {
    for age in 0..151 {
        if rects.has(&row_of(alloc, age)?) != is_in(age, ranges) {
            return Ok(false);
        }
    }
    Ok(true)
}

// Whether just one of the rects has that age.
fn is_once(alloc: Global, rects: &Rects, age: i64) -> Result<bool, NoMemory> {
    let row = row_of(alloc, age)?;
    let mut found = false;
    for rect in rects.as_slice() {
        if rect.has(&row) {
            if found {
                return Ok(false);
            }
            found = true;
        }
    }
    Ok(found)
}

// Whether the ages of the one without those of the other are just those of the ranges.
fn minus_is(
    alloc: Global,
    one: &Rects,
    other: &Rects,
    ranges: &[(i64, i64)],
) -> Result<bool, NoMemory> {
    let table = employees(alloc)?;
    if !one.fits(&table) || !other.fits(&table) {
        return Ok(false);
    }
    match one.minus(alloc, other, &table, 100) {
        Ok(left) => have(alloc, &left, ranges),
        Err(_) => Ok(false),
    }
}

// The same of the ages to 50 without those from 10 to 20 and from 50 on.
fn minus_two_is(alloc: Global, ranges: &[(i64, i64)]) -> Result<bool, NoMemory> {
    let one = aged(alloc, &[(0, 50)])?;
    let other = aged(alloc, &[(10, 20), (50, 60)])?;
    minus_is(alloc, &one, &other, ranges)
}

#[test]
fn ages_without_others_are_left(rt: HostRuntime) {
    assert!(rt; minus_two_is(rt.alloc(), &[(0, 9), (21, 49)]) == Ok(true));
}

fn is_within(alloc: Global, one: &Rects, other: &Rects) -> Result<Option<bool>, NoMemory> {
    let table = employees(alloc)?;
    if !one.fits(&table) || !other.fits(&table) {
        return Ok(None);
    }
    Ok(Some(one.within(alloc, other, &table)?))
}

fn within(
    alloc: Global,
    one: &[(i64, i64)],
    other: &[(i64, i64)],
) -> Result<Option<bool>, NoMemory> {
    let one = aged(alloc, one)?;
    let other = aged(alloc, other)?;
    is_within(alloc, &one, &other)
}

#[test]
fn ages_may_lie_within_two_ranges(rt: HostRuntime) {
    let alloc = rt.alloc();
    assert!(rt; within(alloc, &[(10, 20)], &[(0, 15), (16, 30)]) == Ok(Some(true)));
    assert!(rt; within(alloc, &[(10, 20)], &[(0, 15)]) == Ok(Some(false)));
}

// The ages from 30 to 40, cut between two departments.
fn cut_between(alloc: Global) -> Result<Rects, NoMemory> {
    let mut rects = Rects::new(alloc);
    for (lo, hi) in &[(0, 2), (3, 99)] {
        rects.push(rect(
            alloc,
            Span::Nums { lo: 30, hi: 40 },
            Span::Nums { lo: *lo, hi: *hi },
        )?)?;
    }
    Ok(rects)
}

// the place of the ages
const AGE: Attrs = Attrs(4);

fn constrain_no_department(rects: &Rects) -> bool {
    for rect in rects.as_slice() {
        match rect.get(3) {
            Some(Span::Full) => {}
            _ => return false,
        }
    }
    true
}

// Whether what is tidied for the ages has just those from 30 to 40, in rects that constrain no department.
fn is_tidied(alloc: Global, rects: &Rects) -> Result<bool, NoMemory> {
    let table = employees(alloc)?;
    if !rects.fits(&table) {
        return Ok(false);
    }
    match rects.tidy(alloc, AGE, &table, 100) {
        Ok(tidy) => Ok(constrain_no_department(&tidy) && have(alloc, &tidy, &[(30, 40)])?),
        Err(_) => Ok(false),
    }
}

fn is_cut_tidied(alloc: Global) -> Result<bool, NoMemory> {
    is_tidied(alloc, &cut_between(alloc)?)
}

#[test]
fn a_cut_that_is_not_needed_goes(rt: HostRuntime) {
    assert!(rt; is_cut_tidied(rt.alloc()) == Ok(true));
}

// Whether just one of the rects has each age up to 30.
fn are_once(alloc: Global, rects: &Rects) -> Result<bool, NoMemory> {
    for age in 0..31 {
        if !is_once(alloc, rects, age)? {
            return Ok(false);
        }
    }
    Ok(true)
}

// Whether the rects have the ages 0 to 30, each once, when they are made disjoint.
fn is_disjoint(alloc: Global, rects: &Rects) -> Result<bool, NoMemory> {
    let table = employees(alloc)?;
    if !rects.fits(&table) {
        return Ok(false);
    }
    match rects.disjoint(alloc, &table, 100) {
        Ok(apart) => Ok(have(alloc, &apart, &[(0, 30)])? && are_once(alloc, &apart)?),
        Err(_) => Ok(false),
    }
}

// The same of the ages from 0 to 20 and from 10 to 30.
fn are_two_disjoint(alloc: Global) -> Result<bool, NoMemory> {
    is_disjoint(alloc, &aged(alloc, &[(0, 20), (10, 30)])?)
}

#[test]
fn no_age_is_in_two_rects(rt: HostRuntime) {
    assert!(rt; are_two_disjoint(rt.alloc()) == Ok(true));
}

// Whether the ages from 0 to 20 meet those from 21 to 30.
fn neighbours_meet(alloc: Global) -> Result<bool, NoMemory> {
    let one = rect(alloc, Span::Nums { lo: 0, hi: 20 }, Span::Full)?;
    let other = rect(alloc, Span::Nums { lo: 21, hi: 30 }, Span::Full)?;
    Ok(one.meet(alloc, &other)?.is_some())
}

#[test]
fn ranges_side_by_side_do_not_meet(rt: HostRuntime) {
    assert!(rt; neighbours_meet(rt.alloc()) == Ok(false));
}

// Whether texts with that beginning end there, or nowhere.
fn ends_at(alloc: Global, bytes: &[u8], wanted: Option<&[u8]>) -> Result<bool, NoMemory> {
    match (next_prefix(alloc, bytes)?, wanted) {
        (Some(next), Some(wanted)) => Ok(next.as_slice() == wanted),
        (None, None) => Ok(true),
        _ => Ok(false),
    }
}

#[test]
fn the_last_byte_that_can_grows(rt: HostRuntime) {
    let alloc = rt.alloc();
    assert!(rt; ends_at(alloc, &[0x61, 0xff], Some(&[0x62])) == Ok(true));
    assert!(rt; ends_at(alloc, &[0xff], None) == Ok(true));
}

fn is_centre(alloc: Global, rects: &Rects, sums: &[i64]) -> Result<bool, NoMemory> {
    let table = employees(alloc)?;
    if !rects.fits(&table) {
        return Ok(false);
    }
    match rects.centre(alloc, &table)? {
        Some(centre) => Ok(centre.as_slice() == sums),
        None => Ok(false),
    }
}

// The same of the ages from 30 to 34 and from 40 to 44.
fn is_centre_of_two(alloc: Global, sums: &[i64]) -> Result<bool, NoMemory> {
    is_centre(alloc, &aged(alloc, &[(30, 34), (40, 44)])?, sums)
}

#[test]
fn a_centre_has_both_ends_of_each_column(rt: HostRuntime) {
    assert!(rt; is_centre_of_two(rt.alloc(), &[9999, 4294967296, 74, 99]) == Ok(true));
}
