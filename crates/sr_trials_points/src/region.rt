//! A region of persons by age, at values worked out by hand.
ghost use Rattle.std.specs.Prelude.{◌≡◌, pos, true, [], ◌∷◌, IfOk, IfSome, OnOk};
ghost use Rattle.sr_cell.specs.declared.cell.Cell.TheVariants.{Num};
ghost use Rattle.sr_cell.specs.Columns.{is_point};
ghost use Rattle.sr_model.specs.SortedRows.{ascend, with_row};
ghost use Rattle.sr_rows.specs.Places.{is_apart};
ghost use Rattle.sr_box.specs.declared.span.Span.TheVariants.{Full, Nums};
ghost use Rattle.sr_box.specs.Corners.{have_first};
ghost use Rattle.sr_union.specs.Grid.{all_inner};
ghost use Rattle.sr_region.specs.Regions.{rank, IsRowIn, IsRegion};

use crate::common::{ages, column, list_of, rects_of, table_of};
use sr_box::span::Span;
use sr_cell::attrs::Attrs;
use sr_cell::cell::{Cell, Row};
use sr_cell::list::NoMemory;
use sr_cell::table::Table;
use sr_cell::text::Text;
use sr_region::halves::Halves;
use sr_region::inside::RowsIn;
use sr_region::region::Region;
use sr_union::rects::Rects;
use std::alloc::Global;

// Numbers up to 9999, and ages up to 150.
fn persons(alloc: Global) -> Result<Table, NoMemory>
    ensures key { IfOk result (λ table. table.key ≡ 0) }
    ensures inner { IfOk result (λ table. all_inner table.columns ≡ true) }
    ensures first { IfOk result (λ table. have_first table.columns ≡ true) }
    ensures young { IfOk result (λ table. is_point table.columns (Num (pos 5) ∷ Num (pos 31) ∷ []) ≡ true) }
    ensures old { IfOk result (λ table. is_point table.columns (Num (pos 3) ∷ Num (pos 39) ∷ []) ≡ true) }
{
    let id = column(alloc, "id", 9999)?;
    let age = column(alloc, "age", 150)?;
    table_of(alloc, "persons", [id, age])
}

fn region_of(alloc: Global, table: &Table, lo: i64, hi: i64) -> Result<Option<Region>, NoMemory>
    requires { table.now.key ≡ 0 }
    ensures region { IfOk result (λ found. IfSome found (IsRegion table.now)) }
    ensures is { IfOk result (λ found. IfSome found (λ region. region ≡ record { table = 2; key = 0; attrs = 3; stamp = 7; rects = (Full ∷ Nums lo hi ∷ []) ∷ []; rows = [] })) }
{
    let rects = ages(alloc, lo, hi)?;
    if !rects.fits(table) {
        return Ok(None);
    }
    Ok(Some(Region::new(alloc, 2, 0, Attrs(3), 7, rects)))
}

fn split_at(
    alloc: Global,
    table: &Table,
    region: Region,
    lo: i64,
    hi: i64,
) -> Result<Option<Halves>, NoMemory>
    requires region { IsRegion table.now region }
    requires attrs { region.attrs ≡ 3 }
    requires key { region.key ≡ 0 }
    requires inner { all_inner table.now.columns ≡ true }
    requires first { have_first table.now.columns ≡ true }
    ensures inside { IfOk result (λ found. IfSome found (λ halves. IfSome halves.inside (λ half. (half.attrs ≡ 3) × (half.key ≡ 0)))) }
    ensures outside { IfOk result (λ found. IfSome found (λ halves. IfSome halves.outside (λ half. ascend (rank 3 0) half.rows ≡ true))) }
{
    let cut = ages(alloc, lo, hi)?;
    if !cut.fits(table) {
        return Ok(None);
    }
    match region.split(alloc, &cut, table, 100) {
        Ok(halves) => Ok(Some(halves)),
        Err(_) => Ok(None),
    }
}

// The halves of the ages from 20 to 60.
fn halves_at(alloc: Global, lo: i64, hi: i64) -> Result<Option<Halves>, NoMemory> {
    let table = persons(alloc)?;
    match region_of(alloc, &table, 20, 60)? {
        Some(region) => split_at(alloc, &table, region, lo, hi),
        None => Ok(None),
    }
}

fn rects_in(half: &Option<Region>) -> usize {
    match half {
        Some(region) => region.rects.len(),
        None => 0,
    }
}

fn have(halves: &Option<Halves>, inside: usize, outside: usize) -> bool {
    match halves {
        Some(halves) => rects_in(&halves.inside) == inside && rects_in(&halves.outside) == outside,
        None => false,
    }
}

// Whether these halves have so many rects.
fn are_cut(
    alloc: Global,
    lo: i64,
    hi: i64,
    inside: usize,
    outside: usize,
) -> Result<bool, NoMemory> {
    Ok(have(&halves_at(alloc, lo, hi)?, inside, outside))
}

#[test]
fn a_region_has_two_halves_or_one(rt: HostRuntime) {
    let alloc = rt.alloc();
    assert!(rt; are_cut(alloc, 30, 40, 1, 2) == Ok(true));
    assert!(rt; are_cut(alloc, 0, 10, 0, 1) == Ok(true));
    assert!(rt; are_cut(alloc, 10, 70, 1, 0) == Ok(true));
}

fn row_of(alloc: Global, id: i64, age: i64) -> Result<Row, NoMemory>
    ensures { IfOk result (λ row. row ≡ Num id ∷ Num age ∷ []) }
{
    list_of(alloc, [Cell::Num(id), Cell::Num(age)])
}

fn is_row_of(row: &Row, id: i64) -> bool {
    match row.get(0) {
        Some(Cell::Num(own)) => *own == id,
        _ => false,
    }
}

fn are(rows: RowsIn, ids: &[i64]) -> bool {
    let mut rows = rows;
    for id in ids {
        match rows.next() {
            Some(lent) if is_row_of(lent.row, *id) => {}
            _ => return false,
        }
    }
    rows.next().is_none()
}

// Whether just the rows of those numbers lie in these ages.
fn has_rows(
    alloc: Global,
    region: &Region,
    lo: i64,
    hi: i64,
    ids: &[i64],
) -> Result<bool, NoMemory> {
    let rects = ages(alloc, lo, hi)?;
    Ok(are(region.rows_in(&rects), ids))
}

// The ages of a range, with one person.
fn region_with(alloc: Global, lo: i64, hi: i64, id: i64, age: i64) -> Result<Region, NoMemory>
    ensures class { IfOk result (λ region. (region.attrs ≡ 3) × (region.key ≡ 0)) }
    ensures order { IfOk result (λ region. ascend (rank 3 0) region.rows ≡ true) }
{
    let row = row_of(alloc, id, age)?;
    let mut region = Region::new(alloc, 2, 0, Attrs(3), 7, ages(alloc, lo, hi)?);
    region.put(row).and(Ok(region))
}

// The ages from 20 to 60, with person 5 of 30, and then person 3 of 50.
fn region_with_two(alloc: Global) -> Result<Region, NoMemory> {
    let row = row_of(alloc, 3, 50)?;
    let mut region = region_with(alloc, 20, 60, 5, 30)?;
    region.put(row).and(Ok(region))
}

// Whether the rows of these two come by key, and one of them alone where the other is left out.
fn two_lie_by_key(alloc: Global) -> Result<bool, NoMemory> {
    let region = region_with_two(alloc)?;
    let both = has_rows(alloc, &region, 20, 60, &[3, 5])?;
    Ok(both && has_rows(alloc, &region, 20, 30, &[5])?)
}

#[test]
fn rows_lie_by_key(rt: HostRuntime) {
    assert!(rt; two_lie_by_key(rt.alloc()) == Ok(true));
}

// Whether a region serves its first column, and neither another column nor another table.
fn serves_its_class(alloc: Global) -> Result<bool, NoMemory> {
    let region = Region::new(alloc, 2, 0, Attrs(3), 7, ages(alloc, 20, 60)?);
    let others = region.serves(2, Attrs(4)) || region.serves(3, Attrs(1));
    Ok(region.serves(2, Attrs(1)) && !others)
}

#[test]
fn a_region_serves_its_class(rt: HostRuntime) {
    assert!(rt; serves_its_class(rt.alloc()) == Ok(true));
}

fn joined(alloc: Global) -> Result<Region, NoMemory> {
    let young = region_with(alloc, 20, 29, 5, 22)?;
    young.join(region_with(alloc, 30, 60, 3, 50)?)
}

// How many rects that one has, and whether it has the rows of both.
fn both_of_joined(alloc: Global) -> Result<(usize, bool), NoMemory> {
    let both = joined(alloc)?;
    let has = has_rows(alloc, &both, 20, 60, &[3, 5])?;
    Ok((both.rects.len(), has))
}

#[test]
fn a_join_has_the_rects_and_rows_of_both(rt: HostRuntime) {
    assert_eq!(rt; both_of_joined(rt.alloc()), Ok((2, true)));
}

fn with_person(
    alloc: Global,
    table: &Table,
    region: Region,
    id: i64,
    age: i64,
) -> Result<Region, NoMemory>
    requires region { IsRegion table.now region }
    requires row { IsRowIn table.now.columns region.attrs region.rects (Num id ∷ Num age ∷ []) }
    requires apart { is_apart (rank region.attrs region.key) region.rows (Num id ∷ Num age ∷ []) ≡ true }
    ensures region { IfOk result (IsRegion table.now) }
    ensures put { IfOk result (λ more. more ≡ record region { rows = with_row (rank region.attrs region.key) region.rows (Num id ∷ Num age ∷ []) }) }
{
    let mut region = region;
    region.put(row_of(alloc, id, age)?)?;
    Ok(region)
}

// The ages from 30 to 40, with persons of 31 and 39.
fn with_persons(alloc: Global, table: &Table, region: Region) -> Result<Region, NoMemory>
    requires is { region ≡ record { table = 2; key = 0; attrs = 3; stamp = 7; rects = (Full ∷ Nums (pos 30) (pos 40) ∷ []) ∷ []; rows = [] } }
    requires region { IsRegion table.now region }
    requires young { is_point table.now.columns (Num (pos 5) ∷ Num (pos 31) ∷ []) ≡ true }
    requires old { is_point table.now.columns (Num (pos 3) ∷ Num (pos 39) ∷ []) ≡ true }
    ensures region { IfOk result (IsRegion table.now) }
    ensures attrs { IfOk result (λ more. more.attrs ≡ 3) }
    ensures key { IfOk result (λ more. more.key ≡ 0) }
{
    let one = with_person(alloc, table, region, 5, 31)?;
    with_person(alloc, table, one, 3, 39)
}

// Cut by the ages from 35 to 50.
fn halves_of_persons(alloc: Global) -> Result<Option<Halves>, NoMemory>
    ensures inside { IfOk result (λ found. IfSome found (λ halves. IfSome halves.inside (λ half. (half.attrs ≡ 3) × (half.key ≡ 0)))) }
    ensures outside { IfOk result (λ found. IfSome found (λ halves. IfSome halves.outside (λ half. ascend (rank 3 0) half.rows ≡ true))) }
{
    let table = persons(alloc)?;
    match region_of(alloc, &table, 30, 40)? {
        Some(region) => {
            let region = with_persons(alloc, &table, region)?;
            split_at(alloc, &table, region, 35, 50)
        }
        None => Ok(None),
    }
}

fn have_ages(alloc: Global, region: &Region, ages: &[i64], has: bool) -> Result<bool, NoMemory> {
    for i in 0..ages.len() {
        let row = row_of(alloc, 7, ages[i])?;
        if region.rects.has(&row) != has {
            return Ok(false);
        }
    }
    Ok(true)
}

fn holds(
    alloc: Global,
    region: &Region,
    held: &[i64],
    others: &[i64],
    ids: &[i64],
) -> Result<bool, NoMemory> {
    let has = have_ages(alloc, region, held, true)?;
    let lacks = have_ages(alloc, region, others, false)?;
    Ok(has && lacks && has_rows(alloc, region, 30, 40, ids)?)
}

fn is_half(
    alloc: Global,
    half: &Option<Region>,
    held: &[i64],
    others: &[i64],
    ids: &[i64],
) -> Result<bool, NoMemory> {
    match half {
        Some(region) => Ok(region.rects.len() == 1 && holds(alloc, region, held, others, ids)?),
        None => Ok(false),
    }
}

fn are_halves(alloc: Global, halves: &Option<Halves>) -> Result<bool, NoMemory> {
    match halves {
        Some(halves) => Ok(
            is_half(alloc, &halves.inside, &[35, 40], &[30, 34, 41, 50], &[3])?
                && is_half(alloc, &halves.outside, &[30, 34], &[29, 35, 40], &[5])?,
        ),
        None => Ok(false),
    }
}

fn are_halves_of_persons(alloc: Global) -> Result<bool, NoMemory> {
    are_halves(alloc, &halves_of_persons(alloc)?)
}

#[test]
fn each_half_has_its_points_and_rows(rt: HostRuntime) {
    assert!(rt; are_halves_of_persons(rt.alloc()) == Ok(true));
}

fn together(halves: Halves) -> Result<Option<Region>, NoMemory>
    requires inside { IfSome halves.inside (λ half. (half.attrs ≡ 3) × (half.key ≡ 0)) }
    requires outside { IfSome halves.outside (λ half. ascend (rank 3 0) half.rows ≡ true) }
{
    let Halves { inside, outside } = halves;
    match inside {
        Some(inside) => match outside {
            Some(outside) => Ok(Some(inside.join(outside)?)),
            None => Ok(Some(inside)),
        },
        None => Ok(outside),
    }
}

fn persons_again(alloc: Global) -> Result<Option<Region>, NoMemory> {
    match halves_of_persons(alloc)? {
        Some(halves) => together(halves),
        None => Ok(None),
    }
}

fn is_whole(alloc: Global, region: &Option<Region>) -> Result<bool, NoMemory> {
    match region {
        Some(region) => holds(alloc, region, &[30, 34, 35, 40], &[29, 41], &[3, 5]),
        None => Ok(false),
    }
}

fn are_persons_whole(alloc: Global) -> Result<bool, NoMemory> {
    is_whole(alloc, &persons_again(alloc)?)
}

#[test]
fn the_halves_join_to_the_whole(rt: HostRuntime) {
    assert!(rt; are_persons_whole(rt.alloc()) == Ok(true));
}

// A number, an age and a name, of which a region holds the first two.
fn member(alloc: Global, id: i64, age: i64) -> Result<Row, NoMemory> {
    let name = Text::of(alloc, "Ada")?;
    list_of(alloc, [Cell::Num(id), Cell::Num(age), Cell::Str(name)])
}

fn member_of(alloc: Global, id: i64, age: Option<i64>) -> Result<Option<Row>, NoMemory> {
    match age {
        Some(age) => Ok(Some(member(alloc, id, age)?)),
        None => Ok(None),
    }
}

fn ages_of_members(alloc: Global, lo: i64, hi: i64) -> Result<Rects, NoMemory> {
    rects_of(alloc, [Span::Full, Span::Nums { lo, hi }, Span::Full])
}

// Two persons of 39 and 31 come into a region that has no rows.
fn put_members(alloc: Global, region: &mut Region) -> Result<(), NoMemory>
    requires class { (region.old.attrs ≡ 3) × (region.old.key ≡ 0) }
    requires empty { region.old.rows ≡ [] }
    ensures order { OnOk result (ascend (rank region.new.attrs region.new.key) region.new.rows ≡ true) }
{
    region.put(row_of(alloc, 3, 39)?)?;
    region.put(row_of(alloc, 5, 31)?)
}

// The members from 30 to 40, with two of 39 and 31.
fn members(alloc: Global) -> Result<Region, NoMemory>
    ensures { IfOk result (λ region. ascend (rank region.attrs region.key) region.rows ≡ true) }
{
    let mut region = Region::new(alloc, 2, 0, Attrs(3), 7, ages_of_members(alloc, 30, 40)?);
    put_members(alloc, &mut region).and(Ok(region))
}

// The member of that number has that age from now on, or is gone.
fn change(alloc: Global, region: &mut Region, id: i64, age: Option<i64>) -> Result<(), NoMemory>
    requires { ascend (rank region.old.attrs region.old.key) region.old.rows ≡ true }
{
    region.apply(alloc, &Cell::Num(id), &member_of(alloc, id, age)?)
}

// Whether these members are left then.
fn leaves(alloc: Global, id: i64, age: Option<i64>, left: &[(i64, i64)]) -> Result<bool, NoMemory> {
    let mut region = members(alloc)?;
    change(alloc, &mut region, id, age)?;
    Ok(has_members(&region, left))
}

fn is_member(row: &Row, id: i64, age: i64) -> bool {
    match (row.get(0), row.get(1)) {
        (Some(Cell::Num(own)), Some(Cell::Num(years))) => {
            row.len() == 2 && *own == id && *years == age
        }
        _ => false,
    }
}

fn has_members(region: &Region, members: &[(i64, i64)]) -> bool {
    let rows = region.rows.as_slice();
    if rows.len() != members.len() {
        return false;
    }
    for i in 0..rows.len() {
        if !is_member(&rows[i], members[i].0, members[i].1) {
            return false;
        }
    }
    true
}

// The number and the new age of a member, and which are left.
static CHANGES: [(i64, Option<i64>, &[(i64, i64)]); 5] = [
    (4, Some(35), &[(3, 39), (4, 35), (5, 31)]),
    (3, Some(41), &[(5, 31)]),
    (3, Some(33), &[(3, 33), (5, 31)]),
    (5, None, &[(3, 39)]),
    (4, Some(51), &[(3, 39), (5, 31)]),
];

#[test]
fn a_change_is_applied_where_it_concerns_the_region(rt: HostRuntime) {
    for (id, age, left) in &CHANGES {
        assert!(rt;
            leaves(rt.alloc(), *id, *age, left) == Ok(true),
            "{id} becomes {age:?}"
        );
    }
}
