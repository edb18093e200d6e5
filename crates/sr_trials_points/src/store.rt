//! A client's regions of persons by age, at answers worked out by hand.
ghost use Rattle.std.specs.Prelude.{◌≡◌, ◌<◌, pos, true, [], ◌∷◌, length, IfOk, OnOk, IsTrue};
ghost use Rattle.std.specs.List.{list_all};
ghost use Rattle.sr_box.specs.declared.span.Span.TheVariants.{Full, Nums};
ghost use Rattle.sr_cell.specs.declared.cell.Cell.TheVariants.{Num};
ghost use Rattle.sr_cell.specs.Columns.{is_point, table_at};
ghost use Rattle.sr_query.specs.Bound.{is_table};
ghost use Rattle.sr_store.specs.Stores.{IsStore, IsSettled};

use crate::common::{column, list_of, rects_of, table_of};
use sr_box::span::Span;
use sr_cell::attrs::Attrs;
use sr_cell::cell::{Cell, Rows};
use sr_cell::list::{NoMemory, Seq};
use sr_cell::schema::Schema;
use sr_cell::table::Table;
use sr_message::message::Tell;
use sr_policy::policy::{Limits, Policy};
use sr_query::query::{Part, Parts};
use sr_store::store::{Arrival, Arrivals, Store};
use sr_union::rects::Rects;
use std::alloc::Global;

// More than these tests keep.
const LIMITS: Limits = Limits {
    rows: 10000,
    regions: 64,
    policy: Policy::Recency,
};

// Numbers up to 9999, ages up to 150, and departments up to 99.
fn table(alloc: Global) -> Result<Table, NoMemory>
    ensures sound { IfOk result (λ table. is_table table ≡ true) }
    ensures key { IfOk result (λ table. table.key ≡ 0) }
    ensures point { IfOk result (λ table. is_point table.columns (Num (pos 1) ∷ Num (pos 31) ∷ Num (pos 5) ∷ []) ≡ true) }
    ensures old { IfOk result (λ table. is_point table.columns (Num (pos 1) ∷ Num (pos 41) ∷ Num (pos 5) ∷ []) ≡ true) }
    ensures second { IfOk result (λ table. is_point table.columns (Num (pos 2) ∷ Num (pos 36) ∷ Num (pos 5) ∷ []) ≡ true) }
    ensures third { IfOk result (λ table. is_point table.columns (Num (pos 3) ∷ Num (pos 35) ∷ Num (pos 5) ∷ []) ≡ true) }
{
    let id = column(alloc, "id", 9999)?;
    let age = column(alloc, "age", 150)?;
    let dept = column(alloc, "dept", 99)?;
    table_of(alloc, "p", [id, age, dept])
}

pub(crate) fn schema_of(alloc: Global) -> Result<Schema, NoMemory>
    ensures tables { IfOk result (λ schema. IsTrue (list_all is_table schema)) }
    ensures there { IfOk result (λ schema. 0 < length schema) }
    ensures key { IfOk result (λ schema. (table_at schema 0).key ≡ 0) }
    ensures point { IfOk result (λ schema. is_point (table_at schema 0).columns (Num (pos 1) ∷ Num (pos 31) ∷ Num (pos 5) ∷ []) ≡ true) }
    ensures old { IfOk result (λ schema. is_point (table_at schema 0).columns (Num (pos 1) ∷ Num (pos 41) ∷ Num (pos 5) ∷ []) ≡ true) }
    ensures second { IfOk result (λ schema. is_point (table_at schema 0).columns (Num (pos 2) ∷ Num (pos 36) ∷ Num (pos 5) ∷ []) ≡ true) }
    ensures third { IfOk result (λ schema. is_point (table_at schema 0).columns (Num (pos 3) ∷ Num (pos 35) ∷ Num (pos 5) ∷ []) ≡ true) }
{
    let mut schema = Schema::new(alloc);
    match schema.add(alloc, table(alloc)?) {
        Ok(()) => Ok(schema),
        Err(_) => Err(NoMemory),
    }
}

pub(crate) fn ages(alloc: Global, lo: i64, hi: i64) -> Result<Rects, NoMemory>
    ensures { IfOk result (λ rects. rects ≡ (Full ∷ Nums lo hi ∷ Full ∷ []) ∷ []) }
{
    rects_of(alloc, [Span::Full, Span::Nums { lo, hi }, Span::Full])
}

// A query for those ages, which needs the number and the age.
pub(crate) fn parts_of(alloc: Global, lo: i64, hi: i64) -> Result<Parts, NoMemory>
    ensures { IfOk result (λ parts. parts ≡ record { table = 0; key = 0; need = 3; rects = (Full ∷ Nums lo hi ∷ Full ∷ []) ∷ []; width = 1 } ∷ []) }
{
    let part = Part {
        table: 0,
        key: 0,
        need: Attrs(3),
        rects: ages(alloc, lo, hi)?,
        width: 1,
    };
    list_of(alloc, [part])
}

fn arrival_of(alloc: Global, attrs: Attrs, rects: Rects) -> Arrival
    ensures { result ≡ record { table = 0; key = 0; attrs = attrs; rects = rects; rows = [] } }
{
    Arrival {
        table: 0,
        key: 0,
        attrs,
        rects,
        rows: Seq::new(alloc),
    }
}

// Those ages arrive, with the number and the age.
pub(crate) fn narrow(alloc: Global, lo: i64, hi: i64) -> Result<Arrivals, NoMemory>
    ensures { IfOk result (λ arrivals. arrivals ≡ record { table = 0; key = 0; attrs = 3; rects = (Full ∷ Nums lo hi ∷ Full ∷ []) ∷ []; rows = [] } ∷ []) }
{
    list_of(alloc, [arrival_of(alloc, Attrs(3), ages(alloc, lo, hi)?)])
}

// These ages come to an empty store, with the number and the age; out of memory is said too where they do not fit the table.
fn hold(alloc: Global, schema: &Schema, store: &mut Store, lo: i64, hi: i64) -> Result<(), NoMemory>
    requires tables { IsTrue (list_all is_table schema.now) }
    requires there { 0 < length schema.now }
    requires key { (table_at schema.now 0).key ≡ 0 }
    requires empty { store.old.regions ≡ [] }
    ensures store { OnOk result (IsStore schema.now store.new.regions) }
    ensures settled { OnOk result (IsSettled schema.now store.new.regions) }
{
    if !ages(alloc, lo, hi)?.fits(&schema.as_slice()[0]) {
        return Err(NoMemory);
    }
    let parts = parts_of(alloc, lo, hi)?;
    store.answered(alloc, schema, 1, parts.as_slice(), narrow(alloc, lo, hi)?)?;
    Ok(())
}

// A query for ages that are all held.
fn touch(
    alloc: Global,
    schema: &Schema,
    store: &mut Store,
    lo: i64,
    hi: i64,
) -> Result<(), NoMemory>
    requires tables { IsTrue (list_all is_table schema.now) }
    requires there { 0 < length schema.now }
    requires store { IsStore schema.now store.old.regions }
    requires settled { IsSettled schema.now store.old.regions }
{
    if !ages(alloc, lo, hi)?.fits(&schema.as_slice()[0]) {
        return Err(NoMemory);
    }
    let parts = parts_of(alloc, lo, hi)?;
    store.answered(alloc, schema, 2, parts.as_slice(), Seq::new(alloc))?;
    Ok(())
}

// How many rects the region of that number has, and its stamp.
fn region_at(store: &Store, number: usize) -> Option<(usize, u64)> {
    match store.regions.get(number) {
        Some(region) => Some((region.rects.len(), region.stamp)),
        None => None,
    }
}

// How many rects are held of those ages.
fn rects_held(alloc: Global, store: &Store, lo: i64, hi: i64) -> Result<usize, NoMemory> {
    let parts = parts_of(alloc, lo, hi)?;
    Ok(store.cover(alloc, &parts.as_slice()[0])?.len())
}

// A region's number of rects and its stamp.
type Stamped = Option<(usize, u64)>;

// Of the ages 30 to 40 the ages 32 to 35 are asked again: how many regions there are, the two, and how many rects are held.
fn split(
    alloc: Global,
    schema: &Schema,
    store: &mut Store,
) -> Result<(usize, Stamped, Stamped, usize), NoMemory>
    requires tables { IsTrue (list_all is_table schema.now) }
    requires there { 0 < length schema.now }
    requires key { (table_at schema.now 0).key ≡ 0 }
    requires empty { store.old.regions ≡ [] }
{
    hold(alloc, schema, store, 30, 40)?;
    touch(alloc, schema, store, 32, 35)?;
    let held = rects_held(alloc, store, 30, 40)?;
    let regions = store.regions.len();
    Ok((regions, region_at(store, 0), region_at(store, 1), held))
}

fn split_ages(alloc: Global) -> Result<(usize, Stamped, Stamped, usize), NoMemory> {
    let schema = schema_of(alloc)?;
    let mut store = Store::new(alloc, LIMITS);
    split(alloc, &schema, &mut store)
}

#[test]
fn what_is_asked_again_has_a_new_stamp(rt: HostRuntime) {
    assert_eq!(rt;
        split_ages(rt.alloc()),
        Ok((2, Some((2, 1)), Some((1, 2)), 3))
    );
}

// One row with the number 1 and that age.
fn row_of_age(alloc: Global, age: i64) -> Result<Rows, NoMemory>
    ensures { IfOk result (λ rows. rows ≡ (Num (pos 1) ∷ Num age ∷ []) ∷ []) }
{
    list_of(alloc, [list_of(alloc, [Cell::Num(1), Cell::Num(age)])?])
}

// The ages from that one on arrive, with a row of it.
fn arrival_with_row(alloc: Global, age: i64, hi: i64) -> Result<Arrivals, NoMemory>
    ensures { IfOk result (λ arrivals. arrivals ≡ record { table = 0; key = 0; attrs = 3; rects = (Full ∷ Nums age hi ∷ Full ∷ []) ∷ []; rows = (Num (pos 1) ∷ Num age ∷ []) ∷ [] } ∷ []) }
{
    let rows = row_of_age(alloc, age)?;
    let arrival = Arrival {
        table: 0,
        key: 0,
        attrs: Attrs(3),
        rects: ages(alloc, age, hi)?,
        rows,
    };
    list_of(alloc, [arrival])
}

// The ages 31 to 40 come to an empty store, with a row of the first: how many marks that makes.
fn bring_row(alloc: Global, schema: &Schema, store: &mut Store) -> Result<usize, NoMemory>
    requires tables { IsTrue (list_all is_table schema.now) }
    requires there { 0 < length schema.now }
    requires key { (table_at schema.now 0).key ≡ 0 }
    requires point { is_point (table_at schema.now 0).columns (Num (pos 1) ∷ Num (pos 31) ∷ Num (pos 5) ∷ []) ≡ true }
    requires empty { store.old.regions ≡ [] }
    ensures store { OnOk result (IsStore schema.now store.new.regions) }
{
    if !ages(alloc, 31, 40)?.fits(&schema.as_slice()[0]) {
        return Err(NoMemory);
    }
    let parts = parts_of(alloc, 31, 40)?;
    let arrivals = arrival_with_row(alloc, 31, 40)?;
    let marks = store.answered(alloc, schema, 1, parts.as_slice(), arrivals)?;
    Ok(marks.len())
}

// How many marks such an answer makes, how many are made then to meet the later limit, and how many rows are left.
fn limit(
    alloc: Global,
    schema: &Schema,
    store: &mut Store,
    later: u32,
) -> Result<(usize, usize, u64), NoMemory>
    requires tables { IsTrue (list_all is_table schema.now) }
    requires there { 0 < length schema.now }
    requires key { (table_at schema.now 0).key ≡ 0 }
    requires point { is_point (table_at schema.now 0).columns (Num (pos 1) ∷ Num (pos 31) ∷ Num (pos 5) ∷ []) ≡ true }
    requires empty { store.old.regions ≡ [] }
{
    let marks = bring_row(alloc, schema, store)?;
    store.limits.rows = later;
    let more = store.fit(alloc, schema)?.len();
    Ok((marks, more, store.rows()))
}

fn limit_rows(alloc: Global, first: u32, later: u32) -> Result<(usize, usize, u64), NoMemory> {
    let schema = schema_of(alloc)?;
    let limits = Limits {
        rows: first,
        regions: 64,
        policy: Policy::Recency,
    };
    let mut store = Store::new(alloc, limits);
    limit(alloc, &schema, &mut store, later)
}

// The first and the later limit, and what `limit` comes to.
static BUDGETS: [(u32, u32, (usize, usize, u64)); 3] = [
    (0, 0, (2, 0, 0)),
    (1, 1, (1, 0, 1)),
    (1, 0, (1, 1, 0)),
];

#[test]
fn rows_above_the_budget_are_dropped(rt: HostRuntime) {
    for (first, later, left) in &BUDGETS {
        assert_eq!(rt; limit_rows(rt.alloc(), *first, *later), Ok(*left));
    }
}

// The person of that number, of department 5, has that age from now on.
fn tell_of(alloc: Global, id: i64, age: i64) -> Result<Tell, NoMemory>
    ensures { IfOk result (λ tell. tell ≡ record { table = 0; key = Num id; after = Some (Num id ∷ Num age ∷ Num (pos 5) ∷ []) }) }
{
    let row = list_of(alloc, [Cell::Num(id), Cell::Num(age), Cell::Num(5)])?;
    Ok(Tell {
        table: 0,
        key: Cell::Num(id),
        after: Some(row),
    })
}

fn tell_age(
    alloc: Global,
    schema: &Schema,
    store: &mut Store,
    id: i64,
    age: i64,
) -> Result<(), NoMemory>
    requires there { 0 < length schema.now }
    requires key { (table_at schema.now 0).key ≡ 0 }
    requires point { is_point (table_at schema.now 0).columns (Num id ∷ Num age ∷ Num (pos 5) ∷ []) ≡ true }
    requires store { IsStore schema.now store.old.regions }
    ensures store { OnOk result (IsStore schema.now store.new.regions) }
    ensures settled { OnOk result (IsSettled schema.now store.old.regions → IsSettled schema.now store.new.regions) }
{
    let told = list_of(alloc, [tell_of(alloc, id, age)?])?;
    store.apply(alloc, told.as_slice())
}

// The age in the first row of the region of that number.
fn age_at(store: &Store, number: usize) -> Option<i64> {
    let region = store.regions.get(number)?;
    let row = region.rows.get(0)?;
    match row.get(1) {
        Some(Cell::Num(age)) => Some(*age),
        _ => None,
    }
}

// A query for the ages 41 to 50 is answered, which brings person 1 with the age 41.
fn bring_older(alloc: Global, schema: &Schema, store: &mut Store) -> Result<(), NoMemory>
    requires tables { IsTrue (list_all is_table schema.now) }
    requires there { 0 < length schema.now }
    requires key { (table_at schema.now 0).key ≡ 0 }
    requires old { is_point (table_at schema.now 0).columns (Num (pos 1) ∷ Num (pos 41) ∷ Num (pos 5) ∷ []) ≡ true }
    requires store { IsStore schema.now store.old.regions }
    requires settled { IsSettled schema.now store.old.regions }
{
    let parts = parts_of(alloc, 41, 50)?;
    let part = &parts.as_slice()[0];
    let cover = store.cover(alloc, part)?;
    if !part.rects.fits(&schema.as_slice()[0]) || part.rects.meets(&cover) {
        return Err(NoMemory);
    }
    let arrivals = arrival_with_row(alloc, 41, 50)?;
    store.answered(alloc, schema, 2, parts.as_slice(), arrivals)?;
    Ok(())
}

// How many rows a store has that holds person 1 with the age 31, once the age 41 is brought, and the age in its second region.
fn bring(alloc: Global, schema: &Schema, store: &mut Store) -> Result<(u64, Option<i64>), NoMemory>
    requires tables { IsTrue (list_all is_table schema.now) }
    requires there { 0 < length schema.now }
    requires key { (table_at schema.now 0).key ≡ 0 }
    requires point { is_point (table_at schema.now 0).columns (Num (pos 1) ∷ Num (pos 31) ∷ Num (pos 5) ∷ []) ≡ true }
    requires old { is_point (table_at schema.now 0).columns (Num (pos 1) ∷ Num (pos 41) ∷ Num (pos 5) ∷ []) ≡ true }
    requires empty { store.old.regions ≡ [] }
{
    hold(alloc, schema, store, 30, 40)?;
    tell_age(alloc, schema, store, 1, 31)?;
    bring_older(alloc, schema, store)?;
    Ok((store.rows(), age_at(store, 1)))
}

fn brought_ages(alloc: Global) -> Result<(u64, Option<i64>), NoMemory> {
    let schema = schema_of(alloc)?;
    let mut store = Store::new(alloc, LIMITS);
    bring(alloc, &schema, &mut store)
}

#[test]
fn a_held_row_gives_way_to_the_arriving_one(rt: HostRuntime) {
    assert_eq!(rt; brought_ages(rt.alloc()), Ok((1, Some(41))));
}

// The first age in a store of the ages 30 to 40 once person 1 is 31, and once person 1 is 41.
fn tell_both(
    alloc: Global,
    schema: &Schema,
    store: &mut Store,
) -> Result<(Option<i64>, Option<i64>), NoMemory>
    requires tables { IsTrue (list_all is_table schema.now) }
    requires there { 0 < length schema.now }
    requires key { (table_at schema.now 0).key ≡ 0 }
    requires point { is_point (table_at schema.now 0).columns (Num (pos 1) ∷ Num (pos 31) ∷ Num (pos 5) ∷ []) ≡ true }
    requires old { is_point (table_at schema.now 0).columns (Num (pos 1) ∷ Num (pos 41) ∷ Num (pos 5) ∷ []) ≡ true }
    requires empty { store.old.regions ≡ [] }
{
    hold(alloc, schema, store, 30, 40)?;
    tell_age(alloc, schema, store, 1, 31)?;
    let young = age_at(store, 0);
    tell_age(alloc, schema, store, 1, 41)?;
    Ok((young, age_at(store, 0)))
}

fn told_ages(alloc: Global) -> Result<(Option<i64>, Option<i64>), NoMemory> {
    let schema = schema_of(alloc)?;
    let mut store = Store::new(alloc, LIMITS);
    tell_both(alloc, &schema, &mut store)
}

#[test]
fn what_is_told_moves_a_row_in_and_out(rt: HostRuntime) {
    assert_eq!(rt; told_ages(rt.alloc()), Ok((Some(31), None)));
}

// How many classes hold a person, and the stamp of the first.
type Holders = (usize, Option<u64>);

fn holders_of(alloc: Global, schema: &Schema, store: &Store, id: i64) -> Result<Holders, NoMemory>
    requires { IsStore schema.now store.now.regions }
{
    let classes = store.holders(alloc, 0, &Cell::Num(id))?;
    match classes.get(0) {
        Some(class) => Ok((classes.len(), Some(class.stamp))),
        None => Ok((0, None)),
    }
}

// Which classes hold person 1 in a store of the ages 30 to 40: at first, once person 1 is 31, and once person 1 is 41.
fn hold_by_turns(
    alloc: Global,
    schema: &Schema,
    store: &mut Store,
) -> Result<(Holders, Holders, Holders), NoMemory>
    requires tables { IsTrue (list_all is_table schema.now) }
    requires there { 0 < length schema.now }
    requires key { (table_at schema.now 0).key ≡ 0 }
    requires point { is_point (table_at schema.now 0).columns (Num (pos 1) ∷ Num (pos 31) ∷ Num (pos 5) ∷ []) ≡ true }
    requires old { is_point (table_at schema.now 0).columns (Num (pos 1) ∷ Num (pos 41) ∷ Num (pos 5) ∷ []) ≡ true }
    requires empty { store.old.regions ≡ [] }
{
    hold(alloc, schema, store, 30, 40)?;
    let first = holders_of(alloc, schema, store, 1)?;
    tell_age(alloc, schema, store, 1, 31)?;
    let young = holders_of(alloc, schema, store, 1)?;
    tell_age(alloc, schema, store, 1, 41)?;
    Ok((first, young, holders_of(alloc, schema, store, 1)?))
}

fn held_by_turns(alloc: Global) -> Result<(Holders, Holders, Holders), NoMemory> {
    let schema = schema_of(alloc)?;
    let mut store = Store::new(alloc, LIMITS);
    hold_by_turns(alloc, &schema, &mut store)
}

#[test]
fn a_class_holds_what_it_is_told(rt: HostRuntime) {
    assert_eq!(rt;
        held_by_turns(rt.alloc()),
        Ok(((0, None), (1, Some(1)), (0, None)))
    );
}

// Those ages come as well, at the query of that number; out of memory is said too where they do not fit the table, or some are held.
fn hold_more(
    alloc: Global,
    schema: &Schema,
    store: &mut Store,
    number: u64,
    lo: i64,
    hi: i64,
) -> Result<(), NoMemory>
    requires tables { IsTrue (list_all is_table schema.now) }
    requires there { 0 < length schema.now }
    requires key { (table_at schema.now 0).key ≡ 0 }
    requires store { IsStore schema.now store.old.regions }
    requires settled { IsSettled schema.now store.old.regions }
    ensures store { OnOk result (IsStore schema.now store.new.regions) }
    ensures settled { OnOk result (IsSettled schema.now store.new.regions) }
{
    let parts = parts_of(alloc, lo, hi)?;
    let part = &parts.as_slice()[0];
    let cover = store.cover(alloc, part)?;
    if !part.rects.fits(&schema.as_slice()[0]) || part.rects.meets(&cover) {
        return Err(NoMemory);
    }
    let arrivals = narrow(alloc, lo, hi)?;
    store.answered(alloc, schema, number, parts.as_slice(), arrivals)?;
    Ok(())
}

// The ages 30 to 34, 35 to 40 and 60 to 70 come to an empty store, at three queries. Which classes hold person 2 then, and which
// once person 2 is 36, and no longer 45.
fn enter_one_of_three(
    alloc: Global,
    schema: &Schema,
    store: &mut Store,
) -> Result<(Holders, Holders), NoMemory>
    requires tables { IsTrue (list_all is_table schema.now) }
    requires there { 0 < length schema.now }
    requires key { (table_at schema.now 0).key ≡ 0 }
    requires second { is_point (table_at schema.now 0).columns (Num (pos 2) ∷ Num (pos 36) ∷ Num (pos 5) ∷ []) ≡ true }
    requires empty { store.old.regions ≡ [] }
{
    hold(alloc, schema, store, 30, 34)?;
    hold_more(alloc, schema, store, 2, 35, 40)?;
    hold_more(alloc, schema, store, 3, 60, 70)?;
    let first = holders_of(alloc, schema, store, 2)?;
    tell_age(alloc, schema, store, 2, 36)?;
    Ok((first, holders_of(alloc, schema, store, 2)?))
}

fn entered_one_of_three(alloc: Global) -> Result<(Holders, Holders), NoMemory> {
    let schema = schema_of(alloc)?;
    let mut store = Store::new(alloc, LIMITS);
    enter_one_of_three(alloc, &schema, &mut store)
}

#[test]
fn a_change_enters_the_region_of_its_new_row(rt: HostRuntime) {
    assert_eq!(rt;
        entered_one_of_three(rt.alloc()),
        Ok(((0, None), (1, Some(2))))
    );
}
