//! Rows that give way to those that arrive: of one key and the same columns only the arriving row stays.
ghost use Rattle.std.specs.Prelude.{◌≡◌, ◌==◌, ◌&&◌, true, false, [], ◌∷◌};
ghost use Rattle.std.specs.List.{All};
ghost use Rattle.sr_cell.specs.Cells.{cell_at};
ghost use Rattle.sr_model.specs.SortedRows.{ascend};
ghost use Rattle.sr_region.specs.Regions.{rank};
ghost use Rattle.sr_region.specs.declared.region.Region.{Region as TheRegion};
ghost use Rattle.sr_store.specs.Answered.{gives_way, giving_way};
ghost use Rattle.sr_store.specs.Making.{without_keys, shares_key, IsByKey, LiesBy};
ghost use Rattle.sr_rows.specs.Keys.{without_key};

use crate::store::Arrival;
use sr_cell::cell::{Cell, Row, Rows};
use sr_cell::list::Seq;
use sr_region::region::{Region, rank_of};
use sr_rows::rows::{has_key_of, has_key_of_row, is_row_at_most, place_of};

/// The row of that key gone, where there is one.
fn remove_key(rows: &mut Rows, place: usize, key: &Cell)
    requires { ascend place rows.old ≡ true }
    ensures { rows.new ≡ without_key place key.now rows.old }
{
    if has_key_of(rows, place, key) {
        let behind = place_of(rows, place, key);
        rows.remove(behind - 1);
    }
}

/// The row of the other's key gone, where there is one.
#[tactic(auto, using(sr_rows::proofs::Order::cell_at_absent))]
fn remove_key_of(rows: &mut Rows, place: usize, row: &Row)
    requires { ascend place rows.old ≡ true }
    ensures { rows.new ≡ without_key place (cell_at row.now place) rows.old }
{
    match row.get(place) {
        Some(key) => remove_key(rows, place, key),
        None => remove_key(rows, place, &Cell::Num(0)),
    }
}

/// The rows of the others' keys gone, key by key.
fn remove_each_key(rows: &mut Rows, place: usize, others: &[Row])
    requires { ascend place rows.old ≡ true }
    ensures { rows.new ≡ without_keys place others.now rows.old }
{
    for row in others {
        remove_key_of(rows, place, row);
    }
}

/// Whether the rows have a key in common with the others, by a walk along both.
fn share_near(rows: &[Row], others: &[Row], place: usize) -> bool
    requires rows { ascend place rows.now ≡ true }
    requires others { ascend place others.now ≡ true }
    ensures { result ≡ shares_key place others.now rows.now }
{
    let mut rows = rows;
    let mut others = others;
    while let Some((row, behind)) = rows.split_first() {
        let Some((other, after)) = others.split_first() else {
            return false;
        };
        if !is_row_at_most(other, row, place) {
            rows = behind;
        } else if !is_row_at_most(row, other, place) {
            others = after;
        } else {
            return true;
        }
    }
    false
}

/// Whether the rows have a key in common with the others, by looking for each.
fn share_far(rows: &[Row], others: &Rows, place: usize) -> bool
    requires { ascend place others.now ≡ true }
    ensures { result ≡ shares_key place others.now rows.now }
{
    for row in rows {
        if has_key_of_row(others, place, row) {
            return true;
        }
    }
    false
}

/// Whether the last key of the rows is below the first of the others: then they have none in common.
fn is_below(rows: &[Row], others: &[Row], place: usize) -> bool
    requires rows { ascend place rows.now ≡ true }
    requires others { ascend place others.now ≡ true }
    ensures { result ≡ true → shares_key place others.now rows.now ≡ false }
{
    match (rows.last(), others.first()) {
        (Some(last), Some(first)) => !is_row_at_most(first, last, place),
        _ => false,
    }
}

fn are_apart(rows: &[Row], others: &[Row], place: usize) -> bool
    requires rows { ascend place rows.now ≡ true }
    requires others { ascend place others.now ≡ true }
    ensures { result ≡ true → shares_key place others.now rows.now ≡ false }
{
    is_below(rows, others, place) || is_below(others, rows, place)
}

fn share_key(rows: &Rows, others: &Rows, place: usize) -> bool
    requires rows { ascend place rows.now ≡ true }
    requires others { ascend place others.now ≡ true }
    ensures { result ≡ shares_key place others.now rows.now }
{
    if are_apart(rows.as_slice(), others.as_slice(), place) {
        false
    } else if rows.len() < others.len() / 8 {
        share_far(rows.as_slice(), others, place)
    } else {
        share_near(rows.as_slice(), others.as_slice(), place)
    }
}

/// The rows of the others' keys gone.
fn remove_keys(rows: &mut Rows, place: usize, others: &Rows)
    requires rows { ascend place rows.old ≡ true }
    requires others { ascend place others.now ≡ true }
    ensures { rows.new ≡ without_keys place others.now rows.old }
{
    if others.len() < rows.len() / 8 || share_key(rows, others, place) {
        remove_each_key(rows, place, others.as_slice());
    }
}

/// Whether the arrival is of the region's table, with exactly its columns.
fn is_under(arrival: &Arrival, region: &Region) -> bool
    ensures { result ≡ (arrival.now.table == region.now.table && arrival.now.attrs == region.now.attrs) }
{
    arrival.table == region.table && arrival.attrs == region.attrs
}

/// The region without the rows whose keys the arrival brings, where it is of the region's table and columns.
fn give_way_to(region: &mut Region, arrival: &Arrival)
    requires by_key { IsByKey region.old }
    requires lies { LiesBy region.old arrival.now }
    ensures { region.new ≡ gives_way (arrival.now ∷ []) region.old }
{
    if is_under(arrival, region) {
        let place = rank_of(region.attrs, region.key as usize);
        remove_keys(&mut region.rows, place, &arrival.rows);
    }
}

fn give_way(region: &mut Region, arrivals: &[Arrival])
    requires by_key { IsByKey region.old }
    requires lie { All (LiesBy region.old) arrivals.now }
    ensures { region.new ≡ gives_way arrivals.now region.old }
{
    for arrival in arrivals {
        give_way_to(region, arrival);
    }
}

fn give_way_each(regions: &mut [Region], arrivals: &[Arrival])
    requires by_key { All IsByKey regions.old }
    requires lie { All (λ (g : TheRegion). All (LiesBy g) arrivals.now) regions.old }
    ensures { regions.new ≡ giving_way arrivals.now regions.old }
{
    for region in regions.iter_mut() {
        give_way(region, arrivals);
    }
}

/// The regions without the rows whose keys arrive under their tables and columns; takes no memory.
pub(crate) fn given_way(regions: Seq<Region>, arrivals: &[Arrival]) -> Seq<Region>
    requires by_key { All IsByKey regions }
    requires lie { All (λ (g : TheRegion). All (LiesBy g) arrivals.now) regions }
    ensures { result ≡ giving_way arrivals.now regions }
{
    let mut all = regions.into_vec();
    give_way_each(&mut all, arrivals);
    Seq::from_vec(all)
}
