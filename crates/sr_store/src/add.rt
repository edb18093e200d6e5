//! Regions put among others in class order, where two of one class become one.
ghost use Rattle.std.specs.Prelude.{◌≡◌, ◌≤◌, true, [], ◌∷◌, length, drop, IfOk, OnOk};
ghost use Rattle.sr_store.specs.Classes.{is_before, is_same, ascends};
ghost use Rattle.sr_store.specs.Renewing.{with_region, with_regions};
ghost use Rattle.sr_store.specs.Making.{place_in, is_same_first, CanJoin};

use sr_cell::list::{NoMemory, Seq};
use sr_region::region::Region;

fn goes_before(one: &Region, other: &Region) -> bool
    ensures { result ≡ is_before one.now other.now }
{
    one.table < other.table
        || (one.table == other.table
            && (one.attrs.0 < other.attrs.0
                || (one.attrs == other.attrs && one.stamp < other.stamp)))
}

fn is_of_class(one: &Region, other: &Region) -> bool
    ensures { result ≡ is_same one.now other.now }
{
    one.table == other.table && (one.attrs == other.attrs && one.stamp == other.stamp)
}

/// How many regions stand before that one.
fn place_of(regions: &[Region], region: &Region) -> usize
    requires { ascends regions.now ≡ true }
    ensures place { result ≡ place_in regions.now region.now }
    ensures within { result ≤ length regions.now }
{
    regions.partition_point(|one| goes_before(one, region))
}

/// Whether the region of that number is there and of the class of the other.
fn is_same_at(regions: &[Region], place: usize, region: &Region) -> bool
    ensures { result ≡ is_same_first (drop place regions.now) region.now }
{
    match regions.get(place) {
        Some(own) => is_of_class(own, region),
        None => false,
    }
}

/// One region more, joined with the one of its class.
fn add(regions: &mut Seq<Region>, region: Region) -> Result<(), NoMemory>
    requires order { ascends regions.old ≡ true }
    requires join { CanJoin regions.old (region ∷ []) }
    ensures { OnOk result (regions.new ≡ with_region regions.old region) }
{
    let place = place_of(regions.as_slice(), &region);
    if is_same_at(regions.as_slice(), place, &region) {
        let own = regions.remove(place);
        regions.insert(place, own.join(region)?)
    } else {
        regions.insert(place, region)
    }
}

/// More regions, each joined with the one of its class.
fn add_all(regions: &mut Seq<Region>, more: Seq<Region>) -> Result<(), NoMemory>
    requires order { ascends regions.old ≡ true }
    requires join { CanJoin regions.old more }
    ensures { OnOk result (regions.new ≡ with_regions regions.old more) }
{
    for region in more.into_vec() {
        add(regions, region)?;
    }
    Ok(())
}

/// The regions of both lists, where two of one class are joined.
pub(crate) fn together(regions: Seq<Region>, more: Seq<Region>) -> Result<Seq<Region>, NoMemory>
    requires order { ascends regions ≡ true }
    requires join { CanJoin regions more }
    ensures { IfOk result (λ all. all ≡ with_regions regions more) }
{
    let mut all = regions;
    add_all(&mut all, more).and(Ok(all))
}
