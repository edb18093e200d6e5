//! Policies, limits, and the class that is dropped first.
ghost use Rattle.std.specs.Prelude.{◌≡◌, ◌≢◌, ◌↔◌, [], IfSome, IsNone};
ghost use Rattle.sr_policy.specs.Order.{is_older, distance, far_from, is_farther, goes_before, IsVictim};

use sr_cell::attrs::Attrs;
use sr_cell::list::Seq;
use sr_union::centre::Centre;

/// What is dropped first: what was not used for the longest time, or what lies farthest from the last answered query.
#[derive(Clone, Copy, Debug, PartialEq, Eq)]
pub enum Policy {
    Recency,
    Distance,
}

/// How many rows and how many regions a client may keep, and by which policy it drops what is too much.
#[derive(Clone, Copy, Debug, PartialEq, Eq)]
pub struct Limits {
    pub rows: u32,
    pub regions: u32,
    pub policy: Policy,
}

/// A class as a policy sees it: its points by their centre.
#[derive(Drop)]
pub struct ClassView {
    pub table: u8,
    pub attrs: Attrs,
    pub stamp: u64,
    pub centre: Centre,
}

pub type ClassViews = Seq<ClassView>;

/// What the last answered query asked of a table, by the centre of the points.
#[derive(Drop)]
pub struct Last {
    pub table: u8,
    pub centre: Centre,
}

pub type Lasts = Seq<Last>;

/// Whether a class has the lesser stamp; of equal stamps the table decides, then the columns as a number.
fn is_older(a: &ClassView, b: &ClassView) -> bool
    ensures { result ≡ is_older a.now b.now }
{
    if a.stamp != b.stamp {
        return a.stamp < b.stamp;
    }
    a.table < b.table || (a.table == b.table && a.attrs.0 < b.attrs.0)
}

/// The sum over the columns of how far apart two centres are.
fn distance(one: &[i64], other: &[i64]) -> u128
    ensures { result ≡ distance one.now other.now }
{
    let mut sum = 0;
    for i in 0..one.len().min(other.len()) {
        sum += one[i].abs_diff(other[i]) as u128;
    }
    sum
}

/// How far a class is from what was asked of its table; none where no point of it was asked.
fn far_from(last: &[Last], class: &ClassView) -> Option<u128>
    ensures { result ≡ far_from last.now class.now }
{
    for part in last {
        if part.table == class.table {
            return Some(distance(part.centre.as_slice(), class.centre.as_slice()));
        }
    }
    None
}

/// Whether the first of two distances is dropped first; `older` decides between equal ones.
fn is_farther(far: Option<u128>, other: Option<u128>, older: bool) -> bool
    ensures { result ≡ is_farther far other older }
{
    match (far, other) {
        (None, None) => older,
        (None, Some(_)) => true,
        (Some(_), None) => false,
        (Some(far), Some(other)) => other < far || (far == other && older),
    }
}

/// Whether the first of two classes is dropped before the other.
fn goes_before(policy: Policy, last: &[Last], a: &ClassView, b: &ClassView) -> bool
    ensures { result ≡ goes_before policy last.now a.now b.now }
{
    match policy {
        Policy::Recency => is_older(a, b),
        Policy::Distance => is_farther(far_from(last, a), far_from(last, b), is_older(a, b)),
    }
}

/// The number of the class that no other goes before.
fn first_of(policy: Policy, classes: &[ClassView], last: &[Last]) -> usize
    requires { classes.now ≢ [] }
    ensures { IsVictim policy last.now classes.now result }
{
    let mut best = 0;
    for i in 1..classes.len() {
        if goes_before(policy, last, &classes[i], &classes[best]) {
            best = i;
        }
    }
    best
}

/// The number of the class that is dropped first, if there is a class; takes no memory.
pub fn victim(policy: Policy, classes: &[ClassView], last: &[Last]) -> Option<usize>
    ensures first { IfSome result (IsVictim policy last.now classes.now) }
    ensures none { IsNone result ↔ classes.now ≡ [] }
{
    if classes.is_empty() {
        return None;
    }
    Some(first_of(policy, classes, last))
}
