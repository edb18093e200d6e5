//! Explanations as values.
use sr_cell::attrs::Attrs;
use sr_cell::list::Seq;
use sr_union::rects::Rects;

/// The points of a part that a region would serve: the columns that it holds, its stamp, and these points.
#[derive(Drop)]
pub struct ProbeView {
    pub attrs: Attrs,
    pub stamp: u64,
    pub rects: Rects,
}

pub type Probes = Seq<ProbeView>;

/// How one part of a query would be answered: the columns that it needs of its table, what the regions would serve, in class order,
/// and what would be asked of the server, with the columns that would be shipped. The rest has no rects where nothing would be asked.
#[derive(Drop)]
pub struct ExplainPart {
    pub table: u8,
    pub need: Attrs,
    pub probes: Probes,
    pub rest: Rects,
    pub attrs: Attrs,
}

pub type ExplainParts = Seq<ExplainPart>;

/// A region that is to be dropped, with how many rows it has.
#[derive(Drop)]
pub struct Victim {
    pub table: u8,
    pub attrs: Attrs,
    pub stamp: u64,
    pub rows: u64,
}

pub type Victims = Seq<Victim>;

/// How a query would be answered at a version: whether all that is held would be dropped first, since it would be cut into too many
/// pieces; its parts; and all regions in the order in which they would be dropped one after another.
#[derive(Drop)]
pub struct Explanation {
    pub version: u64,
    pub pieces: bool,
    pub parts: ExplainParts,
    pub victims: Victims,
}
