//! Marks: what a client says of the points that it holds.
use sr_cell::attrs::Attrs;
use sr_cell::cause::Cause;
use sr_cell::list::Seq;
use sr_union::rects::Rects;

/// From here on the points of some rects are held under these columns, or they are so no more. The stamp is that of the
/// class that is dropped.
#[derive(Drop)]
pub enum Mark {
    Held {
        table: u8,
        attrs: Attrs,
        rects: Rects,
    },
    Dropped {
        cause: Cause,
        table: u8,
        attrs: Attrs,
        stamp: u64,
        rects: Rects,
    },
}

pub type Marks = Seq<Mark>;
