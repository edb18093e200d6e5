//! The classes that hold a row of a key.
ghost use Rattle.std.specs.Prelude.{◌≡◌};
ghost use Rattle.sr_regions.specs.Holders.{class_of};

use sr_cell::attrs::Attrs;
use sr_cell::list::Seq;
use sr_region::region::Region;

/// A class of points of a table: those that are held under just these columns, and were last touched by the query of that number.
#[derive(Clone, Copy)]
pub struct Class {
    pub table: u8,
    pub attrs: Attrs,
    pub stamp: u64,
}

pub type Classes = Seq<Class>;

pub(crate) fn class_of(region: &Region) -> Class
    ensures { result ≡ class_of region.now }
{
    Class {
        table: region.table,
        attrs: region.attrs,
        stamp: region.stamp,
    }
}
