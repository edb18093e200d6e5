//! Which regions a change touches.
ghost use Rattle.std.specs.Prelude.{◌≡◌, true};
ghost use Rattle.sr_box.specs.Rows.{has_row};
ghost use Rattle.sr_regions.specs.Touched.{IsByKey, holds_key, is_touched};

use sr_cell::cell::{Cell, Row};
use sr_message::message::Tell;
use sr_region::region::{Region, rank_of};
use sr_rows::rows::has_key_of;
use sr_union::rects::Rects;

/// Whether the region is of the table and has a row of the key.
pub(crate) fn holds_key(region: &Region, table: u8, key: &Cell) -> bool
    requires { IsByKey region.now }
    ensures { result ≡ holds_key table key.now region.now }
{
    region.table == table
        && has_key_of(
            &region.rows,
            rank_of(region.attrs, region.key as usize),
            key,
        )
}

/// Whether the rects have the new row, where there is one.
fn have_row(rects: &Rects, after: &Option<Row>) -> bool
    ensures { result ≡ has_row rects.now after.now }
{
    match after {
        Some(row) => rects.has(row),
        None => false,
    }
}

/// Whether the tell touches the region, given whether it may have a row of the key at all.
pub(crate) fn is_touched(region: &Region, tell: &Tell, may_have: bool) -> bool
    requires by_key { IsByKey region.now }
    requires may_have { holds_key tell.now.table tell.now.key region.now ≡ true → may_have ≡ true }
    ensures { result ≡ is_touched tell.now region.now }
{
    (may_have && holds_key(region, tell.table, &tell.key))
        || (region.table == tell.table && have_row(&region.rects, &tell.after))
}
