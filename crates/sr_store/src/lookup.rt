//! Tables by their numbers.
ghost use Rattle.std.specs.Prelude.{◌≡◌, ◌<◌, true, IsTrue, length};
ghost use Rattle.std.specs.List.{list_all};
ghost use Rattle.sr_cell.specs.Columns.{table_at};
ghost use Rattle.sr_box.specs.Corners.{have_first};
ghost use Rattle.sr_union.specs.Grid.{all_inner};
ghost use Rattle.sr_query.specs.Bound.{is_table};

use sr_cell::schema::Schema;
use sr_cell::table::Table;

/// The table of that number.
pub(crate) fn table_at(schema: &Schema, number: u8) -> &Table
    requires sound { IsTrue (list_all is_table schema.now) }
    requires within { number < length schema.now }
    ensures found { result.now ≡ table_at schema.now number }
    ensures inner { all_inner result.now.columns ≡ true }
    ensures first { have_first result.now.columns ≡ true }
{
    &schema.as_slice()[number as usize]
}
