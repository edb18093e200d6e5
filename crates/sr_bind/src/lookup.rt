//! Tables by their numbers, and columns by their names and numbers.
ghost use Rattle.std.specs.Prelude.{◌≡◌, ◌<◌, ◌≤◌, IsTrue, IfSome, length};
ghost use Rattle.std.specs.List.{list_all};
ghost use Rattle.sr_cell.specs.Columns.{table_at};
ghost use Rattle.sr_query.specs.Binding.{column_at, column_named};
ghost use Rattle.sr_query.specs.Bound.{is_table};

use sr_cell::schema::Schema;
use sr_cell::table::{Column, Kind, Table};

/// The table of that number.
pub fn table_at(schema: &Schema, number: u8) -> &Table
    requires sound { IsTrue (list_all is_table schema.now) }
    requires within { number < length schema.now }
    ensures found { result.now ≡ table_at schema.now number }
    ensures sound { IsTrue (is_table result.now) }
{
    &schema.as_slice()[number as usize]
}

/// The number of the column of that name.
pub fn column_named(columns: &[Column], name: &str) -> Option<u8>
    requires { length columns.now ≤ 12 }
    ensures found { result ≡ column_named 0 columns.now name.now }
    ensures within { IfSome result (λ c. c < length columns.now) }
{
    for (i, column) in columns.iter().enumerate() {
        if column.name.as_str() == name {
            return Some(i as u8);
        }
    }
    None
}

/// What the column of that number holds.
pub fn kind_at(table: &Table, column: u8) -> Kind
    requires { column < length table.now.columns }
    ensures { result ≡ (column_at table.now column).kind }
{
    table.columns.as_slice()[column as usize].kind
}
