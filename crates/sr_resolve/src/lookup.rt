//! Tables and columns by their numbers, and columns by their names.
ghost use Rattle.std.specs.Prelude.{◌≡◌, ℕ, ◌<◌, ◌≤◌, IsTrue, IfSome, length};
ghost use Rattle.std.specs.List.{list_all};
ghost use Rattle.sr_cell.specs.Columns.{table_at};
ghost use Rattle.sr_query.specs.Binding.{column_named, table_of_part};
ghost use Rattle.sr_query.specs.Bound.{is_table};
ghost use Rattle.sr_resolve.specs.Known.{are_known};

use sr_cell::schema::Schema;
use sr_cell::table::{Column, Table};

fn table_at(schema: &Schema, number: u8) -> &Table
    requires sound { IsTrue (list_all is_table schema.now) }
    requires within { number < length schema.now }
    ensures found { result.now ≡ table_at schema.now number }
    ensures sound { IsTrue (is_table result.now) }
{
    &schema.as_slice()[number as usize]
}

/// The table of a part of the query.
pub(crate) fn table_of_part<'a>(schema: &'a Schema, tables: &[u8], part: usize) -> &'a Table
    requires known { IsTrue (are_known schema.now tables.now) }
    requires within { part < length tables.now }
    ensures found { result.now ≡ table_of_part schema.now tables.now part }
    ensures sound { IsTrue (is_table result.now) }
{
    table_at(schema, tables[part])
}

/// The number of the column of that name.
pub(crate) fn column_named(columns: &[Column], name: &str) -> Option<u8>
    requires { length columns.now ≤ 12 }
    ensures found { result ≡ column_named 0 columns.now name.now }
    ensures within { IfSome result (λ c. c < length columns.now) }
{
    for (i, column) in columns.iter().enumerate() {
        if column.name.as_str() == name {
            return Some(i as u8);
        }
    }
    None
}
