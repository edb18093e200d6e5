//! The tables of a script.
ghost use Rattle.std.specs.Prelude.{◌≡◌, IsTrue, IfOk};
ghost use Rattle.std.specs.List.{list_all};
ghost use Rattle.sr_query.specs.Bound.{is_table};

use sr_cell::list::{Copied, NoMemory};
use sr_cell::schema::Schema;
use std::alloc::Global;
use std::marker::Model;

/// The tables of a script, each of which is sound.
#[derive(Drop)]
pub(crate) struct Tables {
    schema: Schema,
}

impl Model for Tables {
    ghost use Rattle.std.specs.Prelude.{List, IsTrue};
    ghost use Rattle.std.specs.List.{list_all};
    ghost use Rattle.sr_cell.specs.declared.table.Table.{Table};
    ghost use Rattle.sr_query.specs.Bound.{is_table};

    ghost Value = { List Table };

    ghost view = { λ t. t.schema };

    ghost invariant = { λ t. IsTrue (list_all is_table t.schema) };
}

impl Tables {
    /// The same tables, in memory of their own.
    pub fn of(alloc: Global, schema: &Schema) -> Result<Tables, NoMemory>
        requires tables { IsTrue (list_all is_table schema.now) }
        ensures { IfOk result (λ same. same ≡ schema.now) }
    {
        Ok(Tables {
            schema: schema.copy(alloc)?,
        })
    }

    /// Lends them as a schema.
    pub fn schema(&self) -> &Schema
        ensures same { result.now ≡ self.now }
        ensures tables { IsTrue (list_all is_table self.now) }
    {
        &self.schema
    }
}
