//! A join of two tables, run as queries of one.
ghost use Rattle.std.specs.Prelude.{◌≡◌, ℕ, IsTrue, IfOk, IsErrOf, OnOk, OnErr};
ghost use Rattle.std.specs.List.{list_all};
ghost use Rattle.sr_cell.specs.declared.fault.Fault.{Fault as TheFault};
ghost use Rattle.sr_cell.specs.declared.list.No.TheVariants.{Refused};
ghost use Rattle.sr_query.specs.Bound.{is_table};
ghost use Rattle.sr_semi.specs.Going.{step_of};
ghost use Rattle.sr_semi.specs.Seen.{sides_seen};
ghost use Rattle.sr_semi.specs.Starting.{IsBegun, IsNotTwo, IsRefused, IsUnread};
ghost use Rattle.sr_semi.specs.declared.fault.SemiFault.TheVariants.{Sql, NotTwo, Unread};

use crate::fault::SemiFault;
use crate::sides::Sides;
use crate::stage::{Next, Stage, Step};
use crate::starts::sides_of;
use crate::steps::step;
use sr_cell::cell::Rows;
use sr_cell::list::{No, NoMemory};
use sr_cell::schema::Schema;
use sr_cell::text::Text;
use std::alloc::Global;

/// A join of two tables, and which of the texts of its sides was named last.
#[derive(Drop)]
pub struct Semi {
    sides: Sides,
    stage: Stage,
}

impl Semi {
    /// The join that a text asks, at its beginning.
    pub fn start(alloc: Global, schema: &Schema, sql: &str) -> Result<Semi, No<SemiFault>>
        requires tables { IsTrue (list_all is_table schema.now) }
        ensures begun { IfOk result (λ semi. IsBegun schema.now sql.now semi) }
        ensures sql { (fault : TheFault) → IsErrOf result (Refused (Sql fault)) → IsRefused schema.now sql.now fault }
        ensures not_two { (tables : ℕ) → IsErrOf result (Refused (NotTwo tables)) → IsNotTwo schema.now sql.now tables }
        ensures unread { (fault : TheFault) → IsErrOf result (Refused (Unread fault)) → IsUnread schema.now sql.now fault }
    {
        match sides_of(alloc, schema, sql) {
            Ok(sides) => Ok(Semi {
                sides,
                stage: Stage::Left,
            }),
            Err(no) => Err(no),
        }
    }

    /// The text that is run first; takes no memory.
    pub fn first(&self) -> &Text
        ensures { result.now ≡ self.now.sides.left.text }
    {
        &self.sides.left.text
    }

    /// What comes of the rows of the text that was named last, at their version.
    pub fn answered(&mut self, alloc: Global, version: u64, rows: &Rows) -> Result<Next, NoMemory>
        ensures next { IfOk result (λ next. next ≡ (step_of (sides_seen self.old.sides) self.old.stage version rows.now).next) }
        ensures stage { OnOk result (self.new ≡ record self.old { stage = (step_of (sides_seen self.old.sides) self.old.stage version rows.now).stage }) }
        ensures unchanged { OnErr result (self.new ≡ self.old) }
    {
        let Step { next, stage } = step(alloc, &self.sides, &self.stage, version, rows)?;
        self.stage = stage;
        Ok(next)
    }
}
