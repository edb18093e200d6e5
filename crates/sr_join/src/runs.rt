//! Rows that are lent in several runs, put together by key.
ghost use Rattle.std.specs.Prelude.{◌≡◌, ℕ, Bool, true, List, map, IfOk};
ghost use Rattle.sr_cell.specs.Attrs.{has_column};
ghost use Rattle.sr_cell.specs.Cells.{Row as Cells};
ghost use Rattle.sr_model.specs.SortedRows.{ascend};
ghost use Rattle.sr_join.specs.Lent.{rows_for, AreLent};
ghost use Rattle.sr_join.specs.Shown.{AreShown};

use crate::shown::Shown;
use crate::unite::unite;
use sr_cell::list::{NoMemory, Seq};
use std::alloc::Global;

/// Rows of a part, by key ascending.
#[derive(Drop)]
pub struct Run<'a> {
    pub part: usize,
    pub rows: Seq<Shown<'a>>,
}

/// The rows of that part by key, each key once.
pub(crate) fn by_key<'a>(
    alloc: Global,
    runs: &[Run<'a>],
    part: usize,
    key: usize,
) -> Result<Seq<Shown<'a>>, NoMemory>
    ensures { (need : ℕ) (all : List Cells) (test : Cells → Bool) → IfOk result (λ rows. ascend key all ≡ true → has_column need key ≡ true
        → AreLent need all test (map (rows_for part) runs.now) → AreShown need all test rows) }
{
    let count = runs.len();
    if count == 0 {
        return Ok(Seq::new(alloc));
    }
    if count == 1 {
        return rows_of(alloc, &runs[0], part);
    }
    let half = count / 2;
    let rows = by_key(alloc, &runs[..half], part, key)?;
    let more = by_key(alloc, &runs[half..], part, key)?;
    unite(alloc, rows, more, key)
}

/// The rows of a run, if it is of that part.
fn rows_of<'a>(alloc: Global, run: &Run<'a>, part: usize) -> Result<Seq<Shown<'a>>, NoMemory>
    ensures { IfOk result (λ rows. rows ≡ rows_for part run.now) }
{
    let mut rows = Seq::new(alloc);
    if run.part == part {
        for row in run.rows.as_slice() {
            rows.push(row.again())?;
        }
    }
    Ok(rows)
}
