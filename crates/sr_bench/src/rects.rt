//! Random rects of a table of numbers.
ghost use Rattle.std.specs.Prelude.{◌≡◌, ◌<◌, true, IfOk};
ghost use Rattle.sr_bytes.specs.Writing.{may_write_span};
ghost use Rattle.sr_union.specs.Grid.{all_inner, is_inner};
ghost use Rattle.sr_cell.specs.Columns.{in_column};
ghost use Rattle.sr_box.specs.Corners.{first_value, have_first};

use sr_box::rect::Rect;
use sr_box::span::Span;
use sr_cell::list::{NoMemory, Seq};
use sr_cell::table::{Column, Kind, Table};
use sr_cell::text::Text;
use sr_union::rects::Rects;
use std::alloc::Global;

/// The last number of each column.
const LAST: u16 = 9999;

/// Rects of so many columns, whose spans have so many numbers at most; the same ones at each run.
#[derive(Drop)]
pub struct Random {
    pub state: u64,
    pub columns: usize,
    pub width: u16,
}

impl Random {
    /// The next number, below 2 ^ 16.
    pub fn next(&mut self) -> u16 {
        self.state = self
            .state
            .wrapping_mul(6364136223846793005)
            .wrapping_add(1442695040888963407);
        (self.state >> 48) as u16
    }

    /// The numbers from one to another that is not below it.
    pub fn span(&mut self) -> Span
        ensures { may_write_span result ≡ true }
    {
        let lo = 1 + self.next() % LAST;
        let hi = lo.saturating_add(self.next() % self.width.max(1)).min(LAST);
        Span::Nums {
            lo: lo as i64,
            hi: hi as i64,
        }
    }

    fn rect(&mut self, alloc: Global) -> Result<Rect, NoMemory> {
        let mut rect = Rect::new(alloc);
        for _column in 0..self.columns {
            rect.push(self.span())?;
        }
        Ok(rect)
    }

    /// So many rects.
    pub fn rects(&mut self, alloc: Global, count: usize) -> Result<Rects, NoMemory> {
        let mut rects = Rects::new(alloc);
        for _rect in 0..count {
            rects.push(self.rect(alloc)?)?;
        }
        Ok(rects)
    }
}

fn column(alloc: Global) -> Result<Column, NoMemory>
    ensures inner { IfOk result (λ column. is_inner column ≡ true) }
    ensures first { IfOk result (λ column. in_column column (first_value column.kind column.lo) ≡ true) }
{
    Ok(Column {
        name: Text::of(alloc, "number")?,
        kind: Kind::Num,
        lo: 0,
        hi: LAST as i64,
        nullable: false,
    })
}

/// A table of so many columns of numbers.
#[tactic(auto, using(crate::proofs::Columns::inner_more, crate::proofs::Columns::first_more))]
pub fn table_of(alloc: Global, count: usize) -> Result<Table, NoMemory>
    ensures inner { IfOk result (λ table. all_inner table.columns ≡ true) }
    ensures first { IfOk result (λ table. have_first table.columns ≡ true) }
{
    let mut columns = Seq::new(alloc);
    for _column in 0..count {
        columns.push(column(alloc)?)?;
    }
    Ok(Table {
        name: Text::of(alloc, "numbers")?,
        columns,
        key: 0,
    })
}
