//! Sets of columns.
ghost use Rattle.std.specs.Prelude.{◌≡◌, ℕ, List, IfOk, ◌≤◌, length};
ghost use Rattle.sr_cell.specs.Attrs.{has_column, includes, project};

use crate::cell::Row;
use crate::list::{Copied, NoMemory, Same, Seq};
use std::alloc::Global;
use std::marker::Model;

/// A set of columns: column `c` is inside where bit `c` is set.
#[derive(Clone, Copy, Debug, PartialEq, Eq)]
pub struct Attrs(pub u16);

impl Model for Attrs {
    ghost use Rattle.std.specs.Prelude.{ℕ};

    ghost Value = { ℕ };

    ghost view = { λ a. a.0 };

    ghost inverse = { λ n. record { 0 = n } };
}

impl Attrs {
    /// Whether the column is inside.
    pub fn has(self, column: u8) -> bool
        ensures { result ≡ has_column self column }
    {
        has_bit(self.0, column as usize)
    }

    /// Whether the column of that number is inside, where numbers may be of any size.
    pub fn has_index(self, index: usize) -> bool
        ensures { result ≡ has_column self index }
    {
        has_bit(self.0, index)
    }

    /// Whether each column of the other is inside.
    pub fn includes(self, other: Attrs) -> bool
        ensures { result ≡ includes self other }
    {
        self.0 & other.0 == other.0
    }
}

fn has_bit(bits: u16, place: usize) -> bool
    ensures { result ≡ has_column bits place }
{
    place < 16 && (bits >> place) % 2 == 1
}

impl Copied for Attrs {
    fn copy(&self, _alloc: Global) -> Result<Attrs, NoMemory> {
        Ok(*self)
    }
}

impl Row {
    /// The cells of these columns, in column order.
    pub fn project(&self, alloc: Global, attrs: Attrs) -> Result<Row, NoMemory>
        ensures { IfOk result (λ cells. cells ≡ project attrs self.now) }
    {
        let room = self.len().min(attrs.0.count_ones() as usize);
        let mut cells = Seq::with_room(alloc, room)?;
        for (i, cell) in self.as_slice().iter().enumerate() {
            if has_bit(attrs.0, i) {
                cells.push(cell.copy(alloc)?)?;
            }
        }
        Ok(cells)
    }
}
