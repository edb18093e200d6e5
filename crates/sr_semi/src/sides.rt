//! The two sides of a join.
ghost use Rattle.std.specs.Prelude.{◌≡◌, ◌≤◌, IfOk};
ghost use Rattle.sr_semi.specs.Keys.{most_keys};
ghost use Rattle.sr_semi.specs.Sides.{left_place, right_place, right_text};
ghost use Rattle.sr_semi.specs.Seen.{right_seen, sides_seen};

use crate::conjuncts::Conjuncts;
use crate::copies::copy_all;
use crate::texts::{key_in, text_of};
use sr_cell::attrs::Attrs;
use sr_cell::cell::Cell;
use sr_cell::list::NoMemory;
use sr_cell::table::Table;
use sr_cell::text::Text;
use sr_query::query::Outputs;
use sr_region::region::rank_of;
use std::alloc::Global;

/// How wide the condition of a part may be.
const MOST_WIDTH: u32 = 64;

/// The left side: the text that asks it, the columns of its rows, and of these the one that is joined.
#[derive(Drop)]
pub struct LeftSide {
    pub text: Text,
    pub need: Attrs,
    pub column: u8,
}

/// The right side, of whose table the key is joined: the columns of its rows, its conjuncts, and the width of its condition.
#[derive(Drop)]
pub struct RightSide {
    pub table: Table,
    pub need: Attrs,
    pub conjuncts: Conjuncts,
    pub width: u32,
}

impl RightSide {
    /// The text that asks the rows with these keys.
    pub fn text(&self, alloc: Global, keys: &[Cell]) -> Result<Text, NoMemory>
        ensures { IfOk result (λ text. text ≡ right_text (right_seen self.now) keys.now) }
    {
        let mut conjuncts = copy_all(alloc, self.conjuncts.as_slice())?;
        conjuncts.push(key_in(alloc, &self.table, keys)?)?;
        text_of(alloc, &self.table, self.need, conjuncts)
    }

    /// How many keys may be asked.
    pub fn most_keys(&self) -> usize
        ensures most { result ≡ most_keys self.now.width }
        ensures few { result ≤ 64 }
    {
        (MOST_WIDTH / self.width.max(1)) as usize
    }
}

/// The sides of a join, and the columns that it gives.
#[derive(Drop)]
pub struct Sides {
    pub left: LeftSide,
    pub right: RightSide,
    pub outputs: Outputs,
}

impl Sides {
    /// Where the joined column stands in the rows of the left side.
    pub fn left_place(&self) -> usize
        ensures { result ≡ left_place (sides_seen self.now) }
    {
        rank_of(self.left.need, self.left.column as usize)
    }

    /// Where the key stands in the rows of the right side.
    pub fn right_place(&self) -> usize
        ensures { result ≡ right_place (sides_seen self.now) }
    {
        rank_of(self.right.need, self.right.table.key as usize)
    }
}
