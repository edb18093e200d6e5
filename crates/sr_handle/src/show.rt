//! What a handle shows of itself.
ghost use Rattle.std.specs.Prelude.{◌≡◌, length};
ghost use Rattle.std.specs.Option.{option_copied};
ghost use Rattle.sr_handle.specs.Showing.{cell_at, copied, kind_of, shown_region};

use sr_cell::cell::{Cell, Row};
use sr_region::region::Region;

/// A region as numbers: its table, its columns as the bits of a number, its stamp, and how many rows it has.
#[repr(C)]
#[derive(Clone, Copy)]
pub struct Shown {
    pub table: u32,
    pub columns: u32,
    pub stamp: u64,
    pub rows: u64,
}

/// The region as numbers.
pub fn shown_region(region: &Region) -> Shown
    ensures { result ≡ shown_region region.now }
{
    Shown {
        table: region.table as u32,
        columns: region.attrs.0 as u32,
        stamp: region.stamp,
        rows: region.rows.len() as u64,
    }
}

/// The cell in that place, counted from 0, if there is one.
pub fn cell_at(rows: &[Row], row: usize, column: usize) -> Option<&Cell>
    ensures { option_copied result ≡ cell_at rows.now row column }
{
    match rows.get(row) {
        Some(row) => row.get(column),
        None => None,
    }
}

/// 1 of a number, 2 of a text, 3 of NULL, and 0 where there is no cell.
pub fn kind_of(cell: Option<&Cell>) -> u32
    ensures { result ≡ kind_of (option_copied cell.entry) }
{
    match cell {
        Some(Cell::Num(_)) => 1,
        Some(Cell::Str(_)) => 2,
        Some(Cell::Null) => 3,
        None => 0,
    }
}

/// Copies the bytes into the room, unless it is too short. Answers how many there are.
pub fn copy_out(bytes: &[u8], room: &mut [u8]) -> u64
    ensures size { result ≡ length bytes.now }
    ensures copied { room.new ≡ copied bytes.now room.old }
{
    if bytes.len() <= room.len() {
        room[..bytes.len()].copy_from_slice(bytes);
    }
    bytes.len() as u64
}
