//! Pieces of bytes, which one call moves.
ghost use Rattle.std.specs.Prelude.{◌≡◌, ◌<◌, ◌≤◌, ◌+◌, ◌-◌, ◌^◌, ◌++◌, length, min, take, drop, IfOk, OnErr};

use sr_cell::list::{Bytes, NoMemory};

/// Copies the bytes from a place on, at most `piece` of them, to the front of the room, and answers how many.
pub(crate) fn copy_piece(bytes: &Bytes, at: usize, room: &mut [u8], piece: usize) -> usize
    requires { at ≤ length bytes.now }
    ensures count { result ≡ min (min (length bytes.now - at) (length room.old)) piece }
    ensures in_range { at + result < 2 ^ 64 }
    ensures room { length room.new ≡ length room.old }
    ensures first { take result room.new ≡ take result (drop at bytes.now) }
{
    let left = bytes.len() - at;
    let count = left.min(room.len()).min(piece);
    room[..count].copy_from_slice(&bytes.as_slice()[at..at + count]);
    count
}

/// Puts the first of the bytes, at most `piece` of them, behind those that are there, and answers how many.
pub(crate) fn add_piece(to: &mut Bytes, bytes: &[u8], piece: usize) -> Result<usize, NoMemory>
    ensures count { IfOk result (λ n. n ≡ min (length bytes.now) piece) }
    ensures added { IfOk result (λ n. to.new ≡ to.old ++ take n bytes.now) }
    ensures unchanged { OnErr result (to.new ≡ to.old) }
{
    let count = bytes.len().min(piece);
    to.extend(&bytes[..count])?;
    Ok(count)
}
