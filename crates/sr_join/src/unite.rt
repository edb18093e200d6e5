//! Two lists of lent rows by key as one, in time of their lengths.
ghost use Rattle.std.specs.Prelude.{◌≡◌, ◌+◌, ◌≤◌, [], ◌++◌, if◌then◌else◌, drop, length, option_to_list, None, vec_capacity, IfOk};
ghost use Rattle.std.specs.VecDeque.{deque_len};
ghost use Rattle.sr_join.specs.Joins.{past, united, is_own_next};

use crate::shown::Shown;
use sr_cell::list::{NoMemory, Seq};
use std::alloc::Global;
use std::collections::VecDeque;

fn is_own_next<'a>(own: &VecDeque<Shown<'a>>, more: &VecDeque<Shown<'a>>, key: usize) -> bool
    ensures { result ≡ is_own_next key own.now.items more.now.items }
{
    match (own.front(), more.front()) {
        (Some(row), Some(other)) => row.is_before(key, other),
        (Some(_), None) => true,
        (None, _) => false,
    }
}

fn is_same_next<'a>(own: &VecDeque<Shown<'a>>, more: &VecDeque<Shown<'a>>, key: usize) -> bool
    ensures { past key own.now.items more.now.items ≡ (if result then drop 1 more.now.items else more.now.items) }
{
    match (own.front(), more.front()) {
        (Some(row), Some(other)) => other.is_before(key, row),
        _ => false,
    }
}

/// Leaves the second list's first row out, where the first list's first row has its key.
fn pass_over<'a>(own: &VecDeque<Shown<'a>>, more: &mut VecDeque<Shown<'a>>, key: usize)
    ensures rows { more.new.items ≡ past key own.now.items more.old.items }
    ensures count { deque_len more.new ≤ deque_len more.old }
{
    if is_same_next(own, more, key) {
        more.pop_front();
    }
}

/// Takes the next row of both out.
fn next_row<'a>(
    own: &mut VecDeque<Shown<'a>>,
    more: &mut VecDeque<Shown<'a>>,
    key: usize,
) -> Option<Shown<'a>>
    ensures next { united key own.old.items more.old.items ≡ option_to_list result ++ united key own.new.items more.new.items }
    ensures count { deque_len own.new + deque_len more.new + length (option_to_list result) ≤ deque_len own.old + deque_len more.old }
    ensures end { result ≡ None → united key own.old.items more.old.items ≡ [] }
{
    if is_own_next(own, more, key) {
        pass_over(own, more, key);
        own.pop_front()
    } else {
        more.pop_front()
    }
}

/// The rows of both, in the memory of a third list.
fn merged<'a>(
    mut own: VecDeque<Shown<'a>>,
    mut more: VecDeque<Shown<'a>>,
    key: usize,
    room: Vec<Shown<'a>>,
) -> Vec<Shown<'a>>
    requires empty { room.items ≡ [] }
    requires room { deque_len own + deque_len more ≤ vec_capacity room }
    ensures { result.items ≡ united key own.entry.items more.entry.items }
{
    let mut all = room;
    while let Some(row) = next_row(&mut own, &mut more, key) {
        all.push_reserved(row);
    }
    all
}

/// The rows of both by key; of two rows with one key, the first list's alone.
pub(crate) fn unite<'a>(
    alloc: Global,
    rows: Seq<Shown<'a>>,
    more: Seq<Shown<'a>>,
    key: usize,
) -> Result<Seq<Shown<'a>>, NoMemory>
    ensures { IfOk result (λ both. both ≡ united key rows.entry more.entry) }
{
    if more.is_empty() {
        return Ok(rows);
    }
    if rows.is_empty() {
        return Ok(more);
    }
    let room = Vec::with_capacity(alloc, rows.as_slice().len() + more.as_slice().len())?;
    let own = VecDeque::from_vec(rows.into_vec());
    Ok(Seq::from_vec(merged(own, VecDeque::from_vec(more.into_vec()), key, room)))
}
