//! Two lists of rows by key as one, in time of their lengths.
ghost use Rattle.std.specs.Prelude.{◌≡◌, ℕ, ◌+◌, ◌≤◌, true, List, [], ◌++◌, length, option_to_list, None, vec_len, vec_capacity};
ghost use Rattle.std.specs.VecDeque.{deque_len};
ghost use Rattle.sr_model.specs.SortedRows.{ascend, with_rows};
ghost use Rattle.sr_rows.specs.Places.{is_own_next};

use crate::rows::is_row_at_most;
use sr_cell::cell::Row;
use std::collections::VecDeque;

fn is_own_next(own: &VecDeque<Row>, more: &VecDeque<Row>, key: usize) -> bool
    ensures { result ≡ is_own_next key own.now.items more.now.items }
{
    match (own.front(), more.front()) {
        (Some(row), Some(other)) => is_row_at_most(row, other, key),
        (Some(_), None) => true,
        (None, _) => false,
    }
}

/// Takes the next row of both out.
fn next_row(own: &mut VecDeque<Row>, more: &mut VecDeque<Row>, key: usize) -> Option<Row>
    requires { ascend key more.old.items ≡ true }
    ensures next { with_rows key own.old.items more.old.items ≡ option_to_list result ++ with_rows key own.new.items more.new.items }
    ensures ascending { ascend key more.new.items ≡ true }
    ensures count { deque_len own.new + deque_len more.new + length (option_to_list result) ≡ deque_len own.old + deque_len more.old }
    ensures end { result ≡ None → with_rows key own.old.items more.old.items ≡ [] }
{
    if is_own_next(own, more, key) {
        own.pop_front()
    } else {
        more.pop_front()
    }
}

/// The rows of both by key, in the memory of a third list.
pub(crate) fn merged(
    mut own: VecDeque<Row>,
    mut more: VecDeque<Row>,
    key: usize,
    room: Vec<Row>,
) -> Vec<Row>
    requires ascending { ascend key more.items ≡ true }
    requires empty { room.items ≡ [] }
    requires room { deque_len own + deque_len more ≤ vec_capacity room }
    ensures { result.items ≡ with_rows key own.items more.items }
{
    let mut all = room;
    while let Some(row) = next_row(&mut own, &mut more, key) {
        all.push_reserved(row);
    }
    all
}
