//! The lines of the script.
ghost use Rattle.std.specs.Prelude.{◌≡◌, string_bytes, IfOk};
ghost use Rattle.sr_generate.specs.Script.{insert_line, range_line, point_line, update_line, line_at, insert, range_query, point_query, update, of_kind, event};

use crate::draw::Draws;
use sr_cell::list::NoMemory;
use std::alloc::Global;

/// How many rows there are.
pub const ROWS: u64 = 200;

/// The line of this number behind the first: the rows, and then events.
pub fn line_at(alloc: Global, number: u64, draws: &mut Draws) -> Result<String, NoMemory>
    ensures line { IfOk result (λ line. string_bytes line ≡ (line_at number draws.old.state).line) }
    ensures state { draws.new.state ≡ (line_at number draws.old.state).state }
{
    if number < ROWS {
        insert(alloc, number, draws)
    } else {
        event(alloc, draws)
    }
}

/// The row with the key `k`.
fn insert(alloc: Global, k: u64, draws: &mut Draws) -> Result<String, NoMemory>
    ensures line { IfOk result (λ line. string_bytes line ≡ (insert k draws.old.state).line) }
    ensures state { draws.new.state ≡ (insert k draws.old.state).state }
{
    let a = draws.draw(1000);
    let b = draws.draw(100);
    insert_line(alloc, k, a, b)
}

/// An event.
fn event(alloc: Global, draws: &mut Draws) -> Result<String, NoMemory>
    ensures line { IfOk result (λ line. string_bytes line ≡ (event draws.old.state).line) }
    ensures state { draws.new.state ≡ (event draws.old.state).state }
{
    let kind = draws.draw(10);
    of_kind(alloc, kind, draws)
}

/// An event of that kind.
fn of_kind(alloc: Global, kind: u64, draws: &mut Draws) -> Result<String, NoMemory>
    ensures line { IfOk result (λ line. string_bytes line ≡ (of_kind kind draws.old.state).line) }
    ensures state { draws.new.state ≡ (of_kind kind draws.old.state).state }
{
    if kind < 6 {
        range_query(alloc, draws)
    } else if kind == 6 {
        point_query(alloc, draws)
    } else if kind < 9 {
        update(alloc, draws)
    } else {
        Ok(format!(in alloc; "push 1\n")?)
    }
}

/// A query of a range.
fn range_query(alloc: Global, draws: &mut Draws) -> Result<String, NoMemory>
    ensures line { IfOk result (λ line. string_bytes line ≡ (range_query draws.old.state).line) }
    ensures state { draws.new.state ≡ (range_query draws.old.state).state }
{
    let low = draws.draw(900);
    let high = low + draws.draw(100);
    range_line(alloc, low, high)
}

/// A query of one value, below another.
fn point_query(alloc: Global, draws: &mut Draws) -> Result<String, NoMemory>
    ensures line { IfOk result (λ line. string_bytes line ≡ (point_query draws.old.state).line) }
    ensures state { draws.new.state ≡ (point_query draws.old.state).state }
{
    let value = draws.draw(100);
    let below = draws.draw(1000);
    point_line(alloc, value, below)
}

/// A change of one row.
fn update(alloc: Global, draws: &mut Draws) -> Result<String, NoMemory>
    ensures line { IfOk result (λ line. string_bytes line ≡ (update draws.old.state).line) }
    ensures state { draws.new.state ≡ (update draws.old.state).state }
{
    let a = draws.draw(1000);
    let k = draws.draw(200);
    update_line(alloc, a, k)
}

fn insert_line(alloc: Global, k: u64, a: u64, b: u64) -> Result<String, NoMemory>
    ensures { IfOk result (λ line. string_bytes line ≡ insert_line k a b) }
{
    Ok(format!(in alloc; "exec INSERT INTO t VALUES ({k}, {a}, {b})\n")?)
}

fn range_line(alloc: Global, low: u64, high: u64) -> Result<String, NoMemory>
    ensures { IfOk result (λ line. string_bytes line ≡ range_line low high) }
{
    Ok(format!(in alloc; "query 1 SELECT k, a FROM t WHERE a BETWEEN {low} AND {high}\n")?)
}

fn point_line(alloc: Global, value: u64, below: u64) -> Result<String, NoMemory>
    ensures { IfOk result (λ line. string_bytes line ≡ point_line value below) }
{
    Ok(format!(in alloc; "query 1 SELECT k FROM t WHERE b = {value} AND a < {below}\n")?)
}

fn update_line(alloc: Global, a: u64, k: u64) -> Result<String, NoMemory>
    ensures { IfOk result (λ line. string_bytes line ≡ update_line a k) }
{
    Ok(format!(in alloc; "exec UPDATE t SET a = {a} WHERE k = {k}\n")?)
}
