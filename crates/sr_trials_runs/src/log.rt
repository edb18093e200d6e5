//! Logs of few changes.
ghost use Rattle.std.specs.Prelude.{◌<◌, length};

use sr_cell::cell::Cell;
use sr_cell::change::{Change, Changes};
use sr_cell::list::{NoMemory, Seq};
use sr_log::entry::Entry;
use sr_log::log::Log;
use std::alloc::Global;

fn changes(alloc: Global, count: usize) -> Result<Changes, NoMemory> {
    let mut changes = Seq::new(alloc);
    for _ in 0..count {
        changes.push(Change {
            table: 0,
            key: Cell::Num(0),
            before: None,
            after: None,
        })?;
    }
    Ok(changes)
}

// A log into which versions with so many changes were pushed.
fn log_of(alloc: Global, limit: u32, counts: &[usize]) -> Result<Log, NoMemory>
    requires { length counts.now < 10 }
{
    let mut log = Log::new(alloc, limit);
    for count in counts {
        log.reserve()?;
        log.push(changes(alloc, *count)?);
    }
    Ok(log)
}

// An entry's version, and how many changes it has.
fn seen(entry: &Entry) -> (u64, usize) {
    (entry.version, entry.changes.len())
}

// Whether the entries are these.
fn are(entries: &[Entry], wanted: &[(u64, usize)]) -> bool {
    if entries.len() != wanted.len() {
        return false;
    }
    for i in 0..entries.len() {
        if seen(&entries[i]) != wanted[i] {
            return false;
        }
    }
    true
}

// Whether the log is at its version, and answers so on what is above a version.
fn answers(log: &Log, version: u64, above: u64, wanted: Option<&[(u64, usize)]>) -> bool {
    let same = match (log.since(above), wanted) {
        (None, None) => true,
        (Some(entries), Some(wanted)) => are(entries, wanted),
        _ => false,
    };
    same && log.version() == version
}

// One change each, of which one is kept.
fn newest_of_two(alloc: Global) -> Result<bool, NoMemory> {
    let log = log_of(alloc, 1, &[1, 1])?;
    Ok(
        answers(&log, 2, 0, None)
            && answers(&log, 2, 1, Some(&[(2, 1)]))
            && answers(&log, 2, 2, Some(&[]))
            && answers(&log, 2, 9, Some(&[])),
    )
}

// Five changes, of which three are kept.
fn newest_of_three(alloc: Global) -> Result<bool, NoMemory> {
    let log = log_of(alloc, 3, &[2, 1, 2])?;
    Ok(answers(&log, 3, 0, None) && answers(&log, 3, 1, Some(&[(2, 1), (3, 2)])))
}

#[test]
fn the_newest_versions_are_kept(rt: HostRuntime) {
    let alloc = rt.alloc();
    assert!(rt; newest_of_two(alloc) == Ok(true));
    assert!(rt; newest_of_three(alloc) == Ok(true));
}

// Two changes at once, of which one would be kept.
fn is_dropped(alloc: Global) -> Result<bool, NoMemory> {
    let log = log_of(alloc, 1, &[1, 2])?;
    Ok(answers(&log, 2, 1, None) && answers(&log, 2, 2, Some(&[])))
}

#[test]
fn more_changes_than_the_limit_drop_all(rt: HostRuntime) {
    assert!(rt; is_dropped(rt.alloc()) == Ok(true));
}

// Two versions without changes, and a change that is kept.
fn are_versions(alloc: Global) -> Result<bool, NoMemory> {
    let log = log_of(alloc, 1, &[0, 1, 0])?;
    Ok(answers(&log, 3, 0, Some(&[(1, 0), (2, 1), (3, 0)])))
}

// The same, where no change is kept.
fn are_kept_alone(alloc: Global) -> Result<bool, NoMemory> {
    let log = log_of(alloc, 0, &[1, 0, 0])?;
    Ok(answers(&log, 3, 0, None) && answers(&log, 3, 1, Some(&[(2, 0), (3, 0)])))
}

#[test]
fn pushes_without_changes_are_versions(rt: HostRuntime) {
    let alloc = rt.alloc();
    assert!(rt; answers(&Log::new(alloc, 1), 0, 0, Some(&[])));
    assert!(rt; are_versions(alloc) == Ok(true));
    assert!(rt; are_kept_alone(alloc) == Ok(true));
}
