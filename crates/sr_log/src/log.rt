//! The log.
ghost use Rattle.std.specs.Prelude.{◌≡◌, ◌↔◌, ◌+◌, ◌<◌, ◌≤◌, ◌^◌, [], drop, OnOk, OnErr, IfSome, IsNone, vec_len, vec_capacity};
ghost use Rattle.sr_log.specs.Held.{newest, changes_of, entries_above, IsPushed};
ghost use Rattle.sr_log.specs.Kept.{total, floor, kept};

use crate::entry::Entry;
use sr_cell::change::Changes;
use sr_cell::list::NoMemory;
use std::alloc::Global;
use std::marker::Model;

/// The newest versions with their changes: as many as have at most `limit` changes together. The first `gone` entries are
/// dropped already, and leave when they are many.
#[derive(Drop)]
pub struct Log {
    limit: u32,
    floor: u64,
    count: usize,
    gone: usize,
    entries: Vec<Entry>,
}

impl Model for Log {
    ghost use Rattle.std.specs.Prelude.{◌≡◌, ◌-◌, ◌+◌, ◌<◌, ◌≤◌, ◌^◌, drop, vec_len, vec_capacity};
    ghost use Rattle.sr_log.specs.Held.{Held, changes_of, numbered};
    ghost use Rattle.sr_log.specs.Kept.{total};

    ghost Value = { Held };

    ghost view = { λ l. record {
      limit = l.limit;
      floor = l.floor;
      kept = changes_of (drop l.gone l.entries.items);
      room = vec_capacity l.entries - vec_len l.entries;
    } };

    ghost invariant = { λ l. (l.gone ≤ vec_len l.entries)
        × (drop l.gone l.entries.items ≡ numbered l.floor (changes_of (drop l.gone l.entries.items)))
        × (l.count ≡ total (changes_of (drop l.gone l.entries.items)))
        × (l.count ≤ l.limit)
        × (l.floor + vec_len l.entries < 2 ^ 64 + l.gone) };
}

impl Log {
    /// A log with no version; takes no memory.
    pub fn new(alloc: Global, limit: u32) -> Log
        ensures limit { result.limit ≡ limit }
        ensures floor { result.floor ≡ 0 }
        ensures kept { result.kept ≡ [] }
    {
        Log {
            limit,
            floor: 0,
            count: 0,
            gone: 0,
            entries: Vec::new(alloc),
        }
    }

    /// Makes room for a push at least.
    pub fn reserve(&mut self) -> Result<(), NoMemory>
        ensures room { OnOk result (1 ≤ self.new.room) }
        ensures grows { self.old.room ≤ self.new.room }
        ensures same { self.new ≡ record self.old { room = self.new.room } }
        ensures unchanged { OnErr result (self.new ≡ self.old) }
    {
        match self.entries.reserve(1) {
            Ok(()) => Ok(()),
            Err(_) => Err(NoMemory),
        }
    }

    /// One version more; takes no memory.
    pub fn push(&mut self, changes: Changes)
        requires room { 1 ≤ self.old.room }
        requires number { newest self.old + 1 < 2 ^ 63 }
        ensures version { newest self.new ≡ newest self.old + 1 }
        ensures pushed { IsPushed self.old changes self.new }
        ensures room { self.old.room ≤ self.new.room + 1 }
    {
        let version = self.version() + 1;
        // no slice is so long that the sum would wrap
        let count = self.count + changes.as_slice().len();
        self.entries.push_reserved(Entry { version, changes });
        let (dropped, left) = surplus(&self.entries[self.gone..], count, self.limit as usize);
        self.gone = leave(&mut self.entries, self.gone + dropped);
        self.floor += dropped as u64;
        self.count = left;
    }

    /// The number of the newest version, 0 where there is none.
    pub fn version(&self) -> u64
        ensures { result ≡ newest self.now }
    {
        self.floor + (self.entries.len() - self.gone) as u64
    }

    /// The versions above that one, oldest first; none where one of them was dropped.
    pub fn since(&self, version: u64) -> Option<&[Entry]>
        ensures above { IfSome result (λ entries. entries.now ≡ entries_above version self.now) }
        ensures dropped { IsNone result ↔ version < self.now.floor }
    {
        if version < self.floor {
            return None;
        }
        let known = (version - self.floor) as usize;
        let kept = &self.entries[self.gone..];
        let first = known.min(kept.len());
        Some(&kept[first..])
    }
}

/// How many versions are to be dropped, and how many changes the others have.
fn surplus(entries: &[Entry], count: usize, limit: usize) -> (usize, usize)
    requires { count ≡ total (changes_of entries.now) }
    ensures dropped { result.0 ≡ floor limit (changes_of entries.now) }
    ensures left { result.1 ≡ total (kept limit (changes_of entries.now)) }
{
    let mut dropped = 0;
    let mut left = count;
    while left > limit {
        left -= entries[dropped].changes.len();
        dropped += 1;
    }
    (dropped, left)
}

/// Lets the first entries leave where they are more than an eighth of the others, so that each moves eight at most in the mean.
/// Answers how many are still there.
fn leave(entries: &mut Vec<Entry>, gone: usize) -> usize
    requires { gone ≤ vec_len entries.old }
    ensures rest { drop result entries.new.items ≡ drop gone entries.old.items }
    ensures within { result ≤ vec_len entries.new }
    ensures room { vec_capacity entries.old + vec_len entries.new ≤ vec_capacity entries.new + vec_len entries.old }
{
    if gone <= (entries.len() - gone) / 8 {
        return gone;
    }
    let _ = entries.drain(..gone);
    0
}
