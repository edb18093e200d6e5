//! A source in memory.
ghost use Rattle.std.specs.Prelude.{◌≡◌, ◌↔◌, ◌<◌, ◌≤◌, length, drop, true, Some, None, IfOk, OnOk, IsErrOf};
ghost use Rattle.std.specs.Io.{ReadsAtMost};
ghost use Rattle.std.specs.Io.KnownBytes.{ReadConsumes};
ghost use Rattle.sr_cell.specs.declared.list.No.TheVariants.{Refused, NoMemory as Wanting};
ghost use Rattle.sr_io.specs.Causes.{Rose};
ghost use Rattle.sr_io.specs.Fails.{NoneAbove, planned, counted, fails_next};
ghost use Rattle.sr_io.specs.Told.{no_writing, no_linking};

use crate::fails::{Failing, Fails, Planned};
use crate::outside::{Failed, Outside, Source};
use crate::piece::copy_piece;
use sr_cell::list::{Bytes, No};

/// Bytes that are read in pieces.
#[derive(Drop)]
pub struct MemSource {
    bytes: Bytes,
    at: usize,
    piece: usize,
    failing: Failing,
    ghost within: { at ≤ length bytes },
    ghost some_piece: { 0 < piece },
}

impl MemSource {
    /// Gives the bytes in pieces of at most `piece`; the calls of these numbers fail.
    pub fn new(bytes: Bytes, fails: Fails, piece: usize) -> MemSource
        requires { 0 < piece }
        ensures reading { ⟦<MemSource as Outside>⟧.reading result ≡ record { left = Some bytes; faults = 0 } }
        ensures plan { ⟦<MemSource as Planned>⟧.plan result ≡ planned fails piece }
        ensures steady { NoneAbove fails 0 ↔ ⟦<MemSource as Outside>⟧.IsSteady result }
    {
        MemSource {
            bytes,
            at: 0,
            piece,
            failing: Failing::new(fails),
        }
    }
}

impl Outside for MemSource {
    ghost reading = { λ s. record { left = Some (drop s.at s.bytes); faults = s.failing.2 } };

    ghost writing = { λ _. no_writing };

    ghost linking = { λ _. no_linking };

    ghost held = { λ _ _. None };

    ghost complaints = { λ _. None };

    ghost IsSteady = { λ s. NoneAbove s.failing.0 s.failing.1 };
}

impl Planned for MemSource {
    ghost plan = { λ s. record { numbers = s.failing.0; calls = s.failing.1; piece = s.piece } };
}

impl Source for MemSource {
    fn read(&mut self, room: &mut [u8]) -> Result<usize, No<Failed>>
        requires { 0 < length room.old }
        ensures fails_as_listed { IsErrOf result (Refused record {}) ↔ fails_next (⟦<MemSource as Planned>⟧.plan self.old) ≡ true }
        ensures one_piece { IfOk result (λ n. n ≤ (⟦<MemSource as Planned>⟧.plan self.old).piece) }
        ensures call_is_counted { ⟦<MemSource as Planned>⟧.plan self.new ≡ counted (⟦<MemSource as Planned>⟧.plan self.old) }
        ensures fits_room { ReadsAtMost result room.new }
        ensures bytes { ReadConsumes (⟦<MemSource as Outside>⟧.reading self.old).left (⟦<MemSource as Outside>⟧.reading self.new).left result room.new }
        ensures faults_never_fall { (⟦<MemSource as Outside>⟧.reading self.old).faults ≤ (⟦<MemSource as Outside>⟧.reading self.new).faults }
        ensures ok_keeps_faults { OnOk result ((⟦<MemSource as Outside>⟧.reading self.new).faults ≡ (⟦<MemSource as Outside>⟧.reading self.old).faults) }
        ensures want_keeps_faults { IsErrOf result Wanting → (⟦<MemSource as Outside>⟧.reading self.new).faults ≡ (⟦<MemSource as Outside>⟧.reading self.old).faults }
        ensures failed_is_counted { IsErrOf result (Refused record {}) → Rose (⟦<MemSource as Outside>⟧.reading self.old).faults (⟦<MemSource as Outside>⟧.reading self.new).faults }
        ensures stays_steady { ⟦<MemSource as Outside>⟧.IsSteady self.old → ⟦<MemSource as Outside>⟧.IsSteady self.new }
        ensures steady_never_fails { ⟦<MemSource as Outside>⟧.IsSteady self.old → ¬ IsErrOf result (Refused record {}) }
        ensures writing_stays { ⟦<MemSource as Outside>⟧.writing self.new ≡ ⟦<MemSource as Outside>⟧.writing self.old }
        ensures linking_stays { ⟦<MemSource as Outside>⟧.linking self.new ≡ ⟦<MemSource as Outside>⟧.linking self.old }
        ensures held_stays { ⟦<MemSource as Outside>⟧.held self.new ≡ ⟦<MemSource as Outside>⟧.held self.old }
        ensures complaints_stay { ⟦<MemSource as Outside>⟧.complaints self.new ≡ ⟦<MemSource as Outside>⟧.complaints self.old }
    {
        if self.failing.fails_now() {
            return Err(No::Refused(Failed));
        }
        let count = copy_piece(&self.bytes, self.at, room, self.piece);
        self.at += count;
        Ok(count)
    }

    fn read_faults(&self) -> u64 {
        self.failing.faults()
    }
}
