//! A sink in memory.
ghost use Rattle.std.specs.Prelude.{◌≡◌, ◌↔◌, ◌<◌, ◌≤◌, [], length, true, Some, None, IfOk, OnOk, IsErrOf};
ghost use Rattle.std.specs.Io.KnownBytes.{WriteAppends};
ghost use Rattle.sr_cell.specs.declared.list.No.TheVariants.{Refused, NoMemory as Wanting};
ghost use Rattle.sr_io.specs.Causes.{Rose};
ghost use Rattle.sr_io.specs.Fails.{NoneAbove, planned, counted, fails_next};
ghost use Rattle.sr_io.specs.Told.{no_reading, no_linking};

use crate::fails::{Failing, Fails, Planned};
use crate::outside::{Failed, Outside, Sink};
use crate::piece::add_piece;
use sr_cell::list::{Bytes, Copied, No, NoMemory, Seq};
use std::alloc::Global;

/// Takes bytes in pieces.
#[derive(Drop)]
pub struct MemSink {
    bytes: Bytes,
    piece: usize,
    failing: Failing,
    ghost some_piece: { 0 < piece },
}

impl MemSink {
    /// Takes at most `piece` bytes a call; the calls of these numbers fail.
    pub fn new(alloc: Global, fails: Fails, piece: usize) -> MemSink
        requires { 0 < piece }
        ensures writing { ⟦<MemSink as Outside>⟧.writing result ≡ record { written = Some []; faults = 0 } }
        ensures plan { ⟦<MemSink as Planned>⟧.plan result ≡ planned fails piece }
        ensures steady { NoneAbove fails 0 ↔ ⟦<MemSink as Outside>⟧.IsSteady result }
    {
        MemSink {
            bytes: Seq::new(alloc),
            piece,
            failing: Failing::new(fails),
        }
    }

    /// A copy of the bytes that were written.
    pub fn written(&self, alloc: Global) -> Result<Bytes, NoMemory>
        ensures { IfOk result (λ bytes. (⟦<MemSink as Outside>⟧.writing self.now).written ≡ Some bytes) }
    {
        self.bytes.copy(alloc)
    }
}

impl Outside for MemSink {
    ghost reading = { λ _. no_reading };

    ghost writing = { λ s. record { written = Some s.bytes; faults = s.failing.2 } };

    ghost linking = { λ _. no_linking };

    ghost held = { λ _ _. None };

    ghost complaints = { λ _. None };

    ghost IsSteady = { λ s. NoneAbove s.failing.0 s.failing.1 };
}

impl Planned for MemSink {
    ghost plan = { λ s. record { numbers = s.failing.0; calls = s.failing.1; piece = s.piece } };
}

impl Sink for MemSink {
    fn write(&mut self, bytes: &[u8]) -> Result<usize, No<Failed>>
        requires { 0 < length bytes.now }
        ensures fails_as_listed { IsErrOf result (Refused record {}) ↔ fails_next (⟦<MemSink as Planned>⟧.plan self.old) ≡ true }
        ensures one_piece { IfOk result (λ n. n ≤ (⟦<MemSink as Planned>⟧.plan self.old).piece) }
        ensures call_is_counted { ⟦<MemSink as Planned>⟧.plan self.new ≡ counted (⟦<MemSink as Planned>⟧.plan self.old) }
        ensures some_bytes { IfOk result (λ n. (0 < n) × (n ≤ length bytes.now)) }
        ensures bytes { WriteAppends (⟦<MemSink as Outside>⟧.writing self.old).written (⟦<MemSink as Outside>⟧.writing self.new).written result bytes.now }
        ensures faults_never_fall { (⟦<MemSink as Outside>⟧.writing self.old).faults ≤ (⟦<MemSink as Outside>⟧.writing self.new).faults }
        ensures ok_keeps_faults { OnOk result ((⟦<MemSink as Outside>⟧.writing self.new).faults ≡ (⟦<MemSink as Outside>⟧.writing self.old).faults) }
        ensures want_keeps_faults { IsErrOf result Wanting → (⟦<MemSink as Outside>⟧.writing self.new).faults ≡ (⟦<MemSink as Outside>⟧.writing self.old).faults }
        ensures failed_is_counted { IsErrOf result (Refused record {}) → Rose (⟦<MemSink as Outside>⟧.writing self.old).faults (⟦<MemSink as Outside>⟧.writing self.new).faults }
        ensures stays_steady { ⟦<MemSink as Outside>⟧.IsSteady self.old → ⟦<MemSink as Outside>⟧.IsSteady self.new }
        ensures steady_never_fails { ⟦<MemSink as Outside>⟧.IsSteady self.old → ¬ IsErrOf result (Refused record {}) }
        ensures reading_stays { ⟦<MemSink as Outside>⟧.reading self.new ≡ ⟦<MemSink as Outside>⟧.reading self.old }
        ensures linking_stays { ⟦<MemSink as Outside>⟧.linking self.new ≡ ⟦<MemSink as Outside>⟧.linking self.old }
        ensures held_stays { ⟦<MemSink as Outside>⟧.held self.new ≡ ⟦<MemSink as Outside>⟧.held self.old }
        ensures complaints_stay { ⟦<MemSink as Outside>⟧.complaints self.new ≡ ⟦<MemSink as Outside>⟧.complaints self.old }
    {
        if self.failing.fails_now() {
            return Err(No::Refused(Failed));
        }
        Ok(add_piece(&mut self.bytes, bytes, self.piece)?)
    }

    fn write_faults(&self) -> u64 {
        self.failing.faults()
    }
}
