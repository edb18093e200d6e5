//! A link in memory, with one connection from the start.
ghost use Rattle.std.specs.Prelude.{◌≡◌, ◌↔◌, ◌<◌, ◌≤◌, [], length, take, true, false, Some, None, IfOk, OnErr, IfSome, IsErrOf};
ghost use Rattle.std.specs.Io.{ReadsAtMost};
ghost use Rattle.sr_cell.specs.declared.list.No.TheVariants.{Refused, NoMemory as Wanting};
ghost use Rattle.sr_io.specs.Causes.{Rose};
ghost use Rattle.sr_io.specs.Fails.{NoneAbove, planned, counted, fails_next};
ghost use Rattle.sr_io.specs.Told.{OnlyFaults, Brings, IsOver, no_reading, no_writing, fresh, sent_on, taken_from};

use crate::fails::{Failing, Fails, Planned};
use crate::outside::{Failed, Link, Outside};
use crate::wire::Wire;
use sr_cell::list::{Bytes, No, NoMemory};
use sr_cell::text::Text;
use std::alloc::Global;

/// One connection, made at no address, over which bytes go in pieces.
#[derive(Drop)]
pub struct MemLink {
    wire: Wire,
    piece: usize,
    failing: Failing,
    ghost some_piece: { 0 < piece },
}

impl MemLink {
    /// The connection brings these bytes. A call moves at most `piece` bytes; the calls of these numbers fail, where sends and
    /// receives are counted together.
    pub fn new(alloc: Global, brings: Bytes, fails: Fails, piece: usize) -> MemLink
        requires { 0 < piece }
        ensures linking { ⟦<MemLink as Outside>⟧.linking result ≡ record { past = []; present = Some (fresh [] brings); peers = Some []; docked = None; is_up = true; faults = 0 } }
        ensures plan { ⟦<MemLink as Planned>⟧.plan result ≡ planned fails piece }
        ensures steady { NoneAbove fails 0 ↔ ⟦<MemLink as Outside>⟧.IsSteady result }
    {
        MemLink {
            wire: Wire::new(alloc, Text::from_string(String::new(alloc)), brings),
            piece,
            failing: Failing::new(fails),
        }
    }

    /// A copy of the bytes that were sent.
    pub fn sent(&self, alloc: Global) -> Result<Bytes, NoMemory>
        ensures { IfOk result (λ bytes. IfSome (⟦<MemLink as Outside>⟧.linking self.now).present (λ connection. bytes ≡ connection.sent)) }
    {
        self.wire.sent(alloc)
    }
}

impl Outside for MemLink {
    ghost reading = { λ _. no_reading };

    ghost writing = { λ _. no_writing };

    ghost linking = { λ s. record { past = []; present = Some s.wire; peers = Some []; docked = None; is_up = true; faults = s.failing.2 } };

    ghost held = { λ _ _. None };

    ghost complaints = { λ _. None };

    ghost IsSteady = { λ s. NoneAbove s.failing.0 s.failing.1 };
}

impl Planned for MemLink {
    ghost plan = { λ s. record { numbers = s.failing.0; calls = s.failing.1; piece = s.piece } };
}

impl Link for MemLink {
    fn send(&mut self, bytes: &[u8]) -> Result<usize, No<Failed>>
        requires { 0 < length bytes.now }
        ensures fails_as_listed { IsErrOf result (Refused record {}) ↔ fails_next (⟦<MemLink as Planned>⟧.plan self.old) ≡ true }
        ensures one_piece { IfOk result (λ n. n ≤ (⟦<MemLink as Planned>⟧.plan self.old).piece) }
        ensures call_is_counted { ⟦<MemLink as Planned>⟧.plan self.new ≡ counted (⟦<MemLink as Planned>⟧.plan self.old) }
        ensures some_bytes { IfOk result (λ n. (0 < n) × (n ≤ length bytes.now)) }
        ensures sent { IfOk result (λ n. ⟦<MemLink as Outside>⟧.linking self.new ≡ sent_on (take n bytes.now) (⟦<MemLink as Outside>⟧.linking self.old)) }
        ensures unchanged { OnErr result (OnlyFaults (⟦<MemLink as Outside>⟧.linking self.old) (⟦<MemLink as Outside>⟧.linking self.new)) }
        ensures fails_without_connection { (⟦<MemLink as Outside>⟧.linking self.old).is_up ≡ false → IsErrOf result (Refused record {}) }
        ensures faults_never_fall { (⟦<MemLink as Outside>⟧.linking self.old).faults ≤ (⟦<MemLink as Outside>⟧.linking self.new).faults }
        ensures want_keeps_faults { IsErrOf result Wanting → (⟦<MemLink as Outside>⟧.linking self.new).faults ≡ (⟦<MemLink as Outside>⟧.linking self.old).faults }
        ensures failed_is_counted { IsErrOf result (Refused record {}) → Rose (⟦<MemLink as Outside>⟧.linking self.old).faults (⟦<MemLink as Outside>⟧.linking self.new).faults }
        ensures stays_steady { ⟦<MemLink as Outside>⟧.IsSteady self.old → ⟦<MemLink as Outside>⟧.IsSteady self.new }
        ensures steady_fails_only_down { ⟦<MemLink as Outside>⟧.IsSteady self.old → IsErrOf result (Refused record {}) → (⟦<MemLink as Outside>⟧.linking self.old).is_up ≡ false }
        ensures reading_stays { ⟦<MemLink as Outside>⟧.reading self.new ≡ ⟦<MemLink as Outside>⟧.reading self.old }
        ensures writing_stays { ⟦<MemLink as Outside>⟧.writing self.new ≡ ⟦<MemLink as Outside>⟧.writing self.old }
        ensures held_stays { ⟦<MemLink as Outside>⟧.held self.new ≡ ⟦<MemLink as Outside>⟧.held self.old }
        ensures complaints_stay { ⟦<MemLink as Outside>⟧.complaints self.new ≡ ⟦<MemLink as Outside>⟧.complaints self.old }
    {
        if self.failing.fails_now() {
            return Err(No::Refused(Failed));
        }
        Ok(self.wire.put(bytes, self.piece)?)
    }

    fn recv(&mut self, room: &mut [u8]) -> Result<usize, No<Failed>>
        requires { 0 < length room.old }
        ensures fails_as_listed { IsErrOf result (Refused record {}) ↔ fails_next (⟦<MemLink as Planned>⟧.plan self.old) ≡ true }
        ensures one_piece { IfOk result (λ n. n ≤ (⟦<MemLink as Planned>⟧.plan self.old).piece) }
        ensures call_is_counted { ⟦<MemLink as Planned>⟧.plan self.new ≡ counted (⟦<MemLink as Planned>⟧.plan self.old) }
        ensures fits_room { ReadsAtMost result room.new }
        ensures taken { IfOk result (λ n. ⟦<MemLink as Outside>⟧.linking self.new ≡ taken_from (take n room.new) (⟦<MemLink as Outside>⟧.linking self.old)) }
        ensures brought { IfOk result (λ n. Brings (⟦<MemLink as Outside>⟧.linking self.old).present (take n room.new)) }
        ensures over { IfOk result (λ n. n ≡ 0 → IsOver (⟦<MemLink as Outside>⟧.linking self.old).present) }
        ensures unchanged { OnErr result (OnlyFaults (⟦<MemLink as Outside>⟧.linking self.old) (⟦<MemLink as Outside>⟧.linking self.new)) }
        ensures fails_without_connection { (⟦<MemLink as Outside>⟧.linking self.old).is_up ≡ false → IsErrOf result (Refused record {}) }
        ensures faults_never_fall { (⟦<MemLink as Outside>⟧.linking self.old).faults ≤ (⟦<MemLink as Outside>⟧.linking self.new).faults }
        ensures want_keeps_faults { IsErrOf result Wanting → (⟦<MemLink as Outside>⟧.linking self.new).faults ≡ (⟦<MemLink as Outside>⟧.linking self.old).faults }
        ensures failed_is_counted { IsErrOf result (Refused record {}) → Rose (⟦<MemLink as Outside>⟧.linking self.old).faults (⟦<MemLink as Outside>⟧.linking self.new).faults }
        ensures stays_steady { ⟦<MemLink as Outside>⟧.IsSteady self.old → ⟦<MemLink as Outside>⟧.IsSteady self.new }
        ensures steady_fails_only_down { ⟦<MemLink as Outside>⟧.IsSteady self.old → IsErrOf result (Refused record {}) → (⟦<MemLink as Outside>⟧.linking self.old).is_up ≡ false }
        ensures reading_stays { ⟦<MemLink as Outside>⟧.reading self.new ≡ ⟦<MemLink as Outside>⟧.reading self.old }
        ensures writing_stays { ⟦<MemLink as Outside>⟧.writing self.new ≡ ⟦<MemLink as Outside>⟧.writing self.old }
        ensures held_stays { ⟦<MemLink as Outside>⟧.held self.new ≡ ⟦<MemLink as Outside>⟧.held self.old }
        ensures complaints_stay { ⟦<MemLink as Outside>⟧.complaints self.new ≡ ⟦<MemLink as Outside>⟧.complaints self.old }
    {
        if self.failing.fails_now() {
            return Err(No::Refused(Failed));
        }
        Ok(self.wire.get(room, self.piece))
    }

    fn link_faults(&self) -> u64 {
        self.failing.faults()
    }
}
