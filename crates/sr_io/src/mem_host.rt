//! A host in memory.
ghost use Rattle.std.specs.Prelude.{◌≡◌, ℕ, ◌+◌, List, ◌++◌, option_to_list, Ok, ◌↔◌, ◌<◌, ◌≤◌, ◌⊎◌, [], length, drop, take, true, false, Some, None, vec_len, vec_capacity, IfOk, OnOk, OnErr, IsOk, IsErrOf, IsSome, slice_get, MatchOption};
ghost use Rattle.std.specs.Io.{ReadsAtMost};
ghost use Rattle.std.specs.Io.KnownBytes.{ReadConsumes, WriteAppends};
ghost use Rattle.std.specs.Option.{option_copied, is_some};
ghost use Rattle.sr_cell.specs.declared.list.No.TheVariants.{Refused, NoMemory as Wanting};
ghost use Rattle.sr_io.specs.Causes.{Rose};
ghost use Rattle.sr_io.specs.Fails.{NoneAbove, planned, counted, fails_next};
ghost use Rattle.sr_io.specs.Files.{held_of};
ghost use Rattle.sr_io.specs.Told.{OnlyFaults, Brings, IsOver, sent_on, taken_from, connections, connected_at, docked_at, hung_up, complained};

use crate::fails::{Failing, Fails, Planned};
use crate::file::FileList;
use crate::outside::{Dock, Failed, Host, Link, Outside, Sink, Source, count_fault};
use crate::piece::{add_piece, copy_piece};
use crate::wire::Wire;
use sr_cell::list::{Bytes, Copied, No, NoMemory, Seq};
use sr_cell::text::Text;
use std::alloc::Global;

/// What each further connection will bring.
pub type Peers = Seq<Bytes>;

/// Files, what was written and complained, connections, and the calls that are to fail.
#[derive(Drop)]
pub struct MemHost {
    alloc: Global,
    files: FileList,
    picked: Bytes,
    at: usize,
    written: Bytes,
    complaints: Vec<u8>,
    past: Vec<Wire>,
    present: Option<Wire>,
    peers: Peers,
    docked: Text,
    piece: usize,
    failing: Failing,
    read_faults: u64,
    write_faults: u64,
    link_faults: u64,
    ghost within: { at ≤ length picked },
    ghost some_piece: { 0 < piece },
    ghost complaints_fit: { vec_len complaints ≤ 4096 },
    // so that a complaint takes no memory
    ghost complaints_room: { 4096 ≤ vec_capacity complaints },
    // so that hanging up takes no memory
    ghost past_room: { IsSome present → vec_len past < vec_capacity past },
}

impl MemHost {
    /// Nothing is picked, written or connected yet. A call moves at most `piece` bytes; the calls of these numbers fail,
    /// where all calls that may fail are counted together.
    pub fn new(
        alloc: Global,
        files: FileList,
        peers: Peers,
        fails: Fails,
        piece: usize,
    ) -> Result<MemHost, NoMemory>
        requires { 0 < piece }
        ensures held { IfOk result (λ host. ⟦<MemHost as Outside>⟧.held host ≡ held_of files) }
        ensures reading { IfOk result (λ host. ⟦<MemHost as Outside>⟧.reading host ≡ record { left = Some []; faults = 0 }) }
        ensures writing { IfOk result (λ host. ⟦<MemHost as Outside>⟧.writing host ≡ record { written = Some []; faults = 0 }) }
        ensures linking { IfOk result (λ host. ⟦<MemHost as Outside>⟧.linking host ≡ record { past = []; present = None; peers = Some peers; docked = Some []; is_up = false; faults = 0 }) }
        ensures complaints { IfOk result (λ host. ⟦<MemHost as Outside>⟧.complaints host ≡ Some []) }
        ensures plan { IfOk result (λ host. ⟦<MemHost as Planned>⟧.plan host ≡ planned fails piece) }
        ensures steady { IfOk result (λ host. NoneAbove fails 0 ↔ ⟦<MemHost as Outside>⟧.IsSteady host) }
    {
        let complaints = Vec::with_capacity(alloc, 4096)?;
        Ok(MemHost {
            alloc,
            files,
            picked: Seq::new(alloc),
            at: 0,
            written: Seq::new(alloc),
            complaints,
            past: Vec::new(alloc),
            present: None,
            peers,
            docked: Text::from_string(String::new(alloc)),
            piece,
            failing: Failing::new(fails),
            read_faults: 0,
            write_faults: 0,
            link_faults: 0,
        })
    }

    /// A copy of the bytes that were written.
    pub fn written(&self, alloc: Global) -> Result<Bytes, NoMemory>
        ensures { IfOk result (λ bytes. (⟦<MemHost as Outside>⟧.writing self.now).written ≡ Some bytes) }
    {
        self.written.copy(alloc)
    }

    /// A copy of what the error output was given.
    pub fn complained(&self, alloc: Global) -> Result<Bytes, NoMemory>
        ensures { IfOk result (λ bytes. ⟦<MemHost as Outside>⟧.complaints self.now ≡ Some bytes) }
    {
        let mut same = Seq::new(alloc);
        same.extend(&self.complaints)?;
        Ok(same)
    }

    /// A copy of the bytes that were sent on a connection, counted from 0; none where it was not made.
    pub fn sent(&self, alloc: Global, connection: usize) -> Result<Bytes, NoMemory>
        ensures { IfOk result (λ bytes. MatchOption (slice_get (connections (⟦<MemHost as Outside>⟧.linking self.now)) connection) (bytes ≡ []) (λ made. bytes ≡ made.sent)) }
    {
        if connection < self.past.len() {
            return self.past[connection].sent(alloc);
        }
        match &self.present {
            Some(wire) if connection == self.past.len() => wire.sent(alloc),
            _ => Ok(Seq::new(alloc)),
        }
    }

    /// Makes the connection of the next peer at this address, if there was memory for the address.
    fn join(&mut self, address: Result<Text, NoMemory>) -> Result<(), No<Failed>>
        ensures fails_as_listed { IsErrOf result (Refused record {}) ↔ (fails_next (⟦<MemHost as Planned>⟧.plan self.old) ≡ true ⊎ (⟦<MemHost as Outside>⟧.linking self.old).peers ≡ Some []) }
        ensures call_is_counted { ⟦<MemHost as Planned>⟧.plan self.new ≡ counted (⟦<MemHost as Planned>⟧.plan self.old) }
        ensures made { OnOk result ((bytes : List ℕ) × (address ≡ Ok bytes) × (⟦<MemHost as Outside>⟧.linking self.new ≡ connected_at (Some bytes) (⟦<MemHost as Outside>⟧.linking self.old))) }
        ensures none_past_the_last { (⟦<MemHost as Outside>⟧.linking self.old).peers ≡ Some [] → ¬ IsOk result }
        ensures unchanged { OnErr result (OnlyFaults (⟦<MemHost as Outside>⟧.linking self.old) (⟦<MemHost as Outside>⟧.linking self.new)) }
        ensures faults_never_fall { (⟦<MemHost as Outside>⟧.linking self.old).faults ≤ (⟦<MemHost as Outside>⟧.linking self.new).faults }
        ensures want_keeps_faults { IsErrOf result Wanting → (⟦<MemHost as Outside>⟧.linking self.new).faults ≡ (⟦<MemHost as Outside>⟧.linking self.old).faults }
        ensures failed_is_counted { IsErrOf result (Refused record {}) → Rose (⟦<MemHost as Outside>⟧.linking self.old).faults (⟦<MemHost as Outside>⟧.linking self.new).faults }
        ensures stays_steady { ⟦<MemHost as Outside>⟧.IsSteady self.old → ⟦<MemHost as Outside>⟧.IsSteady self.new }
        ensures steady_fails_only_past_the_last { ⟦<MemHost as Outside>⟧.IsSteady self.old → IsErrOf result (Refused record {}) → (⟦<MemHost as Outside>⟧.linking self.old).peers ≡ Some [] }
        ensures reading_stays { ⟦<MemHost as Outside>⟧.reading self.new ≡ ⟦<MemHost as Outside>⟧.reading self.old }
        ensures writing_stays { ⟦<MemHost as Outside>⟧.writing self.new ≡ ⟦<MemHost as Outside>⟧.writing self.old }
        ensures held_stays { ⟦<MemHost as Outside>⟧.held self.new ≡ ⟦<MemHost as Outside>⟧.held self.old }
        ensures complaints_stay { ⟦<MemHost as Outside>⟧.complaints self.new ≡ ⟦<MemHost as Outside>⟧.complaints self.old }
    {
        if self.failing.fails_now() || self.peers.is_empty() {
            return Err(count_fault(&mut self.link_faults));
        }
        let address = address?;
        // for the present connection now, and for the new one once it is given up
        if self.past.reserve(2).is_err() {
            return Err(No::NoMemory);
        }
        give_up(&mut self.present, &mut self.past);
        self.present = Some(Wire::new(self.alloc, address, self.peers.remove(0)));
        Ok(())
    }
}

impl Outside for MemHost {
    ghost reading = { λ s. record { left = Some (drop s.at s.picked); faults = s.read_faults } };

    ghost writing = { λ s. record { written = Some s.written; faults = s.write_faults } };

    ghost linking = { λ s. record { past = s.past.items; present = s.present; peers = Some s.peers; docked = Some s.docked; is_up = is_some s.present; faults = s.link_faults } };

    ghost held = { λ s. held_of s.files };

    ghost complaints = { λ s. Some s.complaints.items };

    ghost IsSteady = { λ s. NoneAbove s.failing.0 s.failing.1 };
}

impl Planned for MemHost {
    ghost plan = { λ s. record { numbers = s.failing.0; calls = s.failing.1; piece = s.piece } };
}

impl Source for MemHost {
    fn read(&mut self, room: &mut [u8]) -> Result<usize, No<Failed>>
        requires { 0 < length room.old }
        ensures fails_as_listed { IsErrOf result (Refused record {}) ↔ fails_next (⟦<MemHost as Planned>⟧.plan self.old) ≡ true }
        ensures one_piece { IfOk result (λ n. n ≤ (⟦<MemHost as Planned>⟧.plan self.old).piece) }
        ensures call_is_counted { ⟦<MemHost as Planned>⟧.plan self.new ≡ counted (⟦<MemHost as Planned>⟧.plan self.old) }
        ensures fits_room { ReadsAtMost result room.new }
        ensures bytes { ReadConsumes (⟦<MemHost as Outside>⟧.reading self.old).left (⟦<MemHost as Outside>⟧.reading self.new).left result room.new }
        ensures faults_never_fall { (⟦<MemHost as Outside>⟧.reading self.old).faults ≤ (⟦<MemHost as Outside>⟧.reading self.new).faults }
        ensures ok_keeps_faults { OnOk result ((⟦<MemHost as Outside>⟧.reading self.new).faults ≡ (⟦<MemHost as Outside>⟧.reading self.old).faults) }
        ensures want_keeps_faults { IsErrOf result Wanting → (⟦<MemHost as Outside>⟧.reading self.new).faults ≡ (⟦<MemHost as Outside>⟧.reading self.old).faults }
        ensures failed_is_counted { IsErrOf result (Refused record {}) → Rose (⟦<MemHost as Outside>⟧.reading self.old).faults (⟦<MemHost as Outside>⟧.reading self.new).faults }
        ensures stays_steady { ⟦<MemHost as Outside>⟧.IsSteady self.old → ⟦<MemHost as Outside>⟧.IsSteady self.new }
        ensures steady_never_fails { ⟦<MemHost as Outside>⟧.IsSteady self.old → ¬ IsErrOf result (Refused record {}) }
        ensures writing_stays { ⟦<MemHost as Outside>⟧.writing self.new ≡ ⟦<MemHost as Outside>⟧.writing self.old }
        ensures linking_stays { ⟦<MemHost as Outside>⟧.linking self.new ≡ ⟦<MemHost as Outside>⟧.linking self.old }
        ensures held_stays { ⟦<MemHost as Outside>⟧.held self.new ≡ ⟦<MemHost as Outside>⟧.held self.old }
        ensures complaints_stay { ⟦<MemHost as Outside>⟧.complaints self.new ≡ ⟦<MemHost as Outside>⟧.complaints self.old }
    {
        if self.failing.fails_now() {
            return Err(count_fault(&mut self.read_faults));
        }
        let count = copy_piece(&self.picked, self.at, room, self.piece);
        self.at += count;
        Ok(count)
    }

    fn read_faults(&self) -> u64 {
        self.read_faults
    }
}

impl Sink for MemHost {
    fn write(&mut self, bytes: &[u8]) -> Result<usize, No<Failed>>
        requires { 0 < length bytes.now }
        ensures fails_as_listed { IsErrOf result (Refused record {}) ↔ fails_next (⟦<MemHost as Planned>⟧.plan self.old) ≡ true }
        ensures one_piece { IfOk result (λ n. n ≤ (⟦<MemHost as Planned>⟧.plan self.old).piece) }
        ensures call_is_counted { ⟦<MemHost as Planned>⟧.plan self.new ≡ counted (⟦<MemHost as Planned>⟧.plan self.old) }
        ensures some_bytes { IfOk result (λ n. (0 < n) × (n ≤ length bytes.now)) }
        ensures bytes { WriteAppends (⟦<MemHost as Outside>⟧.writing self.old).written (⟦<MemHost as Outside>⟧.writing self.new).written result bytes.now }
        ensures faults_never_fall { (⟦<MemHost as Outside>⟧.writing self.old).faults ≤ (⟦<MemHost as Outside>⟧.writing self.new).faults }
        ensures ok_keeps_faults { OnOk result ((⟦<MemHost as Outside>⟧.writing self.new).faults ≡ (⟦<MemHost as Outside>⟧.writing self.old).faults) }
        ensures want_keeps_faults { IsErrOf result Wanting → (⟦<MemHost as Outside>⟧.writing self.new).faults ≡ (⟦<MemHost as Outside>⟧.writing self.old).faults }
        ensures failed_is_counted { IsErrOf result (Refused record {}) → Rose (⟦<MemHost as Outside>⟧.writing self.old).faults (⟦<MemHost as Outside>⟧.writing self.new).faults }
        ensures stays_steady { ⟦<MemHost as Outside>⟧.IsSteady self.old → ⟦<MemHost as Outside>⟧.IsSteady self.new }
        ensures steady_never_fails { ⟦<MemHost as Outside>⟧.IsSteady self.old → ¬ IsErrOf result (Refused record {}) }
        ensures reading_stays { ⟦<MemHost as Outside>⟧.reading self.new ≡ ⟦<MemHost as Outside>⟧.reading self.old }
        ensures linking_stays { ⟦<MemHost as Outside>⟧.linking self.new ≡ ⟦<MemHost as Outside>⟧.linking self.old }
        ensures held_stays { ⟦<MemHost as Outside>⟧.held self.new ≡ ⟦<MemHost as Outside>⟧.held self.old }
        ensures complaints_stay { ⟦<MemHost as Outside>⟧.complaints self.new ≡ ⟦<MemHost as Outside>⟧.complaints self.old }
    {
        if self.failing.fails_now() {
            return Err(count_fault(&mut self.write_faults));
        }
        Ok(add_piece(&mut self.written, bytes, self.piece)?)
    }

    fn write_faults(&self) -> u64 {
        self.write_faults
    }
}

impl Link for MemHost {
    fn send(&mut self, bytes: &[u8]) -> Result<usize, No<Failed>>
        requires { 0 < length bytes.now }
        ensures fails_as_listed { IsErrOf result (Refused record {}) ↔ (fails_next (⟦<MemHost as Planned>⟧.plan self.old) ≡ true ⊎ (⟦<MemHost as Outside>⟧.linking self.old).is_up ≡ false) }
        ensures one_piece { IfOk result (λ n. n ≤ (⟦<MemHost as Planned>⟧.plan self.old).piece) }
        ensures call_is_counted { ⟦<MemHost as Planned>⟧.plan self.new ≡ counted (⟦<MemHost as Planned>⟧.plan self.old) }
        ensures some_bytes { IfOk result (λ n. (0 < n) × (n ≤ length bytes.now)) }
        ensures sent { IfOk result (λ n. ⟦<MemHost as Outside>⟧.linking self.new ≡ sent_on (take n bytes.now) (⟦<MemHost as Outside>⟧.linking self.old)) }
        ensures unchanged { OnErr result (OnlyFaults (⟦<MemHost as Outside>⟧.linking self.old) (⟦<MemHost as Outside>⟧.linking self.new)) }
        ensures fails_without_connection { (⟦<MemHost as Outside>⟧.linking self.old).is_up ≡ false → IsErrOf result (Refused record {}) }
        ensures faults_never_fall { (⟦<MemHost as Outside>⟧.linking self.old).faults ≤ (⟦<MemHost as Outside>⟧.linking self.new).faults }
        ensures want_keeps_faults { IsErrOf result Wanting → (⟦<MemHost as Outside>⟧.linking self.new).faults ≡ (⟦<MemHost as Outside>⟧.linking self.old).faults }
        ensures failed_is_counted { IsErrOf result (Refused record {}) → Rose (⟦<MemHost as Outside>⟧.linking self.old).faults (⟦<MemHost as Outside>⟧.linking self.new).faults }
        ensures stays_steady { ⟦<MemHost as Outside>⟧.IsSteady self.old → ⟦<MemHost as Outside>⟧.IsSteady self.new }
        ensures steady_fails_only_down { ⟦<MemHost as Outside>⟧.IsSteady self.old → IsErrOf result (Refused record {}) → (⟦<MemHost as Outside>⟧.linking self.old).is_up ≡ false }
        ensures reading_stays { ⟦<MemHost as Outside>⟧.reading self.new ≡ ⟦<MemHost as Outside>⟧.reading self.old }
        ensures writing_stays { ⟦<MemHost as Outside>⟧.writing self.new ≡ ⟦<MemHost as Outside>⟧.writing self.old }
        ensures held_stays { ⟦<MemHost as Outside>⟧.held self.new ≡ ⟦<MemHost as Outside>⟧.held self.old }
        ensures complaints_stay { ⟦<MemHost as Outside>⟧.complaints self.new ≡ ⟦<MemHost as Outside>⟧.complaints self.old }
    {
        let fails = self.failing.fails_now();
        match &mut self.present {
            Some(wire) if !fails => Ok(wire.put(bytes, self.piece)?),
            _ => Err(count_fault(&mut self.link_faults)),
        }
    }

    fn recv(&mut self, room: &mut [u8]) -> Result<usize, No<Failed>>
        requires { 0 < length room.old }
        ensures fails_as_listed { IsErrOf result (Refused record {}) ↔ (fails_next (⟦<MemHost as Planned>⟧.plan self.old) ≡ true ⊎ (⟦<MemHost as Outside>⟧.linking self.old).is_up ≡ false) }
        ensures one_piece { IfOk result (λ n. n ≤ (⟦<MemHost as Planned>⟧.plan self.old).piece) }
        ensures call_is_counted { ⟦<MemHost as Planned>⟧.plan self.new ≡ counted (⟦<MemHost as Planned>⟧.plan self.old) }
        ensures fits_room { ReadsAtMost result room.new }
        ensures taken { IfOk result (λ n. ⟦<MemHost as Outside>⟧.linking self.new ≡ taken_from (take n room.new) (⟦<MemHost as Outside>⟧.linking self.old)) }
        ensures brought { IfOk result (λ n. Brings (⟦<MemHost as Outside>⟧.linking self.old).present (take n room.new)) }
        ensures over { IfOk result (λ n. n ≡ 0 → IsOver (⟦<MemHost as Outside>⟧.linking self.old).present) }
        ensures unchanged { OnErr result (OnlyFaults (⟦<MemHost as Outside>⟧.linking self.old) (⟦<MemHost as Outside>⟧.linking self.new)) }
        ensures fails_without_connection { (⟦<MemHost as Outside>⟧.linking self.old).is_up ≡ false → IsErrOf result (Refused record {}) }
        ensures faults_never_fall { (⟦<MemHost as Outside>⟧.linking self.old).faults ≤ (⟦<MemHost as Outside>⟧.linking self.new).faults }
        ensures want_keeps_faults { IsErrOf result Wanting → (⟦<MemHost as Outside>⟧.linking self.new).faults ≡ (⟦<MemHost as Outside>⟧.linking self.old).faults }
        ensures failed_is_counted { IsErrOf result (Refused record {}) → Rose (⟦<MemHost as Outside>⟧.linking self.old).faults (⟦<MemHost as Outside>⟧.linking self.new).faults }
        ensures stays_steady { ⟦<MemHost as Outside>⟧.IsSteady self.old → ⟦<MemHost as Outside>⟧.IsSteady self.new }
        ensures steady_fails_only_down { ⟦<MemHost as Outside>⟧.IsSteady self.old → IsErrOf result (Refused record {}) → (⟦<MemHost as Outside>⟧.linking self.old).is_up ≡ false }
        ensures reading_stays { ⟦<MemHost as Outside>⟧.reading self.new ≡ ⟦<MemHost as Outside>⟧.reading self.old }
        ensures writing_stays { ⟦<MemHost as Outside>⟧.writing self.new ≡ ⟦<MemHost as Outside>⟧.writing self.old }
        ensures held_stays { ⟦<MemHost as Outside>⟧.held self.new ≡ ⟦<MemHost as Outside>⟧.held self.old }
        ensures complaints_stay { ⟦<MemHost as Outside>⟧.complaints self.new ≡ ⟦<MemHost as Outside>⟧.complaints self.old }
    {
        let fails = self.failing.fails_now();
        match &mut self.present {
            Some(wire) if !fails => Ok(wire.get(room, self.piece)),
            _ => Err(count_fault(&mut self.link_faults)),
        }
    }

    fn link_faults(&self) -> u64 {
        self.link_faults
    }
}

impl Dock for MemHost {
    /// Every address will do.
    fn dock(&mut self, address: &str) -> Result<(), No<Failed>>
        ensures fails_as_listed { IsErrOf result (Refused record {}) ↔ fails_next (⟦<MemHost as Planned>⟧.plan self.old) ≡ true }
        ensures call_is_counted { ⟦<MemHost as Planned>⟧.plan self.new ≡ counted (⟦<MemHost as Planned>⟧.plan self.old) }
        ensures docked { OnOk result (⟦<MemHost as Outside>⟧.linking self.new ≡ docked_at address.now (⟦<MemHost as Outside>⟧.linking self.old)) }
        ensures unchanged { OnErr result (OnlyFaults (⟦<MemHost as Outside>⟧.linking self.old) (⟦<MemHost as Outside>⟧.linking self.new)) }
        ensures faults_never_fall { (⟦<MemHost as Outside>⟧.linking self.old).faults ≤ (⟦<MemHost as Outside>⟧.linking self.new).faults }
        ensures want_keeps_faults { IsErrOf result Wanting → (⟦<MemHost as Outside>⟧.linking self.new).faults ≡ (⟦<MemHost as Outside>⟧.linking self.old).faults }
        ensures failed_is_counted { IsErrOf result (Refused record {}) → Rose (⟦<MemHost as Outside>⟧.linking self.old).faults (⟦<MemHost as Outside>⟧.linking self.new).faults }
        ensures stays_steady { ⟦<MemHost as Outside>⟧.IsSteady self.old → ⟦<MemHost as Outside>⟧.IsSteady self.new }
        ensures steady_never_fails { ⟦<MemHost as Outside>⟧.IsSteady self.old → ¬ IsErrOf result (Refused record {}) }
        ensures reading_stays { ⟦<MemHost as Outside>⟧.reading self.new ≡ ⟦<MemHost as Outside>⟧.reading self.old }
        ensures writing_stays { ⟦<MemHost as Outside>⟧.writing self.new ≡ ⟦<MemHost as Outside>⟧.writing self.old }
        ensures held_stays { ⟦<MemHost as Outside>⟧.held self.new ≡ ⟦<MemHost as Outside>⟧.held self.old }
        ensures complaints_stay { ⟦<MemHost as Outside>⟧.complaints self.new ≡ ⟦<MemHost as Outside>⟧.complaints self.old }
    {
        if self.failing.fails_now() {
            return Err(count_fault(&mut self.link_faults));
        }
        self.docked = Text::of(self.alloc, address)?;
        Ok(())
    }

    fn accept(&mut self) -> Result<(), No<Failed>>
        ensures fails_as_listed { IsErrOf result (Refused record {}) ↔ (fails_next (⟦<MemHost as Planned>⟧.plan self.old) ≡ true ⊎ (⟦<MemHost as Outside>⟧.linking self.old).peers ≡ Some []) }
        ensures call_is_counted { ⟦<MemHost as Planned>⟧.plan self.new ≡ counted (⟦<MemHost as Planned>⟧.plan self.old) }
        ensures made { OnOk result (⟦<MemHost as Outside>⟧.linking self.new ≡ connected_at (⟦<MemHost as Outside>⟧.linking self.old).docked (⟦<MemHost as Outside>⟧.linking self.old)) }
        ensures none_past_the_last { (⟦<MemHost as Outside>⟧.linking self.old).peers ≡ Some [] → ¬ IsOk result }
        ensures unchanged { OnErr result (OnlyFaults (⟦<MemHost as Outside>⟧.linking self.old) (⟦<MemHost as Outside>⟧.linking self.new)) }
        ensures faults_never_fall { (⟦<MemHost as Outside>⟧.linking self.old).faults ≤ (⟦<MemHost as Outside>⟧.linking self.new).faults }
        ensures want_keeps_faults { IsErrOf result Wanting → (⟦<MemHost as Outside>⟧.linking self.new).faults ≡ (⟦<MemHost as Outside>⟧.linking self.old).faults }
        ensures failed_is_counted { IsErrOf result (Refused record {}) → Rose (⟦<MemHost as Outside>⟧.linking self.old).faults (⟦<MemHost as Outside>⟧.linking self.new).faults }
        ensures stays_steady { ⟦<MemHost as Outside>⟧.IsSteady self.old → ⟦<MemHost as Outside>⟧.IsSteady self.new }
        ensures steady_fails_only_past_the_last { ⟦<MemHost as Outside>⟧.IsSteady self.old → IsErrOf result (Refused record {}) → (⟦<MemHost as Outside>⟧.linking self.old).peers ≡ Some [] }
        ensures reading_stays { ⟦<MemHost as Outside>⟧.reading self.new ≡ ⟦<MemHost as Outside>⟧.reading self.old }
        ensures writing_stays { ⟦<MemHost as Outside>⟧.writing self.new ≡ ⟦<MemHost as Outside>⟧.writing self.old }
        ensures held_stays { ⟦<MemHost as Outside>⟧.held self.new ≡ ⟦<MemHost as Outside>⟧.held self.old }
        ensures complaints_stay { ⟦<MemHost as Outside>⟧.complaints self.new ≡ ⟦<MemHost as Outside>⟧.complaints self.old }
    {
        let address = self.docked.copy(self.alloc);
        self.join(address)
    }

    fn hang_up(&mut self)
        ensures is_no_call { ⟦<MemHost as Planned>⟧.plan self.new ≡ ⟦<MemHost as Planned>⟧.plan self.old }
        ensures over { ⟦<MemHost as Outside>⟧.linking self.new ≡ hung_up (⟦<MemHost as Outside>⟧.linking self.old) }
        ensures stays_steady { ⟦<MemHost as Outside>⟧.IsSteady self.old → ⟦<MemHost as Outside>⟧.IsSteady self.new }
        ensures reading_stays { ⟦<MemHost as Outside>⟧.reading self.new ≡ ⟦<MemHost as Outside>⟧.reading self.old }
        ensures writing_stays { ⟦<MemHost as Outside>⟧.writing self.new ≡ ⟦<MemHost as Outside>⟧.writing self.old }
        ensures held_stays { ⟦<MemHost as Outside>⟧.held self.new ≡ ⟦<MemHost as Outside>⟧.held self.old }
        ensures complaints_stay { ⟦<MemHost as Outside>⟧.complaints self.new ≡ ⟦<MemHost as Outside>⟧.complaints self.old }
    {
        give_up(&mut self.present, &mut self.past);
    }
}

impl Host for MemHost {
    fn pick(&mut self, name: &str) -> Result<(), No<Failed>>
        ensures fails_as_listed { IsErrOf result (Refused record {}) ↔ (fails_next (⟦<MemHost as Planned>⟧.plan self.old) ≡ true ⊎ ⟦<MemHost as Outside>⟧.held self.old name.now ≡ None) }
        ensures call_is_counted { ⟦<MemHost as Planned>⟧.plan self.new ≡ counted (⟦<MemHost as Planned>⟧.plan self.old) }
        ensures bytes { OnOk result ((⟦<MemHost as Outside>⟧.reading self.new).left ≡ ⟦<MemHost as Outside>⟧.held self.old name.now) }
        ensures unchanged { OnErr result ((⟦<MemHost as Outside>⟧.reading self.new).left ≡ (⟦<MemHost as Outside>⟧.reading self.old).left) }
        ensures faults_never_fall { (⟦<MemHost as Outside>⟧.reading self.old).faults ≤ (⟦<MemHost as Outside>⟧.reading self.new).faults }
        ensures ok_keeps_faults { OnOk result ((⟦<MemHost as Outside>⟧.reading self.new).faults ≡ (⟦<MemHost as Outside>⟧.reading self.old).faults) }
        ensures want_keeps_faults { IsErrOf result Wanting → (⟦<MemHost as Outside>⟧.reading self.new).faults ≡ (⟦<MemHost as Outside>⟧.reading self.old).faults }
        ensures failed_is_counted { IsErrOf result (Refused record {}) → Rose (⟦<MemHost as Outside>⟧.reading self.old).faults (⟦<MemHost as Outside>⟧.reading self.new).faults }
        ensures stays_steady { ⟦<MemHost as Outside>⟧.IsSteady self.old → ⟦<MemHost as Outside>⟧.IsSteady self.new }
        ensures steady_fails_only_unheld { ⟦<MemHost as Outside>⟧.IsSteady self.old → IsErrOf result (Refused record {}) → ⟦<MemHost as Outside>⟧.held self.old name.now ≡ None }
        ensures writing_stays { ⟦<MemHost as Outside>⟧.writing self.new ≡ ⟦<MemHost as Outside>⟧.writing self.old }
        ensures linking_stays { ⟦<MemHost as Outside>⟧.linking self.new ≡ ⟦<MemHost as Outside>⟧.linking self.old }
        ensures held_stays { ⟦<MemHost as Outside>⟧.held self.new ≡ ⟦<MemHost as Outside>⟧.held self.old }
        ensures complaints_stay { ⟦<MemHost as Outside>⟧.complaints self.new ≡ ⟦<MemHost as Outside>⟧.complaints self.old }
    {
        let fails = self.failing.fails_now();
        match find(&self.files, name) {
            Some(bytes) if !fails => {
                self.picked = bytes.copy(self.alloc)?;
                self.at = 0;
                Ok(())
            }
            _ => Err(count_fault(&mut self.read_faults)),
        }
    }

    /// Every address will do.
    fn dial(&mut self, address: &str) -> Result<(), No<Failed>>
        ensures fails_as_listed { IsErrOf result (Refused record {}) ↔ (fails_next (⟦<MemHost as Planned>⟧.plan self.old) ≡ true ⊎ (⟦<MemHost as Outside>⟧.linking self.old).peers ≡ Some []) }
        ensures call_is_counted { ⟦<MemHost as Planned>⟧.plan self.new ≡ counted (⟦<MemHost as Planned>⟧.plan self.old) }
        ensures made { OnOk result (⟦<MemHost as Outside>⟧.linking self.new ≡ connected_at (Some address.now) (⟦<MemHost as Outside>⟧.linking self.old)) }
        ensures none_past_the_last { (⟦<MemHost as Outside>⟧.linking self.old).peers ≡ Some [] → ¬ IsOk result }
        ensures unchanged { OnErr result (OnlyFaults (⟦<MemHost as Outside>⟧.linking self.old) (⟦<MemHost as Outside>⟧.linking self.new)) }
        ensures faults_never_fall { (⟦<MemHost as Outside>⟧.linking self.old).faults ≤ (⟦<MemHost as Outside>⟧.linking self.new).faults }
        ensures want_keeps_faults { IsErrOf result Wanting → (⟦<MemHost as Outside>⟧.linking self.new).faults ≡ (⟦<MemHost as Outside>⟧.linking self.old).faults }
        ensures failed_is_counted { IsErrOf result (Refused record {}) → Rose (⟦<MemHost as Outside>⟧.linking self.old).faults (⟦<MemHost as Outside>⟧.linking self.new).faults }
        ensures stays_steady { ⟦<MemHost as Outside>⟧.IsSteady self.old → ⟦<MemHost as Outside>⟧.IsSteady self.new }
        ensures steady_fails_only_past_the_last { ⟦<MemHost as Outside>⟧.IsSteady self.old → IsErrOf result (Refused record {}) → (⟦<MemHost as Outside>⟧.linking self.old).peers ≡ Some [] }
        ensures reading_stays { ⟦<MemHost as Outside>⟧.reading self.new ≡ ⟦<MemHost as Outside>⟧.reading self.old }
        ensures writing_stays { ⟦<MemHost as Outside>⟧.writing self.new ≡ ⟦<MemHost as Outside>⟧.writing self.old }
        ensures held_stays { ⟦<MemHost as Outside>⟧.held self.new ≡ ⟦<MemHost as Outside>⟧.held self.old }
        ensures complaints_stay { ⟦<MemHost as Outside>⟧.complaints self.new ≡ ⟦<MemHost as Outside>⟧.complaints self.old }
    {
        let address = Text::of(self.alloc, address);
        self.join(address)
    }

    fn complain(&mut self, bytes: &[u8])
        ensures is_no_call { ⟦<MemHost as Planned>⟧.plan self.new ≡ ⟦<MemHost as Planned>⟧.plan self.old }
        ensures told { ⟦<MemHost as Outside>⟧.complaints self.new ≡ complained bytes.now (⟦<MemHost as Outside>⟧.complaints self.old) }
        ensures stays_steady { ⟦<MemHost as Outside>⟧.IsSteady self.old → ⟦<MemHost as Outside>⟧.IsSteady self.new }
        ensures reading_stays { ⟦<MemHost as Outside>⟧.reading self.new ≡ ⟦<MemHost as Outside>⟧.reading self.old }
        ensures writing_stays { ⟦<MemHost as Outside>⟧.writing self.new ≡ ⟦<MemHost as Outside>⟧.writing self.old }
        ensures linking_stays { ⟦<MemHost as Outside>⟧.linking self.new ≡ ⟦<MemHost as Outside>⟧.linking self.old }
        ensures held_stays { ⟦<MemHost as Outside>⟧.held self.new ≡ ⟦<MemHost as Outside>⟧.held self.old }
    {
        let room = 4096 - self.complaints.len();
        let count = bytes.len().min(room);
        // it fits the capacity, so this takes no memory and succeeds
        let _ = self.complaints.extend_from_slice(&bytes[..count]);
    }
}

/// The bytes of the first file of that name.
fn find<'a>(files: &'a FileList, name: &str) -> Option<&'a Bytes>
    ensures { option_copied result ≡ held_of files.now name.now }
{
    for file in files.as_slice() {
        if file.name.as_str() == name {
            return Some(&file.bytes);
        }
    }
    None
}

/// Puts the connection at present, if there is one, behind the past ones.
fn give_up(present: &mut Option<Wire>, past: &mut Vec<Wire>)
    requires { IsSome present.old → vec_len past.old < vec_capacity past.old }
    ensures none { present.new ≡ None }
    ensures past { past.new.items ≡ past.old.items ++ option_to_list present.old }
    ensures one_more { vec_len past.new ≤ vec_len past.old + 1 }
    ensures capacity { vec_capacity past.old ≤ vec_capacity past.new }
{
    if let Some(wire) = present.take() {
        // it fits the capacity, so this takes no memory and succeeds
        let _ = past.push(wire);
    }
}
