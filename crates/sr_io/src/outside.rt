//! The traits of the outside.
ghost use Rattle.std.specs.Prelude.{◌≡◌, ℕ, ◌+◌, ◌-◌, ◌^◌, min, ◌<◌, ◌≤◌, List, [], length, take, Option, Some, None, false, OnOk, OnErr, IfOk, IsOk, IsErrOf};
ghost use Rattle.std.specs.Io.{ReadsAtMost};
ghost use Rattle.std.specs.Io.KnownBytes.{ReadConsumes, WriteAppends};
ghost use Rattle.sr_cell.specs.declared.list.No.TheVariants.{Refused, NoMemory as Wanting};
ghost use Rattle.sr_io.specs.Causes.{Rose};
ghost use Rattle.sr_io.specs.Told.{Reading, Writing, Linking, OnlyFaults, Brings, IsOver, sent_on, taken_from, connected_at, docked_at, hung_up, complained};

use sr_cell::list::No;

/// A call of the outside failed.
#[derive(Clone, Copy, Debug, PartialEq, Eq)]
pub struct Failed;

/// Counts a call that failed, and gives its refusal.
pub(crate) fn count_fault(faults: &mut u64) -> No<Failed>
    ensures refused { result ≡ Refused record {} }
    ensures counted { faults.new ≡ min (faults.old + 1) (2 ^ 64 - 1) }
    ensures never_falls { faults.old ≤ faults.new }
{
    *faults = faults.saturating_add(1);
    No::Refused(Failed)
}

/// What an object of the outside tells of itself.
pub trait Outside {
    /// What is read: the bytes left, where they are told, and the faults counted.
    ghost reading: { Self → Reading };

    /// What is written: the bytes so far, where they are told, and the faults counted.
    ghost writing: { Self → Writing };

    /// What is linked: the connections, where they are told, and the faults counted.
    ghost linking: { Self → Linking };

    /// The bytes of each name that it holds and tells.
    ghost held: { Self → List ℕ → Option (List ℕ) };

    /// What the error output was given, where that is told.
    ghost complaints: { Self → Option (List ℕ) };

    /// No call fails from now on, but for what cannot be had.
    ghost IsSteady: { Self → Type 0 };
}

/// Bytes to be read.
pub trait Source: Outside {
    /// Reads some of the bytes left into the start of `room`, and answers how many; 0 only at the end.
    fn read(&mut self, room: &mut [u8]) -> Result<usize, No<Failed>>
        requires { 0 < length room.old }
        ensures fits_room { ReadsAtMost result room.new }
        ensures bytes { ReadConsumes (Self.reading self.old).left (Self.reading self.new).left result room.new }
        ensures faults_never_fall { (Self.reading self.old).faults ≤ (Self.reading self.new).faults }
        ensures ok_keeps_faults { OnOk result ((Self.reading self.new).faults ≡ (Self.reading self.old).faults) }
        ensures want_keeps_faults { IsErrOf result Wanting → (Self.reading self.new).faults ≡ (Self.reading self.old).faults }
        ensures failed_is_counted { IsErrOf result (Refused record {}) → Rose (Self.reading self.old).faults (Self.reading self.new).faults }
        ensures stays_steady { Self.IsSteady self.old → Self.IsSteady self.new }
        ensures steady_never_fails { Self.IsSteady self.old → ¬ IsErrOf result (Refused record {}) }
        ensures writing_stays { Self.writing self.new ≡ Self.writing self.old }
        ensures linking_stays { Self.linking self.new ≡ Self.linking self.old }
        ensures held_stays { Self.held self.new ≡ Self.held self.old }
        ensures complaints_stay { Self.complaints self.new ≡ Self.complaints self.old };

    /// The count of the faults of reading and picking; it stops at 2^64 - 1.
    fn read_faults(&self) -> u64
        ensures { result ≡ (Self.reading self.now).faults };
}

/// Where bytes are written.
pub trait Sink: Outside {
    /// Writes a prefix of `bytes`, one byte at least, and answers how many.
    fn write(&mut self, bytes: &[u8]) -> Result<usize, No<Failed>>
        requires { 0 < length bytes.now }
        ensures some_bytes { IfOk result (λ n. (0 < n) × (n ≤ length bytes.now)) }
        ensures bytes { WriteAppends (Self.writing self.old).written (Self.writing self.new).written result bytes.now }
        ensures faults_never_fall { (Self.writing self.old).faults ≤ (Self.writing self.new).faults }
        ensures ok_keeps_faults { OnOk result ((Self.writing self.new).faults ≡ (Self.writing self.old).faults) }
        ensures want_keeps_faults { IsErrOf result Wanting → (Self.writing self.new).faults ≡ (Self.writing self.old).faults }
        ensures failed_is_counted { IsErrOf result (Refused record {}) → Rose (Self.writing self.old).faults (Self.writing self.new).faults }
        ensures stays_steady { Self.IsSteady self.old → Self.IsSteady self.new }
        ensures steady_never_fails { Self.IsSteady self.old → ¬ IsErrOf result (Refused record {}) }
        ensures reading_stays { Self.reading self.new ≡ Self.reading self.old }
        ensures linking_stays { Self.linking self.new ≡ Self.linking self.old }
        ensures held_stays { Self.held self.new ≡ Self.held self.old }
        ensures complaints_stay { Self.complaints self.new ≡ Self.complaints self.old };

    /// The count of the faults of writing; it stops at 2^64 - 1.
    fn write_faults(&self) -> u64
        ensures { result ≡ (Self.writing self.now).faults };
}

/// A connection over which bytes are sent and received.
pub trait Link: Outside {
    /// Sends a prefix of `bytes`, one byte at least, and answers how many; fails without a connection.
    fn send(&mut self, bytes: &[u8]) -> Result<usize, No<Failed>>
        requires { 0 < length bytes.now }
        ensures some_bytes { IfOk result (λ n. (0 < n) × (n ≤ length bytes.now)) }
        ensures sent { IfOk result (λ n. Self.linking self.new ≡ sent_on (take n bytes.now) (Self.linking self.old)) }
        ensures unchanged { OnErr result (OnlyFaults (Self.linking self.old) (Self.linking self.new)) }
        ensures fails_without_connection { (Self.linking self.old).is_up ≡ false → IsErrOf result (Refused record {}) }
        ensures faults_never_fall { (Self.linking self.old).faults ≤ (Self.linking self.new).faults }
        ensures want_keeps_faults { IsErrOf result Wanting → (Self.linking self.new).faults ≡ (Self.linking self.old).faults }
        ensures failed_is_counted { IsErrOf result (Refused record {}) → Rose (Self.linking self.old).faults (Self.linking self.new).faults }
        ensures stays_steady { Self.IsSteady self.old → Self.IsSteady self.new }
        ensures steady_fails_only_down { Self.IsSteady self.old → IsErrOf result (Refused record {}) → (Self.linking self.old).is_up ≡ false }
        ensures reading_stays { Self.reading self.new ≡ Self.reading self.old }
        ensures writing_stays { Self.writing self.new ≡ Self.writing self.old }
        ensures held_stays { Self.held self.new ≡ Self.held self.old }
        ensures complaints_stay { Self.complaints self.new ≡ Self.complaints self.old };

    /// Takes some of the bytes to come into the start of `room`, and answers how many; 0 only where the connection has ended.
    /// Fails without a connection.
    fn recv(&mut self, room: &mut [u8]) -> Result<usize, No<Failed>>
        requires { 0 < length room.old }
        ensures fits_room { ReadsAtMost result room.new }
        ensures taken { IfOk result (λ n. Self.linking self.new ≡ taken_from (take n room.new) (Self.linking self.old)) }
        ensures brought { IfOk result (λ n. Brings (Self.linking self.old).present (take n room.new)) }
        ensures over { IfOk result (λ n. n ≡ 0 → IsOver (Self.linking self.old).present) }
        ensures unchanged { OnErr result (OnlyFaults (Self.linking self.old) (Self.linking self.new)) }
        ensures fails_without_connection { (Self.linking self.old).is_up ≡ false → IsErrOf result (Refused record {}) }
        ensures faults_never_fall { (Self.linking self.old).faults ≤ (Self.linking self.new).faults }
        ensures want_keeps_faults { IsErrOf result Wanting → (Self.linking self.new).faults ≡ (Self.linking self.old).faults }
        ensures failed_is_counted { IsErrOf result (Refused record {}) → Rose (Self.linking self.old).faults (Self.linking self.new).faults }
        ensures stays_steady { Self.IsSteady self.old → Self.IsSteady self.new }
        ensures steady_fails_only_down { Self.IsSteady self.old → IsErrOf result (Refused record {}) → (Self.linking self.old).is_up ≡ false }
        ensures reading_stays { Self.reading self.new ≡ Self.reading self.old }
        ensures writing_stays { Self.writing self.new ≡ Self.writing self.old }
        ensures held_stays { Self.held self.new ≡ Self.held self.old }
        ensures complaints_stay { Self.complaints self.new ≡ Self.complaints self.old };

    /// The count of the faults of sending, receiving and connecting; it stops at 2^64 - 1.
    fn link_faults(&self) -> u64
        ensures { result ≡ (Self.linking self.now).faults };
}

/// A link that takes connections of peers, one after another.
pub trait Dock: Link {
    /// From now on peers may connect to this address.
    fn dock(&mut self, address: &str) -> Result<(), No<Failed>>
        ensures docked { OnOk result (Self.linking self.new ≡ docked_at address.now (Self.linking self.old)) }
        ensures unchanged { OnErr result (OnlyFaults (Self.linking self.old) (Self.linking self.new)) }
        ensures faults_never_fall { (Self.linking self.old).faults ≤ (Self.linking self.new).faults }
        ensures want_keeps_faults { IsErrOf result Wanting → (Self.linking self.new).faults ≡ (Self.linking self.old).faults }
        ensures failed_is_counted { IsErrOf result (Refused record {}) → Rose (Self.linking self.old).faults (Self.linking self.new).faults }
        ensures stays_steady { Self.IsSteady self.old → Self.IsSteady self.new }
        ensures steady_never_fails { Self.IsSteady self.old → ¬ IsErrOf result (Refused record {}) }
        ensures reading_stays { Self.reading self.new ≡ Self.reading self.old }
        ensures writing_stays { Self.writing self.new ≡ Self.writing self.old }
        ensures held_stays { Self.held self.new ≡ Self.held self.old }
        ensures complaints_stay { Self.complaints self.new ≡ Self.complaints self.old };

    /// Waits for the next peer at the docked address; from now on its connection is used. Fails past the last peer.
    fn accept(&mut self) -> Result<(), No<Failed>>
        ensures made { OnOk result (Self.linking self.new ≡ connected_at (Self.linking self.old).docked (Self.linking self.old)) }
        ensures none_past_the_last { (Self.linking self.old).peers ≡ Some [] → ¬ IsOk result }
        ensures unchanged { OnErr result (OnlyFaults (Self.linking self.old) (Self.linking self.new)) }
        ensures faults_never_fall { (Self.linking self.old).faults ≤ (Self.linking self.new).faults }
        ensures want_keeps_faults { IsErrOf result Wanting → (Self.linking self.new).faults ≡ (Self.linking self.old).faults }
        ensures failed_is_counted { IsErrOf result (Refused record {}) → Rose (Self.linking self.old).faults (Self.linking self.new).faults }
        ensures stays_steady { Self.IsSteady self.old → Self.IsSteady self.new }
        ensures steady_fails_only_past_the_last { Self.IsSteady self.old → IsErrOf result (Refused record {}) → (Self.linking self.old).peers ≡ Some [] }
        ensures reading_stays { Self.reading self.new ≡ Self.reading self.old }
        ensures writing_stays { Self.writing self.new ≡ Self.writing self.old }
        ensures held_stays { Self.held self.new ≡ Self.held self.old }
        ensures complaints_stay { Self.complaints self.new ≡ Self.complaints self.old };

    /// Ends the connection, where there is one; takes no memory.
    fn hang_up(&mut self)
        ensures over { Self.linking self.new ≡ hung_up (Self.linking self.old) }
        ensures stays_steady { Self.IsSteady self.old → Self.IsSteady self.new }
        ensures reading_stays { Self.reading self.new ≡ Self.reading self.old }
        ensures writing_stays { Self.writing self.new ≡ Self.writing self.old }
        ensures held_stays { Self.held self.new ≡ Self.held self.old }
        ensures complaints_stay { Self.complaints self.new ≡ Self.complaints self.old };
}

/// A source, a sink and a dock, with files that are read by their names, peers to dial and an error output.
pub trait Host: Source + Sink + Dock {
    /// From now on reads what is held under the name, from its start. It counts as a call of `Source`.
    /// A host that tells what it reads and holds fails at a name that it does not hold.
    fn pick(&mut self, name: &str) -> Result<(), No<Failed>>
        ensures bytes { OnOk result ((Self.reading self.new).left ≡ Self.held self.old name.now) }
        ensures unchanged { OnErr result ((Self.reading self.new).left ≡ (Self.reading self.old).left) }
        ensures faults_never_fall { (Self.reading self.old).faults ≤ (Self.reading self.new).faults }
        ensures ok_keeps_faults { OnOk result ((Self.reading self.new).faults ≡ (Self.reading self.old).faults) }
        ensures want_keeps_faults { IsErrOf result Wanting → (Self.reading self.new).faults ≡ (Self.reading self.old).faults }
        ensures failed_is_counted { IsErrOf result (Refused record {}) → Rose (Self.reading self.old).faults (Self.reading self.new).faults }
        ensures stays_steady { Self.IsSteady self.old → Self.IsSteady self.new }
        ensures steady_fails_only_unheld { Self.IsSteady self.old → IsErrOf result (Refused record {}) → Self.held self.old name.now ≡ None }
        ensures writing_stays { Self.writing self.new ≡ Self.writing self.old }
        ensures linking_stays { Self.linking self.new ≡ Self.linking self.old }
        ensures held_stays { Self.held self.new ≡ Self.held self.old }
        ensures complaints_stay { Self.complaints self.new ≡ Self.complaints self.old };

    /// Connects to this address; from now on that connection is used. It counts as a call of `Dock`; fails past the last peer.
    fn dial(&mut self, address: &str) -> Result<(), No<Failed>>
        ensures made { OnOk result (Self.linking self.new ≡ connected_at (Some address.now) (Self.linking self.old)) }
        ensures none_past_the_last { (Self.linking self.old).peers ≡ Some [] → ¬ IsOk result }
        ensures unchanged { OnErr result (OnlyFaults (Self.linking self.old) (Self.linking self.new)) }
        ensures faults_never_fall { (Self.linking self.old).faults ≤ (Self.linking self.new).faults }
        ensures want_keeps_faults { IsErrOf result Wanting → (Self.linking self.new).faults ≡ (Self.linking self.old).faults }
        ensures failed_is_counted { IsErrOf result (Refused record {}) → Rose (Self.linking self.old).faults (Self.linking self.new).faults }
        ensures stays_steady { Self.IsSteady self.old → Self.IsSteady self.new }
        ensures steady_fails_only_past_the_last { Self.IsSteady self.old → IsErrOf result (Refused record {}) → (Self.linking self.old).peers ≡ Some [] }
        ensures reading_stays { Self.reading self.new ≡ Self.reading self.old }
        ensures writing_stays { Self.writing self.new ≡ Self.writing self.old }
        ensures held_stays { Self.held self.new ≡ Self.held self.old }
        ensures complaints_stay { Self.complaints self.new ≡ Self.complaints self.old };

    /// Says the bytes on the error output. What does not fit or cannot be said is dropped; takes no memory.
    fn complain(&mut self, bytes: &[u8])
        ensures told { Self.complaints self.new ≡ complained bytes.now (Self.complaints self.old) }
        ensures stays_steady { Self.IsSteady self.old → Self.IsSteady self.new }
        ensures reading_stays { Self.reading self.new ≡ Self.reading self.old }
        ensures writing_stays { Self.writing self.new ≡ Self.writing self.old }
        ensures linking_stays { Self.linking self.new ≡ Self.linking self.old }
        ensures held_stays { Self.held self.new ≡ Self.held self.old };
}
