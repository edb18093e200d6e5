//! Calls that are to fail, by their numbers.
ghost use Rattle.std.specs.Prelude.{◌≡◌, ℕ, ◌+◌, ◌≤◌, List, true, false, min, ◌^◌, ◌-◌};
ghost use Rattle.sr_io.specs.Fails.{NoneAbove, Plan, fails_after};

use sr_cell::list::Seq;
use std::marker::Model;

/// The numbers of the calls that are to fail. The first call is number 1.
pub type Fails = Seq<u64>;

/// What a form in memory tells of its calls.
pub trait Planned {
    /// The numbers of the calls that are to fail, the calls so far, and how many bytes one moves at most.
    ghost plan: { Self → Plan };
}

/// Counts calls and those of them that failed. Contracts see the numbers, the calls and the failures.
#[derive(Drop)]
pub struct Failing {
    numbers: Fails,
    calls: u64,
    faults: u64,
}

impl Model for Failing {
    ghost use Rattle.std.specs.Prelude.{ℕ, List, ◌≤◌};

    ghost Value = { List ℕ × ℕ × ℕ };

    ghost view = { λ f. (f.numbers, f.calls, f.faults) };

    ghost invariant = { λ f. f.faults ≤ f.calls };
}

impl Failing {
    /// Before the first call.
    pub fn new(numbers: Fails) -> Failing
        ensures { result ≡ (numbers, 0, 0) }
    {
        Failing {
            numbers,
            calls: 0,
            faults: 0,
        }
    }

    /// How many calls failed.
    pub fn faults(&self) -> u64
        ensures { result ≡ self.now.2 }
    {
        self.faults
    }

    /// Counts one call, and tells whether it fails.
    pub fn fails_now(&mut self) -> bool
        ensures exact { result ≡ fails_after self.old.0 self.old.1 }
        ensures numbers { self.new.0 ≡ self.old.0 }
        ensures calls { self.new.1 ≡ min (self.old.1 + 1) (2 ^ 64 - 1) }
        ensures failure_is_counted { result ≡ true → self.new.2 ≡ self.old.2 + 1 }
        ensures success_keeps_count { result ≡ false → self.new.2 ≡ self.old.2 }
        ensures steady_never_fails { NoneAbove self.old.0 self.old.1 → result ≡ false }
        ensures stays_steady { NoneAbove self.old.0 self.old.1 → NoneAbove self.new.0 self.new.1 }
        ensures calls_never_fall { self.old.1 ≤ self.new.1 }
    {
        match self.calls.checked_add(1) {
            None => false,
            Some(call) => {
                self.calls = call;
                let fails = self.numbers.as_slice().contains(&call);
                if fails {
                    self.faults += 1;
                }
                fails
            }
        }
    }
}
