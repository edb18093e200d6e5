//! Sums that are brought into 64 bits once, at their end.
ghost use Rattle.std.specs.Prelude.{◌≡◌, ◌<◌, ◌^◌};
ghost use Rattle.sr_agg.specs.Groups.{nearest};
ghost use Rattle.sr_agg.specs.Tallies.{told_of_total};
ghost use Rattle.sr_agg.specs.Totals.{none_yet, with_number};

use sr_cell::cell::Cell;
use std::marker::Model;

/// The sum of so many numbers.
#[derive(Drop)]
pub(crate) struct Total {
    sum: i128,
    count: u64,
}

impl Model for Total {
    ghost use Rattle.sr_agg.specs.Totals.{Total as TheTotal, IsNear};

    ghost Value = { TheTotal };

    ghost view = { λ t. record { sum = t.sum; count = t.count } };

    ghost invariant = { λ t. IsNear (record { sum = t.sum; count = t.count }) };
}

/// The nearest number of 64 bits.
pub(crate) fn nearest(number: i128) -> i64
    ensures { result ≡ nearest number }
{
    if number <= i64::MIN as i128 {
        return i64::MIN;
    }
    if number >= i64::MAX as i128 {
        return i64::MAX;
    }
    number as i64
}

impl Total {
    /// The sum of no numbers.
    pub(crate) fn new() -> Total
        ensures { result ≡ none_yet }
    {
        Total { sum: 0, count: 0 }
    }

    /// Adds one number.
    pub(crate) fn add(&mut self, number: i64)
        requires { self.old.count < 2 ^ 63 }
        ensures { self.new ≡ with_number self.old number }
    {
        self.sum += number as i128;
        self.count += 1;
    }

    /// The sum, or the nearest number of 64 bits; of no numbers None.
    pub(crate) fn told(&self) -> Option<Cell>
        ensures { result ≡ told_of_total self.now }
    {
        if self.count == 0 {
            return None;
        }
        Some(Cell::Num(nearest(self.sum)))
    }
}
