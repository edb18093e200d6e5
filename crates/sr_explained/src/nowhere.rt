//! A sink that keeps nothing.
ghost use Rattle.std.specs.Prelude.{None, ⊤};
ghost use Rattle.sr_io.specs.Told.{no_reading, no_writing, no_linking};

use sr_cell::list::No;
use sr_io::outside::{Failed, Outside, Sink};

/// Takes all bytes and throws them away; it never fails.
#[derive(Drop)]
pub struct Nowhere;

impl Outside for Nowhere {
    ghost reading = { λ _. no_reading };

    ghost writing = { λ _. no_writing };

    ghost linking = { λ _. no_linking };

    ghost held = { λ _ _. None };

    ghost complaints = { λ _. None };

    ghost IsSteady = { λ _. ⊤ };
}

impl Sink for Nowhere {
    fn write(&mut self, bytes: &[u8]) -> Result<usize, No<Failed>> {
        Ok(bytes.len())
    }

    fn write_faults(&self) -> u64 {
        0
    }
}
