//! Why reading stops.
ghost use Rattle.std.specs.Prelude.{◌≡◌};
ghost use Rattle.sr_agg.specs.declared.stop.Stop.TheVariants.{Memory};

use sr_cell::list::NoMemory;
use std::alloc::{AllocError, AllocFailed};

/// No aggregate has the next token there; or memory was refused.
#[derive(Clone, Copy)]
pub(crate) enum Stop {
    Grammar,
    Memory,
}

impl From<AllocError> for Stop {
    ghost from_gives = { λ _ e. e ≡ Memory };

    fn from(_error: AllocError) -> Stop {
        Stop::Memory
    }
}

impl<T: Drop> From<AllocFailed<T>> for Stop {
    ghost from_gives = { λ _ e. e ≡ Memory };

    fn from(_failed: AllocFailed<T>) -> Stop {
        Stop::Memory
    }
}

impl From<NoMemory> for Stop {
    ghost from_gives = { λ _ e. e ≡ Memory };

    fn from(_want: NoMemory) -> Stop {
        Stop::Memory
    }
}
