//! Why words are not read.
use sr_cell::list::NoMemory;

/// Why words are not read.
#[derive(Clone, Copy)]
pub enum WordsFault {
    /// They are in the form of no command.
    NotInForm,
    /// Memory was refused.
    NoMemory,
}

impl From<NoMemory> for WordsFault {
    ghost use Rattle.std.specs.Prelude.{◌≡◌};
    ghost use Rattle.sr_words.specs.declared.fault.WordsFault.TheVariants.{NoMemory as Wanting};

    ghost from_gives = { λ _ fault. fault ≡ Wanting };

    fn from(_want: NoMemory) -> WordsFault {
        WordsFault::NoMemory
    }
}
