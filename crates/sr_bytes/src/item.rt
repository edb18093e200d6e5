//! Items that stand one behind the other.
ghost use Rattle.std.specs.Prelude.{◌≡◌, List, [], ◌++◌, option_to_list, IfNone};
ghost use Rattle.std.specs.Option.{option_map};
ghost use Rattle.sr_bytes.specs.Reading.{Reader, many, items};
ghost use Rattle.sr_bytes.specs.Views.{Reads};

use crate::cursor::{BadField, Cursor};

/// What a list of bytes may have one behind the other.
pub trait Item<'a>: Sized + Drop {
    /// What contracts see in an item.
    type Seen;

    /// How an item is read.
    ghost reader: { Reader Self.Seen };

    /// What is seen in this item.
    ghost seen: { Self → Self.Seen };

    /// The item in front. The cursor stands behind it then, or before what is at fault.
    fn read(bytes: &mut Cursor<'a>) -> Result<Self, BadField>
        ensures { Reads seen result bytes.new (reader bytes.old) };
}

/// The next of so many items, or None where none is left.
pub fn next_item<'a, T: Item<'a>>(left: &mut u32, bytes: &mut Cursor<'a>) -> Option<T>
    ensures first { items T.reader left.old bytes.old ≡ option_to_list (option_map T.seen result) ++ items T.reader left.new bytes.new }
    ensures end { IfNone result (items T.reader left.old bytes.old ≡ []) }
{
    if *left == 0 {
        return None;
    }
    match T::read(bytes) {
        Ok(item) => {
            *left -= 1;
            Some(item)
        }
        Err(BadField) => {
            *left = 0;
            None
        }
    }
}

/// Passes over so many items.
pub fn skip_items<'a, T: Item<'a>>(bytes: &mut Cursor<'a>, count: u32) -> Result<(), BadField>
    ensures { Reads (λ _. items T.reader count bytes.old) result bytes.new (many T.reader count bytes.old) }
{
    for _ in 0..count {
        T::read(bytes)?;
    }
    Ok(())
}
