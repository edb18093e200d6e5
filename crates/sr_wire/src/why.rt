//! The numbers of reasons.
ghost use Rattle.std.specs.Prelude.{◌≡◌, ◌-◌, slice_index_or, IsTrue};
ghost use Rattle.sr_bytes.specs.Spelling.{is_from_to};
ghost use Rattle.sr_cell.specs.declared.fault.Why.TheVariants.{LongText};
ghost use Rattle.sr_wire.specs.Kinds.{reasons, why_byte};

use sr_cell::fault::Why;

/// The number of a reason, from 1 on.
pub fn byte_of(why: Why) -> u8
    ensures { result ≡ why_byte why }
{
    match why {
        Why::LongText => 1,
        Why::BadToken => 2,
        Why::Grammar => 3,
        Why::Deep => 4,
        Why::UnknownTable => 5,
        Why::UnknownColumn => 6,
        Why::Ambiguous => 7,
        Why::WrongType => 8,
        Why::OutOfDomain => 9,
        Why::NotKeyJoin => 10,
        Why::Repeated => 11,
        Why::WrongCount => 12,
        Why::Mixed => 13,
        Why::TooWide => 14,
        Why::TooManyTables => 15,
        Why::NotAWrite => 16,
        Why::NotAQuery => 17,
        Why::DuplicateKey => 18,
        Why::DomainCell => 19,
        Why::LongCell => 20,
        Why::KeyChange => 21,
        Why::TableFull => 22,
        Why::TooManyChanges => 23,
        Why::DuplicateName => 24,
        Why::TooManyColumns => 25,
        Why::NoKey => 26,
        Why::BadDomain => 27,
        Why::BadHeader => 28,
        Why::BadRecord => 29,
        Why::BadNumber => 30,
        Why::BadUtf8 => 31,
        Why::BadNull => 32,
        Why::NullCell => 33,
    }
}

/// The reason of that number.
pub fn why_of(byte: u8) -> Why
    requires { IsTrue (is_from_to 1 33 byte) }
    ensures { result ≡ slice_index_or reasons (byte - 1) LongText }
{
    match byte {
        2 => Why::BadToken,
        3 => Why::Grammar,
        4 => Why::Deep,
        5 => Why::UnknownTable,
        6 => Why::UnknownColumn,
        7 => Why::Ambiguous,
        8 => Why::WrongType,
        9 => Why::OutOfDomain,
        10 => Why::NotKeyJoin,
        11 => Why::Repeated,
        12 => Why::WrongCount,
        13 => Why::Mixed,
        14 => Why::TooWide,
        15 => Why::TooManyTables,
        16 => Why::NotAWrite,
        17 => Why::NotAQuery,
        18 => Why::DuplicateKey,
        19 => Why::DomainCell,
        20 => Why::LongCell,
        21 => Why::KeyChange,
        22 => Why::TableFull,
        23 => Why::TooManyChanges,
        24 => Why::DuplicateName,
        25 => Why::TooManyColumns,
        26 => Why::NoKey,
        27 => Why::BadDomain,
        28 => Why::BadHeader,
        29 => Why::BadRecord,
        30 => Why::BadNumber,
        31 => Why::BadUtf8,
        32 => Why::BadNull,
        33 => Why::NullCell,
        _ => Why::LongText,
    }
}
