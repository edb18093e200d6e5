//! Fields, read from the front of bytes.
ghost use Rattle.std.specs.Prelude.{◌≡◌, ℕ, List, true, false, int_le, not, IsErr};
ghost use Rattle.std.specs.Int.{w16, w32, w64};
ghost use Rattle.std.specs.Str.{is_utf8};
ghost use Rattle.sr_bytes.specs.Reading.{passing, a_byte, a_number, a_signed, a_text, bytes_that, any_bytes};
ghost use Rattle.sr_bytes.specs.Spelling.{is_from_to};
ghost use Rattle.sr_bytes.specs.Views.{Reads};
ghost use Rattle.sr_cell.specs.Cells.{text_le};

use sr_cell::cell::is_text_at_most;
use std::marker::Model;
use std::str;

/// The bytes that are left to read.
#[derive(Drop)]
pub struct Cursor<'a> {
    left: &'a [u8],
}

impl<'a> Model for Cursor<'a> {
    ghost use Rattle.std.specs.Prelude.{List, ℕ};

    ghost Value = { List ℕ };

    ghost view = { λ c. c.left.now };
}

/// A field that breaks its rule or leaves the bytes. The cursor stands before its first byte.
#[derive(Clone, Copy)]
pub struct BadField;

impl<'a> Cursor<'a> {
    /// Before the first of these bytes.
    pub fn over(bytes: &'a [u8]) -> Cursor<'a>
        ensures { result ≡ bytes.now }
    {
        Cursor { left: bytes }
    }

    /// The bytes that are left.
    pub fn left(&self) -> &'a [u8]
        ensures { result.now ≡ self.now }
    {
        self.left
    }

    /// The next byte.
    pub fn byte(&mut self) -> Result<u8, BadField>
        ensures { Reads (λ byte. byte) result self.new (a_byte self.old) }
    {
        match self.left {
            [] => Err(BadField),
            [byte, rest @ ..] => {
                self.left = rest;
                Ok(*byte)
            }
        }
    }

    /// A value that was read, if it is good; else the cursor goes back to where it was before.
    fn keep_if<T: Drop>(&mut self, good: bool, value: T, before: &'a [u8]) -> Result<T, BadField>
        ensures kept { good ≡ true → (result ≡ Ok value) × (self.new ≡ self.old) }
        ensures back { good ≡ false → IsErr result × (self.new ≡ before.now) }
    {
        if good {
            return Ok(value);
        }
        self.left = before;
        Err(BadField)
    }

    /// A byte from `low` to `high`.
    pub fn byte_in(&mut self, low: u8, high: u8) -> Result<u8, BadField>
        ensures { Reads (λ byte. byte) result self.new (passing (is_from_to low high) a_byte self.old) }
    {
        let before = self.left;
        let byte = self.byte()?;
        self.keep_if(low <= byte && byte <= high, byte, before)
    }

    /// The next bytes, so many.
    fn front(&mut self, count: usize) -> Result<&'a [u8], BadField>
        ensures { Reads (λ bytes. bytes.now) result self.new (bytes_that any_bytes count self.old) }
    {
        if self.left.len() < count {
            return Err(BadField);
        }
        let (front, rest) = self.left.split_at(count);
        self.left = rest;
        Ok(front)
    }

    /// A number of four bytes.
    pub fn u32(&mut self) -> Result<u32, BadField>
        ensures { Reads (λ number. number) result self.new (a_number w32 self.old) }
    {
        let bytes = self.front(4)?;
        Ok(u32::from_be_bytes([bytes[0], bytes[1], bytes[2], bytes[3]]))
    }

    /// A number of four bytes from `low` to `high`.
    pub fn u32_in(&mut self, low: u32, high: u32) -> Result<u32, BadField>
        ensures { Reads (λ number. number) result self.new (passing (is_from_to low high) (a_number w32) self.old) }
    {
        let before = self.left;
        let number = self.u32()?;
        self.keep_if(low <= number && number <= high, number, before)
    }

    fn u16(&mut self) -> Result<u16, BadField>
        ensures { Reads (λ number. number) result self.new (a_number w16 self.old) }
    {
        let bytes = self.front(2)?;
        Ok(u16::from_be_bytes([bytes[0], bytes[1]]))
    }

    /// A number of two bytes from `low` to `high`.
    pub fn u16_in(&mut self, low: u16, high: u16) -> Result<u16, BadField>
        ensures { Reads (λ number. number) result self.new (passing (is_from_to low high) (a_number w16) self.old) }
    {
        let before = self.left;
        let number = self.u16()?;
        self.keep_if(low <= number && number <= high, number, before)
    }

    /// A number of eight bytes.
    pub fn u64(&mut self) -> Result<u64, BadField>
        ensures { Reads (λ number. number) result self.new (a_number w64 self.old) }
    {
        let bytes = self.front(8)?;
        Ok(u64::from_be_bytes([
            bytes[0], bytes[1], bytes[2], bytes[3], bytes[4], bytes[5], bytes[6], bytes[7],
        ]))
    }

    /// A whole number of eight bytes, a negative one as two's complement.
    pub fn i64(&mut self) -> Result<i64, BadField>
        ensures { Reads (λ number. number) result self.new (a_signed self.old) }
    {
        Ok(self.u64()?.cast_signed())
    }

    /// A whole number that is at least `lo`.
    pub fn i64_from(&mut self, lo: i64) -> Result<i64, BadField>
        ensures { Reads (λ number. number) result self.new (passing (int_le lo) a_signed self.old) }
    {
        let before = self.left;
        let number = self.i64()?;
        self.keep_if(lo <= number, number, before)
    }

    /// A byte of length from `low` to `high`, and that many bytes.
    pub fn bytes_in(&mut self, low: u8, high: u8) -> Result<&'a [u8], BadField>
        ensures { Reads (λ bytes. bytes.now) result self.new (a_text low high any_bytes self.old) }
    {
        let length = self.byte_in(low, high)?;
        self.front(length as usize)
    }

    /// A byte of length up to `high`, and that many bytes, as a text above `lo`.
    pub fn bytes_above(&mut self, high: u8, lo: &[u8]) -> Result<&'a [u8], BadField>
        ensures { Reads (λ bytes. bytes.now) result self.new (passing (λ hi. not (text_le hi lo.now)) (a_text 0 high any_bytes) self.old) }
    {
        let before = self.left;
        let bytes = self.bytes_in(0, high)?;
        self.keep_if(!is_text_at_most(bytes, lo), bytes, before)
    }

    /// The next bytes, so many, as a text.
    pub fn utf8(&mut self, count: usize) -> Result<&'a str, BadField>
        ensures { Reads (λ text. text.now) result self.new (bytes_that is_utf8 count self.old) }
    {
        let before = self.left;
        let bytes = self.front(count)?;
        match str::from_utf8(bytes) {
            Ok(text) => Ok(text),
            Err(_) => {
                self.left = before;
                Err(BadField)
            }
        }
    }

    /// A byte of length up to `high`, and that many bytes of UTF-8.
    pub fn text(&mut self, high: u8) -> Result<&'a str, BadField>
        ensures { Reads (λ text. text.now) result self.new (a_text 0 high is_utf8 self.old) }
    {
        let length = self.byte_in(0, high)?;
        self.utf8(length as usize)
    }
}
