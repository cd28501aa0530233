//! A place in the bytes of a file, where fields are read.

ghost use Rattle.std.specs.Prelude.{◌≡◌, ◌+◌, ◌<◌, ◌^◌, ◌==◌, IfOk, OnErr, None, Some, length};
ghost use Rattle.std.specs.Int.{w8, w16, w32};
ghost use Rattle.krb_file.specs.Cursor.{Place, bytes_at, number_at, signed_at, data_at};

use std::marker::Model;
use thiserror::Error;

/// The bytes end before the field does.
#[derive(Clone, Copy, Debug, PartialEq, Eq, Error)]
#[error("the bytes end too early")]
pub struct Short;

/// A place in the bytes of a file: its offset from their start, and the bytes from there on.
///
/// Each call reads the field that begins here, and moves past it. Numbers are big-endian. If the
/// bytes end before the field does, a call returns `Short` and the place is unchanged. No call
/// allocates memory: what is read borrows the bytes.
#[derive(Drop)]
pub struct FileCursor<'a> {
    at: usize,
    rest: &'a [u8],
}

impl<'a> Model for FileCursor<'a> {
    ghost Value = { Place };

    ghost view = { λ c. record { at = c.at; rest = c.rest.now } };

    ghost invariant = { λ c. c.at + length c.rest.now < 2 ^ 64 };
}

impl<'a> FileCursor<'a> {
    /// Starts at the first of `bytes`, at offset 0.
    pub fn new(bytes: &'a [u8]) -> Self
        ensures { result ≡ record { at = 0; rest = bytes.now } }
    {
        FileCursor { at: 0, rest: bytes }
    }

    /// Returns how many bytes come before this place.
    pub fn at(&self) -> usize
        ensures { result ≡ self.now.at }
    {
        self.at
    }

    /// Returns the bytes from here to the end.
    pub fn rest(&self) -> &'a [u8]
        ensures { result.now ≡ self.now.rest }
    {
        self.rest
    }

    /// Returns whether no byte is left.
    pub fn is_at_end(&self) -> bool
        ensures { result ≡ (length self.now.rest == 0) }
    {
        self.rest.is_empty()
    }

    /// Reads the next `count` bytes, and returns them without a copy.
    #[tactic(auto, unfolding(crate::specs::Cursor::bytes_at))]
    pub fn read_bytes(&mut self, count: usize) -> Result<&'a [u8], Short>
        ensures read { IfOk result (λ bytes. bytes_at count self.old ≡ Some (bytes.now, self.new)) }
        ensures length { IfOk result (λ bytes. length bytes.now ≡ count) }
        ensures short { OnErr result (bytes_at count self.old ≡ None) }
        ensures err { OnErr result (self.new ≡ self.old) }
    {
        if self.rest.len() < count {
            return Err(Short);
        }
        let (bytes, rest) = self.rest.split_at(count);
        self.at += count;
        self.rest = rest;
        Ok(bytes)
    }

    /// Reads an unsigned number of one byte.
    #[tactic(auto, unfolding(crate::specs::Cursor::number_at))]
    pub fn read_u8(&mut self) -> Result<u8, Short>
        ensures read { IfOk result (λ number. number_at w8 self.old ≡ Some (number, self.new)) }
        ensures short { OnErr result (number_at w8 self.old ≡ None) }
        ensures err { OnErr result (self.new ≡ self.old) }
    {
        let bytes = self.read_bytes(1)?;
        Ok(bytes[0])
    }

    /// Reads an unsigned number of two bytes.
    #[tactic(auto, unfolding(crate::specs::Cursor::number_at))]
    pub fn read_u16(&mut self) -> Result<u16, Short>
        ensures read { IfOk result (λ number. number_at w16 self.old ≡ Some (number, self.new)) }
        ensures short { OnErr result (number_at w16 self.old ≡ None) }
        ensures err { OnErr result (self.new ≡ self.old) }
    {
        let bytes = self.read_bytes(2)?;
        Ok(u16::from_be_bytes([bytes[0], bytes[1]]))
    }

    /// Reads an unsigned number of four bytes.
    #[tactic(auto, unfolding(crate::specs::Cursor::number_at))]
    pub fn read_u32(&mut self) -> Result<u32, Short>
        ensures read { IfOk result (λ number. number_at w32 self.old ≡ Some (number, self.new)) }
        ensures short { OnErr result (number_at w32 self.old ≡ None) }
        ensures err { OnErr result (self.new ≡ self.old) }
    {
        let bytes = self.read_bytes(4)?;
        Ok(u32::from_be_bytes([bytes[0], bytes[1], bytes[2], bytes[3]]))
    }

    /// Reads a signed number of two bytes, in two's complement.
    #[tactic(auto, unfolding(crate::specs::Cursor::signed_at))]
    pub fn read_i16(&mut self) -> Result<i16, Short>
        ensures read { IfOk result (λ number. signed_at w16 self.old ≡ Some (number, self.new)) }
        ensures short { OnErr result (signed_at w16 self.old ≡ None) }
        ensures err { OnErr result (self.new ≡ self.old) }
    {
        Ok(self.read_u16()?.cast_signed())
    }

    /// Reads a signed number of four bytes, in two's complement.
    #[tactic(auto, unfolding(crate::specs::Cursor::signed_at))]
    pub fn read_i32(&mut self) -> Result<i32, Short>
        ensures read { IfOk result (λ number. signed_at w32 self.old ≡ Some (number, self.new)) }
        ensures short { OnErr result (signed_at w32 self.old ≡ None) }
        ensures err { OnErr result (self.new ≡ self.old) }
    {
        Ok(self.read_u32()?.cast_signed())
    }

    /// Reads bytes after their length, a number of two bytes, and returns them without a copy.
    #[tactic(auto, unfolding(crate::specs::Cursor::data_at))]
    pub fn read_data16(&mut self) -> Result<&'a [u8], Short>
        ensures read { IfOk result (λ bytes. data_at w16 self.old ≡ Some (bytes.now, self.new)) }
        ensures short { OnErr result (data_at w16 self.old ≡ None) }
        ensures err { OnErr result (self.new ≡ self.old) }
    {
        let mut ahead = self.copied();
        let count = ahead.read_u16()?;
        let bytes = ahead.read_bytes(usize::from(count))?;
        *self = ahead;
        Ok(bytes)
    }

    /// Reads bytes after their length, a number of four bytes, and returns them without a copy.
    #[tactic(auto, unfolding(crate::specs::Cursor::data_at))]
    pub fn read_data32(&mut self) -> Result<&'a [u8], Short>
        ensures read { IfOk result (λ bytes. data_at w32 self.old ≡ Some (bytes.now, self.new)) }
        ensures short { OnErr result (data_at w32 self.old ≡ None) }
        ensures err { OnErr result (self.new ≡ self.old) }
    {
        let mut ahead = self.copied();
        let count = ahead.read_u32()?;
        let bytes = ahead.read_bytes(count as usize)?;
        *self = ahead;
        Ok(bytes)
    }

    // A second cursor at this place.
    fn copied(&self) -> FileCursor<'a>
        ensures { result ≡ self.now }
    {
        FileCursor {
            at: self.at,
            rest: self.rest,
        }
    }
}
