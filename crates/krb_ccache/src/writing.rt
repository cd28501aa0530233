//! Writing numbers and the header of a cache after what was written before, and whether the header
//! fits into a file.

ghost use Rattle.std.specs.Prelude.{◌≡◌, ◌++◌, MatchBool, OnOk, length};
ghost use Rattle.std.specs.Int.{w16, w32};
ghost use Rattle.krb_file.specs.Cursor.{number_bytes};
ghost use Rattle.krb_ccache.specs.Spelling.{header_bytes};
ghost use Rattle.krb_ccache.specs.Inner.Standing.{Leaves};
ghost use Rattle.krb_ccache.specs.Value.{HasHeaderLengths, FitsHeader};

use crate::credential::HeaderField;
use crate::part::{MOST_16, behind_each, fits_each, write_each};
use byteorder::{BigEndian, ByteOrder};
use std::alloc::AllocError;

/// Writes bytes after what was written before.
pub(crate) fn write_bytes(out: &mut Vec<u8>, bytes: &[u8]) -> Result<(), AllocError>
    ensures { OnOk result (out.new.items ≡ out.old.items ++ bytes.now) }
{
    out.extend_from_slice(bytes)
}

pub(crate) fn write_u16(out: &mut Vec<u8>, number: u16) -> Result<(), AllocError>
    ensures { OnOk result (out.new.items ≡ out.old.items ++ number_bytes w16 number) }
{
    let mut bytes = [0u8; 2];
    BigEndian::write_u16(&mut bytes, number);
    out.extend_from_slice(&bytes)
}

pub(crate) fn write_u32(out: &mut Vec<u8>, number: u32) -> Result<(), AllocError>
    ensures { OnOk result (out.new.items ≡ out.old.items ++ number_bytes w32 number) }
{
    let mut bytes = [0u8; 4];
    BigEndian::write_u32(&mut bytes, number);
    out.extend_from_slice(&bytes)
}

pub(crate) fn write_header(out: &mut Vec<u8>, header: &[HeaderField]) -> Result<(), AllocError>
    requires { HasHeaderLengths header.now }
    ensures { OnOk result (out.new.items ≡ out.old.items ++ header_bytes header.now) }
{
    let mut fields = Vec::new(*out.allocator());
    write_each(&mut fields, header)?;
    write_u16(out, fields.len() as u16)?;
    out.extend_from_slice(&fields)
}

/// Returns whether the header fits into a file.
pub(crate) fn header_fits(header: &[HeaderField]) -> bool
    ensures { MatchBool result (FitsHeader header.now) (¬ HasHeaderLengths header.now) }
{
    fits_each(header) && behind_each(MOST_16, header).is_some()
}

/// Returns how many of `left` bytes the header leaves over, or `None` if it has more bytes than that.
#[tactic(auto, using(crate::proofs::RoomLaws::sizes))]
pub(crate) fn behind_header(left: usize, header: &[HeaderField]) -> Option<usize>
    ensures { Leaves left (length (header_bytes header.now)) result }
{
    behind_each(left.checked_sub(2)?, header)
}
