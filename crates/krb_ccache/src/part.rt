//! The parts of a cache: whether they fit into a file, how many bytes they take, and how they are written.

ghost use Rattle.std.specs.Prelude.{◌≡◌, ◌<◌, ◌^◌, ◌++◌, ℕ, true, List, All, MatchBool, OnOk, length};
ghost use Rattle.std.specs.Int.{w32};
ghost use Rattle.std.specs.List.{flat_map};
ghost use Rattle.krb_file.specs.Cursor.{data_bytes};
ghost use Rattle.krb_ccache.specs.Spelling.{field_bytes, name_bytes, typed_bytes, list_bytes, credential_bytes};
ghost use Rattle.krb_ccache.specs.Value.{HasNameLengths, HasListLengths, HasCredentialLengths, FitsName, FitsList, FitsCredential};
ghost use Rattle.krb_ccache.specs.Inner.Reading.{is_field};
ghost use Rattle.krb_ccache.specs.Inner.Standing.{FitsField, Leaves};

use crate::credential::{Credential, HeaderField};
use crate::header::{OFFSET_LENGTH, OFFSET_TAG};
use crate::typed::{TypedBytes, TypedList};
use crate::writing::{write_bytes, write_u16, write_u32};
use krb_name::{Bytes, Principal};
use std::alloc::AllocError;

// The greatest count or length of a field of 16 bits, and of one of 32.
pub(crate) const MOST_16: usize = 65_535;

const MOST_32: usize = 4_294_967_295;

/// A part of a cache, as version 0x0504 has it.
pub(crate) trait Part {
    /// What is written of it.
    ghost spelled: { Self → List ℕ };

    /// Whether its counts and lengths fit into the format.
    ghost Fits: { Self → Type 0 };

    /// Whether its numbers do too, as those of each part in memory do.
    ghost InRange: { Self → Type 0 };

    /// Returns whether it fits.
    fn fits(&self) -> bool
        ensures { MatchBool result (InRange self.now) (¬ Fits self.now) };

    /// Returns how many of `left` bytes it leaves over, or `None` if it has more bytes than that.
    fn behind(&self, left: usize) -> Option<usize>
        ensures { Leaves left (length (spelled self.now)) result };

    /// Writes it after what was written before.
    fn write(&self, out: &mut Vec<u8>) -> Result<(), AllocError>
        requires { Fits self.now }
        ensures { OnOk result (out.new.items ≡ out.old.items ++ spelled self.now) };
}

#[tactic(auto, using(crate::proofs::FitsLaws::one_more, crate::proofs::FitsLaws::all_seen))]
pub(crate) fn fits_each<T: Part>(parts: &[T]) -> bool
    ensures { MatchBool result (All T.InRange parts.now) (¬ All T.Fits parts.now) }
{
    for part in parts {
        if !part.fits() {
            return false;
        }
    }
    true
}

#[tactic(auto, using(crate::proofs::RoomLaws::goes_on, crate::proofs::RoomLaws::walked))]
pub(crate) fn behind_each<T: Part>(left: usize, parts: &[T]) -> Option<usize>
    ensures { Leaves left (length (flat_map T.spelled parts.now)) result }
{
    let mut rest = left;
    for part in parts {
        rest = part.behind(rest)?;
    }
    Some(rest)
}

#[tactic(auto, using(crate::proofs::FitsLaws::spelled_more))]
pub(crate) fn write_each<T: Part>(out: &mut Vec<u8>, parts: &[T]) -> Result<(), AllocError>
    requires { All T.Fits parts.now }
    ensures { OnOk result (out.new.items ≡ out.old.items ++ flat_map T.spelled parts.now) }
{
    for part in parts {
        part.write(out)?;
    }
    Ok(())
}

impl Part for Bytes {
    ghost spelled = { data_bytes w32 };

    ghost Fits = { λ bytes. length bytes < 2 ^ 32 };

    ghost InRange = { λ bytes. length bytes < 2 ^ 32 };

    fn fits(&self) -> bool {
        self.len() <= MOST_32
    }

    #[tactic(auto, using(crate::proofs::RoomLaws::sizes))]
    fn behind(&self, left: usize) -> Option<usize> {
        left.checked_sub(4)?.checked_sub(self.len())
    }

    fn write(&self, out: &mut Vec<u8>) -> Result<(), AllocError> {
        write_u32(out, self.len() as u32)?;
        out.extend_from_slice(self.as_slice())
    }
}

impl Part for Principal {
    ghost spelled = { name_bytes };

    ghost Fits = { HasNameLengths };

    ghost InRange = { FitsName };

    fn fits(&self) -> bool {
        let _name_type = self.name_type;
        let _spelled = self.components.spelled();
        self.components.len() <= MOST_32 && self.realm.fits()
    }

    #[tactic(auto, using(crate::proofs::RoomLaws::sizes))]
    fn behind(&self, left: usize) -> Option<usize> {
        let rest = self.realm.behind(left.checked_sub(8)?)?;
        rest.checked_sub(self.components.spelled().len())
    }

    fn write(&self, out: &mut Vec<u8>) -> Result<(), AllocError> {
        write_u32(out, self.name_type.cast_unsigned())?;
        write_u32(out, self.components.len() as u32)?;
        self.realm.write(out)?;
        write_bytes(out, self.components.spelled())
    }
}

impl Part for TypedBytes {
    ghost spelled = { typed_bytes };

    ghost Fits = { λ element. length element.bytes < 2 ^ 32 };

    ghost InRange = { λ element. (element.kind < 2 ^ 16) × (length element.bytes < 2 ^ 32) };

    fn fits(&self) -> bool {
        let _kind = self.kind;
        self.bytes.fits()
    }

    #[tactic(auto, using(crate::proofs::RoomLaws::sizes))]
    fn behind(&self, left: usize) -> Option<usize> {
        self.bytes.behind(left.checked_sub(2)?)
    }

    fn write(&self, out: &mut Vec<u8>) -> Result<(), AllocError> {
        write_u16(out, self.kind)?;
        self.bytes.write(out)
    }
}

impl Part for TypedList {
    ghost spelled = { list_bytes };

    ghost Fits = { HasListLengths };

    ghost InRange = { FitsList };

    fn fits(&self) -> bool {
        self.len() <= MOST_32 && fits_each(self.as_slice())
    }

    #[tactic(auto, using(crate::proofs::RoomLaws::sizes))]
    fn behind(&self, left: usize) -> Option<usize> {
        behind_each(left.checked_sub(4)?, self.as_slice())
    }

    fn write(&self, out: &mut Vec<u8>) -> Result<(), AllocError> {
        write_u32(out, self.len() as u32)?;
        write_each(out, self.as_slice())
    }
}

// Whether a field of tag 1 has 8 bytes.
fn has_offset_length(field: &HeaderField) -> bool
    ensures tag { field.now.tag < 2 ^ 16 }
    ensures length { result ≡ is_field field.now }
{
    field.tag != OFFSET_TAG || field.value.len() == OFFSET_LENGTH
}

impl Part for HeaderField {
    ghost spelled = { field_bytes };

    ghost Fits = { λ field. (length field.value < 2 ^ 16) × (is_field field ≡ true) };

    ghost InRange = { FitsField };

    fn fits(&self) -> bool {
        self.value.len() <= MOST_16 && has_offset_length(self)
    }

    #[tactic(auto, using(crate::proofs::RoomLaws::sizes))]
    fn behind(&self, left: usize) -> Option<usize> {
        left.checked_sub(4)?.checked_sub(self.value.len())
    }

    fn write(&self, out: &mut Vec<u8>) -> Result<(), AllocError> {
        write_u16(out, self.tag)?;
        write_u16(out, self.value.len() as u16)?;
        out.extend_from_slice(self.value.as_slice())
    }
}

impl Part for Credential {
    ghost spelled = { credential_bytes };

    ghost Fits = { HasCredentialLengths };

    ghost InRange = { FitsCredential };

    fn fits(&self) -> bool {
        self.row().fits()
    }

    fn behind(&self, left: usize) -> Option<usize> {
        self.row().behind(left)
    }

    fn write(&self, out: &mut Vec<u8>) -> Result<(), AllocError> {
        self.row().write(out)
    }
}
