//! The header of a cache.

ghost use Rattle.std.specs.Prelude.{◌≡◌, ◌<◌, ◌^◌, List, Err, None, Some, IfOk, OnErr, length, [], ◌∷◌, ◌++◌, OnOk};
ghost use Rattle.krb_file.specs.Field.{IsBytes};
ghost use Rattle.krb_ccache.specs.Types.{HeaderField as HeaderFieldValue};
ghost use Rattle.krb_ccache.specs.Spelling.{header_bytes};
ghost use Rattle.krb_ccache.specs.Value.{FitsHeader};
ghost use Rattle.krb_ccache.specs.Inner.Reading.{field_at};
ghost use Rattle.krb_ccache.specs.Inner.Standing.{Lies, IsMissing, Fills};

use crate::credential::HeaderField;
use crate::item_fault::ItemFault;
use krb_file::{FileCursor, Short};
use krb_name::Bytes;
use std::alloc::{AllocError, Global};
use std::marker::Model;

// The tag of the KDC's clock offset, and how many bytes it has.
pub(crate) const OFFSET_TAG: u16 = 1;

pub(crate) const OFFSET_LENGTH: usize = 8;

/// Reads the header that begins here, and moves past it.
#[tactic(auto, using(crate::proofs::HeaderLaws::header_lies, crate::proofs::HeaderLaws::header_cut, crate::proofs::HeaderLaws::header_wrong))]
pub(crate) fn read_header(
    alloc: Global,
    cursor: &mut FileCursor<'_>,
) -> Result<Vec<HeaderField>, ItemFault>
    requires { IsBytes cursor.old.rest }
    ensures read { IfOk result (λ header.
        Lies header_bytes FitsHeader cursor.old header.items cursor.new) }
    ensures missing { result ≡ Err ItemFault.Missing
        → IsMissing header_bytes FitsHeader cursor.old.rest }
{
    let body = cursor.read_data16()?;
    read_fields(alloc, body)
}

// Reads the fields that fill the bytes of a header.
#[tactic(auto, using(crate::proofs::HeaderLaws::not_filled))]
fn read_fields(alloc: Global, body: &[u8]) -> Result<Vec<HeaderField>, ItemFault>
    requires { length body.now < 2 ^ 16 }
    ensures read { IfOk result (λ header. Fills body.now header.items) }
    ensures missing { result ≡ Err ItemFault.Missing
        → (header : List HeaderFieldValue) → ¬ Fills body.now header }
{
    let mut cursor = FileCursor::new(body);
    let mut header = Vec::new(alloc);
    while !cursor.is_at_end() {
        let field = read_field(&mut cursor)?;
        field.copy_to(alloc, &mut header)?;
    }
    Ok(header)
}

/// Moves past the header that begins here.
#[tactic(auto, using(crate::proofs::HeaderLaws::header_lies, crate::proofs::HeaderLaws::header_cut, crate::proofs::HeaderLaws::header_wrong))]
pub(crate) fn check_header(cursor: &mut FileCursor<'_>) -> Result<(), Short>
    requires { IsBytes cursor.old.rest }
    ensures ok { OnOk result ((header : List HeaderFieldValue)
        × Lies header_bytes FitsHeader cursor.old header cursor.new) }
    ensures missing { OnErr result (IsMissing header_bytes FitsHeader cursor.old.rest) }
{
    let body = cursor.read_data16()?;
    check_fields(body)?;
    Ok(())
}

// Returns `Ok` if fields fill the bytes of a header.
#[tactic(auto, using(crate::proofs::HeaderLaws::start_of, crate::proofs::HeaderLaws::not_filled))]
fn check_fields(body: &[u8]) -> Result<(), Short>
    requires { length body.now < 2 ^ 16 }
    ensures ok { OnOk result ((header : List HeaderFieldValue) × Fills body.now header) }
    ensures missing { OnErr result ((header : List HeaderFieldValue) → ¬ Fills body.now header) }
{
    let mut cursor = FileCursor::new(body);
    while !cursor.is_at_end() {
        read_field(&mut cursor)?;
    }
    Ok(())
}

// Reads the field that begins here, and moves past it. On an error the position is unspecified.
#[tactic(auto, unfolding(crate::specs::Inner::Reading::field_at))]
pub(crate) fn read_field<'a>(cursor: &mut FileCursor<'a>) -> Result<FieldView<'a>, Short>
    ensures read { IfOk result (λ field. field_at cursor.old ≡ Some (field, cursor.new)) }
    ensures short { OnErr result (field_at cursor.old ≡ None) }
{
    let tag = cursor.read_u16()?;
    let value = cursor.read_data16()?;
    if tag == OFFSET_TAG && value.len() != OFFSET_LENGTH {
        return Err(Short);
    }
    Ok(FieldView { tag, value })
}

/// A field of the header that borrows the bytes of a file; nothing of it has been copied.
#[derive(Drop)]
pub(crate) struct FieldView<'a> {
    tag: u16,
    value: &'a [u8],
}

impl<'a> Model for FieldView<'a> {
    ghost Value = { HeaderFieldValue };

    ghost view = { λ f. record { tag = f.tag; value = f.value.now } };
}

impl<'a> FieldView<'a> {
    /// Appends a copy of the field to a header.
    fn copy_to(&self, alloc: Global, header: &mut Vec<HeaderField>) -> Result<(), AllocError>
        ensures { OnOk result (header.new.items ≡ header.old.items ++ self.now ∷ []) }
    {
        let value = Bytes::from_slice(alloc, self.value)?;
        let tag = self.tag;
        Ok(header.push(HeaderField { tag, value })?)
    }
}
