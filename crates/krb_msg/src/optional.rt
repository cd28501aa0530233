//! Optional texts, octets and sequence numbers of messages, as they are read, copied and written.

ghost use Rattle.std.specs.Prelude.{◌≡◌, IfOk};
ghost use Rattle.std.specs.Option.{option_map};

use krb_der::{Octets, SeqNumber, Text};
use krb_name::Bytes;
use std::alloc::{AllocError, Global};

/// A copy of the text, if there is one.
pub(crate) fn owned_text(alloc: Global, text: &Option<&[u8]>) -> Result<Option<Bytes>, AllocError>
    ensures { IfOk result (λ made. made ≡ option_map (λ x. x.now) text.now) }
{
    text.map(|text| Bytes::from_slice(alloc, text)).transpose()
}

/// The text that was read.
pub(crate) fn text_bytes<'a>(text: Option<Text<'a>>) -> Option<&'a [u8]>
    ensures { option_map (λ x. x.now) result ≡ option_map (λ t. t.0.now) text.entry }
{
    text.map(|text| text.0)
}

/// The text to be written.
pub(crate) fn text_in(text: &Option<Bytes>) -> Option<Text<'_>>
    ensures { option_map (λ t. t.0.now) result ≡ text.now }
{
    text.as_ref().map(|text| Text(text.as_slice()))
}

/// The octets that were read.
pub(crate) fn octets_bytes<'a>(octets: Option<Octets<'a>>) -> Option<&'a [u8]>
    ensures { option_map (λ x. x.now) result ≡ option_map (λ o. o.0.now) octets.entry }
{
    octets.map(|octets| octets.0)
}

/// A copy of the octets, if they are there.
pub(crate) fn owned_octets(
    alloc: Global,
    bytes: &Option<&[u8]>,
) -> Result<Option<Vec<u8>>, AllocError>
    ensures { IfOk result (λ made. option_map (λ x. x.items) made ≡ option_map (λ x. x.now) bytes.now) }
{
    bytes.map(|bytes| bytes.to_vec(alloc)).transpose()
}

/// The octets to be written.
pub(crate) fn octets_in(octets: &Option<Vec<u8>>) -> Option<Octets<'_>>
    ensures { option_map (λ o. o.0.now) result ≡ option_map (λ x. x.items) octets.now }
{
    octets.as_ref().map(|octets| Octets(octets.as_slice()))
}

/// The number that was read.
pub(crate) fn seq_number_of(read: Option<SeqNumber>) -> Option<u32>
    ensures { result ≡ option_map (λ s. s.0) read }
{
    read.map(|number| number.0)
}

/// The number to be written.
pub(crate) fn seq_number_in(number: Option<u32>) -> Option<SeqNumber>
    ensures { option_map (λ s. s.0) result ≡ number }
{
    number.map(|number| SeqNumber(number))
}
