//! The Kerberos encryption types aes128-cts-hmac-sha256-128 (19) and aes256-cts-hmac-sha384-192
//! (20): sealing, opening and checksums (RFC 8009).
//!
//! ```text
//! let key = Key::new(19, &bytes)?;
//! let sealed = key.seal(alloc, 2, &confounder, b"plain")?;
//! let plain = key.open(alloc, 2, &sealed)?;
//! let tag = key.checksum(6, b"text");
//!
//! // Many texts of one usage: its keys are derived once.
//! let tickets = key.for_usage(2);
//! let sealed = tickets.seal(alloc, &confounder, b"plain")?;
//! let plain = tickets.open(alloc, &sealed)?;
//!
//! // Into slices, without allocating memory.
//! let sealed_len = tickets.seal_to(&confounder, b"plain", &mut text)?;
//! let plain_len = tickets.open_to(&text[..sealed_len], &mut buffer)?;
//!
//! // In place: 16 bytes before the plain text and a tag after it.
//! tickets.seal_in_place(&confounder, &mut text[..sealed_len])?;
//! tickets.open_in_place(&mut text[..sealed_len])?;
//!
//! // Checksums of one usage, of texts in parts.
//! let tag = key.for_checksums(6).checksum(&[header, body]);
//! ```
//!
//! The number before the confounder or the text is the key usage (RFC 4120, section 7.5.1). The
//! caller passes the confounder: 16 random bytes, new for each call. [`etype`] has the names of the
//! encryption types.
//!
//! The contracts speak of the definitions of `specs/Sealed` and `specs/Opens`: a text opens to a
//! plain text if some confounder seals the plain text to it. `laws` has what holds for all keys and
//! texts. `Debug` prints no key.
#![tactic(auto)]

mod checksum_key;
mod derived;
mod enctype;
pub mod etype;
mod fault;
mod key;
mod key_bytes;
pub mod laws;
mod profiles;
mod tag;
mod texts;
mod usage_key;

pub use checksum_key::ChecksumKey;
pub use enctype::Enctype;
pub use fault::{KeyFault, NotSealed, OpenFault, OpenToFault, ShortSlice};
pub use key::Key;
pub use profiles::{Sha256Aes128, Sha384Aes256};
pub use tag::Tag;
pub use usage_key::UsageKey;
