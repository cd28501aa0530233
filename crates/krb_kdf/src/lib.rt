//! HMAC with SHA-256 and SHA-384 (RFC 2104), and the keys that the Kerberos encryption types
//! aes128-cts-hmac-sha256-128 (19) and aes256-cts-hmac-sha384-192 (20) derive from a base key
//! (RFC 8009).
//!
//! ```rust
//! use krb_kdf::{
//!     HmacSha256, MacPurpose, Purpose, derive_19, derive_20, derive_20_ke, hmac_sha256,
//! };
//!
//! // The text may come in parts, as `header` and `body` of one message.
//! let code: [u8; 32] = hmac_sha256(b"key", &[header, body]);
//!
//! // The keys of key usage 2, which seals tickets.
//! let ke: [u8; 16] = derive_19(&base_key, 2, Purpose::Ke);
//! let ki: [u8; 16] = derive_19(&base_key, 2, Purpose::Ki);
//! let ke: [u8; 32] = derive_20_ke(&long_base_key, 2);
//! let ki: [u8; 24] = derive_20(&long_base_key, 2, MacPurpose::Ki);
//!
//! // A key made ready once gives many codes, or many keys, for half the work.
//! let ready = HmacSha256::new(&base_key);
//! let ke: [u8; 16] = ready.derive_19(2, Purpose::Ke);
//! ```
//!
//! No call refuses its arguments or allocates memory.
#![tactic(auto)]

mod block_hash;
mod derive;
mod hmac;
mod laws;
mod purpose;

pub use derive::{derive_19, derive_20, derive_20_ke};
pub use hmac::{HmacSha256, HmacSha384, hmac_sha256, hmac_sha384};
pub use laws::{derived_key_lengths, hmac_lengths};
pub use purpose::{MacPurpose, Purpose};
