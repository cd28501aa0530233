//! Cipher block chaining with ciphertext stealing over AES, with an initial vector of zeros: the
//! encryption of RFC 3962, section 5, which RFC 8009, section 5, adopts.
//!
//! `encrypt` and `decrypt` work in place on a text of at least 16 bytes, and keep its length.
//! `decrypt_after_first` decrypts into another slice, without the first 16 bytes:
//!
//! ```text
//! let schedule = KeySchedule::new_128(&key);
//! krb_cts::encrypt(&schedule, &mut text);
//! krb_cts::decrypt_after_first(&schedule, &text, &mut plain);
//! krb_cts::decrypt(&schedule, &mut text);
//! ```
//!
//! The contracts use the definitions `cts` of `specs/Stealing` and `undo` of `specs/Undo`, and say
//! that `encrypt` and `decrypt` undo each other. No call allocates memory or fails. `laws` has what
//! holds for all keys and texts.
#![tactic(auto)]

mod after_first;
mod block;
mod chain;
pub mod laws;
mod stealing;

pub use after_first::decrypt_after_first;
pub use stealing::{decrypt, encrypt};
