//! The block cipher AES with keys of 128 and 256 bits, both ways (FIPS 197).
//!
//! A `KeySchedule` is made from a key, and encrypts or decrypts blocks of 16 bytes in place:
//!
//! ```text
//! let schedule = KeySchedule::new_128(&key);
//! schedule.encrypt_block(&mut block);
//! schedule.decrypt_block(&mut block);
//! ```
//!
//! The contracts use the definitions `cipher` and `inv_cipher` of `specs/Cipher`, which are the
//! standard's CIPHER and INVCIPHER over the field of the bytes. They also say that each direction
//! undoes the other. In a clause a `KeySchedule` is the list of its key's bytes. No call allocates
//! memory, fails, or puts a condition on its arguments.
//!
//! Blocks are processed on 16 lanes. `plain` has the same calls on one block, byte by byte and
//! under the same contracts. `laws` has what holds for all keys and blocks.
#![tactic(auto)]

mod expansion;
mod lanes;
pub mod laws;
pub mod plain;
mod prepared_keys;
mod schedule;
mod tables;
mod tower;

pub use schedule::KeySchedule;
