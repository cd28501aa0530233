//! Credential caches: the files that hold a client's tickets.
//!
//! A [`CCache`] is the value of a file in MIT krb5's format, version 0x0503 or 0x0504: the fields
//! of its header, its default principal and its credentials. It is parsed from bytes, read from a
//! `Source` or made from its parts, and written as bytes of version 0x0504. A [`CredentialReader`]
//! returns the credentials one at a time, and holds the bytes of one at a time. A [`Credential`] is
//! a ticket with its session key, or a configuration entry.
//!
//! ```rust
//! let cache = CCache::read(alloc, &mut ReadSource::new(file))?;
//! let default = cache.default_principal().to_text(alloc)?;
//! println!(rt; "default {default}")?; // default alice@EX
//! for credential in cache.credentials() {
//!     if !CCache::is_configuration(credential) {
//!         let server = credential.server.to_text(alloc)?;
//!         let endtime = credential.endtime;
//!         println!(rt; "{endtime} {server}")?; // 1700036000 host/web@EX
//!     }
//! }
//! ```
#![tactic(auto)]

mod cache;
mod checking;
mod configuration;
mod credential;
mod fault;
mod field;
mod header;
mod item_fault;
mod items;
mod key_type;
pub mod laws;
mod layout;
mod leading;
mod part;
mod reader;
mod row;
mod stepping;
mod typed;
mod walking;
mod writing;

pub use cache::CCache;
pub use credential::{Credential, HeaderField};
pub use fault::CacheFault;
pub use reader::CredentialReader;
pub use typed::{TypedBytes, TypedList};
