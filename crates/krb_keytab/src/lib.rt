//! Keytabs: the files that hold the keys of services.
//!
//! A [`Keytab`] is the list of the entries of a file in MIT krb5's format, version 0x0502. It is
//! parsed from bytes or read from a `Source`, and written as bytes. An [`Entry`] is one key of one
//! principal. Entries can also be removed from and added to the bytes of a file in place.
//!
//! ```rust
//! let keytab = Keytab::read(alloc, &mut ReadSource::new(file))?;
//! for entry in keytab.entries() {
//!     let principal = entry.principal().to_text(alloc)?;
//!     let kvno = entry.kvno();
//!     let etype = entry.etype();
//!     println!(rt; "{kvno} {etype} {principal}")?; // 3 20 host/web@EX
//! }
//! ```
#![tactic(auto)]

mod adder;
mod edit;
mod entry;
mod fault;
mod field;
mod finding;
mod found;
mod holes;
mod key_bytes;
mod key_index;
mod keytab;
pub mod laws;
mod layout;
mod listed;
mod part;
mod pick;
mod reader;
mod stage;
mod step;
mod usable;
mod view;
mod writing;

pub use adder::EntryAdder;
pub use entry::Entry;
pub use fault::KeytabFault;
pub use key_index::KeyIndex;
pub use keytab::Keytab;
pub use pick::Picked;
pub use reader::EntryReader;
