//! Keytabs and credential caches as tables for people to read.
//!
//! [`readable_keytab`] and [`readable_ccache`] return the text of a table: a first row that names the
//! columns, then a row for each entry or credential, in the order of the file. Encryption types are
//! shown by name, times as dates in UTC, and a ticket's flags as letters.
//!
//! Each cell but the last of a row is filled with spaces to the width of the widest cell of its
//! column, up to 256, and two spaces follow. The width of a cell is its number of Unicode scalar
//! values. Each row ends in a line feed.
//!
//! [`enctype_name`], [`enctype_number`] and [`enctype_called`] are the registry of encryption types, [`Named`] is a
//! row of such a registry, [`head_lines`] the first lines of a cache, and [`Text`] a text of a page: other crates that
//! print for people use them too.
//!
//! ```rust
//! let keytab = Keytab::read(alloc, &mut ReadSource::new(file))?;
//! let text = readable_keytab(alloc, &keytab)?;
//! print!(rt; "{text}")?;
//! // KVNO  ENCTYPE                     TIMESTAMP             PRINCIPAL
//! // 3     aes128-cts-hmac-sha256-128  2023-11-14T22:13:20Z  host/web@EX
//! ```
#![tactic(auto)]

mod cache;
mod cell;
mod date;
mod enctype;
mod flags;
mod keytab;
pub mod laws;
mod named;
mod row;
mod table;
mod text;
mod time;

pub use cache::{head_lines, readable_ccache};
pub use enctype::{enctype_called, enctype_name, enctype_number};
pub use keytab::readable_keytab;
pub use named::{Named, name_in, number_called, number_in};
pub use text::Text;
