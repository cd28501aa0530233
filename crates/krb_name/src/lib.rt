//! Kerberos names.
//!
//! A [`Principal`] is a realm, a name type and components (RFC 4120, sections 5.2.2 and 6). It
//! reports whether another one has the same name, writes itself as text and is read from text. A
//! [`NamedList`] finds the items of a name without reading the others.
//!
//! The sources, sinks and cursors of krb_file can be named here, too.
//!
//! ```rust
//! let mut components = Components::new(alloc);
//! components.push(b"host")?;
//! components.push(b"web")?;
//! let principal = Principal {
//!     realm: Bytes::from_slice(alloc, b"EX")?,
//!     name_type: 3,
//!     components,
//! };
//! let text = principal.to_text(alloc)?; // host/web@EX
//! ```
#![tactic(auto)]

mod bytes;
mod components;
pub mod laws;
mod named_list;
mod principal;
mod sought_name;
mod text;
mod text_cursor;
mod text_fault;

pub use bytes::Bytes;
pub use components::{Components, ComponentsIter};
pub use krb_file::{
    FILE_LIMIT, FileCursor, PieceSink, PieceSource, ReadFault, ReadSource, Short, Sink, SinkFailed,
    SliceSource, Source, SourceFailed, Window, WriteSink, write_all,
};
pub use named_list::{Named, NamedList, NamedListBuilder};
pub use principal::Principal;
pub use sought_name::SoughtName;
pub use text_fault::TextFault;
