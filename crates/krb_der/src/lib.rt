//! DER (X.690) as Kerberos uses it (RFC 4120, section 5.1): reading with a [`Cursor`], writing with
//! a [`Writer`], and whole messages.
//!
//! A kind of element is a value of `specs::Kind`, a schema that reads like a module of ASN.1.
//! `specs::Spells` says which bytes spell which value of a kind, and `specs::Fault` what is wrong
//! with other bytes, and at which offset. Times are whole seconds of the years 0000 to 9999 in Zulu
//! time, flags have 32 bits, numbers are below 2^32, and a message has at most 1,048,576 bytes.
//!
//! - Call by call. Reading: `Cursor::new`; `enter(tag)` and `optional(tag)` for the content of an
//!   element with parts; `int32` and similar calls for an element without parts; `finish` at the
//!   end of each content. Writing: `Writer::new`; the calls of the same names; and
//!   `wrap(tag, start)` around what was written from `start` on.
//! - As rows of fields. A type with [`Element`] names its kind, and its `read` asks
//!   `cursor.sequence()` for a row, nested pairs of [`Field`] and [`Maybe`]. It takes the row apart
//!   field by field, as by `let (Field::<0xa0, i32>(number), row) = row;`, and the row's type
//!   follows from these lines. If the checker refuses `?` after `sequence`, match on the result. If
//!   the type has [`Message`] too, [`parse`] reads it. If the type has [`Encode`], whose `write`
//!   passes such a row to [`write_sequence`], [`encoded`] writes it. A field that is an `i32` goes
//!   into that row as `Field(&self.number)`. An optional field goes there as
//!   `MaybeRef(&self.field)`.
//! - As parts that are found in place, where not all bytes are DER, or what stands in an element isn't
//!   looked at, as in the tokens of GSS-API. A type with [`Placed`] names its parts, and its `find`
//!   asks `cursor.parts()` for a row, as above. What is found are cursors, which know their offsets. A
//!   row with [`EncodeParts`] is written by [`encoded_parts`]. `specs::Parts` says where the parts
//!   stand, and `specs::PartsFault` what is wrong with other bytes.
//! - A SEQUENCE OF is read by `cursor.list::<T>()` as a cursor over its content, and that cursor is
//!   read by `next::<T>()`. A slice or a vector is written as a SEQUENCE OF. Texts of types of
//!   other crates are written as [`TextList`].
//!
//! `Element::read` and `Row::read_row` return what `specs::Computed` reads from left to right.
//! [`laws`] states that this is exactly what `specs::Spells` and `specs::Fault` say. A private call
//! whose name ends in `_here` has the body of the public call of that name. Its contract says what
//! `specs::Computed` gives; that of the public call says what the bytes spell.
//!
//! The files by what they do. Reading: `head`, `length` and `tag` (an element's first bytes),
//! `cursor`, `contents`, `leaf` and `whole` (elements without parts), `element`, `parts` and `row`
//! (those with parts), `placed` (parts in place), `message`, `fault`. Writing: `writer`, `encoding`,
//! `encoding_rows`, `encoding_parts`. Both: `list`, `value`.
//!
//! `specs::Size` says how many bytes are written for a value, and so which values are too long for
//! a message. `specs::Flags` says which bit of flags is which.
//!
//! Each value has one spelling, except for sequence numbers ([`SeqNumber`]) above 2,147,483,647:
//! those are also read as the negative numbers of the same 32 bits, but never written so.
//! `specs::Numbers` says which spelling of a value that is.
//!
//! Reading returns slices of the input; only writing allocates memory. Each call runs in time
//! linear in its bytes, and for writing, times the depth of its elements.
#![tactic(auto)]

mod contents;
mod cursor;
mod element;
mod encoding;
mod encoding_parts;
mod encoding_rows;
mod fault;
mod head;
pub mod laws;
mod leaf;
mod length;
mod list;
mod message;
mod parts;
mod placed;
mod row;
mod tag;
mod value;
mod whole;
mod writer;

pub use cursor::{Cursor, MESSAGE_LIMIT};
pub use element::Element;
pub use encoding::{Encode, encoded};
pub use encoding_parts::{EncodeParts, encoded_parts};
pub use encoding_rows::{EncodeRow, write_application, write_sequence};
pub use fault::{EncodeFault, Fault, FaultKind};
pub use krb_time::{Microseconds, Seconds};
pub use list::TextList;
pub use message::{Message, parse};
pub use placed::{Each, Last, Placed, Unknown};
pub use row::{Field, Maybe, MaybeRef, Row};
pub use value::{Constant, Flags, Octets, SeqNumber, Text};
pub use writer::Writer;
