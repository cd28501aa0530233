//! What readers and writers of files share: sources and sinks of bytes, and big-endian fields.
//!
//! A [`Source`] gives bytes and a [`Sink`] takes them; both count their failures. Any reader is a
//! source and any writer a sink. A [`Window`] holds a few bytes of a source. A [`FileCursor`] reads
//! big-endian fields from bytes, allocates no memory and knows its offset.
//!
//! A [`Feed`] is what a file's bytes are taken from, piece by piece: the window of a source, or a
//! [`Slice`] of bytes in memory, which copies nothing. A feed counts the bytes that it has given, and
//! holds some of them, next to each other.
//!
//! ```rust
//! write_all(&mut WriteSink::new(io::writer(rt)), b"host/web@EX")?;
//! ```
#![tactic(auto)]

mod cursor;
mod feed;
mod file;
pub mod laws;
mod pieces;
mod reading;
mod sink;
mod slice;
mod slice_source;
mod source;
mod window;
mod writing;

pub use cursor::{FileCursor, Short};
pub use feed::Feed;
pub use file::FILE_LIMIT;
pub use pieces::{PieceSink, PieceSource};
pub use reading::ReadFault;
pub use sink::{Sink, SinkFailed, WriteSink};
pub use slice::Slice;
pub use slice_source::SliceSource;
pub use source::{ReadSource, Source, SourceFailed};
pub use window::Window;
pub use writing::write_all;
