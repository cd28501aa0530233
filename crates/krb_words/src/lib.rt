//! Lines of the programs of calls, word by word, for the tests (tests/library.py).
//!
//! [`Words`] takes the arguments of a call from a line, and [`Answer`] is the line that is answered.
//! [`answer_lines`] answers all lines of standard input, for a program that implements [`Calls`].
//! Numbers are decimal. Bytes are hexadecimal digits: `-` for none, `HEX*N` for HEX N times, several
//! such joined by `+`. More than 1,024 bytes are shown as `#LENGTH:SHA256`.
//!
//! ```rust
//! let mut words = Words::new(alloc, line);
//! match words.next()? {
//!     "code" => answer.bytes(&code_of(&words.bytes()?)),
//!     _ => None,
//! }
//! ```
#![tactic(auto)]

mod answer;
mod bytes;
mod serving;
mod words;

pub use answer::Answer;
pub use bytes::{bytes_of, repeated, show_bytes, show_hash};
pub use serving::{Calls, answer_lines};
pub use words::Words;
