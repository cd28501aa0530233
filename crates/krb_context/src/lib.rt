//! Messages after a Kerberos login: per-message tokens of the GSS-API (RFC 4121, section 4.2) with
//! the encryption types of RFC 8009.
//!
//! ```text
//! // Each side makes a context of what both agreed on. The client seals a text.
//! let mut client = Context::new(Role::Initiator, &agreed, options);
//! let size = client.wrap_to(true, &confounder, b"text", &mut token)?;
//!
//! // The service opens it in place.
//! let mut service = Context::new(Role::Acceptor, &agreed, options);
//! let opened = service.unwrap(&mut token[..size])?;
//! if opened.order.is_next() {
//!     let text = &token[opened.text.start..][..opened.text.len];
//! }
//! ```
//!
//! A MIC token shows that a text is unchanged. A Wrap token has the text inside, sealed or in plain
//! with a checksum. Both are of one side, and of one sequence number. No call allocates memory but
//! [`Context::prepare`].
//!
//! A [`Context`] chooses the key and counts. [`Direction`] has the tokens of one side alone, with
//! numbers that the caller gives, and [`Window`] the order of numbers.
//!
//! The contracts speak of the definitions of `specs/Mic` and `specs/Wrap` (which bytes are a token
//! of a text), `specs/Sequence` (the order) and `specs/Context`. [`laws`] has what holds for all of
//! them.
#![tactic(auto)]

mod agreed;
mod context;
mod direction;
mod fault;
mod header;
mod keys;
pub mod laws;
mod mic_keys;
mod order;
mod role;

pub use agreed::{Agreed, Options};
pub use context::{Context, Opened, Verified};
pub use direction::{Direction, Unwrapped};
pub use fault::{MessageFault, ReceiveFault, SendFault};
pub use order::{Order, Window};
pub use role::Role;
