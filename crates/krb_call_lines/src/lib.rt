//! The lines that a service reads: which call a line spells, and which request its bytes carry.
//!
//! [`PartLine`] holds the bytes of a line while they come, and reads it: a moment, the bytes that arrived then, and a
//! confounder for a reply. [`take_request`] takes the request out of these bytes, which are a message or a token of
//! GSS-API.
#![tactic(auto)]

mod call_line;
mod cut;
mod digits;
mod form;
mod part_line;
mod token_fault;

pub use call_line::{LINE_LIMIT, SpelledCall, call_of, confounder_of};
pub use cut::cut_at;
pub use form::{Carried, Envelope, Form, take_request};
pub use part_line::PartLine;
pub use token_fault::bad_token_text;
