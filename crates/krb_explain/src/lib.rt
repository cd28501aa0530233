//! Explains messages of Kerberos, and the tokens that hold them, to people.
//!
//! [`message_bytes`] reads the bytes that a text spells: in hexadecimal, in base64, or in a header line such as
//! `Authorization: Negotiate YII..`. [`explain`] returns a page of lines about them, without any key: the layers around a
//! message, and what can be read in it. [`explain_lines`] returns these lines one by one. The functions that make lines are public, for
//! pages that say more.
//!
//! ```text
//! size: 345 bytes
//! message: AP-REQ, 345 bytes
//! options: 20000000 mutual-required
//! service: host/web@EX
//! ticket: sealed under a key of type 19 (aes128-cts-hmac-sha256-128), version number 3, 151 bytes
//! authenticator: sealed under a key of type 19 (aes128-cts-hmac-sha256-128), no version number, 91 bytes
//! ```
#![tactic(auto)]

mod date;
mod error;
mod error_codes;
mod explained;
mod faults;
mod flags;
mod form;
mod input;
mod layer;
mod layer_lines;
mod line;
mod message;
mod named;
mod parts;
mod request;

pub use date::{date_line, write_shown};
pub use error_codes::error_name;
pub use explained::{Explained, explain, explain_lines};
pub use flags::ticket_flags_text;
pub use form::Form;
pub use input::{InputFault, message_bytes};
pub use line::{joined, listed, page};
pub use parts::{name_line, type_text, with_name};
