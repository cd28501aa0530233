//! The messages of the AP exchange (RFC 4120, sections 5.2 to 5.5 and 5.9). They are read in place,
//! copied and written.
//!
//! `specs::Module` has each message as a kind of `krb_der`, and reads like the table of the RFC. A
//! view, such as [`TicketRef`], holds the fields of one message: numbers and times as values, texts
//! and octets as slices of the input, lists as iterators over the input. `parse` returns `Ok`
//! exactly for the spellings of the kind, with the one value that they spell. Otherwise it returns
//! a fault that the bytes have, and its offset. It allocates no memory.
//!
//! An owned message, such as [`Ticket`], holds copies: `to_owned` of a view makes one of the same
//! value, and `encode` writes a spelling of that value. [`laws`] states that a spelling has one
//! value, and a value one spelling, except for sequence numbers above 2,147,483,647. Those are also
//! read as the negative numbers of the same 32 bits, because some senders write them so. `encode`
//! never does.
//!
//! Assigned numbers have their names in [`tag`], [`message_type`], [`usage`] and [`error_code`].
//!
//! ```rust
//! let request = ApReqRef::parse(bytes)?;
//! let is_mutual = request.options.has(MUTUAL_REQUIRED);
//! for component in request.ticket.sname.components.iter() {
//!     println!(rt; "{component:?}")?;
//! }
//!
//! let (ctime, cusec) = now.parts();
//! let authenticator = Authenticator {
//!     client,
//!     checksum: None,
//!     cusec,
//!     ctime,
//!     subkey: None,
//!     seq_number: None,
//!     authorization: None,
//! };
//! let plain = authenticator.encode(alloc)?;
//! ```
#![tactic(auto)]

mod ap_rep;
mod ap_req;
mod authenticator;
mod bits;
mod enc_ap_rep_part;
mod enc_ticket_part;
pub mod error_code;
mod header;
mod key;
mod krb_error;
pub mod laws;
pub mod message_type;
mod name;
mod optional;
mod spelled;
pub mod tag;
mod texts;
mod ticket;
mod typed;
pub mod usage;

pub use ap_rep::{ApRep, ApRepRef};
pub use ap_req::{ApReq, ApReqRef};
pub use authenticator::{Authenticator, AuthenticatorRef};
pub use bits::{INVALID, MUTUAL_REQUIRED, TRANSITED_POLICY_CHECKED, USE_SESSION_KEY};
pub use enc_ap_rep_part::{EncApRepPart, EncApRepRef};
pub use enc_ticket_part::{EncTicketPart, EncTicketRef};
pub use key::{KeyRef, RawKey};
pub use krb_der::{EncodeFault, Fault, FaultKind, Flags, Microseconds, Seconds};
pub use krb_error::{KrbError, KrbErrorRef};
pub use krb_name::{Bytes, Components, Principal};
pub use krb_time::Moment;
pub use name::{Name, NameRef};
pub use spelled::{ApReqOver, SpelledTicket};
pub use texts::{Texts, TextsIter};
pub use ticket::{Encrypted, EncryptedRef, Ticket, TicketRef};
pub use typed::{Typed, TypedIter, TypedListRef, TypedRef};
