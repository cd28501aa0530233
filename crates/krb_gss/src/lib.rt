//! Tokens of GSS-API: what clients wrap a request in.
//!
//! [`open_token`] opens the first token of a client: a token of Kerberos (RFC 2743, section 3.1; RFC 4121, section 4.1), or a
//! negotiation whose first mechanism is Kerberos (SPNEGO: RFC 4178, section 4.2) and that holds such a token. It returns the
//! request as a slice of the bytes, what the request was wrapped in, and the object identifier by which the token names
//! Kerberos. Otherwise it returns a [`TokenFault`], with the offset of the byte at fault.
//!
//! ```rust
//! match open_token(bytes) {
//!     Ok(opened) => show_opened(alloc, opened, text),
//!     Err(fault) => write!(text, "refused {fault}").ok(),
//! }
//! ```
//!
//! [`wrap_request`] writes such a token for a request, and [`wrap_answer`] writes the service's answer in the same wrapping.
//! [`open_answer`] opens that answer on the client's side.
//!
//! A client may also begin a negotiation without a token. [`Negotiation`] takes the tokens of one client, one after another, and says
//! if the client is to be asked for its token. [`wrap_verdict`] writes that, and the answers that accept or refuse a client without a
//! message; [`read_verdict`] reads them. [`wrap_later`] writes the answer to a later token.
//!
//! [`open_listing`] opens a negotiation that names Kerberos after another mechanism: it returns the list, which a mechListMIC is over
//! (RFC 4178, section 5). [`wrap_request_mic`] asks the client for that and for its token, [`open_later`] and [`later_mic`] read them,
//! and [`wrap_checked`] writes an answer with the service's own. [`Negotiation`] refuses such a client: the MICs are made and checked
//! by its caller.
//!
//! [`Checksum`] is the checksum of type 0x8003 that a client of GSS-API puts into its authenticator (RFC 4121, section 4.1.1): its
//! flags, its channel bindings and the credentials that it delegates. What is after these, the extensions, stays bytes.
//!
//! `specs::Module` has the messages of tokens as rows of fields. It and `messages` are made from messages.toml. `specs::Token` says
//! which bytes are a token: where the parts of its messages stand. `specs::Fault` says which rule other bytes break, and where.
//! `specs::Mechanism` lists the names. `specs::Wrapping` says which bytes are written of a request, and how many. `specs::Answer` says
//! which bytes are an answer, and which are written of one, and `specs::Answered` what is wrong with others. `specs::Negotiation` says
//! what a negotiation does with a token, `specs::Later` which bytes are a client's later token, and `specs::Said` what an answer
//! without a token says. `specs::Listing` says which tokens name Kerberos after another mechanism, and `specs::ListMic` how a mechListMIC
//! is asked for and sent. `specs::Checksum` says which bytes are a checksum. [`laws`] states that it has one meaning and one spelling,
//! that a negotiation's list of mechanisms decides nothing, that a token has one list, and that `read_verdict` reads what
//! `wrap_verdict` writes.
//!
//! Only what is written is allocated. DER is strict: lengths have their shortest form, and nothing follows the token. What the fields
//! reqFlags, negState and mechListMIC of a negotiation hold isn't looked at, except the negState of an answer without a token, and by
//! [`later_mic`]. Fields after these are passed over if they are whole elements. No call runs longer than linear in its bytes.
#![tactic(auto)]

mod answered;
mod answering;
mod checksum;
mod fault;
mod flags;
mod framing;
pub mod laws;
mod list_mic;
mod listing;
mod mechanism;
mod messages;
mod negotiating;
mod negotiation;
mod opening;
mod putting;
mod verdict;
mod wrapping;

pub use answered::{Answered, open_answer};
pub use answering::Answer;
pub use checksum::{CHECKSUM_TYPE, Checksum, ChecksumFault, ChecksumWriteFault};
pub use fault::TokenFault;
pub use flags::{ContextFlag, ContextFlags};
pub use list_mic::{Checked, Reply, later_mic, wrap_checked};
pub use listing::{Listing, open_listing};
pub use mechanism::{Foreign, Mechanism};
pub use negotiating::{Later, Negotiation, Taken, open_later};
pub use opening::{Opened, Wrapping, open_token};
pub use verdict::{Verdict, read_verdict};
pub use wrapping::{
    WrapFault, wrap_answer, wrap_later, wrap_request, wrap_request_mic, wrap_verdict,
};
