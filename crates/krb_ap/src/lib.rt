//! The AP exchange of Kerberos 5 (RFC 4120, section 3.2): a client asks a service to let it in, and
//! the service decides, and says why if it refuses.
//!
//! [`make_request`] builds a request with a ticket of a credential cache, and returns a [`Pending`]
//! that waits for the reply. `specs/Credentials` says which credential is used, and `specs/Request`
//! which bytes the request is. An [`Initiator`] builds many requests, and keeps the keys that it
//! derived. `specs/Finish` says what a reply agrees on, or why it is refused.
//!
//! An [`Acceptor`] decides by a keytab, a skew and a memory of seen requests. To read what it
//! decides, begin with `specs/Setup`: what a service decides by, and what it is given. `specs/Opened`
//! says what a request is opened as, `specs/Times`, `specs/Quiet` and `specs/History` when it may be
//! used: the ticket's times, the quiet start of a service that was started again, and what was seen
//! before. `specs/Taken` says what is accepted and what is then known. `specs/Causes` is the table of
//! refusals, with the codes of `specs/ErrorCodes`. `specs/Answer` puts these together, for one call
//! and for a list of calls. [`times`] has single conditions. `specs/Service` says what the memory stands for and what its limits do,
//! and `specs/Counting` what they do in a list of calls.
//!
//! `specs/Once` says that no request is accepted twice. `specs/Undecided` is about calls that are
//! answered with out of memory, `specs/Living` about a service whose keytab is replaced, and
//! `specs/UndecidedLife` about such calls in its life. `specs/Sharing` is about services that share
//! what they have seen, and `specs/World` about what client and service hold in a network that loses,
//! repeats and reorders what they send.
//!
//! `specs/Written` says what a side writes and seals, and `specs/Reply` and `specs/ErrorReply` what
//! the service sends back. `specs/Headline` says when one side accepts what the other one built, and
//! [`laws`] states that it does.
//!
//! A client builds a request, and keeps what waits for the reply:
//!
//! ```rust
//! let (request, pending) = make_request(alloc, &cache, &service, now, &confounder, options)?;
//! ```
//!
//! A service decides, and replies:
//!
//! ```rust
//! let skew = Skew::new(300).context("at most a day")?;
//! let mut acceptor = Acceptor::new(keytab, skew, TimedMemory::new(alloc));
//! let reply = match acceptor.accept(alloc, &request, now) {
//!     Ok(accepted) => accepted.reply(alloc, &confounder, choices)?,
//!     Err(refusal) => error_reply(alloc, &refusal, now, &service)?,
//! };
//! ```
//!
//! The client reads the reply:
//!
//! ```rust
//! let agreed = pending.finish(alloc, &reply)?;
//! ```
#![tactic(auto)]

mod accepted;
mod acceptor;
mod call;
mod credentials;
mod errors;
mod finish;
mod initiator;
mod inner_laws;
mod judging;
mod keys;
pub mod laws;
mod opened;
mod opening;
mod ready_key;
mod refusal;
mod renewing;
mod reply;
mod request;
mod session_keys;
mod ticket_keys;
pub mod times;

pub use accepted::Accepted;
pub use acceptor::Acceptor;
pub use call::{Call, Outcome};
pub use errors::{ReplyFault, error_reply};
pub use finish::{Agreed, FinishFault, Pending};
pub use initiator::Initiator;
pub use refusal::Refusal;
pub use reply::ReplyOptions;
pub use request::{ContextRequest, RequestFault, RequestOptions, make_request};
