//! One call for a login: a service opens what a client sent, decides, and makes what goes back.
//!
//! [`Service::answer`] takes a message AP-REQ by itself, a token of Kerberos or one of a negotiation (GSS-API and SPNEGO: RFC 4121,
//! section 4.1, and RFC 4178), and returns a [`Decision`]: the client is let in, asked for its next token, or refused. What goes back
//! is made with it, in what the request came in: a reply to a client that awaits one, an error to such a client that is refused, and
//! what a negotiation says without either.
//!
//! ```rust
//! let mut negotiation = Negotiation::Begun;
//! let given = Given {
//!     bytes,
//!     now,
//!     confounder: &confounder,
//!     choice,
//! };
//! let answer = match service.answer(alloc, &mut negotiation, given) {
//!     Decision::LetIn(LetIn { accepted, answer }) => {
//!         accepted.client.write_text(log)?;
//!         answer
//!     }
//!     Decision::GoOn(bytes) => Some(bytes),
//!     Decision::Refused(refused) => {
//!         write!(log, "refused: {}", refused.cause)?;
//!         refused.answer
//!     }
//! };
//! ```
//!
//! [`Terms`] are what a service asks of a client beyond what makes its request acceptable: whether it may be anonymous, which realms it
//! may come from, and which channel bindings it has to send. [`asked_by`] reads what a request asks for without any key, for logs.
//!
//! A service that shares a store of stamps with others asks it before it lets a client in: [`Service::ask`] returns an [`Asking`], which
//! shows only what the store is asked for, and [`Asking::settle`] decides by what the store says. [`Service::answer_shared`] takes these
//! steps in their order, over a [`Store`].
//!
//! `specs::Login` says what is decided and what goes back, `specs::Carrying` what a request comes in, `specs::Terms` when the terms are
//! met, `specs::Asked` what a request asks for, and `specs::Store` what a service does that shares a store. What a request is accepted
//! for is said by `krb_ap`'s `specs::Taken`.
#![tactic(auto)]

mod asked;
mod bindings_hash;
mod breach;
mod carrier;
mod cause;
mod decision;
pub mod laws;
mod opening;
mod question;
mod response;
mod service;
mod store;
mod terms;

pub use asked::{Asked, asked_by};
pub use bindings_hash::BindingsHash;
pub use breach::Breach;
pub use carrier::Carrier;
pub use cause::Cause;
pub use decision::{Decision, LetIn, Refused, Unsent};
pub use question::{Asking, Step};
pub use service::{Given, Service};
pub use store::{Store, StoreSays};
pub use terms::{Bindings, Realms, Terms};
