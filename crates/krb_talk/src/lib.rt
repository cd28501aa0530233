//! A login by a negotiation that names another mechanism first, and Kerberos after it (SPNEGO: RFC 4178).
//!
//! Such a client is asked for its token of Kerberos and for a MIC of its list of mechanisms (mechListMIC), which shows that nobody has
//! changed the list on its way. [`Talk`] takes the messages of one client, one after another, and lets it in only after that check.
//! Messages of other clients are for [`krb_login::Service`], as without it.
//!
//! ```text
//! let mut talk = Talk::new(options);
//! // For each message of the client, until another decision than `GoOn`:
//! match talk.answer(alloc, &mut service, given) {
//!     Decision::LetIn(login) => { /* let in, and login.answer goes back */ }
//!     Decision::Shown(login) => { /* let in; login.context has its messages, and login.answer goes back */ }
//!     Decision::GoOn(sent) => { /* these bytes go back */ }
//!     Decision::Refused(refused) => { /* refused.cause; refused.answer goes back */ }
//!     Decision::Unshown(unshown) => { /* unshown.fault; unshown.answer goes back */ }
//! }
//! ```
//!
//! A service that shares a store with others decides in two steps: [`Talk::take`] says whether a message is for the service, and
//! [`Talk::conclude`] what follows of its decision. [`Listed`] and [`Pending`] are the steps of the check alone.
//!
//! The rounds are those of RFC 4178, section 5. If the client's MIC comes with its token, the service's goes back with
//! accept-completed, and the reply with it if the client asked for one. A client that asked for no reply has to send it so. If one that
//! asked for a reply doesn't, the reply and the service's MIC go back with accept-incomplete, and the client's MIC comes after that;
//! nothing goes back then. The context counts both MICs, so the messages after the login go on from there.
//!
//! `specs::Talk` says what is done with a message, `specs::Turns` the same in two steps, `specs::Checking` and `specs::Pending` who is
//! let in over its list, `specs::ListMic` what the MICs are and what goes back, and `specs::Agreeing` which context they are of.
//! `specs::Serving` is what a service does, as krb_login says it. [`laws`] states that a client whose list, as it
//! arrived at the service, names Kerberos later isn't let in over another list than its own. A client whose list arrives with Kerberos
//! first is taken without a look at its mechListMIC.
#![tactic(auto)]

mod agreeing;
mod beginning;
mod checking;
mod decision;
pub mod laws;
mod listed;
mod mic;
mod pending;
mod stage;
mod talk;

pub use checking::{Admitted, Checking, ListFault};
pub use decision::{Decision, Unshown};
pub use listed::{Chosen, Listed};
pub use pending::Pending;
pub use talk::{Talk, Turn};
