//! Explains requests of Kerberos to people with the keys of a service's keytab.
//!
//! [`explain_with_keys`] returns the page of `krb_explain`, and after it what a service sees: the keytab's entry, the opened ticket and
//! authenticator, and why the request is refused at a moment, with what to look at. The page has no key, and of what was sealed only
//! names, times, flags and types.
//!
//! ```text
//! keytab's entry: version number 3, type 19 (aes128-cts-hmac-sha256-128)
//! ticket's client: alice@EX
//! ...
//! service's clock: 2023-11-14T22:25:00Z
//! refused: Skew, code 37 (KRB_AP_ERR_SKEW)
//! look at: the clocks of both machines
//! ```
#![tactic(auto)]

mod age;
mod authenticator;
mod causes;
mod choice;
mod data;
mod facts;
mod keyed;
mod look_at;
mod opening;
mod sight;
mod standing;
mod ticket;
mod verdict;

pub use keyed::explain_with_keys;
