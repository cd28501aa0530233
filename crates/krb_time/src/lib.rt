//! Times of Kerberos: seconds, microseconds and moments (RFC 4120, sections 5.2.3 and 5.2.4).
//!
//! [`Seconds`] is a whole second of the years 0000 to 9999 in UTC, [`Microseconds`] the part of a
//! second that some messages send beside it, and [`Moment`] both together. `specs::Time` says which
//! text is that of which second, on the calendar of ISO 8601, and `specs::Moments` which number of
//! microseconds is a moment.
//!
//! ```rust
//! let second = Seconds::from_text(text)?;
//! let moment = Moment::at(second, Microseconds::new(250_000)?);
//! Some(moment.micros())
//! ```
//!
//! No call allocates memory.
#![tactic(auto)]

mod civil;
pub mod laws;
mod microseconds;
mod moment;
mod seconds;

pub use microseconds::Microseconds;
pub use moment::Moment;
pub use seconds::{EARLIEST_SECOND, LATEST_SECOND, Seconds};
