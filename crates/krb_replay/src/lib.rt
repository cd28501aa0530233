//! The memory of what a service has seen: the requests that it has accepted or refused late, so
//! that it accepts none twice (RFC 4120, section 3.2.3).
//!
//! A [`Tuple`] is what is remembered of a request. A [`ReplayMemory`] is a set of tuples, and the
//! latest moment that it was given. [`ListMemory`] keeps everything. [`TimedMemory`] forgets what
//! is older than the latest moment less a [`Skew`], and stays fast however much it holds.
//! [`LimitedMemory`] is a memory over another one that takes only so many tuples.
//!
//! ```rust
//! let mut memory = TimedMemory::new(alloc);
//! if !memory.contains(&tuple) {
//!     memory.remember(tuple)?;
//! }
//! memory.advance(now, skew); // what is older than `now` less `skew` is gone
//! ```
#![tactic(auto)]

mod client_times;
mod counts;
mod held;
mod held_tuple;
pub mod laws;
mod limited;
mod list;
mod memory;
mod names;
mod pair;
mod skew;
mod stamp_bytes;
mod timed;
mod tuple;

pub use limited::LimitedMemory;
pub use list::ListMemory;
pub use memory::ReplayMemory;
pub use skew::Skew;
pub use timed::TimedMemory;
pub use tuple::Tuple;
