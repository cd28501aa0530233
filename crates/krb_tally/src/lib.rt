//! Items by their times: to find one, to count those since a moment, and to take the first, without
//! looking at each.
//!
//! Items are added to a [`Tally`] in any order. It holds each as often as it was added.
//!
//! ```rust
//! let mut tally: Tally<i64> = Tally::new(alloc);
//! tally.add(10)?;
//! tally.add(30)?;
//! tally.add(30)?;
//! tally.since(20); // 2
//! tally.remove(30);
//! tally.since(20); // 1
//! ```
//!
//! Where there are many owners of few times each, [`Times`] takes less memory for each.
#![tactic(auto)]

mod bucket;
mod search;
mod tally;
mod timed;
mod times;

pub use tally::Tally;
pub use timed::Timed;
pub use times::Times;
