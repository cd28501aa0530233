//! Finding things in long lists without looking at each item.
//!
//! A [`HashIndex`] finds the places of a hash in a list of hashes. [`Maxima`] finds the first number
//! of a list that is at least another, and makes numbers of the list 0.
//!
//! ```rust
//! let index = HashIndex::new(alloc, Vec::from_array(alloc, [7, 9, 7])?)?;
//! index.find(7, 0); // Some(0)
//! index.find(7, 1); // Some(2)
//! index.find(7, 3); // None
//!
//! let mut sizes = Maxima::new(alloc, &[3, 8, 5])?;
//! sizes.first(4); // Some(1)
//! sizes.clear(1);
//! sizes.first(4); // Some(2)
//! ```
#![tactic(auto)]

mod hash_index;
mod maxima;

pub use hash_index::HashIndex;
pub use maxima::Maxima;
