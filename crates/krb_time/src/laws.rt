//! Laws of the definitions. Each function has an empty body: its contract is the law.

ghost use Rattle.std.specs.Prelude.{◌≡◌, ◌≤ℤ◌, ◌↔◌, ℕ, ℤ, List};
ghost use Rattle.krb_time.specs.Time.{IsSeconds, IsTime};

use crate::seconds::{EARLIEST_SECOND, LATEST_SECOND};

/// A second is one from `EARLIEST_SECOND` to `LATEST_SECOND`.
pub fn seconds_lie_between_the_constants()
    ensures { (s : ℤ) → IsSeconds s ↔ ((EARLIEST_SECOND ≤ℤ s) × (s ≤ℤ LATEST_SECOND)) }
{}

/// Each second of the years 0000 to 9999 has a text, and no other. Only these seconds have one.
pub fn a_second_has_one_text()
    ensures exists { (s : ℤ) → IsSeconds s → (text : List ℕ) × IsTime s text }
    ensures one { (s : ℤ) (a b : List ℕ) → IsTime s a → IsTime s b → a ≡ b }
    ensures only { (s : ℤ) (text : List ℕ) → IsTime s text → IsSeconds s }
{}

/// A text is that of at most one second.
#[tactic(auto, using(crate::proofs::ClockLaws::second_unique))]
pub fn a_text_has_one_second()
    ensures { (s r : ℤ) (text : List ℕ) → IsTime s text → IsTime r text → s ≡ r }
{}
