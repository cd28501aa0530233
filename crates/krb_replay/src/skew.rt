//! How far clocks may differ.

ghost use Rattle.std.specs.Prelude.{◌≡◌, ◌*◌, ◌≤◌, pos, SomeIff};

use std::marker::Model;

/// The span by which two clocks may differ: 0 to 86,400 whole seconds. A contract sees it in
/// microseconds.
#[derive(Clone, Copy, Debug, PartialEq, Eq)]
pub struct Skew {
    micros: u64,
}

impl Model for Skew {
    ghost use Rattle.std.specs.Prelude.{ℕ, ◌≤◌};

    ghost Value = { ℕ };

    ghost view = { λ skew. skew.micros };

    ghost invariant = { λ skew. skew.micros ≤ 86_400_000_000 };

    ghost inverse = { λ micros. record { micros = micros } };
}

impl Skew {
    /// Returns the span of so many seconds, or `None` above 86,400.
    pub fn new(seconds: u32) -> Option<Skew>
        ensures { SomeIff result (seconds ≤ 86_400) (1_000_000 * seconds) }
    {
        if seconds > 86_400 {
            return None;
        }
        Some(Skew {
            micros: 1_000_000 * u64::from(seconds),
        })
    }

    /// Returns the span in microseconds.
    pub fn micros(self) -> i64
        ensures value { result ≡ pos self }
        ensures limit { self ≤ 86_400_000_000 }
    {
        self.micros as i64
    }
}
