//! What has a time.

ghost use Rattle.std.specs.Prelude.{◌≡◌, ℤ, true};
ghost use Rattle.std.specs.Ordering.{int_cmp, is_le};

/// What has a time, and is ordered by it first. Times and moments have one unit, of any length.
pub trait Timed: Ord {
    ghost timestamp: { Self → ℤ };

    /// Returns the time.
    fn timestamp(&self) -> i64
        ensures { result ≡ timestamp self.now };

    /// Nothing is in the order before what has an earlier time.
    ghost by_time: { (one other : Self) → is_le (Self.cmp one other) ≡ true → is_le (int_cmp (timestamp one) (timestamp other)) ≡ true };
}

/// A time is its own.
impl Timed for i64 {
    ghost timestamp = { λ time. time };

    ghost by_time = { λ one other first. first };

    fn timestamp(&self) -> i64 {
        *self
    }
}
