//! The order of tokens.

ghost use Rattle.std.specs.Prelude.{◌≡◌, ◌≤◌, ◌+◌, ◌↔◌, ℕ, List, [], ◌∷◌, IsTrue};
ghost use Rattle.krb_context.specs.Sequence.{IsNew, IsOrder, Stands};

use std::marker::Model;

const SLOTS: usize = 64;

/// How a token's number stands to those that were taken before it (RFC 2743, section 1.2.3).
#[derive(Clone, Copy, Debug, PartialEq, Eq)]
pub enum Order {
    /// It is the next one.
    Next,
    /// It comes after the next one, which is missing, and so are all between them (GSS_S_GAP_TOKEN).
    AfterGap,
    /// It was missing until now (GSS_S_UNSEQ_TOKEN).
    Late,
    /// It was taken already (GSS_S_DUPLICATE_TOKEN).
    Repeat,
    /// It is before the first one, or more than 64 before the next one, so that it isn't known whether
    /// it was taken (GSS_S_OLD_TOKEN).
    Old,
}

impl Order {
    /// Returns whether it is the next one.
    pub fn is_next(self) -> bool
        ensures { IsTrue result ↔ (self ≡ Order.Next) }
    {
        matches!(self, Order::Next)
    }

    /// Returns whether it is known that the token wasn't taken before: it isn't a repeat, and not too
    /// old to know.
    pub fn is_new(self) -> bool
        ensures { IsTrue result ↔ IsNew self }
    {
        matches!(self, Order::Next | Order::AfterGap | Order::Late)
    }
}

/// The numbers of the tokens that were taken: the next one, and those of the 64 before it.
#[derive(Drop)]
pub struct Window {
    first: u64,
    next: u128,
    slots: [Option<u64>; SLOTS],
}

impl Model for Window {
    ghost use Rattle.krb_context.specs.Sequence.{Known};
    ghost use Rattle.krb_context.specs.Inner.Ring.{IsRing, known_of};

    ghost Value = { Known };

    ghost view = { λ w. known_of w.first w.next w.slots };

    ghost invariant = { λ w. IsRing w.next w.slots };
}

impl Window {
    /// Makes the window of a side that has taken nothing. The first token has the number `first`.
    pub fn new(first: u64) -> Window
        ensures { Stands result first [] }
    {
        Window {
            first,
            next: u128::from(first),
            slots: [None; SLOTS],
        }
    }

    /// Takes a number, and returns how it stands to those that were taken before it.
    pub fn take(&mut self, number: u64) -> Order
        ensures order { (first : ℕ) (taken : List ℕ) → Stands self.old first taken
            → IsOrder first taken number result }
        ensures taken { (first : ℕ) (taken : List ℕ) → Stands self.old first taken
            → Stands self.new first (number ∷ taken) }
    {
        let order = self.order(number);
        self.mark(number);
        order
    }

    // Takes a number.
    pub(crate) fn mark(&mut self, number: u64)
        ensures { (first : ℕ) (taken : List ℕ) → Stands self.old first taken
            → Stands self.new first (number ∷ taken) }
    {
        if self.is_near(number) {
            self.slots[(number % 64) as usize] = Some(number);
            self.next = self.next.max(u128::from(number) + 1);
        }
    }

    // Whether a number isn't before the first, nor more than 64 before the next.
    fn is_near(&self, number: u64) -> bool
        ensures { IsTrue result ↔ ((self.now.first ≤ number) × (self.now.next ≤ number + 64)) }
    {
        self.first <= number && self.next <= u128::from(number) + 64
    }

    /// Returns how a number stands to those that were taken, and takes nothing.
    pub fn order(&self, number: u64) -> Order
        ensures { (first : ℕ) (taken : List ℕ) → Stands self.now first taken
            → IsOrder first taken number result }
    {
        let at = u128::from(number);
        if at == self.next {
            Order::Next
        } else if at > self.next {
            Order::AfterGap
        } else if !self.is_near(number) {
            Order::Old
        } else if self.slots[(number % 64) as usize] == Some(number) {
            Order::Repeat
        } else {
            Order::Late
        }
    }
}
