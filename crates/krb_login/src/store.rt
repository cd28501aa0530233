//! A store of stamps that several services share.

ghost use Rattle.std.specs.Prelude.{ℕ, ℤ, List};
ghost use Rattle.krb_login.specs.declared.store.StoreSays.{StoreSays as StoreSaysValue};

use krb_msg::Moment;

/// What a store says of a stamp that it is asked to add.
#[derive(Clone, Copy, Debug, PartialEq, Eq)]
pub enum StoreSays {
    /// It hadn't got the stamp, and has it now.
    New,
    /// It has had the stamp before.
    Known,
    /// It didn't answer, or not in time. It may have the stamp now.
    Failed,
}

/// A store of stamps as a service asks it, and the service's clock.
///
/// What a store must do, and how far clocks may differ, is said by krb_ap's `specs/Sharing`. No
/// contract can say it of a database or a file: [`laws`](crate::laws) says what follows from it.
pub trait Store {
    /// What comes of adding a stamp: the store before, the stamp's bytes, until when they are kept,
    /// what the store says, and the store afterwards.
    ghost adds: { Self → List ℕ → ℤ → StoreSaysValue → Self → Type 0 };

    /// What the clock shows.
    ghost shows: { Self → ℤ → Self → Type 0 };

    /// Adds the stamp unless the store has it, in one step, and returns whether it is new. The store
    /// has to keep it up to `keep_until`, by its own clock. If the store doesn't answer in time, it
    /// has failed: its answer may not be used later.
    fn add(&mut self, stamp: &[u8], keep_until: Moment) -> StoreSays
        ensures { adds self.old stamp.now keep_until result self.new };

    /// Reads the service's clock.
    fn now(&mut self) -> Moment
        ensures { shows self.old result self.new };
}
