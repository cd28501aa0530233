//! A memory that drops nothing.

ghost use Rattle.std.specs.Prelude.{◌≡◌, [], None, true, false};
ghost use Rattle.std.specs.Option.{option_map};
ghost use Rattle.krb_replay.specs.Inner.Held.{number_of, since};

use crate::memory::{ReplayMemory, later};
use crate::skew::Skew;
use crate::tuple::Tuple;
use krb_time::Moment;
use std::alloc::{AllocError, Global};
use std::marker::Model;

/// The plain memory: a list of tuples that grows with each new tuple and drops none. A look-up goes
/// through all of them.
#[derive(Debug, Drop)]
pub struct ListMemory {
    tuples: Vec<Tuple>,
    latest: Option<Moment>,
}

impl Model for ListMemory {
    ghost use Rattle.std.specs.Prelude.{◌≢◌, AllPairs};
    ghost use Rattle.krb_replay.specs.Memory.{Memory, empty_memory};

    ghost Value = { Memory };

    ghost view = { λ memory. record {
      stamps = memory.tuples.items;
      latest = memory.latest;
      unfreed = 0;
      oldest = empty_memory.oldest;
    } };

    ghost invariant = { λ memory. AllPairs (λ one other. one ≢ other) memory.tuples.items };
}

impl ListMemory {
    ghost use Rattle.krb_replay.specs.Memory.{HasNone, empty_memory};

    /// Makes an empty memory, which was given no moment. Allocates nothing yet.
    pub fn new(alloc: Global) -> ListMemory
        ensures value { result ≡ empty_memory }
        ensures empty { HasNone (⟦<ListMemory as ReplayMemory>⟧.has result) }
        ensures newest { ⟦<ListMemory as ReplayMemory>⟧.newest result ≡ None }
    {
        ListMemory {
            tuples: Vec::new(alloc),
            latest: None,
        }
    }
}

impl ReplayMemory for ListMemory {
    ghost use Rattle.std.specs.Prelude.{Contains};

    const KEEPS: bool = true;

    ghost KEEPS = { true };

    ghost FORGETS = { false };

    ghost has = { λ memory. Contains memory.stamps };

    ghost newest = { λ memory. memory.latest };

    ghost limits = { λ memory. [] };

    ghost counts_since = { λ memory oldest. Unit {0} };

    ghost refusals = { λ memory. [] };

    fn contains(&self, tuple: &Tuple) -> bool {
        self.tuples.contains(tuple)
    }

    fn has_at_least(&self, client_of: Option<&Tuple>, count: usize, oldest: i64) -> bool {
        count <= number_since(self.tuples.as_slice(), client_of, oldest)
    }

    fn expect(&mut self, _moment: Moment, _skew: Skew) {}

    fn remember(&mut self, tuple: Tuple) -> Result<(), AllocError> {
        if !self.tuples.contains(&tuple) {
            self.tuples.push(tuple)?;
        }
        Ok(())
    }

    fn advance(&mut self, moment: Moment, _skew: Skew) {
        self.latest = Some(later(self.latest, moment));
    }

    fn len(&self) -> usize {
        self.tuples.len()
    }

    fn latest(&self) -> Option<Moment> {
        self.latest
    }
}

// How many tuples aren't before `oldest`: of the client of a tuple, or of all clients.
fn number_since(tuples: &[Tuple], client_of: Option<&Tuple>, oldest: i64) -> usize
    ensures { result ≡ number_of (option_map (λ tuple. tuple.now.client) client_of.entry) (since oldest tuples.now) }
{
    let mut found = 0;
    for tuple in tuples {
        if tuple.time().micros() >= oldest && tuple.is_of(client_of) {
            found += 1;
        }
    }
    found
}
