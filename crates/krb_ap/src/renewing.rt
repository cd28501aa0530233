//! A new keytab for a living service.

ghost use Rattle.std.specs.Prelude.{◌≡◌, None, List};
ghost use Rattle.krb_ap.specs.Words.{Arrival, SameStamps, as_decided, with_entries};
ghost use Rattle.krb_ap.specs.History.{IsShown};
ghost use Rattle.krb_ap.specs.Service.{Stands};

use crate::acceptor::Acceptor;
use crate::judging::Rules;
use crate::ticket_keys::TicketKeys;
use krb_keytab::Keytab;
use krb_replay::ReplayMemory;
use std::mem;

impl<M: ReplayMemory> Acceptor<M> {
    /// Replaces the keytab, and returns the old one. The service decides by `keytab` from now on.
    ///
    /// It keeps everything else: what it has seen, the latest moment, the skew and the start. So a
    /// request that was accepted under the old keytab is a repeat under the new one, too. A ticket
    /// whose key the new keytab hasn't got any more is refused by the cause that says so.
    pub fn replace_keytab(&mut self, keytab: Keytab) -> Keytab
        ensures setup { self.new.setup ≡ with_entries self.old.setup keytab }
        ensures memory { self.new.memory ≡ self.old.memory }
        ensures old { result ≡ self.old.setup.entries }

        // For each history that the memory stands for, it stands for the same one, decided by the old keytab; and that shows the same.
        ensures stands { (history : List Arrival) → Stands M.has M.newest self.old history
            → Stands M.has M.newest self.new (as_decided self.old.setup history) }
        ensures shown { (history : List Arrival)
            → SameStamps (IsShown self.old.setup history) (IsShown self.new.setup (as_decided self.old.setup history)) }
    {
        replace(&mut self.rules, &mut self.tickets, keytab)
    }
}

// What is cached of a service key of the old keytab goes with it.
fn replace(rules: &mut Rules, tickets: &mut TicketKeys, keytab: Keytab) -> Keytab
    ensures rules { rules.new ≡ with_entries rules.old keytab }
    ensures old { result ≡ rules.old.entries }
    ensures cached { tickets.new.keys ≡ None }
{
    *tickets = TicketKeys::new();
    mem::replace(&mut rules.keytab, keytab)
}
