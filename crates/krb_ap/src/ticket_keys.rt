//! The keys that open tickets: derived from the key that a keytab has for a ticket, and cached for
//! later tickets, with the last one and its plain text.

ghost use Rattle.std.specs.Prelude.{◌≡◌, ◌≢◌, None, Some, IfErr, IfSome, IsTrue, OnOk};
ghost use Rattle.krb_ap.specs.Words.{IsUsable, Opens, entry_key, profile_of, ticket_usage};
ghost use Rattle.krb_ap.specs.Inner.Stages.{IsShut, ready_key};
ghost use Rattle.krb_ap.specs.declared.refusal.Refusal.TheVariants.{OutOfMemory, TicketIntegrity};

use crate::keys::usable_key;
use crate::opening::open_under;
use crate::refusal::Refusal;
use krb_enc::UsageKey;
use krb_keytab::Entry;
use krb_msg::usage;
use std::alloc::Global;
use std::marker::Model;

/// The keys for tickets of the service key that was used last, and the ticket that they opened last.
///
/// A contract sees the keys, and the plain text of that ticket. There is no `Debug`, so no log shows
/// them.
#[derive(Drop)]
pub(crate) struct TicketKeys {
    keys: Option<UsageKey>,
    // The ticket, sealed and opened.
    opened: Option<(Vec<u8>, Vec<u8>)>,
}

impl Model for TicketKeys {
    ghost use Rattle.std.specs.Prelude.{[], IfSome, option_map, unwrap_or};
    ghost use Rattle.krb_ap.specs.Words.{Opens, profile_of};
    ghost use Rattle.krb_ap.specs.Inner.TicketKeys.{TicketKeysValue};

    ghost Value = { TicketKeysValue };

    ghost view = { λ k. record { keys = k.keys; plain = unwrap_or (option_map (λ o. o.1.items) k.opened) [] } };

    ghost invariant = { λ k. IfSome k.opened (λ o. IfSome k.keys
        (λ keys. Opens (profile_of keys.key) keys.key.bytes keys.usage o.0.items o.1.items)) };
}

impl TicketKeys {
    /// Caches nothing.
    pub(crate) fn new() -> TicketKeys
        ensures { result.keys ≡ None }
    {
        TicketKeys {
            keys: None,
            opened: None,
        }
    }

    /// Opens a ticket under the key of an entry, unless it is the one that was opened last. It
    /// derives that key's keys, unless they are cached.
    pub(crate) fn open(
        &mut self,
        alloc: Global,
        entry: &Entry,
        cipher: &[u8],
    ) -> Result<(), Refusal>
        requires { IsUsable (entry_key entry.now) }
        ensures opened { OnOk result (Opens (profile_of (entry_key entry.now)) (entry_key entry.now).bytes ticket_usage
            cipher.now self.new.plain) }
        ensures refused { IfErr result (λ refusal. refusal ≢ OutOfMemory → refusal ≡ TicketIntegrity) }
        ensures nothing { IfErr result (λ refusal. refusal ≢ OutOfMemory → IsShut (entry_key entry.now) ticket_usage cipher.now) }
    {
        self.cache(entry);
        if self.has_opened(cipher) {
            return Ok(());
        }
        let Some(keys) = &self.keys else {
            unreachable!();
        };
        let plain = open_under(alloc, keys, cipher, Refusal::TicketIntegrity)?;
        let sealed = cipher.to_vec(alloc)?;
        self.opened = Some((sealed, plain));
        Ok(())
    }

    // Caches the keys of an entry's key, unless they are cached.
    #[inline(never)]
    fn cache(&mut self, entry: &Entry)
        requires { IsUsable (entry_key entry.now) }
        ensures { self.new.keys ≡ Some (ready_key (entry_key entry.now)) }
    {
        let etype = i32::from(entry.etype());
        match &self.keys {
            Some(keys) if keys.is_for(etype, entry.key(), usage::TICKET) => {}
            _ => {
                // They opened no ticket yet.
                self.opened = None;
                self.keys = Some(usable_key(etype, entry.key()).for_usage(usage::TICKET));
            }
        }
    }

    // Whether this is the ticket that was opened last.
    fn has_opened(&self, cipher: &[u8]) -> bool
        ensures { IsTrue result → IfSome self.now.keys (λ keys.
            Opens (profile_of keys.key) keys.key.bytes keys.usage cipher.now self.now.plain) }
    {
        match &self.opened {
            Some((sealed, _)) => sealed.as_slice() == cipher,
            None => false,
        }
    }

    /// The plain text of the ticket that was opened last.
    pub(crate) fn plain(&self) -> &[u8]
        ensures { result.now ≡ self.now.plain }
    {
        match &self.opened {
            Some((_, plain)) => plain.as_slice(),
            None => &[],
        }
    }
}
