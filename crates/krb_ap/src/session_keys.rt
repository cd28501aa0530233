//! The keys that open authenticators: derived from a ticket's session key, and cached for later
//! requests with the same one.

ghost use Rattle.std.specs.Prelude.{◌≡◌, ◌≢◌, Some, IfErr, IfOk};
ghost use Rattle.krb_ap.specs.Words.{IsUsable, Opens, authenticator_usage, profile_of};
ghost use Rattle.krb_ap.specs.Inner.Stages.{IsShut, key_in};
ghost use Rattle.krb_ap.specs.declared.refusal.Refusal.TheVariants.{AuthenticatorIntegrity, OutOfMemory};

use crate::keys::usable_key;
use crate::opening::open_under;
use crate::refusal::Refusal;
use krb_enc::UsageKey;
use krb_msg::{KeyRef, usage};
use std::alloc::Global;

/// The session key that was used last, with its keys for authenticators.
#[derive(Default, Drop)]
pub(crate) struct SessionKeys {
    cached: Option<UsageKey>,
}

impl SessionKeys {
    /// Opens an authenticator under a session key. It derives that key's keys, unless they are
    /// cached.
    pub(crate) fn open(
        &mut self,
        alloc: Global,
        key: &KeyRef,
        cipher: &[u8],
    ) -> Result<Vec<u8>, Refusal>
        requires { IsUsable (key_in key.now) }
        ensures opened { IfOk result (λ plain. Opens (profile_of (key_in key.now)) (key_in key.now).bytes authenticator_usage
            cipher.now plain.items) }
        ensures refused { IfErr result (λ refusal. refusal ≢ OutOfMemory → refusal ≡ AuthenticatorIntegrity) }
        ensures nothing { IfErr result (λ refusal. refusal ≢ OutOfMemory → IsShut (key_in key.now) authenticator_usage cipher.now) }
    {
        self.cache(key);
        match &self.cached {
            Some(keys) => { open_under(alloc, keys, cipher, Refusal::AuthenticatorIntegrity) }
            None => unreachable!(),
        }
    }

    // Caches a session key's keys, unless they are cached.
    #[inline(never)]
    fn cache(&mut self, key: &KeyRef)
        requires { IsUsable (key_in key.now) }
        ensures { self.new.cached ≡ Some (record { key = key_in key.now; usage = authenticator_usage }) }
    {
        match &self.cached {
            Some(keys) if keys.is_for(key.etype, key.bytes, usage::AUTHENTICATOR) => {}
            _ => {
                let key = usable_key(key.etype, key.bytes);
                self.cached = Some(key.for_usage(usage::AUTHENTICATOR));
            }
        }
    }
}
