//! Session keys with the keys that are derived from them, and credentials with theirs.

ghost use Rattle.std.specs.Prelude.{◌≡◌, ◌↔◌, IsTrue};
ghost use Rattle.krb_ap.specs.Words.{IsUsable, authenticator_usage};
ghost use Rattle.krb_ap.specs.Credentials.{credential_key};

use crate::keys::usable_key;
use krb_ccache::Credential;
use krb_enc::{Key, UsageKey};
use krb_msg::usage;

/// A session key, and the keys that seal and open authenticators under it.
#[derive(Drop)]
pub(crate) struct ReadyKey {
    pub(crate) key: Key,
    pub(crate) keys: UsageKey,
    ghost keys_are: { keys ≡ record { key = key; usage = authenticator_usage } },
}

impl ReadyKey {
    /// Derives the keys from a credential's session key.
    pub(crate) fn of(credential: &Credential) -> ReadyKey
        requires { IsUsable (credential_key credential.now) }
        ensures { result.key ≡ credential_key credential.now }
    {
        let key = usable_key(i32::from(credential.etype), credential.key.as_slice());
        let keys = key.for_usage(usage::AUTHENTICATOR);
        ReadyKey { key, keys }
    }

    /// Returns whether this is the credential's session key.
    pub(crate) fn is_of(&self, credential: &Credential) -> bool
        ensures { IsTrue result ↔ (self.now.key ≡ credential_key credential.now) }
    {
        let etype = i32::from(credential.etype);
        let key = credential.key.as_slice();
        self.keys.is_for(etype, key, usage::AUTHENTICATOR)
    }
}

/// What a request is made with: a credential, and its session key with the keys derived from it.
#[derive(Drop)]
pub(crate) struct ReadyCredential<'a> {
    pub(crate) credential: &'a Credential,
    pub(crate) key: &'a ReadyKey,
    ghost key_is: { key.now.key ≡ credential_key credential.now },
}
