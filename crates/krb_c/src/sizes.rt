// Made from interface.toml by `make generate`. Don't edit this file.

//! The sizes that options may have, and what shorter ones stand for.

ghost use Rattle.std.specs.Prelude.{◌≡◌};
ghost use Rattle.krb_c.specs.Sizes.{whole};

use crate::structs::AcceptorOptions;

/// The size of the options. A struct of another size that isn't one of the shorter ones belongs to another
/// version of the header.
pub(crate) const OPTIONS_SIZE: usize = 88;

impl AcceptorOptions {
    /// The options that these stand for: what a shorter struct lacks is 0.
    pub(crate) fn whole(&self) -> AcceptorOptions
        ensures { result ≡ whole self.now }
    {
        if self.size == 56 {
            return AcceptorOptions {
                size: OPTIONS_SIZE,
                started: self.started,
                skew: self.skew,
                restarts: self.restarts,
                any_name: self.any_name,
                any_start: self.any_start,
                limit: self.limit,
                limit_for_client: self.limit_for_client,
                bindings: 0,
                subkey_type: 0,
                bindings_hash: [0; 16],
                anonymous: false,
                only_realms: false,
            };
        }
        *self
    }
}
