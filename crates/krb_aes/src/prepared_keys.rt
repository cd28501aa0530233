// The keys of the rounds but the first and the last, as the rounds take them.

ghost use Rattle.std.specs.Prelude.{◌≡◌, ◌<◌, ◌≤◌, ℕ};
ghost use Rattle.krb_aes.specs.KeyExpansion.{round_key};
ghost use Rattle.krb_aes.specs.Inner.Schedule.{form_round_key, inv_round_key};

use crate::expansion::EXPANDED_LEN;
use crate::lanes::{form_key, inv_key};

// The keys of rounds 1 to `last` - 1, at the places that they have among the words of the key expansion.
#[derive(Drop)]
pub(crate) struct PreparedKeys {
    // As `round` takes them.
    pub(crate) form_words: [u8; EXPANDED_LEN],
    // As `inv_round` takes them.
    pub(crate) inv_words: [u8; EXPANDED_LEN],
}

#[inline(never)]
pub(crate) fn prepared_keys(words: &[u8; EXPANDED_LEN], last: usize) -> PreparedKeys
    requires { last ≤ 14 }
    ensures formed { (j : ℕ) → 1 ≤ j → j < last → round_key result.form_words j ≡ form_round_key words.now j }
    ensures inverse { (j : ℕ) → 1 ≤ j → j < last → round_key result.inv_words j ≡ inv_round_key words.now j }
{
    let mut form_words = [0; EXPANDED_LEN];
    let mut inv_words = [0; EXPANDED_LEN];
    for at in 1..last {
        let key = &words[16 * at..16 * at + 16];
        form_words[16 * at..16 * at + 16].copy_from_slice(&form_key(key, at % 4));
        inv_words[16 * at..16 * at + 16].copy_from_slice(&inv_key(key, (at + 2) % 4));
    }
    PreparedKeys {
        form_words,
        inv_words,
    }
}
