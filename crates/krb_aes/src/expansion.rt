// The key expansion (FIPS 197, section 5.2).

ghost use Rattle.std.specs.Prelude.{◌≡◌, ◌⊎◌, ◌+◌, ◌*◌, ◌<◌, ◌≤◌, length, take};
ghost use Rattle.krb_aes.specs.KeyExpansion.{IsKey, key_expansion, word, rot_word, sub_word, sum_of_words, next_word};

use crate::tables::power_of_x;
use crate::tower::substituted;
use std::simd::prelude::*;

// The bytes of the 60 words of the longest expanded key.
pub(crate) const EXPANDED_LEN: usize = 240;

type Word = [u8; 4];

fn word(words: &[u8; EXPANDED_LEN], i: usize) -> Word
    requires { i < 60 }
    ensures { result ≡ word words.now i }
{
    [
        words[4 * i],
        words[4 * i + 1],
        words[4 * i + 2],
        words[4 * i + 3],
    ]
}

fn rot_word(t: Word) -> Word
    ensures { result ≡ rot_word t }
{
    [t[1], t[2], t[3], t[0]]
}

// On the first four lanes, as the rounds do it, so that no bytes of a key are places in a table in memory.
fn sub_word(t: Word) -> Word
    ensures { result ≡ sub_word t }
{
    let lanes = [t[0], t[1], t[2], t[3], 0, 0, 0, 0, 0, 0, 0, 0, 0, 0, 0, 0];
    let bytes = substituted(u8x16::from_array(lanes)).to_array();
    [bytes[0], bytes[1], bytes[2], bytes[3]]
}

fn sum_of_words(a: Word, b: Word) -> Word
    ensures { result ≡ sum_of_words a b }
{
    [a[0] ^ b[0], a[1] ^ b[1], a[2] ^ b[2], a[3] ^ b[3]]
}

// Word `i` of a key of `key_words` words, from those before it.
fn next_word(words: &[u8; EXPANDED_LEN], key_words: usize, i: usize) -> Word
    requires size { (key_words ≡ 4) ⊎ (key_words ≡ 8) }
    requires after { key_words ≤ i }
    requires before { i < 4 * (key_words + 7) }
    ensures { result ≡ next_word key_words i words.now }
{
    let last = word(words, i - 1);
    let change = if i % key_words == 0 {
        let rcon = power_of_x(i / key_words - 1);
        sum_of_words(sub_word(rot_word(last)), [rcon, 0, 0, 0])
    } else if key_words > 6 && i % key_words == 4 {
        sub_word(last)
    } else {
        last
    };
    sum_of_words(word(words, i - key_words), change)
}

// The key, with zeros after it.
fn with_room(key: &[u8]) -> [u8; EXPANDED_LEN]
    requires { length key.now ≤ 32 }
    ensures { take (length key.now) result ≡ key.now }
{
    let mut words = [0; EXPANDED_LEN];
    words[..key.len()].copy_from_slice(key);
    words
}

// The words of the round keys: one key more than rounds. Zeros fill the rest.
#[inline(never)]
pub(crate) fn expand(key: &[u8]) -> [u8; EXPANDED_LEN]
    requires { IsKey key.now }
    ensures words { take (4 * length key.now + 112) result ≡ key_expansion key.now }
    ensures key { take (length key.now) result ≡ key.now }
{
    let key_words = key.len() / 4;
    let mut words = with_room(key);
    for i in key_words..4 * (key_words + 7) {
        let next = next_word(&words, key_words, i);
        words[4 * i..4 * i + 4].copy_from_slice(&next);
    }
    words
}
