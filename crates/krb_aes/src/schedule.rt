ghost use Rattle.std.specs.Prelude.{◌≡◌, ◌+◌, ◌*◌, ◌/◌, ◌<◌, ◌≤◌, List, ℕ, length, map, take};
ghost use Rattle.krb_aes.specs.KeyExpansion.{IsKey, key_expansion, round_count, round_key};
ghost use Rattle.krb_aes.specs.Cipher.{cipher, inv_cipher};
ghost use Rattle.krb_aes.specs.Inner.Schedule.{IsSchedule, form_round_key, inv_round_key};

use crate::expansion::{EXPANDED_LEN, expand};
use crate::lanes;
use crate::prepared_keys::{PreparedKeys, prepared_keys};
use std::marker::Model;

/// A key of 128 or 256 bits with its round keys, ready to encrypt and decrypt blocks.
///
/// In a clause it is the list of the key's bytes.
#[derive(Drop)]
pub struct KeySchedule {
    words: [u8; EXPANDED_LEN],
    prepared: PreparedKeys,
    key_len: usize,
}

impl Model for KeySchedule {
    ghost Value = { List ℕ };

    ghost view = { λ s. take s.key_len s.words };

    ghost invariant = { λ s. IsSchedule s.key_len s.words s.prepared.form_words s.prepared.inv_words };
}

impl KeySchedule {
    /// Expands a key of 16 bytes to the 11 round keys of AES-128.
    ///
    /// Source: FIPS 197, section 5.2.
    pub fn new_128(key: &[u8; 16]) -> KeySchedule
        ensures { result ≡ key.now }
    {
        let words = expand(key);
        KeySchedule {
            prepared: prepared_keys(&words, 10),
            words,
            key_len: 16,
        }
    }

    /// Expands a key of 32 bytes to the 15 round keys of AES-256.
    ///
    /// Source: FIPS 197, section 5.2.
    pub fn new_256(key: &[u8; 32]) -> KeySchedule
        ensures { result ≡ key.now }
    {
        let words = expand(key);
        KeySchedule {
            prepared: prepared_keys(&words, 14),
            words,
            key_len: 32,
        }
    }

    /// Encrypts a block in place: CIPHER under this key, in 10 or 14 rounds.
    ///
    /// Source: FIPS 197, section 5.1.
    pub fn encrypt_block(&self, block: &mut [u8; 16])
        ensures key { IsKey self.now }
        ensures block { block.new ≡ cipher self.now block.old }
        // Decryption gives the old block back.
        ensures undone { inv_cipher self.now block.new ≡ block.old }
    {
        lanes::encrypt_block(self, block);
    }

    /// Decrypts a block in place: INVCIPHER under this key, in 10 or 14 rounds.
    ///
    /// Source: FIPS 197, section 5.3.
    pub fn decrypt_block(&self, block: &mut [u8; 16])
        ensures key { IsKey self.now }
        ensures block { block.new ≡ inv_cipher self.now block.old }
        // Encryption gives the old block back.
        ensures undone { cipher self.now block.new ≡ block.old }
    {
        lanes::decrypt_block(self, block);
    }

    /// Decrypts two blocks in place, each as `decrypt_block` does. This is faster than two calls.
    ///
    /// Source: FIPS 197, section 5.3.
    pub fn decrypt_two_blocks(&self, one: &mut [u8; 16], other: &mut [u8; 16])
        ensures key { IsKey self.now }
        ensures one { one.new ≡ inv_cipher self.now one.old }
        ensures other { other.new ≡ inv_cipher self.now other.old }
        // Encryption gives the old blocks back.
        ensures one_undone { cipher self.now one.new ≡ one.old }
        ensures other_undone { cipher self.now other.new ≡ other.old }
    {
        lanes::decrypt_two_blocks(self, one, other);
    }

    /// Decrypts four blocks in place, each as `decrypt_block` does. This is faster than two calls for two blocks.
    ///
    /// Source: FIPS 197, section 5.3.
    pub fn decrypt_four_blocks(&self, blocks: &mut [[u8; 16]; 4])
        ensures key { IsKey self.now }
        ensures blocks { blocks.new ≡ map (inv_cipher self.now) blocks.old }
        // Encryption gives the old blocks back.
        ensures undone { map (cipher self.now) blocks.new ≡ blocks.old }
    {
        lanes::decrypt_four_blocks(self, blocks);
    }

    // The number of rounds.
    pub(crate) fn rounds(&self) -> usize
        ensures key { IsKey self.now }
        ensures count { result ≡ round_count self.now }
        ensures some { 10 ≤ result }
        ensures most { result ≤ 14 }
    {
        self.key_len / 4 + 6
    }

    pub(crate) fn round_key(&self, round: usize) -> &[u8]
        requires key { IsKey self.now }
        requires round { round ≤ round_count self.now }
        ensures value { result.now ≡ round_key (key_expansion self.now) round }
        ensures len { length result.now ≡ 16 }
    {
        &self.words[16 * round..16 * round + 16]
    }

    // The key of a round of encryption but the first and the last, as `lanes::round` takes it.
    pub(crate) fn form_key(&self, round: usize) -> &[u8]
        requires key { IsKey self.now }
        requires some { 1 ≤ round }
        requires round { round < round_count self.now }
        ensures value { result.now ≡ form_round_key (key_expansion self.now) round }
        ensures len { length result.now ≡ 16 }
    {
        &self.prepared.form_words[16 * round..16 * round + 16]
    }

    // The same of decryption, as `lanes::inv_round` takes it.
    pub(crate) fn inv_key(&self, round: usize) -> &[u8]
        requires key { IsKey self.now }
        requires some { 1 ≤ round }
        requires round { round < round_count self.now }
        ensures value { result.now ≡ inv_round_key (key_expansion self.now) round }
        ensures len { length result.now ≡ 16 }
    {
        &self.prepared.inv_words[16 * round..16 * round + 16]
    }
}
