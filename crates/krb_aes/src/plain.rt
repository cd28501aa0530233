//! The cipher byte by byte, with tables of 256 bytes: the calls of `KeySchedule` with a second body
//! under the same contracts.

ghost use Rattle.std.specs.Prelude.{◌≡◌, length};
ghost use Rattle.krb_aes.specs.Field.{product};
ghost use Rattle.krb_aes.specs.State.{sub_bytes, inv_sub_bytes, shift_rows, inv_shift_rows, mix_columns, inv_mix_columns, add_round_key};
ghost use Rattle.krb_aes.specs.KeyExpansion.{IsKey};
ghost use Rattle.krb_aes.specs.Cipher.{cipher, inv_cipher};
ghost use Rattle.krb_aes.specs.Inner.Columns.{mixed_column, inv_mixed_column, joined};

use crate::KeySchedule;
use crate::tables::{double, inv_sub, sub};

type Block = [u8; 16];

#[inline(always)]
#[tactic(auto, unfolding(crate::specs::State::add_round_key))]
fn add_round_key(s: &Block, key: &[u8]) -> Block
    requires { length key.now ≡ 16 }
    ensures { result ≡ add_round_key s.now key.now }
{
    [
        s[0] ^ key[0],
        s[1] ^ key[1],
        s[2] ^ key[2],
        s[3] ^ key[3],
        s[4] ^ key[4],
        s[5] ^ key[5],
        s[6] ^ key[6],
        s[7] ^ key[7],
        s[8] ^ key[8],
        s[9] ^ key[9],
        s[10] ^ key[10],
        s[11] ^ key[11],
        s[12] ^ key[12],
        s[13] ^ key[13],
        s[14] ^ key[14],
        s[15] ^ key[15],
    ]
}

// SubBytes and ShiftRows.
#[inline(always)]
#[tactic(auto, unfolding(crate::specs::State::sub_bytes, crate::specs::State::shift_rows))]
fn substituted_and_shifted(s: &Block) -> Block
    ensures { result ≡ shift_rows (sub_bytes s.now) }
{
    [
        sub(s[0]),
        sub(s[5]),
        sub(s[10]),
        sub(s[15]),
        sub(s[4]),
        sub(s[9]),
        sub(s[14]),
        sub(s[3]),
        sub(s[8]),
        sub(s[13]),
        sub(s[2]),
        sub(s[7]),
        sub(s[12]),
        sub(s[1]),
        sub(s[6]),
        sub(s[11]),
    ]
}

// InvShiftRows and InvSubBytes.
#[inline(always)]
#[tactic(auto, unfolding(crate::specs::State::inv_sub_bytes, crate::specs::State::inv_shift_rows))]
fn unshifted_and_restored(s: &Block) -> Block
    ensures { result ≡ inv_sub_bytes (inv_shift_rows s.now) }
{
    [
        inv_sub(s[0]),
        inv_sub(s[13]),
        inv_sub(s[10]),
        inv_sub(s[7]),
        inv_sub(s[4]),
        inv_sub(s[1]),
        inv_sub(s[14]),
        inv_sub(s[11]),
        inv_sub(s[8]),
        inv_sub(s[5]),
        inv_sub(s[2]),
        inv_sub(s[15]),
        inv_sub(s[12]),
        inv_sub(s[9]),
        inv_sub(s[6]),
        inv_sub(s[3]),
    ]
}

#[inline(always)]
#[tactic(auto, using(crate::proofs::ProductRules::product_by_03))]
fn triple(byte: u8) -> u8
    ensures { result ≡ product 0x03 byte }
{
    double(byte) ^ byte
}

#[inline(always)]
#[tactic(auto, using(crate::proofs::ProductRules::product_by_01))]
fn mixed_column(a: u8, b: u8, c: u8, d: u8) -> [u8; 4]
    ensures { result ≡ mixed_column a b c d }
{
    [
        double(a) ^ triple(b) ^ c ^ d,
        a ^ double(b) ^ triple(c) ^ d,
        a ^ b ^ double(c) ^ triple(d),
        triple(a) ^ b ^ c ^ double(d),
    ]
}

#[inline(always)]
#[tactic(auto, using(crate::proofs::ProductRules::product_by_09))]
fn times_09(byte: u8) -> u8
    ensures { result ≡ product 0x09 byte }
{
    double(double(double(byte))) ^ byte
}

#[inline(always)]
#[tactic(auto, using(crate::proofs::ProductRules::product_by_0b))]
fn times_0b(byte: u8) -> u8
    ensures { result ≡ product 0x0b byte }
{
    double(double(double(byte))) ^ double(byte) ^ byte
}

#[inline(always)]
#[tactic(auto, using(crate::proofs::ProductRules::product_by_0d))]
fn times_0d(byte: u8) -> u8
    ensures { result ≡ product 0x0d byte }
{
    double(double(double(byte))) ^ double(double(byte)) ^ byte
}

#[inline(always)]
#[tactic(auto, using(crate::proofs::ProductRules::product_by_0e))]
fn times_0e(byte: u8) -> u8
    ensures { result ≡ product 0x0e byte }
{
    double(double(double(byte))) ^ double(double(byte)) ^ double(byte)
}

#[inline(always)]
fn inv_mixed_column(a: u8, b: u8, c: u8, d: u8) -> [u8; 4]
    ensures { result ≡ inv_mixed_column a b c d }
{
    [
        times_0e(a) ^ times_0b(b) ^ times_0d(c) ^ times_09(d),
        times_09(a) ^ times_0e(b) ^ times_0b(c) ^ times_0d(d),
        times_0d(a) ^ times_09(b) ^ times_0e(c) ^ times_0b(d),
        times_0b(a) ^ times_0d(b) ^ times_09(c) ^ times_0e(d),
    ]
}

#[inline(always)]
fn joined(p: [u8; 4], q: [u8; 4], r: [u8; 4], t: [u8; 4]) -> Block
    ensures { result ≡ joined p q r t }
{
    [
        p[0], p[1], p[2], p[3], q[0], q[1], q[2], q[3], r[0], r[1], r[2], r[3], t[0], t[1], t[2],
        t[3],
    ]
}

#[inline(always)]
#[tactic(auto, unfolding(crate::specs::State::mix_columns))]
fn mix_columns(s: &Block) -> Block
    ensures { result ≡ mix_columns s.now }
{
    joined(
        mixed_column(s[0], s[1], s[2], s[3]),
        mixed_column(s[4], s[5], s[6], s[7]),
        mixed_column(s[8], s[9], s[10], s[11]),
        mixed_column(s[12], s[13], s[14], s[15]),
    )
}

#[inline(always)]
#[tactic(auto, unfolding(crate::specs::State::inv_mix_columns))]
fn inv_mix_columns(s: &Block) -> Block
    ensures { result ≡ inv_mix_columns s.now }
{
    joined(
        inv_mixed_column(s[0], s[1], s[2], s[3]),
        inv_mixed_column(s[4], s[5], s[6], s[7]),
        inv_mixed_column(s[8], s[9], s[10], s[11]),
        inv_mixed_column(s[12], s[13], s[14], s[15]),
    )
}

/// Encrypts a block in place, as [`KeySchedule::encrypt_block`] does.
///
/// Source: FIPS 197, section 5.1.
pub fn encrypt_block(schedule: &KeySchedule, block: &mut [u8; 16])
    ensures key { IsKey schedule.now }
    ensures block { block.new ≡ cipher schedule.now block.old }
    // Decryption gives the old block back.
    ensures undone { inv_cipher schedule.now block.new ≡ block.old }
{
    let last = schedule.rounds();
    let mut state = add_round_key(block, schedule.round_key(0));
    for round in 1..last {
        let mixed = mix_columns(&substituted_and_shifted(&state));
        let next = add_round_key(&mixed, schedule.round_key(round));
        state = next;
    }
    *block = add_round_key(&substituted_and_shifted(&state), schedule.round_key(last));
}

/// Decrypts a block in place, as [`KeySchedule::decrypt_block`] does.
///
/// Source: FIPS 197, section 5.3.
pub fn decrypt_block(schedule: &KeySchedule, block: &mut [u8; 16])
    ensures key { IsKey schedule.now }
    ensures block { block.new ≡ inv_cipher schedule.now block.old }
    // Encryption gives the old block back.
    ensures undone { cipher schedule.now block.new ≡ block.old }
{
    let last = schedule.rounds();
    let mut state = add_round_key(block, schedule.round_key(last));
    for round in (1..last).rev() {
        let keyed = add_round_key(&unshifted_and_restored(&state), schedule.round_key(round));
        let next = inv_mix_columns(&keyed);
        state = next;
    }
    *block = add_round_key(&unshifted_and_restored(&state), schedule.round_key(0));
}
