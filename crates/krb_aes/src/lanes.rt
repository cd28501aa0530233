// The cipher on 16 lanes, one for each byte of the state.

ghost use Rattle.std.specs.Prelude.{All, ◌≡◌, ◌<◌, ◌+◌, ◌%◌, List, ℕ, length, map};
ghost use Rattle.krb_aes.specs.State.{sub_bytes, inv_sub_bytes, shift_rows, inv_shift_rows, mix_columns, inv_mix_columns, add_round_key};
ghost use Rattle.krb_aes.specs.KeyExpansion.{IsKey};
ghost use Rattle.krb_aes.specs.Cipher.{IsBlock, cipher, inv_cipher};
ghost use Rattle.krb_aes.specs.Inner.Schedule.{form_of_key, inv_form_of_key, kept};
ghost use Rattle.krb_aes.specs.Inner.Tower.{ArePlaces, looked_up, tower_form, inv_form};

use crate::KeySchedule;
use crate::tower::{
    InvProducts, formed, inv_by_01_and_04, inv_formed, inv_products, inv_substituted, inv_thrice,
    looked_up, products, substituted_form, times_0b, times_0d, times_0e, times_09,
};
use std::simd::prelude::*;

// The rounds leave out ShiftRows and InvShiftRows: they keep the block that n times ShiftRows would make into the
// standard's. So where the other bytes of a column lie depends on n, and is the same for n + 4.

// For n = 0, 1, 2 and 3 and each lane, the lane of the next byte of the column.
static NEXT_ROWS: [[u8; 16]; 4] = [
    [1, 2, 3, 0, 5, 6, 7, 4, 9, 10, 11, 8, 13, 14, 15, 12],
    [5, 6, 7, 4, 9, 10, 11, 8, 13, 14, 15, 12, 1, 2, 3, 0],
    [9, 10, 11, 8, 13, 14, 15, 12, 1, 2, 3, 0, 5, 6, 7, 4],
    [13, 14, 15, 12, 1, 2, 3, 0, 5, 6, 7, 4, 9, 10, 11, 8],
];

// That of the byte two rows below, which is the same for n + 2.
static OPPOSITE_ROWS: [[u8; 16]; 2] = [
    [2, 3, 0, 1, 6, 7, 4, 5, 10, 11, 8, 9, 14, 15, 12, 13],
    [10, 11, 8, 9, 14, 15, 12, 13, 2, 3, 0, 1, 6, 7, 4, 5],
];

// That of the byte three rows below.
static PREVIOUS_ROWS: [[u8; 16]; 4] = [
    [3, 0, 1, 2, 7, 4, 5, 6, 11, 8, 9, 10, 15, 12, 13, 14],
    [15, 12, 13, 14, 3, 0, 1, 2, 7, 4, 5, 6, 11, 8, 9, 10],
    [11, 8, 9, 10, 15, 12, 13, 14, 3, 0, 1, 2, 7, 4, 5, 6],
    [7, 4, 5, 6, 11, 8, 9, 10, 15, 12, 13, 14, 3, 0, 1, 2],
];

// The place of the lane's byte in the standard's block.
static KEPT: [[u8; 16]; 4] = [
    [0, 1, 2, 3, 4, 5, 6, 7, 8, 9, 10, 11, 12, 13, 14, 15],
    [0, 13, 10, 7, 4, 1, 14, 11, 8, 5, 2, 15, 12, 9, 6, 3],
    [0, 9, 2, 11, 4, 13, 6, 15, 8, 1, 10, 3, 12, 5, 14, 7],
    [0, 5, 10, 15, 4, 9, 14, 3, 8, 13, 2, 7, 12, 1, 6, 11],
];

// ShiftRows twice.
const SHIFTED_TWICE: [usize; 16] = [0, 9, 2, 11, 4, 13, 6, 15, 8, 1, 10, 3, 12, 5, 14, 7];

// Each column turned up by 1 to 3 places.
const TURNED_1: [usize; 16] = [1, 2, 3, 0, 5, 6, 7, 4, 9, 10, 11, 8, 13, 14, 15, 12];

const TURNED_2: [usize; 16] = [2, 3, 0, 1, 6, 7, 4, 5, 10, 11, 8, 9, 14, 15, 12, 13];

const TURNED_3: [usize; 16] = [3, 0, 1, 2, 7, 4, 5, 6, 11, 8, 9, 10, 15, 12, 13, 14];

// The first round key added to a block, in the form that encryption keeps.
#[inline(always)]
fn first_round(block: &[u8; 16], key: &[u8]) -> u8x16
    requires { length key.now ≡ 16 }
    ensures { result ≡ map tower_form (add_round_key block.now key.now) }
{
    formed(u8x16::from_array(*block) ^ u8x16::from_slice(key))
}

// The lanes of a vector at these places.
#[inline(always)]
fn turned(lanes: u8x16, places: &[u8; 16]) -> u8x16
    requires { ArePlaces places.now }
    ensures { result ≡ map (looked_up lanes) places.now }
{
    looked_up(&lanes.to_array(), u8x16::from_array(*places))
}

// A round of the cipher, on a block in the form that encryption keeps, with a key of `form_key`. Afterwards ShiftRows has
// been left out `shifts` times modulo 4. 02 times a byte, 03 times the next and the last two of a column add up to
// `sum` at the byte, `sum` at the next and the byte itself.
#[inline(always)]
fn round(form: u8x16, key: &[u8], shifts: usize) -> u8x16
    requires key { length key.now ≡ 16 }
    requires shifts { shifts < 4 }
    ensures { (block round_key : List ℕ) → IsBlock block → All (λ byte. byte < 256) round_key
        → form ≡ map tower_form (kept ((shifts + 3) % 4) block) → key.now ≡ form_of_key shifts round_key
        → result ≡ map tower_form (kept shifts (add_round_key (mix_columns (shift_rows (sub_bytes block))) round_key)) }
{
    let (product, tripled) = products(form);
    let once = product ^ u8x16::from_slice(key);
    let sum = tripled ^ turned(once, &OPPOSITE_ROWS[shifts % 2]);
    turned(sum, &NEXT_ROWS[shifts]) ^ (once ^ sum)
}

// The last round, which has no MixColumns. Before it ShiftRows has been left out once, modulo 4.
#[inline(always)]
fn last_round(form: u8x16, key: &[u8]) -> u8x16
    requires key { length key.now ≡ 16 }
    ensures { (block : List ℕ) → IsBlock block → form ≡ map tower_form (kept 1 block)
        → result ≡ add_round_key (shift_rows (sub_bytes block)) key.now }
{
    substituted_form(form).swizzle(SHIFTED_TWICE) ^ u8x16::from_slice(key)
}

// The first round key added to a block, in the form that decryption keeps.
#[inline(always)]
fn inv_first_round(block: &[u8; 16], key: &[u8]) -> u8x16
    requires { length key.now ≡ 16 }
    ensures block { IsBlock block.now }
    ensures form { result ≡ map inv_form (add_round_key block.now key.now) }
{
    inv_formed(u8x16::from_array(*block) ^ u8x16::from_slice(key))
}

// A round of the inverse cipher, on a block in the form that decryption keeps, with a key of `inv_key`. Afterwards `shifts`
// times ShiftRows, modulo 4, would make the block into the standard's; to leave out InvShiftRows takes one off.
#[inline(always)]
fn inv_round(form: u8x16, key: &[u8], shifts: usize) -> u8x16
    requires key { length key.now ≡ 16 }
    requires shifts { shifts < 4 }
    ensures { (block round_key : List ℕ) → IsBlock block → All (λ byte. byte < 256) round_key
        → form ≡ map inv_form (kept ((shifts + 1) % 4) block) → key.now ≡ inv_form_of_key shifts round_key
        → result ≡ map inv_form (kept shifts (inv_mix_columns (add_round_key (inv_sub_bytes (inv_shift_rows block)) round_key))) }
{
    let InvProducts {
        by_0e,
        by_0b,
        by_0d,
        by_09,
    } = inv_products(form);
    let first = by_0e ^ turned(by_0b, &NEXT_ROWS[shifts]);
    let others = turned(by_0d, &OPPOSITE_ROWS[shifts % 2]) ^ turned(by_09, &PREVIOUS_ROWS[shifts]);
    first ^ (others ^ u8x16::from_slice(key))
}

// What `inv_round` does, by fewer steps that wait longer for one another: faster where other blocks fill the time.
// InvMixColumns is MixColumns of `mixed`: of each byte plus 04 times the byte and 04 times the one two rows below.
#[inline(always)]
fn inv_round_of_several(form: u8x16, key: &[u8], shifts: usize) -> u8x16
    requires key { length key.now ≡ 16 }
    requires shifts { shifts < 4 }
    ensures { (block round_key : List ℕ) → IsBlock block → All (λ byte. byte < 256) round_key
        → form ≡ map inv_form (kept ((shifts + 1) % 4) block) → key.now ≡ inv_form_of_key shifts round_key
        → result ≡ map inv_form (kept shifts (inv_mix_columns (add_round_key (inv_sub_bytes (inv_shift_rows block)) round_key))) }
{
    let opposite = &OPPOSITE_ROWS[shifts % 2];
    let (by_01, by_04) = inv_by_01_and_04(form);
    let mixed = (by_01 ^ by_04) ^ turned(by_04, opposite);
    let sum = inv_thrice(mixed) ^ turned(mixed, opposite);
    turned(sum, &NEXT_ROWS[shifts]) ^ ((mixed ^ u8x16::from_slice(key)) ^ sum)
}

// The last round, which has no InvMixColumns. Before it InvShiftRows has been left out once, modulo 4.
#[inline(always)]
fn inv_last_round(form: u8x16, key: &[u8]) -> u8x16
    requires key { length key.now ≡ 16 }
    ensures { (block : List ℕ) → IsBlock block → form ≡ map inv_form (kept 3 block)
        → result ≡ add_round_key (inv_sub_bytes (inv_shift_rows block)) key.now }
{
    inv_substituted(form).swizzle(SHIFTED_TWICE) ^ u8x16::from_slice(key)
}

#[inline(always)]
fn inv_mix_columns(state: u8x16) -> u8x16
    ensures { result ≡ inv_mix_columns state }
{
    let first = times_0e(state) ^ times_0b(state).swizzle(TURNED_1);
    let others = times_0d(state).swizzle(TURNED_2) ^ times_09(state).swizzle(TURNED_3);
    first ^ others
}

// The key of a round as `round` takes it: with the constant of SubBytes, which MixColumns leaves as it is, and each byte
// plus the next two of its column; `round` makes the byte of them again.
#[inline(always)]
pub(crate) fn form_key(key: &[u8], shifts: usize) -> [u8; 16]
    requires key { length key.now ≡ 16 }
    requires shifts { shifts < 4 }
    ensures { result ≡ form_of_key shifts key.now }
{
    let with_constant = u8x16::splat(0x63) ^ u8x16::from_slice(key);
    let others = with_constant.swizzle(TURNED_1) ^ with_constant.swizzle(TURNED_2);
    turned(formed(with_constant ^ others), &KEPT[shifts]).to_array()
}

// The key of a round as `inv_round` takes it.
#[inline(always)]
pub(crate) fn inv_key(key: &[u8], shifts: usize) -> [u8; 16]
    requires key { length key.now ≡ 16 }
    requires shifts { shifts < 4 }
    ensures { result ≡ inv_form_of_key shifts key.now }
{
    let form = inv_formed(inv_mix_columns(u8x16::from_slice(key)));
    turned(form, &KEPT[shifts]).to_array()
}

pub(crate) fn encrypt_block(schedule: &KeySchedule, block: &mut [u8; 16])
    ensures key { IsKey schedule.now }
    ensures block { block.new ≡ cipher schedule.now block.old }
    ensures undone { inv_cipher schedule.now block.new ≡ block.old }
{
    let last = schedule.rounds();
    let mut form = first_round(block, schedule.round_key(0));
    for at in 1..last {
        let next = round(form, schedule.form_key(at), at % 4);
        form = next;
    }
    *block = last_round(form, schedule.round_key(last)).to_array();
}

pub(crate) fn decrypt_block(schedule: &KeySchedule, block: &mut [u8; 16])
    ensures key { IsKey schedule.now }
    ensures block { block.new ≡ inv_cipher schedule.now block.old }
    ensures undone { cipher schedule.now block.new ≡ block.old }
{
    let last = schedule.rounds();
    let mut form = inv_first_round(block, schedule.round_key(last));
    for at in (1..last).rev() {
        let next = inv_round(form, schedule.inv_key(at), (at + 2) % 4);
        form = next;
    }
    *block = inv_last_round(form, schedule.round_key(0)).to_array();
}

// Two blocks at once, since the steps of one wait for one another.
pub(crate) fn decrypt_two_blocks(schedule: &KeySchedule, one: &mut [u8; 16], other: &mut [u8; 16])
    ensures key { IsKey schedule.now }
    ensures one { one.new ≡ inv_cipher schedule.now one.old }
    ensures other { other.new ≡ inv_cipher schedule.now other.old }
    ensures one_undone { cipher schedule.now one.new ≡ one.old }
    ensures other_undone { cipher schedule.now other.new ≡ other.old }
{
    let last = schedule.rounds();
    let first_key = schedule.round_key(last);
    let mut one_form = inv_first_round(one, first_key);
    let mut other_form = inv_first_round(other, first_key);
    for round in (1..last).rev() {
        let key = schedule.inv_key(round);
        let next_one = inv_round_of_several(one_form, key, (round + 2) % 4);
        let next_other = inv_round_of_several(other_form, key, (round + 2) % 4);
        one_form = next_one;
        other_form = next_other;
    }
    let last_key = schedule.round_key(0);
    *one = inv_last_round(one_form, last_key).to_array();
    *other = inv_last_round(other_form, last_key).to_array();
}

// Four blocks at once, as `decrypt_two_blocks` does two.
pub(crate) fn decrypt_four_blocks(schedule: &KeySchedule, blocks: &mut [[u8; 16]; 4])
    ensures key { IsKey schedule.now }
    ensures blocks { blocks.new ≡ map (inv_cipher schedule.now) blocks.old }
    ensures undone { map (cipher schedule.now) blocks.new ≡ blocks.old }
{
    let last = schedule.rounds();
    let first_key = schedule.round_key(last);
    let mut first = inv_first_round(&blocks[0], first_key);
    let mut second = inv_first_round(&blocks[1], first_key);
    let mut third = inv_first_round(&blocks[2], first_key);
    let mut fourth = inv_first_round(&blocks[3], first_key);
    for round in (1..last).rev() {
        let key = schedule.inv_key(round);
        let shifts = (round + 2) % 4;
        let next_first = inv_round_of_several(first, key, shifts);
        let next_second = inv_round_of_several(second, key, shifts);
        let next_third = inv_round_of_several(third, key, shifts);
        let next_fourth = inv_round_of_several(fourth, key, shifts);
        first = next_first;
        second = next_second;
        third = next_third;
        fourth = next_fourth;
    }
    let last_key = schedule.round_key(0);
    *blocks = [
        inv_last_round(first, last_key).to_array(),
        inv_last_round(second, last_key).to_array(),
        inv_last_round(third, last_key).to_array(),
        inv_last_round(fourth, last_key).to_array(),
    ];
}
