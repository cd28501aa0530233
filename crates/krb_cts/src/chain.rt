//! Cipher block chaining of whole blocks, in place.

ghost use Rattle.std.specs.Prelude.{◌≡◌, ◌+◌, ◌*◌, ◌<◌, ◌≤◌, ◌++◌, length, take, drop};
ghost use Rattle.krb_aes.specs.KeyExpansion.{IsKey};
ghost use Rattle.krb_cts.specs.Stealing.{cipher_block, joined};
ghost use Rattle.krb_cts.specs.Inner.Chain.{unchained_block, undone_at};

use crate::block::{BLOCK_LEN, Block, block_at, put_block, xor};
use krb_aes::KeySchedule;

// Chains the first `count` blocks of a text, and answers the last of them.
pub(crate) fn encrypt_blocks(schedule: &KeySchedule, text: &mut [u8], count: usize) -> Block
    requires { 16 * count ≤ length text.old }
    ensures text { text.new ≡ joined (cipher_block schedule.now text.old) count ++ drop (16 * count) text.old }
    ensures last { result ≡ cipher_block schedule.now text.old count }
    ensures key { 0 < count → IsKey schedule.now }
{
    let mut previous = [0; BLOCK_LEN];
    for i in 0..count {
        let at = BLOCK_LEN * i;
        let mut block = xor(&block_at(text, at), &previous);
        schedule.encrypt_block(&mut block);
        put_block(text, at, &block);
        previous = block;
    }
    previous
}

// Undoes the chain of the first `count` blocks of a text, two by two.
pub(crate) fn decrypt_blocks(schedule: &KeySchedule, text: &mut [u8], count: usize)
    requires { 16 * count ≤ length text.old }
    ensures text { text.new ≡ joined (unchained_block schedule.now text.old) count ++ drop (16 * count) text.old }
    ensures key { 0 < count → IsKey schedule.now }
{
    let mut previous = [0; BLOCK_LEN];
    for i in 0..count / 2 {
        let chained = decrypt_two(schedule, text, BLOCK_LEN * (2 * i), &previous);
        previous = chained;
    }
    if count % 2 == 1 {
        decrypt_one(schedule, text, BLOCK_LEN * (count - 1), &previous);
    }
}

// Undoes the chain of the two blocks that begin at `at`, after the block `previous`, and returns the second as it was.
fn decrypt_two(schedule: &KeySchedule, text: &mut [u8], at: usize, previous: &Block) -> Block
    requires { at + 32 ≤ length text.old }
    ensures text { let first = take 16 (drop at text.old) in
        text.new ≡ undone_at schedule.now (undone_at schedule.now text.old at previous.now) (at + 16) first }
    ensures last { result ≡ take 16 (drop (at + 16) text.old) }
    ensures key { IsKey schedule.now }
{
    let first = block_at(text, at);
    let second = block_at(text, at + BLOCK_LEN);
    let mut one = first;
    let mut other = second;
    schedule.decrypt_two_blocks(&mut one, &mut other);
    put_block(text, at, &xor(&one, previous));
    put_block(text, at + BLOCK_LEN, &xor(&other, &first));
    second
}

// Undoes the chain of the block that begins at `at`, after the block `previous`.
fn decrypt_one(schedule: &KeySchedule, text: &mut [u8], at: usize, previous: &Block)
    requires { at + 16 ≤ length text.old }
    ensures text { text.new ≡ undone_at schedule.now text.old at previous.now }
    ensures key { IsKey schedule.now }
{
    let mut block = block_at(text, at);
    schedule.decrypt_block(&mut block);
    put_block(text, at, &xor(&block, previous));
}
