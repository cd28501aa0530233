//! Decryption of what comes after the first block, from one slice into another.

ghost use Rattle.std.specs.Prelude.{◌≡◌, ◌+◌, ◌-◌, ◌*◌, ◌≤◌, ◌++◌, length, take, drop};
ghost use Rattle.krb_aes.specs.Cipher.{inv_cipher};
ghost use Rattle.krb_cts.specs.Stealing.{joined, xor};
ghost use Rattle.krb_cts.specs.Undo.{undo};
ghost use Rattle.krb_cts.specs.Inner.Chain.{later_block, unchained_to};

use crate::block::{BLOCK_LEN, Block, block_at, put_block, xor};
use crate::stealing::{last_block, undo_last_two};
use krb_aes::KeySchedule;

/// Decrypts a text of at least 16 bytes, and writes the plain text without its first 16 bytes to
/// `plain`, which has 16 bytes fewer than `text`.
///
/// The first 16 bytes of the plain text, such as a confounder, are not computed.
///
/// Source: RFC 3962, section 5; RFC 8009, section 5.
pub fn decrypt_after_first(schedule: &KeySchedule, text: &[u8], plain: &mut [u8])
    requires text { 16 ≤ length text.now }
    requires plain { 16 + length plain.old ≡ length text.now }
    ensures { plain.new ≡ drop 16 (undo schedule.now text.now) }
{
    let last_at = last_block(text);
    if last_at == 0 {
        return;
    }
    let (chained, last) = undo_last_two(schedule, text, last_at);
    let end = last_at - BLOCK_LEN;
    if end > 0 {
        decrypt_front(schedule, text, &chained, end / BLOCK_LEN - 1, plain);
    }
    put_end(plain, end, &last);
}

// Undoes the chain of the `count` blocks after the first, and of the block `chained` after them.
fn decrypt_front(
    schedule: &KeySchedule,
    text: &[u8],
    chained: &Block,
    count: usize,
    plain: &mut [u8],
)
    requires text { 16 * count + 16 ≤ length text.now }
    requires plain { 16 * count + 16 ≤ length plain.old }
    ensures { plain.new ≡ joined (later_block schedule.now text.now) count
        ++ xor (inv_cipher schedule.now chained.now) (take 16 (drop (16 * count) text.now))
        ++ drop (16 * count + 16) plain.old }
{
    decrypt_blocks_after(schedule, text, count, plain);
    let at = BLOCK_LEN * count;
    let mut block = *chained;
    schedule.decrypt_block(&mut block);
    put_block(plain, at, &xor(&block, &block_at(text, at)));
}

// Undoes the chain of the `count` blocks after the first.
fn decrypt_blocks_after(schedule: &KeySchedule, text: &[u8], count: usize, plain: &mut [u8])
    requires text { 16 * count + 16 ≤ length text.now }
    requires plain { 16 * count ≤ length plain.old }
    ensures { plain.new ≡ joined (later_block schedule.now text.now) count ++ drop (16 * count) plain.old }
{
    let fours = count / 4;
    decrypt_by_fours(schedule, text, fours, plain);
    let at = BLOCK_LEN * (4 * fours);
    let (_, rest) = plain.split_at_mut(at);
    decrypt_by_twos(schedule, &text[at..], count % 4, rest);
}

// Undoes the chain of four times `count` blocks after the first.
fn decrypt_by_fours(schedule: &KeySchedule, text: &[u8], count: usize, plain: &mut [u8])
    requires text { 16 * (4 * count) + 16 ≤ length text.now }
    requires plain { 16 * (4 * count) ≤ length plain.old }
    ensures { plain.new ≡ joined (later_block schedule.now text.now) (4 * count) ++ drop (16 * (4 * count)) plain.old }
{
    for i in 0..count {
        decrypt_four_after(schedule, text, BLOCK_LEN * (4 * i), plain);
    }
}

// Undoes the chain of the `count` blocks after the first, two by two.
fn decrypt_by_twos(schedule: &KeySchedule, text: &[u8], count: usize, plain: &mut [u8])
    requires text { 16 * count + 16 ≤ length text.now }
    requires plain { 16 * count ≤ length plain.old }
    ensures { plain.new ≡ joined (later_block schedule.now text.now) count ++ drop (16 * count) plain.old }
{
    for i in 0..count / 2 {
        decrypt_two_after(schedule, text, BLOCK_LEN * (2 * i), plain);
    }
    if count % 2 == 1 {
        decrypt_one_after(schedule, text, BLOCK_LEN * (count - 1), plain);
    }
}

// Undoes the chain of the four blocks after the one that begins at `at`, and puts them there.
fn decrypt_four_after(schedule: &KeySchedule, text: &[u8], at: usize, plain: &mut [u8])
    requires text { at + 80 ≤ length text.now }
    requires plain { at + 64 ≤ length plain.old }
    ensures { let two = unchained_to schedule.now text.now (unchained_to schedule.now text.now plain.old at) (at + 16) in
        plain.new ≡ unchained_to schedule.now text.now (unchained_to schedule.now text.now two (at + 16 + 16)) (at + 16 + 16 + 16) }
{
    let second_at = at + BLOCK_LEN;
    let third_at = second_at + BLOCK_LEN;
    let fourth_at = third_at + BLOCK_LEN;
    let before = block_at(text, at);
    let first = block_at(text, second_at);
    let second = block_at(text, third_at);
    let third = block_at(text, fourth_at);
    let fourth = block_at(text, fourth_at + BLOCK_LEN);
    let mut blocks = [first, second, third, fourth];
    schedule.decrypt_four_blocks(&mut blocks);
    put_block(plain, at, &xor(&blocks[0], &before));
    put_block(plain, second_at, &xor(&blocks[1], &first));
    put_block(plain, third_at, &xor(&blocks[2], &second));
    put_block(plain, fourth_at, &xor(&blocks[3], &third));
}

// Undoes the chain of the two blocks after the one that begins at `at`, and puts them there.
fn decrypt_two_after(schedule: &KeySchedule, text: &[u8], at: usize, plain: &mut [u8])
    requires text { at + 48 ≤ length text.now }
    requires plain { at + 32 ≤ length plain.old }
    ensures { plain.new
        ≡ unchained_to schedule.now text.now (unchained_to schedule.now text.now plain.old at) (at + 16) }
{
    let before = block_at(text, at);
    let first = block_at(text, at + BLOCK_LEN);
    let second = block_at(text, at + BLOCK_LEN + BLOCK_LEN);
    let mut one = first;
    let mut other = second;
    schedule.decrypt_two_blocks(&mut one, &mut other);
    put_block(plain, at, &xor(&one, &before));
    put_block(plain, at + BLOCK_LEN, &xor(&other, &first));
}

// Undoes the chain of the block after the one that begins at `at`, and puts it there.
fn decrypt_one_after(schedule: &KeySchedule, text: &[u8], at: usize, plain: &mut [u8])
    requires text { at + 32 ≤ length text.now }
    requires plain { at + 16 ≤ length plain.old }
    ensures { plain.new ≡ unchained_to schedule.now text.now plain.old at }
{
    let before = block_at(text, at);
    let mut block = block_at(text, at + BLOCK_LEN);
    schedule.decrypt_block(&mut block);
    put_block(plain, at, &xor(&block, &before));
}

// Puts the first bytes of a block at the offset `at`, up to the end.
fn put_end(plain: &mut [u8], at: usize, block: &Block)
    requires start { at ≤ length plain.old }
    requires end { length plain.old ≤ at + 16 }
    ensures { plain.new ≡ take at plain.old ++ take (length plain.old - at) block.now }
{
    let left = plain.len() - at;
    plain[at..].copy_from_slice(&block[..left]);
}
