//! Ciphertext stealing.

ghost use Rattle.std.specs.Prelude.{◌≡◌, ◌+◌, ◌-◌, ◌*◌, ◌/◌, ◌<◌, ◌≤◌, ◌++◌, length, take, drop};
ghost use Rattle.krb_aes.specs.Cipher.{cipher, inv_cipher};
ghost use Rattle.krb_cts.specs.Stealing.{IsText, cts, xor, zeros};
ghost use Rattle.krb_cts.specs.Undo.{undo};

use crate::block::{BLOCK_LEN, Block, block_at, put_block, xor};
use crate::chain::{decrypt_blocks, encrypt_blocks};
use krb_aes::KeySchedule;

/// Encrypts a text of at least 16 bytes in place, in CBC mode with ciphertext stealing and an
/// initial vector of zeros. Its length stays the same.
///
/// A text of 16 bytes is one block. In a longer text, the last two blocks of the ciphertext are
/// swapped (even if the last is full), and the bytes that padded the last block are left out.
///
/// Source: RFC 3962, section 5; RFC 8009, section 5.
pub fn encrypt(schedule: &KeySchedule, text: &mut [u8])
    requires { 16 ≤ length text.old }
    ensures text { text.new ≡ cts schedule.now text.old }
    // Decryption gives the old text back.
    ensures undone { undo schedule.now text.new ≡ text.old }
{
    let last_at = last_block(text);
    if last_at == 0 {
        let _ = encrypt_blocks(schedule, text, 1);
    } else {
        let previous = encrypt_blocks(schedule, text, last_at / BLOCK_LEN);
        steal(schedule, text, last_at, &previous);
    }
}

/// Decrypts a text of at least 16 bytes in place: undoes the stealing and the chain. Its length
/// stays the same.
///
/// Source: RFC 3962, section 5; RFC 8009, section 5.
pub fn decrypt(schedule: &KeySchedule, text: &mut [u8])
    requires { 16 ≤ length text.old }
    ensures text { text.new ≡ undo schedule.now text.old }
    // Encryption gives the old text back.
    ensures undone { cts schedule.now text.new ≡ text.old }
{
    let last_at = last_block(text);
    if last_at == 0 {
        decrypt_blocks(schedule, text, 1);
    } else {
        give_back(schedule, text, last_at);
        decrypt_blocks(schedule, text, last_at / BLOCK_LEN);
    }
}

// Where the last block of a text begins.
pub(crate) fn last_block(text: &[u8]) -> usize
    requires { 16 ≤ length text.now }
    ensures start { result ≡ 16 * ((length text.now + 15) / 16 - 1) }
    ensures text { IsText text.now }
{
    (text.len() - 1) / BLOCK_LEN * BLOCK_LEN
}

// Encrypts the last block, which begins at `at`, after the block `previous`, and swaps these two.
fn steal(schedule: &KeySchedule, text: &mut [u8], at: usize, previous: &Block)
    requires before { 16 ≤ at }
    requires last { at < length text.old }
    requires end { length text.old ≤ at + 16 }
    ensures { text.new ≡ take (at - 16) text.old
        ++ cipher schedule.now (xor (drop at text.old ++ drop (length text.old - at) zeros) previous.now)
        ++ take (length text.old - at) previous.now }
{
    let left = text.len() - at;
    let mut last = [0; BLOCK_LEN];
    last[..left].copy_from_slice(&text[at..]);
    let mut last = xor(&last, previous);
    schedule.encrypt_block(&mut last);
    put_block(text, at - BLOCK_LEN, &last);
    text[at..].copy_from_slice(&previous[..left]);
}

// Undoes the last block, which begins at `at`: it stands before what is left of the block that was
// chained before it. Puts that block, whole again, in its place.
fn give_back(schedule: &KeySchedule, text: &mut [u8], at: usize)
    requires before { 16 ≤ at }
    requires last { at < length text.old }
    requires end { length text.old ≤ at + 16 }
    ensures { let last = inv_cipher schedule.now (take 16 (drop (at - 16) text.old)) in
        let chained = drop at text.old ++ drop (length text.old - at) last in
        text.new ≡ take (at - 16) text.old ++ chained ++ take (length text.old - at) (xor last chained) }
{
    let left = text.len() - at;
    let (chained, plain) = undo_last_two(schedule, text, at);
    put_block(text, at - BLOCK_LEN, &chained);
    text[at..].copy_from_slice(&plain[..left]);
}

// The block that was chained before the last one, whole again, and the last block as it was before
// it was chained, with what padded it. The last block of the text begins at `at`.
pub(crate) fn undo_last_two(schedule: &KeySchedule, text: &[u8], at: usize) -> (Block, Block)
    requires before { 16 ≤ at }
    requires last { at < length text.now }
    requires end { length text.now ≤ at + 16 }
    ensures chained { let last = inv_cipher schedule.now (take 16 (drop (at - 16) text.now)) in
        result.0 ≡ drop at text.now ++ drop (length text.now - at) last }
    ensures plain { let last = inv_cipher schedule.now (take 16 (drop (at - 16) text.now)) in
        result.1 ≡ xor last (drop at text.now ++ drop (length text.now - at) last) }
{
    let left = text.len() - at;
    let mut last = block_at(text, at - BLOCK_LEN);
    schedule.decrypt_block(&mut last);
    let mut chained = last;
    chained[..left].copy_from_slice(&text[at..]);
    let plain = xor(&last, &chained);
    (chained, plain)
}
