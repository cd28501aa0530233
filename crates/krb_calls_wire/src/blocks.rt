//! The block cipher, and its chaining with stealing.

use hex::FromHex;
use krb_aes::{KeySchedule, plain};
use krb_words::{Answer, Words};

/// ```text
/// aes KEY PLAIN CIPHER        the block PLAIN encrypted by both bodies, and the block CIPHER decrypted by both
/// ```
pub(crate) fn answer_aes(words: &mut Words, out: &mut Answer) -> Option<()> {
    let schedule = schedule(words.next()?)?;
    let (text, cipher) = (words.block()?, words.block()?);
    let mut block = text;
    schedule.encrypt_block(&mut block);
    out.bytes(&block);
    block = text;
    plain::encrypt_block(&schedule, &mut block);
    out.bytes(&block);
    block = cipher;
    schedule.decrypt_block(&mut block);
    out.bytes(&block);
    block = cipher;
    plain::decrypt_block(&schedule, &mut block);
    out.bytes(&block)
}

/// ```text
/// blocks KEY A B C D          the blocks A and B decrypted together, and then all four
/// ```
pub(crate) fn answer_blocks(words: &mut Words, out: &mut Answer) -> Option<()> {
    let schedule = schedule(words.next()?)?;
    let mut blocks = [
        words.block()?,
        words.block()?,
        words.block()?,
        words.block()?,
    ];
    let [mut one, mut other, _, _] = blocks;
    schedule.decrypt_two_blocks(&mut one, &mut other);
    out.bytes(&one);
    out.bytes(&other);
    schedule.decrypt_four_blocks(&mut blocks);
    blocks.iter().try_for_each(|block| out.bytes(block))
}

/// Of a key of 16 or 32 bytes.
fn schedule(word: &str) -> Option<KeySchedule> {
    if let Ok(key) = <[u8; 16] as FromHex>::from_hex(word) {
        return Some(KeySchedule::new_128(&key));
    }
    let key = <[u8; 32] as FromHex>::from_hex(word).ok()?;
    Some(KeySchedule::new_256(&key))
}

/// ```text
/// cts KEY PLAIN CIPHER        PLAIN encrypted, CIPHER decrypted, and CIPHER decrypted without the first 16 bytes; each has 16 bytes
///                             or more
/// ```
pub(crate) fn answer_cts(words: &mut Words, out: &mut Answer) -> Option<()> {
    let schedule = schedule(words.next()?)?;
    let mut text = words.bytes()?;
    let mut cipher = words.bytes()?;
    if text.len() < 16 || cipher.len() < 16 {
        return None;
    }
    krb_cts::encrypt(&schedule, &mut text);
    out.bytes(&text);
    let mut rest = vec![in words.alloc; 0xa5u8; cipher.len() - 16].ok()?;
    krb_cts::decrypt_after_first(&schedule, &cipher, &mut rest);
    krb_cts::decrypt(&schedule, &mut cipher);
    out.bytes(&cipher);
    out.bytes(&rest)
}
