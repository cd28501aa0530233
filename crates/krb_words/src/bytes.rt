//! Bytes, as a word spells them.

use sha2::{Digest, Sha256};
use std::alloc::Global;
use std::fmt::Write;

// Longer bytes are shown by their length and their hash.
const SHOWN: usize = 1_024;

// No word stands for more bytes than this and one repeated piece.
const MOST: usize = 67_108_864;

/// Reads bytes: `-` for none, or pieces `HEX` or `HEX*N` joined by `+`.
pub fn bytes_of(alloc: Global, word: &str) -> Option<Vec<u8>> {
    let mut found = Vec::new(alloc);
    if word == "-" {
        return Some(found);
    }
    for piece in word.split('+') {
        add_piece(alloc, &mut found, piece)?;
    }
    Some(found)
}

fn add_piece(alloc: Global, found: &mut Vec<u8>, piece: &str) -> Option<()> {
    let (digits, count) = repeated(piece, '*')?;
    let bytes = hex::decode(alloc, digits).ok()?;
    if bytes.is_empty() {
        return None;
    }
    for _ in 0..count {
        if found.len() > MOST {
            return None;
        }
        found.extend_from_slice(&bytes).ok()?;
    }
    Some(())
}

/// Returns what stands before the sign, and how many times it is meant: once without a sign.
pub fn repeated(word: &str, sign: char) -> Option<(&str, u32)> {
    match word.split_once(sign) {
        Some((item, count)) => Some((item, count.parse::<u32>().ok()?)),
        None => Some((word, 1)),
    }
}

/// Shows bytes as hexadecimal digits, `-` for none; longer ones as `#LENGTH:SHA256`.
pub fn show_bytes(alloc: Global, text: &mut String, bytes: &[u8]) -> Option<()> {
    if bytes.is_empty() {
        return text.push('-').ok();
    }
    if bytes.len() > SHOWN {
        return show_hash(alloc, text, bytes);
    }
    let digits = hex::encode(alloc, bytes).ok()?;
    text.push_str(digits.as_str()).ok()
}

/// Shows how many bytes there are, and their hash.
pub fn show_hash(alloc: Global, text: &mut String, bytes: &[u8]) -> Option<()> {
    let count = bytes.len();
    let hash = Sha256::digest(bytes);
    let digits = hex::encode(alloc, hash.as_slice()).ok()?;
    write!(text, "#{count}:{digits}").ok()
}
