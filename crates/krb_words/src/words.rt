//! The arguments of a call.

use crate::bytes::bytes_of;
use hex::FromHex;
use std::alloc::Global;

/// The words of a line that are still to be read. Single spaces stand between them.
#[derive(Drop)]
pub struct Words<'a> {
    /// What allocates the bytes that are read.
    pub alloc: Global,
    rest: Option<&'a str>,
}

impl<'a> Words<'a> {
    /// Begins at the first word of a line.
    pub fn new(alloc: Global, line: &'a str) -> Words<'a> {
        Words {
            alloc,
            rest: Some(line),
        }
    }

    /// Takes the next word.
    pub fn next(&mut self) -> Option<&'a str> {
        let rest = self.rest?;
        match rest.split_once(' ') {
            Some((word, after)) => {
                self.rest = Some(after);
                Some(word)
            }
            None => {
                self.rest = None;
                Some(rest)
            }
        }
    }

    /// Whether all words are read.
    pub fn is_at_end(&self) -> bool {
        self.rest.is_none()
    }

    /// Takes the next word if it isn't `none`: a field that may be left out.
    pub fn next_unless_none(&mut self) -> Option<Option<&'a str>> {
        match self.next()? {
            "none" => Some(None),
            word => Some(Some(word)),
        }
    }

    /// Takes bytes.
    pub fn bytes(&mut self) -> Option<Vec<u8>> {
        let word = self.next()?;
        bytes_of(self.alloc, word)
    }

    /// Takes all words that are left, as bytes.
    pub fn texts(&mut self) -> Option<Vec<Vec<u8>>> {
        let mut found = Vec::new(self.alloc);
        for _ in 0..u32::MAX {
            if self.is_at_end() {
                break;
            }
            found.push(self.bytes()?).ok()?;
        }
        Some(found)
    }

    /// Takes a signed number of 32 bits.
    pub fn int32(&mut self) -> Option<i32> {
        self.next()?.parse::<i32>().ok()
    }

    /// Takes a number of 32 bits.
    pub fn uint32(&mut self) -> Option<u32> {
        self.next()?.parse::<u32>().ok()
    }

    /// Takes a number of 32 bits that may be left out.
    pub fn uint32_or_none(&mut self) -> Option<Option<u32>> {
        match self.next_unless_none()? {
            Some(word) => Some(Some(word.parse::<u32>().ok()?)),
            None => Some(None),
        }
    }

    /// Takes a signed number of 64 bits.
    pub fn int64(&mut self) -> Option<i64> {
        self.next()?.parse::<i64>().ok()
    }

    /// Takes a size or an index.
    pub fn size(&mut self) -> Option<usize> {
        self.next()?.parse::<usize>().ok()
    }

    /// Takes a tag: two hexadecimal digits.
    pub fn tag(&mut self) -> Option<u8> {
        let [tag] = <[u8; 1] as FromHex>::from_hex(self.next()?).ok()?;
        Some(tag)
    }

    /// Takes 16 bytes: a block of the cipher, or a confounder.
    pub fn block(&mut self) -> Option<[u8; 16]> {
        <[u8; 16] as FromHex>::from_hex(self.next()?).ok()
    }

    /// Takes a key of 32 bytes.
    pub fn long_key(&mut self) -> Option<[u8; 32]> {
        <[u8; 32] as FromHex>::from_hex(self.next()?).ok()
    }
}
