//! Lists in which something is found.

use crate::values::put_text;
use krb_index::{HashIndex, Maxima};
use krb_words::{Answer, Words, repeated};

/// The places of a hash, from one on.
pub(crate) fn index(words: &mut Words, out: &mut Answer) -> Option<()> {
    let hash = words.uint32()?;
    let next = words.size()?;
    let count = words.uint32_or_none()?;
    let mut index = HashIndex::new(words.alloc, hashes_of(words)?).ok()?;
    if let Some(count) = count {
        index.fill(hash, count as usize);
    }
    let mut places = Answer::new(words.alloc);
    find_all(&index, hash, next, &mut places);
    put_places(&places, out)
}

fn hashes_of(words: &mut Words) -> Option<Vec<u32>> {
    let numbers = numbers_of(words)?;
    let mut hashes = Vec::new(words.alloc);
    for number in numbers.as_slice() {
        hashes.push(u32::try_from(*number).ok()?).ok()?;
    }
    Some(hashes)
}

fn find_all(index: &HashIndex, hash: u32, first: usize, places: &mut Answer) {
    let mut next = first;
    for _ in 0..u64::MAX {
        let Some(at) = index.find(hash, next) else {
            break;
        };
        places.shown(at);
        next = at + 1;
    }
}

/// The places of the numbers that are great enough. Each is made 0 when it is found.
pub(crate) fn maxima(words: &mut Words, out: &mut Answer) -> Option<()> {
    let least = words.size()?;
    let numbers = numbers_of(words)?;
    let mut maxima = Maxima::new(words.alloc, numbers.as_slice()).ok()?;
    let mut places = Answer::new(words.alloc);
    for _ in numbers.as_slice() {
        let Some(at) = maxima.first(least) else {
            break;
        };
        places.shown(at);
        maxima.clear(at);
    }
    put_places(&places, out)
}

fn put_places(places: &Answer, out: &mut Answer) -> Option<()> {
    let text = places.whole()?;
    out.word("places");
    if text.is_empty() {
        return Some(());
    }
    out.begin();
    put_text(text, out)
}

// Reads numbers: each word is `NUMBER` or `NUMBER^N`.
fn numbers_of(words: &mut Words) -> Option<Vec<usize>> {
    let mut numbers = Vec::new(words.alloc);
    for _ in 0..u64::MAX {
        if words.is_at_end() {
            break;
        }
        add_number(&mut numbers, words.next()?)?;
    }
    Some(numbers)
}

fn add_number(numbers: &mut Vec<usize>, word: &str) -> Option<()> {
    let (digits, count) = repeated(word, '^')?;
    let number = digits.parse::<usize>().ok()?;
    for _ in 0..count {
        numbers.push(number).ok()?;
    }
    Some(())
}
