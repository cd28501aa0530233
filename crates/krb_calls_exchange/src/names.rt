//! Names and moments, as words.

use krb_msg::{Bytes, Components, Moment, Principal};
use krb_words::{Words, bytes_of};
use std::alloc::Global;

/// Reads a name: `TYPE/REALM/COMPONENTS`.
pub(crate) fn name(words: &mut Words) -> Option<Principal> {
    let (number, rest) = words.next()?.split_once('/')?;
    let (realm, items) = rest.split_once('/')?;
    let name_type = number.parse::<i32>().ok()?;
    let components = components_of(words.alloc, items)?;
    Some(Principal {
        realm: Bytes::from(bytes_of(words.alloc, realm)?),
        name_type,
        components,
    })
}

fn components_of(alloc: Global, word: &str) -> Option<Components> {
    let mut components = Components::new(alloc);
    if word == "." {
        return Some(components);
    }
    for item in word.split(',') {
        components.push(&bytes_of(alloc, item)?).ok()?;
    }
    Some(components)
}

/// Reads a moment: its seconds and microseconds.
pub(crate) fn moment(words: &mut Words) -> Option<Moment> {
    let seconds = words.int64()?;
    Moment::new(seconds, words.uint32()?)
}
