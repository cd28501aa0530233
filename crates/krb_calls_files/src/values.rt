//! Values: how they are read and shown, and what they say of themselves.

use krb_ccache::{Credential, CredentialReader, TypedBytes, TypedList};
use krb_file::SliceSource;
use krb_keytab::Entry;
use krb_name::{Bytes, Components, Principal};
use krb_words::{Answer, Words};
use std::alloc::Global;
use std::fmt::{Debug, Display};

// A longer text is shown as its length and its hash.
const SHOWN: usize = 1_024;

/// Reads a name: `TYPE/TEXT`.
pub(crate) fn name_of(words: &mut Words) -> Option<Principal> {
    let (name_type, text) = words.next()?.split_once('/')?;
    Principal::from_text(words.alloc, text, name_type.parse::<i32>().ok()?).ok()
}

/// Compares a name of a text with one of parts, and shows a copy of that.
pub(crate) fn name(words: &mut Words, out: &mut Answer) -> Option<()> {
    let one = name_of(words)?;
    let name = parts_of(words)?.clone().ok()?;
    show_components(&name.components, out);
    show_name(&name, out);
    compare(&one, &name, out)
}

fn show_components(components: &Components, out: &mut Answer) {
    out.shown(components.len());
    out.truth(components.is_empty());
    for component in components.iter() {
        out.bytes(component);
    }
}

fn compare(one: &Principal, other: &Principal, out: &mut Answer) -> Option<()> {
    out.truth(one.same_name(other));
    out.truth(one.name_hash() == other.name_hash());
    out.truth(one.components == other.components);
    out.truth(one.realm == other.realm)
}

// Reads the parts of a name.
fn parts_of(words: &mut Words) -> Option<Principal> {
    let name_type = words.int32()?;
    let room = words.size()?;
    let realm = Bytes::from(words.bytes()?);
    Some(Principal {
        realm,
        name_type,
        components: components_of(room, words)?,
    })
}

fn components_of(room: usize, words: &mut Words) -> Option<Components> {
    let mut components = Components::with_room(words.alloc, room, 0).ok()?;
    for component in words.texts()?.as_slice() {
        components.push(component.as_slice()).ok()?;
    }
    Some(components)
}

/// Makes bytes in each way.
pub(crate) fn bytes(words: &mut Words, out: &mut Answer) -> Option<()> {
    let given = words.bytes()?;
    let other = Bytes::from(words.bytes()?);
    show_pushed(&pushed_of(words.alloc, &given)?, out);
    let made = Bytes::from_slice(words.alloc, &given).ok()?;
    out.bytes(made.clone().ok()?.as_slice());
    out.truth(made == other)
}

fn pushed_of(alloc: Global, given: &[u8]) -> Option<Bytes> {
    let mut pushed = Bytes::new(alloc);
    for byte in given {
        pushed.push(*byte).ok()?;
    }
    Some(pushed)
}

fn show_pushed(pushed: &Bytes, out: &mut Answer) -> Option<()> {
    out.shown(pushed.len());
    out.truth(pushed.is_empty());
    out.bytes(pushed.as_slice())
}

/// Reads typed bytes: how many, and the type and the bytes of each.
pub(crate) fn list_of(words: &mut Words) -> Option<TypedList> {
    let mut list = TypedList::new(words.alloc);
    for _ in 0..words.uint32()? {
        list.push(typed_of(words)?).ok()?;
    }
    Some(list)
}

fn typed_of(words: &mut Words) -> Option<TypedBytes> {
    let kind = words.next()?.parse::<u16>().ok()?;
    let bytes = Bytes::from(words.bytes()?);
    Some(TypedBytes { kind, bytes })
}

/// Shows a list that is made.
pub(crate) fn list(words: &mut Words, out: &mut Answer) -> Option<()> {
    let list = list_of(words)?;
    out.truth(list.is_empty());
    show_list(&list, out)
}

fn show_list(list: &TypedList, out: &mut Answer) -> Option<()> {
    out.shown(list.len());
    for item in list.as_slice() {
        out.shown(item.kind);
        out.bytes(item.bytes.as_slice());
    }
    Some(())
}

/// Puts a text into the word.
pub(crate) fn put_text(text: &str, out: &mut Answer) -> Option<()> {
    if text.len() > SHOWN {
        return out.put_bytes(text.as_bytes());
    }
    out.put(text)
}

/// Shows what a call gave, or its fault.
pub(crate) fn show<T: Display + Drop, F: Debug + Drop>(
    answer: Result<T, F>,
    out: &mut Answer,
) -> Option<()> {
    match answer {
        Ok(given) => out.shown(given),
        Err(fault) => out.named(fault),
    }
}

/// Shows a name.
pub(crate) fn show_name(name: &Principal, out: &mut Answer) -> Option<()> {
    match name.to_text(name.components.allocator()) {
        Ok(text) => {
            out.shown(name.name_type);
            out.put("/");
            put_text(text.as_str(), out)
        }
        Err(_) => out.cut(),
    }
}

/// Shows an entry.
pub(crate) fn show_entry(entry: &Entry, out: &mut Answer) -> Option<()> {
    show_name(entry.principal(), out);
    out.shown(entry.timestamp());
    out.shown(entry.kvno());
    out.shown(entry.etype());
    out.bytes(entry.key())
}

/// Shows a credential.
pub(crate) fn show_credential(it: &Credential, out: &mut Answer) -> Option<()> {
    show_name(&it.client, out);
    show_name(&it.server, out);
    out.shown(it.etype);
    out.bytes(it.key.as_slice());
    out.shown(it.authtime);
    out.shown(it.starttime);
    out.shown(it.endtime);
    out.shown(it.renew_till);
    out.truth(it.is_skey);
    out.shown(it.ticket_flags);
    out.bytes(it.ticket.as_slice());
    out.bytes(it.second_ticket.as_slice());
    show_list(&it.addresses, out);
    show_list(&it.authdata, out);
    out.truth(CredentialReader::<SliceSource<'_>>::is_configuration(it))
}
