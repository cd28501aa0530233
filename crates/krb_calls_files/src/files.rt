//! Keytabs and credential caches, and the readers of their items.

use crate::sources::give_back;
use crate::values::{list_of, name_of, show, show_credential, show_entry, show_name};
use krb_ccache::{CCache, CacheFault, Credential, CredentialReader, HeaderField, TypedBytes};
use krb_file::Source;
use krb_keytab::{EntryReader, Keytab, Picked};
use krb_name::Principal;
use krb_words::{Answer, Words};
use std::alloc::Global;

/// Reads entries one at a time.
pub(crate) fn entries<S: Source + Drop>(
    source: S,
    words: &mut Words,
    out: &mut Answer,
) -> Option<()> {
    let mut reader = EntryReader::new(words.alloc, source);
    call_entries(&mut reader, words, out)?;
    give_back(reader.into_source(), out)
}

fn call_entries<S: Source>(
    reader: &mut EntryReader<S>,
    words: &mut Words,
    out: &mut Answer,
) -> Option<()> {
    for _ in 0..u64::MAX {
        if words.is_at_end() {
            break;
        }
        call_entry(reader, words, out)?;
    }
    Some(())
}

fn call_entry<S: Source>(
    reader: &mut EntryReader<S>,
    words: &mut Words,
    out: &mut Answer,
) -> Option<()> {
    match words.next()? {
        "next" => next_entry(reader, words.alloc, out),
        "pass" => show(reader.pass(), out),
        "held" => out.shown(reader.held()),
        "failures" => out.shown(reader.source().failures()),
        _ => None,
    }
}

fn next_entry<S: Source>(
    reader: &mut EntryReader<S>,
    alloc: Global,
    out: &mut Answer,
) -> Option<()> {
    match reader.next(alloc) {
        Ok(Some(entry)) => show_entry(&entry, out),
        Ok(None) => out.word("end"),
        Err(fault) => out.named(fault),
    }
}

/// Reads credentials one at a time.
pub(crate) fn credentials<S: Source + Drop>(
    source: S,
    words: &mut Words,
    out: &mut Answer,
) -> Option<()> {
    match CredentialReader::open(words.alloc, source) {
        Ok(opened) => call_opened(opened, words, out),
        Err((source, fault)) => {
            out.named(fault);
            give_back(source, out)
        }
    }
}

fn call_opened<S: Source + Drop>(
    opened: CredentialReader<S>,
    words: &mut Words,
    out: &mut Answer,
) -> Option<()> {
    let mut reader = opened;
    show_name(reader.default_principal(), out);
    show_offset(reader.kdc_offset(), out);
    call_credentials(&mut reader, words, out)?;
    give_back(reader.into_source(), out)
}

fn call_credentials<S: Source>(
    reader: &mut CredentialReader<S>,
    words: &mut Words,
    out: &mut Answer,
) -> Option<()> {
    for _ in 0..u64::MAX {
        if words.is_at_end() {
            break;
        }
        call_credential(reader, words, out)?;
    }
    Some(())
}

fn call_credential<S: Source>(
    reader: &mut CredentialReader<S>,
    words: &mut Words,
    out: &mut Answer,
) -> Option<()> {
    match words.next()? {
        "next" => next_credential(reader, words.alloc, out),
        "pass" => show(reader.pass(), out),
        "held" => out.shown(reader.held()),
        "failures" => out.shown(reader.source().failures()),
        _ => None,
    }
}

fn next_credential<S: Source>(
    reader: &mut CredentialReader<S>,
    alloc: Global,
    out: &mut Answer,
) -> Option<()> {
    match reader.next(alloc) {
        Ok(Some(credential)) => show_credential(&credential, out),
        Ok(None) => out.word("end"),
        Err(fault) => out.named(fault),
    }
}

fn show_offset(offset: Option<(i32, i32)>, out: &mut Answer) -> Option<()> {
    match offset {
        Some((seconds, micros)) => {
            out.shown(seconds);
            out.shown(micros)
        }
        None => out.word("none"),
    }
}

/// Reads a keytab.
pub(crate) fn keytab<S: Source>(source: &mut S, words: &mut Words, out: &mut Answer) -> Option<()> {
    match Keytab::read(words.alloc, source) {
        Ok(keytab) => show_keytab(&keytab, words, out),
        Err(fault) => out.named(fault),
    }
}

fn show_keytab(keytab: &Keytab, words: &mut Words, out: &mut Answer) -> Option<()> {
    if !words.is_at_end() {
        return pick(keytab, words, out);
    }
    out.shown(keytab.entries().len());
    for entry in keytab.entries() {
        show_entry(entry, out);
    }
    Some(())
}

fn pick(keytab: &Keytab, words: &mut Words, out: &mut Answer) -> Option<()> {
    let name = name_of(words)?;
    let etype = words.int32()?;
    show_picked(keytab.pick(&name, etype, words.uint32_or_none()?), out)
}

fn show_picked(picked: Picked, out: &mut Answer) -> Option<()> {
    match picked {
        Picked::Entry(entry) => {
            out.named(entry);
            show_entry(entry, out)
        }
        Picked::NoName => out.word("NoName"),
        Picked::NoKey => out.word("NoKey"),
        Picked::NoVersion => out.word("NoVersion"),
    }
}

/// Reads a cache.
pub(crate) fn cache<S: Source>(source: &mut S, words: &mut Words, out: &mut Answer) -> Option<()> {
    match CCache::read(words.alloc, source) {
        Ok(cache) => show_cache(&cache, words, out),
        Err(fault) => out.named(fault),
    }
}

/// Makes a cache of a header, and of the credentials that a reader gives.
pub(crate) fn made<S: Source + Drop>(source: S, words: &mut Words, out: &mut Answer) -> Option<()> {
    let (default, credentials) = parts_of(words.alloc, source)?;
    match CCache::from_parts(header_of(words)?, default, credentials) {
        Some(cache) => show_cache(&cache, words, out),
        None => out.word("none"),
    }
}

fn parts_of<S: Source + Drop>(alloc: Global, source: S) -> Option<(Principal, Vec<Credential>)> {
    let mut reader = CredentialReader::open(alloc, source).ok()?;
    let credentials = credentials_of(alloc, &mut reader)?;
    Some((reader.default_principal().clone().ok()?, credentials))
}

fn credentials_of<S: Source>(
    alloc: Global,
    reader: &mut CredentialReader<S>,
) -> Option<Vec<Credential>> {
    let mut credentials = Vec::new(alloc);
    for _ in 0..u64::MAX {
        let Some(credential) = reader.next(alloc).ok()? else {
            break;
        };
        credentials.push(credential).ok()?;
    }
    Some(credentials)
}

fn header_of(words: &mut Words) -> Option<Vec<HeaderField>> {
    let list = list_of(words)?;
    let mut header = Vec::new(words.alloc);
    for item in list.as_slice() {
        header.push(field_of(item)?).ok()?;
    }
    Some(header)
}

fn field_of(item: &TypedBytes) -> Option<HeaderField> {
    let value = item.bytes.clone().ok()?;
    Some(HeaderField {
        tag: item.kind,
        value,
    })
}

fn show_cache(cache: &CCache, words: &mut Words, out: &mut Answer) -> Option<()> {
    if !words.is_at_end() {
        return find(cache, &name_of(words)?, out);
    }
    show_name(cache.default_principal(), out);
    show_offset(cache.kdc_offset(), out);
    out.shown(cache.credentials().len());
    for credential in cache.credentials() {
        show_credential(credential, out);
    }
    show_written(cache.to_bytes(words.alloc), out)
}

fn show_written(written: Result<Vec<u8>, CacheFault>, out: &mut Answer) -> Option<()> {
    match written {
        Ok(bytes) => out.bytes(&bytes),
        Err(fault) => out.named(fault),
    }
}

fn find(cache: &CCache, name: &Principal, out: &mut Answer) -> Option<()> {
    let mut next = 0;
    out.word("found");
    for _ in cache.credentials() {
        let Some(at) = cache.find_server(name, next) else {
            break;
        };
        out.shown(at);
        out.named(cache.credentials().get(at)?);
        next = at + 1;
    }
    Some(())
}
