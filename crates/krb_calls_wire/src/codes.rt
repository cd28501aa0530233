//! Codes of texts, and derived keys.

use krb_kdf::{
    HmacSha256, HmacSha384, MacPurpose, Purpose, derive_19, derive_20, derive_20_ke, hmac_sha256,
    hmac_sha384,
};
use krb_words::{Answer, Words};
use std::alloc::Global;

/// ```text
/// hmac sha256|sha384 KEY PART..     the code of the parts, one after another: by one call, by the key made ready, and by a copy of that
/// ```
pub(crate) fn answer_hmac(words: &mut Words, out: &mut Answer) -> Option<()> {
    let hash = words.next()?;
    let key = words.bytes()?;
    let texts = words.texts()?;
    let parts = parts_of(words.alloc, &texts)?;
    match hash {
        "sha256" => codes_256(&key, &parts, out),
        "sha384" => codes_384(&key, &parts, out),
        _ => None,
    }
}

fn parts_of<'a>(alloc: Global, texts: &'a [Vec<u8>]) -> Option<Vec<&'a [u8]>> {
    let mut parts = Vec::new(alloc);
    for text in texts {
        parts.push(text.as_slice()).ok()?;
    }
    Some(parts)
}

fn codes_256(key: &[u8], parts: &[&[u8]], out: &mut Answer) -> Option<()> {
    out.bytes(&hmac_sha256(key, parts));
    let ready = HmacSha256::new(key);
    out.bytes(&ready.code(parts));
    out.bytes(&ready.copy().code(parts))
}

fn codes_384(key: &[u8], parts: &[&[u8]], out: &mut Answer) -> Option<()> {
    out.bytes(&hmac_sha384(key, parts));
    let ready = HmacSha384::new(key);
    out.bytes(&ready.code(parts));
    out.bytes(&ready.copy().code(parts))
}

/// ```text
/// derive KEY USAGE                  Kc, Ke and Ki of a base key of 16 or 32 bytes: by one call each, and by the key made ready
/// ```
pub(crate) fn answer_derive(words: &mut Words, out: &mut Answer) -> Option<()> {
    let key = words.bytes()?;
    let usage = words.uint32()?;
    if let Ok(key) = <&[u8; 16]>::try_from(key.as_slice()) {
        return derived_19(key, usage, out);
    }
    derived_20(key.as_slice().try_into().ok()?, usage, out)
}

fn derived_19(key: &[u8; 16], usage: u32, out: &mut Answer) -> Option<()> {
    out.bytes(&derive_19(key, usage, Purpose::Kc));
    out.bytes(&derive_19(key, usage, Purpose::Ke));
    out.bytes(&derive_19(key, usage, Purpose::Ki));
    let ready = HmacSha256::new(key);
    out.bytes(&ready.derive_19(usage, Purpose::from(MacPurpose::Kc)));
    out.bytes(&ready.derive_19(usage, Purpose::Ke));
    out.bytes(&ready.derive_19(usage, Purpose::from(MacPurpose::Ki)))
}

fn derived_20(key: &[u8; 32], usage: u32, out: &mut Answer) -> Option<()> {
    out.bytes(&derive_20(key, usage, MacPurpose::Kc));
    out.bytes(&derive_20_ke(key, usage));
    out.bytes(&derive_20(key, usage, MacPurpose::Ki));
    let ready = HmacSha384::new(key);
    out.bytes(&ready.derive_20(usage, MacPurpose::Kc));
    out.bytes(&ready.derive_20_ke(usage));
    out.bytes(&ready.derive_20(usage, MacPurpose::Ki))
}
