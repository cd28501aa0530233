//! Keys, and what they seal and open into new memory. (The library for C has the calls that take a slice for it.)

ghost use Rattle.std.specs.Prelude.{◌≡◌, length};

use krb_enc::{
    Enctype, Key, KeyFault, OpenFault, OpenToFault, Sha256Aes128, Sha384Aes256, ShortSlice,
};
use krb_words::{Answer, Words};
use std::fmt::Display;

/// If a line's key is invalid, the answer is the fault.
///
/// ```text
/// enc usable ETYPE BYTES                             whether they make a key
/// enc key ETYPE BYTES                                what Debug shows of the key, its type, and its bytes
/// enc seal ETYPE BYTES USAGE CONFOUNDER PLAIN        the sealed text: by the key, and by its type; what the key opens it to, and the
///                                                    fault under the keys of the next usage
/// enc open ETYPE BYTES USAGE TEXT                    the plain text or the fault, likewise
/// enc tag ETYPE BYTES USAGE TEXT                     the type's tag of the text, and its checksum
/// enc usage-for ETYPE BYTES USAGE ETYPE BYTES USAGE  whether the keys of the first usage are those of the second
/// ```
pub(crate) fn answer(words: &mut Words, out: &mut Answer) -> Option<()> {
    let call = words.next()?;
    let etype = words.int32()?;
    let bytes = words.bytes()?;
    if call == "usable" {
        return out.truth(Key::is_usable(etype, &bytes));
    }
    match Key::new(etype, &bytes) {
        Ok(key) => answer_of_key(call, &key, &bytes, words, out),
        Err(fault) => out.shown(fault),
    }
}

fn answer_of_key(
    call: &str,
    key: &Key,
    bytes: &[u8],
    words: &mut Words,
    out: &mut Answer,
) -> Option<()> {
    if call == "key" {
        out.named(key);
        out.shown(key.etype());
        return out.bytes(key.bytes());
    }
    let usage = words.uint32()?;
    match (key.etype(), bytes.len()) {
        (19, 16) => answer_of_type::<Sha256Aes128>(call, key, bytes, usage, words, out),
        (20, 32) => answer_of_type::<Sha384Aes256>(call, key, bytes, usage, words, out),
        _ => None,
    }
}

fn answer_of_type<T: Enctype>(
    call: &str,
    key: &Key,
    bytes: &[u8],
    usage: u32,
    words: &mut Words,
    out: &mut Answer,
) -> Option<()>
    requires { length bytes.now ≡ T.KEY_LEN }
{
    match call {
        "seal" => seal::<T>(key, bytes, usage, words, out),
        "open" => {
            let text = words.bytes()?;
            show(key.open(words.alloc, usage, &text), out);
            show(T::open(words.alloc, bytes, usage, &text), out)
        }
        "tag" => {
            let text = words.bytes()?;
            out.bytes(T::tag(bytes, usage, &text).as_slice());
            out.bytes(T::checksum(bytes, usage, &text).as_slice())
        }
        "usage-for" => usage_for(key, usage, words, out),
        _ => None,
    }
}

fn seal<T: Enctype>(
    key: &Key,
    bytes: &[u8],
    usage: u32,
    words: &mut Words,
    out: &mut Answer,
) -> Option<()>
    requires { length bytes.now ≡ T.KEY_LEN }
{
    let alloc = words.alloc;
    let confounder = words.block()?;
    let plain = words.bytes()?;
    let sealed = key.seal(alloc, usage, &confounder, &plain).ok()?;
    out.bytes(&sealed);
    show(T::seal(alloc, bytes, usage, &confounder, &plain), out);
    show(key.open(alloc, usage, &sealed), out);
    show(key.open(alloc, usage ^ 1, &sealed), out)
}

fn usage_for(key: &Key, usage: u32, words: &mut Words, out: &mut Answer) -> Option<()> {
    let etype = words.int32()?;
    let bytes = words.bytes()?;
    out.truth(key.for_usage(usage).is_for(etype, &bytes, words.uint32()?))
}

/// Shows the bytes, or the fault.
pub(crate) fn show<F: Display + Drop>(made: Result<Vec<u8>, F>, out: &mut Answer) -> Option<()> {
    match made {
        Ok(bytes) => out.bytes(&bytes),
        Err(fault) => out.shown(fault),
    }
}

/// ```text
/// types                                              number, length of a key and length of a tag of both types
/// ```
pub(crate) fn show_types(out: &mut Answer) -> Option<()> {
    out.shown(Sha256Aes128::ETYPE);
    out.shown(Sha256Aes128::KEY_LEN);
    out.shown(Sha256Aes128::TAG_LEN);
    out.shown(Sha384Aes256::ETYPE);
    out.shown(Sha384Aes256::KEY_LEN);
    out.shown(Sha384Aes256::TAG_LEN)
}

/// ```text
/// faults                                             the texts of the faults of keys, of opening, and of slices
/// ```
pub(crate) fn show_faults(out: &mut Answer) -> Option<()> {
    out.shown(KeyFault::UnknownEtype);
    out.shown(KeyFault::WrongLength);
    out.shown(OpenFault::Short);
    out.shown(OpenFault::Integrity);
    out.shown(OpenFault::OutOfMemory);
    out.shown(OpenToFault::Short);
    out.shown(OpenToFault::Integrity);
    out.shown(OpenToFault::ShortSlice { needed: 7 });
    out.shown(ShortSlice { needed: 56 })
}
