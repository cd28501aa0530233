//! Elements of DER: reading, writing, and values.

use crate::sealing::show;
use crate::shapes;
use krb_der::{
    Constant, EncodeFault, Field, Flags, Maybe, MaybeRef, Microseconds, Octets, Seconds, SeqNumber,
    Text, TextList, Writer, encoded,
};
use krb_words::{Answer, Words};

/// ```text
/// der read KIND BYTES            the values of the one element that the bytes are, or the fault (`shapes`)
/// der encoded KIND VALUE..       the bytes of a value, or the fault: int32, uint32, seq_number, microseconds, flags or time NUMBER, five,
///                                octets or string BYTES, numbers NUMBER.., or texts BYTES.. (a list of strings; those of a slice of
///                                `Text`, and those of a `TextList`)
/// der written BYTES              what a writer has written call by call, and its length after each: OCTET STRING, GeneralString, and
///                                SEQUENCE of both; and whether it was empty before and after
/// der flags BITS BIT             the bits of no flags, and of flags with only this one; whether this one is among the bits
/// der shown BYTES                what Debug shows of octets, of fields that hold them, and of a writer; and the text of a fault of memory
/// ```
pub(crate) fn answer(words: &mut Words, out: &mut Answer) -> Option<()> {
    match words.next()? {
        "read" => shapes::read(words, out),
        "encoded" => encoded_value(words, out),
        "written" => written(words, out),
        "flags" => flags(words, out),
        "shown" => shown(words, out),
        _ => None,
    }
}

fn encoded_value(words: &mut Words, out: &mut Answer) -> Option<()> {
    let alloc = words.alloc;
    match words.next()? {
        "octets" => show(encoded(alloc, &Octets(&words.bytes()?)), out),
        "string" => show(encoded(alloc, &Text(&words.bytes()?)), out),
        "numbers" => show(encoded(alloc, &numbers(words)?), out),
        "texts" => texts(words, out),
        kind => encoded_number(kind, words, out),
    }
}

fn encoded_number(kind: &str, words: &mut Words, out: &mut Answer) -> Option<()> {
    let alloc = words.alloc;
    match kind {
        "int32" => show(encoded(alloc, &words.int32()?), out),
        "uint32" => show(encoded(alloc, &words.uint32()?), out),
        "seq_number" => show(encoded(alloc, &SeqNumber(words.uint32()?)), out),
        "microseconds" => show(encoded(alloc, &Microseconds::new(words.uint32()?)?), out),
        "flags" => show(encoded(alloc, &Flags(words.uint32()?)), out),
        "time" => show(encoded(alloc, &Seconds::new(words.int64()?)?), out),
        "five" => {
            let five: Constant<5> = Constant;
            show(encoded(alloc, &five), out)
        }
        _ => None,
    }
}

fn numbers(words: &mut Words) -> Option<Vec<i32>> {
    let mut found = Vec::new(words.alloc);
    for _ in 0..u32::MAX {
        if words.is_at_end() {
            break;
        }
        found.push(words.int32()?).ok()?;
    }
    Some(found)
}

fn texts(words: &mut Words, out: &mut Answer) -> Option<()> {
    let items = words.texts()?;
    let mut texts = Vec::new(words.alloc);
    for item in &items {
        texts.push(Text(item.as_slice())).ok()?;
    }
    show(encoded(words.alloc, &texts.as_slice()), out);
    show(encoded(words.alloc, &TextList(&items)), out)
}

fn written(words: &mut Words, out: &mut Answer) -> Option<()> {
    let bytes = words.bytes()?;
    let mut writer = Writer::new(words.alloc);
    out.truth(writer.is_empty());
    if bytes.len() > 1_048_576 {
        return None;
    }
    writer.octets(&bytes).ok()?;
    out.shown(writer.len());
    writer.string(&bytes).ok()?;
    out.shown(writer.len());
    if writer.len() > 4_194_304 {
        return None;
    }
    writer.wrap(0x30, 0).ok()?;
    out.shown(writer.len());
    out.truth(writer.is_empty());
    out.bytes(&writer.into_bytes())
}

fn flags(words: &mut Words, out: &mut Answer) -> Option<()> {
    let flags = Flags(words.uint32()?);
    let bit = words.uint32()?;
    if bit > 31 {
        return None;
    }
    out.shown(Flags::none().bits());
    out.shown(Flags::only(bit).bits());
    out.truth(flags.has(bit))
}

fn shown(words: &mut Words, out: &mut Answer) -> Option<()> {
    let bytes = words.bytes()?;
    let octets = Octets(&bytes);
    out.named(octets);
    let field: Field<0xa1, Octets> = Field(octets);
    out.named(field);
    let maybe: Maybe<0xa1, Octets> = Maybe(Some(octets));
    out.named(maybe);
    let same = Some(octets);
    let lent: MaybeRef<0xa1, Octets> = MaybeRef(&same);
    out.named(lent);
    let mut writer = Writer::new(words.alloc);
    writer.raw(&bytes).ok()?;
    out.named(writer);
    out.shown(EncodeFault::OutOfMemory)
}
