//! Messages, flags and moments.

use crate::sealing::show;
use crate::types;
use krb_msg::{
    ApReqOver, Encrypted, Flags, INVALID, MUTUAL_REQUIRED, Moment, SpelledTicket,
    TRANSITED_POLICY_CHECKED, USE_SESSION_KEY,
};
use krb_words::{Answer, Words};
use std::cmp::Ordering;

/// The types are ticket, enc-ticket, ap-req, authenticator, ap-rep, enc-ap-rep and krb-error.
///
/// ```text
/// msg parse TYPE BYTES                        the fields, and the bytes of a copy of the message; or the fault
/// msg over BITS TICKET ETYPE KVNO CIPHER      the bytes of a request over a ticket's bytes, or the fault
/// msg flags BITS                              of each flag with a name the bits of it alone, and whether it is among the bits
/// msg moments SECONDS MICROS SECONDS MICROS   of the first its seconds, microseconds, and microseconds in all, and whether it is
///                                             the same made of its parts; the order of both, and whether the first is less, and the
///                                             same; or none
/// ```
pub(crate) fn answer(words: &mut Words, out: &mut Answer) -> Option<()> {
    match words.next()? {
        "parse" => {
            let of = words.next()?;
            types::parse(of, &words.bytes()?, words.alloc, out)
        }
        "over" => write_over(words, out),
        "flags" => show_flags(Flags(words.uint32()?), out),
        "moments" => moments(words, out),
        _ => None,
    }
}

fn write_over(words: &mut Words, out: &mut Answer) -> Option<()> {
    let options = Flags(words.uint32()?);
    let bytes = words.bytes()?;
    let authenticator = encrypted_of(words)?;
    match SpelledTicket::parse(&bytes) {
        Ok(ticket) => {
            let request = ApReqOver {
                options,
                ticket,
                authenticator,
            };
            show(request.encode(words.alloc), out)
        }
        Err(fault) => out.shown(fault),
    }
}

fn encrypted_of(words: &mut Words) -> Option<Encrypted> {
    Some(Encrypted {
        etype: words.int32()?,
        kvno: words.uint32_or_none()?,
        cipher: words.bytes()?,
    })
}

const NAMED: [u32; 4] = [
    USE_SESSION_KEY,
    MUTUAL_REQUIRED,
    INVALID,
    TRANSITED_POLICY_CHECKED,
];

fn show_flags(flags: Flags, out: &mut Answer) -> Option<()> {
    for bit in NAMED {
        if bit > 31 {
            return None;
        }
        out.shown(Flags::only(bit).bits());
        out.truth(flags.has(bit));
    }
    Some(())
}

fn moments(words: &mut Words, out: &mut Answer) -> Option<()> {
    let one = Moment::new(words.int64()?, words.uint32()?);
    let other = Moment::new(words.int64()?, words.uint32()?);
    match (one, other) {
        (Some(one), Some(other)) => compare(one, other, out),
        _ => out.word("none"),
    }
}

fn compare(one: Moment, other: Moment, out: &mut Answer) -> Option<()> {
    let (second, micros) = one.parts();
    out.shown(second.get());
    out.shown(micros.get());
    out.shown(one.micros());
    out.truth(Moment::at(second, micros) == one);
    out.word(match one.cmp(&other) {
        Ordering::Less => "Less",
        Ordering::Equal => "Equal",
        Ordering::Greater => "Greater",
    });
    out.truth(one < other);
    out.truth(one == other)
}
