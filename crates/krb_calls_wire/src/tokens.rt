//! Tokens of the GSS-API: the calls that the library for C doesn't make as they are.

use krb_gss::{
    Answer as ServiceAnswer, Answered, Checked, Checksum, ContextFlag, ContextFlags, Mechanism,
    Reply, Wrapping, later_mic, open_answer, open_listing, wrap_checked, wrap_request_mic,
};
use krb_words::{Answer, Words, bytes_of};
use std::fmt::Display;

const FLAGS: [ContextFlag; 6] = [
    ContextFlag::Delegation,
    ContextFlag::Mutual,
    ContextFlag::Replay,
    ContextFlag::Sequence,
    ContextFlag::Confidentiality,
    ContextFlag::Integrity,
];

/// A NAME of Kerberos is `Kerberos`, `Microsoft` or `Draft`. A call that fails is answered `refused` and the fault's text.
///
/// ```text
/// gss answered BYTES   what a service's answer holds: `bare NAME` or `negotiated NAME NAME`, then `reply` or `error`, and the message
/// gss listing BYTES    a client's first token that names Kerberos after another mechanism: the NAME and the list; or `none`
/// gss mic BYTES        the mechListMIC of a client's later message, or `none`
/// gss request-mic NAME the service's answer that asks for a token and a mechListMIC
/// gss checked (completed|incomplete) (NAME REPLY|none) MIC
///                      the service's later answer with a mechListMIC
/// gss checksum BYTES BINDINGS
///                      an authenticator's checksum: `FLAGS BINDINGS DELEGATION EXTENSIONS`, the names of the flags that are set, and
///                      whether it has these bindings; the delegation is `none` if there is none
/// gss encode FLAGS BINDINGS DELEGATION EXTENSIONS
///                      its bytes
/// ```
pub(crate) fn answer(words: &mut Words, out: &mut Answer) -> Option<()> {
    match words.next()? {
        "answered" => match open_answer(&words.bytes()?) {
            Ok(opened) => show_answered(opened, out),
            Err(fault) => refused(fault, out),
        },
        "listing" => listing(words, out),
        "mic" => mic(words, out),
        "request-mic" => {
            let name = mechanism_of(words.next()?)?;
            out.bytes(&wrap_request_mic(words.alloc, name).ok()?)
        }
        "checked" => checked(words, out),
        "checksum" => checksum(words, out),
        "encode" => encode(words, out),
        _ => None,
    }
}

fn refused<F: Display + Drop>(fault: F, out: &mut Answer) -> Option<()> {
    out.word("refused");
    out.shown(fault)
}

fn show_token<F: Display + Drop>(token: Result<Vec<u8>, F>, out: &mut Answer) -> Option<()> {
    match token {
        Ok(token) => out.bytes(&token),
        Err(fault) => refused(fault, out),
    }
}

fn mechanism_of(name: &str) -> Option<Mechanism> {
    match name {
        "Kerberos" => Some(Mechanism::Kerberos),
        "Microsoft" => Some(Mechanism::Microsoft),
        "Draft" => Some(Mechanism::Draft),
        _ => None,
    }
}

fn show_answered(opened: Answered, out: &mut Answer) -> Option<()> {
    match opened.wrapping {
        Wrapping::Bare => out.word("bare"),
        Wrapping::Negotiated(first) => {
            out.word("negotiated");
            out.named(first)
        }
    };
    out.named(opened.mechanism);
    out.word(match opened.answer {
        ServiceAnswer::Reply(_) => "reply",
        ServiceAnswer::Error(_) => "error",
    });
    out.bytes(opened.answer.bytes())
}

fn listing(words: &mut Words, out: &mut Answer) -> Option<()> {
    match open_listing(&words.bytes()?) {
        Some(listing) => {
            out.named(listing.mechanism);
            out.bytes(listing.list)
        }
        None => out.word("none"),
    }
}

fn mic(words: &mut Words, out: &mut Answer) -> Option<()> {
    match later_mic(&words.bytes()?) {
        Ok(mic) => show_or_none(mic, out),
        Err(fault) => refused(fault, out),
    }
}

fn show_or_none(bytes: Option<&[u8]>, out: &mut Answer) -> Option<()> {
    match bytes {
        Some(bytes) => out.bytes(bytes),
        None => out.word("none"),
    }
}

fn checked(words: &mut Words, out: &mut Answer) -> Option<()> {
    let is_completed = words.next()? == "completed";
    let name = words.next_unless_none()?;
    let (mut mechanism, mut message) = (Mechanism::Kerberos, Vec::new(words.alloc));
    if let Some(name) = name {
        mechanism = mechanism_of(name)?;
        message = words.bytes()?;
    }
    let mic = words.bytes()?;
    let reply = Reply {
        mechanism,
        message: &message,
    };
    let checked = Checked {
        is_completed,
        reply: name.map(|_| reply),
        mic: &mic,
    };
    show_token(wrap_checked(words.alloc, checked), out)
}

fn checksum(words: &mut Words, out: &mut Answer) -> Option<()> {
    let bytes = words.bytes()?;
    let bindings = words.block()?;
    match Checksum::parse(&bytes) {
        Ok(read) => show_checksum(&read, &bindings, out),
        Err(fault) => refused(fault, out),
    }
}

fn show_checksum(read: &Checksum, bindings: &[u8; 16], out: &mut Answer) -> Option<()> {
    out.shown(read.flags.0);
    out.bytes(&read.bindings);
    show_or_none(read.delegation, out);
    out.bytes(read.extensions);
    show_flags(read.flags, out);
    out.truth(read.has_bindings(bindings))
}

fn show_flags(flags: ContextFlags, out: &mut Answer) {
    for flag in FLAGS {
        if flags.has(flag) {
            out.named(flag);
        }
    }
}

fn encode(words: &mut Words, out: &mut Answer) -> Option<()> {
    let flags = ContextFlags(words.uint32()?);
    let bindings = words.block()?;
    let delegation = match words.next_unless_none()? {
        Some(word) => Some(bytes_of(words.alloc, word)?),
        None => None,
    };
    let extensions = words.bytes()?;
    let value = Checksum {
        flags,
        bindings,
        delegation: delegation.as_deref(),
        extensions: &extensions,
    };
    show_token(value.encode(words.alloc), out)
}
