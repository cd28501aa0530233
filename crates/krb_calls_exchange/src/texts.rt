//! The texts of causes and faults.

use crate::cause_list::{BREACHES, CAUSES, CUT};
use krb_ap::{FinishFault, Refusal, ReplyFault, RequestFault};
use krb_login::{Breach, Cause};
use krb_words::{Answer, Words};

static REQUEST: [RequestFault; 6] = [
    RequestFault::NoCredential,
    RequestFault::NoUsableKey,
    RequestFault::Expired,
    RequestFault::BadTicket,
    RequestFault::TooLong,
    RequestFault::OutOfMemory,
];

static FINISH: [FinishFault; 5] = [
    FinishFault::MessageType,
    FinishFault::Malformed(CUT),
    FinishFault::Integrity,
    FinishFault::Mismatch,
    FinishFault::OutOfMemory,
];

static REPLY: [ReplyFault; 3] = [
    ReplyFault::NoCode,
    ReplyFault::TooLong,
    ReplyFault::OutOfMemory,
];

/// Shows the item of a list at an index.
pub(crate) fn answer(words: &mut Words, out: &mut Answer) -> Option<()> {
    let list = words.next()?;
    let index = words.size()?;
    match list {
        "cause" => show_cause(*CAUSES.get(index)?, out),
        "breach" => show_breach(*BREACHES.get(index)?, out),
        "request" => out.shown(*REQUEST.get(index)?),
        "finish" => out.shown(*FINISH.get(index)?),
        "reply" => out.shown(*REPLY.get(index)?),
        _ => None,
    }
}

fn show_cause(cause: Refusal, out: &mut Answer) -> Option<()> {
    told(cause.place(), cause.name(), Cause::Request(cause), out)
}

fn show_breach(breach: Breach, out: &mut Answer) -> Option<()> {
    told(breach.place(), breach.name(), Cause::Breached(breach), out)
}

fn told(place: u32, name: &str, cause: Cause, out: &mut Answer) -> Option<()> {
    out.shown(place);
    out.shown_or_none(cause.code());
    out.word(name);
    out.shown(cause)
}
