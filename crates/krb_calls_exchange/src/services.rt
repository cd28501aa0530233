//! Calls of a service.

ghost use Rattle.std.specs.Prelude.{◌≡◌};

use crate::memories::show_memory;
use crate::names::moment;
use crate::talks::talk;
use krb_ap::{Accepted, Acceptor, Call, Outcome, Refusal, ReplyOptions};
use krb_gss::Negotiation;
use krb_keytab::Keytab;
use krb_login::{Bindings, Decision, Given, Realms, Service, Store, StoreSays, Terms};
use krb_msg::Moment;
use krb_replay::{ListMemory, ReplayMemory, Skew, TimedMemory};
use krb_words::{Answer, Words};
use std::alloc::{AllocError, Global};

/// A service with either memory.
#[derive(Drop)]
pub(crate) enum Served {
    List(Service<ListMemory>),
    Timed(Service<TimedMemory>),
}

/// Makes a service in place of an earlier one.
pub(crate) fn renew(
    served: &mut Option<Served>,
    words: &mut Words,
    out: &mut Answer,
) -> Option<()> {
    *served = start(words);
    served.as_ref()?;
    out.word("service")
}

fn start(words: &mut Words) -> Option<Served> {
    let kind = words.next()?;
    let skew = Skew::new(words.uint32()?)?;
    let keytab = keytab(words)?;
    let start = moment_or_none(words)?;
    match kind {
        "list" => Some(Served::List(open_to_all(listed(words.alloc, keytab, skew, start)))),
        "timed" => Some(Served::Timed(open_to_all(timed(words.alloc, keytab, skew, start)))),
        _ => None,
    }
}

fn moment_or_none(words: &mut Words) -> Option<Option<Moment>> {
    if words.is_at_end() {
        return Some(None);
    }
    Some(Some(moment(words)?))
}

fn keytab(words: &mut Words) -> Option<Keytab> {
    let file = words.bytes()?;
    Keytab::parse(words.alloc, &file).ok()
}

fn listed(
    alloc: Global,
    keytab: Keytab,
    skew: Skew,
    start: Option<Moment>,
) -> Acceptor<ListMemory> {
    let memory = ListMemory::new(alloc);
    match start {
        Some(start) => Acceptor::started(keytab, skew, memory, start),
        None => Acceptor::new(keytab, skew, memory),
    }
}

fn timed(
    alloc: Global,
    keytab: Keytab,
    skew: Skew,
    start: Option<Moment>,
) -> Acceptor<TimedMemory> {
    let memory = TimedMemory::new(alloc);
    match start {
        Some(start) => Acceptor::started(keytab, skew, memory, start),
        None => Acceptor::new(keytab, skew, memory),
    }
}

fn open_to_all<M: ReplayMemory>(acceptor: Acceptor<M>) -> Service<M> {
    let terms = Terms {
        anonymous: false,
        realms: Realms::Any,
        bindings: Bindings::Ignored,
    };
    Service { acceptor, terms }
}

/// Answers a call of the service.
pub(crate) fn answer(
    served: &mut Served,
    first: &str,
    words: &mut Words,
    out: &mut Answer,
) -> Option<()> {
    match served {
        Served::List(service) => call(service, first, words, out),
        Served::Timed(service) => call(service, first, words, out),
    }
}

fn call<M: ReplayMemory>(
    service: &mut Service<M>,
    first: &str,
    words: &mut Words,
    out: &mut Answer,
) -> Option<()> {
    match first {
        "accept" => accept(&mut service.acceptor, words, out),
        "serve" => serve(&mut service.acceptor, words, out),
        "keytab" => replace(&mut service.acceptor, keytab(words)?, out),
        "held" => show_memory(service.acceptor.memory(), out),
        "share" => share(service, words, out),
        "talk" => talk(service, words, out),
        _ => None,
    }
}

fn accept<M: ReplayMemory>(
    acceptor: &mut Acceptor<M>,
    words: &mut Words,
    out: &mut Answer,
) -> Option<()> {
    let now = moment(words)?;
    let bytes = words.bytes()?;
    show(&acceptor.accept(words.alloc, &bytes, now), words.alloc, out)
}

fn replace<M: ReplayMemory>(
    acceptor: &mut Acceptor<M>,
    keytab: Keytab,
    out: &mut Answer,
) -> Option<()> {
    let _old = acceptor.replace_keytab(keytab);
    out.word("keytab")
}

fn serve<M: ReplayMemory>(
    acceptor: &mut Acceptor<M>,
    words: &mut Words,
    out: &mut Answer,
) -> Option<()> {
    let given = all_given(words)?;
    let calls = calls_of(words.alloc, &given)?;
    match acceptor.serve(words.alloc, &calls) {
        Ok(outcomes) => show_all(&outcomes, words.alloc, out),
        Err(AllocError) => out.word("OutOfMemory"),
    }
}

pub(crate) fn all_given(words: &mut Words) -> Option<Vec<(Moment, Vec<u8>)>> {
    let mut given = Vec::new(words.alloc);
    for _ in 0..u32::MAX {
        if words.is_at_end() {
            break;
        }
        given.push(one_given(words)?).ok()?;
    }
    Some(given)
}

fn one_given(words: &mut Words) -> Option<(Moment, Vec<u8>)> {
    let now = moment(words)?;
    Some((now, words.bytes()?))
}

fn calls_of<'a>(alloc: Global, given: &'a [(Moment, Vec<u8>)]) -> Option<Vec<Call<'a>>> {
    given.iter().map(call_of).collect(alloc).ok()
}

fn call_of(given: &(Moment, Vec<u8>)) -> Call<'_> {
    Call {
        bytes: &given.1,
        now: given.0,
    }
}

fn show_all(outcomes: &[Outcome], alloc: Global, out: &mut Answer) -> Option<()> {
    out.shown(outcomes.len());
    for outcome in outcomes {
        out.word("|");
        show(outcome, alloc, out)?;
    }
    Some(())
}

fn show(outcome: &Outcome, alloc: Global, out: &mut Answer) -> Option<()> {
    match outcome {
        Ok(accepted) => {
            out.word("accepted");
            out.bytes(&stamp_of(accepted, alloc)?)
        }
        Err(Refusal::Malformed(fault)) => {
            out.word("refused Malformed");
            out.shown(*fault)
        }
        Err(refusal) => {
            out.word("refused");
            out.named(*refusal)
        }
    }
}

fn stamp_of(accepted: &Accepted, alloc: Global) -> Option<Vec<u8>> {
    let tuple = accepted.tuple(alloc).ok()?;
    tuple.to_bytes(alloc).ok()
}

/// A store and a clock that answer what a line says.
#[derive(Drop)]
struct Told {
    said: StoreSays,
    now: Moment,
}

impl Store for Told {
    ghost adds = { λ before _ _ said after. (said ≡ before.said) × (after ≡ before) };

    ghost shows = { λ before now after. (now ≡ before.now) × (after ≡ before) };

    fn add(&mut self, _stamp: &[u8], _keep_until: Moment) -> StoreSays {
        self.said
    }

    fn now(&mut self) -> Moment {
        self.now
    }
}

fn store_of(words: &mut Words) -> Option<Told> {
    Some(Told {
        said: said(words)?,
        now: moment(words)?,
    })
}

fn said(words: &mut Words) -> Option<StoreSays> {
    match words.next()? {
        "new" => Some(StoreSays::New),
        "known" => Some(StoreSays::Known),
        "failed" => Some(StoreSays::Failed),
        _ => None,
    }
}

const CONFOUNDER: [u8; 16] = [
    0x30, 0x31, 0x32, 0x33, 0x34, 0x35, 0x36, 0x37, 0x38, 0x39, 0x3a, 0x3b, 0x3c, 0x3d, 0x3e, 0x3f,
];

/// A message of a client, and what the service chooses for its reply: no subkey and no number.
pub(crate) fn given_of(now: Moment, bytes: &[u8]) -> Given<'_> {
    Given {
        bytes,
        now,
        confounder: &CONFOUNDER,
        choice: ReplyOptions {
            subkey: None,
            seq: None,
        },
    }
}

fn share<M: ReplayMemory>(
    service: &mut Service<M>,
    words: &mut Words,
    out: &mut Answer,
) -> Option<()> {
    let mut store = store_of(words)?;
    let (now, bytes) = one_given(words)?;
    let mut negotiation = Negotiation::Begun;
    let given = given_of(now, &bytes);
    show_decision(
        &service.answer_shared(words.alloc, &mut negotiation, &mut store, given),
        out,
    )
}

fn show_decision(decision: &Decision, out: &mut Answer) -> Option<()> {
    match decision {
        Decision::LetIn(login) => {
            out.word("in");
            show_sent(&login.answer, out)
        }
        Decision::GoOn(bytes) => {
            out.word("on");
            out.bytes(bytes)
        }
        Decision::Refused(refused) => {
            out.word("refused");
            out.shown(refused.cause);
            show_sent(&refused.answer, out)
        }
    }
}

pub(crate) fn show_sent(sent: &Option<Vec<u8>>, out: &mut Answer) -> Option<()> {
    match sent {
        Some(bytes) => out.bytes(bytes),
        None => out.word("nothing"),
    }
}
