//! Examples of both sides of the exchange.

use anyhow::{Context, Result};
use krb_ap::{Acceptor, Agreed, Pending, ReplyOptions, RequestOptions, error_reply, make_request};
use krb_ccache::CCache;
use krb_gss::Negotiation;
use krb_keytab::Keytab;
use krb_login::{Decision, Given, LetIn, Service};
use krb_msg::Moment;
use krb_name::Principal;
use krb_replay::{ReplayMemory, Skew, TimedMemory, Tuple};
use krb_tally::Tally;
use std::alloc::Global;

/// Counts times since a moment.
pub fn count_times(alloc: Global) -> Result<()> {
    let mut tally: Tally<i64> = Tally::new(alloc);
    tally.add(10)?;
    tally.add(30)?;
    tally.add(30)?;
    tally.since(20); // 2
    tally.remove(30);
    tally.since(20); // 1
    Ok(())
}

/// Remembers a tuple.
pub fn remember(alloc: Global, tuple: Tuple, now: Moment, skew: Skew) -> Result<()> {
    let mut memory = TimedMemory::new(alloc);
    if !memory.contains(&tuple) {
        memory.remember(tuple)?;
    }
    memory.advance(now, skew); // what is older than `now` less `skew` is gone
    Ok(())
}

/// Builds a client's request.
pub fn ask(
    alloc: Global,
    cache: CCache,
    service: Principal,
    now: Moment,
    confounder: [u8; 16],
    options: RequestOptions,
) -> Result<(Vec<u8>, Pending)> {
    let (request, pending) = make_request(alloc, &cache, &service, now, &confounder, options)?;

    Ok((request, pending))
}

/// What a service has when a request comes.
pub struct Asked {
    pub keytab: Keytab,
    pub service: Principal,
    pub request: Vec<u8>,
    pub now: Moment,
    pub confounder: [u8; 16],
    pub choices: ReplyOptions,
}

/// Decides a request, and returns the service's reply.
pub fn answer(alloc: Global, asked: Asked) -> Result<Vec<u8>> {
    let Asked {
        keytab,
        service,
        request,
        now,
        confounder,
        choices,
    } = asked;
    let skew = Skew::new(300).context("at most a day")?;
    let mut acceptor = Acceptor::new(keytab, skew, TimedMemory::new(alloc));
    let reply = match acceptor.accept(alloc, &request, now) {
        Ok(accepted) => accepted.reply(alloc, &confounder, choices)?,
        Err(refusal) => error_reply(alloc, &refusal, now, &service)?,
    };

    Ok(reply)
}

/// Reads the reply.
pub fn agree(alloc: Global, pending: Pending, reply: Vec<u8>) -> Result<Agreed> {
    let agreed = pending.finish(alloc, &reply)?;

    Ok(agreed)
}

/// Answers what a client sent, and logs who came in or why not.
pub fn login<M: ReplayMemory>(
    alloc: Global,
    service: &mut Service<M>,
    bytes: &[u8],
    now: Moment,
    confounder: [u8; 16],
    choice: ReplyOptions,
    log: &mut String,
) -> Result<Option<Vec<u8>>> {
    let mut negotiation = Negotiation::Begun;
    let given = Given {
        bytes,
        now,
        confounder: &confounder,
        choice,
    };
    let answer = match service.answer(alloc, &mut negotiation, given) {
        Decision::LetIn(LetIn { accepted, answer }) => {
            accepted.client.write_text(log)?;
            answer
        }
        Decision::GoOn(bytes) => Some(bytes),
        Decision::Refused(refused) => {
            write!(log, "refused: {}", refused.cause)?;
            refused.answer
        }
    };

    Ok(answer)
}
