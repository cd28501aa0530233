//! A small service and a small client, as a program of their own. docs/LIBRARY.md shows this file in parts.
#![tactic(auto)]

use anyhow::{Context, Result, anyhow};
use krb_ap::{Acceptor, ReplyOptions, RequestOptions, make_request};
use krb_ccache::CCache;
use krb_enc::Key;
use krb_keytab::{Keytab, Picked};
use krb_msg::{ApReqRef, Moment, usage};
use krb_name::{Principal, ReadSource};
use krb_replay::{Skew, TimedMemory};
use std::alloc::Global;
use std::fs;
use std::fs::File;

/// Opens the ticket of a request, with the key that the keytab has for it.
fn opened_ticket(alloc: Global, keytab: &Keytab, request: &[u8]) -> Result<Vec<u8>> {
    let ticket = ApReqRef::parse(request)?.ticket;
    let service = ticket.sname.to_principal(alloc, ticket.realm)?;
    let sealed = ticket.enc_part;
    match keytab.pick(&service, sealed.etype, sealed.kvno) {
        Picked::Entry(entry) => {
            let key = Key::new(sealed.etype, entry.key())?;
            Ok(key.open(alloc, usage::TICKET, sealed.cipher)?)
        }
        _ => Err(anyhow!("the keytab has no key for this ticket")),
    }
}

/// Lets the client of a request in, or says why not. The service remembers what it has seen.
fn greet(
    rt: &HostRuntime,
    service: &mut Acceptor<TimedMemory>,
    request: &[u8],
    now: Moment,
) -> Result<()> {
    match service.accept(rt.alloc(), request, now) {
        Ok(accepted) => println!(rt; "hello {}", accepted.client.to_text(rt.alloc())?)?,
        Err(refusal) => println!(rt; "go away: {refusal}")?,
    }
    Ok(())
}

/// Sends the service a request from the client of a cache, which asks for a reply.
fn ask(
    alloc: Global,
    cache: &CCache,
    service: &mut Acceptor<TimedMemory>,
    now: Moment,
) -> Result<()> {
    let name = Principal::from_text(alloc, "host/web@EX", 3)?;
    let options = RequestOptions {
        mutual: true,
        subkey: None,
        seq: None,
        context: None,
    };
    // A real client takes 16 random bytes, new for each request, and so does a service for each reply.
    let (request, pending) = make_request(alloc, cache, &name, now, &[7; 16], options)?;

    let accepted = service.accept(alloc, &request, now)?;
    let options = ReplyOptions {
        subkey: None,
        seq: None,
    };
    let reply = accepted.reply(alloc, &[8; 16], options)?;

    pending.finish(alloc, &reply)?;
    Ok(())
}

fn read_keytab(rt: &HostRuntime) -> Result<Keytab> {
    let file = File::open(rt, "service.keytab")?;
    Ok(Keytab::read(rt.alloc(), &mut ReadSource::new(file))?)
}

/// Starts a service and gives it two requests: the same bytes twice.
fn serve_twice(rt: &HostRuntime, keytab: Keytab, request: &[u8]) -> Result<Acceptor<TimedMemory>> {
    let skew = Skew::new(300).context("at most a day")?;
    let mut service = Acceptor::new(keytab, skew, TimedMemory::new(rt.alloc()));
    let now = Moment::new(1_700_000_100, 5).context("a year from 0 to 9999")?;
    greet(rt, &mut service, request, now)?;
    greet(rt, &mut service, request, now)?;
    Ok(service)
}

fn read_cache(rt: &HostRuntime) -> Result<CCache> {
    let file = File::open(rt, "client.ccache")?;
    Ok(CCache::read(rt.alloc(), &mut ReadSource::new(file))?)
}

/// Says how much the ticket of a request holds, and lets the request come to a service.
fn serve(rt: &HostRuntime, request: &[u8]) -> Result<Acceptor<TimedMemory>> {
    let keytab = read_keytab(rt)?;
    let plain = opened_ticket(rt.alloc(), &keytab, request)?;
    println!(rt; "the ticket holds {} bytes", plain.len())?;
    serve_twice(rt, keytab, request)
}

pub fn main(rt: HostRuntime) -> Result<()> {
    let request = fs::read(&rt, "request")?;
    let mut service = serve(&rt, &request)?;
    introduce(&rt, &mut service)
}

/// Has the client of the cache ask the service.
fn introduce(rt: &HostRuntime, service: &mut Acceptor<TimedMemory>) -> Result<()> {
    let later = Moment::new(1_700_000_101, 0).context("a year from 0 to 9999")?;
    let cache = read_cache(rt)?;
    ask(rt.alloc(), &cache, service, later)?;
    println!(rt; "the client knows the service")?;
    Ok(())
}
