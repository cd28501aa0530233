//! Calls of a memory, and of what it holds.

use crate::names::{moment, name};
use krb_msg::Moment;
use krb_replay::{LimitedMemory, ListMemory, ReplayMemory, Skew, TimedMemory, Tuple};
use krb_words::{Answer, Words};
use std::alloc::Global;

/// Either memory, or one with limits.
#[derive(Drop)]
pub(crate) enum Memory {
    List(ListMemory),
    Timed(TimedMemory),
    Limited(LimitedMemory<TimedMemory>),
}

/// Answers a call of the memory, or of its parts.
pub(crate) fn answer(
    memory: &mut Option<Memory>,
    first: &str,
    words: &mut Words,
    out: &mut Answer,
) -> Option<()> {
    match first {
        "memory" => renew(memory, words, out),
        "tuple" => of_tuple(words, out),
        "skew" => out.shown_or_none(Skew::new(words.uint32()?).map(Skew::micros)),
        _ => call_either(memory.as_mut()?, first, words, out),
    }
}

fn renew(memory: &mut Option<Memory>, words: &mut Words, out: &mut Answer) -> Option<()> {
    *memory = new_memory(words);
    memory.as_ref()?;
    out.word("memory")
}

fn call_either(
    memory: &mut Memory,
    first: &str,
    words: &mut Words,
    out: &mut Answer,
) -> Option<()> {
    match memory {
        Memory::List(memory) => call(memory, first, words, out),
        Memory::Timed(memory) => call_timed(memory, first, words, out),
        Memory::Limited(memory) => call_limited(memory, first, words, out),
    }
}

fn call_timed(
    memory: &mut TimedMemory,
    first: &str,
    words: &mut Words,
    out: &mut Answer,
) -> Option<()> {
    match first {
        "taken" => out.shown(memory.held()),
        "bytes" => out.shown(memory.bytes()),
        _ => call(memory, first, words, out),
    }
}

fn new_memory(words: &mut Words) -> Option<Memory> {
    let alloc: Global = words.alloc;
    match words.next()? {
        "list" => Some(Memory::List(ListMemory::new(alloc))),
        "timed" => Some(Memory::Timed(TimedMemory::new(alloc))),
        "limited" => {
            let (limit, of_client) = (words.uint32()? as usize, words.uint32()? as usize);
            let memory = LimitedMemory::new(TimedMemory::new(alloc), limit, of_client);
            Some(Memory::Limited(memory))
        }
        _ => None,
    }
}

fn call_limited(
    memory: &mut LimitedMemory<TimedMemory>,
    first: &str,
    words: &mut Words,
    out: &mut Answer,
) -> Option<()> {
    match first {
        "limits" => {
            out.shown(memory.limit());
            out.shown(memory.limit_for_client())
        }
        "refused" => out.shown(memory.refused()),
        "full" => out.truth(memory.is_full(&tuple(words)?)),
        "taken" => out.shown(memory.memory().held()),
        _ => call(memory, first, words, out),
    }
}

fn call<M: ReplayMemory>(
    memory: &mut M,
    first: &str,
    words: &mut Words,
    out: &mut Answer,
) -> Option<()> {
    match first {
        "remember" => remember(memory, tuple(words)?, out),
        "contains" => out.truth(memory.contains(&tuple(words)?)),
        "at-least" | "at-least-of" => count(memory, first == "at-least-of", words, out),
        "advance" | "expect" => go_on(memory, first == "advance", words, out),
        "len" => out.shown(memory.len()),
        "latest" => show_latest(memory.latest(), out),
        _ => None,
    }
}

fn remember<M: ReplayMemory>(memory: &mut M, tuple: Tuple, out: &mut Answer) -> Option<()> {
    match memory.remember(tuple) {
        Ok(()) => out.word("ok"),
        Err(_) => out.word("OutOfMemory"),
    }
}

fn go_on<M: ReplayMemory>(
    memory: &mut M,
    advances: bool,
    words: &mut Words,
    out: &mut Answer,
) -> Option<()> {
    let moment = moment(words)?;
    let skew = Skew::new(words.uint32()?)?;
    if advances {
        memory.advance(moment, skew);
    } else {
        memory.expect(moment, skew);
    }
    out.word("ok")
}

fn count<M: ReplayMemory>(
    memory: &M,
    of_client: bool,
    words: &mut Words,
    out: &mut Answer,
) -> Option<()> {
    let least = words.uint32()? as usize;
    let oldest = moment(words)?.micros();
    if of_client {
        return out.truth(memory.has_at_least(Some(&tuple(words)?), least, oldest));
    }
    out.truth(memory.has_at_least(None, least, oldest))
}

fn show_latest(latest: Option<Moment>, out: &mut Answer) -> Option<()> {
    match latest {
        Some(moment) => show_moment(moment, out),
        None => out.word("none"),
    }
}

fn show_moment(moment: Moment, out: &mut Answer) -> Option<()> {
    let (seconds, micros) = moment.parts();
    out.shown(seconds.get());
    out.shown(micros.get())
}

/// Shows how many tuples a memory has, and its latest moment.
pub(crate) fn show_memory<M: ReplayMemory>(memory: &M, out: &mut Answer) -> Option<()> {
    out.shown(memory.len());
    show_latest(memory.latest(), out)
}

fn tuple(words: &mut Words) -> Option<Tuple> {
    let server = name(words)?;
    let client = name(words)?;
    let (seconds, micros) = moment(words)?.parts();
    Tuple::new(words.alloc, server, client, seconds, micros).ok()
}

fn compare(one: &Tuple, other: &Tuple, out: &mut Answer) -> Option<()> {
    out.named(one.cmp(other));
    out.named(one.partial_cmp(other));
    out.truth(one == other)
}

fn of_tuple(words: &mut Words, out: &mut Answer) -> Option<()> {
    let what = words.next()?;
    let tuple = tuple(words)?;
    show_tuple(&tuple, what, words, out)
}

fn show_tuple(one: &Tuple, what: &str, words: &mut Words, out: &mut Answer) -> Option<()> {
    match what {
        "time" => show_moment(one.time(), out),
        "compare" => compare(one, &tuple(words)?, out),
        "bytes" => out.bytes(&one.to_bytes(words.alloc).ok()?),
        "until" => show_latest(one.keep_until(Skew::new(words.uint32()?)?), out),
        _ => None,
    }
}
