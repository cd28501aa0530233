//! Calls of a tally of times, and of the times of one owner.

use krb_tally::{Tally, Times};
use krb_words::{Answer, Words};

/// Makes an empty tally, and the calls that the words say.
pub(crate) fn tally(words: &mut Words, out: &mut Answer) -> Option<()> {
    let mut tally: Tally<i64> = Tally::new(words.alloc);
    for _ in 0..u32::MAX {
        if words.is_at_end() {
            break;
        }
        call_tally(&mut tally, words.next()?, words, out)?;
    }
    Some(())
}

fn call_tally(
    tally: &mut Tally<i64>,
    call: &str,
    words: &mut Words,
    out: &mut Answer,
) -> Option<()> {
    match call {
        "add" => tally.add(words.int64()?).ok(),
        "remove" => out.shown_or_none(tally.remove(words.int64()?)),
        "pop" => out.shown_or_none(tally.pop_first()),
        "has" => out.truth(tally.has(&words.int64()?)),
        "since" => out.shown(tally.since(words.int64()?)),
        "first" => out.shown_or_none(tally.first().copied()),
        "last" => out.shown_or_none(tally.last().copied()),
        "len" => out.shown(tally.len()),
        _ => None,
    }
}

/// Makes the times of an owner from the first one, and the calls that the other words say.
pub(crate) fn times(words: &mut Words, out: &mut Answer) -> Option<()> {
    let mut times = Times::new(words.int64()?);
    for _ in 0..u32::MAX {
        if words.is_at_end() {
            break;
        }
        call_times(&mut times, words.next()?, words, out)?;
    }
    Some(())
}

fn call_times(times: &mut Times, call: &str, words: &mut Words, out: &mut Answer) -> Option<()> {
    match call {
        "add" => times.add(words.alloc, words.int64()?).ok(),
        "remove" => out.truth(times.remove(words.int64()?)),
        "since" => out.shown(times.since(words.int64()?)),
        "len" => out.shown(times.len()),
        _ => None,
    }
}
