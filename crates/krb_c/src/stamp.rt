//! What a store that several services share keeps of an accepted request, and when its ticket
//! becomes valid.

ghost use Rattle.std.specs.Prelude.{IfErr, IfOk, ◌≡◌, ◌≤◌};
ghost use Rattle.std.specs.Option.{MatchOption};
ghost use Rattle.krb_c.specs.Answer.{plain};
ghost use Rattle.krb_c.specs.Codes.{empty_handle};
ghost use Rattle.krb_c.specs.Stamps.{IsStampFault, IsTimeOf, TellsStamp, TellsStart, until};
ghost use Rattle.krb_replay.specs.Bytes.{IsBytesOf};
ghost use Rattle.krb_c.specs.Service.{stamp_told};

use crate::accepted_state::AcceptedState;
use crate::answer::hand_over;
use crate::code;
use crate::handle::with_held;
use crate::handles::AcceptedHandle;
use crate::structs::{Answer, Time};
use krb_ap::Accepted;
use krb_replay::{Skew, Tuple};
use std::alloc::{AllocError, Global};

/// Writes what a service remembers of the accepted request to the buffer, as one string of bytes
/// for a store that several services share (`krb_replay::Tuple::to_bytes`), and to `keep_until`
/// until when the store must keep it: the client's time plus twice the skew, in seconds.
#[unsafe(no_mangle)]
pub extern "C" fn fevstunik_accepted_stamp(
    accepted: &mut AcceptedHandle,
    alloc: Global,
    skew: u32,
    keep_until: &mut Time,
    buffer: &mut [u8],
) -> Answer
    ensures stamp { MatchOption accepted.old.value ((result ≡ plain empty_handle) × ((keep_until.new ≡ keep_until.old) × (buffer.new ≡ buffer.old)))
        (λ kept. TellsStamp kept.accepted skew keep_until.old keep_until.new buffer.old buffer.new result) }
    ensures stays { accepted.new.value ≡ accepted.old.value }
{
    with_held!(accepted, alloc, kept => tell_stamp(&kept, alloc, skew, keep_until, buffer))
}

fn tell_stamp(
    kept: &AcceptedState,
    alloc: Global,
    skew: u32,
    keep_until: &mut Time,
    buffer: &mut [u8],
) -> Answer
    ensures { TellsStamp kept.now.accepted skew keep_until.old keep_until.new buffer.old buffer.new result }
{
    match &kept.accepted {
        Some(accepted) => match stamp_of(alloc, accepted, skew) {
            Ok((bytes, until)) => {
                *keep_until = until;
                hand_over(bytes.as_slice(), buffer)
            }
            Err(answer) => answer,
        },
        None => Answer::plain(code::NOTHING_THERE),
    }
}

// The bytes, and until when they are kept.
fn stamp_of(alloc: Global, accepted: &Accepted, skew: u32) -> Result<(Vec<u8>, Time), Answer>
    ensures skew { IfOk result (λ made. skew ≤ 86_400) }
    ensures bytes { IfOk result (λ made. IsBytesOf (stamp_told accepted.now) made.0.items) }
    ensures until { IfOk result (λ made. IsTimeOf (until accepted.now skew) made.1) }
    ensures fault { IfErr result (λ answer. IsStampFault accepted.now skew answer) }
{
    let Some(skew) = Skew::new(skew) else {
        return Err(Answer::plain(code::BAD_SKEW));
    };
    let Ok((tuple, bytes)) = tuple_of(alloc, accepted) else {
        return Err(Answer::plain(code::OUT_OF_MEMORY));
    };
    match tuple.keep_until(skew) {
        Some(moment) => Ok((bytes, Time::of(moment))),
        None => Err(Answer::plain(code::BAD_MOMENT)),
    }
}

fn tuple_of(alloc: Global, accepted: &Accepted) -> Result<(Tuple, Vec<u8>), AllocError>
    ensures tuple { IfOk result (λ made. made.0 ≡ stamp_told accepted.now) }
    ensures bytes { IfOk result (λ made. IsBytesOf (stamp_told accepted.now) made.1.items) }
{
    let tuple = accepted.tuple(alloc)?;
    let bytes = tuple.to_bytes(alloc)?;
    Ok((tuple, bytes))
}

/// Returns when the ticket of the accepted request becomes valid, if the ticket says so. A ticket
/// that doesn't is valid from `authtime` on (RFC 4120, section 5.3).
#[unsafe(no_mangle)]
pub extern "C" fn fevstunik_accepted_start(
    accepted: &mut AcceptedHandle,
    alloc: Global,
    start: &mut Time,
) -> Answer
    ensures start { MatchOption accepted.old.value ((result ≡ plain empty_handle) × (start.new ≡ start.old))
        (λ kept. TellsStart kept.accepted start.old start.new result) }
    ensures stays { accepted.new.value ≡ accepted.old.value }
{
    with_held!(accepted, alloc, kept => tell_start(&kept, start))
}

fn tell_start(kept: &AcceptedState, start: &mut Time) -> Answer
    ensures { TellsStart kept.now.accepted start.old start.new result }
{
    match &kept.accepted {
        Some(accepted) => match accepted.starttime {
            Some(second) => {
                *start = Time {
                    seconds: second.get(),
                    micros: 0,
                };
                Answer::plain(code::OK)
            }
            None => Answer::plain(code::NOTHING_THERE),
        },
        None => Answer::plain(code::NOTHING_THERE),
    }
}
