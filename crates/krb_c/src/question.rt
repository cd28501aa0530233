//! What a store of stamps is asked for a login that waits for it, and what it says.

ghost use Rattle.std.specs.Prelude.{IfErr, IfOk, ◌≡◌, ◌⊎◌};
ghost use Rattle.std.specs.Option.{MatchOption};
ghost use Rattle.krb_c.specs.Answer.{plain};
ghost use Rattle.krb_c.specs.Codes.{empty_handle};
ghost use Rattle.krb_c.specs.Login.{SameLogin};
ghost use Rattle.krb_c.specs.Store.{HandsQuestion, IsNotSaid, IsQuestionFault, IsSaid, SettlesLogin, TellsQuestion, until};
ghost use Rattle.krb_c.specs.Stamps.{IsTimeOf};
ghost use Rattle.krb_replay.specs.Bytes.{IsBytesOf};

use crate::answer::hand_over;
use crate::code;
use crate::handle::with_held;
use crate::login::Login;
use crate::structs::{Answer, Time};
use krb_ap::ReplyOptions;
use krb_gss::Negotiation;
use krb_login::{Asking, StoreSays};
use krb_talk::Talk;
use std::alloc::Global;

// What a store says. The header has the numbers under the same names.
const SAID_NEW: u32 = 1;

const SAID_KNOWN: u32 = 2;

const SAID_FAILED: u32 = 3;

/// What a login waits with, until a store of stamps has spoken. There is no `Debug`, so no log shows a
/// key.
#[derive(Drop)]
pub struct Question {
    /// What the store is asked, and what is known of the client.
    pub asking: Asking,
    /// The random bytes that the reply is made with.
    pub confounder: [u8; 16],
    /// What the service chose for the reply.
    pub choice: ReplyOptions,
    /// What the client sent.
    pub message: Vec<u8>,
    /// How far the service's negotiation is.
    pub negotiation: Negotiation,
    /// The login that the decision concludes.
    pub talk: Talk,
}

impl Question {
    /// Returns the stamp, and until when the store keeps it.
    pub(crate) fn tell(&self, alloc: Global, keep_until: &mut Time, buffer: &mut [u8]) -> Answer
        ensures { HandsQuestion self.now keep_until.new buffer.old buffer.new result ⊎ (IsQuestionFault self.now result × ((keep_until.new ≡ keep_until.old) × (buffer.new ≡ buffer.old))) }
    {
        match self.stamp(alloc) {
            Ok((bytes, until)) => {
                *keep_until = until;
                hand_over(bytes.as_slice(), buffer)
            }
            Err(answer) => answer,
        }
    }

    fn stamp(&self, alloc: Global) -> Result<(Vec<u8>, Time), Answer>
        ensures bytes { IfOk result (λ made. IsBytesOf self.now.asking.stamp made.0.items) }
        ensures until { IfOk result (λ made. IsTimeOf (until self.now) made.1) }
        ensures fault { IfErr result (IsQuestionFault self.now) }
    {
        let Some(moment) = self.asking.keep_until() else {
            return Err(Answer::plain(code::BAD_MOMENT));
        };
        let Ok(bytes) = self.asking.stamp(alloc) else {
            return Err(Answer::plain(code::OUT_OF_MEMORY));
        };
        Ok((bytes, Time::of(moment)))
    }
}

/// Writes the stamp that a store is asked for to the buffer, and to `keep_until` until when the store
/// must keep it, if the login waits for a store.
#[unsafe(no_mangle)]
pub extern "C" fn fevstunik_login_stamp(
    login: &mut Login,
    alloc: Global,
    keep_until: &mut Time,
    buffer: &mut [u8],
) -> Answer
    ensures told { MatchOption login.old.held.value ((result ≡ plain empty_handle) × ((keep_until.new ≡ keep_until.old) × (buffer.new ≡ buffer.old)))
        (λ state. TellsQuestion state.progress keep_until.old keep_until.new buffer.old buffer.new result) }
    ensures stays { SameLogin login.old login.new }
{
    with_held!(&mut login.held, alloc, state => state.tell_question(alloc, keep_until, buffer))
}

/// Decides about a login that waits for a store, by what the store said
/// (`krb_login::Asking::settle`). Writes what goes back to `out`; what is known of a client that is let
/// in is kept in the login.
#[unsafe(no_mangle)]
pub extern "C" fn fevstunik_login_settle(
    login: &mut Login,
    alloc: Global,
    said: u32,
    now: &Time,
    out: &mut [u8],
) -> Answer
    ensures { SettlesLogin login.old.held.value login.new.held.value login.old.accepted.value login.new.accepted.value said now.now out.old out.new result }
{
    let Some(said) = store_says(said) else {
        return Answer::plain(code::BAD_SAID);
    };
    let Some(now) = now.moment() else {
        return Answer::plain(code::BAD_MOMENT);
    };
    with_held!(&mut login.held, alloc, state => state.settle(alloc, &mut login.accepted, said, now, out))
}

fn store_says(number: u32) -> Option<StoreSays>
    ensures { MatchOption result (IsNotSaid number) (IsSaid number) }
{
    match number {
        SAID_NEW => Some(StoreSays::New),
        SAID_KNOWN => Some(StoreSays::Known),
        SAID_FAILED => Some(StoreSays::Failed),
        _ => None,
    }
}
