//! A login in one call: a service opens what a client sent, decides, and makes what goes back.

ghost use Rattle.std.specs.Prelude.{IfErr, IfOk, None, Option, ◌≡◌};
ghost use Rattle.std.specs.Option.{MatchOption, option_map};
ghost use Rattle.krb_c.specs.Answer.{plain};
ghost use Rattle.krb_c.specs.Codes.{empty_handle};
ghost use Rattle.krb_c.specs.Login.{AnswersLogin, IsDrawn, IsNotDrawn, IsSubkey, ListsAsked, ReadsAsked, SameLogin, TellsOutcome, decided_in, talk_of, undecided};
ghost use Rattle.krb_c.specs.Inner.{AnswersMoment, IsCopyIf};
ghost use Rattle.krb_enc.specs.Key.{KeyValue};

use crate::accepted_state::AcceptedState;
use crate::answer::hand_over_with;
use crate::code;
use crate::handle::{empty, put, take, with_held};
use crate::handles::{AcceptedHandle, LoginHandle, ServiceHandle};
use crate::login_state::{LoginState, asked_told};
use crate::service_state::ServiceState;
use crate::structs::{Answer, Asked, Time};
use krb_ap::ReplyOptions;
use krb_enc::Key;
use krb_login::{Given, asked_by};
use krb_msg::Moment;
use std::alloc::{AllocError, Global};

/// A client's login, as C has it.
#[repr(C)]
pub struct Login {
    /// What is known of a client that is let in.
    pub accepted: AcceptedHandle,
    /// How far the login is.
    pub held: LoginHandle,
}

/// Lets a client in, asks it for its next token, or refuses it (`krb_login::Service::answer`). Writes
/// what goes back to `out`; what is known of a client that is let in is kept in the login. A service
/// that shares a store of stamps lets nobody in: the login waits for the store (`Service::ask`).
#[unsafe(no_mangle)]
pub extern "C" fn fevstunik_service_answer(
    service: &mut ServiceHandle,
    login: &mut Login,
    alloc: Global,
    input: &[u8],
    now: &Time,
    random: &[u8],
    out: &mut [u8],
) -> Answer
    ensures { AnswersLogin service.old.value service.new.value login.old.held.value login.new.held.value login.new.accepted.value input.now now.now random.now out.old out.new result }
{
    login.clear(alloc);
    let Some(now) = now.moment() else {
        return Answer::plain(code::BAD_MOMENT);
    };
    with_held!(service, alloc, state => login.answer(alloc, &mut state, input, now, random, out))
}

impl Login {
    // Nothing of an earlier call is kept.
    #[inline(never)]
    fn clear(&mut self, alloc: Global)
        ensures accepted { self.new.accepted.value ≡ None }
        ensures held { self.new.held.value ≡ option_map undecided self.old.held.value }
    {
        self.accepted = empty(alloc);
        if let Some(mut held) = take(&mut self.held, alloc) {
            held.clear();
            put(&mut self.held, held);
        }
    }

    // Decides, or waits for a store, unless memory or random bytes are lacking.
    #[inline(never)]
    fn answer(
        &mut self,
        alloc: Global,
        service: &mut ServiceState,
        input: &[u8],
        now: Moment,
        random: &[u8],
        out: &mut [u8],
    ) -> Answer
        ensures { AnswersMoment service.old service.new self.old.held.value self.new.held.value self.old.accepted.value self.new.accepted.value input.now now random.now out.old out.new result }
    {
        let (confounder, choice) = match drawn(random, service.subkey_type) {
            Ok(drawn) => drawn,
            Err(answer) => return answer,
        };
        let Some(mut kept) = AcceptedState::boxed(alloc) else {
            return Answer::plain(code::OUT_OF_MEMORY);
        };
        let Ok(message) = message_if(alloc, service.is_shared, input) else {
            return Answer::plain(code::OUT_OF_MEMORY);
        };
        let Some(mut held) = held_by(&mut self.held, alloc) else {
            return Answer::plain(code::OUT_OF_MEMORY);
        };
        let given = Given {
            bytes: input,
            now,
            confounder: &confounder,
            choice,
        };
        held.judge(alloc, service, &mut kept, given, message);
        let answer = held.answer(out);
        put(&mut self.held, held);
        put(&mut self.accepted, kept);
        answer
    }
}

// What a login's handle holds, or a login that begins; or none if there is no memory for it.
#[inline(never)]
fn held_by(handle: &mut LoginHandle, alloc: Global) -> Option<Box<LoginState>>
    ensures { MatchOption result ((handle.old.value ≡ None) × (handle.new.value ≡ None))
        (λ held. talk_of handle.old.value ≡ held.value.talk) }
{
    match take(handle, alloc) {
        Some(held) => Some(held),
        None => match Box::new(alloc, LoginState::begun()) {
            Ok(held) => Some(held),
            Err(_) => None,
        },
    }
}

// A copy of what a client sent, for a login that may wait for a store.
fn message_if(alloc: Global, is_shared: bool, bytes: &[u8]) -> Result<Option<Vec<u8>>, AllocError>
    ensures { IfOk result (IsCopyIf is_shared bytes.now) }
{
    if !is_shared {
        return Ok(None);
    }
    Ok(Some(Vec::from_slice(alloc, bytes)?))
}

// The confounder and what a reply has, of random bytes.
#[inline(never)]
fn drawn(random: &[u8], subkey_type: u32) -> Result<([u8; 16], ReplyOptions), Answer>
    ensures drawn { IfOk result (λ both. IsDrawn subkey_type random.now both.0 both.1) }
    ensures fault { IfErr result (IsNotDrawn subkey_type random.now) }
{
    if random.len() < 16 {
        return Err(Answer::plain(code::BAD_RANDOM));
    }
    let mut confounder = [0; 16];
    confounder.copy_from_slice(&random[..16]);
    match subkey_of(subkey_type, &random[16..]) {
        Some(subkey) => Ok((confounder, ReplyOptions { subkey, seq: None })),
        None => Err(Answer::plain(code::BAD_RANDOM)),
    }
}

// The subkey of a type, or none for the type 0, if there are as many bytes as it has.
fn subkey_of(etype: u32, bytes: &[u8]) -> Option<Option<Key>>
    ensures { MatchOption result ((subkey : Option KeyValue) → ¬ IsSubkey etype bytes.now subkey) (IsSubkey etype bytes.now) }
{
    match etype {
        0 => { if bytes.is_empty() { Some(None) } else { None } }
        19 => match Key::new(19, bytes) {
            Ok(key) => Some(Some(key)),
            Err(_) => None,
        },
        20 => match Key::new(20, bytes) {
            Ok(key) => Some(Some(key)),
            Err(_) => None,
        },
        _ => None,
    }
}

/// Returns what the last `fevstunik_service_answer` or `fevstunik_login_settle` with this login decided,
/// and writes what goes back to `out`. The login is unchanged.
#[unsafe(no_mangle)]
pub extern "C" fn fevstunik_login_answer(login: &mut Login, alloc: Global, out: &mut [u8]) -> Answer
    ensures told { MatchOption login.old.held.value ((result ≡ plain empty_handle) × (out.new ≡ out.old))
        (λ state. TellsOutcome (decided_in state.progress) out.old out.new result) }
    ensures stays { SameLogin login.old login.new }
{
    with_held!(&mut login.held, alloc, state => state.tell(out))
}

/// Reads what a request asked for that the last `fevstunik_service_answer` or `fevstunik_login_settle`
/// with this login refused. Writes the service's text to the buffer, and its place and the numbers to
/// `asked`.
#[unsafe(no_mangle)]
pub extern "C" fn fevstunik_login_asked(
    login: &mut Login,
    alloc: Global,
    asked: &mut Asked,
    buffer: &mut [u8],
) -> Answer
    ensures told { ListsAsked login.old.held.value asked.old asked.new buffer.old buffer.new result }
    ensures stays { SameLogin login.old login.new }
{
    with_held!(&mut login.held, alloc, state => state.tell_asked(alloc, asked, buffer))
}

/// Frees what the login holds. It is empty then.
#[unsafe(no_mangle)]
pub extern "C" fn fevstunik_login_free(login: &mut Login, alloc: Global)
    ensures accepted { login.new.accepted.value ≡ None }
    ensures held { login.new.held.value ≡ None }
{
    login.accepted = empty(alloc);
    login.held = empty(alloc);
}

/// Reads what a request asks for, without any key (`krb_login::asked_by`). Writes the service's text
/// to the buffer, and its place and the numbers to `asked`.
#[unsafe(no_mangle)]
pub extern "C" fn fevstunik_request_asks(
    alloc: Global,
    request: &[u8],
    asked: &mut Asked,
    buffer: &mut [u8],
) -> Answer
    ensures { ReadsAsked request.now asked.old asked.new
        buffer.old buffer.new result }
{
    match asked_by(alloc, request) {
        Ok(Some(found)) => hand_over_with(asked_told(alloc, &found), asked, buffer),
        Ok(None) => Answer::plain(code::NOTHING_THERE),
        Err(_) => Answer::plain(code::OUT_OF_MEMORY),
    }
}
