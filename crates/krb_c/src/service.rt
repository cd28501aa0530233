//! A service that accepts requests.

ghost use Rattle.std.specs.Prelude.{None, false, ◌≡◌};
ghost use Rattle.krb_c.specs.Service.{DecidesAlone, IsMomentOf, Remembers, TellsLatest, TellsUsage, Turns, cleared, emptied, latest_of, nothing_kept};
ghost use Rattle.krb_c.specs.Answer.{plain};
ghost use Rattle.krb_c.specs.Codes.{bad_moment, empty_handle};
ghost use Rattle.krb_c.specs.Login.{AddsRealm};
ghost use Rattle.krb_c.specs.Options.{Makes};
ghost use Rattle.krb_c.specs.Sizes.{whole};
ghost use Rattle.krb_time.specs.Moments.{micros_of};
ghost use Rattle.krb_c.specs.Renewal.{RenewsHeld};
ghost use Rattle.std.specs.Option.{MatchOption, option_map};
ghost use Rattle.krb_ap.specs.Setup.{arrival};
ghost use Rattle.krb_replay.specs.Memory.{IsSizeOf};

use crate::accepted_state::AcceptedState;
use crate::code;
use crate::handle::{empty, put, take, with_held};
use crate::handles::{AcceptedHandle, ServiceHandle};
use crate::service_options::service_of;
use crate::structs::{AcceptorOptions, Answer, Time, Usage};
use krb_msg::Moment;
use krb_replay::ReplayMemory;
use std::alloc::Global;

/// Makes a service that has seen nothing, and stores it in the handle. It decides by the keys of a
/// keytab and by its options. If `service` has bytes, it is a name's text, and only that name's
/// keys count: a ticket for another name is refused as `NotUs`. The options must say how the
/// service refuses what was accepted before it was started. What the handle held is freed. If no
/// service is made, the handle is unchanged.
#[unsafe(no_mangle)]
pub extern "C" fn fevstunik_acceptor_new(
    handle: &mut ServiceHandle,
    alloc: Global,
    keytab: &[u8],
    service: &[u8],
    options: &AcceptorOptions,
) -> Answer
    ensures { Makes (whole options.now) service.now keytab.now handle.old.value handle.new.value result }
{
    match service_of(alloc, keytab, service, &options.whole()) {
        Ok(state) => {
            put(handle, state);
            Answer::plain(code::OK)
        }
        Err(answer) => answer,
    }
}

/// Gives a service another keytab. It keeps what it has seen, the latest moment, the skew and the
/// start. If `service` has no bytes, `any_name` must say that each name of the keytab is served. If
/// the keytab isn't taken, the service is unchanged.
#[unsafe(no_mangle)]
pub extern "C" fn fevstunik_acceptor_replace_keytab(
    handle: &mut ServiceHandle,
    alloc: Global,
    keytab: &[u8],
    service: &[u8],
    any_name: bool,
) -> Answer
    ensures { RenewsHeld any_name service.now keytab.now handle.old.value handle.new.value result }
{
    with_held!(handle, alloc, state => state.renew(alloc, keytab, service, any_name))
}

/// Decides whether a request is accepted at a moment of the service's clock, and remembers what it
/// must to recognize a repeat. What is accepted is kept in the handle `accepted`, which
/// `fevstunik_accepted_new` made. After any other answer nothing is kept in it.
#[unsafe(no_mangle)]
pub extern "C" fn fevstunik_acceptor_accept(
    handle: &mut ServiceHandle,
    accepted: &mut AcceptedHandle,
    alloc: Global,
    request: &[u8],
    now: &Time,
) -> Answer
    ensures moment { ¬ IsMomentOf now.now → (result ≡ plain bad_moment)
        × ((handle.new.value ≡ option_map cleared handle.old.value) × (accepted.new.value ≡ option_map emptied accepted.old.value)) }
    ensures decided { IsMomentOf now.now → Turns accepted.old.value accepted.new.value ((result ≡ plain empty_handle) × (handle.new.value ≡ handle.old.value))
        (λ before kept. Turns handle.old.value handle.new.value ((result ≡ plain empty_handle) × (kept ≡ nothing_kept))
        (λ old new. DecidesAlone old.is_shared old new (arrival request.now (micros_of now.now.seconds now.now.micros)) kept.accepted result
        × (kept.has_sent ≡ false))) }
{
    let now = match now.moment() {
        Some(now) => now,
        None => {
            clear(handle, alloc);
            forget(accepted, alloc);
            return Answer::plain(code::BAD_MOMENT);
        }
    };
    with_held!(accepted, alloc, kept => decided(handle, alloc, &mut kept, request, now))
}

fn decided(
    handle: &mut ServiceHandle,
    alloc: Global,
    kept: &mut AcceptedState,
    request: &[u8],
    now: Moment,
) -> Answer
    ensures { Turns handle.old.value handle.new.value ((result ≡ plain empty_handle) × (kept.new ≡ nothing_kept))
        (λ old new. DecidesAlone old.is_shared old new (arrival request.now now) kept.new.accepted result × (kept.new.has_sent ≡ false)) }
{
    let Some(mut state) = take(handle, alloc) else {
        kept.clear();
        return Answer::plain(code::EMPTY_HANDLE);
    };
    let answer = state.accept(alloc, kept, request, now);
    put(handle, state);
    answer
}

// Nothing is reported as refused afterwards.
fn clear(handle: &mut ServiceHandle, alloc: Global)
    ensures { handle.new.value ≡ option_map cleared handle.old.value }
{
    if let Some(mut state) = take(handle, alloc) {
        state.clear();
        put(handle, state);
    }
}

// Nothing is reported as accepted afterwards.
fn forget(accepted: &mut AcceptedHandle, alloc: Global)
    ensures { accepted.new.value ≡ option_map emptied accepted.old.value }
{
    if let Some(mut kept) = take(accepted, alloc) {
        kept.clear();
        put(accepted, kept);
    }
}

/// Counts what is remembered. An empty handle remembers nothing.
#[unsafe(no_mangle)]
pub extern "C" fn fevstunik_acceptor_count(handle: &mut ServiceHandle, alloc: Global) -> usize
    ensures count { MatchOption handle.old.value (result ≡ 0) (λ state. IsSizeOf (Remembers state) result) }
    ensures stays { handle.new.value ≡ handle.old.value }
{
    let Some(state) = take(handle, alloc) else {
        return 0;
    };
    let count = state.service.acceptor.memory().len();
    put(handle, state);
    count
}

/// Reads how much the service remembers, and its limits.
#[unsafe(no_mangle)]
pub extern "C" fn fevstunik_acceptor_usage(
    handle: &mut ServiceHandle,
    alloc: Global,
    usage: &mut Usage,
) -> Answer
    ensures usage { MatchOption handle.old.value ((result ≡ plain empty_handle) × (usage.new ≡ usage.old))
        (λ state. TellsUsage state usage.new result) }
    ensures stays { handle.new.value ≡ handle.old.value }
{
    let Some(state) = take(handle, alloc) else {
        return Answer::plain(code::EMPTY_HANDLE);
    };
    *usage = state.usage();
    put(handle, state);
    Answer::plain(code::OK)
}

/// Returns the latest moment that was given, if there is one. Calls that were answered with lack of
/// memory, a limit that is reached or an invalid moment don't count.
#[unsafe(no_mangle)]
pub extern "C" fn fevstunik_acceptor_latest(
    handle: &mut ServiceHandle,
    alloc: Global,
    latest: &mut Time,
) -> Answer
    ensures latest { MatchOption handle.old.value ((result ≡ plain empty_handle) × (latest.new ≡ latest.old))
        (λ state. TellsLatest (latest_of state) latest.old latest.new result) }
    ensures stays { handle.new.value ≡ handle.old.value }
{
    with_held!(handle, alloc, state => state.tell_latest(latest))
}

/// Adds a realm whose clients `fevstunik_service_answer` lets in. A service that has none
/// lets in clients of any realm, unless its options say otherwise.
#[unsafe(no_mangle)]
pub extern "C" fn fevstunik_acceptor_add_realm(
    handle: &mut ServiceHandle,
    alloc: Global,
    realm: &[u8],
) -> Answer
    ensures { Turns handle.old.value handle.new.value (result ≡ plain empty_handle)
        (λ old new. AddsRealm realm.now old new result) }
{
    with_held!(handle, alloc, state => state.add_realm(alloc, realm))
}

/// Frees what the handle holds.
#[unsafe(no_mangle)]
pub extern "C" fn fevstunik_acceptor_free(handle: &mut ServiceHandle, alloc: Global)
    ensures { handle.new.value ≡ None }
{
    *handle = empty(alloc);
}
