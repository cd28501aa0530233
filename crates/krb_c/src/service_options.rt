//! What a service is made with: its options, the keys of its keytab and the name that it serves.

ghost use Rattle.std.specs.Prelude.{◌≡◌, ◌*◌, ◌↔◌, ◌<◌, Contains, IfErr, IfOk, IsTrue, Some, []};
ghost use Rattle.krb_ap.specs.History.{StandsFor};
ghost use Rattle.krb_replay.specs.Memory.{empty_memory};
ghost use Rattle.krb_c.specs.Service.{Serves};
ghost use Rattle.krb_c.specs.Request.{IsUnnamed};
ghost use Rattle.krb_c.specs.Options.{AreTerms, IsInvalid, IsLateEnough, IsMade, IsStart, IsStartFault, IsSubkeyType, IsTermsFault, IsUnmade, IsValid, client_limit_of, limit_of};
ghost use Rattle.krb_c.specs.Renewal.{IsNamed, IsServed, IsUnusable};

use crate::bindings::bindings_of;
use crate::code;
use crate::keytab::keytab_of;
use crate::name::name_of;
use crate::service_state::ServiceState;
use crate::sizes::OPTIONS_SIZE;
use crate::structs::{AcceptorOptions, Answer};
use krb_ap::Acceptor;
use krb_keytab::Keytab;
use krb_login::{Realms, Service, Terms};
use krb_msg::Moment;
use krb_replay::{LimitedMemory, Skew, TimedMemory};
use std::alloc::Global;

// How repeats are refused across starts. The header has the numbers under the same names.
const RESTART_STARTED: u32 = 1;

const RESTART_FIRST_LIFE: u32 = 2;

const RESTART_SHARED: u32 = 3;

// The most requests that are remembered if the options don't say.
const DEFAULT_LIMIT: usize = 1_000_000;

// The first second of the year 2020. A time since the machine was started is earlier.
const YEAR_2020: i64 = 1_577_836_800;

/// A service of the entries that are wanted, which has seen nothing.
pub(crate) fn service_of(
    alloc: Global,
    keytab: &[u8],
    service: &[u8],
    options: &AcceptorOptions,
) -> Result<Box<ServiceState>, Answer>
    ensures made { IfOk result (λ state. IsMade options.now service.now keytab.now state.value) }
    ensures fault { IfErr result (λ answer. IsUnmade options.now service.now keytab.now answer) }
{
    let (skew, start) = options.setup(service)?;
    let terms = options.terms(alloc)?;
    let keytab = served(alloc, keytab, service)?;
    let (limit, limit_for_client) = (options.limit(), options.limit_for_client());
    let memory = LimitedMemory::new(TimedMemory::new(alloc), limit, limit_for_client);
    let acceptor = acceptor_of(keytab, skew, memory, start);
    let state = ServiceState {
        service: Service { acceptor, terms },
        subkey_type: options.subkey_type,
        is_shared: options.restarts == RESTART_SHARED,
        refusal: None,
    };
    match Box::new(alloc, state) {
        Ok(state) => Ok(state),
        Err(_) => Err(Answer::plain(code::OUT_OF_MEMORY)),
    }
}

// A service of these entries that has seen nothing.
fn acceptor_of(
    keytab: Keytab,
    skew: Skew,
    memory: LimitedMemory<TimedMemory>,
    start: Option<Moment>,
) -> Acceptor<LimitedMemory<TimedMemory>>
    requires { memory.memory ≡ empty_memory }
    ensures setup { result.setup ≡ record { entries = keytab; skew = skew; start = start } }
    ensures memory { result.memory ≡ memory }
    ensures stands { StandsFor result.setup (Contains result.memory.memory.stamps) result.memory.memory.latest [] }
{
    match start {
        Some(start) => Acceptor::started(keytab, skew, memory, start),
        None => Acceptor::new(keytab, skew, memory),
    }
}

impl AcceptorOptions {
    /// What a client that is let in must meet.
    fn terms(&self, alloc: Global) -> Result<Terms, Answer>
        ensures terms { IfOk result (AreTerms self.now) }
        ensures fault { IfErr result (IsTermsFault self.now) }
    {
        let Some(bindings) = bindings_of(self.bindings, &self.bindings_hash) else {
            return Err(Answer::plain(code::BAD_BINDINGS));
        };
        if !is_subkey_type(self.subkey_type) {
            return Err(Answer::plain(code::KEY_TYPE));
        }
        let realms = if self.only_realms {
            Realms::Only(Vec::new(alloc))
        } else {
            Realms::Any
        };
        Ok(Terms {
            anonymous: self.anonymous,
            realms,
            bindings,
        })
    }

    /// The skew and the start, if the options are valid for a service of this name's text.
    fn setup(&self, service: &[u8]) -> Result<(Skew, Option<Moment>), Answer>
        ensures valid { IfOk result (λ setup. IsValid self.now service.now setup.1) }
        ensures skew { IfOk result (λ setup. setup.0 ≡ 1_000_000 * self.now.skew) }
        ensures fault { IfErr result (λ answer. IsInvalid self.now service.now answer) }
    {
        if self.size != OPTIONS_SIZE {
            return Err(Answer::plain(code::BAD_OPTIONS));
        }
        if !is_named(self.any_name, service) {
            return Err(Answer::plain(code::NO_NAME));
        }
        let start = match self.start() {
            Ok(start) => start,
            Err(answer) => return Err(answer),
        };
        match Skew::new(self.skew) {
            Some(skew) => Ok((skew, start)),
            None => Err(Answer::plain(code::BAD_SKEW)),
        }
    }

    // The moment of the start, if the service isn't in its first life.
    fn start(&self) -> Result<Option<Moment>, Answer>
        ensures start { IfOk result (λ start. IsStart self.now start) }
        ensures fault { IfErr result (λ answer. IsStartFault self.now answer) }
    {
        match self.restarts {
            RESTART_STARTED | RESTART_SHARED => match self.started.moment() {
                Some(start) if self.is_late_enough() => Ok(Some(start)),
                Some(_) => Err(Answer::plain(code::EARLY_START)),
                None => Err(Answer::plain(code::BAD_MOMENT)),
            },
            RESTART_FIRST_LIFE => Ok(None),
            _ => Err(Answer::plain(code::NO_START)),
        }
    }

    // The most requests that are remembered.
    fn limit(&self) -> usize
        ensures { result ≡ limit_of self.now }
    {
        if self.limit == 0 {
            return DEFAULT_LIMIT;
        }
        self.limit
    }

    // The most requests of one client that are remembered.
    fn limit_for_client(&self) -> usize
        ensures { result ≡ client_limit_of self.now }
    {
        if self.limit_for_client == 0 {
            return (self.limit() / 10).max(1);
        }
        self.limit_for_client
    }

    fn is_late_enough(&self) -> bool
        ensures { IsTrue result ↔ IsLateEnough self.now }
    {
        self.any_start || self.started.seconds >= YEAR_2020
    }
}

fn is_subkey_type(etype: u32) -> bool
    ensures { IsTrue result ↔ IsSubkeyType etype }
{
    matches!(etype, 0 | 19 | 20)
}

/// Whether a name is given, or each name of the keytab is to be served.
pub(crate) fn is_named(any_name: bool, service: &[u8]) -> bool
    ensures { IsTrue result ↔ IsNamed any_name service.now }
{
    any_name || !service.is_empty()
}

/// The keytab's entries of the wanted service.
pub(crate) fn served(alloc: Global, keytab: &[u8], service: &[u8]) -> Result<Keytab, Answer>
    ensures served { IfOk result (IsServed service.now keytab.now) }
    ensures unusable { IfErr result (IsUnusable service.now keytab.now) }
{
    let keytab = keytab_of(alloc, keytab)?;
    wanted(alloc, keytab, service)
}

// The keytab's entries of the wanted service: all of them if no service is named.
fn wanted(alloc: Global, keytab: Keytab, service: &[u8]) -> Result<Keytab, Answer>
    ensures wanted { IfOk result (λ kept. Serves service.now keytab kept) }
    ensures unnamed { IfErr result (λ answer. IsUnnamed service.now answer) }
{
    if service.is_empty() {
        return Ok(keytab);
    }
    match name_of(alloc, service) {
        Ok(name) => Ok(keytab.only(&name)),
        Err(answer) => Err(answer),
    }
}
