// Made from interface.toml by `make generate`. Don't edit this file.

//! The handles for C.

ghost use Rattle.std.specs.Prelude.{◌≡◌, List, Option};
ghost use Rattle.krb_ap.specs.Request.{Awaited};
ghost use Rattle.krb_c.specs.declared.accepted_state.AcceptedState.{AcceptedState};
ghost use Rattle.krb_c.specs.declared.login_state.LoginState.{LoginState};
ghost use Rattle.krb_c.specs.declared.service_state.ServiceState.{ServiceState};
ghost use Rattle.krb_ccache.specs.Value.{Cache};
ghost use Rattle.krb_context.specs.Context.{State};
ghost use Rattle.krb_keytab.specs.Entry.{KeytabEntry};
ghost use Rattle.krb_ap.specs.contracts.finish.Pending.{the_row as pending_row};
ghost use Rattle.krb_ap.specs.contracts.initiator.Initiator.{the_row as cache_row};
ghost use Rattle.krb_c.specs.contracts.accepted_state.AcceptedState.{the_row as accepted_row};
ghost use Rattle.krb_c.specs.contracts.login_state.LoginState.{the_row as login_row};
ghost use Rattle.krb_c.specs.contracts.service_state.ServiceState.{the_row as acceptor_row};
ghost use Rattle.krb_context.specs.contracts.context.Context.{the_row as messages_row};
ghost use Rattle.krb_keytab.specs.contracts.keytab.Keytab.{the_row as keytab_row};
ghost use Rattle.krb_c.specs.Handle.{handle_owns};
ghost use Rattle.std.specs.Coded.{coded_option};

use crate::accepted_state::AcceptedState;
use crate::handle::{Handle, free};
use crate::login_state::LoginState;
use crate::place::Place;
use crate::service_state::ServiceState;
use krb_ap::{Initiator, Pending};
use krb_context::Context;
use krb_keytab::Keytab;
use std::alloc::Global;
use std::marker::Model;

/// The handle of a service.
#[repr(C)]
pub struct ServiceHandle {
    at: *mut u8,
    alloc: Global,
    pub ghost value: { Option ServiceState } by { coded_option acceptor_row.coded },
}

impl Model for ServiceHandle {
    ghost also_owns = { λ h. handle_owns acceptor_row h.alloc h.at h.value };
}

impl Handle for ServiceHandle {
    type Value = ServiceState;

    ghost held = { λ h. h.value };

    fn of_place(place: Place<ServiceState>) -> ServiceHandle
        ensures { result.value ≡ place.value }
    {
        let Place { at, alloc } = place;
        ServiceHandle {
            at: at as *mut u8,
            alloc,
        }
    }

    fn into_place(self) -> Place<ServiceState>
        ensures { result.value ≡ self.value }
    {
        let ServiceHandle { at, alloc } = self;
        Place {
            at: at as *mut ServiceState,
            alloc,
        }
    }
}

impl Drop for ServiceHandle {
    fn drop(self) {
        free(self);
    }
}

/// The handle of an accepted request.
#[repr(C)]
pub struct AcceptedHandle {
    at: *mut u8,
    alloc: Global,
    pub ghost value: { Option AcceptedState } by { coded_option accepted_row.coded },
}

impl Model for AcceptedHandle {
    ghost also_owns = { λ h. handle_owns accepted_row h.alloc h.at h.value };
}

impl Handle for AcceptedHandle {
    type Value = AcceptedState;

    ghost held = { λ h. h.value };

    fn of_place(place: Place<AcceptedState>) -> AcceptedHandle
        ensures { result.value ≡ place.value }
    {
        let Place { at, alloc } = place;
        AcceptedHandle {
            at: at as *mut u8,
            alloc,
        }
    }

    fn into_place(self) -> Place<AcceptedState>
        ensures { result.value ≡ self.value }
    {
        let AcceptedHandle { at, alloc } = self;
        Place {
            at: at as *mut AcceptedState,
            alloc,
        }
    }
}

impl Drop for AcceptedHandle {
    fn drop(self) {
        free(self);
    }
}

/// The handle of a login.
#[repr(C)]
pub struct LoginHandle {
    at: *mut u8,
    alloc: Global,
    pub ghost value: { Option LoginState } by { coded_option login_row.coded },
}

impl Model for LoginHandle {
    ghost also_owns = { λ h. handle_owns login_row h.alloc h.at h.value };
}

impl Handle for LoginHandle {
    type Value = LoginState;

    ghost held = { λ h. h.value };

    fn of_place(place: Place<LoginState>) -> LoginHandle
        ensures { result.value ≡ place.value }
    {
        let Place { at, alloc } = place;
        LoginHandle {
            at: at as *mut u8,
            alloc,
        }
    }

    fn into_place(self) -> Place<LoginState>
        ensures { result.value ≡ self.value }
    {
        let LoginHandle { at, alloc } = self;
        Place {
            at: at as *mut LoginState,
            alloc,
        }
    }
}

impl Drop for LoginHandle {
    fn drop(self) {
        free(self);
    }
}

/// The handle of a keytab.
#[repr(C)]
pub struct KeytabHandle {
    at: *mut u8,
    alloc: Global,
    pub ghost value: { Option (List KeytabEntry) } by { coded_option keytab_row.coded },
}

impl Model for KeytabHandle {
    ghost also_owns = { λ h. handle_owns keytab_row h.alloc h.at h.value };
}

impl Handle for KeytabHandle {
    type Value = Keytab;

    ghost held = { λ h. h.value };

    fn of_place(place: Place<Keytab>) -> KeytabHandle
        ensures { result.value ≡ place.value }
    {
        let Place { at, alloc } = place;
        KeytabHandle {
            at: at as *mut u8,
            alloc,
        }
    }

    fn into_place(self) -> Place<Keytab>
        ensures { result.value ≡ self.value }
    {
        let KeytabHandle { at, alloc } = self;
        Place {
            at: at as *mut Keytab,
            alloc,
        }
    }
}

impl Drop for KeytabHandle {
    fn drop(self) {
        free(self);
    }
}

/// The handle of a credential cache.
#[repr(C)]
pub struct CacheHandle {
    at: *mut u8,
    alloc: Global,
    pub ghost value: { Option Cache } by { coded_option cache_row.coded },
}

impl Model for CacheHandle {
    ghost also_owns = { λ h. handle_owns cache_row h.alloc h.at h.value };
}

impl Handle for CacheHandle {
    type Value = Initiator;

    ghost held = { λ h. h.value };

    fn of_place(place: Place<Initiator>) -> CacheHandle
        ensures { result.value ≡ place.value }
    {
        let Place { at, alloc } = place;
        CacheHandle {
            at: at as *mut u8,
            alloc,
        }
    }

    fn into_place(self) -> Place<Initiator>
        ensures { result.value ≡ self.value }
    {
        let CacheHandle { at, alloc } = self;
        Place {
            at: at as *mut Initiator,
            alloc,
        }
    }
}

impl Drop for CacheHandle {
    fn drop(self) {
        free(self);
    }
}

/// The handle of a request whose reply is awaited.
#[repr(C)]
pub struct PendingHandle {
    at: *mut u8,
    alloc: Global,
    pub ghost value: { Option Awaited } by { coded_option pending_row.coded },
}

impl Model for PendingHandle {
    ghost also_owns = { λ h. handle_owns pending_row h.alloc h.at h.value };
}

impl Handle for PendingHandle {
    type Value = Pending;

    ghost held = { λ h. h.value };

    fn of_place(place: Place<Pending>) -> PendingHandle
        ensures { result.value ≡ place.value }
    {
        let Place { at, alloc } = place;
        PendingHandle {
            at: at as *mut u8,
            alloc,
        }
    }

    fn into_place(self) -> Place<Pending>
        ensures { result.value ≡ self.value }
    {
        let PendingHandle { at, alloc } = self;
        Place {
            at: at as *mut Pending,
            alloc,
        }
    }
}

impl Drop for PendingHandle {
    fn drop(self) {
        free(self);
    }
}

/// The handle of the messages after a login.
#[repr(C)]
pub struct MessagesHandle {
    at: *mut u8,
    alloc: Global,
    pub ghost value: { Option State } by { coded_option messages_row.coded },
}

impl Model for MessagesHandle {
    ghost also_owns = { λ h. handle_owns messages_row h.alloc h.at h.value };
}

impl Handle for MessagesHandle {
    type Value = Context;

    ghost held = { λ h. h.value };

    fn of_place(place: Place<Context>) -> MessagesHandle
        ensures { result.value ≡ place.value }
    {
        let Place { at, alloc } = place;
        MessagesHandle {
            at: at as *mut u8,
            alloc,
        }
    }

    fn into_place(self) -> Place<Context>
        ensures { result.value ≡ self.value }
    {
        let MessagesHandle { at, alloc } = self;
        Place {
            at: at as *mut Context,
            alloc,
        }
    }
}

impl Drop for MessagesHandle {
    fn drop(self) {
        free(self);
    }
}
