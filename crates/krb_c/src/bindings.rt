//! The channel bindings that a service asks for.

ghost use Rattle.std.specs.Option.{MatchOption};
ghost use Rattle.krb_c.specs.Service.{Turns};
ghost use Rattle.krb_c.specs.Answer.{plain};
ghost use Rattle.krb_c.specs.Bindings.{AreBindings, AreNoBindings, CanBeSent, CantBeSent, ReplacesBindings};
ghost use Rattle.krb_c.specs.Codes.{empty_handle};
ghost use Rattle.std.specs.Prelude.{◌≡◌};

use crate::code;
use crate::handle::with_held;
use crate::handles::ServiceHandle;
use crate::service_state::ServiceState;
use crate::structs::Answer;
use krb_login::{Bindings, BindingsHash};
use std::alloc::Global;

/// Gives a service other channel bindings, for example those of a renewed certificate. It keeps all
/// else. If there is no such rule, or a rule that compares and a hash that no client with bindings
/// sends, the service is unchanged.
#[unsafe(no_mangle)]
pub extern "C" fn fevstunik_acceptor_replace_bindings(
    handle: &mut ServiceHandle,
    alloc: Global,
    bindings: u32,
    hash: &[u8],
) -> Answer
    ensures { Turns handle.old.value handle.new.value (result ≡ plain empty_handle)
        (λ old new. ReplacesBindings bindings hash.now old new result) }
{
    with_held!(handle, alloc, state => state.bind(bindings, hash))
}

impl ServiceState {
    // Asks for these bindings from now on.
    fn bind(&mut self, rule: u32, hash: &[u8]) -> Answer
        ensures { ReplacesBindings rule hash.now self.old self.new result }
    {
        match bindings_of(rule, hash) {
            Some(bindings) => {
                self.service.terms.bindings = bindings;
                Answer::plain(code::OK)
            }
            None => Answer::plain(code::BAD_BINDINGS),
        }
    }
}

/// What becomes of a client's channel bindings, by a rule's number and the hash that it compares with.
pub(crate) fn bindings_of(rule: u32, hash: &[u8]) -> Option<Bindings>
    ensures { MatchOption result (AreNoBindings rule hash.now) (AreBindings rule hash.now) }
{
    match rule {
        0 => Some(Bindings::Ignored),
        1 => Some(Bindings::IfSent(sendable(hash)?)),
        2 => Some(Bindings::Required(sendable(hash)?)),
        _ => None,
    }
}

// The hash, unless no client with bindings sends it: sixteen zeros say that there are none.
fn sendable(hash: &[u8]) -> Option<BindingsHash>
    ensures { MatchOption result (CantBeSent hash.now) (λ bound. (bound ≡ hash.now) × CanBeSent hash.now) }
{
    let bytes: [u8; 16] = hash.try_into().ok()?;
    BindingsHash::new(bytes)
}
