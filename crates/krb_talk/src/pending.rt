//! A client that is asked for its MIC.

ghost use Rattle.std.specs.Prelude.{◌≡◌};
ghost use Rattle.krb_talk.specs.Pending.{Finishes};

use crate::checking::{Admitted, ListFault};
use crate::mic::show;
use krb_ap::Accepted;
use krb_context::Context;
use krb_gss::later_mic;
use std::marker::Model;

/// What is known of a client whose request is accepted, and which is asked for its mechListMIC. None of it can be read before
/// that is checked. There is no `Debug`, so no log shows a key.
#[derive(Drop)]
pub struct Pending {
    accepted: Accepted,
    list: Vec<u8>,
    context: Box<Context>,
}

impl Model for Pending {
    ghost use Rattle.krb_talk.specs.States.{Pending as PendingValue};

    ghost Value = { PendingValue };

    ghost view = { λ p. record {
      accepted = p.accepted;
      list = p.list.items;
      context = p.context.value;
    } };
}

impl Pending {
    /// Keeps what is known of a client until it sends its MIC.
    pub(crate) fn new(accepted: Accepted, list: Vec<u8>, context: Box<Context>) -> Pending
        ensures { result ≡ record { accepted = accepted; list = list.items; context = context.value } }
    {
        Pending {
            accepted,
            list,
            context,
        }
    }

    /// Lets the client in if its last message has its MIC of the list of mechanisms (RFC 4178, section 5). Otherwise what is known
    /// of the client is freed.
    ///
    /// Nothing goes back to a client that is let in: the service has sent its own MIC, so the negotiation is completed on both
    /// sides. MIT krb5 sends nothing here either. A responseToken in the message isn't looked at.
    ///
    /// # Errors
    /// The first that applies:
    /// - `Token`: the bytes aren't a client's later message.
    /// - `Missing`: it has no mechListMIC.
    /// - `Wrong`: the mechListMIC isn't the client's MIC of the list, or the context doesn't take it.
    #[inline(never)]
    pub fn finish(self, bytes: &[u8]) -> Result<Admitted, ListFault>
        ensures { Finishes self bytes.now result }
    {
        let Pending {
            accepted,
            list,
            mut context,
        } = self;
        let mic = match later_mic(bytes) {
            Ok(Some(mic)) => mic,
            Ok(None) => return Err(ListFault::Missing),
            Err(fault) => return Err(ListFault::Token(fault)),
        };
        match show(&mut context, list.as_slice(), mic) {
            Ok(()) => Ok(Admitted {
                accepted,
                context,
                answer: None,
            }),
            Err(fault) => Err(ListFault::Wrong(fault)),
        }
    }
}
