//! A client that names another mechanism first, and Kerberos after it.

ghost use Rattle.std.specs.Prelude.{◌≡◌, ◌⊎◌, ℕ, List, IfErr, IfOk, OnErr, Option};
ghost use Rattle.std.specs.Option.{MatchOption};
ghost use Rattle.krb_gss.specs.Listing.{IsListing};
ghost use Rattle.krb_gss.specs.Later.{IsLaterFault};
ghost use Rattle.krb_gss.specs.ListMic.{IsMicFault, WritesRequestMic};
ghost use Rattle.krb_gss.specs.Checksum.{bytes_if};
ghost use Rattle.krb_talk.specs.Checking.{Checks, check_of};
ghost use Rattle.krb_talk.specs.Inner.{Prepares, checking_of};
ghost use Rattle.krb_talk.specs.ListMic.{HoldsBoth};

use crate::beginning::context_for;
use crate::checking::{Admitted, Checking, ListFault, Prepared};
use crate::mic::{Replying, marked};
use crate::pending::Pending;
use krb_ap::{Accepted, ReplyOptions};
use krb_context::Options;
use krb_gss::{
    Mechanism, Negotiation, TokenFault, later_mic, open_later, open_listing, wrap_request_mic,
};
use krb_login::LetIn;
use std::alloc::{AllocError, Global};
use std::marker::Model;

/// The mechanisms of a client that names another one first, and Kerberos after it.
#[derive(Debug, Drop)]
pub struct Listed {
    mechanism: Mechanism,
    list: Vec<u8>,
}

impl Model for Listed {
    ghost use Rattle.krb_talk.specs.States.{Listing};

    ghost Value = { Listing };

    ghost view = { λ l. record {
      mechanism = l.mechanism;
      list = l.list.items;
    } };
}

/// What is chosen for a check. There is no `Debug`, so no log shows a key.
#[derive(Drop)]
pub struct Chosen<'a> {
    /// The confounder of the reply: 16 random bytes, those that the service was given for its decision.
    pub confounder: &'a [u8; 16],
    /// What the service chose for the reply, the same as for its decision.
    pub choice: &'a ReplyOptions,
    /// How the context takes and writes the messages after the login.
    pub options: Options,
}

impl Listed {
    /// Opens a client's first token that names another mechanism first, and Kerberos after it. Returns `None` for other bytes, which
    /// are for [`Service::answer`](krb_login::Service::answer) with a negotiation that begins.
    ///
    /// # Errors
    /// `AllocError`: there is no memory for a copy of the list.
    pub fn open(alloc: Global, bytes: &[u8]) -> Result<Option<Listed>, AllocError>
        ensures found { IfOk result (λ it. MatchOption it ((mechanism : Mechanism) (list : List ℕ) → IsListing mechanism list bytes.now → ⊥)
            (λ listed. IsListing listed.mechanism listed.list bytes.now)) }
        ensures memory { OnErr result ((mechanism : Mechanism) × (list : List ℕ) × IsListing mechanism list bytes.now) }
    {
        match open_listing(bytes) {
            None => Ok(None),
            Some(listing) => {
                let list = Vec::from_slice(alloc, listing.list)?;
                Ok(Some(Listed {
                    mechanism: listing.mechanism,
                    list,
                }))
            }
        }
    }

    /// Asks the client for its token of Kerberos and the MIC of its list (request-mic: RFC 4178, section 4.2.2).
    ///
    /// # Errors
    /// `AllocError`: out of memory.
    pub fn request_mic(&self, alloc: Global) -> Result<Vec<u8>, AllocError>
        ensures { IfOk result (λ bytes. WritesRequestMic self.now.mechanism bytes.items) }
    {
        wrap_request_mic(alloc, self.mechanism)
    }

    /// Returns the state of the service's negotiation for the client's next message: the client was asked for its token.
    pub fn negotiation(&self) -> Negotiation
        ensures { result ≡ Negotiation.Asked self.now.mechanism }
    {
        Negotiation::Asked(self.mechanism)
    }

    /// Goes on with a client whose request, in its next message `bytes`, was let in by the service.
    ///
    /// The client is let in only with its MIC of the list (RFC 4178, section 5). A client that asked for no reply has to send it with
    /// its token. Any other one may do so. If it doesn't, it is asked for it, with the reply, and [`Pending::finish`] takes it.
    ///
    /// # Errors
    /// The first that applies:
    /// - `Token`: the bytes aren't a client's later message with a token.
    /// - `OtherKey`: the client's subkey isn't of type 19 or 20.
    /// - `Missing`: there is no mechListMIC, and the client awaits no reply.
    /// - `Wrong`: the mechListMIC isn't the client's MIC of the list, or the context doesn't take it.
    /// - `OutOfMemory`: there is no memory for what goes back.
    pub fn check(
        self,
        alloc: Global,
        bytes: &[u8],
        login: LetIn,
        chosen: Chosen<'_>,
    ) -> Result<Checking, ListFault>
        ensures { Checks (check_of self.list bytes.now login.accepted chosen.entry) result }
    {
        let made = self.mark(alloc, bytes, &login.accepted, chosen);
        self.checking(login.accepted, made)
    }

    /// Begins the context of an accepted request, in which the client's MIC of the list is taken, if it came, and writes what goes back.
    /// All that is large stays with the caller.
    #[inline(never)]
    pub(crate) fn mark(
        &self,
        alloc: Global,
        bytes: &[u8],
        accepted: &Accepted,
        chosen: Chosen<'_>,
    ) -> Result<Prepared, ListFault>
        ensures { Prepares (check_of self.now.list bytes.now accepted.now chosen.entry) result }
    {
        let Chosen {
            confounder,
            choice,
            options,
        } = chosen;
        let (mechanism, mic) = match held(bytes) {
            Ok(held) => held,
            Err(fault) => return Err(ListFault::Token(fault)),
        };
        let list = self.list.as_slice();
        let mut context = match context_for(alloc, accepted, choice, options, list, mic) {
            Ok(context) => context,
            Err(fault) => return Err(fault),
        };
        let replying = Replying {
            mechanism,
            confounder,
            choice,
        };
        let is_shown = mic.is_some();
        match marked(alloc, &mut context, list, is_shown, accepted, replying) {
            Ok(sent) => Ok(Prepared {
                context,
                sent,
                is_shown,
            }),
            Err(fault) => Err(fault),
        }
    }

    /// What the check of the list leads to, by what was prepared for its client.
    pub(crate) fn checking(
        self,
        accepted: Accepted,
        made: Result<Prepared, ListFault>,
    ) -> Result<Checking, ListFault>
        ensures { result ≡ checking_of self.list accepted made }
    {
        let Prepared {
            context,
            sent,
            is_shown,
        } = match made {
            Ok(prepared) => prepared,
            Err(fault) => return Err(fault),
        };
        if is_shown {
            return Ok(Checking::Shown(Admitted {
                accepted,
                context,
                answer: Some(sent),
            }));
        }
        Ok(Checking::Waits(Pending::new(accepted, self.list, context), sent))
    }
}

/// The name of Kerberos and the MIC in a client's later message.
#[inline(never)]
fn held<'a>(bytes: &'a [u8]) -> Result<(Mechanism, Option<&'a [u8]>), TokenFault>
    ensures found { IfOk result (λ it. HoldsBoth it.0 (bytes_if it.1) bytes.entry.now) }
    ensures faulty { IfErr result (λ fault. IsLaterFault bytes.entry.now fault ⊎ IsMicFault bytes.entry.now fault) }
{
    let later = match open_later(bytes) {
        Ok(later) => later,
        Err(fault) => return Err(fault),
    };
    match later_mic(bytes) {
        Ok(mic) => Ok((later.mechanism, mic)),
        Err(fault) => Err(fault),
    }
}
