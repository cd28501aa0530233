//! What a service knows of an accepted request.

ghost use Rattle.std.specs.Prelude.{◌≡◌, IfOk};
ghost use Rattle.krb_ap.specs.Answer.{taken_of};
ghost use Rattle.krb_ap.specs.Taken.{taken_stamp};

use krb_enc::Key;
use krb_msg::{Flags, Microseconds, Principal, RawKey, Seconds, Typed};
use krb_replay::Tuple;
use std::alloc::{AllocError, Global};

/// What is known of an accepted request (RFC 4120, section 3.2.3). There is no `Debug`, so no log
/// shows a key.
#[derive(Drop)]
pub struct Accepted {
    /// The client, as the ticket names it.
    pub client: Principal,
    /// The service that was asked for: the ticket's realm and name, with its name type. The name
    /// isn't sealed: if two names of a keytab have the same key, whoever has the ticket may write
    /// either name.
    pub service: Principal,
    /// The key that client and service share, from the ticket.
    pub session_key: Key,
    /// The ticket's flags.
    pub flags: Flags,
    /// The realms between the client's and the service's that the ticket passed through, as the
    /// ticket encodes them: the type of the encoding, and its contents (RFC 4120, section 5.3). They
    /// are passed on as they are, and weren't checked. `Refusal::Transited` compares the client's
    /// realm with that of `service`, which isn't sealed.
    pub transited: Typed,
    /// When the client was authenticated.
    pub authtime: Seconds,
    /// When the ticket becomes valid, if the ticket says so (RFC 4120, section 5.3); if absent, at
    /// authtime.
    pub starttime: Option<Seconds>,
    /// When the ticket expires.
    pub endtime: Seconds,
    /// The addresses that the ticket is for. They are passed on as they are, and weren't compared
    /// with anything.
    pub addresses: Option<Vec<Typed>>,
    /// The ticket's authorization data. Each outer element is of type 1 (AD-IF-RELEVANT).
    pub ticket_authorization: Option<Vec<Typed>>,
    /// The key that the client chose for this session, of any type.
    pub subkey: Option<RawKey>,
    /// The client's first sequence number.
    pub seq: Option<u32>,
    /// The authenticator's checksum. It is passed on as it is, and wasn't verified.
    pub checksum: Option<Typed>,
    /// The authenticator's authorization data. Each outer element is of type 1.
    pub authenticator_authorization: Option<Vec<Typed>>,
    /// The client's time.
    pub ctime: Seconds,
    /// The microseconds of the client's time.
    pub cusec: Microseconds,
    /// Whether the client asks for a reply.
    pub mutual: bool,
}

impl Accepted {
    /// Returns what the service remembers of the request: the names of service and client, and the
    /// client's time (RFC 4120, section 3.2.3). The names are copied.
    ///
    /// # Errors
    /// `AllocError`: there is no memory for the copies, or the service's name takes 4 GiB or more.
    pub fn tuple(&self, alloc: Global) -> Result<Tuple, AllocError>
        ensures { IfOk result (λ tuple. tuple ≡ taken_stamp (taken_of self.now)) }
    {
        Tuple::of(alloc, &self.service, &self.client, self.ctime, self.cusec)
    }
}
