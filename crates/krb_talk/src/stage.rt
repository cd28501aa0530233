//! How far a client's login is.

use crate::listed::Listed;
use crate::pending::Pending;
use krb_gss::Negotiation;

/// How far a client's login is.
#[derive(Drop)]
pub(crate) enum Stage {
    /// The client has sent no list that names Kerberos later. The login is over if the negotiation is.
    Login(Negotiation),
    /// It was asked for its token and the MIC of its list.
    Listed(Listed),
    /// Its request is accepted, and it was asked for its MIC.
    Waiting(Pending),
}
