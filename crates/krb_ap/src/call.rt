//! What a service is given, and what it answers.

use crate::accepted::Accepted;
use crate::refusal::Refusal;
use krb_msg::Moment;

/// The bytes of a request, and the service's clock when they arrive.
#[derive(Clone, Copy, Debug)]
pub struct Call<'a> {
    /// The bytes.
    pub bytes: &'a [u8],
    /// The moment.
    pub now: Moment,
}

/// What `accept` answers to a call.
pub type Outcome = Result<Accepted, Refusal>;
