//! The service's side: building an error.

ghost use Rattle.std.specs.Prelude.{◌≡◌, ◌↔◌, IfOk, IsErrOf, None};
ghost use Rattle.krb_ap.specs.Causes.{code_of};
ghost use Rattle.krb_ap.specs.ErrorReply.{IsErrorReply, IsErrorTooLong};
ghost use Rattle.krb_ap.specs.declared.errors.ReplyFault.TheVariants.{NoCode, OutOfMemory, TooLong};

use crate::inner_laws::writing;
use crate::refusal::Refusal;
use krb_msg::{EncodeFault, KrbError, Moment, Principal};
use std::alloc::{AllocError, Global};
use thiserror::Error;

/// Why there is no error to send.
#[derive(Clone, Copy, Debug, PartialEq, Eq, Error)]
pub enum ReplyFault {
    /// The refusal has no code.
    #[error("the refusal has no error code")]
    NoCode,
    /// The error would have more than 1,048,576 bytes.
    #[error("the error would be longer than 1048576 bytes")]
    TooLong,
    /// There is no memory.
    #[error("out of memory")]
    OutOfMemory,
}

impl From<AllocError> for ReplyFault {
    ghost from_gives = { λ _ fault. fault ≡ OutOfMemory };

    fn from(_: AllocError) -> ReplyFault {
        ReplyFault::OutOfMemory
    }
}

/// Builds the error that says why a request was refused (RFC 4120, sections 3.2.3 and 5.9.1). It
/// contains the service's time `now`, the refusal's code and the service's name, and nothing else.
/// It isn't sealed: anyone could have written it.
///
/// # Errors
/// The first that applies, or `OutOfMemory` in place of `TooLong`:
/// - `NoCode`: the refusal has no code.
/// - `TooLong`: the error would have more than 1,048,576 bytes.
/// - `OutOfMemory`: there is no memory.
pub fn error_reply(
    alloc: Global,
    refusal: &Refusal,
    now: Moment,
    service: &Principal,
) -> Result<Vec<u8>, ReplyFault>
    ensures error { IfOk result (λ bytes. IsErrorReply refusal.now now service.now bytes.items) }
    ensures no_code { IsErrOf result NoCode ↔ (code_of refusal.now ≡ None) }
    ensures too_long { IsErrOf result TooLong → IsErrorTooLong refusal.now now service.now }
{
    writing();
    let code = match refusal.code() {
        Some(code) => code,
        None => return Err(ReplyFault::NoCode),
    };
    let (stime, susec) = now.parts();
    prove!(susec.get() < 1_000_000);
    let error = KrbError {
        ctime: None,
        cusec: None,
        stime,
        susec,
        error_code: code,
        crealm: None,
        cname: None,
        service: service.clone()?,
        e_text: None,
        e_data: None,
    };
    match error.encode(alloc) {
        Ok(bytes) => Ok(bytes),
        Err(EncodeFault::TooLong) => Err(ReplyFault::TooLong),
        Err(EncodeFault::OutOfMemory) => Err(ReplyFault::OutOfMemory),
    }
}
