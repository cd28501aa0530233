//! What each call answers.

ghost use Rattle.std.specs.Prelude.{IfOk, List, SomeIff, length, ℕ, ◌++◌, ◌≡◌};
ghost use Rattle.krb_time.specs.Moments.{micros_of};
ghost use Rattle.krb_c.specs.Service.{IsMomentOf};
ghost use Rattle.krb_c.specs.Stamps.{IsTimeOf};
ghost use Rattle.krb_c.specs.Answer.{Hands, Tells, keytab_answer, placed, plain, refused, sized};

use crate::cause::code_of;
use crate::code;
use crate::structs::{Answer, Span, Time};
use krb_ap::Refusal;
use krb_keytab::KeytabFault;
use krb_msg::Moment;
use std::alloc::AllocError;

impl Time {
    /// The moment, if these are a second and microseconds of one.
    pub(crate) fn moment(&self) -> Option<Moment>
        ensures { SomeIff result (IsMomentOf self.now) (micros_of self.now.seconds self.now.micros) }
    {
        Moment::new(self.seconds, self.micros)
    }

    /// The seconds and the microseconds of a moment.
    pub(crate) fn of(moment: Moment) -> Time
        ensures { IsTimeOf moment result }
    {
        let (seconds, micros) = moment.parts();
        Time {
            seconds: seconds.get(),
            micros: micros.get(),
        }
    }
}

impl Answer {
    pub(crate) fn plain(code: u32) -> Answer
        ensures { result ≡ plain code }
    {
        Answer::sized(code, 0)
    }

    pub(crate) fn sized(code: u32, size: usize) -> Answer
        ensures { result ≡ sized code size }
    {
        Answer {
            code,
            kerberos: 0,
            at: 0,
            size,
        }
    }

    pub(crate) fn placed(code: u32, at: usize) -> Answer
        ensures { result ≡ placed code at }
    {
        Answer {
            code,
            kerberos: 0,
            at,
            size: 0,
        }
    }

    pub(crate) fn refused(refusal: &Refusal) -> Answer
        ensures { result ≡ refused refusal.now }
    {
        let at = match refusal {
            Refusal::Malformed(fault) => fault.at,
            _ => 0,
        };
        Answer {
            code: code_of(refusal),
            kerberos: refusal.code().unwrap_or(0),
            at,
            size: 0,
        }
    }

    pub(crate) fn keytab(fault: KeytabFault) -> Answer
        ensures { result ≡ keytab_answer fault }
    {
        match fault {
            KeytabFault::Version => Answer::plain(code::FILE_VERSION),
            KeytabFault::Truncated { at } => Answer::placed(code::FILE_TRUNCATED, at),
            KeytabFault::BadEntry { at } => Answer::placed(code::FILE_BAD_ITEM, at),
            KeytabFault::TooLong => Answer::plain(code::TOO_LONG),
            KeytabFault::NoSuchEntry => Answer::plain(code::NO_SUCH_ENTRY),
            KeytabFault::Read => Answer::plain(code::NOT_READ),
            KeytabFault::OutOfMemory => Answer::plain(code::OUT_OF_MEMORY),
        }
    }
}

/// Copies bytes to the start of a buffer, if there is room.
pub(crate) fn hand_over(bytes: &[u8], buffer: &mut [u8]) -> Answer
    ensures { Hands bytes.now buffer.old buffer.new result }
{
    if buffer.len() < bytes.len() {
        return Answer::sized(code::SHORT_BUFFER, bytes.len());
    }
    buffer[..bytes.len()].copy_from_slice(bytes);
    Answer::sized(code::OK, bytes.len())
}

/// Sets a record, and copies the bytes that belong to it. If there was no memory for them, nothing
/// changes.
pub(crate) fn hand_over_with<R: Copy>(
    made: Result<(Vec<u8>, R), AllocError>,
    told: &mut R,
    buffer: &mut [u8],
) -> Answer
    ensures { (bytes : List ℕ) (is : R)
        → IfOk made (λ both. (both.0.items ≡ bytes) × (both.1 ≡ is))
        → Tells bytes is told.old told.new buffer.old buffer.new result }
{
    match made {
        Ok((bytes, made)) => {
            *told = made;
            hand_over(bytes.as_slice(), buffer)
        }
        Err(_) => Answer::plain(code::OUT_OF_MEMORY),
    }
}

pub(crate) fn append(bytes: &mut Vec<u8>, more: &[u8]) -> Result<Span, AllocError>
    ensures bytes { IfOk result (λ span. bytes.new.items ≡ bytes.old.items ++ more.now) }
    ensures span { IfOk result (λ span. span ≡ record { at = length bytes.old.items; size = length more.now }) }
{
    let at = bytes.len();
    bytes.extend_from_slice(more)?;
    Ok(Span {
        at,
        size: more.len(),
    })
}
