//! Seconds of the years 0000 to 9999.

ghost use Rattle.std.specs.Prelude.{◌≡◌, ℤ, SomeIff, IfSome, IfNone};
ghost use Rattle.krb_time.specs.Clock.{time_of};
ghost use Rattle.krb_time.specs.Time.{IsSeconds, IsTime};

use crate::civil::{civil_at, civil_in, text_of};
use std::marker::Model;

/// The first second of the year 0000, counted from 1970-01-01T00:00:00Z.
pub const EARLIEST_SECOND: i64 = -62_167_219_200;

/// The last second of the year 9999, counted from 1970-01-01T00:00:00Z.
pub const LATEST_SECOND: i64 = 253_402_300_799;

/// A whole second of the years 0000 to 9999, counted from 1970-01-01T00:00:00Z:
/// -62,167,219,200 to 253,402,300,799. A contract sees it as that number.
#[derive(Clone, Copy, Debug, PartialEq, Eq, PartialOrd, Ord, Hash)]
pub struct Seconds {
    seconds: i64,
}

impl Model for Seconds {
    ghost use Rattle.std.specs.Prelude.{ℤ};
    ghost use Rattle.krb_time.specs.Time.{IsSeconds};

    ghost Value = { ℤ };

    ghost view = { λ s. s.seconds };

    ghost invariant = { λ s. IsSeconds s.seconds };

    ghost inverse = { λ z. record { seconds = z } };
}

impl Seconds {
    /// Returns that second, or `None` outside the years 0000 to 9999.
    pub fn new(seconds: i64) -> Option<Self>
        ensures { SomeIff result (IsSeconds seconds) seconds }
    {
        if seconds < EARLIEST_SECOND || seconds > LATEST_SECOND {
            return None;
        }
        Some(Seconds { seconds })
    }

    /// Returns the seconds since 1970-01-01T00:00:00Z.
    pub fn get(self) -> i64
        ensures value { result ≡ self }
        ensures range { IsSeconds result }
    {
        self.seconds
    }

    /// Returns the second of which this is the text: `YYYYMMDDHHMMSSZ` (`KerberosTime`, RFC 4120,
    /// section 5.2.3). Returns `None` for other bytes, and for a date or time that the calendar
    /// doesn't have. A second 60 is refused.
    pub fn from_text(text: &[u8]) -> Option<Self>
        ensures found { IfSome result (λ seconds. IsTime seconds text.now) }
        ensures none { IfNone result ((s : ℤ) → IsTime s text.now → ⊥) }
        ensures computed { result ≡ time_of text.now }
    {
        second_of(text)
    }

    /// Returns its text: `YYYYMMDDHHMMSSZ` (`KerberosTime`, RFC 4120, section 5.2.3).
    pub fn to_text(self) -> [u8; 15]
        ensures { IsTime self result }
    {
        text_of(civil_at(self))
    }
}

/// The second of which this is the text.
fn second_of(text: &[u8]) -> Option<Seconds>
    ensures { result ≡ time_of text.now }
{
    if text.len() != 15 {
        return None;
    }
    let civil = civil_in(text)?;
    if text == text_of(civil).as_slice() {
        Some(Seconds {
            seconds: civil.to_second(),
        })
    } else {
        None
    }
}
