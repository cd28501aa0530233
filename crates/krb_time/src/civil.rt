//! Seconds of the calendar, and their texts.

ghost use Rattle.std.specs.Prelude.{◌≡◌, ◌+◌, ◌<◌, ◌≤ℤ◌, length, pos, IfSome, IfNone};
ghost use Rattle.jiff_core.specs.DateTime.{civil_seconds};
ghost use Rattle.krb_time.specs.Clock.{pair_at, civil_of};
ghost use Rattle.krb_time.specs.Inner.CivilView.{plain_civil};
ghost use Rattle.krb_time.specs.Time.{IsCivil, text_of, two};

use crate::seconds::Seconds;
use jiff_core::civil::{Date, DateTime, Time};

/// The number that the two digits at the place are. Other bytes give some number below 100.
fn pair(content: &[u8], at: usize) -> i8
    requires { at + 1 < length content.now }
    ensures { result ≡ pos (pair_at at content.now) }
{
    (content[at] % 16 * 10 + content[at + 1] % 16).min(99) as i8
}

/// The second that fourteen digits name, if the calendar has it.
pub(crate) fn civil_in(content: &[u8]) -> Option<DateTime>
    requires { length content.now ≡ 15 }
    ensures value { IfSome result (λ t. plain_civil t ≡ civil_of content.now) }
    ensures year { IfSome result (λ t. pos 0 ≤ℤ t.date.year) }
    ensures none { IfNone result (IsCivil (civil_of content.now) → ⊥) }
{
    let year = 100 * i16::from(pair(content, 0)) + i16::from(pair(content, 2));
    let Ok(date) = Date::new(year, pair(content, 4), pair(content, 6)) else {
        return None;
    };
    let Ok(time) = Time::new(pair(content, 8), pair(content, 10), pair(content, 12), 0) else {
        return None;
    };
    Some(DateTime { date, time })
}

/// The seconds from -9999-01-01T00:00:00Z, the first of jiff_core, to 1970-01-01T00:00:00Z.
const EPOCH: i64 = 377_705_116_800;

/// The second of the calendar that is so many seconds from 1970-01-01T00:00:00Z.
pub(crate) fn civil_at(seconds: Seconds) -> DateTime
    ensures year { pos 0 ≤ℤ result.date.year }
    ensures value { civil_seconds result ≡ seconds }
{
    let from_first = (seconds.get() + EPOCH) as u64;
    DateTime {
        date: Date::from_days_since_min((from_first / 86_400) as u32),
        time: Time::from_second((from_first % 86_400) as u32, 0),
    }
}

/// The two digits of a number.
fn two(number: u8) -> [u8; 2]
    requires { number < 100 }
    ensures { result ≡ two number }
{
    [b'0' + number / 10, b'0' + number % 10]
}

/// The text of a second of the calendar.
pub(crate) fn text_of(civil: DateTime) -> [u8; 15]
    requires { pos 0 ≤ℤ civil.date.year }
    ensures { result ≡ text_of (plain_civil civil) }
{
    let year = civil.date.year as u16;
    let [y1, y2] = two((year / 100) as u8);
    let [y3, y4] = two((year % 100) as u8);
    let [m1, m2] = two(civil.date.month);
    let [d1, d2] = two(civil.date.day);
    let [h1, h2] = two(civil.time.hour);
    let [n1, n2] = two(civil.time.minute);
    let [s1, s2] = two(civil.time.second);
    [y1, y2, y3, y4, m1, m2, d1, d2, h1, h2, n1, n2, s1, s2, b'Z']
}
