//! The calendar's date of a day.

ghost use Rattle.std.specs.Prelude.{◌≡◌, ◌<◌, ◌^◌, pos};
ghost use Rattle.jiff_core.specs.Calendar.{days_from_civil, IsCivilDate};
ghost use Rattle.krb_readable.specs.Date.{year_of, month_of, place_of};

/// A date: a year, a month and a day of the month.
#[derive(Clone, Copy)]
pub(crate) struct CalendarDate {
    pub(crate) year: u16,
    pub(crate) month: u8,
    pub(crate) day: u8,
}

// From -9999-01-01 to 1970-01-01.
const DAYS_BEFORE_1970: u32 = 4_371_587;

/// Returns the date of a day, which is given as the number of days since 1970-01-01.
pub(crate) fn date_of(day: u32) -> CalendarDate
    requires { day < 2 ^ 16 }
    ensures year { result.year ≡ year_of day }
    ensures month { result.month ≡ month_of result.year day }
    ensures day { result.day ≡ place_of result.year result.month day }
    ensures civil { IsCivilDate (pos result.year) result.month result.day }
    ensures number { days_from_civil (pos result.year) result.month result.day ≡ pos day }
    ensures four { result.year < 10_000 }
{
    let date = jiff_core::civil::Date::from_days_since_min(day + DAYS_BEFORE_1970);
    CalendarDate {
        year: date.year as u16,
        month: date.month,
        day: date.day,
    }
}
