// The date of a day.
ghost use Rattle.std.specs.Prelude.{◌≡◌, ◌≤◌, pos, unsigned_abs, IfSome, IfNone};
ghost use Rattle.jiff_core.specs.Date.{epoch_day};
ghost use Rattle.fh_base.specs.Calendar.{date_on as date_on_lem};

use jiff_core::civil::Date;

/// A date of the calendar.
#[derive(Clone, Copy)]
pub struct Civil {
    pub year: u64,
    pub month: u64,
    pub day: u64,
}

// The date so many days after 1970-01-01, up to the end of the year 9999.
pub(crate) fn date_on(number: u64) -> Civil
    requires { number ≤ 2932896 }
    ensures { result ≡ date_on_lem number }
{
    match date_numbered(number) {
        Some(date) => civil_of(date),
        None => Civil {
            year: 1970,
            month: 1,
            day: 1,
        },
    }
}

// The date of that day, up to the end of the year 9999.
fn date_numbered(number: u64) -> Option<Date>
    requires { number ≤ 2932896 }
    ensures value { IfSome result (λ d. epoch_day d ≡ pos number) }
    ensures none { IfNone result ⊥ }
{
    match Date::from_unix_epoch_day(number as i64) {
        Ok(date) => Some(date),
        Err(_) => None,
    }
}

// The parts of a date that is not before the year 0.
fn civil_of(date: Date) -> Civil
    ensures year { result.year ≡ unsigned_abs date.year }
    ensures month { result.month ≡ date.month }
    ensures day { result.day ≡ date.day }
{
    Civil {
        year: date.year.unsigned_abs() as u64,
        month: date.month as u64,
        day: date.day as u64,
    }
}
