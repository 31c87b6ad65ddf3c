// The search for the next day: within a month, over the months of a year, over the years.
ghost use Rattle.std.specs.Prelude.{◌≡◌, ◌+◌, ◌*◌, ◌%◌, ◌<◌, ◌≤◌, ◌&&◌, pos, ◌+ℤ◌, ◌-ℤ◌, unsigned_abs, IfSome, IfNone, IsTrue};
ghost use Rattle.std.specs.Int.{IsInRange};
ghost use Rattle.jiff_core.specs.Calendar.{days_in_month};
ghost use Rattle.jiff_core.specs.Date.{epoch_day, weekday_of};
ghost use Rattle.fh_ncrontab.specs.Sets.{holds};
ghost use Rattle.fh_ncrontab.specs.Search.{IsLeastFrom};
ghost use Rattle.fh_ncrontab.specs.Dates.{DayIn, IsLeastDate, place};

use crate::Schedule;
use jiff_core::civil::Date;

// The days from 0000-01-01 to 1970-01-01.
const TO_1970: i64 = 719_528;

// The years after which dates fall on the same days of the week again.
const CYCLE: u16 = 400;

impl Schedule {
    // The least day of the schedule from that day on, where 0000-01-01 is 0.
    pub(crate) fn day_from(&self, day: u64) -> Option<u64>
        requires { day ≤ 3652425 }
        ensures least { IsLeastFrom (DayIn self.now) day result }
        ensures bound { IfSome result (λ r. r ≤ 3652424) }
    {
        let Some(start) = date_numbered(day) else {
            return None;
        };
        let Some(date) = self.date_from(year_number(start), start.month, start.day) else {
            return None;
        };
        Some(day_number(date))
    }

    // The least date of the schedule from a date of the calendar on. The calendar repeats after 400
    // years, so a schedule that has no date in as many has none at all.
    fn date_from(&self, year: u16, month: u8, day: u8) -> Option<Date>
        requires year { year ≤ 9999 }
        requires month { IsInRange 1 12 month }
        requires day { IsInRange 1 31 day }
        ensures { IsLeastDate self.now (place year month day) (place 10000 0 0) result }
    {
        if self.month.holds(month)
            && let Some(date) = self.date_in_month(year, month, day)
        {
            return Some(date);
        }
        if let Some(date) = self.date_in_year(year, month + 1) {
            return Some(date);
        }
        let last = (year + CYCLE + 1).min(10000);
        for year in year + 1..last {
            if let Some(date) = self.date_in_year(year, 1) {
                return Some(date);
            }
        }
        None
    }

    // The least date in that year from that month on.
    fn date_in_year(&self, year: u16, month: u8) -> Option<Date>
        requires year { year ≤ 9999 }
        requires month { IsInRange 1 13 month }
        ensures { IsLeastDate self.now (place year month 0) (place (year + 1) 0 0) result }
    {
        for month in month..13 {
            if self.month.holds(month)
                && let Some(date) = self.date_in_month(year, month, 1)
            {
                return Some(date);
            }
        }
        None
    }

    // The least date in that month from that day on.
    fn date_in_month(&self, year: u16, month: u8, day: u8) -> Option<Date>
        requires year { year ≤ 9999 }
        requires month { IsInRange 1 12 month }
        requires in_set { IsTrue (holds self.now.month month) }
        requires day { IsInRange 1 31 day }
        ensures { IsLeastDate self.now (place year month day) (place year (month + 1) 0) result }
    {
        let mut from = day;
        while let Some(day) = self.day.first_from(from) {
            let Some(date) = date_of(year, month, day) else {
                return None;
            };
            if self.has_day(date) {
                return Some(date);
            }
            from = day + 1;
        }
        None
    }

    // Whether both day fields hold: the day of the month and the day of the week.
    fn has_day(&self, date: Date) -> bool
        ensures { result ≡ (holds self.now.day date.day
            && holds self.now.weekday ((weekday_of date + 1) % 7)) }
    {
        self.day.holds(date.day) && self.weekday.holds(weekday_number(date))
    }
}

// The date with these numbers, if its month has that day.
fn date_of(year: u16, month: u8, day: u8) -> Option<Date>
    requires year { year ≤ 9999 }
    requires month { IsInRange 1 12 month }
    requires day { IsInRange 1 31 day }
    ensures value { IfSome result (λ d. (d.year ≡ pos year) × (d.month ≡ month) × (d.day ≡ day)) }
    ensures none { IfNone result (days_in_month (pos year) month < day) }
{
    match Date::new(year as i16, month as i8, day as i8) {
        Ok(date) => Some(date),
        Err(_) => None,
    }
}

// The date of that day, up to the end of the year 9999.
fn date_numbered(day: u64) -> Option<Date>
    requires { day ≤ 3652425 }
    ensures value { IfSome result (λ d. epoch_day d ≡ pos day -ℤ pos 719528) }
    ensures none { IfNone result (3652424 < day) }
{
    match Date::from_unix_epoch_day(day as i64 - TO_1970) {
        Ok(date) => Some(date),
        Err(_) => None,
    }
}

// The year of a date that isn't before the year 0.
fn year_number(date: Date) -> u16
    ensures value { result ≡ unsigned_abs date.year }
    ensures bound { result ≤ 9999 }
{
    date.year.unsigned_abs()
}

// The number of a date that isn't before the year 0.
fn day_number(date: Date) -> u64
    ensures { result ≡ unsigned_abs (epoch_day date +ℤ pos 719528) }
{
    (date.to_unix_epoch_day() as i64 + TO_1970).unsigned_abs()
}

// The day of the week, where Sunday is 0.
fn weekday_number(date: Date) -> u8
    ensures { result ≡ (weekday_of date + 1) % 7 }
{
    date.weekday().to_sunday_zero_offset() as u8
}
