// The search for the next second: within an hour, within a day, and over the days.
ghost use Rattle.std.specs.Prelude.{◌≡◌, ◌<◌, ◌≤◌, IfSome, Some};
ghost use Rattle.fh_ncrontab.specs.Search.{IsLeastFrom, MinuteIn, TimeIn, IsIn};

use crate::Schedule;

const MINUTE: u64 = 60;

const HOUR: u64 = 3600;

const DAY: u64 = 86400;

impl Schedule {
    // The least second from `second` on, where 0000-01-01T00:00:00 is 0.
    pub(crate) fn search(&self, second: u64) -> Option<u64>
        requires { second ≤ 315569520000 }
        ensures least { IsLeastFrom (IsIn self.now) second result }
        ensures bound { IfSome result (λ r. r ≤ 315569519999) }
    {
        let (today, now) = (second / DAY, second % DAY);
        let Some(day) = self.day_from(today) else {
            return None;
        };
        if day > today {
            return Some(day * DAY + self.first_time());
        }
        if let Some(time) = self.time_from(now) {
            return Some(day * DAY + time);
        }
        let Some(day) = self.day_from(today + 1) else {
            return None;
        };
        Some(day * DAY + self.first_time())
    }

    // The least second of a day from `now` on.
    fn time_from(&self, now: u64) -> Option<u64>
        requires { now < 86400 }
        ensures least { IsLeastFrom (TimeIn self.now) now result }
        ensures bound { IfSome result (λ r. r < 86400) }
    {
        let (this, rest) = ((now / HOUR) as u8, now % HOUR);
        let hour = self.hour.first_from(this)?;
        if hour > this {
            return Some(hour as u64 * HOUR + self.first_minute());
        }
        if let Some(time) = self.minute_from(rest) {
            return Some(hour as u64 * HOUR + time);
        }
        let hour = self.hour.first_from(this + 1)?;
        Some(hour as u64 * HOUR + self.first_minute())
    }

    // The least second of an hour from `now` on.
    fn minute_from(&self, now: u64) -> Option<u64>
        requires { now < 3600 }
        ensures least { IsLeastFrom (MinuteIn self.now) now result }
        ensures bound { IfSome result (λ r. r < 3600) }
    {
        let (this, rest) = ((now / MINUTE) as u8, (now % MINUTE) as u8);
        let minute = self.minute.first_from(this)?;
        if minute > this {
            return Some(minute as u64 * MINUTE + self.second.least() as u64);
        }
        if let Some(second) = self.second.first_from(rest) {
            return Some(minute as u64 * MINUTE + second as u64);
        }
        let minute = self.minute.first_from(this + 1)?;
        Some(minute as u64 * MINUTE + self.second.least() as u64)
    }

    // The least second of a day.
    fn first_time(&self) -> u64
        ensures least { IsLeastFrom (TimeIn self.now) 0 (Some result) }
        ensures bound { result < 86400 }
    {
        self.hour.least() as u64 * HOUR + self.first_minute()
    }

    // The least second of an hour.
    fn first_minute(&self) -> u64
        ensures least { IsLeastFrom (MinuteIn self.now) 0 (Some result) }
        ensures bound { result < 3600 }
    {
        self.minute.least() as u64 * MINUTE + self.second.least() as u64
    }
}
