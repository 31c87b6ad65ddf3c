ghost use Rattle.std.specs.Prelude.{◌≡◌, ◌≤◌, ◌||◌, ◌==◌, length, true, false, pos, neg_ℤ, ◌≤ℤ◌, ◌+ℤ◌, ◌-ℤ◌, unsigned_abs, option_map, IsTrue, IfSome, IfOk, IfErr, None, MatchOption};
ghost use Rattle.fh_ncrontab.specs.Schedule.{first_from, next, IsNext, masks_of, are_masks, with_masks};
ghost use Rattle.fh_ncrontab.specs.Texts.{words, field_fault, sets_of, schedule_of};

use crate::text::{count_words, read_field};
use crate::{CronFault, Field};

/// When a timer fires: the seconds whose UTC date and time have all six numbers in these sets.
#[derive(Clone, Copy, Debug, PartialEq, Eq)]
pub struct Schedule {
    pub second: Field<0, 59>,
    pub minute: Field<0, 59>,
    pub hour: Field<0, 23>,
    /// The day of the month.
    pub day: Field<1, 31>,
    pub month: Field<1, 12>,
    /// The day of the week, where Sunday is 0.
    pub weekday: Field<0, 6>,
}

// The seconds from 0000-01-01T00:00:00 to 1970-01-01T00:00:00.
const TO_1970: i64 = 62_167_219_200;

impl Schedule {
    /// Reads the text of a schedule: six fields between runs of spaces, or five with the second 0.
    /// Faults come by the count of fields, then by the first faulty field from the left, and then
    /// `NeverRuns`. Takes no memory.
    pub fn read(text: &str) -> Result<Schedule, CronFault>
        ensures { result ≡ schedule_of text.now }
    {
        let given = count_words(text);
        if given != 5 && given != 6 {
            return Err(CronFault::FieldCount { given });
        }
        let schedule = Schedule::read_fields(text, given)?;
        if schedule.first_from(0).is_none() {
            return Err(CronFault::NeverRuns);
        }
        Ok(schedule)
    }

    // The sets of the fields, where the text has that many words.
    fn read_fields(text: &str, given: u64) -> Result<Schedule, CronFault>
        requires given { given ≡ length (words text.now) }
        requires count { IsTrue ((given == 5) || (given == 6)) }
        ensures faultless { IfOk result (λ s. field_fault text.now ≡ None) }
        ensures sets { IfOk result (λ s. s ≡ sets_of text.now) }
        ensures fault { IfErr result (λ e. field_fault text.now ≡ Some e) }
    {
        let second = read_field(text, given, 0)?;
        let minute = read_field(text, given, 1)?;
        let hour = read_field(text, given, 2)?;
        let day = read_field(text, given, 3)?;
        let month = read_field(text, given, 4)?;
        let weekday = read_field(text, given, 5)?;
        Ok(Schedule {
            second,
            minute,
            hour,
            day,
            month,
            weekday,
        })
    }

    /// The sets as masks, in the order of the fields: bit n stands for the number n.
    pub fn masks(&self) -> [u64; 6]
        ensures value { result ≡ masks_of self.now }
        ensures masks { are_masks result ≡ true }
    {
        [
            self.second.mask(),
            self.minute.mask(),
            self.hour.mask(),
            self.day.mask(),
            self.month.mask(),
            self.weekday.mask(),
        ]
    }

    /// The schedule with these masks, and `None` exactly where a mask is 0 or has a number outside
    /// its field. It may be one that never runs.
    pub fn of_masks(masks: [u64; 6]) -> Option<Schedule>
        ensures exact { MatchOption result (are_masks masks ≡ false)
            (λ s. (are_masks masks ≡ true) × (s ≡ with_masks masks)) }
        ensures masks { IfSome result (λ s. masks_of s ≡ masks) }
    {
        let [second, minute, hour, day, month, weekday] = masks;
        Some(Schedule {
            second: Field::of_mask(second)?,
            minute: Field::of_mask(minute)?,
            hour: Field::of_mask(hour)?,
            day: Field::of_mask(day)?,
            month: Field::of_mask(month)?,
            weekday: Field::of_mask(weekday)?,
        })
    }

    /// The least second of the schedule after `second`, up to the end of the year 9999, and `None`
    /// exactly where there is none. Seconds are counted from 1970-01-01T00:00:00. Takes no memory.
    pub fn next_after(&self, second: i64) -> Option<i64>
        requires low { pos 0 ≤ℤ second }
        requires high { second ≤ℤ pos 253402300799 }
        ensures exact { result ≡ option_map pos (next self.now (unsigned_abs second)) }

        // That is the least second after it.
        ensures least { IsNext self.now (unsigned_abs second) (next self.now (unsigned_abs second)) }
    {
        self.first_from(second + 1)
    }

    /// The least second of the schedule from `second` on, that second included, up to the end of the
    /// year 9999. Seconds are those of a civil clock, from the year 0 on: counted from its
    /// 1970-01-01T00:00:00, and negative before it. Takes no memory.
    pub fn first_from(&self, second: i64) -> Option<i64>
        requires low { neg_ℤ (pos 62167219200) ≤ℤ second }
        requires high { second ≤ℤ pos 253402300800 }
        ensures { result ≡ first_from self.now second }
    {
        let found = self.search(from_year_0(second))?;
        Some(from_1970(found))
    }
}

// Seconds from the year 0 on, of seconds that are counted from 1970 on.
fn from_year_0(second: i64) -> u64
    requires low { neg_ℤ (pos 62167219200) ≤ℤ second }
    requires high { second ≤ℤ pos 253402300800 }
    ensures { result ≡ unsigned_abs (second +ℤ pos 62167219200) }
{
    (second + TO_1970) as u64
}

// And the other way round.
fn from_1970(second: u64) -> i64
    requires { second ≤ 315569519999 }
    ensures { result ≡ pos second -ℤ pos 62167219200 }
{
    second as i64 - TO_1970
}
