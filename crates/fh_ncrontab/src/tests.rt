ghost use Rattle.std.specs.Prelude.{◌≡◌, Some};

use crate::{CronFault, Field, FieldFault, Schedule};
use jiff_core::civil::Date;
use std::process::Abort;
use std::test::Fail;

const BAD_SECOND: CronFault = CronFault::BadField { field: 0 };

const BAD_MINUTE: CronFault = CronFault::BadField { field: 1 };

const BAD_HOUR: CronFault = CronFault::BadField { field: 2 };

const BAD_DAY: CronFault = CronFault::BadField { field: 3 };

const BAD_MONTH: CronFault = CronFault::BadField { field: 4 };

const BAD_WEEKDAY: CronFault = CronFault::BadField { field: 5 };

const REFUSED: [(&str, CronFault); 48] = [
    ("", CronFault::FieldCount { given: 0 }),
    ("   ", CronFault::FieldCount { given: 0 }),
    ("* * *", CronFault::FieldCount { given: 3 }),
    ("0 0 * *", CronFault::FieldCount { given: 4 }),
    ("* * * * * * *", CronFault::FieldCount { given: 7 }),
    ("*\t* * * * *", BAD_MINUTE),
    ("*\t* * * * * *", BAD_SECOND),
    ("x x x", CronFault::FieldCount { given: 3 }),
    ("60 * * * * *", BAD_SECOND),
    ("* 60 * * * *", BAD_MINUTE),
    ("* * 24 * * *", BAD_HOUR),
    ("* * * 0 * *", BAD_DAY),
    ("* * * 32 * *", BAD_DAY),
    ("* * * * 0 *", BAD_MONTH),
    ("* * * * 13 *", BAD_MONTH),
    ("* * * * * 7", BAD_WEEKDAY),
    ("* * * * * SUN-7", BAD_WEEKDAY),
    ("60 * * * *", BAD_MINUTE),
    ("* * * * 7", BAD_WEEKDAY),
    ("000 * * * * *", BAD_SECOND),
    ("+1 * * * * *", BAD_SECOND),
    ("-1 * * * * *", BAD_SECOND),
    ("1- * * * * *", BAD_SECOND),
    ("1-2-3 * * * * *", BAD_SECOND),
    (", * * * * *", BAD_SECOND),
    ("1,,2 * * * * *", BAD_SECOND),
    ("1, * * * * *", BAD_SECOND),
    ("** * * * * *", BAD_SECOND),
    ("*-5 * * * * *", BAD_SECOND),
    ("*/0 * * * * *", BAD_SECOND),
    ("*/60 * * * * *", BAD_SECOND),
    ("*/ * * * * *", BAD_SECOND),
    ("*/005 * * * * *", BAD_SECOND),
    ("*/5/5 * * * * *", BAD_SECOND),
    ("/5 * * * * *", BAD_SECOND),
    ("* * */24 * * *", BAD_HOUR),
    ("* * * * * */7", BAD_WEEKDAY),
    ("0 0 9 FRI-MON * *", BAD_DAY),
    ("* * * * MON *", BAD_MONTH),
    ("* * * * Janu *", BAD_MONTH),
    ("* * * * * Weds", BAD_WEEKDAY),
    ("0 0 9 * * FRI-MON", CronFault::BackwardRange { field: 5 }),
    ("5-2 * * * * *", CronFault::BackwardRange { field: 0 }),
    ("5-2/0 * * * * *", CronFault::BackwardRange { field: 0 }),
    ("5-2,60 * * * * *", CronFault::BackwardRange { field: 0 }),
    ("60,5-2 * * * * *", BAD_SECOND),
    ("0 0 0 30 2 *", CronFault::NeverRuns),
    ("0 0 0 31 feb,APR,6,september,11 *", CronFault::NeverRuns),
];

#[test]
fn the_first_faulty_part_decides(rt: HostRuntime) {
    for (text, fault) in REFUSED {
        assert_eq!(rt; Schedule::read(text), Err(fault), "{text}");
    }
}

const SAME: [(&str, &str); 8] = [
    ("*/10 * * * *", "0 */10 * * * *"),
    ("  0  0 9   * * 1-5 ", "0 0 9 * * Mon-FRI"),
    ("*/20 * * * * *", "0,20,40 * * * * *"),
    ("50/3 * * * * *", "50,53,56,59 * * * * *"),
    ("10-20/5 7,07 * * * *", "20,10,15 7 * * * *"),
    ("0 0 0 */15 */6 */6", "0 0 0 1,16,31 1,7 0,6"),
    ("0 0 0 * jAn,FEBRUARY,march-Dec sunday-SAT", "0 0 0 * * *"),
    ("0 0 0 * aug-oct/2 Tuesday", "0 0 0 * 8,10 TUE"),
];

#[test]
fn texts_with_one_meaning_give_one_schedule(rt: HostRuntime) -> Result<(), Fail> {
    for (text, other) in SAME {
        assert_eq!(rt; Schedule::read(text)?, Schedule::read(other)?, "{text}");
    }
    Ok(())
}

// The text, a second, and the next second of the schedule.
const NEXT: [(&str, i64, Option<i64>); 21] = [
    ("0 */5 * * * *", 1767262500, Some(1767262800)),
    ("0 0 0 29 2 MON", 1767225600, Some(2340316800)),
    ("0 0 0 29 2 MON", 3223929600, Some(4486147200)),
    ("0 0 0 29 2 SUN", 1767225600, Some(1961625600)),
    ("0 0 0 29 2 *", 3981312000, Some(4233686400)),
    ("0 0 0 29 2 *", 13448332800, Some(13574563200)),
    ("0 0 0 29 2 *", 951782399, Some(951782400)),
    ("0 0 0 29 2 *", 253281168000, None),
    ("0 0 0 * * *", 4107542399, Some(4107542400)),
    ("0 0 0 31 * *", 1769817600, Some(1774915200)),
    ("0 0 0 13 * FRI", 1767225600, Some(1770940800)),
    ("* * * * * *", 946684799, Some(946684800)),
    ("0 0 0 * * *", 1777593599, Some(1777593600)),
    ("0 0 0 1 1 *", 1767225600, Some(1798761600)),
    ("0 0 9 * * 1-5", 1786123815, Some(1786352400)),
    ("0 0 9 1 * 1-5", 0, Some(32400)),
    ("* * * * * *", 0, Some(1)),
    ("0 0 0 * * SUN", 0, Some(259200)),
    ("59 59 23 31 12 *", 253402300798, Some(253402300799)),
    ("* * * * * *", 253402300799, None),
    ("0 0 0 1 1 *", 253402214400, None),
];

#[test]
fn the_next_second_is_the_least_one(rt: HostRuntime) -> Result<(), Fail> {
    for (text, second, next) in NEXT {
        assert!(rt; second >= 0 && second <= 253402300799);
        assert_eq!(rt;
            Schedule::read(text)?.next_after(second),
            next,
            "{text} after {second}"
        );
    }
    Ok(())
}

// The text, a second of a civil clock, and the first second of the schedule from that one on.
const FROM: [(&str, i64, Option<i64>); 6] = [
    ("0 0 0 1 1 *", 1767225600, Some(1767225600)),
    ("0 0 0 1 1 *", 1767225601, Some(1798761600)),
    ("0 0 23 31 12 *", -86400, Some(-3600)),
    ("0 0 0 29 2 *", -62167219200, Some(-62162121600)),
    ("59 59 23 31 12 *", 253402300799, Some(253402300799)),
    ("* * * * * *", 253402300800, None),
];

#[test]
fn a_search_begins_at_its_own_second(rt: HostRuntime) -> Result<(), Fail> {
    for (text, second, next) in FROM {
        assert!(rt; second >= -62167219200 && second <= 253402300800);
        assert_eq!(rt;
            Schedule::read(text)?.first_from(second),
            next,
            "{text} from {second}"
        );
    }
    Ok(())
}

// Whether the second's date and time have their six numbers in the sets.
fn is_in(rt: &impl Abort, schedule: &Schedule, second: u64) -> bool {
    let day = (second / 86400).min(2932896);
    let time = second % 86400;
    let date = Date::from_unix_epoch_day(day as i64).expect(rt, "a day of the calendar");
    schedule.month.holds(date.month)
        && schedule.day.holds(date.day)
        && schedule.weekday.holds(((day + 4) % 7) as u8)
        && schedule.hour.holds((time / 3600) as u8)
        && schedule.minute.holds((time / 60 % 60) as u8)
        && schedule.second.holds((time % 60) as u8)
}

#[test]
fn a_plain_scan_finds_the_same_second(rt: HostRuntime) -> Result<(), Fail> {
    let texts = [
        "*/7 * * * * *",
        "13 */11 * * * *",
        "0,59 58-59 23,0 28,29,1 2,3 *",
        "1 2 0 * * THU-SAT",
        "* * 1 31,1 * 0-3",
    ];
    for text in texts {
        let schedule = Schedule::read(text)?;
        // From 2028-02-28T21:40:00 to 2028-03-01T00:20:00, and back.
        let mut next: Option<i64> = None;
        for second in (1835386800..1835482800u64).rev() {
            let given = schedule.next_after(second as i64);
            if next.is_some() {
                assert_eq!(rt; given, next, "{text} after {second}");
            }
            if is_in(&rt, &schedule, second) {
                next = Some(second as i64);
            }
        }
    }
    Ok(())
}

// The masks of a schedule give it back, whichever it is: the clause is proved.
fn carried(schedule: &Schedule) -> Option<Schedule>
    ensures { result ≡ Some schedule.now }
{
    Schedule::of_masks(schedule.masks())
}

#[test]
fn masks_carry_a_schedule(rt: HostRuntime) -> Result<(), Fail> {
    let schedule = Schedule::read("0,59 */30 9-11 1,31 12 SUN,SAT")?;
    let masks = [576460752303423489, 1073741825, 3584, 2147483650, 4096, 65];
    assert_eq!(rt; schedule.masks(), masks);
    assert_eq!(rt; Schedule::of_masks(masks), Some(schedule));
    assert_eq!(rt; carried(&schedule), Some(schedule));
    assert_eq!(rt; Schedule::of_masks([1, 1, 1, 1, 2, 1]), None, "day 0");
    assert_eq!(rt; Schedule::of_masks([1, 1, 1, 2, 2, 128]), None, "weekday 7");
    assert_eq!(rt; Schedule::of_masks([1, 1, 0, 2, 2, 1]), None, "no hour");
    assert_eq!(rt; Schedule::of_masks([1, 1, 1, 2, 8192, 1]), None, "month 13");
    Ok(())
}

#[test]
fn a_mask_is_judged_by_its_field(rt: HostRuntime) {
    let months = [
        (0, false),
        (1, false),
        (2, true),
        (4096, true),
        (8190, true),
        (8192, false),
    ];
    for (mask, is_one) in months {
        let field: Option<Field<1, 12>> = Field::of_mask(mask);
        assert_eq!(rt; field.is_some(), is_one, "{mask}");
    }
    assert_eq!(rt; Field::<0, 59>::all().mask(), 1152921504606846975);
    assert_eq!(rt; Field::<0, 23>::all().mask(), 16777215);
    assert_eq!(rt; Field::<1, 31>::all().mask(), 4294967294);
    assert_eq!(rt; Field::<1, 12>::all().mask(), 8190);
    assert_eq!(rt; Field::<0, 6>::all().mask(), 127);
}

#[test]
fn a_field_holds_the_numbers_of_its_text(rt: HostRuntime) -> Result<(), Fail> {
    let field: Field<1, 12> = Field::read("feb,10-12/2,4-May")?;
    let held = [2, 4, 5, 10, 12];
    for n in 0..=255u8 {
        assert_eq!(rt; field.holds(n), held.contains(&n), "{n}");
    }
    let bad: Result<Field<1, 12>, FieldFault> = Field::read("1,x,5-2");
    assert_eq!(rt; bad, Err(FieldFault::Bad));
    let backward: Result<Field<1, 12>, FieldFault> = Field::read("1,5-2,x");
    assert_eq!(rt; backward, Err(FieldFault::Backward));
    let spaced: Result<Field<1, 12>, FieldFault> = Field::read(" 1");
    assert_eq!(rt; spaced, Err(FieldFault::Bad));
    Ok(())
}
