use super::*;
use fh_base::{Moment, NoMemory};
use fh_event::PlanFault;
use fh_ncrontab::Schedule;
use std::alloc::AllocGlobal;
use std::process::Abort;
use std::test::Fail;

// The last millisecond of the year 9999.
const GREATEST: u64 = 253_402_300_799_999;

fn moment(ms: u64) -> Result<Moment, Fail> {
    Ok(Moment::new(ms).ok_or("a moment")?)
}

// Each five minutes.
fn five_minutes() -> Result<Schedule, Fail> {
    match Schedule::read("0 */5 * * * *") {
        Ok(schedule) => Ok(schedule),
        Err(_) => Err("a schedule".into()),
    }
}

fn arm(startup: bool, monitor: bool, busy: bool) -> Result<TimerAsk, Fail> {
    Ok(TimerAsk::Arm {
        function: 1,
        schedule: five_minutes()?,
        startup,
        monitor,
        busy,
    })
}

fn tick(busy: bool) -> Result<TimerAsk, Fail> {
    Ok(TimerAsk::Tick {
        function: 1,
        schedule: five_minutes()?,
        busy,
    })
}

// Plans, stages and settles an ask; what is quiet is neither staged nor settled.
fn done(
    rt: &impl AllocGlobal,
    timers: &mut Timers,
    ask: &TimerAsk,
    ms: u64,
) -> Result<TimerDone, Fail> {
    let change = match timers.plan(rt.alloc(), ask, moment(ms)?) {
        Ok(change) => change,
        Err(PlanFault::Rule(_) | PlanFault::NoMemory) => return Err("a fault".into()),
    };
    if change.is_quiet() {
        return Ok(change.into_done());
    }
    match timers.stage(change) {
        Err(NoMemory) => Err("memory was refused".into()),
        Ok(staged) => Ok(timers.settle(staged)),
    }
}

// The row of the function 1, as its last, next and updated.
fn row(timers: &Timers) -> Option<(Option<u64>, Option<u64>, u64)> {
    let row = timers.row(1)?;
    Some((row.last, row.next, row.updated))
}

// Timers with a row that was set at 0, so that it is due at 300,000.
fn armed(rt: &impl AllocGlobal) -> Result<Timers, Fail> {
    let mut timers = Timers::new(rt.alloc());
    done(rt, &mut timers, &arm(false, true, false)?, 0)?;
    Ok(timers)
}

const fn at_startup(next: u64) -> TimerDone {
    TimerDone::Armed {
        next: Some(next),
        startup: true,
    }
}

const fn at_no_startup(next: u64) -> TimerDone {
    TimerDone::Armed {
        next: Some(next),
        startup: false,
    }
}

#[test]
fn each_case_of_an_arm_before_the_row_is_due(rt: HostRuntime) -> Result<(), Fail> {
    let stays = (None, Some(300_000), 0);
    let anew = (None, Some(300_000), 200_000);
    // There is a row; startup; monitor; the answer, and the row behind it.
    let cases = [
        (false, false, false, at_no_startup(300_000), anew),
        (false, false, true, at_no_startup(300_000), anew),
        (false, true, false, at_startup(300_000), anew),
        (false, true, true, at_startup(300_000), anew),
        (true, false, false, at_no_startup(300_000), anew),
        (true, false, true, TimerDone::Same, stays),
        (true, true, false, at_startup(300_000), anew),
        (true, true, true, at_startup(300_000), stays),
    ];
    for (there, startup, monitor, answer, behind) in cases {
        let mut timers = if there {
            armed(&rt)?
        } else {
            Timers::new(rt.alloc())
        };
        let ask = arm(startup, monitor, false)?;
        assert_eq!(rt; done(&rt, &mut timers, &ask, 200_000)?, answer);
        assert_eq!(rt; row(&timers), Some(behind));
    }
    Ok(())
}

#[test]
fn missed_times_make_one_run_past_due(rt: HostRuntime) -> Result<(), Fail> {
    let mut timers = armed(&rt)?;
    let ask = arm(true, true, false)?;
    assert_eq!(rt; done(&rt, &mut timers, &ask, 300_000)?, at_startup(300_000));
    let past_due = TimerDone::PastDue {
        due: 300_000,
        next: Some(1_200_000),
    };
    assert_eq!(rt; done(&rt, &mut timers, &ask, 1_000_000)?, past_due);
    let run = TimerRun {
        due: Some(300_000),
        past_due: true,
    };
    assert_eq!(rt; past_due.run(), Some(run));
    assert_eq!(rt;
        row(&timers),
        Some((Some(300_000), Some(1_200_000), 1_000_000))
    );
    let watched = arm(false, true, false)?;
    assert_eq!(rt;
        done(&rt, &mut timers, &watched, 1_000_000)?,
        TimerDone::Same
    );
    Ok(())
}

#[test]
fn ticks_in_turn(rt: HostRuntime) -> Result<(), Fail> {
    let mut timers = Timers::new(rt.alloc());
    let ticked = TimerDone::Ticked {
        due: 300_000,
        next: Some(600_000),
    };
    let steps = [
        (0, tick(false)?, TimerDone::Unarmed),
        (0, tick(true)?, TimerDone::Unarmed),
        (0, arm(false, true, true)?, TimerDone::Running),
        (0, arm(false, true, false)?, at_no_startup(300_000)),
        (0, tick(false)?, TimerDone::NotDue),
        (299_999, tick(false)?, TimerDone::NotDue),
        (300_000, tick(true)?, TimerDone::Running),
        (300_000, tick(false)?, ticked),
        (300_000, tick(false)?, TimerDone::NotDue),
        (
            300_000,
            TimerAsk::Remove { function: 2 },
            TimerDone::Removed,
        ),
        (300_000, TimerAsk::Nothing, TimerDone::Nothing),
    ];
    for (ms, ask, answer) in steps {
        assert_eq!(rt; done(&rt, &mut timers, &ask, ms)?, answer);
    }
    assert_eq!(rt; row(&timers), Some((Some(300_000), Some(600_000), 300_000)));
    let removal = TimerAsk::Remove { function: 1 };
    assert_eq!(rt;
        done(&rt, &mut timers, &removal, 300_000)?,
        TimerDone::Removed
    );
    assert_eq!(rt; row(&timers), None);
    Ok(())
}

#[test]
fn runs_are_told(rt: HostRuntime) -> Result<(), Fail> {
    let ticked = TimerDone::Ticked {
        due: 300_000,
        next: None,
    };
    let due = TimerRun {
        due: Some(300_000),
        past_due: false,
    };
    let at_once = TimerRun {
        due: None,
        past_due: false,
    };
    assert_eq!(rt; ticked.run(), Some(due));
    assert_eq!(rt; at_startup(300_000).run(), Some(at_once));
    assert_eq!(rt; at_no_startup(300_000).run(), None);
    assert_eq!(rt; TimerDone::Running.run(), None);
    Ok(())
}

#[test]
fn nothing_is_due_behind_the_greatest_moment(rt: HostRuntime) -> Result<(), Fail> {
    let mut timers = Timers::new(rt.alloc());
    let never = TimerDone::Armed {
        next: None,
        startup: false,
    };
    let ask = arm(false, true, false)?;
    assert_eq!(rt; done(&rt, &mut timers, &ask, GREATEST)?, never);
    assert_eq!(rt; row(&timers), Some((None, None, GREATEST)));
    assert_eq!(rt;
        done(&rt, &mut timers, &tick(false)?, GREATEST)?,
        TimerDone::NotDue
    );
    assert_eq!(rt; done(&rt, &mut timers, &ask, GREATEST)?, TimerDone::Same);
    let startup = arm(true, true, false)?;
    let at_once = TimerDone::Armed {
        next: None,
        startup: true,
    };
    assert_eq!(rt; done(&rt, &mut timers, &startup, GREATEST)?, at_once);
    Ok(())
}

#[test]
fn what_is_let_go_leaves_the_timers(rt: HostRuntime) -> Result<(), Fail> {
    let mut timers = Timers::new(rt.alloc());
    let ask = arm(true, false, false)?;
    let change = match timers.plan(rt.alloc(), &ask, moment(0)?) {
        Ok(change) => change,
        Err(PlanFault::Rule(_) | PlanFault::NoMemory) => return Err("a fault".into()),
    };
    match timers.stage(change) {
        Err(NoMemory) => return Err("memory was refused".into()),
        Ok(staged) => timers.unstage(staged),
    }
    assert_eq!(rt; row(&timers), None);
    Ok(())
}
