ghost use Rattle.std.specs.Prelude.{◌≡◌, true};
ghost use Rattle.fh_queues.specs.Edits as queue_edits;
ghost use Rattle.fh_dispatch.specs.Edits.{HasNumbers};

use super::*;
use fh_base::{Moment, Rule, Text};
use fh_blobs::Blobs;
use fh_event::{FunctionSettings, PlanFault};
use fh_leases::Leases;
use fh_ncrontab::Schedule;
use fh_queues::Queues;
use fh_timers::{TimerRun, Timers};
use std::alloc::{AllocGlobal, Global};
use std::process::Abort;
use std::test::Fail;

#[derive(Clone, Copy)]
struct Numbers {
    batch: u64,
    threshold: u64,
    limit: u64,
    retry: u64,
    singleton: u64,
}

// What a configure is answered, whether it makes a queue, and whether it removes a row of the timers.
#[derive(Clone, Copy, Debug, PartialEq, Eq)]
enum Told {
    Configured {
        number: u64,
        makes: bool,
        removes: bool,
    },
    Same,
    Refused(Rule),
}

const fn usual() -> Numbers {
    of_numbers([16, 8, 5, 0, 0])
}

const fn of_numbers(given: [u64; 5]) -> Numbers {
    let [batch, threshold, limit, retry, singleton] = given;
    Numbers {
        batch,
        threshold,
        limit,
        retry,
        singleton,
    }
}

const fn outside(given: u64, low: u64, high: u64) -> Told {
    Told::Refused(Rule::OutOfRange { given, low, high })
}

const fn new(number: u64) -> Told {
    Told::Configured {
        number,
        makes: true,
        removes: false,
    }
}

fn start() -> Result<Moment, Fail> {
    Ok(Moment::new(0).ok_or("a moment")?)
}

fn has_numbers(work: &Work) -> bool
    ensures { (result ≡ true) → HasNumbers work.now.part }
{
    work.next_function < 1_000_000 && work.running.next() < 1_000_000 && work.session < 1_000_000
}

fn on_queue(alloc: Global, queue: &str, given: Numbers) -> Result<FunctionSettings, Fail> {
    let Numbers {
        batch,
        threshold,
        limit,
        retry,
        singleton,
    } = given;
    Ok(FunctionSettings::Queue {
        queue: Text::from_str(alloc, queue)?,
        batch,
        threshold,
        limit,
        retry,
        singleton,
    })
}

const fn on_blobs(given: Numbers) -> FunctionSettings {
    let Numbers {
        batch,
        threshold,
        limit,
        retry,
        singleton,
    } = given;
    FunctionSettings::Blob {
        batch,
        threshold,
        limit,
        retry,
        singleton,
    }
}

// Plans, stages and settles an ask, and says whether a queue is to be made and a row of the timers removed.
fn done(
    rt: &(impl Abort + AllocGlobal),
    work: &mut Work,
    queues: &Queues,
    ask: &WorkAsk<'_>,
) -> Result<(WorkDone, bool, bool), PlanFault>
    requires idle { queue_edits.IsIdle queues.now }
    requires numbers { queue_edits.HasNumbers queues.now.part }
{
    assert!(rt; has_numbers(work));
    let Some(m) = Moment::new(0) else {
        return Err(PlanFault::NoMemory);
    };
    let blobs = Blobs::new(rt.alloc());
    let leases = Leases::new(rt.alloc());
    let timers = Timers::new(rt.alloc());
    let plan = work.plan(rt.alloc(), ask, queues, &blobs, &leases, &timers, m)?;
    let makes = plan.queues.is_some();
    let removes = plan.timers.is_some();
    let change = plan.work;
    if change.is_quiet() {
        return Ok((change.into_done(), makes, removes));
    }
    let staged = work.stage(change)?;
    Ok((work.settle(staged), makes, removes))
}

fn configure(
    rt: &(impl Abort + AllocGlobal),
    work: &mut Work,
    queues: &Queues,
    function: &str,
    settings: &FunctionSettings,
) -> Result<Told, Fail>
    requires idle { queue_edits.IsIdle queues.now }
    requires numbers { queue_edits.HasNumbers queues.now.part }
{
    let ask = WorkAsk::Configure { function, settings };
    match done(rt, work, queues, &ask) {
        Ok((WorkDone::Configured { number }, makes, removes)) => Ok(Told::Configured {
            number,
            makes,
            removes,
        }),
        Ok((WorkDone::Same, false, false)) => Ok(Told::Same),
        Ok((_, _, _)) => Err("another answer".into()),
        Err(PlanFault::Rule(rule)) => Ok(Told::Refused(rule)),
        Err(PlanFault::NoMemory) => Err("memory was refused".into()),
    }
}

// Whether a first function gets this answer, be it on a queue or on blobs.
fn is_told(rt: &(impl Abort + AllocGlobal), given: Numbers, expected: Told) -> Result<bool, Fail> {
    let queues = Queues::new(rt.alloc());
    let mut of_queue = Work::new(rt.alloc());
    let settings = on_queue(rt.alloc(), "orders", given)?;
    let told = configure(rt, &mut of_queue, &queues, "f", &settings)?;
    let mut of_blobs = Work::new(rt.alloc());
    let other = configure(rt, &mut of_blobs, &queues, "f", &on_blobs(given))?;
    Ok(told == expected && other == expected)
}

#[test]
fn ranges_are_tested_in_order(rt: HostRuntime) -> Result<(), Fail> {
    let rows = [
        ([1, 0, 1, 0, 0], new(1)),
        ([32, 1000, 1000, 604800, 60], new(1)),
        ([1, 0, 1, 0, 15], new(1)),
        ([0, 0, 1, 0, 0], outside(0, 1, 32)),
        ([33, 0, 1, 0, 0], outside(33, 1, 32)),
        ([1, 1001, 1, 0, 0], outside(1001, 0, 1000)),
        ([1, 0, 0, 0, 0], outside(0, 1, 1000)),
        ([1, 0, 1001, 0, 0], outside(1001, 1, 1000)),
        ([1, 0, 1, 604801, 0], outside(604801, 0, 604800)),
        ([1, 0, 1, 0, 1], outside(1, 15, 60)),
        ([1, 0, 1, 0, 14], outside(14, 15, 60)),
        ([1, 0, 1, 0, 61], outside(61, 15, 60)),
        ([0, 1001, 0, 604801, 61], outside(0, 1, 32)),
        ([1, 1001, 0, 604801, 61], outside(1001, 0, 1000)),
        ([1, 0, 0, 604801, 61], outside(0, 1, 1000)),
        ([1, 0, 1, 604801, 61], outside(604801, 0, 604800)),
    ];
    for (given, expected) in rows {
        assert!(&rt; is_told(&rt, of_numbers(given), expected)?);
    }
    Ok(())
}

#[test]
fn a_queue_needs_a_name(rt: HostRuntime) -> Result<(), Fail> {
    let mut work = Work::new(rt.alloc());
    let queues = Queues::new(rt.alloc());
    let settings = on_queue(rt.alloc(), "Orders", of_numbers([0, 0, 0, 0, 0]))?;
    let told = configure(&rt, &mut work, &queues, "f", &settings)?;
    assert_eq!(&rt; told, Told::Refused(Rule::BadName));
    assert!(&rt; work.function_of("f").is_none());
    Ok(())
}

#[test]
fn a_function_keeps_its_number(rt: HostRuntime) -> Result<(), Fail> {
    let mut work = Work::new(rt.alloc());
    let queues = Queues::new(rt.alloc());
    let first = on_queue(rt.alloc(), "orders", usual())?;
    let other = on_queue(rt.alloc(), "orders", of_numbers([1, 8, 5, 0, 0]))?;
    let steps = [
        ("b", &first, new(1)),
        ("a", &first, new(2)),
        ("b", &first, Told::Same),
        ("b", &other, new(1)),
        ("a", &first, Told::Same),
        ("c", &other, new(3)),
    ];
    for (function, settings, expected) in steps {
        let told = configure(&rt, &mut work, &queues, function, settings)?;
        assert_eq!(&rt; told, expected);
    }
    Ok(())
}

#[test]
fn an_inner_queue_has_the_number_in_its_name(rt: HostRuntime) -> Result<(), Fail> {
    let inner = inner_queue(rt.alloc(), 1)?;
    assert!(&rt; inner.as_bytes() == b"webjobs-blobtrigger-1".as_slice());
    Ok(())
}

#[test]
fn what_is_let_go_leaves_the_work(rt: HostRuntime) -> Result<(), Fail> {
    let mut work = Work::new(rt.alloc());
    let queues = Queues::new(rt.alloc());
    let settings = on_blobs(usual());
    let ask = WorkAsk::Configure {
        function: "f",
        settings: &settings,
    };
    let blobs = Blobs::new(rt.alloc());
    let leases = Leases::new(rt.alloc());
    let timers = Timers::new(rt.alloc());
    let plan = work.plan(
        rt.alloc(),
        &ask,
        &queues,
        &blobs,
        &leases,
        &timers,
        start()?,
    )?;
    let staged = work.stage(plan.work)?;
    work.unstage(staged);
    assert!(&rt; work.function_of("f").is_none());
    let (nothing, makes, removes) = done(&rt, &mut work, &queues, &WorkAsk::Nothing)?;
    assert!(&rt; matches!(nothing, WorkDone::Nothing) && !makes && !removes);
    Ok(())
}

// Midnight of each first of January that is a Sunday.
const RARE: [u64; 6] = [1, 1, 1, 2, 2, 1];

const fn on_schedule(masks: [u64; 6], startup: bool, singleton: u64) -> FunctionSettings {
    FunctionSettings::Timer {
        masks,
        startup,
        monitor: true,
        singleton,
    }
}

const fn timer(number: u64, removes: bool) -> Told {
    Told::Configured {
        number,
        makes: false,
        removes,
    }
}

#[test]
fn masks_are_tested_in_order(rt: HostRuntime) -> Result<(), Fail> {
    let sixty = (1 << 60) - 1;
    let rows = [
        (RARE, 0, timer(1, false)),
        ([0, 0, 0, 0, 0, 0], 14, outside(0, 1, sixty)),
        ([1 << 60, 0, 0, 0, 0, 0], 14, outside(1 << 60, 1, sixty)),
        ([1, 0, 0, 0, 0, 0], 14, outside(0, 1, sixty)),
        ([1, 1, 1 << 24, 0, 0, 0], 14, outside(1 << 24, 1, 0xff_ffff)),
        ([1, 1, 1, 1, 0, 0], 14, outside(1, 1, 0xffff_fffe)),
        (
            [1, 1, 1, 1 << 32, 0, 0],
            14,
            outside(1 << 32, 1, 0xffff_fffe),
        ),
        ([1, 1, 1, 2, 1, 0], 14, outside(1, 1, 0x1ffe)),
        ([1, 1, 1, 2, 1 << 13, 0], 14, outside(1 << 13, 1, 0x1ffe)),
        ([1, 1, 1, 2, 2, 128], 14, outside(128, 1, 127)),
        (RARE, 14, outside(14, 15, 60)),
    ];
    let queues = Queues::new(rt.alloc());
    for (masks, singleton, expected) in rows {
        let mut work = Work::new(rt.alloc());
        let settings = on_schedule(masks, false, singleton);
        let told = configure(&rt, &mut work, &queues, "t", &settings)?;
        assert_eq!(&rt; told, expected);
    }
    Ok(())
}

const fn run(due: u64) -> TimerRun {
    TimerRun {
        due: Some(due),
        past_due: false,
    }
}

// Makes a run of a function ready.
fn make_ready(
    rt: &(impl Abort + AllocGlobal),
    work: &mut Work,
    function: u64,
    due: u64,
) -> Result<(), Fail> {
    let queues = Queues::new(rt.alloc());
    let ask = WorkAsk::Ready {
        function,
        run: run(due),
    };
    match done(rt, work, &queues, &ask) {
        Ok((WorkDone::Ready, false, false)) => Ok(()),
        _ => Err("another answer".into()),
    }
}

#[test]
fn another_trigger_drops_what_is_ready(rt: HostRuntime) -> Result<(), Fail> {
    let mut work = Work::new(rt.alloc());
    let queues = Queues::new(rt.alloc());
    let [_, minute, hour, day, month, weekday] = RARE;
    let on_queue = Told::Configured {
        number: 1,
        makes: true,
        removes: true,
    };
    let steps = [
        (on_schedule(RARE, false, 0), timer(1, false), 1),
        (on_schedule(RARE, false, 0), Told::Same, 2),
        (on_schedule(RARE, true, 0), timer(1, false), 3),
        (
            on_schedule([2, minute, hour, day, month, weekday], true, 0),
            timer(1, true),
            1,
        ),
        (on_blobs(usual()), on_queue, 1),
        (on_blobs(of_numbers([1, 8, 5, 0, 0])), new(1), 2),
        (on_schedule(RARE, false, 0), timer(1, true), 1),
    ];
    make_ready(&rt, &mut work, 2, 7)?;
    for (settings, expected, ready) in steps {
        let told = configure(&rt, &mut work, &queues, "t", &settings)?;
        assert_eq!(&rt; told, expected);
        make_ready(&rt, &mut work, 1, 7)?;
        assert_eq!(&rt; work.in_work(1), ready);
        assert_eq!(&rt; work.in_work(2), 1);
    }
    Ok(())
}

#[test]
fn jobs_of_a_function_are_in_the_order_in_which_they_came(rt: HostRuntime) -> Result<(), Fail> {
    let mut work = Work::new(rt.alloc());
    make_ready(&rt, &mut work, 2, 10)?;
    make_ready(&rt, &mut work, 1, 20)?;
    make_ready(&rt, &mut work, 2, 5)?;
    assert!(&rt; work.in_work(1) == 1 && work.in_work(2) == 2 && !work.is_busy(3));
    let jobs = work.jobs_of(2);
    let first = jobs.first().ok_or("a job")?;
    assert!(&rt; first.job == Job::Timer { run: run(10) });
    Ok(())
}

#[test]
fn a_timer_is_told_by_its_schedule(rt: HostRuntime) -> Result<(), Fail> {
    let mut work = Work::new(rt.alloc());
    let queues = Queues::new(rt.alloc());
    configure(&rt, &mut work, &queues, "b", &on_blobs(usual()))?;
    configure(&rt, &mut work, &queues, "t", &on_schedule(RARE, true, 0))?;
    let schedule = Schedule::of_masks(RARE).ok_or("a schedule")?;
    let timer = Timer {
        function: 2,
        schedule,
        startup: true,
        monitor: true,
    };
    assert_eq!(&rt; work.timer_of("t"), Some(timer));
    assert!(&rt; work.timer_of("b").is_none() && work.timer_of("x").is_none());
    Ok(())
}

// Another invocation of a function, for message 7, due at that moment.
fn begin(
    rt: &HostRuntime,
    invocations: &mut Invocations,
    function: u64,
    due: u64,
) -> Result<(), Fail> {
    invocations.reserve(1)?;
    let run = Running {
        invocation: invocations.next(),
        function,
        name: Text::empty(rt.alloc()),
        job: Job::Message {
            number: 7,
            receipt: 1,
        },
        due,
    };
    invocations.begin(run);
    Ok(())
}

fn due_by(invocations: &Invocations, from: u64, most: u64) -> Option<u64> {
    if most > 1_000_000 {
        return None;
    }
    Some(invocations.first_due(from, most)?.invocation)
}

#[test]
fn running_invocations_are_found_and_end(rt: HostRuntime) -> Result<(), Fail> {
    let mut invocations = Invocations::new(rt.alloc());
    for (function, due) in [(2, 500), (1, 900), (2, 300), (1, 300), (3, 100)] {
        begin(&rt, &mut invocations, function, due)?;
    }
    assert_eq!(rt; due_by(&invocations, 1, 300), Some(3));
    assert_eq!(rt; due_by(&invocations, 4, 300), Some(4));
    assert_eq!(rt; due_by(&invocations, 1, 99), None);
    assert_eq!(rt; invocations.of(2).len(), 2);
    invocations.renew(3, 9, 901);
    assert_eq!(rt; due_by(&invocations, 1, 300), Some(4));
    invocations.finish(1);
    assert_eq!(rt; invocations.lowest(), Some(2));
    invocations.drop_of(1);
    assert_eq!(rt; invocations.lowest(), Some(3));
    assert!(rt; invocations.get(4).is_none());
    invocations.clear();
    assert_eq!(rt; invocations.lowest(), None);
    assert_eq!(rt; invocations.next(), 6);
    Ok(())
}
