// Jobs that begin, end and are held on.
ghost use Rattle.std.specs.Prelude.{◌≡◌, true};
ghost use Rattle.fh_dispatch.specs.Edits.{HasNumbers};

use super::*;
use fh_base::{Moment, QueueName, Text};
use fh_blobs::Blobs;
use fh_event::{BegunJob, FunctionSettings, Outcome, Output, Outputs, RenewalPart, Reply};
use fh_leases::Leases;
use fh_queues::Queues;
use fh_timers::{TimerRun, Timers};
use std::alloc::{AllocGlobal, Global};
use std::process::Abort;
use std::test::Fail;

// Work beside leases. The queues, blobs and timers are empty whenever they are asked.
#[derive(Drop)]
struct Host {
    work: Work,
    leases: Leases,
}

fn empty_host(alloc: Global) -> Host {
    Host {
        work: Work::new(alloc),
        leases: Leases::new(alloc),
    }
}

fn has_numbers(work: &Work) -> bool
    ensures { (result ≡ true) → HasNumbers work.now.part }
{
    work.next_function < 1_000_000 && work.running.next() < 1_000_000 && work.session < 1_000_000
}

// Makes the change of an ask in the work and the leases.
fn done(
    rt: &(impl Abort + AllocGlobal),
    host: &mut Host,
    ask: &WorkAsk<'_>,
    ms: u64,
) -> Result<WorkDone, Fail> {
    assert!(rt; has_numbers(&host.work));
    let m = Moment::new(ms).ok_or("a moment")?;
    let queues = Queues::new(rt.alloc());
    let blobs = Blobs::new(rt.alloc());
    let timers = Timers::new(rt.alloc());
    let planned = host
        .work
        .plan(rt.alloc(), ask, &queues, &blobs, &host.leases, &timers, m);
    let Ok(plan) = planned else {
        return Err(Fail::from("refused"));
    };
    let WorkPlan {
        work,
        queues: _,
        blobs: _,
        leases,
        timers: _,
    } = plan;
    if work.is_quiet() {
        return Ok(work.into_done());
    }
    if let Some(change) = leases {
        let staged = host.leases.stage(change)?;
        host.leases.settle(staged);
    }
    let staged = host.work.stage(work)?;
    Ok(host.work.settle(staged))
}

// What is told of an ask about jobs.
fn told(
    rt: &(impl Abort + AllocGlobal),
    host: &mut Host,
    ask: &WorkAsk<'_>,
    ms: u64,
) -> Result<Reply, Fail> {
    match done(rt, host, ask, ms)? {
        WorkDone::Told { reply } => Ok(reply),
        _ => Err(Fail::from("another answer")),
    }
}

// A function `t` that runs by a schedule, one invocation at a time, with so many runs ready.
fn timer(rt: &(impl Abort + AllocGlobal), runs: u64) -> Result<Host, Fail> {
    let mut host = empty_host(rt.alloc());
    let settings = FunctionSettings::Timer {
        masks: [1, 1, 1, 2, 2, 1],
        startup: false,
        monitor: true,
        singleton: 15,
    };
    let ask = WorkAsk::Configure {
        function: "t",
        settings: &settings,
    };
    done(rt, &mut host, &ask, 0)?;
    for due in 0..runs {
        let run = TimerRun {
            due: Some(due),
            past_due: true,
        };
        done(rt, &mut host, &WorkAsk::Ready { function: 1, run }, 0)?;
    }
    Ok(host)
}

const BEGIN: WorkAsk<'static> = WorkAsk::Begin {
    function: "t",
    high: 7,
    low: 9,
};

// A queue's output and a blob's.
fn outputs(alloc: Global, queue: &str) -> Result<Outcome, Fail> {
    let mut outputs = Vec::new(alloc);
    outputs.push(Output::Queue {
        queue: Text::from_str(alloc, queue)?,
        text: Text::from_str(alloc, "hi")?,
    })?;
    outputs.push(Output::Blob {
        container: Text::from_str(alloc, "outbox")?,
        blob: Text::from_str(alloc, "a.txt")?,
        text: Text::from_str(alloc, "HI")?,
    })?;
    Ok(Outcome::Done {
        outputs: Outputs::new(outputs),
    })
}

#[test]
fn a_run_begins_once_with_its_functions_lease(rt: HostRuntime) -> Result<(), Fail> {
    let mut host = timer(&rt, 2)?;
    let first = told(&rt, &mut host, &BEGIN, 1000)?;
    let Reply::Begun { begun } = first else {
        return Err(Fail::from("not begun"));
    };
    assert!(rt; begun.invocation == 1 && begun.moment == 1000 && begun.high == 7 && begun.low == 9);
    assert!(rt; matches!(begun.job, BegunJob::Timer { past_due: true, .. }));
    assert_eq!(rt; host.work.in_work(1), 2);
    assert_eq!(rt; host.work.lowest_running(), Some(1));
    let second = told(&rt, &mut host, &BEGIN, 1000)?;
    assert!(rt;
        matches!(
            second,
            Reply::Blocked {
                holder: 1,
                until: 16000
            }
        )
    );
    Ok(())
}

#[test]
fn a_function_without_jobs_is_idle(rt: HostRuntime) -> Result<(), Fail> {
    let mut host = timer(&rt, 0)?;
    assert!(rt; matches!(told(&rt, &mut host, &BEGIN, 0)?, Reply::NoJob));
    Ok(())
}

#[test]
fn a_lease_goes_on_from_half_its_time_on(rt: HostRuntime) -> Result<(), Fail> {
    let mut host = timer(&rt, 1)?;
    told(&rt, &mut host, &BEGIN, 0)?;
    let early = told(&rt, &mut host, &WorkAsk::Renewals, 7499)?;
    assert!(rt; matches!(early, Reply::NothingDue));
    let Reply::HoldsRenewed { parts } = told(&rt, &mut host, &WorkAsk::Renewals, 7500)? else {
        return Err(Fail::from("nothing renewed"));
    };
    let [part] = parts.as_slice() else {
        return Err(Fail::from("another number of parts"));
    };
    assert!(rt;
        matches!(
            part,
            RenewalPart::Lease {
                invocation: 1,
                until: 22500
            }
        )
    );
    Ok(())
}

#[test]
fn an_end_stores_outputs_that_keep_the_rules(rt: HostRuntime) -> Result<(), Fail> {
    let mut host = timer(&rt, 1)?;
    told(&rt, &mut host, &BEGIN, 0)?;
    let outcome = outputs(rt.alloc(), "done")?;
    let ask = WorkAsk::Finish {
        invocation: 1,
        outcome: &outcome,
    };
    assert!(rt; matches!(told(&rt, &mut host, &ask, 0)?, Reply::JobDone));
    assert_eq!(rt; host.work.lowest_running(), None);
    assert!(rt; host.leases.lease_of("singleton/t").is_none());
    Ok(())
}

#[test]
fn an_end_tells_the_rule_that_outputs_break(rt: HostRuntime) -> Result<(), Fail> {
    let mut host = timer(&rt, 1)?;
    told(&rt, &mut host, &BEGIN, 0)?;
    let outcome = outputs(rt.alloc(), "Done")?;
    let ask = WorkAsk::Finish {
        invocation: 1,
        outcome: &outcome,
    };
    assert!(rt;
        matches!(
            told(&rt, &mut host, &ask, 0)?,
            Reply::JobFailed { broken: Some(2) }
        )
    );
    Ok(())
}

// A message that is gone, as the ready job of the function of this number.
fn lost_job(work: &mut Work, function: u64) -> Result<(), Fail> {
    work.ready.reserve(1)?;
    work.ready.add(ReadyJob {
        function,
        job: Job::Message {
            number: 3,
            receipt: 4,
        },
    });
    Ok(())
}

#[test]
fn a_message_that_is_gone_is_dropped(rt: HostRuntime) -> Result<(), Fail> {
    let mut host = timer(&rt, 0)?;
    lost_job(&mut host.work, 1)?;
    assert!(rt;
        matches!(
            told(&rt, &mut host, &BEGIN, 0)?,
            Reply::JobDropped { number: 3 }
        )
    );
    assert!(rt; !host.work.is_busy(1));
    Ok(())
}
