// A function whose first ready job is to begin.
ghost use Rattle.std.specs.Prelude.{◌≡◌, ◌+◌, ◌-◌, ◌*◌, ◌^◌, min, option_map, IfOk};
ghost use Rattle.fh_dispatch.specs.Begin.{blocking, new_run, start_of, starting, taken_due, taking_lease};
ghost use Rattle.fh_dispatch.specs.Effects.{lease_ask_of, ruling_of};
ghost use Rattle.fh_dispatch.specs.Stores.{others_of};

use crate::act::Act;
use crate::holds::NEVER;
use crate::ruling::{Effect, LeaseEffect, Ruling};
use crate::running::NewRun;
use crate::stores::Stores;
use crate::terms::{lease_name, terms_of};
use crate::{Function, Job};
use fh_base::{Moment, NoMemory};
use fh_event::{Begun, BegunJob, Reply};
use std::alloc::Global;

/// The function, the halves of the invocation's 16 random bytes, and the moment of the begin.
#[derive(Clone, Copy)]
pub(crate) struct Start<'a> {
    pub(crate) function: &'a Function,
    pub(crate) high: u64,
    pub(crate) low: u64,
    pub(crate) moment: Moment,
}

/// Who has the lease of a function of which one invocation runs at a time, and until when.
pub(crate) fn blocking(
    alloc: Global,
    start: &Start<'_>,
    stores: Stores<'_>,
) -> Result<Option<(u64, u64)>, NoMemory>
    ensures { IfOk result (λ holder. holder ≡ blocking (others_of stores.entry) (start_of start.now)) }
{
    if terms_of(&start.function.settings).singleton == 0 {
        return Ok(None);
    }
    let name = lease_name(alloc, start.function.name.as_str())?;
    Ok(stores.leases.holder_at(name.as_str(), start.moment))
}

/// The job becomes a running invocation of this number.
pub(crate) fn starting<'a>(
    alloc: Global,
    invocation: u64,
    start: &Start<'_>,
    job: Job,
    told: BegunJob,
    due: u64,
) -> Result<Ruling<'a>, NoMemory>
    ensures { IfOk result (λ ruling. ruling_of ruling
        ≡ starting invocation (start_of start.now) job told due) }
{
    let leases = taking_lease(alloc, start, invocation)?;
    let mut acts = Vec::new(alloc);
    acts.push(Act::TakeFirst {
        function: start.function.number,
    })?;
    acts.push(Act::AddRunning {
        run: new_run(alloc, start, job, due)?,
    })?;
    let begun = Begun {
        invocation,
        function: start.function.name.copy(alloc)?,
        moment: start.moment.ms(),
        high: start.high,
        low: start.low,
        job: told,
    };
    Ok(Ruling::Changed(Effect {
        queues: None,
        blobs: None,
        leases,
        acts,
        told: Reply::Begun { begun },
    }))
}

// A function of which one invocation runs at a time takes its lease.
fn taking_lease(
    alloc: Global,
    start: &Start<'_>,
    invocation: u64,
) -> Result<Option<LeaseEffect>, NoMemory>
    ensures { IfOk result (λ lease. option_map lease_ask_of lease
        ≡ taking_lease (start_of start.now) invocation) }
{
    let seconds = terms_of(&start.function.settings).singleton;
    if seconds == 0 {
        return Ok(None);
    }
    Ok(Some(LeaseEffect::Acquire {
        name: lease_name(alloc, start.function.name.as_str())?,
        holder: invocation,
        seconds,
    }))
}

fn new_run(alloc: Global, start: &Start<'_>, job: Job, due: u64) -> Result<NewRun, NoMemory>
    ensures { IfOk result (λ run. run ≡ new_run (start_of start.now) job due) }
{
    Ok(NewRun {
        function: start.function.number,
        name: start.function.name.copy(alloc)?,
        job,
        due: first_due(start, due),
    })
}

// The first moment from which on the job's own hold or the function's lease may be renewed.
fn first_due(start: &Start<'_>, due: u64) -> u64
    ensures { result ≡ min due (taken_due (start_of start.now)) }
{
    let seconds = terms_of(&start.function.settings).singleton;
    if seconds == 0 {
        return due.min(NEVER);
    }
    due.min(lease_due(start.moment.ms(), seconds))
}

// A lease may be renewed when half of its time is over. The last moment of all stands for all later ones.
fn lease_due(moment: u64, seconds: u64) -> u64
    ensures { result ≡ min (2 ^ 64 - 1) (moment + seconds * 500) }
{
    moment.saturating_add(seconds.saturating_mul(500))
}
