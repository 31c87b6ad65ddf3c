// What an ask comes to, before anything changes.
ghost use Rattle.std.specs.Prelude.{◌≡◌, false, ◌∷◌, [], None, option_copied, IfOk};
ghost use Rattle.fh_queues.specs.Edits as queue_edits;
ghost use Rattle.fh_blobs.specs.Edits as blob_edits;
ghost use Rattle.fh_leases.specs.Edits as lease_edits;
ghost use Rattle.fh_timers.specs.Edits as timer_edits;
ghost use Rattle.fh_dispatch.specs.Asked.{asks_queues, asks_blobs, asks_leases};
ghost use Rattle.fh_dispatch.specs.Part.{function_of, number_or, others_with};
ghost use Rattle.fh_event.specs.Settings.{HasGoodMasks};
ghost use Rattle.fh_dispatch.specs.Asks.{ask_of, GivesGoodMasks};
ghost use Rattle.fh_dispatch.specs.Settings.{is_as, has_other_trigger};
ghost use Rattle.fh_dispatch.specs.declared.act.Act.TheVariants.{Set, AddJob};
ghost use Rattle.fh_dispatch.specs.declared.done.WorkDone.TheVariants.{Configured, Ready};
ghost use Rattle.fh_dispatch.specs.declared.ready.Job.TheVariants.{Timer};
ghost use Rattle.fh_dispatch.specs.Outcome.{configured, configuring, dropping, made_by, outcome};
ghost use Rattle.fh_dispatch.specs.Queues.{made_where_missing, configuring_queues};
ghost use Rattle.fh_dispatch.specs.Timers.{removing, configuring_timers, asks_timers};
ghost use Rattle.fh_dispatch.specs.Edits.{IsIdle, HasNumbers};
ghost use Rattle.fh_dispatch.specs.Faults.{IsPlanOf, IsQueuesPlanOf, IsBlobsPlanOf, IsLeasesPlanOf, IsTimersPlanOf};

use crate::act::Act;
use crate::ask::Asking;
use crate::effecting::plan_ruling;
use crate::queues::queue_of;
use crate::rules::ranges_rule;
use crate::settings::{copy_settings, same_settings, same_trigger};
use crate::stores::Stores;
use crate::{Function, Job, ReadyJob, Work, WorkAsk, WorkChange, WorkDone, WorkPlan};
use fh_base::{Moment, NoMemory, QueueName, Text};
use fh_blobs::Blobs;
use fh_event::{FunctionSettings, PlanFault};
use fh_leases::Leases;
use fh_queues::{QueueAsk, QueueChange, Queues};
use fh_timers::{TimerAsk, TimerChange, TimerRun, Timers};
use std::alloc::Global;

impl Work {
    /// The change that an ask makes at a moment, with the changes of the other stores, or the rule that
    /// refuses it. Rules are tested in the order of their numbers. A change that is quiet makes nothing.
    #[tactic(auto, unfolding(crate::specs::Outcome::acting, crate::specs::Outcome::outcome, crate::specs::Asked::asks_queues, crate::specs::Asked::asks_blobs, crate::specs::Asked::asks_leases, crate::specs::Timers::asks_timers))]
    pub fn plan(
        &self,
        alloc: Global,
        ask: &WorkAsk<'_>,
        queues: &Queues,
        blobs: &Blobs,
        leases: &Leases,
        timers: &Timers,
        m: Moment,
    ) -> Result<WorkPlan, PlanFault>
        requires idle { IsIdle self.now }
        requires numbers { HasNumbers self.now.part }
        requires queues_idle { queue_edits.IsIdle queues.now }
        requires queues_numbers { queue_edits.HasNumbers queues.now.part }
        requires blobs_idle { blob_edits.IsIdle blobs.now }
        requires blobs_numbers { blob_edits.HasNumbers blobs.now.part }
        requires leases_idle { lease_edits.IsIdle leases.now }
        requires timers_idle { timer_edits.IsIdle timers.now }
        ensures work { IsPlanOf self.now.part (outcome self.now.part
            (others_with queues.now.part blobs.now.part leases.now.part timers.now.part) (ask_of ask.now) m) result }
        ensures queues { IfOk result (λ plan. IsQueuesPlanOf queues.now.part (asks_queues self.now.part
            (others_with queues.now.part blobs.now.part leases.now.part timers.now.part) (ask_of ask.now) m) m
            plan.queues) }
        ensures blobs { IfOk result (λ plan. IsBlobsPlanOf blobs.now.part (asks_blobs self.now.part
            (others_with queues.now.part blobs.now.part leases.now.part timers.now.part) (ask_of ask.now) m) m
            plan.blobs) }
        ensures leases { IfOk result (λ plan. IsLeasesPlanOf leases.now.part (asks_leases self.now.part
            (others_with queues.now.part blobs.now.part leases.now.part timers.now.part) (ask_of ask.now) m) m
            plan.leases) }
        ensures timers { IfOk result (λ plan. IsTimersPlanOf timers.now.part
            (asks_timers self.now.part (ask_of ask.now)) m plan.timers) }
        ensures masks { IfOk result (λ plan. GivesGoodMasks (ask_of ask.now)) }
    {
        match ask {
            WorkAsk::Configure { function, settings } => {
                self.plan_configure(alloc, function, settings, queues, timers, m)
            }
            WorkAsk::Ready { function, run } => Ok(alone(make_ready(alloc, *function, *run)?)),
            WorkAsk::Session => Ok(alone(self.plan_session(alloc)?)),
            WorkAsk::Fetch { function } => self.plan_fetch(alloc, function, queues, m),
            WorkAsk::Begin {
                function,
                high,
                low,
            } => {
                let stores = Stores::of(queues, blobs, leases, timers);
                let ruling = self.begin(alloc, function, *high, *low, stores, m)?;
                plan_ruling(alloc, ruling, stores, m)
            }
            WorkAsk::Finish {
                invocation,
                outcome,
            } => {
                let stores = Stores::of(queues, blobs, leases, timers);
                let ruling = self.finish(alloc, *invocation, outcome, stores, m)?;
                plan_ruling(alloc, ruling, stores, m)
            }
            WorkAsk::Renewals => {
                let stores = Stores::of(queues, blobs, leases, timers);
                let ruling = self.renewals(alloc, stores, m)?;
                plan_ruling(alloc, ruling, stores, m)
            }
            WorkAsk::Nothing => Ok(alone(no_acts(alloc, false, WorkDone::Nothing))),
        }
    }

    fn plan_configure(
        &self,
        alloc: Global,
        name: &str,
        settings: &FunctionSettings,
        queues: &Queues,
        timers: &Timers,
        m: Moment,
    ) -> Result<WorkPlan, PlanFault>
        requires queues_idle { queue_edits.IsIdle queues.now }
        requires queues_numbers { queue_edits.HasNumbers queues.now.part }
        requires timers_idle { timer_edits.IsIdle timers.now }
        ensures work { IsPlanOf self.now.part
            (made_by self.now.part (configuring self.now.part name.now settings.now)) result }
        ensures queues { IfOk result (λ plan. IsQueuesPlanOf queues.now.part
            (configuring_queues self.now.part queues.now.part name.now settings.now) m plan.queues) }
        ensures blobs { IfOk result (λ plan. plan.blobs ≡ None) }
        ensures leases { IfOk result (λ plan. plan.leases ≡ None) }
        ensures timers { IfOk result (λ plan. IsTimersPlanOf timers.now.part
            (configuring_timers self.now.part settings.now
            (function_of name.now self.now.part.functions)) m plan.timers) }
        ensures masks { IfOk result (λ plan. HasGoodMasks settings.now) }
    {
        let found = self.function_of(name);
        let number = number_or(self.next_function, found);
        let queue = queue_of(alloc, number, settings)?;
        if let Some(rule) = ranges_rule(settings) {
            return Err(PlanFault::Rule(rule));
        }
        if is_as(settings, found) {
            return Ok(alone(no_acts(alloc, true, WorkDone::Same)));
        }
        let other_trigger = has_other_trigger(settings, found);
        let work = set_function(alloc, number, name, settings, other_trigger)?;
        let queues = plan_queue(alloc, queue, queues, m)?;
        let timers = plan_removal(alloc, number, other_trigger, timers, m);
        Ok(WorkPlan {
            work,
            queues,
            blobs: None,
            leases: None,
            timers,
        })
    }
}

// The plan of a change that asks nothing of the other stores.
pub(crate) fn alone(work: WorkChange) -> WorkPlan
    ensures work { result.work ≡ work }
    ensures queues { result.queues ≡ None }
    ensures blobs { result.blobs ≡ None }
    ensures leases { result.leases ≡ None }
    ensures timers { result.timers ≡ None }
{
    WorkPlan {
        work,
        queues: None,
        blobs: None,
        leases: None,
        timers: None,
    }
}

// What the queues make of a queue that may be missing. No rule refuses that it is made.
#[tactic(auto, using(crate::proofs::Configuring::making_is_accepted))]
fn plan_queue(
    alloc: Global,
    queue: Option<QueueName>,
    queues: &Queues,
    m: Moment,
) -> Result<Option<QueueChange>, NoMemory>
    requires idle { queue_edits.IsIdle queues.now }
    requires numbers { queue_edits.HasNumbers queues.now.part }
    ensures { IfOk result (λ change.
        IsQueuesPlanOf queues.now.part (made_where_missing queues.now.part queue) m change) }
{
    let Some(queue) = queue else {
        return Ok(None);
    };
    if queues.has_queue(&queue) {
        return Ok(None);
    }
    let asking = Asking {
        queues: QueueAsk::Make { queue },
    };
    match queues.plan(alloc, &asking.queues, m) {
        Ok(change) => Ok(Some(change)),
        Err(PlanFault::NoMemory) => Err(NoMemory),
        Err(PlanFault::Rule(_)) => unreachable!(),
    }
}

// What the timers make of a function that gets another trigger.
fn plan_removal(
    alloc: Global,
    function: u64,
    other_trigger: bool,
    timers: &Timers,
    m: Moment,
) -> Option<TimerChange>
    requires { timer_edits.IsIdle timers.now }
    ensures { IsTimersPlanOf timers.now.part (removing function other_trigger) m result }
{
    if !other_trigger {
        return None;
    }
    match timers.plan(alloc, &TimerAsk::Remove { function }, m) {
        Ok(change) => Some(change),
        Err(_) => unreachable!(),
    }
}

// The number of a function that is there, or the next one.
fn number_or(next: u64, found: Option<&Function>) -> u64
    ensures { result ≡ number_or next (option_copied found.entry) }
{
    match found {
        Some(function) => function.number,
        None => next,
    }
}

// Whether a function is there and has these settings.
fn is_as(settings: &FunctionSettings, found: Option<&Function>) -> bool
    ensures { result ≡ is_as settings.now (option_copied found.entry) }
{
    match found {
        Some(function) => same_settings(&function.settings, settings),
        None => false,
    }
}

// Whether a function is there and has another trigger.
fn has_other_trigger(settings: &FunctionSettings, found: Option<&Function>) -> bool
    ensures { result ≡ has_other_trigger settings.now (option_copied found.entry) }
{
    match found {
        Some(function) => !same_trigger(&function.settings, settings),
        None => false,
    }
}

fn no_acts(alloc: Global, quiet: bool, done: WorkDone) -> WorkChange
    ensures { result ≡ record { quiet = quiet; acts = []; done = done } }
{
    WorkChange {
        quiet,
        acts: Vec::new(alloc),
        done,
    }
}

// The change that makes a run of a function ready.
fn make_ready(alloc: Global, function: u64, run: TimerRun) -> Result<WorkChange, NoMemory>
    ensures { IfOk result (λ change. change ≡ record {
      quiet = false;
      acts = AddJob (record { function = function; job = Timer run }) ∷ [];
      done = Ready;
    }) }
{
    let job = ReadyJob {
        function,
        job: Job::Timer { run },
    };
    let mut acts = Vec::new(alloc);
    acts.push(Act::AddJob { job })?;
    Ok(WorkChange {
        quiet: false,
        acts,
        done: WorkDone::Ready,
    })
}

// The change that gives a function this number and these settings. With another trigger its ready jobs go.
fn set_function(
    alloc: Global,
    number: u64,
    name: &str,
    settings: &FunctionSettings,
    other_trigger: bool,
) -> Result<WorkChange, NoMemory>
    ensures acts { IfOk result (λ change. change.acts
        ≡ Set (configured number name.now settings.now) ∷ dropping number other_trigger) }
    ensures loud { IfOk result (λ change. change.quiet ≡ false) }
    ensures done { IfOk result (λ change. change.done ≡ Configured number) }
{
    let function = Function {
        number,
        name: Text::from_str(alloc, name)?,
        settings: copy_settings(alloc, settings)?,
    };
    let mut acts = Vec::new(alloc);
    acts.push(Act::Set { function })?;
    if other_trigger {
        acts.push(Act::DropJobs { function: number })?;
    }
    Ok(WorkChange {
        quiet: false,
        acts,
        done: WorkDone::Configured { number },
    })
}
