// What a fetch comes to, and a session that begins.
ghost use Rattle.std.specs.Prelude.{◌≡◌, ◌+◌, true, false, [], ◌∷◌, map, None, IfOk};
ghost use Rattle.fh_event.specs.declared.reply.Reply.TheVariants as replies;
ghost use Rattle.fh_queues.specs.Edits as queue_edits;
ghost use Rattle.fh_dispatch.specs.declared.act.Act.TheVariants.{BeginSession};
ghost use Rattle.fh_dispatch.specs.declared.done.WorkDone.TheVariants.{Told};
ghost use Rattle.fh_dispatch.specs.Part.{Others};
ghost use Rattle.fh_dispatch.specs.Outcome.{adding, fetched_job, fetching, beginning, made_by};
ghost use Rattle.fh_dispatch.specs.Queues.{trigger_of, fetching_queue};
ghost use Rattle.fh_dispatch.specs.Edits.{HasNumbers, planned};
ghost use Rattle.fh_dispatch.specs.Faults.{IsPlanOf, IsQueuesPlanOf};

use crate::act::Act;
use crate::ask::Asking;
use crate::planning::alone;
use crate::ruling::HOLD;
use crate::{Job, ReadyJob, Work, WorkChange, WorkDone, WorkPlan};
use fh_base::{Moment, NoMemory, Rule};
use fh_event::{FetchedJob, FetchedJobs, Item, PlanFault, Reply};
use fh_queues::{QueueAsk, Queues};
use std::alloc::Global;

impl Work {
    /// The messages that a function fetches, and the jobs that they become.
    pub(crate) fn plan_fetch(
        &self,
        alloc: Global,
        name: &str,
        queues: &Queues,
        m: Moment,
    ) -> Result<WorkPlan, PlanFault>
        requires idle { queue_edits.IsIdle queues.now }
        requires numbers { queue_edits.HasNumbers queues.now.part }
        ensures work { (others : Others) → others.queues ≡ queues.now.part
            → IsPlanOf self.now.part (made_by self.now.part (fetching self.now.part others
            (trigger_of name.now self.now.part.functions) m)) result }
        ensures queues { IfOk result (λ plan. IsQueuesPlanOf queues.now.part
            (fetching_queue self.now.part (trigger_of name.now self.now.part.functions)) m plan.queues) }
        ensures blobs { IfOk result (λ plan. plan.blobs ≡ None) }
        ensures leases { IfOk result (λ plan. plan.leases ≡ None) }
        ensures timers { IfOk result (λ plan. plan.timers ≡ None) }
    {
        let Some(trigger) = self.trigger_of(alloc, name)? else {
            return Err(PlanFault::Rule(Rule::NoSuchFunction));
        };
        let in_work = self.in_work(trigger.function);
        if trigger.threshold < in_work {
            return Ok(alone(quiet(alloc, Reply::Busy { in_work })));
        }
        let asking = Asking {
            queues: QueueAsk::Take {
                queue: trigger.queue,
                count: trigger.batch,
                hold: HOLD,
            },
        };
        let taken = queues.plan(alloc, &asking.queues, m)?;
        let work = if taken.is_quiet() {
            quiet(alloc, Reply::Empty)
        } else {
            fetch(alloc, trigger.function, taken.items())?
        };
        Ok(WorkPlan {
            work,
            queues: Some(taken),
            blobs: None,
            leases: None,
            timers: None,
        })
    }

    /// The next session begins.
    pub(crate) fn plan_session(&self, alloc: Global) -> Result<WorkChange, NoMemory>
        requires { HasNumbers self.now.part }
        ensures { IfOk result (λ change. planned self.now.part change
            ≡ made_by self.now.part (beginning (self.now.part.session + 1))) }
    {
        let mut acts = Vec::new(alloc);
        acts.push(Act::BeginSession)?;
        let session = self.session + 1;
        Ok(WorkChange {
            quiet: false,
            acts,
            done: WorkDone::Told {
                reply: Reply::SessionBegun { session },
            },
        })
    }
}

// Nothing changes, and that is told.
pub(crate) fn quiet(alloc: Global, reply: Reply) -> WorkChange
    ensures { result ≡ record { quiet = true; acts = []; done = Told reply } }
{
    WorkChange {
        quiet: true,
        acts: Vec::new(alloc),
        done: WorkDone::Told { reply },
    }
}

// The messages become jobs of the function.
fn fetch(alloc: Global, function: u64, items: &[Item]) -> Result<WorkChange, NoMemory>
    ensures { IfOk result (λ change. change ≡ record {
      quiet = false;
      acts = adding function items.now;
      done = Told (replies.Fetched (map fetched_job items.now));
    }) }
{
    let acts = jobs_added(alloc, function, items)?;
    let jobs = jobs_told(alloc, items)?;
    Ok(WorkChange {
        quiet: false,
        acts,
        done: WorkDone::Told {
            reply: Reply::Fetched { jobs },
        },
    })
}

fn jobs_added(alloc: Global, function: u64, items: &[Item]) -> Result<Vec<Act>, NoMemory>
    ensures { IfOk result (λ acts. acts.items ≡ adding function items.now) }
{
    let mut acts = Vec::new(alloc);
    for item in items {
        let job = Job::Message {
            number: item.number,
            receipt: item.receipt,
        };
        acts.push(Act::AddJob {
            job: ReadyJob { function, job },
        })?;
    }
    Ok(acts)
}

fn jobs_told(alloc: Global, items: &[Item]) -> Result<FetchedJobs, NoMemory>
    ensures { IfOk result (λ jobs. jobs ≡ map fetched_job items.now) }
{
    let mut jobs = Vec::new(alloc);
    for item in items {
        jobs.push(FetchedJob {
            number: item.number,
            receipt: item.receipt,
            count: item.count,
        })?;
    }
    Ok(FetchedJobs::new(jobs))
}
