// How the first ready job of a function begins.
ghost use Rattle.std.specs.Prelude.{◌≡◌, option_copied, IfOk};
ghost use Rattle.fh_dispatch.specs.Begin.{begin_of, beginning_first, beginning_job, beginning_row, beginning_held, beginning_run, begun_message, begun_run, content_of, dropping, moving, start_of};
ghost use Rattle.fh_dispatch.specs.Edits.{HasNumbers};
ghost use Rattle.fh_dispatch.specs.Effects.{ruling_of};
ghost use Rattle.fh_dispatch.specs.Ready.{first_job};
ghost use Rattle.fh_dispatch.specs.Stores.{others_of, AreReady};

use crate::act::Act;
use crate::holds::{NEVER, held_row, hidden_at, message_due};
use crate::ruling::{Effect, QueueEffect, Ruling};
use crate::start::{Start, blocking, starting};
use crate::stores::Stores;
use crate::terms::terms_of;
use crate::{Job, ReadyJob, Work};
use fh_base::{Moment, NoMemory, QueueName, Rule, Text};
use fh_blobs::Blobs;
use fh_event::{About, BegunJob, Reply};
use fh_queues::{HeldMessage, Message};
use fh_timers::{TimerRow, TimerRun};
use std::alloc::Global;

impl Work {
    /// What the first ready job of a function comes to.
    #[tactic(auto, unfolding(crate::specs::Begin::begin_of))]
    pub(crate) fn begin<'a>(
        &self,
        alloc: Global,
        name: &str,
        high: u64,
        low: u64,
        stores: Stores<'_>,
        m: Moment,
    ) -> Result<Ruling<'a>, NoMemory>
        requires numbers { HasNumbers self.now.part }
        requires ready { AreReady stores }
        ensures { IfOk result (λ ruling. ruling_of ruling
            ≡ begin_of self.now.part (others_of stores.entry) name.now high low m) }
    {
        let Some(function) = self.function_of(name) else {
            return Ok(Ruling::Refused(Rule::NoSuchFunction));
        };
        let start = Start {
            function,
            high,
            low,
            moment: m,
        };
        self.begin_first(alloc, &start, stores)
    }

    fn begin_first<'a>(
        &self,
        alloc: Global,
        start: &Start<'_>,
        stores: Stores<'_>,
    ) -> Result<Ruling<'a>, NoMemory>
        requires ready { AreReady stores }
        ensures { IfOk result (λ ruling. ruling_of ruling
            ≡ beginning_first self.now.part (others_of stores.entry) (start_of start.now)
            (first_job start.now.function.now.number self.now.part.ready)) }
    {
        match self.first_job(start.function.number) {
            Some(ready) => self.begin_job(alloc, start, ready.job, stores),
            None => Ok(Ruling::Unchanged(Reply::NoJob)),
        }
    }

    #[tactic(auto, using(crate::proofs::Beginning::first_of_jobs))]
    fn first_job(&self, function: u64) -> Option<&ReadyJob>
        ensures { option_copied result ≡ first_job function self.now.part.ready }
    {
        self.jobs_of(function).first()
    }

    fn begin_job<'a>(
        &self,
        alloc: Global,
        start: &Start<'_>,
        job: Job,
        stores: Stores<'_>,
    ) -> Result<Ruling<'a>, NoMemory>
        requires ready { AreReady stores }
        ensures { IfOk result (λ ruling. ruling_of ruling
            ≡ beginning_job self.now.part (others_of stores.entry) (start_of start.now) job) }
    {
        match job {
            Job::Message { number, receipt } => {
                let held = held_row(stores.queues, number, receipt, start.moment);
                let hidden = hidden_at(start.moment, held);
                self.begin_row(alloc, start, number, hidden, stores)
            }
            Job::Timer { run } => self.begin_run(alloc, start, run, stores),
        }
    }

    fn begin_row<'a>(
        &self,
        alloc: Global,
        start: &Start<'_>,
        number: u64,
        row: Option<&Message>,
        stores: Stores<'_>,
    ) -> Result<Ruling<'a>, NoMemory>
        requires ready { AreReady stores }
        ensures { IfOk result (λ ruling. ruling_of ruling
            ≡ beginning_row self.now.part (others_of stores.entry) (start_of start.now) number
            (option_copied row.entry)) }
    {
        let Some(row) = row else {
            return dropping(alloc, start, number);
        };
        match terms_of(&start.function.settings).poison_above(row.count) {
            Some(queue) => moving(alloc, start, row, queue, stores),
            None => self.begin_held(alloc, start, row, stores),
        }
    }

    fn begin_held<'a>(
        &self,
        alloc: Global,
        start: &Start<'_>,
        row: &Message,
        stores: Stores<'_>,
    ) -> Result<Ruling<'a>, NoMemory>
        ensures { IfOk result (λ ruling. ruling_of ruling
            ≡ beginning_held self.now.part (others_of stores.entry) (start_of start.now) row.now) }
    {
        if let Some((holder, until)) = blocking(alloc, start, stores)? {
            return Ok(Ruling::Unchanged(Reply::Blocked { holder, until }));
        }
        let job = Job::Message {
            number: row.number,
            receipt: row.receipt,
        };
        let told = begun_message(alloc, stores, row)?;
        let invocation = self.running.next();
        starting(alloc, invocation, start, job, told, message_due(row))
    }

    fn begin_run<'a>(
        &self,
        alloc: Global,
        start: &Start<'_>,
        run: TimerRun,
        stores: Stores<'_>,
    ) -> Result<Ruling<'a>, NoMemory>
        ensures { IfOk result (λ ruling. ruling_of ruling
            ≡ beginning_run self.now.part (others_of stores.entry) (start_of start.now) run) }
    {
        if let Some((holder, until)) = blocking(alloc, start, stores)? {
            return Ok(Ruling::Unchanged(Reply::Blocked { holder, until }));
        }
        let told = begun_run(run, stores.timers.row(start.function.number));
        let invocation = self.running.next();
        starting(alloc, invocation, start, Job::Timer { run }, told, NEVER)
    }
}

// The message is not held for the job any more.
fn dropping<'a>(alloc: Global, start: &Start<'_>, number: u64) -> Result<Ruling<'a>, NoMemory>
    ensures { IfOk result (λ ruling. ruling_of ruling ≡ dropping (start_of start.now) number) }
{
    let mut acts = Vec::new(alloc);
    acts.push(Act::TakeFirst {
        function: start.function.number,
    })?;
    Ok(Ruling::Changed(Effect {
        queues: None,
        blobs: None,
        leases: None,
        acts,
        told: Reply::JobDropped { number },
    }))
}

// The message was taken too often, and is moved into a poison queue.
fn moving<'a>(
    alloc: Global,
    start: &Start<'_>,
    row: &Message,
    queue: QueueName,
    stores: Stores<'_>,
) -> Result<Ruling<'a>, NoMemory>
    requires ready { AreReady stores }
    ensures { IfOk result (λ ruling. ruling_of ruling
        ≡ moving (others_of stores.entry) (start_of start.now) row.now queue) }
{
    let mut acts = Vec::new(alloc);
    acts.push(Act::TakeFirst {
        function: start.function.number,
    })?;
    let message = HeldMessage {
        number: row.number,
        receipt: row.receipt,
    };
    Ok(Ruling::Changed(Effect {
        queues: Some(QueueEffect::Poison { message, queue }),
        blobs: None,
        leases: None,
        acts,
        told: Reply::JobPoisoned {
            copy: stores.queues.next_number(),
            broken: None,
        },
    }))
}

// What is told of a message, with the blob that it is about as that blob is now.
fn begun_message(alloc: Global, stores: Stores<'_>, row: &Message) -> Result<BegunJob, NoMemory>
    ensures { IfOk result (λ told. told ≡ begun_message (others_of stores.entry) row.now) }
{
    let about = row.about.get();
    let content = content_of(alloc, stores.blobs, about)?;
    Ok(BegunJob::Message {
        number: row.number,
        queue: *row.queue.name(),
        text: row.text.copy(alloc)?,
        count: row.count,
        receipt: row.receipt,
        put_at: row.put_at,
        expiry: row.expiry.get(),
        visible_at: row.visible_at,
        about: copy_about(alloc, about)?,
        content,
    })
}

fn copy_about(alloc: Global, about: Option<&About>) -> Result<Option<About>, NoMemory>
    ensures { IfOk result (λ own. own ≡ option_copied about.entry) }
{
    match about {
        Some(about) => Ok(Some(about.copy(alloc)?)),
        None => Ok(None),
    }
}

fn content_of(alloc: Global, blobs: &Blobs, about: Option<&About>) -> Result<Option<Text>, NoMemory>
    ensures { IfOk result (λ content. content ≡ content_of blobs.now.part (option_copied about.entry)) }
{
    let Some(about) = about else {
        return Ok(None);
    };
    match blobs.get(&about.container, about.blob.as_str()) {
        Some(row) => Ok(Some(row.text.copy(alloc)?)),
        None => Ok(None),
    }
}

// What is told of a run, with the timer's row as it is.
fn begun_run(run: TimerRun, row: Option<&TimerRow>) -> BegunJob
    ensures { result ≡ begun_run run (option_copied row.entry) }
{
    match row {
        Some(row) => BegunJob::Timer {
            past_due: run.past_due,
            last: row.last,
            next: row.next,
            updated: row.updated,
        },
        None => BegunJob::Timer {
            past_due: run.past_due,
            last: None,
            next: None,
            updated: 0,
        },
    }
}
