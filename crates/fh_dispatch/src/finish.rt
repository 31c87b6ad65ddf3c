// How an invocation ends.
ghost use Rattle.std.specs.Prelude.{◌≡◌, None, Some, option_copied, option_map, IfOk, IfErr};
ghost use Rattle.fh_blobs.specs.Asks.{PutAll};
ghost use Rattle.fh_dispatch.specs.Edits.{HasNumbers};
ghost use Rattle.fh_dispatch.specs.Effects.{queue_ask_of, lease_ask_of, ruling_of};
ghost use Rattle.fh_dispatch.specs.Finish.{freeing, ending, storing, Succeeded, Broken, verdict_of, moving, releasing, finishing_row, finishing_timer, finishing_job, finish_of};
ghost use Rattle.fh_dispatch.specs.Holds.{lease_held};
ghost use Rattle.fh_dispatch.specs.Outputs.{each_output_rule};
ghost use Rattle.fh_dispatch.specs.Stores.{others_of, AreReady};

use crate::act::Act;
use crate::holds::{held_lease, held_row};
use crate::outputs::{blobs_of, outcome_rule, outputs_rule};
use crate::rules::range_rule;
use crate::ruling::{Effect, LeaseEffect, QueueEffect, Ruling};
use crate::stores::Stores;
use crate::terms::lease_name;
use crate::{Job, Running, Terms, Work};
use fh_base::{Moment, NoMemory, QueueName, Rule, SECONDS_OF_WEEK};
use fh_blobs::NewBlob;
use fh_event::{Outcome, Outputs, Reply};
use fh_leases::Leases;
use fh_queues::{HeldMessage, Message};
use std::alloc::Global;

const MILLISECONDS: u64 = 1000;

impl Work {
    /// What an invocation comes to by its outcome.
    #[tactic(auto, unfolding(crate::specs::Finish::finish_of))]
    pub(crate) fn finish<'a>(
        &self,
        alloc: Global,
        invocation: u64,
        outcome: &'a Outcome,
        stores: Stores<'_>,
        m: Moment,
    ) -> Result<Ruling<'a>, NoMemory>
        requires numbers { HasNumbers self.now.part }
        requires ready { AreReady stores }
        ensures { IfOk result (λ ruling. ruling_of ruling
            ≡ finish_of self.now.part (others_of stores.entry) invocation outcome.entry.now m) }
    {
        if let Some(rule) = outcome_rule(outcome) {
            return Ok(Ruling::Refused(rule));
        }
        match self.running(invocation) {
            None => Ok(Ruling::Refused(Rule::NoSuchInvocation)),
            Some(run) => self.finish_job(alloc, run, outcome, stores, m),
        }
    }

    fn finish_job<'a>(
        &self,
        alloc: Global,
        run: &Running,
        outcome: &'a Outcome,
        stores: Stores<'_>,
        m: Moment,
    ) -> Result<Ruling<'a>, NoMemory>
        requires { AreReady stores }
        ensures { IfOk result (λ ruling. ruling_of ruling
            ≡ finishing_job self.now.part (others_of stores.entry) m run.now outcome.entry.now run.now.job) }
    {
        match run.job {
            Job::Message { number, receipt } => {
                let terms = self.terms_of(run.name.as_str());
                let row = held_row(stores.queues, number, receipt, m);
                finish_row(alloc, stores, m, &terms, run, outcome, row)
            }
            Job::Timer { .. } => finish_timer(alloc, stores, m, run, outcome),
        }
    }
}

// A message that isn't held for the invocation any more is lost.
fn finish_row<'a>(
    alloc: Global,
    stores: Stores<'_>,
    m: Moment,
    terms: &Terms,
    run: &Running,
    outcome: &'a Outcome,
    row: Option<&Message>,
) -> Result<Ruling<'a>, NoMemory>
    requires { AreReady stores }
    ensures { IfOk result (λ ruling. ruling_of ruling ≡ finishing_row (others_of stores.entry) m
        terms.now run.now outcome.entry.now (option_copied row.entry)) }
{
    match row {
        None => end(alloc, stores, run, None, None, Reply::JobLost),
        Some(row) => finish_by(alloc, stores, m, terms, run, outcome, row),
    }
}

// A success stores its outputs where they keep the rules; else the message is moved or released.
fn finish_by<'a>(
    alloc: Global,
    stores: Stores<'_>,
    m: Moment,
    terms: &Terms,
    run: &Running,
    outcome: &'a Outcome,
    row: &Message,
) -> Result<Ruling<'a>, NoMemory>
    requires { AreReady stores }
    ensures { IfOk result (λ ruling. ruling_of ruling ≡ finishing_row (others_of stores.entry) m
        terms.now run.now outcome.entry.now (Some row.now)) }
{
    let message = HeldMessage {
        number: row.number,
        receipt: row.receipt,
    };
    match succeeded(stores, m, Some(message), outcome) {
        Ok(outputs) => store(alloc, stores, run, Some(message), outputs),
        Err(broken) => match terms.poison_from(row.count) {
            Some(queue) => poison(alloc, stores, run, message, broken, queue),
            None => release(alloc, stores, m, terms.retry, run, message, broken),
        },
    }
}

// A run of a timer has no message.
fn finish_timer<'a>(
    alloc: Global,
    stores: Stores<'_>,
    m: Moment,
    run: &Running,
    outcome: &'a Outcome,
) -> Result<Ruling<'a>, NoMemory>
    ensures { IfOk result (λ ruling. ruling_of ruling ≡ finishing_timer (others_of stores.entry) run.now
        (verdict_of (others_of stores.entry) m None outcome.entry.now)) }
{
    match succeeded(stores, m, None, outcome) {
        Ok(outputs) => store(alloc, stores, run, None, outputs),
        Err(broken) => end(alloc, stores, run, None, None, Reply::JobFailed { broken }),
    }
}

// The outputs that are to be stored, or the number of the rule that they break, or none for a failure.
fn succeeded<'a>(
    stores: Stores<'_>,
    m: Moment,
    message: Option<HeldMessage>,
    outcome: &'a Outcome,
) -> Result<&'a Outputs, Option<u64>>
    ensures ok { IfOk result (λ outputs.
        verdict_of (others_of stores.entry) m message outcome.entry.now ≡ Succeeded outputs.now) }
    ensures kept { IfOk result (λ outputs. each_output_rule outputs.now ≡ None) }
    ensures err { IfErr result (λ broken.
        verdict_of (others_of stores.entry) m message outcome.entry.now ≡ Broken broken) }
{
    match outcome {
        Outcome::Failed { .. } => Err(None),
        Outcome::Done { outputs } => {
            match outputs_rule(stores.queues, m, message, outputs.as_slice()) {
                None => Ok(outputs),
                Some(rule) => Err(Some(rule.number() as u64)),
            }
        }
    }
}

// The outputs are stored, and the message is removed.
fn store<'a>(
    alloc: Global,
    stores: Stores<'_>,
    run: &Running,
    message: Option<HeldMessage>,
    outputs: &'a Outputs,
) -> Result<Ruling<'a>, NoMemory>
    requires { each_output_rule outputs.now ≡ None }
    ensures { IfOk result (λ ruling. ruling_of ruling
        ≡ storing (others_of stores.entry) run.now message outputs.entry.now) }
{
    let completion = QueueEffect::Complete {
        invocation: run.invocation,
        message,
        outputs,
    };
    let blobs = blobs_of(alloc, outputs.as_slice())?;
    end(
        alloc,
        stores,
        run,
        Some(completion),
        Some(blobs),
        Reply::JobDone,
    )
}

// A message that failed too often is moved.
fn poison<'a>(
    alloc: Global,
    stores: Stores<'_>,
    run: &Running,
    message: HeldMessage,
    broken: Option<u64>,
    queue: QueueName,
) -> Result<Ruling<'a>, NoMemory>
    requires { AreReady stores }
    ensures { IfOk result (λ ruling. ruling_of ruling
        ≡ moving (others_of stores.entry) run.now message broken queue) }
{
    let copy = stores.queues.next_number();
    let moved = QueueEffect::Poison { message, queue };
    end(
        alloc,
        stores,
        run,
        Some(moved),
        None,
        Reply::JobPoisoned { copy, broken },
    )
}

// Another message that failed is visible again after a delay. The queues hide none for more than a week.
fn release<'a>(
    alloc: Global,
    stores: Stores<'_>,
    m: Moment,
    delay: u64,
    run: &Running,
    message: HeldMessage,
    broken: Option<u64>,
) -> Result<Ruling<'a>, NoMemory>
    ensures { IfOk result (λ ruling. ruling_of ruling
        ≡ releasing (others_of stores.entry) m delay run.now message broken) }
{
    if let Some(rule) = range_rule(delay, 0, SECONDS_OF_WEEK) {
        return Ok(Ruling::Refused(rule));
    }
    let visible_at = m.ms() + delay * MILLISECONDS;
    let released = QueueEffect::Release { message, delay };
    end(
        alloc,
        stores,
        run,
        Some(released),
        None,
        Reply::JobReleased { visible_at, broken },
    )
}

// The invocation ends, and so does its lease.
fn end<'a>(
    alloc: Global,
    stores: Stores<'_>,
    run: &Running,
    queues: Option<QueueEffect<'a>>,
    blobs: Option<Vec<NewBlob>>,
    told: Reply,
) -> Result<Ruling<'a>, NoMemory>
    ensures { IfOk result (λ ruling. ruling_of ruling ≡ ending (others_of stores.entry) run.now
        (option_map queue_ask_of queues.entry) (option_map (λ new. PutAll new.items) blobs) told) }
{
    let leases = free(alloc, stores.leases, run)?;
    let mut acts = Vec::new(alloc);
    acts.push(Act::EndRunning {
        invocation: run.invocation,
    })?;
    Ok(Ruling::Changed(Effect {
        queues,
        blobs,
        leases,
        acts,
        told,
    }))
}

// A lease goes whose last holder the invocation is.
fn free(alloc: Global, leases: &Leases, run: &Running) -> Result<Option<LeaseEffect>, NoMemory>
    ensures { IfOk result (λ effect. option_map lease_ask_of effect
        ≡ freeing run.now (lease_held leases.now.part run.now.name run.now.invocation)) }
{
    let name = lease_name(alloc, run.name.as_str())?;
    match held_lease(leases, name.as_str(), run.invocation) {
        None => Ok(None),
        Some(_) => Ok(Some(LeaseEffect::Release {
            name,
            holder: run.invocation,
        })),
    }
}
