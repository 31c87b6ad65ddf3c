// The changes of all stores that a ruling comes to.
ghost use Rattle.std.specs.Prelude.{◌≡◌, None, option_map, IfOk, IfErr};
ghost use Rattle.fh_queues.specs.Asks as queue_asks;
ghost use Rattle.fh_queues.specs.Edits as queue_edits;
ghost use Rattle.fh_queues.specs.Faults as queue_faults;
ghost use Rattle.fh_queues.specs.Outcome as queue_outcome;
ghost use Rattle.fh_blobs.specs.Asks as blob_asks;
ghost use Rattle.fh_leases.specs.Asks as lease_asks;
ghost use Rattle.fh_dispatch.specs.Effects.{effect_of, lease_ask_of, queue_ask_of, ruling_of};
ghost use Rattle.fh_dispatch.specs.Faults.{IsRefusedBy, IsPlanOf, IsQueuesPlanOf, IsBlobsPlanOf, IsLeasesPlanOf};
ghost use Rattle.fh_dispatch.specs.Outcome.{made_by};
ghost use Rattle.fh_dispatch.specs.Part.{WorkPart};
ghost use Rattle.fh_dispatch.specs.Rulings.{Acting, ruled, effecting, queues_accept, blobs_accept, leases_accept, queues_in, blobs_in, leases_in};
ghost use Rattle.fh_dispatch.specs.Stores.{others_of, AreReady};

use crate::ask::Asking;
use crate::fetching::quiet;
use crate::planning::alone;
use crate::ruling::{Effect, HOLD, LeaseEffect, QueueEffect, Ruling};
use crate::stores::Stores;
use crate::{WorkChange, WorkDone, WorkPlan};
use fh_base::Moment;
use fh_blobs::{BlobAsk, BlobChange, NewBlob};
use fh_event::PlanFault;
use fh_leases::{LeaseAsk, LeaseChange};
use fh_queues::{QueueAsk, QueueChange, Queues};
use std::alloc::Global;

/// Plans what a ruling asks of the other stores, beside what the work itself does.
pub(crate) fn plan_ruling(
    alloc: Global,
    ruling: Ruling<'_>,
    stores: Stores<'_>,
    m: Moment,
) -> Result<WorkPlan, PlanFault>
    requires ready { AreReady stores }
    ensures work { (part : WorkPart) → IsPlanOf part
        (made_by part (ruled (others_of stores.entry) m (ruling_of ruling.entry))) result }
    ensures queues { IfOk result (λ plan. IsQueuesPlanOf (others_of stores.entry).queues
        (queues_in (ruling_of ruling.entry)) m plan.queues) }
    ensures blobs { IfOk result (λ plan. IsBlobsPlanOf (others_of stores.entry).blobs
        (blobs_in (ruling_of ruling.entry)) m plan.blobs) }
    ensures leases { IfOk result (λ plan. IsLeasesPlanOf (others_of stores.entry).leases
        (leases_in (ruling_of ruling.entry)) m plan.leases) }
    ensures timers { IfOk result (λ plan. plan.timers ≡ None) }
{
    match ruling {
        Ruling::Refused(rule) => Err(PlanFault::Rule(rule)),
        Ruling::Unchanged(reply) => Ok(alone(quiet(alloc, reply))),
        Ruling::Changed(effect) => plan_effect(alloc, effect, stores, m),
    }
}

#[tactic(auto, using(crate::proofs::Refusing::refused))]
fn plan_effect(
    alloc: Global,
    effect: Effect<'_>,
    stores: Stores<'_>,
    m: Moment,
) -> Result<WorkPlan, PlanFault>
    requires ready { AreReady stores }
    ensures work { (part : WorkPart) → IsPlanOf part
        (made_by part (effecting (others_of stores.entry) m (effect_of effect.entry))) result }
    ensures queues { IfOk result (λ plan. IsQueuesPlanOf (others_of stores.entry).queues
        (effect_of effect.entry).queues m plan.queues) }
    ensures blobs { IfOk result (λ plan. IsBlobsPlanOf (others_of stores.entry).blobs
        (effect_of effect.entry).blobs m plan.blobs) }
    ensures leases { IfOk result (λ plan. IsLeasesPlanOf (others_of stores.entry).leases
        (effect_of effect.entry).leases m plan.leases) }
    ensures timers { IfOk result (λ plan. plan.timers ≡ None) }
{
    let Effect {
        queues,
        blobs,
        leases,
        acts,
        told,
    } = effect;
    let queues = plan_queues(alloc, &queues, stores, m)?;
    let blobs = plan_blobs(alloc, &blobs, stores, m)?;
    let leases = plan_leases(alloc, &leases, stores, m)?;
    Ok(WorkPlan {
        work: WorkChange {
            quiet: false,
            acts,
            done: WorkDone::Told { reply: told },
        },
        queues,
        blobs,
        leases,
        timers: None,
    })
}

fn plan_queues(
    alloc: Global,
    effect: &Option<QueueEffect<'_>>,
    stores: Stores<'_>,
    m: Moment,
) -> Result<Option<QueueChange>, PlanFault>
    requires ready { AreReady stores }
    ensures change { IfOk result (λ change. IsQueuesPlanOf (others_of stores.entry).queues
        (option_map queue_ask_of effect.now) m change) }
    ensures accepted { (acting : Acting) → IfOk result (λ change.
        queues_accept (others_of stores.entry) m
        (option_map queue_ask_of effect.now) acting ≡ acting) }
    ensures refused { (acting : Acting) → IfErr result (λ fault. IsRefusedBy fault
        (queues_accept (others_of stores.entry) m
        (option_map queue_ask_of effect.now) acting)) }
{
    let Some(effect) = effect else {
        return Ok(None);
    };
    let asking = Asking {
        queues: queue_ask(effect),
    };
    Ok(Some(plan_asking(alloc, &asking, stores.queues, m)?))
}

fn plan_asking(
    alloc: Global,
    asking: &Asking<'_>,
    queues: &Queues,
    m: Moment,
) -> Result<QueueChange, PlanFault>
    requires idle { queue_edits.IsIdle queues.now }
    requires numbers { queue_edits.HasNumbers queues.now.part }
    ensures { queue_faults.IsPlanOf queues.now.part
        (queue_outcome.outcome queues.now.part (queue_asks.ask_of asking.now.queues) m) result }
{
    queues.plan(alloc, &asking.queues, m)
}

fn queue_ask<'a>(effect: &'a QueueEffect<'_>) -> QueueAsk<'a>
    ensures { queue_asks.ask_of result ≡ queue_ask_of effect.now }
{
    match effect {
        QueueEffect::Release { message, delay } => QueueAsk::Release {
            message: *message,
            delay: *delay,
        },
        QueueEffect::Renew { messages } => QueueAsk::Renew {
            messages,
            hold: HOLD,
        },
        QueueEffect::Complete {
            invocation,
            message,
            outputs,
        } => QueueAsk::Complete {
            invocation: *invocation,
            message: *message,
            outputs,
        },
        QueueEffect::Poison { message, queue } => QueueAsk::Poison {
            message: *message,
            queue: *queue,
        },
    }
}

fn plan_blobs(
    alloc: Global,
    effect: &Option<Vec<NewBlob>>,
    stores: Stores<'_>,
    m: Moment,
) -> Result<Option<BlobChange>, PlanFault>
    requires ready { AreReady stores }
    ensures change { IfOk result (λ change. IsBlobsPlanOf (others_of stores.entry).blobs
        (option_map (λ blobs. blob_asks.PutAll blobs.items) effect.now) m change) }
    ensures accepted { (acting : Acting) → IfOk result (λ change.
        blobs_accept (others_of stores.entry) m
        (option_map (λ blobs. blob_asks.PutAll blobs.items) effect.now) acting ≡ acting) }
    ensures refused { (acting : Acting) → IfErr result (λ fault. IsRefusedBy fault
        (blobs_accept (others_of stores.entry) m
        (option_map (λ blobs. blob_asks.PutAll blobs.items) effect.now) acting)) }
{
    let Some(blobs) = effect else {
        return Ok(None);
    };
    let ask = BlobAsk::PutAll { blobs };
    Ok(Some(stores.blobs.plan(alloc, &ask, m)?))
}

fn plan_leases(
    alloc: Global,
    effect: &Option<LeaseEffect>,
    stores: Stores<'_>,
    m: Moment,
) -> Result<Option<LeaseChange>, PlanFault>
    requires ready { AreReady stores }
    ensures change { IfOk result (λ change. IsLeasesPlanOf (others_of stores.entry).leases
        (option_map lease_ask_of effect.now) m change) }
    ensures accepted { (acting : Acting) → IfOk result (λ change.
        leases_accept (others_of stores.entry) m
        (option_map lease_ask_of effect.now) acting ≡ acting) }
    ensures refused { (acting : Acting) → IfErr result (λ fault. IsRefusedBy fault
        (leases_accept (others_of stores.entry) m
        (option_map lease_ask_of effect.now) acting)) }
{
    let Some(effect) = effect else {
        return Ok(None);
    };
    let ask = lease_ask(effect);
    Ok(Some(stores.leases.plan(alloc, &ask, m)?))
}

fn lease_ask<'a>(effect: &'a LeaseEffect) -> LeaseAsk<'a>
    ensures { lease_asks.ask_of result ≡ lease_ask_of effect.now }
{
    match effect {
        LeaseEffect::Acquire {
            name,
            holder,
            seconds,
        } => LeaseAsk::Acquire {
            name: name.as_str(),
            holder: *holder,
            seconds: *seconds,
        },
        LeaseEffect::Release { name, holder } => LeaseAsk::Release {
            name: name.as_str(),
            holder: *holder,
        },
        LeaseEffect::RenewAll { leases } => LeaseAsk::RenewAll { leases },
    }
}
