// All stores as one value.
ghost use Rattle.std.specs.Prelude.{◌≡◌, true, false, Ok, IfOk, IfErr, OnErr, option_copied};
ghost use Rattle.fh_event.specs.Judging.{Quiets, Makes, first_rule};
ghost use Rattle.fh_queues.specs.Places.{place_of};
ghost use Rattle.fh_queues.specs.Outcome.{peeked};
ghost use Rattle.fh_queues.specs.Outcome as queue_outcome;
ghost use Rattle.fh_queues.specs.Faults.{IsFaultOf};
ghost use Rattle.fh_queues.specs.Faults as queue_faults;
ghost use Rattle.fh_blobs.specs.Faults as blob_faults;
ghost use Rattle.fh_blobs.specs.Outcome as blob_outcome;
ghost use Rattle.fh_blobs.specs.Part.{blob_of, unnoted};
ghost use Rattle.fh_leases.specs.Faults as lease_faults;
ghost use Rattle.fh_leases.specs.Outcome as lease_outcome;
ghost use Rattle.fh_timers.specs.Edits as timer_edits;
ghost use Rattle.fh_timers.specs.Outcome as timer_outcome;
ghost use Rattle.fh_dispatch.specs.Faults.{IsQueuesPlanOf, IsBlobsPlanOf, IsLeasesPlanOf, IsTimersPlanOf};
ghost use Rattle.fh_dispatch.specs.Asks.{GivesGoodMasks};
ghost use Rattle.fh_dispatch.specs.Faults as work_faults;
ghost use Rattle.fh_dispatch.specs.Outcome as work_outcome;
ghost use Rattle.fh_dispatch.specs.Asked.{asks_queues, asks_blobs, asks_leases};
ghost use Rattle.fh_dispatch.specs.InWork.{is_busy};
ghost use Rattle.fh_dispatch.specs.Timers.{asks_timers, timer_of};
ghost use Rattle.fh_dispatch.specs.Part.{function_of};
ghost use Rattle.fh_hub.specs.Stores.{Parts, others_of, no_parts, run_made, asked_queues, asked_blobs, asked_leases, asked_timers, outcomes, too_full};
ghost use Rattle.fh_hub.specs.StoreEdits.{parts_of, asks_of, done_of, planned, changed, answered, both_planned, IsPlanOf, made, made_done, IsOutcome, HasNumbers, IsIdle, IsStaged};

use fh_base::{Moment, NoMemory, QueueName, Rule, Text};
use fh_blobs::{BlobAsk, BlobChange, BlobDone, BlobRow, Blobs, StagedBlobs};
use fh_dispatch::{Function, StagedWork, Timer, Work, WorkAsk, WorkChange, WorkDone, WorkPlan};
use fh_event::{Items, Place, PlanFault};
use fh_leases::{LeaseAsk, LeaseChange, LeaseDone, Leases, StagedLeases};
use fh_queues::{QueueAsk, QueueChange, QueueDone, Queues, StagedQueues};
use fh_timers::{StagedTimers, TimerAsk, TimerChange, TimerDone, TimerRun, Timers};
use std::alloc::Global;
use std::marker::Model;

/// The stores.
#[derive(Drop)]
pub struct Stores {
    queues: Queues,
    blobs: Blobs,
    leases: Leases,
    timers: Timers,
    work: Work,
}

impl Model for Stores {
    ghost use Rattle.fh_hub.specs.StoreEdits.{StoresState};

    ghost Value = { StoresState };

    ghost view = { λ s. record { queues = s.queues; blobs = s.blobs; leases = s.leases; timers = s.timers; work = s.work } };
}

/// What is asked of each store.
#[derive(Clone, Copy)]
pub(crate) struct StoreAsks<'a> {
    pub(crate) queues: QueueAsk<'a>,
    pub(crate) blobs: BlobAsk<'a>,
    pub(crate) leases: LeaseAsk<'a>,
    pub(crate) timers: TimerAsk,
    pub(crate) work: WorkAsk<'a>,
}

/// A change of each store. It may be dropped.
#[derive(Drop)]
pub(crate) struct StoreChanges {
    pub(crate) queues: QueueChange,
    pub(crate) blobs: BlobChange,
    pub(crate) leases: LeaseChange,
    pub(crate) timers: TimerChange,
    pub(crate) work: WorkChange,
}

/// A change of each store that has its memory. It has to be settled or unstaged.
pub(crate) struct StagedStores {
    pub(crate) queues: StagedQueues,
    pub(crate) blobs: StagedBlobs,
    pub(crate) leases: StagedLeases,
    pub(crate) timers: StagedTimers,
    pub(crate) work: StagedWork,
}

/// What each store did.
#[derive(Drop)]
pub(crate) struct StoresDone {
    pub(crate) queues: QueueDone,
    pub(crate) blobs: BlobDone,
    pub(crate) leases: LeaseDone,
    pub(crate) timers: TimerDone,
    pub(crate) work: WorkDone,
}

impl Stores {
    /// Nothing yet. Takes no memory.
    pub(crate) fn new(alloc: Global) -> Stores
        ensures parts { parts_of result ≡ no_parts }
        ensures idle { IsIdle result }
    {
        Stores {
            queues: Queues::new(alloc),
            blobs: Blobs::new(alloc),
            leases: Leases::new(alloc),
            timers: Timers::new(alloc),
            work: Work::new(alloc),
        }
    }

    /// Where a message is.
    pub(crate) fn place_of(&self, number: u64, m: Moment) -> Place
        ensures { result ≡ place_of self.now.queues.part number m }
    {
        self.queues.place_of(number, m)
    }

    /// The first visible messages of a queue.
    pub(crate) fn peek(
        &self,
        alloc: Global,
        queue: &QueueName,
        count: u64,
        m: Moment,
    ) -> Result<Items, PlanFault>
        ensures ok { IfOk result
            (λ items. peeked self.now.queues.part queue.now count m ≡ Ok items) }
        ensures err { IfErr result
            (λ fault. IsFaultOf fault (peeked self.now.queues.part queue.now count m)) }
    {
        self.queues.peek(alloc, queue, count, m)
    }

    /// A blob as it is.
    pub(crate) fn get(&self, container: &QueueName, name: &str) -> Option<&BlobRow>
        ensures { option_copied result ≡ blob_of container.now name.now self.now.blobs.part.blobs }
    {
        self.blobs.get(container, name)
    }

    /// The names of a container's blobs whose versions a function hasn't noted.
    pub(crate) fn unnoted(
        &self,
        alloc: Global,
        function: u64,
        container: &QueueName,
    ) -> Result<Vec<Text>, NoMemory>
        ensures { IfOk result (λ names. names.items ≡ unnoted self.now.blobs.part function container.now) }
    {
        self.blobs.unnoted(alloc, function, container)
    }

    /// A function as it is.
    pub(crate) fn function_of(&self, name: &str) -> Option<&Function>
        ensures { option_copied result ≡ function_of name.now self.now.work.part.functions }
    {
        self.work.function_of(name)
    }

    /// The timer of a function.
    pub(crate) fn timer_of(&self, name: &str) -> Option<Timer>
        ensures { result ≡ timer_of name.now self.now.work.part.functions }
    {
        self.work.timer_of(name)
    }

    /// Whether a job of a function is in work.
    pub(crate) fn is_busy(&self, function: u64) -> bool
        ensures { result ≡ is_busy function self.now.work.part }
    {
        self.work.is_busy(function)
    }

    /// The run that the timers would make.
    pub(crate) fn run_made(&self, alloc: Global, ask: &TimerAsk, m: Moment) -> Option<TimerRun>
        ensures { result ≡ run_made (timer_outcome.outcome self.now.timers.part ask.now m) }
    {
        match self.timers.plan(alloc, ask, m) {
            Ok(change) => change.run(),
            Err(_) => unreachable!(),
        }
    }

    /// The changes that asks make at a moment, or the rule that refuses them.
    #[tactic(auto, unfolding(crate::specs::Stores::outcomes))]
    pub(crate) fn plan(
        &self,
        alloc: Global,
        asks: &StoreAsks<'_>,
        m: Moment,
    ) -> Result<StoreChanges, PlanFault>
        requires idle { IsIdle self.now }
        requires numbers { HasNumbers (parts_of self.now) }
        ensures plan { IsPlanOf (parts_of self.now)
            (outcomes (parts_of self.now) (asks_of asks.now) m) result }
        ensures masks { IfOk result
            (λ changes. GivesGoodMasks (asks_of asks.now).work) }
    {
        let WorkPlan {
            work,
            queues,
            blobs,
            leases,
            timers,
        } = self.plan_work(alloc, asks, m)?;
        let timers = self.plan_timers(alloc, timers, asks, m);
        let queues = self.plan_queues(alloc, queues, asks, m);
        let blobs = self.plan_blobs(alloc, blobs, asks, m);
        let leases = self.plan_leases(alloc, leases, asks, m);
        let held = both_planned(blobs, leases);
        let others = both_planned(queues, held);
        match both_planned(timers, others) {
            Ok((timers, (queues, (blobs, leases)))) => Ok(StoreChanges {
                queues,
                blobs,
                leases,
                timers,
                work,
            }),
            Err(fault) => Err(fault),
        }
    }

    // What the work makes of its ask, and asks of timers and queues.
    fn plan_work(
        &self,
        alloc: Global,
        asks: &StoreAsks<'_>,
        m: Moment,
    ) -> Result<WorkPlan, PlanFault>
        requires idle { IsIdle self.now }
        requires numbers { HasNumbers (parts_of self.now) }
        ensures work { work_faults.IsPlanOf self.now.work.part
            (work_outcome.outcome self.now.work.part (others_of (parts_of self.now)) (asks_of asks.now).work m) result }
        ensures queues { IfOk result (λ plan. IsQueuesPlanOf self.now.queues.part
            (asks_queues self.now.work.part (others_of (parts_of self.now)) (asks_of asks.now).work m) m plan.queues) }
        ensures blobs { IfOk result (λ plan. IsBlobsPlanOf self.now.blobs.part
            (asks_blobs self.now.work.part (others_of (parts_of self.now)) (asks_of asks.now).work m) m plan.blobs) }
        ensures leases { IfOk result (λ plan. IsLeasesPlanOf self.now.leases.part
            (asks_leases self.now.work.part (others_of (parts_of self.now)) (asks_of asks.now).work m) m plan.leases) }
        ensures timers { IfOk result (λ plan. IsTimersPlanOf self.now.timers.part
            (asks_timers self.now.work.part (asks_of asks.now).work) m plan.timers) }
        ensures masks { IfOk result (λ plan. GivesGoodMasks (asks_of asks.now).work) }
    {
        self.work.plan(
            alloc,
            &asks.work,
            &self.queues,
            &self.blobs,
            &self.leases,
            &self.timers,
            m,
        )
    }

    // What the timers make of what the work asks of them, or else of what the command asks.
    fn plan_timers(
        &self,
        alloc: Global,
        asked: Option<TimerChange>,
        asks: &StoreAsks<'_>,
        m: Moment,
    ) -> Result<TimerChange, PlanFault>
        requires idle { IsIdle self.now }
        requires asked { IsTimersPlanOf self.now.timers.part
            (asks_timers self.now.work.part (asks_of asks.now).work) m asked }
        ensures { timer_edits.IsPlanOf self.now.timers.part
            (timer_outcome.outcome self.now.timers.part (asked_timers (parts_of self.now) (asks_of asks.now)) m) result }
    {
        match asked {
            Some(change) => Ok(change),
            None => self.timers.plan(alloc, &asks.timers, m),
        }
    }

    // What the queues make of what the work asks of them, or else of what the command asks.
    fn plan_queues(
        &self,
        alloc: Global,
        asked: Option<QueueChange>,
        asks: &StoreAsks<'_>,
        m: Moment,
    ) -> Result<QueueChange, PlanFault>
        requires idle { IsIdle self.now }
        requires numbers { HasNumbers (parts_of self.now) }
        requires asked { IsQueuesPlanOf self.now.queues.part
            (asks_queues self.now.work.part (others_of (parts_of self.now)) (asks_of asks.now).work m) m asked }
        ensures { queue_faults.IsPlanOf self.now.queues.part
            (queue_outcome.outcome self.now.queues.part (asked_queues (parts_of self.now) (asks_of asks.now) m) m) result }
    {
        match asked {
            Some(change) => Ok(change),
            None => self.queues.plan(alloc, &asks.queues, m),
        }
    }

    // What the blobs make of what the work asks of them, or else of what the command asks.
    fn plan_blobs(
        &self,
        alloc: Global,
        asked: Option<BlobChange>,
        asks: &StoreAsks<'_>,
        m: Moment,
    ) -> Result<BlobChange, PlanFault>
        requires idle { IsIdle self.now }
        requires numbers { HasNumbers (parts_of self.now) }
        requires asked { IsBlobsPlanOf self.now.blobs.part
            (asks_blobs self.now.work.part (others_of (parts_of self.now)) (asks_of asks.now).work m) m asked }
        ensures { blob_faults.IsPlanOf self.now.blobs.part
            (blob_outcome.outcome self.now.blobs.part (asked_blobs (parts_of self.now) (asks_of asks.now) m) m) result }
    {
        match asked {
            Some(change) => Ok(change),
            None => self.blobs.plan(alloc, &asks.blobs, m),
        }
    }

    // What the leases make of what the work asks of them, or else of what the command asks.
    fn plan_leases(
        &self,
        alloc: Global,
        asked: Option<LeaseChange>,
        asks: &StoreAsks<'_>,
        m: Moment,
    ) -> Result<LeaseChange, PlanFault>
        requires idle { IsIdle self.now }
        requires asked { IsLeasesPlanOf self.now.leases.part
            (asks_leases self.now.work.part (others_of (parts_of self.now)) (asks_of asks.now).work m) m asked }
        ensures { lease_faults.IsPlanOf self.now.leases.part
            (lease_outcome.outcome self.now.leases.part (asked_leases (parts_of self.now) (asks_of asks.now) m) m) result }
    {
        match asked {
            Some(change) => Ok(change),
            None => self.leases.plan(alloc, &asks.leases, m),
        }
    }

    /// What a store would be too full for.
    #[tactic(auto, unfolding(crate::specs::Stores::too_full))]
    pub(crate) fn too_full(&self, asks: &StoreAsks<'_>, m: Moment) -> Option<Rule>
        ensures { result ≡ too_full (parts_of self.now) (asks_of asks.now) m }
    {
        self.queues.too_full(&asks.queues, m)
    }

    /// Takes all the memory of changes that were planned on these stores as they are, and aren't quiet.
    pub(crate) fn stage(&mut self, changes: StoreChanges) -> Result<StagedStores, NoMemory>
        requires idle { IsIdle self.old }
        requires numbers { HasNumbers (parts_of self.old) }
        requires planned { IsOutcome (parts_of self.old) (changed (parts_of self.old) changes) (answered changes) }
        ensures parts { parts_of self.new ≡ parts_of self.old }
        ensures made { IfOk result (λ staged. made self.new staged ≡ changed (parts_of self.old) changes) }
        ensures done { IfOk result (λ staged. made_done self.new staged ≡ answered changes) }
        ensures staged { IfOk result (λ staged. IsStaged self.new staged) }
        ensures err { OnErr result (IsIdle self.new) }
    {
        let StoreChanges {
            queues,
            blobs,
            leases,
            timers,
            work,
        } = changes;
        let work = match self.work.stage(work) {
            Ok(work) => work,
            Err(fault) => return Err(fault),
        };
        let queues = match self.queues.stage(queues) {
            Ok(queues) => queues,
            Err(fault) => {
                self.work.unstage(work);
                return Err(fault);
            }
        };
        let blobs = match self.blobs.stage(blobs) {
            Ok(blobs) => blobs,
            Err(fault) => {
                self.work.unstage(work);
                self.queues.unstage(queues);
                return Err(fault);
            }
        };
        let leases = match self.leases.stage(leases) {
            Ok(leases) => leases,
            Err(fault) => {
                self.work.unstage(work);
                self.queues.unstage(queues);
                self.blobs.unstage(blobs);
                return Err(fault);
            }
        };
        match self.timers.stage(timers) {
            Ok(timers) => Ok(StagedStores {
                queues,
                blobs,
                leases,
                timers,
                work,
            }),
            Err(fault) => {
                self.work.unstage(work);
                self.queues.unstage(queues);
                self.blobs.unstage(blobs);
                self.leases.unstage(leases);
                Err(fault)
            }
        }
    }

    /// Makes staged changes. Takes no memory.
    pub(crate) fn settle(&mut self, staged: StagedStores) -> StoresDone
        requires { IsStaged self.old staged }
        ensures parts { parts_of self.new ≡ made self.old staged }
        ensures done { done_of result ≡ made_done self.old staged }
        ensures idle { IsIdle self.new }
    {
        let StagedStores {
            queues,
            blobs,
            leases,
            timers,
            work,
        } = staged;
        StoresDone {
            queues: self.queues.settle(queues),
            blobs: self.blobs.settle(blobs),
            leases: self.leases.settle(leases),
            timers: self.timers.settle(timers),
            work: self.work.settle(work),
        }
    }

    /// Lets staged changes go. Takes no memory.
    pub(crate) fn unstage(&mut self, staged: StagedStores)
        requires { IsStaged self.old staged }
        ensures parts { parts_of self.new ≡ parts_of self.old }
        ensures idle { IsIdle self.new }
    {
        let StagedStores {
            queues,
            blobs,
            leases,
            timers,
            work,
        } = staged;
        self.queues.unstage(queues);
        self.blobs.unstage(blobs);
        self.leases.unstage(leases);
        self.timers.unstage(timers);
        self.work.unstage(work);
    }
}

impl StoreChanges {
    /// Whether they were accepted and change nothing.
    pub(crate) fn is_quiet(&self) -> bool
        ensures quiet { (parts : Parts) → result ≡ true → planned parts self.now ≡ Quiets (answered self.now) }
        ensures loud { (parts : Parts) → result ≡ false
            → planned parts self.now ≡ Makes (changed parts self.now) (answered self.now) }
    {
        self.queues.is_quiet()
            || self.blobs.is_quiet()
            || self.timers.is_quiet()
            || self.work.is_quiet()
    }

    /// What is answered.
    pub(crate) fn into_done(self) -> StoresDone
        ensures { done_of result ≡ answered self }
    {
        let StoreChanges {
            queues,
            blobs,
            leases,
            timers,
            work,
        } = self;
        StoresDone {
            queues: queues.into_done(),
            blobs: blobs.into_done(),
            leases: leases.into_done(),
            timers: timers.into_done(),
            work: work.into_done(),
        }
    }
}

// Two plans as one.
fn both_planned<A: Drop, B: Drop>(
    first: Result<A, PlanFault>,
    second: Result<B, PlanFault>,
) -> Result<(A, B), PlanFault>
    ensures { result ≡ both_planned first second }
{
    match (first, second) {
        (Ok(first), Ok(second)) => Ok((first, second)),
        (Err(fault), Ok(_)) | (Ok(_), Err(fault)) => Err(fault),
        (Err(PlanFault::Rule(rule)), Err(PlanFault::Rule(other))) => {
            Err(PlanFault::Rule(first_rule(rule, other)))
        }
        (Err(_), Err(_)) => Err(PlanFault::NoMemory),
    }
}

// Rules are told in order of their numbers.
fn first_rule(rule: Rule, other: Rule) -> Rule
    ensures { result ≡ first_rule rule other }
{
    if rule.number() <= other.number() {
        return rule;
    }
    other
}
