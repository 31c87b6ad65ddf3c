// The hub over a journal.
ghost use Rattle.std.specs.Prelude.{◌≡◌};
ghost use Rattle.fh_hub.specs.State.{IsIdle};

use crate::faults::HubFault;
use crate::history::History;
use crate::mounting::prepare;
use crate::plan::{Change, Plan};
use crate::state::{State, payload_of};
use fh_base::{Bytes, Moment};
use fh_disk::Disk;
use fh_event::{Command, Place, Reply, StepFault};
use fh_journal::Journal;
use std::alloc::Global;

/// A hub: what it keeps in memory, and the journal over a disk that is lent.
#[derive(Drop)]
pub struct Hub<'d, J: Disk> {
    pub journal: Journal<'d, J>,
    pub state: State,
    pub ghost idle: { IsIdle state },
    pub ghost gates: { journal.gate ≡ state.gate },
}

impl<'d, J: Disk> Hub<'d, J> {
    ghost use Rattle.std.specs.Prelude.{◌≡◌, ◌⊎◌, ⊤, ◌≤◌, ◌∷◌, ◌++◌, [], true, false, List, None, Some, IfOk, IfErr, OnOk, OnErr, IfSome, IsErrOf, MatchResult};
    ghost use Rattle.fh_base.specs.Faults.{Rose};
    ghost use Rattle.fh_base.specs.Moments.{greatest_moment};
    ghost use Rattle.fh_disk.specs.Disk.{OnlyTold, StaysTold};
    ghost use Rattle.fh_journal.specs.Mounting.{IsBeingMade};
    ghost use Rattle.fh_queues.specs.Places.{place_of};
    ghost use Rattle.fh_hub.specs.World.{Recorded, step, effective_moment};
    ghost use Rattle.fh_event.specs.Entries.{IsEntry};
    ghost use Rattle.fh_hub.specs.Replay.{Entry, world_after, noted, IsLegal};
    ghost use Rattle.fh_hub.specs.State.{world_of, IsFaithful, IsIdle, IsUnchanged};
    ghost use Rattle.fh_hub.specs.Plans.{entry_at, IsPlannedAs};
    ghost use Rattle.fh_hub.specs.Hub.{Answers, HasStepCause, IsDurable, KeepsHistory, KeepsIn, LeavesSince, MayStandFor, NewImagesHave, StandsForHistory, faults_of, is_recorded};
    ghost use Rattle.fh_hub.specs.Mounting.{CountsFaults, MountsHistory, UnlessDiskFault};

    /// The hub over a disk whose journal was prepared. Takes no memory.
    pub fn over(alloc: Global, disk: &'d mut J, state: State) -> Hub<'d, J>
        requires { IsIdle state }
        ensures same { result.journal.disk.ghost_name ≡ disk.entry.ghost_name }
        ensures disk { result.journal.disk.now ≡ disk.entry.now }
        ensures state { result.state ≡ state }
        ensures gate { result.journal.gate ≡ state.gate }
        ensures whole { result.journal.torn ≡ false }
        ensures keeps { (failed : Entry)
            → KeepsHistory (J.told disk.entry.now) (J.may_leave disk.entry.now) false
            state.history failed state.gate
            → KeepsIn result failed }
    {
        Hub {
            journal: Journal::over(alloc, disk, state.gate()),
            state,
        }
    }

    /// Mounts the journal of a disk, by `prepare` and `over`. Beside a fault it gives the disk back.
    pub fn mount(alloc: Global, disk: &'d mut J) -> Result<Hub<'d, J>, (HubFault, &'d mut J)>
        ensures stands { IfOk result (λ hub. (failed : Entry) → KeepsIn hub failed) }
        ensures faithful { IfOk result (λ hub. IsFaithful hub.state) }
        ensures whole { IfOk result (λ hub. hub.journal.torn ≡ false) }
        ensures durable { MatchResult result
            IsDurable
            (λ refused. UnlessDiskFault {T = ⊤}
            (OnlyTold (J.told refused.1.now) (J.may_leave refused.1.now)) (Err refused.0)) }
        ensures stood { IfOk result
            (λ hub. IfSome (J.told disk.entry.now) (StandsForHistory hub.state.history)) }
        ensures mounted { IfOk result
            (λ hub. MountsHistory (J.told disk.entry.now) (J.told hub.journal.disk.now) None) }
        ensures refused { IfErr result
            (λ refused. MountsHistory (J.told disk.entry.now) (J.told refused.1.now) (Some refused.0)) }
        ensures passed { IfOk result (λ hub. faults_of hub ≡ J.disk_faults disk.entry.now) }
        ensures counted { IfErr result (λ refused. CountsFaults {T = ⊤}
            (J.disk_faults disk.entry.now) (J.disk_faults refused.1.now) (Err refused.0)) }
        ensures any_moment { MatchResult result
            (λ hub. NewImagesHave J.Disk disk.entry.now hub.journal.disk.now
            (λ c. IfSome (J.told disk.entry.now) (λ file. IsBeingMade file c)))
            (λ refused. NewImagesHave J.Disk disk.entry.now refused.1.now
            (λ c. IfSome (J.told disk.entry.now) (λ file. IsBeingMade file c))) }
        ensures same_history { (history : List Entry)
            → IfSome (J.told disk.entry.now) (StandsForHistory history) → MatchResult result
            (λ hub. NewImagesHave J.Disk disk.entry.now hub.journal.disk.now (StandsForHistory history))
            (λ refused. NewImagesHave J.Disk disk.entry.now refused.1.now (StandsForHistory history)) }
        ensures count { MatchResult result (λ hub. J.disk_faults disk.entry.now ≤ faults_of hub)
            (λ refused. J.disk_faults disk.entry.now ≤ J.disk_faults refused.1.now) }
        ensures same { MatchResult result (λ hub. hub.journal.disk.ghost_name ≡ disk.entry.ghost_name)
            (λ refused. refused.1.ghost_name ≡ disk.entry.ghost_name) }
    {
        match prepare(alloc, disk) {
            Ok(state) => Ok(Hub::over(alloc, disk, state)),
            Err(fault) => Err((fault, disk)),
        }
    }

    /// The history.
    pub fn history(&self) -> &History
        ensures { result.now.entries ≡ self.now.state.history }
    {
        self.state.history()
    }

    /// Where a message is, at the greater of the moment handed in, in milliseconds, and that of the last
    /// entry. Takes no memory.
    pub fn place_of(&self, number: u64, now: u64) -> Place
        requires { now ≤ greatest_moment }
        ensures { result
            ≡ place_of self.now.state.stores.queues.part number (effective_moment (world_of self.now.state) now) }
    {
        let now = Moment::new(now).unwrap();
        self.state.place_of(number, now)
    }

    /// Gives the disk back.
    pub fn close(self) -> &'d mut J
        ensures same { result.ghost_name ≡ self.entry.journal.disk.ghost_name }
        ensures disk { result.now ≡ self.entry.journal.disk.now }
    {
        let journal = self.journal;
        journal.close()
    }

    /// Makes one step at a moment in milliseconds. All memory is taken before the first call on the disk; a
    /// step that isn't recorded makes none. After any fault the world and the history are as before.
    #[tactic(auto, using(fh_disk::proofs::Told::stays_as_told))]
    pub fn step(&mut self, alloc: Global, command: &Command, now: u64) -> Result<Reply, StepFault>
        ensures answers { Answers result (step (world_of self.old.state) command.now now)
            (faults_of self.old) (faults_of self.new) }
        ensures world { OnOk result (world_of self.new.state
            ≡ world_after (world_of self.old.state) (step (world_of self.old.state) command.now now)) }
        ensures history { OnOk result (self.new.state.history
            ≡ self.old.state.history ++ noted (world_of self.old.state) command.now now) }
        ensures faithful { IsFaithful self.old.state → IsFaithful self.new.state }
        ensures legal { IsErrOf result StepFault.DiskFault → IsFaithful self.old.state
            → IsLegal (self.old.state.history ++ entry_at self.old.state command.now now ∷ []) }
        ensures fault { OnErr result (IsUnchanged self.old.state self.new.state) }
        ensures untouched { is_recorded (step (world_of self.old.state) command.now now) ≡ false
            → (self.new.journal.disk.now ≡ self.old.journal.disk.now)
            × (self.new.journal.torn ≡ self.old.journal.torn) }
        ensures passed { OnOk result (faults_of self.new ≡ faults_of self.old) }
        ensures memory { IsErrOf result StepFault.NoMemory
            → (self.new.journal.disk.now ≡ self.old.journal.disk.now)
            × (self.new.journal.torn ≡ self.old.journal.torn) }
        ensures keeps { (failed : Entry) → KeepsIn self.old failed
            → KeepsIn self.new failed ⊎ KeepsIn self.new (entry_at self.old.state command.now now) }
        ensures durable { is_recorded (step (world_of self.old.state) command.now now) ≡ true
            → OnOk result (IsDurable self.new) }
        ensures mended { is_recorded (step (world_of self.old.state) command.now now) ≡ true
            → OnOk result (self.new.journal.torn ≡ false) }
        ensures whole { OnOk result (self.old.journal.torn ≡ false → self.new.journal.torn ≡ false) }
        ensures told { StaysTold (J.told self.old.journal.disk.now) (J.told self.new.journal.disk.now) }
        ensures any_moment { (failed : Entry) → KeepsIn self.old failed → LeavesSince self.old self.new
            (MayStandFor self.old.journal.torn self.old.state.history failed
            (noted (world_of self.old.state) command.now now)) }
        ensures count { faults_of self.old ≤ faults_of self.new }
        ensures same { self.new.journal.disk.ghost_name ≡ self.old.journal.disk.ghost_name }
    {
        match self.state.plan(alloc, command, now)? {
            Plan::Reads(reply) | Plan::Quiet(reply) => Ok(reply),
            Plan::Records(change) => {
                let payload = payload_of(alloc, command, change.moment)?;
                self.record(change, payload)
            }
        }
    }

    // Records a change: it is staged, its entry is appended, and then it is settled.
    #[tactic(auto, using(fh_disk::proofs::Told::stays_as_told))]
    fn record(&mut self, change: Change, payload: Bytes) -> Result<Reply, StepFault>
        ghost e: { Entry }
        requires planned { IsPlannedAs self.old.state change e }
        requires moment { change.moment ≡ e.moment }
        requires spelled { IsEntry payload e.moment e.command }
        ensures reply { IfOk result (λ reply. step (world_of self.old.state) e.command e.moment
            ≡ Recorded (world_of self.new.state) reply) }
        ensures history { OnOk result (self.new.state.history ≡ self.old.state.history ++ e ∷ []) }
        ensures faithful { IsFaithful self.old.state → IsFaithful self.new.state }
        ensures legal { IsFaithful self.old.state → IsLegal (self.old.state.history ++ e ∷ []) }
        ensures fault { OnErr result (IsUnchanged self.old.state self.new.state) }
        ensures passed { OnOk result (faults_of self.new ≡ faults_of self.old) }
        ensures memory { IsErrOf result StepFault.NoMemory
            → (self.new.journal.disk.now ≡ self.old.journal.disk.now)
            × (self.new.journal.torn ≡ self.old.journal.torn) }
        ensures cause { IfErr result (HasStepCause (faults_of self.old) (faults_of self.new)) }
        ensures keeps { (failed : Entry) → KeepsIn self.old failed
            → KeepsIn self.new failed ⊎ KeepsIn self.new e }
        ensures durable { OnOk result (IsDurable self.new) }
        ensures whole { OnOk result (self.new.journal.torn ≡ false) }
        ensures told { StaysTold (J.told self.old.journal.disk.now) (J.told self.new.journal.disk.now) }
        ensures any_moment { (failed : Entry) → KeepsIn self.old failed → LeavesSince self.old self.new
            (MayStandFor self.old.journal.torn self.old.state.history failed (e ∷ [])) }
        ensures count { faults_of self.old ≤ faults_of self.new }
        ensures same { self.new.journal.disk.ghost_name ≡ self.old.journal.disk.ghost_name }
    {
        let staged = self.state.stage(change, payload)?;
        let payload = staged.payload.as_slice();
        if self.journal.reserve(payload.len()).is_err() {
            self.state.unstage(staged);
            return Err(StepFault::NoMemory);
        }
        match self.journal.append(payload) {
            Ok(_) => Ok(self.state.settle(staged)),
            Err(_) => {
                self.state.unstage(staged);
                Err(StepFault::DiskFault)
            }
        }
    }
}
