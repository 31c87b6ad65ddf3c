// How a journal is mounted: its frames are read, and their entries are replayed.
ghost use Rattle.std.specs.Prelude.{◌≡◌, ◌⊎◌, ◌≤◌, ◌∷◌, ◌++◌, [], false, List, ℕ, None, Some, IfOk, IfErr, OnOk, OnErr, IfSome};
ghost use Rattle.fh_disk.specs.Disk.{OnlyTold, StaysTold};
ghost use Rattle.fh_journal.specs.Frames.{payloads_of as payloads_in, frames_from};
ghost use Rattle.fh_journal.specs.Journal.{first_gate};
ghost use Rattle.fh_journal.specs.Mounting.{IsBeingMade};
ghost use Rattle.fh_hub.specs.Replay.{Entry, entry_for, payloads_of};
ghost use Rattle.fh_event.specs.Entries.{IsEntry};
ghost use Rattle.fh_hub.specs.History.{entry_of};
ghost use Rattle.fh_hub.specs.State.{IsIdle, IsFaithful, world_of};
ghost use Rattle.fh_hub.specs.Plans.{IsPlannedAs};
ghost use Rattle.fh_hub.specs.Hub.{KeepsHistory, NewImagesHave, StandsForHistory};
ghost use Rattle.fh_hub.specs.Mounting.{CountsFaults, HasEntryReason, HasPlanReason, HasReadReason, HasReplayReason, MountsHistory, UnlessDiskFault};

use crate::faults::{EntryFault, HubFault};
use crate::plan::{Change, Plan};
use crate::state::State;
use fh_base::{Bytes, Moment, NoMemory};
use fh_disk::Disk;
use fh_event::{Command, EventFault, decode};
use fh_journal::Frame;
use std::alloc::Global;

/// Mounts a journal: its frames are read, and their entries are replayed. It begins with a sync. A file of
/// at most 7 bytes stands for no entries, and is made anew where it isn't exactly that; nothing else is
/// written, and a file that is refused stays as it is.
#[tactic(auto, using(crate::proofs::Mounted::frames_refused, crate::proofs::Mounted::keeps_whole, crate::proofs::Mounted::stood))]
pub fn prepare<J: Disk>(alloc: Global, disk: &mut J) -> Result<State, HubFault>
    ensures stands { IfOk result (λ state. (failed : Entry) → KeepsHistory (J.told disk.new)
        (J.may_leave disk.new) false state.history failed state.gate) }
    ensures faithful { IfOk result IsFaithful }
    ensures idle { IfOk result IsIdle }
    ensures durable { UnlessDiskFault (OnlyTold (J.told disk.new) (J.may_leave disk.new)) result }
    ensures stood { IfOk result (λ state. IfSome (J.told disk.old) (StandsForHistory state.history)) }
    ensures mounted { OnOk result (MountsHistory (J.told disk.old) (J.told disk.new) None) }
    ensures refused { IfErr result
        (λ fault. MountsHistory (J.told disk.old) (J.told disk.new) (Some fault)) }
    ensures counted { CountsFaults (J.disk_faults disk.old) (J.disk_faults disk.new) result }
    ensures any_moment { NewImagesHave J.Disk disk.old disk.new
        (λ c. IfSome (J.told disk.old) (λ file. IsBeingMade file c)) }
    ensures same_history { (history : List Entry) → IfSome (J.told disk.old) (StandsForHistory history)
        → NewImagesHave J.Disk disk.old disk.new (StandsForHistory history) }
    ensures told { StaysTold (J.told disk.old) (J.told disk.new) }
    ensures count { J.disk_faults disk.old ≤ J.disk_faults disk.new }
{
    let prepared = fh_journal::prepare(alloc, disk)?;
    replayed(alloc, prepared.frames.into_vec())
}

// The state that the entries of frames give.
fn replayed(alloc: Global, frames: Vec<Frame>) -> Result<State, HubFault>
    requires { frames.items ≡ frames_from first_gate (payloads_in frames.items) }
    ensures history { IfOk result (λ state. payloads_of state.history ≡ payloads_in frames.items) }
    ensures faithful { IfOk result IsFaithful }
    ensures idle { IfOk result IsIdle }
    ensures reason { IfErr result (HasReplayReason (payloads_in frames.items)) }
{
    let mut state = State::new(alloc);
    match state.replay(alloc, frames) {
        Ok(()) => Ok(state),
        Err(fault) => Err(fault),
    }
}

impl State {
    // Replays the entries of frames from the first on.
    fn replay(&mut self, alloc: Global, frames: Vec<Frame>) -> Result<(), HubFault>
        requires begun { self.old.history ≡ [] }
        requires idle { IsIdle self.old }
        requires faithful { IsFaithful self.old }
        requires places { frames.items ≡ frames_from first_gate (payloads_in frames.items) }
        ensures history { OnOk result (payloads_of self.new.history ≡ payloads_in frames.items) }
        ensures faithful { IsFaithful self.new }
        ensures idle { IsIdle self.new }
        ensures reason { IfErr result (HasReplayReason (payloads_in frames.items)) }
    {
        for frame in frames {
            let Frame { at, payload } = frame;
            if let Err(fault) = self.replay_entry(alloc, payload) {
                return Err(fault.at(at));
            }
        }
        Ok(())
    }

    // Replays the entry that a payload spells.
    fn replay_entry(&mut self, alloc: Global, payload: Bytes) -> Result<(), EntryFault>
        requires idle { IsIdle self.old }
        requires faithful { IsFaithful self.old }
        ensures history { OnOk result
            (payloads_of self.new.history ≡ payloads_of self.old.history ++ payload ∷ []) }
        ensures refused { OnErr result (self.new.history ≡ self.old.history) }
        ensures faithful { IsFaithful self.new }
        ensures idle { IsIdle self.new }
        ensures reason { IfErr result (HasEntryReason self.old.history payload) }
    {
        let (moment, command) = entry_of(alloc, payload.as_slice())?;
        self.record(alloc, &command, moment, payload)
    }

    // Records a command that acts at its own moment, and whose entry has these bytes.
    fn record(
        &mut self,
        alloc: Global,
        command: &Command,
        moment: Moment,
        payload: Bytes,
    ) -> Result<(), EntryFault>
        requires idle { IsIdle self.old }
        requires faithful { IsFaithful self.old }
        requires spelled { IsEntry payload moment command.now }
        requires entry { entry_of payload ≡ entry_for command.now moment }
        ensures history { OnOk result
            (self.new.history ≡ self.old.history ++ entry_for command.now moment ∷ []) }
        ensures refused { OnErr result (self.new.history ≡ self.old.history) }
        ensures faithful { IsFaithful self.new }
        ensures idle { IsIdle self.new }
        ensures reason { IfErr result (HasPlanReason (world_of self.old) (entry_for command.now moment)) }
    {
        let change = self.plan_entry(alloc, command, moment)?;
        Ok(self.make(change, payload)?)
    }

    // The change of an entry that is recorded at its own moment.
    fn plan_entry(
        &self,
        alloc: Global,
        command: &Command,
        moment: Moment,
    ) -> Result<Change, EntryFault>
        requires { IsIdle self.now }
        ensures change { IfOk result (λ change. IsPlannedAs self.now change (entry_for command.now moment)
            × (change.moment ≡ moment)) }
        ensures reason { IfErr result (HasPlanReason (world_of self.now) (entry_for command.now moment)) }
    {
        if moment.ms() < self.last() {
            return Err(EntryFault::Refused);
        }
        match self.plan(alloc, command, moment.ms())? {
            Plan::Records(change) => Ok(change),
            Plan::Reads(_) | Plan::Quiet(_) => Err(EntryFault::Refused),
        }
    }

    // Makes a change whose entry has these bytes at once.
    fn make(&mut self, change: Change, payload: Bytes) -> Result<(), NoMemory>
        ghost e: { Entry }
        requires idle { IsIdle self.old }
        requires faithful { IsFaithful self.old }
        requires planned { IsPlannedAs self.old change e }
        requires moment { change.moment ≡ e.moment }
        requires spelled { IsEntry payload e.moment e.command }
        ensures history { OnOk result (self.new.history ≡ self.old.history ++ e ∷ []) }
        ensures refused { OnErr result (self.new.history ≡ self.old.history) }
        ensures faithful { IsFaithful self.new }
        ensures idle { IsIdle self.new }
    {
        let staged = self.stage(change, payload)?;
        let _reply = self.settle(staged);
        Ok(())
    }
}

// The moment and the command that bytes spell.
fn entry_of(alloc: Global, bytes: &[u8]) -> Result<(Moment, Command), EntryFault>
    ensures spelled { IfOk result (λ e. IsEntry bytes.now e.0 e.1) }
    ensures entry { IfOk result (λ e. entry_of bytes.now ≡ entry_for e.1 e.0) }
    ensures reason { IfErr result (HasReadReason bytes.now) }
{
    match decode(alloc, bytes) {
        Ok(entry) => Ok(entry),
        Err(EventFault::NoMemory) => Err(EntryFault::NoMemory),
        Err(fault) => Err(EntryFault::Event(fault)),
    }
}
