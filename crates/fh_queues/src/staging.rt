// How a planned change is staged, and then settled or let go.
ghost use Rattle.std.specs.Prelude.{◌≡◌, IfOk, OnErr};
ghost use Rattle.fh_queues.specs.Acts.{by_acts};
ghost use Rattle.fh_queues.specs.Edits.{HasNumbers, IsIdle, IsStaged, IsOutcome, made};

use crate::{QueueChange, QueueDone, Queues, StagedQueues};
use fh_base::NoMemory;

impl Queues {
    /// Takes all the memory of a change that was planned on these queues as they are, and isn't quiet.
    pub fn stage(&mut self, change: QueueChange) -> Result<StagedQueues, NoMemory>
        requires idle { IsIdle self.old }
        requires numbers { HasNumbers self.old.part }
        requires planned { IsOutcome self.old.part (by_acts self.old.part change.acts, change.done) }
        ensures part { self.new.part ≡ self.old.part }
        ensures change { IfOk result
            (λ staged. made self.new staged ≡ (by_acts self.old.part change.acts, change.done)) }
        ensures staged { IfOk result (λ staged. IsStaged self.new staged) }
        ensures err { OnErr result (IsIdle self.new) }
    {
        let QueueChange { acts, done } = change;
        self.lists.reserve(&acts)?;
        self.ahead = Some(acts);
        Ok(StagedQueues { done })
    }

    /// Makes a staged change. Takes no memory.
    pub fn settle(&mut self, staged: StagedQueues) -> QueueDone
        requires { IsStaged self.old staged }
        ensures after { (self.new.part, result) ≡ made self.old staged }
        ensures idle { IsIdle self.new }
    {
        let StagedQueues { done } = staged;
        if let Some(acts) = self.ahead.take() {
            self.lists.act_all(acts);
        }
        done
    }

    /// Lets a staged change go. Takes no memory.
    pub fn unstage(&mut self, staged: StagedQueues)
        requires { IsStaged self.old staged }
        ensures part { self.new.part ≡ self.old.part }
        ensures idle { IsIdle self.new }
    {
        let StagedQueues { done: _ } = staged;
        self.ahead = None;
    }
}
