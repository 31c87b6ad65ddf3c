// How a planned change is staged, and then settled or let go.
ghost use Rattle.std.specs.Prelude.{◌≡◌, IfOk, OnErr};
ghost use Rattle.fh_timers.specs.Acts.{acted};
ghost use Rattle.fh_timers.specs.Edits.{IsIdle, IsStaged, made};

use crate::act::Act;
use crate::row::Number;
use crate::{StagedTimers, TimerChange, TimerDone, Timers};
use fh_base::NoMemory;

impl Timers {
    /// Takes all the memory of a change that isn't quiet.
    pub fn stage(&mut self, change: TimerChange) -> Result<StagedTimers, NoMemory>
        requires { IsIdle self.old }
        ensures part { self.new.part ≡ self.old.part }
        ensures change { IfOk result
            (λ staged. made self.new staged ≡ (acted self.old.part change.act, change.done)) }
        ensures staged { IfOk result (λ staged. IsStaged self.new staged) }
        ensures err { OnErr result (IsIdle self.new) }
    {
        let TimerChange { act, done } = change;
        // A change adds one row at most.
        self.rows.reserve(1)?;
        Ok(StagedTimers { act, done })
    }

    /// Makes a staged change. Takes no memory.
    #[tactic(auto, unfolding(crate::specs::Acts::acted))]
    pub fn settle(&mut self, staged: StagedTimers) -> TimerDone
        requires { IsStaged self.old staged }
        ensures after { (self.new.part, result) ≡ made self.old staged }
        ensures idle { IsIdle self.new }
    {
        let StagedTimers { act, done } = staged;
        match act {
            Act::Keep => {}
            Act::Set { row } => self.rows.set(row),
            Act::Remove { function } => self.rows.remove(&Number { function }),
        }
        done
    }

    /// Lets a staged change go. Takes no memory.
    pub fn unstage(&mut self, staged: StagedTimers)
        requires { IsStaged self.old staged }
        ensures part { self.new.part ≡ self.old.part }
        ensures idle { IsIdle self.new }
    {
        let StagedTimers { act: _, done: _ } = staged;
    }
}
