// How a planned change is staged, and then settled or let go.
ghost use Rattle.std.specs.Prelude.{◌≡◌, ◌+◌, ◌≤◌, IfOk, OnErr};
ghost use Rattle.fh_leases.specs.Acts.{by_acts, acted};
ghost use Rattle.fh_leases.specs.Edits.{IsIdle, IsStaged, made};

use crate::act::Act;
use crate::lease::Name;
use crate::{LeaseChange, LeaseDone, Leases, StagedLeases};
use fh_base::NoMemory;

impl Leases {
    /// Takes all the memory of a change.
    pub fn stage(&mut self, change: LeaseChange) -> Result<StagedLeases, NoMemory>
        requires { IsIdle self.old }
        ensures part { self.new.part ≡ self.old.part }
        ensures change { IfOk result
            (λ staged. made self.new staged ≡ (by_acts self.old.part change.acts, change.done)) }
        ensures staged { IfOk result (λ staged. IsStaged self.new staged) }
        ensures err { OnErr result (IsIdle self.new) }
    {
        let LeaseChange { acts, done } = change;
        // Each act adds one lease at most.
        self.rows.reserve(acts.len())?;
        Ok(StagedLeases { acts, done })
    }

    /// Makes a staged change. Takes no memory.
    pub fn settle(&mut self, staged: StagedLeases) -> LeaseDone
        requires { IsStaged self.old staged }
        ensures after { (self.new.part, result) ≡ made self.old staged }
        ensures idle { IsIdle self.new }
    {
        let StagedLeases { acts, done } = staged;
        for act in acts {
            self.act(act);
        }
        done
    }

    /// Lets a staged change go. Takes no memory.
    pub fn unstage(&mut self, staged: StagedLeases)
        requires { IsStaged self.old staged }
        ensures part { self.new.part ≡ self.old.part }
        ensures idle { IsIdle self.new }
    {
        let StagedLeases { acts: _, done: _ } = staged;
    }

    #[tactic(auto, unfolding(crate::specs::Acts::acted))]
    fn act(&mut self, act: Act)
        requires { 1 ≤ self.old.room }
        ensures part { self.new.part ≡ acted self.old.part act }
        ensures room { self.old.room ≤ self.new.room + 1 }
    {
        match act {
            Act::Set { lease } => self.rows.set(lease),
            Act::Remove { name } => self.rows.remove(&Name {
                name: name.as_str(),
            }),
        }
    }
}
