// How a planned change is staged, and then settled or let go.
ghost use Rattle.std.specs.Prelude.{◌≡◌, ◌+◌, ◌<◌, ◌≤◌, ◌^◌, IfOk, OnErr};
ghost use Rattle.fh_dispatch.specs.Acts.{by_acts, acted, next_after};
ghost use Rattle.fh_dispatch.specs.Edits.{HasNumbers, IsIdle, IsStaged, made};

use crate::act::Act;
use crate::{StagedWork, Work, WorkChange, WorkDone};
use fh_base::NoMemory;

impl Work {
    /// Takes all the memory of a change that isn't quiet.
    pub fn stage(&mut self, change: WorkChange) -> Result<StagedWork, NoMemory>
        requires idle { IsIdle self.old }
        requires numbers { HasNumbers self.old.part }
        ensures part { self.new.part ≡ self.old.part }
        ensures change { IfOk result
            (λ staged. made self.new staged ≡ (by_acts self.old.part change.acts, change.done)) }
        ensures staged { IfOk result (λ staged. IsStaged self.new staged) }
        ensures err { OnErr result (IsIdle self.new) }
    {
        let WorkChange {
            quiet: _,
            acts,
            done,
        } = change;
        // Each act adds one function, one job or one invocation at most.
        self.functions.reserve(acts.len())?;
        self.ready.reserve(acts.len())?;
        self.running.reserve(acts.len())?;
        Ok(StagedWork { acts, done })
    }

    /// Makes a staged change. Takes no memory.
    pub fn settle(&mut self, staged: StagedWork) -> WorkDone
        requires { IsStaged self.old staged }
        ensures after { (self.new.part, result) ≡ made self.old staged }
        ensures idle { IsIdle self.new }
    {
        let StagedWork { acts, done } = staged;
        for act in acts {
            self.act(act);
        }
        done
    }

    /// Lets a staged change go. Takes no memory.
    pub fn unstage(&mut self, staged: StagedWork)
        requires { IsStaged self.old staged }
        ensures part { self.new.part ≡ self.old.part }
        ensures idle { IsIdle self.new }
    {
        let StagedWork { acts: _, done: _ } = staged;
    }

    #[tactic(auto, unfolding(crate::specs::Acts::acted))]
    fn act(&mut self, act: Act)
        requires room { 1 ≤ self.old.room }
        requires job_room { 1 ≤ self.old.job_room }
        requires run_room { 1 ≤ self.old.run_room }
        requires numbers { self.old.part.next_function + 1 < 2 ^ 64 }
        requires sessions { self.old.part.session + 1 < 2 ^ 64 }
        ensures part { self.new.part ≡ acted self.old.part act }
        ensures room { self.old.room ≤ self.new.room + 1 }
        ensures job_room { self.old.job_room ≤ self.new.job_room + 1 }
        ensures run_room { self.old.run_room ≤ self.new.run_room + 1 }
        ensures numbers { self.new.part.next_function ≤ self.old.part.next_function + 1 }
        ensures sessions { self.new.part.session ≤ self.old.part.session + 1 }
    {
        match act {
            Act::Set { function } => {
                self.next_function = next_after(self.next_function, function.number);
                self.functions.set(function);
            }
            Act::AddJob { job } => self.ready.add(job),
            Act::TakeFirst { function } => self.ready.take_first(function),
            Act::AddRunning { run } => {
                let invocation = self.running.next();
                self.running.begin(run.numbered(invocation));
            }
            Act::EndRunning { invocation } => self.running.finish(invocation),
            Act::RenewRunning {
                invocation,
                receipt,
                due,
            } => self.running.renew(invocation, receipt, due),
            Act::DropJobs { function } => {
                self.ready.drop_of(function);
                self.running.drop_of(function);
            }
            Act::BeginSession => {
                self.ready.clear();
                self.running.clear();
                self.session += 1;
            }
        }
    }
}

// The next function number after this number was given.
fn next_after(next: u64, number: u64) -> u64
    requires { next + 1 < 2 ^ 64 }
    ensures next { result ≡ next_after next number }
    ensures few { result ≤ next + 1 }
{
    if number == next {
        return next + 1;
    }
    next
}
