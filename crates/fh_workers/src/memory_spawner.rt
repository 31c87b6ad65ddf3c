// A spawner in memory, which starts nothing and keeps what it was to start.
ghost use Rattle.std.specs.Prelude.{◌≡◌, ◌≤◌, [], Err, OnOk, Some, true, false, length};
ghost use Rattle.fh_base.specs.FaultPlan.{counted, fails_next};
ghost use Rattle.fh_workers.specs.Spawners.{Lists, RunsOneMore, StartHasCause};

use crate::spawner::copy_of;
use crate::{SpawnFault, Spawner, Start};
use fh_app::Handler;
use fh_base::FaultPlan;
use std::alloc::Global;

/// A spawner in memory. It fails exactly at the starts of its plan, and answers `NoMemory` where memory
/// is refused.
#[derive(Drop)]
pub struct MemorySpawner {
    alloc: Global,
    pub starts: Vec<Start>,
    /// How many of the starts a `stop_all` has followed.
    pub stopped: usize,
    pub plan: FaultPlan,
    ghost within: { stopped ≤ length starts.items },
}

impl MemorySpawner {
    /// Nothing was started yet.
    pub fn new(alloc: Global, plan: FaultPlan) -> MemorySpawner
        ensures starts { result.starts.items ≡ [] }
        ensures stopped { result.stopped ≡ 0 }
        ensures plan { result.plan ≡ plan }
    {
        MemorySpawner {
            alloc,
            starts: Vec::new(alloc),
            stopped: 0,
            plan,
        }
    }
}

impl Spawner for MemorySpawner {
    ghost use Rattle.fh_workers.specs.MemorySpawners.{running_of};

    ghost starts = { λ s. Some s.starts.items };

    ghost running = { λ s. running_of s };

    ghost spawn_faults = { λ s. s.plan.faults };

    fn start(&mut self, handler: &Handler, port: u16) -> Result<(), SpawnFault>
        ensures listed { Lists (record { handler = handler.now; port = port }) (Some self.old.starts.items) (Some self.new.starts.items) result }
        ensures running { RunsOneMore (running_of self.old) (running_of self.new) result }
        ensures passes { OnOk result (fails_next self.old.plan ≡ false) }
        ensures fails { result ≡ Err SpawnFault.Failed → fails_next self.old.plan ≡ true }
        ensures plan { self.new.plan ≡ counted self.old.plan }
        ensures cause { StartHasCause self.old.plan.faults self.new.plan.faults result }
        ensures stopped { self.new.stopped ≡ self.old.stopped }
    {
        if self.plan.fails_now() {
            return Err(SpawnFault::Failed);
        }
        let Ok(handler) = copy_of(self.alloc, handler) else {
            return Err(SpawnFault::NoMemory);
        };
        match self.starts.push(Start { handler, port }) {
            Ok(()) => Ok(()),
            Err(_) => Err(SpawnFault::NoMemory),
        }
    }

    fn stop_all(&mut self)
        ensures none { running_of self.new ≡ 0 }
        ensures starts { self.new.starts ≡ self.old.starts }
        ensures plan { self.new.plan ≡ self.old.plan }
    {
        self.stopped = self.starts.len();
    }
}
