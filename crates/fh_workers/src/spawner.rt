// How workers are started.
ghost use Rattle.std.specs.Prelude.{◌≡◌, ◌∷◌, ◌++◌, [], ℕ, List, Option, IfOk, OnOk};
ghost use Rattle.fh_workers.specs.Spawners.{Lists, RunsOneMore, StartHasCause};

use fh_app::Handler;
use fh_base::{NoMemory, Text, Texts};
use std::alloc::Global;

/// A worker's start: what was started, and the port that it was given.
#[derive(Drop)]
pub struct Start {
    pub handler: Handler,
    pub port: u16,
}

/// Why a worker wasn't started.
#[derive(Clone, Copy, Debug, PartialEq, Eq)]
pub enum SpawnFault {
    Failed,
    NoMemory,
}

/// Starts workers, and stops them all.
pub trait Spawner {
    ghost use Rattle.fh_workers.specs.declared.spawner.Start.{Start};

    /// The starts that succeeded, in order, where the spawner tells.
    ghost starts: { Self → Option (List Start) };

    /// How many of them no `stop_all` has followed.
    ghost running: { Self → ℕ };

    /// How often a start has failed.
    ghost spawn_faults: { Self → ℕ };

    /// Starts a worker for this port.
    fn start(&mut self, handler: &Handler, port: u16) -> Result<(), SpawnFault>
        ensures listed { Lists (record { handler = handler.now; port = port }) (starts self.old) (starts self.new) result }
        ensures running { RunsOneMore (running self.old) (running self.new) result }
        ensures cause { StartHasCause (spawn_faults self.old) (spawn_faults self.new) result };

    /// Stops all workers that were started, and waits for their ends.
    fn stop_all(&mut self)
        ensures none { running self.new ≡ 0 }
        ensures listed { starts self.new ≡ starts self.old }
        ensures faults { spawn_faults self.new ≡ spawn_faults self.old };
}

// Another handler that is the same.
pub(crate) fn copy_of(alloc: Global, handler: &Handler) -> Result<Handler, NoMemory>
    ensures { IfOk result (λ own. own ≡ handler.now) }
{
    let path = handler.path.copy(alloc)?;
    let directory = handler.directory.copy(alloc)?;
    let arguments = copies_of(alloc, handler.arguments.as_slice())?;
    Ok(Handler {
        path,
        directory,
        arguments,
        forwarding: handler.forwarding,
    })
}

fn copies_of(alloc: Global, texts: &[Text]) -> Result<Texts, NoMemory>
    ensures { IfOk result (λ own. own ≡ texts.now) }
{
    let mut copies = Vec::new(alloc);
    for text in texts {
        add_copy(alloc, &mut copies, text)?;
    }
    Ok(Texts::from_vec(copies))
}

fn add_copy(alloc: Global, copies: &mut Vec<Text>, text: &Text) -> Result<(), NoMemory>
    ensures { OnOk result (copies.new.items ≡ copies.old.items ++ text.now ∷ []) }
{
    let copy = text.copy(alloc)?;
    copies.push(copy)?;
    Ok(())
}
