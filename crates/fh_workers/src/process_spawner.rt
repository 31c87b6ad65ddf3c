// A spawner of the host's processes.
ghost use Rattle.std.specs.Prelude.{◌≡◌, [], length, OnOk, OnErr, ◌+◌};

use crate::{SpawnFault, Spawner};
use fh_app::Handler;
use std::alloc::Global;
use std::io::{self, ErrorKind};
use std::process::{Child, Command, OpenProcess, Processes, Stdio};
use std::rt::Stderr;

/// Starts a worker as a process of the host, with its port in `FUNCTIONS_CUSTOMHANDLER_PORT`, in the
/// handler's working directory, or where the host runs if that is empty. What the worker writes goes to
/// standard error. It tells nothing of the starts, and counts each error of the host.
/// Where it goes out of scope it stops all workers, so that none outlives it.
pub struct ProcessSpawner<P: Processes> {
    runtime: P,
    alloc: Global,
    output: Stderr,
    workers: Vec<Child<P::Started>>,
    faults: u64,
}

impl<P: Processes> ProcessSpawner<P> {
    /// Nothing was started yet.
    pub fn new(runtime: P, alloc: Global, output: Stderr) -> ProcessSpawner<P>
        ensures workers { result.workers.items ≡ [] }
        ensures faults { result.faults ≡ 0 }
    {
        ProcessSpawner {
            runtime,
            alloc,
            output,
            workers: Vec::new(alloc),
            faults: 0,
        }
    }
}

impl<P: Processes> Spawner for ProcessSpawner<P> {
    ghost use Rattle.std.specs.Prelude.{None};

    ghost starts = { λ s. None };

    ghost running = { λ s. length s.workers.items };

    ghost spawn_faults = { λ s. s.faults };

    fn start(&mut self, handler: &Handler, port: u16) -> Result<(), SpawnFault> {
        match add_worker(
            &self.runtime,
            self.alloc,
            &self.output,
            &mut self.workers,
            handler,
            port,
        ) {
            Ok(()) => Ok(()),
            Err(error) if error.kind() == ErrorKind::OutOfMemory => Err(SpawnFault::NoMemory),
            Err(_) => {
                self.faults = self.faults.saturating_add(1);
                Err(SpawnFault::Failed)
            }
        }
    }

    fn stop_all(&mut self) {
        end_all(&mut self.workers);
    }
}

impl<P: Processes + Drop> Drop for ProcessSpawner<P> {
    fn drop(mut self) {
        end_all(&mut self.workers);
        let ProcessSpawner {
            runtime: _,
            alloc: _,
            output: _,
            workers: _,
            faults: _,
        } = self;
    }
}

// A worker that can't be kept for want of memory is ended at once, so that none is lost.
fn add_worker<P: Processes>(
    runtime: &P,
    alloc: Global,
    output: &Stderr,
    workers: &mut Vec<Child<P::Started>>,
    handler: &Handler,
    port: u16,
) -> io::Result<()>
    ensures more { OnOk result (length workers.new.items ≡ length workers.old.items + 1) }
    ensures kept { OnErr result (length workers.new.items ≡ length workers.old.items) }
{
    let worker = started(runtime, alloc, output, handler, port)?;
    match workers.push(worker) {
        Ok(()) => Ok(()),
        Err(refused) => {
            end(refused.value);
            Err(io::Error::from(ErrorKind::OutOfMemory))
        }
    }
}

fn started<P: Processes>(
    runtime: &P,
    alloc: Global,
    output: &Stderr,
    handler: &Handler,
    port: u16,
) -> io::Result<Child<P::Started>> {
    let number = format!(in alloc; "{port}")?;
    let mut command = Command::new(alloc, handler.path.as_str())?;
    for argument in handler.arguments.as_slice() {
        command.arg(argument.as_str())?;
    }
    command.env("FUNCTIONS_CUSTOMHANDLER_PORT", number.as_str())?;
    if handler.directory.len() != 0 {
        command.current_dir(handler.directory.as_str())?;
    }
    command.stdin(Stdio::null());
    command.stdout(Stdio::from(*output));
    command.stderr(Stdio::from(*output));
    command.spawn(runtime)
}

fn end_all<S: OpenProcess + Drop>(workers: &mut Vec<Child<S>>)
    ensures { workers.new.items ≡ [] }
{
    while let Some(worker) = workers.pop() {
        end(worker);
    }
}

// A worker that has ended already is waited for all the same.
fn end<S: OpenProcess + Drop>(mut worker: Child<S>) {
    let _killed = worker.kill();
    let _status = worker.wait();
}
