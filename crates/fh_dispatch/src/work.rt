// The work, as it is kept, and what is read of it.
ghost use Rattle.std.specs.Prelude.{◌≡◌, option_copied, IfOk};
ghost use Rattle.fh_dispatch.specs.Part.{no_work, function_of};
ghost use Rattle.fh_dispatch.specs.InWork.{in_work, is_busy};
ghost use Rattle.fh_dispatch.specs.Invocations.{lowest, run_of};
ghost use Rattle.fh_dispatch.specs.Ready.{jobs_of};
ghost use Rattle.fh_dispatch.specs.Queues.{trigger_of};
ghost use Rattle.fh_dispatch.specs.Timers.{timer_of};
ghost use Rattle.fh_dispatch.specs.Edits.{IsIdle};

use crate::function::Name;
use crate::ready::ReadyJobs;
use crate::timer::timer_by;
use crate::trigger::trigger_found;
use crate::{Function, Invocations, ReadyJob, Running, Timer, Trigger};
use fh_base::NoMemory;
use fh_rows::Rows;
use std::alloc::Global;
use std::marker::Model;

/// Functions in order of their names, the jobs that are ready, the invocations that are running, the number that the
/// next new function gets, and how many sessions have begun.
#[derive(Drop)]
pub struct Work {
    pub(crate) functions: Rows<Function>,
    pub(crate) ready: ReadyJobs,
    pub(crate) running: Invocations,
    pub(crate) next_function: u64,
    pub(crate) session: u64,
}

impl Model for Work {
    ghost use Rattle.fh_dispatch.specs.Edits.{WorkState};

    ghost Value = { WorkState };

    ghost view = { λ w. record {
      part = record {
        functions = w.functions.rows;
        ready = w.ready.rows;
        running = w.running.running;
        next_function = w.next_function;
        next_invocation = w.running.next;
        session = w.session;
      };
      room = w.functions.room;
      job_room = w.ready.room;
      run_room = w.running.room;
    } };
}

impl Work {
    /// No functions. Takes no memory.
    pub fn new(alloc: Global) -> Work
        ensures part { result.part ≡ no_work }
        ensures idle { IsIdle result }
    {
        Work {
            functions: Rows::new(alloc),
            ready: ReadyJobs::new(alloc),
            running: Invocations::new(alloc),
            next_function: 1,
            session: 0,
        }
    }

    /// A function as it is. Takes no memory.
    pub fn function_of(&self, name: &str) -> Option<&Function>
        ensures { option_copied result ≡ function_of name.now self.now.part.functions }
    {
        self.functions.get(&Name { name })
    }

    /// The timer of a function as it is, where the function is there and runs by a schedule. Takes no memory.
    pub fn timer_of(&self, name: &str) -> Option<Timer>
        ensures { result ≡ timer_of name.now self.now.part.functions }
    {
        let function = self.function_of(name)?;
        timer_by(function.number, &function.settings)
    }

    /// How a function comes to its messages, where it is there and works on messages.
    pub fn trigger_of(&self, alloc: Global, name: &str) -> Result<Option<Trigger>, NoMemory>
        ensures { IfOk result (λ trigger. trigger ≡ trigger_of name.now self.now.part.functions) }
    {
        trigger_found(alloc, self.function_of(name))
    }

    /// The ready jobs of the function of this number, in the order in which they came. Takes no memory.
    pub fn jobs_of(&self, function: u64) -> &[ReadyJob]
        ensures { result.now ≡ jobs_of function self.now.part.ready }
    {
        self.ready.of(function)
    }

    /// The invocation of this number, where it is running. Takes no memory.
    pub fn running(&self, invocation: u64) -> Option<&Running>
        ensures { option_copied result ≡ run_of invocation self.now.part.running }
    {
        self.running.get(invocation)
    }

    /// The least number of a running invocation. Takes no memory.
    pub fn lowest_running(&self) -> Option<u64>
        ensures { result ≡ lowest self.now.part.running }
    {
        self.running.lowest()
    }

    /// How many jobs of the function of this number are in work: ready, or running. Takes no memory.
    pub fn in_work(&self, function: u64) -> u64
        ensures { result ≡ in_work function self.now.part }
    {
        let ready = self.ready.of(function).len() as u64;
        let running = self.running.of(function).len() as u64;
        ready.saturating_add(running)
    }

    /// Whether a job of the function of this number is in work. Takes no memory.
    pub fn is_busy(&self, function: u64) -> bool
        ensures { result ≡ is_busy function self.now.part }
    {
        self.in_work(function) != 0
    }
}
