// An invocation that is running.
ghost use Rattle.std.specs.Prelude.{◌≡◌};
ghost use Rattle.fh_dispatch.specs.Acts.{numbered};
ghost use Rattle.fh_dispatch.specs.Invocations.{renewed_job};

use crate::Job;
use fh_base::Text;
use fh_rows::{Change, Key, Row, Span};
use std::cmp::Ordering;

/// An invocation that was begun and hasn't ended.
#[derive(Drop)]
pub struct Running {
    /// Its number.
    pub invocation: u64,
    /// The function's number.
    pub function: u64,
    /// The function's name.
    pub name: Text,
    pub job: Job,
    /// From when on something that it holds may be renewed, in milliseconds.
    pub due: u64,
}

/// An invocation that is to run, but for its number.
#[derive(Drop)]
pub(crate) struct NewRun {
    pub(crate) function: u64,
    pub(crate) name: Text,
    pub(crate) job: Job,
    pub(crate) due: u64,
}

impl NewRun {
    /// The invocation, under this number. Takes no memory.
    pub(crate) fn numbered(self, invocation: u64) -> Running
        ensures { result ≡ numbered invocation self }
    {
        let NewRun {
            function,
            name,
            job,
            due,
        } = self;
        Running {
            invocation,
            function,
            name,
            job,
            due,
        }
    }
}

impl Row for Running {
    ghost use Rattle.fh_dispatch.specs.Invocations.{by_run};
    ghost use Rattle.fh_dispatch.specs.Runs.{runs_total};

    ghost order = { λ a b. by_run b.function b.invocation a };

    ghost total = { runs_total };

    fn compare(&self, other: &Running) -> Ordering {
        let invocations = self.invocation.cmp(&other.invocation);
        self.function.cmp(&other.function).then(invocations)
    }
}

/// The function and the number of an invocation.
#[derive(Clone, Copy)]
pub(crate) struct RunKey {
    pub(crate) function: u64,
    pub(crate) invocation: u64,
}

impl Key<Running> for RunKey {
    ghost use Rattle.std.specs.Prelude.{[]};
    ghost use Rattle.fh_dispatch.specs.declared.ready.Job.TheVariants.{Message};

    ghost as_row = { λ key. record {
      invocation = key.invocation;
      function = key.function;
      name = [];
      job = Message 0 0;
      due = 0;
    } };

    fn compare(&self, row: &Running) -> Ordering {
        let invocations = row.invocation.cmp(&self.invocation);
        row.function.cmp(&self.function).then(invocations)
    }
}

/// All invocations of a function.
#[derive(Clone, Copy)]
pub(crate) struct OfFunction {
    pub(crate) function: u64,
}

impl Span<Running> for OfFunction {
    ghost use Rattle.fh_dispatch.specs.Invocations.{by_function};
    ghost use Rattle.fh_dispatch.specs.Runs.{functions_span};

    ghost place = { λ span. by_function span.function };

    ghost spans = { λ span. functions_span span.function };

    fn compare(&self, row: &Running) -> Ordering {
        row.function.cmp(&self.function)
    }
}

/// Another receipt, where it runs for a message, and another moment from which on a hold may be renewed.
#[derive(Clone, Copy)]
pub(crate) struct Renewal {
    pub(crate) receipt: u64,
    pub(crate) due: u64,
}

impl Change<Running> for Renewal {
    ghost use Rattle.fh_dispatch.specs.Invocations.{renewed};
    ghost use Rattle.fh_dispatch.specs.Runs.{renewed_key};

    ghost changed = { λ renewal. renewed renewal.receipt renewal.due };

    ghost keeps = { λ renewal. renewed_key renewal.receipt renewal.due };

    fn apply(&self, row: &mut Running) {
        row.job = renewed_job(row.job, self.receipt);
        row.due = self.due;
    }
}

fn renewed_job(job: Job, receipt: u64) -> Job
    ensures { result ≡ renewed_job receipt job }
{
    match job {
        Job::Message { number, .. } => Job::Message { number, receipt },
        Job::Timer { run } => Job::Timer { run },
    }
}
