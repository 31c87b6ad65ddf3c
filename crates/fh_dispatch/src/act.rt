// The acts of which each change of the work is made.
use crate::running::NewRun;
use crate::{Function, ReadyJob};

#[derive(Drop)]
pub(crate) enum Act {
    /// The function is this one now.
    Set {
        function: Function,
    },
    /// The job is ready, behind those that its function has.
    AddJob {
        job: ReadyJob,
    },
    /// The first ready job of the function goes.
    TakeFirst {
        function: u64,
    },
    /// The invocation runs, under the next number.
    AddRunning {
        run: NewRun,
    },
    /// The invocation of this number doesn't run any more.
    EndRunning {
        invocation: u64,
    },
    /// The invocation of this number has this receipt of its message, and is due then, in milliseconds.
    RenewRunning {
        invocation: u64,
        receipt: u64,
        due: u64,
    },
    /// The function has no ready job, and none that runs.
    DropJobs {
        function: u64,
    },
    /// The next session begins, without jobs.
    BeginSession,
}
