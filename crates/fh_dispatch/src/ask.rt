// What is asked of the work.
use fh_event::{FunctionSettings, Outcome};
use fh_queues::QueueAsk;
use fh_timers::TimerRun;

/// A change that is asked for.
#[derive(Clone, Copy)]
pub enum WorkAsk<'a> {
    /// Gives a function these settings, and makes its queue where it is missing. Where its trigger changes, its
    /// ready jobs, its running invocations and its row of the timers go.
    Configure {
        function: &'a str,
        settings: &'a FunctionSettings,
    },
    /// Makes a run of a function's timer ready.
    Ready {
        function: u64,
        run: TimerRun,
    },
    /// Begins the next session: all ready jobs and running invocations go.
    Session,
    /// Takes the next messages of a function's queue, which become its ready jobs, unless more jobs of it than its
    /// threshold are in work.
    Fetch {
        function: &'a str,
    },
    /// Begins the first ready job of a function, with the halves of 16 random bytes.
    Begin {
        function: &'a str,
        high: u64,
        low: u64,
    },
    /// Ends an invocation.
    Finish {
        invocation: u64,
        outcome: &'a Outcome,
    },
    /// Holds on what running invocations hold, where a hold ends soon.
    Renewals,
    /// Changes nothing: what a command asks that asks something of other stores alone.
    Nothing,
}

/// What an ask of the work asks of the queues.
#[derive(Clone, Copy)]
pub(crate) struct Asking<'a> {
    pub(crate) queues: QueueAsk<'a>,
}
