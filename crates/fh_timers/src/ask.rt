// What is asked of the timers.
use fh_ncrontab::Schedule;

/// A change that is asked for.
#[derive(Clone, Copy)]
pub enum TimerAsk {
    /// Begins to watch a schedule, as a host does that has been started.
    Arm {
        function: u64,
        schedule: Schedule,
        /// A run is made ready at once.
        startup: bool,
        /// The row from before counts, so that a run that was missed is made up for.
        monitor: bool,
        /// A job of the function is ready or running.
        busy: bool,
    },
    /// Makes the run ready that is due.
    Tick {
        function: u64,
        schedule: Schedule,
        /// A job of the function is ready or running.
        busy: bool,
    },
    /// Removes the row of a function.
    Remove {
        function: u64,
    },
    /// Changes nothing: what a command asks that asks something of other stores alone.
    Nothing,
}
