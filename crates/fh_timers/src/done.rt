// What the timers answer.
ghost use Rattle.std.specs.Prelude.{◌≡◌};
ghost use Rattle.fh_timers.specs.Runs.{run_of};

/// What was done. Times are in milliseconds.
#[derive(Clone, Copy, Debug, PartialEq, Eq)]
pub enum TimerDone {
    /// Nothing: a job of the function is ready or running.
    Running,
    /// Nothing: the row is there, and no run was missed.
    Same,
    /// The run that was due then is made ready, past due.
    PastDue { due: u64, next: Option<u64> },
    /// The timer runs next at that time; at a startup a run without due time is made ready.
    Armed { next: Option<u64>, startup: bool },
    /// Nothing: the function has no row.
    Unarmed,
    /// Nothing: no run is due.
    NotDue,
    /// The run that was due then is made ready.
    Ticked { due: u64, next: Option<u64> },
    /// The function has no row.
    Removed,
    Nothing,
}

/// A run that is made ready.
#[derive(Clone, Copy, Debug, PartialEq, Eq)]
pub struct TimerRun {
    /// When it was due, in milliseconds, or none at a startup.
    pub due: Option<u64>,
    pub past_due: bool,
}

impl TimerDone {
    /// The run that is made ready, where one is. Takes no memory.
    pub fn run(&self) -> Option<TimerRun>
        ensures { result ≡ run_of self.now }
    {
        match self {
            TimerDone::PastDue { due, .. } => Some(TimerRun {
                due: Some(*due),
                past_due: true,
            }),
            TimerDone::Ticked { due, .. } => Some(TimerRun {
                due: Some(*due),
                past_due: false,
            }),
            TimerDone::Armed { startup: true, .. } => Some(TimerRun {
                due: None,
                past_due: false,
            }),
            _ => None,
        }
    }
}
