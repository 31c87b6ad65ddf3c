// Changes of the timers, planned and staged.
use crate::act::Act;
use crate::{TimerDone, TimerRun};
use std::marker::Model;

/// A change that was planned. It may be dropped.
#[derive(Drop)]
pub struct TimerChange {
    pub(crate) act: Act,
    pub(crate) done: TimerDone,
}

impl Model for TimerChange {
    ghost use Rattle.fh_timers.specs.Edits.{Change};

    ghost Value = { Change };

    ghost view = { λ c. record { act = c.act; done = c.done } };
}

/// A change that has all its memory. It has to be settled or unstaged.
pub struct StagedTimers {
    pub(crate) act: Act,
    pub(crate) done: TimerDone,
}

impl Model for StagedTimers {
    ghost use Rattle.fh_timers.specs.Edits.{Staged};

    ghost Value = { Staged };

    ghost view = { λ c. record { act = c.act; done = c.done } };
}

impl TimerChange {
    ghost use Rattle.std.specs.Prelude.{◌≡◌, true, false};
    ghost use Rattle.fh_event.specs.Judging.{Quiets, Makes};
    ghost use Rattle.fh_timers.specs.Part.{TimerPart};
    ghost use Rattle.fh_timers.specs.Acts.{acted};
    ghost use Rattle.fh_timers.specs.Edits.{planned};
    ghost use Rattle.fh_timers.specs.Runs.{run_of};

    /// Whether it was accepted and changes nothing.
    pub fn is_quiet(&self) -> bool
        ensures quiet { (part : TimerPart) → result ≡ true
            → planned part self.now ≡ Quiets self.now.done }
        ensures loud { (part : TimerPart) → result ≡ false
            → planned part self.now ≡ Makes (acted part self.now.act) self.now.done }
    {
        match self.done {
            TimerDone::Running | TimerDone::Same | TimerDone::Unarmed | TimerDone::NotDue => true,
            TimerDone::PastDue { .. }
            | TimerDone::Armed { .. }
            | TimerDone::Ticked { .. }
            | TimerDone::Removed
            | TimerDone::Nothing => false,
        }
    }

    /// The run that it makes ready, where it makes one. Takes no memory.
    pub fn run(&self) -> Option<TimerRun>
        ensures { result ≡ run_of self.now.done }
    {
        self.done.run()
    }

    /// What is answered.
    pub fn into_done(self) -> TimerDone
        ensures { result ≡ self.done }
    {
        self.done
    }
}
