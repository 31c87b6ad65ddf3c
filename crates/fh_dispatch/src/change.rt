// Changes of the work, planned and staged.
use crate::WorkDone;
use crate::act::Act;
use fh_blobs::BlobChange;
use fh_leases::LeaseChange;
use fh_queues::QueueChange;
use fh_timers::TimerChange;
use std::marker::Model;

/// A change that was planned. It may be dropped.
#[derive(Drop)]
pub struct WorkChange {
    pub(crate) quiet: bool,
    pub(crate) acts: Vec<Act>,
    pub(crate) done: WorkDone,
}

impl Model for WorkChange {
    ghost use Rattle.fh_dispatch.specs.Edits.{Change};

    ghost Value = { Change };

    ghost view = { λ c. record { quiet = c.quiet; acts = c.acts.items; done = c.done } };
}

/// What an ask makes of the work, and of the other stores where it asks something of them.
#[derive(Drop)]
pub struct WorkPlan {
    pub work: WorkChange,
    pub queues: Option<QueueChange>,
    pub blobs: Option<BlobChange>,
    pub leases: Option<LeaseChange>,
    pub timers: Option<TimerChange>,
}

/// A change that has all its memory. It has to be settled or unstaged.
pub struct StagedWork {
    pub(crate) acts: Vec<Act>,
    pub(crate) done: WorkDone,
}

impl Model for StagedWork {
    ghost use Rattle.fh_dispatch.specs.Edits.{Staged};

    ghost Value = { Staged };

    ghost view = { λ c. record { acts = c.acts.items; done = c.done } };
}

impl WorkChange {
    ghost use Rattle.std.specs.Prelude.{◌≡◌, true, false};
    ghost use Rattle.fh_event.specs.Judging.{Quiets, Makes};
    ghost use Rattle.fh_dispatch.specs.Part.{WorkPart};
    ghost use Rattle.fh_dispatch.specs.Acts.{by_acts};
    ghost use Rattle.fh_dispatch.specs.Edits.{planned};

    /// Whether it was accepted and changes nothing.
    pub fn is_quiet(&self) -> bool
        ensures quiet { (part : WorkPart) → result ≡ true → planned part self.now ≡ Quiets self.now.done }
        ensures loud { (part : WorkPart) → result ≡ false
            → planned part self.now ≡ Makes (by_acts part self.now.acts) self.now.done }
    {
        self.quiet
    }

    /// What is answered.
    pub fn into_done(self) -> WorkDone
        ensures { result ≡ self.done }
    {
        self.done
    }
}
