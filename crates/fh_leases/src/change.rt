// Changes of the leases, planned and staged.
use crate::LeaseDone;
use crate::act::Act;
use std::marker::Model;

/// A change that was planned. It may be dropped.
#[derive(Drop)]
pub struct LeaseChange {
    pub(crate) acts: Vec<Act>,
    pub(crate) done: LeaseDone,
}

impl Model for LeaseChange {
    ghost use Rattle.fh_leases.specs.Edits.{Change};

    ghost Value = { Change };

    ghost view = { λ c. record { acts = c.acts.items; done = c.done } };
}

impl LeaseChange {
    ghost use Rattle.std.specs.Prelude.{◌≡◌};

    /// What is answered.
    pub fn into_done(self) -> LeaseDone
        ensures { result ≡ self.done }
    {
        self.done
    }
}

/// A change that has all its memory. It has to be settled or unstaged.
pub struct StagedLeases {
    pub(crate) acts: Vec<Act>,
    pub(crate) done: LeaseDone,
}

impl Model for StagedLeases {
    ghost use Rattle.fh_leases.specs.Edits.{Staged};

    ghost Value = { Staged };

    ghost view = { λ c. record { acts = c.acts.items; done = c.done } };
}
