// Changes of the blobs, planned and staged.
use crate::BlobDone;
use crate::act::Act;
use std::marker::Model;

/// A change that was planned. It may be dropped.
#[derive(Drop)]
pub struct BlobChange {
    pub(crate) acts: Vec<Act>,
    pub(crate) done: BlobDone,
}

impl Model for BlobChange {
    ghost use Rattle.fh_blobs.specs.Edits.{Change};

    ghost Value = { Change };

    ghost view = { λ c. record { acts = c.acts.items; done = c.done } };
}

/// A change that has all its memory. It has to be settled or unstaged.
pub struct StagedBlobs {
    pub(crate) acts: Vec<Act>,
    pub(crate) done: BlobDone,
}

impl Model for StagedBlobs {
    ghost use Rattle.fh_blobs.specs.Edits.{Staged};

    ghost Value = { Staged };

    ghost view = { λ c. record { acts = c.acts.items; done = c.done } };
}

impl BlobChange {
    ghost use Rattle.std.specs.Prelude.{◌≡◌, true, false};
    ghost use Rattle.fh_event.specs.Judging.{Quiets, Makes};
    ghost use Rattle.fh_blobs.specs.Part.{BlobPart};
    ghost use Rattle.fh_blobs.specs.Acts.{by_acts};
    ghost use Rattle.fh_blobs.specs.Edits.{planned};

    /// Whether it was accepted and changes nothing: the version was noted before.
    pub fn is_quiet(&self) -> bool
        ensures quiet { (part : BlobPart) → result ≡ true → planned part self.now ≡ Quiets self.now.done }
        ensures loud { (part : BlobPart) → result ≡ false
            → planned part self.now ≡ Makes (by_acts part self.now.acts) self.now.done }
    {
        match self.done {
            BlobDone::Noted => true,
            BlobDone::Stored { .. }
            | BlobDone::Removed
            | BlobDone::NowNoted { .. }
            | BlobDone::AllStored { .. }
            | BlobDone::Nothing => false,
        }
    }

    /// What is answered.
    pub fn into_done(self) -> BlobDone
        ensures { result ≡ self.done }
    {
        self.done
    }
}
