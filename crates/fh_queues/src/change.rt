// Changes of the queues, planned and staged.
use crate::QueueDone;
use crate::act::Act;
use fh_event::Item;
use std::marker::Model;

/// A change that was planned. It may be dropped.
#[derive(Drop)]
pub struct QueueChange {
    // None where nothing changes.
    pub(crate) acts: Vec<Act>,
    pub(crate) done: QueueDone,
}

impl Model for QueueChange {
    ghost use Rattle.fh_queues.specs.Edits.{Change};

    ghost Value = { Change };

    ghost view = { λ c. record { acts = c.acts.items; done = c.done } };
}

/// A change that has all its memory. It has to be settled or unstaged.
pub struct StagedQueues {
    pub(crate) done: QueueDone,
}

impl Model for StagedQueues {
    ghost use Rattle.fh_queues.specs.Edits.{Staged};

    ghost Value = { Staged };

    ghost view = { λ c. record { done = c.done } };
}

impl QueueChange {
    ghost use Rattle.std.specs.Prelude.{◌≡◌, true, false};
    ghost use Rattle.fh_event.specs.Judging.{Quiets, Makes};
    ghost use Rattle.fh_queues.specs.Part.{QueuePart};
    ghost use Rattle.fh_queues.specs.Acts.{by_acts};
    ghost use Rattle.fh_queues.specs.Edits.{planned};
    ghost use Rattle.fh_queues.specs.Tellings.{items_in};

    /// Whether it was accepted and changes nothing: the queue is there, or has no message to act on.
    pub fn is_quiet(&self) -> bool
        ensures quiet { (part : QueuePart) → result ≡ true → planned part self.now ≡ Quiets self.now.done }
        ensures loud { (part : QueuePart) → result ≡ false
            → planned part self.now ≡ Makes (by_acts part self.now.acts) self.now.done }
    {
        self.acts.is_empty()
    }

    /// The messages that are taken, where it takes some.
    pub fn items(&self) -> &[Item]
        ensures { result.now ≡ items_in self.now.done }
    {
        match &self.done {
            QueueDone::Taken { items } => items.as_slice(),
            _ => &[],
        }
    }

    /// What is answered.
    pub fn into_done(self) -> QueueDone
        ensures { result ≡ self.done }
    {
        self.done
    }
}
