// The queues, as they are kept: plain lists to contracts, an index in memory.
ghost use Rattle.std.specs.Prelude.{◌≡◌};
ghost use Rattle.fh_queues.specs.Part.{no_queues};
ghost use Rattle.fh_queues.specs.Edits.{IsIdle};

use crate::act::Act;
use crate::lists::Lists;
use std::alloc::Global;
use std::marker::Model;

/// Queues with their messages, and the ends of the messages that are gone.
#[derive(Drop)]
pub struct Queues {
    pub(crate) lists: Lists,
    // The acts of a change that is staged.
    pub(crate) ahead: Option<Vec<Act>>,
}

impl Model for Queues {
    ghost use Rattle.std.specs.Prelude.{option_map};
    ghost use Rattle.fh_queues.specs.Edits.{QueueState};
    ghost use Rattle.fh_queues.specs.Lists.{part_of, IsSound, FitsAhead};
    ghost use Rattle.fh_queues.specs.Whole.{IsWhole};

    ghost Value = { QueueState };

    ghost view = { λ q. record {
      part = part_of q.lists;
      ahead = option_map (λ acts. acts.items) q.ahead;
    } };

    ghost invariant = { λ q. IsWhole (part_of q.lists) × IsSound q.lists
        × FitsAhead q.lists (option_map (λ acts. acts.items) q.ahead) };
}

impl Queues {
    /// No queues. Takes no memory.
    pub fn new(alloc: Global) -> Queues
        ensures part { result.part ≡ no_queues }
        ensures idle { IsIdle result }
    {
        Queues {
            lists: Lists::new(alloc),
            ahead: None,
        }
    }
}
