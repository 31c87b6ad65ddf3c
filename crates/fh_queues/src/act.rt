// The acts of which each change of the queues is made.
ghost use Rattle.std.specs.Prelude.{◌≡◌};
ghost use Rattle.fh_queues.specs.Acts.{is_one};

use crate::{Ending, Expiry, Message, SharedName, Subject};
use fh_base::{Moment, QueueName, Text};

/// A message that is put. Its number and its receipt are the next ones.
#[derive(Drop)]
pub(crate) struct NewMessage {
    pub(crate) queue: SharedName,
    pub(crate) text: Text,
    pub(crate) put_at: u64,
    pub(crate) visible_at: u64,
    pub(crate) expiry: Expiry,
    pub(crate) about: Subject,
}

/// What changes in a row beside its receipt, which is the next one.
#[derive(Drop)]
pub(crate) struct RowChange {
    pub(crate) visible_at: u64,
    /// The new dequeue count, where it changes.
    pub(crate) count: Option<u64>,
    pub(crate) held: bool,
    pub(crate) text: Option<Text>,
}

/// Which rows end.
#[derive(Drop)]
pub(crate) enum Which {
    /// Those that aren't live.
    Dead { at: Moment },
    InQueue { queue: QueueName },
    Numbered { number: u64 },
}

#[derive(Drop)]
pub(crate) enum Act {
    AddQueue { queue: QueueName },
    AddRow { new: NewMessage },
    ChangeRow { number: u64, change: RowChange },
    EndRows { which: Which, ending: Ending },
}

impl Act {
    ghost use Rattle.fh_queues.specs.Acts.{sweep};

    /// The rows that aren't live go, as expired.
    pub(crate) fn sweep(m: Moment) -> Act
        ensures { result ≡ sweep m }
    {
        Act::EndRows {
            which: Which::Dead { at: m },
            ending: Ending::Expired,
        }
    }
}

impl Which {
    pub(crate) fn is_one(&self, row: &Message) -> bool
        ensures { result ≡ is_one self.now row.now }
    {
        match self {
            Which::Dead { at } => !row.is_live(*at),
            Which::InQueue { queue } => row.is_of(queue),
            Which::Numbered { number } => row.number == *number,
        }
    }
}
