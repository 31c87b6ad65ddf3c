// What is asked of the queues.
use crate::HeldMessage;
use fh_base::{QueueName, Text};
use fh_event::{About, Outputs};

/// A change that is asked for. Delays, times to live and holds are in seconds.
#[derive(Clone, Copy)]
pub enum QueueAsk<'a> {
    /// Makes a queue.
    Make {
        queue: QueueName,
    },
    /// Adds a message; without a time to live it never expires.
    Put {
        queue: QueueName,
        delay: u64,
        ttl: Option<u64>,
        text: &'a Text,
        about: Option<&'a About>,
    },
    /// Holds the first visible messages, and gives each a new receipt.
    Take {
        queue: QueueName,
        count: u64,
        hold: u64,
    },
    /// Holds a message anew, and gives it the text where there is one.
    Update {
        queue: QueueName,
        number: u64,
        receipt: u64,
        hold: u64,
        text: Option<&'a Text>,
    },
    /// Removes a message.
    Delete {
        queue: QueueName,
        number: u64,
        receipt: u64,
    },
    /// Removes all messages of a queue.
    Clear {
        queue: QueueName,
    },
    /// Makes a held message visible again, after a delay.
    Release {
        message: HeldMessage,
        delay: u64,
    },
    /// Holds messages anew, in the order of the list.
    Renew {
        messages: &'a [HeldMessage],
        hold: u64,
    },
    /// Removes the message of an invocation that succeeded, where it has one, and adds a message for each
    /// output to a queue, in order. Outputs to blobs are passed over: another store puts them.
    Complete {
        invocation: u64,
        message: Option<HeldMessage>,
        outputs: &'a Outputs,
    },
    /// Moves a message into a queue, as a new message of the same text.
    Poison {
        message: HeldMessage,
        queue: QueueName,
    },
    /// Only drops the rows that aren't live.
    Sweep,
}
