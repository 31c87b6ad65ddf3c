// What the queues answer, and how messages end.
use crate::HeldMessages;
use fh_event::Items;

/// How a message went.
#[derive(Clone, Copy, Debug, PartialEq, Eq)]
pub enum Ending {
    /// A client removed it.
    Deleted,
    /// Removed by the success of that invocation.
    Completed { invocation: u64 },
    /// Moved into a poison queue, as that message.
    Moved { copy: u64 },
    Expired,
}

/// What was done.
#[derive(Drop)]
pub enum QueueDone {
    /// The queue was made.
    Made,
    /// Nothing: the queue is there.
    There,
    /// The message has that number and receipt.
    Stored {
        number: u64,
        receipt: u64,
    },
    /// The messages are held.
    Taken {
        items: Items,
    },
    /// Nothing: no message is there.
    Empty,
    /// The message has that receipt now.
    Updated {
        receipt: u64,
    },
    /// The message was removed.
    Deleted,
    /// So many messages were removed.
    Cleared {
        count: u64,
    },
    /// The message has that receipt now, and is visible from that moment on, in milliseconds.
    Released {
        receipt: u64,
        visible_at: u64,
    },
    /// The messages are held, in the order asked for, with their new receipts.
    Renewed {
        messages: HeldMessages,
    },
    /// So many messages were added, with numbers and receipts from these on.
    Completed {
        number: u64,
        receipt: u64,
        count: u64,
    },
    /// The message was moved, as the message of that number and receipt.
    Poisoned {
        copy: u64,
        receipt: u64,
    },
    Swept,
}
