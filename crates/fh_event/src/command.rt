// Commands.
use crate::outcome::Outcome;
use crate::settings::FunctionSettings;
use fh_base::Text;

/// What a caller asks of the store. Names are texts here: the machine judges them. Delays, times to live
/// and holds are in seconds, and so is a lease's length. docs/commands.md has each command's effect and answers.
#[derive(Debug, Drop)]
pub enum Command {
    /// Makes a queue.
    MakeQueue {
        queue: Text,
    },
    /// Adds a message; without a time to live it never expires.
    Put {
        queue: Text,
        delay: u64,
        ttl: Option<u64>,
        text: Text,
    },
    /// Holds the first visible messages, and gives each a new receipt.
    Take {
        queue: Text,
        count: u64,
        hold: u64,
    },
    /// Holds a message anew, and gives it the text where there is one.
    Update {
        queue: Text,
        number: u64,
        receipt: u64,
        hold: u64,
        text: Option<Text>,
    },
    /// Removes a message.
    Delete {
        queue: Text,
        number: u64,
        receipt: u64,
    },
    /// Removes all messages of a queue.
    Clear {
        queue: Text,
    },
    /// Stores a text under a new version.
    PutBlob {
        container: Text,
        blob: Text,
        text: Text,
    },
    /// Removes a blob.
    DeleteBlob {
        container: Text,
        blob: Text,
    },
    /// Makes a blob function's message for the current version of a blob, once for each version.
    Note {
        function: Text,
        container: Text,
        blob: Text,
    },
    /// Makes the holder hold a lease.
    Acquire {
        lease: Text,
        holder: u64,
        seconds: u64,
    },
    /// Makes its last holder hold a lease anew.
    RenewLease {
        lease: Text,
        holder: u64,
    },
    /// Ends a lease.
    ReleaseLease {
        lease: Text,
        holder: u64,
    },
    /// Gives a function its settings.
    Configure {
        function: Text,
        settings: FunctionSettings,
    },
    /// Begins a session: ready jobs and running invocations are dropped.
    Session,
    /// Begins to watch the schedule of a timer function.
    Arm {
        function: Text,
    },
    /// Makes the run of a timer function ready that is due.
    Tick {
        function: Text,
    },
    /// Holds the first visible messages of a function's queue, and makes them its ready jobs.
    Fetch {
        function: Text,
    },
    /// Makes the first ready job of a function a running invocation. The halves are those of 16 random bytes,
    /// from which the invocation's id is made.
    Begin {
        function: Text,
        high: u64,
        low: u64,
    },
    /// Ends an invocation.
    Finish {
        invocation: u64,
        outcome: Outcome,
    },
    /// Holds anew what running invocations hold, where a hold ends soon.
    Renewals,
    /// Reads the first visible messages.
    Peek {
        queue: Text,
        count: u64,
    },
    /// Reads a blob.
    GetBlob {
        container: Text,
        blob: Text,
    },
    /// Reads where a message is.
    Locate {
        number: u64,
    },
    /// Reads which blobs of a container a blob function hasn't noted as they are.
    Unnoted {
        function: Text,
        container: Text,
    },
}
