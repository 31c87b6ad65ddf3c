// Replies.
ghost use Rattle.std.specs.Prelude.{◌≡◌};

use crate::begun::Begun;
use fh_base::{QueueName, Text, Texts};
use std::marker::Model;

/// A message as `Taken` and `Peeked` list it. `receipt` is the newest one.
#[derive(Debug, Drop)]
pub struct Item {
    pub number: u64,
    pub receipt: u64,
    pub count: u64,
    pub text: Text,
}

/// A list of messages. Contracts see the list.
#[derive(Debug, Drop)]
pub struct Items {
    items: Vec<Item>,
}

impl Model for Items {
    ghost use Rattle.std.specs.Prelude.{List};
    ghost use Rattle.fh_event.specs.declared.reply.Item.{Item};

    ghost Value = { List Item };

    ghost view = { λ a. a.items.items };
}

impl Items {
    /// Takes no memory.
    pub fn new(items: Vec<Item>) -> Items
        ensures { result ≡ items.items }
    {
        Items { items }
    }

    pub fn as_slice(&self) -> &[Item]
        ensures { result.now ≡ self.now }
    {
        &self.items
    }

    /// Takes no memory.
    pub fn into_vec(self) -> Vec<Item>
        ensures { result.items ≡ self }
    {
        let Items { items } = self;
        items
    }
}

/// A message that is a ready job. `receipt` is the newest one.
#[derive(Clone, Copy, Debug)]
pub struct FetchedJob {
    pub number: u64,
    pub receipt: u64,
    pub count: u64,
}

/// A list of ready jobs. Contracts see the list.
#[derive(Debug, Drop)]
pub struct FetchedJobs {
    jobs: Vec<FetchedJob>,
}

impl Model for FetchedJobs {
    ghost use Rattle.std.specs.Prelude.{List};
    ghost use Rattle.fh_event.specs.declared.reply.FetchedJob.{FetchedJob};

    ghost Value = { List FetchedJob };

    ghost view = { λ a. a.jobs.items };
}

impl FetchedJobs {
    /// Takes no memory.
    pub fn new(jobs: Vec<FetchedJob>) -> FetchedJobs
        ensures { result ≡ jobs.items }
    {
        FetchedJobs { jobs }
    }

    pub fn as_slice(&self) -> &[FetchedJob]
        ensures { result.now ≡ self.now }
    {
        &self.jobs
    }

    /// Takes no memory.
    pub fn into_vec(self) -> Vec<FetchedJob>
        ensures { result.items ≡ self }
    {
        let FetchedJobs { jobs } = self;
        jobs
    }
}

/// A hold of a running invocation that goes on until that moment, in milliseconds.
#[derive(Clone, Copy, Debug)]
pub enum RenewalPart {
    /// The hold of its message, which has that receipt now.
    Message {
        invocation: u64,
        receipt: u64,
        until: u64,
    },
    /// The lease of its function, of which one invocation runs at a time.
    Lease {
        invocation: u64,
        until: u64,
    },
}

/// A list of holds. Contracts see the list.
#[derive(Debug, Drop)]
pub struct RenewalParts {
    parts: Vec<RenewalPart>,
}

impl Model for RenewalParts {
    ghost use Rattle.std.specs.Prelude.{List};
    ghost use Rattle.fh_event.specs.declared.reply.RenewalPart.{RenewalPart};

    ghost Value = { List RenewalPart };

    ghost view = { λ a. a.parts.items };
}

impl RenewalParts {
    /// Takes no memory.
    pub fn new(parts: Vec<RenewalPart>) -> RenewalParts
        ensures { result ≡ parts.items }
    {
        RenewalParts { parts }
    }

    pub fn as_slice(&self) -> &[RenewalPart]
        ensures { result.now ≡ self.now }
    {
        &self.parts
    }

    /// Takes no memory.
    pub fn into_vec(self) -> Vec<RenewalPart>
        ensures { result.items ≡ self }
    {
        let RenewalParts { parts } = self;
        parts
    }
}

/// Where a message is. `until` is a moment in milliseconds.
#[derive(Clone, Copy)]
pub enum Place {
    /// Live and not held.
    Waiting { queue: QueueName },
    /// Live, and held until that moment.
    Held { queue: QueueName, until: u64 },
    Deleted,
    /// Removed by the success of that invocation.
    Completed { invocation: u64 },
    /// Moved into a poison queue, as that message.
    Moved { copy: u64 },
    Expired,
    /// No message ever had that number.
    Unknown,
}

/// What an accepted command answers.
#[derive(Drop)]
pub enum Reply {
    /// The queue was made.
    Made,
    /// Quiet: the queue is there.
    There,
    /// The message has that number and receipt.
    Stored {
        number: u64,
        receipt: u64,
    },
    /// The messages are held.
    Taken {
        items: Items,
    },
    /// Quiet: no message is there.
    Empty,
    /// The message has that receipt now.
    Updated {
        receipt: u64,
    },
    /// The message was removed.
    Deleted,
    /// So many messages were removed.
    Cleared {
        count: u64,
    },
    /// The blob has that version.
    BlobStored {
        version: u64,
    },
    /// The blob was removed.
    BlobDeleted,
    /// The blob function has that message for this version of the blob.
    Noted {
        number: u64,
    },
    /// Quiet: the function noted this version before.
    NotedBefore,
    /// The holder holds the lease until that moment, in milliseconds.
    Acquired {
        until: u64,
    },
    /// The lease goes on until that moment, in milliseconds.
    Renewed {
        until: u64,
    },
    /// The lease is nobody's.
    Released,
    /// The function has that number, and these settings now.
    Configured {
        number: u64,
    },
    /// Quiet: the function has these settings, or its timer is armed and no run was missed.
    Same,
    /// The timer runs next at that time. Times are in milliseconds.
    Armed {
        next: Option<u64>,
    },
    /// The run that was due then is ready, past due, and the timer runs next at that time.
    PastDue {
        due: u64,
        next: Option<u64>,
    },
    /// The run that was due then is ready, and the timer runs next at that time.
    Ticked {
        due: u64,
        next: Option<u64>,
    },
    /// Quiet: a job of the function is ready or running.
    Running,
    /// Quiet: the timer isn't armed.
    Unarmed,
    /// Quiet: no run is due.
    NotDue,
    /// The session has that number.
    SessionBegun {
        session: u64,
    },
    /// The messages are held, and are ready jobs.
    Fetched {
        jobs: FetchedJobs,
    },
    /// Quiet: so many messages of the function are in work, which is above its threshold.
    Busy {
        in_work: u64,
    },
    /// Quiet: the function has no ready job.
    NoJob,
    /// The first ready job is gone, since its message isn't held for it any more.
    JobDropped {
        number: u64,
    },
    /// The message was moved into a poison queue, as that message. `broken` is the number of the rule that the
    /// outputs broke, where they broke one.
    JobPoisoned {
        copy: u64,
        broken: Option<u64>,
    },
    /// Quiet: another holder has the function's lease until that moment, in milliseconds.
    Blocked {
        holder: u64,
        until: u64,
    },
    /// The invocation runs.
    Begun {
        begun: Begun,
    },
    /// The invocation has ended, and its message was gone or another's before.
    JobLost,
    /// The invocation has ended, its outputs are stored, and its message is removed.
    JobDone,
    /// The run of a timer has ended in a failure. `broken` is as above.
    JobFailed {
        broken: Option<u64>,
    },
    /// The invocation has ended in a failure, and its message is visible from that moment on, in milliseconds.
    /// `broken` is as above.
    JobReleased {
        visible_at: u64,
        broken: Option<u64>,
    },
    /// These holds go on, in order of their invocations.
    HoldsRenewed {
        parts: RenewalParts,
    },
    /// Quiet: no hold ends soon.
    NothingDue,
    /// A reading: the first visible messages.
    Peeked {
        items: Items,
    },
    /// A reading: the blob as it is.
    Got {
        version: u64,
        text: Text,
    },
    /// A reading: where the message is.
    Located {
        place: Place,
    },
    /// A reading: the names of the blobs that the function hasn't noted as they are.
    Unnoted {
        blobs: Texts,
    },
}
