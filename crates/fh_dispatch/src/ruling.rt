// What the work decides about a job, and what it asks of the other stores.
use crate::act::Act;
use fh_base::{QueueName, Rule, Text};
use fh_blobs::NewBlob;
use fh_event::{Outputs, Reply};
use fh_leases::HeldLease;
use fh_queues::HeldMessage;

/// For how long a message is held that is fetched or renewed, in seconds.
pub(crate) const HOLD: u64 = 600;

/// What a job makes of its message. Delays are in seconds.
#[derive(Drop)]
pub(crate) enum QueueEffect<'a> {
    Release {
        message: HeldMessage,
        delay: u64,
    },
    Renew {
        messages: Vec<HeldMessage>,
    },
    Complete {
        invocation: u64,
        message: Option<HeldMessage>,
        outputs: &'a Outputs,
    },
    Poison {
        message: HeldMessage,
        queue: QueueName,
    },
}

/// What a job makes of leases. Times are in seconds.
#[derive(Drop)]
pub(crate) enum LeaseEffect {
    Acquire {
        name: Text,
        holder: u64,
        seconds: u64,
    },
    Release {
        name: Text,
        holder: u64,
    },
    RenewAll {
        leases: Vec<HeldLease>,
    },
}

/// What is asked of the other stores, what the work itself does, and what is told.
#[derive(Drop)]
pub(crate) struct Effect<'a> {
    pub(crate) queues: Option<QueueEffect<'a>>,
    pub(crate) blobs: Option<Vec<NewBlob>>,
    pub(crate) leases: Option<LeaseEffect>,
    pub(crate) acts: Vec<Act>,
    pub(crate) told: Reply,
}

/// The work refuses, leaves all as it is, or has an effect on all stores.
#[derive(Drop)]
pub(crate) enum Ruling<'a> {
    Refused(Rule),
    Unchanged(Reply),
    Changed(Effect<'a>),
}
