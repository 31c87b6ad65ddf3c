// What a command asks of each store by itself.
ghost use Rattle.std.specs.Prelude.{◌≡◌, true, false, MatchOption};
ghost use Rattle.fh_queues.specs.Asks.{ask_of as queue_ask_of};
ghost use Rattle.fh_blobs.specs.Asks.{ask_of as blob_ask_of};
ghost use Rattle.fh_leases.specs.Asks.{ask_of as lease_ask_of};
ghost use Rattle.fh_dispatch.specs.Asks.{ask_of as work_ask_of};
ghost use Rattle.fh_queues.specs.Asks as queues;
ghost use Rattle.fh_blobs.specs.Asks as blobs;
ghost use Rattle.fh_leases.specs.Asks as leases;
ghost use Rattle.fh_hub.specs.Names.{has_good_names, has_good_queue, has_good_blob, has_good_lease, has_good_function};
ghost use Rattle.fh_hub.specs.Asked.{asks_of_command, queue_ask, blob_ask, lease_ask, work_ask};
ghost use Rattle.fh_hub.specs.StoreEdits.{asks_of};
ghost use Rattle.fh_hub.specs.Stores.{ready_by};

use crate::names::{blob_container, has_good_function, plain};
use crate::stores::StoreAsks;
use fh_base::QueueName;
use fh_blobs::BlobAsk;
use fh_dispatch::WorkAsk;
use fh_event::Command;
use fh_leases::LeaseAsk;
use fh_queues::QueueAsk;
use fh_timers::{TimerAsk, TimerRun};

/// What a command asks, where its names are good.
pub(crate) fn asks_of_command<'a>(command: &'a Command) -> Option<StoreAsks<'a>>
    ensures { MatchOption result (has_good_names command.entry.now ≡ false)
        (λ asks. (has_good_names command.entry.now ≡ true) × (asks_of asks ≡ asks_of_command command.entry.now)) }
{
    let Some(queues) = queue_ask(command) else {
        return None;
    };
    let Some(blobs) = blob_ask(command) else {
        return None;
    };
    let Some(leases) = lease_ask(command) else {
        return None;
    };
    let Some(work) = work_ask(command) else {
        return None;
    };
    Some(StoreAsks {
        queues,
        blobs,
        leases,
        timers: TimerAsk::Nothing,
        work,
    })
}

/// What a command asks that asks for a timer: that a run which it makes be ready too.
pub(crate) fn asks_of_timer<'a>(
    function: u64,
    ask: TimerAsk,
    run: Option<TimerRun>,
) -> StoreAsks<'a>
    ensures { asks_of result ≡ record {
      queues = queues.Sweep;
      blobs = blobs.Nothing;
      leases = leases.Nothing;
      timers = ask;
      work = ready_by function run;
    } }
{
    let work = match run {
        None => WorkAsk::Nothing,
        Some(run) => WorkAsk::Ready { function, run },
    };
    StoreAsks {
        queues: QueueAsk::Sweep,
        blobs: BlobAsk::Nothing,
        leases: LeaseAsk::Nothing,
        timers: ask,
        work,
    }
}

// What a command asks of the queues, where its queue has a good name.
fn queue_ask<'a>(command: &'a Command) -> Option<QueueAsk<'a>>
    ensures { MatchOption result (has_good_queue command.entry.now ≡ false)
        (λ ask. (has_good_queue command.entry.now ≡ true) × (queue_ask_of ask ≡ queue_ask command.entry.now)) }
{
    let ask = match command {
        Command::MakeQueue { queue } => QueueAsk::Make {
            queue: QueueName::read(queue.as_str())?,
        },
        Command::Put {
            queue,
            delay,
            ttl,
            text,
        } => QueueAsk::Put {
            queue: QueueName::read(queue.as_str())?,
            delay: *delay,
            ttl: *ttl,
            text,
            about: None,
        },
        Command::Take { queue, count, hold } => QueueAsk::Take {
            queue: QueueName::read(queue.as_str())?,
            count: *count,
            hold: *hold,
        },
        Command::Update {
            queue,
            number,
            receipt,
            hold,
            text,
        } => QueueAsk::Update {
            queue: QueueName::read(queue.as_str())?,
            number: *number,
            receipt: *receipt,
            hold: *hold,
            text: text.as_ref(),
        },
        Command::Delete {
            queue,
            number,
            receipt,
        } => QueueAsk::Delete {
            queue: QueueName::read(queue.as_str())?,
            number: *number,
            receipt: *receipt,
        },
        Command::Clear { queue } => QueueAsk::Clear {
            queue: QueueName::read(queue.as_str())?,
        },
        Command::Peek { queue, .. } => {
            QueueName::read(queue.as_str())?;
            QueueAsk::Sweep
        }
        _ => QueueAsk::Sweep,
    };
    Some(ask)
}

// What a command asks of the blobs, where its container and its blob have good names.
fn blob_ask<'a>(command: &'a Command) -> Option<BlobAsk<'a>>
    ensures { MatchOption result (has_good_blob command.entry.now ≡ false)
        (λ ask. (has_good_blob command.entry.now ≡ true) × (blob_ask_of ask ≡ blob_ask command.entry.now)) }
{
    match command {
        Command::PutBlob {
            container,
            blob,
            text,
        } => Some(BlobAsk::Put {
            container: blob_container(container, blob)?,
            name: blob.as_str(),
            text,
        }),
        Command::DeleteBlob { container, blob } => Some(BlobAsk::Remove {
            container: blob_container(container, blob)?,
            name: blob.as_str(),
        }),
        Command::GetBlob { container, blob } => {
            blob_container(container, blob)?;
            Some(BlobAsk::Nothing)
        }
        _ => Some(BlobAsk::Nothing),
    }
}

// What a command asks of the leases, where its lease has a good name.
fn lease_ask<'a>(command: &'a Command) -> Option<LeaseAsk<'a>>
    ensures { MatchOption result (has_good_lease command.entry.now ≡ false)
        (λ ask. (has_good_lease command.entry.now ≡ true) × (lease_ask_of ask ≡ lease_ask command.entry.now)) }
{
    match command {
        Command::Acquire {
            lease,
            holder,
            seconds,
        } => Some(LeaseAsk::Acquire {
            name: plain(lease)?,
            holder: *holder,
            seconds: *seconds,
        }),
        Command::RenewLease { lease, holder } => Some(LeaseAsk::Renew {
            name: plain(lease)?,
            holder: *holder,
        }),
        Command::ReleaseLease { lease, holder } => Some(LeaseAsk::Release {
            name: plain(lease)?,
            holder: *holder,
        }),
        _ => Some(LeaseAsk::Nothing),
    }
}

// What a command asks of the work, where what it names of functions is good.
fn work_ask<'a>(command: &'a Command) -> Option<WorkAsk<'a>>
    ensures { MatchOption result (has_good_function command.entry.now ≡ false)
        (λ ask. (has_good_function command.entry.now ≡ true) × (work_ask_of ask ≡ work_ask command.entry.now)) }
{
    if !has_good_function(command) {
        return None;
    }
    match command {
        Command::Configure { function, settings } => Some(WorkAsk::Configure {
            function: function.as_str(),
            settings,
        }),
        Command::Session => Some(WorkAsk::Session),
        Command::Fetch { function } => Some(WorkAsk::Fetch {
            function: function.as_str(),
        }),
        _ => Some(WorkAsk::Nothing),
    }
}
