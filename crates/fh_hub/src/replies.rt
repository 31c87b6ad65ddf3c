// The reply that the stores' answers make.
ghost use Rattle.std.specs.Prelude.{◌≡◌, unwrap_or};
ghost use Rattle.fh_event.specs.declared.reply.Reply.{Reply};
ghost use Rattle.fh_hub.specs.Replies.{reply_of, reply_of_blobs, reply_of_leases, reply_of_queues, reply_of_note, reply_of_timers, reply_of_work};
ghost use Rattle.fh_hub.specs.StoreEdits.{done_of};

use crate::stores::StoresDone;
use fh_blobs::BlobDone;
use fh_dispatch::WorkDone;
use fh_event::Reply;
use fh_leases::LeaseDone;
use fh_queues::QueueDone;
use fh_timers::TimerDone;

pub(crate) fn reply_of(done: StoresDone) -> Reply
    ensures { result ≡ reply_of (done_of done) }
{
    let StoresDone {
        queues,
        blobs,
        leases,
        timers,
        work,
    } = done;
    let noted = reply_of_note(&queues, &blobs);
    let others = reply_of_blobs(reply_of_leases(leases), blobs);
    let asked = reply_of_queues(others, queues);
    let reply = reply_of_timers(noted_or(noted, asked), timers);
    reply_of_work(reply, work)
}

// A blob that is noted now has a new message, and one that was noted has none.
fn reply_of_note(queues: &QueueDone, blobs: &BlobDone) -> Option<Reply>
    ensures { (reply : Reply) → unwrap_or result reply ≡ reply_of_note reply queues.now blobs.now }
{
    match (queues, blobs) {
        (QueueDone::Stored { number, .. }, BlobDone::NowNoted { .. }) => {
            Some(Reply::Noted { number: *number })
        }
        (_, BlobDone::Noted) => Some(Reply::NotedBefore),
        _ => None,
    }
}

fn noted_or(noted: Option<Reply>, reply: Reply) -> Reply
    ensures { result ≡ unwrap_or noted reply }
{
    match noted {
        Some(noted) => noted,
        None => reply,
    }
}

fn reply_of_timers(reply: Reply, done: TimerDone) -> Reply
    ensures { result ≡ reply_of_timers reply done }
{
    match done {
        TimerDone::Running => Reply::Running,
        TimerDone::Same => Reply::Same,
        TimerDone::PastDue { due, next } => Reply::PastDue { due, next },
        TimerDone::Armed { next, .. } => Reply::Armed { next },
        TimerDone::Unarmed => Reply::Unarmed,
        TimerDone::NotDue => Reply::NotDue,
        TimerDone::Ticked { due, next } => Reply::Ticked { due, next },
        TimerDone::Removed | TimerDone::Nothing => reply,
    }
}

fn reply_of_work(reply: Reply, done: WorkDone) -> Reply
    ensures { result ≡ reply_of_work reply done }
{
    match done {
        WorkDone::Configured { number } => Reply::Configured { number },
        WorkDone::Same => Reply::Same,
        WorkDone::Told { reply } => reply,
        WorkDone::Ready | WorkDone::Nothing => reply,
    }
}

fn reply_of_leases(done: LeaseDone) -> Reply
    ensures { result ≡ reply_of_leases done }
{
    match done {
        LeaseDone::Acquired { until } => Reply::Acquired { until },
        LeaseDone::Renewed { until } => Reply::Renewed { until },
        LeaseDone::Released => Reply::Released,
        LeaseDone::AllRenewed { .. } | LeaseDone::Nothing => Reply::Empty,
    }
}

fn reply_of_blobs(others: Reply, done: BlobDone) -> Reply
    ensures { result ≡ reply_of_blobs others done }
{
    match done {
        BlobDone::Stored { version } => Reply::BlobStored { version },
        BlobDone::Removed => Reply::BlobDeleted,
        BlobDone::NowNoted { .. }
        | BlobDone::Noted
        | BlobDone::AllStored { .. }
        | BlobDone::Nothing => others,
    }
}

fn reply_of_queues(others: Reply, done: QueueDone) -> Reply
    ensures { result ≡ reply_of_queues others done }
{
    match done {
        QueueDone::Made => Reply::Made,
        QueueDone::There => Reply::There,
        QueueDone::Stored { number, receipt } => Reply::Stored { number, receipt },
        QueueDone::Taken { items } => Reply::Taken { items },
        QueueDone::Empty => Reply::Empty,
        QueueDone::Updated { receipt } => Reply::Updated { receipt },
        QueueDone::Deleted => Reply::Deleted,
        QueueDone::Cleared { count } => Reply::Cleared { count },
        QueueDone::Released { .. }
        | QueueDone::Renewed { .. }
        | QueueDone::Completed { .. }
        | QueueDone::Poisoned { .. }
        | QueueDone::Swept => others,
    }
}
