// The other stores, at which the work looks when it rules about a job.
ghost use Rattle.std.specs.Prelude.{◌≡◌};
ghost use Rattle.fh_queues.specs.Edits as queue_edits;
ghost use Rattle.fh_blobs.specs.Edits as blob_edits;
ghost use Rattle.fh_leases.specs.Edits as lease_edits;
ghost use Rattle.fh_dispatch.specs.Part.{others_with};
ghost use Rattle.fh_dispatch.specs.Stores.{others_of, AreReady};

use fh_blobs::Blobs;
use fh_leases::Leases;
use fh_queues::Queues;
use fh_timers::Timers;

#[derive(Clone, Copy)]
pub(crate) struct Stores<'a> {
    pub(crate) queues: &'a Queues,
    pub(crate) blobs: &'a Blobs,
    pub(crate) leases: &'a Leases,
    pub(crate) timers: &'a Timers,
}

impl<'a> Stores<'a> {
    pub(crate) fn of(
        queues: &'a Queues,
        blobs: &'a Blobs,
        leases: &'a Leases,
        timers: &'a Timers,
    ) -> Stores<'a>
        requires queues { queue_edits.IsIdle queues.now }
        requires queue_numbers { queue_edits.HasNumbers queues.now.part }
        requires blobs { blob_edits.IsIdle blobs.now }
        requires blob_numbers { blob_edits.HasNumbers blobs.now.part }
        requires leases { lease_edits.IsIdle leases.now }
        ensures parts { others_of result
            ≡ others_with queues.now.part blobs.now.part leases.now.part timers.now.part }
        ensures ready { AreReady result }
    {
        Stores {
            queues,
            blobs,
            leases,
            timers,
        }
    }
}
