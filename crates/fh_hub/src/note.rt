// A note that is to be made: what it asks borrows from it.
ghost use Rattle.std.specs.Prelude.{◌≡◌, true, false, IfOk, MatchOption, option_copied};
ghost use Rattle.fh_dispatch.specs.Part.{function_of};
ghost use Rattle.fh_dispatch.specs.Queues.{inner_queue};
ghost use Rattle.fh_hub.specs.Asked.{works_on_blobs, number_in};
ghost use Rattle.fh_hub.specs.Asking.{asks_of_note};
ghost use Rattle.fh_hub.specs.StoreEdits.{asks_of};

use crate::stores::{StoreAsks, Stores};
use fh_base::{NoMemory, QueueName, Text};
use fh_blobs::BlobAsk;
use fh_dispatch::{WorkAsk, inner_queue};
use fh_event::{About, FunctionSettings};
use fh_leases::LeaseAsk;
use fh_queues::QueueAsk;
use fh_timers::TimerAsk;
use std::alloc::Global;

/// The message that tells a function of a blob as it is, and the function's number.
#[derive(Drop)]
pub(crate) struct NewNote {
    pub(crate) function: u64,
    pub(crate) queue: QueueName,
    pub(crate) text: Text,
    pub(crate) about: About,
}

impl NewNote {
    /// The note that a message with this text makes, which is about a blob as it is, for the function of this
    /// number.
    pub(crate) fn new(
        alloc: Global,
        function: u64,
        text: Text,
        about: About,
    ) -> Result<NewNote, NoMemory>
        ensures function { IfOk result (λ note. note.function ≡ function) }
        ensures queue { IfOk result (λ note. note.queue ≡ inner_queue function) }
        ensures text { IfOk result (λ note. note.text ≡ text) }
        ensures about { IfOk result (λ note. note.about ≡ about) }
    {
        let queue = inner_queue(alloc, function)?;
        Ok(NewNote {
            function,
            queue,
            text,
            about,
        })
    }

    /// What it asks: that its message is put and its receipt is made.
    pub(crate) fn asks(&self) -> StoreAsks<'_>
        ensures { asks_of result ≡ asks_of_note self.now }
    {
        StoreAsks {
            queues: QueueAsk::Put {
                queue: self.queue,
                delay: 0,
                ttl: None,
                text: &self.text,
                about: Some(&self.about),
            },
            blobs: BlobAsk::Note {
                function: self.function,
                container: self.about.container,
                name: self.about.blob.as_str(),
            },
            leases: LeaseAsk::Nothing,
            timers: TimerAsk::Nothing,
            work: WorkAsk::Nothing,
        }
    }
}

/// The number of a function that works on blobs.
pub(crate) fn blob_function(stores: &Stores, name: &str) -> Option<u64>
    ensures { MatchOption result (works_on_blobs (function_of name.now stores.now.work.part.functions) ≡ false)
        (λ number. (works_on_blobs (function_of name.now stores.now.work.part.functions) ≡ true)
        × (number ≡ number_in stores.now.work.part name.now)) }
{
    let function = stores.function_of(name)?;
    match function.settings {
        FunctionSettings::Blob { .. } => Some(function.number),
        FunctionSettings::Queue { .. } | FunctionSettings::Timer { .. } => None,
    }
}
