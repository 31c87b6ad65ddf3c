// What a command asks: it is answered at once, or it asks all stores.
ghost use Rattle.std.specs.Prelude.{◌≡◌, IfOk};
ghost use Rattle.fh_event.specs.declared.command.Command.TheVariants.{Peek, GetBlob, Note, Arm, Tick, Unnoted};
ghost use Rattle.fh_event.specs.declared.reply.Reply.TheVariants.{Located, Unnoted as UnnotedReply};
ghost use Rattle.fh_queues.specs.Outcome.{peeked};
ghost use Rattle.fh_queues.specs.Places.{place_of};
ghost use Rattle.fh_blobs.specs.Part.{blob_of, unnoted};
ghost use Rattle.fh_dispatch.specs.Timers.{timer_of};
ghost use Rattle.fh_hub.specs.Asked.{Reads, AsksAll, unless_misnamed, asked, asks_of_command, asks_in, asked_by, unless_missing, unless_untimed, number_in, reads_items, reads_blob};
ghost use Rattle.fh_hub.specs.Asking.{asked_as};
ghost use Rattle.fh_hub.specs.StoreEdits.{parts_of};

use crate::asks::{asks_of_command, asks_of_timer};
use crate::names::{blob_container, plain};
use crate::note::{NewNote, blob_function};
use crate::stores::{StoreAsks, Stores};
use fh_base::{Moment, NoMemory, QueueName, Rule, Text, Texts};
use fh_dispatch::note_text;
use fh_event::{About, Command, PlanFault, Reply};
use fh_timers::TimerAsk;
use std::alloc::Global;

/// What a command asks: it is refused or answered at once, it notes a blob, or it asks all stores.
#[derive(Drop)]
pub(crate) enum Asked<'a> {
    Refuses(Rule),
    Reads(Reply),
    Notes(NewNote),
    Asks(StoreAsks<'a>),
}

impl<'a> Asked<'a> {
    /// What a command asks at a moment.
    #[tactic(auto, unfolding(crate::specs::Asked::asked))]
    pub(crate) fn of(
        alloc: Global,
        stores: &Stores,
        command: &'a Command,
        m: Moment,
    ) -> Result<Asked<'a>, NoMemory>
        ensures { IfOk result (λ a. asked_as a ≡ asked (parts_of stores.now) command.entry.now m) }
    {
        match command {
            Command::MakeQueue { .. }
            | Command::Put { .. }
            | Command::Take { .. }
            | Command::Update { .. }
            | Command::Delete { .. }
            | Command::Clear { .. }
            | Command::PutBlob { .. }
            | Command::DeleteBlob { .. }
            | Command::Acquire { .. }
            | Command::RenewLease { .. }
            | Command::ReleaseLease { .. }
            | Command::Configure { .. }
            | Command::Session
            | Command::Fetch { .. } => Ok(Asked::changing(command)),
            Command::Begin { .. } => Ok(Asked::Refuses(Rule::NoSuchFunction)),
            Command::Finish { .. } => Ok(Asked::Refuses(Rule::NoSuchInvocation)),
            Command::Renewals => Ok(Asked::Reads(Reply::NothingDue)),
            Command::Note {
                function,
                container,
                blob,
            } => Asked::noting(alloc, stores, function, container, blob),
            Command::Arm { function } => Ok(Asked::arming(alloc, stores, function, m)),
            Command::Tick { function } => Ok(Asked::ticking(alloc, stores, function, m)),
            Command::Unnoted {
                function,
                container,
            } => Asked::unnoted(alloc, stores, function, container),
            Command::Peek { queue, count } => Asked::peeked(alloc, stores, queue, *count, m),
            Command::GetBlob { container, blob } => Asked::got(alloc, stores, container, blob),
            Command::Locate { number } => Ok(Asked::located(stores, *number, m)),
        }
    }

    // What a command asks that needs no look at the stores.
    fn changing(command: &'a Command) -> Asked<'a>
        ensures { asked_as result ≡ unless_misnamed command.entry.now (AsksAll (asks_of_command command.entry.now)) }
    {
        match asks_of_command(command) {
            Some(asks) => Asked::Asks(asks),
            None => Asked::Refuses(Rule::BadName),
        }
    }

    fn noting(
        alloc: Global,
        stores: &Stores,
        function: &Text,
        container: &Text,
        blob: &Text,
    ) -> Result<Asked<'a>, NoMemory>
        ensures { IfOk result (λ a. asked_as a ≡ unless_misnamed (Note function.now container.now blob.now)
            (asked_by (parts_of stores.now) function.now
            (unless_missing (blob_of container.now blob.now stores.now.blobs.part.blobs)
            (AsksAll (asks_in (parts_of stores.now) (Note function.now container.now blob.now) 0))))) }
    {
        let Some(name) = plain(function) else {
            return Ok(Asked::Refuses(Rule::BadName));
        };
        let Some(of_container) = blob_container(container, blob) else {
            return Ok(Asked::Refuses(Rule::BadName));
        };
        let Some(function) = blob_function(stores, name) else {
            return Ok(Asked::Refuses(Rule::NoSuchFunction));
        };
        let Some(row) = stores.get(&of_container, blob.as_str()) else {
            return Ok(Asked::Refuses(Rule::BlobNotFound));
        };
        let version = row.version;
        let text = note_text(alloc, name, container.as_str(), blob.as_str(), version)?;
        let about = About {
            container: of_container,
            blob: blob.copy(alloc)?,
            version,
        };
        let note = NewNote::new(alloc, function, text, about)?;
        Ok(Asked::Notes(note))
    }

    fn arming(alloc: Global, stores: &Stores, function: &Text, m: Moment) -> Asked<'a>
        ensures { asked_as result ≡ unless_untimed (timer_of function.now stores.now.work.part.functions)
            (AsksAll (asks_in (parts_of stores.now) (Arm function.now) m)) }
    {
        let Some(timer) = stores.timer_of(function.as_str()) else {
            return Asked::Refuses(Rule::NoSuchFunction);
        };
        let ask = TimerAsk::Arm {
            function: timer.function,
            schedule: timer.schedule,
            startup: timer.startup,
            monitor: timer.monitor,
            busy: stores.is_busy(timer.function),
        };
        let run = stores.run_made(alloc, &ask, m);
        Asked::Asks(asks_of_timer(timer.function, ask, run))
    }

    fn ticking(alloc: Global, stores: &Stores, function: &Text, m: Moment) -> Asked<'a>
        ensures { asked_as result ≡ unless_untimed (timer_of function.now stores.now.work.part.functions)
            (AsksAll (asks_in (parts_of stores.now) (Tick function.now) m)) }
    {
        let Some(timer) = stores.timer_of(function.as_str()) else {
            return Asked::Refuses(Rule::NoSuchFunction);
        };
        let ask = TimerAsk::Tick {
            function: timer.function,
            schedule: timer.schedule,
            busy: stores.is_busy(timer.function),
        };
        let run = stores.run_made(alloc, &ask, m);
        Asked::Asks(asks_of_timer(timer.function, ask, run))
    }

    fn unnoted(
        alloc: Global,
        stores: &Stores,
        function: &Text,
        container: &Text,
    ) -> Result<Asked<'a>, NoMemory>
        ensures { IfOk result (λ a. asked_as a ≡ unless_misnamed (Unnoted function.now container.now)
            (asked_by (parts_of stores.now) function.now (Reads (UnnotedReply
            (unnoted stores.now.blobs.part (number_in stores.now.work.part function.now) container.now))))) }
    {
        let Some(name) = plain(function) else {
            return Ok(Asked::Refuses(Rule::BadName));
        };
        let Some(container) = QueueName::read(container.as_str()) else {
            return Ok(Asked::Refuses(Rule::BadName));
        };
        let Some(function) = blob_function(stores, name) else {
            return Ok(Asked::Refuses(Rule::NoSuchFunction));
        };
        let blobs = stores.unnoted(alloc, function, &container)?;
        Ok(Asked::Reads(Reply::Unnoted {
            blobs: Texts::from_vec(blobs),
        }))
    }

    fn located(stores: &Stores, number: u64, m: Moment) -> Asked<'a>
        ensures { asked_as result ≡ Reads (Located (place_of stores.now.queues.part number m)) }
    {
        let place = stores.place_of(number, m);
        Asked::Reads(Reply::Located { place })
    }

    fn peeked(
        alloc: Global,
        stores: &Stores,
        queue: &Text,
        count: u64,
        m: Moment,
    ) -> Result<Asked<'a>, NoMemory>
        ensures { IfOk result (λ a. asked_as a ≡ unless_misnamed (Peek queue.now count)
            (reads_items (peeked stores.now.queues.part queue.now count m))) }
    {
        let Some(queue) = QueueName::read(queue.as_str()) else {
            return Ok(Asked::Refuses(Rule::BadName));
        };
        match stores.peek(alloc, &queue, count, m) {
            Ok(items) => Ok(Asked::Reads(Reply::Peeked { items })),
            Err(PlanFault::Rule(rule)) => Ok(Asked::Refuses(rule)),
            Err(PlanFault::NoMemory) => Err(NoMemory),
        }
    }

    fn got(
        alloc: Global,
        stores: &Stores,
        container: &Text,
        blob: &Text,
    ) -> Result<Asked<'a>, NoMemory>
        ensures { IfOk result (λ a. asked_as a ≡ unless_misnamed (GetBlob container.now blob.now)
            (reads_blob (blob_of container.now blob.now stores.now.blobs.part.blobs))) }
    {
        let Some(container) = blob_container(container, blob) else {
            return Ok(Asked::Refuses(Rule::BadName));
        };
        let Some(row) = stores.get(&container, blob.as_str()) else {
            return Ok(Asked::Refuses(Rule::BlobNotFound));
        };
        let text = row.text.copy(alloc)?;
        Ok(Asked::Reads(Reply::Got {
            version: row.version,
            text,
        }))
    }
}
