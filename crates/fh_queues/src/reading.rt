// What is read of the queues.
ghost use Rattle.std.specs.Prelude.{◌≡◌, length, option_copied, IfOk, IfErr};
ghost use Rattle.fh_queues.specs.Rows.{live, live_row, row_in};
ghost use Rattle.fh_queues.specs.Part.{has_queue};
ghost use Rattle.fh_queues.specs.Outcome.{peeked};
ghost use Rattle.fh_queues.specs.Places.{place_of, place_of_live, place_of_row, place_of_ending};
ghost use Rattle.fh_queues.specs.Edits.{HasNumbers};
ghost use Rattle.fh_queues.specs.Faults.{IsFaultOf};

use crate::choosing::peeked_items;
use crate::slot::Slot;
use crate::{Ending, Message, Queues};
use fh_base::{Moment, QueueName};
use fh_event::{Items, Place, PlanFault};
use std::alloc::Global;

impl Queues {
    /// The first visible messages of a queue as they are, at most so many.
    #[tactic(auto, unfolding(crate::specs::Outcome::peeked))]
    pub fn peek(
        &self,
        alloc: Global,
        queue: &QueueName,
        count: u64,
        m: Moment,
    ) -> Result<Items, PlanFault>
        ensures ok { IfOk result (λ items. peeked self.now.part queue.now count m ≡ Ok items) }
        ensures err { IfErr result (λ fault. IsFaultOf fault (peeked self.now.part queue.now count m)) }
    {
        if let Some(rule) = self.peek_rule(queue, count) {
            return Err(PlanFault::Rule(rule));
        }
        let rows = self.lists.chosen(alloc, queue, count, m)?;
        Ok(peeked_items(alloc, &rows)?)
    }

    /// How many messages are live.
    pub fn live(&self, m: Moment) -> u64
        ensures { result ≡ length (live m self.now.part.rows) }
    {
        self.lists.live(m)
    }

    /// The row of that number, where it is live.
    pub fn row(&self, number: u64, m: Moment) -> Option<&Message>
        ensures { option_copied result ≡ live_row number m self.now.part.rows }
    {
        let Some(row) = self.lists.row_of(number) else {
            return None;
        };
        if !row.is_live(m) {
            return None;
        }
        Some(row)
    }

    /// Where the message of that number is.
    pub fn place_of(&self, number: u64, m: Moment) -> Place
        ensures { result ≡ place_of self.now.part number m }
    {
        let Some(at) = self.lists.slot_of(number) else {
            return Place::Unknown;
        };
        match &self.lists.slots[at] {
            Slot::Row { row, place: _ } => place_of_row(row, m),
            Slot::Ended { ending } => place_of_ending(*ending),
        }
    }

    /// The number that the next message gets. Takes no memory.
    pub fn next_number(&self) -> u64
        requires { HasNumbers self.now.part }
        ensures { result ≡ self.now.part.next_number }
    {
        self.lists.next_number()
    }

    /// The receipt that is given next. Takes no memory.
    pub fn next_receipt(&self) -> u64
        ensures { result ≡ self.now.part.next_receipt }
    {
        self.lists.next_receipt
    }

    /// Whether the queue is there. Takes no memory.
    pub fn has_queue(&self, queue: &QueueName) -> bool
        ensures { result ≡ has_queue self.now.part.queues queue.now }
    {
        self.lists.lanes.has_queue(queue)
    }

    pub(crate) fn row_in(&self, queue: &QueueName, number: u64, m: Moment) -> Option<&Message>
        ensures { option_copied result ≡ row_in queue.now number m self.now.part.rows }
    {
        let Some(row) = self.lists.row_of(number) else {
            return None;
        };
        if !row.is_of(queue) {
            return None;
        }
        if !row.is_live(m) {
            return None;
        }
        Some(row)
    }
}

fn place_of_row(row: &Message, m: Moment) -> Place
    ensures { result ≡ place_of_row m row.now }
{
    if !row.is_live(m) {
        return Place::Expired;
    }
    place_of_live(row, m)
}

fn place_of_live(row: &Message, m: Moment) -> Place
    ensures { result ≡ place_of_live m row.now }
{
    if row.held && m.ms() < row.visible_at {
        return Place::Held {
            queue: *row.queue.name(),
            until: row.visible_at,
        };
    }
    Place::Waiting {
        queue: *row.queue.name(),
    }
}

fn place_of_ending(ending: Ending) -> Place
    ensures { result ≡ place_of_ending ending }
{
    match ending {
        Ending::Deleted => Place::Deleted,
        Ending::Completed { invocation } => Place::Completed { invocation },
        Ending::Moved { copy } => Place::Moved { copy },
        Ending::Expired => Place::Expired,
    }
}
