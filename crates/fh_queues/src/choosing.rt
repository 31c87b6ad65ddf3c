// The messages that are found by the index at a moment, and how an answer lists them.
ghost use Rattle.std.specs.Prelude.{◌≡◌, ℕ, ◌<◌, ◌^◌, ◌+◌, ◌-◌, ◌≤◌, [], ◌∷◌, ◌++◌, map, filter, take, nat_lt, length, option_copied, option_to_list, vec_len, true, IfOk, OnOk};
ghost use Rattle.std.specs.List.{list_all};
ghost use Rattle.fh_queues.specs.Rows.{is_visible, visible, live, dead, row_of};
ghost use Rattle.fh_queues.specs.Outcome.{taken_items, peeked_item, rows_of};
ghost use Rattle.fh_queues.specs.Whole.{is_counted};
ghost use Rattle.fh_queues.specs.Index.{kept, slot_at, live_of, IsNextDue};
ghost use Rattle.fh_queues.specs.Lists.{IsSound};

use crate::Message;
use crate::lists::Lists;
use crate::rows::LAST;
use crate::slot::Slot;
use fh_base::{Moment, NoMemory, QueueName};
use fh_event::{Item, Items};
use std::alloc::Global;

impl Lists {
    /// The first visible messages of a queue, at most so many.
    pub(crate) fn chosen(
        &self,
        alloc: Global,
        queue: &QueueName,
        count: u64,
        m: Moment,
    ) -> Result<Vec<&Message>, NoMemory>
        requires { IsSound self.now }
        ensures { IfOk result (λ found. map (λ row. row.now) found.items
            ≡ take count (visible queue.now m (kept self.now.slots.items))) }
    {
        let mut found = Vec::new(alloc);
        let mut from = 0;
        while (found.len() as u64) < count {
            let Some(next) = self.lanes.next_in(queue, from, m.ms()) else {
                return Ok(found);
            };
            push_some(&mut found, self.visible_at(next.slot, queue, m))?;
            from = next.place + 1;
        }
        Ok(found)
    }

    /// How many live messages a queue has.
    pub(crate) fn live_in(&self, queue: &QueueName, m: Moment) -> u64
        requires { IsSound self.now }
        ensures { result ≡ length (rows_of queue.now (live m (kept self.now.slots.items))) }
    {
        let mut count = 0;
        let mut from = 0;
        while let Some(next) = self.lanes.next_in(queue, from, LAST) {
            count += self.count_live(next.slot, queue, m);
            from = next.place + 1;
        }
        count
    }

    /// How many rows are live: all but those whose expiry has come.
    pub(crate) fn live(&self, m: Moment) -> u64
        requires { IsSound self.now }
        ensures { result ≡ length (live m (kept self.now.slots.items)) }
    {
        let mut dead = 0;
        let mut from = 0;
        while let Some(at) = self.next_due(from, m) {
            dead += self.count_dead(at, m);
            from = at + 1;
        }
        self.count as u64 - dead
    }

    /// The first slot from `from` on whose row may have expired.
    pub(crate) fn next_due(&self, from: usize, m: Moment) -> Option<usize>
        requires sound { IsSound self.now }
        requires within { from ≤ length self.now.slots.items }
        ensures { IsNextDue self.now.expiries (length self.now.slots.items) from m result }
    {
        let at = self.expiries.first(from, m.ms())?;
        if self.slots.len() <= at {
            return None;
        }
        Some(at)
    }

    /// The row of that number.
    pub(crate) fn row_of(&self, number: u64) -> Option<&Message>
        requires { IsSound self.now }
        ensures { option_copied result ≡ row_of number (kept self.now.slots.items) }
    {
        let Some(at) = self.slot_of(number) else {
            return None;
        };
        match &self.slots[at] {
            Slot::Row { row, place: _ } => Some(row),
            Slot::Ended { .. } => None,
        }
    }

    // The row of that slot, where it is visible in the queue.
    fn visible_at(&self, at: usize, queue: &QueueName, m: Moment) -> Option<&Message>
        requires { at < length self.now.slots.items }
        ensures { option_to_list (option_copied result)
            ≡ filter (is_visible queue.now m) (kept (slot_at self.now.slots.items at ∷ [])) }
    {
        match &self.slots[at] {
            Slot::Row { row, place: _ } if row.is_visible(queue, m) => Some(row),
            Slot::Row { .. } | Slot::Ended { .. } => None,
        }
    }

    fn count_live(&self, at: usize, queue: &QueueName, m: Moment) -> u64
        requires { at < length self.now.slots.items }
        ensures { result ≡ length (filter (live_of queue.now m) (kept (slot_at self.now.slots.items at ∷ []))) }
    {
        match &self.slots[at] {
            Slot::Row { row, place: _ } if row.is_of(queue) && row.is_live(m) => 1,
            Slot::Row { .. } | Slot::Ended { .. } => 0,
        }
    }

    fn count_dead(&self, at: usize, m: Moment) -> u64
        requires { at < length self.now.slots.items }
        ensures { result ≡ length (dead m (kept (slot_at self.now.slots.items at ∷ []))) }
    {
        match &self.slots[at] {
            Slot::Row { row, place: _ } if !row.is_live(m) => 1,
            Slot::Row { .. } | Slot::Ended { .. } => 0,
        }
    }
}

fn push_some<'a>(found: &mut Vec<&'a Message>, row: Option<&'a Message>) -> Result<(), NoMemory>
    ensures rows { OnOk result (map (λ r. r.now) found.new.items
        ≡ map (λ r. r.now) found.old.items ++ option_to_list (option_copied row.entry)) }
    ensures few { vec_len found.new ≤ vec_len found.old + 1 }
{
    if let Some(row) = row {
        found.push(row)?;
    }
    Ok(())
}

/// The messages as they are.
pub(crate) fn peeked_items(alloc: Global, rows: &[&Message]) -> Result<Items, NoMemory>
    ensures { IfOk result (λ items. items ≡ map peeked_item (map (λ row. row.now) rows.now)) }
{
    let mut items = Vec::new(alloc);
    for row in rows {
        let text = row.text.copy(alloc)?;
        items.push(Item {
            number: row.number,
            receipt: row.receipt,
            count: row.count,
            text,
        })?;
    }
    Ok(Items::new(items))
}

/// The messages taken once more, each with a receipt of its own, from that one on.
pub(crate) fn taken_items(alloc: Global, rows: &[&Message], receipt: u64) -> Result<Items, NoMemory>
    requires room { receipt + length rows.now < 2 ^ 64 }
    requires counts { list_all (is_counted receipt) (map (λ row. row.now) rows.now) ≡ true }
    ensures { IfOk result (λ items. items ≡ taken_items receipt (map (λ row. row.now) rows.now)) }
{
    let mut items = Vec::new(alloc);
    let mut next = receipt;
    for row in rows {
        let text = row.text.copy(alloc)?;
        items.push(Item {
            number: row.number,
            receipt: next,
            count: row.count + 1,
            text,
        })?;
        next += 1;
    }
    Ok(Items::new(items))
}
