// How rows end: those of a queue, those that aren't live, or one.
ghost use Rattle.std.specs.Prelude.{◌≡◌, ℕ, List, ◌<◌, ◌≤◌, ◌^◌, length, slice_set};
ghost use Rattle.fh_queues.specs.Acts.{is_one, with_ends};
ghost use Rattle.fh_queues.specs.Lanes.{lane_of, IsReady};
ghost use Rattle.fh_queues.specs.Index.{ended_slot, slot_at};
ghost use Rattle.fh_queues.specs.Lists.{part_of, IsSound, HasRoom, Stays, Ends};

use crate::Ending;
use crate::act::Which;
use crate::lane::NEVER;
use crate::lists::Lists;
use crate::rows::LAST;
use crate::slot::Slot;
use fh_base::{Moment, QueueName};

impl Lists {
    /// Ends the rows of these. Takes no memory.
    pub(crate) fn end_rows(&mut self, which: &Which, ending: Ending)
        requires { IsSound self.old }
        ensures part { part_of self.new ≡ with_ends which.now ending (part_of self.old) }
        ensures sound { IsSound self.new }
        ensures room { (k : ℕ) → HasRoom self.old k → HasRoom self.new k }
        ensures ready { (k : ℕ) (name : List ℕ) → IsReady k (lane_of name self.old.lanes)
            → IsReady k (lane_of name self.new.lanes) }
    {
        match which {
            Which::Dead { at } => self.end_dead(which, *at, ending),
            Which::InQueue { queue } => self.end_queue(which, queue, ending),
            Which::Numbered { number } => self.end_one(which, *number, ending),
        }
    }

    // A step looks at those whose expiry has come, and at no others.
    fn end_dead(&mut self, which: &Which, m: Moment, ending: Ending)
        requires sound { IsSound self.old }
        requires which { which.now ≡ Which.Dead m }
        ensures { Ends (is_one which.now) ending self.old self.new }
    {
        let mut from = 0;
        while let Some(at) = self.next_due(from, m) {
            self.end_at(at, which, ending);
            from = at + 1;
        }
    }

    fn end_queue(&mut self, which: &Which, queue: &QueueName, ending: Ending)
        requires sound { IsSound self.old }
        requires which { which.now ≡ Which.InQueue queue.now }
        ensures { Ends (is_one which.now) ending self.old self.new }
    {
        let mut from = 0;
        while let Some(next) = self.lanes.next_in(queue, from, LAST) {
            self.end_at(next.slot, which, ending);
            from = next.place + 1;
        }
    }

    fn end_one(&mut self, which: &Which, number: u64, ending: Ending)
        requires sound { IsSound self.old }
        requires which { which.now ≡ Which.Numbered number }
        ensures { Ends (is_one which.now) ending self.old self.new }
    {
        if let Some(at) = self.slot_of(number) {
            self.end_at(at, which, ending);
        }
    }

    // Ends the row of that slot, where it is one of these.
    fn end_at(&mut self, at: usize, which: &Which, ending: Ending)
        requires sound { IsSound self.old }
        requires within { at < length self.old.slots.items }
        ensures slots { self.new.slots.items
            ≡ slice_set self.old.slots.items at (ended_slot (is_one which.now) ending (slot_at self.old.slots.items at)) }
        ensures sound { IsSound self.new }
        ensures stays { Stays self.old self.new }
    {
        let Slot::Row { row, place } = &self.slots[at] else {
            return;
        };
        if !which.is_one(row) {
            return;
        }
        self.lanes.set_key(&row.queue, *place, NEVER);
        self.expiries.set(at, NEVER);
        self.count -= 1;
        self.slots[at] = Slot::Ended { ending };
    }
}
