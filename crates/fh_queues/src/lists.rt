// How the queues are kept, and how each act changes them. No act takes memory.
ghost use Rattle.std.specs.Prelude.{◌≡◌, ℕ, List, ◌+◌, ◌<◌, ◌≤◌, ◌^◌, length, OnOk};
ghost use Rattle.fh_queues.specs.Part.{no_queues};
ghost use Rattle.fh_queues.specs.Acts.{acted, by_acts, with_queue, with_row, with_row_change, with_ends};
ghost use Rattle.fh_queues.specs.Lanes.{lane_of, Grows, IsReady};
ghost use Rattle.fh_queues.specs.Index.{IsSlotOf};
ghost use Rattle.fh_queues.specs.Lists.{part_of, IsSound, HasRoom, IsReadyFor, AreReady, Fits};

use crate::act::{Act, NewMessage, RowChange};
use crate::lane::reserve_keys;
use crate::lanes::Lanes;
use crate::rows::{change_row, expiry_key, key_of, row_of};
use crate::slot::Slot;
use fh_base::NoMemory;
use fh_minima::Minima;
use std::alloc::Global;

#[derive(Drop)]
pub(crate) struct Lists {
    pub(crate) lanes: Lanes,
    // By number, from 1 on.
    pub(crate) slots: Vec<Slot>,
    // By number too, and maybe more: no later than the expiry.
    pub(crate) expiries: Minima,
    // How many rows there are.
    pub(crate) count: usize,
    pub(crate) next_receipt: u64,
}

impl Lists {
    pub(crate) fn new(alloc: Global) -> Lists
        ensures part { part_of result ≡ no_queues }
        ensures sound { IsSound result }
    {
        Lists {
            lanes: Lanes::new(alloc),
            slots: Vec::new(alloc),
            expiries: Minima::new(alloc),
            count: 0,
            next_receipt: 1,
        }
    }

    pub(crate) fn next_number(&self) -> u64
        requires { length self.now.slots.items + 1 < 2 ^ 64 }
        ensures { result ≡ length self.now.slots.items + 1 }
    {
        self.slots.len() as u64 + 1
    }

    /// Takes all the memory of the acts.
    pub(crate) fn reserve(&mut self, acts: &[Act]) -> Result<(), NoMemory>
        requires sound { IsSound self.old }
        ensures part { part_of self.new ≡ part_of self.old }
        ensures sound { IsSound self.new }
        ensures fits { OnOk result (Fits self.new acts.now) }
    {
        self.slots.reserve(acts.len())?;
        reserve_keys(&mut self.expiries, self.slots.len(), acts.len())?;
        reserve_lanes(&mut self.lanes, acts)
    }

    /// Does the acts in order. There has to be room for them.
    pub(crate) fn act_all(&mut self, acts: Vec<Act>)
        requires sound { IsSound self.old }
        requires fits { Fits self.old acts.items }
        requires numbers { length self.old.slots.items + 1 + length acts.items < 2 ^ 64 }
        requires receipts { self.old.next_receipt + length acts.items < 2 ^ 64 }
        ensures part { part_of self.new ≡ by_acts (part_of self.old) acts.items }
        ensures sound { IsSound self.new }
    {
        for act in acts {
            self.act(act);
        }
    }

    #[tactic(auto, unfolding(crate::specs::Acts::acted))]
    fn act(&mut self, act: Act)
        requires sound { IsSound self.old }
        requires room { HasRoom self.old 1 }
        requires ready { IsReadyFor self.old.lanes 1 act }
        requires numbers { length self.old.slots.items + 2 < 2 ^ 64 }
        requires receipts { self.old.next_receipt + 1 < 2 ^ 64 }
        ensures part { part_of self.new ≡ acted (part_of self.old) act }
        ensures sound { IsSound self.new }
        ensures room { (k : ℕ) → HasRoom self.old (k + 1) → HasRoom self.new k }
        ensures ready { (k : ℕ) (name : List ℕ) → IsReady (k + 1) (lane_of name self.old.lanes)
            → IsReady k (lane_of name self.new.lanes) }
        ensures number { length self.new.slots.items ≤ length self.old.slots.items + 1 }
        ensures receipt { self.new.next_receipt ≤ self.old.next_receipt + 1 }
    {
        match act {
            Act::AddQueue { queue } => self.lanes.make(&queue),
            Act::AddRow { new } => self.add_row(new),
            Act::ChangeRow { number, change } => self.change_row(number, change),
            Act::EndRows { which, ending } => self.end_rows(&which, ending),
        }
    }

    fn add_row(&mut self, new: NewMessage)
        requires sound { IsSound self.old }
        requires room { HasRoom self.old 1 }
        requires ready { IsReady 1 (lane_of new.queue self.old.lanes) }
        requires numbers { length self.old.slots.items + 2 < 2 ^ 64 }
        requires receipts { self.old.next_receipt + 1 < 2 ^ 64 }
        ensures part { part_of self.new ≡ with_row new (part_of self.old) }
        ensures sound { IsSound self.new }
        ensures room { (k : ℕ) → HasRoom self.old (k + 1) → HasRoom self.new k }
        ensures ready { (k : ℕ) (name : List ℕ) → IsReady (k + 1) (lane_of name self.old.lanes)
            → IsReady k (lane_of name self.new.lanes) }
    {
        let row = row_of(new, self.next_number(), self.next_receipt);
        let place = self
            .lanes
            .add(&row.queue, row.number, key_of(row.visible_at));
        self.expiries.set(self.slots.len(), expiry_key(&row.expiry));
        let _added = self.slots.push(Slot::Row { row, place });
        self.count += 1;
        self.next_receipt += 1;
    }

    fn change_row(&mut self, number: u64, change: RowChange)
        requires sound { IsSound self.old }
        requires receipts { self.old.next_receipt + 1 < 2 ^ 64 }
        ensures part { part_of self.new ≡ with_row_change number change (part_of self.old) }
        ensures sound { IsSound self.new }
        ensures room { (k : ℕ) → HasRoom self.old k → HasRoom self.new k }
        ensures ready { (k : ℕ) (name : List ℕ) → IsReady k (lane_of name self.old.lanes)
            → IsReady k (lane_of name self.new.lanes) }
    {
        let receipt = self.next_receipt;
        self.next_receipt += 1;
        let Some(at) = self.slot_of(number) else {
            return;
        };
        if let Slot::Row { row, place } = &mut self.slots[at] {
            change_row(row, receipt, change);
            self.lanes
                .set_key(&row.queue, *place, key_of(row.visible_at));
        }
    }

    /// The slot of that number.
    pub(crate) fn slot_of(&self, number: u64) -> Option<usize>
        ensures { IsSlotOf number (length self.now.slots.items) result }
    {
        if number == 0 || (self.slots.len() as u64) < number {
            return None;
        }
        Some((number - 1) as usize)
    }
}

// Takes the memory of the acts in the lanes.
fn reserve_lanes(lanes: &mut Lanes, acts: &[Act]) -> Result<(), NoMemory>
    ensures grows { Grows lanes.old lanes.new }
    ensures ready { OnOk result (AreReady lanes.new (length acts.now) acts.now) }
{
    for act in acts {
        reserve_lane(lanes, act, acts.len())?;
    }
    Ok(())
}

fn reserve_lane(lanes: &mut Lanes, act: &Act, more: usize) -> Result<(), NoMemory>
    ensures grows { Grows lanes.old lanes.new }
    ensures ready { OnOk result (IsReadyFor lanes.new more act.now) }
{
    match act {
        Act::AddQueue { queue } => lanes.reserve(queue, more),
        Act::AddRow { new } => lanes.reserve(new.queue.name(), more),
        Act::ChangeRow { .. } | Act::EndRows { .. } => Ok(()),
    }
}
