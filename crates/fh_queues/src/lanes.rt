// The lanes of all queues, in order of bytes of their names.
ghost use Rattle.std.specs.Prelude.{◌≡◌, ◌+◌, ◌<◌, ◌≤◌, ◌^◌, List, ℕ, [], ◌∷◌, ◌++◌, length, map, slice_set, true, false, None, IfOk, IfSome, OnOk};
ghost use Rattle.std.specs.Str.{bytes_eq};
ghost use Rattle.fh_queues.specs.Order.{are_in_order, with_name};
ghost use Rattle.fh_queues.specs.Part.{has_queue};
ghost use Rattle.fh_queues.specs.Lanes.{name_of, lane_of, queues_of, IsSought, IsNextIn, Grows, IsReady, SameKeys};

use crate::lane::Lane;
use crate::{SharedName, Subject};
use fh_base::{NoMemory, QueueName};
use std::alloc::Global;
use std::cmp::Ordering;
use std::marker::Model;

#[derive(Drop)]
pub(crate) struct Lanes {
    lanes: Vec<Lane>,
    alloc: Global,
}

impl Model for Lanes {
    ghost use Rattle.std.specs.Prelude.{◌≡◌, List, true, map};
    ghost use Rattle.fh_queues.specs.Order.{are_in_order};
    ghost use Rattle.fh_queues.specs.Lanes.{LaneValue, name_of};

    ghost Value = { List LaneValue };

    ghost view = { λ l. l.lanes.items };

    ghost invariant = { λ l. are_in_order (map name_of l.lanes.items) ≡ true };
}

/// A place in a lane, and the slot that its number leads to.
#[derive(Clone, Copy)]
pub(crate) struct Listed {
    pub(crate) place: usize,
    pub(crate) slot: usize,
}

impl Lanes {
    /// Takes no memory.
    pub(crate) fn new(alloc: Global) -> Lanes
        ensures { result ≡ [] }
    {
        Lanes {
            lanes: Vec::new(alloc),
            alloc,
        }
    }

    pub(crate) fn has_queue(&self, queue: &QueueName) -> bool
        ensures { result ≡ has_queue (queues_of self.now) queue.now }
    {
        match self.find(queue) {
            Ok(at) => self.lanes[at].is_made(),
            Err(_) => false,
        }
    }

    /// The queue's name, as its lane shares it with its messages, and that one is about no blob.
    pub(crate) fn share(&self, queue: &QueueName) -> Result<(SharedName, Subject), NoMemory>
        ensures { IfOk result (λ shared. (shared.0 ≡ queue.now) × (shared.1 ≡ None)) }
    {
        match self.find(queue) {
            Ok(at) => self.lanes[at].share(),
            Err(_) => {
                let name = SharedName::new(self.alloc, *queue)?;
                Ok((name, Subject::new(self.alloc, None)?))
            }
        }
    }

    /// The first place from `from` on in the queue's lane whose key is at most the bound.
    pub(crate) fn next_in(&self, queue: &QueueName, from: usize, most: u64) -> Option<Listed>
        requires from { from ≤ length (lane_of queue.now self.now).keys }
        requires keyed { length (lane_of queue.now self.now).numbers
            ≤ length (lane_of queue.now self.now).keys }
        ensures next { IsNextIn (lane_of queue.now self.now) from most result }
        ensures fits { IfSome result (λ next. next.place + 1 < 2 ^ 64) }
    {
        let Ok(at) = self.find(queue) else {
            return None;
        };
        let lane = &self.lanes[at];
        let Some(place) = lane.first(from, most) else {
            return None;
        };
        if lane.len() <= place {
            return None;
        }
        let number = lane.number(place);
        Some(Listed {
            place,
            slot: number.saturating_sub(1) as usize,
        })
    }

    /// Takes the memory for so many more messages of a queue, which needn't be there yet.
    pub(crate) fn reserve(&mut self, queue: &QueueName, more: usize) -> Result<(), NoMemory>
        ensures grows { Grows self.old self.new }
        ensures ready { OnOk result (IsReady more (lane_of queue.now self.new)) }
    {
        match self.find(queue) {
            Ok(at) => self.lanes[at].reserve(more),
            Err(at) => {
                let name = SharedName::new(self.alloc, *queue)?;
                let nothing = Subject::new(self.alloc, None)?;
                let mut lane = Lane::new(self.alloc, name, nothing);
                lane.reserve(more)?;
                self.lanes.insert(at, lane)?;
                Ok(())
            }
        }
    }

    /// The lane is a queue. Takes no memory.
    pub(crate) fn make(&mut self, queue: &QueueName)
        requires { IsReady 1 (lane_of queue.now self.old) }
        ensures queues { queues_of self.new ≡ with_name queue.now (queues_of self.old) }
        ensures lanes { (name : List ℕ) → SameKeys (lane_of name self.old) (lane_of name self.new) }
    {
        if let Ok(at) = self.find(queue) {
            self.lanes[at].make();
        }
    }

    /// Adds a message to the queue's lane, and says in which place. Takes no memory.
    pub(crate) fn add(&mut self, queue: &SharedName, number: u64, key: u64) -> usize
        requires { IsReady 1 (lane_of queue.now self.old) }
        ensures place { result ≡ length (lane_of queue.now self.old).numbers }
        ensures numbers { (lane_of queue.now self.new).numbers
            ≡ (lane_of queue.now self.old).numbers ++ number ∷ [] }
        ensures keys { (lane_of queue.now self.new).keys
            ≡ slice_set (lane_of queue.now self.old).keys (length (lane_of queue.now self.old).numbers) key }
        ensures room { (lane_of queue.now self.old).room ≤ (lane_of queue.now self.new).room + 1 }
        ensures others { (name : List ℕ) → bytes_eq queue.now name ≡ false
            → lane_of name self.new ≡ lane_of name self.old }
        ensures queues { queues_of self.new ≡ queues_of self.old }
    {
        let Ok(at) = self.find_shared(queue) else {
            return 0;
        };
        self.lanes[at].add(number, key)
    }

    /// Changes the key of a place in the queue's lane. Takes no memory.
    pub(crate) fn set_key(&mut self, queue: &SharedName, place: usize, key: u64)
        requires { place < length (lane_of queue.now self.old).keys }
        ensures lane { lane_of queue.now self.new
            ≡ record (lane_of queue.now self.old) { keys = slice_set (lane_of queue.now self.old).keys place key } }
        ensures others { (name : List ℕ) → bytes_eq queue.now name ≡ false
            → lane_of name self.new ≡ lane_of name self.old }
        ensures queues { queues_of self.new ≡ queues_of self.old }
    {
        if let Ok(at) = self.find_shared(queue) {
            self.lanes[at].set_key(place, key);
        }
    }

    fn find_shared(&self, queue: &SharedName) -> Result<usize, usize>
        ensures { IsSought queue.now self.now result }
    {
        self.find(queue.name())
    }

    // Where the lane of that name stands, or its place.
    fn find(&self, queue: &QueueName) -> Result<usize, usize>
        ensures { IsSought queue.now self.now result }
    {
        find_place(&self.lanes, queue)
    }
}

// Where the lane of that name stands, or its place, by binary search.
fn find_place(lanes: &[Lane], queue: &QueueName) -> Result<usize, usize>
    requires { are_in_order (map name_of lanes.now) ≡ true }
    ensures { IsSought queue.now lanes.now result }
{
    let wanted = queue.as_bytes();
    let mut low = 0;
    let mut high = lanes.len();
    while low < high {
        let middle = low + (high - low) / 2;
        let order = lanes[middle].name().cmp(&wanted);
        match order {
            Ordering::Equal => return Ok(middle),
            Ordering::Less => low = middle + 1,
            Ordering::Greater => high = middle,
        }
    }
    Err(low)
}
