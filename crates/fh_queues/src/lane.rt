// A queue's lane: the numbers of all messages that were ever put in it, and a key for each.
ghost use Rattle.std.specs.Prelude.{◌≡◌, ℕ, ◌+◌, ◌<◌, ◌≤◌, ◌^◌, [], ◌∷◌, ◌++◌, length, slice_index, slice_set, true, false, None, IfOk, OnOk};
ghost use Rattle.fh_minima.specs.Tower.{IsFirst};
ghost use Rattle.fh_queues.specs.Lanes.{KeepsKeys, GrowsLane, IsReady};

use crate::{SharedName, Subject};
use fh_base::NoMemory;
use fh_minima::Minima;
use std::alloc::Global;
use std::marker::Model;

/// The key of what never comes.
pub(crate) const NEVER: u64 = u64::MAX;

#[derive(Drop)]
pub(crate) struct Lane {
    name: SharedName,
    // What a message of it is about that is about no blob.
    nothing: Subject,
    // Whether it is a queue, and not a lane that was only staged.
    made: bool,
    numbers: Vec<u64>,
    // At least as many as the numbers; by place, no later than the message is visible.
    keys: Minima,
}

impl Model for Lane {
    ghost use Rattle.std.specs.Prelude.{◌≡◌, ◌-◌, None, vec_len, vec_capacity};
    ghost use Rattle.fh_queues.specs.Lanes.{LaneValue};

    ghost Value = { LaneValue };

    ghost view = { λ lane. record {
      name = lane.name;
      made = lane.made;
      numbers = lane.numbers.items;
      keys = lane.keys;
      room = vec_capacity lane.numbers - vec_len lane.numbers;
    } };

    ghost invariant = { λ lane. lane.nothing ≡ None };
}

impl Lane {
    /// A lane that is no queue yet. Takes no memory.
    pub(crate) fn new(alloc: Global, name: SharedName, nothing: Subject) -> Lane
        requires { nothing ≡ None }
        ensures name { result.name ≡ name }
        ensures made { result.made ≡ false }
        ensures numbers { result.numbers ≡ [] }
        ensures keys { result.keys ≡ [] }
    {
        Lane {
            name,
            nothing,
            made: false,
            numbers: Vec::new(alloc),
            keys: Minima::new(alloc),
        }
    }

    pub(crate) fn name(&self) -> &[u8]
        ensures { result.now ≡ self.now.name }
    {
        self.name.as_bytes()
    }

    /// Its name once more, for a message, and that it is about no blob.
    pub(crate) fn share(&self) -> Result<(SharedName, Subject), NoMemory>
        ensures { IfOk result (λ shared. (shared.0 ≡ self.now.name) × (shared.1 ≡ None)) }
    {
        Ok((self.name.share()?, self.nothing.share()?))
    }

    pub(crate) fn is_made(&self) -> bool
        ensures { result ≡ self.now.made }
    {
        self.made
    }

    pub(crate) fn len(&self) -> usize
        ensures { result ≡ length self.now.numbers }
    {
        self.numbers.len()
    }

    pub(crate) fn number(&self, place: usize) -> u64
        requires { place < length self.now.numbers }
        ensures { result ≡ slice_index self.now.numbers place }
    {
        self.numbers[place]
    }

    /// The first place from `from` on whose key is at most the bound.
    pub(crate) fn first(&self, from: usize, most: u64) -> Option<usize>
        requires { from ≤ length self.now.keys }
        ensures { IsFirst self.now.keys from (length self.now.keys) most result }
    {
        self.keys.first(from, most)
    }

    /// Takes the memory for so many more messages.
    pub(crate) fn reserve(&mut self, more: usize) -> Result<(), NoMemory>
        ensures grows { GrowsLane self.old self.new }
        ensures ready { OnOk result (IsReady more self.new) }
    {
        self.numbers.reserve(more)?;
        reserve_keys(&mut self.keys, self.numbers.len(), more)
    }

    /// The lane is a queue.
    pub(crate) fn make(&mut self)
        ensures { self.new ≡ record self.old { made = true } }
    {
        self.made = true;
    }

    /// Adds a message, and says in which place. Takes no memory.
    pub(crate) fn add(&mut self, number: u64, key: u64) -> usize
        requires { IsReady 1 self.old }
        ensures place { result ≡ length self.old.numbers }
        ensures name { self.new.name ≡ self.old.name }
        ensures made { self.new.made ≡ self.old.made }
        ensures numbers { self.new.numbers ≡ self.old.numbers ++ number ∷ [] }
        ensures keys { self.new.keys ≡ slice_set self.old.keys (length self.old.numbers) key }
        ensures room { self.old.room ≤ self.new.room + 1 }
    {
        let place = self.numbers.len();
        self.keys.set(place, key);
        let _added = self.numbers.push(number);
        place
    }

    /// Changes the key of a place. Takes no memory.
    pub(crate) fn set_key(&mut self, place: usize, key: u64)
        requires { place < length self.old.keys }
        ensures { self.new ≡ record self.old { keys = slice_set self.old.keys place key } }
    {
        self.keys.set(place, key);
    }
}

/// Takes the memory for the keys of so many more places.
pub(crate) fn reserve_keys(keys: &mut Minima, len: usize, more: usize) -> Result<(), NoMemory>
    requires { len + more < 2 ^ 64 }
    ensures keys { KeepsKeys keys.old keys.new }
    ensures ok { OnOk result (len + more ≤ length keys.new) }
{
    for _place in keys.len()..len + more {
        if keys.push(NEVER).is_err() {
            return Err(NoMemory);
        }
    }
    Ok(())
}
