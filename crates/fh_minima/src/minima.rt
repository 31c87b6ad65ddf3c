// The keys with the levels above them.
ghost use Rattle.std.specs.Prelude.{◌≡◌, ℕ, ◌+◌, ◌<◌, ◌≤◌, List, [], ◌∷◌, ◌++◌, length, slice_index, slice_set, OnOk, OnErr};
ghost use Rattle.fh_minima.specs.Tower.{IsFirst};

use crate::level::Level;
use crate::{NoMemory, tower};
use std::alloc::Global;
use std::marker::Model;

/// Numbers by place. Contracts see the list of them.
#[derive(Drop)]
pub struct Minima {
    keys: Level,
    above: [Level; 4],
}

impl Model for Minima {
    ghost use Rattle.std.specs.Prelude.{ℕ, List};
    ghost use Rattle.fh_minima.specs.Tower.{IsTower};

    ghost Value = { List ℕ };

    ghost view = { λ m. m.keys };

    ghost invariant = { λ m. IsTower m.keys m.above };
}

impl Minima {
    /// No numbers. Takes no memory.
    pub fn new(alloc: Global) -> Minima
        ensures { result ≡ [] }
    {
        Minima {
            keys: Level::new(alloc),
            above: [
                Level::new(alloc),
                Level::new(alloc),
                Level::new(alloc),
                Level::new(alloc),
            ],
        }
    }

    pub fn len(&self) -> usize
        ensures { result ≡ length self.now }
    {
        self.keys.len()
    }

    /// Adds a number behind the others.
    pub fn push(&mut self, key: u64) -> Result<(), NoMemory>
        ensures ok { OnOk result (self.new ≡ self.old ++ key ∷ []) }
        ensures err { OnErr result (self.new ≡ self.old) }
    {
        tower::push(&mut self.keys, &mut self.above, key)
    }

    /// Changes the number of a place. Takes no memory.
    pub fn set(&mut self, place: usize, key: u64)
        requires { place < length self.old }
        ensures { self.new ≡ slice_set self.old place key }
    {
        tower::set(&mut self.keys, &mut self.above, place, key);
    }

    /// The first place from `from` on whose number is at most the bound.
    pub fn first(&self, from: usize, most: u64) -> Option<usize>
        requires { from ≤ length self.now }
        ensures { IsFirst self.now from (length self.now) most result }
    {
        tower::first(&self.keys, &self.above, from, most)
    }
}
