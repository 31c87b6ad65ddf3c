// A list of keys.
ghost use Rattle.std.specs.Prelude.{◌≡◌, ℕ, ◌+◌, ◌<◌, ◌≤◌, List, [], ◌∷◌, ◌++◌, length, slice_index, slice_set, OnOk, OnErr};
ghost use Rattle.fh_minima.specs.Tower.{IsFirst, IsLeastFrom};

use std::alloc::{AllocError, AllocFailed, Global};
use std::marker::Model;

/// The memory was refused.
#[derive(Clone, Copy, Debug, PartialEq, Eq, Drop)]
pub struct NoMemory;

#[derive(Drop)]
pub(crate) struct Level {
    keys: Vec<u64>,
}

impl Model for Level {
    ghost Value = { List ℕ };

    ghost view = { λ level. level.keys.items };
}

impl Level {
    pub(crate) fn new(alloc: Global) -> Level
        ensures { result ≡ [] }
    {
        Level {
            keys: Vec::new(alloc),
        }
    }

    pub(crate) fn len(&self) -> usize
        ensures { result ≡ length self.now }
    {
        self.keys.len()
    }

    pub(crate) fn get(&self, place: usize) -> u64
        requires { place < length self.now }
        ensures { result ≡ slice_index self.now place }
    {
        self.keys[place]
    }

    pub(crate) fn set(&mut self, place: usize, key: u64)
        requires { place < length self.old }
        ensures { self.new ≡ slice_set self.old place key }
    {
        self.keys[place] = key;
    }

    pub(crate) fn push(&mut self, key: u64) -> Result<(), NoMemory>
        ensures ok { OnOk result (self.new ≡ self.old ++ key ∷ []) }
        ensures err { OnErr result (self.new ≡ self.old) }
    {
        match self.keys.push(key) {
            Ok(()) => Ok(()),
            Err(_) => Err(NoMemory),
        }
    }

    /// The first place from `from` up to `to` whose key is at most the bound.
    pub(crate) fn scan(&self, from: usize, to: usize, most: u64) -> Option<usize>
        requires order { from ≤ to }
        requires within { to ≤ length self.now }
        ensures { IsFirst self.now from to most result }
    {
        for place in from..to {
            if self.keys[place] <= most {
                return Some(place);
            }
        }
        None
    }

    /// At most each key from `from` up to `to`.
    pub(crate) fn least(&self, from: usize, to: usize) -> u64
        requires order { from ≤ to }
        requires within { to ≤ length self.now }
        ensures { IsLeastFrom self.now from to result }
    {
        let mut least = u64::MAX;
        for place in from..to {
            if self.keys[place] < least {
                least = self.keys[place];
            }
        }
        least
    }
}
