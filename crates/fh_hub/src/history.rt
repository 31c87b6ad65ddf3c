// The history, as the bytes of its entries.
ghost use Rattle.std.specs.Prelude.{◌≡◌, ◌==◌, ◌<◌, ◌≤◌, ◌∷◌, ◌++◌, [], length, MatchOption, OnOk};
ghost use Rattle.std.specs.List.{HoldsAt};
ghost use Rattle.fh_hub.specs.Replay.{bytes_of};
ghost use Rattle.fh_hub.specs.History.{entry_of, IsSpelled};

use fh_base::{Bytes, NoMemory};
use std::alloc::Global;
use std::marker::Model;

/// The recorded commands with their moments, in order. Contracts see the list of them; what is kept are
/// the bytes of their journal entries.
#[derive(Drop)]
pub struct History {
    payloads: Vec<Bytes>,
}

impl Model for History {
    ghost use Rattle.std.specs.Prelude.{◌≡◌, ◌-◌, map, vec_len, vec_capacity};
    ghost use Rattle.fh_hub.specs.Replay.{payloads_of};
    ghost use Rattle.fh_hub.specs.History.{HistoryState, entry_of};

    ghost Value = { HistoryState };

    ghost view = { λ h. record {
      entries = map entry_of h.payloads.items;
      room = vec_capacity h.payloads - vec_len h.payloads;
    } };

    ghost invariant = { λ h. payloads_of (map entry_of h.payloads.items) ≡ h.payloads.items };
}

impl History {
    /// No entries. Takes no memory.
    pub fn new(alloc: Global) -> History
        ensures { result.entries ≡ [] }
    {
        History {
            payloads: Vec::new(alloc),
        }
    }

    /// The number of entries.
    pub fn len(&self) -> u64
        ensures { result ≡ length self.now.entries }
    {
        self.payloads.len() as u64
    }

    pub fn is_empty(&self) -> bool
        ensures { result ≡ (length self.now.entries == 0) }
    {
        self.payloads.is_empty()
    }

    /// The bytes of the entry at this place, counted from 0.
    pub fn entry(&self, index: u64) -> Option<&[u8]>
        ensures { MatchOption result (length self.now.entries ≤ index)
            (λ bytes. (index < length self.now.entries)
            × HoldsAt (λ e. bytes.now ≡ bytes_of e) self.now.entries index) }
    {
        let payload = self.payloads.get(index as usize)?;
        Some(payload.as_slice())
    }

    /// Makes room for one more entry.
    pub(crate) fn reserve(&mut self) -> Result<(), NoMemory>
        ensures entries { self.new.entries ≡ self.old.entries }
        ensures room { OnOk result (1 ≤ self.new.room) }
    {
        Ok(self.payloads.reserve(1)?)
    }

    /// Adds the entry that these bytes spell. There has to be room for it.
    pub(crate) fn add(&mut self, payload: Bytes)
        requires spelled { IsSpelled payload }
        requires room { 1 ≤ self.old.room }
        ensures { self.new.entries ≡ self.old.entries ++ entry_of payload ∷ [] }
    {
        let _added = self.payloads.push(payload);
    }
}
