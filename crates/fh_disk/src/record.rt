// What a disk in memory has gone through, as a crash at some moment would have met it.
ghost use Rattle.std.specs.Prelude.{◌≡◌, [], ◌∷◌, ◌++◌, IfOk, OnOk, OnErr};
ghost use Rattle.fh_disk.specs.declared.record.Call.TheVariants.{Write, Sync};
ghost use Rattle.fh_disk.specs.Recorded.{added};

use fh_base::{Bytes, NoMemory};
use std::alloc::Global;
use std::marker::Model;

/// A call that passed and that images depend on.
#[derive(Drop)]
pub enum Call {
    Write { at: u64, bytes: Bytes },
    Sync,
}

/// What the disk held at first, all of it synced, and each write and sync since that passed.
#[derive(Drop)]
pub(crate) struct Record {
    alloc: Global,
    first: Vec<u8>,
    calls: Vec<Call>,
}

impl Model for Record {
    ghost use Rattle.fh_disk.specs.Recorded.{Recorded};

    ghost Value = { Recorded };

    ghost view = { λ a. record { first = a.first.items; calls = a.calls.items } };
}

impl Record {
    pub(crate) fn begin(alloc: Global, bytes: &[u8]) -> Result<Record, NoMemory>
        ensures { IfOk result (λ new. new ≡ record { first = bytes.now; calls = [] }) }
    {
        Ok(Record {
            alloc,
            first: Vec::from_slice(alloc, bytes)?,
            calls: Vec::new(alloc),
        })
    }

    pub(crate) fn first(&self) -> &[u8]
        ensures { result.now ≡ self.now.first }
    {
        &self.first
    }

    pub(crate) fn calls(&self) -> &[Call]
        ensures { result.now ≡ self.now.calls }
    {
        &self.calls
    }

    pub(crate) fn add_write(&mut self, at: u64, bytes: &[u8]) -> Result<(), NoMemory>
        ensures ok { OnOk result (self.new ≡ added (Write at bytes.now) self.old) }
        ensures err { OnErr result (self.new ≡ self.old) }
    {
        let bytes = Bytes::from_slice(self.alloc, bytes)?;
        Ok(self.calls.push(Call::Write { at, bytes })?)
    }

    pub(crate) fn add_sync(&mut self) -> Result<(), NoMemory>
        ensures ok { OnOk result (self.new ≡ added Sync self.old) }
        ensures err { OnErr result (self.new ≡ self.old) }
    {
        Ok(self.calls.push(Call::Sync)?)
    }
}
