// A disk in memory, which tears at will.
ghost use Rattle.std.specs.Prelude.{◌≡◌, ◌+◌, ◌≤◌, [], ℕ, List, None, Some, length, true, is_err, is_ok, IsOk, IfOk, IfSome, OnOk, OnErr};
ghost use Rattle.std.specs.Io.{ReadsAtMost};
ghost use Rattle.std.specs.Option.{option_map};
ghost use Rattle.fh_base.specs.Faults.{HasCause};
ghost use Rattle.fh_base.specs.FaultPlan.{called, counted, fails_next, raised};
ghost use Rattle.fh_disk.specs.Disk.{written_at, ReadsAt, Torn, TornTold, Follows, NoNewImage, OnlyTold, Only};
ghost use Rattle.fh_disk.specs.Images.{IsImage, synced_bytes, unsynced_writes};
ghost use Rattle.fh_disk.specs.Recorded.{added, told_by, left_by, moment_of, left_since_by};
ghost use Rattle.fh_disk.specs.RecordedLaws.{reads_as_image_by, counts_now_by, only_now_by};
ghost use Rattle.fh_disk.specs.Written.{Gives};
ghost use Rattle.fh_disk.specs.declared.record.Call.TheVariants.{Write, Sync};

use crate::Disk;
use crate::content::{lengthen, overwrite, read_from};
use crate::image::image_of;
use crate::record::{Call, Record};
use fh_base::{Failed, Failing, FaultPlan, NoMemory};
use std::alloc::Global;

/// A file in memory. Its calls fail exactly where its plan says, counted from 1 among all calls on it,
/// and where a write or a sync is refused memory; both count a fault. A call that fails leaves the bytes
/// and the images as they were.
///
/// A recording disk keeps what it held at first and each write and sync since, so it tells its bytes,
/// the images of a crash, and those of each moment since it was made. A write that no sync has followed
/// may be torn in its images. A plain disk keeps no record and tells nothing; it takes memory only where
/// a write makes the file longer.
#[derive(Drop)]
pub struct MemoryDisk {
    bytes: Vec<u8>,
    past: Option<Record>,
    pub plan: FaultPlan,
    reads: u64,
    ghost kept: { Gives past bytes.items },
}

impl MemoryDisk {
    ghost use Rattle.fh_disk.specs.MemoryDisks.{bytes_of, past_of, told_of, images_of, calls_of, stopped};

    /// A disk with these bytes, all of them synced, that keeps a record of its calls.
    pub fn recording(alloc: Global, bytes: Vec<u8>, plan: FaultPlan) -> Result<MemoryDisk, NoMemory>
        ensures bytes { IfOk result (λ disk. bytes_of disk ≡ bytes.items) }
        ensures told { IfOk result (λ disk. told_of disk ≡ Some bytes.items) }
        ensures synced { IfOk result (λ disk. Only bytes.items (images_of disk)) }
        ensures past { IfOk result (λ disk. past_of disk ≡ Some (record { first = bytes.items; calls = [] })) }
        ensures plan { IfOk result (λ disk. disk.plan ≡ plan) }
        ensures reads { IfOk result (λ disk. disk.reads ≡ 0) }
    {
        let past = Record::begin(alloc, &bytes)?;
        Ok(MemoryDisk {
            bytes,
            past: Some(past),
            plan,
            reads: 0,
        })
    }

    /// A disk with these bytes that keeps no record.
    pub fn plain(bytes: Vec<u8>, plan: FaultPlan) -> MemoryDisk
        ensures bytes { bytes_of result ≡ bytes.items }
        ensures untold { past_of result ≡ None }
        ensures plan { result.plan ≡ plan }
        ensures reads { result.reads ≡ 0 }
    {
        MemoryDisk {
            bytes,
            past: None,
            plan,
            reads: 0,
        }
    }

    /// What reads give.
    pub fn bytes(&self) -> &[u8]
        ensures bytes { result.now ≡ bytes_of self.now }
        ensures told { IfSome (told_of self.now) (λ file. file ≡ result.now) }
    {
        &self.bytes
    }

    /// How many reads have passed.
    pub fn reads(&self) -> u64
        ensures { result ≡ self.now.reads }
    {
        self.reads
    }

    /// The writes and syncs that passed since the disk was made, in order. A plain disk has none.
    pub fn calls(&self) -> &[Call]
        ensures { result.now ≡ calls_of (past_of self.now) }
    {
        match &self.past {
            Some(past) => past.calls(),
            None => &[],
        }
    }

    /// So many calls pass from now on, and every later one fails.
    pub fn stop_after(&mut self, passed: u64)
        ensures { self.new ≡ record self.old { plan = stopped passed self.old.plan } }
    {
        let passed = self.plan.calls.saturating_add(passed);
        self.plan.failing = Failing::After { passed };
    }

    /// One of the files that a crash may leave, by a number. By 0 the writes since the last sync are
    /// lost, and by 1 they are whole; by any other number each has a fate of its own, and bytes in its
    /// range and past the old end may be any. A plain disk gives its bytes.
    pub fn image(&self, alloc: Global, choice: u64) -> Result<Vec<u8>, NoMemory>
        ensures left { IfOk result (λ image. images_of self.now image.items) }
        ensures lost { choice ≡ 0 → IfSome (past_of self.now) (λ past. IfOk result (λ image. image.items ≡ synced_bytes past)) }
        ensures whole { choice ≡ 1 → IfOk result (λ image. image.items ≡ bytes_of self.now) }
        ensures plain { past_of self.now ≡ None → IfOk result (λ image. image.items ≡ bytes_of self.now) }
    {
        match &self.past {
            Some(past) => Ok(image_of(alloc, past.first(), past.calls(), choice)?),
            None => Ok(Vec::from_slice(alloc, &self.bytes)?),
        }
    }

    /// A law: what a crash may leave of a recording disk has a length from that at the last sync to the
    /// greatest since, and the synced bytes at each place that no write since has named. Each file that
    /// has these may be left.
    pub fn law_of_images(&self)
        ensures only { IfSome (past_of self.now) (λ past. (c : List ℕ) → left_by (Some past) c → IsImage (synced_bytes past) (unsynced_writes past) c) }
        ensures each { IfSome (past_of self.now) (λ past. (c : List ℕ) → IsImage (synced_bytes past) (unsynced_writes past) c → left_by (Some past) c) }
    {}

    fn refused(&mut self) -> Failed
        ensures { self.new ≡ record self.old { plan = record self.old.plan { faults = raised self.old.plan.faults } } }
    {
        self.plan.fail();
        Failed
    }
}

impl Disk for MemoryDisk {
    ghost use Rattle.fh_disk.specs.MemoryDisks.{bytes_of, past_of, told_of, images_of, TimeGoesOn, reads_after};

    ghost told = { λ d. told_by d.past };

    ghost may_leave = { λ d. left_by d.past };

    ghost moment = { λ d. moment_of d.past };

    ghost left_since = { λ d. left_since_by d.past };

    ghost disk_faults = { λ d. d.plan.faults };

    ghost reads_as_image = { λ d. reads_as_image_by d.past };

    ghost counts_now = { λ d. counts_now_by d.past };

    ghost only_now = { λ d. only_now_by d.past };

    fn length(&mut self) -> Result<u64, Failed>
        ensures bytes { IfOk result (λ n. n ≡ length (bytes_of self.old)) }
        ensures fails { is_err result ≡ fails_next self.old.plan }
        ensures same { self.new ≡ record self.old { plan = counted self.old.plan } }
    {
        if self.plan.fails_now() {
            return Err(Failed);
        }
        Ok(self.bytes.len() as u64)
    }

    fn read_at(&mut self, at: u64, buf: &mut [u8]) -> Result<usize, Failed>
        ensures bound { ReadsAtMost result buf.new }
        ensures bytes { IfOk result (λ n. ReadsAt (bytes_of self.old) at buf.new n) }
        ensures fails { is_err result ≡ fails_next self.old.plan }
        ensures same { self.new ≡ record self.old { plan = counted self.old.plan; reads = reads_after (is_ok result) self.old.reads } }
    {
        if self.plan.fails_now() {
            return Err(Failed);
        }
        self.reads = self.reads.saturating_add(1);
        Ok(read_from(&self.bytes, at, buf))
    }

    fn write_at(&mut self, at: u64, bytes: &[u8]) -> Result<(), Failed>
        ensures written { OnOk result (told_of self.new ≡ option_map (written_at at bytes.now) (told_of self.old)) }
        ensures torn { OnErr result (TornTold at (length bytes.now) (told_of self.old) (told_of self.new)) }
        ensures images { Follows (Torn at (length bytes.now)) (images_of self.old) (images_of self.new) }
        ensures time { TimeGoesOn self.old self.new }
        ensures file { OnOk result (bytes_of self.new ≡ written_at at bytes.now (bytes_of self.old)) }
        ensures past { OnOk result (past_of self.new ≡ option_map (added (Write at bytes.now)) (past_of self.old)) }
        ensures same_file { OnErr result (bytes_of self.new ≡ bytes_of self.old) }
        ensures same_past { OnErr result (past_of self.new ≡ past_of self.old) }
        ensures fails { fails_next self.old.plan ≡ true → is_err result ≡ true }
        ensures surely { past_of self.old ≡ None → at + length bytes.now ≤ length (bytes_of self.old) → is_err result ≡ fails_next self.old.plan }
        ensures plan { self.new.plan ≡ called (is_err result) self.old.plan }
        ensures reads { self.new.reads ≡ self.old.reads }
        ensures cause { HasCause self.old.plan.faults self.new.plan.faults result }
    {
        if self.plan.fails_now() {
            return Err(Failed);
        }
        match store(&mut self.bytes, &mut self.past, at, bytes) {
            Ok(()) => Ok(()),
            Err(_) => Err(self.refused()),
        }
    }

    fn sync(&mut self) -> Result<(), Failed>
        ensures durable { OnOk result (OnlyTold (told_of self.new) (images_of self.new)) }
        ensures told { told_of self.new ≡ told_of self.old }
        ensures images { NoNewImage (images_of self.old) (images_of self.new) }
        ensures time { TimeGoesOn self.old self.new }
        ensures past { OnOk result (past_of self.new ≡ option_map (added Sync) (past_of self.old)) }
        ensures same_past { OnErr result (past_of self.new ≡ past_of self.old) }
        ensures file { bytes_of self.new ≡ bytes_of self.old }
        ensures fails { fails_next self.old.plan ≡ true → is_err result ≡ true }
        ensures surely { past_of self.old ≡ None → is_err result ≡ fails_next self.old.plan }
        ensures plan { self.new.plan ≡ called (is_err result) self.old.plan }
        ensures reads { self.new.reads ≡ self.old.reads }
        ensures cause { HasCause self.old.plan.faults self.new.plan.faults result }
    {
        if self.plan.fails_now() {
            return Err(Failed);
        }
        match note_sync(&mut self.past) {
            Ok(()) => Ok(()),
            Err(_) => Err(self.refused()),
        }
    }
}

fn store(
    file: &mut Vec<u8>,
    past: &mut Option<Record>,
    at: u64,
    bytes: &[u8],
) -> Result<(), NoMemory>
    ensures written { OnOk result (file.new.items ≡ written_at at bytes.now file.old.items) }
    ensures noted { OnOk result (past.new ≡ option_map (added (Write at bytes.now)) past.old) }
    ensures same_file { OnErr result (file.new.items ≡ file.old.items) }
    ensures same_past { OnErr result (past.new ≡ past.old) }
    ensures surely { past.old ≡ None → at + length bytes.now ≤ length file.old.items → IsOk result }
{
    let start = at as usize;
    let Some(end) = start.checked_add(bytes.len()) else {
        return Err(NoMemory);
    };
    let length = file.len();
    lengthen(file, end)?;
    if note_write(past, at, bytes).is_err() {
        file.truncate(length);
        return Err(NoMemory);
    }
    overwrite(file, start, bytes);
    Ok(())
}

fn note_write(past: &mut Option<Record>, at: u64, bytes: &[u8]) -> Result<(), NoMemory>
    ensures ok { OnOk result (past.new ≡ option_map (added (Write at bytes.now)) past.old) }
    ensures err { OnErr result (past.new ≡ past.old) }
    ensures surely { past.old ≡ None → IsOk result }
{
    match past {
        None => Ok(()),
        Some(record) => record.add_write(at, bytes),
    }
}

fn note_sync(past: &mut Option<Record>) -> Result<(), NoMemory>
    ensures ok { OnOk result (past.new ≡ option_map (added Sync) past.old) }
    ensures err { OnErr result (past.new ≡ past.old) }
    ensures surely { past.old ≡ None → IsOk result }
{
    match past {
        None => Ok(()),
        Some(record) => record.add_sync(),
    }
}
