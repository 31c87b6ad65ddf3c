// A journal over a disk that is lent: how payloads are added, and how a torn one is mended.
ghost use Rattle.std.specs.Prelude.{◌≡◌, ◌⊎◌, ⊤, ◌+◌, ◌≤◌, ◌<◌, ◌^◌, [], ◌∷◌, ◌++◌, ℕ, List, Some, None, true, false, length, vec_capacity, IfOk, IfErr, MatchResult, OnOk, OnErr, IfSome};
ghost use Rattle.std.specs.Option.{option_map};
ghost use Rattle.std.specs.Int.{w32, to_be_bytes};
ghost use Rattle.fh_base.specs.Faults.{Rose};
ghost use Rattle.fh_base.specs.Limits.{longest_payload};
ghost use Rattle.fh_disk.specs.Disk.{OnlyTold, StaysTold};
ghost use Rattle.fh_disk.specs.Moments.{LeavesOnly};
ghost use Rattle.fh_journal.specs.Frames.{payloads_of, frames_from};
ghost use Rattle.fh_journal.specs.Journal.{IsJournalOf, MayReadAs, first_gate, full_at, gate_behind};
ghost use Rattle.fh_journal.specs.Mounting.{CountsFaults, IsBeingMade, MountsTold, UnlessDiskFault, mounted_file};
ghost use Rattle.fh_journal.specs.Keeping.{Keeps, IsBeforeOrAfter};

use crate::{AppendFault, Frames, MountFault, prepare};
use fh_base::NoMemory;
use fh_disk::{Disk, write_durably};
use std::alloc::Global;

/// The value of a gate in front of a whole frame.
pub(crate) const OPEN: u8 = 1;

/// The value that is written at a gate with no frame behind it.
pub(crate) const CLOSED: u8 = 0;

/// The most bytes that a journal may have.
const GREATEST: u64 = 1_073_741_824;

/// What a frame has before its payload: its gate and the length.
const BEFORE_PAYLOAD: u64 = 5;

/// The place of the first gate, in bytes: it stands behind the header.
pub const FIRST_GATE: u64 = 6;

/// A journal over a disk that is lent. It may be dropped at any time; `close` gives the disk back.
#[derive(Drop)]
pub struct Journal<'d, J: Disk> {
    pub disk: &'d mut J,
    /// The place of the gate behind the last frame, in bytes.
    pub gate: u64,
    /// A frame that wasn't acknowledged may stand open at the gate.
    pub torn: bool,
    /// Where frames are put together. Its capacity is what was reserved.
    pub buffer: Vec<u8>,
}

impl<'d, J: Disk> Journal<'d, J> {
    /// The journal of a disk that was prepared. Takes no memory.
    pub fn over(alloc: Global, disk: &'d mut J, gate: u64) -> Journal<'d, J>
        ensures same { result.disk.ghost_name ≡ disk.entry.ghost_name }
        ensures disk { result.disk.now ≡ disk.entry.now }
        ensures gate { result.gate ≡ gate }
        ensures whole { result.torn ≡ false }
    {
        Journal {
            disk,
            gate,
            torn: false,
            buffer: Vec::new(alloc),
        }
    }

    /// Mounts the journal of a disk, by `prepare` and `over`. Beside a fault it gives the disk back.
    pub fn mount(
        alloc: Global,
        disk: &'d mut J,
    ) -> Result<(Journal<'d, J>, Frames), (MountFault, &'d mut J)>
        ensures stands { IfOk result (λ found.
            Keeps (J.told found.0.disk.now) (J.may_leave found.0.disk.now) false (payloads_of found.1) [] found.0.gate) }
        ensures durable { MatchResult result
            (λ found. OnlyTold (J.told found.0.disk.now) (J.may_leave found.0.disk.now))
            (λ refused. UnlessDiskFault {T = ⊤} (OnlyTold (J.told refused.1.now) (J.may_leave refused.1.now)) (Err refused.0)) }
        ensures whole { IfOk result (λ found. found.0.torn ≡ false) }
        ensures places { IfOk result (λ found. found.1 ≡ frames_from first_gate (payloads_of found.1)) }
        ensures file { IfOk result (λ found. J.told found.0.disk.now ≡ option_map mounted_file (J.told disk.entry.now)) }
        ensures refused { IfErr result (λ refused. MountsTold (J.told disk.entry.now) (J.told refused.1.now) (Err refused.0)) }
        ensures counted { IfErr result (λ refused. CountsFaults {T = ⊤} (J.disk_faults disk.entry.now) (J.disk_faults refused.1.now) (Err refused.0)) }
        ensures any_moment { MatchResult result
            (λ found. IfSome (J.told disk.entry.now) (λ file. LeavesOnly J.moment J.left_since disk.entry.now found.0.disk.now
            (λ c. J.may_leave disk.entry.now c ⊎ IsBeingMade file c)))
            (λ refused. IfSome (J.told disk.entry.now) (λ file. LeavesOnly J.moment J.left_since disk.entry.now refused.1.now
            (λ c. J.may_leave disk.entry.now c ⊎ IsBeingMade file c))) }
        ensures same_journal { (payloads : List (List ℕ)) → MatchResult result
            (λ found. IfSome (J.told disk.entry.now) (λ file. IsJournalOf file payloads → LeavesOnly J.moment J.left_since
            disk.entry.now found.0.disk.now (λ c. J.may_leave disk.entry.now c ⊎ IsJournalOf c payloads)))
            (λ refused. IfSome (J.told disk.entry.now) (λ file. IsJournalOf file payloads → LeavesOnly J.moment J.left_since
            disk.entry.now refused.1.now (λ c. J.may_leave disk.entry.now c ⊎ IsJournalOf c payloads))) }
        ensures count { MatchResult result (λ found. J.disk_faults disk.entry.now ≤ J.disk_faults found.0.disk.now)
            (λ refused. J.disk_faults disk.entry.now ≤ J.disk_faults refused.1.now) }
        ensures passed { IfOk result (λ found. J.disk_faults found.0.disk.now ≡ J.disk_faults disk.entry.now) }
        ensures same { MatchResult result (λ found. found.0.disk.ghost_name ≡ disk.entry.ghost_name)
            (λ refused. refused.1.ghost_name ≡ disk.entry.ghost_name) }
    {
        match prepare(alloc, disk) {
            Ok(made) => Ok((Journal::over(alloc, disk, made.gate), made.frames)),
            Err(fault) => Err((fault, disk)),
        }
    }

    /// Gives the disk back.
    pub fn close(self) -> &'d mut J
        ensures same { result.ghost_name ≡ self.entry.disk.ghost_name }
        ensures disk { result.now ≡ self.entry.disk.now }
    {
        let journal = self;
        let disk = journal.disk;
        disk
    }

    /// Whether a frame that wasn't acknowledged may stand open at the gate.
    pub fn torn(&self) -> bool
        ensures { result ≡ self.now.torn }
    {
        self.torn
    }

    /// The place of the gate, where a payload of so many bytes would make the file too long. Takes no memory.
    pub fn room(&self, payload: u64) -> Option<u64>
        ensures { result ≡ full_at self.now.gate payload }
    {
        room_behind(self.gate, payload)
    }

    /// Makes room for a payload of so many bytes, so that an append of it takes no memory.
    pub fn reserve(&mut self, payload: usize) -> Result<(), NoMemory>
        ensures reserved { OnOk result (payload + 5 ≤ vec_capacity self.new.buffer) }
        ensures kept { vec_capacity self.old.buffer ≤ vec_capacity self.new.buffer }
        ensures disk { self.new.disk.now ≡ self.old.disk.now }
        ensures gate { self.new.gate ≡ self.old.gate }
        ensures torn { self.new.torn ≡ self.old.torn }
        ensures same { self.new.disk.ghost_name ≡ self.old.disk.ghost_name }
    {
        let Some(size) = payload.checked_add(5) else {
            return Err(NoMemory);
        };
        self.buffer.clear();
        Ok(self.buffer.reserve(size)?)
    }

    /// Adds a payload of 1 to 16,777,216 bytes behind the others and says where its gate is. A torn
    /// journal is mended first. Then come four device calls: what stands behind the gate is on the disk
    /// before the gate is opened. Where the third or fourth fails the journal is torn. Takes no memory.
    pub fn append(&mut self, payload: &[u8]) -> Result<u64, AppendFault>
        requires filled { 1 ≤ length payload.now }
        requires short { length payload.now ≤ longest_payload }
        requires room { full_at self.old.gate (length payload.now) ≡ None }
        requires reserved { length payload.now + 5 ≤ vec_capacity self.old.buffer }
        ensures added { OnOk result ((payloads : List (List ℕ)) (failed : List ℕ)
            → Keeps (J.told self.old.disk.now) (J.may_leave self.old.disk.now) self.old.torn payloads failed self.old.gate
            → Keeps (J.told self.new.disk.now) (J.may_leave self.new.disk.now) false (payloads ++ payload.now ∷ []) [] self.new.gate) }
        ensures durable { OnOk result (OnlyTold (J.told self.new.disk.now) (J.may_leave self.new.disk.now)) }
        ensures place { IfOk result (λ at. at ≡ self.old.gate) }
        ensures gate { OnOk result (self.new.gate ≡ gate_behind self.old.gate (length payload.now)) }
        ensures whole { OnOk result (self.new.torn ≡ false) }
        ensures fault { OnErr result (Rose (J.disk_faults self.old.disk.now) (J.disk_faults self.new.disk.now)) }
        ensures same_gate { OnErr result (self.new.gate ≡ self.old.gate) }
        ensures not_added { OnErr result ((payloads : List (List ℕ)) (failed : List ℕ)
            → Keeps (J.told self.old.disk.now) (J.may_leave self.old.disk.now) self.old.torn payloads failed self.old.gate
            → Keeps (J.told self.new.disk.now) (J.may_leave self.new.disk.now) self.new.torn payloads failed self.new.gate
            ⊎ Keeps (J.told self.new.disk.now) (J.may_leave self.new.disk.now) self.new.torn payloads payload.now self.new.gate) }
        ensures any_moment { (payloads : List (List ℕ)) (failed : List ℕ)
            → Keeps (J.told self.old.disk.now) (J.may_leave self.old.disk.now) self.old.torn payloads failed self.old.gate
            → IfSome (J.told self.old.disk.now) (λ _. LeavesOnly J.moment J.left_since self.old.disk.now self.new.disk.now
            (IsBeforeOrAfter self.old.torn payloads failed payload.now)) }
        ensures reserved { vec_capacity self.old.buffer ≤ vec_capacity self.new.buffer }
        ensures told { StaysTold (J.told self.old.disk.now) (J.told self.new.disk.now) }
        ensures count { J.disk_faults self.old.disk.now ≤ J.disk_faults self.new.disk.now }
        ensures passed { OnOk result (J.disk_faults self.new.disk.now ≡ J.disk_faults self.old.disk.now) }
        ensures same { self.new.disk.ghost_name ≡ self.old.disk.ghost_name }
    {
        self.mend()?;
        let at = self.gate;
        put_frame(&mut self.buffer, payload);
        write_durably(self.disk, at + 1, &self.buffer)?;
        self.torn = true;
        write_durably(self.disk, at, &[OPEN])?;
        self.torn = false;
        self.gate = at + self.buffer.len() as u64;
        Ok(at)
    }

    /// Closes the gate of a torn journal, so that the frame behind it means nothing. It makes no call
    /// where nothing is torn: a gate that is whole would be in doubt until the sync. Takes no memory.
    pub fn mend(&mut self) -> Result<(), AppendFault>
        ensures mended { OnOk result ((payloads : List (List ℕ)) (failed : List ℕ)
            → Keeps (J.told self.old.disk.now) (J.may_leave self.old.disk.now) self.old.torn payloads failed self.old.gate
            → Keeps (J.told self.new.disk.now) (J.may_leave self.new.disk.now) false payloads [] self.new.gate) }
        ensures durable { self.old.torn ≡ true → OnOk result (OnlyTold (J.told self.new.disk.now) (J.may_leave self.new.disk.now)) }
        ensures whole { OnOk result (self.new.torn ≡ false) }
        ensures quiet { self.old.torn ≡ false → (self.new.disk.now ≡ self.old.disk.now) × (result ≡ Ok tt) }
        ensures fault { OnErr result (Rose (J.disk_faults self.old.disk.now) (J.disk_faults self.new.disk.now)) }
        ensures torn { OnErr result (self.new.torn ≡ self.old.torn) }
        ensures kept { OnErr result ((payloads : List (List ℕ)) (failed : List ℕ)
            → Keeps (J.told self.old.disk.now) (J.may_leave self.old.disk.now) self.old.torn payloads failed self.old.gate
            → Keeps (J.told self.new.disk.now) (J.may_leave self.new.disk.now) self.new.torn payloads failed self.new.gate) }
        ensures any_moment { (payloads : List (List ℕ)) (failed : List ℕ)
            → Keeps (J.told self.old.disk.now) (J.may_leave self.old.disk.now) self.old.torn payloads failed self.old.gate
            → IfSome (J.told self.old.disk.now) (λ _. LeavesOnly J.moment J.left_since self.old.disk.now self.new.disk.now
            (MayReadAs self.old.torn payloads failed)) }
        ensures gate { self.new.gate ≡ self.old.gate }
        ensures reserved { vec_capacity self.new.buffer ≡ vec_capacity self.old.buffer }
        ensures told { StaysTold (J.told self.old.disk.now) (J.told self.new.disk.now) }
        ensures count { J.disk_faults self.old.disk.now ≤ J.disk_faults self.new.disk.now }
        ensures passed { OnOk result (J.disk_faults self.new.disk.now ≡ J.disk_faults self.old.disk.now) }
        ensures same { self.new.disk.ghost_name ≡ self.old.disk.ghost_name }
    {
        if !self.torn {
            return Ok(());
        }
        write_durably(self.disk, self.gate, &[CLOSED])?;
        self.torn = false;
        Ok(())
    }
}

// The rest of a frame behind its gate, and the next gate, which is closed.
fn put_frame(buffer: &mut Vec<u8>, payload: &[u8])
    requires short { length payload.now ≤ longest_payload }
    requires reserved { length payload.now + 5 ≤ vec_capacity buffer.old }
    ensures bytes { buffer.new.items ≡ to_be_bytes w32 (length payload.now) ++ payload.now ++ 0 ∷ [] }
    ensures size { length buffer.new.items ≡ length payload.now + 5 }
    ensures reserved { vec_capacity buffer.old ≤ vec_capacity buffer.new }
{
    buffer.clear();
    let size = (payload.len() as u32).to_be_bytes();
    buffer.extend_from_slice(&size).unwrap();
    buffer.extend_from_slice(payload).unwrap();
    buffer.push_reserved(CLOSED);
}

/// The place of a gate, where a payload of so many bytes behind it would make a file too long. Takes no
/// memory.
pub fn room_behind(gate: u64, payload: u64) -> Option<u64>
    ensures { result ≡ full_at gate payload }
{
    // The gate that follows the frame has one byte.
    let beside = BEFORE_PAYLOAD + 1;
    let fits = payload <= GREATEST - beside && gate <= GREATEST - beside - payload;
    if fits { None } else { Some(gate) }
}

/// The place of the gate behind a frame whose own gate is at a place, with so many bytes of payload.
pub fn gate_behind(gate: u64, payload: u64) -> u64
    requires { gate_behind gate payload < 2 ^ 64 }
    ensures { result ≡ gate_behind gate payload }
{
    gate + BEFORE_PAYLOAD + payload
}
