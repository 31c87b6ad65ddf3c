// How a file becomes a journal.
ghost use Rattle.std.specs.Prelude.{◌≡◌, ◌⊎◌, ◌≤◌, ◌<◌, [], false, ℕ, List, IfSome, IfOk, OnOk, length};
ghost use Rattle.std.specs.Option.{option_map};
ghost use Rattle.fh_base.specs.Faults.{HasCause};
ghost use Rattle.fh_disk.specs.Disk.{OnlyTold, StaysTold};
ghost use Rattle.fh_disk.specs.Moments.{LeavesOnly, OnlyReads};
ghost use Rattle.fh_journal.specs.Frames.{payloads_of, frames_from};
ghost use Rattle.fh_journal.specs.Journal.{IsJournalOf, first_gate};
ghost use Rattle.fh_journal.specs.Keeping.{Keeps};
ghost use Rattle.fh_journal.specs.Mounting.{CountsFaults, IsBeingMade, MountsTold, UnlessDiskFault, fresh_file};
ghost use Rattle.fh_journal.specs.Reading.{BeginsWithHeader, IsFresh};

use crate::MountFault;
use crate::frame_reading::read_frames;
use crate::frames::Frames;
use crate::journal::FIRST_GATE;
use fh_base::Failed;
use fh_disk::{Disk, read_fully, write_durably};
use std::alloc::Global;

/// The letters FNHJ, and version 1.
const HEADER: [u8; 6] = [0x46, 0x4E, 0x48, 0x4A, 0x00, 0x01];

/// A journal of no frames: the header and a closed gate.
const FRESH: [u8; 7] = [0x46, 0x4E, 0x48, 0x4A, 0x00, 0x01, 0x00];

/// What mounting finds in a file: its frames, and the place of the gate behind them.
#[derive(Drop)]
pub struct Prepared {
    pub frames: Frames,
    pub gate: u64,
}

/// Makes the file a journal that is whole and on the disk, and reads its frames. It begins with a sync.
/// A file of at most 7 bytes is a journal of no frames; it is written anew where it isn't exactly that.
/// Nothing else is written, and a file that is refused stays as it is.
pub fn prepare<J: Disk>(alloc: Global, disk: &mut J) -> Result<Prepared, MountFault>
    ensures stands { IfOk result (λ made. Keeps (J.told disk.new) (J.may_leave disk.new) false (payloads_of made.frames) [] made.gate) }
    ensures durable { UnlessDiskFault (OnlyTold (J.told disk.new) (J.may_leave disk.new)) result }
    ensures places { IfOk result (λ made. made.frames ≡ frames_from first_gate (payloads_of made.frames)) }
    ensures file { MountsTold (J.told disk.old) (J.told disk.new) result }
    ensures counted { CountsFaults (J.disk_faults disk.old) (J.disk_faults disk.new) result }
    ensures any_moment { IfSome (J.told disk.old) (λ file. LeavesOnly J.moment J.left_since disk.old disk.new
        (λ c. J.may_leave disk.old c ⊎ IsBeingMade file c)) }
    ensures same_journal { (payloads : List (List ℕ)) → IfSome (J.told disk.old) (λ file. IsJournalOf file payloads
        → LeavesOnly J.moment J.left_since disk.old disk.new (λ c. J.may_leave disk.old c ⊎ IsJournalOf c payloads)) }
    ensures told { StaysTold (J.told disk.old) (J.told disk.new) }
    ensures count { J.disk_faults disk.old ≤ J.disk_faults disk.new }
{
    let end = begin(disk)?;
    if end <= FRESH.len() as u64 {
        make_anew(disk, end)?;
        return Ok(Prepared {
            frames: Frames::new(Vec::new(alloc)),
            gate: FIRST_GATE,
        });
    }
    if !begins_with_header(disk)? {
        return Err(MountFault::BadHeader);
    }
    read_frames(alloc, disk, end)
}

// Brings what reads give onto the disk, and says how long it is.
fn begin<J: Disk>(disk: &mut J) -> Result<u64, Failed>
    ensures length { IfOk result (λ end. IfSome (J.told disk.old) (λ file. length file ≡ end)) }
    ensures durable { OnOk result (OnlyTold (J.told disk.new) (J.may_leave disk.new)) }
    ensures quiet { OnlyReads J.told J.may_leave J.moment J.left_since disk.old disk.new }
    ensures cause { HasCause (J.disk_faults disk.old) (J.disk_faults disk.new) result }
{
    disk.sync()?;
    disk.length()
}

// Writes a file of at most 7 bytes anew where it isn't exactly a journal of no frames.
fn make_anew<J: Disk>(disk: &mut J, end: u64) -> Result<(), Failed>
    requires short { end ≤ 7 }
    requires length { IfSome (J.told disk.old) (λ file. length file ≡ end) }
    requires durable { OnlyTold (J.told disk.old) (J.may_leave disk.old) }
    ensures made { OnOk result (J.told disk.new ≡ option_map (λ _. fresh_file) (J.told disk.old)) }
    ensures durable { OnOk result (OnlyTold (J.told disk.new) (J.may_leave disk.new)) }
    ensures told { StaysTold (J.told disk.old) (J.told disk.new) }
    ensures short { IfSome (J.told disk.new) (λ file. length file ≤ 7) }
    ensures any_moment { IfSome (J.told disk.old) (λ file. LeavesOnly J.moment J.left_since disk.old disk.new
        (λ c. J.may_leave disk.old c ⊎ IsBeingMade file c)) }
    ensures cause { HasCause (J.disk_faults disk.old) (J.disk_faults disk.new) result }
{
    if end == FRESH.len() as u64 && is_fresh(disk)? {
        return Ok(());
    }
    write_durably(disk, 0, &FRESH)
}

// Whether a file of 7 bytes is a journal of no frames.
fn is_fresh<J: Disk>(disk: &mut J) -> Result<bool, Failed>
    ensures fresh { IfOk result (λ fresh. IfSome (J.told disk.old) (λ file. length file ≡ 7 → IsFresh file fresh)) }
    ensures quiet { OnlyReads J.told J.may_leave J.moment J.left_since disk.old disk.new }
    ensures cause { HasCause (J.disk_faults disk.old) (J.disk_faults disk.new) result }
{
    let mut bytes = [0; 7];
    let full = read_fully(disk, 0, &mut bytes)?;
    Ok(full && bytes == FRESH)
}

// Whether a file of more than 7 bytes begins with the header.
fn begins_with_header<J: Disk>(disk: &mut J) -> Result<bool, Failed>
    ensures header { IfOk result (λ begins. IfSome (J.told disk.old) (λ file. 7 < length file → BeginsWithHeader file begins)) }
    ensures quiet { OnlyReads J.told J.may_leave J.moment J.left_since disk.old disk.new }
    ensures cause { HasCause (J.disk_faults disk.old) (J.disk_faults disk.new) result }
{
    let mut bytes = [0; 6];
    let full = read_fully(disk, 0, &mut bytes)?;
    Ok(full && bytes == HEADER)
}
