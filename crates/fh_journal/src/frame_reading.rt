// How the frames of a journal are read, each by reads of its own.
ghost use Rattle.std.specs.Prelude.{◌≡◌, ◌≤◌, ◌<◌, ◌+◌, ◌^◌, true, length, take, IfOk, IfSome};
ghost use Rattle.fh_base.specs.Limits.{longest_payload};
ghost use Rattle.fh_disk.specs.Moments.{OnlyReads};
ghost use Rattle.fh_journal.specs.Frames.{payloads_of, frames_from};
ghost use Rattle.fh_journal.specs.Journal.{first_gate, header};
ghost use Rattle.fh_journal.specs.Mounting.{CountsFaults};
ghost use Rattle.fh_journal.specs.Reading.{ReadsSize, ReadsFrame, ReadsFrames};

use crate::frames::{Frame, Frames};
use crate::journal::{FIRST_GATE, OPEN, gate_behind};
use crate::mounting::Prepared;
use crate::{FrameRule, MountFault};
use fh_base::{Bytes, LONGEST_PAYLOAD};
use fh_disk::{Disk, read_fully};
use std::alloc::Global;

/// The frames of a file from the first gate on, and the place of the gate that ends them.
pub(crate) fn read_frames<J: Disk>(
    alloc: Global,
    disk: &mut J,
    end: u64,
) -> Result<Prepared, MountFault>
    requires long { 7 ≤ end }
    ensures read { IfSome (J.told disk.old) (λ file. length file ≡ end → take 6 file ≡ header → ReadsFrames file result) }
    ensures places { IfOk result (λ found. found.frames ≡ frames_from first_gate (payloads_of found.frames)) }
    ensures counted { CountsFaults (J.disk_faults disk.old) (J.disk_faults disk.new) result }
    ensures quiet { OnlyReads J.told J.may_leave J.moment J.left_since disk.old disk.new }
    ensures count { J.disk_faults disk.old ≤ J.disk_faults disk.new }
{
    let mut frames = Vec::new(alloc);
    let mut at = FIRST_GATE;
    while let Some(payload) = read_frame(alloc, disk, at, end)? {
        let size = payload.as_slice().len() as u64;
        frames.push(Frame { at, payload })?;
        at = gate_behind(at, size);
    }
    Ok(Prepared {
        frames: Frames::new(frames),
        gate: at,
    })
}

// The payload of the frame whose gate is at a place in the file, or none where the gate is closed.
fn read_frame<J: Disk>(
    alloc: Global,
    disk: &mut J,
    at: u64,
    end: u64,
) -> Result<Option<Bytes>, MountFault>
    requires inside { at < end }
    ensures read { IfSome (J.told disk.old) (λ file. length file ≡ end → ReadsFrame file at result) }
    ensures within { IfOk result (λ found. IfSome found (λ payload. at + 5 + length payload < end)) }
    ensures counted { CountsFaults (J.disk_faults disk.old) (J.disk_faults disk.new) result }
    ensures quiet { OnlyReads J.told J.may_leave J.moment J.left_since disk.old disk.new }
    ensures count { J.disk_faults disk.old ≤ J.disk_faults disk.new }
{
    let Some(size) = read_size(disk, at, end)? else {
        return Ok(None);
    };
    let rest = end - at - 5;
    if size as u64 >= rest {
        return cut(at);
    }
    let mut bytes = vec![in alloc; 0; size]?;
    if !read_fully(disk, at + 5, &mut bytes)? {
        return cut(at);
    }
    Ok(Some(Bytes::new(bytes)))
}

// The length of the frame whose gate is at a place in the file, or none where the gate is closed.
fn read_size<J: Disk>(disk: &mut J, at: u64, end: u64) -> Result<Option<usize>, MountFault>
    requires inside { at < end }
    ensures read { IfSome (J.told disk.old) (λ file. length file ≡ end → ReadsSize file at result) }
    ensures within { IfOk result (λ found. IfSome found (λ size. (at + 5 ≤ end) × (size ≤ longest_payload))) }
    ensures counted { CountsFaults (J.disk_faults disk.old) (J.disk_faults disk.new) result }
    ensures quiet { OnlyReads J.told J.may_leave J.moment J.left_since disk.old disk.new }
    ensures count { J.disk_faults disk.old ≤ J.disk_faults disk.new }
{
    let mut bytes = [0; 5];
    let there = (end - at).min(5) as usize;
    if !read_fully(disk, at, &mut bytes[..there])? {
        return cut(at);
    }
    if bytes[0] != OPEN {
        return Ok(None);
    }
    if there < 5 {
        return cut(at);
    }
    let given = u32::from_be_bytes([bytes[1], bytes[2], bytes[3], bytes[4]]);
    if given as usize > LONGEST_PAYLOAD {
        let rule = FrameRule::Length { given };
        return Err(MountFault::BadFrame { at, rule });
    }
    Ok(Some(given as usize))
}

fn cut<T>(at: u64) -> Result<T, MountFault>
    ensures { result ≡ Err (MountFault.BadFrame at FrameRule.Cut) }
{
    Err(MountFault::BadFrame {
        at,
        rule: FrameRule::Cut,
    })
}
