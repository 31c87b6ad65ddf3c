// A read that goes on until a buffer is full.
ghost use Rattle.std.specs.Prelude.{◌+◌, ◌<◌, ◌^◌, ℕ, length, slice_index, IfOk, IfSome};
ghost use Rattle.fh_base.specs.Faults.{HasCause};
ghost use Rattle.fh_disk.specs.Disk.{Fills};
ghost use Rattle.fh_disk.specs.Moments.{OnlyReads};

use crate::Disk;
use fh_base::Failed;

/// Fills the buffer with the bytes from a place on, and says whether the file has so many. Where it has
/// fewer they stand at the front of the buffer.
pub fn read_fully<J: Disk>(disk: &mut J, at: u64, buf: &mut [u8]) -> Result<bool, Failed>
    requires { at + length buf.old < 2 ^ 64 }
    ensures bytes { IfOk result (λ full. IfSome (J.told disk.old) (λ file. Fills file at buf.new full)) }
    ensures fit { (i : ℕ) → slice_index buf.new i < 256 }
    ensures quiet { OnlyReads J.told J.may_leave J.moment J.left_since disk.old disk.new }
    ensures cause { HasCause (J.disk_faults disk.old) (J.disk_faults disk.new) result }
{
    let mut filled = 0usize;
    while filled < buf.len() {
        let place = at + filled as u64;
        let count = disk.read_at(place, &mut buf[filled..])?;
        if count == 0 {
            return Ok(false);
        }
        filled += count;
    }
    Ok(true)
}
