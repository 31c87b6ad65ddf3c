// A write that is brought onto the disk.
ghost use Rattle.std.specs.Prelude.{◌≡◌, ℕ, List, length, OnOk};
ghost use Rattle.std.specs.Option.{option_map};
ghost use Rattle.fh_base.specs.Faults.{HasCause};
ghost use Rattle.fh_disk.specs.Disk.{written_at, Torn, TornTold, Follows, OnlyTold};
ghost use Rattle.fh_disk.specs.Moments.{LeavesOnly};

use crate::Disk;
use fh_base::Failed;

/// Writes bytes at a place, and then syncs. At each moment a crash leaves one of the images from before,
/// torn by this write or not.
pub fn write_durably<J: Disk>(disk: &mut J, at: u64, bytes: &[u8]) -> Result<(), Failed>
    ensures written { OnOk result (J.told disk.new ≡ option_map (written_at at bytes.now) (J.told disk.old)) }
    ensures durable { OnOk result (OnlyTold (J.told disk.new) (J.may_leave disk.new)) }
    ensures torn { TornTold at (length bytes.now) (J.told disk.old) (J.told disk.new) }
    ensures images { Follows (Torn at (length bytes.now)) (J.may_leave disk.old) (J.may_leave disk.new) }
    ensures time { LeavesOnly J.moment J.left_since disk.old disk.new
        (λ c. (d : List ℕ) × J.may_leave disk.old d × Torn at (length bytes.now) d c) }
    ensures cause { HasCause (J.disk_faults disk.old) (J.disk_faults disk.new) result }
{
    disk.write_at(at, bytes)?;
    disk.sync()
}
