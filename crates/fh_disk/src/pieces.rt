// Pieces of a file that are brought onto the disk by one sync.
ghost use Rattle.std.specs.Prelude.{◌≡◌, OnOk};
ghost use Rattle.std.specs.Option.{option_map};
ghost use Rattle.fh_base.specs.Faults.{HasCause};
ghost use Rattle.fh_disk.specs.Disk.{OnlyTold};
ghost use Rattle.fh_disk.specs.Pieces.{pieces_written, OnlyWrites};

use crate::Disk;
use fh_base::{Bytes, Failed};

/// Bytes, and the place in a file where they belong.
#[derive(Drop)]
pub struct Piece {
    pub at: u64,
    pub bytes: Bytes,
}

/// Writes pieces in their order, and then syncs once. At each moment until then a crash leaves one of the
/// images from before, with any bytes where a piece belongs; after the sync it leaves all pieces written.
pub fn write_pieces<J: Disk>(disk: &mut J, pieces: &[Piece]) -> Result<(), Failed>
    ensures written { OnOk result
        (J.told disk.new ≡ option_map (pieces_written pieces.now) (J.told disk.old)) }
    ensures durable { OnOk result (OnlyTold (J.told disk.new) (J.may_leave disk.new)) }
    ensures only { OnlyWrites J.told J.may_leave J.moment J.left_since pieces.now disk.old disk.new }
    ensures cause { HasCause (J.disk_faults disk.old) (J.disk_faults disk.new) result }
{
    for piece in pieces {
        disk.write_at(piece.at, piece.bytes.as_slice())?;
    }
    disk.sync()
}
