// A file on a disk, as the journal meets it.
ghost use Rattle.std.specs.Prelude.{◌≡◌, ◌≤◌, ℕ, List, Option, Some, length, IfOk, IfSome, OnOk, OnErr};
ghost use Rattle.std.specs.Io.{ReadsAtMost};
ghost use Rattle.std.specs.Option.{option_map};
ghost use Rattle.fh_base.specs.Faults.{HasCause};
ghost use Rattle.fh_disk.specs.Disk.{written_at, ReadsAt, Torn, TornTold, Follows, NoNewImage, OnlyTold};
ghost use Rattle.fh_disk.specs.Moments.{Elapses};

use fh_base::Failed;

/// One file on a disk. Nobody else writes it.
///
/// Between two syncs that succeeded, every range that a write named, and the part past the old end, may
/// hold any bytes after a crash, also where that write failed. After a sync that succeeded a crash
/// leaves what reads give.
pub trait Disk {
    /// The bytes that reads give, where the disk tells.
    ghost told: { Self → Option (List ℕ) };

    /// What a crash at this moment may leave.
    ghost may_leave: { Self → List ℕ → Type 0 };

    /// The moment, as a number that doesn't fall.
    ghost moment: { Self → ℕ };

    /// What a crash at some moment from that one on might have left, during a call or between two.
    ghost left_since: { Self → ℕ → List ℕ → Type 0 };

    /// How often a call has failed.
    ghost disk_faults: { Self → ℕ };

    /// How many bytes the file has.
    fn length(&mut self) -> Result<u64, Failed>
        ensures bytes { IfOk result (λ n. IfSome (told self.old) (λ file. n ≡ length file)) }
        ensures told { told self.new ≡ told self.old }
        ensures images { NoNewImage (may_leave self.old) (may_leave self.new) }
        ensures time { Elapses (moment self.old) (moment self.new) (left_since self.old) (left_since self.new) (may_leave self.new) }
        ensures cause { HasCause (disk_faults self.old) (disk_faults self.new) result };

    /// Gives bytes from a place on in the front of the buffer, and says how many: none exactly where the
    /// buffer is empty or the place isn't in the file.
    fn read_at(&mut self, at: u64, buf: &mut [u8]) -> Result<usize, Failed>
        ensures bound { ReadsAtMost result buf.new }
        ensures bytes { IfOk result (λ n. IfSome (told self.old) (λ file. ReadsAt file at buf.new n)) }
        ensures told { told self.new ≡ told self.old }
        ensures images { NoNewImage (may_leave self.old) (may_leave self.new) }
        ensures time { Elapses (moment self.old) (moment self.new) (left_since self.old) (left_since self.new) (may_leave self.new) }
        ensures cause { HasCause (disk_faults self.old) (disk_faults self.new) result };

    /// Writes bytes at a place, behind bytes of value 0 where it is past the end of the file.
    fn write_at(&mut self, at: u64, bytes: &[u8]) -> Result<(), Failed>
        ensures written { OnOk result (told self.new ≡ option_map (written_at at bytes.now) (told self.old)) }
        ensures torn { OnErr result (TornTold at (length bytes.now) (told self.old) (told self.new)) }
        ensures images { Follows (Torn at (length bytes.now)) (may_leave self.old) (may_leave self.new) }
        ensures time { Elapses (moment self.old) (moment self.new) (left_since self.old) (left_since self.new) (may_leave self.new) }
        ensures cause { HasCause (disk_faults self.old) (disk_faults self.new) result };

    /// Brings all that was written onto the disk, the length too.
    fn sync(&mut self) -> Result<(), Failed>
        ensures durable { OnOk result (OnlyTold (told self.new) (may_leave self.new)) }
        ensures told { told self.new ≡ told self.old }
        ensures images { NoNewImage (may_leave self.old) (may_leave self.new) }
        ensures time { Elapses (moment self.old) (moment self.new) (left_since self.old) (left_since self.new) (may_leave self.new) }
        ensures cause { HasCause (disk_faults self.old) (disk_faults self.new) result };

    /// A disk as it reads is one of its images.
    ghost reads_as_image: { (disk : Self) (file : List ℕ) → told disk ≡ Some file → may_leave disk file };

    /// This moment is one of those since an earlier one.
    ghost counts_now: { (disk : Self) (t : ℕ) (c : List ℕ) → t ≤ moment disk → may_leave disk c → left_since disk t c };

    /// Since this moment there is no other.
    ghost only_now: { (disk : Self) (c : List ℕ) → left_since disk (moment disk) c → may_leave disk c };
}
