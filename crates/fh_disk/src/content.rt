// The bytes of a file in memory: reading and writing at a place.
ghost use Rattle.std.specs.Prelude.{◌≡◌, ◌+◌, ◌-◌, ◌≤◌, ◌++◌, length, take, drop, replicate, IsOk, OnOk, OnErr};
ghost use Rattle.fh_disk.specs.Disk.{ReadsAt, written_at};

use std::alloc::AllocError;

/// Reads as many bytes as there are and as fit.
pub(crate) fn read_from(file: &[u8], at: u64, buf: &mut [u8]) -> usize
    ensures bound { result ≤ length buf.new }
    ensures bytes { ReadsAt file.now at buf.new result }
{
    let start = file.len().min(at as usize);
    let (_before, rest) = file.split_at(start);
    let size = buf.len().min(rest.len());
    buf[..size].copy_from_slice(&rest[..size]);
    size
}

/// Puts bytes of value 0 behind a file that is shorter than that. It takes memory only there.
pub(crate) fn lengthen(file: &mut Vec<u8>, end: usize) -> Result<(), AllocError>
    ensures ok { OnOk result (file.new.items ≡ file.old.items ++ replicate (end - length file.old.items) 0) }
    ensures err { OnErr result (file.new.items ≡ file.old.items) }
    ensures surely { end ≤ length file.old.items → IsOk result }
{
    if file.len() < end {
        file.resize(end, 0)?;
    }
    Ok(())
}

/// Writes over bytes that are there.
pub(crate) fn overwrite(file: &mut Vec<u8>, at: usize, bytes: &[u8])
    requires { at + length bytes.now ≤ length file.old.items }
    ensures { file.new.items ≡ take at file.old.items ++ bytes.now ++ drop (at + length bytes.now) file.old.items }
{
    let end = at + bytes.len();
    file[at..end].copy_from_slice(bytes);
}

/// Writes bytes at a place, behind bytes of value 0 where it is past the end of the file.
pub(crate) fn put(file: &mut Vec<u8>, at: u64, bytes: &[u8]) -> Result<(), AllocError>
    ensures { OnOk result (file.new.items ≡ written_at at bytes.now file.old.items) }
{
    let start = at as usize;
    let Some(end) = start.checked_add(bytes.len()) else {
        return Err(AllocError);
    };
    lengthen(file, end)?;
    overwrite(file, start, bytes);
    Ok(())
}
