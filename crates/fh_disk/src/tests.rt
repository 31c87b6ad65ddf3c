// What no clause says: that calls succeed with ample memory, that images differ, and a real file.
use super::*;
use fh_base::{Bytes, Failed, Failing, FaultPlan};
use std::process::Abort;
use std::test::Fail;
use std::time::SystemTime;
use std::{env, fs};

fn no_faults(rt: &HostRuntime) -> FaultPlan {
    FaultPlan::new(Failing::Listed {
        calls: Vec::new(rt.alloc()),
    })
}

// Each disk moves to another thread.
fn writes_and_reads<D: Disk + Send>(rt: &impl Abort, disk: &mut D) -> Result<(), Fail> {
    assert_eq!(rt; disk.length()?, 0);
    disk.write_at(2, &[7, 8, 9])?;
    disk.write_at(0, &[5])?;
    disk.sync()?;
    assert_eq!(rt; disk.length()?, 5);
    let mut front = [1; 4];
    assert_eq!(rt; disk.read_at(0, &mut front)?, 4);
    assert_eq!(rt; front.as_slice(), [5, 0, 7, 8].as_slice());
    let mut end = [1; 4];
    assert_eq!(rt; disk.read_at(4, &mut end)?, 1);
    assert_eq!(rt; end.as_slice(), [9, 1, 1, 1].as_slice());
    assert_eq!(rt; disk.read_at(5, &mut end)?, 0);
    Ok(())
}

#[test]
fn disks_in_memory_write_and_read(rt: HostRuntime) -> Result<(), Fail> {
    let alloc = rt.alloc();
    let mut recording = MemoryDisk::recording(alloc, Vec::new(alloc), no_faults(&rt))?;
    writes_and_reads(&rt, &mut recording)?;
    assert_eq!(rt; recording.bytes(), [5, 0, 7, 8, 9].as_slice());
    assert_eq!(rt; (recording.reads(), recording.calls().len()), (3, 3));
    let mut plain = MemoryDisk::plain(Vec::new(alloc), no_faults(&rt));
    writes_and_reads(&rt, &mut plain)?;
    assert_eq!(rt; plain.bytes(), [5, 0, 7, 8, 9].as_slice());
    assert_eq!(rt;
        plain.image(alloc, 7)?.as_slice(),
        [5, 0, 7, 8, 9].as_slice()
    );
    Ok(())
}

#[test]
fn pieces_are_written_before_one_sync_and_read_whole(rt: HostRuntime) -> Result<(), Fail> {
    let alloc = rt.alloc();
    let piece = |at: u64, bytes: &[u8]| Bytes::from_slice(alloc, bytes).map(|bytes| Piece {
        at,
        bytes,
    });
    let pieces = [piece(4, &[5, 6])?, piece(0, &[1, 2])?, piece(1, &[9])?];
    let mut disk = MemoryDisk::recording(alloc, Vec::new(alloc), no_faults(&rt))?;
    write_pieces(&mut disk, &pieces)?;
    assert_eq!(rt; disk.bytes(), [1, 9, 0, 0, 5, 6].as_slice());
    assert_eq!(rt; disk.plan.calls, 4);
    let mut bytes = [7; 3];
    assert_eq!(rt; read_fully(&mut disk, 2, &mut bytes)?, true);
    assert_eq!(rt; bytes.as_slice(), [0, 0, 5].as_slice());
    assert_eq!(rt; read_fully(&mut disk, 5, &mut bytes)?, false);
    assert_eq!(rt; bytes[0], 6);
    Ok(())
}

#[test]
fn a_file_is_made_locked_and_opened_again(rt: HostRuntime) -> Result<(), Fail> {
    let alloc = rt.alloc();
    let now = SystemTime::now(&rt)?.duration_since(SystemTime::UNIX_EPOCH)?;
    let folder = env::temp_dir(&rt)?;
    let path = format!(in alloc; "{}/fh_disk_{}", folder.as_str(), now.as_nanos())?;
    let mut made = FileDisk::new(rt, path.clone()?);
    writes_and_reads(&rt, &mut made)?;
    let mut opened = FileDisk::new(rt, path.clone()?);
    let mut bytes = [0; 5];
    assert_eq!(rt; opened.read_at(0, &mut bytes), Err(Failed));
    drop(made);
    assert_eq!(rt; opened.read_at(0, &mut bytes)?, 5);
    assert_eq!(rt; bytes.as_slice(), [5, 0, 7, 8, 9].as_slice());
    fs::remove_file(&rt, path.as_str())?;
    let nowhere = format!(in alloc; "{}/none/file", path.as_str())?;
    assert_eq!(rt; FileDisk::new(rt, nowhere).length(), Err(Failed));
    Ok(())
}

#[test]
fn a_crash_tears_what_is_not_synced(rt: HostRuntime) -> Result<(), Fail> {
    let alloc = rt.alloc();
    let bytes = [1, 2, 3].to_vec(alloc)?;
    let mut disk = MemoryDisk::recording(alloc, bytes, no_faults(&rt))?;
    disk.write_at(2, &[8; 64])?;
    let mut is_torn = false;
    for choice in 0..16 {
        let image = disk.image(alloc, choice)?;
        assert!(rt; image.starts_with(&[1, 2]), "image {choice}");
        match choice {
            0 => assert_eq!(rt; image.as_slice(), [1, 2, 3].as_slice()),
            1 => assert_eq!(rt; image.as_slice(), disk.bytes()),
            _ if image.len() != 3 && image.as_slice() != disk.bytes() => is_torn = true,
            _ => {}
        }
    }
    assert!(rt; is_torn);
    disk.sync()?;
    for choice in 0..16 {
        assert_eq!(rt;
            disk.image(alloc, choice)?.as_slice(),
            disk.bytes(),
            "image {choice}"
        );
    }
    Ok(())
}

#[test]
fn a_torn_write_leaves_bytes_that_were_neither_old_nor_written(
    rt: HostRuntime,
) -> Result<(), Fail> {
    let alloc = rt.alloc();
    let mut disk = MemoryDisk::recording(alloc, [1; 64].to_vec(alloc)?, no_faults(&rt))?;
    disk.write_at(0, &[8; 64])?;
    let mut is_torn = false;
    for choice in 2..16 {
        let image = disk.image(alloc, choice)?;
        is_torn = is_torn || image.iter().skip(1).any(|byte| *byte != 1 && *byte != 8);
    }
    assert!(rt; is_torn);
    Ok(())
}

#[test]
fn a_disk_fails_at_the_calls_of_its_plan(rt: HostRuntime) -> Result<(), Fail> {
    let alloc = rt.alloc();
    let calls = [2, 4].to_vec(alloc)?;
    let plan = FaultPlan::new(Failing::Listed { calls });
    let mut disk = MemoryDisk::recording(alloc, Vec::new(alloc), plan)?;
    assert_eq!(rt; disk.length(), Ok(0));
    assert_eq!(rt; disk.write_at(0, &[1]), Err(Failed));
    assert_eq!(rt; disk.write_at(0, &[2]), Ok(()));
    assert_eq!(rt; disk.sync(), Err(Failed));
    assert_eq!(rt; disk.image(alloc, 0)?.len(), 0);
    disk.stop_after(1);
    assert_eq!(rt; disk.sync(), Ok(()));
    assert_eq!(rt; disk.write_at(0, &[3]), Err(Failed));
    assert_eq!(rt; disk.read_at(0, &mut [0]), Err(Failed));
    assert_eq!(rt; disk.image(alloc, 9)?.as_slice(), [2].as_slice());
    assert_eq!(rt; (disk.plan.calls, disk.plan.faults), (7, 4));
    Ok(())
}
