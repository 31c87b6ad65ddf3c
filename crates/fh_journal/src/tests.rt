use super::*;
use fh_base::{Failing, FaultPlan};
use fh_disk::{Call, Disk, MemoryDisk};
use std::process::Abort;
use std::test::Fail;

const FRESH: [u8; 7] = [0x46, 0x4E, 0x48, 0x4A, 0, 1, 0];

// Two frames, of the payloads "hi" and "x", and bytes behind the closed gate.
const TWO: [u8; 22] = [
    0x46, 0x4E, 0x48, 0x4A, 0, 1, 1, 0, 0, 0, 2, b'h', b'i', 1, 0, 0, 0, 1, b'x', 0, 7, 7,
];

// A disk of which so many calls pass.
fn disk_of(rt: &HostRuntime, bytes: &[u8], passed: u64) -> Result<MemoryDisk, Fail> {
    let alloc = rt.alloc();
    let plan = FaultPlan::new(Failing::After { passed });
    Ok(MemoryDisk::recording(alloc, bytes.to_vec(alloc)?, plan)?)
}

fn append<J: Disk>(
    journal: &mut Journal<J>,
    payload: &[u8],
) -> Result<Result<u64, AppendFault>, Fail> {
    journal.reserve(payload.len())?;
    match journal.room(payload.len() as u64) {
        None if !payload.is_empty() && payload.len() < 100 => Ok(journal.append(payload)),
        _ => Err(Fail::from("no room")),
    }
}

#[test]
fn files_of_at_most_7_bytes_are_made_anew(rt: HostRuntime) -> Result<(), Fail> {
    let cases: [(&[u8], usize); 4] = [(b"", 3), (b"hello", 3), (&FRESH, 1), (b"1234567", 3)];
    for (bytes, calls) in cases {
        let mut disk = disk_of(&rt, bytes, 99)?;
        let made = prepare(rt.alloc(), &mut disk);
        assert!(rt; made.is_ok_and(|made| made.gate == 6 && made.frames.as_slice().is_empty()));
        assert_eq!(rt; disk.bytes(), FRESH.as_slice());
        assert_eq!(rt; disk.calls().len(), calls);
    }
    Ok(())
}

#[test]
fn frames_are_read_by_two_reads_each(rt: HostRuntime) -> Result<(), Fail> {
    let mut disk = disk_of(&rt, &TWO, 99)?;
    let made = prepare(rt.alloc(), &mut disk)?;
    assert_eq!(rt; made.gate, 19);
    let frames: [(u64, &[u8]); 2] = [(6, b"hi"), (13, b"x")];
    assert_eq!(rt; made.frames.as_slice().len(), frames.len());
    for (found, (at, payload)) in made.frames.as_slice().iter().zip(frames) {
        assert_eq!(rt; found.at, at);
        assert_eq!(rt; found.payload.as_slice(), payload);
    }
    assert_eq!(rt; disk.bytes(), TWO.as_slice());
    assert_eq!(rt; (disk.calls().len(), disk.reads()), (1, 6));
    Ok(())
}

#[test]
fn files_that_are_refused(rt: HostRuntime) -> Result<(), Fail> {
    let cut = |at| MountFault::BadFrame {
        at,
        rule: FrameRule::Cut,
    };
    let too_long = MountFault::BadFrame {
        at: 6,
        rule: FrameRule::Length { given: 16_777_217 },
    };
    let cases: [(&[u8], MountFault); 9] = [
        (b"FNHX\0\x01\0\0", MountFault::BadHeader),
        (b"12345678", MountFault::BadHeader),
        (&TWO[..8], cut(6)),
        (&TWO[..12], cut(6)),
        (&TWO[..13], cut(6)),
        (&TWO[..14], cut(13)),
        (&TWO[..19], cut(13)),
        (b"FNHJ\0\x01\x01\x01\0\0\x01", too_long),
        (b"FNHJ\0\x01\x01\x01\0\0\0", cut(6)),
    ];
    for (bytes, fault) in cases {
        let mut disk = disk_of(&rt, bytes, 99)?;
        let Err((found, _disk)) = Journal::mount(rt.alloc(), &mut disk) else {
            return Err(Fail::from("mounted"));
        };
        assert_eq!(rt; found, fault);
        assert_eq!(rt; disk.bytes(), bytes);
        assert_eq!(rt; disk.calls().len(), 1);
    }
    Ok(())
}

// What may be handed to another thread.
fn moves_between_threads<T: Send>(_value: &T) {}

#[test]
fn a_file_that_is_cut_at_50_bytes(rt: HostRuntime) -> Result<(), Fail> {
    let mut disk = disk_of(&rt, &FRESH, 99)?;
    let mut journal = Journal::over(rt.alloc(), &mut disk, 6);
    moves_between_threads(&journal);
    assert_eq!(rt; append(&mut journal, &[7; 19])?, Ok(6));
    assert_eq!(rt; append(&mut journal, &[8; 40])?, Ok(30));
    let disk = journal.close();
    let mut front = disk.bytes().to_vec(rt.alloc())?;
    front.truncate(50);
    let mut short = disk_of(&rt, &front, 99)?;
    let fault = prepare(rt.alloc(), &mut short).err();
    let rule = FrameRule::Cut;
    assert_eq!(rt; fault, Some(MountFault::BadFrame { at: 30, rule }));
    Ok(())
}

#[test]
fn each_call_of_a_mount_may_fail(rt: HostRuntime) -> Result<(), Fail> {
    // A sync, the length, the header, two reads a frame, and the last gate.
    for passed in 0..9 {
        let mut disk = disk_of(&rt, &TWO, passed)?;
        let fault = prepare(rt.alloc(), &mut disk).err();
        assert_eq!(rt;
            fault,
            if passed < 8 {
                Some(MountFault::DiskFault)
            } else {
                None
            }
        );
    }
    Ok(())
}

// The bytes of each write among the calls, and none for a sync.
fn assert_calls(rt: &impl Abort, calls: &[Call], expected: &[Option<(u64, &[u8])>]) {
    assert_eq!(rt; calls.len(), expected.len());
    for (call, wanted) in calls.iter().zip(expected) {
        match (call, wanted) {
            (Call::Write { at, bytes }, Some((place, piece))) => {
                assert_eq!(rt; *at, *place);
                assert_eq!(rt; bytes.as_slice(), *piece);
            }
            (Call::Sync, None) => {}
            _ => assert!(rt; false),
        }
    }
}

#[test]
fn a_torn_journal_is_mended_before_the_next_payload(rt: HostRuntime) -> Result<(), Fail> {
    let mut disk = disk_of(&rt, &FRESH, 3)?;
    let mut journal = Journal::over(rt.alloc(), &mut disk, 6);
    assert_eq!(rt; append(&mut journal, b"hi")?, Err(AppendFault::DiskFault));
    assert!(rt; journal.torn());
    journal.disk.stop_after(99);
    assert_eq!(rt; append(&mut journal, b"x")?, Ok(6));
    assert_eq!(rt; (journal.torn(), journal.gate), (false, 12));
    assert_eq!(rt; append(&mut journal, b"y")?, Ok(12));
    let disk = journal.close();
    let expected: [Option<(u64, &[u8])>; 13] = [
        Some((7, b"\0\0\0\x02hi\0")),
        None,
        Some((6, b"\x01")),
        Some((6, b"\0")),
        None,
        Some((7, b"\0\0\0\x01x\0")),
        None,
        Some((6, b"\x01")),
        None,
        Some((13, b"\0\0\0\x01y\0")),
        None,
        Some((12, b"\x01")),
        None,
    ];
    assert_calls(&rt, disk.calls(), &expected);
    assert_eq!(rt;
        disk.bytes(),
        b"FNHJ\0\x01\x01\0\0\0\x01x\x01\0\0\0\x01y\0".as_slice()
    );
    Ok(())
}

#[test]
fn each_call_of_an_append_may_fail(rt: HostRuntime) -> Result<(), Fail> {
    let cases = [
        (0, true, false),
        (1, true, false),
        (2, true, true),
        (3, true, true),
        (4, false, false),
    ];
    for (passed, fails, torn) in cases {
        let mut disk = disk_of(&rt, &FRESH, passed)?;
        let mut journal = Journal::over(rt.alloc(), &mut disk, 6);
        assert_eq!(rt; append(&mut journal, b"hi")?.is_err(), fails);
        assert_eq!(rt; (journal.torn(), journal.gate == 6), (torn, fails));
        assert_eq!(rt; journal.mend().is_err(), torn);
        assert_eq!(rt; journal.torn(), torn);
    }
    Ok(())
}

// How many frames each of eight images of a disk has.
fn frames_of_images(rt: &HostRuntime, disk: &MemoryDisk) -> Result<Vec<usize>, Fail> {
    let mut counts = Vec::new(rt.alloc());
    for choice in 0..8 {
        let mut image = disk_of(rt, &disk.image(rt.alloc(), choice)?, 99)?;
        let made = prepare(rt.alloc(), &mut image)?;
        counts.push(made.frames.as_slice().len())?;
    }
    Ok(counts)
}

#[test]
fn a_stop_in_an_append_leaves_the_new_frame_or_not(rt: HostRuntime) -> Result<(), Fail> {
    let cases = [(0, 1, 1), (1, 1, 1), (2, 1, 1), (3, 1, 2), (4, 2, 2)];
    for (passed, fewest, most) in cases {
        let mut disk = disk_of(&rt, &FRESH, 99)?;
        let mut journal = Journal::over(rt.alloc(), &mut disk, 6);
        assert_eq!(rt; append(&mut journal, b"first entry")?, Ok(6));
        journal.disk.stop_after(passed);
        assert_eq!(rt; append(&mut journal, b"second entry")?.is_ok(), passed == 4);
        let counts = frames_of_images(&rt, journal.close())?;
        assert_eq!(rt; counts.iter().min(), Some(&fewest), "after {passed} calls");
        assert_eq!(rt; counts.iter().max(), Some(&most), "after {passed} calls");
    }
    Ok(())
}

#[test]
fn a_journal_has_room_up_to_a_gibibyte(rt: HostRuntime) -> Result<(), Fail> {
    let cases = [
        (6, 16_777_216, true),
        (1_056_964_602, 16_777_216, true),
        (1_056_964_603, 16_777_216, false),
        (1_073_741_817, 1, true),
        (1_073_741_818, 1, false),
        (6, u64::MAX, false),
        (u64::MAX, 1, false),
    ];
    for (gate, payload, fits) in cases {
        let mut disk = disk_of(&rt, &FRESH, 99)?;
        let journal = Journal::over(rt.alloc(), &mut disk, gate);
        assert_eq!(rt; journal.room(payload), if fits { None } else { Some(gate) });
    }
    Ok(())
}

#[test]
fn a_mounted_journal_goes_on(rt: HostRuntime) -> Result<(), Fail> {
    let mut disk = disk_of(&rt, &TWO, 99)?;
    let Ok((mut journal, frames)) = Journal::mount(rt.alloc(), &mut disk) else {
        return Err(Fail::from("refused"));
    };
    assert_eq!(rt; frames.into_vec().len(), 2);
    assert_eq!(rt; append(&mut journal, b"more")?, Ok(19));
    let disk = journal.close();
    let made = prepare(rt.alloc(), disk);
    assert!(rt; made.is_ok_and(|made| made.gate == 28 && made.frames.as_slice().len() == 3));
    Ok(())
}
