use super::*;
use fh_base::{Failing, FaultPlan, Text};
use fh_disk::{Disk, MemoryDisk};
use fh_event::{Command, EventFault, Place, StepFault, answer_text};
use fh_journal::FrameRule;
use std::alloc::Global;
use std::test::Fail;

/// The calls of mounting an empty file: a sync, the length, a write and a sync.
const MOUNT: u64 = 4;

/// The calls of an append to a journal that is whole.
const APPEND: u64 = 4;

const HEADER: [u8; 6] = [0x46, 0x4E, 0x48, 0x4A, 0, 1];

// A disk with these bytes, of which so many calls pass.
fn disk_of(alloc: Global, bytes: &[u8], passed: u64) -> Result<MemoryDisk, Fail> {
    let plan = FaultPlan::new(Failing::After { passed });
    Ok(MemoryDisk::recording(alloc, bytes.to_vec(alloc)?, plan)?)
}

fn make(alloc: Global) -> Result<Command, Fail> {
    let queue = Text::from_str(alloc, "orders")?;
    Ok(Command::MakeQueue { queue })
}

fn put(alloc: Global, text: &str) -> Result<Command, Fail> {
    Ok(Command::Put {
        queue: Text::from_str(alloc, "orders")?,
        delay: 0,
        ttl: None,
        text: Text::from_str(alloc, text)?,
    })
}

fn take(alloc: Global) -> Result<Command, Fail> {
    Ok(Command::Take {
        queue: Text::from_str(alloc, "orders")?,
        count: 1,
        hold: 30,
    })
}

// What a script prints for the step.
fn answer<J: Disk>(
    alloc: Global,
    hub: &mut Hub<'_, J>,
    command: &Command,
    now: u64,
) -> Result<String, Fail> {
    match hub.step(alloc, command, now) {
        Ok(reply) => Ok(answer_text(alloc, Ok(&reply))?),
        Err(StepFault::Rule(rule)) => Ok(answer_text(alloc, Err(&rule))?),
        Err(StepFault::NoMemory) => Err(Fail::from("no memory")),
        Err(StepFault::DiskFault) => Err(Fail::from("disk fault")),
    }
}

// The step is answered so.
fn expect<J: Disk>(
    alloc: Global,
    hub: &mut Hub<'_, J>,
    command: Command,
    now: u64,
    expected: &str,
) -> Result<(), Fail> {
    let found = answer(alloc, hub, &command, now)?;
    if found.as_str() != expected {
        return Err(Fail::from("another answer"));
    }
    Ok(())
}

fn mounted<'d>(alloc: Global, disk: &'d mut MemoryDisk) -> Result<Hub<'d, MemoryDisk>, Fail> {
    match Hub::mount(alloc, disk) {
        Ok(hub) => Ok(hub),
        Err(_) => Err(Fail::from("not mounted")),
    }
}

// Puts a message and takes it at the moment 1000.
fn hold_one<J: Disk>(alloc: Global, hub: &mut Hub<'_, J>) -> Result<(), Fail> {
    expect(alloc, hub, make(alloc)?, 1000, "ok")?;
    expect(alloc, hub, put(alloc, "hi")?, 1000, "ok 1 1")?;
    expect(alloc, hub, take(alloc)?, 1000, "ok 1 1:2:1:hi")
}

#[test]
fn places_of_messages(rt: HostRuntime) -> Result<(), Fail> {
    let alloc = rt.alloc();
    let mut disk = disk_of(alloc, b"", 99)?;
    let mut hub = mounted(alloc, &mut disk)?;
    hold_one(alloc, &mut hub)?;
    let before = hub.place_of(1, 0);
    assert!(rt; matches!(before, Place::Held { until: 31000, .. }));
    let after = hub.place_of(1, 31000);
    assert!(rt; matches!(after, Place::Waiting { .. }));
    let unborn = hub.place_of(2, 0);
    assert!(rt; matches!(unborn, Place::Unknown));
    hub.close();
    Ok(())
}

// The step may fail.
fn try_step<J: Disk>(alloc: Global, hub: &mut Hub<'_, J>, command: Command) {
    let _step = hub.step(alloc, &command, 0);
}

#[test]
fn a_stop_in_an_append(rt: HostRuntime) -> Result<(), Fail> {
    let alloc = rt.alloc();
    for passed in 1..5 {
        let mut disk = disk_of(alloc, b"", MOUNT + APPEND + passed)?;
        let mut hub = mounted(alloc, &mut disk)?;
        expect(alloc, &mut hub, make(alloc)?, 0, "ok")?;
        try_step(alloc, &mut hub, put(alloc, "hi")?);
        let disk = hub.close();
        for choice in 0..8 {
            let mut image = disk_of(alloc, &disk.image(alloc, choice)?, 99)?;
            let hub = mounted(alloc, &mut image)?;
            let entries = hub.history().len();
            assert!(rt; entries == 1 && passed < 4 || entries == 2 && passed > 2);
            hub.close();
        }
    }
    Ok(())
}

#[test]
fn a_fault_then_ok(rt: HostRuntime) -> Result<(), Fail> {
    let alloc = rt.alloc();
    let calls = [MOUNT + APPEND + APPEND].to_vec(alloc)?;
    let plan = FaultPlan::new(Failing::Listed { calls });
    let mut disk = MemoryDisk::recording(alloc, Vec::new(alloc), plan)?;
    let mut hub = mounted(alloc, &mut disk)?;
    assert_eq!(rt; answer(alloc, &mut hub, &make(alloc)?, 0)?.as_str(), "ok");
    let failed = hub.step(alloc, &put(alloc, "a")?, 0);
    assert!(rt; matches!(failed, Err(StepFault::DiskFault)));
    assert!(rt; hub.journal.torn());
    assert_eq!(rt; hub.history().len(), 1);
    assert_eq!(rt;
        answer(alloc, &mut hub, &put(alloc, "b")?, 0)?.as_str(),
        "ok 1 1"
    );
    let disk = hub.close();
    let mut again = disk_of(alloc, disk.bytes(), 99)?;
    let hub = mounted(alloc, &mut again)?;
    assert_eq!(rt; hub.history().len(), 2);
    let Some(entry) = hub.history().entry(1) else {
        return Err(Fail::from("no entry"));
    };
    assert!(rt; entry.ends_with(b"b"));
    hub.close();
    Ok(())
}

#[test]
fn each_call_of_a_step_may_fail(rt: HostRuntime) -> Result<(), Fail> {
    let alloc = rt.alloc();
    for passed in 0..4 {
        let mut disk = disk_of(alloc, b"", MOUNT + passed)?;
        let mut hub = mounted(alloc, &mut disk)?;
        let failed = hub.step(alloc, &make(alloc)?, 0);
        assert!(rt; matches!(failed, Err(StepFault::DiskFault)));
        assert_eq!(rt; (hub.journal.torn(), hub.history().len()), (passed > 1, 0));
        hub.close();
    }
    Ok(())
}

// A journal with a frame for each payload.
fn journal_of(alloc: Global, payloads: &[&[u8]]) -> Result<Vec<u8>, Fail> {
    let mut bytes = HEADER.to_vec(alloc)?;
    for payload in payloads {
        if payload.len() > 100 {
            return Err(Fail::from("too long"));
        }
        bytes.push(1)?;
        bytes.extend_from_slice(&(payload.len() as u32).to_be_bytes())?;
        bytes.extend_from_slice(payload)?;
    }
    bytes.push(0)?;
    Ok(bytes)
}

#[test]
fn journals_that_are_refused(rt: HostRuntime) -> Result<(), Fail> {
    let alloc = rt.alloc();
    const MAKE: &[u8] = b"\0\0\0\0\0\0\0\x09\x01\0\0\0\x06orders";
    const AGAIN_EARLIER: &[u8] = b"\0\0\0\0\0\0\0\x08\x01\0\0\0\x06others";
    const PEEK: &[u8] = b"\0\0\0\0\0\0\0\x09\x15\0\0\0\x06orders\0\0\0\0\0\0\0\x01";
    const LONG: &[u8] = b"\0\0\0\0\0\0\0\x09\x01\x01\0\0\x01";
    const LATE: &[u8] = b"\xff\0\0\0\0\0\0\0\x01\0\0\0\x06orders";
    let cases: [(&[&[u8]], u64, HubRule); 9] = [
        (
            &[b""],
            6,
            HubRule::Event(EventFault::ShortField { field: 0 }),
        ),
        (
            &[MAKE, b"\0\0\0\0\0\0\0\0\x63"],
            30,
            HubRule::Event(EventFault::BadKind { kind: 99 }),
        ),
        (
            &[MAKE, LONG],
            30,
            HubRule::Event(EventFault::LongField { field: 1 }),
        ),
        (
            &[LATE],
            6,
            HubRule::Event(EventFault::BadField { field: 0 }),
        ),
        (
            &[b"\0\0\0\0\0\0\0\0\x01\0\0\0\x03abcd"],
            6,
            HubRule::Event(EventFault::Trailing { left: 1 }),
        ),
        (&[MAKE, MAKE], 30, HubRule::Refused),
        (&[MAKE, AGAIN_EARLIER], 30, HubRule::Refused),
        (&[MAKE, PEEK], 30, HubRule::Refused),
        (&[b"\0\0\0\0\0\0\0\0\x01\0\0\0\x02ab"], 6, HubRule::Refused),
    ];
    for (payloads, at, rule) in cases {
        let bytes = journal_of(alloc, payloads)?;
        let mut disk = disk_of(alloc, &bytes, 99)?;
        let Err((fault, disk)) = Hub::mount(alloc, &mut disk) else {
            return Err(Fail::from("mounted"));
        };
        assert_eq!(rt; fault, HubFault::BadFrame { at, rule });
        assert_eq!(rt; disk.bytes(), bytes.as_slice());
    }
    Ok(())
}

#[test]
fn faults_of_frames_come_before_those_of_entries(rt: HostRuntime) -> Result<(), Fail> {
    let alloc = rt.alloc();
    let mut bytes = journal_of(alloc, &[b"x", b"hello"])?;
    let _gate = bytes.pop();
    let mut disk = disk_of(alloc, &bytes, 99)?;
    let rule = HubRule::Frame(FrameRule::Cut);
    assert_eq!(rt;
        prepare(alloc, &mut disk).err(),
        Some(HubFault::BadFrame { at: 12, rule })
    );
    let mut other = disk_of(alloc, b"12345678", 99)?;
    assert_eq!(rt; prepare(alloc, &mut other).err(), Some(HubFault::BadHeader));
    let mut failing = disk_of(alloc, b"", 0)?;
    assert_eq!(rt;
        prepare(alloc, &mut failing).err(),
        Some(HubFault::DiskFault)
    );
    Ok(())
}
