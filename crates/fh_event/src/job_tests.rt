// Entries of the commands of sessions and jobs byte for byte, their faults, and the lines of their replies.
ghost use Rattle.std.specs.Prelude.{IfOk};
ghost use Rattle.fh_event.specs.Entries.{GivesGoodMasks, GivesShortList};

use crate::tests::expect_bytes;
use crate::*;
use fh_base::{QueueName, Text};
use std::test::Fail;

const SESSION: [u8; 9] = [0, 0, 0, 0, 0, 0, 0, 0, 14];

const RENEWALS: [u8; 9] = [0, 0, 0, 0, 0, 0, 0, 0, 20];

const FETCH_F: [u8; 14] = [0, 0, 0, 0, 0, 0, 0, 0, 17, 0, 0, 0, 1, 0x66];

const BEGIN_F: [u8; 30] = [
    0, 0, 0, 0, 0, 0, 0, 0, 18, 0, 0, 0, 1, 0x66, 0, 0, 0, 0, 0, 0, 1, 2, 0xff, 0, 0, 0, 0, 0, 0, 3,
];

// Invocation 7 failed, for the cause `link`.
const FAILED: [u8; 26] = [
    0, 0, 0, 0, 0, 0, 0, 0, 19, 0, 0, 0, 0, 0, 0, 0, 7, 0, 0, 0, 0, 4, 0x6c, 0x69, 0x6e, 0x6b,
];

// Invocation 7 succeeded, with `hi` for the queue `q` and the empty text for the blob `b` of `c`.
const DONE: [u8; 49] = [
    0, 0, 0, 0, 0, 0, 0, 0, 19, 0, 0, 0, 0, 0, 0, 0, 7, 1, 0, 0, 0, 2, 1, 0, 0, 0, 1, 0x71, 0, 0,
    0, 2, 0x68, 0x69, 2, 0, 0, 0, 1, 0x63, 0, 0, 0, 1, 0x62, 0, 0, 0, 0,
];

fn fetch(rt: &HostRuntime) -> Result<Command, Fail>
    ensures masks { IfOk result (λ command. GivesGoodMasks command) }
    ensures list { IfOk result (λ command. GivesShortList command) }
{
    let function = Text::from_str(rt.alloc(), "f")?;
    Ok(Command::Fetch { function })
}

fn begin(rt: &HostRuntime) -> Result<Command, Fail>
    ensures masks { IfOk result (λ command. GivesGoodMasks command) }
    ensures list { IfOk result (λ command. GivesShortList command) }
{
    let function = Text::from_str(rt.alloc(), "f")?;
    Ok(Command::Begin {
        function,
        high: 258,
        low: 0xff00_0000_0000_0003,
    })
}

fn failed(rt: &HostRuntime) -> Result<Command, Fail>
    ensures masks { IfOk result (λ command. GivesGoodMasks command) }
    ensures list { IfOk result (λ command. GivesShortList command) }
{
    let cause = Text::from_str(rt.alloc(), "link")?;
    Ok(Command::Finish {
        invocation: 7,
        outcome: Outcome::Failed { cause },
    })
}

fn queue_output(rt: &HostRuntime) -> Result<Output, Fail> {
    let queue = Text::from_str(rt.alloc(), "q")?;
    let text = Text::from_str(rt.alloc(), "hi")?;
    Ok(Output::Queue { queue, text })
}

fn blob_output(rt: &HostRuntime) -> Result<Output, Fail> {
    let container = Text::from_str(rt.alloc(), "c")?;
    let blob = Text::from_str(rt.alloc(), "b")?;
    let text = Text::empty(rt.alloc());
    Ok(Output::Blob {
        container,
        blob,
        text,
    })
}

fn done(rt: &HostRuntime) -> Result<Command, Fail>
    ensures masks { IfOk result (λ command. GivesGoodMasks command) }
    ensures list { IfOk result (λ command. GivesShortList command) }
{
    let mut outputs = Vec::new(rt.alloc());
    outputs.push(queue_output(rt)?)?;
    outputs.push(blob_output(rt)?)?;
    Ok(Command::Finish {
        invocation: 7,
        outcome: Outcome::Done {
            outputs: Outputs::new(outputs),
        },
    })
}

#[test]
fn the_entry_of_a_session_byte_for_byte(rt: HostRuntime) -> Result<(), Fail> {
    expect_bytes(&rt, &Command::Session, 0, &SESSION)
}

#[test]
fn the_entry_of_renewals_byte_for_byte(rt: HostRuntime) -> Result<(), Fail> {
    expect_bytes(&rt, &Command::Renewals, 0, &RENEWALS)
}

#[test]
fn the_entry_of_a_fetch_byte_for_byte(rt: HostRuntime) -> Result<(), Fail> {
    let command = fetch(&rt)?;
    expect_bytes(&rt, &command, 0, &FETCH_F)
}

#[test]
fn the_entry_of_a_begin_byte_for_byte(rt: HostRuntime) -> Result<(), Fail> {
    let command = begin(&rt)?;
    expect_bytes(&rt, &command, 0, &BEGIN_F)
}

#[test]
fn the_entry_of_a_failure_byte_for_byte(rt: HostRuntime) -> Result<(), Fail> {
    let command = failed(&rt)?;
    expect_bytes(&rt, &command, 0, &FAILED)
}

#[test]
fn the_entry_of_a_success_byte_for_byte(rt: HostRuntime) -> Result<(), Fail> {
    let command = done(&rt)?;
    expect_bytes(&rt, &command, 0, &DONE)
}

#[test]
fn a_session_is_read(rt: HostRuntime) -> Result<(), Fail> {
    match decode(rt.alloc(), &SESSION)?.1 {
        Command::Session => Ok(()),
        _ => Err("the bytes are a session".into()),
    }
}

#[test]
fn renewals_are_read(rt: HostRuntime) -> Result<(), Fail> {
    match decode(rt.alloc(), &RENEWALS)?.1 {
        Command::Renewals => Ok(()),
        _ => Err("the bytes are renewals".into()),
    }
}

#[test]
fn a_fetch_is_read(rt: HostRuntime) -> Result<(), Fail> {
    let (_, command) = decode(rt.alloc(), &FETCH_F)?;
    match command {
        Command::Fetch { function } => {
            assert_eq!(rt; function.as_str(), "f");
            Ok(())
        }
        _ => Err("the bytes are a fetch".into()),
    }
}

#[test]
fn a_begin_is_read(rt: HostRuntime) -> Result<(), Fail> {
    let (_, command) = decode(rt.alloc(), &BEGIN_F)?;
    match command {
        Command::Begin { high, low, .. } => {
            assert_eq!(rt; (high, low), (258, 0xff00_0000_0000_0003));
            Ok(())
        }
        _ => Err("the bytes are a begin".into()),
    }
}

#[test]
fn a_failure_is_read(rt: HostRuntime) -> Result<(), Fail> {
    let (_, command) = decode(rt.alloc(), &FAILED)?;
    match command {
        Command::Finish {
            invocation,
            outcome: Outcome::Failed { cause },
        } => {
            assert_eq!(rt; invocation, 7);
            assert_eq!(rt; cause.as_str(), "link");
            Ok(())
        }
        _ => Err("the bytes finish with a failure".into()),
    }
}

#[test]
fn a_success_is_read(rt: HostRuntime) -> Result<(), Fail> {
    let (_, command) = decode(rt.alloc(), &DONE)?;
    let Command::Finish {
        outcome: Outcome::Done { outputs },
        ..
    } = command
    else {
        return Err("the bytes finish with a success".into());
    };
    match outputs.as_slice() {
        [
            Output::Queue { queue, text },
            Output::Blob {
                container,
                blob,
                text: blob_text,
            },
        ] => {
            assert_eq!(rt; (queue.as_str(), text.as_str()), ("q", "hi"));
            assert_eq!(rt; (container.as_str(), blob.as_str()), ("c", "b"));
            assert_eq!(rt; blob_text.as_str(), "");
            Ok(())
        }
        _ => Err("there are two outputs".into()),
    }
}

// The fault of the first bytes of the success, where one of them is another.
fn done_fault(rt: &HostRuntime, length: usize, place: usize, byte: u8) -> Option<EventFault> {
    let mut bytes = DONE;
    if place >= 49 || length > 49 {
        return None;
    }
    bytes[place] = byte;
    decode(rt.alloc(), &bytes[..length]).err()
}

#[test]
fn each_cut_of_a_success_is_told(rt: HostRuntime) {
    for length in 9..17 {
        let fault = done_fault(&rt, length, 0, 0);
        assert_eq!(rt; fault, Some(EventFault::ShortField { field: 1 }));
    }
    for length in 17..49 {
        let fault = done_fault(&rt, length, 0, 0);
        assert_eq!(rt; fault, Some(EventFault::ShortField { field: 2 }));
    }
}

#[test]
fn an_outcome_has_its_first_fault(rt: HostRuntime) {
    let bad = EventFault::BadField { field: 2 };
    let long = EventFault::LongField { field: 2 };
    let short = EventFault::ShortField { field: 2 };
    // Neither a failure nor a success; no form of an output; a text that is no UTF-8; a text and a list that are
    // too long; more outputs than there are, and fewer.
    let others = [
        (17, 2, bad),
        (22, 0, bad),
        (22, 3, bad),
        (34, 4, bad),
        (27, 0xff, bad),
        (33, 0xff, bad),
        (23, 1, long),
        (45, 2, long),
        (18, 1, long),
        (19, 1, long),
        (21, 3, short),
        (21, 1, EventFault::Trailing { left: 15 }),
        (21, 0, EventFault::Trailing { left: 27 }),
        // The length of the list, read as that of a cause.
        (17, 0, EventFault::Trailing { left: 25 }),
    ];
    for (place, byte, expected) in others {
        assert_eq!(rt; done_fault(&rt, 49, place, byte), Some(expected));
    }
}

#[test]
fn a_list_has_at_most_65536_items(rt: HostRuntime) {
    let cases: [(&[u8], EventFault); 3] = [
        (
            b"\0\0\0\0\0\0\0\0\x13\0\0\0\0\0\0\0\x07\x01\0\x01\0\0",
            EventFault::ShortField { field: 2 },
        ),
        (
            b"\0\0\0\0\0\0\0\0\x13\0\0\0\0\0\0\0\x07\x01\0\x01\0\x01",
            EventFault::LongField { field: 2 },
        ),
        (
            b"\0\0\0\0\0\0\0\0\x13\0\0\0\0\0\0\0\x07\x01\xff\xff\xff\xff",
            EventFault::LongField { field: 2 },
        ),
    ];
    for (bytes, expected) in cases {
        assert_eq!(rt; decode(rt.alloc(), bytes).err(), Some(expected));
    }
}

fn expect_line(rt: &HostRuntime, reply: &Reply, expected: &str) -> Result<(), Fail> {
    let line = answer_text(rt.alloc(), Ok(reply))?;
    if line.as_str() != expected {
        return Err(Fail::from("the reply has another line"));
    }
    Ok(())
}

fn fetched(rt: &HostRuntime) -> Result<Reply, Fail> {
    let mut jobs = Vec::new(rt.alloc());
    jobs.push(FetchedJob {
        number: 1,
        receipt: 12,
        count: 3,
    })?;
    jobs.push(FetchedJob {
        number: 2,
        receipt: 13,
        count: 1,
    })?;
    Ok(Reply::Fetched {
        jobs: FetchedJobs::new(jobs),
    })
}

fn renewed(rt: &HostRuntime) -> Result<Reply, Fail> {
    let mut parts = Vec::new(rt.alloc());
    parts.push(RenewalPart::Message {
        invocation: 4,
        receipt: 9,
        until: 900000,
    })?;
    parts.push(RenewalPart::Lease {
        invocation: 4,
        until: 60000,
    })?;
    Ok(Reply::HoldsRenewed {
        parts: RenewalParts::new(parts),
    })
}

#[test]
fn lists_of_jobs_and_holds_have_their_lines(rt: HostRuntime) -> Result<(), Fail> {
    let jobs = fetched(&rt)?;
    expect_line(&rt, &jobs, "ok 2 1:12:3 2:13:1")?;
    let parts = renewed(&rt)?;
    expect_line(&rt, &parts, "ok 2 m4:9:900000 l4:60000")
}

fn begun(rt: &HostRuntime, job: BegunJob) -> Result<Reply, Fail> {
    Ok(Reply::Begun {
        begun: Begun {
            invocation: 5,
            function: Text::from_str(rt.alloc(), "f")?,
            moment: 1000,
            high: 1,
            low: 2,
            job,
        },
    })
}

fn message_job(rt: &HostRuntime) -> Result<BegunJob, Fail> {
    let queue = QueueName::read("orders").ok_or("a queue's name")?;
    let about = About {
        container: queue,
        blob: Text::from_str(rt.alloc(), "b")?,
        version: 3,
    };
    let about = about.copy(rt.alloc())?;
    Ok(BegunJob::Message {
        number: 6,
        queue,
        text: Text::from_str(rt.alloc(), "hi")?,
        count: 2,
        receipt: 8,
        put_at: 0,
        expiry: None,
        visible_at: 600000,
        about: Some(about),
        content: None,
    })
}

#[test]
fn a_begin_of_a_message_has_its_line(rt: HostRuntime) -> Result<(), Fail> {
    let job = message_job(&rt)?;
    let reply = begun(&rt, job)?;
    expect_line(&rt, &reply, "ok begun 5 6 2")
}

#[test]
fn a_begin_of_a_timer_has_its_line(rt: HostRuntime) -> Result<(), Fail> {
    let job = BegunJob::Timer {
        past_due: true,
        last: None,
        next: Some(300000),
        updated: 0,
    };
    let reply = begun(&rt, job)?;
    expect_line(&rt, &reply, "ok begun 5 0 0")
}

#[test]
fn each_reply_of_a_job_has_its_line(rt: HostRuntime) -> Result<(), Fail> {
    let broken = Some(13);
    let (copy, visible_at) = (7, 30000);
    let cases: [(Reply, &str); 14] = [
        (Reply::SessionBegun { session: 2 }, "ok 2"),
        (Reply::Busy { in_work: 9 }, "quiet busy 9"),
        (Reply::NoJob, "quiet idle"),
        (Reply::JobDropped { number: 3 }, "ok dropped 3"),
        (Reply::JobPoisoned { copy, broken: None }, "ok poisoned 7"),
        (Reply::JobPoisoned { copy, broken }, "ok poisoned 7 rule 13"),
        (
            Reply::Blocked {
                holder: 4,
                until: 15000,
            },
            "quiet blocked 4 15000",
        ),
        (Reply::JobLost, "ok lost"),
        (Reply::JobDone, "ok done"),
        (Reply::JobFailed { broken: None }, "ok failed"),
        (Reply::JobFailed { broken }, "ok failed rule 13"),
        (
            Reply::JobReleased {
                visible_at,
                broken: None,
            },
            "ok released 30000",
        ),
        (
            Reply::JobReleased { visible_at, broken },
            "ok released 30000 rule 13",
        ),
        (Reply::NothingDue, "quiet none"),
    ];
    for (reply, expected) in &cases {
        expect_line(&rt, reply, expected)?;
    }
    Ok(())
}
