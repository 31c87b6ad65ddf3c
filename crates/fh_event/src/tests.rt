ghost use Rattle.std.specs.Prelude.{IfOk};
ghost use Rattle.fh_event.specs.Entries.{GivesGoodMasks, GivesShortList};

use super::*;
use fh_base::{Moment, QueueName, Rule, Text, Texts, utf8_text};
use std::test::Fail;

const MADE: [u8; 19] = [
    0, 0, 0, 0, 0, 0, 0, 0, 1, 0, 0, 0, 6, 0x6f, 0x72, 0x64, 0x65, 0x72, 0x73,
];

const PUT_HI: [u8; 34] = [
    0, 0, 0, 0, 0, 0, 0, 0, 2, 0, 0, 0, 6, 0x6f, 0x72, 0x64, 0x65, 0x72, 0x73, 0, 0, 0, 0, 0, 0, 0,
    0, 0, 0, 0, 0, 2, 0x68, 0x69,
];

fn make_orders(rt: &HostRuntime) -> Result<Command, Fail>
    ensures masks { IfOk result (λ command. GivesGoodMasks command) }
    ensures list { IfOk result (λ command. GivesShortList command) }
{
    let queue = Text::from_str(rt.alloc(), "orders")?;
    Ok(Command::MakeQueue { queue })
}

fn put_hi(rt: &HostRuntime) -> Result<Command, Fail>
    ensures masks { IfOk result (λ command. GivesGoodMasks command) }
    ensures list { IfOk result (λ command. GivesShortList command) }
{
    let queue = Text::from_str(rt.alloc(), "orders")?;
    let text = Text::from_str(rt.alloc(), "hi")?;
    Ok(Command::Put {
        queue,
        delay: 0,
        ttl: None,
        text,
    })
}

// The command is written at the moment as these bytes.
pub(crate) fn expect_bytes(
    rt: &HostRuntime,
    command: &Command,
    ms: u64,
    bytes: &[u8],
) -> Result<(), Fail>
    requires masks { GivesGoodMasks command.now }
    requires list { GivesShortList command.now }
{
    let moment = Moment::new(ms).ok_or("a moment")?;
    let size = entry_size(command);
    if size != bytes.len() as u64 || size > 100 {
        return Err(Fail::from("the entry has another size"));
    }
    let mut written = Vec::new(rt.alloc());
    encode(command, moment, &mut written)?;
    if written.as_slice() != bytes {
        return Err(Fail::from("the entry has other bytes"));
    }
    Ok(())
}

#[test]
fn the_entry_of_a_queue_byte_for_byte(rt: HostRuntime) -> Result<(), Fail> {
    let command = make_orders(&rt)?;
    expect_bytes(&rt, &command, 0, &MADE)
}

#[test]
fn the_entry_of_a_put_byte_for_byte(rt: HostRuntime) -> Result<(), Fail> {
    let command = put_hi(&rt)?;
    expect_bytes(&rt, &command, 0, &PUT_HI)
}

#[test]
fn an_entry_is_read(rt: HostRuntime) -> Result<(), Fail> {
    let (moment, command) = decode(rt.alloc(), &PUT_HI)?;
    assert_eq!(rt; moment.ms(), 0);
    let Command::Put {
        queue,
        delay,
        ttl,
        text,
    } = command
    else {
        return Err("the bytes are a put".into());
    };
    assert_eq!(rt; queue.as_str(), "orders");
    assert_eq!(rt; delay, 0);
    assert_eq!(rt; ttl, None);
    assert_eq!(rt; text.as_str(), "hi");
    Ok(())
}

// At moment 258, a function `f` on the queue `orders`: 16 at once, threshold 8, limit 3, retry 0, no singleton.
const CONFIGURED: [u8; 65] = [
    0, 0, 0, 0, 0, 0, 1, 2, 13, 0, 0, 0, 1, 0x66, 1, 0, 0, 0, 6, 0x6f, 0x72, 0x64, 0x65, 0x72,
    0x73, 0, 0, 0, 0, 0, 0, 0, 16, 0, 0, 0, 0, 0, 0, 0, 8, 0, 0, 0, 0, 0, 0, 0, 3, 0, 0, 0, 0, 0,
    0, 0, 0, 0, 0, 0, 0, 0, 0, 0, 0,
];

fn configure_orders(rt: &HostRuntime) -> Result<Command, Fail>
    ensures masks { IfOk result (λ command. GivesGoodMasks command) }
    ensures list { IfOk result (λ command. GivesShortList command) }
{
    let function = Text::from_str(rt.alloc(), "f")?;
    let queue = Text::from_str(rt.alloc(), "orders")?;
    Ok(Command::Configure {
        function,
        settings: FunctionSettings::Queue {
            queue,
            batch: 16,
            threshold: 8,
            limit: 3,
            retry: 0,
            singleton: 0,
        },
    })
}

#[test]
fn the_entry_of_settings_byte_for_byte(rt: HostRuntime) -> Result<(), Fail> {
    let command = configure_orders(&rt)?;
    expect_bytes(&rt, &command, 258, &CONFIGURED)
}

#[test]
fn settings_are_read(rt: HostRuntime) -> Result<(), Fail> {
    let (_, command) = decode(rt.alloc(), &CONFIGURED)?;
    match command {
        Command::Configure {
            settings: FunctionSettings::Queue { batch, limit, .. },
            ..
        } => {
            assert_eq!(rt; batch, 16);
            assert_eq!(rt; limit, 3);
            Ok(())
        }
        _ => Err("the bytes configure a function on a queue".into()),
    }
}

// At moment 258, a function `t` that runs each five minutes, makes up for a missed run, and is a singleton for
// 15 seconds.
const TIMED: [u8; 73] = [
    0, 0, 0, 0, 0, 0, 1, 2, 13, 0, 0, 0, 1, 0x74, 3, 0, 0, 0, 0, 0, 0, 0, 1, 0, 0x84, 0x21, 8,
    0x42, 16, 0x84, 0x21, 0, 0, 0, 0, 0, 0xff, 0xff, 0xff, 0, 0, 0, 0, 0xff, 0xff, 0xff, 0xfe, 0,
    0, 0, 0, 0, 0, 0x1f, 0xfe, 0, 0, 0, 0, 0, 0, 0, 0x7f, 0, 1, 0, 0, 0, 0, 0, 0, 0, 15,
];

// The masks of `0 */5 * * * *`.
const FIVE_MINUTES: [u64; 6] = [
    1,
    0x0084_2108_4210_8421,
    0x00ff_ffff,
    0xffff_fffe,
    0x1ffe,
    0x7f,
];

#[tactic(auto, unfolding(crate::specs::Masks::is_mask))]
fn configure_timer(rt: &HostRuntime) -> Result<Command, Fail>
    ensures masks { IfOk result (λ command. GivesGoodMasks command) }
    ensures list { IfOk result (λ command. GivesShortList command) }
{
    let function = Text::from_str(rt.alloc(), "t")?;
    Ok(Command::Configure {
        function,
        settings: FunctionSettings::Timer {
            masks: FIVE_MINUTES,
            startup: false,
            monitor: true,
            singleton: 15,
        },
    })
}

#[test]
fn the_entry_of_a_timer_byte_for_byte(rt: HostRuntime) -> Result<(), Fail> {
    let command = configure_timer(&rt)?;
    expect_bytes(&rt, &command, 258, &TIMED)
}

#[test]
fn a_timer_is_read(rt: HostRuntime) -> Result<(), Fail> {
    let (_, command) = decode(rt.alloc(), &TIMED)?;
    match command {
        Command::Configure {
            settings: FunctionSettings::Timer {
                masks,
                startup,
                monitor,
                singleton,
            },
            ..
        } => {
            assert_eq!(rt; masks, FIVE_MINUTES);
            assert_eq!(rt; (startup, monitor, singleton), (false, true, 15));
            Ok(())
        }
        _ => Err("the bytes configure a timer".into()),
    }
}

// The fault of the first bytes of the timer's entry, where one of them is another.
fn timer_fault(rt: &HostRuntime, length: usize, place: usize, byte: u8) -> Option<EventFault> {
    let mut bytes = TIMED;
    if place >= 73 || length > 73 {
        return None;
    }
    bytes[place] = byte;
    decode(rt.alloc(), &bytes[..length]).err()
}

#[test]
fn each_byte_of_a_timer_is_judged(rt: HostRuntime) {
    // No form; no second, and second 60; minute 60; hour 24; days 0 and 32; months 0 and 13; weekday 7; the
    // truth bytes.
    let others = [
        (14, 4),
        (22, 0),
        (15, 16),
        (23, 16),
        (35, 1),
        (46, 0xff),
        (42, 1),
        (54, 0xff),
        (53, 0x3f),
        (62, 0xff),
        (63, 2),
        (64, 2),
    ];
    for (place, byte) in others {
        let fault = timer_fault(&rt, 73, place, byte);
        assert_eq!(rt; fault, Some(EventFault::BadField { field: 2 }));
    }
}

#[test]
fn a_timer_has_its_first_fault(rt: HostRuntime) {
    for length in 14..73 {
        let fault = timer_fault(&rt, length, 0, 0);
        assert_eq!(rt; fault, Some(EventFault::ShortField { field: 2 }));
    }
    // A mask that is bad is told before the next one is cut off, and one that is cut off isn't judged.
    let bad = Some(EventFault::BadField { field: 2 });
    assert_eq!(rt; timer_fault(&rt, 23, 22, 0), bad);
    let cut = Some(EventFault::ShortField { field: 2 });
    assert_eq!(rt; timer_fault(&rt, 22, 15, 16), cut);
}

const ARMED: [u8; 14] = [0, 0, 0, 0, 0, 0, 0, 0, 15, 0, 0, 0, 1, 0x74];

const TICKED: [u8; 14] = [0, 0, 0, 0, 0, 0, 0, 0, 16, 0, 0, 0, 1, 0x74];

fn arm(rt: &HostRuntime) -> Result<Command, Fail>
    ensures masks { IfOk result (λ command. GivesGoodMasks command) }
    ensures list { IfOk result (λ command. GivesShortList command) }
{
    let function = Text::from_str(rt.alloc(), "t")?;
    Ok(Command::Arm { function })
}

fn tick(rt: &HostRuntime) -> Result<Command, Fail>
    ensures masks { IfOk result (λ command. GivesGoodMasks command) }
    ensures list { IfOk result (λ command. GivesShortList command) }
{
    let function = Text::from_str(rt.alloc(), "t")?;
    Ok(Command::Tick { function })
}

#[test]
fn the_entry_of_an_arm_byte_for_byte(rt: HostRuntime) -> Result<(), Fail> {
    let command = arm(&rt)?;
    expect_bytes(&rt, &command, 0, &ARMED)
}

#[test]
fn the_entry_of_a_tick_byte_for_byte(rt: HostRuntime) -> Result<(), Fail> {
    let command = tick(&rt)?;
    expect_bytes(&rt, &command, 0, &TICKED)
}

#[test]
fn an_arm_is_read(rt: HostRuntime) -> Result<(), Fail> {
    let (_, command) = decode(rt.alloc(), &ARMED)?;
    match command {
        Command::Arm { function } => {
            assert_eq!(rt; function.as_str(), "t");
            Ok(())
        }
        _ => Err("the bytes are an arm".into()),
    }
}

#[test]
fn a_tick_is_read(rt: HostRuntime) -> Result<(), Fail> {
    let (_, command) = decode(rt.alloc(), &TICKED)?;
    match command {
        Command::Tick { function } => {
            assert_eq!(rt; function.as_str(), "t");
            Ok(())
        }
        _ => Err("the bytes are a tick".into()),
    }
}

#[test]
fn damaged_entries_have_their_first_fault(rt: HostRuntime) {
    let long = EventFault::LongField { field: 1 };
    let cases: [(&[u8], EventFault); 24] = [
        (b"", EventFault::ShortField { field: 0 }),
        (b"\0\0\0\0\0\0\0", EventFault::ShortField { field: 0 }),
        (b"\0\0\0\0\0\0\0\0", EventFault::ShortField { field: 0 }),
        (
            b"\0\0\xe6\x77\xd2\x1f\xdc\0",
            EventFault::BadField { field: 0 },
        ),
        (b"\0\0\0\0\0\0\0\0\0", EventFault::BadKind { kind: 0 }),
        (b"\0\0\0\0\0\0\0\0\xff", EventFault::BadKind { kind: 255 }),
        (b"\0\0\0\0\0\0\0\0\x06", EventFault::ShortField { field: 1 }),
        (
            b"\0\0\0\0\0\0\0\0\x01\0\0\0\x03ab",
            EventFault::ShortField { field: 1 },
        ),
        (b"\0\0\0\0\0\0\0\0\x01\x01\0\0\x01", long),
        (b"\0\0\0\0\0\0\0\0\x01\x06\0\0\0orders", long),
        (
            b"\0\0\0\0\0\0\0\0\x01\0\0\0\x01\xff",
            EventFault::BadField { field: 1 },
        ),
        (
            b"\0\0\0\0\0\0\0\0\x15\0\0\0\x01q\0\0\0",
            EventFault::ShortField { field: 2 },
        ),
        (
            b"\0\0\0\0\0\0\0\0\x02\0\0\0\x01q\0\0\0\0\0\0\0\0\x02",
            EventFault::BadField { field: 3 },
        ),
        (
            b"\0\0\0\0\0\0\0\0\x02\0\0\0\x01q\0\0\0\0\0\0\0\0\x01",
            EventFault::ShortField { field: 3 },
        ),
        (
            b"\0\0\0\0\0\0\0\0\x01\0\0\0\x01q\0\0",
            EventFault::Trailing { left: 2 },
        ),
        // The settings of a function: their form is missing, is none of the three, or their fields are cut off.
        (
            b"\0\0\0\0\0\0\0\0\x0d\0\0\0\x01f",
            EventFault::ShortField { field: 2 },
        ),
        (
            b"\0\0\0\0\0\0\0\0\x0d\0\0\0\x01f\x04",
            EventFault::BadField { field: 2 },
        ),
        (
            b"\0\0\0\0\0\0\0\0\x0d\0\0\0\x01f\x01\0\0\0\x01\xff",
            EventFault::BadField { field: 2 },
        ),
        (
            b"\0\0\0\0\0\0\0\0\x0d\0\0\0\x01f\x02\0\0\0\0\0\0\0\x10\0\0",
            EventFault::ShortField { field: 2 },
        ),
        (b"\0\0\0\0\0\0\0\0\x0f", EventFault::ShortField { field: 1 }),
        (b"\0\0\0\0\0\0\0\0\x10", EventFault::ShortField { field: 1 }),
        (b"\0\0\0\0\0\0\0\0\x11", EventFault::ShortField { field: 1 }),
        (b"\0\0\0\0\0\0\0\0\x13", EventFault::ShortField { field: 1 }),
        (b"\0\0\0\0\0\0\0\0\x19", EventFault::BadKind { kind: 25 }),
    ];
    for (bytes, expected) in cases {
        let fault = decode(rt.alloc(), bytes).err();
        assert_eq!(rt; fault, Some(expected));
    }
}

fn item(rt: &HostRuntime, number: u64, text: &str) -> Result<Item, Fail> {
    let text = Text::from_str(rt.alloc(), text)?;
    Ok(Item {
        number,
        receipt: 12,
        count: 3,
        text,
    })
}

#[test]
fn each_reply_has_its_line(rt: HostRuntime) -> Result<(), Fail> {
    let mut taken = Vec::new(rt.alloc());
    taken.push(item(&rt, 1, "hi")?)?;
    taken.push(item(&rt, 2, "a b%\n\u{e9}")?)?;
    let mut peeked = Vec::new(rt.alloc());
    peeked.push(item(&rt, 5, "")?)?;
    let queue = QueueName::read("orders").ok_or("a queue's name")?;
    let mut blobs = Vec::new(rt.alloc());
    blobs.push(Text::from_str(rt.alloc(), "a b.txt")?)?;
    blobs.push(Text::from_str(rt.alloc(), "c")?)?;
    let cases: [(Reply, &str); 27] = [
        (Reply::Made, "ok"),
        (Reply::There, "quiet there"),
        (
            Reply::Stored {
                number: 1,
                receipt: 2,
            },
            "ok 1 2",
        ),
        (
            Reply::Taken {
                items: Items::new(taken),
            },
            "ok 2 1:12:3:hi 2:12:3:a%20b%25%0A%C3%A9",
        ),
        (Reply::Empty, "quiet empty"),
        (Reply::Updated { receipt: 7 }, "ok 7"),
        (Reply::Deleted, "ok"),
        (Reply::Cleared { count: 3 }, "ok 3"),
        (Reply::BlobStored { version: 4 }, "ok 4"),
        (Reply::BlobDeleted, "ok"),
        (Reply::Noted { number: 9 }, "ok 9"),
        (Reply::NotedBefore, "quiet noted"),
        (Reply::Acquired { until: 15000 }, "ok 15000"),
        (Reply::Renewed { until: 30000 }, "ok 30000"),
        (Reply::Released, "ok"),
        (Reply::Configured { number: 2 }, "ok 2"),
        (Reply::Same, "quiet same"),
        (
            Reply::Got {
                version: 3,
                text: Text::from_str(rt.alloc(), "a b")?,
            },
            "is 3 a%20b",
        ),
        (
            Reply::Unnoted {
                blobs: Texts::from_vec(blobs),
            },
            "is 2 a%20b.txt c",
        ),
        (
            Reply::Peeked {
                items: Items::new(peeked),
            },
            "is 1 5:3:%",
        ),
        (
            Reply::Located {
                place: Place::Waiting { queue },
            },
            "is waiting orders",
        ),
        (
            Reply::Located {
                place: Place::Held {
                    queue,
                    until: 30000,
                },
            },
            "is held orders 30000",
        ),
        (
            Reply::Located {
                place: Place::Deleted,
            },
            "is deleted",
        ),
        (
            Reply::Located {
                place: Place::Completed { invocation: 1 },
            },
            "is completed 1",
        ),
        (
            Reply::Located {
                place: Place::Moved { copy: 2 },
            },
            "is moved 2",
        ),
        (
            Reply::Located {
                place: Place::Expired,
            },
            "is expired",
        ),
        (
            Reply::Located {
                place: Place::Unknown,
            },
            "is unknown",
        ),
    ];
    for (reply, expected) in &cases {
        let line = answer_text(rt.alloc(), Ok(reply))?;
        assert_eq!(rt; line.as_str(), *expected);
    }
    Ok(())
}

#[test]
fn each_reply_of_a_timer_has_its_line(rt: HostRuntime) -> Result<(), Fail> {
    let next = Some(600000);
    let due = 300000;
    let cases: [(Reply, &str); 9] = [
        (Reply::Armed { next }, "ok armed 600000"),
        (Reply::Armed { next: None }, "ok armed -"),
        (Reply::PastDue { due, next }, "ok pastdue 300000 600000"),
        (Reply::PastDue { due, next: None }, "ok pastdue 300000 -"),
        (Reply::Ticked { due, next }, "ok ticked 300000 600000"),
        (Reply::Ticked { due, next: None }, "ok ticked 300000 -"),
        (Reply::Running, "quiet running"),
        (Reply::Unarmed, "quiet unarmed"),
        (Reply::NotDue, "quiet notdue"),
    ];
    for (reply, expected) in &cases {
        let line = answer_text(rt.alloc(), Ok(reply))?;
        assert_eq!(rt; line.as_str(), *expected);
    }
    Ok(())
}

#[test]
fn each_rule_has_its_line(rt: HostRuntime) -> Result<(), Fail> {
    let cases: [(Rule, &str); 17] = [
        (Rule::MomentTooLate, "no 1 MomentTooLate"),
        (Rule::BadName, "no 2 BadName"),
        (
            Rule::TooLarge {
                size: 65537,
                limit: 65536,
            },
            "no 3 TooLarge 65537 65536",
        ),
        (
            Rule::OutOfRange {
                given: 33,
                low: 1,
                high: 32,
            },
            "no 4 OutOfRange 33 1 32",
        ),
        (Rule::NoSuchFunction, "no 5 NoSuchFunction"),
        (Rule::QueueNotFound, "no 6 QueueNotFound"),
        (Rule::BlobNotFound, "no 7 BlobNotFound"),
        (Rule::MessageNotFound, "no 8 MessageNotFound"),
        (Rule::NoSuchInvocation, "no 9 NoSuchInvocation"),
        (
            Rule::PopReceiptMismatch { current: 2 },
            "no 10 PopReceiptMismatch 2",
        ),
        (
            Rule::LeaseHeld {
                holder: 7,
                until: 15000,
            },
            "no 11 LeaseHeld 7 15000",
        ),
        (Rule::LeaseMismatch { holder: 8 }, "no 12 LeaseMismatch 8"),
        (Rule::StoreFull { live: 100000 }, "no 13 StoreFull 100000"),
        (
            Rule::JournalFull { length: 1073741800 },
            "no 14 JournalFull 1073741800",
        ),
        (Rule::OldJournal { version: 1 }, "no 15 OldJournal 1"),
        (
            Rule::TokensFull { kept: 1000000 },
            "no 16 TokensFull 1000000",
        ),
        (Rule::BadZone, "no 17 BadZone"),
    ];
    for (rule, expected) in &cases {
        let line = answer_text(rt.alloc(), Err(rule))?;
        assert_eq!(rt; line.as_str(), *expected);
    }
    Ok(())
}

#[test]
fn a_text_is_copied(rt: HostRuntime) -> Result<(), Fail> {
    let text = Text::from_str(rt.alloc(), "orders")?;
    assert_eq!(rt; text.copy(rt.alloc())?.as_str(), "orders");
    Ok(())
}

#[test]
fn bytes_are_a_text_where_they_are_utf8(rt: HostRuntime) {
    let cases: [(&[u8], Option<&str>); 5] = [
        (b"", Some("")),
        (b"caf\xC3\xA9", Some("caf\u{e9}")),
        // An overlong spelling, half of a pair of surrogates, and a character that is cut off.
        (b"\xC0\x80", None),
        (b"\xED\xA0\x80", None),
        (b"caf\xC3", None),
    ];
    for (bytes, text) in cases {
        assert_eq!(rt; utf8_text(bytes), text);
    }
}
