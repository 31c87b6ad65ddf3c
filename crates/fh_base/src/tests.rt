use super::*;
use std::test::Fail;
use std::{fs, process};

#[test]
fn the_last_millisecond_of_9999_is_the_greatest_moment(rt: HostRuntime) {
    assert_eq!(rt;
        Moment::new(253402300799999).map(|m| m.ms()),
        Some(253402300799999)
    );
    assert!(rt; Moment::new(253402300800000).is_none());
}

#[test]
fn names_of_each_grammar(rt: HostRuntime) {
    let cases = [
        ("Orders", true, true),
        ("a", true, true),
        ("a-b_9", true, true),
        ("", false, false),
        ("9a", false, true),
        ("a.b", false, true),
        ("a b", false, true),
        ("caf\u{e9}", false, true),
        ("a\"b", false, false),
        ("a\\b", false, false),
        ("a\tb", false, false),
        ("a\u{7f}", false, false),
    ];
    for (text, is_plain, is_blob) in cases {
        assert_eq!(rt; PlainName::read(text).is_some(), is_plain);
        assert_eq!(rt; is_blob_name(text), is_blob);
    }
}

#[test]
fn a_poison_queue_has_none(rt: HostRuntime) -> Result<(), Fail> {
    let orders = QueueName::read("orders").ok_or("a queue's name")?;
    let poison = poison_of(&orders).ok_or("a poison queue")?;
    assert_eq!(rt; poison.as_bytes(), b"orders-poison".as_slice());
    assert!(rt; poison_of(&poison).is_none());
    Ok(())
}

#[test]
fn a_queue_name_of_each_form(rt: HostRuntime) {
    let cases = [
        ("abc", true),
        ("a-b", true),
        ("9a9", true),
        ("ab", false),
        ("a--b", false),
        ("-ab", false),
        ("ab-", false),
        ("aBc", false),
        ("a_b", false),
        ("", false),
        (
            "aaaaaaaaaaaaaaaaaaaaaaaaaaaaaaaaaaaaaaaaaaaaaaaaaaaaaaaaaaaaaaa",
            true,
        ),
        (
            "aaaaaaaaaaaaaaaaaaaaaaaaaaaaaaaaaaaaaaaaaaaaaaaaaaaaaaaaaaaaaaaa",
            false,
        ),
    ];
    for (text, is_name) in cases {
        assert_eq!(rt; QueueName::read(text).is_some(), is_name);
    }
}

#[test]
fn memory_streams_fail_at_their_listed_calls(rt: HostRuntime) -> Result<(), Fail> {
    let alloc = rt.alloc();
    let second = vec![in alloc; 2]?;
    let plan = FaultPlan::new(Failing::Listed { calls: second });
    let mut source = MemorySource::new(b"ab".to_vec(alloc)?, plan);
    assert_eq!(rt; read_byte(&mut source), Ok(Some(b'a')));
    assert_eq!(rt; read_byte(&mut source), Err(Failed));
    assert_eq!(rt; read_byte(&mut source), Ok(Some(b'b')));
    assert_eq!(rt; read_byte(&mut source), Ok(None));
    let mut sink = MemorySink::new(alloc, FaultPlan::new(Failing::After { passed: 1 }));
    assert_eq!(rt; write_all(&mut sink, b"one"), Ok(()));
    assert_eq!(rt; write_all(&mut sink, b"two"), Err(Failed));
    assert_eq!(rt; sink.bytes.as_slice(), b"one".as_slice());
    Ok(())
}

#[test]
fn streams_over_a_real_file(rt: HostRuntime) -> Result<(), Fail> {
    let alloc = rt.alloc();
    let path = format!(in alloc; "/tmp/fnhost-streams-{}", process::id(rt.process()))?;
    let mut sink = StreamSink::new(fs::create(&rt, path.as_str())?);
    assert_eq!(rt; write_all(&mut sink, b"xy"), Ok(()));
    let opened = StreamSource::new(alloc, fs::open(&rt, path.as_str())?);
    let Ok(mut source) = opened else {
        return Err(Fail::from("no memory"));
    };
    assert_eq!(rt; read_byte(&mut source), Ok(Some(b'x')));
    assert_eq!(rt; read_byte(&mut source), Ok(Some(b'y')));
    assert_eq!(rt; read_byte(&mut source), Ok(None));
    fs::remove_file(&rt, path.as_str())?;
    Ok(())
}

/// A connection in memory: what comes in, and what goes out.
#[derive(Drop)]
struct Wire {
    incoming: MemorySource,
    outgoing: MemorySink,
}

impl Source for Wire {
    ghost use Rattle.std.specs.Prelude.{Some, length, false};
    ghost use Rattle.fh_base.specs.FaultPlan.{never_fails};
    ghost use Rattle.fh_base.specs.MemoryStreams.{bytes_left, bytes_written};

    ghost left = { λ s. Some (bytes_left s.incoming) };

    ghost most = { λ s. length (bytes_left s.incoming) };

    ghost read_faults = { λ s. s.incoming.plan.faults };

    ghost reads_surely = { λ s. never_fails s.incoming.plan };

    ghost beside_reading = { λ s. (Some (bytes_written s.outgoing), s.outgoing.plan.faults, false) };

    fn read(&mut self, buf: &mut [u8]) -> Result<usize, Failed> {
        self.incoming.read(buf)
    }
}

impl Sink for Wire {
    ghost use Rattle.std.specs.Prelude.{Some, length, false};
    ghost use Rattle.fh_base.specs.FaultPlan.{never_fails};
    ghost use Rattle.fh_base.specs.MemoryStreams.{bytes_left, bytes_written};

    ghost written = { λ s. Some (bytes_written s.outgoing) };

    ghost write_faults = { λ s. s.outgoing.plan.faults };

    ghost writes_surely = { λ s. false };

    ghost beside_writing = { λ s. (Some (bytes_left s.incoming), length (bytes_left s.incoming), s.incoming.plan.faults, never_fails s.incoming.plan) };

    fn write(&mut self, bytes: &[u8]) -> Result<usize, Failed> {
        self.outgoing.write(bytes)
    }
}

impl Both for Wire {
    ghost use Rattle.std.specs.Prelude.{refl};

    ghost reading_keeps = { λ x. refl };

    ghost writing_keeps = { λ x. refl };
}

fn echo_byte<T: Both>(wire: &mut T) -> Result<(), Failed> {
    match read_byte(wire)? {
        Some(byte) => write_all(wire, &[byte]),
        None => Ok(()),
    }
}

#[test]
fn a_connection_in_memory_is_both(rt: HostRuntime) -> Result<(), Fail> {
    let alloc = rt.alloc();
    let calls = FaultPlan::new(Failing::Listed {
        calls: Vec::new(alloc),
    });
    let none = FaultPlan::new(Failing::Listed {
        calls: Vec::new(alloc),
    });
    let mut wire = Wire {
        incoming: MemorySource::new(b"ab".to_vec(alloc)?, calls),
        outgoing: MemorySink::new(alloc, none),
    };
    assert_eq!(rt; echo_byte(&mut wire), Ok(()));
    assert_eq!(rt; wire.outgoing.bytes.as_slice(), b"a".as_slice());
    Ok(())
}

#[test]
fn endless_input_ends_with_a_fault(rt: HostRuntime) -> Result<(), Fail> {
    let alloc = rt.alloc();
    let given = 1_099_511_627_775;
    let Ok(mut source) = StreamSource::with_given(alloc, b"abc".as_slice(), given) else {
        return Err(Fail::from("no memory"));
    };
    let mut buf = [0; 2];
    assert_eq!(rt; source.read(&mut buf), Ok(1));
    assert_eq!(rt; source.read(&mut buf), Err(Failed));
    assert_eq!(rt; source.read(&mut []), Ok(0));
    Ok(())
}

#[test]
fn durations_are_read_at_their_edges(rt: HostRuntime) {
    let read = [
        ("00:00:00", 0),
        ("00:01:00", 60_000),
        ("23:59:59", 86_399_000),
        ("1.00:00:00", 86_400_000),
        ("99.23:59:59.9999999", 8_639_999_999),
        ("00:00:00.5", 500),
        ("00:00:00.0019999", 1),
    ];
    for (text, milliseconds) in read {
        assert_eq!(rt; read_duration(text), Some(milliseconds));
    }
    let refused = [
        "",
        "0:00:00",
        "24:00:00",
        "00:60:00",
        "00:00:60",
        "100.00:00:00",
        ".00:00:00",
        "00:00:00.",
        "00:00:00.12345678",
        "-00:00:01",
        "00:00:00 ",
    ];
    for text in refused {
        assert_eq!(rt; read_duration(text), None);
    }
}

#[test]
fn moments_are_written_at_their_edges(rt: HostRuntime) -> Result<(), Fail> {
    let written = [
        (0, TimeForm::Offset, "1970-01-01T00:00:00+00:00"),
        (951_782_400_000, TimeForm::Dashed, "2000-02-29T00-00-00Z"),
        (
            1_767_225_600_000,
            TimeForm::Millis,
            "2026-01-01T00:00:00.000Z",
        ),
        (
            4_107_542_400_007,
            TimeForm::Millis,
            "2100-03-01T00:00:00.007Z",
        ),
        (
            253_402_300_799_999,
            TimeForm::Offset,
            "9999-12-31T23:59:59+00:00",
        ),
        (
            253_402_300_800_000,
            TimeForm::Dashed,
            "9999-12-31T23-59-59Z",
        ),
    ];
    for (ms, form, text) in written {
        assert_eq!(rt; time_text(rt.alloc(), ms, form)?.as_str(), text);
    }
    Ok(())
}

#[test]
fn the_host_has_a_time_and_words(rt: HostRuntime) {
    let clock = HostClock::new(rt);
    assert!(rt; 1_700_000_000_000 < clock.now());
    let mut entropy = HostEntropy::new(rt);
    let first = entropy.next();
    assert!(rt; first != entropy.next());
}
