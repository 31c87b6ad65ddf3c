use super::*;
use fh_base::{Failing, FaultPlan, MemorySink, MemorySource};
use fh_disk::MemoryDisk;
use std::test::Fail;

#[derive(Drop)]
pub(crate) struct Outcome {
    pub(crate) code: u8,
    pub(crate) written: String,
    pub(crate) journal: Vec<u8>,
}

fn failing_after(passed: u64) -> FaultPlan {
    FaultPlan::new(Failing::After { passed })
}

// What `script` leaves over these lines and this journal, where each object passes so many calls.
pub(crate) fn run(
    rt: &HostRuntime,
    lines: &[u8],
    journal: &[u8],
    passed: [u64; 3],
) -> Result<Outcome, Fail> {
    let alloc = rt.alloc();
    let words = words_of(rt, "script journal checkpoint")?;
    let mut source = MemorySource::new(lines.to_vec(alloc)?, failing_after(passed[0]));
    let mut sink = MemorySink::new(alloc, failing_after(passed[1]));
    let mut disk = MemoryDisk::recording(alloc, journal.to_vec(alloc)?, failing_after(passed[2]))?;
    let mut none = MemoryDisk::plain(Vec::new(alloc), failing_after(0));
    let status = script(alloc, &words, &mut source, &mut sink, &mut disk, &mut none);
    if !none.bytes().is_empty() {
        return Err(Fail::from("the checkpoint was written"));
    }
    Ok(Outcome {
        code: status.code,
        written: String::from_str(alloc, str::from_utf8(&sink.bytes)?)?,
        journal: disk.bytes().to_vec(alloc)?,
    })
}

fn words_of(rt: &HostRuntime, line: &str) -> Result<Vec<String>, Fail> {
    let alloc = rt.alloc();
    let mut words = Vec::new(alloc);
    for word in line.split(' ') {
        words.push(String::from_str(alloc, word)?)?;
    }
    Ok(words)
}

pub(crate) const NEVER: [u64; 3] = [1_000_000; 3];

// The lines of a table that aren't answered over this journal as the table says.
pub(crate) fn expect(rt: &HostRuntime, journal: &[u8], cases: &[(&str, &str)]) -> Result<(), Fail> {
    for (lines, answers) in cases {
        let end = run(rt, lines.as_bytes(), journal, NEVER)?;
        let found = end.written.as_str();
        if end.code != 0 || found != *answers {
            return Err(Fail::from(format!(in rt.alloc(); "{found} in place of {answers}")?));
        }
    }
    Ok(())
}

// The journal of these entries, each with its length.
pub(crate) fn journal_of(rt: &HostRuntime, entries: &[(u8, &[u8])]) -> Result<Vec<u8>, Fail> {
    let mut file = b"FNHJ\0\x01".to_vec(rt.alloc())?;
    for (length, entry) in entries {
        file.extend_from_slice(&[1, 0, 0, 0, *length])?;
        file.extend_from_slice(entry)?;
    }
    file.push(0)?;
    Ok(file)
}

const FRESH: [u8; 7] = [0x46, 0x4E, 0x48, 0x4A, 0, 1, 0];

const FIRST_PATH: &str = "queue orders\nput orders 0 -1 hi\n";

const FIRST_FILE: [u8; 70] = [
    0x46, 0x4E, 0x48, 0x4A, 0x00, 0x01, 0x01, 0x00, 0x00, 0x00, 0x13, 0x00, 0x00, 0x00, 0x00, 0x00,
    0x00, 0x00, 0x00, 0x01, 0x00, 0x00, 0x00, 0x06, 0x6F, 0x72, 0x64, 0x65, 0x72, 0x73, 0x01, 0x00,
    0x00, 0x00, 0x22, 0x00, 0x00, 0x00, 0x00, 0x00, 0x00, 0x00, 0x00, 0x02, 0x00, 0x00, 0x00, 0x06,
    0x6F, 0x72, 0x64, 0x65, 0x72, 0x73, 0x00, 0x00, 0x00, 0x00, 0x00, 0x00, 0x00, 0x00, 0x00, 0x00,
    0x00, 0x00, 0x02, 0x68, 0x69, 0x00,
];

const OLD_RECEIPT: &str = "queue orders\nput orders 0 -1 hi\ntake orders 1 30\ndelete orders 1 1\n\
    where 1\ndelete orders 1 2\nwhere 1\ndelete orders 1 2\n";

const OLD_RECEIPT_ANSWERS: &str = "ok\nok 1 1\nok 1 1:2:1:hi\nno 10 PopReceiptMismatch 2\n\
    is held orders 30000\nok\nis deleted\nno 8 MessageNotFound\n";

// The entries that these lines leave, with their lengths, at the moment 0: the queue, the put, the take, and
// the delete with the receipt of the take.
const OLD_RECEIPT_ENTRIES: [(u8, &[u8]); 4] = [
    (0x13, b"\0\0\0\0\0\0\0\0\x01\0\0\0\x06orders"),
    (
        0x22,
        b"\0\0\0\0\0\0\0\0\x02\0\0\0\x06orders\0\0\0\0\0\0\0\0\0\0\0\0\x02hi",
    ),
    (
        0x23,
        b"\0\0\0\0\0\0\0\0\x03\0\0\0\x06orders\0\0\0\0\0\0\0\x01\0\0\0\0\0\0\0\x1E",
    ),
    (
        0x23,
        b"\0\0\0\0\0\0\0\0\x05\0\0\0\x06orders\0\0\0\0\0\0\0\x01\0\0\0\0\0\0\0\x02",
    ),
];

#[test]
fn no_lines_make_an_empty_journal(rt: HostRuntime) -> Result<(), Fail> {
    let files: [&[u8]; 2] = [b"", b"hello"];
    for file in files {
        let end = run(&rt, b"", file, NEVER)?;
        assert_eq!(rt; end.code, 0);
        assert_eq!(rt; end.written.as_str(), "");
        assert_eq!(rt; end.journal.as_slice(), FRESH.as_slice());
    }
    Ok(())
}

#[test]
fn the_first_run_leaves_these_70_bytes(rt: HostRuntime) -> Result<(), Fail> {
    let end = run(&rt, FIRST_PATH.as_bytes(), b"", NEVER)?;
    assert_eq!(rt; end.code, 0);
    assert_eq!(rt; end.written.as_str(), "ok\nok 1 1\n");
    assert_eq!(rt; end.journal.as_slice(), FIRST_FILE.as_slice());
    Ok(())
}

#[test]
fn an_old_receipt_leaves_these_four_entries(rt: HostRuntime) -> Result<(), Fail> {
    let file = journal_of(&rt, &OLD_RECEIPT_ENTRIES)?;
    let end = run(&rt, OLD_RECEIPT.as_bytes(), b"", NEVER)?;
    assert_eq!(rt; end.journal.as_slice(), file.as_slice());
    Ok(())
}

#[test]
fn lines_over_an_empty_journal(rt: HostRuntime) -> Result<(), Fail> {
    let cases: [(&str, &str); 17] = [
        ("queue ab\n", "no 2 BadName\n"),
        ("queue a--b\n", "no 2 BadName\n"),
        (
            "queue aaaaaaaaaaaaaaaaaaaaaaaaaaaaaaaaaaaaaaaaaaaaaaaaaaaaaaaaaaaaaaaa\n",
            "no 2 BadName\n",
        ),
        (
            "queue aaaaaaaaaaaaaaaaaaaaaaaaaaaaaaaaaaaaaaaaaaaaaaaaaaaaaaaaaaaaaaa\n",
            "ok\n",
        ),
        ("queue abc\nqueue abc\n", "ok\nquiet there\n"),
        ("put abc 0 -1 a\n", "no 6 QueueNotFound\n"),
        ("put AB 0 -1 a\n", "no 2 BadName\n"),
        ("frob\n", "bad word\n"),
        ("put orders 0\n", "bad count\n"),
        ("put orders x -1 a\n", "bad number\n"),
        ("put caf\u{e9} x -1 a\n", "bad number\n"),
        ("put a%ff 0 -1 a\n", "bad text\n"),
        ("  \n\n", ""),
        ("  queue   abc  \r\nqueue abc", "ok\nquiet there\n"),
        (OLD_RECEIPT, OLD_RECEIPT_ANSWERS),
        (
            "at 9000\nqueue orders\nat 5000\nput orders 0 -1 a\ntake orders 1 30\nwhere 1\n",
            "at 9000\nok\nat 5000\nok 1 1\nok 1 1:2:1:a\nis held orders 39000\n",
        ),
        (
            "at 253402300800000\nat 253402300799999\nqueue orders\nat 0\nput orders 5 10 a\n\
             take orders 1 30\n",
            "no 1 MomentTooLate\nat 253402300799999\nok\nat 0\nok 1 1\nquiet empty\n",
        ),
    ];
    expect(&rt, b"", &cases)?;
    let end = run(&rt, b"queue a\xff\n", b"", NEVER)?;
    assert_eq!(rt; end.written.as_str(), "bad text\n");
    Ok(())
}

#[test]
fn lines_over_the_journal_of_the_first_run(rt: HostRuntime) -> Result<(), Fail> {
    let cases: [(&str, &str); 4] = [
        (
            "take orders 1 30\nat 40000\nwhere 1\ndelete orders 1 2\n",
            "ok 1 1:2:1:hi\nat 40000\nis waiting orders\nok\n",
        ),
        (
            "take orders 1 30\nat 40000\ntake orders 1 30\nupdate orders 1 2 30\nwhere 1\n",
            "ok 1 1:2:1:hi\nat 40000\nok 1 1:3:2:hi\nno 10 PopReceiptMismatch 3\n\
             is held orders 70000\n",
        ),
        (
            "peek orders -\nclear orders\nwhere 1\nwhere 2\n",
            "is 1 1:0:hi\nok 1\nis deleted\nis unknown\n",
        ),
        ("queue orders\n", "quiet there\n"),
    ];
    expect(&rt, &FIRST_FILE, &cases)
}

// The session of docs/commands.md: each run goes on with the journal of the one before.
#[test]
fn a_session_of_runs_over_one_journal(rt: HostRuntime) -> Result<(), Fail> {
    let runs = [
        ("queue orders\nput orders 0 -1 hi\n", "ok\nok 1 1\n"),
        (
            "at 1000\ntake orders 1 30\nwhere 1\n",
            "at 1000\nok 1 1:2:1:hi\nis held orders 31000\n",
        ),
        (
            "at 2000\ndelete orders 1 1\ndelete orders 1 2\nwhere 1\n",
            "at 2000\nno 10 PopReceiptMismatch 2\nok\nis deleted\n",
        ),
        (
            "acquire jobs 7 15\nblob inbox a.txt x\nget inbox a.txt\n",
            "ok 17000\nok 1\nis 1 x\n",
        ),
        (
            "at 16999\nacquire jobs 8 15\nat 17000\nacquire jobs 8 15\n",
            "at 16999\nno 11 LeaseHeld 7 17000\nat 17000\nok 32000\n",
        ),
        ("renew jobs 7\n", "no 12 LeaseMismatch 8\n"),
    ];
    let mut journal = Vec::new(rt.alloc());
    for (lines, answers) in runs {
        let end = run(&rt, lines.as_bytes(), &journal, NEVER)?;
        assert_eq!(rt; (end.code, end.written.as_str()), (0, answers));
        let Outcome {
            code: _,
            written: _,
            journal: left,
        } = end;
        journal = left;
    }
    Ok(())
}

#[test]
fn ranges_and_expiry(rt: HostRuntime) -> Result<(), Fail> {
    let lines = "queue orders\ntake orders 33 30\nput orders 0 - a\nput orders 10 10 a\n\
        at 604800000\nwhere 1\ntake orders 1 30\n";
    let end = run(&rt, lines.as_bytes(), b"", NEVER)?;
    let answers = "ok\nno 4 OutOfRange 33 1 32\nok 1 1\nno 4 OutOfRange 10 0 9\nat 604800000\n\
        is expired\nquiet empty\n";
    assert_eq!(rt; end.written.as_str(), answers);
    Ok(())
}

#[test]
fn a_text_of_65536_bytes_is_taken_and_one_more_is_refused(rt: HostRuntime) -> Result<(), Fail> {
    let alloc = rt.alloc();
    let cases = [
        (65_536, "ok\nok 1 1\n"),
        (65_537, "ok\nno 3 TooLarge 65537 65536\n"),
    ];
    for (size, answers) in cases {
        let mut lines = b"queue orders\nput orders 0 -1 ".to_vec(alloc)?;
        lines.extend_from_slice(&vec![in alloc; b'x'; size]?)?;
        let end = run(&rt, &lines, b"", NEVER)?;
        assert_eq!(rt; end.written.as_str(), answers);
    }
    Ok(())
}

#[test]
fn a_line_of_140000_bytes_is_read_and_one_more_ends_the_run(rt: HostRuntime) -> Result<(), Fail> {
    let alloc = rt.alloc();
    let cases = [(140_000, 0, "bad word\n"), (140_001, 8, "line too long\n")];
    for (size, code, written) in cases {
        let mut lines = vec![in alloc; b'x'; size]?;
        lines.push(b'\n')?;
        let end = run(&rt, &lines, b"", NEVER)?;
        assert_eq!(rt; end.code, code);
        assert_eq!(rt; end.written.as_str(), written);
    }
    Ok(())
}

// The first run's file with this byte in place of one, or cut there.
fn changed(rt: &HostRuntime, place: usize, byte: Option<u8>) -> Result<Vec<u8>, Fail> {
    let mut file = FIRST_FILE.to_vec(rt.alloc())?;
    if place >= file.len() {
        return Err(Fail::from("a place in the file"));
    }
    match byte {
        Some(byte) => file[place] = byte,
        None => file.truncate(place),
    }
    Ok(file)
}

#[test]
fn damaged_files_and_their_last_lines(rt: HostRuntime) -> Result<(), Fail> {
    let cases: [(usize, Option<u8>, &str); 8] = [
        (3, Some(0x58), "damaged 0 BadHeader\n"),
        (50, None, "damaged 30 Cut\n"),
        (31, Some(9), "damaged 30 Length\n"),
        (43, Some(200), "damaged 30 Kind\n"),
        (66, Some(9), "damaged 30 Short\n"),
        (44, Some(2), "damaged 30 Long\n"),
        (35, Some(0xFF), "damaged 30 Field\n"),
        (66, Some(1), "damaged 30 Trailing\n"),
    ];
    for (place, byte, written) in cases {
        let file = changed(&rt, place, byte)?;
        let end = run(&rt, FIRST_PATH.as_bytes(), &file, NEVER)?;
        assert_eq!(rt; end.written.as_str(), written);
        assert_eq!(rt; end.code, 4);
        assert_eq!(rt; end.journal.as_slice(), file.as_slice());
    }
    // The put goes to a queue that isn't there.
    let file = changed(&rt, 48, Some(b'p'))?;
    let end = run(&rt, b"", &file, NEVER)?;
    assert_eq!(rt;
        (end.code, end.written.as_str()),
        (4, "damaged 30 Refused\n")
    );
    let end = run(&rt, b"", &[0x46, 0x4E, 0x48, 0x58, 0, 1, 0, 0], NEVER)?;
    assert_eq!(rt;
        (end.code, end.written.as_str()),
        (4, "damaged 0 BadHeader\n")
    );
    Ok(())
}

#[test]
fn statuses_and_their_last_lines(rt: HostRuntime) -> Result<(), Fail> {
    let cases: [([u64; 3], u8, &str); 6] = [
        ([0, 99, 99], 5, "read fault\n"),
        ([20, 99, 99], 5, "ok\nread fault\n"),
        ([99, 99, 0], 6, "disk fault\n"),
        ([99, 99, 7], 6, "disk fault\n"),
        ([99, 99, 11], 6, "ok\ndisk fault\n"),
        ([99, 1, 99], 7, "ok\n"),
    ];
    for (passed, code, written) in cases {
        let end = run(&rt, FIRST_PATH.as_bytes(), b"", passed)?;
        assert_eq!(rt; end.written.as_str(), written);
        assert_eq!(rt; end.code, code);
    }
    // A last line without a line feed is answered, and nothing is read behind it.
    let end = run(&rt, b"where 1", b"", [8, 99, 99])?;
    assert_eq!(rt; (end.code, end.written.as_str()), (0, "is unknown\n"));
    Ok(())
}

#[test]
fn faulty_words_are_a_usage_fault(rt: HostRuntime) -> Result<(), Fail> {
    let alloc = rt.alloc();
    let mut none = MemoryDisk::plain(Vec::new(alloc), failing_after(0));
    let mut other = MemoryDisk::plain(Vec::new(alloc), failing_after(0));
    for line in [
        "script journal",
        "script journal checkpoint more",
        "serve a b",
        "",
    ] {
        let words = words_of(&rt, line)?;
        let mut source = MemorySource::new(Vec::new(alloc), failing_after(0));
        let mut sink = MemorySink::new(alloc, failing_after(99));
        let status = script(alloc, &words, &mut source, &mut sink, &mut none, &mut other);
        assert_eq!(rt; status.code, 2);
        assert_eq!(rt; sink.bytes.as_slice(), b"usage\n".as_slice());
    }
    Ok(())
}

// The disk that stopped after so many calls of the lines of an old receipt, and how many `ok` were
// written for recorded lines.
fn stopped(rt: &HostRuntime, calls: u64) -> Result<(MemoryDisk, usize), Fail> {
    let alloc = rt.alloc();
    let words = words_of(rt, "script journal checkpoint")?;
    let mut source = MemorySource::new(OLD_RECEIPT.as_bytes().to_vec(alloc)?, failing_after(999));
    let mut sink = MemorySink::new(alloc, failing_after(999));
    let mut disk = MemoryDisk::recording(alloc, Vec::new(alloc), failing_after(999))?;
    disk.stop_after(calls);
    let mut none = MemoryDisk::plain(Vec::new(alloc), failing_after(0));
    let _status = script(alloc, &words, &mut source, &mut sink, &mut disk, &mut none);
    let answered = str::from_utf8(&sink.bytes)?
        .split('\n')
        .filter(|line| line.starts_with("ok"))
        .count();
    Ok((disk, answered))
}

#[test]
fn each_stop_leaves_the_lines_that_were_answered(rt: HostRuntime) -> Result<(), Fail> {
    let alloc = rt.alloc();
    for calls in 0..24 {
        let (disk, answered) = stopped(&rt, calls)?;
        for choice in 0..8 {
            let image = disk.image(alloc, choice)?;
            let mut again = MemoryDisk::plain(image, failing_after(99));
            let state = fh_hub::prepare(alloc, &mut again)?;
            assert!(rt; answered as u64 <= state.history().len());
            for index in 0..state.history().len() {
                let Some((_, entry)) = OLD_RECEIPT_ENTRIES.get(index as usize) else {
                    return Err(Fail::from("an entry too many"));
                };
                assert_eq!(rt; state.history().entry(index), Some(*entry));
            }
        }
    }
    Ok(())
}
