// Sessions, and the jobs that functions fetch, over a journal.
use crate::tests::{NEVER, expect, run};
use std::alloc::{AllocGlobal, Global};
use std::test::Fail;

// A queue, and so many puts into it, a line each.
fn puts(alloc: Global, count: u64) -> Result<String, Fail> {
    let mut lines = String::from_str(alloc, "queue orders\n")?;
    for _ in 0..count {
        lines.push_str("put orders 0 -1 x\n")?;
    }
    Ok(lines)
}

// The last line that a run writes.
fn last_line(rt: &HostRuntime, lines: &str, journal: &[u8]) -> Result<String, Fail> {
    let end = run(rt, lines.as_bytes(), journal, NEVER)?;
    let last = end.written.as_str().lines().last().ok_or("a line")?;
    Ok(String::from_str(rt.alloc(), last)?)
}

#[test]
fn a_function_fetches_batches_until_its_threshold_is_passed(rt: HostRuntime) -> Result<(), Fail> {
    let first = puts(rt.alloc(), 40)?;
    let begun = run(&rt, first.as_bytes(), b"", NEVER)?;
    let mut lines = String::from_str(rt.alloc(), "configure work queue orders 16 20 5 0 0\n")?;
    for expected in ["ok 16 1:41:1 2:42:1 ", "ok 16 17:57:1 ", "quiet busy 32"] {
        lines.push_str("fetch work\n")?;
        let last = last_line(&rt, lines.as_str(), &begun.journal)?;
        assert!(&rt; last.as_str().starts_with(expected));
    }
    Ok(())
}

#[test]
fn fetched_messages_are_held_and_a_session_lets_jobs_go(rt: HostRuntime) -> Result<(), Fail> {
    let cases = [
        (
            "configure work queue orders 2 0 5 0 0\nput orders 0 -1 a\nput orders 0 -1 b\n\
             put orders 0 -1 c\nfetch work\nwhere 1\nfetch work\ntake orders 32 30\nfetch work\n\
             session\nfetch work\nat 600000\nfetch work\nsession\n",
            "ok 1\nok 1 1\nok 2 2\nok 3 3\nok 2 1:4:1 2:5:1\nis held orders 600000\nquiet busy 2\n\
             ok 1 3:6:1:c\nquiet busy 2\nok 1\nquiet empty\nat 600000\nok 2 1:7:2 2:8:2\nok 2\n",
        ),
        (
            "configure f blob 16 8 5 0 0\nblob inbox a x\nnote f inbox a\nfetch f\nfetch f\n",
            "ok 1\nok 1\nok 1\nok 1 1:2:1\nquiet empty\n",
        ),
        (
            "configure t timer 0%20*/5%20*%20*%20*%20* 1 0 0\narm t\narm t\nsession\narm t\n",
            "ok 1\nok armed 300000\nquiet running\nok 1\nok armed 300000\n",
        ),
    ];
    expect(&rt, b"", &cases)
}

#[test]
fn refusals_of_fetches_and_another_trigger(rt: HostRuntime) -> Result<(), Fail> {
    let cases = [
        (
            "fetch f\nconfigure t timer 0%20*/5%20*%20*%20*%20* 0 1 0\nfetch t\nfetch 1t\n",
            "no 5 NoSuchFunction\nok 1\nno 5 NoSuchFunction\nno 5 NoSuchFunction\n",
        ),
        (
            "configure work queue orders 1 0 5 0 0\nput orders 0 -1 a\nput orders 0 -1 b\nfetch work\n\
             configure work queue orders 2 0 5 0 0\nfetch work\nqueue other\n\
             configure work queue other 2 0 5 0 0\nconfigure work queue orders 2 0 5 0 0\nfetch work\n",
            "ok 1\nok 1 1\nok 2 2\nok 1 1:3:1\nok 1\nquiet busy 1\nok\nok 1\nok 1\nok 1 2:4:1\n",
        ),
    ];
    expect(&rt, b"", &cases)
}
