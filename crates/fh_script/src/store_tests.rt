// Blobs and leases over a journal.
use crate::tests::{NEVER, expect, journal_of, run};
use std::test::Fail;

#[test]
fn a_lease_goes_to_another_at_its_end(rt: HostRuntime) -> Result<(), Fail> {
    let cases = [(
        "acquire jobs 7 15\nat 14999\nacquire jobs 8 15\nat 15000\nacquire jobs 8 15\nrenew jobs 7\n",
        "ok 15000\nat 14999\nno 11 LeaseHeld 7 15000\nat 15000\nok 30000\nno 12 LeaseMismatch 8\n",
    )];
    expect(&rt, b"", &cases)
}

#[test]
fn a_holder_acquires_again_and_the_last_one_renews_and_releases(
    rt: HostRuntime,
) -> Result<(), Fail> {
    let cases = [
        (
            "acquire jobs 7 60\nat 1000\nacquire jobs 7 15\nacquire others 8 60\n",
            "ok 60000\nat 1000\nok 16000\nok 61000\n",
        ),
        (
            "acquire jobs 7 15\nat 20000\nrenew jobs 7\nat 40000\nrelease jobs 7\nrenew jobs 7\n\
             release jobs 7\n",
            "ok 15000\nat 20000\nok 35000\nat 40000\nok\nno 12 LeaseMismatch 0\n\
             no 12 LeaseMismatch 0\n",
        ),
        (
            "acquire jobs 7 15\nrelease jobs 7\nacquire jobs 8 15\n",
            "ok 15000\nok\nok 15000\n",
        ),
    ];
    expect(&rt, b"", &cases)
}

#[test]
fn refusals_of_leases_in_the_order_of_the_rules(rt: HostRuntime) -> Result<(), Fail> {
    let cases = [
        ("acquire 1jobs 0 14\n", "no 2 BadName\n"),
        ("acquire jo.bs 0 14\n", "no 2 BadName\n"),
        ("acquire % 7 15\n", "no 2 BadName\n"),
        ("acquire Jobs_1-a 7 15\n", "ok 15000\n"),
        (
            "acquire jobs 0 14\n",
            "no 4 OutOfRange 0 1 999999999999999\n",
        ),
        ("acquire jobs 1 14\n", "no 4 OutOfRange 14 15 60\n"),
        (
            "acquire jobs 999999999999999 61\n",
            "no 4 OutOfRange 61 15 60\n",
        ),
        ("acquire jobs 999999999999999 60\n", "ok 60000\n"),
        (
            "acquire jobs 7 15\nacquire jobs 8 14\nacquire jobs 8 15\n",
            "ok 15000\nno 4 OutOfRange 14 15 60\nno 11 LeaseHeld 7 15000\n",
        ),
        ("renew 1jobs 7\n", "no 2 BadName\n"),
        ("renew jobs 7\n", "no 12 LeaseMismatch 0\n"),
        (
            "acquire jobs 7 15\nrenew jobs 8\n",
            "ok 15000\nno 12 LeaseMismatch 7\n",
        ),
        ("release 1jobs 7\n", "no 2 BadName\n"),
        ("release jobs 7\n", "no 12 LeaseMismatch 0\n"),
        (
            "acquire jobs 7 15\nrelease jobs 8\n",
            "ok 15000\nno 12 LeaseMismatch 7\n",
        ),
    ];
    expect(&rt, b"", &cases)
}

#[test]
fn a_blob_has_a_new_version_at_each_put_until_it_is_removed(rt: HostRuntime) -> Result<(), Fail> {
    let cases = [
        (
            "blob inbox a.txt x\nget inbox a.txt\nblob inbox a.txt y\nget inbox a.txt\n\
             unblob inbox a.txt\nget inbox a.txt\nblob inbox a.txt z\n",
            "ok 1\nis 1 x\nok 2\nis 2 y\nok\nno 7 BlobNotFound\nok 3\n",
        ),
        (
            "blob inbox a x\nblob outbox a y\nget inbox a\nget outbox a\n",
            "ok 1\nok 2\nis 1 x\nis 2 y\n",
        ),
        (
            "blob inbox a%20b x%20y\nget inbox a%20b\nblob inbox c/d %\nget inbox c/d\n",
            "ok 1\nis 1 x%20y\nok 2\nis 2 %\n",
        ),
    ];
    expect(&rt, b"", &cases)
}

#[test]
fn refusals_of_blobs_in_the_order_of_the_rules(rt: HostRuntime) -> Result<(), Fail> {
    let cases = [
        ("blob in a x\n", "no 2 BadName\n"),
        ("blob Inbox a x\n", "no 2 BadName\n"),
        ("blob inbox % x\n", "no 2 BadName\n"),
        ("blob inbox a%22 x\n", "no 2 BadName\n"),
        ("blob inbox a\\b x\n", "no 2 BadName\n"),
        ("blob inbox a%7F x\n", "no 2 BadName\n"),
        ("unblob in a\n", "no 2 BadName\n"),
        ("unblob inbox %\n", "no 2 BadName\n"),
        ("unblob inbox a\n", "no 7 BlobNotFound\n"),
        ("get in a\n", "no 2 BadName\n"),
        ("get inbox %\n", "no 2 BadName\n"),
        (
            "blob inbox a x\nget inbox b\nget outbox a\n",
            "ok 1\nno 7 BlobNotFound\nno 7 BlobNotFound\n",
        ),
    ];
    expect(&rt, b"", &cases)
}

#[test]
fn names_have_these_lengths_at_most(rt: HostRuntime) -> Result<(), Fail> {
    let cases = [
        ("blob inbox ", 1024, " x\n", "ok 1\n"),
        ("blob inbox ", 1025, " x\n", "no 2 BadName\n"),
        ("acquire ", 127, " 7 15\n", "ok 15000\n"),
        ("acquire ", 128, " 7 15\n", "no 2 BadName\n"),
    ];
    for (front, size, back, answers) in cases {
        let mut lines = front.as_bytes().to_vec(rt.alloc())?;
        lines.extend_from_slice(&vec![in rt.alloc(); b'x'; size]?)?;
        lines.extend_from_slice(back.as_bytes())?;
        let end = run(&rt, &lines, b"", NEVER)?;
        assert_eq!(rt; end.written.as_str(), answers);
    }
    Ok(())
}

#[test]
fn a_blob_may_be_longer_than_a_message(rt: HostRuntime) -> Result<(), Fail> {
    let mut lines = b"blob inbox a ".to_vec(rt.alloc())?;
    lines.extend_from_slice(&vec![in rt.alloc(); b'x'; 65_537]?)?;
    let end = run(&rt, &lines, b"", NEVER)?;
    assert_eq!(rt; end.written.as_str(), "ok 1\n");
    Ok(())
}

#[test]
fn a_later_run_goes_on_with_blobs_and_leases(rt: HostRuntime) -> Result<(), Fail> {
    let first = "at 1000\nblob inbox a.txt x\nacquire jobs 7 15\n";
    let end = run(&rt, first.as_bytes(), b"", NEVER)?;
    assert_eq!(rt; end.written.as_str(), "at 1000\nok 1\nok 16000\n");
    let cases = [
        (
            "get inbox a.txt\nacquire jobs 8 15\nblob inbox a.txt y\nrenew jobs 7\n",
            "is 1 x\nno 11 LeaseHeld 7 16000\nok 2\nok 16000\n",
        ),
        (
            "unblob inbox a.txt\nget inbox a.txt\nrelease jobs 7\nacquire jobs 8 15\n",
            "ok\nno 7 BlobNotFound\nok\nok 16000\n",
        ),
    ];
    expect(&rt, &end.journal, &cases)?;
    let reading = run(&rt, b"get inbox a.txt\n", &end.journal, NEVER)?;
    assert_eq!(rt; reading.journal.as_slice(), end.journal.as_slice());
    Ok(())
}

#[test]
fn blobs_and_leases_leave_these_five_entries(rt: HostRuntime) -> Result<(), Fail> {
    let lines =
        "blob inbox a hi\nunblob inbox a\nacquire jobs 7 15\nrenew jobs 7\nrelease jobs 7\n";
    let entries: [(u8, &[u8]); 5] = [
        (
            0x1D,
            b"\0\0\0\0\0\0\0\0\x07\0\0\0\x05inbox\0\0\0\x01a\0\0\0\x02hi",
        ),
        (0x17, b"\0\0\0\0\0\0\0\0\x08\0\0\0\x05inbox\0\0\0\x01a"),
        (
            0x21,
            b"\0\0\0\0\0\0\0\0\x0A\0\0\0\x04jobs\0\0\0\0\0\0\0\x07\0\0\0\0\0\0\0\x0F",
        ),
        (
            0x19,
            b"\0\0\0\0\0\0\0\0\x0B\0\0\0\x04jobs\0\0\0\0\0\0\0\x07",
        ),
        (
            0x19,
            b"\0\0\0\0\0\0\0\0\x0C\0\0\0\x04jobs\0\0\0\0\0\0\0\x07",
        ),
    ];
    let end = run(&rt, lines.as_bytes(), b"", NEVER)?;
    assert_eq!(rt; end.written.as_str(), "ok 1\nok\nok 15000\nok 15000\nok\n");
    let file = journal_of(&rt, &entries)?;
    assert_eq!(rt; end.journal.as_slice(), file.as_slice());
    Ok(())
}

#[test]
fn entries_that_change_nothing_are_refused(rt: HostRuntime) -> Result<(), Fail> {
    let cases: [(u8, &[u8]); 3] = [
        (
            0x1C,
            b"\0\0\0\0\0\0\0\0\x09\0\0\0\x01f\0\0\0\x05inbox\0\0\0\x01a",
        ),
        (0x17, b"\0\0\0\0\0\0\0\0\x16\0\0\0\x05inbox\0\0\0\x01a"),
        (0x17, b"\0\0\0\0\0\0\0\0\x18\0\0\0\x01f\0\0\0\x05inbox"),
    ];
    for entry in cases {
        let file = journal_of(&rt, &[entry])?;
        let end = run(&rt, b"", &file, NEVER)?;
        assert_eq!(rt;
            (end.code, end.written.as_str()),
            (4, "damaged 6 Refused\n")
        );
        assert_eq!(rt; end.journal.as_slice(), file.as_slice());
    }
    Ok(())
}
