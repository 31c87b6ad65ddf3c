// Functions and what they note, over a journal.
use crate::tests::{NEVER, expect, journal_of, run};
use std::test::Fail;

#[test]
fn a_blob_is_noted_once_for_each_version(rt: HostRuntime) -> Result<(), Fail> {
    let cases = [(
        "configure Archive blob 16 8 5 0 0\nblob inbox a.txt x\nnote Archive inbox a.txt\n\
         note Archive inbox a.txt\nblob inbox a.txt y\nnote Archive inbox a.txt\n\
         note Archive inbox b.txt\n",
        "ok 1\nok 1\nok 1\nquiet noted\nok 2\nok 2\nno 7 BlobNotFound\n",
    )];
    expect(&rt, b"", &cases)
}

#[test]
fn a_note_puts_a_message_about_the_blob_as_it_is(rt: HostRuntime) -> Result<(), Fail> {
    let cases = [(
        "configure f blob 16 8 5 0 0\nblob inbox a%20b x\nat 1000\nnote f inbox a%20b\nwhere 1\n\
         peek webjobs-blobtrigger-1 -\ntake webjobs-blobtrigger-1 1 30\nunnoted f inbox\n\
         blob inbox a%20b y\nblob inbox B z\nunnoted f inbox\nunnoted f outbox\n",
        "ok 1\nok 1\nat 1000\nok 1\nis waiting webjobs-blobtrigger-1\n\
         is 1 1:0:{\"BlobName\":\"a%20b\",\"BlobType\":\"BlockBlob\",\"ContainerName\":\"inbox\",\
         \"ETag\":\"1\",\"FunctionId\":\"f\"}\n\
         ok 1 1:2:1:{\"BlobName\":\"a%20b\",\"BlobType\":\"BlockBlob\",\"ContainerName\":\"inbox\",\
         \"ETag\":\"1\",\"FunctionId\":\"f\"}\nis 0\nok 2\nok 3\nis 2 B a%20b\nis 0\n",
    )];
    expect(&rt, b"", &cases)
}

#[test]
fn a_function_keeps_its_number_and_has_its_queue(rt: HostRuntime) -> Result<(), Fail> {
    let cases = [
        (
            "configure work queue orders 16 8 5 0 0\nqueue orders\n\
             configure work queue orders 16 8 5 0 0\nconfigure work queue orders 16 8 5 0 15\n\
             configure more blob 16 8 5 0 0\nqueue webjobs-blobtrigger-2\n\
             configure work blob 16 8 5 0 15\nqueue webjobs-blobtrigger-1\n\
             configure more blob 16 8 5 0 0\n",
            "ok 1\nquiet there\nquiet same\nok 1\nok 2\nquiet there\nok 1\nquiet there\nquiet same\n",
        ),
        (
            "queue orders\nput orders 0 -1 hi\nconfigure work queue orders 16 8 5 0 0\n\
             take orders 1 30\n",
            "ok\nok 1 1\nok 1\nok 1 1:2:1:hi\n",
        ),
    ];
    expect(&rt, b"", &cases)
}

#[test]
fn refusals_of_functions_in_the_order_of_the_rules(rt: HostRuntime) -> Result<(), Fail> {
    let cases = [
        ("configure 1f queue or 0 0 0 0 1\n", "no 2 BadName\n"),
        ("configure f queue or 0 0 0 0 1\n", "no 2 BadName\n"),
        (
            "configure f queue orders 0 1001 0 604801 1\n",
            "no 4 OutOfRange 0 1 32\n",
        ),
        (
            "configure f queue orders 33 1001 0 604801 1\n",
            "no 4 OutOfRange 33 1 32\n",
        ),
        (
            "configure f blob 32 1001 0 604801 1\n",
            "no 4 OutOfRange 1001 0 1000\n",
        ),
        (
            "configure f blob 32 1000 0 604801 1\n",
            "no 4 OutOfRange 0 1 1000\n",
        ),
        (
            "configure f blob 32 1000 1001 604801 1\n",
            "no 4 OutOfRange 1001 1 1000\n",
        ),
        (
            "configure f blob 32 1000 1000 604801 1\n",
            "no 4 OutOfRange 604801 0 604800\n",
        ),
        (
            "configure f blob 32 1000 1000 604800 14\n",
            "no 4 OutOfRange 14 15 60\n",
        ),
        (
            "configure f blob 32 1000 1000 604800 61\n",
            "no 4 OutOfRange 61 15 60\n",
        ),
        (
            "configure f blob 32 1000 1000 604800 60\nconfigure g queue orders 1 0 1 0 15\n\
             configure h blob 1 0 1 0 0\n",
            "ok 1\nok 2\nok 3\n",
        ),
    ];
    expect(&rt, b"", &cases)
}

#[test]
fn refusals_of_notes_in_the_order_of_the_rules(rt: HostRuntime) -> Result<(), Fail> {
    let cases = [
        ("note 1f inbox a\n", "no 2 BadName\n"),
        ("note f in a\n", "no 2 BadName\n"),
        ("note f inbox %\n", "no 2 BadName\n"),
        ("note f inbox a\n", "no 5 NoSuchFunction\n"),
        (
            "configure f queue orders 16 8 5 0 0\nblob inbox a x\nnote f inbox a\nunnoted f inbox\n",
            "ok 1\nok 1\nno 5 NoSuchFunction\nno 5 NoSuchFunction\n",
        ),
        (
            "configure f blob 16 8 5 0 0\nnote f inbox a\nblob inbox a x\nunblob inbox a\n\
             note f inbox a\n",
            "ok 1\nno 7 BlobNotFound\nok 1\nok\nno 7 BlobNotFound\n",
        ),
        ("unnoted 1f inbox\n", "no 2 BadName\n"),
        ("unnoted f in\n", "no 2 BadName\n"),
        ("unnoted f inbox\n", "no 5 NoSuchFunction\n"),
    ];
    expect(&rt, b"", &cases)
}

#[test]
fn a_later_run_goes_on_with_functions_and_notes(rt: HostRuntime) -> Result<(), Fail> {
    let first = "configure f blob 16 8 5 0 0\nblob inbox a x\nnote f inbox a\n";
    let end = run(&rt, first.as_bytes(), b"", NEVER)?;
    assert_eq!(rt; end.written.as_str(), "ok 1\nok 1\nok 1\n");
    let cases = [
        (
            "note f inbox a\nunnoted f inbox\nconfigure f blob 16 8 5 0 0\nwhere 1\n",
            "quiet noted\nis 0\nquiet same\nis waiting webjobs-blobtrigger-1\n",
        ),
        (
            "blob inbox a y\nnote f inbox a\nconfigure g blob 16 8 5 0 0\n",
            "ok 2\nok 2\nok 2\n",
        ),
    ];
    expect(&rt, &end.journal, &cases)
}

#[test]
fn a_function_and_a_note_leave_these_three_entries(rt: HostRuntime) -> Result<(), Fail> {
    let lines = "configure f blob 16 8 5 0 0\nblob inbox a x\nnote f inbox a\n";
    let entries: [(u8, &[u8]); 3] = [
        (
            0x37,
            b"\0\0\0\0\0\0\0\0\x0D\0\0\0\x01f\x02\0\0\0\0\0\0\0\x10\0\0\0\0\0\0\0\x08\0\0\0\0\0\0\0\x05\
              \0\0\0\0\0\0\0\0\0\0\0\0\0\0\0\0",
        ),
        (
            0x1C,
            b"\0\0\0\0\0\0\0\0\x07\0\0\0\x05inbox\0\0\0\x01a\0\0\0\x01x",
        ),
        (
            0x1C,
            b"\0\0\0\0\0\0\0\0\x09\0\0\0\x01f\0\0\0\x05inbox\0\0\0\x01a",
        ),
    ];
    let end = run(&rt, lines.as_bytes(), b"", NEVER)?;
    assert_eq!(rt; end.written.as_str(), "ok 1\nok 1\nok 1\n");
    let file = journal_of(&rt, &entries)?;
    assert_eq!(rt; end.journal.as_slice(), file.as_slice());
    Ok(())
}
