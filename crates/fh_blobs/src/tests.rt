ghost use Rattle.std.specs.Prelude.{◌≡◌, true};
ghost use Rattle.fh_blobs.specs.Edits.{HasNumbers};

use super::*;
use fh_base::{Moment, NoMemory, QueueName, Rule, Text};
use fh_event::PlanFault;
use std::alloc::AllocGlobal;
use std::process::Abort;
use std::test::Fail;

fn inbox() -> Result<QueueName, Fail> {
    Ok(QueueName::read("inbox").ok_or("a container's name")?)
}

fn has_numbers(blobs: &Blobs) -> bool
    ensures { (result ≡ true) → HasNumbers blobs.now.part }
{
    blobs.next_version < 1_000_000
}

// Plans, stages and settles an ask.
fn done(
    rt: &(impl Abort + AllocGlobal),
    blobs: &mut Blobs,
    ask: &BlobAsk<'_>,
) -> Result<BlobDone, PlanFault> {
    assert!(rt; has_numbers(blobs));
    let Some(m) = Moment::new(0) else {
        return Err(PlanFault::NoMemory);
    };
    let change = blobs.plan(rt.alloc(), ask, m)?;
    if change.is_quiet() {
        return Ok(change.into_done());
    }
    match blobs.stage(change) {
        Err(NoMemory) => Err(PlanFault::NoMemory),
        Ok(staged) => Ok(blobs.settle(staged)),
    }
}

// The version that an ask is answered with, or 0 where it changes nothing.
fn version(
    rt: &(impl Abort + AllocGlobal),
    blobs: &mut Blobs,
    ask: &BlobAsk<'_>,
) -> Result<u64, Fail> {
    match done(rt, blobs, ask) {
        Ok(BlobDone::Stored { version } | BlobDone::NowNoted { version }) => Ok(version),
        Ok(BlobDone::Noted) => Ok(0),
        Ok(_) => Err("another answer".into()),
        Err(_) => Err("a refusal".into()),
    }
}

fn put(
    rt: &(impl Abort + AllocGlobal),
    blobs: &mut Blobs,
    name: &str,
    text: &str,
) -> Result<u64, Fail> {
    let text = Text::from_str(rt.alloc(), text)?;
    let ask = BlobAsk::Put {
        container: inbox()?,
        name,
        text: &text,
    };
    version(rt, blobs, &ask)
}

fn note(rt: &(impl Abort + AllocGlobal), blobs: &mut Blobs, name: &str) -> Result<u64, Fail> {
    let ask = BlobAsk::Note {
        function: 1,
        container: inbox()?,
        name,
    };
    version(rt, blobs, &ask)
}

// Whether a note is refused, since the blob isn't there.
fn is_missing(
    rt: &(impl Abort + AllocGlobal),
    blobs: &mut Blobs,
    name: &str,
) -> Result<bool, Fail> {
    let ask = BlobAsk::Note {
        function: 1,
        container: inbox()?,
        name,
    };
    match done(rt, blobs, &ask) {
        Ok(_) => Ok(false),
        Err(PlanFault::Rule(Rule::BlobNotFound)) => Ok(true),
        Err(_) => Err("another fault".into()),
    }
}

// Whether a blob that is removed was there.
fn was_there(rt: &(impl Abort + AllocGlobal), blobs: &mut Blobs, name: &str) -> Result<bool, Fail> {
    let ask = BlobAsk::Remove {
        container: inbox()?,
        name,
    };
    match done(rt, blobs, &ask) {
        Ok(_) => Ok(true),
        Err(PlanFault::Rule(Rule::BlobNotFound)) => Ok(false),
        Err(_) => Err("another fault".into()),
    }
}

// The names of the blobs that the function hasn't noted, one behind the other.
fn unnoted(rt: &(impl Abort + AllocGlobal), blobs: &Blobs) -> Result<String, Fail> {
    let mut listed = String::new(rt.alloc());
    for name in &blobs.unnoted(rt.alloc(), 1, &inbox()?)? {
        listed.push_str(name.as_str())?;
    }
    Ok(listed)
}

#[test]
fn a_version_is_noted_once(rt: HostRuntime) -> Result<(), Fail> {
    let mut blobs = Blobs::new(rt.alloc());
    assert_eq!(rt; put(&rt, &mut blobs, "a.txt", "x")?, 1);
    assert_eq!(rt; note(&rt, &mut blobs, "a.txt")?, 1);
    assert_eq!(rt; note(&rt, &mut blobs, "a.txt")?, 0);
    assert_eq!(rt; put(&rt, &mut blobs, "a.txt", "y")?, 2);
    assert_eq!(rt; note(&rt, &mut blobs, "a.txt")?, 2);
    assert!(rt; is_missing(&rt, &mut blobs, "b.txt")?);
    Ok(())
}

#[test]
fn unnoted_blobs_are_listed_in_order(rt: HostRuntime) -> Result<(), Fail> {
    let mut blobs = Blobs::new(rt.alloc());
    for name in ["b", "c", "a"] {
        put(&rt, &mut blobs, name, "x")?;
    }
    note(&rt, &mut blobs, "b")?;
    assert_eq!(rt; unnoted(&rt, &blobs)?.as_str(), "ac");
    Ok(())
}

#[test]
fn one_blob_is_found_beside_many_noted(rt: HostRuntime) -> Result<(), Fail> {
    let mut blobs = Blobs::new(rt.alloc());
    for i in 0..2_000u64 {
        let name = format!(in rt.alloc(); "{}", i)?;
        put(&rt, &mut blobs, name.as_str(), "x")?;
        note(&rt, &mut blobs, name.as_str())?;
    }
    put(&rt, &mut blobs, "777", "y")?;
    assert_eq!(rt; unnoted(&rt, &blobs)?.as_str(), "777");
    Ok(())
}

#[test]
fn a_removed_blob_is_gone(rt: HostRuntime) -> Result<(), Fail> {
    let mut blobs = Blobs::new(rt.alloc());
    put(&rt, &mut blobs, "a", "x")?;
    assert!(rt; was_there(&rt, &mut blobs, "a")?);
    assert!(rt; blobs.get(&inbox()?, "a").is_none());
    assert!(rt; !was_there(&rt, &mut blobs, "a")?);
    Ok(())
}

#[test]
fn a_list_is_put_at_once(rt: HostRuntime) -> Result<(), Fail> {
    let mut blobs = Blobs::new(rt.alloc());
    let new = NewBlob {
        container: inbox()?,
        name: Text::from_str(rt.alloc(), "a")?,
        text: Text::from_str(rt.alloc(), "x")?,
    };
    let list = [new];
    let stored = done(&rt, &mut blobs, &BlobAsk::PutAll { blobs: &list });
    assert!(rt; matches!(stored, Ok(BlobDone::AllStored { first: 1, count: 1 })));
    let nothing = done(&rt, &mut blobs, &BlobAsk::Nothing);
    assert!(rt; matches!(nothing, Ok(BlobDone::Nothing)));
    Ok(())
}

// Whether a text of so many bytes is taken in.
fn is_taken(rt: &(impl Abort + AllocGlobal), blobs: &mut Blobs, size: usize) -> Result<bool, Fail> {
    let text = Text::new("x".repeat(rt.alloc(), size)?);
    let ask = BlobAsk::Put {
        container: inbox()?,
        name: "a",
        text: &text,
    };
    Ok(done(rt, blobs, &ask).is_ok())
}

#[test]
fn a_text_has_1048576_bytes_at_most(rt: HostRuntime) -> Result<(), Fail> {
    let mut blobs = Blobs::new(rt.alloc());
    assert!(rt; is_taken(&rt, &mut blobs, 1_048_576)?);
    assert!(rt; !is_taken(&rt, &mut blobs, 1_048_577)?);
    Ok(())
}

#[test]
fn a_hundred_thousand_blobs_are_put_and_read(rt: HostRuntime) -> Result<(), Fail> {
    let mut blobs = Blobs::new(rt.alloc());
    // The names come in no order.
    for i in 0..100_000u64 {
        let name = format!(in rt.alloc(); "{}", i * 7919 % 100_000)?;
        put(&rt, &mut blobs, name.as_str(), "x")?;
    }
    for i in 0..100_000u64 {
        let name = format!(in rt.alloc(); "{}", i)?;
        assert!(rt; blobs.get(&inbox()?, name.as_str()).is_some());
    }
    Ok(())
}
