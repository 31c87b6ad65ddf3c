// What no clause says: that calls succeed with ample memory, and a real connection that is answered.
use super::*;
use fh_base::{Bytes, Failing, FaultPlan, MemorySink, MemorySource};
use fh_workers::{Link, LinkFault, LoopbackDoor, LoopbackLink, MemoryConn, MemoryDoor};
use std::alloc::Global;
use std::collections::VecDeque;
use std::net::{Ipv4Addr, Net, OpenListener, TcpListener};
use std::rt::Clock;
use std::test::Fail;
use std::thread::{join, sleep};
use std::time::Duration;

const REQUEST: &str = "POST /x HTTP/1.0\r\nContent-Length: 2\r\n\r\n{}";

const RESPONSE: &str =
    "HTTP/1.1 200 OK\r\nContent-Type: application/json\r\nContent-Length: 47\r\nConnection: close\r\n\r\n{\"Outputs\":{},\"Logs\":[\"ok\"],\"ReturnValue\":null}";

fn no_faults(alloc: Global) -> FaultPlan {
    FaultPlan::new(Failing::Listed {
        calls: Vec::new(alloc),
    })
}

fn words(alloc: Global, line: &str) -> Result<Vec<String>, Fail> {
    let mut words = Vec::new(alloc);
    for word in line.split(' ') {
        words.push(String::from_str(alloc, word)?)?;
    }
    Ok(words)
}

// A door with a connection for each letter: a request for an `r`, and what is none for any other.
fn door(alloc: Global, coming: &str) -> Result<MemoryDoor, Fail> {
    let mut queue = VecDeque::new(alloc);
    for kind in coming.chars() {
        let text = if kind == 'r' {
            REQUEST
        } else {
            "no head\r\n\r\n"
        };
        queue.push_back(Bytes::from_slice(alloc, text.as_bytes())?)?;
    }
    Ok(MemoryDoor::new(alloc, queue, no_faults(alloc)))
}

#[test]
fn a_request_is_answered_without_outputs(rt: HostRuntime) -> Result<(), Fail> {
    let alloc = rt.alloc();
    let mut conn = MemoryConn {
        source: MemorySource::new(REQUEST.as_bytes().to_vec(alloc)?, no_faults(alloc)),
        sink: MemorySink::new(alloc, no_faults(alloc)),
    };
    assert_eq!(rt; sample_turn(alloc, &mut conn), Ok(()));
    assert_eq!(rt; conn.sink.bytes.as_slice(), RESPONSE.as_bytes());
    Ok(())
}

#[test]
fn a_worker_ends_by_its_words_and_its_door(rt: HostRuntime) -> Result<(), Fail> {
    let alloc = rt.alloc();
    let cases = [
        ("sample-worker 7072 1", "r", 0, ""),
        ("sample-worker 7072 2", "nrr", 0, ""),
        ("sample-worker 7072 2", "r", 11, "door fault\n"),
        ("sample-worker 1024 0", "r", 0, ""),
        ("sample-worker 065519 000000000000000", "", 0, ""),
        ("sample-worker 1023 0", "", 2, "usage\n"),
        ("sample-worker 65520 0", "", 2, "usage\n"),
        ("sample-worker 7072 0000000000000000", "", 2, "usage\n"),
        ("sample-worker 7072 x", "", 2, "usage\n"),
        ("sample-worker 7072 ", "", 2, "usage\n"),
        ("sample-worker 7072", "", 2, "usage\n"),
        ("sample-worker 7072 1 1", "r", 2, "usage\n"),
        ("sample 7072 1", "r", 2, "usage\n"),
        ("", "", 2, "usage\n"),
    ];
    for (line, coming, code, last) in cases {
        let words = words(alloc, line)?;
        let mut door = door(alloc, coming)?;
        let mut sink = MemorySink::new(alloc, no_faults(alloc));
        let status = sample_worker(alloc, &words, &mut door, &mut sink);
        assert_eq!(rt; status.code, code, "{line}");
        assert_eq!(rt; sink.bytes.as_slice(), last.as_bytes(), "{line}");
    }
    Ok(())
}

fn free_port<R: Net>(rt: &R) -> Result<u16, Fail> {
    let listener = TcpListener::bind(rt, (Ipv4Addr::LOCALHOST, 0))?;
    Ok(OpenListener::local_addr(&listener)?.port())
}

// The status of a worker at the loopback address.
fn worked<R: Net + Drop>(rt: R, alloc: Global, words: &[String]) -> u8 {
    let mut door = LoopbackDoor::new(rt);
    let mut sink = MemorySink::new(alloc, no_faults(alloc));
    sample_worker(alloc, words, &mut door, &mut sink).code
}

// Asks until the door has opened, which may take some tries.
fn ask_when_open<R: Net + Clock>(rt: &R, link: &mut LoopbackLink<R>) -> Result<Bytes, LinkFault> {
    for _ in 0..500 {
        match link.ask(REQUEST.as_bytes()) {
            Err(LinkFault::Failed) => sleep(rt, Duration::from_millis(10)),
            answer => return answer,
        }
    }
    Err(LinkFault::Failed)
}

#[test]
fn a_link_is_answered_at_the_loopback_address(rt: HostRuntime) -> Result<(), Fail> {
    let alloc = rt.alloc();
    let port = free_port(&rt)?.clamp(1024, 65519);
    let line = format!(in alloc; "sample-worker {port} 1")?;
    let words = words(alloc, line.as_str())?;
    let mut link = LoopbackLink::new(rt, alloc);
    link.aim(port);
    let (code, reply) = join(
        &rt,
        || worked(rt, alloc, &words),
        || ask_when_open(&rt, &mut link),
    );
    assert_eq!(rt; code, 0);
    let Ok(reply) = reply else {
        return Err(Fail::from("no reply"));
    };
    assert_eq!(rt; reply.as_slice(), RESPONSE.as_bytes());
    Ok(())
}
