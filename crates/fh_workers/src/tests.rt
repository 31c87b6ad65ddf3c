// What no clause says: that calls succeed with ample memory, and real connections and processes.
use super::*;
use fh_app::Handler;
use fh_base::{Bytes, Failed, Failing, FaultPlan, Source, Text, Texts, read_byte, write_all};
use std::alloc::Global;
use std::collections::VecDeque;
use std::net::{Ipv4Addr, Net, TcpListener};
use std::rt::Clock;
use std::test::Fail;
use std::thread::{join, sleep};
use std::time::Duration;
use std::{fs, process};

fn plan(alloc: Global, calls: &[u64]) -> Result<FaultPlan, Fail> {
    Ok(FaultPlan::new(Failing::Listed {
        calls: calls.to_vec(alloc)?,
    }))
}

fn queue(alloc: Global, texts: &[&str]) -> Result<VecDeque<Bytes>, Fail> {
    let mut queue = VecDeque::new(alloc);
    for text in texts {
        queue.push_back(Bytes::from_slice(alloc, text.as_bytes())?)?;
    }
    Ok(queue)
}

#[test]
fn a_link_in_memory_gives_its_replies_in_order(rt: HostRuntime) -> Result<(), Fail> {
    let alloc = rt.alloc();
    let replies = queue(alloc, &["one", "two"])?;
    let mut link = MemoryLink::new(alloc, replies, plan(alloc, &[2])?);
    link.aim(7072);
    let asks = [
        ("a", Ok("one")),
        ("b", Err(LinkFault::Failed)),
        ("c", Ok("two")),
        ("d", Err(LinkFault::Failed)),
    ];
    for (request, expected) in asks {
        match (link.ask(request.as_bytes()), expected) {
            (Ok(reply), Ok(text)) => assert_eq!(rt; reply.as_slice(), text.as_bytes()),
            (Err(fault), Err(other)) => assert_eq!(rt; fault, other),
            _ => assert!(rt; false, "ask {request}"),
        }
    }
    assert_eq!(rt; link.asked.len(), 4);
    assert_eq!(rt; link.asked[1].as_slice(), b"b".as_slice());
    assert_eq!(rt;
        (link.port(), link.plan.calls, link.plan.faults),
        (7072, 4, 2)
    );
    Ok(())
}

#[test]
fn a_reply_is_cut_behind_one_byte_too_many(rt: HostRuntime) -> Result<(), Fail> {
    let alloc = rt.alloc();
    let mut replies = VecDeque::new(alloc);
    replies.push_back(Bytes::new(vec![in alloc; 0; 2097154]?))?;
    let mut link = MemoryLink::new(alloc, replies, plan(alloc, &[])?);
    let Ok(reply) = link.ask(b"") else {
        return Err(Fail::from("no reply"));
    };
    assert_eq!(rt; reply.len(), 2097153);
    Ok(())
}

fn handler(
    alloc: Global,
    path: &str,
    directory: &str,
    arguments: &[&str],
) -> Result<Handler, Fail> {
    let mut texts = Vec::new(alloc);
    for argument in arguments {
        texts.push(Text::from_str(alloc, argument)?)?;
    }
    Ok(Handler {
        path: Text::from_str(alloc, path)?,
        directory: Text::from_str(alloc, directory)?,
        arguments: Texts::from_vec(texts),
        forwarding: false,
    })
}

#[test]
fn a_spawner_in_memory_lists_what_it_started(rt: HostRuntime) -> Result<(), Fail> {
    let alloc = rt.alloc();
    let handler = handler(alloc, "worker", "app", &["-v"])?;
    let mut spawner = MemorySpawner::new(alloc, plan(alloc, &[2])?);
    assert_eq!(rt; spawner.start(&handler, 7072), Ok(()));
    assert_eq!(rt; spawner.start(&handler, 7073), Err(SpawnFault::Failed));
    assert_eq!(rt; spawner.start(&handler, 7074), Ok(()));
    spawner.stop_all();
    assert_eq!(rt; spawner.start(&handler, 7075), Ok(()));
    let ports = [7072, 7074, 7075];
    assert_eq!(rt; (spawner.starts.len(), spawner.stopped), (ports.len(), 2));
    for (start, port) in spawner.starts.iter().zip(ports) {
        assert_eq!(rt; start.port, port);
        assert_eq!(rt; start.handler.path.as_str(), "worker");
        assert_eq!(rt; start.handler.directory.as_str(), "app");
        let argument = start.handler.arguments.as_slice().first();
        assert!(rt; argument.is_some_and(|text| text.as_str() == "-v"));
    }
    Ok(())
}

#[test]
fn a_door_in_memory_accepts_in_order_at_the_port_it_faces(rt: HostRuntime) -> Result<(), Fail> {
    let alloc = rt.alloc();
    let coming = queue(alloc, &["a", "b", "c"])?;
    let mut door = MemoryDoor::new(alloc, coming, plan(alloc, &[2])?);
    let accepts = [
        (7071, Some(b'a')),
        (7071, None),
        (7080, Some(b'b')),
        (7080, Some(b'c')),
        (0, None),
    ];
    for (port, first) in accepts {
        door.aim(port);
        match (door.accept(), first) {
            (Ok(mut conn), Some(byte)) => {
                assert_eq!(rt; read_byte(&mut conn), Ok(Some(byte)));
                assert_eq!(rt; read_byte(&mut conn), Ok(None));
                assert_eq!(rt; write_all(&mut conn, b"ok"), Ok(()));
                assert_eq!(rt; conn.sink.bytes.as_slice(), b"ok".as_slice());
            }
            (Err(Failed), None) => {}
            _ => assert!(rt; false, "an accept at {port}"),
        }
    }
    let noted = [(7071, "a"), (7080, "b"), (7080, "c")];
    assert_eq!(rt; door.accepted.len(), noted.len());
    for (accepted, (port, text)) in door.accepted.iter().zip(noted) {
        assert_eq!(rt; accepted.0, port);
        assert_eq!(rt; accepted.1.as_slice(), text.as_bytes());
    }
    assert_eq!(rt; (door.plan.calls, door.plan.faults), (5, 2));
    Ok(())
}

fn free_port<R: Net>(rt: &R) -> Result<u16, Fail> {
    let listener = TcpListener::bind(rt, (Ipv4Addr::LOCALHOST, 0))?;
    Ok(std::net::OpenListener::local_addr(&listener)?.port())
}

// Accepts one connection, reads four bytes of it, and answers.
fn serve_once<R: Net + Drop>(rt: R, port: u16) -> Result<[u8; 4], Failed> {
    let mut door = LoopbackDoor::new(rt);
    door.aim(port);
    let mut conn = door.accept()?;
    let mut request = [0; 4];
    for byte in &mut request {
        *byte = read_byte(&mut conn)?.unwrap_or(0);
    }
    write_all(&mut conn, b"pong")?;
    Ok(request)
}

// Asks until the door has opened, which may take some tries.
fn ask_when_open<R: Net + Clock>(rt: &R, link: &mut LoopbackLink<R>) -> Result<Bytes, LinkFault> {
    for _ in 0..500 {
        match link.ask(b"ping") {
            Err(LinkFault::Failed) => sleep(rt, Duration::from_millis(10)),
            answer => return answer,
        }
    }
    Err(LinkFault::Failed)
}

#[test]
fn a_link_asks_a_door_at_the_loopback_address(rt: HostRuntime) -> Result<(), Fail> {
    let alloc = rt.alloc();
    let port = free_port(&rt)?;
    let mut link = LoopbackLink::new(rt, alloc);
    link.aim(port);
    assert!(rt;
        matches!(link.ask(b"ping"), Err(LinkFault::Failed)),
        "nobody listens"
    );
    let (served, reply) = join(
        &rt,
        || serve_once(rt, port),
        || ask_when_open(&rt, &mut link),
    );
    assert_eq!(rt; served, Ok(*b"ping"));
    let Ok(reply) = reply else {
        return Err(Fail::from("no reply"));
    };
    assert_eq!(rt; reply.as_slice(), b"pong".as_slice());
    Ok(())
}

// What the file holds once it ends with a line feed, for which there are some tries.
fn line_of(rt: &HostRuntime, path: &str) -> Result<String, Fail> {
    for _ in 0..500 {
        if let Ok(text) = fs::read_to_string(rt, path)
            && text.ends_with('\n')
        {
            return Ok(text);
        }
        sleep(rt, Duration::from_millis(10));
    }
    Err(Fail::from("the worker wrote nothing"))
}

#[test]
fn a_worker_gets_its_port_and_ends_with_its_spawner(rt: HostRuntime) -> Result<(), Fail> {
    let alloc = rt.alloc();
    let id = process::id(rt.process());
    let folder = format!(in alloc; "/tmp/fh_workers_{id}")?;
    fs::create_dir(&rt, folder.as_str())?;
    let script = "echo $FUNCTIONS_CUSTOMHANDLER_PORT $$ >> started; exec sleep 60";
    let handler = handler(alloc, "/bin/sh", folder.as_str(), &["-c", script])?;
    let started = format!(in alloc; "{}/started", folder.as_str())?;
    for is_stopped in [true, false] {
        let mut spawner = ProcessSpawner::new(rt, alloc, rt.stderr());
        assert_eq!(rt; spawner.start(&handler, 7072), Ok(()));
        let line = line_of(&rt, started.as_str())?;
        let (port, worker) = line.trim_end().split_once(' ').unwrap_or(("", ""));
        assert_eq!(rt; port, "7072");
        let running = format!(in alloc; "/proc/{worker}")?;
        assert!(rt; fs::exists(&rt, running.as_str())?, "the worker runs");
        if is_stopped {
            spawner.stop_all();
        } else {
            drop(spawner);
        }
        assert!(rt; !fs::exists(&rt, running.as_str())?, "the worker has ended");
        fs::remove_file(&rt, started.as_str())?;
    }
    fs::remove_dir_all(&rt, folder.as_str())?;
    let mut spawner = ProcessSpawner::new(rt, alloc, rt.stderr());
    let anywhere = self::handler(alloc, "/bin/true", "", &[])?;
    assert_eq!(rt; spawner.start(&anywhere, 7072), Ok(()));
    let missing = self::handler(alloc, "/tmp/none/handler", "/tmp", &[])?;
    assert_eq!(rt; spawner.start(&missing, 7072), Err(SpawnFault::Failed));
    Ok(())
}
