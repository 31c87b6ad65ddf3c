use super::*;
use fh_base::{Bytes, QueueName, Rule, Text};
use fh_event::{Command, Item, Items, Place, Reply, StepFault};
use fh_wire::{HttpIn, WireFault};
use http::Method;
use std::alloc::Global;
use std::test::Fail;

// A request as a test writes it.
fn request(alloc: Global, method: &[u8], target: &str, body: &[u8]) -> Result<HttpIn, Fail> {
    Ok(HttpIn {
        method: Method::from_bytes(alloc, method)?,
        target: Text::from_str(alloc, target)?,
        body: Bytes::from_slice(alloc, body)?,
    })
}

// What a request asks for, as a test writes it: the variant's name and its fields in order, or the fault.
fn shown(
    alloc: Global,
    routes: &Routes,
    method: &[u8],
    target: &str,
    body: &[u8],
) -> Result<String, Fail> {
    let request = request(alloc, method, target, body)?;
    match command_of(alloc, routes, &request) {
        Ok(FrontAsk::Ask(command)) => command_shown(alloc, &command),
        Ok(FrontAsk::Stop) => Ok(String::from_str(alloc, "Stop")?),
        Err(fault) => Ok(format!(in alloc; "{fault:?}")?),
    }
}

fn command_shown(alloc: Global, command: &Command) -> Result<String, Fail> {
    let shown = match command {
        Command::MakeQueue { queue } => format!(in alloc; "MakeQueue [{}]", queue.as_str())?,
        Command::Put {
            queue,
            delay,
            ttl,
            text,
        } => format!(in alloc;
            "Put [{}] {delay} {ttl:?} [{}]",
            queue.as_str(),
            text.as_str()
        )?,
        Command::Take { queue, count, hold } => {
            format!(in alloc; "Take [{}] {count} {hold}", queue.as_str())?
        }
        Command::Update {
            queue,
            number,
            receipt,
            hold,
            text,
        } => {
            let text = text.as_ref().map(|text| text.as_str());
            format!(in alloc;
                "Update [{}] {number} {receipt} {hold} {text:?}",
                queue.as_str()
            )?
        }
        Command::Delete {
            queue,
            number,
            receipt,
        } => format!(in alloc; "Delete [{}] {number} {receipt}", queue.as_str())?,
        Command::Clear { queue } => format!(in alloc; "Clear [{}]", queue.as_str())?,
        Command::Peek { queue, count } => {
            format!(in alloc; "Peek [{}] {count}", queue.as_str())?
        }
        Command::Locate { number } => format!(in alloc; "Locate {number}")?,
        Command::PutBlob {
            container,
            blob,
            text,
        } => format!(in alloc;
            "PutBlob [{}] [{}] [{}]",
            container.as_str(),
            blob.as_str(),
            text.as_str()
        )?,
        Command::DeleteBlob { container, blob } => {
            format!(in alloc; "DeleteBlob [{}] [{}]", container.as_str(), blob.as_str())?
        }
        Command::GetBlob { container, blob } => {
            format!(in alloc; "GetBlob [{}] [{}]", container.as_str(), blob.as_str())?
        }
        Command::Acquire {
            lease,
            holder,
            seconds,
        } => format!(in alloc; "Acquire [{}] {holder} {seconds}", lease.as_str())?,
        Command::RenewLease { lease, holder } => {
            format!(in alloc; "RenewLease [{}] {holder}", lease.as_str())?
        }
        Command::ReleaseLease { lease, holder } => {
            format!(in alloc; "ReleaseLease [{}] {holder}", lease.as_str())?
        }
        _ => String::from_str(alloc, "another command")?,
    };
    Ok(shown)
}

#[test]
fn each_row_of_queues_has_its_command(rt: HostRuntime) -> Result<(), Fail> {
    let table: [(&[u8], &str, &[u8], &str); 18] = [
        (b"PUT", "/queues/orders", b"", "MakeQueue [orders]"),
        (b"PUT", "/queues/a%2Fb%20c?x=1", b"hi", "MakeQueue [a/b c]"),
        (b"PUT", "/queues/100%", b"", "MakeQueue [100%]"),
        (
            b"POST",
            "/queues/orders/messages",
            b"hi",
            "Put [orders] 0 Some(604800) [hi]",
        ),
        (
            b"POST",
            "/queues/orders/messages?ttl=-1",
            b"",
            "Put [orders] 0 None []",
        ),
        (
            b"POST",
            "/queues/orders/messages?delay=5&ttl=60",
            b"a b",
            "Put [orders] 5 Some(60) [a b]",
        ),
        (
            b"POST",
            "/queues/orders/messages?ttl=7&ttl=-1&delay=1&delay=x",
            b"",
            "Put [orders] 1 Some(7) []",
        ),
        (
            b"POST",
            "/queues/o/messages?%64elay=%35&a=%ff&&=&Delay=x",
            b"",
            "Put [o] 5 Some(604800) []",
        ),
        (b"GET", "/queues/o/messages", b"", "Take [o] 1 30"),
        (
            b"GET",
            "/queues/o/messages?count=32&hold=0009",
            b"",
            "Take [o] 32 9",
        ),
        (
            b"GET",
            "/queues/o/messages?count=999999999999999",
            b"",
            "Take [o] 999999999999999 30",
        ),
        (b"DELETE", "/queues/o/messages", b"", "Clear [o]"),
        (b"GET", "/queues/o/peek", b"", "Peek [o] 1"),
        (b"GET", "/queues/peek/peek?count=7", b"", "Peek [peek] 7"),
        (
            b"PUT",
            "/queues/o/messages/7?receipt=8",
            b"",
            "Update [o] 7 8 30 None",
        ),
        (
            b"PUT",
            "/queues/o/messages/%37?hold=0&receipt=8",
            b"new",
            "Update [o] 7 8 0 Some(\"new\")",
        ),
        (
            b"DELETE",
            "/queues/o/messages/7?receipt=8",
            b"",
            "Delete [o] 7 8",
        ),
        (b"GET", "/queues/o/messages?", b"", "Take [o] 1 30"),
    ];
    let routes = Routes::new(rt.alloc())?;
    for (method, target, body, wanted) in table {
        let given = shown(rt.alloc(), &routes, method, target, body)?;
        assert_eq!(rt; given.as_str(), wanted);
    }
    Ok(())
}

#[test]
fn each_other_row_has_its_command(rt: HostRuntime) -> Result<(), Fail> {
    let table: [(&[u8], &str, &[u8], &str); 12] = [
        (b"PUT", "/blobs/c/a.txt", b"x", "PutBlob [c] [a.txt] [x]"),
        (b"PUT", "/blobs/c/a/b%2Fc/", b"", "PutBlob [c] [a/b/c/] []"),
        (b"GET", "/blobs/c/messages", b"", "GetBlob [c] [messages]"),
        (b"DELETE", "/blobs/c/a?b", b"", "DeleteBlob [c] [a]"),
        (
            b"POST",
            "/leases/jobs/acquire?holder=1&seconds=15",
            b"",
            "Acquire [jobs] 1 15",
        ),
        (
            b"POST",
            "/leases/singleton%2Fwork/renew?holder=2",
            b"",
            "RenewLease [singleton/work] 2",
        ),
        (
            b"POST",
            "/leases/jobs/release?holder=2",
            b"",
            "ReleaseLease [jobs] 2",
        ),
        (b"GET", "/where/12", b"", "Locate 12"),
        (b"GET", "/where/000000000000012", b"", "Locate 12"),
        (b"POST", "/admin/stop", b"", "Stop"),
        (b"POST", "/admin/stop?now", b"please", "Stop"),
        (b"GET", "/where/12?count=x", b"", "Locate 12"),
    ];
    let routes = Routes::new(rt.alloc())?;
    for (method, target, body, wanted) in table {
        let given = shown(rt.alloc(), &routes, method, target, body)?;
        assert_eq!(rt; given.as_str(), wanted);
    }
    Ok(())
}

#[test]
fn faults_of_requests_come_in_their_order(rt: HostRuntime) -> Result<(), Fail> {
    let table: [(&[u8], &str, &[u8], &str); 40] = [
        // no path of the table
        (b"GET", "/", b"", "NoRoute"),
        (b"GET", "", b"", "NoRoute"),
        (b"PUT", "/queues", b"", "NoRoute"),
        (b"PUT", "/queues/", b"", "NoRoute"),
        (b"PUT", "/queues/o/", b"", "NoRoute"),
        (b"PUT", "/Queues/o", b"", "NoRoute"),
        (b"PUT", "queues/o", b"", "NoRoute"),
        (b"PUT", "http://127.0.0.1/queues/o", b"", "NoRoute"),
        (b"GET", "/queues//messages", b"", "NoRoute"),
        (b"GET", "/queues/o/messages/7/8", b"", "NoRoute"),
        (b"GET", "/blobs/c", b"", "NoRoute"),
        (b"GET", "/blobs/c/", b"", "NoRoute"),
        (b"OPTIONS", "*", b"", "NoRoute"),
        // a route comes before its method, and a method before numbers and bytes
        (b"TRACE", "/queues/o/stop", b"\xff", "NoRoute"),
        (b"POST", "/queues/o", b"", "BadMethod"),
        (b"put", "/queues/o", b"", "BadMethod"),
        (b"HEAD", "/queues/o/messages", b"", "BadMethod"),
        (b"GET", "/queues/o/messages/x", b"\xff", "BadMethod"),
        (b"POST", "/where/x", b"\xff", "BadMethod"),
        (b"GET", "/admin/stop", b"", "BadMethod"),
        (b"PATCH", "/blobs/c/a", b"", "BadMethod"),
        // a number that isn't one, before bytes that aren't UTF-8
        (b"POST", "/queues/%ff/messages?delay=x", b"\xff", "BadQuery"),
        (b"POST", "/queues/o/messages?ttl=-2", b"", "BadQuery"),
        (b"POST", "/queues/o/messages?ttl=", b"", "BadQuery"),
        (b"GET", "/queues/o/messages?hold=-1", b"", "BadQuery"),
        (b"GET", "/queues/o/messages?hold=+9", b"", "BadQuery"),
        (
            b"GET",
            "/queues/o/peek?count=1000000000000000",
            b"",
            "BadQuery",
        ),
        (b"GET", "/queues/o/peek?count", b"", "BadQuery"),
        (b"PUT", "/queues/o/messages/7", b"", "BadQuery"),
        (b"DELETE", "/queues/o/messages/7?Receipt=8", b"", "BadQuery"),
        (b"GET", "/where/0000000000000012", b"", "BadQuery"),
        (b"GET", "/where/%ff", b"", "BadQuery"),
        (
            b"DELETE",
            "/queues/o/messages/000000000000007?receipt=8#",
            b"",
            "BadQuery",
        ),
        (
            b"GET",
            "/queues/o/messages?count=2?&hold=3",
            b"",
            "BadQuery",
        ),
        (b"POST", "/leases/%ff/acquire?holder=1", b"", "BadQuery"),
        // bytes that aren't UTF-8, also where no body is read
        (b"PUT", "/queues/%ff", b"", "BadBody"),
        (b"GET", "/blobs/c/%c3", b"", "BadBody"),
        (b"POST", "/queues/o/messages", b"a\xff", "BadBody"),
        (b"GET", "/where/12", b"\xff", "BadBody"),
        (b"POST", "/admin/stop", b"\xff", "BadBody"),
    ];
    let routes = Routes::new(rt.alloc())?;
    for (method, target, body, wanted) in table {
        let given = shown(rt.alloc(), &routes, method, target, body)?;
        assert_eq!(rt; given.as_str(), wanted);
    }
    Ok(())
}

// The status and the body of a response, as a test writes them.
fn answered(alloc: Global, answer: Result<Reply, StepFault>) -> Result<String, Fail> {
    let (status, body) = response_of(alloc, &answer)?;
    let text = str::from_utf8(body.as_slice())?;
    Ok(format!(in alloc; "{status} {text}")?)
}

fn replied(alloc: Global, reply: Reply) -> Result<String, Fail> {
    answered(alloc, Ok(reply))
}

#[test]
fn replies_without_values(rt: HostRuntime) -> Result<(), Fail> {
    let alloc = rt.alloc();
    assert_eq!(rt;
        replied(alloc, Reply::Made)?.as_str(),
        "201 {\"reply\":\"ok\"}"
    );
    assert_eq!(rt; replied(alloc, Reply::There)?.as_str(), "204 ");
    assert_eq!(rt;
        replied(alloc, Reply::Empty)?.as_str(),
        "200 {\"reply\":\"quiet empty\"}"
    );
    assert_eq!(rt;
        replied(alloc, Reply::Deleted)?.as_str(),
        "200 {\"reply\":\"ok\"}"
    );
    assert_eq!(rt;
        replied(alloc, Reply::BlobDeleted)?.as_str(),
        "200 {\"reply\":\"ok\"}"
    );
    assert_eq!(rt;
        replied(alloc, Reply::Released)?.as_str(),
        "200 {\"reply\":\"ok\"}"
    );
    Ok(())
}

#[test]
fn replies_with_numbers(rt: HostRuntime) -> Result<(), Fail> {
    let alloc = rt.alloc();
    let stored = Reply::Stored {
        number: 1,
        receipt: 2,
    };
    assert_eq!(rt;
        replied(alloc, stored)?.as_str(),
        "201 {\"reply\":\"ok 1 2\"}"
    );
    let updated = Reply::Updated { receipt: 3 };
    assert_eq!(rt;
        replied(alloc, updated)?.as_str(),
        "200 {\"reply\":\"ok 3\"}"
    );
    let cleared = Reply::Cleared { count: 4 };
    assert_eq!(rt;
        replied(alloc, cleared)?.as_str(),
        "200 {\"reply\":\"ok 4\"}"
    );
    let put = Reply::BlobStored { version: 5 };
    assert_eq!(rt; replied(alloc, put)?.as_str(), "201 {\"reply\":\"ok 5\"}");
    let acquired = Reply::Acquired { until: 60000 };
    assert_eq!(rt;
        replied(alloc, acquired)?.as_str(),
        "200 {\"reply\":\"ok 60000\"}"
    );
    let renewed = Reply::Renewed { until: 70000 };
    assert_eq!(rt;
        replied(alloc, renewed)?.as_str(),
        "200 {\"reply\":\"ok 70000\"}"
    );
    Ok(())
}

fn one_item(alloc: Global) -> Result<Items, Fail> {
    let mut items = Vec::new(alloc);
    items.push(Item {
        number: 1,
        receipt: 9,
        count: 2,
        text: Text::from_str(alloc, "a \"b\"\\\n")?,
    })?;
    Ok(Items::new(items))
}

#[test]
fn texts_of_replies_are_escaped(rt: HostRuntime) -> Result<(), Fail> {
    let alloc = rt.alloc();
    let taken = Reply::Taken {
        items: one_item(alloc)?,
    };
    assert_eq!(rt;
        replied(alloc, taken)?.as_str(),
        "200 {\"reply\":\"ok 1 1:9:2:a%20\\\"b\\\"\\\\%0A\"}"
    );
    let peeked = Reply::Peeked {
        items: one_item(alloc)?,
    };
    assert_eq!(rt;
        replied(alloc, peeked)?.as_str(),
        "200 {\"reply\":\"is 1 1:2:a%20\\\"b\\\"\\\\%0A\"}"
    );
    let got = Reply::Got {
        version: 3,
        text: Text::from_str(alloc, "\u{e9}")?,
    };
    assert_eq!(rt;
        replied(alloc, got)?.as_str(),
        "200 {\"reply\":\"is 3 %C3%A9\"}"
    );
    Ok(())
}

#[test]
fn a_place_is_told(rt: HostRuntime) -> Result<(), Fail> {
    let alloc = rt.alloc();
    let queue = QueueName::read("orders").ok_or("a queue's name")?;
    let located = Reply::Located {
        place: Place::Waiting { queue },
    };
    assert_eq!(rt;
        replied(alloc, located)?.as_str(),
        "200 {\"reply\":\"is waiting orders\"}"
    );
    let unknown = Reply::Located {
        place: Place::Unknown,
    };
    assert_eq!(rt;
        replied(alloc, unknown)?.as_str(),
        "200 {\"reply\":\"is unknown\"}"
    );
    Ok(())
}

#[test]
fn a_refusal_names_its_rule_alone(rt: HostRuntime) -> Result<(), Fail> {
    let table: [(Rule, &str); 17] = [
        (Rule::MomentTooLate, "400 {\"error\":\"MomentTooLate\"}"),
        (Rule::BadName, "400 {\"error\":\"BadName\"}"),
        (
            Rule::TooLarge {
                size: 65537,
                limit: 65536,
            },
            "413 {\"error\":\"TooLarge\"}",
        ),
        (
            Rule::OutOfRange {
                given: 33,
                low: 1,
                high: 32,
            },
            "400 {\"error\":\"OutOfRange\"}",
        ),
        (Rule::NoSuchFunction, "404 {\"error\":\"NoSuchFunction\"}"),
        (Rule::QueueNotFound, "404 {\"error\":\"QueueNotFound\"}"),
        (Rule::BlobNotFound, "404 {\"error\":\"BlobNotFound\"}"),
        (Rule::MessageNotFound, "404 {\"error\":\"MessageNotFound\"}"),
        (
            Rule::NoSuchInvocation,
            "404 {\"error\":\"NoSuchInvocation\"}",
        ),
        (
            Rule::PopReceiptMismatch { current: 7 },
            "400 {\"error\":\"PopReceiptMismatch\"}",
        ),
        (
            Rule::LeaseHeld {
                holder: 1,
                until: 60000,
            },
            "409 {\"error\":\"LeaseHeld\"}",
        ),
        (
            Rule::LeaseMismatch { holder: 1 },
            "409 {\"error\":\"LeaseMismatch\"}",
        ),
        (
            Rule::StoreFull { live: 100000 },
            "507 {\"error\":\"StoreFull\"}",
        ),
        (
            Rule::JournalFull { length: 9 },
            "507 {\"error\":\"JournalFull\"}",
        ),
        (
            Rule::OldJournal { version: 1 },
            "409 {\"error\":\"OldJournal\"}",
        ),
        (
            Rule::TokensFull { kept: 1000000 },
            "507 {\"error\":\"TokensFull\"}",
        ),
        (Rule::BadZone, "400 {\"error\":\"BadZone\"}"),
    ];
    for (rule, wanted) in table {
        let given = answered(rt.alloc(), Err(StepFault::Rule(rule)))?;
        assert_eq!(rt; given.as_str(), wanted);
    }
    Ok(())
}

#[test]
fn other_faults_have_their_status(rt: HostRuntime) -> Result<(), Fail> {
    let alloc = rt.alloc();
    assert_eq!(rt;
        answered(alloc, Err(StepFault::DiskFault))?.as_str(),
        "503 {\"error\":\"DiskFault\"}"
    );
    assert_eq!(rt;
        answered(alloc, Err(StepFault::NoMemory))?.as_str(),
        "500 {\"error\":\"NoMemory\"}"
    );
    let table: [(FrontFault, u16, &[u8]); 5] = [
        (FrontFault::NoRoute, 404, b"{\"error\":\"NoRoute\"}"),
        (FrontFault::BadMethod, 405, b"{\"error\":\"BadMethod\"}"),
        (FrontFault::BadQuery, 400, b"{\"error\":\"BadQuery\"}"),
        (FrontFault::BadBody, 400, b"{\"error\":\"BadBody\"}"),
        (FrontFault::NoMemory, 500, b"{\"error\":\"NoMemory\"}"),
    ];
    for (fault, status, body) in table {
        assert_eq!(rt; fault_response(&fault).0, status);
        assert_eq!(rt; fault_response(&fault).1, body);
    }
    let table: [(WireFault, Option<u16>); 9] = [
        (WireFault::BadHead, Some(400)),
        (WireFault::BadLength, Some(400)),
        (WireFault::TooLong, Some(413)),
        (WireFault::Cut { got: 5, needed: 10 }, Some(400)),
        (WireFault::Chunked, Some(411)),
        (WireFault::Coded, Some(415)),
        (WireFault::ReadFault, None),
        (WireFault::WriteFault, None),
        (WireFault::NoMemory, Some(500)),
    ];
    for (fault, status) in table {
        assert_eq!(rt; wire_response(&fault).map(|response| response.0), status);
    }
    assert_eq!(rt; stop_response().0, 202);
    assert_eq!(rt; stop_response().1, b"".as_slice());
    Ok(())
}
