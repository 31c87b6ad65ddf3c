ghost use Rattle.std.specs.Prelude.{◌≤◌, None, true, length};

use super::*;
use fh_base::{Bytes, Failed, Failing, FaultPlan, MemorySink, MemorySource, Source};
use std::alloc::Global;
use std::test::Fail;

fn no_faults(alloc: Global) -> FaultPlan {
    FaultPlan::new(Failing::Listed {
        calls: Vec::new(alloc),
    })
}

// The status and the body of a response.
fn response(rt: &HostRuntime, text: &[u8]) -> Result<(u16, Bytes), WireFault> {
    let back = read_response(rt.alloc(), text)?;
    Ok((back.status, back.body))
}

const fn cut(got: u64, needed: u64) -> WireFault {
    WireFault::Cut { got, needed }
}

#[test]
fn faults_of_responses_come_in_their_order(rt: HostRuntime) {
    let table: [(&[u8], WireFault); 20] = [
        // hostile bytes
        (
            b"HTTP/1.0 200 OK\r\nContent-Length: 10\r\n\r\nhello",
            cut(5, 10),
        ),
        (b"HTTP/1.0 200", cut(12, 0)),
        (
            b"HTTP/1.0 200 OK\r\nContent-Length: 5\r\nContent-Length: 6\r\n\r\nhello!",
            WireFault::BadLength,
        ),
        (
            b"HTTP/1.0 200 OK\r\nTransfer-Encoding: chunked\r\nContent-Encoding: gzip\r\n\r\n",
            WireFault::Chunked,
        ),
        (
            b"HTTP/1.0 200 OK\r\nContent-Encoding: gzip\r\nContent-Length: x\r\n\r\n",
            WireFault::Coded,
        ),
        (
            b"HTTP/1.0 200 OK\r\nContent-Length: 3000000\r\n\r\n",
            WireFault::TooLong,
        ),
        // each fault in front of those behind it
        (b"hello", WireFault::BadHead),
        (b"", cut(0, 0)),
        (b"\r\n\r\nHTTP/1.0 2", cut(14, 0)),
        (
            b"HTTP/1.0 200 OK\nContent-Length: \xff\nTransfer-Encoding: a\n\n",
            WireFault::BadHead,
        ),
        (
            b"HTTP/1.0 200 OK\r\nX: \xff\r\nContent-Length: 1\r\n\r\n",
            cut(0, 1),
        ),
        (
            b"HTTP/1.0 200 OK\r\ntransfer-encoding: identity\r\n\r\n",
            WireFault::Chunked,
        ),
        (
            b"HTTP/1.0 200 OK\r\nContent-Encoding:\r\n\r\n",
            WireFault::Coded,
        ),
        (
            b"HTTP/1.0 200 OK\r\nContent-Encoding: identity, identity\r\n\r\n",
            WireFault::Coded,
        ),
        // lengths that are no number of 1 to 15 digits
        (
            b"HTTP/1.0 200 OK\r\nContent-Length: 5, 5\r\n\r\nhello",
            WireFault::BadLength,
        ),
        (
            b"HTTP/1.0 200 OK\r\nContent-Length: +5\r\n\r\nhello",
            WireFault::BadLength,
        ),
        (
            b"HTTP/1.0 200 OK\r\nContent-Length: -5\r\n\r\nhello",
            WireFault::BadLength,
        ),
        (
            b"HTTP/1.0 200 OK\r\nContent-Length:\r\n\r\nhello",
            WireFault::BadLength,
        ),
        (
            b"HTTP/1.0 200 OK\r\nContent-Length: 0 5\r\n\r\nhello",
            WireFault::BadLength,
        ),
        (
            b"HTTP/1.0 200 OK\r\nContent-Length: 0000000000000005\r\n\r\nhello",
            WireFault::BadLength,
        ),
    ];
    for (text, fault) in table {
        assert_eq!(rt; read_response(rt.alloc(), text).map(|_back| ()), Err(fault));
    }
}

#[test]
fn responses_of_servers(rt: HostRuntime) -> Result<(), Fail> {
    let table: [(&[u8], u16, &[u8]); 7] = [
        // http.server of Python 3.11
        (
            b"HTTP/1.0 200 OK\r\nServer: BaseHTTP/0.6 Python/3.11.2\r\nDate: Mon, 16 Nov 2026 10:04:12 GMT\r\nContent-Type: application/json\r\nContent-Length: 16\r\n\r\n{\"Outputs\":null}",
            200,
            b"{\"Outputs\":null}",
        ),
        (
            b"HTTP/1.0 404 Not Found\r\nServer: BaseHTTP/0.6 Python/3.11.2\r\nConnection: close\r\n\r\nno such function",
            404,
            b"no such function",
        ),
        // net/http of Go
        (
            b"HTTP/1.0 200 OK\r\nContent-Type: application/json\r\nDate: Mon, 16 Nov 2026 10:04:12 GMT\r\nContent-Length: 2\r\nConnection: close\r\n\r\n{}",
            200,
            b"{}",
        ),
        // the sample worker
        (
            b"HTTP/1.1 200 OK\r\nContent-Type: application/json\r\nContent-Length: 47\r\nConnection: close\r\n\r\n{\"Outputs\":{},\"Logs\":[\"ok\"],\"ReturnValue\":null}",
            200,
            b"{\"Outputs\":{},\"Logs\":[\"ok\"],\"ReturnValue\":null}",
        ),
        (
            b"HTTP/1.1 000\nCONTENT-LENGTH: 00000000000003\ncontent-length: 3\n\nhello",
            0,
            b"hel",
        ),
        (
            b"HTTP/1.1 204 No Content\r\nContent-Encoding: IDENTITY\r\n\r\n",
            204,
            b"",
        ),
        (b"HTTP/1.1 299 \r\n\r\n\r\n\n", 299, b"\r\n\n"),
    ];
    for (text, status, body) in table {
        let (found, bytes) = response(&rt, text)?;
        assert_eq!(rt; found, status);
        assert_eq!(rt; bytes.as_slice(), body);
    }
    Ok(())
}

// The method, the target and the body of a request in memory, one behind the other with a bar between.
fn request(rt: &HostRuntime, text: &[u8]) -> Result<String, Fail> {
    let mut source = MemorySource::new(text.to_vec(rt.alloc())?, no_faults(rt.alloc()));
    match read_request(rt.alloc(), &mut source) {
        Ok(read) => {
            let body = std::str::from_utf8(read.body.as_slice())
                .ok()
                .ok_or("a text")?;
            let left = source.bytes.len() - source.place;
            Ok(format!(in rt.alloc();
                "{}|{}|{body}|{left}",
                read.method.as_str(),
                read.target.as_str()
            )?)
        }
        Err(fault) => Ok(format!(in rt.alloc(); "{fault:?}")?),
    }
}

#[test]
fn requests_of_clients(rt: HostRuntime) -> Result<(), Fail> {
    let table: [(&[u8], &str); 14] = [
        // curl -d hi
        (
            b"POST /queues/orders/messages?ttl=-1 HTTP/1.1\r\nHost: 127.0.0.1:7071\r\nUser-Agent: curl/7.88.1\r\nAccept: */*\r\nContent-Length: 2\r\nContent-Type: application/x-www-form-urlencoded\r\n\r\nhi",
            "POST|/queues/orders/messages?ttl=-1|hi|0",
        ),
        (
            b"POST /x HTTP/1.0\r\nContent-Length: 2\r\n\r\n{}",
            "POST|/x|{}|0",
        ),
        (b"\r\n\nGET / HTTP/1.1\n\nmore", "GET|/||0"),
        (
            b"PROPFIND-AND-A-LONG-METHOD * HTTP/1.1\r\nA:\r\n\r\n",
            "PROPFIND-AND-A-LONG-METHOD|*||0",
        ),
        (b"GET /\xc3\xa9 HTTP/1.1\r\n\r\n", "BadHead"),
        (b"GET /\xc3", "BadHead"),
        (b"G(T / HTTP/1.1\r\n", "BadHead"),
        (b"GET / HTTP/2.0\r\n\r\n", "BadHead"),
        (b"GET /x", "Cut { got: 6, needed: 0 }"),
        (b"", "Cut { got: 0, needed: 0 }"),
        (
            b"PUT / HTTP/1.1\r\nContent-Length: 3\r\n\r\nab",
            "Cut { got: 2, needed: 3 }",
        ),
        (
            b"PUT / HTTP/1.1\r\nContent-Length: 2097153\r\n\r\nab",
            "TooLong",
        ),
        (
            b"PUT / HTTP/1.1\r\nContent-Length: 4, 5\r\n\r\nab",
            "BadLength",
        ),
        (
            b"PUT / HTTP/1.1\r\nTransfer-Encoding: chunked\r\n\r\n0\r\n\r\n",
            "Chunked",
        ),
    ];
    for (text, wanted) in table {
        assert_eq!(rt; request(&rt, text)?.as_str(), wanted);
    }
    Ok(())
}

// A request of so many bytes, of which the head has so many fields.
fn request_of(alloc: Global, fields: usize, size: usize) -> Result<Vec<u8>, Fail> {
    let mut text = b"PUT / HTTP/1.1\r\n".to_vec(alloc)?;
    for _ in 0..fields {
        text.extend_from_slice(b"A: b\r\n")?;
    }
    for _ in text.len()..size {
        text.push(b'x')?;
    }
    Ok(text)
}

#[test]
fn heads_at_their_limits(rt: HostRuntime) -> Result<(), Fail> {
    let most = "Cut { got: 2097152, needed: 0 }";
    let table: [(usize, usize, &[u8], &str); 7] = [
        (64, 0, b"\r\n", "PUT|/||0"),
        (65, 0, b"\r\n", "BadHead"),
        (64, 0, b"", "Cut { got: 400, needed: 0 }"),
        (65, 0, b"", "BadHead"),
        (0, 2097152, b"", most),
        (0, 2097152, b"x", "TooLong"),
        (1, 2097145, b": c\n\n!!!", "PUT|/||1"),
    ];
    for (fields, size, behind, wanted) in table {
        let mut text = request_of(rt.alloc(), fields, size)?;
        text.extend_from_slice(behind)?;
        assert_eq!(rt; request(&rt, text.as_slice())?.as_str(), wanted);
    }
    Ok(())
}

// Bytes in memory that come one at a time. It tells nothing of them.
#[derive(Drop)]
struct OneByOne<'a> {
    left: &'a [u8],
}

impl<'a> Source for OneByOne<'a> {
    ghost left = { λ s. None };

    ghost most = { λ s. length s.left.now };

    ghost read_faults = { λ s. 0 };

    ghost reads_surely = { λ s. true };

    ghost beside_reading = { λ s. (None, 0, true) };

    fn read(&mut self, buf: &mut [u8]) -> Result<usize, Failed> {
        let size = buf.len().min(self.left.len()).min(1);
        let (given, left) = self.left.split_at(size);
        buf[..size].copy_from_slice(given);
        self.left = left;
        Ok(size)
    }
}

#[test]
fn bytes_that_come_one_at_a_time(rt: HostRuntime) -> Result<(), Fail> {
    let table: [(usize, &[u8], Option<WireFault>); 4] = [
        (64, b"Content-Length: 2\r\n\r\nhi", Some(WireFault::BadHead)),
        (63, b"Content-Length: 2\r\n\r\nhi", None),
        (63, b"Content-Length: 2\r\n\r\nh", Some(cut(1, 2))),
        (64, b"", Some(cut(400, 0))),
    ];
    for (fields, behind, wanted) in table {
        let mut text = request_of(rt.alloc(), fields, 0)?;
        text.extend_from_slice(behind)?;
        let mut source = OneByOne {
            left: text.as_slice(),
        };
        assert_eq!(rt; read_request(rt.alloc(), &mut source).err(), wanted);
    }
    Ok(())
}

#[test]
fn what_is_written_is_read(rt: HostRuntime) -> Result<(), Fail> {
    let posted = request_bytes(rt.alloc(), "Archive", 7071, b"{}")?;
    assert_eq!(rt;
        posted.as_slice(),
        b"POST /Archive HTTP/1.0\r\nHost: 127.0.0.1:7071\r\nContent-Type: application/json\r\nContent-Length: 2\r\nConnection: close\r\n\r\n{}".as_slice()
    );
    assert_eq!(rt;
        request(&rt, posted.as_slice())?.as_str(),
        "POST|/Archive|{}|0"
    );
    let mut sink = MemorySink::new(rt.alloc(), no_faults(rt.alloc()));
    assert_eq!(rt; write_response(rt.alloc(), &mut sink, 413, b"{}"), Ok(()));
    assert_eq!(rt;
        sink.bytes.as_slice(),
        b"HTTP/1.1 413 Payload Too Large\r\nContent-Type: application/json\r\nContent-Length: 2\r\nConnection: close\r\n\r\n{}".as_slice()
    );
    Ok(())
}

#[test]
fn a_response_without_content(rt: HostRuntime) -> Result<(), Fail> {
    let mut sink = MemorySink::new(rt.alloc(), no_faults(rt.alloc()));
    assert_eq!(rt; write_response(rt.alloc(), &mut sink, 204, b""), Ok(()));
    assert_eq!(rt;
        sink.bytes.as_slice(),
        b"HTTP/1.1 204 No Content\r\nConnection: close\r\n\r\n".as_slice()
    );
    Ok(())
}

#[test]
fn a_failed_call_is_told(rt: HostRuntime) -> Result<(), Fail> {
    let plan = FaultPlan::new(Failing::After { passed: 0 });
    let mut source = MemorySource::new(b"GET / HTTP/1.1\r\n\r\n".to_vec(rt.alloc())?, plan);
    assert_eq!(rt;
        read_request(rt.alloc(), &mut source).map(|_read| ()),
        Err(WireFault::ReadFault)
    );
    let mut sink = MemorySink::new(rt.alloc(), FaultPlan::new(Failing::After { passed: 0 }));
    assert_eq!(rt;
        write_response(rt.alloc(), &mut sink, 200, b""),
        Err(WireFault::WriteFault)
    );
    Ok(())
}
