use super::*;
use fh_base::{Both, Failed, Failing, FaultPlan, MemorySink, MemorySource, Sink, Source};
use fh_disk::MemoryDisk;
use fh_front::Routes;
use fh_hub::Hub;
use fh_wire::WireFault;
use std::alloc::Global;
use std::test::Fail;

// A connection in memory.
#[derive(Drop)]
struct MemoryConnection {
    source: MemorySource,
    sink: MemorySink,
}

impl Source for MemoryConnection {
    ghost use Rattle.std.specs.Prelude.{◌≡◌, Some, false, length};
    ghost use Rattle.fh_base.specs.FaultPlan.{never_fails};
    ghost use Rattle.fh_base.specs.MemoryStreams.{bytes_left, bytes_written};

    ghost left = { λ c. Some (bytes_left c.source) };

    ghost most = { λ c. length (bytes_left c.source) };

    ghost read_faults = { λ c. c.source.plan.faults };

    ghost reads_surely = { λ c. never_fails c.source.plan };

    ghost beside_reading = { λ c. (Some (bytes_written c.sink), c.sink.plan.faults, false) };

    fn read(&mut self, buf: &mut [u8]) -> Result<usize, Failed> {
        self.source.read(buf)
    }
}

impl Sink for MemoryConnection {
    ghost use Rattle.std.specs.Prelude.{◌≡◌, Some, false, length};
    ghost use Rattle.fh_base.specs.FaultPlan.{never_fails};
    ghost use Rattle.fh_base.specs.MemoryStreams.{bytes_left, bytes_written};

    ghost written = { λ c. Some (bytes_written c.sink) };

    ghost write_faults = { λ c. c.sink.plan.faults };

    ghost writes_surely = { λ c. false };

    ghost beside_writing = { λ c. (Some (bytes_left c.source), length (bytes_left c.source), c.source.plan.faults, never_fails c.source.plan) };

    fn write(&mut self, bytes: &[u8]) -> Result<usize, Failed> {
        self.sink.write(bytes)
    }
}

impl Both for MemoryConnection {
    ghost use Rattle.std.specs.Prelude.{refl};

    ghost reading_keeps = { λ c. refl };

    ghost writing_keeps = { λ c. refl };
}

const MANY: u64 = 1_000_000;

// A connection that sends this request. So many reads of it pass, and so many writes.
fn connection(
    alloc: Global,
    request: &str,
    reads: u64,
    writes: u64,
) -> Result<MemoryConnection, Fail> {
    let reading = FaultPlan::new(Failing::After { passed: reads });
    let writing = FaultPlan::new(Failing::After { passed: writes });
    Ok(MemoryConnection {
        source: MemorySource::new(request.as_bytes().to_vec(alloc)?, reading),
        sink: MemorySink::new(alloc, writing),
    })
}

// The response with this status line and this body.
fn response(alloc: Global, status: &str, body: &str) -> Result<String, Fail> {
    let size = body.len();
    Ok(format!(in alloc;
        "HTTP/1.1 {status}\r\nContent-Type: application/json\r\nContent-Length: {size}\r\nConnection: close\r\n\r\n{body}"
    )?)
}

fn mounted<'d>(alloc: Global, disk: &'d mut MemoryDisk) -> Result<Hub<'d, MemoryDisk>, Fail> {
    match Hub::mount(alloc, disk) {
        Ok(hub) => Ok(hub),
        Err(_) => Err(Fail::from("not mounted")),
    }
}

fn empty_disk(alloc: Global) -> MemoryDisk {
    MemoryDisk::plain(
        Vec::new(alloc),
        FaultPlan::new(Failing::After { passed: MANY }),
    )
}

// Serves this request, and gives how the connection ends and what was written.
fn serve(
    alloc: Global,
    hub: &mut Hub<'_, MemoryDisk>,
    routes: &Routes,
    mut conn: MemoryConnection,
) -> Result<(FrontEnd, Vec<u8>), Fail> {
    let end = front_over(alloc, hub, routes, &mut conn, 1000);
    let MemoryConnection { source: _, sink } = conn;
    Ok((end, sink.bytes))
}

#[test]
fn a_queue_is_served_over_a_hub(rt: HostRuntime) -> Result<(), Fail> {
    let alloc = rt.alloc();
    let table: [(&str, FrontEnd, &str, &str); 7] = [
        (
            "PUT /queues/orders HTTP/1.1\r\n\r\n",
            FrontEnd::Served,
            "201 Created",
            "{\"reply\":\"ok\"}",
        ),
        (
            "POST /queues/orders/messages?ttl=-1 HTTP/1.1\r\nContent-Length: 2\r\n\r\nhi",
            FrontEnd::Served,
            "201 Created",
            "{\"reply\":\"ok 1 1\"}",
        ),
        (
            "DELETE /queues/orders/messages/1?receipt=9 HTTP/1.1\r\n\r\n",
            FrontEnd::Served,
            "400 Bad Request",
            "{\"error\":\"PopReceiptMismatch\"}",
        ),
        (
            "GET /where/1 HTTP/1.1\r\n\r\n",
            FrontEnd::Served,
            "200 OK",
            "{\"reply\":\"is waiting orders\"}",
        ),
        (
            "GET /orders HTTP/1.1\r\n\r\n",
            FrontEnd::Served,
            "404 Not Found",
            "{\"error\":\"NoRoute\"}",
        ),
        (
            "PUT /blobs/a/b HTTP/1.1\r\nContent-Length: 5\r\n\r\nhi",
            FrontEnd::Fault(WireFault::Cut { got: 2, needed: 5 }),
            "400 Bad Request",
            "{\"error\":\"Cut\"}",
        ),
        (
            "POST /admin/stop HTTP/1.1\r\n\r\n",
            FrontEnd::Stop,
            "202 Accepted",
            "",
        ),
    ];
    let routes = Routes::new(alloc)?;
    let mut disk = empty_disk(alloc);
    let mut hub = mounted(alloc, &mut disk)?;
    for (request, end, status, answer) in table {
        let conn = connection(alloc, request, MANY, MANY)?;
        let (found, written) = serve(alloc, &mut hub, &routes, conn)?;
        assert_eq!(rt; found, end);
        assert_eq!(rt;
            written.as_slice(),
            response(alloc, status, answer)?.as_bytes()
        );
    }
    Ok(())
}

// How a connection ends of which so many reads and writes pass, and how many bytes were written.
#[test]
fn a_connection_fails_at_each_call(rt: HostRuntime) -> Result<(), Fail> {
    let alloc = rt.alloc();
    let put = "PUT /queues/orders HTTP/1.1\r\n\r\n";
    let stop = "POST /admin/stop HTTP/1.1\r\n\r\n";
    let table: [(&str, u64, u64, FrontEnd, usize); 6] = [
        (put, 0, MANY, FrontEnd::Fault(WireFault::ReadFault), 0),
        (put, 1, 0, FrontEnd::Fault(WireFault::WriteFault), 0),
        (
            "PUT / HTTP/1.1\r\n\r\n",
            1,
            0,
            FrontEnd::Fault(WireFault::WriteFault),
            0,
        ),
        (
            "PUT HTTP/1.1\r\n\r\n",
            1,
            0,
            FrontEnd::Fault(WireFault::BadHead),
            0,
        ),
        (stop, 1, 0, FrontEnd::Stop, 0),
        (stop, 1, 1, FrontEnd::Stop, 95),
    ];
    let routes = Routes::new(alloc)?;
    let mut disk = empty_disk(alloc);
    let mut hub = mounted(alloc, &mut disk)?;
    for (request, reads, writes, end, size) in table {
        let conn = connection(alloc, request, reads, writes)?;
        let (found, written) = serve(alloc, &mut hub, &routes, conn)?;
        assert_eq!(rt; found, end);
        assert_eq!(rt; written.len(), size);
    }
    Ok(())
}
