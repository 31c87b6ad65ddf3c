// A door at the loopback address.
ghost use Rattle.std.specs.Prelude.{◌≡◌, ◌≤◌, ◌-◌, None, false, IfOk, length};
ghost use Rattle.std.specs.Io.{ReadsAtMost};

use crate::Door;
use fh_base::{Both, Failed, Sink, Source};
use std::io::{self, ErrorKind, Read, Write};
use std::net::{Ipv4Addr, Net, OpenListener, TcpListener};

/// The most bytes that a connection may give, 2^40.
const MOST: u64 = 1099511627776;

/// A connection over a stream of std. It tells nothing, and counts each error of the stream.
#[derive(Drop)]
pub struct LoopbackConn<T: Read + Write> {
    stream: T,
    given: u64,
    read_faults: u64,
    write_faults: u64,
    ghost within: { given ≤ 1099511627776 },
}

impl<T: Read + Write + Drop> Source for LoopbackConn<T> {
    ghost left = { λ c. None };

    ghost most = { λ c. 1099511627776 - c.given };

    ghost read_faults = { λ c. c.read_faults };

    ghost reads_surely = { λ c. false };

    ghost beside_reading = { λ c. (None, c.write_faults, false) };

    fn read(&mut self, buf: &mut [u8]) -> Result<usize, Failed> {
        let room = MOST - self.given;
        let size = room.min(buf.len() as u64) as usize;
        if size == 0 && !buf.is_empty() {
            self.read_faults = self.read_faults.saturating_add(1);
            return Err(Failed);
        }
        match read_retrying(&mut self.stream, &mut buf[..size]) {
            Ok(n) => {
                self.given += n as u64;
                Ok(n)
            }
            Err(_) => {
                self.read_faults = self.read_faults.saturating_add(1);
                Err(Failed)
            }
        }
    }
}

impl<T: Read + Write + Drop> Sink for LoopbackConn<T> {
    ghost written = { λ c. None };

    ghost write_faults = { λ c. c.write_faults };

    ghost writes_surely = { λ c. false };

    ghost beside_writing = { λ c. (None, 1099511627776 - c.given, c.read_faults, false) };

    fn write(&mut self, bytes: &[u8]) -> Result<usize, Failed> {
        match write_retrying(&mut self.stream, bytes) {
            Ok(n) if 0 < n || bytes.is_empty() => Ok(n),
            _ => {
                self.write_faults = self.write_faults.saturating_add(1);
                Err(Failed)
            }
        }
    }
}

impl<T: Read + Write + Drop> Both for LoopbackConn<T> {
    ghost use Rattle.std.specs.Prelude.{refl};

    ghost reading_keeps = { λ c. refl };

    ghost writing_keeps = { λ c. refl };
}

/// A door at a port of the loopback address, and at no other address. It listens from the first accept
/// after it was aimed. It tells nothing, and counts each error of the host.
#[derive(Drop)]
pub struct LoopbackDoor<R: Net> {
    runtime: R,
    port: u16,
    listener: Option<R::Listener>,
    faults: u64,
}

impl<R: Net> LoopbackDoor<R> {
    /// It is aimed at no port yet.
    pub fn new(runtime: R) -> LoopbackDoor<R>
        ensures runtime { result.runtime ≡ runtime }
        ensures port { result.port ≡ 0 }
        ensures faults { result.faults ≡ 0 }
    {
        LoopbackDoor {
            runtime,
            port: 0,
            listener: None,
            faults: 0,
        }
    }
}

impl<R: Net> Door for LoopbackDoor<R> {
    type Conn = LoopbackConn<R::Stream>;

    ghost facing = { λ d. d.port };

    ghost accepted = { λ d. None };

    ghost calls_surely = { λ d. false };

    ghost door_faults = { λ d. d.faults };

    fn aim(&mut self, port: u16) {
        self.port = port;
        self.listener = None;
    }

    fn accept(&mut self) -> Result<LoopbackConn<R::Stream>, Failed> {
        match accepted(&self.runtime, &mut self.listener, self.port) {
            Ok(stream) => Ok(LoopbackConn {
                stream,
                given: 0,
                read_faults: 0,
                write_faults: 0,
            }),
            Err(_) => {
                self.faults = self.faults.saturating_add(1);
                Err(Failed)
            }
        }
    }
}

// The next connection at this port, where listening begins if it hasn't yet.
fn accepted<R: Net>(
    runtime: &R,
    listener: &mut Option<R::Listener>,
    port: u16,
) -> io::Result<R::Stream> {
    if listener.is_none() {
        *listener = Some(TcpListener::bind(runtime, (Ipv4Addr::LOCALHOST, port))?);
    }
    match listener {
        Some(listener) => Ok(listener.accept()?.0),
        None => Err(io::Error::from(ErrorKind::NotFound)),
    }
}

// Another try is due where a signal came between.
fn read_retrying<T: Read>(stream: &mut T, buf: &mut [u8]) -> io::Result<usize>
    ensures { ReadsAtMost result buf.new }
{
    for _ in 0..u64::MAX {
        match stream.read(buf) {
            Err(error) if error.kind() == ErrorKind::Interrupted => {}
            result => return result,
        }
    }
    Err(io::Error::from(ErrorKind::Interrupted))
}

fn write_retrying<T: Write>(stream: &mut T, bytes: &[u8]) -> io::Result<usize>
    ensures { IfOk result (λ n. n ≤ length bytes.now) }
{
    for _ in 0..u64::MAX {
        match stream.write(bytes) {
            Err(error) if error.kind() == ErrorKind::Interrupted => {}
            result => return result,
        }
    }
    Err(io::Error::from(ErrorKind::Interrupted))
}
