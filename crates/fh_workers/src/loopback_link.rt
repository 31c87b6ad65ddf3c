// A worker that is asked over the loopback address.
ghost use Rattle.std.specs.Prelude.{◌≡◌};

use crate::memory_link::cut;
use crate::{Link, LinkFault};
use fh_base::Bytes;
use std::alloc::Global;
use std::io::{self, ErrorKind, Read, Write};
use std::net::{Ipv4Addr, Net, TcpStream};

/// The most bytes of a reply that a link gives.
const MOST: u64 = 2097153;

/// A worker at a port of the loopback address, and at no other address. Each ask has a connection of its
/// own, which is read to its end. It tells nothing, and counts each error of the host.
#[derive(Drop)]
pub struct LoopbackLink<R: Net> {
    runtime: R,
    alloc: Global,
    port: u16,
    faults: u64,
}

impl<R: Net> LoopbackLink<R> {
    /// It is aimed at no port yet.
    pub fn new(runtime: R, alloc: Global) -> LoopbackLink<R>
        ensures runtime { result.runtime ≡ runtime }
        ensures port { result.port ≡ 0 }
        ensures faults { result.faults ≡ 0 }
    {
        LoopbackLink {
            runtime,
            alloc,
            port: 0,
            faults: 0,
        }
    }
}

impl<R: Net> Link for LoopbackLink<R> {
    ghost use Rattle.std.specs.Prelude.{None};

    ghost aimed = { λ l. l.port };

    ghost asked = { λ l. None };

    ghost to_come = { λ l. None };

    ghost link_faults = { λ l. l.faults };

    fn aim(&mut self, port: u16) {
        self.port = port;
    }

    fn port(&self) -> u16 {
        self.port
    }

    fn ask(&mut self, request: &[u8]) -> Result<Bytes, LinkFault> {
        match reply_to(&self.runtime, self.alloc, self.port, request) {
            Ok(reply) => Ok(cut(Bytes::new(reply))),
            Err(error) if error.kind() == ErrorKind::OutOfMemory => Err(LinkFault::NoMemory),
            Err(_) => {
                self.faults = self.faults.saturating_add(1);
                Err(LinkFault::Failed)
            }
        }
    }
}

fn reply_to<R: Net>(rt: &R, alloc: Global, port: u16, request: &[u8]) -> io::Result<Vec<u8>> {
    let mut stream = TcpStream::connect(rt, (Ipv4Addr::LOCALHOST, port))?;
    stream.write_all(request)?;
    let mut reply = Vec::new(alloc);
    stream.take(MOST).read_to_end(&mut reply)?;
    Ok(reply)
}
