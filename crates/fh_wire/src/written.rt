// The messages that the host writes.
ghost use Rattle.std.specs.Prelude.{◌≡◌, IfOk};
ghost use Rattle.fh_wire.specs.Causes.{HasWriteCause};
ghost use Rattle.fh_wire.specs.Written.{request_text, response_text, full_text, bare_text, phrase_of, WritesResponse};

use crate::fault::WireFault;
use fh_base::{NoMemory, Sink, write_all};
use http::StatusCode;
use std::alloc::Global;

/// The request that posts this body to the function of this name, of the worker at this port of the
/// loopback address. It is of HTTP/1.0, so that the worker answers without chunks and closes.
pub fn request_bytes(alloc: Global, name: &str, port: u16, body: &[u8]) -> Result<Vec<u8>, NoMemory>
    ensures { IfOk result (λ bytes. bytes.items ≡ request_text name.now port body.now) }
{
    let size = body.len();
    let head = format!(in alloc;
        "POST /{name} HTTP/1.0\r\nHost: 127.0.0.1:{port}\r\nContent-Type: application/json\r\nContent-Length: {size}\r\nConnection: close\r\n\r\n"
    )?;
    let mut bytes = head.into_bytes();
    bytes.extend_from_slice(body)?;
    Ok(bytes)
}

// The status of a response without content (RFC 9110).
const NO_CONTENT: u16 = 204;

/// Writes a response of this status with this body, in one piece. A response of status 204 has no content,
/// so its body is left out, and so are the fields that would speak of it. Where a write fails, some bytes at the
/// front of the response are written, but not all; where memory is refused, none.
pub fn write_response<O: Sink>(
    alloc: Global,
    sink: &mut O,
    status: u16,
    body: &[u8],
) -> Result<(), WireFault>
    ensures written { WritesResponse (O.written sink.old) (O.written sink.new) result
        (response_text status body.now) }
    ensures cause { HasWriteCause (O.write_faults sink.old) (O.write_faults sink.new)
        (O.writes_surely sink.old) (O.writes_surely sink.new) result }
    ensures beside { O.beside_writing sink.new ≡ O.beside_writing sink.old }
{
    let response = match response_bytes(alloc, status, body) {
        Ok(response) => response,
        Err(_) => return Err(WireFault::NoMemory),
    };
    match write_all(sink, response.as_slice()) {
        Ok(()) => Ok(()),
        Err(_) => Err(WireFault::WriteFault),
    }
}

fn response_bytes(alloc: Global, status: u16, body: &[u8]) -> Result<Vec<u8>, NoMemory>
    ensures { IfOk result (λ bytes. bytes.items ≡ response_text status body.now) }
{
    if status == NO_CONTENT {
        bare_response(alloc, status)
    } else {
        full_response(alloc, status, body)
    }
}

fn bare_response(alloc: Global, status: u16) -> Result<Vec<u8>, NoMemory>
    ensures { IfOk result (λ bytes. bytes.items ≡ bare_text status) }
{
    let phrase = phrase_of(status);
    let head = format!(in alloc; "HTTP/1.1 {status} {phrase}\r\nConnection: close\r\n\r\n")?;
    Ok(head.into_bytes())
}

fn full_response(alloc: Global, status: u16, body: &[u8]) -> Result<Vec<u8>, NoMemory>
    ensures { IfOk result (λ bytes. bytes.items ≡ full_text status body.now) }
{
    let phrase = phrase_of(status);
    let size = body.len();
    let head = format!(in alloc;
        "HTTP/1.1 {status} {phrase}\r\nContent-Type: application/json\r\nContent-Length: {size}\r\nConnection: close\r\n\r\n"
    )?;
    let mut bytes = head.into_bytes();
    bytes.extend_from_slice(body)?;
    Ok(bytes)
}

fn phrase_of(status: u16) -> &'static str
    ensures { result.now ≡ phrase_of status }
{
    match StatusCode::from_u16(status) {
        Ok(status) => status.canonical_reason().unwrap_or(""),
        Err(_) => "",
    }
}
