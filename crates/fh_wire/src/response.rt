// Reading a response.
ghost use Rattle.std.specs.Prelude.{◌≡◌, ◌≤◌, drop};
ghost use Rattle.httparse.specs.Grammar.{ResponseHead};
ghost use Rattle.httparse.specs.Spans.{IsResponseAt, IsResponseWithin};
ghost use Rattle.fh_wire.specs.Causes.{UnlessNoMemory};
ghost use Rattle.fh_wire.specs.Messages.{ResponseIs, front, response_of};
ghost use Rattle.fh_wire.specs.Sizes.{body_of};

use crate::fault::WireFault;
use crate::fields::Framing;
use crate::front::{Front, find_response, front_of};
use crate::size::{response_needs, unfinished};
use fh_base::{Bytes, MOST_FIELDS};
use httparse::spans::{EMPTY_HEADER_SPAN, HeaderSpan, ResponseSpans};
use std::alloc::Global;

/// A response that was read.
#[derive(Debug, Drop)]
pub struct HttpBack {
    /// The three digits of the status as a number, from 0 to 999.
    pub status: u16,
    pub body: Bytes,
}

/// What all the bytes of a connection are, as a response (RFC 9112). Bytes behind a stated body are
/// ignored, and where no length is stated all bytes behind the head are the body. The faults are tried in
/// this order: the head, `Chunked`, `Coded`, `BadLength`, `TooLong`, `Cut`.
pub fn read_response(alloc: Global, bytes: &[u8]) -> Result<HttpBack, WireFault>
    ensures { UnlessNoMemory result (ResponseIs bytes.now result) }
{
    let mut fields = [EMPTY_HEADER_SPAN; MOST_FIELDS];
    match find_response(front_of(bytes), &mut fields) {
        Front::Refused => Err(WireFault::BadHead),
        Front::Open => Err(unfinished(bytes.len())),
        Front::Whole(spans) => whole_response(alloc, bytes, &fields, spans),
    }
}

fn whole_response(
    alloc: Global,
    bytes: &[u8],
    fields: &[HeaderSpan],
    spans: ResponseSpans,
) -> Result<HttpBack, WireFault>
    requires { IsResponseWithin (front bytes.now) fields.now spans }
    ensures { (h : ResponseHead) → IsResponseAt (front bytes.now) fields.now spans h
        → UnlessNoMemory result (result ≡ response_of h (drop spans.len bytes.now)) }
{
    let (fields, _unused) = fields.split_at(spans.headers);
    let (_head, rest) = bytes.split_at(spans.len);
    let needed = match response_needs(Framing::of(front_of(bytes), fields), spans.len, rest.len()) {
        Ok(needed) => needed,
        Err(fault) => return Err(fault),
    };
    match take_body(alloc, rest, needed) {
        Ok(body) => Ok(HttpBack {
            status: spans.code,
            body,
        }),
        Err(fault) => Err(fault),
    }
}

// So many of these bytes.
fn take_body(alloc: Global, rest: &[u8], needed: usize) -> Result<Bytes, WireFault>
    requires { needed ≤ 2097152 }
    ensures { UnlessNoMemory result (result ≡ body_of needed rest.now) }
{
    if rest.len() < needed {
        return Err(WireFault::Cut {
            got: rest.len() as u64,
            needed: needed as u64,
        });
    }
    match Bytes::from_slice(alloc, rest.split_at(needed).0) {
        Ok(body) => Ok(body),
        Err(_) => Err(WireFault::NoMemory),
    }
}
