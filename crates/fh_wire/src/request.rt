// Reading a request.
ghost use Rattle.std.specs.Prelude.{◌≡◌, ◌-◌, ◌≤◌, ◌<◌, ◌++◌, drop, length, IfOk, IfErr};
ghost use Rattle.httparse.specs.Grammar.{RequestHead};
ghost use Rattle.httparse.specs.Spans.{IsRequestAt};
ghost use Rattle.http_header.specs.Token.{IsToken};
ghost use Rattle.fh_wire.specs.Causes.{HasReadCause, UnlessNoMemory, UnlessUnread};
ghost use Rattle.fh_wire.specs.Fronts.{FindsRequestFront};
ghost use Rattle.fh_wire.specs.Messages.{front, request_of};
ghost use Rattle.fh_wire.specs.Reading.{AnswersBy, ReadsRequestFrom};
ghost use Rattle.fh_wire.specs.Sizes.{body_of};

use crate::fault::WireFault;
use crate::fields::Framing;
use crate::front::{Front, front_of};
use crate::head::{read_head, read_piece};
use crate::size::request_needs;
use fh_base::{Bytes, MOST_FIELDS, Source, Text};
use http::Method;
use httparse::spans::{EMPTY_HEADER_SPAN, HeaderSpan, RequestSpans};
use std::alloc::Global;
use std::str;

/// How many bytes are asked for at once.
const PIECE: usize = 16384;

/// A request that was read.
#[derive(Debug, Drop)]
pub struct HttpIn {
    pub method: Method,
    /// The request target as it stands in the first line, ASCII text.
    pub target: Text,
    pub body: Bytes,
}

/// Reads a request (RFC 9112). One without a length has no body. The faults are tried in this order: the
/// head, `Chunked`, `Coded`, `BadLength`, `TooLong`, `Cut`.
///
/// Bytes are taken in pieces of at most 16,384, and behind a head no more than its body. So of the bytes
/// behind the message fewer than 16,384 are taken, and only with the end of its head. The memory of a
/// body is taken as its bytes come.
pub fn read_request<S: Source>(alloc: Global, source: &mut S) -> Result<HttpIn, WireFault>
    ensures answer { UnlessUnread result
        (ReadsRequestFrom (S.left source.old) (S.left source.new) result) }
    ensures cause { HasReadCause (S.read_faults source.old) (S.read_faults source.new)
        (S.reads_surely source.old) (S.reads_surely source.new) result }
    ensures beside { S.beside_reading source.new ≡ S.beside_reading source.old }
    ensures most { S.most source.new ≤ S.most source.old }
{
    let mut piece = [0; PIECE];
    let mut fields = [EMPTY_HEADER_SPAN; MOST_FIELDS];
    let mut bytes = Vec::new(alloc);
    match read_head(source, &mut piece, &mut bytes, &mut fields) {
        Ok(spans) => read_behind(alloc, source, &mut piece, bytes.as_slice(), &fields, spans),
        Err(fault) => Err(fault),
    }
}

// Reads what is missing of a request behind its head.
fn read_behind<S: Source>(
    alloc: Global,
    source: &mut S,
    piece: &mut [u8],
    bytes: &[u8],
    fields: &[HeaderSpan],
    spans: RequestSpans,
) -> Result<HttpIn, WireFault>
    requires piece { 0 < length piece.old }
    requires found { FindsRequestFront (front bytes.now) fields.now (Front.Whole spans) }
    ensures answer { (h : RequestHead) → IsRequestAt (front bytes.now) fields.now spans h
        → AnswersBy (S.left source.old) (S.left source.new) result
        (λ rest. request_of h (drop spans.len bytes.now ++ rest))
        (λ m. length m.body - length (drop spans.len bytes.now)) }
    ensures cause { HasReadCause (S.read_faults source.old) (S.read_faults source.new)
        (S.reads_surely source.old) (S.reads_surely source.new) result }
    ensures beside { S.beside_reading source.new ≡ S.beside_reading source.old }
    ensures most { S.most source.new ≤ S.most source.old }
{
    let (used, _unused) = fields.split_at(spans.headers);
    let head = front_of(bytes);
    let needed = match request_needs(Framing::of(head, used), spans.len) {
        Ok(needed) => needed,
        Err(fault) => return Err(fault),
    };
    let begun = bytes.split_at(spans.len).1;
    match read_body(alloc, source, piece, begun, needed) {
        Ok(body) => request(alloc, head, fields, spans, body),
        Err(fault) => Err(fault),
    }
}

// The request of these parts.
fn request(
    alloc: Global,
    head: &[u8],
    fields: &[HeaderSpan],
    spans: RequestSpans,
    body: Bytes,
) -> Result<HttpIn, WireFault>
    requires { FindsRequestFront head.now fields.now (Front.Whole spans) }
    ensures { (h : RequestHead) → IsRequestAt head.now fields.now spans h
        → UnlessNoMemory result
        (result ≡ Ok (record { method = h.method; target = h.target; body = body })) }
{
    let Ok(target) = str::from_utf8(spans.path.of(head)) else {
        return Err(WireFault::BadHead);
    };
    let method = method(alloc, spans.method.of(head))?;
    match Text::from_str(alloc, target) {
        Ok(target) => Ok(HttpIn {
            method,
            target,
            body,
        }),
        Err(_) => Err(WireFault::NoMemory),
    }
}

// A token as a method. It is refused for want of memory alone.
fn method(alloc: Global, token: &[u8]) -> Result<Method, WireFault>
    requires { IsToken token.now }
    ensures ok { IfOk result (λ method. method ≡ token.now) }
    ensures err { IfErr result (λ fault. fault ≡ WireFault.NoMemory) }
{
    match Method::from_bytes(alloc, token) {
        Ok(method) => Ok(method),
        Err(_) => Err(WireFault::NoMemory),
    }
}

// Reads a body of so many bytes, of which these stand in front of the source's.
fn read_body<S: Source>(
    alloc: Global,
    source: &mut S,
    piece: &mut [u8],
    begun: &[u8],
    needed: usize,
) -> Result<Bytes, WireFault>
    requires piece { 0 < length piece.old }
    requires needed { needed ≤ 2097152 }
    ensures answer { AnswersBy (S.left source.old) (S.left source.new) result
        (λ rest. body_of needed (begun.now ++ rest)) (λ body. length body - length begun.now) }
    ensures cause { HasReadCause (S.read_faults source.old) (S.read_faults source.new)
        (S.reads_surely source.old) (S.reads_surely source.new) result }
    ensures beside { S.beside_reading source.new ≡ S.beside_reading source.old }
    ensures most { S.most source.new ≤ S.most source.old }
{
    if needed <= begun.len() {
        return match Bytes::from_slice(alloc, begun.split_at(needed).0) {
            Ok(body) => Ok(body),
            Err(_) => Err(WireFault::NoMemory),
        };
    }
    match begun.to_vec(alloc) {
        Ok(begun) => fill(source, piece, begun, needed),
        Err(_) => Err(WireFault::NoMemory),
    }
}

// Reads until there are so many bytes.
fn fill<S: Source>(
    source: &mut S,
    piece: &mut [u8],
    mut body: Vec<u8>,
    needed: usize,
) -> Result<Bytes, WireFault>
    requires piece { 0 < length piece.old }
    requires needed { needed ≤ 2097152 }
    requires begun { length body.items ≤ needed }
    ensures answer { AnswersBy (S.left source.old) (S.left source.new) result
        (λ rest. body_of needed (body.items ++ rest)) (λ all. length all - length body.items) }
    ensures cause { HasReadCause (S.read_faults source.old) (S.read_faults source.new)
        (S.reads_surely source.old) (S.reads_surely source.new) result }
    ensures beside { S.beside_reading source.new ≡ S.beside_reading source.old }
    ensures most { S.most source.new ≤ S.most source.old }
{
    'pieces: while body.len() < needed {
        let came = match read_piece(source, piece, &mut body, needed) {
            Ok(came) => came,
            Err(fault) => return Err(fault),
        };
        if came == 0 {
            return Err(WireFault::Cut {
                got: body.len() as u64,
                needed: needed as u64,
            });
        }
    }
    Ok(Bytes::new(body))
}
