// Reading a request's head.
ghost use Rattle.std.specs.Prelude.{◌≡◌, ◌+◌, ◌≤◌, ◌<◌, ◌⊎◌, ◌==◌, ◌||◌, nat_lt, [], length, IfOk, OnOk, IfErr};
ghost use Rattle.std.specs.Io.KnownBytes.{Consumes, IsAtEnd};
ghost use Rattle.fh_wire.specs.Causes.{HasReadCause, IsFree};
ghost use Rattle.fh_wire.specs.Fronts.{FindsRequestFront};
ghost use Rattle.fh_wire.specs.Messages.{front};
ghost use Rattle.fh_wire.specs.Reading.{Brings, ReadsRequestFrom};

use crate::fault::WireFault;
use crate::front::{Front, find_request, front_of};
use crate::scan::Scan;
use crate::size::unfinished;
use fh_base::{LONGEST_MESSAGE, Source};
use httparse::spans::{HeaderSpan, RequestSpans};

/// Reads until a whole head has come. It looks for a head once the scan has seen its last line, at the end
/// of the bytes, and each time that their number has doubled: so many small pieces cost no more than few
/// large ones, and what can't become a head is refused soon.
pub(crate) fn read_head<S: Source>(
    source: &mut S,
    piece: &mut [u8],
    bytes: &mut Vec<u8>,
    fields: &mut [HeaderSpan],
) -> Result<RequestSpans, WireFault>
    requires piece { 0 < length piece.old }
    requires fields { length fields.old ≡ 64 }
    requires empty { bytes.old.items ≡ [] }
    ensures taken { OnOk result (Consumes (S.left source.old) (S.left source.new) bytes.new.items) }
    ensures found { IfOk result
        (λ r. FindsRequestFront (front bytes.new.items) fields.new (Front.Whole r)) }
    ensures few { IfOk result (λ r. length bytes.new.items < r.len + length piece.old) }
    ensures lacks { IfErr result (λ e. IsFree e
        ⊎ ReadsRequestFrom (S.left source.old) (S.left source.new) (Err e)) }
    ensures cause { HasReadCause (S.read_faults source.old) (S.read_faults source.new)
        (S.reads_surely source.old) (S.reads_surely source.new) result }
    ensures beside { S.beside_reading source.new ≡ S.beside_reading source.old }
    ensures most { S.most source.new ≤ S.most source.old }
{
    let mut scan = Scan::FRESH;
    let mut next_look = 0;
    'pieces: loop {
        let before = bytes.len();
        let came = match read_piece(source, piece, bytes, LONGEST_MESSAGE + 1) {
            Ok(came) => came,
            Err(fault) => return Err(fault),
        };
        let front = front_of(bytes.as_slice());
        scan = scan.onward(front.split_at(before).1);
        let is_last = is_last(came, bytes.len());
        if !is_last && !scan.is_over() && bytes.len() < next_look {
            continue;
        }
        next_look = 2 * bytes.len();
        match find_request(scan, front, fields) {
            Front::Whole(spans) => return Ok(spans),
            Front::Refused => return Err(WireFault::BadHead),
            Front::Open => {}
        }
        if is_last {
            return Err(unfinished(bytes.len()));
        }
    }
}

// Whether no more bytes are of use: none came, or there are more than a head may have.
fn is_last(came: usize, got: usize) -> bool
    ensures { result ≡ (came == 0 || nat_lt 2097152 got) }
{
    came == 0 || got > LONGEST_MESSAGE
}

/// Reads a piece behind the bytes that have come, so that there are at most so many.
pub(crate) fn read_piece<S: Source>(
    source: &mut S,
    piece: &mut [u8],
    bytes: &mut Vec<u8>,
    room: usize,
) -> Result<usize, WireFault>
    requires piece { 0 < length piece.old }
    requires room { length bytes.old.items < room }
    ensures brings { OnOk result
        (Brings (S.left source.old) (S.left source.new) bytes.old.items bytes.new.items) }
    ensures size { IfOk result (λ n. length bytes.new.items ≡ length bytes.old.items + n) }
    ensures within { OnOk result (length bytes.new.items ≤ room) }
    ensures few { IfOk result (λ n. n ≤ length piece.old) }
    ensures last { IfOk result (λ n. n ≡ 0 → IsAtEnd (S.left source.new)) }
    ensures free { IfErr result IsFree }
    ensures cause { HasReadCause (S.read_faults source.old) (S.read_faults source.new)
        (S.reads_surely source.old) (S.reads_surely source.new) result }
    ensures beside { S.beside_reading source.new ≡ S.beside_reading source.old }
    ensures most { IfOk result (λ n. S.most source.new + n ≤ S.most source.old) }
    ensures later { S.most source.new ≤ S.most source.old }
{
    let size = piece.len().min(room - bytes.len());
    let (front, _unused) = piece.split_at_mut(size);
    let came = match source.read(front) {
        Ok(came) => came,
        Err(_) => return Err(WireFault::ReadFault),
    };
    match bytes.extend_from_slice(front.split_at(came).0) {
        Ok(()) => Ok(came),
        Err(_) => Err(WireFault::NoMemory),
    }
}
