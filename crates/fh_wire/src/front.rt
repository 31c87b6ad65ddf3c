// Whether bytes begin with a head, may still become one, or never do.
ghost use Rattle.std.specs.Prelude.{◌≡◌, length};
ghost use Rattle.std.specs.List.{fold};
ghost use Rattle.fh_wire.specs.Fronts.{FindsResponseFront, FindsRequestFront};
ghost use Rattle.fh_wire.specs.Messages.{front};
ghost use Rattle.fh_wire.specs.Scan.{fresh, stepped};

use crate::scan::{MOST_LINES, Scan};
use fh_base::LONGEST_MESSAGE;
use httparse::Status;
use httparse::spans::{HeaderSpan, RequestSpans, ResponseSpans, parse_request, parse_response};

/// What bytes are to a reader of heads.
#[derive(Clone, Copy, Debug, PartialEq, Eq)]
pub(crate) enum Front<T> {
    /// They begin with a whole head.
    Whole(T),
    /// They begin with no head that is taken, whatever follows.
    Refused,
    /// More bytes may make them begin with one.
    Open,
}

/// The bytes in which a head has to end.
pub(crate) fn front_of(bytes: &[u8]) -> &[u8]
    ensures { result.now ≡ front bytes.now }
{
    bytes.split_at(LONGEST_MESSAGE.min(bytes.len())).0
}

/// What these bytes are to a reader of responses.
pub(crate) fn find_response(front: &[u8], fields: &mut [HeaderSpan]) -> Front<ResponseSpans>
    requires { length fields.old ≡ 64 }
    ensures { FindsResponseFront front.now fields.new result }
{
    match parse_response(front, fields) {
        Ok(Status::Complete(spans)) => Front::Whole(spans),
        Ok(Status::Partial) => {
            if Scan::of(front).lines > MOST_LINES {
                return Front::Refused;
            }
            Front::Open
        }
        Err(_) => Front::Refused,
    }
}

/// What these bytes, which were scanned, are to a reader of requests.
pub(crate) fn find_request(
    scan: Scan,
    front: &[u8],
    fields: &mut [HeaderSpan],
) -> Front<RequestSpans>
    requires room { length fields.old ≡ 64 }
    requires scanned { scan ≡ fold stepped fresh front.now }
    ensures { FindsRequestFront front.now fields.new result }
{
    if scan.lines > MOST_LINES || scan.wide {
        return Front::Refused;
    }
    match parse_request(front, fields) {
        Ok(Status::Complete(spans)) => Front::Whole(spans),
        Ok(Status::Partial) => Front::Open,
        Err(_) => Front::Refused,
    }
}
