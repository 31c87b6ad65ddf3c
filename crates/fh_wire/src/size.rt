// How many of the bytes behind a head are its body.
ghost use Rattle.std.specs.Prelude.{◌≡◌, ◌+◌, ◌≤◌, ◌<◌, ◌^◌, IfOk};
ghost use Rattle.fh_wire.specs.Sizes.{unfinished, fitting, request_needs, response_needs};

use crate::fault::WireFault;
use crate::fields::Framing;
use fh_base::LONGEST_MESSAGE;

/// The fault of bytes that end before their head does.
pub(crate) fn unfinished(got: usize) -> WireFault
    ensures { result ≡ unfinished got }
{
    if got > LONGEST_MESSAGE {
        return WireFault::TooLong;
    }
    WireFault::Cut {
        got: got as u64,
        needed: 0,
    }
}

/// How many bytes are needed behind a request's head of this length.
pub(crate) fn request_needs(framing: Framing, head: usize) -> Result<usize, WireFault>
    requires { head ≤ 2097152 }
    ensures size { result ≡ request_needs framing head }
    ensures within { IfOk result (λ needed. head + needed ≤ 2097152) }
{
    let given = framing.stated()?;
    fitting(head, given.unwrap_or(0))
}

/// How many bytes are needed behind a response's head of this length, behind which so many have come.
pub(crate) fn response_needs(framing: Framing, head: usize, got: usize) -> Result<usize, WireFault>
    requires head { head ≤ 2097152 }
    requires got { got < 2 ^ 63 }
    ensures size { result ≡ response_needs framing head got }
    ensures within { IfOk result (λ needed. head + needed ≤ 2097152) }
{
    let given = framing.stated()?;
    if head + got > LONGEST_MESSAGE {
        return Err(WireFault::TooLong);
    }
    fitting(head, given.unwrap_or(got as u64))
}

// A body of so many bytes behind a head of this length.
fn fitting(head: usize, needed: u64) -> Result<usize, WireFault>
    requires { head ≤ 2097152 }
    ensures size { result ≡ fitting head needed }
    ensures within { IfOk result (λ size. head + size ≤ 2097152) }
{
    if needed > (LONGEST_MESSAGE - head) as u64 {
        return Err(WireFault::TooLong);
    }
    Ok(needed as usize)
}
