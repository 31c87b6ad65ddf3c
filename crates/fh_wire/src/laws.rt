// That bytes have one answer, and that what is written is read.
ghost use Rattle.std.specs.Prelude.{◌≡◌, ℕ, ◌<◌, ◌≤◌, ◌^◌, List, length, Result};
ghost use Rattle.fh_base.specs.Limits.{longest_message};
ghost use Rattle.http.specs.StatusCode.{IsStatusCode};
ghost use Rattle.fh_wire.specs.declared.fault.WireFault.{WireFault};
ghost use Rattle.fh_wire.specs.declared.request.HttpIn.{HttpIn};
ghost use Rattle.fh_wire.specs.declared.response.HttpBack.{HttpBack};
ghost use Rattle.fh_wire.specs.Messages.{RequestIs, ResponseIs};
ghost use Rattle.fh_wire.specs.Written.{request_text, response_text, IsPath, PostedIsRead, AnsweredIsRead};

/// The answer to a request's bytes is one alone, so each comes exactly where it is said to.
pub fn requests_have_one_answer()
    ensures { (bytes : List ℕ) (r q : Result HttpIn WireFault)
        → RequestIs bytes r → RequestIs bytes q → r ≡ q }
{}

/// The answer to a response's bytes is one alone.
pub fn responses_have_one_answer()
    ensures { (bytes : List ℕ) (r q : Result HttpBack WireFault)
        → ResponseIs bytes r → ResponseIs bytes q → r ≡ q }
{}

/// What `request_bytes` gives is read as the request that was asked for, where its name stands in a target
/// as it is and all of it has room.
pub fn posted_requests_are_read()
    ensures { (name : List ℕ) (port : ℕ) (body : List ℕ) → IsPath name → port < 2 ^ 16
        → length (request_text name port body) ≤ longest_message → PostedIsRead name port body }
{}

/// What `write_response` writes is read as the response that was asked for, where the status has three
/// digits and all of it has room.
pub fn written_responses_are_read()
    ensures { (status : ℕ) (body : List ℕ) → IsStatusCode status
        → length (response_text status body) ≤ longest_message → AnsweredIsRead status body }
{}
