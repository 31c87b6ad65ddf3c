// The response to a request.
ghost use Rattle.std.specs.Prelude.{◌≡◌, [], IfOk, option_map};
ghost use Rattle.serde_json.specs.View.{view};
ghost use Rattle.serde_json.specs.Written.{compact_text};
ghost use Rattle.fh_event.specs.Lines.{reply_line};
ghost use Rattle.fh_front.specs.Responses.{response_of, reply_status, reply_body, reply_json, rule_status, error_body, fault_status, fault_name, front_response, wire_response};

use crate::fault::FrontFault;
use fh_base::{NoMemory, Rule};
use fh_event::{Reply, StepFault, answer_text};
use fh_wire::WireFault;
use serde_json::{Map, Value, json};
use std::alloc::Global;

/// The status and the body of the response to an answer: for a reply compact JSON with the member `reply`,
/// whose value is the line that a script prints, and for a fault with the member `error`, which names it.
/// A response of status 204 has no body.
pub fn response_of(
    alloc: Global,
    answer: &Result<Reply, StepFault>,
) -> Result<(u16, Vec<u8>), NoMemory>
    ensures { IfOk result (λ response. (response.0, response.1.items) ≡ response_of answer.now) }
{
    match answer {
        Ok(reply) => {
            let body = reply_body(alloc, reply)?;
            Ok((reply_status(reply), body))
        }
        Err(fault) => {
            let body = error_body(alloc, fault_name(*fault))?;
            Ok((fault_status(*fault), body))
        }
    }
}

#[tactic(auto, unfolding(crate::specs::Responses::reply_status))]
fn reply_status(reply: &Reply) -> u16
    ensures { result ≡ reply_status reply.now }
{
    match reply {
        Reply::Made => 201,
        Reply::There => 204,
        Reply::Stored { .. } => 201,
        Reply::BlobStored { .. } => 201,
        _ => 200,
    }
}

#[tactic(auto, unfolding(crate::specs::Responses::reply_body))]
fn reply_body(alloc: Global, reply: &Reply) -> Result<Vec<u8>, NoMemory>
    ensures { IfOk result (λ body. body.items ≡ reply_body reply.now) }
{
    match reply {
        Reply::There => Ok(Vec::new(alloc)),
        _ => line_body(alloc, reply),
    }
}

// A reply's line in JSON.
fn line_body(alloc: Global, reply: &Reply) -> Result<Vec<u8>, NoMemory>
    ensures { IfOk result (λ body. body.items ≡ compact_text (reply_json (reply_line reply.now))) }
{
    let line = answer_text(alloc, Ok(reply))?;
    let json = reply_json(alloc, line.as_str())?;
    let body = json.to_string(alloc)?;
    Ok(body.into_bytes())
}

fn reply_json(alloc: Global, line: &str) -> Result<Value, NoMemory>
    ensures { IfOk result (λ json. view json ≡ reply_json line.now) }
{
    let mut members = Map::new(alloc);
    serde_json::put(&mut members, alloc, "reply", json!(in alloc; line)?)?;
    Ok(Value::Object(members))
}

#[tactic(auto, unfolding(crate::specs::Responses::error_body))]
fn error_body(alloc: Global, name: &str) -> Result<Vec<u8>, NoMemory>
    ensures { IfOk result (λ body. body.items ≡ error_body name.now) }
{
    let body = format!(in alloc; "{{\"error\":\"{name}\"}}")?;
    Ok(body.into_bytes())
}

fn fault_status(fault: StepFault) -> u16
    ensures { result ≡ fault_status fault }
{
    match fault {
        StepFault::Rule(rule) => rule_status(rule),
        StepFault::NoMemory => 500,
        StepFault::DiskFault => 503,
    }
}

fn fault_name(fault: StepFault) -> &'static str
    ensures { result.now ≡ fault_name fault }
{
    match fault {
        StepFault::Rule(rule) => rule.name(),
        StepFault::NoMemory => "NoMemory",
        StepFault::DiskFault => "DiskFault",
    }
}

fn rule_status(rule: Rule) -> u16
    ensures { result ≡ rule_status rule }
{
    match rule {
        Rule::MomentTooLate => 400,
        Rule::BadName => 400,
        Rule::TooLarge { .. } => 413,
        Rule::OutOfRange { .. } => 400,
        Rule::NoSuchFunction => 404,
        Rule::QueueNotFound => 404,
        Rule::BlobNotFound => 404,
        Rule::MessageNotFound => 404,
        Rule::NoSuchInvocation => 404,
        Rule::PopReceiptMismatch { .. } => 400,
        Rule::LeaseHeld { .. } => 409,
        Rule::LeaseMismatch { .. } => 409,
        Rule::StoreFull { .. } => 507,
        Rule::JournalFull { .. } => 507,
        Rule::OldJournal { .. } => 409,
        Rule::TokensFull { .. } => 507,
        Rule::BadZone => 400,
    }
}

/// The status and the body of the response to a request that is no command. Takes no memory.
pub fn fault_response(fault: &FrontFault) -> (u16, &'static [u8])
    ensures { (result.0, result.1.now) ≡ front_response fault.now }
{
    match fault {
        FrontFault::NoRoute => (404, b"{\"error\":\"NoRoute\"}"),
        FrontFault::BadMethod => (405, b"{\"error\":\"BadMethod\"}"),
        FrontFault::BadQuery => (400, b"{\"error\":\"BadQuery\"}"),
        FrontFault::BadBody => (400, b"{\"error\":\"BadBody\"}"),
        FrontFault::NoMemory => (500, b"{\"error\":\"NoMemory\"}"),
    }
}

/// The status and the body of the response to a request that can't be read, or none where a call on its
/// connection failed, so that nothing is answered. Takes no memory.
pub fn wire_response(fault: &WireFault) -> Option<(u16, &'static [u8])>
    ensures { option_map (λ response. (response.0, response.1.now)) result ≡ wire_response fault.now }
{
    match fault {
        WireFault::BadHead => Some((400, b"{\"error\":\"BadHead\"}")),
        WireFault::BadLength => Some((400, b"{\"error\":\"BadLength\"}")),
        WireFault::TooLong => Some((413, b"{\"error\":\"TooLong\"}")),
        WireFault::Cut { .. } => Some((400, b"{\"error\":\"Cut\"}")),
        WireFault::Chunked => Some((411, b"{\"error\":\"Chunked\"}")),
        WireFault::Coded => Some((415, b"{\"error\":\"Coded\"}")),
        WireFault::ReadFault | WireFault::WriteFault => None,
        WireFault::NoMemory => Some((500, b"{\"error\":\"NoMemory\"}")),
    }
}

/// The status and the body of the response to a stop. Takes no memory.
pub fn stop_response() -> (u16, &'static [u8])
    ensures status { result.0 ≡ 202 }
    ensures body { result.1.now ≡ [] }
{
    (202, b"")
}
