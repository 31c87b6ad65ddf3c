// Serving one connection of the front.
ghost use Rattle.std.specs.Prelude.{◌≡◌, Some, Result, option_map};
ghost use Rattle.fh_wire.specs.declared.fault.WireFault.{WireFault as Unwritten};
ghost use Rattle.fh_front.specs.Responses.{response_of, front_response, wire_response};
ghost use Rattle.fh_hub.specs.Turns.{Turn};
ghost use Rattle.fh_runner.specs.Connections.{stop_response, end_of};
ghost use Rattle.fh_runner.specs.Serving.{AnswersRequest, Serves, Turns, Writes, way};

use crate::front_end::FrontEnd;
use fh_base::{Both, Sink};
use fh_event::{Command, Reply, StepFault};
use fh_front::{
    FrontAsk, FrontFault, Routes, command_of, fault_response, response_of, stop_response,
    wire_response,
};
use fh_hub::Caller;
use fh_wire::{HttpIn, WireFault, read_request, write_response};
use std::alloc::Global;

/// Serves one connection: reads its request, makes the turn with its command at a moment in milliseconds,
/// and writes the response to the turn's answer.
///
/// A request that can't be read or is no command makes no turn and gets the response to its fault, but none
/// where a call on the connection failed. A stop makes no turn and gets status 202. Where a write fails,
/// bytes at the front of the response are written, but not all; where memory is refused for it, none.
pub fn front_over<C: Caller, T: Both>(
    alloc: Global,
    caller: &mut C,
    routes: &Routes,
    conn: &mut T,
    now: u64,
) -> FrontEnd
    ensures { Serves C.made C.call_faults caller.old caller.new
        (way (T.left conn.old) (T.read_faults conn.old) (T.reads_surely conn.old))
        (way (T.left conn.new) (T.read_faults conn.new) (T.reads_surely conn.new))
        (way (T.written conn.old) (T.write_faults conn.old) (T.writes_surely conn.old))
        (way (T.written conn.new) (T.write_faults conn.new) (T.writes_surely conn.new))
        now result }
{
    match read_request(alloc, conn) {
        Ok(request) => answer_request(alloc, caller, routes, conn, &request, now),
        Err(fault) => {
            let _sent = write_unread(alloc, conn, &fault);
            FrontEnd::Fault(fault)
        }
    }
}

// Answers a request that was read.
fn answer_request<C: Caller, O: Sink>(
    alloc: Global,
    caller: &mut C,
    routes: &Routes,
    sink: &mut O,
    request: &HttpIn,
    now: u64,
) -> FrontEnd
    ensures answers { AnswersRequest C.made C.call_faults caller.old caller.new
        (way (O.written sink.old) (O.write_faults sink.old) (O.writes_surely sink.old))
        (way (O.written sink.new) (O.write_faults sink.new) (O.writes_surely sink.new))
        request.now now result }
    ensures beside { O.beside_writing sink.new ≡ O.beside_writing sink.old }
{
    match command_of(alloc, routes, request) {
        Ok(FrontAsk::Ask(command)) => take_turn(alloc, caller, sink, &command, now),
        Ok(FrontAsk::Stop) => {
            let _sent = write_stop(alloc, sink);
            FrontEnd::Stop
        }
        Err(fault) => end_of(write_refusal(alloc, sink, &fault)),
    }
}

// Makes one turn with a command, and writes the response to its answer.
fn take_turn<C: Caller, O: Sink>(
    alloc: Global,
    caller: &mut C,
    sink: &mut O,
    command: &Command,
    now: u64,
) -> FrontEnd
    ensures turns { Turns C.made C.call_faults caller.old caller.new
        (way (O.written sink.old) (O.write_faults sink.old) (O.writes_surely sink.old))
        (way (O.written sink.new) (O.write_faults sink.new) (O.writes_surely sink.new))
        command.now now result }
    ensures beside { O.beside_writing sink.new ≡ O.beside_writing sink.old }
{
    let answer = caller.call(alloc, command, now);
    end_of(write_answer(alloc, sink, &answer))
}

fn end_of(sent: Result<(), WireFault>) -> FrontEnd
    ensures { result ≡ end_of sent }
{
    match sent {
        Ok(()) => FrontEnd::Served,
        Err(unsent) => FrontEnd::Fault(unsent),
    }
}

// Writes the response to the answer of a turn.
fn write_answer<O: Sink>(
    alloc: Global,
    sink: &mut O,
    answer: &Result<Reply, StepFault>,
) -> Result<(), WireFault>
    ensures writes { Writes
        (way (O.written sink.old) (O.write_faults sink.old) (O.writes_surely sink.old))
        (way (O.written sink.new) (O.write_faults sink.new) (O.writes_surely sink.new))
        (Some (response_of answer.now)) result }
    ensures beside { O.beside_writing sink.new ≡ O.beside_writing sink.old }
{
    let Ok((status, body)) = response_of(alloc, answer) else {
        return Err(WireFault::NoMemory);
    };
    write_response(alloc, sink, status, body.as_slice())
}

// Writes the response to a stop.
fn write_stop<O: Sink>(alloc: Global, sink: &mut O) -> Result<(), WireFault>
    ensures writes { Writes
        (way (O.written sink.old) (O.write_faults sink.old) (O.writes_surely sink.old))
        (way (O.written sink.new) (O.write_faults sink.new) (O.writes_surely sink.new))
        (Some stop_response) result }
    ensures beside { O.beside_writing sink.new ≡ O.beside_writing sink.old }
{
    let (status, body) = stop_response();
    write_response(alloc, sink, status, body)
}

// Writes the response to a request that is no command.
fn write_refusal<O: Sink>(alloc: Global, sink: &mut O, fault: &FrontFault) -> Result<(), WireFault>
    ensures writes { Writes
        (way (O.written sink.old) (O.write_faults sink.old) (O.writes_surely sink.old))
        (way (O.written sink.new) (O.write_faults sink.new) (O.writes_surely sink.new))
        (Some (front_response fault.now)) result }
    ensures beside { O.beside_writing sink.new ≡ O.beside_writing sink.old }
{
    let (status, body) = fault_response(fault);
    write_response(alloc, sink, status, body)
}

// Writes the response to a request that can't be read, where it gets one.
fn write_unread<O: Sink>(alloc: Global, sink: &mut O, fault: &WireFault) -> Result<(), WireFault>
    ensures writes { Writes
        (way (O.written sink.old) (O.write_faults sink.old) (O.writes_surely sink.old))
        (way (O.written sink.new) (O.write_faults sink.new) (O.writes_surely sink.new))
        (wire_response fault.now) result }
    ensures beside { O.beside_writing sink.new ≡ O.beside_writing sink.old }
{
    match wire_response(fault) {
        Some((status, body)) => write_response(alloc, sink, status, body),
        None => Ok(()),
    }
}
