// Answering one connection.
ghost use Rattle.std.specs.Prelude.{◌≡◌};
ghost use Rattle.fh_sample.specs.Turns.{AnswersSample, WritesSample, way};

use fh_base::{Both, Sink};
use fh_wire::{WireFault, read_request, write_response};
use std::alloc::Global;

/// What a function answers that has no outputs and returns nothing.
const BODY: &str = "{\"Outputs\":{},\"Logs\":[\"ok\"],\"ReturnValue\":null}";

/// Reads a request and answers it. Where it can't be read, nothing is written.
pub fn sample_turn<T: Both>(alloc: Global, conn: &mut T) -> Result<(), WireFault>
    ensures { AnswersSample
        (way (T.left conn.old) (T.read_faults conn.old) (T.reads_surely conn.old))
        (way (T.left conn.new) (T.read_faults conn.new) (T.reads_surely conn.new))
        (way (T.written conn.old) (T.write_faults conn.old) (T.writes_surely conn.old))
        (way (T.written conn.new) (T.write_faults conn.new) (T.writes_surely conn.new))
        result }
{
    match read_request(alloc, conn) {
        Ok(_request) => respond(alloc, conn),
        Err(fault) => Err(fault),
    }
}

// Writes the response, which is the same to every request.
fn respond<O: Sink>(alloc: Global, sink: &mut O) -> Result<(), WireFault>
    ensures writes { WritesSample
        (way (O.written sink.old) (O.write_faults sink.old) (O.writes_surely sink.old))
        (way (O.written sink.new) (O.write_faults sink.new) (O.writes_surely sink.new)) result }
    ensures beside { O.beside_writing sink.new ≡ O.beside_writing sink.old }
{
    write_response(alloc, sink, 200, BODY.as_bytes())
}
