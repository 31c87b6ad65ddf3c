// Where bytes go.
ghost use Rattle.std.specs.Prelude.{◌≡◌, ℕ, Bool, false, true, ◌≤◌, List, length, Option, None, Some, IfOk, OnOk, is_err};
ghost use Rattle.std.specs.Io.KnownBytes.{WriteAppends};
ghost use Rattle.fh_base.specs.Faults.{HasCause, KeepsSure};
ghost use Rattle.fh_base.specs.FaultPlan.{fails_next, counted, called};
ghost use Rattle.fh_base.specs.Streams.{Takes, WritesAll};

use crate::{Failed, FaultPlan};
use std::alloc::Global;
use std::io::{self, ErrorKind, Write};

/// A stream of bytes that goes in pieces.
pub trait Sink {
    /// The bytes that it took, where the sink tells.
    ghost written: { Self → Option (List ℕ) };

    /// How often a write has failed.
    ghost write_faults: { Self → ℕ };

    /// Whether it tells that no write fails.
    ghost writes_surely: { Self → Bool };

    /// What it holds beside what it wrote, for an object that is a source too: the bytes left, the most
    /// that may still come, the count of faults of reading, and whether it tells that no read fails.
    ghost beside_writing: { Self → Option (List ℕ) × ℕ × ℕ × Bool };

    /// Takes bytes from the front of the piece, and says how many: at least one of a piece that isn't
    /// empty.
    fn write(&mut self, bytes: &[u8]) -> Result<usize, Failed>
        ensures takes { IfOk result (Takes bytes.now) }
        ensures bytes { WriteAppends (written self.old) (written self.new) result bytes.now }
        ensures cause { HasCause (write_faults self.old) (write_faults self.new) result }
        ensures sure { KeepsSure (writes_surely self.old) (writes_surely self.new) result }
        ensures beside { beside_writing self.new ≡ beside_writing self.old };
}

/// Writes all the bytes, piece by piece. After a failure some at the front are written, but not all.
pub fn write_all<O: Sink>(sink: &mut O, bytes: &[u8]) -> Result<(), Failed>
    ensures written { WritesAll (O.written sink.old) (O.written sink.new) result bytes.now }
    ensures cause { HasCause (O.write_faults sink.old) (O.write_faults sink.new) result }
    ensures sure { KeepsSure (O.writes_surely sink.old) (O.writes_surely sink.new) result }
    ensures beside { O.beside_writing sink.new ≡ O.beside_writing sink.old }
{
    let mut place = 0;
    while place < bytes.len() {
        let (_written, rest) = bytes.split_at(place);
        let taken = sink.write(rest)?;
        place += taken;
    }
    Ok(())
}

/// A sink into memory. It tells what it took, and fails at the writes of its plan and where memory is
/// refused.
#[derive(Drop)]
pub struct MemorySink {
    pub bytes: Vec<u8>,
    pub plan: FaultPlan,
}

impl MemorySink {
    ghost use Rattle.std.specs.Prelude.{[]};
    ghost use Rattle.fh_base.specs.MemoryStreams.{bytes_written};

    /// Nothing was written yet.
    pub fn new(alloc: Global, plan: FaultPlan) -> MemorySink
        ensures bytes { bytes_written result ≡ [] }
        ensures plan { result.plan ≡ plan }
    {
        MemorySink {
            bytes: Vec::new(alloc),
            plan,
        }
    }
}

impl Sink for MemorySink {
    ghost use Rattle.fh_base.specs.MemoryStreams.{bytes_written};

    ghost written = { λ s. Some (bytes_written s) };

    ghost write_faults = { λ s. s.plan.faults };

    ghost writes_surely = { λ s. false };

    ghost beside_writing = { λ s. (None, 0, 0, false) };

    fn write(&mut self, bytes: &[u8]) -> Result<usize, Failed>
        ensures bytes { WriteAppends (Some (bytes_written self.old)) (Some (bytes_written self.new)) result bytes.now }
        ensures whole { IfOk result (λ n. n ≡ length bytes.now) }
        ensures fails { fails_next self.old.plan ≡ true → is_err result ≡ true }
        ensures plan { self.new.plan ≡ called (is_err result) self.old.plan }
        ensures cause { HasCause self.old.plan.faults self.new.plan.faults result }
    {
        if self.plan.fails_now() {
            return Err(Failed);
        }
        match self.bytes.extend_from_slice(bytes) {
            Ok(()) => Ok(bytes.len()),
            Err(_) => {
                self.plan.fail();
                Err(Failed)
            }
        }
    }
}

/// A sink over a writer of std, as standard output. It tells nothing, and counts each error of the
/// writer.
#[derive(Drop)]
pub struct StreamSink<W: Write> {
    writer: W,
    faults: u64,
}

impl<W: Write> StreamSink<W> {
    /// Nothing is written yet.
    pub fn new(writer: W) -> StreamSink<W>
        ensures writer { result.writer ≡ writer }
        ensures faults { result.faults ≡ 0 }
    {
        StreamSink { writer, faults: 0 }
    }
}

impl<W: Write> Sink for StreamSink<W> {
    ghost written = { λ s. None };

    ghost write_faults = { λ s. s.faults };

    ghost writes_surely = { λ s. false };

    ghost beside_writing = { λ s. (None, 0, 0, false) };

    fn write(&mut self, bytes: &[u8]) -> Result<usize, Failed> {
        match write_retrying(&mut self.writer, bytes) {
            Ok(n) if 0 < n || bytes.is_empty() => Ok(n),
            _ => {
                self.faults = self.faults.saturating_add(1);
                Err(Failed)
            }
        }
    }
}

// Another try is due where a signal came between.
fn write_retrying<W: Write>(writer: &mut W, bytes: &[u8]) -> io::Result<usize>
    ensures { IfOk result (λ n. n ≤ length bytes.now) }
{
    for _ in 0..u64::MAX {
        match writer.write(bytes) {
            Err(error) if error.kind() == ErrorKind::Interrupted => {}
            result => return result,
        }
    }
    Err(io::Error::from(ErrorKind::Interrupted))
}
