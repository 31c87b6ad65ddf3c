// Where bytes come from.
ghost use Rattle.std.specs.Prelude.{◌<◌, IfOk, OnErr, OnSome, ◌≡◌, ℕ, ◌-◌, ◌≤◌, Bool, true, false, is_err, List, Option, None, Some, length};
ghost use Rattle.std.specs.Io.{ReadsAtMost};
ghost use Rattle.std.specs.Io.KnownBytes.{ReadConsumes, Keeps};
ghost use Rattle.fh_base.specs.Faults.{HasCause, KeepsSure};
ghost use Rattle.fh_base.specs.FaultPlan.{fails_next, counted, never_fails, raised};
ghost use Rattle.fh_base.specs.Streams.{Lowers, ReadsByte};

use crate::{Failed, FaultPlan, NoMemory};
use std::alloc::Global;
use std::io::{self, BufReader, ErrorKind, Read};

/// A stream of bytes that comes in pieces.
pub trait Source {
    /// The bytes that are left, where the source tells.
    ghost left: { Self → Option (List ℕ) };

    /// The most bytes that it may still give.
    ghost most: { Self → ℕ };

    /// How often a read has failed.
    ghost read_faults: { Self → ℕ };

    /// Whether it tells that no read fails.
    ghost reads_surely: { Self → Bool };

    /// What it holds beside what it reads, for an object that is a sink too: the bytes written, the
    /// count of faults of writing, and whether it tells that no write fails.
    ghost beside_reading: { Self → Option (List ℕ) × ℕ × Bool };

    /// Gives the next bytes in the front of the buffer, and says how many. `Ok(0)` for a buffer that
    /// isn't empty comes exactly at the end of the bytes.
    fn read(&mut self, buf: &mut [u8]) -> Result<usize, Failed>
        ensures bound { ReadsAtMost result buf.new }
        ensures bytes { ReadConsumes (left self.old) (left self.new) result buf.new }
        ensures lowers { Lowers (most self.old) (most self.new) result }
        ensures cause { HasCause (read_faults self.old) (read_faults self.new) result }
        ensures sure { KeepsSure (reads_surely self.old) (reads_surely self.new) result }
        ensures beside { beside_reading self.new ≡ beside_reading self.old };
}

/// The next byte, or `None` exactly at the end of the bytes.
pub fn read_byte<S: Source>(source: &mut S) -> Result<Option<u8>, Failed>
    ensures byte { IfOk result (ReadsByte (S.left source.old) (S.left source.new)) }
    ensures failed { OnErr result (Keeps (S.left source.old) (S.left source.new)) }
    ensures most { S.most source.new ≤ S.most source.old }
    ensures less { IfOk result (λ byte. OnSome byte (S.most source.new < S.most source.old)) }
    ensures cause { HasCause (S.read_faults source.old) (S.read_faults source.new) result }
    ensures sure { KeepsSure (S.reads_surely source.old) (S.reads_surely source.new) result }
    ensures beside { S.beside_reading source.new ≡ S.beside_reading source.old }
{
    let mut byte = [0];
    match source.read(&mut byte)? {
        0 => Ok(None),
        _ => Ok(Some(byte[0])),
    }
}

/// A source over bytes in memory. It tells what is left, and fails exactly at the reads of its plan. Where
/// the plan lists none it tells that no read fails.
#[derive(Drop)]
pub struct MemorySource {
    pub bytes: Vec<u8>,
    pub place: usize,
    pub plan: FaultPlan,
    ghost within: { place ≤ length bytes.items },
}

impl MemorySource {
    ghost use Rattle.fh_base.specs.MemoryStreams.{bytes_left};

    /// All the bytes are left.
    pub fn new(bytes: Vec<u8>, plan: FaultPlan) -> MemorySource
        ensures left { bytes_left result ≡ bytes.items }
        ensures plan { result.plan ≡ plan }
    {
        MemorySource {
            bytes,
            place: 0,
            plan,
        }
    }
}

impl Source for MemorySource {
    ghost use Rattle.fh_base.specs.FaultPlan.{never_fails};
    ghost use Rattle.fh_base.specs.MemoryStreams.{bytes_left};

    ghost left = { λ s. Some (bytes_left s) };

    ghost most = { λ s. length (bytes_left s) };

    ghost read_faults = { λ s. s.plan.faults };

    ghost reads_surely = { λ s. never_fails s.plan };

    ghost beside_reading = { λ s. (None, 0, false) };

    fn read(&mut self, buf: &mut [u8]) -> Result<usize, Failed>
        ensures bound { ReadsAtMost result buf.new }
        ensures bytes { ReadConsumes (Some (bytes_left self.old)) (Some (bytes_left self.new)) result buf.new }
        ensures fails { is_err result ≡ fails_next self.old.plan }
        ensures plan { self.new.plan ≡ counted self.old.plan }
        ensures sure { KeepsSure (never_fails self.old.plan) (never_fails self.new.plan) result }
    {
        if self.plan.fails_now() {
            return Err(Failed);
        }
        let (_given, left) = self.bytes.split_at(self.place);
        let size = buf.len().min(left.len());
        buf[..size].copy_from_slice(&left[..size]);
        self.place += size;
        Ok(size)
    }
}

/// The most bytes that a stream may give, 2^40. Endless input ends with a fault there.
const MOST: u64 = 1099511627776;

/// A source over a reader of std, as standard input. It reads ahead, tells nothing, and counts each
/// error of the reader.
#[derive(Drop)]
pub struct StreamSource<R: Read> {
    reader: BufReader<R>,
    given: u64,
    faults: u64,
    ghost within: { given ≤ 1099511627776 },
}

impl<R: Read + Drop> StreamSource<R> {
    /// Nothing is read yet. The buffer of the read-ahead is taken here.
    pub fn new(alloc: Global, reader: R) -> Result<StreamSource<R>, NoMemory>
        ensures given { IfOk result (λ source. source.given ≡ 0) }
        ensures faults { IfOk result (λ source. source.faults ≡ 0) }
    {
        match BufReader::new(alloc, reader) {
            Ok(reader) => Ok(StreamSource {
                reader,
                given: 0,
                faults: 0,
            }),
            Err(_) => Err(NoMemory),
        }
    }

    // A stream that has given so many bytes already.
    #[cfg(test)]
    pub(crate) fn with_given(
        alloc: Global,
        reader: R,
        given: u64,
    ) -> Result<StreamSource<R>, NoMemory>
        requires { given ≤ 1099511627776 }
    {
        let mut source = StreamSource::new(alloc, reader)?;
        source.given = given;
        Ok(source)
    }
}

impl<R: Read> StreamSource<R> {
    fn fail(&mut self) -> Failed
        ensures faults { self.new.faults ≡ raised self.old.faults }
        ensures given { self.new.given ≡ self.old.given }
    {
        self.faults = self.faults.saturating_add(1);
        Failed
    }
}

impl<R: Read> Source for StreamSource<R> {
    ghost left = { λ s. None };

    ghost most = { λ s. 1099511627776 - s.given };

    ghost read_faults = { λ s. s.faults };

    ghost reads_surely = { λ s. false };

    ghost beside_reading = { λ s. (None, 0, false) };

    fn read(&mut self, buf: &mut [u8]) -> Result<usize, Failed>
        ensures bound { ReadsAtMost result buf.new }
        ensures lowers { Lowers (1099511627776 - self.old.given) (1099511627776 - self.new.given) result }
        ensures ends { self.old.given ≡ 1099511627776 → 0 < length buf.old → is_err result ≡ true }
        ensures cause { HasCause self.old.faults self.new.faults result }
    {
        let room = MOST - self.given;
        let size = room.min(buf.len() as u64) as usize;
        if size == 0 && !buf.is_empty() {
            return Err(self.fail());
        }
        match read_retrying(&mut self.reader, &mut buf[..size]) {
            Ok(n) => {
                self.given += n as u64;
                Ok(n)
            }
            Err(_) => Err(self.fail()),
        }
    }
}

// Another try is due where a signal came between.
fn read_retrying<R: Read>(reader: &mut R, buf: &mut [u8]) -> io::Result<usize>
    ensures { ReadsAtMost result buf.new }
{
    for _ in 0..u64::MAX {
        match reader.read(buf) {
            Err(error) if error.kind() == ErrorKind::Interrupted => {}
            result => return result,
        }
    }
    Err(io::Error::from(ErrorKind::Interrupted))
}
