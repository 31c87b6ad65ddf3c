// A connection in memory.
ghost use Rattle.std.specs.Prelude.{◌≡◌, false, true, Some, IfOk, is_err, length};
ghost use Rattle.std.specs.Io.{ReadsAtMost};
ghost use Rattle.std.specs.Io.KnownBytes.{ReadConsumes, WriteAppends};
ghost use Rattle.fh_base.specs.FaultPlan.{called, counted, fails_next, never_fails};
ghost use Rattle.fh_base.specs.Faults.{HasCause, KeepsSure};
ghost use Rattle.fh_base.specs.Streams.{Lowers, Takes};

use fh_base::{Both, Failed, MemorySink, MemorySource, Sink, Source};

/// A connection in memory: the bytes that come from its other end, and those that went there.
#[derive(Drop)]
pub struct MemoryConn {
    pub source: MemorySource,
    pub sink: MemorySink,
}

impl Source for MemoryConn {
    ghost use Rattle.fh_workers.specs.MemoryDoors.{left_of, kept_by_reads};

    ghost left = { λ c. Some (left_of c) };

    ghost most = { λ c. length (left_of c) };

    ghost read_faults = { λ c. c.source.plan.faults };

    ghost reads_surely = { λ c. never_fails c.source.plan };

    ghost beside_reading = { λ c. kept_by_reads c };

    fn read(&mut self, buf: &mut [u8]) -> Result<usize, Failed>
        ensures bound { ReadsAtMost result buf.new }
        ensures bytes { ReadConsumes (Some (left_of self.old)) (Some (left_of self.new)) result buf.new }
        ensures lowers { Lowers (length (left_of self.old)) (length (left_of self.new)) result }
        ensures fails { is_err result ≡ fails_next self.old.source.plan }
        ensures plan { self.new.source.plan ≡ counted self.old.source.plan }
        ensures cause { HasCause self.old.source.plan.faults self.new.source.plan.faults result }
        ensures sure { KeepsSure (never_fails self.old.source.plan) (never_fails self.new.source.plan) result }
        ensures sink { self.new.sink ≡ self.old.sink }
    {
        self.source.read(buf)
    }
}

impl Sink for MemoryConn {
    ghost use Rattle.fh_workers.specs.MemoryDoors.{written_of, kept_by_writes};

    ghost written = { λ c. Some (written_of c) };

    ghost write_faults = { λ c. c.sink.plan.faults };

    ghost writes_surely = { λ c. false };

    ghost beside_writing = { λ c. kept_by_writes c };

    fn write(&mut self, bytes: &[u8]) -> Result<usize, Failed>
        ensures takes { IfOk result (Takes bytes.now) }
        ensures bytes { WriteAppends (Some (written_of self.old)) (Some (written_of self.new)) result bytes.now }
        ensures whole { IfOk result (λ n. n ≡ length bytes.now) }
        ensures fails { fails_next self.old.sink.plan ≡ true → is_err result ≡ true }
        ensures plan { self.new.sink.plan ≡ called (is_err result) self.old.sink.plan }
        ensures cause { HasCause self.old.sink.plan.faults self.new.sink.plan.faults result }
        ensures source { self.new.source ≡ self.old.source }
    {
        self.sink.write(bytes)
    }
}

impl Both for MemoryConn {
    ghost use Rattle.std.specs.Prelude.{refl};

    ghost reading_keeps = { λ c. refl };

    ghost writing_keeps = { λ c. refl };
}
