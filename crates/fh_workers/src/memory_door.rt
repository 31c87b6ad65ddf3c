// A door in memory, which has its connections from the start.
ghost use Rattle.std.specs.Prelude.{◌≡◌, ◌∷◌, ◌++◌, [], Some, true, false, IfOk, OnOk, OnErr, is_err};
ghost use Rattle.fh_base.specs.Faults.{HasCause};
ghost use Rattle.fh_base.specs.FaultPlan.{called, never_fails};
ghost use Rattle.fh_workers.specs.MemoryDoors.{left_of, written_of};

use crate::{Door, MemoryConn};
use fh_base::{Bytes, Failed, Failing, FaultPlan, MemorySink, MemorySource, NoMemory};
use std::alloc::Global;
use std::collections::VecDeque;

/// A door in memory. Its connections come in order. It fails at the accepts of its plan, after the last
/// connection, and where memory is refused. An accept that fails takes no connection.
#[derive(Drop)]
pub struct MemoryDoor {
    alloc: Global,
    pub port: u16,
    pub accepted: Vec<(u16, Bytes)>,
    /// The bytes that each of the connections to come gives.
    pub coming: VecDeque<Bytes>,
    pub plan: FaultPlan,
}

impl MemoryDoor {
    /// Nothing was accepted yet.
    pub fn new(alloc: Global, coming: VecDeque<Bytes>, plan: FaultPlan) -> MemoryDoor
        ensures port { result.port ≡ 0 }
        ensures accepted { result.accepted.items ≡ [] }
        ensures coming { result.coming ≡ coming }
        ensures plan { result.plan ≡ plan }
    {
        MemoryDoor {
            alloc,
            port: 0,
            accepted: Vec::new(alloc),
            coming,
            plan,
        }
    }
}

impl Door for MemoryDoor {
    ghost use Rattle.fh_workers.specs.MemoryDoors.{fails_to_accept};

    type Conn = MemoryConn;

    ghost facing = { λ d. d.port };

    ghost accepted = { λ d. Some d.accepted.items };

    ghost calls_surely = { λ d. false };

    ghost door_faults = { λ d. d.plan.faults };

    fn aim(&mut self, port: u16)
        ensures port { self.new ≡ record self.old { port = port } }
    {
        self.port = port;
    }

    fn accept(&mut self) -> Result<MemoryConn, Failed>
        ensures accepted { IfOk result (λ conn. self.new.accepted.items ≡ self.old.accepted.items ++ (self.old.port, left_of conn) ∷ []) }
        ensures kept { OnErr result (self.new.accepted.items ≡ self.old.accepted.items) }
        ensures next { IfOk result (λ conn. self.old.coming.items ≡ left_of conn ∷ self.new.coming.items) }
        ensures waits { OnErr result (self.new.coming.items ≡ self.old.coming.items) }
        ensures unwritten { IfOk result (λ conn. written_of conn ≡ []) }
        ensures reads { IfOk result (λ conn. never_fails conn.source.plan ≡ true) }
        ensures writes { IfOk result (λ conn. never_fails conn.sink.plan ≡ true) }
        ensures fails { fails_to_accept self.old ≡ true → is_err result ≡ true }
        ensures plan { self.new.plan ≡ called (is_err result) self.old.plan }
        ensures port { self.new.port ≡ self.old.port }
        ensures cause { HasCause self.old.plan.faults self.new.plan.faults result }
    {
        if self.plan.fails_now() {
            return Err(Failed);
        }
        match take(self.alloc, self.port, &mut self.accepted, &mut self.coming) {
            Ok(bytes) => Ok(conn_of(self.alloc, bytes)),
            Err(_) => {
                self.plan.fail();
                Err(Failed)
            }
        }
    }
}

// Takes the next connection's bytes and notes them, or answers that there is none or no memory.
fn take(
    alloc: Global,
    port: u16,
    accepted: &mut Vec<(u16, Bytes)>,
    coming: &mut VecDeque<Bytes>,
) -> Result<Bytes, NoMemory>
    ensures accepted { IfOk result (λ bytes. accepted.new.items ≡ accepted.old.items ++ (port, bytes) ∷ []) }
    ensures kept { OnErr result (accepted.new.items ≡ accepted.old.items) }
    ensures next { IfOk result (λ bytes. coming.old.items ≡ bytes ∷ coming.new.items) }
    ensures waits { OnErr result (coming.new.items ≡ coming.old.items) }
{
    let Some(next) = coming.front() else {
        return Err(NoMemory);
    };
    let noted = Bytes::from_slice(alloc, next.as_slice())?;
    let Ok(()) = accepted.push((port, noted)) else {
        return Err(NoMemory);
    };
    coming.pop_front().ok_or(NoMemory)
}

// A connection that gives these bytes, and on which no call fails by plan.
fn conn_of(alloc: Global, bytes: Bytes) -> MemoryConn
    ensures left { left_of result ≡ bytes }
    ensures written { written_of result ≡ [] }
    ensures reads { never_fails result.source.plan ≡ true }
    ensures writes { never_fails result.sink.plan ≡ true }
{
    MemoryConn {
        source: MemorySource::new(bytes.into_vec(), no_faults(alloc)),
        sink: MemorySink::new(alloc, no_faults(alloc)),
    }
}

fn no_faults(alloc: Global) -> FaultPlan
    ensures { never_fails result ≡ true }
{
    FaultPlan::new(Failing::Listed {
        calls: Vec::new(alloc),
    })
}
