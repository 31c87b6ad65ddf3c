// A link in memory, which has its replies from the start.
ghost use Rattle.std.specs.Prelude.{◌≡◌, [], ◌∷◌, ◌++◌, Some, Err, true, false, take, ◌≤◌, length, IfOk, OnOk, OnErr};
ghost use Rattle.fh_workers.specs.Links.{Records, TakesReply, AskHasCause};

use crate::{Link, LinkFault};
use fh_base::{Bytes, FaultPlan};
use std::alloc::Global;
use std::collections::VecDeque;

/// The most bytes of a reply that a link gives.
const MOST: usize = 2097153;

/// A link in memory. It gives its replies in order, each cut at the most that a link gives, and fails
/// exactly at the asks of its plan and after the last reply. An ask that fails takes no reply.
#[derive(Drop)]
pub struct MemoryLink {
    alloc: Global,
    pub port: u16,
    pub asked: Vec<Bytes>,
    pub replies: VecDeque<Bytes>,
    pub plan: FaultPlan,
}

impl MemoryLink {
    /// Nothing was asked yet.
    pub fn new(alloc: Global, replies: VecDeque<Bytes>, plan: FaultPlan) -> MemoryLink
        ensures port { result.port ≡ 0 }
        ensures asked { result.asked.items ≡ [] }
        ensures replies { result.replies ≡ replies }
        ensures plan { result.plan ≡ plan }
    {
        MemoryLink {
            alloc,
            port: 0,
            asked: Vec::new(alloc),
            replies,
            plan,
        }
    }
}

impl Link for MemoryLink {
    ghost use Rattle.fh_workers.specs.MemoryLinks.{asked_once, fails_to_ask, to_come_of};

    ghost aimed = { λ l. l.port };

    ghost asked = { λ l. Some l.asked.items };

    ghost to_come = { λ l. Some (to_come_of l) };

    ghost link_faults = { λ l. l.plan.faults };

    fn aim(&mut self, port: u16) {
        self.port = port;
    }

    fn port(&self) -> u16 {
        self.port
    }

    fn ask(&mut self, request: &[u8]) -> Result<Bytes, LinkFault>
        ensures bound { IfOk result (λ reply. length reply ≤ 2097153) }
        ensures port { self.new.port ≡ self.old.port }
        ensures asked { Records request.now (Some self.old.asked.items) (Some self.new.asked.items) result }
        ensures replies { TakesReply (Some (to_come_of self.old)) (Some (to_come_of self.new)) result }
        ensures cause { AskHasCause self.old.plan.faults self.new.plan.faults result }
        ensures passes { IfOk result (λ reply. fails_to_ask self.old ≡ false) }
        ensures fails { result ≡ Err LinkFault.Failed → fails_to_ask self.old ≡ true }
        ensures plan { self.new.plan ≡ asked_once result self.old.plan }
    {
        if let Err(refused) = add_request(&mut self.asked, self.alloc, request) {
            self.plan.calls = self.plan.calls.saturating_add(1);
            return Err(refused);
        }
        if self.plan.fails_now() {
            return Err(LinkFault::Failed);
        }
        match self.replies.pop_front() {
            Some(reply) => Ok(cut(reply)),
            None => {
                self.plan.fail();
                Err(LinkFault::Failed)
            }
        }
    }
}

fn add_request(asked: &mut Vec<Bytes>, alloc: Global, request: &[u8]) -> Result<(), LinkFault>
    ensures added { OnOk result (asked.new.items ≡ asked.old.items ++ request.now ∷ []) }
    ensures kept { OnErr result (asked.new.items ≡ asked.old.items) }
    ensures memory { OnErr result (result ≡ Err LinkFault.NoMemory) }
{
    let Ok(request) = Bytes::from_slice(alloc, request) else {
        return Err(LinkFault::NoMemory);
    };
    match asked.push(request) {
        Ok(()) => Ok(()),
        Err(_) => Err(LinkFault::NoMemory),
    }
}

// The front of a reply, as far as a link gives it.
pub(crate) fn cut(reply: Bytes) -> Bytes
    ensures front { result ≡ take 2097153 reply }
    ensures bound { length result ≤ 2097153 }
{
    let mut bytes = reply.into_vec();
    bytes.truncate(MOST);
    Bytes::new(bytes)
}
