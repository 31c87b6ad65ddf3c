// How a worker is asked.
ghost use Rattle.std.specs.Prelude.{◌≡◌, ℕ, ◌≤◌, List, Option, IfOk, length};
ghost use Rattle.fh_workers.specs.Links.{Records, TakesReply, AskHasCause};

use fh_base::Bytes;

/// Why an ask has no reply.
#[derive(Clone, Copy, Debug, PartialEq, Eq)]
pub enum LinkFault {
    Failed,
    NoMemory,
}

/// A worker that is asked over a port.
pub trait Link {
    /// The port last aimed at, and 0 before.
    ghost aimed: { Self → ℕ };

    /// The requests asked, where the link tells.
    ghost asked: { Self → Option (List (List ℕ)) };

    /// The replies to come, each of them bytes or a failure, where the link tells.
    ghost to_come: { Self → Option (List (Option (List ℕ))) };

    /// How often an ask has failed.
    ghost link_faults: { Self → ℕ };

    /// Aims at another port.
    fn aim(&mut self, port: u16)
        ensures port { aimed self.new ≡ port }
        ensures asked { asked self.new ≡ asked self.old }
        ensures replies { to_come self.new ≡ to_come self.old }
        ensures faults { link_faults self.new ≡ link_faults self.old };

    /// The port last aimed at.
    fn port(&self) -> u16
        ensures { result ≡ aimed self.now };

    /// Sends a request and gives the reply's bytes up to its end, at most one more than a message may have.
    fn ask(&mut self, request: &[u8]) -> Result<Bytes, LinkFault>
        ensures bound { IfOk result (λ reply. length reply ≤ 2097153) }
        ensures asked { Records request.now (asked self.old) (asked self.new) result }
        ensures replies { TakesReply (to_come self.old) (to_come self.new) result }
        ensures cause { AskHasCause (link_faults self.old) (link_faults self.new) result }
        ensures port { aimed self.new ≡ aimed self.old };
}
