// Where connections come in.
ghost use Rattle.std.specs.Prelude.{◌≡◌, ℕ, Bool, List, Option, IfOk, OnErr};
ghost use Rattle.fh_base.specs.Faults.{HasCause};
ghost use Rattle.fh_workers.specs.Doors.{AddsConnection, TellsSure};

use fh_base::{Both, Failed};

/// Accepts connections at a port.
pub trait Door {
    type Conn: Both + Drop;

    /// The port last aimed at, and 0 before.
    ghost facing: { Self → ℕ };

    /// The connections accepted so far, each with the port that was last aimed at before it and the bytes
    /// that it gives, where the door tells.
    ghost accepted: { Self → Option (List (ℕ × List ℕ)) };

    /// Whether it tells that no call on a connection fails.
    ghost calls_surely: { Self → Bool };

    /// How often an accept has failed.
    ghost door_faults: { Self → ℕ };

    /// Aims at another port.
    fn aim(&mut self, port: u16)
        ensures port { facing self.new ≡ port }
        ensures accepted { accepted self.new ≡ accepted self.old }
        ensures sure { calls_surely self.new ≡ calls_surely self.old }
        ensures faults { door_faults self.new ≡ door_faults self.old };

    /// Waits for the next connection.
    fn accept(&mut self) -> Result<Self::Conn, Failed>
        ensures accepted { IfOk result (λ conn. AddsConnection (facing self.old) (Self.Conn.left conn) (accepted self.old) (accepted self.new)) }
        ensures kept { OnErr result (accepted self.new ≡ accepted self.old) }
        ensures sure { IfOk result (λ conn. TellsSure (calls_surely self.old) (Self.Conn.reads_surely conn) (Self.Conn.writes_surely conn)) }
        ensures stays { calls_surely self.new ≡ calls_surely self.old }
        ensures port { facing self.new ≡ facing self.old }
        ensures cause { HasCause (door_faults self.old) (door_faults self.new) result };
}
