// Who makes steps for others, one after another.
ghost use Rattle.std.specs.Prelude.{◌≡◌, ◌≤◌, ◌∷◌, ◌++◌, [], ℕ, List, IsErrOf};
ghost use Rattle.fh_base.specs.Faults.{Rose};
ghost use Rattle.fh_hub.specs.Turns.{Turn, turn_of};

use fh_event::{Command, Reply, StepFault};
use std::alloc::Global;

/// What makes steps: a hub, or whatever stands in front of one.
pub trait Caller {
    /// How often a call has failed for the disk.
    ghost call_faults: { Self → ℕ };

    /// These turns, in order, lead from one value to another. For a caller that doesn't tell it always
    /// holds.
    ghost made: { Self → List Turn → Self → Type 0 };

    /// Makes one step at a moment in milliseconds.
    fn call(&mut self, alloc: Global, command: &Command, now: u64) -> Result<Reply, StepFault>
        ensures made { made self.old (turn_of command.now now result (call_faults self.new) ∷ []) self.new }
        ensures fault { IsErrOf result StepFault.DiskFault → Rose (call_faults self.old) (call_faults self.new) }
        ensures count { call_faults self.old ≤ call_faults self.new };

    /// No turns lead from each value to itself.
    ghost stays: { (x : Self) → made x [] x };

    /// Turns that follow each other are one list.
    ghost joins: { (x y z : Self) (first later : List Turn)
        → made x first y → made y later z → made x (first ++ later) z };
}
