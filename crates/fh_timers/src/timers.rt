// The timers, as they are kept, and what is read of them.
ghost use Rattle.std.specs.Prelude.{◌≡◌, option_copied};
ghost use Rattle.fh_timers.specs.Part.{no_timers, row_of};
ghost use Rattle.fh_timers.specs.Edits.{IsIdle};

use crate::TimerRow;
use crate::row::Number;
use fh_rows::Rows;
use std::alloc::Global;
use std::marker::Model;

/// Rows of timers in order of function number.
#[derive(Drop)]
pub struct Timers {
    pub(crate) rows: Rows<TimerRow>,
}

impl Model for Timers {
    ghost use Rattle.fh_timers.specs.Edits.{TimerState};

    ghost Value = { TimerState };

    ghost view = { λ t. record { part = record { timers = t.rows.rows }; room = t.rows.room } };
}

impl Timers {
    /// No timers. Takes no memory.
    pub fn new(alloc: Global) -> Timers
        ensures part { result.part ≡ no_timers }
        ensures idle { IsIdle result }
    {
        Timers {
            rows: Rows::new(alloc),
        }
    }

    /// The row of a function. Takes no memory.
    pub fn row(&self, function: u64) -> Option<&TimerRow>
        ensures { option_copied result ≡ row_of function self.now.part.timers }
    {
        self.rows.get(&Number { function })
    }
}
