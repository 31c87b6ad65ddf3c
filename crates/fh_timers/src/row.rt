// The row of a timer.
ghost use Rattle.std.specs.Prelude.{◌≡◌};

use fh_rows::{Key, Row};
use std::cmp::Ordering;

/// When a function's timer ran and runs. Times are in milliseconds.
#[derive(Clone, Copy, Debug, PartialEq, Eq)]
pub struct TimerRow {
    /// The function's number.
    pub function: u64,
    /// When the last run that was made ready was due.
    pub last: Option<u64>,
    /// When the next one is due.
    pub next: Option<u64>,
    /// When the row was set.
    pub updated: u64,
}

impl Row for TimerRow {
    ghost use Rattle.std.proofs.Common.{rules};
    ghost use Rattle.std.specs.Cmp.Rules.{comparing};
    ghost use Rattle.fh_timers.specs.Part.{by_function};

    ghost order = { λ a b. by_function b.function a };

    ghost total = { Prim.search (comparing, rules) };

    fn compare(&self, other: &TimerRow) -> Ordering {
        self.function.cmp(&other.function)
    }
}

/// The number of a function.
#[derive(Clone, Copy)]
pub(crate) struct Number {
    pub(crate) function: u64,
}

impl Key<TimerRow> for Number {
    ghost use Rattle.std.specs.Prelude.{None};

    ghost as_row = { λ key.
        record { function = key.function; last = None; next = None; updated = 0 } };

    fn compare(&self, row: &TimerRow) -> Ordering {
        row.function.cmp(&self.function)
    }
}
