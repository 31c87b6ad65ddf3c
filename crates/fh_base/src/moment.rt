// A moment, the time by which every command acts.
ghost use Rattle.std.specs.Prelude.{◌≡◌, ◌<◌, ◌≤◌, MatchOption};

use std::marker::Model;

const GREATEST: u64 = 253402300799999;

/// A moment in milliseconds since 1970-01-01T00:00:00Z, at most 253402300799999, which is the last
/// millisecond of the year 9999. Contracts see the number.
#[derive(Clone, Copy, Debug, PartialEq, Eq, PartialOrd, Ord)]
pub struct Moment {
    milliseconds: u64,
}

impl Model for Moment {
    ghost use Rattle.std.specs.Prelude.{ℕ, ◌≤◌};

    ghost Value = { ℕ };

    ghost use Rattle.fh_base.specs.Moments.{greatest_moment};

    ghost view = { λ a. a.milliseconds };

    ghost invariant = { λ a. a.milliseconds ≤ greatest_moment };

    ghost inverse = { λ m. record { milliseconds = m } };
}

impl Moment {
    ghost use Rattle.fh_base.specs.Moments.{greatest_moment};

    /// The moment, or `None` exactly where the number is too great.
    pub fn new(ms: u64) -> Option<Moment>
        ensures { MatchOption result (greatest_moment < ms) (λ m. (ms ≤ greatest_moment) × (m ≡ ms)) }
    {
        if ms > GREATEST {
            return None;
        }
        Some(Moment { milliseconds: ms })
    }

    pub fn ms(self) -> u64
        ensures number { result ≡ self }
        ensures range { result ≤ greatest_moment }
    {
        self.milliseconds
    }
}
