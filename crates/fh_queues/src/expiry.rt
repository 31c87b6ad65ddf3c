// When a message expires.
ghost use Rattle.std.specs.Prelude.{◌≡◌, ◌<◌, ◌-◌, ◌^◌, Some, None};

use crate::lane::NEVER;
use std::marker::Model;

/// The moment in milliseconds from which on a message is no longer live, or none where it is for good.
/// Contracts see the option.
#[derive(Drop)]
pub struct Expiry {
    // The greatest number stands for none.
    ms: u64,
}

impl Model for Expiry {
    ghost use Rattle.std.specs.Prelude.{ℕ, ◌==◌, Option, Some, None, if◌then◌else◌};

    ghost Value = { Option ℕ };

    ghost view = { λ e. if e.ms == 18446744073709551615 then None else Some e.ms };
}

impl Expiry {
    pub(crate) fn never() -> Expiry
        ensures { result ≡ None }
    {
        Expiry { ms: NEVER }
    }

    pub(crate) fn at(ms: u64) -> Expiry
        requires { ms < 2 ^ 64 - 1 }
        ensures { result ≡ Some ms }
    {
        Expiry { ms }
    }

    pub fn get(&self) -> Option<u64>
        ensures { result ≡ self.now }
    {
        if self.ms == NEVER {
            return None;
        }
        Some(self.ms)
    }
}
