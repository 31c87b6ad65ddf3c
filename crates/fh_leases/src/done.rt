// What the leases answer.
ghost use Rattle.std.specs.Prelude.{◌≡◌};

use std::marker::Model;

/// Moments in milliseconds, in the order of what was asked.
#[derive(Drop)]
pub struct Moments {
    moments: Vec<u64>,
}

impl Model for Moments {
    ghost use Rattle.std.specs.Prelude.{List, ℕ};

    ghost Value = { List ℕ };

    ghost view = { λ m. m.moments.items };
}

impl Moments {
    /// Takes no memory.
    pub fn new(moments: Vec<u64>) -> Moments
        ensures { result ≡ moments.items }
    {
        Moments { moments }
    }

    pub fn as_slice(&self) -> &[u64]
        ensures { result.now ≡ self.now }
    {
        self.moments.as_slice()
    }
}

/// What was done. Moments are in milliseconds.
#[derive(Drop)]
pub enum LeaseDone {
    /// The holder holds the lease until that moment.
    Acquired { until: u64 },
    /// It goes on until that moment.
    Renewed { until: u64 },
    /// The lease is nobody's.
    Released,
    /// Each goes on until its moment.
    AllRenewed { untils: Moments },
    Nothing,
}
