// The row of a lease.
ghost use Rattle.std.specs.Prelude.{◌≡◌, IfOk};

use fh_base::{NoMemory, Text};
use fh_rows::{Key, Row};
use std::alloc::Global;
use std::cmp::Ordering;

/// A lease, as its last holder has it or had it.
#[derive(Drop)]
pub struct Lease {
    pub name: Text,
    pub holder: u64,
    /// For how long each acquisition and each renewal is.
    pub seconds: u8,
    /// The moment at which it expires, in milliseconds.
    pub until: u64,
}

impl Lease {
    /// The same lease until another moment.
    pub(crate) fn copy_until(&self, alloc: Global, until: u64) -> Result<Lease, NoMemory>
        ensures { IfOk result (λ lease. lease ≡ record self.now { until = until }) }
    {
        let name = self.name.copy(alloc)?;
        Ok(Lease {
            name,
            holder: self.holder,
            seconds: self.seconds,
            until,
        })
    }
}

impl Row for Lease {
    ghost use Rattle.std.proofs.Common.{rules};
    ghost use Rattle.std.specs.Cmp.Rules.{comparing};
    ghost use Rattle.fh_leases.specs.Part.{by_name};

    ghost order = { λ a b. by_name b.name a };

    ghost total = { Prim.search (comparing, rules) };

    fn compare(&self, other: &Lease) -> Ordering {
        self.name.as_str().cmp(other.name.as_str())
    }
}

/// The name of a lease.
#[derive(Clone, Copy)]
pub(crate) struct Name<'a> {
    pub(crate) name: &'a str,
}

impl<'a> Key<Lease> for Name<'a> {
    ghost as_row = { λ key. record { name = key.name.now; holder = 0; seconds = 0; until = 0 } };

    fn compare(&self, row: &Lease) -> Ordering {
        row.name.as_str().cmp(self.name)
    }
}
