// The leases, as they are kept, and what is read of them.
ghost use Rattle.std.specs.Prelude.{◌≡◌, option_copied};
ghost use Rattle.fh_leases.specs.Part.{no_leases, lease_of, holder_at};
ghost use Rattle.fh_leases.specs.Edits.{IsIdle};

use crate::Lease;
use crate::lease::Name;
use fh_base::Moment;
use fh_rows::Rows;
use std::alloc::Global;
use std::marker::Model;

/// Leases in order of their names. Leases that have expired stay until they are released.
#[derive(Drop)]
pub struct Leases {
    pub(crate) rows: Rows<Lease>,
}

impl Model for Leases {
    ghost use Rattle.fh_leases.specs.Edits.{LeaseState};

    ghost Value = { LeaseState };

    ghost view = { λ l. record { part = record { leases = l.rows.rows }; room = l.rows.room } };
}

impl Leases {
    /// No leases. Takes no memory.
    pub fn new(alloc: Global) -> Leases
        ensures part { result.part ≡ no_leases }
        ensures idle { IsIdle result }
    {
        Leases {
            rows: Rows::new(alloc),
        }
    }

    /// Who holds a lease at a moment, and until when. Takes no memory.
    pub fn holder_at(&self, name: &str, m: Moment) -> Option<(u64, u64)>
        ensures { result ≡ holder_at self.now.part name.now m }
    {
        let lease = self.lease_of(name)?;
        if m.ms() < lease.until {
            return Some((lease.holder, lease.until));
        }
        None
    }

    /// A lease as its last holder has it or had it. Takes no memory.
    pub fn lease_of(&self, name: &str) -> Option<&Lease>
        ensures { option_copied result ≡ lease_of name.now self.now.part.leases }
    {
        self.rows.get(&Name { name })
    }
}
