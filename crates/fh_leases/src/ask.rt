// What is asked of the leases.
use fh_base::Text;

/// A lease with the holder that is to have it.
#[derive(Drop)]
pub struct HeldLease {
    pub name: Text,
    pub holder: u64,
}

/// A change that is asked for.
#[derive(Clone, Copy)]
pub enum LeaseAsk<'a> {
    /// Makes the holder hold the lease for so many seconds.
    Acquire {
        name: &'a str,
        holder: u64,
        seconds: u64,
    },
    /// Makes its last holder hold the lease for its seconds, also where it has expired.
    Renew {
        name: &'a str,
        holder: u64,
    },
    /// Ends the lease.
    Release {
        name: &'a str,
        holder: u64,
    },
    /// Renews each of these leases.
    RenewAll {
        leases: &'a [HeldLease],
    },
    /// Changes nothing: what a command asks that asks something of other stores alone.
    Nothing,
}
