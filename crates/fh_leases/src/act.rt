// The acts of which each change of the leases is made.
use crate::Lease;
use fh_base::Text;

#[derive(Drop)]
pub(crate) enum Act {
    /// The lease is this one now.
    Set { lease: Lease },
    /// No lease has the name now.
    Remove { name: Text },
}
