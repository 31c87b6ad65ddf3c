// The acts of which each change of the blobs is made.
use crate::blob::KeptBlob;
use crate::receipt::NewReceipt;
use fh_base::{QueueName, Text};

#[derive(Drop)]
pub(crate) enum Act {
    /// The blob is this one, with the next version.
    Put { blob: KeptBlob },
    Remove { container: QueueName, name: Text },
    /// The receipt is there.
    Note { receipt: NewReceipt },
}
