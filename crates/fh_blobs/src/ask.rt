// What is asked of the blobs.
use fh_base::{QueueName, Text};

/// A blob that is to be put.
#[derive(Drop)]
pub struct NewBlob {
    pub container: QueueName,
    pub name: Text,
    pub text: Text,
}

/// A change that is asked for.
#[derive(Clone, Copy)]
pub enum BlobAsk<'a> {
    /// Puts a text under a new version.
    Put {
        container: QueueName,
        name: &'a str,
        text: &'a Text,
    },
    /// Removes a blob; receipts of it stay.
    Remove {
        container: QueueName,
        name: &'a str,
    },
    /// Makes the receipt of a function for the current version.
    Note {
        function: u64,
        container: QueueName,
        name: &'a str,
    },
    /// Puts each of these in order.
    PutAll {
        blobs: &'a [NewBlob],
    },
    /// Changes nothing: what a command asks that asks something of other stores alone.
    Nothing,
}
