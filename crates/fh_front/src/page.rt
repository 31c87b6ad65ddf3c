// The rows of the table.

/// A path of the table.
#[derive(Clone, Copy, Debug, PartialEq, Eq)]
pub enum Page {
    /// `/queues/{queue}`
    Queue,
    /// `/queues/{queue}/messages`
    Messages,
    /// `/queues/{queue}/peek`
    Peek,
    /// `/queues/{queue}/messages/{id}`
    Message,
    /// `/blobs/{container}/{*name}`
    Blob,
    /// `/leases/{name}/acquire`
    Acquire,
    /// `/leases/{name}/renew`
    Renew,
    /// `/leases/{name}/release`
    Release,
    /// `/where/{id}`
    Place,
    /// `/admin/stop`
    Stop,
}

/// What a method asks of a page.
#[derive(Clone, Copy, Debug, PartialEq, Eq)]
pub enum Action {
    MakeQueue,
    Put,
    Take,
    Clear,
    Peek,
    Update,
    Delete,
    PutBlob,
    GetBlob,
    DeleteBlob,
    Acquire,
    RenewLease,
    ReleaseLease,
    Locate,
    Stop,
}
