// What the blobs answer.

/// What was done.
#[derive(Drop)]
pub enum BlobDone {
    /// The text has that version.
    Stored { version: u64 },
    Removed,
    /// That version was noted.
    NowNoted { version: u64 },
    /// Nothing: the version was noted before.
    Noted,
    /// So many texts have versions from that one on, in their order.
    AllStored { first: u64, count: u64 },
    Nothing,
}
