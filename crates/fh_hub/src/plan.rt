// What a command comes to.
use crate::stores::{StagedStores, StoreChanges};
use fh_base::{Bytes, Moment};
use fh_event::Reply;

/// A change of the stores at a moment. It may be dropped.
#[derive(Drop)]
pub struct Change {
    pub(crate) stores: StoreChanges,
    pub(crate) moment: Moment,
}

/// A change that has its memory, with the bytes of its entry. It has to be settled or unstaged.
pub struct Staged {
    pub(crate) stores: StagedStores,
    pub(crate) payload: Bytes,
    pub(crate) moment: Moment,
}

/// What a command comes to at a moment.
#[derive(Drop)]
pub enum Plan {
    /// A reading: nothing changes.
    Reads(Reply),
    /// An accepted command that changes nothing.
    Quiet(Reply),
    Records(Change),
}
