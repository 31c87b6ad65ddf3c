//! Blobs with their versions, and receipts of the versions that functions have noted.
//!
//! Promised to the layer above: contracts see the blobs in order of container and name, the receipts in order
//! of function, container, blob and version, and the next version. `plan` answers what an ask comes to, or the
//! rule that refuses it. `stage` takes all memory of a change, and then `settle` makes exactly it and
//! `unstage` makes nothing, both without memory. `get` and `unnoted` read. `laws` says that versions are given
//! in turn, each once, that a receipt is made once and stays, and that a new version has none.
//! Inside, marks of the blobs that a function has noted as they are let `unnoted` pass over them by halving;
//! no clause says how long that takes, and no definition of an ask or an answer knows them.
//! Read `specs/Part.antt`, `Acts.antt` and `Outcome.antt` first.
#![tactic(auto)]

mod act;
mod ahead;
mod ask;
mod blob;
mod blobs;
mod change;
mod done;
mod laws;
mod mark;
mod marks;
mod planning;
mod receipt;
mod rules;
mod staging;

pub use ask::{BlobAsk, NewBlob};
pub use blob::BlobRow;
pub use blobs::Blobs;
pub use change::{BlobChange, StagedBlobs};
pub use done::BlobDone;
pub use laws::{
    asks_have_their_answers, current_versions_are_noted, new_versions_have_no_receipt,
    parts_stay_whole, receipts_are_made_once, versions_are_given_in_turn, versions_move_little,
};
pub use receipt::Receipt;

#[cfg(test)]
mod tests;
