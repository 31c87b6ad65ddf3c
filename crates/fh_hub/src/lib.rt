//! The hub: one world over the stores, with its history in a journal.
//!
//! Promised to the layers above, where the disk tells: a journal is mounted exactly where its file stands
//! for a legal history, unless the disk or memory fails; the hub then has that history, and its world is
//! the history's replay. Any other file is left as it is, and refused for its header, its first broken
//! frame, or, where no frame is broken, its first wrong entry. A step answers what the machine of
//! specs/World.antt does, or want of memory, or a disk fault, whose count then rose; a recorded one adds
//! exactly its own entry, and after any fault world and history are as before. At each moment of a step a
//! crash leaves the history from before or the one with the step's entry, and after Ok that one alone.
//! Where a step failed at its third or fourth call, the one with the failed entry stays possible until
//! the next append has mended the journal. Whoever makes steps for others is a `Caller`, which says which
//! turns it made, where it tells; a hub is one, and tells what specs/Made.antt says.
#![tactic(auto)]

mod asking;
mod asks;
mod caller;
mod calling;
mod damaged;
mod faults;
mod history;
mod hub;
mod laws;
mod mounting;
mod names;
mod note;
mod plan;
mod replies;
mod state;
mod stores;

pub use caller::Caller;
pub use damaged::write_unmounted;
pub use faults::{HubFault, HubRule};
pub use history::History;
pub use hub::Hub;
pub use laws::{
    due_times_are_scheduled, fetches_keep_to_their_bounds, files_have_one_history,
    leases_have_one_holder, legal_events_have_their_moments, messages_are_in_one_place,
    messages_are_located, notes_have_their_messages, numbers_are_given_once, queues_are_whole,
    receipts_are_given_once, receipts_guard_messages, receipts_only_rise, runs_come_in_turn,
    versions_are_noted_once,
};
pub use mounting::prepare;
pub use plan::{Change, Plan, Staged};
pub use state::State;

#[cfg(test)]
mod tests;
