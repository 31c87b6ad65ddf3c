//! A worker for trials: it answers every request alike, for so many connections.
//!
//! Promised to the layer above: `sample_turn` answers each request that can be read with status 200 and
//! the body of `specs/Turns.antt`, and writes nothing to any other. `sample_worker` aims its door at the port
//! of its words, and ends with status 0 exactly after the rounds of its words, each a connection accepted at
//! that port; with 2 exactly where the words aren't its command, with 9 for want of memory, and with 11 only
//! where the door's count of faults rose. Read specs/Words.antt first, then specs/Turns.antt and
//! specs/Rounds.antt.
#![tactic(auto)]

mod turn;
mod words;
mod worker;

pub use turn::sample_turn;
pub use words::{Trial, is_sample_worker, trial_of};
pub use worker::sample_worker;

#[cfg(test)]
mod tests;
