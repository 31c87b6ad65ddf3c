//! Commands, replies, rules' texts, and the bytes of journal entries.
//!
//! Promised to the layers above: contracts see a command, a reply and a text as plain values. What
//! `encode` appends is the one spelling of a moment and a command, and after want of memory nothing is
//! appended. `decode` reads exactly these spellings and answers every other list of bytes with its first
//! fault from the left; so reading what was written gives the same value, and no second spelling is read.
//! `entry_size` says how long a command's entry is. `answer_text` writes the line that a script prints for
//! a reply or a rule.
#![tactic(auto)]

mod begun;
mod command;
mod faults;
mod laws;
mod lines;
mod masks;
mod outcome;
mod reading;
mod reply;
mod settings;
mod sizes;
mod tables;
mod writing;

pub use begun::{About, Begun, BegunJob};
pub use command::Command;
pub use faults::{EventFault, PlanFault, StepFault};
pub use laws::{entries_have_one_reading, tables_are_those_of_the_grammar};
pub use lines::answer_text;
pub use outcome::{LONGEST_LIST, Outcome, Output, Outputs};
pub use reading::decode;
pub use reply::{FetchedJob, FetchedJobs, Item, Items, Place, RenewalPart, RenewalParts, Reply};
pub use settings::FunctionSettings;
pub use sizes::entry_size;
pub use tables::{
    ACQUIRE, ARM, BEGIN, CLEAR, CONFIGURE, DELETE, DELETE_BLOB, FETCH, FINISH, FieldType, GET_BLOB,
    LOCATE, MAKE_QUEUE, NOTE, PEEK, PUT, PUT_BLOB, RELEASE_LEASE, RENEW_LEASE, RENEWALS, SESSION,
    TAKE, TICK, Table, UNNOTED, UPDATE,
};
pub use writing::encode;

#[cfg(test)]
mod job_tests;
#[cfg(test)]
mod tests;
