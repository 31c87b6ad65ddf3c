//! Queues of messages: visibility, receipts, dequeue counts and expiry.
//!
//! Promised to the layer above: contracts see the queues, the rows of messages, how each message went, and
//! two counters. `plan` answers what an ask comes to, or the rule that refuses it; `too_full` what the
//! queues would be too full for. A change is a list of acts: rows that aren't live at its moment go first,
//! and have expired. `stage` takes all its memory, and then `settle` makes exactly it and `unstage` makes
//! nothing, both without memory. `peek`, `live`, `row` and `place_of` read. `laws` says what holds of the
//! queues at all times and of each ask. In memory an index finds messages by number, by queue and moment, and
//! by expiry; contracts don't see it. Read `specs/Part.antt`, `Acts.antt` and `Outcome.antt` first, and
//! `specs/Lanes.antt` and `Index.antt` for the index.
#![tactic(auto)]

mod act;
mod ask;
mod change;
mod choosing;
mod done;
mod ending;
mod expiry;
mod held;
mod job_rules;
mod jobs;
mod lane;
mod lanes;
mod laws;
mod lists;
mod planning;
mod queues;
mod reading;
mod row;
mod rows;
mod rules;
mod shared_name;
mod slot;
mod staging;

pub use ask::QueueAsk;
pub use change::{QueueChange, StagedQueues};
pub use done::{Ending, QueueDone};
pub use expiry::Expiry;
pub use held::{HeldMessage, HeldMessages};
pub use laws::{
    asks_have_their_answers, counters_move_little, messages_are_as_told,
    messages_go_on_as_answered, numbers_are_given_in_turn, parts_stay_whole,
    peeks_list_in_order_of_number, places_are_known, receipts_are_given_in_turn,
    receipts_guard_messages, receipts_only_rise, takes_list_few, takes_list_visible_messages,
    texts_are_short,
};
pub use queues::Queues;
pub use row::{Message, Subject};
pub use shared_name::SharedName;

#[cfg(test)]
mod tests;
