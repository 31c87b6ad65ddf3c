//! Timers: when each function ran last by its schedule, and when it runs next.
//!
//! Promised to the layer above: contracts see the rows in order of function number. `plan` answers what an ask
//! comes to; no rule refuses one, and planning takes no memory. A change sets one row anew, removes one or
//! leaves all; which run it makes ready is told by `run` of the answer. `stage` takes all its memory, and then
//! `settle` makes exactly it and `unstage` makes nothing, both without memory. `row` reads. `laws` says that
//! the due times of a function rise, that each is a time of a schedule that was given, and that an ask about
//! one function leaves the rows of the others.
//! Read `specs/Part.antt` and `Outcome.antt` first.
#![tactic(auto)]

mod act;
mod ask;
mod change;
mod done;
mod laws;
mod planning;
mod row;
mod staging;
mod timers;

pub use ask::TimerAsk;
pub use change::{StagedTimers, TimerChange};
pub use done::{TimerDone, TimerRun};
pub use laws::{
    asks_have_their_answers, due_times_are_scheduled, due_times_rise, next_times_stay_later,
    other_timers_stay, removed_rows_are_gone, runs_are_made_where_none_is, timers_stay_whole,
};
pub use row::TimerRow;
pub use timers::Timers;

#[cfg(test)]
mod tests;
