//! The store of work: functions, their settings, the jobs of them that are ready, and the invocations that run.
//!
//! Promised to the layer above: contracts see the functions in order of their names, the ready jobs in order
//! of function number and, of a function, in the order in which they came, the running invocations in order of number,
//! and the next numbers. `plan` answers what an ask comes to, or the rule that refuses it, and what the ask makes of the
//! other stores: to configure a function makes its queue where that is missing, and removes its timer's row where its
//! trigger changes; a fetch takes messages; and the begin, the end and the renewals of jobs hold, move, release and
//! remove messages, take and give back leases, and store outputs. `stage` takes all memory of a change, and then
//! `settle` makes exactly it and `unstage` makes nothing, both without memory. The other calls read; `note_text` is the
//! text by which a function is told of a blob. `laws` says that a function keeps its number, that numbers are
//! given in turn, each once, that other functions and their jobs stay as they are, that a function has one
//! run in work at most, and that only fetches and runs of timers bring jobs.
//!
//! Inside, running invocations are found by function, by number, and by the moment from which a hold of them may be
//! renewed, in the logarithm of all (`Invocations`).
//!
//! Read `specs/Part.antt`, `Ready.antt`, `Rules.antt`, `Outcome.antt` and `Asked.antt` first, and `Begin.antt`,
//! `Finish.antt` and `Renewals.antt` for jobs.
#![tactic(auto)]

mod act;
mod ask;
mod begin;
mod change;
mod done;
mod due;
mod effecting;
mod fetching;
mod finish;
mod function;
mod holds;
mod invocations;
mod laws;
mod note;
mod outputs;
mod planning;
mod queues;
mod ready;
mod renewals;
mod rules;
mod ruling;
mod running;
mod settings;
mod staging;
mod start;
mod stores;
mod terms;
mod timer;
mod trigger;
mod work;

pub use ask::WorkAsk;
pub use change::{StagedWork, WorkChange, WorkPlan};
pub use done::WorkDone;
pub use function::Function;
pub use invocations::Invocations;
pub use laws::{
    asks_have_their_answers, counters_move_little, fetches_are_as_told, fetches_keep_to_the_bound,
    functions_are_as_configured, jobs_are_as_asked, numbers_are_given_in_turn, numbers_are_kept,
    one_run_stays_one, other_asks_bring_no_jobs, other_functions_stay, other_jobs_stay,
    parts_stay_whole, queues_are_asked_as_said, rows_are_only_removed, same_settings_are_equal,
    timers_are_kept_or_removed,
};
pub use note::note_text;
pub use queues::inner_queue;
pub use ready::{Job, ReadyJob};
pub use running::Running;
pub use terms::Terms;
pub use timer::Timer;
pub use trigger::Trigger;
pub use work::Work;

#[cfg(test)]
mod job_tests;
#[cfg(test)]
mod tests;
