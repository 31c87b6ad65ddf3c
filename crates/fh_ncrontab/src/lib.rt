//! Schedules of timers in the six-field NCRONTAB form, in UTC.
//!
//! A schedule is six sets of numbers, and a second is in it where its date and time have all six
//! in their sets. To the layer above:
//!
//! - `Schedule::read` gives the sets of a text, or the one fault that decides: the count of fields,
//!   then the first faulty part from the left, then that no second is ever in the schedule.
//! - `next_after` gives the least second of the schedule after another, up to the end of the year
//!   9999, and `None` exactly where there is none; `first_from` the least from a second on, on any
//!   civil clock from the year 0 on.
//! - `masks` and `of_masks` carry the sets to and from six numbers, and are inverse to each other;
//!   `Field::mask` and `Field::of_mask` do so for one set.
//!
//! No call takes memory. Each answer is that of a function in `specs/`, and `Schedule` is the file to
//! read first: `schedule_of` of a text (`Texts`, `Fields`, `Names`), `next` and `first_from`
//! (`Schedule`), `is_mask` (`Sets`). `Search`, `Dates` and `Pieces` are for private functions alone.
#![tactic(auto)]

mod dates;
mod fault;
mod field;
mod names;
mod part;
mod schedule;
#[cfg(test)]
mod tests;
mod text;
mod times;

pub use fault::{CronFault, FieldFault};
pub use field::Field;
pub use schedule::Schedule;
