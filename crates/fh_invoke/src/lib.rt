//! What is posted to a worker for an invocation, and what its reply comes to.
//!
//! Promised to the layer above:
//! - `request_text` gives exactly the compact JSON text of `specs/Requests.antt` for each kind of trigger
//!   and job.
//! - `read_answer` gives exactly the outputs, log lines and return value of a reply, or its first fault.
//! - `outputs_of` gives the first 1,001 outputs in the order of the bindings, or the first binding that has
//!   an output and whose template doesn't resolve. Of an output only the digits of a number with a fraction
//!   or an exponent are left open, and they read back as that number.
//! - `outcome_of` gives the outcome that is recorded and the log lines: the first cause of failure, or
//!   success; an outcome whose entry would be too long is the failure `too long`.
//!
//! Only want of memory is answered freely. Read specs/Requests.antt first, with `Subjects` and `Texts`; then
//! `Replies`, `Knowing`, `Outputs`, `Printing` and `Outcomes`.
#![tactic(auto)]

mod answer;
mod coding;
mod fault;
mod ids;
mod knowing;
mod outcome;
mod output;
mod printing;
mod request;
mod subject;

pub use answer::{Answer, read_answer};
pub use fault::{AnswerFault, OutputFault};
pub use outcome::outcome_of;
pub use output::outputs_of;
pub use request::request_text;

#[cfg(test)]
mod tests;
