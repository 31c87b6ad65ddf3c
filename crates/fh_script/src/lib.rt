//! The script: lines are read, answered over the journal, and their answers written.
//!
//! Promised to the layer above: `script` is the whole command, in three phases. The journal is mounted; then
//! each line comes to what `answer_line` says, its answer in the sink and its entries in the journal, in the
//! order of the lines; then the last line is written. Where the disk or the sink fails at a line, no byte
//! behind it was read. Each status comes only for its reason, and says which lines are done and what a crash
//! may leave; only the object that failed has counted a fault. The checkpoint is left alone.
//!
//! `line_ask` reads one line into what it asks for, or its first fault. A text that an answer prints is one
//! word of a line and is read as the same text (`printed_texts_are_read`). Read specs/Machine.antt first, what
//! a line comes to, and then specs/Script.antt, what a run comes to (`EndsBy`).
#![tactic(auto)]

mod answerer;
mod ends;
mod faults;
mod forms;
mod grammar;
mod laws;
mod lines;
mod running;
mod words;

pub use faults::WordFault;
pub use grammar::{LineAsk, line_ask};
pub use laws::printed_texts_are_read;
pub use running::{is_script, script};

#[cfg(test)]
mod function_tests;
#[cfg(test)]
mod grammar_tests;
#[cfg(test)]
mod job_tests;
#[cfg(test)]
mod store_tests;
#[cfg(test)]
mod tests;
#[cfg(test)]
mod timer_tests;
