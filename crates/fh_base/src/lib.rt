//! Names, texts, moments and rules, and the small traits by which the host meets the world outside.
//!
//! Promised to the layers above: `QueueName::read`, `PlainName::read`, `is_blob_name`, `Moment::new` and
//! `poison_of` take exactly what their grammars say, and a `Rule` has the number and name of its table.
//! `read_number` reads exactly 1 to 15 digits, and `utf8_text` exactly UTF-8. A `Source` gives its bytes
//! in order and says how many may still come; a `Sink` keeps what it took, in order. Each has a count of
//! faults that never falls; a call fails only where the count rose in it, and passes only where it
//! didn't. What an object holds is told or not, and the clauses on content hold where it is. The objects
//! in memory tell all, and fail at the calls of their plan, a sink also where memory is refused; the
//! adapters over real streams tell nothing. `write_last_line` writes a command's last line, cut only where
//! the sink failed. Read specs/Faults.antt first, and then specs/Streams.antt.
#![tactic(auto)]

mod blob_name;
mod both;
mod bytes;
mod calendar;
mod clock;
mod durations;
mod ends;
mod entropy;
mod fault_plan;
mod faults;
mod limits;
mod moment;
mod number;
mod plain_name;
mod poison;
mod queue_name;
mod rule;
mod sink;
mod source;
mod status;
mod text;
mod texts;
mod times;

pub use blob_name::is_blob_name;
pub use both::Both;
pub use bytes::Bytes;
pub use clock::{Clock, HostClock, MemoryClock};
pub use durations::read_duration;
pub use ends::{PlainEnd, write_last_line};
pub use entropy::{Entropy, HostEntropy, MemoryEntropy};
pub use fault_plan::{Failing, FaultPlan};
pub use faults::{Failed, NoMemory};
pub use limits::{
    LONGEST_LINE, LONGEST_MESSAGE, LONGEST_PAYLOAD, LONGEST_TEXT, MOST_FIELDS, SECONDS_OF_WEEK,
};
pub use moment::Moment;
pub use number::read_number;
pub use plain_name::PlainName;
pub use poison::poison_of;
pub use queue_name::QueueName;
pub use rule::Rule;
pub use sink::{MemorySink, Sink, StreamSink, write_all};
pub use source::{MemorySource, Source, StreamSource, read_byte};
pub use status::Status;
pub use text::{Text, utf8_text};
pub use texts::Texts;
pub use times::{TimeForm, time_text};

#[cfg(test)]
mod tests;
