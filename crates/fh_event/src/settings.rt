// Settings of functions.
use fh_base::Text;

/// What a function works on, and how. `retry` and `singleton` are in seconds, and a singleton of 0 is none.
/// docs/commands.md has the ranges.
#[derive(Debug, Drop)]
pub enum FunctionSettings {
    /// Works on the messages of a queue.
    Queue {
        queue: Text,
        batch: u64,
        threshold: u64,
        limit: u64,
        retry: u64,
        singleton: u64,
    },
    /// Works on blobs, by the messages of a queue of its own.
    Blob {
        batch: u64,
        threshold: u64,
        limit: u64,
        retry: u64,
        singleton: u64,
    },
    /// Runs by a schedule.
    Timer {
        /// The seconds, minutes, hours, days, months and days of the week: bit n of a mask stands for the
        /// number n.
        masks: [u64; 6],
        /// It runs once when it is armed.
        startup: bool,
        /// A run that was missed is made up for.
        monitor: bool,
        singleton: u64,
    },
}
