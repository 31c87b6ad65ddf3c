// What the work answers.

use fh_event::Reply;

/// What was done.
#[derive(Drop)]
pub enum WorkDone {
    /// The function has the settings, and that number.
    Configured { number: u64 },
    /// Nothing: the function has these settings.
    Same,
    /// The run is ready.
    Ready,
    /// The answer to a command about jobs.
    Told { reply: Reply },
    Nothing,
}
