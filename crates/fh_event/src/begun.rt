// What is told of an invocation that begins.
ghost use Rattle.std.specs.Prelude.{◌≡◌, IfOk};

use fh_base::{NoMemory, QueueName, Text};
use std::alloc::Global;

/// The blob that a message is about, as it was at that version.
#[derive(Drop)]
pub struct About {
    pub container: QueueName,
    pub blob: Text,
    pub version: u64,
}

impl About {
    /// Another one with the same values.
    pub fn copy(&self, alloc: Global) -> Result<About, NoMemory>
        ensures { IfOk result (λ about. about ≡ self.now) }
    {
        let blob = self.blob.copy(alloc)?;
        Ok(About {
            container: self.container,
            blob,
            version: self.version,
        })
    }
}

/// An invocation that began: its number, its function, the moment of its begin in milliseconds, the halves of
/// the 16 random bytes of its id, and its job. There is one for each begin, and it can't be copied.
#[derive(Drop)]
pub struct Begun {
    pub invocation: u64,
    pub function: Text,
    pub moment: u64,
    pub high: u64,
    pub low: u64,
    pub job: BegunJob,
}

/// What an invocation works on. Times are moments in milliseconds.
#[derive(Drop)]
pub enum BegunJob {
    /// A run of a timer, with the timer's row as it is.
    Timer {
        past_due: bool,
        last: Option<u64>,
        next: Option<u64>,
        updated: u64,
    },
    /// A message as it is. `content` is the text of the blob that the message is about, as that blob is now.
    Message {
        number: u64,
        queue: QueueName,
        text: Text,
        count: u64,
        receipt: u64,
        put_at: u64,
        expiry: Option<u64>,
        visible_at: u64,
        about: Option<About>,
        content: Option<Text>,
    },
}
