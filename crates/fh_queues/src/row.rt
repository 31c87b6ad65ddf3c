// The row of a message.
ghost use Rattle.std.specs.Prelude.{◌≡◌, option_copied, IfOk};
ghost use Rattle.fh_queues.specs.Rows.{is_live, is_visible, is_of};

use crate::{Expiry, SharedName};
use fh_base::{Moment, NoMemory, QueueName, Text};
use fh_event::About;
use std::alloc::Global;
use std::marker::Model;
use std::sync::Arc;

/// The blob that a message is about, or none, which messages share. Contracts see the option.
#[derive(Drop)]
pub struct Subject {
    about: Arc<Option<About>>,
}

impl Model for Subject {
    ghost use Rattle.std.specs.Prelude.{Option};
    ghost use Rattle.std.specs.Arc.{arc_value};
    ghost use Rattle.fh_event.specs.declared.begun.About.{About};

    ghost Value = { Option About };

    ghost view = { λ s. arc_value s.about };
}

impl Subject {
    pub(crate) fn new(alloc: Global, about: Option<About>) -> Result<Subject, NoMemory>
        ensures { IfOk result (λ subject. subject ≡ about) }
    {
        let about = Arc::new(alloc, about)?;
        Ok(Subject { about })
    }

    /// The same once more.
    pub(crate) fn share(&self) -> Result<Subject, NoMemory>
        ensures { IfOk result (λ subject. subject ≡ self.now) }
    {
        let about = Arc::try_clone(&self.about)?;
        Ok(Subject { about })
    }

    pub fn get(&self) -> Option<&About>
        ensures { option_copied result ≡ self.now }
    {
        match &*self.about {
            None => None,
            Some(about) => Some(about),
        }
    }
}

/// A message that was put and isn't gone. Times are moments in milliseconds.
#[derive(Drop)]
pub struct Message {
    pub number: u64,
    pub queue: SharedName,
    pub text: Text,
    pub put_at: u64,
    /// A hold to this moment is free at it.
    pub visible_at: u64,
    /// Live before this moment; `None` is for good.
    pub expiry: Expiry,
    /// How often it was taken: the dequeue count.
    pub count: u64,
    /// The newest pop receipt, the one that is good.
    pub receipt: u64,
    /// Whether the last change of its visibility was a hold.
    pub held: bool,
    pub about: Subject,
}

impl Message {
    pub fn is_live(&self, m: Moment) -> bool
        ensures { result ≡ is_live m self.now }
    {
        match self.expiry.get() {
            None => true,
            Some(end) => m.ms() < end,
        }
    }

    pub fn is_of(&self, queue: &QueueName) -> bool
        ensures { result ≡ is_of queue.now self.now }
    {
        self.queue.as_bytes() == queue.as_bytes()
    }

    pub fn is_visible(&self, queue: &QueueName, m: Moment) -> bool
        ensures { result ≡ is_visible queue.now m self.now }
    {
        self.is_of(queue) && self.visible_at <= m.ms() && self.is_live(m)
    }
}
