// On what terms a function's jobs run.
ghost use Rattle.std.specs.Prelude.{◌≡◌, None, option_copied, IfOk};
ghost use Rattle.fh_dispatch.specs.Terms.{terms_of, terms_in, poison_beside, blob_poison, poison_above, poison_from, lease_name};

use crate::Work;
use fh_base::{NoMemory, QueueName, Text, poison_of};
use fh_event::FunctionSettings;
use std::alloc::Global;

/// The poison queue of all blob functions.
const BLOB_POISON: &str = "webjobs-blobtrigger-poison";

/// How the jobs of a function are begun and ended.
#[derive(Clone, Copy)]
pub struct Terms {
    /// How often a message is begun before it is moved.
    pub limit: u64,
    /// For how many seconds a message that failed is hidden.
    pub retry: u64,
    /// For how many seconds one invocation has the function's lease, or 0 where several may run at a time.
    pub singleton: u64,
    /// Where messages go that failed too often.
    pub poison: Option<QueueName>,
}

/// The terms of a function's settings. Takes no memory.
pub(crate) fn terms_of(settings: &FunctionSettings) -> Terms
    ensures { result ≡ terms_of settings.now }
{
    match settings {
        FunctionSettings::Queue {
            queue,
            limit,
            retry,
            singleton,
            ..
        } => Terms {
            limit: *limit,
            retry: *retry,
            singleton: *singleton,
            poison: poison_beside(queue.as_str()),
        },
        FunctionSettings::Blob {
            limit,
            retry,
            singleton,
            ..
        } => Terms {
            limit: *limit,
            retry: *retry,
            singleton: *singleton,
            poison: Some(blob_poison()),
        },
        FunctionSettings::Timer { singleton, .. } => no_messages(*singleton),
    }
}

impl Work {
    /// The terms of the function of this name, by the settings in force. Takes no memory.
    pub fn terms_of(&self, name: &str) -> Terms
        ensures { result ≡ terms_in self.now.part name.now }
    {
        match self.function_of(name) {
            None => no_messages(0),
            Some(function) => terms_of(&function.settings),
        }
    }
}

impl Terms {
    /// Where a message goes that was taken so often before it begins, if it goes. Takes no memory.
    pub(crate) fn poison_above(&self, count: u64) -> Option<QueueName>
        ensures { result ≡ poison_above self.now count }
    {
        if self.limit < count {
            return self.poison;
        }
        None
    }

    /// Where a message goes that was taken so often and failed, if it goes. Takes no memory.
    pub(crate) fn poison_from(&self, count: u64) -> Option<QueueName>
        ensures { result ≡ poison_from self.now count }
    {
        if self.limit <= count {
            return self.poison;
        }
        None
    }
}

/// The name of the lease of a function of which one invocation runs at a time.
pub(crate) fn lease_name(alloc: Global, function: &str) -> Result<Text, NoMemory>
    ensures { IfOk result (λ name. name ≡ lease_name function.now) }
{
    let text = format!(in alloc; "singleton/{}", function)?;
    Ok(Text::new(text))
}

fn no_messages(singleton: u64) -> Terms
    ensures { result ≡ record { limit = 0; retry = 0; singleton = singleton; poison = None } }
{
    Terms {
        limit: 0,
        retry: 0,
        singleton,
        poison: None,
    }
}

fn poison_beside(queue: &str) -> Option<QueueName>
    ensures { result ≡ poison_beside queue.now }
{
    poison_of(&QueueName::read(queue)?)
}

fn blob_poison() -> QueueName
    ensures { result ≡ blob_poison }
{
    match QueueName::read(BLOB_POISON) {
        Some(queue) => queue,
        None => unreachable!(),
    }
}
