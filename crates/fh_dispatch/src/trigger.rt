// What makes messages the jobs of a function.
ghost use Rattle.std.specs.Prelude.{◌≡◌, if◌then◌else◌, Some, None, option_copied, IfOk};
ghost use Rattle.fh_base.specs.Names.{is_queue_name};
ghost use Rattle.fh_dispatch.specs.Queues.{trigger_on, trigger_by, trigger_found};

use crate::Function;
use crate::queues::inner_queue;
use fh_base::{NoMemory, QueueName};
use fh_event::FunctionSettings;
use std::alloc::Global;

/// How a function comes to its messages.
#[derive(Clone, Copy)]
pub struct Trigger {
    /// The function's number.
    pub function: u64,
    pub queue: QueueName,
    /// How many messages are fetched at once.
    pub batch: u64,
    /// With how many jobs in work it still fetches.
    pub threshold: u64,
}

/// The trigger of a function, where it is there and works on messages.
pub(crate) fn trigger_found(
    alloc: Global,
    found: Option<&Function>,
) -> Result<Option<Trigger>, NoMemory>
    ensures { IfOk result (λ trigger. trigger ≡ trigger_found (option_copied found.entry)) }
{
    match found {
        Some(function) => trigger_by(alloc, function.number, &function.settings),
        None => Ok(None),
    }
}

// The trigger of the function of this number, by its settings.
fn trigger_by(
    alloc: Global,
    number: u64,
    settings: &FunctionSettings,
) -> Result<Option<Trigger>, NoMemory>
    ensures { IfOk result (λ trigger. trigger ≡ trigger_by number settings.now) }
{
    match settings {
        FunctionSettings::Queue {
            queue,
            batch,
            threshold,
            ..
        } => Ok(trigger_on(number, queue.as_str(), *batch, *threshold)),
        FunctionSettings::Blob {
            batch,
            threshold,
            ..
        } => Ok(Some(Trigger {
            function: number,
            queue: inner_queue(alloc, number)?,
            batch: *batch,
            threshold: *threshold,
        })),
        FunctionSettings::Timer { .. } => Ok(None),
    }
}

fn trigger_on(number: u64, queue: &str, batch: u64, threshold: u64) -> Option<Trigger>
    ensures { result ≡ (if is_queue_name queue.now then Some (trigger_on number queue.now batch threshold) else None) }
{
    let queue = QueueName::read(queue)?;
    Some(Trigger {
        function: number,
        queue,
        batch,
        threshold,
    })
}
