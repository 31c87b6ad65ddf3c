// The queues on whose messages functions work.
ghost use Rattle.std.specs.Prelude.{◌≡◌, None, IfOk, IfErr};
ghost use Rattle.fh_dispatch.specs.Rules.{queue_rule};
ghost use Rattle.fh_dispatch.specs.Queues.{inner_queue, queue_of};
ghost use Rattle.fh_dispatch.specs.Faults.{IsFaultOf};

use fh_base::{NoMemory, QueueName, Rule};
use fh_event::{FunctionSettings, PlanFault};
use std::alloc::Global;

/// The queue of its own that a blob function has, by the function's number.
pub fn inner_queue(alloc: Global, number: u64) -> Result<QueueName, NoMemory>
    ensures { IfOk result (λ queue. queue ≡ inner_queue number) }
{
    let text = format!(in alloc; "webjobs-blobtrigger-{}", number)?;
    match QueueName::read(text.as_str()) {
        Some(queue) => Ok(queue),
        None => unreachable!(),
    }
}

/// The queue on whose messages a function works, if it does, or the rule that its name breaks.
pub(crate) fn queue_of(
    alloc: Global,
    number: u64,
    settings: &FunctionSettings,
) -> Result<Option<QueueName>, PlanFault>
    ensures named { IfOk result (λ queue. queue_rule settings.now ≡ None) }
    ensures queue { IfOk result (λ queue. queue ≡ queue_of number settings.now) }
    ensures err { IfErr result (λ fault. IsFaultOf fault (queue_rule settings.now)) }
{
    match settings {
        FunctionSettings::Queue { queue, .. } => match QueueName::read(queue.as_str()) {
            Some(queue) => Ok(Some(queue)),
            None => Err(PlanFault::Rule(Rule::BadName)),
        },
        FunctionSettings::Blob { .. } => Ok(Some(inner_queue(alloc, number)?)),
        FunctionSettings::Timer { .. } => Ok(None),
    }
}
