// What comes of an invocation's message: released, held on, completed with outputs, or moved.
ghost use Rattle.std.specs.Prelude.{◌≡◌, ◌+◌, ◌<◌, ◌^◌, ◌∷◌, [], ◌++◌, None, length, map, IfOk, OnOk};
ghost use Rattle.fh_queues.specs.Acts.{sweep};
ghost use Rattle.fh_queues.specs.Rows.{live_row};
ghost use Rattle.fh_queues.specs.Jobs.{holding_on, renewed, send, sends, end_job, text_of};
ghost use Rattle.fh_queues.specs.declared.act.Act.TheVariants.{EndRows};
ghost use Rattle.fh_queues.specs.declared.act.Which.TheVariants.{Numbered};
ghost use Rattle.fh_queues.specs.Rules.{output_rule, outputs_rule};
ghost use Rattle.fh_queues.specs.Outcome.{releasing, renewing, completing, poisoning, made_by};
ghost use Rattle.fh_queues.specs.Edits.{HasNumbers};
ghost use Rattle.fh_queues.specs.Faults.{IsPlanOf};

use crate::act::{Act, NewMessage, RowChange, Which};
use crate::job_rules::count_sent;
use crate::planning::{MILLISECONDS, one_act, only_sweep};
use crate::{Ending, Expiry, HeldMessage, HeldMessages, QueueChange, QueueDone, Queues};
use fh_base::{Moment, NoMemory, QueueName, Text};
use fh_event::{Output, PlanFault};
use std::alloc::Global;

impl Queues {
    pub(crate) fn plan_release(
        &self,
        alloc: Global,
        m: Moment,
        message: HeldMessage,
        delay: u64,
    ) -> Result<QueueChange, PlanFault>
        ensures { IsPlanOf self.now.part (made_by self.now.part m (releasing self.now.part m message delay)) result }
    {
        if let Some(rule) = self.release_rule(m, message, delay) {
            return Err(PlanFault::Rule(rule));
        }
        let visible_at = m.ms() + delay * MILLISECONDS;
        let change = RowChange {
            visible_at,
            count: None,
            held: false,
            text: None,
        };
        let number = message.number;
        let acts = one_act(alloc, m, Act::ChangeRow { number, change })?;
        Ok(QueueChange {
            acts,
            done: QueueDone::Released {
                receipt: self.lists.next_receipt,
                visible_at,
            },
        })
    }

    pub(crate) fn plan_renew(
        &self,
        alloc: Global,
        m: Moment,
        messages: &[HeldMessage],
        hold: u64,
    ) -> Result<QueueChange, PlanFault>
        requires numbers { HasNumbers self.now.part }
        ensures { IsPlanOf self.now.part
            (made_by self.now.part m (renewing self.now.part m messages.now hold)) result }
    {
        if let Some(rule) = self.renew_rule(m, messages, hold) {
            return Err(PlanFault::Rule(rule));
        }
        let acts = holds_on(alloc, m, messages, m.ms() + hold * MILLISECONDS)?;
        let messages = renewed(alloc, messages, self.lists.next_receipt)?;
        Ok(QueueChange {
            acts,
            done: QueueDone::Renewed { messages },
        })
    }

    pub(crate) fn plan_complete(
        &self,
        alloc: Global,
        m: Moment,
        invocation: u64,
        message: Option<HeldMessage>,
        outputs: &[Output],
    ) -> Result<QueueChange, PlanFault>
        requires numbers { HasNumbers self.now.part }
        ensures { IsPlanOf self.now.part
            (made_by self.now.part m (completing self.now.part m invocation message outputs.now)) result }
    {
        if let Some(rule) = self.complete_rule(m, message, outputs) {
            return Err(PlanFault::Rule(rule));
        }
        let mut acts = end_job(alloc, m, invocation, message)?;
        self.push_sends(alloc, &mut acts, m, outputs)?;
        Ok(QueueChange {
            acts,
            done: QueueDone::Completed {
                number: self.lists.next_number(),
                receipt: self.lists.next_receipt,
                count: count_sent(outputs),
            },
        })
    }

    pub(crate) fn plan_poison(
        &self,
        alloc: Global,
        m: Moment,
        message: HeldMessage,
        queue: &QueueName,
    ) -> Result<QueueChange, PlanFault>
        requires numbers { HasNumbers self.now.part }
        ensures { IsPlanOf self.now.part
            (made_by self.now.part m (poisoning self.now.part m message queue.now)) result }
    {
        if let Some(rule) = self.held_rule(m, message) {
            return Err(PlanFault::Rule(rule));
        }
        let copy = self.lists.next_number();
        let mut acts = end_one(alloc, m, message.number, Ending::Moved { copy })?;
        self.push_copy(alloc, &mut acts, m, message.number, queue)?;
        Ok(QueueChange {
            acts,
            done: QueueDone::Poisoned {
                copy,
                receipt: self.lists.next_receipt,
            },
        })
    }

    // Adds the acts that send a message of the same text.
    fn push_copy(
        &self,
        alloc: Global,
        acts: &mut Vec<Act>,
        m: Moment,
        number: u64,
        queue: &QueueName,
    ) -> Result<(), NoMemory>
        ensures { OnOk result (acts.new.items
            ≡ acts.old.items ++ send m queue.now (text_of (live_row number m self.now.part.rows))) }
    {
        match self.row(number, m) {
            None => self.push_send(acts, m, queue, Text::empty(alloc)),
            Some(row) => self.push_send(acts, m, queue, row.text.copy(alloc)?),
        }
    }

    // Adds the acts that send the outputs to queues.
    fn push_sends(
        &self,
        alloc: Global,
        acts: &mut Vec<Act>,
        m: Moment,
        outputs: &[Output],
    ) -> Result<(), NoMemory>
        requires { outputs_rule outputs.now ≡ None }
        ensures { OnOk result (acts.new.items ≡ acts.old.items ++ sends m outputs.now) }
    {
        for output in outputs {
            self.push_output(alloc, acts, m, output)?;
        }
        Ok(())
    }

    fn push_output(
        &self,
        alloc: Global,
        acts: &mut Vec<Act>,
        m: Moment,
        output: &Output,
    ) -> Result<(), NoMemory>
        requires { output_rule output.now ≡ None }
        ensures { OnOk result (acts.new.items ≡ acts.old.items ++ sends m (output.now ∷ [])) }
    {
        match output {
            Output::Blob { .. } => Ok(()),
            Output::Queue { queue, text } => {
                let Some(queue) = QueueName::read(queue.as_str()) else {
                    return Ok(());
                };
                self.push_send(acts, m, &queue, text.copy(alloc)?)
            }
        }
    }

    // Adds the acts that send a message.
    fn push_send(
        &self,
        acts: &mut Vec<Act>,
        m: Moment,
        queue: &QueueName,
        text: Text,
    ) -> Result<(), NoMemory>
        ensures { OnOk result (acts.new.items ≡ acts.old.items ++ send m queue.now text) }
    {
        let (name, nothing) = self.lists.lanes.share(queue)?;
        let new = NewMessage {
            queue: name,
            text,
            put_at: m.ms(),
            visible_at: m.ms(),
            expiry: Expiry::never(),
            about: nothing,
        };
        acts.push(Act::AddQueue { queue: *queue })?;
        acts.push(Act::AddRow { new })?;
        Ok(())
    }
}

fn end_one(alloc: Global, m: Moment, number: u64, ending: Ending) -> Result<Vec<Act>, NoMemory>
    ensures { IfOk result (λ acts. acts.items ≡ sweep m ∷ EndRows (Numbered number) ending ∷ []) }
{
    let which = Which::Numbered { number };
    one_act(alloc, m, Act::EndRows { which, ending })
}

// The act by which the message of an invocation ends, if it has one.
fn end_job(
    alloc: Global,
    m: Moment,
    invocation: u64,
    message: Option<HeldMessage>,
) -> Result<Vec<Act>, NoMemory>
    ensures { IfOk result (λ acts. acts.items ≡ sweep m ∷ end_job invocation message) }
{
    match message {
        None => only_sweep(alloc, m),
        Some(message) => end_one(alloc, m, message.number, Ending::Completed { invocation }),
    }
}

// The acts that hold messages on until then.
fn holds_on(
    alloc: Global,
    m: Moment,
    messages: &[HeldMessage],
    until: u64,
) -> Result<Vec<Act>, NoMemory>
    ensures { IfOk result (λ acts. acts.items ≡ sweep m ∷ map (holding_on until) messages.now) }
{
    let mut acts = only_sweep(alloc, m)?;
    for message in messages {
        acts.push(Act::ChangeRow {
            number: message.number,
            change: RowChange {
                visible_at: until,
                count: None,
                held: true,
                text: None,
            },
        })?;
    }
    Ok(acts)
}

// The messages, each with a receipt of its own, from that one on.
fn renewed(alloc: Global, messages: &[HeldMessage], receipt: u64) -> Result<HeldMessages, NoMemory>
    requires { receipt + length messages.now < 2 ^ 64 }
    ensures { IfOk result (λ renewed_ones. renewed_ones ≡ renewed receipt messages.now) }
{
    let mut renewed = Vec::new(alloc);
    let mut next = receipt;
    for message in messages {
        renewed.push(HeldMessage {
            number: message.number,
            receipt: next,
        })?;
        next += 1;
    }
    Ok(HeldMessages::new(renewed))
}
