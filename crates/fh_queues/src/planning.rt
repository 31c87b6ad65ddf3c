// What an ask comes to, before anything changes.
ghost use Rattle.std.specs.Prelude.{◌≡◌, ◌<◌, ◌≤◌, ◌+◌, ◌^◌, ◌∷◌, [], None, map, option_map, IfOk, IfErr, IfSome};
ghost use Rattle.fh_queues.specs.Asks.{ask_of};
ghost use Rattle.fh_queues.specs.Acts.{sweep};
ghost use Rattle.fh_queues.specs.declared.act.Act.TheVariants.{EndRows};
ghost use Rattle.fh_queues.specs.Outcome.{acting, making, putting, taking, updating, deleting, emptying, outcome, made_by, too_full, expiry_after, hold};
ghost use Rattle.fh_queues.specs.Edits.{IsIdle, HasNumbers, planned};
ghost use Rattle.fh_queues.specs.Faults.{IsPlanOf};

use crate::act::{Act, NewMessage, RowChange, Which};
use crate::choosing::taken_items;
use crate::{Ending, Expiry, Message, QueueAsk, QueueChange, QueueDone, Queues, Subject};
use fh_base::{Moment, NoMemory, QueueName, Rule, Text};
use fh_event::{About, Item, PlanFault};
use std::alloc::Global;

/// Milliseconds of a second.
pub(crate) const MILLISECONDS: u64 = 1000;

impl Queues {
    /// The change that an ask makes at a moment, or the rule that refuses it. Rules are tested in the
    /// order of their numbers. A change that is quiet makes nothing.
    #[tactic(auto, unfolding(crate::specs::Outcome::acting, crate::specs::Outcome::outcome))]
    pub fn plan(
        &self,
        alloc: Global,
        ask: &QueueAsk<'_>,
        m: Moment,
    ) -> Result<QueueChange, PlanFault>
        requires idle { IsIdle self.now }
        requires numbers { HasNumbers self.now.part }
        ensures { IsPlanOf self.now.part (outcome self.now.part (ask_of ask.now) m) result }
    {
        match ask {
            QueueAsk::Make { queue } => self.plan_make(alloc, m, queue),
            QueueAsk::Put {
                queue,
                delay,
                ttl,
                text,
                about,
            } => self.plan_put(alloc, m, queue, *delay, *ttl, text, *about),
            QueueAsk::Take { queue, count, hold } => self.plan_take(alloc, m, queue, *count, *hold),
            QueueAsk::Update {
                queue,
                number,
                receipt,
                hold,
                text,
            } => self.plan_update(alloc, m, queue, *number, *receipt, *hold, *text),
            QueueAsk::Delete {
                queue,
                number,
                receipt,
            } => self.plan_delete(alloc, m, queue, *number, *receipt),
            QueueAsk::Clear { queue } => self.plan_clear(alloc, m, queue),
            QueueAsk::Release { message, delay } => self.plan_release(alloc, m, *message, *delay),
            QueueAsk::Renew { messages, hold } => self.plan_renew(alloc, m, messages, *hold),
            QueueAsk::Complete {
                invocation,
                message,
                outputs,
            } => self.plan_complete(alloc, m, *invocation, *message, outputs.as_slice()),
            QueueAsk::Poison { message, queue } => self.plan_poison(alloc, m, *message, queue),
            QueueAsk::Sweep => Ok(QueueChange {
                acts: only_sweep(alloc, m)?,
                done: QueueDone::Swept,
            }),
        }
    }

    /// What the queues would be too full for. It is asked where no rule refuses the ask and it isn't quiet.
    #[tactic(auto, unfolding(crate::specs::Outcome::too_full))]
    pub fn too_full(&self, ask: &QueueAsk<'_>, m: Moment) -> Option<Rule>
        ensures { result ≡ too_full self.now.part (ask_of ask.now) m }
    {
        match ask {
            QueueAsk::Put { .. } => self.store_rule(m),
            QueueAsk::Make { .. }
            | QueueAsk::Take { .. }
            | QueueAsk::Update { .. }
            | QueueAsk::Delete { .. }
            | QueueAsk::Clear { .. }
            | QueueAsk::Release { .. }
            | QueueAsk::Renew { .. }
            | QueueAsk::Complete { .. }
            | QueueAsk::Poison { .. }
            | QueueAsk::Sweep => None,
        }
    }

    fn plan_make(
        &self,
        alloc: Global,
        m: Moment,
        queue: &QueueName,
    ) -> Result<QueueChange, PlanFault>
        ensures { IsPlanOf self.now.part (made_by self.now.part m (making self.now.part queue.now)) result }
    {
        if self.has_queue(queue) {
            return Ok(QueueChange::quiet(alloc, QueueDone::There));
        }
        let acts = one_act(alloc, m, Act::AddQueue { queue: *queue })?;
        Ok(QueueChange {
            acts,
            done: QueueDone::Made,
        })
    }

    fn plan_put(
        &self,
        alloc: Global,
        m: Moment,
        queue: &QueueName,
        delay: u64,
        ttl: Option<u64>,
        text: &Text,
        about: Option<&About>,
    ) -> Result<QueueChange, PlanFault>
        requires numbers { HasNumbers self.now.part }
        ensures { IsPlanOf self.now.part (made_by self.now.part m
            (putting self.now.part m queue.now delay ttl text.now (option_map (λ a. a.now) about.entry)))
            result }
    {
        if let Some(rule) = self.put_rule(queue, delay, ttl, text) {
            return Err(PlanFault::Rule(rule));
        }
        let (queue, nothing) = self.lists.lanes.share(queue)?;
        let new = NewMessage {
            queue,
            text: text.copy(alloc)?,
            put_at: m.ms(),
            visible_at: m.ms() + delay * MILLISECONDS,
            expiry: expiry_after(m, ttl),
            about: subject_of(alloc, nothing, about)?,
        };
        let acts = one_act(alloc, m, Act::AddRow { new })?;
        Ok(QueueChange {
            acts,
            done: QueueDone::Stored {
                number: self.lists.next_number(),
                receipt: self.lists.next_receipt,
            },
        })
    }

    fn plan_take(
        &self,
        alloc: Global,
        m: Moment,
        queue: &QueueName,
        count: u64,
        hold: u64,
    ) -> Result<QueueChange, PlanFault>
        requires numbers { HasNumbers self.now.part }
        ensures { IsPlanOf self.now.part
            (made_by self.now.part m (taking self.now.part m queue.now count hold)) result }
    {
        if let Some(rule) = self.take_rule(queue, count, hold) {
            return Err(PlanFault::Rule(rule));
        }
        let rows = self.lists.chosen(alloc, queue, count, m)?;
        if rows.is_empty() {
            return Ok(QueueChange::quiet(alloc, QueueDone::Empty));
        }
        let items = taken_items(alloc, &rows, self.lists.next_receipt)?;
        let acts = holds(alloc, m, items.as_slice(), m.ms() + hold * MILLISECONDS)?;
        Ok(QueueChange {
            acts,
            done: QueueDone::Taken { items },
        })
    }

    fn plan_update(
        &self,
        alloc: Global,
        m: Moment,
        queue: &QueueName,
        number: u64,
        receipt: u64,
        hold: u64,
        text: Option<&Text>,
    ) -> Result<QueueChange, PlanFault>
        ensures { IsPlanOf self.now.part (made_by self.now.part m
            (updating self.now.part m queue.now number receipt hold (option_map (λ t. t.now) text.entry)))
            result }
    {
        if let Some(rule) = self.update_rule(m, queue, number, receipt, hold, text) {
            return Err(PlanFault::Rule(rule));
        }
        let change = RowChange {
            visible_at: m.ms() + hold * MILLISECONDS,
            count: None,
            held: true,
            text: text_of(alloc, text)?,
        };
        let acts = one_act(alloc, m, Act::ChangeRow { number, change })?;
        Ok(QueueChange {
            acts,
            done: QueueDone::Updated {
                receipt: self.lists.next_receipt,
            },
        })
    }

    fn plan_delete(
        &self,
        alloc: Global,
        m: Moment,
        queue: &QueueName,
        number: u64,
        receipt: u64,
    ) -> Result<QueueChange, PlanFault>
        ensures { IsPlanOf self.now.part
            (made_by self.now.part m (deleting self.now.part m queue.now number receipt)) result }
    {
        if let Some(rule) = self.message_rule(m, queue, number, receipt) {
            return Err(PlanFault::Rule(rule));
        }
        let acts = deletion(alloc, m, Which::Numbered { number })?;
        Ok(QueueChange {
            acts,
            done: QueueDone::Deleted,
        })
    }

    fn plan_clear(
        &self,
        alloc: Global,
        m: Moment,
        queue: &QueueName,
    ) -> Result<QueueChange, PlanFault>
        ensures { IsPlanOf self.now.part
            (made_by self.now.part m (emptying self.now.part m queue.now)) result }
    {
        if let Some(rule) = self.queue_rule(queue) {
            return Err(PlanFault::Rule(rule));
        }
        let count = self.lists.live_in(queue, m);
        if count == 0 {
            return Ok(QueueChange::quiet(alloc, QueueDone::Empty));
        }
        let acts = deletion(alloc, m, Which::InQueue { queue: *queue })?;
        Ok(QueueChange {
            acts,
            done: QueueDone::Cleared { count },
        })
    }
}

impl QueueChange {
    // A change that makes nothing.
    fn quiet(alloc: Global, done: QueueDone) -> QueueChange
        ensures { result ≡ record { acts = []; done = done } }
    {
        QueueChange {
            acts: Vec::new(alloc),
            done,
        }
    }
}

pub(crate) fn only_sweep(alloc: Global, m: Moment) -> Result<Vec<Act>, NoMemory>
    ensures { IfOk result (λ acts. acts.items ≡ sweep m ∷ []) }
{
    let mut acts = Vec::new(alloc);
    acts.push(Act::sweep(m))?;
    Ok(acts)
}

pub(crate) fn one_act(alloc: Global, m: Moment, act: Act) -> Result<Vec<Act>, NoMemory>
    ensures { IfOk result (λ acts. acts.items ≡ sweep m ∷ act ∷ []) }
{
    let mut acts = only_sweep(alloc, m)?;
    acts.push(act)?;
    Ok(acts)
}

fn deletion(alloc: Global, m: Moment, which: Which) -> Result<Vec<Act>, NoMemory>
    ensures { IfOk result (λ acts. acts.items ≡ sweep m ∷ EndRows which Ending.Deleted ∷ []) }
{
    one_act(
        alloc,
        m,
        Act::EndRows {
            which,
            ending: Ending::Deleted,
        },
    )
}

// The acts that hold messages until then, as they are listed.
fn holds(alloc: Global, m: Moment, items: &[Item], until: u64) -> Result<Vec<Act>, NoMemory>
    ensures { IfOk result (λ acts. acts.items ≡ sweep m ∷ map (hold until) items.now) }
{
    let mut acts = only_sweep(alloc, m)?;
    for item in items {
        acts.push(Act::ChangeRow {
            number: item.number,
            change: RowChange {
                visible_at: until,
                count: Some(item.count),
                held: true,
                text: None,
            },
        })?;
    }
    Ok(acts)
}

fn expiry_after(m: Moment, ttl: Option<u64>) -> Expiry
    requires { IfSome ttl (λ seconds. seconds ≤ 2147483647) }
    ensures { result ≡ expiry_after m ttl }
{
    match ttl {
        None => Expiry::never(),
        Some(ttl) => Expiry::at(m.ms() + ttl * MILLISECONDS),
    }
}

fn subject_of(alloc: Global, nothing: Subject, about: Option<&About>) -> Result<Subject, NoMemory>
    requires { nothing ≡ None }
    ensures { IfOk result (λ own. own ≡ option_map (λ a. a.now) about.entry) }
{
    match about {
        None => Ok(nothing),
        Some(about) => Subject::new(alloc, Some(about.copy(alloc)?)),
    }
}

fn text_of(alloc: Global, text: Option<&Text>) -> Result<Option<Text>, NoMemory>
    ensures { IfOk result (λ own. own ≡ option_map (λ t. t.now) text.entry) }
{
    match text {
        None => Ok(None),
        Some(text) => Ok(Some(text.copy(alloc)?)),
    }
}
