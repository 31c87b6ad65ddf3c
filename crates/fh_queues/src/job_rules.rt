// The rules that refuse what is asked of the message of an invocation, and of its outputs.
ghost use Rattle.std.specs.Prelude.{◌≡◌, ◌≤◌, ◌∷◌, [], map};
ghost use Rattle.fh_queues.specs.Jobs.{count_sent};
ghost use Rattle.fh_queues.specs.Rules.{first_broken, held_rule, release_rule, renew_rule, name_rule, output_rule, outputs_rule, job_rule, live_beside, room_rule, complete_rule};

use crate::rules::{MOST_LIVE, range_rule, receipt_rule, text_rule};
use crate::{HeldMessage, Queues};
use fh_base::{Moment, QueueName, Rule, SECONDS_OF_WEEK, Text};
use fh_event::Output;

impl Queues {
    /// The message isn't live, or has another receipt.
    pub(crate) fn held_rule(&self, m: Moment, message: HeldMessage) -> Option<Rule>
        ensures { result ≡ held_rule self.now.part m message }
    {
        receipt_rule(self.row(message.number, m), message.receipt)
    }

    pub(crate) fn release_rule(&self, m: Moment, message: HeldMessage, delay: u64) -> Option<Rule>
        ensures { result ≡ release_rule self.now.part m message delay }
    {
        match self.held_rule(m, message) {
            Some(rule) => Some(rule),
            None => range_rule(delay, 0, SECONDS_OF_WEEK),
        }
    }

    pub(crate) fn renew_rule(&self, m: Moment, messages: &[HeldMessage], hold: u64) -> Option<Rule>
        ensures { result ≡ renew_rule self.now.part m messages.now hold }
    {
        match self.all_held_rule(m, messages) {
            Some(rule) => Some(rule),
            None => range_rule(hold, 1, SECONDS_OF_WEEK),
        }
    }

    fn all_held_rule(&self, m: Moment, messages: &[HeldMessage]) -> Option<Rule>
        ensures { result ≡ first_broken (map (held_rule self.now.part m) messages.now) }
    {
        for message in messages {
            if let Some(rule) = self.held_rule(m, *message) {
                return Some(rule);
            }
        }
        None
    }

    /// The message isn't held, an output breaks a rule, or the outputs have no room.
    pub(crate) fn complete_rule(
        &self,
        m: Moment,
        message: Option<HeldMessage>,
        outputs: &[Output],
    ) -> Option<Rule>
        ensures { result ≡ complete_rule self.now.part m message outputs.now }
    {
        if let Some(rule) = self.job_rule(m, message) {
            return Some(rule);
        }
        if let Some(rule) = outputs_rule(outputs) {
            return Some(rule);
        }
        self.room_rule(m, message, outputs)
    }

    fn job_rule(&self, m: Moment, message: Option<HeldMessage>) -> Option<Rule>
        ensures { result ≡ job_rule self.now.part m message }
    {
        match message {
            None => None,
            Some(message) => self.held_rule(m, message),
        }
    }

    /// The outputs have no room beside the messages that stay.
    pub fn room_rule(
        &self,
        m: Moment,
        message: Option<HeldMessage>,
        outputs: &[Output],
    ) -> Option<Rule>
        ensures { result ≡ room_rule self.now.part m message outputs.now }
    {
        let live = self.live_beside(m, message);
        if MOST_LIVE < live.saturating_add(count_sent(outputs)) {
            return Some(Rule::StoreFull { live });
        }
        None
    }

    fn live_beside(&self, m: Moment, message: Option<HeldMessage>) -> u64
        ensures { result ≡ live_beside self.now.part m message }
    {
        let live = self.live(m);
        match message {
            None => live,
            Some(_) => live.saturating_sub(1),
        }
    }
}

fn outputs_rule(outputs: &[Output]) -> Option<Rule>
    ensures { result ≡ outputs_rule outputs.now }
{
    for output in outputs {
        if let Some(rule) = output_rule(output) {
            return Some(rule);
        }
    }
    None
}

fn output_rule(output: &Output) -> Option<Rule>
    ensures { result ≡ output_rule output.now }
{
    match output {
        Output::Blob { .. } => None,
        Output::Queue { queue, text } => match name_rule(queue) {
            Some(rule) => Some(rule),
            None => text_rule(text),
        },
    }
}

fn name_rule(name: &Text) -> Option<Rule>
    ensures { result ≡ name_rule name.now }
{
    match QueueName::read(name.as_str()) {
        None => Some(Rule::BadName),
        Some(_) => None,
    }
}

/// How many outputs go to queues.
pub(crate) fn count_sent(outputs: &[Output]) -> u64
    ensures { result ≡ count_sent outputs.now }
{
    let mut count = 0;
    for output in outputs {
        count += sent_by(output);
    }
    count
}

fn sent_by(output: &Output) -> u64
    ensures count { result ≡ count_sent (output.now ∷ []) }
    ensures few { result ≤ 1 }
{
    match output {
        Output::Queue { .. } => 1,
        Output::Blob { .. } => 0,
    }
}
