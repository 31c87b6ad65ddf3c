// The rules that refuse what is asked, in order of their numbers.
ghost use Rattle.std.specs.Prelude.{◌≡◌, option_map, option_copied, length};
ghost use Rattle.fh_queues.specs.Rows.{live, row_in};
ghost use Rattle.fh_queues.specs.Rules.{range_rule, text_rule, new_text_rule, ttl_rule, delay_rule, queue_rule, receipt_rule, store_rule, put_rule, take_rule, peek_rule, message_rule, update_rule};

use crate::{Message, Queues};
use fh_base::{LONGEST_TEXT, Moment, QueueName, Rule, SECONDS_OF_WEEK, Text};

/// The most messages that are live.
pub(crate) const MOST_LIVE: u64 = 100_000;

/// The longest time to live, in seconds.
const MOST_TTL: u64 = 2_147_483_647;

/// The most messages that one call takes or reads.
const MOST_COUNT: u64 = 32;

impl Queues {
    pub(crate) fn put_rule(
        &self,
        queue: &QueueName,
        delay: u64,
        ttl: Option<u64>,
        text: &Text,
    ) -> Option<Rule>
        ensures { result ≡ put_rule self.now.part queue.now delay ttl text.now }
    {
        if let Some(rule) = text_rule(text) {
            return Some(rule);
        }
        if let Some(rule) = ttl_rule(ttl) {
            return Some(rule);
        }
        if let Some(rule) = delay_rule(delay, ttl) {
            return Some(rule);
        }
        self.queue_rule(queue)
    }

    pub(crate) fn take_rule(&self, queue: &QueueName, count: u64, hold: u64) -> Option<Rule>
        ensures { result ≡ take_rule self.now.part queue.now count hold }
    {
        if let Some(rule) = range_rule(count, 1, MOST_COUNT) {
            return Some(rule);
        }
        if let Some(rule) = range_rule(hold, 1, SECONDS_OF_WEEK) {
            return Some(rule);
        }
        self.queue_rule(queue)
    }

    pub(crate) fn peek_rule(&self, queue: &QueueName, count: u64) -> Option<Rule>
        ensures { result ≡ peek_rule self.now.part queue.now count }
    {
        if let Some(rule) = range_rule(count, 1, MOST_COUNT) {
            return Some(rule);
        }
        self.queue_rule(queue)
    }

    pub(crate) fn update_rule(
        &self,
        m: Moment,
        queue: &QueueName,
        number: u64,
        receipt: u64,
        hold: u64,
        text: Option<&Text>,
    ) -> Option<Rule>
        ensures { result
            ≡ update_rule self.now.part m queue.now number receipt hold (option_map (λ t. t.now) text.entry) }
    {
        if let Some(rule) = new_text_rule(text) {
            return Some(rule);
        }
        if let Some(rule) = range_rule(hold, 0, SECONDS_OF_WEEK) {
            return Some(rule);
        }
        self.message_rule(m, queue, number, receipt)
    }

    pub(crate) fn message_rule(
        &self,
        m: Moment,
        queue: &QueueName,
        number: u64,
        receipt: u64,
    ) -> Option<Rule>
        ensures { result ≡ message_rule self.now.part m queue.now number receipt }
    {
        match self.queue_rule(queue) {
            Some(rule) => Some(rule),
            None => receipt_rule(self.row_in(queue, number, m), receipt),
        }
    }

    pub(crate) fn queue_rule(&self, queue: &QueueName) -> Option<Rule>
        ensures { result ≡ queue_rule self.now.part queue.now }
    {
        if self.has_queue(queue) {
            return None;
        }
        Some(Rule::QueueNotFound)
    }

    /// The store is full.
    pub(crate) fn store_rule(&self, m: Moment) -> Option<Rule>
        ensures { result ≡ store_rule self.now.part m }
    {
        // Of fewer rows than that fewer are live: no need to look at them.
        if (self.lists.count as u64) < MOST_LIVE {
            return None;
        }
        let live = self.live(m);
        if MOST_LIVE <= live {
            return Some(Rule::StoreFull { live });
        }
        None
    }
}

pub(crate) fn range_rule(given: u64, low: u64, high: u64) -> Option<Rule>
    ensures { result ≡ range_rule given low high }
{
    if low <= given && given <= high {
        return None;
    }
    Some(Rule::OutOfRange { given, low, high })
}

pub(crate) fn text_rule(text: &Text) -> Option<Rule>
    ensures { result ≡ text_rule text.now }
{
    if LONGEST_TEXT < text.len() {
        return Some(Rule::TooLarge {
            size: text.len() as u64,
            limit: LONGEST_TEXT as u64,
        });
    }
    None
}

fn new_text_rule(text: Option<&Text>) -> Option<Rule>
    ensures { result ≡ new_text_rule (option_map (λ t. t.now) text.entry) }
{
    match text {
        None => None,
        Some(text) => text_rule(text),
    }
}

fn ttl_rule(ttl: Option<u64>) -> Option<Rule>
    ensures { result ≡ ttl_rule ttl }
{
    match ttl {
        None => None,
        Some(ttl) => range_rule(ttl, 1, MOST_TTL),
    }
}

// A message is visible before it expires.
fn delay_rule(delay: u64, ttl: Option<u64>) -> Option<Rule>
    ensures { result ≡ delay_rule delay ttl }
{
    match ttl {
        None => range_rule(delay, 0, SECONDS_OF_WEEK),
        Some(ttl) => range_rule(delay, 0, SECONDS_OF_WEEK.min(ttl.saturating_sub(1))),
    }
}

pub(crate) fn receipt_rule(row: Option<&Message>, receipt: u64) -> Option<Rule>
    ensures { result ≡ receipt_rule (option_copied row.entry) receipt }
{
    match row {
        None => Some(Rule::MessageNotFound),
        Some(row) if row.receipt == receipt => None,
        Some(row) => Some(Rule::PopReceiptMismatch {
            current: row.receipt,
        }),
    }
}
