// The name of a queue, or of a container, whose grammar is the same.
ghost use Rattle.std.specs.Prelude.{◌≡◌, ◌||◌, true, false, MatchOption};
ghost use Rattle.std.specs.List.{list_all};
ghost use Rattle.fh_base.specs.Names.{is_letter_or_digit, is_dash, begins_with_dash, has_two_dashes_together, has_queue_length, has_firm_ends, is_queue_name};

use std::marker::Model;

const MOST: usize = 63;

/// A name of 3 to 63 lower-case letters, digits and dashes, in which a letter or digit stands first and
/// last, and no two dashes stand together: the Azure Queue service's rule for queues, and for containers.
/// Contracts see the list of its bytes.
#[derive(Clone, Copy)]
pub struct QueueName {
    bytes: [u8; 63],
    length: u8,
}

impl Model for QueueName {
    ghost use Rattle.std.specs.Prelude.{◌≡◌, ◌-◌, ◌++◌, true, List, ℕ, take, drop, replicate};
    ghost use Rattle.std.specs.Prelude.{length as list_length};

    ghost Value = { List ℕ };

    ghost use Rattle.fh_base.specs.Names.{is_queue_name};
    ghost use Rattle.fh_base.specs.QueueNames.{name_of, padded, IsNamed, padded_ok};

    ghost view = { name_of };

    ghost invariant = { IsNamed };

    ghost inverse = { padded };

    ghost inverse_ok = { padded_ok };
}

impl QueueName {
    /// The name of the text, or `None` exactly where the text is no queue name.
    pub fn read(text: &str) -> Option<QueueName>
        ensures { MatchOption result (is_queue_name text.now ≡ false) (λ name. (is_queue_name text.now ≡ true) × (name ≡ text.now)) }
    {
        QueueName::of_bytes(text.as_bytes())
    }

    pub(crate) fn of_bytes(text: &[u8]) -> Option<QueueName>
        ensures { MatchOption result (is_queue_name text.now ≡ false) (λ name. (is_queue_name text.now ≡ true) × (name ≡ text.now)) }
    {
        if !is_queue_name(text) {
            return None;
        }
        let mut bytes = [0; MOST];
        bytes[..text.len()].copy_from_slice(text);
        Some(QueueName {
            bytes,
            length: text.len() as u8,
        })
    }

    pub fn as_bytes(&self) -> &[u8]
        ensures text { result.now ≡ self.now }
        ensures name { is_queue_name result.now ≡ true }
    {
        &self.bytes[..self.length as usize]
    }
}

fn is_queue_name(text: &[u8]) -> bool
    ensures { result ≡ is_queue_name text.now }
{
    has_queue_length(text)
        && has_queue_characters(text)
        && has_firm_ends(text)
        && !has_two_dashes_together(text)
}

fn has_queue_length(text: &[u8]) -> bool
    ensures { result ≡ has_queue_length text.now }
{
    3 <= text.len() && text.len() <= MOST
}

fn has_queue_characters(text: &[u8]) -> bool
    ensures { result ≡ list_all (λ c. is_letter_or_digit c || is_dash c) text.now }
{
    text.iter().all(|c| is_letter_or_digit(*c) || is_dash(*c))
}

fn has_firm_ends(text: &[u8]) -> bool
    ensures { result ≡ has_firm_ends text.now }
{
    if text.is_empty() {
        return false;
    }
    is_letter_or_digit(text[0]) && is_letter_or_digit(text[text.len() - 1])
}

fn is_letter_or_digit(c: u8) -> bool
    ensures { result ≡ is_letter_or_digit c }
{
    c.is_ascii_lowercase() || c.is_ascii_digit()
}

fn is_dash(c: u8) -> bool
    ensures { result ≡ is_dash c }
{
    c == b'-'
}

fn has_two_dashes_together(text: &[u8]) -> bool
    ensures { result ≡ has_two_dashes_together text.now }
{
    let mut rest = text;
    while let [first, after @ ..] = rest {
        if is_dash(*first) && begins_with_dash(after) {
            return true;
        }
        rest = after;
    }
    false
}

fn begins_with_dash(text: &[u8]) -> bool
    ensures { result ≡ begins_with_dash text.now }
{
    match text {
        [] => false,
        [first, ..] => is_dash(*first),
    }
}
