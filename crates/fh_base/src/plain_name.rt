// The name of a function, or of a client's lease.
ghost use Rattle.std.specs.Prelude.{◌≡◌, ◌||◌, true, false, MatchOption};
ghost use Rattle.std.specs.List.{list_all};
ghost use Rattle.fh_base.specs.PlainNames.{is_letter, is_plain_character, begins_with_letter, is_plain_name};

use std::marker::Model;

const MOST: usize = 127;

/// A name of 1 to 127 ASCII letters, digits, `-` and `_`, of which the first is a letter. Contracts see
/// the list of its bytes.
#[derive(Clone, Copy)]
pub struct PlainName {
    bytes: [u8; 127],
    length: u8,
}

impl Model for PlainName {
    ghost use Rattle.std.specs.Prelude.{List, ℕ};

    ghost Value = { List ℕ };

    ghost use Rattle.fh_base.specs.PlainFields.{name_of, padded, IsNamed, padded_ok};

    ghost view = { name_of };

    ghost invariant = { IsNamed };

    ghost inverse = { padded };

    ghost inverse_ok = { padded_ok };
}

impl PlainName {
    /// The name of the text, or `None` exactly where the text is no plain name.
    pub fn read(text: &str) -> Option<PlainName>
        ensures { MatchOption result (is_plain_name text.now ≡ false) (λ name. (is_plain_name text.now ≡ true) × (name ≡ text.now)) }
    {
        let text = text.as_bytes();
        if !is_plain_name(text) {
            return None;
        }
        let mut bytes = [0; MOST];
        bytes[..text.len()].copy_from_slice(text);
        Some(PlainName {
            bytes,
            length: text.len() as u8,
        })
    }

    pub fn as_bytes(&self) -> &[u8]
        ensures text { result.now ≡ self.now }
        ensures name { is_plain_name result.now ≡ true }
    {
        &self.bytes[..self.length as usize]
    }
}

fn is_plain_name(text: &[u8]) -> bool
    ensures { result ≡ is_plain_name text.now }
{
    text.len() <= MOST && begins_with_letter(text) && has_plain_characters(text)
}

fn begins_with_letter(text: &[u8]) -> bool
    ensures { result ≡ begins_with_letter text.now }
{
    match text {
        [] => false,
        [first, ..] => first.is_ascii_alphabetic(),
    }
}

fn has_plain_characters(text: &[u8]) -> bool
    ensures { result ≡ list_all is_plain_character text.now }
{
    text.iter().all(|c| is_plain_character(*c))
}

fn is_plain_character(c: u8) -> bool
    ensures { result ≡ is_plain_character c }
{
    c.is_ascii_alphabetic() || c.is_ascii_digit() || c == b'-' || c == b'_'
}
