// The rules that refuse what is asked.
ghost use Rattle.std.specs.Prelude.{◌≡◌};
ghost use Rattle.fh_blobs.specs.Rules.{text_rule, texts_rule};

use crate::NewBlob;
use fh_base::{Rule, Text};

/// The most bytes of a text.
const MOST_TEXT: u64 = 1_048_576;

pub(crate) fn text_rule(text: &Text) -> Option<Rule>
    ensures { result ≡ text_rule text.now }
{
    let size = text.len() as u64;
    if MOST_TEXT < size {
        return Some(Rule::TooLarge {
            size,
            limit: MOST_TEXT,
        });
    }
    None
}

pub(crate) fn texts_rule(blobs: &[NewBlob]) -> Option<Rule>
    ensures { result ≡ texts_rule blobs.now }
{
    for blob in blobs {
        if let Some(rule) = text_rule(&blob.text) {
            return Some(rule);
        }
    }
    None
}
