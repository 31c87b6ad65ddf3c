//! Names and texts in pairs.

ghost use Rattle.std.specs.Prelude.{◌≡◌};
ghost use Rattle.std.specs.Option.{option_copied};
ghost use Rattle.fh_exprs.specs.Pairs.{text_at};

use fh_base::Text;
use std::marker::Model;

/// Names with their texts, in order. Of two pairs with one name the first counts. Contracts see the
/// list of pairs.
#[derive(Debug, Drop)]
pub struct Pairs {
    pairs: Vec<(Text, Text)>,
}

impl Model for Pairs {
    ghost use Rattle.std.specs.Prelude.{ℕ, List};

    ghost Value = { List (List ℕ × List ℕ) };

    ghost view = { λ p. p.pairs.items };
}

impl Pairs {
    /// Takes no memory.
    pub fn from_vec(pairs: Vec<(Text, Text)>) -> Pairs
        ensures { result ≡ pairs.items }
    {
        Pairs { pairs }
    }

    /// Takes no memory.
    pub fn into_vec(self) -> Vec<(Text, Text)>
        ensures { result.items ≡ self }
    {
        self.pairs
    }

    pub fn as_slice(&self) -> &[(Text, Text)]
        ensures { result.now ≡ self.now }
    {
        self.pairs.as_slice()
    }

    /// The text beside the first such name. Takes no memory.
    pub fn get(&self, name: &str) -> Option<&str>
        ensures { option_copied result ≡ text_at name.now self.now }
    {
        find_text(self.pairs.as_slice(), name)
    }
}

fn find_text<'a>(pairs: &'a [(Text, Text)], name: &str) -> Option<&'a str>
    ensures { option_copied result ≡ text_at name.now pairs.now }
{
    for pair in pairs {
        if pair.0.as_str() == name {
            return Some(pair.1.as_str());
        }
    }
    None
}
