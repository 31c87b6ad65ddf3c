// The words of a line.
ghost use Rattle.std.specs.Prelude.{◌≡◌, IfOk};
ghost use Rattle.fh_script.specs.Words.{texts, words};

use std::alloc::{AllocError, Global};

/// What stands between runs of spaces.
pub(crate) fn words_of<'a>(alloc: Global, text: &'a str) -> Result<Vec<&'a str>, AllocError>
    ensures { IfOk result (λ found. texts found.items ≡ words text.entry.now) }
{
    text.split(' ')
        .filter(|word| !word.is_empty())
        .collect(alloc)
}
