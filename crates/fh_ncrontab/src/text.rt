// The text of a schedule: words between runs of spaces, each read as a field.
ghost use Rattle.std.specs.Prelude.{◌≡◌, ℕ, ◌<◌, ◌≤◌, ◌||◌, ◌==◌, ◌∷◌, [], Some, None, length, slice_index_or, IsTrue, IfOk, IfErr, IfSome, IfNone, option_copied};
ghost use Rattle.fh_ncrontab.specs.Fields.{numbers_of};
ghost use Rattle.fh_ncrontab.specs.Texts.{words, field, fault_at};
ghost use Rattle.fh_ncrontab.specs.Pieces.{words_left, length_left};

use crate::part::first_piece;
use crate::{CronFault, Field, FieldFault};

// Reads the field with this number, where the text has that many words.
pub(crate) fn read_field<const LO: u8, const HI: u8>(
    text: &str,
    given: u64,
    number: u8,
) -> Result<Field<LO, HI>, CronFault>
    requires order { LO ≤ HI }
    requires high { HI < 64 }
    requires given { given ≡ length (words text.now) }
    requires count { IsTrue ((given == 5) || (given == 6)) }
    requires number { number < 6 }
    ensures faultless { IfOk result (λ f. fault_at number LO HI text.now ≡ None) }
    ensures set { IfOk result (λ f. f ≡ numbers_of LO HI (field text.now number)) }
    ensures fault { IfErr result (λ e. fault_at number LO HI text.now ≡ Some e) }
{
    match Field::read(field_text(text, given, number)) {
        Ok(set) => Ok(set),
        Err(FieldFault::Bad) => Err(CronFault::BadField { field: number }),
        Err(FieldFault::Backward) => Err(CronFault::BackwardRange { field: number }),
    }
}

// The text of that field. Where five are given, the second is 0.
fn field_text(text: &str, given: u64, number: u8) -> &str
    requires given { given ≡ length (words text.now) }
    requires count { IsTrue ((given == 5) || (given == 6)) }
    requires number { number < 6 }
    ensures { result.now ≡ field text.now number }
{
    if given == 6 {
        return word(text, number);
    }
    if number == 0 {
        return "0";
    }
    word(text, number - 1)
}

// How many words the text has.
pub(crate) fn count_words(text: &str) -> u64
    ensures { result ≡ length (words text.now) }
{
    let mut count = 0;
    let mut rest = Some(text);
    while let Some((_, after)) = first_word(rest) {
        count += 1;
        rest = after;
    }
    count
}

// The word with that many words before it.
fn word(text: &str, index: u8) -> &str
    requires { index < length (words text.now) }
    ensures { result.now ≡ slice_index_or (words text.now) index [] }
{
    let mut before = index;
    let mut rest = Some(text);
    while let Some((word, after)) = first_word(rest) {
        if before == 0 {
            return word;
        }
        before -= 1;
        rest = after;
    }
    unreachable!()
}

// The first word of what is left of a text, and what is left behind it.
fn first_word(text: Option<&str>) -> Option<(&str, Option<&str>)>
    ensures words { IfSome result (λ x. words_left (option_copied text.entry)
        ≡ x.0.now ∷ words_left (option_copied x.1)) }
    ensures shorter { IfSome result (λ x. length_left (option_copied x.1)
        < length_left (option_copied text.entry)) }
    ensures none { IfNone result (words_left (option_copied text.entry) ≡ []) }
{
    let mut rest = text;
    while let Some(here) = rest {
        let (piece, after) = first_piece(here, ' ');
        if !piece.is_empty() {
            return Some((piece, after));
        }
        rest = after;
    }
    None
}
