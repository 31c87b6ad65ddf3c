// What the words of a line stand for.
ghost use Rattle.std.specs.Prelude.{◌≡◌};
ghost use Rattle.fh_base.specs.Answers.{Gives};
ghost use Rattle.fh_script.specs.Forms.{number_of, number_or_default, lifetime_of, text_of, flag_of, masks_of_word};

use crate::faults::WordFault;
use fh_base::{SECONDS_OF_WEEK, Text, read_number};
use fh_ncrontab::Schedule;
use percent_encoding::{DecodeError, percent_decode};
use std::alloc::Global;
use std::borrow::CowStr;

/// A number: 1 to 15 decimal digits.
#[tactic(auto, unfolding(crate::specs::Forms::number_of))]
pub(crate) fn number(word: &str) -> Result<u64, WordFault>
    ensures { result ≡ number_of word.now }
{
    match read_number(word.as_bytes()) {
        Some(number) => Ok(number),
        None => Err(WordFault::BadNumber),
    }
}

/// A number, or `-` for the default.
#[tactic(auto, unfolding(crate::specs::Forms::number_or_default))]
pub(crate) fn number_or(word: &str, default: u64) -> Result<u64, WordFault>
    ensures { result ≡ number_or_default default word.now }
{
    if word == "-" {
        return Ok(default);
    }
    number(word)
}

/// A time to live in seconds, or `-1` for none; by default a week.
#[tactic(auto, unfolding(crate::specs::Forms::lifetime_of))]
pub(crate) fn lifetime(word: &str) -> Result<Option<u64>, WordFault>
    ensures { result ≡ lifetime_of word.now }
{
    if word == "-1" {
        return Ok(None);
    }
    let seconds = number_or(word, SECONDS_OF_WEEK)?;
    Ok(Some(seconds))
}

/// A text or a name: escaped by percent signs, or `%` alone for the empty text.
#[tactic(auto, unfolding(crate::specs::Forms::text_of))]
pub(crate) fn text(alloc: Global, word: &str) -> Result<Text, WordFault>
    ensures { Gives WordFault.NoMemory result (text_of word.now) }
{
    if word == "%" {
        return Ok(Text::empty(alloc));
    }
    match percent_decode(word.as_bytes()).decode_utf8(alloc) {
        Ok(CowStr::Borrowed(text)) => Ok(Text::from_str(alloc, text)?),
        Ok(CowStr::Owned(text)) => Ok(Text::new(text)),
        Err(DecodeError::Utf8(_)) => Err(WordFault::BadText),
        Err(DecodeError::OutOfMemory) => Err(WordFault::NoMemory),
    }
}

/// Yes or no: 1 or 0.
#[tactic(auto, unfolding(crate::specs::Forms::flag_of))]
pub(crate) fn flag(word: &str) -> Result<bool, WordFault>
    ensures { result ≡ flag_of word.now }
{
    match number(word)? {
        0 => Ok(false),
        1 => Ok(true),
        _ => Err(WordFault::BadNumber),
    }
}

/// The masks of a schedule, whose text is escaped by percent signs so that it is one word (docs/schedules.md).
#[tactic(auto, unfolding(crate::specs::Forms::masks_of_word))]
pub(crate) fn masks(alloc: Global, word: &str) -> Result<[u64; 6], WordFault>
    ensures { Gives WordFault.NoMemory result (masks_of_word word.now) }
{
    let text = text(alloc, word)?;
    match Schedule::read(text.as_str()) {
        Ok(schedule) => Ok(schedule.masks()),
        Err(_) => Err(WordFault::BadSchedule),
    }
}
