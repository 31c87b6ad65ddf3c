// The kinds of values that members have. `None` is a value of another kind.
ghost use Rattle.std.specs.Prelude.{◌≡◌};
ghost use Rattle.std.specs.Option.{option_copied};
ghost use Rattle.serde_json.specs.View.{view};
ghost use Rattle.fh_app.specs.Kinds.{filled_text as filled_text_lem, is_text as is_text_lem, number_in as number_in_lem, encoding as encoding_lem, encoding_named as encoding_named_lem, duration_in as duration_in_lem};

use fh_base::read_duration;
use serde_json::Value;

pub(crate) fn filled_text(value: &Value) -> Option<&str>
    ensures { option_copied result ≡ filled_text_lem (view value.now) }
{
    let text = value.as_str()?;
    if text.is_empty() { None } else { Some(text) }
}

// Whether the value is this text.
pub(crate) fn is_text(value: &Value, word: &str) -> bool
    ensures { result ≡ is_text_lem word.now (view value.now) }
{
    match value.as_str() {
        Some(text) => text == word,
        None => false,
    }
}

pub(crate) fn number_in(value: &Value, least: u64, most: u64) -> Option<u64>
    ensures { result ≡ number_in_lem least most (view value.now) }
{
    let number = value.as_u64()?;
    if least <= number && number <= most {
        Some(number)
    } else {
        None
    }
}

pub(crate) fn encoding(value: &Value) -> Option<bool>
    ensures { result ≡ encoding_lem (view value.now) }
{
    let word = value.as_str()?;
    encoding_named(word)
}

fn encoding_named(word: &str) -> Option<bool>
    ensures { result ≡ encoding_named_lem word.now }
{
    if word == "base64" {
        Some(true)
    } else if word == "none" {
        Some(false)
    } else {
        None
    }
}

// In milliseconds.
pub(crate) fn duration_in(value: &Value, least: u64, most: u64) -> Option<u64>
    ensures { result ≡ duration_in_lem least most (view value.now) }
{
    let text = value.as_str()?;
    let length = read_duration(text)?;
    if least <= length && length <= most {
        Some(length)
    } else {
        None
    }
}
