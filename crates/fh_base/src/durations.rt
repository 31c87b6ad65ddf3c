// Durations as the settings of an app write them.
ghost use Rattle.std.specs.Prelude.{◌≡◌, ◌≤◌, ◌&&◌, nat_le, length, drop, slice_index, IfSome};
ghost use Rattle.std.specs.List.{list_all};
ghost use Rattle.fh_base.specs.Durations.{digit_at as digit_at_lem, duration_of, is_digit, fraction_of as fraction_of_lem, time_of as time_of_lem, two_digits as two_digits_lem, with_days as with_days_lem};

const DAY: u64 = 86_400_000;

/// Reads `[d.]hh:mm:ss[.f]` into milliseconds: one or two digits of days, hours up to 23, minutes and
/// seconds up to 59 with two digits each, and one to seven digits of a fraction, of which the first three
/// count. This is .NET's constant format of a time span, without a sign. `None` comes exactly where the
/// text is of another form.
#[tactic(auto, unfolding(crate::specs::Durations::duration_of))]
pub fn read_duration(text: &str) -> Option<u64>
    ensures { result ≡ duration_of text.now }
{
    let text = text.as_bytes();
    if byte_at(text, 1) == b'.' {
        return with_days(
            two_digits(99, b'0', byte_at(text, 0)),
            time_of(behind(text, 2)),
        );
    }
    if byte_at(text, 2) == b'.' {
        let days = two_digits(99, byte_at(text, 0), byte_at(text, 1));
        return with_days(days, time_of(behind(text, 3)));
    }
    time_of(text)
}

fn with_days(days: Option<u64>, time: Option<u64>) -> Option<u64>
    requires days { IfSome days (λ d. d ≤ 99) }
    requires time { IfSome time (λ t. t ≤ 100000000) }
    ensures { result ≡ with_days_lem days time }
{
    let days = days?;
    let time = time?;
    Some(days * DAY + time)
}

// The time of day that the text is, with its fraction.
fn time_of(text: &[u8]) -> Option<u64>
    ensures value { result ≡ time_of_lem text.now }
    ensures bound { IfSome result (λ t. t ≤ 100000000) }
{
    if byte_at(text, 2) != b':' || byte_at(text, 5) != b':' {
        return None;
    }
    let hours = two_digits(23, byte_at(text, 0), byte_at(text, 1))?;
    let minutes = two_digits(59, byte_at(text, 3), byte_at(text, 4))?;
    let seconds = two_digits(59, byte_at(text, 6), byte_at(text, 7))?;
    let part = fraction_of(behind(text, 8))?;
    Some(((hours * 60 + minutes) * 60 + seconds) * 1000 + part)
}

// A dot and the digits behind it, in milliseconds, or nothing.
fn fraction_of(text: &[u8]) -> Option<u64>
    ensures value { result ≡ fraction_of_lem text.now }
    ensures bound { IfSome result (λ part. part ≤ 30000) }
{
    let [dot, digits @ ..] = text else {
        return Some(0);
    };
    if *dot != b'.' || !is_fraction(digits) {
        return None;
    }
    Some(digit_at(digits, 0) * 100 + digit_at(digits, 1) * 10 + digit_at(digits, 2))
}

// One to seven digits.
fn is_fraction(digits: &[u8]) -> bool
    ensures { result ≡ (nat_le 1 (length digits.now) && nat_le (length digits.now) 7 && list_all is_digit digits.now) }
{
    1 <= digits.len() && digits.len() <= 7 && are_digits(digits)
}

fn are_digits(text: &[u8]) -> bool
    ensures { result ≡ list_all is_digit text.now }
{
    text.iter().all(|c| c.is_ascii_digit())
}

fn digit_at(digits: &[u8], place: usize) -> u64
    ensures value { result ≡ digit_at_lem place digits.now }
    ensures bound { result ≤ 255 }
{
    match digits.get(place) {
        Some(c) => c.saturating_sub(b'0') as u64,
        None => 0,
    }
}

fn two_digits(most: u64, tens: u8, ones: u8) -> Option<u64>
    ensures value { result ≡ two_digits_lem most tens ones }
    ensures bound { IfSome result (λ n. n ≤ most) }
{
    if !tens.is_ascii_digit() || !ones.is_ascii_digit() {
        return None;
    }
    let number = (tens - b'0') as u64 * 10 + (ones - b'0') as u64;
    if number <= most { Some(number) } else { None }
}

// The byte at the place, and 0 behind the end.
fn byte_at(text: &[u8], place: usize) -> u8
    ensures { result ≡ slice_index text.now place }
{
    match text.get(place) {
        Some(byte) => *byte,
        None => 0,
    }
}

fn behind(text: &[u8], place: usize) -> &[u8]
    ensures { result.now ≡ drop place text.now }
{
    if place <= text.len() {
        &text[place..]
    } else {
        &[]
    }
}
