// One part of a field: `*`, a value or a range, and maybe a step.
ghost use Rattle.std.specs.Prelude.{◌≡◌, ℕ, ◌<◌, ◌≤◌, ◌||◌, ◌∷◌, length, IfOk, IfSome, option_copied, option_map};
ghost use Rattle.fh_ncrontab.specs.Sets.{holds};
ghost use Rattle.fh_ncrontab.specs.Fields.{number_of, named, value_of, cut_at, ends_of, within, part_of, part_has, pieces};
ghost use Rattle.fh_ncrontab.specs.Pieces.{pieces_left};

use crate::FieldFault;
use crate::names::{day_named, month_named};

/// The numbers from `first` to `last`, by `step`.
#[derive(Clone, Copy)]
pub(crate) struct Part {
    pub(crate) first: u8,
    pub(crate) last: u8,
    pub(crate) step: u8,
}

impl Part {
    /// Reads a part of a field that has the numbers from `lo` to `hi`.
    pub(crate) fn read(text: &str, lo: u8, hi: u8) -> Result<Part, FieldFault>
        requires { lo ≤ hi }
        ensures value { result ≡ part_of lo hi text.now }
        ensures first { IfOk result (λ p. lo ≤ p.first) }
        ensures order { IfOk result (λ p. p.first ≤ p.last) }
        ensures last { IfOk result (λ p. p.last ≤ hi) }
        ensures step { IfOk result (λ p. 1 ≤ p.step) }
    {
        let Some((body, step)) = cut_at(text, '/') else {
            let (first, last) = ends(text, false, lo, hi)?;
            return Ok(Part {
                first,
                last,
                step: 1,
            });
        };
        let (first, last) = ends(body, true, lo, hi)?;
        let Some(step) = within(1, hi, number(step)) else {
            return Err(FieldFault::Bad);
        };
        Ok(Part { first, last, step })
    }

    /// The mask with the part's numbers set besides.
    pub(crate) fn added_to(self, mask: u64) -> u64
        requires last { self.last < 64 }
        requires step { 1 ≤ self.step }
        ensures { (n : ℕ) → holds result n ≡ (holds mask n || part_has self n) }
    {
        let mut bits = mask;
        for n in self.first..self.last + 1 {
            if self.has(n) {
                bits |= 1 << n;
            }
        }
        bits
    }

    fn has(self, n: u8) -> bool
        requires { 1 ≤ self.step }
        ensures { result ≡ part_has self n }
    {
        self.first <= n && n <= self.last && (n - self.first) % self.step == 0
    }
}

// The least and the greatest number of a part without its step.
fn ends(text: &str, stepped: bool, lo: u8, hi: u8) -> Result<(u8, u8), FieldFault>
    requires { lo ≤ hi }
    ensures value { result ≡ ends_of lo hi stepped text.now }
    ensures first { IfOk result (λ p. lo ≤ p.0) }
    ensures order { IfOk result (λ p. p.0 ≤ p.1) }
    ensures last { IfOk result (λ p. p.1 ≤ hi) }
{
    if text == "*" {
        return Ok((lo, hi));
    }
    let Some((first, last)) = cut_at(text, '-') else {
        let Some(first) = value(text, lo, hi) else {
            return Err(FieldFault::Bad);
        };
        return Ok((first, if stepped { hi } else { first }));
    };
    let (Some(first), Some(last)) = (value(first, lo, hi), value(last, lo, hi)) else {
        return Err(FieldFault::Bad);
    };
    if first > last {
        return Err(FieldFault::Backward);
    }
    Ok((first, last))
}

// A number of the field, by its digits or its name.
fn value(text: &str, lo: u8, hi: u8) -> Option<u8>
    ensures value { result ≡ value_of lo hi text.now }
    ensures low { IfSome result (λ n. lo ≤ n) }
    ensures high { IfSome result (λ n. n ≤ hi) }
{
    if let Some(number) = number(text) {
        return within(lo, hi, Some(number));
    }
    within(lo, hi, named(text, lo, hi))
}

// The number with this name, in a field that has names.
fn named(text: &str, lo: u8, hi: u8) -> Option<u8>
    ensures { result ≡ named lo hi text.now }
{
    match (lo, hi) {
        (1, 12) => month_named(text),
        (0, 6) => day_named(text),
        _ => None,
    }
}

// The number, unless it is outside.
fn within(low: u8, high: u8, number: Option<u8>) -> Option<u8>
    ensures value { result ≡ within low high number }
    ensures low { IfSome result (λ n. low ≤ n) }
    ensures high { IfSome result (λ n. n ≤ high) }
{
    let number = number?;
    if number < low || number > high {
        return None;
    }
    Some(number)
}

// One digit or two.
fn number(text: &str) -> Option<u8>
    ensures { result ≡ number_of text.now }
{
    match text.as_bytes() {
        [ones] if ones.is_ascii_digit() => Some(*ones - b'0'),
        [tens, ones] if tens.is_ascii_digit() && ones.is_ascii_digit() => {
            Some((*tens - b'0') * 10 + (*ones - b'0'))
        }
        _ => None,
    }
}

// What stands before and after the first such character.
pub(crate) fn cut_at(text: &str, at: char) -> Option<(&str, &str)>
    requires { at < 128 }
    ensures { option_map (λ x. (x.0.now, x.1.now)) result ≡ cut_at at text.now }
{
    text.split_once(at)
}

// The first piece of a text between such characters, and what stands behind it, if anything does.
pub(crate) fn first_piece(text: &str, at: char) -> (&str, Option<&str>)
    requires { at < 128 }
    ensures pieces { pieces at text.now ≡ result.0.now ∷ pieces_left at (option_copied result.1) }
    ensures shorter { IfSome (option_copied result.1) (λ rest. length rest < length text.now) }
{
    match cut_at(text, at) {
        Some((piece, rest)) => (piece, Some(rest)),
        None => (text, None),
    }
}
