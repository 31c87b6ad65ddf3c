// The texts of moments.
ghost use Rattle.std.specs.Prelude.{◌≡◌, ◌≤◌, IfOk, min, string_bytes};
ghost use Rattle.fh_base.specs.Moments.{greatest_moment};
ghost use Rattle.fh_base.specs.Times.{two_digits as two_digits_lem, three_digits as three_digits_lem, four_digits as four_digits_lem, date_text as date_text_lem, clock_text as clock_text_lem, second_text as second_text_lem, form_text as form_text_lem, time_text as time_text_lem};

use crate::NoMemory;
use crate::calendar::{Civil, date_on};
use std::alloc::Global;

/// How a moment is written, in UTC.
#[derive(Clone, Copy, Debug, PartialEq, Eq)]
pub enum TimeForm {
    /// `yyyy-MM-ddTHH:mm:ss+00:00`
    Offset,
    /// `yyyy-MM-ddTHH:mm:ss.fffZ`
    Millis,
    /// `yyyy-MM-ddTHH-mm-ssZ`
    Dashed,
}

const GREATEST: u64 = 253402300799999;

/// The text of a moment. One past the greatest is written as the greatest.
#[tactic(auto, unfolding(crate::specs::Times::time_text))]
pub fn time_text(alloc: Global, ms: u64, form: TimeForm) -> Result<String, NoMemory>
    ensures { IfOk result (λ t. string_bytes t ≡ time_text_lem form ms) }
{
    form_text(alloc, ms.min(GREATEST), form)
}

fn form_text(alloc: Global, ms: u64, form: TimeForm) -> Result<String, NoMemory>
    requires { ms ≤ greatest_moment }
    ensures { IfOk result (λ t. string_bytes t ≡ form_text_lem form ms) }
{
    let between = match form {
        TimeForm::Dashed => "-",
        _ => ":",
    };
    let second = second_text(alloc, between, ms / 1000)?;
    let second = second.as_str();
    let text = match form {
        TimeForm::Offset => format!(in alloc; "{second}+00:00")?,
        TimeForm::Millis => {
            let millis = three_digits(alloc, ms % 1000)?;
            let millis = millis.as_str();
            format!(in alloc; "{second}.{millis}Z")?
        }
        TimeForm::Dashed => format!(in alloc; "{second}Z")?,
    };
    Ok(text)
}

fn second_text(alloc: Global, between: &str, second: u64) -> Result<String, NoMemory>
    requires { second ≤ 253402300799 }
    ensures { IfOk result (λ t. string_bytes t ≡ second_text_lem between.now second) }
{
    let date = date_text(alloc, &date_on(second / 86400))?;
    let date = date.as_str();
    let clock = clock_text(alloc, between, second % 86400)?;
    let clock = clock.as_str();
    let text = format!(in alloc; "{date}T{clock}")?;
    Ok(text)
}

fn date_text(alloc: Global, date: &Civil) -> Result<String, NoMemory>
    ensures { IfOk result (λ t. string_bytes t ≡ date_text_lem date.now) }
{
    let year = four_digits(alloc, date.year)?;
    let year = year.as_str();
    let month = two_digits(alloc, date.month)?;
    let month = month.as_str();
    let day = two_digits(alloc, date.day)?;
    let day = day.as_str();
    let text = format!(in alloc; "{year}-{month}-{day}")?;
    Ok(text)
}

fn clock_text(alloc: Global, between: &str, second: u64) -> Result<String, NoMemory>
    ensures { IfOk result (λ t. string_bytes t ≡ clock_text_lem between.now second) }
{
    let hour = two_digits(alloc, second / 3600)?;
    let hour = hour.as_str();
    let minute = two_digits(alloc, second / 60 % 60)?;
    let minute = minute.as_str();
    let second = two_digits(alloc, second % 60)?;
    let second = second.as_str();
    let text = format!(in alloc; "{hour}{between}{minute}{between}{second}")?;
    Ok(text)
}

fn four_digits(alloc: Global, n: u64) -> Result<String, NoMemory>
    ensures { IfOk result (λ t. string_bytes t ≡ four_digits_lem n) }
{
    let front = two_digits(alloc, n / 100)?;
    let front = front.as_str();
    let back = two_digits(alloc, n)?;
    let back = back.as_str();
    let text = format!(in alloc; "{front}{back}")?;
    Ok(text)
}

fn three_digits(alloc: Global, n: u64) -> Result<String, NoMemory>
    ensures { IfOk result (λ t. string_bytes t ≡ three_digits_lem n) }
{
    let back = two_digits(alloc, n)?;
    let back = back.as_str();
    let hundreds = n / 100 % 10;
    let text = format!(in alloc; "{hundreds}{back}")?;
    Ok(text)
}

fn two_digits(alloc: Global, n: u64) -> Result<String, NoMemory>
    ensures { IfOk result (λ t. string_bytes t ≡ two_digits_lem n) }
{
    let tens = n / 10 % 10;
    let ones = n % 10;
    let text = format!(in alloc; "{tens}{ones}")?;
    Ok(text)
}
