// The numbers of a request.
ghost use Rattle.std.specs.Prelude.{◌≡◌, IfOk, option_map};
ghost use Rattle.std.specs.Cow.{cow_str_bytes};
ghost use Rattle.fh_front.specs.Answers.{Answers};
ghost use Rattle.fh_front.specs.Queries.{value_of, number_of, needed, number_or, lifetime, lifetime_of, number_of_part};

use crate::fault::FrontFault;
use fh_base::{NoMemory, SECONDS_OF_WEEK, read_number};
use form_urlencoded::{decode, raw_pairs};
use percent_encoding::percent_decode;
use std::alloc::Global;
use std::borrow::CowStr;

/// The value beside the first such name, decoded.
#[tactic(auto, unfolding(crate::specs::Queries::value_of))]
fn value_of<'q>(alloc: Global, query: &'q [u8], name: &str) -> Result<Option<CowStr<'q>>, NoMemory>
    ensures { IfOk result (λ found. option_map cow_str_bytes found ≡ value_of name.now query.now) }
{
    for (key, value) in raw_pairs(query) {
        let key = decode(alloc, key)?;
        if key.as_str() == name {
            return Ok(Some(decode(alloc, value)?));
        }
    }
    Ok(None)
}

/// A number: 1 to 15 decimal digits.
#[tactic(auto, unfolding(crate::specs::Queries::number_of))]
fn number_of(text: &[u8]) -> Result<u64, FrontFault>
    ensures { result ≡ number_of text.now }
{
    match read_number(text) {
        Some(number) => Ok(number),
        None => Err(FrontFault::BadQuery),
    }
}

/// A number of the query that has no default.
#[tactic(auto, unfolding(crate::specs::Queries::needed))]
pub(crate) fn needed(alloc: Global, query: &[u8], name: &str) -> Result<u64, FrontFault>
    ensures { Answers result (needed name.now query.now) }
{
    match value_of(alloc, query, name)? {
        Some(text) => number_of(text.as_bytes()),
        None => Err(FrontFault::BadQuery),
    }
}

/// A number of the query, or its default.
#[tactic(auto, unfolding(crate::specs::Queries::number_or))]
pub(crate) fn number_or(
    alloc: Global,
    query: &[u8],
    name: &str,
    default: u64,
) -> Result<u64, FrontFault>
    ensures { Answers result (number_or default name.now query.now) }
{
    match value_of(alloc, query, name)? {
        Some(text) => number_of(text.as_bytes()),
        None => Ok(default),
    }
}

/// A time to live in seconds, or none for `-1`; by default a week.
#[tactic(auto, unfolding(crate::specs::Queries::lifetime))]
pub(crate) fn lifetime(alloc: Global, query: &[u8]) -> Result<Option<u64>, FrontFault>
    ensures { Answers result (lifetime query.now) }
{
    match value_of(alloc, query, "ttl")? {
        Some(text) => lifetime_of(text.as_str()),
        None => Ok(Some(SECONDS_OF_WEEK)),
    }
}

#[tactic(auto, unfolding(crate::specs::Queries::lifetime_of))]
fn lifetime_of(text: &str) -> Result<Option<u64>, FrontFault>
    ensures { result ≡ lifetime_of text.now }
{
    if text == "-1" {
        return Ok(None);
    }
    let seconds = number_of(text.as_bytes())?;
    Ok(Some(seconds))
}

/// A number that is a part of the path.
#[tactic(auto, unfolding(crate::specs::Queries::number_of_part))]
pub(crate) fn number_of_part(alloc: Global, part: &[u8]) -> Result<u64, FrontFault>
    ensures { Answers result (number_of_part part.now) }
{
    let mut bytes = Vec::new(alloc);
    percent_decode(part).append_to(&mut bytes)?;
    number_of(bytes.as_slice())
}
