//! Reading a name by plain texts and names, from the right.
//!
//! A name's text ends where the one behind it leaves off. Each plain text is taken at its last place
//! that leaves the text behind it a character: so each text ends as far to the right as any reading
//! lets it, and the first is the longest, then the second, and so on.

ghost use Rattle.std.specs.Prelude.{◌≡◌, ◌≢◌, ◌++◌, [], List, ℕ, IfOk, MatchOption};
ghost use Rattle.fh_exprs.specs.Layout.{Layout, layout_of};
ghost use Rattle.fh_exprs.specs.Matching.{IsFilledText, IsReading, ReadsAs};
ghost use Rattle.fh_exprs.specs.Tails.{IsTail, EndsAs, IsLastCut, HasNoCut};

use crate::form::Place;
use fh_base::{NoMemory, Text};
use std::alloc::Global;

/// The names of the places with the texts of the greatest reading.
pub fn read_by(
    alloc: Global,
    places: &[Place],
    last: &str,
    name: &str,
) -> Result<Option<Vec<(Text, Text)>>, NoMemory>
    ensures { IfOk result (λ found. MatchOption found
        ((texts : List (List ℕ)) → IsReading (layout_of places.now last.now) name.now texts → ⊥)
        (λ pairs. ReadsAs (layout_of places.now last.now) name.now pairs.items)) }
{
    match name.strip_suffix(last) {
        Some(front) => read_front(alloc, places, front),
        None => Ok(None),
    }
}

// The same with no plain text at the end.
fn read_front(
    alloc: Global,
    places: &[Place],
    name: &str,
) -> Result<Option<Vec<(Text, Text)>>, NoMemory>
    ensures { IfOk result (λ found. MatchOption found
        ((texts : List (List ℕ)) → IsReading (layout_of places.now []) name.now texts → ⊥)
        (λ pairs. ReadsAs (layout_of places.now []) name.now pairs.items)) }
{
    let mut pairs = Vec::new(alloc);
    let Some((first, others)) = places.split_first() else {
        return Ok(if name.is_empty() { Some(pairs) } else { None });
    };
    let Some(rest) = read_later(alloc, others, name, &mut pairs)? else {
        return Ok(None);
    };
    let Some(text) = text_behind(rest, first.0.as_str()) else {
        return Ok(None);
    };
    pairs.push(pair_of(alloc, first, text)?)?;
    pairs.reverse();
    Ok(Some(pairs))
}

// What stands behind the plain text `before`, if that is at least one character.
fn text_behind<'t>(text: &'t str, before: &str) -> Option<&'t str>
    ensures { MatchOption result ((more : List ℕ) → more ≢ [] → text.now ≢ before.now ++ more)
        (λ behind. (text.now ≡ before.now ++ behind.now) × IsFilledText behind.now) }
{
    let behind = text.strip_prefix(before)?;
    if behind.is_empty() {
        None
    } else {
        Some(behind)
    }
}

// Reads the end of the name by the places, adds their names and texts, the last first, and gives
// what is left.
fn read_later<'n>(
    alloc: Global,
    places: &[Place],
    name: &'n str,
    pairs: &mut Vec<(Text, Text)>,
) -> Result<Option<&'n str>, NoMemory>
    requires { pairs.old.items ≡ [] }
    ensures { IfOk result (λ found. MatchOption found
        ((rest : List ℕ) (texts : List (List ℕ)) → IsTail places.now name.now rest texts → ⊥)
        (λ rest. EndsAs places.now name.now rest.now pairs.new.items)) }
{
    let mut rest = name;
    let mut left = places.len();
    while left > 0 {
        left -= 1;
        let place = &places[left];
        let Some((front, text)) = split_last(rest, place.0.as_str()) else {
            return Ok(None);
        };
        pairs.push(pair_of(alloc, place, text)?)?;
        rest = front;
    }
    Ok(Some(rest))
}

fn pair_of(alloc: Global, place: &Place, text: &str) -> Result<(Text, Text), NoMemory>
    ensures { IfOk result (λ pair. pair ≡ (place.now.1, text.now)) }
{
    let name = Text::from_str(alloc, place.1.as_str())?;
    let text = Text::from_str(alloc, text)?;
    Ok((name, text))
}

// The text round the last place of `before` that has a character behind it.
fn split_last<'t>(text: &'t str, before: &str) -> Option<(&'t str, &'t str)>
    ensures { MatchOption result (HasNoCut text.now before.now)
        (λ r. IsLastCut text.now before.now r.0.now r.1.now) }
{
    let mut shorter = text.chars();
    shorter.next_back()?;
    let shorter = shorter.as_str();
    let at = shorter.rfind(before)?;
    let (front, _) = shorter.split_at(at);
    let (_, behind) = text.split_at(at + before.len());
    Some((front, behind))
}
