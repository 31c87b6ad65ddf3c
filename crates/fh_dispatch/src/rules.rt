// The ranges of settings, in order.
ghost use Rattle.std.specs.Prelude.{◌≡◌, ◌<◌, ◌≤◌, true, [], ◌∷◌, ◌++◌, None};
ghost use Rattle.fh_event.specs.Masks.{is_mask, schedule_ranges, are_masks};
ghost use Rattle.fh_event.specs.Settings.{HasGoodMasks};
ghost use Rattle.fh_dispatch.specs.Rules.{first_broken, range_rule, singleton_rule, numbers_rule, mask_rule, mask_rules, ranges_rule};

use fh_base::{Rule, SECONDS_OF_WEEK};
use fh_event::FunctionSettings;
use fh_ncrontab::Field;

/// The most messages that one fetch takes.
const MOST_BATCH: u64 = 32;

/// The most jobs in work up to which more are fetched.
const MOST_THRESHOLD: u64 = 1000;

/// The most times that a message is begun before it is moved.
const MOST_LIMIT: u64 = 1000;

/// The shortest and the longest lease of a singleton, in seconds.
const LEAST_SINGLETON: u64 = 15;

const MOST_SINGLETON: u64 = 60;

pub(crate) fn ranges_rule(settings: &FunctionSettings) -> Option<Rule>
    ensures rule { result ≡ ranges_rule settings.now }
    ensures masks { result ≡ None → HasGoodMasks settings.now }
{
    match settings {
        FunctionSettings::Queue {
            batch,
            threshold,
            limit,
            retry,
            singleton,
            ..
        }
        | FunctionSettings::Blob {
            batch,
            threshold,
            limit,
            retry,
            singleton,
        } => numbers_rule(*batch, *threshold, *limit, *retry, *singleton),
        FunctionSettings::Timer {
            masks,
            singleton,
            ..
        } => timer_rule(masks, *singleton),
    }
}

fn numbers_rule(batch: u64, threshold: u64, limit: u64, retry: u64, singleton: u64) -> Option<Rule>
    ensures { result ≡ numbers_rule batch threshold limit retry singleton }
{
    if let Some(rule) = range_rule(batch, 1, MOST_BATCH) {
        return Some(rule);
    }
    if let Some(rule) = range_rule(threshold, 0, MOST_THRESHOLD) {
        return Some(rule);
    }
    if let Some(rule) = range_rule(limit, 1, MOST_LIMIT) {
        return Some(rule);
    }
    if let Some(rule) = range_rule(retry, 0, SECONDS_OF_WEEK) {
        return Some(rule);
    }
    singleton_rule(singleton)
}

// The masks of a schedule come first.
fn timer_rule(masks: &[u64; 6], singleton: u64) -> Option<Rule>
    ensures rule { result ≡ first_broken (mask_rules masks.now ++ singleton_rule singleton ∷ []) }
    ensures masks { result ≡ None → are_masks schedule_ranges masks.now ≡ true }
{
    let [second, minute, hour, day, month, weekday] = *masks;
    if let Some(rule) = mask_rule::<0, 59>(second) {
        return Some(rule);
    }
    if let Some(rule) = mask_rule::<0, 59>(minute) {
        return Some(rule);
    }
    if let Some(rule) = mask_rule::<0, 23>(hour) {
        return Some(rule);
    }
    if let Some(rule) = mask_rule::<1, 31>(day) {
        return Some(rule);
    }
    if let Some(rule) = mask_rule::<1, 12>(month) {
        return Some(rule);
    }
    if let Some(rule) = mask_rule::<0, 6>(weekday) {
        return Some(rule);
    }
    singleton_rule(singleton)
}

// The rule that a mask breaks that isn't one of numbers from LOW to HIGH.
#[tactic(auto, unfolding(fh_event::specs::Masks::is_mask, fh_ncrontab::specs::Sets::is_mask))]
fn mask_rule<const LOW: u8, const HIGH: u8>(given: u64) -> Option<Rule>
    requires low { LOW ≤ HIGH }
    requires high { HIGH < 63 }
    ensures rule { result ≡ mask_rule LOW HIGH given }
    ensures mask { result ≡ None → is_mask LOW HIGH given ≡ true }
{
    if Field::<LOW, HIGH>::of_mask(given).is_some() {
        return None;
    }
    Some(Rule::OutOfRange {
        given,
        low: 1,
        high: Field::<LOW, HIGH>::all().mask(),
    })
}

/// The number lies outside its range.
pub(crate) fn range_rule(given: u64, low: u64, high: u64) -> Option<Rule>
    ensures { result ≡ range_rule given low high }
{
    if low <= given && given <= high {
        return None;
    }
    Some(Rule::OutOfRange { given, low, high })
}

fn singleton_rule(given: u64) -> Option<Rule>
    ensures { result ≡ singleton_rule given }
{
    if given == 0 {
        return None;
    }
    range_rule(given, LEAST_SINGLETON, MOST_SINGLETON)
}
