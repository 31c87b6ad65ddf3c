// Reading entries from left to right.
ghost use Rattle.std.specs.Prelude.{ℕ, ◌<◌, ◌≤◌, Ok, IfOk};
ghost use Rattle.std.specs.Int.{w32, w64};
ghost use Rattle.fh_event.specs.Answers.{Gives};
ghost use Rattle.fh_event.specs.Reading.{byte_at, number_at, text_at, flag_at, mask_at, masks_at, maybe_at, settings_at, output_at, outputs_in_turn, count_at, outputs_at, outcome_at, command_at, entry_read};
ghost use Rattle.fh_event.specs.Masks.{schedule_ranges};
ghost use Rattle.fh_event.specs.Entries.{IsEntry};

use crate::command::Command;
use crate::faults::EventFault;
use crate::masks::is_mask;
use crate::outcome::{LONGEST_LIST, Outcome, Output, Outputs};
use crate::settings::FunctionSettings;
use crate::tables::{
    acquire, arm, begin, blob_output, blob_settings, clear, configure, delete, delete_blob, fetch,
    finish, get_blob, locate, make_queue, note, peek, put, put_blob, queue_output, queue_settings,
    release_lease, renew_lease, renewals, session, take, tick, timer_settings, unnoted, update,
};
use fh_base::{LONGEST_PAYLOAD, Moment, Text, utf8_text};
use std::alloc::Global;

/// The moment and the command of an entry, which the bytes are from end to end.
#[tactic(auto, using(crate::proofs::EntryLaws::is_read, crate::proofs::EntryLaws::read_again))]
pub fn decode(alloc: Global, bytes: &[u8]) -> Result<(Moment, Command), EventFault>
    // What is read is an entry.
    ensures read { IfOk result (λ x. IsEntry bytes.now x.0 x.1) }
    // An entry is read, unless memory runs out.
    ensures only { (moment : ℕ) (command : Command) → IsEntry bytes.now moment command
        → Gives (λ x. x) result (Ok (moment, command)) }
    // Which fault it is.
    ensures fault { Gives (λ x. x) result (entry_read bytes.now) }
{
    entry_of(alloc, bytes)
}

#[tactic(auto, unfolding(crate::specs::Reading::byte_at))]
fn byte_of(field: u8, bytes: &[u8]) -> Result<(u8, &[u8]), EventFault>
    ensures { Gives (λ x. (x.0, x.1.now)) result (byte_at field bytes.now) }
{
    match bytes {
        [] => Err(EventFault::ShortField { field }),
        [byte, rest @ ..] => Ok((*byte, rest)),
    }
}

fn length_of(field: u8, bytes: &[u8]) -> Result<(u32, &[u8]), EventFault>
    ensures { Gives (λ x. (x.0, x.1.now)) result (number_at w32 field bytes.now) }
{
    if bytes.len() < 4 {
        return Err(EventFault::ShortField { field });
    }
    let (front, rest) = bytes.split_at(4);
    let number = u32::from_be_bytes([front[0], front[1], front[2], front[3]]);
    Ok((number, rest))
}

fn number_of(field: u8, bytes: &[u8]) -> Result<(u64, &[u8]), EventFault>
    ensures { Gives (λ x. (x.0, x.1.now)) result (number_at w64 field bytes.now) }
{
    if bytes.len() < 8 {
        return Err(EventFault::ShortField { field });
    }
    let (front, rest) = bytes.split_at(8);
    let number = u64::from_be_bytes([
        front[0], front[1], front[2], front[3], front[4], front[5], front[6], front[7],
    ]);
    Ok((number, rest))
}

#[tactic(auto, unfolding(crate::specs::Reading::text_at))]
fn text_of(alloc: Global, field: u8, bytes: &[u8]) -> Result<(Text, &[u8]), EventFault>
    ensures { Gives (λ x. (x.0, x.1.now)) result (text_at field bytes.now) }
{
    let (length, rest) = length_of(field, bytes)?;
    let length = length as usize;
    if length > LONGEST_PAYLOAD {
        return Err(EventFault::LongField { field });
    }
    if rest.len() < length {
        return Err(EventFault::ShortField { field });
    }
    let (text, rest) = rest.split_at(length);
    match utf8_text(text) {
        None => Err(EventFault::BadField { field }),
        Some(text) => Ok((Text::from_str(alloc, text)?, rest)),
    }
}

#[tactic(auto, unfolding(crate::specs::Reading::flag_at))]
fn flag_of(field: u8, bytes: &[u8]) -> Result<(bool, &[u8]), EventFault>
    ensures { Gives (λ x. (x.0, x.1.now)) result (flag_at field bytes.now) }
{
    match bytes {
        [] => Err(EventFault::ShortField { field }),
        [0, rest @ ..] => Ok((false, rest)),
        [1, rest @ ..] => Ok((true, rest)),
        [_, ..] => Err(EventFault::BadField { field }),
    }
}

#[tactic(auto, unfolding(crate::specs::Reading::mask_at))]
fn mask_of(field: u8, low: u8, high: u8, bytes: &[u8]) -> Result<(u64, &[u8]), EventFault>
    requires low { low ≤ high }
    requires high { high < 63 }
    ensures { Gives (λ x. (x.0, x.1.now)) result (mask_at low high field bytes.now) }
{
    let (mask, rest) = number_of(field, bytes)?;
    if !is_mask(low, high, mask) {
        return Err(EventFault::BadField { field });
    }
    Ok((mask, rest))
}

fn masks_of(field: u8, bytes: &[u8]) -> Result<([u64; 6], &[u8]), EventFault>
    ensures { Gives (λ x. (x.0, x.1.now)) result (masks_at schedule_ranges field bytes.now) }
{
    let (second, rest) = mask_of(field, 0, 59, bytes)?;
    let (minute, rest) = mask_of(field, 0, 59, rest)?;
    let (hour, rest) = mask_of(field, 0, 23, rest)?;
    let (day, rest) = mask_of(field, 1, 31, rest)?;
    let (month, rest) = mask_of(field, 1, 12, rest)?;
    let (weekday, rest) = mask_of(field, 0, 6, rest)?;
    Ok(([second, minute, hour, day, month, weekday], rest))
}

#[tactic(auto, unfolding(crate::specs::Reading::maybe_at))]
fn maybe_number_of(field: u8, bytes: &[u8]) -> Result<(Option<u64>, &[u8]), EventFault>
    ensures { Gives (λ x. (x.0, x.1.now)) result (maybe_at (number_at w64 field) field bytes.now) }
{
    let (is_there, rest) = flag_of(field, bytes)?;
    if !is_there {
        return Ok((None, rest));
    }
    let (number, rest) = number_of(field, rest)?;
    Ok((Some(number), rest))
}

#[tactic(auto, unfolding(crate::specs::Reading::maybe_at))]
fn maybe_text_of(
    alloc: Global,
    field: u8,
    bytes: &[u8],
) -> Result<(Option<Text>, &[u8]), EventFault>
    ensures { Gives (λ x. (x.0, x.1.now)) result (maybe_at (text_at field) field bytes.now) }
{
    let (is_there, rest) = flag_of(field, bytes)?;
    if !is_there {
        return Ok((None, rest));
    }
    let (text, rest) = text_of(alloc, field, rest)?;
    Ok((Some(text), rest))
}

// Reads the fields of a table in order, and makes the value of them.
macro_rules! reader {
    ([$of:ident $alloc:ident $rest:ident] $kind:literal $variant:ident { $($field:literal $name:ident: $type:ident),* }) => {{
        $(let ($name, $rest) = held!($type $alloc $field $rest)?;)*
        Ok(($of::$variant { $($name),* }, $rest))
    }};
}

macro_rules! held {
    (Number $alloc:ident $field:literal $rest:ident) => { number_of($field, $rest) };
    (Words $alloc:ident $field:literal $rest:ident) => { text_of($alloc, $field, $rest) };
    (MaybeNumber $alloc:ident $field:literal $rest:ident) => { maybe_number_of($field, $rest) };
    (MaybeWords $alloc:ident $field:literal $rest:ident) => { maybe_text_of($alloc, $field, $rest) };
    (Settings $alloc:ident $field:literal $rest:ident) => { settings_of($alloc, $rest) };
    (Outcome $alloc:ident $field:literal $rest:ident) => { outcome_of($alloc, $rest) };
    (Masks $alloc:ident $field:literal $rest:ident) => { masks_of($field, $rest) };
    (Flag $alloc:ident $field:literal $rest:ident) => { flag_of($field, $rest) };
}

// The field of a command that holds the settings of a function.
const SETTINGS_FIELD: u8 = 2;

#[tactic(auto, unfolding(crate::specs::Reading::settings_at, crate::specs::Settings::form_at))]
fn settings_of(alloc: Global, bytes: &[u8]) -> Result<(FunctionSettings, &[u8]), EventFault>
    ensures { Gives (λ x. (x.0, x.1.now)) result (settings_at 2 bytes.now) }
{
    let (form, rest) = byte_of(SETTINGS_FIELD, bytes)?;
    match form {
        1 => queue_settings!(reader FunctionSettings alloc rest),
        2 => blob_settings!(reader FunctionSettings alloc rest),
        3 => timer_settings!(reader FunctionSettings alloc rest),
        _ => Err(EventFault::BadField {
            field: SETTINGS_FIELD,
        }),
    }
}

// The field of a command that holds the outcome of an invocation.
const OUTCOME_FIELD: u8 = 2;

#[tactic(auto, unfolding(crate::specs::Reading::outcome_at))]
fn outcome_of(alloc: Global, bytes: &[u8]) -> Result<(Outcome, &[u8]), EventFault>
    ensures { Gives (λ x. (x.0, x.1.now)) result (outcome_at 2 bytes.now) }
{
    let (is_success, rest) = flag_of(OUTCOME_FIELD, bytes)?;
    if !is_success {
        let (cause, rest) = text_of(alloc, OUTCOME_FIELD, rest)?;
        return Ok((Outcome::Failed { cause }, rest));
    }
    let (outputs, rest) = outputs_of(alloc, rest)?;
    Ok((Outcome::Done { outputs }, rest))
}

#[tactic(auto, unfolding(crate::specs::Reading::outputs_at))]
fn outputs_of(alloc: Global, bytes: &[u8]) -> Result<(Outputs, &[u8]), EventFault>
    ensures { Gives (λ x. (x.0, x.1.now)) result (outputs_at 2 bytes.now) }
{
    let (count, rest) = count_of(OUTCOME_FIELD, bytes)?;
    outputs_in_turn(alloc, count, rest)
}

#[tactic(auto, unfolding(crate::specs::Reading::count_at))]
fn count_of(field: u8, bytes: &[u8]) -> Result<(usize, &[u8]), EventFault>
    ensures { Gives (λ x. (x.0, x.1.now)) result (count_at field bytes.now) }
{
    let (count, rest) = length_of(field, bytes)?;
    let count = count as usize;
    if count > LONGEST_LIST {
        return Err(EventFault::LongField { field });
    }
    Ok((count, rest))
}

fn outputs_in_turn(
    alloc: Global,
    count: usize,
    bytes: &[u8],
) -> Result<(Outputs, &[u8]), EventFault>
    ensures { Gives (λ x. (x.0, x.1.now)) result (outputs_in_turn 2 count bytes.now) }
{
    let mut outputs = Vec::new(alloc);
    let mut rest = bytes;
    for turn in 0..count {
        let (output, behind) = output_of(alloc, rest)?;
        outputs.push(output)?;
        rest = behind;
    }
    Ok((Outputs::new(outputs), rest))
}

#[tactic(auto, unfolding(crate::specs::Reading::output_at, crate::specs::Outcomes::output_form_at))]
fn output_of(alloc: Global, bytes: &[u8]) -> Result<(Output, &[u8]), EventFault>
    ensures { Gives (λ x. (x.0, x.1.now)) result (output_at 2 bytes.now) }
{
    let (form, rest) = byte_of(OUTCOME_FIELD, bytes)?;
    match form {
        1 => queue_output!(reader Output alloc rest),
        2 => blob_output!(reader Output alloc rest),
        _ => Err(EventFault::BadField {
            field: OUTCOME_FIELD,
        }),
    }
}

#[tactic(auto, unfolding(crate::specs::Reading::command_at, crate::specs::Kinds::kind_at))]
fn command_of(alloc: Global, kind: u8, rest: &[u8]) -> Result<(Command, &[u8]), EventFault>
    ensures { Gives (λ x. (x.0, x.1.now)) result (command_at kind rest.now) }
{
    match kind {
        1 => make_queue!(reader Command alloc rest),
        2 => put!(reader Command alloc rest),
        3 => take!(reader Command alloc rest),
        4 => update!(reader Command alloc rest),
        5 => delete!(reader Command alloc rest),
        6 => clear!(reader Command alloc rest),
        7 => put_blob!(reader Command alloc rest),
        8 => delete_blob!(reader Command alloc rest),
        9 => note!(reader Command alloc rest),
        10 => acquire!(reader Command alloc rest),
        11 => renew_lease!(reader Command alloc rest),
        12 => release_lease!(reader Command alloc rest),
        13 => configure!(reader Command alloc rest),
        14 => session!(reader Command alloc rest),
        15 => arm!(reader Command alloc rest),
        16 => tick!(reader Command alloc rest),
        17 => fetch!(reader Command alloc rest),
        18 => begin!(reader Command alloc rest),
        19 => finish!(reader Command alloc rest),
        20 => renewals!(reader Command alloc rest),
        21 => peek!(reader Command alloc rest),
        22 => get_blob!(reader Command alloc rest),
        23 => locate!(reader Command alloc rest),
        24 => unnoted!(reader Command alloc rest),
        _ => Err(EventFault::BadKind { kind }),
    }
}

#[tactic(auto, unfolding(crate::specs::Reading::entry_read, crate::specs::Reading::moment_at))]
fn entry_of(alloc: Global, bytes: &[u8]) -> Result<(Moment, Command), EventFault>
    ensures { Gives (λ x. x) result (entry_read bytes.now) }
{
    let (ms, rest) = number_of(0, bytes)?;
    let Some(moment) = Moment::new(ms) else {
        return Err(EventFault::BadField { field: 0 });
    };
    let (kind, rest) = byte_of(0, rest)?;
    let (command, rest) = command_of(alloc, kind, rest)?;
    if !rest.is_empty() {
        return Err(EventFault::Trailing {
            left: rest.len() as u64,
        });
    }
    Ok((moment, command))
}
