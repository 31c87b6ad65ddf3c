// How long entries are.
ghost use Rattle.std.specs.Prelude.{◌≡◌, ℕ, ◌-◌, ◌≤◌, ◌^◌, [], ◌∷◌, min, length};
ghost use Rattle.std.specs.List.{flat_map};
ghost use Rattle.fh_base.specs.Limits.{longest_payload};
ghost use Rattle.fh_event.specs.Outcomes.{fields_of_output, fields_of_outcome};
ghost use Rattle.fh_event.specs.Fields.{number_bytes, text_bytes, maybe_bytes, flag_byte, spelled};
ghost use Rattle.fh_event.specs.Settings.{fields_of_settings};
ghost use Rattle.fh_event.specs.Kinds.{fields_of};
ghost use Rattle.fh_event.specs.Entries.{entry, HasShortTexts};

use crate::command::Command;
use crate::outcome::{Outcome, Output};
use crate::settings::FunctionSettings;
use crate::tables::{
    acquire, arm, begin, blob_output, blob_settings, clear, configure, delete, delete_blob, fetch,
    finish, get_blob, locate, make_queue, note, of_command, of_output, of_settings, peek, put,
    put_blob, queue_output, queue_settings, release_lease, renew_lease, renewals, session, take,
    tick, timer_settings, unnoted, update,
};
use fh_base::Text;

/// What an entry has before its fields: the moment, and the kind.
const BEFORE_FIELDS: u64 = 9;

/// The bytes of a number.
const NUMBER: u64 = 8;

/// The bytes of a text's length, and of a list's.
const LENGTH: u64 = 4;

/// The byte that names the form of settings or of an output, or says whether an outcome is a success.
const FORM: u64 = 1;

/// The number of bytes of the command's entry, which is the same at each moment. One above 2^64 - 1 is
/// given as 2^64 - 1.
#[tactic(auto, using(crate::proofs::EntrySizes::entry_is, crate::proofs::EntrySizes::short_texts))]
pub fn entry_size(command: &Command) -> u64
    ensures size { (moment : ℕ) → result ≡ min (length (entry moment command.now)) (2 ^ 64 - 1) }
    ensures short { result ≤ longest_payload → HasShortTexts command.now }
{
    BEFORE_FIELDS.saturating_add(fields_size(command))
}

// Adds up the sizes of the fields of a table.
macro_rules! sizer {
    ([$of:ident $value:ident] $kind:literal $variant:ident { $($field:literal $name:ident: $type:ident),* }) => {{
        let $of::$variant { $($name),* } = $value else {
            unreachable!()
        };
        let size = 0u64;
        $(let size = size.saturating_add(held_size!($type $name));)*
        size
    }};
}

macro_rules! held_size {
    (Number $name:ident) => { number_size(*$name) };
    (Words $name:ident) => { text_size($name) };
    (MaybeNumber $name:ident) => { maybe_number_size($name) };
    (MaybeWords $name:ident) => { maybe_text_size($name) };
    (Settings $name:ident) => { settings_size($name) };
    (Outcome $name:ident) => { outcome_size($name) };
    (Masks $name:ident) => { masks_size($name) };
    (Flag $name:ident) => { flag_size(*$name) };
}

#[tactic(auto, using(crate::proofs::EntrySizes::adding))]
fn fields_size(command: &Command) -> u64
    ensures { result ≡ min (length (flat_map spelled (fields_of command.now))) (2 ^ 64 - 1) }
{
    of_command!(command sizer Command command)
}

#[tactic(auto, using(crate::proofs::EntrySizes::adding))]
fn settings_size(settings: &FunctionSettings) -> u64
    ensures { result ≡ min (length (flat_map spelled (fields_of_settings settings.now))) (2 ^ 64 - 1) }
{
    FORM.saturating_add(of_settings!(settings sizer FunctionSettings settings))
}

#[tactic(auto, using(crate::proofs::EntrySizes::adding), unfolding(crate::specs::Fields::count_bytes))]
fn outcome_size(outcome: &Outcome) -> u64
    ensures { result ≡ min (length (flat_map spelled (fields_of_outcome outcome.now))) (2 ^ 64 - 1) }
{
    let behind = match outcome {
        Outcome::Failed { cause } => text_size(cause),
        Outcome::Done { outputs } => LENGTH.saturating_add(outputs_size(outputs.as_slice())),
    };
    FORM.saturating_add(behind)
}

#[tactic(auto, using(crate::proofs::EntrySizes::adding, crate::proofs::ListLaws::joined_step))]
fn outputs_size(outputs: &[Output]) -> u64
    ensures { result ≡ min (length (flat_map spelled (flat_map fields_of_output outputs.now))) (2 ^ 64 - 1) }
{
    let mut size = 0u64;
    for output in outputs {
        size = size.saturating_add(output_size(output));
    }
    size
}

#[tactic(auto, using(crate::proofs::EntrySizes::adding))]
fn output_size(output: &Output) -> u64
    ensures { result ≡ min (length (flat_map spelled (fields_of_output output.now))) (2 ^ 64 - 1) }
{
    FORM.saturating_add(of_output!(output sizer Output output))
}

#[tactic(auto, unfolding(crate::specs::Fields::number_bytes))]
fn number_size(number: u64) -> u64
    ensures { result ≡ length (number_bytes number) }
{
    NUMBER
}

#[tactic(auto, using(crate::proofs::EntrySizes::adding), unfolding(crate::specs::Fields::text_bytes))]
fn text_size(text: &Text) -> u64
    ensures { result ≡ min (length (text_bytes text.now)) (2 ^ 64 - 1) }
{
    LENGTH.saturating_add(text.len() as u64)
}

#[tactic(auto, unfolding(crate::specs::Fields::number_bytes))]
fn masks_size(masks: &[u64; 6]) -> u64
    ensures { result ≡ length (flat_map number_bytes masks.now) }
{
    let [second, minute, hour, day, month, weekday] = *masks;
    number_size(second)
        + number_size(minute)
        + number_size(hour)
        + number_size(day)
        + number_size(month)
        + number_size(weekday)
}

fn flag_size(flag: bool) -> u64
    ensures { result ≡ length (flag_byte flag ∷ []) }
{
    1
}

#[tactic(auto, unfolding(crate::specs::Fields::maybe_bytes, crate::specs::Fields::number_bytes))]
fn maybe_number_size(number: &Option<u64>) -> u64
    ensures { result ≡ length (maybe_bytes number_bytes number.now) }
{
    match number {
        None => 1,
        Some(number) => 1 + number_size(*number),
    }
}

#[tactic(auto, using(crate::proofs::EntrySizes::adding), unfolding(crate::specs::Fields::maybe_bytes))]
fn maybe_text_size(text: &Option<Text>) -> u64
    ensures { result ≡ min (length (maybe_bytes text_bytes text.now)) (2 ^ 64 - 1) }
{
    match text {
        None => 1,
        Some(text) => 1u64.saturating_add(text_size(text)),
    }
}
