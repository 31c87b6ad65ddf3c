// Writing entries.
ghost use Rattle.std.specs.Prelude.{◌≡◌, ◌^◌, ◌<◌, ◌≤◌, [], ◌∷◌, ◌++◌, length, OnOk, OnErr, IfSome};
ghost use Rattle.std.specs.List.{flat_map, AllByRecursion};
ghost use Rattle.fh_event.specs.Fields.{number_bytes, text_bytes, maybe_bytes, flag_byte, count_bytes, longest_list, spelled, IsText, IsField, IsShort};
ghost use Rattle.fh_event.specs.Outcomes.{output_form_number, output_form_of, fields_behind_output_form, fields_of_output, fields_of_outputs, fields_of_outcome, HasShortList};
ghost use Rattle.fh_event.specs.Settings.{form_number, form_of, fields_behind_form, fields_of_settings, HasGoodMasks};
ghost use Rattle.fh_event.specs.Kinds.{kind_number, kind_of, fields_of};
ghost use Rattle.fh_base.specs.Limits.{longest_payload};
ghost use Rattle.fh_event.specs.Entries.{entry, HasShortTexts, GivesGoodMasks, GivesShortList, AppendsEntry, Extends};

use crate::command::Command;
use crate::outcome::{Outcome, Output};
use crate::settings::FunctionSettings;
use crate::sizes::entry_size;
use crate::tables::{
    acquire, arm, begin, blob_output, blob_settings, clear, configure, delete, delete_blob, fetch,
    finish, get_blob, kind, locate, make_queue, note, of_command, of_output, of_settings, peek,
    put, put_blob, queue_output, queue_settings, release_lease, renew_lease, renewals, session,
    take, tick, timer_settings, unnoted, update,
};
use fh_base::{Moment, NoMemory, Text};

/// Appends the entry of the moment and the command, if no text has more than 16,777,216 bytes, each mask of a
/// schedule has numbers of its field, and an outcome has at most 65,536 outputs. After want of memory nothing is
/// appended.
#[tactic(auto, using(crate::proofs::Extending::taken_back))]
pub fn encode(command: &Command, moment: Moment, into: &mut Vec<u8>) -> Result<(), NoMemory>
    requires texts { HasShortTexts command.now }
    requires masks { GivesGoodMasks command.now }
    requires list { GivesShortList command.now }
    ensures ok { OnOk result (AppendsEntry into.old.items into.new.items moment command.now) }
    ensures err { OnErr result (into.new.items ≡ into.old.items) }
{
    let before = into.len();
    into.reserve(entry_size(command) as usize)?;
    let written = put_entry(into, moment, command);
    if written.is_err() {
        into.truncate(before);
    }
    written
}

#[tactic(auto, using(crate::proofs::Extending::extending))]
fn put_entry(into: &mut Vec<u8>, moment: Moment, command: &Command) -> Result<(), NoMemory>
    requires texts { HasShortTexts command.now }
    requires masks { GivesGoodMasks command.now }
    requires list { GivesShortList command.now }
    ensures ok { OnOk result (AppendsEntry into.old.items into.new.items moment command.now) }
    ensures err { OnErr result (Extends into.old.items into.new.items) }
{
    put_number(into, moment.ms())?;
    into.push(kind_of(command))?;
    put_fields(into, command)?;
    Ok(())
}

#[tactic(auto, using(crate::proofs::Extending::extending), unfolding(crate::specs::Fields::number_bytes))]
fn put_number(into: &mut Vec<u8>, number: u64) -> Result<(), NoMemory>
    ensures ok { OnOk result (into.new.items ≡ into.old.items ++ number_bytes number) }
    ensures grows { Extends into.old.items into.new.items }
    ensures field { OnOk result (number < 2 ^ 64) }
{
    into.extend_from_slice(&number.to_be_bytes())?;
    Ok(())
}

#[tactic(auto, using(crate::proofs::Extending::extending), unfolding(crate::specs::Fields::text_bytes))]
fn put_text(into: &mut Vec<u8>, text: &Text) -> Result<(), NoMemory>
    requires { length text.now ≤ longest_payload }
    ensures ok { OnOk result (into.new.items ≡ into.old.items ++ text_bytes text.now) }
    ensures grows { Extends into.old.items into.new.items }
    ensures field { OnOk result (IsText text.now) }
{
    into.extend_from_slice(&(text.len() as u32).to_be_bytes())?;
    into.extend_from_slice(text.as_str().as_bytes())?;
    Ok(())
}

#[tactic(auto, using(crate::proofs::Extending::extending))]
fn put_masks(into: &mut Vec<u8>, masks: &[u64]) -> Result<(), NoMemory>
    ensures ok { OnOk result (into.new.items ≡ into.old.items ++ flat_map number_bytes masks.now) }
    ensures grows { Extends into.old.items into.new.items }
{
    for mask in masks {
        put_number(into, *mask)?;
    }
    Ok(())
}

#[tactic(auto, using(crate::proofs::Extending::extending))]
fn put_flag(into: &mut Vec<u8>, flag: bool) -> Result<(), NoMemory>
    ensures ok { OnOk result (into.new.items ≡ into.old.items ++ flag_byte flag ∷ []) }
    ensures grows { Extends into.old.items into.new.items }
{
    into.push(flag as u8)?;
    Ok(())
}

#[tactic(auto, using(crate::proofs::Extending::extending), unfolding(crate::specs::Fields::maybe_bytes))]
fn put_maybe_number(into: &mut Vec<u8>, number: &Option<u64>) -> Result<(), NoMemory>
    ensures ok { OnOk result (into.new.items ≡ into.old.items ++ maybe_bytes number_bytes number.now) }
    ensures grows { Extends into.old.items into.new.items }
    ensures field { OnOk result (IfSome number.now (λ n. n < 2 ^ 64)) }
{
    match number {
        None => into.push(0)?,
        Some(number) => {
            into.push(1)?;
            put_number(into, *number)?;
        }
    }
    Ok(())
}

#[tactic(auto, using(crate::proofs::Extending::extending), unfolding(crate::specs::Fields::maybe_bytes))]
fn put_maybe_text(into: &mut Vec<u8>, text: &Option<Text>) -> Result<(), NoMemory>
    requires { IfSome text.now (λ t. length t ≤ longest_payload) }
    ensures ok { OnOk result (into.new.items ≡ into.old.items ++ maybe_bytes text_bytes text.now) }
    ensures grows { Extends into.old.items into.new.items }
    ensures field { OnOk result (IfSome text.now IsText) }
{
    match text {
        None => into.push(0)?,
        Some(text) => {
            into.push(1)?;
            put_text(into, text)?;
        }
    }
    Ok(())
}

// Writes the fields of a table in order.
macro_rules! writer {
    ([$of:ident $into:ident $value:ident] $kind:literal $variant:ident { $($field:literal $name:ident: $type:ident),* }) => {{
        let $of::$variant { $($name),* } = $value else {
            unreachable!()
        };
        $(put_held!($type $into $name)?;)*
    }};
}

macro_rules! put_held {
    (Number $into:ident $name:ident) => { put_number($into, *$name) };
    (Words $into:ident $name:ident) => { put_text($into, $name) };
    (MaybeNumber $into:ident $name:ident) => { put_maybe_number($into, $name) };
    (MaybeWords $into:ident $name:ident) => { put_maybe_text($into, $name) };
    (Settings $into:ident $name:ident) => { put_settings($into, $name) };
    (Outcome $into:ident $name:ident) => { put_outcome($into, $name) };
    (Masks $into:ident $name:ident) => { put_masks($into, $name) };
    (Flag $into:ident $name:ident) => { put_flag($into, *$name) };
}

#[tactic(auto, using(crate::proofs::Extending::extending))]
fn put_settings(into: &mut Vec<u8>, settings: &FunctionSettings) -> Result<(), NoMemory>
    requires texts { AllByRecursion IsShort (fields_of_settings settings.now) }
    requires masks { HasGoodMasks settings.now }
    ensures ok { OnOk result
        (into.new.items ≡ into.old.items ++ flat_map spelled (fields_of_settings settings.now)) }
    ensures fields { OnOk result (AllByRecursion IsField (fields_of_settings settings.now)) }
    ensures err { OnErr result (Extends into.old.items into.new.items) }
{
    into.push(form_of(settings))?;
    put_settings_fields(into, settings)
}

#[tactic(auto, using(crate::proofs::Extending::extending))]
fn put_settings_fields(into: &mut Vec<u8>, settings: &FunctionSettings) -> Result<(), NoMemory>
    requires texts { AllByRecursion IsShort (fields_behind_form settings.now) }
    requires masks { HasGoodMasks settings.now }
    ensures ok { OnOk result
        (into.new.items ≡ into.old.items ++ flat_map spelled (fields_behind_form settings.now)) }
    ensures fields { OnOk result (AllByRecursion IsField (fields_behind_form settings.now)) }
    ensures err { OnErr result (Extends into.old.items into.new.items) }
{
    of_settings!(settings writer FunctionSettings into settings);
    Ok(())
}

fn form_of(settings: &FunctionSettings) -> u8
    ensures { result ≡ form_number (form_of settings.now) }
{
    of_settings!(settings kind)
}

#[tactic(auto, using(crate::proofs::Extending::extending))]
fn put_outcome(into: &mut Vec<u8>, outcome: &Outcome) -> Result<(), NoMemory>
    requires texts { AllByRecursion IsShort (fields_of_outcome outcome.now) }
    requires list { HasShortList outcome.now }
    ensures ok { OnOk result
        (into.new.items ≡ into.old.items ++ flat_map spelled (fields_of_outcome outcome.now)) }
    ensures fields { OnOk result (AllByRecursion IsField (fields_of_outcome outcome.now)) }
    ensures err { OnErr result (Extends into.old.items into.new.items) }
{
    match outcome {
        Outcome::Failed { cause } => {
            put_flag(into, false)?;
            put_text(into, cause)
        }
        Outcome::Done { outputs } => {
            put_flag(into, true)?;
            put_outputs(into, outputs.as_slice())
        }
    }
}

#[tactic(auto, using(crate::proofs::Extending::extending))]
fn put_outputs(into: &mut Vec<u8>, outputs: &[Output]) -> Result<(), NoMemory>
    requires texts { AllByRecursion IsShort (fields_of_outputs outputs.now) }
    requires list { length outputs.now ≤ longest_list }
    ensures ok { OnOk result
        (into.new.items ≡ into.old.items ++ flat_map spelled (fields_of_outputs outputs.now)) }
    ensures fields { OnOk result (AllByRecursion IsField (fields_of_outputs outputs.now)) }
    ensures err { OnErr result (Extends into.old.items into.new.items) }
{
    put_count(into, outputs.len())?;
    put_outputs_in_turn(into, outputs)
}

#[tactic(auto, using(crate::proofs::Extending::extending), unfolding(crate::specs::Fields::count_bytes))]
fn put_count(into: &mut Vec<u8>, count: usize) -> Result<(), NoMemory>
    requires { count ≤ longest_list }
    ensures ok { OnOk result (into.new.items ≡ into.old.items ++ count_bytes count) }
    ensures grows { Extends into.old.items into.new.items }
{
    into.extend_from_slice(&(count as u32).to_be_bytes())?;
    Ok(())
}

#[tactic(auto, using(crate::proofs::Extending::extending, crate::proofs::ListLaws::joined_step, crate::proofs::ListLaws::all_step, crate::proofs::ListLaws::all_at))]
fn put_outputs_in_turn(into: &mut Vec<u8>, outputs: &[Output]) -> Result<(), NoMemory>
    requires texts { AllByRecursion IsShort (flat_map fields_of_output outputs.now) }
    ensures ok { OnOk result
        (into.new.items ≡ into.old.items ++ flat_map spelled (flat_map fields_of_output outputs.now)) }
    ensures fields { OnOk result (AllByRecursion IsField (flat_map fields_of_output outputs.now)) }
    ensures err { OnErr result (Extends into.old.items into.new.items) }
{
    for output in outputs {
        put_output(into, output)?;
    }
    Ok(())
}

#[tactic(auto, using(crate::proofs::Extending::extending))]
fn put_output(into: &mut Vec<u8>, output: &Output) -> Result<(), NoMemory>
    requires texts { AllByRecursion IsShort (fields_of_output output.now) }
    ensures ok { OnOk result
        (into.new.items ≡ into.old.items ++ flat_map spelled (fields_of_output output.now)) }
    ensures fields { OnOk result (AllByRecursion IsField (fields_of_output output.now)) }
    ensures err { OnErr result (Extends into.old.items into.new.items) }
{
    into.push(output_form_of(output))?;
    of_output!(output writer Output into output);
    Ok(())
}

fn output_form_of(output: &Output) -> u8
    ensures { result ≡ output_form_number (output_form_of output.now) }
{
    of_output!(output kind)
}

#[tactic(auto, using(crate::proofs::Extending::extending))]
fn put_fields(into: &mut Vec<u8>, command: &Command) -> Result<(), NoMemory>
    requires texts { HasShortTexts command.now }
    requires masks { GivesGoodMasks command.now }
    requires list { GivesShortList command.now }
    ensures ok { OnOk result (into.new.items ≡ into.old.items ++ flat_map spelled (fields_of command.now)) }
    ensures fields { OnOk result (AllByRecursion IsField (fields_of command.now)) }
    ensures err { OnErr result (Extends into.old.items into.new.items) }
{
    of_command!(command writer Command into command);
    Ok(())
}

fn kind_of(command: &Command) -> u8
    ensures { result ≡ kind_number (kind_of command.now) }
{
    of_command!(command kind)
}
