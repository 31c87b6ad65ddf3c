// What the texts of bindings stand for, and the triggers and outputs that bindings are.
ghost use Rattle.std.specs.Prelude.{◌≡◌, [], map, Bool, IfOk, Option, Ok, MatchOption};
ghost use Rattle.std.specs.Option.{option_copied};
ghost use Rattle.serde_json.specs.View.{view};
ghost use Rattle.fh_exprs.specs.Settings.{replaced};
ghost use Rattle.fh_app.specs.Bindings.{replaced_text as replaced_text_lem, queue_in as queue_in_lem, template_in as template_in_lem, cut_at, blobs_named as blobs_named_lem, blobs_in as blobs_in_lem, schedule_in as schedule_in_lem, text_in as text_in_lem, truth_in as truth_in_lem, queue_trigger as queue_trigger_lem, blob_trigger as blob_trigger_lem, timer_trigger as timer_trigger_lem, queue_output as queue_output_lem, blob_output as blob_output_lem, trigger_in as trigger_in_lem, output_in as output_in_lem, first_trigger as first_trigger_lem, outputs_behind};

use crate::bindings::{BindingType, type_of};
use crate::function::{OutBinding, Outputs, Trigger};
use fh_base::{NoMemory, QueueName, Text};
use fh_exprs::{ExprFault, Pattern, Settings, Template};
use fh_ncrontab::Schedule;
use serde_json::Value;
use std::alloc::Global;

/// The first trigger among the bindings.
pub(crate) fn first_trigger(
    alloc: Global,
    settings: &Settings,
    bindings: &[Value],
) -> Result<Option<Trigger>, NoMemory>
    ensures { IfOk result (λ o. o ≡ first_trigger_lem settings.now.pairs (map view bindings.now)) }
{
    for binding in bindings {
        let trigger = trigger_in(alloc, settings, binding)?;
        if trigger.is_some() {
            return Ok(trigger);
        }
    }
    Ok(None)
}

/// The outputs among the bindings, in order.
pub(crate) fn outputs_in(
    alloc: Global,
    settings: &Settings,
    bindings: &[Value],
) -> Result<Outputs, NoMemory>
    ensures { IfOk result (λ o. o ≡ outputs_behind settings.now.pairs [] (map view bindings.now)) }
{
    let mut outputs = Vec::new(alloc);
    for binding in bindings {
        if let Some(output) = output_in(alloc, settings, binding)? {
            outputs.push(output)?;
        }
    }
    Ok(Outputs::from_vec(outputs))
}

#[tactic(auto, unfolding(crate::specs::Bindings::trigger_in))]
fn trigger_in(
    alloc: Global,
    settings: &Settings,
    binding: &Value,
) -> Result<Option<Trigger>, NoMemory>
    ensures { IfOk result (λ o. o ≡ trigger_in_lem settings.now.pairs (view binding.now)) }
{
    match type_of(binding) {
        Some(BindingType::QueueTrigger) => queue_trigger(alloc, settings, binding),
        Some(BindingType::BlobTrigger) => blob_trigger(alloc, settings, binding),
        Some(BindingType::TimerTrigger) => timer_trigger(alloc, binding),
        _ => Ok(None),
    }
}

fn queue_trigger(
    alloc: Global,
    settings: &Settings,
    binding: &Value,
) -> Result<Option<Trigger>, NoMemory>
    ensures { IfOk result (λ o. o ≡ queue_trigger_lem settings.now.pairs (view binding.now)) }
{
    let Some(value) = binding.get("queueName") else {
        return Ok(None);
    };
    let Some(queue) = queue_in(alloc, settings, value)? else {
        return Ok(None);
    };
    let name = text_in(alloc, binding, "name")?;
    Ok(Some(Trigger::Queue { name, queue }))
}

fn blob_trigger(
    alloc: Global,
    settings: &Settings,
    binding: &Value,
) -> Result<Option<Trigger>, NoMemory>
    ensures { IfOk result (λ o. o ≡ blob_trigger_lem settings.now.pairs (view binding.now)) }
{
    let Some(value) = binding.get("path") else {
        return Ok(None);
    };
    let Some((container, pattern)) = blobs_in(alloc, settings, value)? else {
        return Ok(None);
    };
    let name = text_in(alloc, binding, "name")?;
    Ok(Some(Trigger::Blob {
        name,
        container,
        pattern,
    }))
}

fn timer_trigger(alloc: Global, binding: &Value) -> Result<Option<Trigger>, NoMemory>
    ensures { IfOk result (λ o. o ≡ timer_trigger_lem (view binding.now)) }
{
    let Some(value) = binding.get("schedule") else {
        return Ok(None);
    };
    let Some(schedule) = schedule_in(value) else {
        return Ok(None);
    };
    let name = text_in(alloc, binding, "name")?;
    Ok(Some(Trigger::Timer {
        name,
        schedule,
        startup: truth_in(binding, "runOnStartup", false),
        monitor: truth_in(binding, "useMonitor", true),
    }))
}

#[tactic(auto, unfolding(crate::specs::Bindings::output_in))]
fn output_in(
    alloc: Global,
    settings: &Settings,
    binding: &Value,
) -> Result<Option<OutBinding>, NoMemory>
    ensures { IfOk result (λ o. o ≡ output_in_lem settings.now.pairs (view binding.now)) }
{
    match type_of(binding) {
        Some(BindingType::Queue) => queue_output(alloc, settings, binding),
        Some(BindingType::Blob) => blob_output(alloc, settings, binding),
        _ => Ok(None),
    }
}

fn queue_output(
    alloc: Global,
    settings: &Settings,
    binding: &Value,
) -> Result<Option<OutBinding>, NoMemory>
    ensures { IfOk result (λ o. o ≡ queue_output_lem settings.now.pairs (view binding.now)) }
{
    let Some(value) = binding.get("queueName") else {
        return Ok(None);
    };
    let Some(queue) = template_in(alloc, settings, value)? else {
        return Ok(None);
    };
    let name = text_in(alloc, binding, "name")?;
    Ok(Some(OutBinding::Queue { name, queue }))
}

fn blob_output(
    alloc: Global,
    settings: &Settings,
    binding: &Value,
) -> Result<Option<OutBinding>, NoMemory>
    ensures { IfOk result (λ o. o ≡ blob_output_lem settings.now.pairs (view binding.now)) }
{
    let Some(value) = binding.get("path") else {
        return Ok(None);
    };
    let Some(path) = template_in(alloc, settings, value)? else {
        return Ok(None);
    };
    let name = text_in(alloc, binding, "name")?;
    Ok(Some(OutBinding::Blob { name, path }))
}

/// The queue that a text names once its settings are replaced.
pub(crate) fn queue_in(
    alloc: Global,
    settings: &Settings,
    value: &Value,
) -> Result<Option<QueueName>, NoMemory>
    ensures { IfOk result (λ o. o ≡ queue_in_lem settings.now.pairs (view value.now)) }
{
    let Some(text) = replaced_text(alloc, settings, value)? else {
        return Ok(None);
    };
    Ok(QueueName::read(text.as_str()))
}

/// The template that a text is.
pub(crate) fn template_in(
    alloc: Global,
    settings: &Settings,
    value: &Value,
) -> Result<Option<Template>, NoMemory>
    ensures { IfOk result (λ o. o ≡ template_in_lem settings.now.pairs (view value.now)) }
{
    let Some(text) = value.as_str() else {
        return Ok(None);
    };
    match Template::read(alloc, text, settings) {
        Ok(template) => Ok(Some(template)),
        Err(ExprFault::NoMemory) => Err(NoMemory),
        Err(_) => Ok(None),
    }
}

/// The container and the pattern that a text names once its settings are replaced.
pub(crate) fn blobs_in(
    alloc: Global,
    settings: &Settings,
    value: &Value,
) -> Result<Option<(QueueName, Pattern)>, NoMemory>
    ensures { IfOk result (λ o. o ≡ blobs_in_lem settings.now.pairs (view value.now)) }
{
    let Some(text) = replaced_text(alloc, settings, value)? else {
        return Ok(None);
    };
    match cut_at_slash(text.as_str()) {
        Some((container, pattern)) => blobs_named(alloc, container, pattern),
        None => Ok(None),
    }
}

fn blobs_named(
    alloc: Global,
    container: &str,
    pattern: &str,
) -> Result<Option<(QueueName, Pattern)>, NoMemory>
    ensures { IfOk result (λ o. o ≡ blobs_named_lem container.now pattern.now) }
{
    let Some(container) = QueueName::read(container) else {
        return Ok(None);
    };
    match Pattern::read_replaced(alloc, pattern) {
        Ok(pattern) => Ok(Some((container, pattern))),
        Err(ExprFault::NoMemory) => Err(NoMemory),
        Err(_) => Ok(None),
    }
}

/// What stands before the first slash, and behind it.
pub(crate) fn cut_at_slash(text: &str) -> Option<(&str, &str)>
    ensures { MatchOption result (cut_at 47 text.now ≡ Option.None)
        (λ cut. cut_at 47 text.now ≡ Option.Some (cut.0.now, cut.1.now)) }
{
    text.split_once('/')
}

/// The schedule that a text is.
pub(crate) fn schedule_in(value: &Value) -> Option<Schedule>
    ensures { result ≡ schedule_in_lem (view value.now) }
{
    let text = value.as_str()?;
    Schedule::read(text).ok()
}

fn replaced_text(
    alloc: Global,
    settings: &Settings,
    value: &Value,
) -> Result<Option<Text>, NoMemory>
    ensures { IfOk result (λ o. o ≡ replaced_text_lem settings.now.pairs (view value.now)) }
{
    let Some(text) = value.as_str() else {
        return Ok(None);
    };
    match settings.replace(alloc, text) {
        Ok(text) => Ok(Some(Text::new(text))),
        Err(ExprFault::NoMemory) => Err(NoMemory),
        Err(_without_setting) => Ok(None),
    }
}

// The text of a member, and an empty one where it has none.
fn text_in(alloc: Global, binding: &Value, member: &str) -> Result<Text, NoMemory>
    ensures { IfOk result (λ t. t ≡ text_in_lem member.now (view binding.now)) }
{
    Text::from_str(alloc, text_at(binding, member))
}

fn text_at<'v>(binding: &'v Value, member: &str) -> &'v str
    ensures { result.now ≡ text_in_lem member.now (view binding.now) }
{
    let Some(value) = binding.get(member) else {
        return "";
    };
    match value.as_str() {
        Some(text) => text,
        None => "",
    }
}

fn truth_in(binding: &Value, member: &str, default: bool) -> bool
    ensures { result ≡ truth_in_lem member.now default (view binding.now) }
{
    let Some(value) = binding.get(member) else {
        return default;
    };
    match value.as_bool() {
        Some(truth) => truth,
        None => default,
    }
}
