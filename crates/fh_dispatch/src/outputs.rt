// The rules of an outcome and of its outputs, and the blobs among them.
ghost use Rattle.std.specs.Prelude.{◌≡◌, ◌++◌, ◌∷◌, [], None, IfOk, OnOk};
ghost use Rattle.fh_dispatch.specs.Outputs.{size_rule, outcome_rule, container_rule, blob_name_rule, blob_rule, output_rule, each_output_rule, outputs_rule, blobs_of};

use crate::rules::range_rule;
use fh_base::{LONGEST_TEXT, Moment, NoMemory, QueueName, Rule, Text, is_blob_name};
use fh_blobs::NewBlob;
use fh_event::{LONGEST_LIST, Outcome, Output};
use fh_queues::{HeldMessage, Queues};
use std::alloc::Global;

/// The most bytes of a cause.
const LONGEST_CAUSE: u64 = 1024;

/// The most outputs that an invocation stores.
const MOST_OUTPUTS: u64 = 1000;

/// The most bytes of a blob's text.
const LONGEST_BLOB: u64 = 1_048_576;

/// The outcome is longer than its limit.
pub(crate) fn outcome_rule(outcome: &Outcome) -> Option<Rule>
    ensures { result ≡ outcome_rule outcome.now }
{
    match outcome {
        Outcome::Failed { cause } => size_rule(cause.len() as u64, LONGEST_CAUSE),
        Outcome::Done { outputs } => {
            size_rule(outputs.as_slice().len() as u64, LONGEST_LIST as u64)
        }
    }
}

/// There are too many outputs, one of them breaks a rule, or the messages among them have no room.
pub(crate) fn outputs_rule(
    queues: &Queues,
    m: Moment,
    message: Option<HeldMessage>,
    outputs: &[Output],
) -> Option<Rule>
    ensures rule { result ≡ outputs_rule queues.now.part m message outputs.now }
    ensures each { result ≡ None → each_output_rule outputs.now ≡ None }
{
    if let Some(rule) = range_rule(outputs.len() as u64, 0, MOST_OUTPUTS) {
        return Some(rule);
    }
    if let Some(rule) = each_output_rule(outputs) {
        return Some(rule);
    }
    queues.room_rule(m, message, outputs)
}

/// The outputs that are blobs, in order.
pub(crate) fn blobs_of(alloc: Global, outputs: &[Output]) -> Result<Vec<NewBlob>, NoMemory>
    requires { each_output_rule outputs.now ≡ None }
    ensures { IfOk result (λ blobs. blobs.items ≡ blobs_of outputs.now) }
{
    let mut blobs = Vec::new(alloc);
    for output in outputs {
        push_blob(alloc, &mut blobs, output)?;
    }
    Ok(blobs)
}

fn push_blob(alloc: Global, blobs: &mut Vec<NewBlob>, output: &Output) -> Result<(), NoMemory>
    requires { output_rule output.now ≡ None }
    ensures { OnOk result (blobs.new.items ≡ blobs.old.items ++ blobs_of (output.now ∷ [])) }
{
    match output {
        Output::Queue { .. } => Ok(()),
        Output::Blob {
            container,
            blob,
            text,
        } => {
            let Some(container) = QueueName::read(container.as_str()) else {
                return Ok(());
            };
            blobs.push(NewBlob {
                container,
                name: blob.copy(alloc)?,
                text: text.copy(alloc)?,
            })?;
            Ok(())
        }
    }
}

fn each_output_rule(outputs: &[Output]) -> Option<Rule>
    ensures { result ≡ each_output_rule outputs.now }
{
    for output in outputs {
        if let Some(rule) = output_rule(output) {
            return Some(rule);
        }
    }
    None
}

fn output_rule(output: &Output) -> Option<Rule>
    ensures { result ≡ output_rule output.now }
{
    match output {
        Output::Queue { queue, text } => match container_rule(queue) {
            Some(rule) => Some(rule),
            None => size_rule(text.len() as u64, LONGEST_TEXT as u64),
        },
        Output::Blob {
            container,
            blob,
            text,
        } => blob_rule(container, blob, text),
    }
}

fn blob_rule(container: &Text, blob: &Text, text: &Text) -> Option<Rule>
    ensures { result ≡ blob_rule container.now blob.now text.now }
{
    if let Some(rule) = container_rule(container) {
        return Some(rule);
    }
    if let Some(rule) = blob_name_rule(blob) {
        return Some(rule);
    }
    size_rule(text.len() as u64, LONGEST_BLOB)
}

// Containers have the names that queues have.
fn container_rule(name: &Text) -> Option<Rule>
    ensures { result ≡ container_rule name.now }
{
    match QueueName::read(name.as_str()) {
        None => Some(Rule::BadName),
        Some(_) => None,
    }
}

fn blob_name_rule(name: &Text) -> Option<Rule>
    ensures { result ≡ blob_name_rule name.now }
{
    if is_blob_name(name.as_str()) {
        return None;
    }
    Some(Rule::BadName)
}

fn size_rule(size: u64, limit: u64) -> Option<Rule>
    ensures { result ≡ size_rule size limit }
{
    if limit < size {
        return Some(Rule::TooLarge { size, limit });
    }
    None
}
