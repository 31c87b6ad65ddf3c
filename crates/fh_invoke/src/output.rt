// The outputs that a reply gives.
ghost use Rattle.std.specs.Prelude.{◌≡◌, ◌≢◌, ◌++◌, [], ◌∷◌, List, map, option_map, IfOk, OnOk, MatchResult};
ghost use Rattle.std.specs.Prelude.{MatchOption, Option, Ok, Err};
ghost use Rattle.serde_json.specs.Find.{get_member};
ghost use Rattle.serde_json.specs.View.{view, members_view};
ghost use Rattle.fh_app.specs.Bindings.{cut_at};
ghost use Rattle.fh_invoke.specs.declared.fault.OutputFault.TheVariants.{NoMemory as WantOfMemory};
ghost use Rattle.fh_invoke.specs.Replies.{parts_in};
ghost use Rattle.fh_invoke.specs.Outputs.{Gives, UnlessMemory, Sends, SendsMore, Sent, sent_by, sent_to, sent_behind};
ghost use Rattle.fh_invoke.specs.Outputs.{given as given_lem, value_named as value_named_lem, name_of as name_of_lem};
ghost use Rattle.fh_invoke.specs.Outputs.{template_of as template_of_lem, place_of as place_of_lem};
ghost use Rattle.fh_invoke.specs.Outputs.{blob_at as blob_at_lem, IsOutputAt, AreFirstOf};

use crate::answer::Answer;
use crate::coding::coded;
use crate::fault::OutputFault;
use crate::knowing::values_of;
use crate::printing::printed;
use crate::subject::subject_of;
use fh_app::{App, Function, OutBinding};
use fh_base::{NoMemory, Text};
use fh_event::{Begun, Output, Outputs};
use fh_exprs::{ExprFault, Template, Values};
use serde_json::{Map, Value};
use std::alloc::Global;

// One more output than an invocation may have.
const MOST: usize = 1001;

/// The outputs that an answer gives by the bindings of this invocation's function, in their order; at most
/// the first 1,001. A binding's template is resolved only where the binding has a value, and the first that
/// doesn't resolve is the fault.
pub fn outputs_of(
    alloc: Global,
    answer: &Answer,
    begun: &Begun,
    function: &Function,
    app: &App,
) -> Result<Outputs, OutputFault>
    ensures { UnlessMemory result
        (Gives (parts_in answer.now) begun.now function.now app.now result) }
{
    let base64 = app.queues.base64;
    let subject = subject_of(alloc, base64, &function.trigger, &begun.job)?;
    let known = values_of(alloc, begun, &subject)?;
    outputs_by(alloc, answer, function.outputs.as_slice(), &known, base64)
}

fn outputs_by(
    alloc: Global,
    answer: &Answer,
    bindings: &[OutBinding],
    known: &Values,
    base64: bool,
) -> Result<Outputs, OutputFault>
    ensures { UnlessMemory result
        (Sends base64 (sent_behind (parts_in answer.now) known.now [] bindings.now) result) }
{
    let mut outputs = Vec::new(alloc);
    for binding in bindings {
        let given = given(binding, value_named(answer, name_of(binding)));
        add_outputs(alloc, binding, given, known, base64, &mut outputs)?;
    }
    Ok(Outputs::new(outputs))
}

fn name_of(binding: &OutBinding) -> &str
    ensures { result.now ≡ name_of_lem binding.now }
{
    match binding {
        OutBinding::Queue { name, .. } => name.as_str(),
        OutBinding::Blob { name, .. } => name.as_str(),
    }
}

fn template_of(binding: &OutBinding) -> &Template
    ensures { result.now ≡ template_of_lem binding.now }
{
    match binding {
        OutBinding::Queue { queue, .. } => queue,
        OutBinding::Blob { path, .. } => path,
    }
}

// The value of the binding with this name.
fn value_named<'v>(answer: &'v Answer, name: &str) -> Option<&'v Value>
    ensures { option_map (λ v. view v.now) result ≡ value_named_lem (parts_in answer.now) name.now }
{
    if name == "$return" {
        Some(&answer.value)
    } else {
        member(&answer.outputs, name)
    }
}

fn member<'v>(members: &'v Map<String, Value>, name: &str) -> Option<&'v Value>
    ensures { option_map (λ v. view v.now) result
        ≡ get_member name.now (members_view members.now.entries) }
{
    members.get(name)
}

// The values that a binding puts out.
#[tactic(auto, using(crate::proofs::Sending::list_of_items))]
fn given<'v>(binding: &OutBinding, value: Option<&'v Value>) -> &'v [Value]
    ensures { map view result.now
        ≡ given_lem binding.now (option_map (λ v. view v.now) value.entry) }
{
    match value {
        None | Some(Value::Null) => &[],
        Some(value) => match (binding, value) {
            (OutBinding::Queue { .. }, Value::Array(values)) => values.as_slice(),
            _ => std::slice::from_ref(value),
        },
    }
}

fn add_outputs(
    alloc: Global,
    binding: &OutBinding,
    given: &[Value],
    known: &Values,
    base64: bool,
    outputs: &mut Vec<Output>,
) -> Result<(), OutputFault>
    ensures { SendsMore base64 (sent_by known.now binding.now (map view given.now))
        outputs.old.items outputs.new.items result }
{
    if given.is_empty() {
        return Ok(());
    }
    let place = place_of(alloc, binding, known)?;
    add_each(alloc, binding, place.as_str(), given, base64, outputs)?;
    Ok(())
}

// The text of a binding's template.
fn place_of(alloc: Global, binding: &OutBinding, known: &Values) -> Result<Text, OutputFault>
    ensures { MatchResult result (λ place. place_of_lem known.now binding.now ≡ Ok place)
        (λ told. told ≢ WantOfMemory → place_of_lem known.now binding.now ≡ Err told) }
{
    match template_of(binding).resolve(alloc, known) {
        Ok(text) => Ok(Text::new(text)),
        Err(ExprFault::NoMemory) => Err(OutputFault::NoMemory),
        Err(_) => {
            let binding = Text::from_str(alloc, name_of(binding))?;
            Err(OutputFault::Expression { binding })
        }
    }
}

fn add_each(
    alloc: Global,
    binding: &OutBinding,
    place: &str,
    given: &[Value],
    base64: bool,
    outputs: &mut Vec<Output>,
) -> Result<(), NoMemory>
    ensures { OnOk result ((before : List Sent) → AreFirstOf base64 before outputs.old.items
        → AreFirstOf base64 (before ++ sent_to binding.now place.now (map view given.now)) outputs.new.items) }
{
    for value in given {
        add_output(alloc, binding, place, value, base64, outputs)?;
    }
    Ok(())
}

fn add_output(
    alloc: Global,
    binding: &OutBinding,
    place: &str,
    value: &Value,
    base64: bool,
    outputs: &mut Vec<Output>,
) -> Result<(), NoMemory>
    ensures { OnOk result ((before : List Sent) → AreFirstOf base64 before outputs.old.items
        → AreFirstOf base64 (before ++ sent_to binding.now place.now (view value.now ∷ [])) outputs.new.items) }
{
    if outputs.len() < MOST {
        let output = output_at(alloc, binding, place, value, base64)?;
        outputs.push(output)?;
    }
    Ok(())
}

fn output_at(
    alloc: Global,
    binding: &OutBinding,
    place: &str,
    value: &Value,
    base64: bool,
) -> Result<Output, NoMemory>
    ensures { IfOk result (λ o. IsOutputAt base64 binding.now place.now (view value.now) o) }
{
    let text = printed(alloc, value)?;
    match binding {
        OutBinding::Queue { .. } => {
            let queue = Text::from_str(alloc, place)?;
            let text = coded(alloc, base64, text)?;
            Ok(Output::Queue { queue, text })
        }
        OutBinding::Blob { .. } => {
            let (container, blob) = blob_at(place);
            let container = Text::from_str(alloc, container)?;
            let blob = Text::from_str(alloc, blob)?;
            Ok(Output::Blob {
                container,
                blob,
                text,
            })
        }
    }
}

// The container and the name of a blob.
fn blob_at(place: &str) -> (&str, &str)
    ensures { (result.0.now, result.1.now) ≡ blob_at_lem place.now }
{
    match cut_at_slash(place) {
        Some(parts) => parts,
        None => (place, ""),
    }
}

fn cut_at_slash(text: &str) -> Option<(&str, &str)>
    ensures { MatchOption result (cut_at 47 text.now ≡ Option.None)
        (λ cut. cut_at 47 text.now ≡ Option.Some (cut.0.now, cut.1.now)) }
{
    text.split_once('/')
}
