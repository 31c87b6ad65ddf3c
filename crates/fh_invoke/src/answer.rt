// Reading the reply of a worker.
ghost use Rattle.std.specs.Prelude.{◌≡◌, IfOk, option_map, unwrap_or, Some};
ghost use Rattle.std.specs.Option.{ok_or};
ghost use Rattle.serde_json.specs.Data.{null};
ghost use Rattle.serde_json.specs.Find.{as_object};
ghost use Rattle.serde_json.specs.View.{view, items_view, members_view};
ghost use Rattle.fh_invoke.specs.declared.fault.AnswerFault.TheVariants.{NotJson, NotObject};
ghost use Rattle.fh_invoke.specs.Replies.{Answers, parts_in, answer_of, body_value, parts_of as parts_of_lem};
ghost use Rattle.fh_invoke.specs.Replies.{output_members, log_lines as log_lines_lem, texts_among as texts_among_lem};

use crate::fault::AnswerFault;
use fh_base::{NoMemory, Text, Texts, utf8_text};
use serde_json::{Category, Map, Value};
use std::alloc::Global;

/// What a reply says. `value` is null where it has no return value.
#[derive(Drop)]
pub struct Answer {
    pub outputs: Map<String, Value>,
    pub logs: Texts,
    pub value: Value,
}

/// What a reply of this status and body says, or the first fault: of the status, of the body, and of its
/// outputs.
#[tactic(auto, unfolding(crate::specs::Replies::answer_of))]
pub fn read_answer(alloc: Global, status: u16, body: &[u8]) -> Result<Answer, AnswerFault>
    ensures { Answers parts_in result (answer_of status body.now) }
{
    if status < 200 || status > 299 {
        return Err(AnswerFault::Status { given: status });
    }
    let root = read_body(alloc, body)?;
    parts_of(alloc, &root)
}

// The value of a body, of which an empty one is `{}`.
fn read_body(alloc: Global, body: &[u8]) -> Result<Value, AnswerFault>
    ensures { Answers view result (ok_or (body_value body.now) NotJson) }
{
    if body.is_empty() {
        return Ok(Value::Object(Map::new(alloc)));
    }
    let Some(text) = utf8_text(body) else {
        return Err(AnswerFault::NotJson);
    };
    match Value::from_str(alloc, text) {
        Ok(root) => Ok(root),
        Err(fault) => match fault.classify() {
            Category::Memory => Err(AnswerFault::NoMemory),
            _ => Err(AnswerFault::NotJson),
        },
    }
}

fn parts_of(alloc: Global, root: &Value) -> Result<Answer, AnswerFault>
    ensures { Answers parts_in result (parts_of_lem (Some (view root.now))) }
{
    if !root.is_object() {
        return Err(AnswerFault::NotObject);
    }
    let outputs = outputs_in(alloc, root.get("Outputs"))?;
    let logs = log_lines(alloc, root.get("Logs"))?;
    let value = value_or_null(root.get("ReturnValue"))?;
    Ok(Answer {
        outputs,
        logs,
        value,
    })
}

// The members of the outputs, which may be missing or null.
fn outputs_in(alloc: Global, outputs: Option<&Value>) -> Result<Map<String, Value>, AnswerFault>
    ensures { Answers (λ m. members_view m.entries) result
        (ok_or (output_members (option_map (λ o. view o.now) outputs.entry)) NotObject) }
{
    match outputs {
        None | Some(Value::Null) => Ok(Map::new(alloc)),
        Some(members) => members_in(members.clone()?),
    }
}

fn members_in(outputs: Value) -> Result<Map<String, Value>, AnswerFault>
    ensures { Answers (λ m. members_view m.entries) result
        (ok_or (as_object (view outputs)) NotObject) }
{
    match outputs {
        Value::Object(members) => Ok(members),
        _ => Err(AnswerFault::NotObject),
    }
}

fn value_or_null(value: Option<&Value>) -> Result<Value, NoMemory>
    ensures { IfOk result (λ v. view v ≡ unwrap_or (option_map (λ v. view v.now) value.entry) null) }
{
    match value {
        Some(value) => Ok(value.clone()?),
        None => Ok(Value::Null),
    }
}

fn log_lines(alloc: Global, logs: Option<&Value>) -> Result<Texts, NoMemory>
    ensures { IfOk result (λ t. t ≡ log_lines_lem (option_map (λ l. view l.now) logs.entry)) }
{
    match logs {
        Some(Value::Array(values)) => texts_among(alloc, values.as_slice()),
        _ => Ok(Texts::new(alloc)),
    }
}

fn texts_among(alloc: Global, values: &[Value]) -> Result<Texts, NoMemory>
    ensures { IfOk result (λ t. t ≡ texts_among_lem (items_view values.now)) }
{
    let mut texts = Vec::new(alloc);
    for value in values {
        if let Some(text) = value.as_str() {
            let text = Text::from_str(alloc, text)?;
            texts.push(text)?;
        }
    }
    Ok(Texts::from_vec(texts))
}
