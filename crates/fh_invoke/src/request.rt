// The body that is posted for an invocation.
ghost use Rattle.std.specs.Prelude.{◌≡◌, IfOk, OnOk, string_bytes};
ghost use Rattle.serde_json.specs.Data.{string, put as put_lem};
ghost use Rattle.serde_json.specs.View.{view, members_view};
ghost use Rattle.serde_json.specs.Written.{compact_text};
ghost use Rattle.fh_invoke.specs.Requests.{sys_of, bare_members as bare_members_lem};
ghost use Rattle.fh_invoke.specs.Requests.{queue_members as queue_members_lem, with_names, with_place};
ghost use Rattle.fh_invoke.specs.Requests.{blob_members as blob_members_lem, metadata_of as metadata_of_lem};
ghost use Rattle.fh_invoke.specs.Requests.{schedule as schedule_lem, schedule_status as schedule_status_lem};
ghost use Rattle.fh_invoke.specs.Requests.{run_value as run_value_lem, content_value as content_value_lem};
ghost use Rattle.fh_invoke.specs.Requests.{value_of as value_of_lem, name_of as name_of_lem, posted as posted_lem};
ghost use Rattle.fh_invoke.specs.Requests.{request_about as request_about_lem, request_text as request_text_lem};

use crate::ids::rand_guid;
use crate::subject::{BlobPlace, QueueMessage, Subject, subject_of};
use fh_app::{App, Function, Trigger};
use fh_base::{NoMemory, Text, TimeForm, time_text};
use fh_event::Begun;
use serde_json::{Map, Value};
use std::alloc::Global;

type Members = Map<String, Value>;

/// The body that is posted for this invocation of the function, as compact JSON.
#[tactic(auto, unfolding(crate::specs::Requests::request_text))]
pub fn request_text(
    alloc: Global,
    begun: &Begun,
    function: &Function,
    app: &App,
) -> Result<Vec<u8>, NoMemory>
    ensures { IfOk result (λ b. b.items ≡ request_text_lem begun.now function.now app.now) }
{
    let subject = subject_of(alloc, app.queues.base64, &function.trigger, &begun.job)?;
    let text = text_about(alloc, begun, name_of(&function.trigger), &subject)?;
    Ok(text.into_bytes())
}

fn text_about(
    alloc: Global,
    begun: &Begun,
    name: &str,
    subject: &Subject,
) -> Result<String, NoMemory>
    ensures { IfOk result
        (λ t. string_bytes t ≡ compact_text (request_about_lem begun.now name.now subject.now)) }
{
    let value = request_about(alloc, begun, name, subject)?;
    Ok(value.to_string(alloc)?)
}

fn request_about(
    alloc: Global,
    begun: &Begun,
    name: &str,
    subject: &Subject,
) -> Result<Value, NoMemory>
    ensures { IfOk result (λ v. view v ≡ request_about_lem begun.now name.now subject.now) }
{
    let value = value_of(alloc, subject)?;
    let metadata = metadata_of(alloc, begun, subject)?;
    posted(alloc, name, value, metadata)
}

fn posted(alloc: Global, name: &str, value: Value, metadata: Members) -> Result<Value, NoMemory>
    ensures { IfOk result
        (λ v. view v ≡ posted_lem name.now (view value) (members_view metadata.entries)) }
{
    let mut data = Map::new(alloc);
    serde_json::put(&mut data, alloc, name, value)?;
    let mut body = Map::new(alloc);
    serde_json::put(&mut body, alloc, "Data", Value::Object(data))?;
    serde_json::put(&mut body, alloc, "Metadata", Value::Object(metadata))?;
    Ok(Value::Object(body))
}

// The name of the trigger's binding.
fn name_of(trigger: &Trigger) -> &str
    ensures { result.now ≡ name_of_lem trigger.now }
{
    match trigger {
        Trigger::Queue { name, .. } => name.as_str(),
        Trigger::Blob { name, .. } => name.as_str(),
        Trigger::Timer { name, .. } => name.as_str(),
    }
}

fn value_of(alloc: Global, subject: &Subject) -> Result<Value, NoMemory>
    ensures { IfOk result (λ v. view v ≡ value_of_lem subject.now) }
{
    match subject {
        Subject::Bare => Ok(Value::Null),
        Subject::Queue(message) => text_value(alloc, message.text.as_str()),
        Subject::Blob { content, .. } => content_value(alloc, content),
        Subject::Timer {
            past_due,
            last,
            next,
            updated,
        } => run_value(alloc, *past_due, last, next, updated),
    }
}

fn content_value(alloc: Global, content: &Option<Text>) -> Result<Value, NoMemory>
    ensures { IfOk result (λ v. view v ≡ content_value_lem content.now) }
{
    match content {
        Some(content) => text_value(alloc, content.as_str()),
        None => Ok(Value::Null),
    }
}

fn run_value(
    alloc: Global,
    past_due: bool,
    last: &Text,
    next: &Text,
    updated: &Text,
) -> Result<Value, NoMemory>
    ensures { IfOk result (λ v. view v ≡ run_value_lem past_due last.now next.now updated.now) }
{
    let schedule = schedule(alloc)?;
    let status = schedule_status(alloc, last, next, updated)?;
    let mut run = Map::new(alloc);
    serde_json::put(&mut run, alloc, "IsPastDue", Value::Bool(past_due))?;
    serde_json::put(&mut run, alloc, "Schedule", schedule)?;
    serde_json::put(&mut run, alloc, "ScheduleStatus", status)?;
    Ok(Value::Object(run))
}

fn schedule(alloc: Global) -> Result<Value, NoMemory>
    ensures { IfOk result (λ v. view v ≡ schedule_lem) }
{
    let mut schedule = Map::new(alloc);
    serde_json::put(&mut schedule, alloc, "AdjustForDST", Value::Bool(true))?;
    Ok(Value::Object(schedule))
}

fn schedule_status(
    alloc: Global,
    last: &Text,
    next: &Text,
    updated: &Text,
) -> Result<Value, NoMemory>
    ensures { IfOk result (λ v. view v ≡ schedule_status_lem last.now next.now updated.now) }
{
    let mut status = Map::new(alloc);
    put_text(alloc, &mut status, "Last", last)?;
    put_text(alloc, &mut status, "LastUpdated", updated)?;
    put_text(alloc, &mut status, "Next", next)?;
    Ok(Value::Object(status))
}

fn metadata_of(alloc: Global, begun: &Begun, subject: &Subject) -> Result<Members, NoMemory>
    ensures { IfOk result (λ m. members_view m.entries ≡ metadata_of_lem begun.now subject.now) }
{
    match subject {
        Subject::Bare | Subject::Timer { .. } => bare_members(alloc, begun),
        Subject::Queue(message) => queue_members(alloc, begun, message),
        Subject::Blob { place, .. } => blob_members(alloc, begun, place),
    }
}

fn queue_members(alloc: Global, begun: &Begun, message: &QueueMessage) -> Result<Members, NoMemory>
    ensures { IfOk result (λ m. members_view m.entries ≡ queue_members_lem begun.now message.now) }
{
    let mut members = bare_members(alloc, begun)?;
    put_text(alloc, &mut members, "QueueTrigger", &message.text)?;
    put_text(alloc, &mut members, "PopReceipt", &message.receipt)?;
    put_text(alloc, &mut members, "NextVisibleTime", &message.visible_at)?;
    put_text(alloc, &mut members, "InsertionTime", &message.put_at)?;
    put_text(alloc, &mut members, "Id", &message.id)?;
    put_text(alloc, &mut members, "ExpirationTime", &message.expiry)?;
    serde_json::put(
        &mut members,
        alloc,
        "DequeueCount",
        Value::from(message.count),
    )?;
    Ok(members)
}

fn blob_members(
    alloc: Global,
    begun: &Begun,
    place: &Option<BlobPlace>,
) -> Result<Members, NoMemory>
    ensures { IfOk result (λ m. members_view m.entries ≡ blob_members_lem begun.now place.now) }
{
    let mut members = bare_members(alloc, begun)?;
    match place {
        Some(place) => {
            put_place(alloc, &mut members, place)?;
            Ok(members)
        }
        None => Ok(members),
    }
}

fn put_place(alloc: Global, members: &mut Members, place: &BlobPlace) -> Result<(), NoMemory>
    ensures { OnOk result
        (members_view members.new.entries ≡ with_place place.now (members_view members.old.entries)) }
{
    put_text(alloc, members, "BlobTrigger", &place.path)?;
    put_names(alloc, members, place.names.as_slice())
}

fn bare_members(alloc: Global, begun: &Begun) -> Result<Members, NoMemory>
    ensures { IfOk result (λ m. members_view m.entries ≡ bare_members_lem begun.now) }
{
    let sys = sys(alloc, begun)?;
    let mut members = Map::new(alloc);
    serde_json::put(&mut members, alloc, "sys", sys)?;
    Ok(members)
}

// The function, the invocation's id, and the moment of its begin.
fn sys(alloc: Global, begun: &Begun) -> Result<Value, NoMemory>
    ensures { IfOk result (λ v. view v ≡ sys_of begun.now) }
{
    let id = rand_guid(alloc, begun.high, begun.low)?;
    let now = Text::new(time_text(alloc, begun.moment, TimeForm::Millis)?);
    let mut sys = Map::new(alloc);
    put_text(alloc, &mut sys, "MethodName", &begun.function)?;
    put_text(alloc, &mut sys, "RandGuid", &id)?;
    put_text(alloc, &mut sys, "UtcNow", &now)?;
    Ok(Value::Object(sys))
}

fn put_names(alloc: Global, members: &mut Members, names: &[(Text, Text)]) -> Result<(), NoMemory>
    ensures { OnOk result
        (members_view members.new.entries ≡ with_names names.now (members_view members.old.entries)) }
{
    for name in names {
        put_text(alloc, members, name.0.as_str(), &name.1)?;
    }
    Ok(())
}

fn put_text(alloc: Global, members: &mut Members, name: &str, text: &Text) -> Result<(), NoMemory>
    ensures { OnOk result (members_view members.new.entries
        ≡ put_lem name.now (string text.now) (members_view members.old.entries)) }
{
    let value = text_value(alloc, text.as_str())?;
    serde_json::put(members, alloc, name, value)?;
    Ok(())
}

fn text_value(alloc: Global, text: &str) -> Result<Value, NoMemory>
    ensures { IfOk result (λ v. view v ≡ string text.now) }
{
    Ok(Value::String(String::from_str(alloc, text)?))
}
