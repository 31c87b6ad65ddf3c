// What a function's templates may name.
ghost use Rattle.std.specs.Prelude.{◌≡◌, ◌++◌, [], ◌∷◌, IfOk, OnOk, option_map, option_and_then};
ghost use Rattle.serde_json.specs.Read.{read};
ghost use Rattle.serde_json.specs.View.{view};
ghost use Rattle.fh_invoke.specs.Knowing.{Knows, names_of_all as names_of_all_lem};
ghost use Rattle.fh_invoke.specs.Knowing.{names_of_message as names_of_message_lem};
ghost use Rattle.fh_invoke.specs.Knowing.{names_of_place as names_of_place_lem, names_about as names_about_lem};
ghost use Rattle.fh_invoke.specs.Knowing.{names_known as names_known_lem, only_object as only_object_lem};
ghost use Rattle.fh_invoke.specs.Knowing.{object_about as object_about_lem};

use crate::ids::rand_guid;
use crate::subject::{BlobPlace, QueueMessage, Subject, decimal_text};
use fh_base::{NoMemory, Text, TimeForm, time_text};
use fh_event::Begun;
use fh_exprs::{Pairs, Values};
use serde_json::{Category, Value};
use std::alloc::Global;

type Names = Vec<(Text, Text)>;

/// The values that the templates of this invocation's function may name.
pub(crate) fn values_of(alloc: Global, begun: &Begun, subject: &Subject) -> Result<Values, NoMemory>
    ensures { IfOk result (Knows begun.now subject.now) }
{
    let known = names_known(alloc, begun, subject)?;
    let message = object_about(alloc, subject)?;
    Ok(Values {
        known: Pairs::from_vec(known),
        message,
    })
}

fn names_known(alloc: Global, begun: &Begun, subject: &Subject) -> Result<Names, NoMemory>
    ensures { IfOk result (λ n. n.items ≡ names_known_lem begun.now subject.now) }
{
    let mut names = names_of_all(alloc, begun)?;
    let mut about = names_about(alloc, subject)?;
    names.append(&mut about)?;
    Ok(names)
}

fn names_of_all(alloc: Global, begun: &Begun) -> Result<Names, NoMemory>
    ensures { IfOk result (λ n. n.items ≡ names_of_all_lem begun.now) }
{
    let id = rand_guid(alloc, begun.high, begun.low)?;
    let dashed = Text::new(time_text(alloc, begun.moment, TimeForm::Dashed)?);
    let millis = Text::new(time_text(alloc, begun.moment, TimeForm::Millis)?);
    let mut names = Vec::new(alloc);
    add_name(alloc, &mut names, "rand-guid", &id)?;
    add_name(alloc, &mut names, "sys.RandGuid", &id)?;
    add_name(alloc, &mut names, "DateTime", &dashed)?;
    add_name(alloc, &mut names, "sys.UtcNow", &millis)?;
    add_name(alloc, &mut names, "sys.MethodName", &begun.function)?;
    Ok(names)
}

fn names_about(alloc: Global, subject: &Subject) -> Result<Names, NoMemory>
    ensures { IfOk result (λ n. n.items ≡ names_about_lem subject.now) }
{
    match subject {
        Subject::Bare | Subject::Timer { .. } => Ok(Vec::new(alloc)),
        Subject::Queue(message) => names_of_message(alloc, message),
        Subject::Blob { place, .. } => names_of_place(alloc, place),
    }
}

fn names_of_message(alloc: Global, message: &QueueMessage) -> Result<Names, NoMemory>
    ensures { IfOk result (λ n. n.items ≡ names_of_message_lem message.now) }
{
    let count = decimal_text(alloc, message.count)?;
    let mut names = Vec::new(alloc);
    add_name(alloc, &mut names, "queueTrigger", &message.text)?;
    add_name(alloc, &mut names, "DequeueCount", &count)?;
    add_name(alloc, &mut names, "ExpirationTime", &message.expiry)?;
    add_name(alloc, &mut names, "Id", &message.id)?;
    add_name(alloc, &mut names, "InsertionTime", &message.put_at)?;
    add_name(alloc, &mut names, "NextVisibleTime", &message.visible_at)?;
    add_name(alloc, &mut names, "PopReceipt", &message.receipt)?;
    Ok(names)
}

fn names_of_place(alloc: Global, place: &Option<BlobPlace>) -> Result<Names, NoMemory>
    ensures { IfOk result (λ n. n.items ≡ names_of_place_lem place.now) }
{
    let mut names = Vec::new(alloc);
    match place {
        Some(place) => {
            add_name(alloc, &mut names, "blobTrigger", &place.path)?;
            add_pairs(alloc, &mut names, place.names.as_slice())?;
            Ok(names)
        }
        None => Ok(names),
    }
}

fn add_pairs(alloc: Global, names: &mut Names, pairs: &[(Text, Text)]) -> Result<(), NoMemory>
    ensures { OnOk result (names.new.items ≡ names.old.items ++ pairs.now) }
{
    for pair in pairs {
        add_name(alloc, names, pair.0.as_str(), &pair.1)?;
    }
    Ok(())
}

fn add_name(alloc: Global, names: &mut Names, name: &str, text: &Text) -> Result<(), NoMemory>
    ensures { OnOk result (names.new.items ≡ names.old.items ++ (name.now, text.now) ∷ []) }
{
    let name = Text::from_str(alloc, name)?;
    let text = text.copy(alloc)?;
    names.push((name, text))?;
    Ok(())
}

// A queue's text that is a JSON object.
fn object_about(alloc: Global, subject: &Subject) -> Result<Option<Value>, NoMemory>
    ensures { IfOk result (λ o. option_map view o ≡ object_about_lem subject.now) }
{
    match subject {
        Subject::Queue(message) => object_in(alloc, message.text.as_str()),
        _ => Ok(None),
    }
}

fn object_in(alloc: Global, text: &str) -> Result<Option<Value>, NoMemory>
    ensures { IfOk result (λ o. option_map view o ≡ option_and_then only_object_lem (read text.now)) }
{
    match Value::from_str(alloc, text) {
        Ok(value) => Ok(only_object(value)),
        Err(fault) => match fault.classify() {
            Category::Memory => Err(NoMemory),
            _ => Ok(None),
        },
    }
}

fn only_object(value: Value) -> Option<Value>
    ensures { option_map view result ≡ only_object_lem (view value) }
{
    if value.is_object() { Some(value) } else { None }
}
