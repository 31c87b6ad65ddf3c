// The message by which a blob function is told of a blob.
ghost use Rattle.std.specs.Prelude.{◌≡◌, IfOk};
ghost use Rattle.serde_json.specs.View.{view};
ghost use Rattle.fh_dispatch.specs.Notes.{note, note_text};

use fh_base::{NoMemory, Text};
use serde_json::{Map, Value, json};
use std::alloc::Global;

/// The text of the message that tells a blob function of a version of a blob: compact JSON with the members
/// `BlobName`, `BlobType`, `ContainerName`, `ETag` and `FunctionId` (Azure Functions reference, blob trigger).
#[tactic(auto, unfolding(crate::specs::Notes::note_text))]
pub fn note_text(
    alloc: Global,
    function: &str,
    container: &str,
    blob: &str,
    version: u64,
) -> Result<Text, NoMemory>
    ensures { IfOk result (λ text. text ≡ note_text function.now container.now blob.now version) }
{
    let note = note(alloc, function, container, blob, version)?;
    Ok(Text::new(note.to_string(alloc)?))
}

fn note(
    alloc: Global,
    function: &str,
    container: &str,
    blob: &str,
    version: u64,
) -> Result<Value, NoMemory>
    ensures { IfOk result (λ value. view value ≡ note function.now container.now blob.now version) }
{
    let version = format!(in alloc; "{version}")?;
    let mut members = Map::new(alloc);
    serde_json::put(&mut members, alloc, "BlobName", json!(in alloc; blob)?)?;
    serde_json::put(
        &mut members,
        alloc,
        "BlobType",
        json!(in alloc; "BlockBlob")?,
    )?;
    serde_json::put(
        &mut members,
        alloc,
        "ContainerName",
        json!(in alloc; container)?,
    )?;
    serde_json::put(
        &mut members,
        alloc,
        "ETag",
        json!(in alloc; version.as_str())?,
    )?;
    serde_json::put(
        &mut members,
        alloc,
        "FunctionId",
        json!(in alloc; function)?,
    )?;
    Ok(Value::Object(members))
}
