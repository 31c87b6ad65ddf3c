// The table of local.settings.json.
ghost use Rattle.std.specs.Prelude.{◌≡◌, ◌++◌, [], codes, map, string_bytes, IfOk};
ghost use Rattle.serde_json.specs.View.{view, members_view};
ghost use Rattle.fh_app.specs.declared.fault.AppFault.TheVariants.{BadValue};
ghost use Rattle.fh_app.specs.Answers.{Answers, Tells};
ghost use Rattle.fh_app.specs.Settings.{settings_file, settings_of, pairs_behind};

use crate::fault::{AppFault, bad_value};
use fh_base::{NoMemory, Text};
use fh_exprs::Pairs;
use serde_json::{Map, Value};
use std::alloc::Global;

/// The app settings, or the first fault of their table.
#[tactic(auto, unfolding(crate::specs::Settings::settings_of))]
pub(crate) fn read_settings(alloc: Global, root: &Value) -> Result<Pairs, AppFault>
    ensures { Answers result (settings_of (view root.now)) }
{
    let Some(value) = root.get("Values") else {
        return Ok(Pairs::from_vec(Vec::new(alloc)));
    };
    match value.as_object() {
        Some(members) => pairs_of(alloc, members),
        None => Err(bad_value(alloc, "local.settings.json", "Values")),
    }
}

// The names and texts of an object of texts.
fn pairs_of(alloc: Global, members: &Map<String, Value>) -> Result<Pairs, AppFault>
    ensures { Answers result (pairs_behind [] (members_view members.now.entries)) }
{
    let mut pairs = Vec::new(alloc);
    for (name, value) in members {
        let Some(text) = value.as_str() else {
            return Err(bad_setting(alloc, name.as_str()));
        };
        let name = Text::from_str(alloc, name.as_str())?;
        let text = Text::from_str(alloc, text)?;
        pairs.push((name, text))?;
    }
    Ok(Pairs::from_vec(pairs))
}

fn bad_setting(alloc: Global, name: &str) -> AppFault
    ensures { Tells result (BadValue settings_file (codes "Values." ++ name.now)) }
{
    match setting_of(alloc, name) {
        Ok(member) => bad_value(alloc, "local.settings.json", member.as_str()),
        Err(_) => AppFault::NoMemory,
    }
}

fn setting_of(alloc: Global, name: &str) -> Result<Text, NoMemory>
    ensures { IfOk result (λ t. t ≡ codes "Values." ++ name.now) }
{
    let text = format!(in alloc; "Values.{name}")?;
    Ok(Text::new(text))
}
