//! An app, and the files that it is read from.
ghost use Rattle.std.specs.Prelude.{◌≡◌, ◌++◌, [], codes, map, IfOk, Option, Ok, option_map};
ghost use Rattle.std.specs.List.{list_any};
ghost use Rattle.serde_json.specs.View.{view};
ghost use Rattle.fh_app.specs.Answers.{Answers, AnswersBy};
ghost use Rattle.fh_app.specs.Functions.{json_of as json_of_lem, json_row, file_row, function_file as function_file_lem, is_same_name as is_same_name_lem, name_row as name_row_lem, bindings_of as bindings_of_lem, bindings_row, function_in as function_in_lem, function_of, functions_behind};
ghost use Rattle.fh_app.specs.App.{host_in, settings_in, app_of};

use crate::bindings::Table;
use crate::fault::{
    AppFault, bad_function_name, bad_value, missing, not_json, same_name, trigger_count,
};
use crate::function::{Bindings, Function, Functions};
use crate::host::{Handler, Host, QueueSettings, read_host};
use crate::rows::File;
use crate::settings::read_settings;
use crate::targets::{first_trigger, outputs_in};
use fh_base::{Bytes, NoMemory, PlainName, Text, utf8_text};
use fh_exprs::Settings;
use serde_json::{Category, Map, Value};
use std::alloc::Global;
use std::marker::Model;

/// The bytes of an app's files: host.json, local.settings.json, and each function's function.json with
/// the name of its folder.
#[derive(Drop)]
pub struct AppFiles {
    pub host: Option<Bytes>,
    pub settings: Option<Bytes>,
    pub functions: FunctionFiles,
}

/// Names of functions with the bytes of their files, in order. Contracts see the list of pairs.
#[derive(Drop)]
pub struct FunctionFiles {
    files: Vec<(Text, Bytes)>,
}

impl Model for FunctionFiles {
    ghost use Rattle.std.specs.Prelude.{ℕ, List};

    ghost Value = { List (List ℕ × List ℕ) };

    ghost view = { λ f. f.files.items };
}

impl FunctionFiles {
    /// Takes no memory.
    pub fn new(files: Vec<(Text, Bytes)>) -> FunctionFiles
        ensures { result ≡ files.items }
    {
        FunctionFiles { files }
    }

    pub fn as_slice(&self) -> &[(Text, Bytes)]
        ensures { result.now ≡ self.now }
    {
        self.files.as_slice()
    }
}

/// An app: its functions in order, and what host.json and the settings say. The lease of a singleton
/// lasts `lock_seconds`.
#[derive(Drop)]
pub struct App {
    pub functions: Functions,
    pub queues: QueueSettings,
    pub handler: Handler,
    pub settings: Settings,
    pub lock_seconds: u64,
}

impl App {
    /// Reads an app, or tells its first fault: host.json comes first, then the settings, then the
    /// functions in order. docs/app-files.md has the tables of members.
    #[tactic(auto, unfolding(crate::specs::App::app_of))]
    pub fn read(alloc: Global, files: &AppFiles) -> Result<App, AppFault>
        ensures { Answers result (app_of files.now) }
    {
        let host = host_in(alloc, files)?;
        let settings = settings_in(alloc, files)?;
        let functions = functions_in(alloc, &settings, files.functions.as_slice())?;
        Ok(App {
            functions,
            queues: host.queues,
            handler: host.handler,
            settings,
            lock_seconds: host.lock_seconds,
        })
    }
}

#[tactic(auto, unfolding(crate::specs::App::host_in))]
fn host_in(alloc: Global, files: &AppFiles) -> Result<Host, AppFault>
    ensures { Answers result (host_in files.now) }
{
    let root = file_of(alloc, "host.json", &files.host)?;
    read_host(alloc, &root)
}

#[tactic(auto, unfolding(crate::specs::App::settings_in))]
fn settings_in(alloc: Global, files: &AppFiles) -> Result<Settings, AppFault>
    ensures { AnswersBy (λ s. s.pairs) result (settings_in files.now) }
{
    let root = file_of(alloc, "local.settings.json", &files.settings)?;
    let pairs = read_settings(alloc, &root)?;
    Ok(Settings { pairs })
}

fn functions_in(
    alloc: Global,
    settings: &Settings,
    files: &[(Text, Bytes)],
) -> Result<Functions, AppFault>
    ensures { Answers result (functions_behind settings.now.pairs [] files.now) }
{
    let mut functions = Vec::new(alloc);
    for file in files {
        let function = function_of(alloc, settings, &functions, &file.0, &file.1)?;
        functions.push(function)?;
    }
    Ok(Functions::from_vec(functions))
}

#[tactic(auto, unfolding(crate::specs::Functions::function_of))]
fn function_of(
    alloc: Global,
    settings: &Settings,
    before: &[Function],
    name: &Text,
    bytes: &Bytes,
) -> Result<Function, AppFault>
    ensures { Answers result (function_of settings.now.pairs before.now name.now bytes.now) }
{
    let file = function_file(alloc, name.as_str())?;
    let root = json_of_file(alloc, file.as_str(), bytes.as_slice())?;
    name_row(alloc, before, name.as_str())?;
    function_in(alloc, settings, file.as_str(), name.as_str(), &root)
}

#[tactic(auto, unfolding(crate::specs::Functions::function_in))]
fn function_in(
    alloc: Global,
    settings: &Settings,
    file: &str,
    name: &str,
    root: &Value,
) -> Result<Function, AppFault>
    ensures { Answers result (function_in_lem settings.now.pairs file.now name.now (view root.now)) }
{
    let table = File { name: file, root };
    let disabled = table.truth(alloc, "disabled", false)?;
    let singleton = table.truth(alloc, "singleton", false)?;
    let Bindings { trigger, outputs } = bindings_in(alloc, settings, file, root)?;
    let name = Text::from_str(alloc, name)?;
    Ok(Function {
        name,
        disabled,
        singleton,
        trigger,
        outputs,
    })
}

#[tactic(auto, using(crate::proofs::Lists::list_of_items))]
fn bindings_in(
    alloc: Global,
    settings: &Settings,
    file: &str,
    root: &Value,
) -> Result<Bindings, AppFault>
    ensures { Answers result (bindings_row settings.now.pairs file.now (view root.now)) }
{
    let Some(value) = root.get("bindings") else {
        return Err(missing(alloc, file, "bindings"));
    };
    match value.as_array() {
        Some(bindings) => bindings_of(alloc, settings, file, bindings.as_slice()),
        None => Err(bad_value(alloc, file, "bindings")),
    }
}

#[tactic(auto, unfolding(crate::specs::Functions::bindings_of))]
fn bindings_of(
    alloc: Global,
    settings: &Settings,
    file: &str,
    bindings: &[Value],
) -> Result<Bindings, AppFault>
    ensures { Answers result (bindings_of_lem settings.now.pairs file.now (map view bindings.now)) }
{
    let table = Table {
        settings,
        file,
        bindings,
    };
    table.check(alloc)?;
    let Some(trigger) = first_trigger(alloc, settings, bindings)? else {
        return Err(trigger_count(alloc, file, 0));
    };
    let outputs = outputs_in(alloc, settings, bindings)?;
    Ok(Bindings { trigger, outputs })
}

// A plain name that no function before has, in whichever case.
fn name_row(alloc: Global, before: &[Function], name: &str) -> Result<(), AppFault>
    ensures { Answers result (name_row_lem before.now name.now) }
{
    if PlainName::read(name).is_none() {
        return Err(bad_function_name(alloc, name));
    }
    if is_taken(before, name) {
        return Err(same_name(alloc, name));
    }
    Ok(())
}

fn is_taken(before: &[Function], name: &str) -> bool
    ensures { result ≡ list_any (λ f. is_same_name_lem f.name name.now) before.now }
{
    for function in before {
        if is_same_name(function.name.as_str(), name) {
            return true;
        }
    }
    false
}

fn is_same_name(one: &str, other: &str) -> bool
    ensures { result ≡ is_same_name_lem one.now other.now }
{
    one.eq_ignore_ascii_case(other)
}

pub(crate) fn function_file(alloc: Global, name: &str) -> Result<Text, NoMemory>
    ensures { IfOk result (λ t. t ≡ function_file_lem name.now) }
{
    let text = format!(in alloc; "{name}/function.json")?;
    Ok(Text::new(text))
}

// The value of a file, which has no members where the file isn't there.
fn file_of(alloc: Global, name: &str, bytes: &Option<Bytes>) -> Result<Value, AppFault>
    ensures { AnswersBy view result (file_row name.now bytes.now) }
{
    match bytes {
        Some(bytes) => json_of_file(alloc, name, bytes.as_slice()),
        None => Ok(Value::Object(Map::new(alloc))),
    }
}

fn json_of_file(alloc: Global, name: &str, bytes: &[u8]) -> Result<Value, AppFault>
    ensures { AnswersBy view result (json_row name.now bytes.now) }
{
    match json_of(alloc, bytes)? {
        Some(value) => Ok(value),
        None => Err(not_json(alloc, name)),
    }
}

#[tactic(auto, unfolding(crate::specs::Functions::json_of))]
fn json_of(alloc: Global, bytes: &[u8]) -> Result<Option<Value>, NoMemory>
    ensures { IfOk result (λ o. option_map view o ≡ json_of_lem bytes.now) }
{
    let Some(text) = utf8_text(bytes) else {
        return Ok(None);
    };
    match Value::from_str(alloc, text) {
        Ok(value) => Ok(Some(value)),
        Err(error) => match error.classify() {
            Category::Memory => Err(NoMemory),
            _ => Ok(None),
        },
    }
}
