// The table of the bindings of a function.json.
ghost use Rattle.std.specs.Prelude.{◌≡◌, ◌++◌, ◌≤◌, ◌==◌, map, take, length, count_by, IfOk, Bool, List, [], codes, Option, is_some, option_map};
ghost use Rattle.std.specs.Fmt.{decimal};
ghost use Rattle.std.specs.List.{list_any};
ghost use Rattle.serde_json.specs.View.{view};
ghost use Rattle.serde_json.specs.Find.{get};
ghost use Rattle.fh_app.specs.declared.fault.AppFault.TheVariants.{BadValue, Missing};
ghost use Rattle.fh_app.specs.Answers.{Answers, Tells};
ghost use Rattle.fh_app.specs.Rows.{needed as needed_lem, allowed as allowed_lem};
ghost use Rattle.fh_app.specs.Bindings.{label as label_lem, type_in as type_in_lem, type_named as type_named_lem, type_of as type_of_lem, is_trigger_type as is_trigger_type_lem, is_trigger as is_trigger_lem, one_trigger as one_trigger_lem, object_row as object_row_lem, type_row as type_row_lem, direction_of as direction_of_lem, direction_row as direction_row_lem, name_row as name_row_lem, queue_row as queue_row_lem, path_row as path_row_lem, timer_row as timer_row_lem, timer_rows as timer_rows_lem, row_of, column as column_lem, table as table_lem, has_name as has_name_lem, may_be_named as may_be_named_lem, may_name as may_name_lem, is_truth as is_truth_lem, template_in as template_in_lem};

use crate::fault::{AppFault, bad_value, missing, trigger_count};
use crate::kinds::is_text;
use crate::targets::{blobs_in, queue_in, schedule_in, template_in};
use fh_base::{NoMemory, PlainName, Text};
use fh_exprs::Settings;
use serde_json::Value;
use std::alloc::Global;

/// What a binding is.
#[derive(Clone, Copy, Debug, PartialEq, Eq)]
pub(crate) enum BindingType {
    QueueTrigger,
    BlobTrigger,
    TimerTrigger,
    Queue,
    Blob,
}

// The rows of the table, but for the count of triggers.
#[derive(Clone, Copy, Debug, PartialEq, Eq)]
pub(crate) enum Column {
    Object,
    Type,
    Direction,
    Name,
    Queue,
    Path,
    Timer,
}

/// The bindings of a function's file.
#[derive(Clone, Copy)]
pub(crate) struct Table<'a> {
    pub settings: &'a Settings,
    pub file: &'a str,
    pub bindings: &'a [Value],
}

impl Table<'_> {
    /// Tests each row for all bindings, and tells the first fault.
    #[tactic(auto, unfolding(crate::specs::Bindings::table))]
    pub(crate) fn check(&self, alloc: Global) -> Result<(), AppFault>
        ensures { Answers result (table_lem self.now.settings.now.pairs self.now.file.now
            (map view self.now.bindings.now)) }
    {
        self.column(alloc, Column::Object)?;
        self.column(alloc, Column::Type)?;
        self.one_trigger(alloc)?;
        self.column(alloc, Column::Direction)?;
        self.column(alloc, Column::Name)?;
        self.column(alloc, Column::Queue)?;
        self.column(alloc, Column::Path)?;
        self.column(alloc, Column::Timer)
    }

    // Tests a row for all bindings.
    fn column(&self, alloc: Global, column: Column) -> Result<(), AppFault>
        ensures { Answers result (column_lem column self.now.settings.now.pairs
            self.now.file.now (map view self.now.bindings.now)) }
    {
        for (place, binding) in self.bindings.iter().enumerate() {
            self.row(alloc, column, place, binding)?;
        }
        Ok(())
    }

    #[tactic(auto, unfolding(crate::specs::Bindings::row_of))]
    fn row(
        &self,
        alloc: Global,
        column: Column,
        place: usize,
        binding: &Value,
    ) -> Result<(), AppFault>
        requires { place ≤ length self.now.bindings.now }
        ensures { Answers result (row_of column self.now.settings.now.pairs
            self.now.file.now (map view self.now.bindings.now) place (view binding.now)) }
    {
        match column {
            Column::Object => object_row(alloc, self.file, place, binding),
            Column::Type => type_row(alloc, self.file, place, binding),
            Column::Direction => direction_row(alloc, self.file, place, binding),
            Column::Name => self.name_row(alloc, place, binding),
            Column::Queue => queue_row(alloc, self.settings, self.file, place, binding),
            Column::Path => path_row(alloc, self.settings, self.file, place, binding),
            Column::Timer => timer_row(alloc, self.file, place, binding),
        }
    }

    // Exactly one binding is a trigger.
    fn one_trigger(&self, alloc: Global) -> Result<(), AppFault>
        ensures { Answers result (one_trigger_lem self.now.file.now
            (map view self.now.bindings.now)) }
    {
        let given = count_triggers(self.bindings);
        if given == 1 {
            return Ok(());
        }
        Err(trigger_count(alloc, self.file, given))
    }

    fn name_row(&self, alloc: Global, place: usize, binding: &Value) -> Result<(), AppFault>
        requires { place ≤ length self.now.bindings.now }
        ensures { Answers result (name_row_lem self.now.file.now
            (map view self.now.bindings.now) place (view binding.now)) }
    {
        let passes = match binding.get("name") {
            Some(value) => Some(may_name(value, is_trigger(binding), self.before(place))),
            None => None,
        };
        needed(alloc, self.file, place, "name", passes)
    }

    #[tactic(auto, using(crate::proofs::Lists::map_of_take))]
    fn before(&self, place: usize) -> &[Value]
        requires { place ≤ length self.now.bindings.now }
        ensures { map view result.now ≡ take place (map view self.now.bindings.now) }
    {
        &self.bindings[..place]
    }
}

fn object_row(alloc: Global, file: &str, place: usize, binding: &Value) -> Result<(), AppFault>
    ensures { Answers result (object_row_lem file.now place (view binding.now)) }
{
    match binding.as_object() {
        Some(_) => Ok(()),
        None => Err(bad_binding(alloc, file, place)),
    }
}

fn type_row(alloc: Global, file: &str, place: usize, binding: &Value) -> Result<(), AppFault>
    ensures { Answers result (type_row_lem file.now place (view binding.now)) }
{
    let passes = match binding.get("type") {
        Some(value) => Some(type_in(value).is_some()),
        None => None,
    };
    needed(alloc, file, place, "type", passes)
}

fn direction_row(alloc: Global, file: &str, place: usize, binding: &Value) -> Result<(), AppFault>
    ensures { Answers result (direction_row_lem file.now place (view binding.now)) }
{
    let passes = match binding.get("direction") {
        Some(value) => Some(is_text(value, direction_of(is_trigger(binding)))),
        None => None,
    };
    needed(alloc, file, place, "direction", passes)
}

fn direction_of(trigger: bool) -> &'static str
    ensures { result.now ≡ direction_of_lem trigger }
{
    if trigger { "in" } else { "out" }
}

fn queue_row(
    alloc: Global,
    settings: &Settings,
    file: &str,
    place: usize,
    binding: &Value,
) -> Result<(), AppFault>
    ensures { Answers result (queue_row_lem settings.now.pairs file.now place
        (view binding.now) (type_of_lem (view binding.now))) }
{
    match type_of(binding) {
        Some(BindingType::QueueTrigger) => queue_name_row(alloc, settings, file, place, binding),
        Some(BindingType::Queue) => template_row(
            alloc,
            settings,
            file,
            place,
            binding,
            "queueName",
        ),
        _ => Ok(()),
    }
}

fn path_row(
    alloc: Global,
    settings: &Settings,
    file: &str,
    place: usize,
    binding: &Value,
) -> Result<(), AppFault>
    ensures { Answers result (path_row_lem settings.now.pairs file.now place
        (view binding.now) (type_of_lem (view binding.now))) }
{
    match type_of(binding) {
        Some(BindingType::BlobTrigger) => blobs_row(alloc, settings, file, place, binding),
        Some(BindingType::Blob) => template_row(alloc, settings, file, place, binding, "path"),
        _ => Ok(()),
    }
}

fn queue_name_row(
    alloc: Global,
    settings: &Settings,
    file: &str,
    place: usize,
    binding: &Value,
) -> Result<(), AppFault>
    ensures { Answers result (queue_row_lem settings.now.pairs file.now place
        (view binding.now) (Option.Some BindingType.QueueTrigger)) }
{
    let passes = match binding.get("queueName") {
        Some(value) => Some(queue_in(alloc, settings, value)?.is_some()),
        None => None,
    };
    needed(alloc, file, place, "queueName", passes)
}

fn blobs_row(
    alloc: Global,
    settings: &Settings,
    file: &str,
    place: usize,
    binding: &Value,
) -> Result<(), AppFault>
    ensures { Answers result (path_row_lem settings.now.pairs file.now place
        (view binding.now) (Option.Some BindingType.BlobTrigger)) }
{
    let passes = match binding.get("path") {
        Some(value) => Some(blobs_in(alloc, settings, value)?.is_some()),
        None => None,
    };
    needed(alloc, file, place, "path", passes)
}

// The member is a template.
fn template_row(
    alloc: Global,
    settings: &Settings,
    file: &str,
    place: usize,
    binding: &Value,
    member: &str,
) -> Result<(), AppFault>
    ensures { Answers result (needed_lem file.now (label_lem place member.now)
        (option_map (λ value. is_some (template_in_lem settings.now.pairs value))
        (get member.now (view binding.now)))) }
{
    let passes = match binding.get(member) {
        Some(value) => Some(template_in(alloc, settings, value)?.is_some()),
        None => None,
    };
    needed(alloc, file, place, member, passes)
}

fn timer_row(alloc: Global, file: &str, place: usize, binding: &Value) -> Result<(), AppFault>
    ensures { Answers result (timer_row_lem file.now place
        (view binding.now) (type_of_lem (view binding.now))) }
{
    match type_of(binding) {
        Some(BindingType::TimerTrigger) => timer_rows(alloc, file, place, binding),
        _ => Ok(()),
    }
}

fn timer_rows(alloc: Global, file: &str, place: usize, binding: &Value) -> Result<(), AppFault>
    ensures { Answers result (timer_rows_lem file.now place (view binding.now)) }
{
    let passes = match binding.get("schedule") {
        Some(value) => Some(schedule_in(value).is_some()),
        None => None,
    };
    needed(alloc, file, place, "schedule", passes)?;
    truth_row(alloc, file, place, binding, "runOnStartup")?;
    truth_row(alloc, file, place, binding, "useMonitor")
}

// The member is a truth value, or isn't there.
fn truth_row(
    alloc: Global,
    file: &str,
    place: usize,
    binding: &Value,
    member: &str,
) -> Result<(), AppFault>
    ensures { Answers result (allowed_lem file.now (label_lem place member.now)
        (option_map is_truth_lem (get member.now (view binding.now)))) }
{
    match binding.get(member) {
        Some(value) if value.as_bool().is_none() => Err(bad_in(alloc, file, place, member)),
        _ => Ok(()),
    }
}

// Whether the member, which has to be there, passes its test.
fn needed(
    alloc: Global,
    file: &str,
    place: usize,
    member: &str,
    passes: Option<bool>,
) -> Result<(), AppFault>
    ensures { Answers result (needed_lem file.now (label_lem place member.now) passes) }
{
    match passes {
        None => Err(missing_in(alloc, file, place, member)),
        Some(false) => Err(bad_in(alloc, file, place, member)),
        Some(true) => Ok(()),
    }
}

fn count_triggers(bindings: &[Value]) -> u64
    ensures { result ≡ count_by is_trigger_lem (map view bindings.now) }
{
    let mut count: u64 = 0;
    for binding in bindings {
        if is_trigger(binding) {
            count += 1;
        }
    }
    count
}

fn is_trigger(binding: &Value) -> bool
    ensures { result ≡ is_trigger_lem (view binding.now) }
{
    match type_of(binding) {
        Some(kind) => is_trigger_type(kind),
        None => false,
    }
}

fn is_trigger_type(kind: BindingType) -> bool
    ensures { result ≡ is_trigger_type_lem kind }
{
    match kind {
        BindingType::QueueTrigger | BindingType::BlobTrigger | BindingType::TimerTrigger => true,
        BindingType::Queue | BindingType::Blob => false,
    }
}

/// The type of a binding, where it has one.
pub(crate) fn type_of(binding: &Value) -> Option<BindingType>
    ensures { result ≡ type_of_lem (view binding.now) }
{
    let value = binding.get("type")?;
    type_in(value)
}

fn type_in(value: &Value) -> Option<BindingType>
    ensures { result ≡ type_in_lem (view value.now) }
{
    let word = value.as_str()?;
    type_named(word)
}

#[tactic(auto, unfolding(crate::specs::Bindings::type_named))]
fn type_named(word: &str) -> Option<BindingType>
    ensures { result ≡ type_named_lem word.now }
{
    if word == "queueTrigger" {
        Some(BindingType::QueueTrigger)
    } else if word == "blobTrigger" {
        Some(BindingType::BlobTrigger)
    } else if word == "timerTrigger" {
        Some(BindingType::TimerTrigger)
    } else if word == "queue" {
        Some(BindingType::Queue)
    } else if word == "blob" {
        Some(BindingType::Blob)
    } else {
        None
    }
}

// Whether the binding may have this name behind the bindings before it.
fn may_name(value: &Value, trigger: bool, before: &[Value]) -> bool
    ensures { result ≡ may_name_lem trigger (map view before.now) (view value.now) }
{
    match value.as_str() {
        Some(name) => may_be_named(name, trigger, before),
        None => false,
    }
}

fn may_be_named(name: &str, trigger: bool, before: &[Value]) -> bool
    ensures { result ≡ may_be_named_lem trigger (map view before.now) name.now }
{
    if PlainName::read(name).is_none() && (trigger || name != "$return") {
        return false;
    }
    !is_taken(name, before)
}

fn is_taken(name: &str, before: &[Value]) -> bool
    ensures { result ≡ list_any (has_name_lem name.now) (map view before.now) }
{
    for binding in before {
        if has_name(name, binding) {
            return true;
        }
    }
    false
}

fn has_name(name: &str, binding: &Value) -> bool
    ensures { result ≡ has_name_lem name.now (view binding.now) }
{
    let Some(value) = binding.get("name") else {
        return false;
    };
    match value.as_str() {
        Some(other) => name == other,
        None => false,
    }
}

fn missing_in(alloc: Global, file: &str, place: usize, name: &str) -> AppFault
    ensures { Tells result (Missing file.now (label_lem place name.now)) }
{
    match label(alloc, place, name) {
        Ok(member) => missing(alloc, file, member.as_str()),
        Err(_) => AppFault::NoMemory,
    }
}

fn bad_in(alloc: Global, file: &str, place: usize, name: &str) -> AppFault
    ensures { Tells result (BadValue file.now (label_lem place name.now)) }
{
    match label(alloc, place, name) {
        Ok(member) => bad_value(alloc, file, member.as_str()),
        Err(_) => AppFault::NoMemory,
    }
}

fn label(alloc: Global, place: usize, name: &str) -> Result<Text, NoMemory>
    ensures { IfOk result (λ t. t ≡ label_lem place name.now) }
{
    let text = format!(in alloc; "bindings.{place}.{name}")?;
    Ok(Text::new(text))
}

fn bad_binding(alloc: Global, file: &str, place: usize) -> AppFault
    ensures { Tells result (BadValue file.now (codes "bindings." ++ decimal place)) }
{
    match binding_label(alloc, place) {
        Ok(member) => bad_value(alloc, file, member.as_str()),
        Err(_) => AppFault::NoMemory,
    }
}

fn binding_label(alloc: Global, place: usize) -> Result<Text, NoMemory>
    ensures { IfOk result (λ t. t ≡ codes "bindings." ++ decimal place) }
{
    let text = format!(in alloc; "bindings.{place}")?;
    Ok(Text::new(text))
}
