//! Why the files of an app aren't read.
ghost use Rattle.std.specs.Prelude.{◌≡◌, IfOk};
ghost use Rattle.fh_app.specs.declared.fault.AppFault.TheVariants.{NoMemory as WantOfMemory, Missing, BadValue, TriggerCount, NotJson, BadFunctionName, SameName};
ghost use Rattle.fh_app.specs.Answers.{Tells};

use fh_base::{NoMemory, Text};
use std::alloc::{AllocError, AllocFailed, Global};

/// The first fault of an app's files. A file of a function is named with its folder. A member is its
/// path with dots, in which an item of a list is its place, counted from 0.
#[derive(Debug, Drop)]
pub enum AppFault {
    /// The file is no JSON text.
    NotJson { file: Text },
    /// The member isn't there.
    Missing { file: Text, member: Text },
    /// The member's value is of another kind, or out of range.
    BadValue { file: Text, member: Text },
    /// So many bindings are triggers, and not one.
    TriggerCount { file: Text, given: u64 },
    /// The function's name is no plain name.
    BadFunctionName { name: Text },
    /// The function's name equals that of a function before it, but maybe for case.
    SameName { name: Text },
    NoMemory,
}

impl From<AllocError> for AppFault {
    ghost from_gives = { λ _ e. e ≡ WantOfMemory };

    fn from(_refused: AllocError) -> AppFault {
        AppFault::NoMemory
    }
}

impl<T: Drop> From<AllocFailed<T>> for AppFault {
    ghost from_gives = { λ _ e. e ≡ WantOfMemory };

    fn from(_refused: AllocFailed<T>) -> AppFault {
        AppFault::NoMemory
    }
}

impl From<NoMemory> for AppFault {
    ghost from_gives = { λ _ e. e ≡ WantOfMemory };

    fn from(_refused: NoMemory) -> AppFault {
        AppFault::NoMemory
    }
}

pub(crate) fn not_json(alloc: Global, file: &str) -> AppFault
    ensures { Tells result (NotJson file.now) }
{
    match Text::from_str(alloc, file) {
        Ok(file) => AppFault::NotJson { file },
        Err(_) => AppFault::NoMemory,
    }
}

pub(crate) fn missing(alloc: Global, file: &str, member: &str) -> AppFault
    ensures { Tells result (Missing file.now member.now) }
{
    match pair_of(alloc, file, member) {
        Ok((file, member)) => AppFault::Missing { file, member },
        Err(_) => AppFault::NoMemory,
    }
}

pub(crate) fn bad_value(alloc: Global, file: &str, member: &str) -> AppFault
    ensures { Tells result (BadValue file.now member.now) }
{
    match pair_of(alloc, file, member) {
        Ok((file, member)) => AppFault::BadValue { file, member },
        Err(_) => AppFault::NoMemory,
    }
}

pub(crate) fn trigger_count(alloc: Global, file: &str, given: u64) -> AppFault
    ensures { Tells result (TriggerCount file.now given) }
{
    match Text::from_str(alloc, file) {
        Ok(file) => AppFault::TriggerCount { file, given },
        Err(_) => AppFault::NoMemory,
    }
}

pub(crate) fn bad_function_name(alloc: Global, name: &str) -> AppFault
    ensures { Tells result (BadFunctionName name.now) }
{
    match Text::from_str(alloc, name) {
        Ok(name) => AppFault::BadFunctionName { name },
        Err(_) => AppFault::NoMemory,
    }
}

pub(crate) fn same_name(alloc: Global, name: &str) -> AppFault
    ensures { Tells result (SameName name.now) }
{
    match Text::from_str(alloc, name) {
        Ok(name) => AppFault::SameName { name },
        Err(_) => AppFault::NoMemory,
    }
}

fn pair_of(alloc: Global, file: &str, member: &str) -> Result<(Text, Text), NoMemory>
    ensures { IfOk result (λ pair. pair ≡ (file.now, member.now)) }
{
    let file = Text::from_str(alloc, file)?;
    let member = Text::from_str(alloc, member)?;
    Ok((file, member))
}
