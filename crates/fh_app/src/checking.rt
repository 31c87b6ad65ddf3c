//! The command `check`.
ghost use Rattle.std.specs.Prelude.{◌≡◌, ◌≢◌, ◌==◌, not, true, IfOk, OnOk, Ok, Err};
ghost use Rattle.fh_base.specs.Faults.{Rose};
ghost use Rattle.fh_base.specs.Ends.{plain_code, plain_line};
ghost use Rattle.fh_app.specs.App.{app_of};
ghost use Rattle.fh_app.specs.Check.{is_check as is_check_lem, with_trigger, state_text as state_text_lem, function_line as function_line_lem, lines_of as lines_of_lem, fault_name as fault_name_lem, fault_place as fault_place_lem, fault_line as fault_line_lem, writing, Ends, Lists, Breaks, Refuses, Reports, Told, has_app, is_report, is_status};

use crate::app::{App, AppFiles};
use crate::fault::AppFault;
use crate::folder::{Folder, FolderFault};
use crate::function::{Function, Trigger};
use fh_base::{NoMemory, PlainEnd, Sink, Status, Text, write_all, write_last_line};
use std::alloc::Global;

/// Reads the app in the folder and prints a line for each of its functions in order, or one line with its
/// first fault. The words are those of the command line, the name of the command first. The statuses
/// are 0, 2, 3, 5, 7 and 9 of docs/commands.md.
pub fn check<D: Folder, O: Sink>(
    alloc: Global,
    words: &[String],
    folder: &mut D,
    sink: &mut O,
) -> Status
    ensures usage { (result.code == 2) ≡ not (is_check_lem words.now) }
    ensures statuses { is_status result.code ≡ true }
    ensures told { has_app result.code ≡ true → Told (D.files folder.old)
        (writing (O.written sink.old) (O.write_faults sink.old))
        (writing (O.written sink.new) (O.write_faults sink.new)) result.code }
    ensures unread { result.code ≡ 5 → Rose (D.folder_faults folder.old) (D.folder_faults folder.new)
        × Ends (writing (O.written sink.old) (O.write_faults sink.old))
        (writing (O.written sink.new) (O.write_faults sink.new)) (plain_line PlainEnd.ReadFault) }
    ensures memory { result.code ≡ 9
        → Ends (writing (O.written sink.old) (O.write_faults sink.old))
        (writing (O.written sink.new) (O.write_faults sink.new)) (plain_line PlainEnd.NoMemory) }
    ensures refused { result.code ≡ 2 → (folder.new ≡ folder.old)
        × Ends (writing (O.written sink.old) (O.write_faults sink.old))
        (writing (O.written sink.new) (O.write_faults sink.new)) (plain_line PlainEnd.Usage) }
    ensures passed { result.code ≡ 0 → D.folder_faults folder.new ≡ D.folder_faults folder.old }
    ensures files { D.files folder.new ≡ D.files folder.old }
{
    if !is_check(words) {
        return end(sink, PlainEnd::Usage);
    }
    match AppFiles::load(alloc, folder) {
        Ok(files) => report(alloc, &files, sink),
        Err(FolderFault::Failed) => end(sink, PlainEnd::ReadFault),
        Err(FolderFault::NoMemory) => end(sink, PlainEnd::NoMemory),
    }
}

/// Whether the words are `check` and a folder.
pub fn is_check(words: &[String]) -> bool
    ensures { result ≡ is_check_lem words.now }
{
    match words {
        [verb, _folder] => verb.as_str() == "check",
        _ => false,
    }
}

// Writes the lines of the app in these files, or its fault.
fn report<O: Sink>(alloc: Global, files: &AppFiles, sink: &mut O) -> Status
    ensures statuses { is_report result.code ≡ true }
    ensures reports { Reports files.now (writing (O.written sink.old) (O.write_faults sink.old))
        (writing (O.written sink.new) (O.write_faults sink.new)) result.code }
{
    match App::read(alloc, files) {
        Ok(app) => list(alloc, files, &app, sink),
        Err(AppFault::NoMemory) => end(sink, PlainEnd::NoMemory),
        Err(fault) => refuse(alloc, files, &fault, sink),
    }
}

// Writes the lines of the app.
fn list<O: Sink>(alloc: Global, _files: &AppFiles, app: &App, sink: &mut O) -> Status
    requires { app_of _files.now ≡ Ok app.now }
    ensures statuses { is_report result.code ≡ true }
    ensures reports { Reports _files.now (writing (O.written sink.old) (O.write_faults sink.old))
        (writing (O.written sink.new) (O.write_faults sink.new)) result.code }
{
    let Ok(lines) = lines_of(alloc, app.functions.as_slice()) else {
        return end(sink, PlainEnd::NoMemory);
    };
    match write_all(sink, &lines) {
        Ok(()) => Status { code: 0 },
        Err(_) => Status { code: 7 },
    }
}

// Writes the fault.
fn refuse<O: Sink>(alloc: Global, _files: &AppFiles, fault: &AppFault, sink: &mut O) -> Status
    requires is_fault { app_of _files.now ≡ Err fault.now }
    requires free { fault.now ≢ AppFault.NoMemory }
    ensures statuses { is_report result.code ≡ true }
    ensures reports { Reports _files.now (writing (O.written sink.old) (O.write_faults sink.old))
        (writing (O.written sink.new) (O.write_faults sink.new)) result.code }
{
    match fault_line(alloc, fault) {
        Ok(line) => {
            write_last_line(sink, line.as_str());
            Status { code: 3 }
        }
        Err(_) => end(sink, PlainEnd::NoMemory),
    }
}

// Writes the last line of an end.
fn end<O: Sink>(sink: &mut O, end: PlainEnd) -> Status
    ensures code { result.code ≡ plain_code end }
    ensures line { Ends (writing (O.written sink.old) (O.write_faults sink.old))
        (writing (O.written sink.new) (O.write_faults sink.new)) (plain_line end) }
{
    write_last_line(sink, end.last_line());
    Status { code: end.code() }
}

#[tactic(auto, unfolding(crate::specs::Check::lines_of))]
fn lines_of(alloc: Global, functions: &[Function]) -> Result<Vec<u8>, NoMemory>
    ensures { IfOk result (λ lines. lines.items ≡ lines_of_lem functions.now) }
{
    let mut lines = Vec::new(alloc);
    for function in functions {
        let line = function_line(alloc, function)?;
        lines.extend_from_slice(&line)?;
    }
    Ok(lines)
}

fn function_line(alloc: Global, function: &Function) -> Result<Vec<u8>, NoMemory>
    ensures { IfOk result (λ line. line.items ≡ function_line_lem function.now) }
{
    let mut line = function.name.as_str().as_bytes().to_vec(alloc)?;
    push_trigger(&mut line, &function.trigger)?;
    line.extend_from_slice(state_text(function.disabled).as_bytes())?;
    line.extend_from_slice(b"\n")?;
    Ok(line)
}

fn push_trigger(line: &mut Vec<u8>, trigger: &Trigger) -> Result<(), NoMemory>
    ensures { OnOk result (line.new.items ≡ with_trigger line.old.items trigger.now) }
{
    match trigger {
        Trigger::Queue { queue, .. } => {
            line.extend_from_slice(b" queue ")?;
            line.extend_from_slice(queue.as_bytes())?;
        }
        Trigger::Blob { container, .. } => {
            line.extend_from_slice(b" blob ")?;
            line.extend_from_slice(container.as_bytes())?;
        }
        Trigger::Timer { .. } => line.extend_from_slice(b" timer")?,
    }
    Ok(())
}

fn state_text(disabled: bool) -> &'static str
    ensures { result.now ≡ state_text_lem disabled }
{
    if disabled { " disabled" } else { "" }
}

fn fault_line(alloc: Global, fault: &AppFault) -> Result<Text, NoMemory>
    ensures { IfOk result (λ t. t ≡ fault_line_lem fault.now) }
{
    let name = fault_name(fault);
    let place = fault_place(fault);
    let text = format!(in alloc; "app {name} {place}\n")?;
    Ok(Text::new(text))
}

fn fault_name(fault: &AppFault) -> &'static str
    ensures { result.now ≡ fault_name_lem fault.now }
{
    match fault {
        AppFault::NotJson { .. } => "NotJson",
        AppFault::Missing { .. } => "Missing",
        AppFault::BadValue { .. } => "BadValue",
        AppFault::TriggerCount { .. } => "TriggerCount",
        AppFault::BadFunctionName { .. } => "BadFunctionName",
        AppFault::SameName { .. } => "SameName",
        AppFault::NoMemory => "NoMemory",
    }
}

fn fault_place(fault: &AppFault) -> &str
    ensures { result.now ≡ fault_place_lem fault.now }
{
    match fault {
        AppFault::NotJson { file }
        | AppFault::Missing { file, .. }
        | AppFault::BadValue { file, .. }
        | AppFault::TriggerCount { file, .. } => file.as_str(),
        AppFault::BadFunctionName { name } | AppFault::SameName { name } => name.as_str(),
        AppFault::NoMemory => "",
    }
}
