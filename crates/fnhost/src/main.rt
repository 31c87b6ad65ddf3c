//! `fnhost`: makes the real objects, and hands the words of the command line to the top call of its command.
//!
//! Promised: the words are the arguments behind the program's name, and choose the command before any file is
//! named. Those of a script name the journal's file and the checkpoint's, that of a check the app's folder,
//! those of a sample worker its port. Words that are no command end with status 2. The exit status is the
//! top call's, unless something is missing before it: 9 where memory is refused, 6 where the null device
//! can't be opened. What a command does is the contract of `fh_script::script`, `fh_app::check` or
//! `fh_sample::sample_worker`, over objects that tell nothing. No file is opened before the descriptors of
//! the three standard streams are taken, so none can stand for a stream that was closed.
#![tactic(auto)]

ghost use Rattle.std.specs.Prelude.{◌≡◌, ◌≢◌, ◌==◌, [], not, drop, slice_get, is_some, IfOk, IfErr, OnErr, IsErr, string_bytes};
ghost use Rattle.std.specs.Process.{exit_status};
ghost use Rattle.fh_base.specs.Ends.{Concludes, plain_line};
ghost use Rattle.fh_base.specs.declared.ends.PlainEnd.TheVariants.{Usage};
ghost use Rattle.fh_script.specs.Script.{is_script as is_script_lem};
ghost use Rattle.fh_app.specs.Check.{is_check as is_check_lem};
ghost use Rattle.fh_sample.specs.Words.{trial_of};
ghost use Rattle.fnhost.specs.Words.{command_of, path_of};
ghost use Rattle.fnhost.specs.Ends.{unready_code};

use fh_app::{PathFolder, check, is_check};
use fh_base::{
    NoMemory, PlainEnd, Sink, Source, Status, StreamSink, StreamSource, write_last_line,
};
use fh_disk::FileDisk;
use fh_sample::{is_sample_worker, sample_worker};
use fh_script::{is_script, script};
use fh_workers::LoopbackDoor;
use std::alloc::Global;
use std::fs::File;
use std::io::ErrorKind;
use std::process::ExitCode;
use std::{env, fs, io};

/// What is missing before the top call can be made.
#[derive(Clone, Copy, Debug, PartialEq, Eq)]
enum Unready {
    NoMemory,
    /// The null device can't be opened, so a file might take the descriptor of a closed stream.
    NoNullDevice,
}

/// The commands of the program.
#[derive(Clone, Copy, Debug, PartialEq, Eq)]
enum ProgramCommand {
    Check,
    SampleWorker,
    Script,
}

/// Handles on the null device, which take the descriptors of standard streams that were closed. A closed
/// input then has no lines, and a write to a closed output fails.
#[derive(Drop)]
struct HeldStreams {
    _first: File,
    _second: File,
    _third: File,
}

/// The files that a script works on.
#[derive(Drop)]
struct ScriptFiles {
    journal: FileDisk<HostRuntime>,
    checkpoint: FileDisk<HostRuntime>,
}

fn main(rt: HostRuntime) -> ExitCode {
    exit_of(call(&rt))
}

fn exit_of(end: Result<Status, Unready>) -> ExitCode
    ensures ok { IfOk end (λ status. exit_status result ≡ status.code) }
    ensures err { IfErr end (λ missing. exit_status result ≡ unready_code missing) }
{
    match end {
        Ok(Status { code }) => ExitCode::from(code),
        Err(missing) => ExitCode::from(unready_code(missing)),
    }
}

fn unready_code(missing: Unready) -> u8
    ensures { result ≡ unready_code missing }
{
    match missing {
        Unready::NoMemory => 9,
        Unready::NoNullDevice => 6,
    }
}

fn call(rt: &HostRuntime) -> Result<Status, Unready> {
    let _held = hold_streams(rt)?;
    let alloc = rt.alloc();
    let arguments = arguments(rt, alloc)?;
    Ok(run(rt, alloc, behind_the_name(&arguments))?)
}

// Has to be called before any other file is opened, and kept to the end.
fn hold_streams(rt: &HostRuntime) -> Result<HeldStreams, Unready> {
    Ok(HeldStreams {
        _first: null_device(rt)?,
        _second: null_device(rt)?,
        _third: null_device(rt)?,
    })
}

fn null_device(rt: &HostRuntime) -> Result<File, Unready> {
    match fs::open(rt, "/dev/null") {
        Ok(file) => Ok(file),
        Err(_) => Err(Unready::NoNullDevice),
    }
}

// The arguments, the program's name first.
fn arguments(rt: &HostRuntime, alloc: Global) -> Result<Vec<String>, NoMemory> {
    match env::args(rt) {
        Ok(arguments) => Ok(arguments.collect(alloc)?),
        Err(error) => arguments_without(alloc, error.kind()),
    }
}

// The arguments where the host gives none for this reason: a command line that isn't text has no words.
fn arguments_without(alloc: Global, reason: ErrorKind) -> Result<Vec<String>, NoMemory>
    ensures words { IfOk result (λ none. none.items ≡ []) }
    ensures memory { IsErr result → reason ≡ ErrorKind.OutOfMemory }
{
    match reason {
        ErrorKind::OutOfMemory => Err(NoMemory),
        _ => Ok(Vec::new(alloc)),
    }
}

fn behind_the_name(arguments: &[String]) -> &[String]
    ensures { result.now ≡ drop 1 arguments.now }
{
    match arguments {
        [_name, words @ ..] => words,
        [] => arguments,
    }
}

// Runs the command of the words over the real objects. Only a command's own files are named.
fn run(rt: &HostRuntime, alloc: Global, words: &[String]) -> Result<Status, NoMemory>
    ensures usage { IfOk result (λ status. (status.code == 2) ≡ not (is_some (command_of words.now))) }
{
    match command_of(words) {
        Some(ProgramCommand::Check) => run_check(rt, alloc, words),
        Some(ProgramCommand::SampleWorker) => Ok(run_sample_worker(rt, alloc, words)),
        Some(ProgramCommand::Script) => run_script(rt, alloc, words),
        None => Ok(refuse(&mut StreamSink::new(io::writer(rt)))),
    }
}

fn command_of(words: &[String]) -> Option<ProgramCommand>
    ensures { result ≡ command_of words.now }
{
    if is_check(words) {
        return Some(ProgramCommand::Check);
    }
    if is_sample_worker(words) {
        return Some(ProgramCommand::SampleWorker);
    }
    if is_script(words) {
        return Some(ProgramCommand::Script);
    }
    None
}

// Says that the words are no command.
fn refuse<O: Sink>(sink: &mut O) -> Status
    ensures status { result.code ≡ 2 }
    ensures written { Concludes (O.written sink.old) (O.written sink.new) (plain_line Usage)
        (O.write_faults sink.old) (O.write_faults sink.new) }
{
    let end = PlainEnd::Usage;
    write_last_line(sink, end.last_line());
    Status { code: end.code() }
}

fn run_check(rt: &HostRuntime, alloc: Global, words: &[String]) -> Result<Status, NoMemory>
    ensures usage { IfOk result (λ status. (status.code == 2) ≡ not (is_check_lem words.now)) }
{
    let mut sink = StreamSink::new(io::writer(rt));
    let mut folder = folder_of(rt, alloc, words)?;
    Ok(list(alloc, words, &mut folder, &mut sink))
}

// Lists the app in the folder that the words name.
fn list<O: Sink>(
    alloc: Global,
    words: &[String],
    folder: &mut PathFolder<HostRuntime>,
    sink: &mut O,
) -> Status
    requires { string_bytes folder.old.path ≡ path_of (slice_get words.now 1) }
    ensures usage { (result.code == 2) ≡ not (is_check_lem words.now) }
    ensures unasked { result.code ≡ 2 → folder.new ≡ folder.old }
{
    check(alloc, words, folder, sink)
}

// Answers what comes to the port that the words name, on the loopback address.
fn run_sample_worker(rt: &HostRuntime, alloc: Global, words: &[String]) -> Status
    ensures usage { (result.code == 2) ≡ not (is_some (trial_of words.now)) }
{
    let mut sink = StreamSink::new(io::writer(rt));
    let mut door = LoopbackDoor::new(*rt);
    sample_worker(alloc, words, &mut door, &mut sink)
}

fn run_script(rt: &HostRuntime, alloc: Global, words: &[String]) -> Result<Status, NoMemory>
    ensures usage { IfOk result (λ status. (status.code == 2) ≡ not (is_script_lem words.now)) }
{
    let Ok(mut source) = StreamSource::new(alloc, rt.stdin()) else {
        return Err(NoMemory);
    };
    let mut sink = StreamSink::new(io::writer(rt));
    let mut files = files_of(rt, alloc, words)?;
    Ok(answer(alloc, words, &mut source, &mut sink, &mut files))
}

// Runs a script over the files that its words name.
fn answer<S: Source, O: Sink>(
    alloc: Global,
    words: &[String],
    source: &mut S,
    sink: &mut O,
    files: &mut ScriptFiles,
) -> Status
    requires journal { string_bytes files.old.journal.path ≡ path_of (slice_get words.now 1) }
    requires checkpoint { string_bytes files.old.checkpoint.path ≡ path_of (slice_get words.now 2) }
    ensures usage { (result.code == 2) ≡ not (is_script_lem words.now) }
    ensures unasked { result.code ≡ 2 → files.new ≡ files.old }
    ensures checkpoint { files.new.checkpoint ≡ files.old.checkpoint }
{
    let ScriptFiles {
        journal,
        checkpoint,
    } = files;
    script(alloc, words, source, sink, journal, checkpoint)
}

fn files_of(rt: &HostRuntime, alloc: Global, words: &[String]) -> Result<ScriptFiles, NoMemory>
    ensures journal { IfOk result (λ files. string_bytes files.journal.path ≡ path_of (slice_get words.now 1)) }
    ensures checkpoint { IfOk result (λ files. string_bytes files.checkpoint.path ≡ path_of (slice_get words.now 2)) }
{
    Ok(ScriptFiles {
        journal: file_of(rt, alloc, words, 1)?,
        checkpoint: file_of(rt, alloc, words, 2)?,
    })
}

fn folder_of(
    rt: &HostRuntime,
    alloc: Global,
    words: &[String],
) -> Result<PathFolder<HostRuntime>, NoMemory>
    ensures path { IfOk result (λ folder. string_bytes folder.path ≡ path_of (slice_get words.now 1)) }
{
    Ok(PathFolder::new(*rt, path_of(alloc, words, 1)?))
}

// The file that a word names, which isn't opened yet.
fn file_of(
    rt: &HostRuntime,
    alloc: Global,
    words: &[String],
    place: usize,
) -> Result<FileDisk<HostRuntime>, NoMemory>
    ensures path { IfOk result (λ file. string_bytes file.path ≡ path_of (slice_get words.now place)) }
{
    Ok(FileDisk::new(*rt, path_of(alloc, words, place)?))
}

fn path_of(alloc: Global, words: &[String], place: usize) -> Result<String, NoMemory>
    ensures { IfOk result (λ path. string_bytes path ≡ path_of (slice_get words.now place)) }
{
    let path = match words.get(place) {
        Some(word) => word.clone()?,
        None => String::new(alloc),
    };
    Ok(path)
}

impl From<NoMemory> for Unready {
    fn from(_refused: NoMemory) -> Unready {
        Unready::NoMemory
    }
}
