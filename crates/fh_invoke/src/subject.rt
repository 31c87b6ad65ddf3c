// What an invocation is about.
ghost use Rattle.std.specs.Prelude.{◌≡◌, IfOk, option_and_then};
ghost use Rattle.std.specs.Fmt.{decimal};
ghost use Rattle.fh_base.specs.Times.{time_text as time_text_lem};
ghost use Rattle.fh_base.specs.declared.times.TimeForm.TheVariants.{Offset};
ghost use Rattle.fh_invoke.specs.Subjects.{expiry_text as expiry_text_lem, run_text as run_text_lem};
ghost use Rattle.fh_invoke.specs.Subjects.{queue_subject as queue_subject_lem, blob_path as blob_path_lem};
ghost use Rattle.fh_invoke.specs.Subjects.{blob_place as blob_place_lem, blob_subject as blob_subject_lem};
ghost use Rattle.fh_invoke.specs.Subjects.{timer_subject as timer_subject_lem, subject_of as subject_of_lem};

use crate::coding::decoded;
use crate::ids::message_id;
use fh_app::Trigger;
use fh_base::{NoMemory, QueueName, Text, TimeForm, time_text, utf8_text};
use fh_event::{About, BegunJob};
use fh_exprs::{Pairs, Pattern};
use std::alloc::Global;

/// What an invocation is about, as its function's trigger takes it.
#[derive(Drop)]
pub(crate) enum Subject {
    /// A job of another kind than the trigger takes.
    Bare,
    Queue(QueueMessage),
    Blob {
        content: Option<Text>,
        place: Option<BlobPlace>,
    },
    Timer {
        past_due: bool,
        last: Text,
        next: Text,
        updated: Text,
    },
}

/// A message as a worker sees it: its decoded text, and times and numbers as texts.
#[derive(Drop)]
pub(crate) struct QueueMessage {
    pub text: Text,
    pub count: u64,
    pub expiry: Text,
    pub id: Text,
    pub put_at: Text,
    pub visible_at: Text,
    pub receipt: Text,
}

/// A blob's container and name with a slash between, and the texts of the pattern's names in its name.
#[derive(Drop)]
pub(crate) struct BlobPlace {
    pub path: Text,
    pub names: Pairs,
}

#[tactic(auto, unfolding(crate::specs::Subjects::subject_of))]
pub(crate) fn subject_of(
    alloc: Global,
    base64: bool,
    trigger: &Trigger,
    job: &BegunJob,
) -> Result<Subject, NoMemory>
    ensures { IfOk result (λ s. s ≡ subject_of_lem base64 trigger.now job.now) }
{
    match trigger {
        Trigger::Queue { .. } => queue_subject(alloc, base64, job),
        Trigger::Blob {
            container,
            pattern,
            ..
        } => blob_subject(alloc, container, pattern, job),
        Trigger::Timer { .. } => timer_subject(alloc, job),
    }
}

fn queue_subject(alloc: Global, base64: bool, job: &BegunJob) -> Result<Subject, NoMemory>
    ensures { IfOk result (λ s. s ≡ queue_subject_lem base64 job.now) }
{
    match job {
        BegunJob::Timer { .. } => Ok(Subject::Bare),
        BegunJob::Message {
            number,
            text,
            count,
            receipt,
            put_at,
            expiry,
            visible_at,
            ..
        } => Ok(Subject::Queue(QueueMessage {
            text: decoded(alloc, base64, text.as_str())?,
            count: *count,
            expiry: expiry_text(alloc, *expiry)?,
            id: message_id(alloc, *number)?,
            put_at: offset_text(alloc, *put_at)?,
            visible_at: offset_text(alloc, *visible_at)?,
            receipt: decimal_text(alloc, *receipt)?,
        })),
    }
}

fn blob_subject(
    alloc: Global,
    container: &QueueName,
    pattern: &Pattern,
    job: &BegunJob,
) -> Result<Subject, NoMemory>
    ensures { IfOk result (λ s. s ≡ blob_subject_lem container.now pattern.now job.now) }
{
    match job {
        BegunJob::Timer { .. } => Ok(Subject::Bare),
        BegunJob::Message { about, content, .. } => {
            let content = copied(alloc, content)?;
            let place = place_about(alloc, container, pattern, about)?;
            Ok(Subject::Blob { content, place })
        }
    }
}

fn copied(alloc: Global, text: &Option<Text>) -> Result<Option<Text>, NoMemory>
    ensures { IfOk result (λ t. t ≡ text.now) }
{
    match text {
        Some(text) => Ok(Some(text.copy(alloc)?)),
        None => Ok(None),
    }
}

fn place_about(
    alloc: Global,
    container: &QueueName,
    pattern: &Pattern,
    about: &Option<About>,
) -> Result<Option<BlobPlace>, NoMemory>
    ensures { IfOk result
        (λ p. p ≡ option_and_then (blob_place_lem container.now pattern.now) about.now) }
{
    match about {
        Some(about) => blob_place(alloc, container, pattern, about),
        None => Ok(None),
    }
}

fn blob_place(
    alloc: Global,
    container: &QueueName,
    pattern: &Pattern,
    about: &About,
) -> Result<Option<BlobPlace>, NoMemory>
    ensures { IfOk result (λ p. p ≡ blob_place_lem container.now pattern.now about.now) }
{
    if about.container.as_bytes() != container.as_bytes() {
        return Ok(None);
    }
    match pattern.matches(alloc, about.blob.as_str())? {
        Some(names) => {
            let path = blob_path(alloc, about)?;
            let names = Pairs::from_vec(names);
            Ok(Some(BlobPlace { path, names }))
        }
        None => Ok(None),
    }
}

fn blob_path(alloc: Global, about: &About) -> Result<Text, NoMemory>
    ensures { IfOk result (λ t. t ≡ blob_path_lem about.now) }
{
    let container = name_text(&about.container);
    let blob = about.blob.as_str();
    let path = format!(in alloc; "{container}/{blob}")?;
    Ok(Text::new(path))
}

// A name's bytes are ASCII, so they are a text.
#[tactic(auto, using(crate::proofs::NameTexts::is_text))]
fn name_text(name: &QueueName) -> &str
    ensures { result.now ≡ name.now }
{
    match utf8_text(name.as_bytes()) {
        Some(text) => text,
        None => "",
    }
}

fn timer_subject(alloc: Global, job: &BegunJob) -> Result<Subject, NoMemory>
    ensures { IfOk result (λ s. s ≡ timer_subject_lem job.now) }
{
    match job {
        BegunJob::Timer {
            past_due,
            last,
            next,
            updated,
        } => Ok(Subject::Timer {
            past_due: *past_due,
            last: run_text(alloc, *last)?,
            next: run_text(alloc, *next)?,
            updated: offset_text(alloc, *updated)?,
        }),
        BegunJob::Message { .. } => Ok(Subject::Bare),
    }
}

fn expiry_text(alloc: Global, expiry: Option<u64>) -> Result<Text, NoMemory>
    ensures { IfOk result (λ t. t ≡ expiry_text_lem expiry) }
{
    match expiry {
        Some(at) => offset_text(alloc, at),
        None => Text::from_str(alloc, "9999-12-31T23:59:59+00:00"),
    }
}

fn run_text(alloc: Global, run: Option<u64>) -> Result<Text, NoMemory>
    ensures { IfOk result (λ t. t ≡ run_text_lem run) }
{
    match run {
        Some(at) => offset_text(alloc, at),
        None => Text::from_str(alloc, "0001-01-01T00:00:00+00:00"),
    }
}

fn offset_text(alloc: Global, at: u64) -> Result<Text, NoMemory>
    ensures { IfOk result (λ t. t ≡ time_text_lem Offset at) }
{
    Ok(Text::new(time_text(alloc, at, TimeForm::Offset)?))
}

pub(crate) fn decimal_text(alloc: Global, number: u64) -> Result<Text, NoMemory>
    ensures { IfOk result (λ t. t ≡ decimal number) }
{
    Ok(Text::new(format!(in alloc; "{number}")?))
}
